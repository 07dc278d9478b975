//! What a visit strikes before it pairs: by cells that have one value alone, and by values that one cell has alone.
#![tactic(auto, using(crate::proofs::LawSets::peel_laws))]

ghost use Rattle.std.specs.Prelude.{◌≡◌, ℕ, ◌≤◌, ◌&&◌, ◌||◌, true, length};
ghost use Rattle.grid_core.specs.Candidates.{max_values};
ghost use Rattle.engine_core.specs.Sets.{has_bit as is_set};
ghost use Rattle.solo_core.specs.PeeledHouses.{AreCellsOf, AreLone, AreMetOutside, AreWhole, IsPeeled, AreAllCounts, AreSettledCells, IsRest, KeepsOthers, AddsSingle, AddsShared, AreDropped, is_lone};

use crate::visits::bits::others_below;

/// The values that some cell has, those that some cell has alone, and those that several cells have.
#[derive(Clone, Copy)]
pub(crate) struct Counts {
    pub(crate) some: u32,
    pub(crate) single: u32,
    pub(crate) shared: u32,
}

/// Strikes the value of a cell that has one alone from the other cells, and the other values of a cell that is the only
/// one with some value, until there is no such cell. Tells the values that a cell then has alone, and no other cell
/// has. Every filling without repeat stays. Cells outside the rest have one value each, which is settled.
pub(crate) fn peel(values: u8, counted: Counts, settled: u32, rest: &[u8], sets: &mut [u32]) -> u32
    requires few { values ≤ max_values }
    requires square { length sets.old ≡ values }
    requires counts { AreAllCounts sets.old counted.some counted.single counted.shared }
    requires settled { AreSettledCells sets.old rest.now settled }
    requires rest { IsRest values sets.old rest.now }
    ensures peeled { IsPeeled values sets.old sets.new }
    ensures lone { AreLone values sets.new result }
    ensures outside { AreMetOutside sets.new rest.now result }
    ensures rest { IsRest values sets.new rest.now }
    ensures others { KeepsOthers rest.now sets.old sets.new }
{
    let mut counts = counted;
    for _turn in 0..sets.len() {
        let narrowed = narrow_all(values, counts, settled, rest, sets);
        let is_same = narrowed.single == counts.single && narrowed.shared == counts.shared;
        if is_same || !narrowed.are_open() {
            return narrowed.lone(values) | settled;
        }
        counts = narrowed;
    }
    counts.lone(values) | settled
}

impl Counts {
    /// The counts of settled cells, which have these values.
    pub(crate) fn of_settled(settled: u32) -> Counts
        ensures some { result.some ≡ settled }
        ensures single { result.single ≡ settled }
        ensures shared { result.shared ≡ 0 }
    {
        Counts {
            some: settled,
            single: settled,
            shared: 0,
        }
    }

    /// The counts with one more cell.
    #[tactic(auto, using(crate::proofs::LawSets::counts_laws))]
    pub(crate) fn with(self, set: u32) -> Counts
        ensures some { (v : ℕ) → is_set result.some v ≡ (is_set self.some v || is_set set v) }
        ensures single { AddsSingle self.single set result.single }
        ensures shared { AddsShared self.shared self.some set result.shared }
    {
        let alone = if set & set.wrapping_sub(1) == 0 {
            set
        } else {
            0
        };
        Counts {
            some: self.some | set,
            single: self.single | alone,
            shared: self.shared | (self.some & set),
        }
    }

    /// Whether a cell has alone what others have too, or a cell with several values has one that no other has.
    pub(crate) fn are_open(self) -> bool {
        self.single & self.shared | self.some & !self.shared & !self.single != 0
    }

    /// The values that a cell has alone and no other has.
    pub(crate) fn lone(self, values: u8) -> u32
        requires { values ≤ max_values }
        ensures { (v : ℕ) → is_set result v ≡ is_lone values self.single self.shared v }
    {
        self.single & others_below(values, self.shared)
    }
}

/// Strikes from each set of the rest what the counts say, and counts again.
fn narrow_all(values: u8, counts: Counts, settled: u32, rest: &[u8], sets: &mut [u32]) -> Counts
    requires few { values ≤ max_values }
    requires square { length sets.old ≡ values }
    requires counts { AreAllCounts sets.old counts.some counts.single counts.shared }
    requires settled { AreSettledCells sets.old rest.now settled }
    requires rest { IsRest values sets.old rest.now }
    ensures peeled { IsPeeled values sets.old sets.new }
    ensures counts { AreAllCounts sets.new result.some result.single result.shared }
    ensures others { KeepsOthers rest.now sets.old sets.new }
{
    let mut narrowed = Counts::of_settled(settled);
    for i in 0..rest.len() {
        let cell = usize::from(rest[i]);
        let set = narrow(values, counts, sets[cell]);
        sets[cell] = set;
        narrowed = narrowed.with(set);
    }
    narrowed
}

/// The values of the set that no other cell has, if it has such; else those that no cell has alone, if it has such.
fn narrow(values: u8, counts: Counts, set: u32) -> u32
    requires { values ≤ max_values }
    ensures inside { (v : ℕ) → is_set result v ≡ true → is_set set v ≡ true }
    ensures dropped { AreDropped values counts.single counts.shared set result }
{
    let own = set & others_below(values, counts.shared);
    if own != 0 {
        return own;
    }
    let open = set & others_below(values, counts.single);
    if open != 0 { open } else { set }
}

/// Whether each cell that has none of these values has all others. Those outside the rest have one of them.
pub(crate) fn are_whole(values: u8, lone: u32, rest: &[u8], sets: &[u32]) -> bool
    requires few { values ≤ max_values }
    requires rest_in { AreCellsOf sets.now rest.now }
    requires outside { AreMetOutside sets.now rest.now lone }
    ensures { result ≡ true → AreWhole values sets.now lone }
{
    let others = others_below(values, lone);
    if others == 0 {
        return true;
    }
    for i in 0..rest.len() {
        let set = sets[usize::from(rest[i])];
        if set & lone == 0 && set & others != others {
            return false;
        }
    }
    true
}
