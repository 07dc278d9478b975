//! Count houses, each told by few numbers.
#![tactic(auto, using(crate::proofs::LawSets::house_laws))]

ghost use Rattle.std.specs.Prelude.{◌*◌, ◌+◌, ◌<◌, ◌^◌, ◌≡◌, ◌≤◌, Bool, ℕ, [], length, map, slice_index, true};
ghost use Rattle.fields_core.specs.Common.{AreBelow, ArePassing, CountsPassing, IsCountIf, IsNext, TestsBelow, beside, column_places, exactly, has_place, house_told, one_at_least, one_at_most, places_in_segments, range_with_len, row_places, segment_places};

use grid_core::{Size, step};

/// Cells one after another along a row or a column: the `k`-th stands at `first + k * stride`.
#[derive(Clone, Copy)]
pub struct Segment {
    first: u16,
    stride: u8,
    len: u8,
}

impl Segment {
    /// So many cells from `first` on.
    pub(crate) fn of(first: usize, stride: usize, len: usize) -> Segment
        requires first { first < 2 ^ 16 }
        requires stride { stride < 2 ^ 8 }
        requires len { len < 2 ^ 8 }
        ensures { segment_places result ≡ map (λ k. first + k * stride) (range_with_len 0 len) }
    {
        let (first, stride, len) = (first as u16, stride as u8, len as u8);
        Segment { first, stride, len }
    }

    /// No cell.
    pub(crate) fn none() -> Segment
        ensures { segment_places result ≡ [] }
    {
        Segment::of(0, 0, 0)
    }

    /// The cells of a row, from the left.
    pub(crate) fn row(size: Size, y: usize) -> Segment
        requires { y < size.h }
        ensures places { segment_places result ≡ row_places size y }
        ensures within { AreBelow (size.w * size.h) (segment_places result) }
    {
        let w = usize::from(size.w());
        Segment::of(y * w, 1, w)
    }

    /// The cells of a column, from the top.
    pub(crate) fn column(size: Size, x: usize) -> Segment
        requires { x < size.w }
        ensures places { segment_places result ≡ column_places size x }
        ensures within { AreBelow (size.w * size.h) (segment_places result) }
    {
        Segment::of(x, usize::from(size.w()), usize::from(size.h()))
    }

    /// How many cells it has.
    pub(crate) fn len(self) -> usize
        ensures { result ≡ length (segment_places self) }
    {
        usize::from(self.len)
    }

    /// The place of its `k`-th cell.
    pub(crate) fn place(self, k: usize) -> usize
        requires { k < length (segment_places self) }
        ensures { result ≡ slice_index (segment_places self) k }
    {
        usize::from(self.first) + k * usize::from(self.stride)
    }

    /// Its cells alone.
    pub(crate) fn alone(self) -> [Segment; 4]
        ensures { places_in_segments result ≡ segment_places self }
    {
        [self, Segment::none(), Segment::none(), Segment::none()]
    }
}

/// The fewest and the most ones that the cells of a house may hold together.
#[derive(Clone, Copy)]
pub struct Bounds {
    pub(crate) least: u32,
    pub(crate) most: u32,
}

/// The cells of four segments, one segment after another, and the bounds of the ones among them.
#[derive(Clone, Copy)]
pub struct House {
    pub(crate) cells: [Segment; 4],
    pub(crate) bounds: Bounds,
}

impl House {
    /// Cells that hold so many ones.
    pub(crate) fn exactly(ones: u8, cells: [Segment; 4]) -> House
        ensures { house_told result ≡ exactly ones (places_in_segments cells) }
    {
        let most = u32::from(ones);
        let bounds = Bounds { least: most, most };
        House { cells, bounds }
    }

    /// Cells that hold one 1 at most.
    pub(crate) fn one_at_most(cells: [Segment; 4]) -> House
        ensures { house_told result ≡ one_at_most (places_in_segments cells) }
    {
        let bounds = Bounds { least: 0, most: 1 };
        House { cells, bounds }
    }

    /// Cells that hold one 1 at least.
    pub(crate) fn one_at_least(cells: [Segment; 4]) -> House
        ensures { house_told result ≡ one_at_least (places_in_segments cells) }
    {
        let most = count_cells(&cells) as u32;
        let bounds = Bounds { least: 1, most };
        House { cells, bounds }
    }

    /// How many cells it has.
    pub(crate) fn len(&self) -> usize
        ensures { result ≡ length (house_told self.now).places }
    {
        count_cells(&self.cells)
    }

    /// The place of its `k`-th cell.
    pub(crate) fn place(&self, k: usize) -> usize
        requires { k < length (house_told self.now).places }
        ensures { result ≡ slice_index (house_told self.now).places k }
    {
        let mut left = k;
        for number in 0..3 {
            let segment = self.cells[number];
            if left < segment.len() {
                return segment.place(left);
            }
            left -= segment.len();
        }
        self.cells[3].place(left)
    }

    /// Whether it has the place.
    pub(crate) fn has(&self, place: usize) -> bool
        ensures { result ≡ has_place (house_told self.now).places place }
    {
        next_passing(0, self.len(), |k| self.place(k) == place).is_some()
    }
}

/// How many cells segments have together.
fn count_cells(cells: &[Segment; 4]) -> usize
    ensures long { result ≡ length (places_in_segments cells.now) }
    ensures few { result < 2 ^ 10 }
{
    let [a, b, c, d] = *cells;
    a.len as usize + b.len as usize + c.len as usize + d.len as usize
}

/// The cells beside the place that pass, in the order up, left, right, down.
pub(crate) fn segments_beside<F: Fn(usize) -> bool>(
    size: Size,
    place: usize,
    passes: F,
) -> [Segment; 4]
    requires place_in { place < size.w * size.h }
    requires callable { (c : ℕ) → c < size.w * size.h → F.pre passes c }
    ensures { ArePassing (F.post passes) size (beside size place) (places_in_segments result) }
{
    let mut cells = Segment::none().alone();
    for direction in 0..4 {
        if let Some(other) = step(size, place, direction) {
            if passes(other) {
                cells[direction] = Segment::of(other, 0, 1);
            }
        }
    }
    cells
}

/// The first number from `from` to the one before `end` that passes.
pub(crate) fn next_passing<F: Fn(usize) -> bool>(
    from: usize,
    end: usize,
    passes: F,
) -> Option<usize>
    requires { (n : ℕ) → n < end → F.pre passes n }
    ensures { (test : ℕ → Bool) → TestsBelow (F.post passes) test end
        → IsNext test end from result }
{
    for number in from..end {
        if passes(number) {
            return Some(number);
        }
    }
    None
}

/// One if the place is there and passes, and else none.
fn count_if<F: Fn(usize) -> bool>(passes: &F, there: bool, place: usize) -> usize
    requires { there ≡ true → F.pre passes.now place }
    ensures count { IsCountIf (F.post passes.now) there place result }
    ensures few { result ≤ 1 }
{
    usize::from(there && passes(place))
}

/// How many cells beside the cell of that column and row pass.
pub(crate) fn count_passing<F: Fn(usize) -> bool>(
    size: Size,
    x: usize,
    y: usize,
    passes: F,
) -> usize
    requires x_in { x < size.w }
    requires y_in { y < size.h }
    requires callable { (c : ℕ) → c < size.w * size.h → F.pre passes c }
    ensures count { CountsPassing (F.post passes) size
        (beside size (y * size.w + x)) result }
    ensures few { result ≤ 4 }
{
    let (w, h) = (usize::from(size.w()), usize::from(size.h()));
    let place = y * w + x;
    let up = count_if(&passes, y > 0, place.saturating_sub(w));
    let left = count_if(&passes, x > 0, place.saturating_sub(1));
    let right = count_if(&passes, x + 1 < w, place + 1);
    let down = count_if(&passes, y + 1 < h, place + w);
    up + left + right + down
}
