//! Houses whose fillings are tried one by one.

ghost use Rattle.std.specs.Prelude.{◌<◌};

use super::{CELLS, Cells, Numbers, Sets, VALUES};

/// Most houses of a small puzzle.
const HOUSES: usize = 64;

/// What the numbers of a house's cells have to keep to.
#[derive(Clone, Copy)]
pub(crate) enum Condition {
    /// So many ones, from the least to the most.
    Ones { least: usize, most: usize },
    /// Runs of ones of these lengths, each a digit.
    Runs(u32),
    /// No number twice.
    Different,
    /// The same, struck by single values and single places alone.
    Single,
    /// Each number of these cells has a place in the others too, and the other way round.
    Crossing(Cells),
}

/// Some cells with their condition.
#[derive(Clone, Copy)]
pub(crate) struct House {
    members: Cells,
    condition: Condition,
    /// No cell from here on is its.
    end: usize,
}

impl House {
    pub(crate) fn new(members: Cells, condition: Condition) -> House {
        let mut end = 0;
        for cell in 0..CELLS {
            if members[cell] {
                end = cell + 1;
            }
        }
        House {
            members,
            condition,
            end,
        }
    }

    /// Whether the numbers of its cells keep to its condition.
    fn is_met(&self, grid: &Numbers) -> bool {
        let mut counts = [0usize; VALUES];
        for cell in 0..self.end.min(CELLS) {
            if self.members[cell] && grid[cell] < VALUES {
                counts[grid[cell]] = counts[grid[cell]].saturating_add(1);
            }
        }
        match self.condition {
            Condition::Ones { least, most } => least <= counts[1] && counts[1] <= most,
            Condition::Runs(lengths) => self.runs(grid) == lengths,
            Condition::Crossing(_) => true,
            _ => counts.iter().all(|count| *count < 2),
        }
    }

    /// The lengths of the runs of ones, each below 10, as digits.
    fn runs(&self, grid: &Numbers) -> u32 {
        let (mut lengths, mut within) = (0u32, false);
        for cell in 0..self.end.min(CELLS) {
            if self.members[cell] && grid[cell] == 1 {
                let before = if within {
                    lengths
                } else {
                    lengths.saturating_mul(10)
                };
                lengths = before.saturating_add(1);
                within = true;
            } else if self.members[cell] {
                within = false;
            }
        }
        lengths
    }

    /// Tries each number of the cells from this one on, and marks what stands in a filling.
    fn try_from(&self, sets: &Sets, cell: usize, grid: &mut Numbers, shown: &mut Sets) {
        if cell >= CELLS || cell >= self.end {
            if self.is_met(grid) {
                self.show(grid, shown);
            }
            return;
        }
        if !self.members[cell] {
            self.try_from(sets, cell + 1, grid, shown);
            return;
        }
        for value in 0..VALUES {
            if sets[cell][value] && !self.repeats(grid, cell, value) {
                grid[cell] = value;
                self.try_from(sets, cell + 1, grid, shown);
            }
        }
    }

    /// Whether the number may not stand in the cell because it stands in one before.
    fn repeats(&self, grid: &Numbers, cell: usize, value: usize) -> bool {
        matches!(self.condition, Condition::Different)
            && (0..cell.min(CELLS)).any(|other| self.members[other] && grid[other] == value)
    }

    /// Marks the numbers of its cells.
    fn show(&self, grid: &Numbers, shown: &mut Sets) {
        for cell in 0..self.end.min(CELLS) {
            if self.members[cell] && grid[cell] < VALUES {
                shown[cell][grid[cell]] = true;
            }
        }
    }

    /// Whether single values and single places leave the value in the cell. There are as many values as cells.
    fn leaves_single(&self, sets: &Sets, cell: usize, value: usize) -> bool
        requires cell_in { cell < 36 }
        requires value_in { value < 6 }
    {
        let (mut places, mut cells) = ([0usize; VALUES], 0usize);
        let mut lost = false;
        for other in 0..CELLS {
            let values = sets[other].iter().filter(|there| **there).count();
            lost |= self.members[other] && values == 0;
            lost |= self.members[other] && other != cell && values == 1 && sets[other][value];
            cells = cells.saturating_add(usize::from(self.members[other]));
            for v in 0..VALUES {
                places[v] = places[v].saturating_add(usize::from(
                    self.members[other] && sets[other][v],
                ));
            }
        }
        for v in 0..VALUES {
            lost |= v < cells && places[v] == 0;
            lost |= v != value && places[v] == 1 && sets[cell][v];
        }
        !lost
    }

    /// Whether one of the others of a crossing has a place for the value.
    fn has_beyond(&self, sets: &Sets, block: &Cells, cell: usize, value: usize) -> bool
        requires cell_in { cell < 36 }
        requires value_in { value < 6 }
    {
        for other in 0..CELLS {
            if self.members[other] && block[other] != block[cell] && sets[other][value] {
                return true;
            }
        }
        false
    }

    /// Strikes from its cells what stands in none of its fillings, or what single values, single places or the crossing strike.
    pub(crate) fn strike(&self, sets: &mut Sets) {
        let (before, mut shown) = (*sets, [[false; VALUES]; CELLS]);
        if !matches!(self.condition, Condition::Single | Condition::Crossing(_)) {
            self.try_from(sets, 0, &mut [0; CELLS], &mut shown);
        }
        for cell in 0..CELLS {
            for value in 0..VALUES {
                sets[cell][value] = before[cell][value]
                    && match self.condition {
                        _ if !self.members[cell] => true,
                        Condition::Single => self.leaves_single(&before, cell, value),
                        Condition::Crossing(block) => self.has_beyond(&before, &block, cell, value),
                        _ => shown[cell][value],
                    };
            }
        }
    }
}

/// The houses of a puzzle: so many of them.
#[derive(Clone, Copy)]
pub(crate) struct Houses {
    list: [House; HOUSES],
    count: usize,
}

impl Houses {
    /// No houses.
    pub(crate) fn new() -> Houses {
        let none = House::new([false; CELLS], Condition::Different);
        Houses {
            list: [none; HOUSES],
            count: 0,
        }
    }

    /// Adds a house, as long as there is room.
    pub(crate) fn push(&mut self, members: Cells, condition: Condition) {
        if self.count < HOUSES {
            self.list[self.count] = House::new(members, condition);
            self.count += 1;
        }
    }

    /// The closure of the board: each house strikes, until none does.
    pub(crate) fn closure(&self, sets: &Sets) -> Sets {
        let mut left = *sets;
        for _ in 0..CELLS * VALUES {
            let before = left;
            for house in self.list[..self.count.min(HOUSES)].iter() {
                house.strike(&mut left);
            }
            if left == before {
                return left;
            }
        }
        left
    }

    /// Whether the grid keeps to each house's condition.
    pub(crate) fn are_met(&self, grid: &Numbers) -> bool {
        self.list[..self.count.min(HOUSES)]
            .iter()
            .all(|house| house.is_met(grid))
    }
}
