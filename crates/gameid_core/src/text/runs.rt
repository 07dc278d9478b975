//! Runs of equal cells.

ghost use Rattle.std.specs.Prelude.{◌≡◌, ◌++◌, replicate, OnOk};

use std::alloc::AllocError;

/// Adds so many copies of one cell.
pub(crate) fn push_run<T: Copy>(cells: &mut Vec<T>, count: usize, cell: T) -> Result<(), AllocError>
    ensures { OnOk result (cells.new.items ≡ cells.old.items ++ replicate count cell) }
{
    for _ in 0..count {
        cells.push(cell)?;
    }
    Ok(())
}
