//! What a visit of a line works in.
#![tactic(auto)]

use crate::line_clue::Rows;
use std::alloc::{AllocError, Global};

/// What a visit of a line works in: the rows of a table, in one block. It lends them, and nothing else: no call of it takes
/// memory but the one that makes it.
#[derive(Drop)]
pub struct LineScratch {
    rows: Box<Rows>,
}

impl LineScratch {
    /// Rows to be written.
    ///
    /// # Errors
    ///
    /// When memory was refused.
    pub(crate) fn new(alloc: Global) -> Result<LineScratch, AllocError> {
        Ok(LineScratch {
            rows: Box::new(alloc, Rows::new())?,
        })
    }

    /// The rows, whatever they hold.
    pub(crate) fn rows(&mut self) -> &mut Rows {
        &mut self.rows
    }
}
