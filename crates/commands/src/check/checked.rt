//! Puzzles whose grids can be checked, and what each game tells of a grid.
ghost use Rattle.std.specs.Prelude.{IfOk};
ghost use Rattle.gameid_core.specs.PrintedForm.{IsGridIn};
ghost use Rattle.commands.specs.Replies.{answer_in};

use crate::answers::reply::Reply;
use crate::played::Played;
use gameid_core::Printed;
use grid_core::Grid;
use std::alloc::{AllocError, Global};

/// A puzzle whose grids can be checked.
pub trait Checked: Played {
    /// The answer to a grid: that it is a solution, or the first rule that it breaks. The grid has
    /// a number for each cell, by place.
    fn check_reply(&self, alloc: Global, grid: &Grid) -> Result<Reply, AllocError>
        requires { IsGridIn Self.Printed self.now grid.now }
        ensures { IfOk result (λ r. Self.game.checks self.now grid.now (answer_in r)) };
}
