//! Puzzles that can be made, of a size and a seed's generator.
ghost use Rattle.std.specs.Prelude.{◌≡◌, IfOk, IfErr};
ghost use Rattle.gameid_core.specs.PrintedForm.{IsGridIn};
ghost use Rattle.commands.specs.Unmade.{IsMade, IsUnmade, unmade_by};
ghost use Rattle.commands.specs.declared.generate.makable.Unmade.TheVariants as unmade;

use crate::generate::Recipe;
use crate::played::Played;
use gameid_core::IdFault;
use grid_core::Size;
use maker_core::{Made, MakeFault};
use std::alloc::Global;

/// Why no puzzle was made.
#[derive(Drop)]
pub enum Unmade {
    /// The size has that fault.
    Size(IdFault),
    /// No try made a puzzle with one solution.
    Exhausted,
    /// Memory was refused.
    Memory,
}

impl From<IdFault> for Unmade {
    ghost from_gives = { λ fault e. e ≡ unmade.Size fault };

    fn from(fault: IdFault) -> Unmade {
        Unmade::Size(fault)
    }
}

impl From<MakeFault> for Unmade {
    ghost from_gives = { λ fault e. e ≡ unmade_by fault };

    fn from(fault: MakeFault) -> Unmade {
        match fault {
            MakeFault::SizeRange => Unmade::Size(IdFault::SizeRange),
            MakeFault::Exhausted => Unmade::Exhausted,
            MakeFault::Memory => Unmade::Memory,
        }
    }
}

/// A puzzle that can be made.
pub trait Makable: Played {
    /// Makes a puzzle of the size that the text is, with its one solution.
    fn make(alloc: Global, size: &[u8], recipe: Recipe) -> Result<Made<Self>, Unmade>
        ensures made { IfOk result (IsMade Self.game recipe size.now) }
        ensures grid { IfOk result (λ made. IsGridIn Self.Printed made.puzzle made.answer) }
        ensures unmade { IfErr result (IsUnmade Self.game recipe size.now) };
}
