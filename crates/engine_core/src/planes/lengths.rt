//! Planes of words of either length.

ghost use Rattle.std.specs.Prelude.{◌*◌, ◌≡◌, IfOk, length};
ghost use Rattle.engine_core.specs.Common.{FitsIn, needs_in, needs_of};
ghost use Rattle.engine_core.specs.PlaneNotes.{IsSuited};
ghost use Rattle.engine_core.specs.PlanePosition.{AreChosen, notes_of, word_places};

use crate::needs::Needs;
use crate::planes::rules::{BinaryRules, PlaneNotes, PlaneRules};
use grid_core::{Planes, Word};
use std::alloc::{AllocError, Global};
use std::mem::swap;

/// Planes, and what rules keep beside them.
#[derive(Drop)]
pub struct NotedPlanes<W: Word, N> {
    pub(crate) planes: Planes<W>,
    pub(crate) notes: N,
}

/// Planes of words of 64 places, or of 128, with what rules keep beside either.
#[derive(Drop)]
pub enum EitherPlanes<S, L> {
    Short(NotedPlanes<u64, S>),
    Long(NotedPlanes<u128, L>),
}

/// The planes of rules, with what these keep beside them.
pub(crate) type PlanesOf<R> = EitherPlanes<<R as PlaneRules>::Short, <R as PlaneRules>::Long>;

/// A call at planes of either length, and what is kept beside them.
macro_rules! at_planes {
    ($planes:expr, $noted:ident => $call:expr) => {
        match $planes {
            crate::planes::lengths::EitherPlanes::Short($noted) => $call,
            crate::planes::lengths::EitherPlanes::Long($noted) => $call,
        }
    };
}

pub(crate) use at_planes;

/// Planes of words of 128 places, with what the rules keep beside them.
fn long<R: PlaneRules>(
    alloc: Global,
    rules: &R,
    made: Needs,
) -> Result<NotedPlanes<u128, R::Long>, AllocError>
    ensures { IfOk result (λ noted.
        (length noted.planes.takings ≡ (R.system rules.now).cells * 2)
        × R.Long.fits noted.notes (needs_in made)) }
{
    Ok(NotedPlanes {
        planes: Planes::new(alloc, rules.size())?,
        notes: R::Long::new(alloc, made)?,
    })
}

/// Planes of words as long as the sides of the grid ask for, with what the rules keep beside them. Where these words may be too
/// short for rules of these sizes, also planes of long words to change for.
pub(crate) fn planes_for<R: PlaneRules>(
    alloc: Global,
    rules: &R,
    made: Needs,
) -> Result<(PlanesOf<R>, Option<PlanesOf<R>>), AllocError>
    requires { needs_in made ≡ needs_of (R.system rules.now) }
    ensures { IfOk result (λ both.
        AreChosen R.Short.fits R.Long.fits R.all_short made both.0 both.1) }
{
    let size = rules.size();
    if size.w() > 64 || size.h() > 64 {
        return Ok((EitherPlanes::Long(long(alloc, rules, made)?), None));
    }
    let short = EitherPlanes::Short(NotedPlanes {
        planes: Planes::new(alloc, size)?,
        notes: R::Short::new(alloc, made)?,
    });
    if rules.are_short(made) {
        return Ok((short, None));
    }
    Ok((short, Some(EitherPlanes::Long(long(alloc, rules, made)?))))
}

/// Changes for the spare planes if the words of these are too short for the grid.
pub(crate) fn choose<R: PlaneRules>(
    planes: &mut PlanesOf<R>,
    spare: &mut Option<PlanesOf<R>>,
    rules: &R,
    made: Needs,
)
    requires fits { FitsIn (needs_of (R.system rules.now)) (needs_in made) }
    requires planes { AreChosen R.Short.fits R.Long.fits R.all_short made planes.old spare.old }
    ensures suited { IsSuited (R.extent rules.now) (word_places (notes_of planes.new)) }
    ensures planes { AreChosen R.Short.fits R.Long.fits R.all_short made planes.new spare.new }
{
    let size = rules.size();
    if let EitherPlanes::Short(_noted) = &*planes
        && (size.w() > 64 || size.h() > 64)
        && let Some(other) = spare
    {
        swap(planes, other);
    }
}
