//! The lines of a trace: what a closing visited, or how many sweeps it made.
ghost use Rattle.std.specs.Prelude.{◌≡◌, ◌+◌, ◌<◌, ◌≤◌, ℕ, false, length, slice_index, OnErr, OnOk, IfErr, string_bytes, string_len};
ghost use Rattle.gameid_core.specs.GridTexts.{Adds};
ghost use Rattle.commands.specs.Answers.{PutUpTo, PutBegun};
ghost use Rattle.commands.specs.Stops.{is_broken_end};
ghost use Rattle.commands.specs.TracePieces.{KeptOrPut, VisitsBegun, VisitsInPieces, VisitsPut};
ghost use Rattle.commands.specs.Traces.{visit_line, sweeps_text};

use crate::answers::decimal::push_numbered;
use crate::answers::status::Stop;
use crate::ends::Sink;
use crate::ends::output::put_all;
use crate::solve::solvable::Solvable;
use std::alloc::AllocError;

/// How many bytes of a trace are gathered before they are put.
const FULL_PIECE: usize = 4_096;

/// Most bytes of the line of a visit: a name and a line end.
const MAX_LINE: usize = 60;

/// Adds the line of a visit to a text.
fn push_visit<P: Solvable>(puzzle: &P, visit: usize, text: &mut String) -> Result<(), AllocError>
    requires { visit < P.named puzzle.now }
    ensures line { OnOk result
        (Adds (visit_line (P.game.visit_name puzzle.now visit)) text.old text.new) }
    ensures short { OnOk result (string_len text.new ≤ string_len text.old + MAX_LINE) }
{
    puzzle.push_name(visit, text)?;
    text.push_str("\n")
}

/// Adds the line of a closing by sweeps to a text.
pub fn push_sweeps(text: &mut String, sweeps: u128) -> Result<(), AllocError>
    ensures { OnOk result (Adds (sweeps_text sweeps) text.old text.new) }
{
    push_numbered(text, "sweeps ", sweeps)?;
    text.push_str("\n")
}

/// Puts a text that has grown to a piece, and clears it.
fn put_piece<O: Sink>(text: &mut String, output: &mut O) -> Result<(), Stop>
    requires { O.has_failed output.old ≡ false }
    ensures ok { OnOk result
        (PutUpTo O.takes output.old (string_bytes text.old) (string_bytes text.new) output.new) }
    ensures fine { OnOk result (O.has_failed output.new ≡ false) }
    ensures err { OnErr result (PutBegun O.takes output.old (string_bytes text.old) output.new) }
    ensures failed { IfErr result (λ stop. O.has_failed output.new ≡ is_broken_end stop) }
    ensures whole { OnOk result
        (KeptOrPut O.takes output.old (string_bytes text.old) (string_bytes text.new) output.new) }
    ensures small { OnOk result (string_len text.new < FULL_PIECE) }
{
    if text.len() < FULL_PIECE {
        return Ok(());
    }
    put_all(output, text.as_bytes())?;
    text.clear();
    Ok(())
}

/// Puts a text and then a line for each visit, but for the end of these, which is left in the text.
pub fn put_visits<P: Solvable, O: Sink>(
    puzzle: &P,
    visits: &[usize],
    text: &mut String,
    output: &mut O,
) -> Result<(), Stop>
    requires named { (k : ℕ) → k < length visits.now
        → slice_index visits.now k < P.named puzzle.now }
    requires not_failed { O.has_failed output.old ≡ false }
    ensures ok { OnOk result (VisitsPut O.takes (P.game.visit_name puzzle.now) visits.now
        output.old text.old text.new output.new) }
    ensures fine { OnOk result (O.has_failed output.new ≡ false) }
    ensures err { OnErr result
        (VisitsBegun O.takes (P.game.visit_name puzzle.now) visits.now output.old text.old
        output.new) }
    ensures failed { IfErr result (λ stop. O.has_failed output.new ≡ is_broken_end stop) }
    ensures pieces { OnOk result (VisitsInPieces O.takes (P.game.visit_name puzzle.now) visits.now
        output.old text.old text.new output.new) }
    ensures small { string_len text.old < FULL_PIECE
        → OnOk result (string_len text.new < FULL_PIECE) }
{
    for number in visits {
        push_visit(puzzle, *number, text)?;
        put_piece(text, output)?;
    }
    Ok(())
}
