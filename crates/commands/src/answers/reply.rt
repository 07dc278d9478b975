//! A text with the status that goes with it.
ghost use Rattle.std.specs.Prelude.{◌≡◌, ◌++◌, IfOk, OnOk};
ghost use Rattle.gameid_core.specs.GridTexts.{Adds};
ghost use Rattle.gameid_core.specs.PrintedForm.{IsGridIn, printed_grid};
ghost use Rattle.commands.specs.Replies.{IsReply, answer_in, fault_text, refusal};

use crate::answers::decimal::push_numbered;
use crate::answers::status::Status;
use gameid_core::{IdFault, Printed, push_grid};
use grid_core::Grid;
use std::alloc::AllocError;

/// What a command has to say: its whole text, with line ends, and the status of the run.
#[derive(Drop)]
pub struct Reply {
    pub text: String,
    pub status: Status,
}

/// The answer of these words alone, in the memory of a text, of which nothing stays.
pub fn words_reply(mut text: String, words: &str, status: Status) -> Result<Reply, AllocError>
    ensures { IfOk result (IsReply words.now status) }
{
    text.clear();
    text.push_str(words)?;
    Ok(Reply { text, status })
}

/// The answer of these words and a grid, in the memory of a text.
pub fn grid_reply<P: Printed>(
    text: String,
    words: &str,
    status: Status,
    puzzle: &P,
    grid: &Grid,
) -> Result<Reply, AllocError>
    requires { IsGridIn P.Printed puzzle.now grid.now }
    ensures { IfOk result
        (IsReply (words.now ++ printed_grid P.Printed puzzle.now grid.now) status) }
{
    let mut reply = words_reply(text, words, status)?;
    push_grid(&mut reply.text, puzzle, grid)?;
    Ok(reply)
}

/// Adds what is said of a fault to a text. Of want of memory, which is no fault of an ID, it is
/// nothing.
fn push_fault(text: &mut String, fault: IdFault) -> Result<(), AllocError>
    ensures { OnOk result (Adds (fault_text fault) text.old text.new) }
{
    match fault {
        IdFault::TooLong => text.push_str("too long"),
        IdFault::SeedId => text.push_str("seed id"),
        IdFault::NoColon => text.push_str("no colon"),
        IdFault::BadSize => text.push_str("bad size"),
        IdFault::Variant => text.push_str("variant"),
        IdFault::SizeRange => text.push_str("size range"),
        IdFault::BadByte(place) => push_numbered(text, "bad byte at ", place),
        IdFault::NumberRange(place) => push_numbered(text, "number range at ", place),
        IdFault::LineTooFull(line) => {
            push_numbered(text, "line ", line)?;
            text.push_str(" too full")
        }
        IdFault::TooFew => text.push_str("too few"),
        IdFault::TooMany => text.push_str("too many"),
        IdFault::Memory => Ok(()),
    }
}

/// The answer to an ID with that first fault, or to a size that `generate` refuses: `refused: `,
/// what is said of the fault, and a line end. It is made in the memory of a text.
pub fn id_refused(text: String, fault: IdFault) -> Result<Reply, AllocError>
    ensures { IfOk result (λ r. answer_in r ≡ refusal fault) }
{
    let mut reply = words_reply(text, "refused: ", Status::Refused)?;
    push_fault(&mut reply.text, fault)?;
    reply.text.push_str("\n")?;
    Ok(reply)
}
