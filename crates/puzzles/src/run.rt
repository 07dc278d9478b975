//! One run of the program.
ghost use Rattle.std.specs.Prelude.{◌≡◌, ◌<◌, ◌≤◌, true, false, IfErr, IfOk};
ghost use Rattle.commands.specs.Answers.{BeginsAnswer, answer_of};
ghost use Rattle.commands.specs.Allowed.{Allows};
ghost use Rattle.puzzles.specs.Requests.{is_input_read, request_of};
ghost use Rattle.commands.specs.Runs.{AreNew, IsEndBroken, NoneFailed, Ran, call_limit};
ghost use Rattle.commands.specs.Stops.{DeliversReply, LeavesEnds, LeavesSink, status_in};

use crate::words::{Request, read_words};
use commands::laws::each_request_has_an_answer;
use commands::{
    BROKEN, NO_MEMORY, Reply, RunResult, Sink, Source, Status, Stores, check_id, deliver,
    generated, grade_id, solve_lines, words_reply,
};
use ends::{ReadEnd, WriteEnd};
use std::alloc::{AllocError, Global};

/// Puts an answer that was made whole, if there was memory for it.
fn put_reply<O: Sink>(reply: Result<Reply, AllocError>, output: &mut O) -> RunResult
    requires { O.has_failed output.old ≡ false }
    ensures put { IfOk reply (λ r. DeliversReply O.Sink r output.old output.new result) }
    ensures unmade { IfErr reply (λ _. (output.new ≡ output.old)
        × (status_in result ≡ NO_MEMORY)) }
    ensures left { LeavesSink O.Sink output.new result }
{
    deliver(output, &reply?)
}

/// Does what the words after the program's name ask for, as `run` says.
fn answer<I: Source, O: Sink>(
    alloc: Global,
    words: &[String],
    input: &mut I,
    output: &mut O,
) -> RunResult
    requires { AreNew I.Source O.Sink input.old output.old }
    ensures ran { Ran I.Source O.Sink (Allows (request_of words.now))
        input.old input.new output.old output.new (status_in result) }
    ensures left { LeavesEnds I.Source O.Sink (is_input_read words.now)
        input.new output.new result }
{
    each_request_has_an_answer();
    let text = String::new(alloc);
    match read_words(alloc, words)? {
        Some(Request::Solve { task, id: Some(id) }) => {
            put_reply(
                Stores::default().solve_id(alloc, task, id.as_bytes(), text),
                output,
            )
        }
        Some(Request::Solve { task, id: None }) => solve_lines(alloc, task, input, output),
        Some(Request::Check { game, id }) => check_id(alloc, game, id.as_bytes(), input, output),
        Some(Request::Grade { game, id, options }) => {
            grade_id(alloc, game, id.as_bytes(), options, output)
        }
        Some(Request::Generate { game, size, recipe }) => {
            put_reply(generated(alloc, game, size.as_bytes(), recipe), output)
        }
        None => put_reply(
            words_reply(text, "refused: words\n", Status::Refused),
            output,
        ),
    }
}

/// Does what the words after the program's name ask for, and gives the status: 0 to 4 where the
/// whole answer was written, 5 where memory was wanted, and 6 where an end failed, and always where
/// one did. After 5 and 6 what was written is the beginning of an answer that is allowed. An input
/// that is read at all is read to its end, unless memory was wanted or an end failed. It is asked for
/// at most `CALL_LIMIT` times.
pub fn run<I: Source, O: Sink>(alloc: Global, words: &[String], input: &mut I, output: &mut O) -> u8
    requires no_calls { I.call_count input.old ≡ 0 }
    requires input_fine { I.has_failed input.old ≡ false }
    requires input_open { I.has_ended input.old ≡ false }
    requires output_fine { O.has_failed output.old ≡ false }
    ensures ran { Ran I.Source O.Sink (Allows (request_of words.now))
        input.old input.new output.old output.new result }
    ensures status { result ≤ BROKEN }
    ensures sound { result ≤ NO_MEMORY → NoneFailed I.Source O.Sink input.new output.new }
    ensures sent { result < NO_MEMORY → O.is_flushed output.new ≡ true }
    ensures broken { result ≡ BROKEN → IsEndBroken I.Source input.new (O.has_failed output.new) }
    ensures few { I.call_count input.new ≤ call_limit }
    ensures unread { is_input_read words.now ≡ false → I.call_count input.new ≡ 0 }
    ensures ended { is_input_read words.now ≡ true → result < NO_MEMORY
        → I.has_ended input.new ≡ true }
{
    match answer(alloc, words, input, output) {
        Ok(status) => status.code(),
        Err(stop) => stop.code(),
    }
}

/// A run over bytes in memory: what it writes, and its status.
pub fn run_on_bytes(alloc: Global, words: &[String], bytes: &[u8]) -> (Vec<u8>, u8)
    ensures whole { result.1 < NO_MEMORY
        → Allows (request_of words.now) bytes.now (answer_of result) }
    ensures begun { BeginsAnswer (Allows (request_of words.now) bytes.now) result.0.items }
{
    let mut input = ReadEnd::new(bytes);
    let mut output = WriteEnd::new(Vec::new(alloc));
    let status = run(alloc, words, &mut input, &mut output);
    (output.into_inner(), status)
}
