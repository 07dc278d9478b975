//! Many IDs, one a line.
ghost use Rattle.std.specs.Prelude.{◌≡◌, ◌≤◌, ◌∷◌, ◌++◌, [], true, false, IfOk, IfErr, MatchOption, OnErr, OnOk};
ghost use Rattle.commands.specs.Answers.{PutBegun, Text, IsGreater};
ghost use Rattle.commands.specs.Batches.{EndsIn, EndsWith, GathersAll, GathersOn, GathersUpTo, BatchGoesOn, HasNoNewline, StopsIn, StopsReading, TakesTask, AllowsTask, Holds, IsInputLine, RanLines, unput};
ghost use Rattle.commands.specs.Replies.{answer_in};
ghost use Rattle.commands.specs.Runs.{AreNew, call_limit};
ghost use Rattle.commands.specs.Stops.{LeavesEnds, StopsWith, is_broken_end};
ghost use Rattle.commands.specs.declared.answers.status.Status.TheVariants.{Fine};

use crate::answers::reply::{Reply, id_refused};
use crate::answers::status::{RunResult, Status, Stop};
use crate::ends::output::put_all;
use crate::ends::text::{LINE_LIMIT, ReadText};
use crate::ends::{CALL_LIMIT, CHUNK, Sink, Source};
use crate::games::Stores;
use crate::solve::Task;
use gameid_core::IdFault;
use std::alloc::{AllocError, Global};
use std::mem::replace;

/// The line that is being read, the memory of the searches and of an answer's text, the answers that
/// are still to be put, and the greatest status so far.
#[derive(Drop)]
pub struct Batch {
    line: ReadText,
    stores: Stores,
    text: String,
    answers: Vec<u8>,
    status: Status,
}

/// The bytes before the first newline and those behind it, if there is one.
fn split_line(bytes: &[u8]) -> Option<(&[u8], &[u8])>
    ensures { MatchOption result (HasNoNewline bytes.now)
        (λ r. HasNoNewline r.0.now × (bytes.now ≡ r.0.now ++ 10 ∷ r.1.now)) }
{
    let end = bytes.iter().position(|byte| *byte == b'\n')?;
    Some((&bytes[..end], &bytes[end + 1..]))
}

/// The answer to a line, or to an over-long one, in the memory of a text.
fn line_reply(
    alloc: Global,
    stores: &mut Stores,
    task: Task,
    line: Option<&[u8]>,
    text: String,
) -> Result<Reply, AllocError>
    ensures { IfOk result
        (λ r. (id : Text) → IsInputLine line.entry id → AllowsTask task id (answer_in r)) }
{
    match line {
        Some(id) => stores.solve_id(alloc, task, id, text),
        None => id_refused(text, IdFault::TooLong),
    }
}

impl Batch {
    /// A batch that has taken nothing.
    fn new(alloc: Global) -> Batch
        ensures line { Holds result.line [] }
        ensures answers { unput result ≡ [] }
        ensures status { result.status ≡ Fine }
    {
        Batch {
            line: ReadText::new(alloc),
            stores: Stores::default(),
            text: String::new(alloc),
            answers: Vec::new(alloc),
            status: Status::Fine,
        }
    }

    /// Adds the text of a reply to the answers, and keeps the greater status.
    fn add_reply(&mut self, reply: &Reply) -> Result<(), AllocError>
        ensures added { OnOk result
            (unput self.new ≡ unput self.old ++ (answer_in reply.now).text) }
        ensures status { OnOk result
            (IsGreater self.old.status reply.now.status self.new.status) }
        ensures stays { OnErr result (unput self.new ≡ unput self.old) }
    {
        self.answers.extend_from_slice(reply.text.as_bytes())?;
        self.status = self.status.greater(reply.status);
        Ok(())
    }

    /// Puts the answers, in one piece if the sink takes them so.
    fn put_answers<O: Sink>(&mut self, output: &mut O) -> Result<(), Stop>
        requires { O.has_failed output.old ≡ false }
        ensures put { OnOk result (O.takes output.old (unput self.old) output.new) }
        ensures fine { OnOk result (O.has_failed output.new ≡ false) }
        ensures none { OnOk result (unput self.new ≡ []) }
        ensures line { self.new.line ≡ self.old.line }
        ensures status { self.new.status ≡ self.old.status }
        ensures begun { OnErr result (PutBegun O.takes output.old (unput self.old) output.new) }
        ensures cause { IfErr result (λ e. (O.has_failed output.new ≡ true)
            × (is_broken_end e ≡ true)) }
    {
        put_all(output, &self.answers)?;
        self.answers.clear();
        Ok(())
    }

    /// Answers a line that ended, and keeps the memory of its text for the next one.
    fn answer_line(&mut self, alloc: Global, task: Task) -> Result<(), AllocError>
        ensures goes_on { OnOk result (GathersOn task self.old self.new (10 ∷ [])) }
        ensures stays { OnErr result (unput self.new ≡ unput self.old) }
    {
        let text = replace(&mut self.text, String::new(alloc));
        let line = self.line.line(true);
        let reply = line_reply(alloc, &mut self.stores, task, line, text)?;
        self.add_reply(&reply)?;
        self.text = reply.text;
        self.line.clear();
        Ok(())
    }

    /// Takes bytes of the input.
    fn take_bytes(&mut self, alloc: Global, task: Task, bytes: &[u8]) -> Result<(), AllocError>
        ensures goes_on { OnOk result (GathersOn task self.old self.new bytes.now) }
        ensures up_to { GathersUpTo task self.old self.new bytes.now }
    {
        let mut rest = bytes;
        while let Some((line, more)) = split_line(rest) {
            self.line.take(LINE_LIMIT, line)?;
            self.answer_line(alloc, task)?;
            rest = more;
        }
        self.line.take(LINE_LIMIT, rest)?;
        Ok(())
    }

    /// Takes a chunk of the input, and puts the answers to the lines that ended in it: also those
    /// before a line that wants memory.
    fn take_chunk<O: Sink>(
        &mut self,
        alloc: Global,
        task: Task,
        chunk: &[u8],
        output: &mut O,
    ) -> Result<(), Stop>
        requires { O.has_failed output.old ≡ false }
        ensures fine { OnOk result (O.has_failed output.new ≡ false) }
        ensures goes_on { OnOk result
            (BatchGoesOn O.takes task self.old self.new chunk.now output.old output.new) }
        ensures none { OnOk result (unput self.new ≡ []) }
        ensures stopped { OnErr result
            (StopsIn O.takes task self.old chunk.now output.old output.new) }
        ensures cause { IfErr result (λ e. O.has_failed output.new ≡ is_broken_end e) }
    {
        let taken = self.take_bytes(alloc, task, chunk);
        self.put_answers(output)?;
        taken?;
        Ok(())
    }

    /// Answers a last line that the end of the input ended.
    fn answer_rest(&mut self, alloc: Global, task: Task) -> Result<(), AllocError>
        ensures { OnOk result (GathersAll task self.old self.new) }
    {
        if self.line.is_empty() {
            return Ok(());
        }
        let text = replace(&mut self.text, String::new(alloc));
        let line = self.line.line(false);
        let reply = line_reply(alloc, &mut self.stores, task, line, text)?;
        self.add_reply(&reply)?;
        Ok(())
    }

    /// Puts the answer to a last line that the end of the input ended.
    fn answer_last<O: Sink>(
        &mut self,
        alloc: Global,
        task: Task,
        output: &mut O,
    ) -> Result<(), Stop>
        requires { O.has_failed output.old ≡ false }
        ensures fine { OnOk result (O.has_failed output.new ≡ false) }
        ensures whole { OnOk result
            (EndsWith O.takes task self.old self.new.status output.old output.new) }
        ensures begun { OnErr result (EndsIn O.takes task self.old output.old output.new) }
        ensures cause { IfErr result (λ e. O.has_failed output.new ≡ is_broken_end e) }
    {
        self.answer_rest(alloc, task)?;
        self.put_answers(output)
    }
}

/// Takes the input to its end.
fn take_input<I: Source, O: Sink>(
    alloc: Global,
    task: Task,
    batch: &mut Batch,
    input: &mut I,
    output: &mut O,
) -> Result<(), Stop>
    requires new { AreNew I.Source O.Sink input.old output.old }
    requires no_line { Holds batch.old.line [] }
    requires no_answers { unput batch.old ≡ [] }
    requires no_status { batch.old.status ≡ Fine }
    ensures input { OnOk result (I.has_failed input.new ≡ false) }
    ensures ended { OnOk result (I.has_ended input.new ≡ true) }
    ensures output { OnOk result (O.has_failed output.new ≡ false) }
    ensures taken { OnOk result (TakesTask I.gives O.takes task
        input.old output.old batch.new input.new output.new) }
    ensures stopped { OnErr result (StopsReading I.gives O.takes task
        input.old output.old input.new output.new) }
    ensures few { I.call_count input.new ≤ call_limit }
    ensures left { IfErr result
        (λ e. StopsWith I.Source e input.new (O.has_failed output.new)) }
{
    let mut buffer = [0u8; CHUNK];
    for _turn in 0..CALL_LIMIT {
        match input.fetch(&mut buffer) {
            Some(0) => return Ok(()),
            Some(count) => batch.take_chunk(alloc, task, &buffer[..count], output)?,
            None => return Err(Stop::Broken),
        }
    }
    Err(Stop::Broken)
}

/// Answers the lines of the input as `solve_lines` says, in the memory of a batch that has taken
/// nothing.
fn answer_lines<I: Source, O: Sink>(
    alloc: Global,
    task: Task,
    batch: &mut Batch,
    input: &mut I,
    output: &mut O,
) -> RunResult
    requires new { AreNew I.Source O.Sink input.old output.old }
    requires no_line { Holds batch.old.line [] }
    requires no_answers { unput batch.old ≡ [] }
    requires no_status { batch.old.status ≡ Fine }
    ensures ran { RanLines I.Source O.Sink task input.old input.new output.old output.new result }
    ensures left { LeavesEnds I.Source O.Sink true input.new output.new result }
{
    take_input(alloc, task, batch, input, output)?;
    batch.answer_last(alloc, task, output)?;
    if output.finish() {
        Ok(batch.status)
    } else {
        Err(Stop::Broken)
    }
}

/// Answers the lines of the input in order, each as an ID of the game, and gives the greatest of
/// the answers' statuses, or `Fine` if there is no line. A line ends at `\n`, and the last one also
/// at the end of the input if it isn't empty; one `\r` before the `\n` is no part of it. A line of
/// more than `MAX_ID` bytes is refused as too long. One line is held at a time. The answers to the
/// lines that ended are put before the input is asked for more.
pub fn solve_lines<I: Source, O: Sink>(
    alloc: Global,
    task: Task,
    input: &mut I,
    output: &mut O,
) -> RunResult
    requires { AreNew I.Source O.Sink input.old output.old }
    ensures ran { RanLines I.Source O.Sink task input.old input.new output.old output.new result }
    ensures left { LeavesEnds I.Source O.Sink true input.new output.new result }
{
    let mut batch = Batch::new(alloc);
    answer_lines(alloc, task, &mut batch, input, output)
}
