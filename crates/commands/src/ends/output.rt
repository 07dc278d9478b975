//! Texts on their way to a sink.
ghost use Rattle.std.specs.Prelude.{◌≡◌, true, false, OnOk, OnErr, IfErr};
ghost use Rattle.commands.specs.Answers.{PutBegun};
ghost use Rattle.commands.specs.Replies.{refusal};
ghost use Rattle.commands.specs.Stops.{DeliversReply, LeavesSink, Writes, is_broken_end};

use crate::answers::reply::{Reply, id_refused};
use crate::answers::status::{RunResult, Stop};
use crate::ends::Sink;
use gameid_core::IdFault;
use std::alloc::Global;

/// Puts all of the bytes, or a beginning of them if the sink fails, in as many calls as it needs.
pub fn put_all<O: Sink>(output: &mut O, bytes: &[u8]) -> Result<(), Stop>
    requires { O.has_failed output.old ≡ false }
    ensures ok { OnOk result (O.takes output.old bytes.now output.new) }
    ensures fine { OnOk result (O.has_failed output.new ≡ false) }
    ensures err { OnErr result (PutBegun O.takes output.old bytes.now output.new) }
    ensures cause { IfErr result (λ e. (O.has_failed output.new ≡ true)
        × (is_broken_end e ≡ true)) }
{
    let mut rest = bytes;
    while !rest.is_empty() {
        match output.put(rest) {
            Some(count) => rest = &rest[count..],
            None => return Err(Stop::Broken),
        }
    }
    Ok(())
}

/// Puts the text of a reply and finishes, and gives its status. A sink that fails took a beginning.
pub fn deliver<O: Sink>(output: &mut O, reply: &Reply) -> RunResult
    requires { O.has_failed output.old ≡ false }
    ensures delivers { DeliversReply O.Sink reply.now output.old output.new result }
    ensures left { LeavesSink O.Sink output.new result }
{
    put_all(output, reply.text.as_bytes())?;
    if output.finish() {
        Ok(reply.status)
    } else {
        Err(Stop::Broken)
    }
}

/// Refuses an ID with that first fault.
pub(crate) fn refuse<O: Sink>(alloc: Global, fault: IdFault, output: &mut O) -> RunResult
    requires { O.has_failed output.old ≡ false }
    ensures answer { Writes O.Sink (λ a. a ≡ refusal fault) output.old output.new result }
    ensures left { LeavesSink O.Sink output.new result }
{
    let reply = id_refused(String::new(alloc), fault)?;
    deliver(output, &reply)
}
