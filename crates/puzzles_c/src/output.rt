//! What a call puts into its caller's memory.
ghost use Rattle.std.specs.Prelude.{◌≡◌, ◌≢◌, ◌<◌, ◌≤◌, IfErr, IfOk, drop};
ghost use Rattle.commands.specs.Answers.{answer_with};
ghost use Rattle.commands.specs.Replies.{answer_in};
ghost use Rattle.puzzles_c.specs.Calls.{NeedsRoom, Tells};

use commands::{BROKEN, NO_MEMORY, Reply};
use std::alloc::AllocError;

/// The status of a call whose answer is longer than its output.
pub const TOO_SMALL: u8 = 7;

/// Puts the text of an answer into the output, if there is room, and tells how long it is. With the
/// status of no answer it puts nothing.
pub fn put(text: &[u8], status: u8, output: &mut [u8], written: &mut usize) -> u8
    requires { status ≤ BROKEN }
    ensures within { result ≤ TOO_SMALL }
    ensures tells { Tells (λ a. a ≡ answer_with text.now status)
        output.new written.new result }
    ensures small { NeedsRoom (λ a. (status < NO_MEMORY) × (a ≡ answer_with text.now status))
        output.old written.new result }
    ensures same { NO_MEMORY ≤ result → output.new ≡ output.old }
    ensures rest { drop written.new output.new ≡ drop written.new output.old }
    ensures none { NO_MEMORY ≤ result → result ≤ BROKEN → written.new ≡ 0 }
    ensures told { result ≡ BROKEN → status ≡ BROKEN }
{
    *written = 0;
    if status >= NO_MEMORY {
        return status;
    }
    *written = text.len();
    if text.len() > output.len() {
        return TOO_SMALL;
    }
    output[..text.len()].copy_from_slice(text);
    status
}

/// Puts a reply that was made, if there was memory for it.
pub fn put_reply(reply: &Result<Reply, AllocError>, output: &mut [u8], written: &mut usize) -> u8
    ensures within { result ≤ TOO_SMALL }
    ensures tells { IfOk reply.now
        (λ r. Tells (λ a. a ≡ answer_in r) output.new written.new result) }
    ensures small { IfOk reply.now
        (λ r. NeedsRoom (λ a. a ≡ answer_in r) output.old written.new result) }
    ensures unmade { IfErr reply.now (λ _. result ≡ NO_MEMORY) }
    ensures same { NO_MEMORY ≤ result → output.new ≡ output.old }
    ensures rest { drop written.new output.new ≡ drop written.new output.old }
    ensures none { NO_MEMORY ≤ result → result ≤ BROKEN → written.new ≡ 0 }
    ensures whole { result ≢ BROKEN }
{
    match reply {
        Ok(reply) => put(reply.text.as_bytes(), reply.status.code(), output, written),
        Err(_) => {
            *written = 0;
            NO_MEMORY
        }
    }
}
