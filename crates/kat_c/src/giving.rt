//! What a call leaves with its caller.
ghost use Rattle.kat_c.specs.CallEnds.{call_end, Given, Gives};

use kat_model::NoMemory;
use kat_tool::Reply;

/// Writes the output of a reply to the start of the memory if it fits, and its length. Returns the status of the reply, or
/// 9 if the output does not fit, or 6 with the length 0 if there is no reply.
pub fn give(replied: Result<Reply, NoMemory>, out: &mut [u8], needed: &mut usize) -> u8
    ensures { Given replied (call_end out.old out.new needed.new result) }
{
    match replied {
        Ok(reply) => give_reply(&reply, out, needed),
        Err(NoMemory) => {
            *needed = 0;
            6
        }
    }
}

fn give_reply(reply: &Reply, out: &mut [u8], needed: &mut usize) -> u8
    ensures { Gives reply.now.status reply.now.output.items (call_end out.old out.new needed.new result) }
{
    let output = reply.output.as_slice();
    let len = output.len();
    *needed = len;
    if len > out.len() {
        return 9;
    }
    out[..len].copy_from_slice(output);
    reply.status
}
