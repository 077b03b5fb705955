// What is said of a block's lines becomes one answer.
ghost use Rattle.std.specs.Prelude.{◌≡◌, ◌++◌, IfOk};
ghost use Rattle.command_steps.specs.Answers.{nothing};
ghost use Rattle.script_loop.specs.Tally.{added};
ghost use Rattle.line_jobs.specs.Shares.{with_said};

use crate::job::Said;
use script_loop::Reply;
use std::alloc::{AllocError, Global};

/// The printed lines of a line of a block, and what it counts, are added to an answer.
fn add_one(reply: Reply, said: &Said) -> Result<Reply, AllocError>
    ensures { IfOk result (λ r. r ≡ record { text = reply.text ++ said.now.reply.text; tally = added reply.tally said.now.reply.tally }) }
{
    let Reply { mut text, tally } = reply;
    text.extend_from_slice(&said.reply.text)?;
    Ok(Reply {
        text,
        tally: tally.and(said.reply.tally),
    })
}

/// The answer to a block of whose lines this was said: their printed lines, one after the other, and what they count.
pub fn print_said(alloc: Global, said: &[Said]) -> Result<Reply, AllocError>
    ensures { IfOk result (λ r. r ≡ with_said nothing said.now) }
{
    let mut reply = Reply::nothing(alloc);
    'said: for one in said {
        reply = add_one(reply, one)?;
    }
    Ok(reply)
}
