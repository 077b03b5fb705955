// The trait of whoever answers lines.
ghost use Rattle.std.specs.Prelude.{◌+◌, ◌-◌, ◌^◌, ◌<◌, ℕ, List, length, Option, None, Some};
ghost use Rattle.script_loop.specs.Reply.{Answer};
ghost use Rattle.script_loop.specs.Pauses.{Responds, StaysReady};
ghost use Rattle.script_loop.specs.declared.ends.Halt.{Halt};

use crate::{Halt, Reply};
use std::alloc::Global;

/// What whoever answers lines says of a line, or of the script's end.
#[derive(Drop)]
pub enum Answered {
    /// It is answered so.
    Replied(Reply),
    /// It ends the run.
    Ended(Halt),
    /// Before it can be answered more has to be done with whoever answers.
    Asked,
}

/// Whoever answers the lines of a script, one after another, and then its end.
pub trait Answerer {
    /// From the first state the line with this number may be answered so, which leaves the second; or, where there is no line, the script's end, which has the number that one more line would have.
    ghost serves: { Self → ℕ → Option (List ℕ) → Answer → Self → Type 0 };

    /// From the first state it may end the run so, which leaves the second.
    ghost halts: { Self → ℕ → Option (List ℕ) → Halt → Self → Type 0 };

    /// Given it in the first state, it may ask for more to be done before it is answered, which leaves the second.
    ghost asks: { Self → ℕ → Option (List ℕ) → Self → Type 0 };

    /// So many more lines may be given.
    ghost can_take: { Self → ℕ → Type 0 };

    /// Answers the line with this number, counted from 1 in the script, which is given without its LF and the CR before it.
    /// The reply has the text as it is printed. After the line at most `left` lines may still come. An end of the run prints
    /// nothing of the line.
    fn answer(&mut self, alloc: Global, number: u32, line: &[u8], left: u32) -> Answered
        requires room { can_take self.old (left + 1) }
        requires short { length line.now < 2 ^ 32 - 1 }
        ensures responds { Responds serves halts asks self.old number (Some line.now) result self.new }
        ensures rest { StaysReady can_take left self.old result self.new };

    /// Answers the script's end, where all of its lines were answered: with what they left open. One more line would have this number, and after it at most `left` lines might come. The reply has
    /// the text as it is printed. An end of the run prints nothing.
    fn finish(&mut self, alloc: Global, number: u32, left: u32) -> Answered
        requires { can_take self.old (left + 1) }
        ensures responds { Responds serves halts asks self.old number None result self.new }
        ensures rest { StaysReady can_take left self.old result self.new };
}
