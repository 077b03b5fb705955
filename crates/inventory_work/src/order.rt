// Lines in the order of the objects that they are of.
ghost use Rattle.std.specs.Prelude.{◌≡◌, ℕ, Ok};
ghost use Rattle.kinds.specs.Answers.{Becomes};
ghost use Rattle.inventory_work.specs.ByObject.{by_object};

use crate::lines::{CopyLine, MissingLine, UnretainedLine};
use kinds::Refusal;

/// A line of an object.
pub(crate) trait OfObject {
    /// The object's number.
    ghost number: { Self → ℕ };

    /// The object's number.
    fn number(&self) -> u64
        ensures { result ≡ number self.now };
}

impl OfObject for CopyLine {
    ghost number = { λ line. line.object };

    fn number(&self) -> u64 {
        self.object
    }
}

impl OfObject for MissingLine {
    ghost number = { λ line. line.object };

    fn number(&self) -> u64 {
        self.object
    }
}

impl OfObject for UnretainedLine {
    ghost number = { λ line. line.object };

    fn number(&self) -> u64 {
        self.object
    }
}

/// Puts lines in ascending order of their objects' numbers.
pub(crate) fn sort_by_object<T: OfObject + Drop>(lines: &mut Vec<T>) -> Result<(), Refusal>
    ensures { Becomes result lines.old.items lines.new.items (Ok (by_object T.number lines.old.items)) }
{
    lines.sort_by_key(|line| line.number())?;
    Ok(())
}
