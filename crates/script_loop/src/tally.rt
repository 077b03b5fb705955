// Counts of command lines.

/// How many command lines were answered, how many of them were refused, and how many files failed in them. A count that
/// has reached 2^64 - 1 stays there.
#[derive(Clone, Copy)]
pub struct Tally {
    pub commands: u64,
    pub refused: u64,
    pub failed: u64,
}

impl Tally {
    ghost use Rattle.std.specs.Prelude.{◌≡◌};
    ghost use Rattle.script_loop.specs.Tally.{no_tally, added};

    /// Nothing was counted.
    pub fn none() -> Self
        ensures { result ≡ no_tally }
    {
        Tally {
            commands: 0,
            refused: 0,
            failed: 0,
        }
    }

    /// Both tallies together.
    pub fn and(self, other: Tally) -> Self
        ensures { result ≡ added self other }
    {
        Tally {
            commands: self.commands.saturating_add(other.commands),
            refused: self.refused.saturating_add(other.refused),
            failed: self.failed.saturating_add(other.failed),
        }
    }
}
