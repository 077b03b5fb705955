// What a line is answered by.
ghost use Rattle.std.specs.Prelude.{◌≡◌, []};

use crate::Tally;
use std::alloc::Global;
use std::marker::Model;

/// The answer to a line of the script.
#[derive(Drop)]
pub struct Reply {
    /// The printed lines that the line causes, as they are put: each with the line's number and LF.
    pub text: Vec<u8>,
    /// What the answer counts.
    pub tally: Tally,
}

impl Model for Reply {
    ghost use Rattle.script_loop.specs.Reply.{Answer};

    ghost Value = { Answer };

    ghost view = { λ r. record { text = r.text.items; tally = r.tally } };
}

impl Reply {
    ghost use Rattle.script_loop.specs.Tally.{no_tally};

    /// The answer to a line that is no command, as a comment: nothing is printed or counted.
    pub fn nothing(alloc: Global) -> Self
        ensures { result ≡ record { text = []; tally = no_tally } }
    {
        Reply {
            text: Vec::new(alloc),
            tally: Tally::none(),
        }
    }

    /// The answer to a command line that was done, and no file failed in it.
    pub fn command(text: Vec<u8>) -> Self
        ensures { result ≡ record { text = text.items; tally = record { commands = 1; refused = 0; failed = 0 } } }
    {
        Reply {
            text,
            tally: Tally {
                commands: 1,
                refused: 0,
                failed: 0,
            },
        }
    }

    /// The answer to a command line that was refused.
    pub fn refused(text: Vec<u8>) -> Self
        ensures { result ≡ record { text = text.items; tally = record { commands = 1; refused = 1; failed = 0 } } }
    {
        Reply {
            text,
            tally: Tally {
                commands: 1,
                refused: 1,
                failed: 0,
            },
        }
    }
}
