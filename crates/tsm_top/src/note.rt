// What is noted of the lines of a script.
ghost use Rattle.std.specs.Prelude.{◌≡◌, ◌<◌, [], ◌∷◌, ◌++◌, length, take, List};
ghost use Rattle.tsm_top.specs.Notes.{last_made, note_of};

use kinds::Refusal;

/// What is noted of a command line whose printed lines were all made.
#[derive(Clone, Copy)]
pub struct Note {
    /// The number of the line in the script, from 1.
    pub line: u32,
    /// The actor that made it: 0, the script itself.
    pub actor: u32,
    /// The number of the last transaction before the line.
    pub n: u64,
    /// The number of the last transaction that the actor made in this run, the line's own among them; 0 before the first.
    pub last: u64,
    /// Why the line was refused; none where it was done.
    pub refused: Option<Refusal>,
}

/// The number of the last transaction that a run made, whose first one has the number behind `first`; 0 where it made none.
fn last_made(first: u64, now: u64) -> u64
    ensures { result ≡ last_made first now }
{
    if now == first { 0 } else { now }
}

/// The note of a line.
pub(crate) fn note_of(
    line: u32,
    first: u64,
    before: u64,
    after: u64,
    refused: Option<Refusal>,
) -> Note
    ensures { result ≡ note_of line first before after refused }
{
    Note {
        line,
        actor: 0,
        n: before,
        last: last_made(first, after),
        refused,
    }
}
