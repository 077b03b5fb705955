//! What an actor did, kept in a list.
ghost use Rattle.std.specs.Prelude.{◌≡◌, ◌==◌, Ok, IfOk};
ghost use Rattle.std.specs.List.{list_any};
ghost use Rattle.steps.specs.Events.{refusal_in};
ghost use Rattle.plain_hall.specs.Kinds.{numbers_of, is_told, fails_object, raised};
ghost use Rattle.plain_hall.specs.Traces.{Dropped, Ended, Noted};

use kinds::Refusal;

/// Which step was made.
#[derive(Clone, Copy, Debug)]
pub enum Kind {
    OpenNew,
    OpenCopy,
    WritePiece,
    CopyPiece,
    Seal,
    Commit,
    DropTicket,
    ReadPiece,
    Ask,
    Image,
    Reuse,
    Force,
}

/// A step that was made.
#[derive(Clone, Copy)]
pub struct Mark {
    /// The number of the last transaction before it.
    pub n: u64,
    pub kind: Kind,
    /// Why it was refused, where it was.
    pub refusal: Option<Refusal>,
}

/// What one actor did so far.
#[derive(Drop)]
pub struct Trace {
    /// The actor's number.
    pub actor: u32,
    /// How many of its steps were refused as such of an object that can't be moved or stored.
    pub refused: u64,
    /// Its steps, in their order.
    pub marks: Vec<Mark>,
    /// All of its steps stand there. A ticket that is dropped may be left out, where there was no memory to note it.
    pub is_whole: bool,
}

/// Whether a step of this kind may be refused with this number.
fn may_answer(kind: Kind, number: u32) -> bool
    ensures { result ≡ list_any (λ n. n == number) (numbers_of kind) }
{
    match kind {
        Kind::OpenNew => matches!(number, 10 | 20 | 21 | 29 | 31 | 40 | 41 | 50),
        Kind::OpenCopy => matches!(number, 4 | 10 | 20 | 21 | 22 | 23 | 31 | 40 | 41 | 50),
        Kind::WritePiece => matches!(number, 10 | 12 | 25 | 27 | 40 | 41),
        Kind::CopyPiece => matches!(number, 10 | 12 | 23 | 24 | 25 | 40 | 41),
        Kind::Seal => matches!(number, 10 | 25 | 27 | 40 | 41),
        Kind::Commit => matches!(
            number,
            4 | 10 | 11 | 12 | 13 | 14 | 15 | 21 | 22 | 23 | 28 | 30 | 31 | 40 | 41 | 50
        ),
        Kind::DropTicket => matches!(number, 10 | 40 | 41),
        Kind::ReadPiece => matches!(number, 4 | 10 | 23 | 24 | 28 | 40 | 41),
        Kind::Ask => matches!(number, 10 | 40 | 41 | 50),
        Kind::Image => matches!(number, 10 | 21 | 25 | 30 | 31 | 40 | 41 | 50),
        Kind::Reuse => matches!(number, 10 | 12 | 21 | 31 | 32 | 40 | 41 | 50),
        Kind::Force => matches!(number, 40 | 41),
    }
}

/// Whether a step of this kind may be answered so.
fn is_told(kind: Kind, refusal: Option<Refusal>) -> bool
    ensures { result ≡ is_told kind refusal }
{
    match refusal {
        Some(refusal) => may_answer(kind, refusal.number()),
        None => true,
    }
}

fn fails_object(refusal: Option<Refusal>) -> bool
    ensures { result ≡ fails_object refusal }
{
    match refusal {
        Some(refusal) => matches!(refusal.number(), 20 | 24 | 25 | 30),
        None => false,
    }
}

/// A count of refused steps, behind one more step.
fn raised(count: u64, refusal: Option<Refusal>) -> u64
    ensures { result ≡ raised count refusal }
{
    if fails_object(refusal) && count < u64::MAX {
        count + 1
    } else {
        count
    }
}

impl Trace {
    /// Nothing was done yet. It takes no memory.
    pub fn new(alloc: std::alloc::Global, actor: u32) -> Trace {
        Trace {
            actor,
            refused: 0,
            marks: Vec::new(alloc),
            is_whole: true,
        }
    }

    /// Nothing is noted any more, as if nothing had been done; the count of refused steps stays.
    pub fn clear(&mut self) {
        self.marks.clear();
        self.is_whole = true;
    }

    /// Notes a step, where it may be answered so; else nothing changes.
    fn note(&mut self, kind: Kind, n: u64, refusal: Option<Refusal>) -> bool
        ensures { Noted kind n refusal self.old self.new result }
    {
        if !is_told(kind, refusal) {
            return false;
        }
        match self.marks.push(Mark { n, kind, refusal }) {
            Ok(()) => {
                self.refused = raised(self.refused, refusal);
                true
            }
            Err(_) => false,
        }
    }

    /// A step ends with this answer. What a step of this kind can't answer stands for want of memory, and isn't noted.
    pub fn end<T: Drop>(
        &mut self,
        kind: Kind,
        n: u64,
        answer: Result<T, Refusal>,
    ) -> Result<T, Refusal>
        ensures ended { Ended kind (refusal_in result) self.old self.new }
        ensures told { IfOk result (λ told. answer ≡ Ok told) }
    {
        match answer {
            Ok(told) => {
                if self.note(kind, n, None) {
                    Ok(told)
                } else {
                    drop(told);
                    Err(Refusal::Memory)
                }
            }
            Err(refusal) => {
                if self.note(kind, n, Some(refusal)) {
                    Err(refusal)
                } else {
                    Err(Refusal::Memory)
                }
            }
        }
    }

    /// A ticket was dropped, or the actor had none with that number. This step is always made.
    pub fn end_drop(&mut self, n: u64, was_there: bool) -> Result<(), Refusal>
        ensures { Dropped n result self.old self.new }
    {
        let answer = if was_there {
            Ok(())
        } else {
            Err(Refusal::NotFound)
        };
        let mark = Mark {
            n,
            kind: Kind::DropTicket,
            refusal: answer.err(),
        };
        if self.marks.push(mark).is_err() {
            self.is_whole = false;
        }
        answer
    }
}
