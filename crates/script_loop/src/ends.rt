// How a run ends, and its last line.
ghost use Rattle.std.specs.Prelude.{◌≡◌, ◌+◌, ◌≤◌, ◌++◌, length, decimal};
ghost use Rattle.arrayvec.specs.ArrayVec.{array_vec_len};
ghost use Rattle.script_loop.specs.declared.ends.End.TheVariants.{Done};
ghost use Rattle.script_loop.specs.Ends.{last_line, status_of, told_number, PutsLast, LastCause};

use crate::Tally;
use arrayvec::ArrayVec;
use itoa::Buffer;
use tree_api::{Sink, put_all};

/// Why the run can't go on, as whoever answers its lines says.
#[derive(Clone, Copy)]
pub enum Halt {
    /// A call on this log or image file failed.
    LogFault(u32),
    /// The run has made as many steps as it may.
    RunFull,
    /// Memory was wanted.
    Memory,
}

/// How a run over a script ended.
#[derive(Clone, Copy)]
pub enum End {
    /// The script was read to its end.
    Done(Tally),
    /// A call on the source failed.
    SourceFault,
    /// A call on the sink failed.
    SinkFault,
    /// The run was halted.
    Halted(Halt),
    /// The script is too long, and this line is the first that shows it.
    TooLong(u32),
}

impl End {
    /// The program's exit status.
    pub fn status(self) -> u8
        ensures { result ≡ status_of self }
    {
        match self {
            End::Done(tally) if tally.refused == 0 && tally.failed == 0 => 0,
            End::Done(_) => 1,
            End::SourceFault => 3,
            End::SinkFault => 4,
            End::Halted(Halt::LogFault(_)) => 6,
            End::Halted(Halt::Memory) => 8,
            End::Halted(Halt::RunFull) | End::TooLong(_) => 9,
        }
    }
}

/// Puts the last line of a run that ended so, and answers how the run ended with it: where the sink fails now, at its sink.
pub fn put_last<O: Sink>(out: &mut O, end: End) -> End
    ensures put { PutsLast end result (O.contents out.old) (O.contents out.new) }
    ensures cause { LastCause end result (O.fault_count out.old) (O.fault_count out.new) }
{
    let text = last_text(end);
    match put_all(out, text.as_slice()) {
        Ok(()) => end,
        Err(_) => End::SinkFault,
    }
}

// Adds a piece to a text that has room for it.
fn add(text: &mut ArrayVec<u8, 80>, piece: &[u8])
    requires { array_vec_len text.old + length piece.now ≤ 80 }
    ensures items { text.new.items ≡ text.old.items ++ piece.now }
    ensures len { array_vec_len text.new ≡ array_vec_len text.old + length piece.now }
{
    match text.try_extend_from_slice(piece) {
        Ok(()) => {}
        Err(_) => unreachable!(),
    }
}

// Adds a number in decimal digits, of which there are at most 20.
fn add_number(text: &mut ArrayVec<u8, 80>, n: u64)
    requires { array_vec_len text.old + 20 ≤ 80 }
    ensures items { text.new.items ≡ text.old.items ++ decimal n }
    ensures len { array_vec_len text.new ≤ array_vec_len text.old + 20 }
{
    let mut digits = Buffer::new();
    add(text, digits.format(n).as_bytes());
}

/// A line of a text of at most 40 bytes, a number and LF. It takes no memory.
pub fn number_line(words: &[u8], n: u64) -> ArrayVec<u8, 80>
    requires { length words.now ≤ 40 }
    ensures { result.items ≡ told_number words.now n }
{
    let mut text = ArrayVec::new();
    add(&mut text, words);
    add_number(&mut text, n);
    add(&mut text, b"\n");
    text
}

// The END line.
fn end_line(tally: Tally) -> ArrayVec<u8, 80>
    ensures { result.items ≡ last_line (Done tally) }
{
    let mut text = ArrayVec::new();
    add(&mut text, b"END ");
    add_number(&mut text, tally.commands);
    add(&mut text, b" ");
    add_number(&mut text, tally.refused);
    add(&mut text, b" ");
    add_number(&mut text, tally.failed);
    add(&mut text, b"\n");
    text
}

// A line that is always the same.
fn fixed_line(words: &[u8]) -> ArrayVec<u8, 80>
    requires { length words.now ≤ 80 }
    ensures { result.items ≡ words.now }
{
    let mut text = ArrayVec::new();
    add(&mut text, words);
    text
}

// The last line of a run that ended so.
fn last_text(end: End) -> ArrayVec<u8, 80>
    ensures { result.items ≡ last_line end }
{
    match end {
        End::Done(tally) => end_line(tally),
        End::SourceFault => fixed_line(b"SCRIPT FAULT\n"),
        End::SinkFault => fixed_line(b""),
        End::Halted(Halt::LogFault(file)) => number_line(b"LOG FAULT ", u64::from(file)),
        End::Halted(Halt::RunFull) => fixed_line(b"RUN FULL\n"),
        End::Halted(Halt::Memory) => fixed_line(b"MEMORY\n"),
        End::TooLong(line) => number_line(b"SCRIPT TOO LONG ", u64::from(line)),
    }
}
