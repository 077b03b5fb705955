// A reader of lines over a source.
ghost use Rattle.std.specs.Prelude.{◌≡◌, ◌≢◌, ◌<◌, ◌≤◌, ◌+◌, ◌-◌, ◌^◌, ℕ, [], length, take, slice_index, IfOk};
ghost use Rattle.std.specs.Io.KnownBytes.{prepend_known};
ghost use Rattle.std.specs.Str.Lines.{strip_carriage_return};
ghost use Rattle.tree_api.specs.Cause.{HasCause};
ghost use Rattle.script_loop.specs.Places.{TakesBehind};

use std::alloc::{AllocError, Global};
use std::marker::Model;
use tree_api::{Failed, Source};

// So many bytes before its LF make a line too long.
const LINE_LIMIT: usize = 4096;

// The bytes that a reader can hold.
const ROOM: usize = 16384;

/// What a call of the reader gave.
#[derive(Clone, Copy)]
pub enum Next {
    /// A line.
    Line,
    /// No line: the script is at its end.
    End,
    /// The next line has 4,096 bytes or more before its LF.
    TooLong,
}

// What stands at the front of the bytes that are held.
enum Found {
    // A line with its LF.
    Ended,
    // The front of a line that is too long.
    Long,
    // The front of a line, with no LF yet.
    Open,
}

/// Reads a script line by line: LF ends a line, a CR before it goes, and the last line needs no LF. It holds no more than
/// a few lines' bytes, however long the script is.
#[derive(Drop)]
pub struct LineReader {
    buffer: Vec<u8>,
    from: usize,
    scanned: usize,
    to: usize,
    line_from: usize,
    line_to: usize,
}

impl Model for LineReader {
    ghost use Rattle.std.specs.Prelude.{◌-◌, slice_range};
    ghost use Rattle.script_loop.specs.Reading.{Held};

    ghost Value = { Held };

    ghost use Rattle.script_loop.specs.Places.{IsSound};

    ghost view = { λ r. record { held = slice_range r.buffer.items r.from r.to; line = slice_range r.buffer.items r.line_from r.line_to; room = 16384 - r.to } };

    ghost invariant = { λ r. IsSound r.buffer.items r.from r.scanned r.to r.line_from r.line_to };
}

// The place of the first LF from one place up to another, or that other.
fn newline_place(bytes: &[u8], from: usize, to: usize) -> usize
    requires ordered { from ≤ to }
    requires within { to ≤ length bytes.now }
    ensures low { from ≤ result }
    ensures high { result ≤ to }
    ensures before { (k : ℕ) → from ≤ k → k < result → slice_index bytes.now k ≢ 10 }
    ensures found { result < to → slice_index bytes.now result ≡ 10 }
{
    'places: for at in from..to {
        if bytes[at] == b'\n' {
            return at;
        }
    }
    to
}

// The length of a part without the CR at its end.
fn length_without_return(part: &[u8]) -> usize
    ensures within { result ≤ length part.now }
    ensures stripped { take result part.now ≡ strip_carriage_return part.now }
{
    if part.len() > 0 && part[part.len() - 1] == b'\r' {
        part.len() - 1
    } else {
        part.len()
    }
}

// Takes a piece from the source into the buffer from a place on. The bytes before that place stay.
fn take_behind<I: Source>(script: &mut I, buffer: &mut [u8], to: usize) -> Result<usize, Failed>
    requires { to < length buffer.old }
    ensures before { take to buffer.new ≡ take to buffer.old }
    ensures within { IfOk result (λ count. to + count ≤ length buffer.new) }
    ensures bytes { TakesBehind result buffer.new to (I.left script.old) (I.left script.new) }
    ensures cause { HasCause (I.fault_count script.old) (I.fault_count script.new) result }
{
    script.take(&mut buffer[to..])
}

impl LineReader {
    ghost use Rattle.script_loop.specs.Reading.{Finds, Fills, GivesRest, Gives, EndsAt, IsPlain};

    /// A reader that holds nothing yet.
    pub fn new(alloc: Global) -> Result<Self, AllocError>
        ensures { IfOk result (λ reader. reader.held ≡ []) }
    {
        Ok(LineReader {
            buffer: vec![in alloc; 0; ROOM]?,
            from: 0,
            scanned: 0,
            to: 0,
            line_from: 0,
            line_to: 0,
        })
    }

    /// The line that was given last, without LF and the CR before it.
    pub fn line(&self) -> &[u8]
        ensures line { result.now ≡ self.now.line }
        ensures short { length result.now < 2 ^ 32 - 1 }
    {
        &self.buffer[self.line_from..self.line_to]
    }

    /// Takes the next line from what is held and from the source, and gives it as `line`. After a fault of the source the
    /// same bytes are to come as before.
    pub fn advance<I: Source>(&mut self, script: &mut I) -> Result<Next, Failed>
        ensures gives { Gives result (prepend_known self.old.held (I.left script.old)) (prepend_known self.new.held (I.left script.new)) self.new.line }
        ensures end { EndsAt result (I.left script.new) }
        ensures cause { HasCause (I.fault_count script.old) (I.fault_count script.new) result }
    {
        'pieces: loop {
            match self.find_line() {
                Found::Ended => return Ok(Next::Line),
                Found::Long => return Ok(Next::TooLong),
                Found::Open => {}
            }
            match self.fill(script) {
                Ok(0) => return Ok(self.take_rest()),
                Ok(_) => {}
                Err(failed) => return Err(failed),
            }
        }
    }

    // Takes the line that stands at the front of the bytes that are held, where its LF is among them.
    fn find_line(&mut self) -> Found
        ensures { Finds result self.old.held self.new.held self.new.line }
    {
        let at = newline_place(&self.buffer, self.scanned, self.to);
        if at - self.from >= LINE_LIMIT {
            return Found::Long;
        }
        if at == self.to {
            self.scanned = at;
            return Found::Open;
        }
        self.line_from = self.from;
        self.line_to = self.from + length_without_return(&self.buffer[self.from..at]);
        self.from = at + 1;
        self.scanned = at + 1;
        Found::Ended
    }

    // Moves the bytes that are held to the front of the buffer.
    fn compact(&mut self)
        ensures held { self.new.held ≡ self.old.held }
        ensures room { self.new.room + length self.old.held ≡ 16384 }
    {
        self.buffer.copy_within(self.from..self.to, 0);
        self.to -= self.from;
        self.scanned -= self.from;
        self.from = 0;
        self.line_from = 0;
        self.line_to = 0;
    }

    // Makes room behind the bytes that are held, of which there are few.
    fn make_room(&mut self)
        requires { length self.old.held < 4096 }
        ensures held { self.new.held ≡ self.old.held }
        ensures room { 0 < self.new.room }
    {
        if self.to == ROOM {
            self.compact();
        }
    }

    // Gives what is held as the last line, where it isn't empty.
    fn take_rest(&mut self) -> Next
        ensures { GivesRest result self.old.held self.new.held self.new.line }
    {
        if self.from == self.to {
            return Next::End;
        }
        self.line_from = self.from;
        self.line_to = self.to;
        self.from = self.to;
        self.scanned = self.to;
        Next::Line
    }

    // Takes a piece from the source behind the bytes that are held.
    fn fill<I: Source>(&mut self, script: &mut I) -> Result<usize, Failed>
        requires { length self.old.held < 4096 }
        ensures bytes { Fills result self.old.held self.new.held (I.left script.old) (I.left script.new) }
        ensures cause { HasCause (I.fault_count script.old) (I.fault_count script.new) result }
    {
        self.make_room();
        self.take_piece(script)
    }

    // Takes a piece into the room behind the bytes that are held.
    fn take_piece<I: Source>(&mut self, script: &mut I) -> Result<usize, Failed>
        requires { 0 < self.old.room }
        ensures bytes { Fills result self.old.held self.new.held (I.left script.old) (I.left script.new) }
        ensures cause { HasCause (I.fault_count script.old) (I.fault_count script.new) result }
    {
        match take_behind(script, &mut self.buffer, self.to) {
            Ok(count) => {
                self.to += count;
                Ok(count)
            }
            Err(failed) => Err(failed),
        }
    }
}
