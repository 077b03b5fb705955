//! Runs over an answerer that gives each line back.
use crate::trials::digit;
use mem_files::{MemReader, MemWriter};
use real_edge::{StdSink, StdSource};
use script_loop::{Answered, Answerer, End, Halt, Reply, answered, begin, run};
use std::alloc::{AllocError, Global};
use tree_api::{MemSink, MemSource, Sink, Source};

/// No more lines than these are taken.
const LINES: u32 = 1048576;

/// Prints each line; `two` gives two lines, `no` is refused, `bad` counts a failed file, `full` ends the run, and an empty
/// line is a comment. It asks at `ask` before it is answered, and behind `open` at the script's end.
#[derive(Drop)]
struct Echo {
    is_open: bool,
    /// It has asked at the script's end.
    is_over: bool,
}

fn said(reply: Result<Reply, AllocError>) -> Answered {
    match reply {
        Ok(reply) => Answered::Replied(reply),
        Err(_) => Answered::Ended(Halt::Memory),
    }
}

impl Answerer for Echo {
    ghost serves = { λ _ _ _ _ _. Unit {0} };

    ghost halts = { λ _ _ _ _ _. Unit {0} };

    ghost asks = { λ _ _ _ _. Unit {0} };

    ghost can_take = { λ _ _. Unit {0} };

    fn answer(&mut self, alloc: Global, number: u32, line: &[u8], _left: u32) -> Answered {
        if line == b"full".as_slice() {
            return Answered::Ended(Halt::RunFull);
        }
        if line == b"ask".as_slice() {
            return Answered::Asked;
        }
        if line == b"open".as_slice() {
            self.is_open = true;
        }
        said(echoed(alloc, number, line))
    }

    fn finish(&mut self, alloc: Global, _number: u32, _left: u32) -> Answered {
        if self.is_open {
            self.is_over = true;
            return Answered::Asked;
        }
        Answered::Replied(Reply::nothing(alloc))
    }
}

/// What is asked for is answered as the line `asked`, and at the script's end as `end`.
fn run_all<I: Source, O: Sink>(alloc: Global, script: &mut I, out: &mut O) -> End {
    let mut echo = Echo {
        is_open: false,
        is_over: false,
    };
    let mut progress = match begin(alloc, &echo, out) {
        Ok(progress) => progress,
        Err(end) => return end,
    };
    for _ in 0..=LINES {
        if progress.number() > LINES + 1 {
            return End::TooLong(LINES);
        }
        match run(alloc, &mut progress, &mut echo, script, out) {
            Some(end) => return end,
            None => {}
        }
        let words = if echo.is_over {
            b"end".as_slice()
        } else {
            b"asked".as_slice()
        };
        let reply = match echoed(alloc, progress.number(), words) {
            Ok(reply) => Ok(reply),
            Err(_) => Err(Halt::Memory),
        };
        match answered(&echo, &mut progress, reply, out) {
            Some(end) => return end,
            None => {}
        }
    }
    End::TooLong(LINES)
}

/// A printed line that the script's line with this number causes.
fn numbered(alloc: Global, number: u32, words: &[u8]) -> Result<Vec<u8>, AllocError> {
    let mut text = format!(in alloc; "{number} ")?.into_bytes();
    text.extend_from_slice(words)?;
    text.push(b'\n')?;
    Ok(text)
}

fn echoed(alloc: Global, number: u32, line: &[u8]) -> Result<Reply, AllocError> {
    if line.is_empty() {
        return Ok(Reply::nothing(alloc));
    }
    let mut text = numbered(alloc, number, line)?;
    if line == b"no".as_slice() {
        return Ok(Reply::refused(text));
    }
    if line == b"two".as_slice() {
        text.extend_from_slice(&numbered(alloc, number, b"more")?)?;
    }
    let mut reply = Reply::command(text);
    if line == b"bad".as_slice() {
        reply.tally.failed = 1;
    }
    Ok(reply)
}

/// The status of a run, the faults of its sink, and what was written.
fn ran(alloc: Global, reader: MemReader, writer: MemWriter) -> (u8, u64, MemWriter) {
    let mut writer = writer;
    let mut source = StdSource::new(reader);
    let mut sink = StdSink::new(&mut writer);
    let end = run_all(alloc, &mut source, &mut sink);
    let faults = sink.faults();
    (end.status(), faults, writer)
}

/// A reader of the script that gives at most so many bytes a call.
fn reader(alloc: Global, script: &str, most: usize) -> Result<MemReader, AllocError> {
    let source = MemSource::new(alloc, script.as_bytes().to_vec(alloc)?);
    Ok(MemReader::new(source.giving_at_most(most.max(1))))
}

/// The bytes as text, with `\r` for each CR.
fn shown(alloc: Global, bytes: &[u8]) -> Result<String, AllocError> {
    let mut text = String::new(alloc);
    for byte in bytes {
        if *byte == b'\r' {
            text.push_str("\\r")?;
        } else {
            text.push(char::from(*byte))?;
        }
    }
    Ok(text)
}

/// What a run puts, and its status.
pub fn answer(alloc: Global, reader: MemReader, writer: MemWriter) -> Result<String, AllocError> {
    let (status, _, writer) = ran(alloc, reader, writer);
    let put = shown(alloc, writer.bytes())?;
    let gap = if put.is_empty() || put.ends_with('\n') {
        ""
    } else {
        "\n"
    };
    format!(in alloc; "{put}{gap}status {status}")
}

/// The same, where the reader gives and the writer takes at most so many bytes a call.
fn answer_in(alloc: Global, script: &str, most: usize) -> Result<String, AllocError> {
    let writer = MemWriter::new(MemSink::new(alloc), most);
    answer(alloc, reader(alloc, script, most)?, writer)
}

/// What a run puts and its status, whether in pieces of 1, 2, 5 or 100,000 bytes; or the first of these with which it is another.
pub fn pieces(alloc: Global, script: &str) -> Result<String, AllocError> {
    let first = answer_in(alloc, script, 1)?;
    for bytes in [2, 5, 100000] {
        let text = answer_in(alloc, script, bytes)?;
        if text.as_str() != first.as_str() {
            return format!(in alloc; "{first}\nin pieces of {bytes}:\n{text}");
        }
    }
    Ok(first)
}

/// The status of a run whose sink takes a byte at a time and fails at this call; or `!` where it took other bytes than those before
/// it, or failed otherwise than once.
fn status_at(alloc: Global, script: &str, whole: &[u8], call: usize) -> Result<char, AllocError> {
    let failing = [call as u64].to_vec(alloc)?;
    let writer = MemWriter::new(MemSink::new(alloc).with_failing(failing), 1);
    let (status, counted, writer) = ran(alloc, reader(alloc, script, usize::MAX)?, writer);
    let before = call.min(whole.len());
    let faults = if call < whole.len() { 1 } else { 0 };
    if writer.bytes() == &whole[..before] && counted == faults {
        Ok(digit(status as usize))
    } else {
        Ok('!')
    }
}

/// The status of the run for each call of the sink that fails, up to the first that isn't made.
pub fn sink_faults(alloc: Global, script: &str) -> Result<String, AllocError> {
    let writer = MemWriter::new(MemSink::new(alloc), usize::MAX);
    let (_, _, writer) = ran(alloc, reader(alloc, script, usize::MAX)?, writer);
    let mut signs = String::new(alloc);
    for call in 0..=writer.bytes().len() {
        signs.push(status_at(alloc, script, writer.bytes(), call)?)?;
    }
    Ok(signs)
}
