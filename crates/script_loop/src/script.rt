// The run over a script.
ghost use Rattle.std.specs.Prelude.{◌≡◌, ℕ, ◌+◌, ◌-◌, ◌^◌, ◌<◌, ◌≤◌, true, List, length, None, Option, Some, IfErr, IfOk, MatchResult};
ghost use Rattle.std.specs.Io.KnownBytes.{IsAtEnd, prepend_known};
ghost use Rattle.script_loop.specs.Ends.{SourceCause, SinkCause, DoneAtEnd};
ghost use Rattle.script_loop.specs.Pauses.{AnswersAs, AnswersTurn, ComesTo, EndsOver, EndsTurn, HasRoom, NextWithin, PutsAnswer, RoomBehind, RunsTo, SinkSays, SourceSays, Stands, StopsTo, TakesTurn, TurnOver, TurnRoom, TurnSink, TurnSource, Waits};
ghost use Rattle.script_loop.specs.Runs.{Says};
ghost use Rattle.script_loop.specs.Steps.{PutsReply, StepSink};

use crate::{Answered, Answerer, End, Halt, LineReader, Next, Reply, Tally, put_last};
use std::alloc::Global;
use std::marker::Model;
use tree_api::{Sink, Source, put_all};

// The number of the last line that is taken.
const LAST_LINE: u32 = 1048576;

/// How far a run over a script has come: behind some of its lines, or, where the server has asked for more to be done, in the middle of one or of the script's end.
#[derive(Drop)]
pub struct Progress {
    reader: LineReader,
    number: u32,
    tally: Tally,
    over: bool,
}

impl Model for Progress {
    ghost use Rattle.script_loop.specs.Pauses.{Stage};

    ghost Value = { Stage };

    ghost view = { λ p. record { held = p.reader.held; next = p.number; tally = p.tally; over = p.over } };
}

impl Progress {
    ghost use Rattle.std.specs.Prelude.{◌≡◌};

    /// The number of the next line, counted from 1; or, where the server has asked, of the line at which it did, which at the script's end is the number that one more line would have.
    pub fn number(&self) -> u32
        ensures { result ≡ self.now.next }
    {
        self.number
    }
}

// What came of one line's taking.
#[derive(Clone, Copy)]
enum Turn {
    // It was answered, and so much was counted.
    Took(Tally),
    // The run ends.
    Ends(End),
    // The server asks for more to be done, at a line, or at the script's end.
    Asks(bool),
}

// Prints the reply to a line, and adds what it counts.
fn put_reply<O: Sink>(out: &mut O, reply: &Reply, tally: Tally) -> Result<Tally, End>
    ensures put { PutsReply tally reply.now result (O.contents out.old) (O.contents out.new) }
    ensures cause { StepSink result (O.fault_count out.old) (O.fault_count out.new) }
{
    match put_all(out, &reply.text) {
        Ok(()) => Ok(tally.and(reply.tally)),
        Err(_) => Err(End::SinkFault),
    }
}

// Gives a line.
fn answer_line<A: Answerer, O: Sink>(
    alloc: Global,
    server: &mut A,
    line: &[u8],
    out: &mut O,
    number: u32,
    tally: Tally,
) -> Turn
    requires short { length line.now < 2 ^ 32 - 1 }
    requires within { number ≤ 2 ^ 20 }
    requires room { (m : ℕ) → m + number ≡ 2 ^ 20 + 1 → A.can_take server.old m }
    ensures answers { AnswersTurn A.serves A.halts A.asks number line.now tally server.old server.new result (O.contents out.old) (O.contents out.new) }
    ensures room { TurnRoom A.can_take number server.new result }
    ensures cause { TurnSink result (O.fault_count out.old) (O.fault_count out.new) }
{
    match server.answer(alloc, number, line, LAST_LINE - number) {
        Answered::Replied(reply) => match put_reply(out, &reply, tally) {
            Ok(sum) => Turn::Took(sum),
            Err(end) => Turn::Ends(end),
        },
        Answered::Ended(halt) => Turn::Ends(End::Halted(halt)),
        Answered::Asked => Turn::Asks(false),
    }
}

// Gives the script's end, behind the line before this number.
fn end_script<A: Answerer, O: Sink>(
    alloc: Global,
    server: &mut A,
    out: &mut O,
    number: u32,
    tally: Tally,
) -> Turn
    requires within { number ≤ 2 ^ 20 }
    requires room { (m : ℕ) → m + number ≡ 2 ^ 20 + 1 → A.can_take server.old m }
    ensures ends { EndsTurn A.serves A.halts A.asks number tally server.old server.new result (O.contents out.old) (O.contents out.new) }
    ensures room { TurnRoom A.can_take number server.new result }
    ensures cause { TurnSink result (O.fault_count out.old) (O.fault_count out.new) }
{
    match server.finish(alloc, number, LAST_LINE - number) {
        Answered::Replied(reply) => match put_reply(out, &reply, tally) {
            Ok(sum) => Turn::Ends(End::Done(sum)),
            Err(end) => Turn::Ends(end),
        },
        Answered::Ended(halt) => Turn::Ends(End::Halted(halt)),
        Answered::Asked => Turn::Asks(true),
    }
}

// Reads the next line and gives it, or the script's end.
fn take_line<A: Answerer, I: Source, O: Sink>(
    alloc: Global,
    server: &mut A,
    reader: &mut LineReader,
    script: &mut I,
    out: &mut O,
    number: u32,
    tally: Tally,
) -> Turn
    requires within { number ≤ 2 ^ 20 }
    requires room { (m : ℕ) → m + number ≡ 2 ^ 20 + 1 → A.can_take server.old m }
    ensures takes { TakesTurn A.serves A.halts A.asks number tally server.old server.new (prepend_known reader.old.held (I.left script.old)) (prepend_known reader.new.held (I.left script.new)) result (O.contents out.old) (O.contents out.new) }
    ensures room { TurnRoom A.can_take number server.new result }
    ensures end { TurnOver result (I.left script.new) }
    ensures source { TurnSource result (I.fault_count script.old) (I.fault_count script.new) }
    ensures sink { TurnSink result (O.fault_count out.old) (O.fault_count out.new) }
{
    match reader.advance(script) {
        Ok(Next::Line) => answer_line(alloc, server, reader.line(), out, number, tally),
        Ok(Next::End) => end_script(alloc, server, out, number, tally),
        Ok(Next::TooLong) => Turn::Ends(End::TooLong(number)),
        Err(_) => Turn::Ends(End::SourceFault),
    }
}

// Prints the answer to a line, or to the script's end, with which the run is done; and adds what it counts.
fn put_answer<O: Sink>(
    out: &mut O,
    answer: Result<Reply, Halt>,
    tally: Tally,
    over: bool,
) -> Result<Tally, End>
    ensures put { PutsAnswer tally over answer result (O.contents out.old) (O.contents out.new) }
    ensures cause { StepSink result (O.fault_count out.old) (O.fault_count out.new) }
{
    let reply = match answer {
        Ok(reply) => reply,
        Err(halt) => return Err(End::Halted(halt)),
    };
    match put_reply(out, &reply, tally) {
        Ok(sum) => { if over { Err(End::Done(sum)) } else { Ok(sum) } }
        Err(end) => Err(end),
    }
}

// Takes lines up to where the run ends, or where the server asks. The last line of a run isn't printed.
fn take_lines<A: Answerer, I: Source, O: Sink>(
    alloc: Global,
    progress: &mut Progress,
    server: &mut A,
    script: &mut I,
    out: &mut O,
) -> Option<End>
    requires within { progress.old.next ≤ 2 ^ 20 + 1 }
    requires room { HasRoom A.can_take progress.old server.old }
    ensures stops { (start : A) (first contents : Option (List ℕ)) → Stands A.serves start first contents progress.old server.old (I.left script.old) (O.contents out.old)
        → StopsTo A.serves A.halts A.asks start first contents progress.new server.new (I.left script.new) (O.contents out.new) result }
    ensures next { NextWithin result progress.old.next (2 ^ 20) progress.new.next }
    ensures room { RoomBehind result A.can_take progress.new server.new }
    ensures end { EndsOver result progress.new.over (I.left script.new) }
    ensures source { SourceSays result (I.fault_count script.old) (I.fault_count script.new) }
    ensures sink { SinkSays result (O.fault_count out.old) (O.fault_count out.new) }
{
    'lines: while progress.number <= LAST_LINE {
        match take_line(
            alloc,
            server,
            &mut progress.reader,
            script,
            out,
            progress.number,
            progress.tally,
        ) {
            Turn::Took(sum) => {
                progress.tally = sum;
                progress.number += 1;
            }
            Turn::Ends(end) => return Some(end),
            Turn::Asks(over) => {
                progress.over = over;
                return None;
            }
        }
    }
    Some(End::TooLong(LAST_LINE))
}

/// Begins a run over a script, before its first line. Where memory is wanted for it the run has ended, and its last line is printed.
pub fn begin<A: Answerer, O: Sink>(alloc: Global, server: &A, out: &mut O) -> Result<Progress, End>
    ensures begun { IfOk result (λ progress. (progress.next ≡ 1) × ((script : Option (List ℕ)) → Stands A.serves server.now script (O.contents out.old) progress server.now script (O.contents out.new))) }
    ensures says { IfErr result (λ end. (script : Option (List ℕ)) → Says A.serves A.halts server.now server.now script (O.contents out.old) (O.contents out.new) end) }
    ensures end { IfErr result (λ end. (left : Option (List ℕ)) → DoneAtEnd end left) }
    ensures source { IfErr result (λ end. (count : ℕ) → SourceCause end count count) }
    ensures sink { MatchResult result (λ _. O.fault_count out.old ≤ O.fault_count out.new) (λ end. SinkCause end (O.fault_count out.old) (O.fault_count out.new)) }
{
    let _server = server;
    match LineReader::new(alloc) {
        Ok(reader) => Ok(Progress {
            reader,
            number: 1,
            tally: Tally::none(),
            over: false,
        }),
        Err(_) => Err(put_last(out, End::Halted(Halt::Memory))),
    }
}

/// Goes on with a run over a script: each of its lines is answered in order and its answer printed, then its end, and the last line says how the run
/// ended. LF ends a line, a CR before it goes, and the last line needs no LF. A line of 4,096 bytes or more before its LF
/// ends the run, and so does line 2^20, which is answered first.
///
/// It answers how the run ended; or nothing, where the server asks for more to be done before the line or the script's end that was taken is answered. Then `answered` is to be called with its answer.
pub fn run<A: Answerer, I: Source, O: Sink>(
    alloc: Global,
    progress: &mut Progress,
    server: &mut A,
    script: &mut I,
    out: &mut O,
) -> Option<End>
    requires within { progress.old.next ≤ 2 ^ 20 + 1 }
    requires room { HasRoom A.can_take progress.old server.old }
    // A run that stood before its next line ends so as to say the whole of it from its first line on; or it waits.
    ensures runs { (start : A) (first contents : Option (List ℕ)) → Stands A.serves start first contents progress.old server.old (I.left script.old) (O.contents out.old)
        → RunsTo A.serves A.halts A.asks start first contents progress.new server.new (I.left script.new) (O.contents out.new) result }
    ensures next { NextWithin result progress.old.next (2 ^ 20) progress.new.next }
    ensures room { RoomBehind result A.can_take progress.new server.new }
    ensures end { EndsOver result progress.new.over (I.left script.new) }
    ensures source { SourceSays result (I.fault_count script.old) (I.fault_count script.new) }
    ensures sink { SinkSays result (O.fault_count out.old) (O.fault_count out.new) }
{
    match take_lines(alloc, progress, server, script, out) {
        Some(end) => Some(put_last(out, end)),
        None => None,
    }
}

/// Answers the line, or the script's end, at which the server had asked for more to be done: the answer is printed, or it ends the run; and the last line of a run that ends says how it ended. It answers how the
/// run ended; or nothing, where it goes on with the next line.
pub fn answered<A: Answerer, O: Sink>(
    server: &A,
    progress: &mut Progress,
    reply: Result<Reply, Halt>,
    out: &mut O,
) -> Option<End>
    requires { progress.old.next ≤ 2 ^ 20 }
    // A run that waited, and where this is its answer to what was taken, ends so as to say the whole of it from its first line on; or it stands before its next line.
    ensures comes { (start state : A) (first contents left : Option (List ℕ)) → (waits : Waits A.serves A.asks start first contents progress.old state left (O.contents out.old))
        → AnswersAs A.serves A.halts waits.old progress.old.next waits.given reply server.now → ComesTo A.serves A.halts start first contents progress.new server.now left (O.contents out.new) result }
    ensures next { NextWithin result (progress.old.next + 1) (progress.old.next + 1) progress.new.next }
    ensures end { (left : Option (List ℕ)) → (progress.old.over ≡ true → IsAtEnd left) → EndsOver result progress.new.over left }
    ensures source { (count : ℕ) → SourceSays result count count }
    ensures sink { SinkSays result (O.fault_count out.old) (O.fault_count out.new) }
{
    let _server = server;
    match put_answer(out, reply, progress.tally, progress.over) {
        Ok(sum) => {
            progress.tally = sum;
            progress.number += 1;
            progress.over = false;
            None
        }
        Err(end) => Some(put_last(out, end)),
    }
}
