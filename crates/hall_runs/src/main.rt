//! Reads a script of steps, processes and commands of actors, and prints a line for each: what it is answered. A word alone says on what the lines behind it are made.
//!
//! - `new`: on the store of a new database, in memory; no hall is open. There `open`: a hall is opened over the store, and `close`: it is closed. `stop CHOICE`: the machine stops, and a hall is
//!   opened over what the stop leaves. What is opened prints the number of its last transaction. Actors make steps, and each such line begins with the number of its actor.
//! - `ACTOR open_new POOL SIZE PREFER`; `ACTOR open_copy OBJECT AVOID AIM` with the aim `new POOL`, `copy TO`, `move FROM PLACED TO along` or `move FROM PLACED TO
//!   alone`; `ACTOR write TICKET TEXT`; `ACTOR copy_piece TICKET`; `ACTOR seal TICKET`; `ACTOR drop TICKET`.
//! - Commits: `ACTOR plain DIGITS TICKET..`, the change of a transaction; `ACTOR backup FILESPACE PATH MTIME TEXT TICKET..`; `ACTOR hold FILESPACE PATH UNTIL TEXT TICKET..`;
//!   `ACTOR placed TICKET..`. What is stored is to have the SHA-256 of the text.
//! - `ACTOR read OBJECT TEXT FROM OFFSET WANTED`: a piece of an object that has the SHA-256 of the text; how many bytes were read, and the first eight of them.
//! - `ACTOR ask QUERY`: the number and the day, and then the rows; `today`, `unretained`, `emptied`, `log`, `held FILESPACE` and `onpool POOL`.
//! - `ACTOR image KIND` with `checkpoint`, `backup`, `since FILE` or `next`; `ACTOR reuse FILE`; `ACTOR force`.
//! - A text is the word's bytes, `COUNT*BYTE` for so many bytes with this number, several of these with `+` between them, or `-` for none.
//! - `state`: the number of the last transaction, how many of the run's are known to be durable, the generation of the newest image, and the numbers that are drawn next.
//!   `faults FILE`: how often calls on the file have failed.
//! - `fail CALL..`: the calls of the store fail that begin so many calls later, counted from 0. All lines since `new` are made again for that, with the calls that fail.
//! - `begin`, and `sweep`: the lines between them, which have to be steps, are made again, once for each call of the store and each of the choices 0, 1, 2^63 + 1 and 2^63 - 1: all calls
//!   fail from that one on, and there the machine stops; and once more for each call of the opening behind that, in which it stops again. Behind each the hall that is opened has the
//!   database behind some of the first transactions, with all that were acknowledged, the same one behind each stop in the opening, and each copy of each object that may be read reads
//!   back with the SHA-256 that the database has. Printed are the numbers of stops, in the calls of the lines and behind the last one, and in those of the openings; or the first call, counted from
//!   0, its choice and what is wrong.
//! - `fail_each`: the same lines are made again, once for each call of the store, which alone fails, and each of the choices; behind them the machine stops. The hall that is opened has the
//!   database behind some of the first transactions that were made so, with all that were acknowledged, and each copy reads back. Printed is the number of calls, or what a sweep prints.
//! - `turns SEED COUNT`: the lines since `new` are made again, and behind them so many turns of three actors, which steps by numbers from the seed, on a hall and on the machine of plain lists
//!   (`plain_hall`). Both answer each step alike, but for how many steps an image takes, which is written to its end. Behind each 40 turns both have the same database, the machine stops
//!   by a choice from the seed, and what is opened is as behind a sweep; the machine of plain lists goes on with it. Printed are the numbers of turns and of stops; or the first line that
//!   is answered otherwise, or the first word of a step that was never made.
//! - `both`: on a new store with a hall over it, and on a new machine of plain lists, each line on both. Printed is what both answer; or where they answer differently, and no call failed, both answers
//!   with `but` between them. There `stop CHOICE`: the machine stops, and a hall is opened over what the stop leaves, which has the database behind some of the first transactions, with all that
//!   are known to be durable, and each copy of each object that may be read reads back with the SHA-256 that the database has; both go on with it. Actors' lines are steps, commands and processes.
//! - `ACTOR PUT PATH SIZE TIME`: a file of the node ANNA is stored in its filespace /home, which is defined where it isn't there; it was changed last at this time, and its bytes are the lowest of the
//!   numbers that SplitMix64 gives for that seed. `ACTOR GET PATH`: it is read; its object, its size and the SHA-256 of its bytes. `ACTOR CHANGE DIGITS`: a transaction by its hexadecimal digits.
//! - `ACTOR EXPIRE`, `REUSE`, `CHECKPOINT`, `BACKUP PRIMARY COPY`, `MIGRATE POOL LOW`, `MIGRATE_LAST POOL LOW`, `MIGRATE_ALL`, `RECLAIM POOL THRESHOLD`, `MOVE FILE POOL`, `RESTORE POOL`,
//!   `RESTORE_VOLUME FILE`, `DELETE_FILESPACE NUMBER` and `DELETE_VOLUME FILE DISCARD`: the processes, and what they count. Of the copies that may be moved the first one is, or by `MIGRATE_LAST` the
//!   last one.
//! - `turns SEED COUNT` on both: so many stretches of processes, commands and steps by numbers from the seed. Each ends with a stop of the machine by a choice from the seed, behind 40 of them, or
//!   behind the one in which a call of the store fails: in each stretch none does, or one alone, or all from a random one on, counted from the opening. Both answer each alike in which no call fails,
//!   and have the same database behind the last one; what makes all durable before it ends has done so; and what is opened behind the stop is as behind the line `stop`. Printed is the number of
//!   stretches; or the first line that is answered otherwise, or the first word that never did anything.
//! - `alone`: on a new machine of plain lists alone, that of a server that was just formatted, on which only what the script says is done. `among`: on one on which other actors' transactions come
//!   between any two steps; `other ACTOR DIGITS`: the transaction of these hexadecimal digits comes before one of the next steps on that one, as this actor's, each before one, the first one first;
//!   or while an actor waits. Actors' lines are as on both, and `ACTOR wait ticket NUMBER`, `wait image ACTOR` and `wait unforced NUMBER`; and `ACTOR refused`: how many of its steps were refused as
//!   such of an object that can't be moved or stored, since its turn began. Behind the answer of EXPIRE stands a line for each step that it made: the number of the last transaction before it, its
//!   kind, and why it was refused, where it was.
//! - A comment, which begins with `#`, and an empty line are printed as they stand.
//!
//! The stored output was written by hand, from the rules of steps, space, retention, the processes and the vault, and not by this program.
#![tactic(auto)]

mod both;
mod checks;
mod choices;
mod desk;
mod fault;
mod files;
mod last;
mod lists;
mod made;
mod orders;
mod plain;
mod processes;
mod run;
mod script;
mod seeds;
mod sweeps;
mod turns;

use plain_hall::{ListMachine, Nobody, Others};
use run::{Mode, Run};
use script::Script;
use std::alloc::AllocError;
use std::io;
use std::io::{BufWriter, Write};

/// Answers each line of the input.
fn answer_all(rt: &HostRuntime, run: &mut Run<'_>) -> io::Result<()> {
    let mut out = BufWriter::new(run.alloc, io::writer(rt))?;
    for line in rt.lines(run.alloc) {
        let line = line?;
        let text = run.line(line.as_str())?;
        out.write_all(text.as_bytes())?;
        out.write_all(b"\n")?;
    }
    out.flush()
}

/// Answers them on a hall, and on these machines of plain lists.
fn answer_on(
    rt: &HostRuntime,
    plain: &mut ListMachine<Nobody>,
    among: &mut ListMachine<Others>,
) -> io::Result<()> {
    let alloc = rt.alloc();
    let mut script = Script::new(alloc);
    let answered = answer_all(
        rt,
        &mut Run {
            alloc,
            script: &mut script,
            plain,
            among,
            mode: Mode::Hall,
        },
    );
    drop(script);
    answered
}

/// Answers them on this machine of plain lists and on one that others share.
fn answer_with(rt: &HostRuntime, plain: &mut ListMachine<Nobody>) -> io::Result<()> {
    let alloc = rt.alloc();
    match ListMachine::new(alloc, Others::new(alloc)) {
        Ok(mut among) => {
            let answered = answer_on(rt, plain, &mut among);
            drop(among);
            answered
        }
        Err(_) => Err(AllocError.into()),
    }
}

fn main(rt: HostRuntime) -> io::Result<()> {
    match ListMachine::new(rt.alloc(), Nobody) {
        Ok(mut plain) => {
            let answered = answer_with(&rt, &mut plain);
            drop(plain);
            answered
        }
        Err(_) => Err(AllocError.into()),
    }
}
