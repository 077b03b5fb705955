//! What tickets hold, and where objects go, as lines ask for them.
use crate::answer::{Answer, Fault, text};
use crate::words::{large, number};
use kinds::{Refusal, Segment};
use pool_rows::Pools;
use space::{Aim, Claim, Placed, Places, Request, Space, choose_by_walk};
use space_index::Index;
use std::alloc::{AllocError, Global};

/// `POOL:FILE@OFFSET+LEN`.
fn place(word: &str) -> Result<Placed, Fault> {
    let (pool, rest) = word.split_once(':').ok_or(Fault::NoCommand)?;
    let (file, rest) = rest.split_once('@').ok_or(Fault::NoCommand)?;
    let (offset, len) = rest.split_once('+').ok_or(Fault::NoCommand)?;
    Ok(Placed {
        pool: number(pool)?,
        segment: Segment {
            file: number(file)?,
            offset: large(offset)?,
            len: large(len)?,
        },
    })
}

fn places(alloc: Global, words: &[&str]) -> Result<Places, Fault> {
    let mut items = Vec::new(alloc);
    for word in words {
        let item = place(word)?;
        match items.push(item) {
            Ok(()) => {}
            Err(_) => return Err(AllocError.into()),
        }
    }
    Ok(Places::new(items))
}

fn hold(
    alloc: Global,
    space: &mut Space,
    ticket: &str,
    actor: &str,
    words: &[&str],
) -> Result<Answer, Fault> {
    let claim = Claim {
        actor: number(actor)?,
        places: places(alloc, words)?,
    };
    space.hold(large(ticket)?, claim)?;
    Ok(Answer::Done)
}

fn release(space: &mut Space, ticket: &str) -> Result<Answer, Fault> {
    space.release(large(ticket)?);
    Ok(Answer::Done)
}

fn note(
    alloc: Global,
    space: &mut Space,
    transaction: &str,
    words: &[&str],
) -> Result<Answer, Fault> {
    space.note(large(transaction)?, places(alloc, words)?)?;
    Ok(Answer::Done)
}

fn draw(space: &mut Space, file: &str) -> Result<Answer, Fault> {
    let file = number(file)?;
    if file == u32::MAX {
        return Ok(Answer::Unmet);
    }
    space.draw(file);
    Ok(Answer::Done)
}

fn start(alloc: Global, space: &mut Space, next_file: &str) -> Result<Answer, Fault> {
    *space = Space::new(alloc, number(next_file)?);
    Ok(Answer::Done)
}

/// What a command on the space of tickets is answered.
pub fn answer(alloc: Global, space: &mut Space, words: &[&str]) -> Result<Answer, Fault> {
    match words {
        ["new", next_file] => start(alloc, space, next_file),
        ["hold", ticket, actor, places @ ..] => hold(alloc, space, ticket, actor, places),
        ["release", ticket] => release(space, ticket),
        ["note", transaction, places @ ..] => note(alloc, space, transaction, places),
        ["draw", file] => draw(space, file),
        ["force"] => {
            space.force();
            Ok(Answer::Done)
        }
        _ => Err(Fault::NoCommand),
    }
}

/// `new=POOL`, `move=POOL`, `along=POOL` or `copy=POOL`.
fn aim(word: &str) -> Result<Aim, Fault> {
    let (kind, pool) = word.split_once('=').ok_or(Fault::NoCommand)?;
    let pool = number(pool)?;
    match kind {
        "new" => Ok(Aim::New { pool }),
        "move" | "along" => Ok(Aim::Move {
            from: 1,
            placed: 1,
            to: pool,
            along: kind == "along",
        }),
        "copy" => Ok(Aim::Copy { to: pool }),
        _ => Err(Fault::NoCommand),
    }
}

fn request(words: &[&str]) -> Result<Request, Fault> {
    let [actor, size, word, prefer, avoid] = words else {
        return Err(Fault::NoCommand);
    };
    Ok(Request {
        actor: number(actor)?,
        size: large(size)?,
        aim: aim(word)?,
        prefer: number(prefer)?,
        avoid: number(avoid)?,
    })
}

/// Each segment as its pool, file, offset and length, or words for no segment.
fn places_text(alloc: Global, places: &[Placed]) -> Result<String, AllocError> {
    if places.is_empty() {
        return String::from_str(alloc, "no segment");
    }
    let mut out = String::new(alloc);
    for place in places {
        let pool = place.pool;
        let file = place.segment.file;
        let offset = place.segment.offset;
        let len = place.segment.len;
        if !out.is_empty() {
            out.push(' ')?;
        }
        write!(out, "{pool}:{file}@{offset}+{len}")?;
    }
    Ok(out)
}

/// Where an object goes, found by the index, or by the walk where there is none.
fn by_index(
    alloc: Global,
    pools: &Pools,
    space: &Space,
    request: &Request,
) -> Result<Places, Refusal> {
    match Index::of(alloc, pools, space) {
        Ok(index) => space_index::choose(alloc, pools, space, &index, request),
        Err(_) => choose_by_walk(alloc, pools, space, request),
    }
}

fn answer_text(alloc: Global, answered: Result<Places, Refusal>) -> Result<String, AllocError> {
    match answered {
        Ok(places) => places_text(alloc, places.as_slice()),
        Err(refusal) => text(alloc, &Err(Fault::Refused(refusal))),
    }
}

/// Where an object goes: what the index answers, and beside it what the walk does, where that is another answer.
pub fn choose(
    alloc: Global,
    pools: &Pools,
    space: &Space,
    words: &[&str],
) -> Result<String, AllocError> {
    let request = match request(words) {
        Ok(request) => request,
        Err(fault) => return text(alloc, &Err(fault)),
    };
    let walked = choose_by_walk(alloc, pools, space, &request);
    let walked = answer_text(alloc, walked)?;
    let mut out = answer_text(alloc, by_index(alloc, pools, space, &request))?;
    if out.as_str() != walked.as_str() {
        write!(out, ", by the walk {walked}")?;
    }
    Ok(out)
}
