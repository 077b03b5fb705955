//! Reads a script of one inventory, and prints a line for each line, and behind that of a query a line for each row.
//!
//! - `fresh`: the inventory of a server that was just formatted; `payload`: its bytes in hexadecimal digits.
//! - `again`: the inventory that its bytes are decoded as takes its place; `same` where that has the same bytes. `copy`: so does a copy.
//! - `read` and hexadecimal digits: the inventory that the bytes are decoded as; its number, or `no inventory`. `first` and hexadecimal digits: the same
//!   of bytes in the first form; `either` and hexadecimal digits: of bytes in either, as the first of them says.
//! - Hexadecimal digits, the first of them 0, with blanks between them: a transaction. It is made where it is legal, and its number is printed, else why not.
//! - `past OBJECT CHANGED REMOVED`: what the journal tells from here on of an object: the numbers of the transactions that changed it and
//!   that removed it, each a number or `-`; and that the latter emptied each path that has no version. Of all else it tells nothing.
//! - A query, which is answered with the number and the day, and then its rows, or why it is refused: `today`, `domains`, `sets DOMAIN`,
//!   `classes DOMAIN SET`, `groups DOMAIN SET`, `validated DOMAIN SET`, `nodes`, `filespaces NODE`, `devices`, `pools POOL`, `volumes VOLUME POOL`,
//!   `content VOLUME`, `history`, `versions NODE FILESPACE`, `path NODE FILESPACE PATH`, `held NUMBER` (that of a filespace), `lookup KIND NAME` with
//!   `node`, `class`, `pool` or `volume`, and `lookup filespace NODE FILESPACE`; and by numbers `rules NODE`, `onpool POOL`, `onvolume FILE`,
//!   `missing PRIMARY COPY`, `eligible POOL THRESHOLD`, `unretained`, `emptied` and `log`. A dash stands for a name that isn't given.
//! - What a client's session looks up, by numbers: `place POOL SIZE`, where a file goes; `segments POOL SIZE`, how many segments it has; `readable
//!   FILE`; `reads FILE..`, whether a copy with a segment on each of these volumes can be read; `default NODE`, its default class with its
//!   destination; `active FILESPACE PATH`, the object of the active version. `none` where there is none.
//! - A comment, which begins with `#`, is printed as it stands.
//!
//! The stored output was written from the forms of docs/FORMATS.md and the rules of transactions, and not by this program.
#![tactic(auto)]

mod client_rows;
mod journal;
mod places;
mod policy_rows;
mod questions;
mod rows;
mod store_rows;
mod words;
mod work_rows;

use entries::{Database, Entry};
use inventory::Inventory;
use inventory_answers::Query;
use journal::{Told, told_by};
use kinds::Refusal;
use questions::{Fault, query_of};
use std::alloc::{AllocError, Global};
use std::io;
use std::io::{BufWriter, Write};

/// The bytes that the line's digits stand for; none where it isn't such a line.
fn bytes_of(alloc: Global, line: &str) -> Option<Vec<u8>> {
    let mut digits = Vec::new(alloc);
    for byte in line.bytes() {
        if byte != b' ' {
            digits.push(byte).ok()?;
        }
    }
    hex::decode(alloc, digits.as_slice()).ok()
}

/// The refusal of a transaction that isn't legal: with what the journal tells, or else the one of the inventory alone.
fn refusal_told(inventory: &Inventory, past: &Told, entry: &Entry, alone: Refusal) -> Refusal {
    match inventory.refused(past, &entry.change) {
        Some(refusal) => refusal,
        None => alone,
    }
}

/// Makes a transaction where it is legal, and answers its number.
fn made(
    alloc: Global,
    inventory: &mut Inventory,
    past: &Told,
    entry: &Entry,
) -> Result<u64, Refusal> {
    match inventory.legal(entry) {
        Ok(()) => {}
        Err(refusal) => return Err(refusal_told(inventory, past, entry, refusal)),
    }
    match inventory.apply(alloc, entry) {
        Ok(()) => Ok(inventory.number()),
        Err(refusal) => Err(refusal),
    }
}

fn number_text(alloc: Global, made: Result<u64, Refusal>) -> Result<String, AllocError> {
    match made {
        Ok(number) => format!(in alloc; "number {number}"),
        Err(refusal) => format!(in alloc; "{refusal:?}"),
    }
}

/// What the bytes of a transaction are answered.
fn entered(
    alloc: Global,
    inventory: &mut Inventory,
    past: &Told,
    bytes: &[u8],
) -> Result<String, AllocError> {
    match Entry::decode(alloc, bytes) {
        Ok(Some(entry)) => {
            let made = made(alloc, inventory, past, &entry);
            drop(entry);
            number_text(alloc, made)
        }
        Ok(None) => String::from_str(alloc, "no entry"),
        Err(refusal) => number_text(alloc, Err(refusal)),
    }
}

fn payload_text<D: Database>(alloc: Global, inventory: &D) -> Result<String, AllocError> {
    match inventory.encode(alloc) {
        Ok(bytes) => hex::encode(alloc, bytes.as_slice()),
        Err(refusal) => number_text(alloc, Err(refusal)),
    }
}

/// The inventory becomes what was found.
fn become_found<D: Database>(
    alloc: Global,
    inventory: &mut D,
    found: Result<Option<D>, Refusal>,
) -> Result<String, AllocError> {
    match found {
        Ok(Some(found)) => {
            let number = found.number();
            *inventory = found;
            number_text(alloc, Ok(number))
        }
        Ok(None) => String::from_str(alloc, "no inventory"),
        Err(refusal) => number_text(alloc, Err(refusal)),
    }
}

/// The inventory becomes that of the bytes.
fn read_in<D: Database>(
    alloc: Global,
    inventory: &mut D,
    bytes: &[u8],
) -> Result<String, AllocError> {
    become_found(alloc, inventory, D::decode_two(alloc, bytes))
}

/// The inventory becomes that of the bytes in the first form.
fn read_first<D: Database>(
    alloc: Global,
    inventory: &mut D,
    bytes: &[u8],
) -> Result<String, AllocError> {
    become_found(alloc, inventory, D::decode_one(alloc, bytes))
}

/// The inventory becomes that of the bytes in either form.
fn read_either(
    alloc: Global,
    inventory: &mut Inventory,
    bytes: &[u8],
) -> Result<String, AllocError> {
    become_found(alloc, inventory, Inventory::decode(alloc, bytes))
}

/// Whether the inventory has these bytes, in a word.
fn compared<D: Database>(alloc: Global, inventory: &D, bytes: &[u8]) -> Result<String, AllocError> {
    match inventory.encode(alloc) {
        Ok(same) if same.as_slice() == bytes => String::from_str(alloc, "same"),
        Ok(_) => String::from_str(alloc, "other"),
        Err(refusal) => number_text(alloc, Err(refusal)),
    }
}

/// The inventory becomes that of its bytes.
fn read_again<D: Database>(alloc: Global, inventory: &mut D) -> Result<String, AllocError> {
    match inventory.encode(alloc) {
        Ok(bytes) => {
            let _ = read_in(alloc, inventory, bytes.as_slice())?;
            compared(alloc, inventory, bytes.as_slice())
        }
        Err(refusal) => number_text(alloc, Err(refusal)),
    }
}

/// The inventory becomes its copy.
fn become_copy<D: Database>(alloc: Global, inventory: &mut D) -> Result<(), Refusal> {
    let copy = inventory.copy(alloc)?;
    *inventory = copy;
    Ok(())
}

/// The inventory becomes its copy, and is compared with what it was.
fn copied<D: Database>(alloc: Global, inventory: &mut D) -> Result<String, AllocError> {
    match inventory.encode(alloc) {
        Ok(bytes) => match become_copy(alloc, inventory) {
            Ok(()) => compared(alloc, inventory, bytes.as_slice()),
            Err(refusal) => number_text(alloc, Err(refusal)),
        },
        Err(refusal) => number_text(alloc, Err(refusal)),
    }
}

/// The inventory becomes this one.
fn take_up<D: Database>(alloc: Global, inventory: &mut D, new: D) -> Result<String, AllocError> {
    *inventory = new;
    String::from_str(alloc, "done")
}

fn begin(alloc: Global, inventory: &mut Inventory) -> Result<String, AllocError> {
    match Inventory::fresh(alloc) {
        Ok(fresh) => take_up(alloc, inventory, fresh),
        Err(refusal) => number_text(alloc, Err(refusal)),
    }
}

/// What bytes in the first form are answered.
fn first_answer(
    alloc: Global,
    inventory: &mut Inventory,
    digits: &str,
) -> Result<String, AllocError> {
    match bytes_of(alloc, digits) {
        Some(bytes) => read_first(alloc, inventory, bytes.as_slice()),
        None => String::from_str(alloc, "no command"),
    }
}

/// What bytes in either form are answered.
fn either_answer(
    alloc: Global,
    inventory: &mut Inventory,
    digits: &str,
) -> Result<String, AllocError> {
    match bytes_of(alloc, digits) {
        Some(bytes) => read_either(alloc, inventory, bytes.as_slice()),
        None => String::from_str(alloc, "no command"),
    }
}

/// What a line of digits is answered.
fn bytes_answer(
    alloc: Global,
    inventory: &mut Inventory,
    past: &Told,
    line: &str,
) -> Result<String, AllocError> {
    match line.strip_prefix("read ") {
        Some(digits) => match bytes_of(alloc, digits) {
            Some(bytes) => read_in(alloc, inventory, bytes.as_slice()),
            None => String::from_str(alloc, "no command"),
        },
        None => match bytes_of(alloc, line) {
            Some(bytes) => entered(alloc, inventory, past, bytes.as_slice()),
            None => String::from_str(alloc, "no command"),
        },
    }
}

/// What a query is answered.
fn asked(alloc: Global, inventory: &Inventory, query: &Query) -> Result<String, AllocError> {
    match inventory.answer(alloc, query) {
        Ok(answer) => {
            let text = rows::text(alloc, &answer);
            drop(answer);
            text
        }
        Err(refusal) => number_text(alloc, Err(refusal)),
    }
}

fn fault_text(alloc: Global, fault: Fault) -> Result<String, AllocError> {
    match fault {
        Fault::NoCommand => String::from_str(alloc, "no command"),
        Fault::Refused(refusal) => number_text(alloc, Err(refusal)),
    }
}

/// What the words of a query are answered.
fn query_answer(
    alloc: Global,
    inventory: &Inventory,
    words: &[&str],
) -> Result<String, AllocError> {
    match query_of(alloc, words) {
        Ok(query) => {
            let text = asked(alloc, inventory, &query);
            drop(query);
            text
        }
        Err(fault) => fault_text(alloc, fault),
    }
}

/// What a look-up by a client's session is answered.
fn place_answer(
    alloc: Global,
    inventory: &Inventory,
    words: &[&str],
) -> Result<String, AllocError> {
    match places::ask(alloc, inventory.tables(), words) {
        Ok(text) => Ok(text),
        Err(fault) => fault_text(alloc, fault),
    }
}

/// The journal tells this from here on.
fn tell(
    alloc: Global,
    past: &mut Told,
    object: &str,
    changed: &str,
    removed: &str,
) -> Result<String, AllocError> {
    match told_by(object, changed, removed) {
        Some(now) => {
            *past = now;
            String::from_str(alloc, "done")
        }
        None => String::from_str(alloc, "no command"),
    }
}

/// What a line of words is answered.
fn words_answer(
    alloc: Global,
    inventory: &mut Inventory,
    past: &mut Told,
    words: &[&str],
) -> Result<String, AllocError> {
    match words {
        ["fresh"] => begin(alloc, inventory),
        ["payload"] => payload_text(alloc, inventory),
        ["again"] => read_again(alloc, inventory),
        ["copy"] => copied(alloc, inventory),
        ["first", digits] => first_answer(alloc, inventory, digits),
        ["either", digits] => either_answer(alloc, inventory, digits),
        ["past", object, changed, removed] => tell(alloc, past, object, changed, removed),
        [
            "place" | "segments" | "readable" | "reads" | "default" | "active",
            ..
        ] => { place_answer(alloc, inventory, words) }
        words => query_answer(alloc, inventory, words),
    }
}

/// What the line is answered.
fn answer(
    alloc: Global,
    inventory: &mut Inventory,
    past: &mut Told,
    line: &str,
) -> Result<String, AllocError> {
    if line.starts_with('#') {
        return String::from_str(alloc, line);
    }
    if line.starts_with('0') || line.starts_with("read ") {
        return bytes_answer(alloc, inventory, past, line);
    }
    let words: Vec<&str> = line.split_whitespace().collect(alloc)?;
    words_answer(alloc, inventory, past, words.as_slice())
}

/// Answers each line of the input.
fn answer_all(rt: &HostRuntime, inventory: &mut Inventory) -> io::Result<()> {
    let alloc = rt.alloc();
    let mut past = Told {
        object: 0,
        changed: None,
        removed: None,
    };
    let mut out = BufWriter::new(alloc, io::writer(rt))?;
    for line in rt.lines(alloc) {
        let line = line?;
        let text = answer(alloc, inventory, &mut past, line.as_str())?;
        out.write_all(text.as_bytes())?;
        out.write_all(b"\n")?;
    }
    out.flush()
}

fn main(rt: HostRuntime) -> io::Result<()> {
    match Inventory::fresh(rt.alloc()) {
        Ok(mut inventory) => {
            let answered = answer_all(&rt, &mut inventory);
            drop(inventory);
            answered
        }
        Err(_) => Err(AllocError.into()),
    }
}
