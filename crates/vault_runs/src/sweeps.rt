//! Steps that are made over and over, with another call that fails each time.
use crate::answer::Fault;
use crate::steps::{Desk, Step};
use kinds::{OpenRefused, Refusal};
use mem_store::MemStore;
use std::alloc::Global;
use store_api::Store;

/// More moments than any script comes to.
const MOST: u64 = 1000;

/// The sign of a number below ten.
fn digit(number: u64) -> char {
    match char::from_digit((number % 10) as u32, 10) {
        Some(sign) => sign,
        None => '!',
    }
}

/// The sign of what the store recovers to.
fn recovered(alloc: Global, desk: &mut Desk) -> char {
    match desk.make(alloc, Step::Open) {
        Ok(()) => match desk.number() {
            Some(number) => digit(number),
            None => '!',
        },
        Err(Fault::NotOpened(OpenRefused::NotFormatted)) => '-',
        Err(_) => '!',
    }
}

/// What the steps are answered over a copy of the store, where the call fails that begins so many calls after the first.
fn made(
    alloc: Global,
    desk: &mut Desk,
    store: &MemStore,
    steps: &[Step],
    later: u64,
) -> Result<Result<(), Fault>, Fault> {
    desk.copy(alloc, store)?;
    let moment = desk.store.moment().saturating_add(later);
    desk.fail_at(alloc, [moment].to_vec(alloc)?);
    Ok(desk.make_all(alloc, steps))
}

/// What is recovered after a stop, and no call fails.
fn after_stop(alloc: Global, desk: &mut Desk, choice: u64) -> char {
    desk.stop(alloc, choice);
    desk.fail_at(alloc, Vec::new(alloc));
    recovered(alloc, desk)
}

/// What is recovered after a stop at each moment.
pub fn stops(
    alloc: Global,
    desk: &mut Desk,
    store: &MemStore,
    choice: u64,
    steps: &[Step],
) -> Result<String, Fault> {
    let mut signs = String::new(alloc);
    for moment in 0..MOST {
        let answered = made(alloc, desk, store, steps, moment)?;
        signs.push(after_stop(alloc, desk, choice))?;
        if answered.is_ok() {
            return Ok(signs);
        }
    }
    Err(Fault::NoCommand)
}

/// What is recovered after one more stop, at the call of the opening that begins so many calls after its first; and whether a
/// call failed there.
fn once_more(
    alloc: Global,
    desk: &mut Desk,
    store: &MemStore,
    choice: u64,
    steps: &[Step],
    moment: u64,
    later: u64,
) -> Result<(char, bool), Fault> {
    let _ = made(alloc, desk, store, steps, moment)?;
    desk.stop(alloc, choice);
    let second = desk.store.moment().saturating_add(later);
    desk.fail_at(alloc, [second].to_vec(alloc)?);
    let failed = desk.make(alloc, Step::Open).is_err() && desk.store.moment() > second;
    Ok((after_stop(alloc, desk, choice), failed))
}

/// What is recovered whichever call of the opening stops once more.
fn always(
    alloc: Global,
    desk: &mut Desk,
    store: &MemStore,
    choice: u64,
    steps: &[Step],
    moment: u64,
) -> Result<char, Fault> {
    let (first, _) = once_more(alloc, desk, store, choice, steps, moment, 0)?;
    for later in 1..MOST {
        let (sign, failed) = once_more(alloc, desk, store, choice, steps, moment, later)?;
        if sign != first {
            return Ok('!');
        }
        if !failed {
            return Ok(sign);
        }
    }
    Ok('!')
}

/// What is recovered after a stop at each moment and one more in the opening.
pub fn again(
    alloc: Global,
    desk: &mut Desk,
    store: &MemStore,
    choice: u64,
    steps: &[Step],
) -> Result<String, Fault> {
    let mut signs = String::new(alloc);
    for moment in 0..MOST {
        signs.push(always(alloc, desk, store, choice, steps, moment)?)?;
        if made(alloc, desk, store, steps, moment)?.is_ok() {
            return Ok(signs);
        }
    }
    Err(Fault::NoCommand)
}

/// The file that a refusal names; `!` where a vault that was refused a step doesn't refuse a transaction in the same way, or
/// makes a call for it.
fn named(alloc: Global, desk: &mut Desk, fault: Fault) -> char {
    match fault {
        Fault::NotOpened(OpenRefused::ReadFault(file)) => digit(u64::from(file)),
        Fault::Refused(Refusal::LogFault { file, count: 1 }) => {
            let before = desk.store.moment();
            match desk.make(alloc, Step::Checkpoint) {
                Err(again) if again == fault && desk.store.moment() == before => {
                    digit(u64::from(file))
                }
                _ => '!',
            }
        }
        _ => '!',
    }
}

/// The file that the refusal names where the call at each moment fails.
pub fn faults(
    alloc: Global,
    desk: &mut Desk,
    store: &MemStore,
    steps: &[Step],
) -> Result<String, Fault> {
    let mut signs = String::new(alloc);
    for moment in 0..MOST {
        match made(alloc, desk, store, steps, moment)? {
            Ok(()) => return Ok(signs),
            Err(fault) => signs.push(named(alloc, desk, fault))?,
        }
    }
    Err(Fault::NoCommand)
}
