//! A restore of the database that is tried with each of its calls.
use crate::answer::Fault;
use crate::devices::left;
use crate::files::copied;
use crate::trials::{Failed, MOST, Trial, answers, ask, digit, failed_over, from};
use mem_store::MemStore;
use std::alloc::AllocError;
use std::sync::Wait;
use std::thread::Threads;
use store_api::Store;

/// What the script is answered over the store as it was, and over what is restored.
#[derive(Drop)]
struct Sides {
    before: String,
    after: String,
}

/// A copy of the store, all of which is on the disk.
fn copy_of<R>(trial: &Trial<'_, R>, store: &MemStore) -> Result<MemStore, Fault> {
    copied(MemStore::new(trial.alloc), store)
}

fn new_sides<R: Threads + Wait + Sync>(
    trial: &Trial<'_, R>,
    words: &[&str],
    store: &MemStore,
) -> Result<Sides, Fault> {
    let before = answers(trial, copy_of(trial, store)?)?;
    let (restored, _said) = ask(trial.rt, trial.alloc, words, copy_of(trial, store)?, "")?;
    Ok(Sides {
        before,
        after: answers(trial, restored)?,
    })
}

/// Which of the two the script is answered over what was left.
fn sign<R: Threads + Wait + Sync>(
    trial: &Trial<'_, R>,
    sides: &Sides,
    store: MemStore,
) -> Result<char, AllocError> {
    let said = answers(trial, store)?;
    Ok(if said.as_str() == sides.before.as_str() {
        '='
    } else if said.as_str() == sides.after.as_str() {
        '+'
    } else {
        '!'
    })
}

/// What is left by a restore all of whose calls fail from this one on, and a stop there; and whether one failed.
fn stopped<R: Threads + Wait + Sync>(
    trial: &Trial<'_, R>,
    words: &[&str],
    store: &MemStore,
    call: u64,
) -> Result<(MemStore, bool), Fault> {
    let copy = copy_of(trial, store)?;
    let failing = from(trial.alloc, copy.moment().saturating_add(call))?;
    let (store, said) = ask(trial.rt, trial.alloc, words, copy.with_failing(failing), "")?;
    Ok((left(trial.alloc, store, trial.choice), said.status == 5))
}

/// The sign for each call that is the first that fails before a stop, and at last for the restore in which none does.
pub fn stops<R: Threads + Wait + Sync>(
    trial: &Trial<'_, R>,
    words: &[&str],
    store: &MemStore,
) -> Result<String, Fault> {
    let sides = new_sides(trial, words, store)?;
    let mut signs = String::new(trial.alloc);
    for call in 0..MOST {
        let (left, has_failed) = stopped(trial, words, store, call)?;
        signs.push(sign(trial, &sides, left)?)?;
        if !has_failed {
            return Ok(signs);
        }
    }
    Err(Fault::NoCommand)
}

/// How a restore went of which this call fails, and what is left by it.
fn failed<R: Threads + Wait + Sync>(
    trial: &Trial<'_, R>,
    words: &[&str],
    store: &MemStore,
    call: u64,
) -> Result<(MemStore, u8), Fault> {
    let copy = copy_of(trial, store)?;
    let failing = [copy.moment().saturating_add(call)].to_vec(trial.alloc)?;
    let (store, said) = ask(trial.rt, trial.alloc, words, copy.with_failing(failing), "")?;
    Ok((store, said.status))
}

/// The status, the first file with faults and the sign, where the one call fails, for each call up to the first that isn't made.
pub fn faults<R: Threads + Wait + Sync>(
    trial: &Trial<'_, R>,
    words: &[&str],
    store: &MemStore,
) -> Result<String, Fault> {
    let sides = new_sides(trial, words, store)?;
    let mut statuses = String::new(trial.alloc);
    let mut files = String::new(trial.alloc);
    let mut signs = String::new(trial.alloc);
    for call in 0..MOST {
        let (store, status) = failed(trial, words, store, call)?;
        let store = store.with_failing(Vec::new(trial.alloc));
        let Failed {
            status,
            file,
            faults,
        } = failed_over(&store, status);
        statuses.push(digit(status as usize))?;
        files.push(file)?;
        signs.push(sign(trial, &sides, store)?)?;
        if faults == 0 {
            return Ok(format!(in trial.alloc; "{statuses}\n{files}\n{signs}")?);
        }
    }
    Err(Fault::NoCommand)
}
