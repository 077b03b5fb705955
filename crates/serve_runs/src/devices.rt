//! Runs over a store in memory whose calls fail.
use crate::answer::Fault;
use crate::call::Said;
use crate::files::copied;
use crate::trials::{
    Failed, Opened, Stopped, Trial, answers, failed_over, from, run, shown_over, stopped_over,
};
use mem_store::MemStore;
use std::alloc::{AllocError, Global};
use std::sync::Wait;
use std::thread::Threads;
use store_api::{Stop, Store};

/// The script over an empty store all of whose calls fail from this one on.
fn run_until<R: Threads + Wait + Sync>(
    trial: &Trial<'_, R>,
    call: u64,
) -> Result<(MemStore, Said), AllocError> {
    let failing = from(trial.alloc, call)?;
    let store = MemStore::new(trial.alloc).with_failing(failing);
    run(trial.rt, trial.alloc, "fresh", store, &trial.script)
}

/// The store after a stop, where no call is to fail any more.
pub fn left(alloc: Global, store: MemStore, choice: u64) -> MemStore {
    store.stop(choice).with_failing(Vec::new(alloc))
}

/// What a stop leaves of a store all calls of whose opening fail from the one on that comes so many after its first; and whether one
/// failed.
fn left_in_opening<R: Threads + Wait + Sync>(
    trial: &Trial<'_, R>,
    store: MemStore,
    later: u64,
) -> Result<(MemStore, bool), AllocError> {
    let alloc = trial.alloc;
    let failing = from(alloc, store.moment().saturating_add(later))?;
    let (store, opened) = run(trial.rt, alloc, "run", store.with_failing(failing), "")?;
    Ok((left(alloc, store, trial.choice), opened.status == 5))
}

/// The script is run by `fresh`, and all calls fail from this one on; there the machine stops.
pub fn stopped<R: Threads + Wait + Sync>(
    trial: &Trial<'_, R>,
    call: u64,
) -> Result<Stopped, AllocError> {
    let (store, said) = run_until(trial, call)?;
    stopped_over(trial, &said, left(trial.alloc, store, trial.choice))
}

/// What is shown after the same and one more stop, in the opening that follows, of which all calls fail from the later one on; and whether one failed.
pub fn stopped_again<R: Threads + Wait + Sync>(
    trial: &Trial<'_, R>,
    call: u64,
    later: u64,
) -> Result<(char, bool), AllocError> {
    let (store, _said) = run_until(trial, call)?;
    let store = left(trial.alloc, store, trial.choice);
    let (store, has_failed) = left_in_opening(trial, store, later)?;
    Ok((shown_over(trial, store)?, has_failed))
}

/// The script is run by `fresh`, and this call fails.
pub fn failed<R: Threads + Wait + Sync>(
    trial: &Trial<'_, R>,
    call: u64,
) -> Result<Failed, AllocError> {
    let failing = [call].to_vec(trial.alloc)?;
    let store = MemStore::new(trial.alloc).with_failing(failing);
    let (store, said) = run(trial.rt, trial.alloc, "fresh", store, &trial.script)?;
    Ok(failed_over(&store, said.status))
}

/// The script is run over what is left of a store behind an opening of which all calls fail from this one on, and a stop; and behind
/// another opening of which all calls fail from the later one on, and a stop, where there is one.
pub fn opened<R: Threads + Wait + Sync>(
    trial: &Trial<'_, R>,
    store: &MemStore,
    call: u64,
    later: Option<u64>,
) -> Result<Opened, Fault> {
    let copy = copied(MemStore::new(trial.alloc), store)?;
    let (store, has_failed) = left_in_opening(trial, copy, call)?;
    let (store, has_failed_again) = match later {
        Some(later) => left_in_opening(trial, store, later)?,
        None => (store, false),
    };
    Ok(Opened {
        words: answers(trial, store)?,
        has_failed,
        has_failed_again,
    })
}
