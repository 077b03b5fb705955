//! Runs over the files of a folder in memory whose calls fail.
use crate::answer::Fault;
use crate::call::Said;
use crate::files::copied;
use crate::trials::{
    Failed, Opened, Stopped, Trial, answers, failed_over, from, run, shown_over, stopped_over,
};
use mem_files::MemFiles;
use mem_store::MemStore;
use real_edge::FolderStore;
use std::alloc::{AllocError, Global};
use std::sync::Wait;
use std::thread::Threads;
use store_api::Stop;

/// A store over an empty folder, of whose files these calls fail, and behind each stop those of its list, the next one's last.
fn empty(alloc: Global, failing: Vec<u64>, later: Vec<Vec<u64>>) -> FolderStore<MemFiles> {
    let files = MemFiles::new(alloc)
        .with_failing(failing, usize::MAX)
        .failing_behind_stops(later);
    FolderStore::new(files, alloc)
}

/// The script over an empty folder all calls of whose files fail from this one on, and behind each stop those of its list.
fn run_until<R: Threads + Wait + Sync>(
    trial: &Trial<'_, R>,
    call: u64,
    later: Vec<Vec<u64>>,
) -> Result<(FolderStore<MemFiles>, Said), AllocError> {
    let failing = from(trial.alloc, call)?;
    let store = empty(trial.alloc, failing, later);
    run(trial.rt, trial.alloc, "fresh", store, &trial.script)
}

/// What a stop leaves of a store that is opened, and whether a call of its files failed in that.
fn left_in_opening<R: Threads + Wait + Sync>(
    trial: &Trial<'_, R>,
    store: FolderStore<MemFiles>,
) -> Result<(FolderStore<MemFiles>, bool), AllocError> {
    let (store, opened) = run(trial.rt, trial.alloc, "run", store, "")?;
    Ok((store.stop(trial.choice), opened.status == 5))
}

/// The list of all calls from this one on; of none where there is none.
fn all_from(alloc: Global, call: Option<u64>) -> Result<Vec<u64>, AllocError> {
    match call {
        Some(call) => from(alloc, call),
        None => Ok(Vec::new(alloc)),
    }
}

/// The lists of an opening whose calls fail from one on, and of the next one.
fn two_openings(alloc: Global, call: u64, later: Option<u64>) -> Result<Vec<Vec<u64>>, AllocError> {
    let mut lists = Vec::new(alloc);
    lists.push(all_from(alloc, later)?)?;
    lists.push(from(alloc, call)?)?;
    Ok(lists)
}

/// The list of the next opening.
fn one_opening(alloc: Global, call: u64) -> Result<Vec<Vec<u64>>, AllocError> {
    let mut lists = Vec::new(alloc);
    lists.push(from(alloc, call)?)?;
    Ok(lists)
}

/// The script is run by `fresh`, and all calls fail from this one on; there the machine stops.
pub fn stopped<R: Threads + Wait + Sync>(
    trial: &Trial<'_, R>,
    call: u64,
) -> Result<Stopped, AllocError> {
    let (store, said) = run_until(trial, call, Vec::new(trial.alloc))?;
    stopped_over(trial, &said, store.stop(trial.choice))
}

/// What is shown after the same and one more stop, in the opening that follows, of which all calls fail from the later one on; and whether one failed.
pub fn stopped_again<R: Threads + Wait + Sync>(
    trial: &Trial<'_, R>,
    call: u64,
    later: u64,
) -> Result<(char, bool), AllocError> {
    let lists = one_opening(trial.alloc, later)?;
    let (store, _said) = run_until(trial, call, lists)?;
    let (store, has_failed) = left_in_opening(trial, store.stop(trial.choice))?;
    Ok((shown_over(trial, store)?, has_failed))
}

/// The script is run by `fresh`, and this call fails.
pub fn failed<R: Threads + Wait + Sync>(
    trial: &Trial<'_, R>,
    call: u64,
) -> Result<Failed, AllocError> {
    let failing = [call].to_vec(trial.alloc)?;
    let store = empty(trial.alloc, failing, Vec::new(trial.alloc));
    let (store, said) = run(trial.rt, trial.alloc, "fresh", store, &trial.script)?;
    Ok(failed_over(&store, said.status))
}

/// The script is run over what is left of a store behind an opening of which all calls fail from this one on, and a stop; and behind
/// another opening of which all calls fail from the later one on, and a stop, where there is one.
pub fn opened<R: Threads + Wait + Sync>(
    trial: &Trial<'_, R>,
    store: &MemStore,
    call: u64,
    later: Option<u64>,
) -> Result<Opened, Fault> {
    let alloc = trial.alloc;
    let lists = two_openings(alloc, call, later)?;
    let copy = copied(empty(alloc, Vec::new(alloc), lists), store)?;
    let (store, has_failed) = left_in_opening(trial, copy.stop(trial.choice))?;
    let (store, has_failed_again) = match later {
        Some(_) => left_in_opening(trial, store)?,
        None => (store, false),
    };
    Ok(Opened {
        words: answers(trial, store)?,
        has_failed,
        has_failed_again,
    })
}
