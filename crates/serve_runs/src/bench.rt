//! What is under a run, and what is tried over it.
use crate::answer::Fault;
use crate::trials::{Failed, Opened, Stopped, Trial};
use crate::{devices, folders};
use mem_store::MemStore;
use std::alloc::AllocError;
use std::sync::Wait;
use std::thread::Threads;

/// What is under a run: a store's calls, or the calls of the files that a store stands over.
#[derive(Clone, Copy)]
pub enum Bench {
    /// Each call is one of the store.
    Devices,
    /// Each call is one of the files.
    Folders,
}

/// The script is run by `fresh`, and all calls fail from this one on; there the machine stops.
pub fn stopped<R: Threads + Wait + Sync>(
    bench: Bench,
    trial: &Trial<'_, R>,
    call: u64,
) -> Result<Stopped, AllocError> {
    match bench {
        Bench::Devices => devices::stopped(trial, call),
        Bench::Folders => folders::stopped(trial, call),
    }
}

/// What is shown after the same and one more stop, in the opening that follows, of which all calls fail from the later one on; and
/// whether one failed.
pub fn stopped_again<R: Threads + Wait + Sync>(
    bench: Bench,
    trial: &Trial<'_, R>,
    call: u64,
    later: u64,
) -> Result<(char, bool), AllocError> {
    match bench {
        Bench::Devices => devices::stopped_again(trial, call, later),
        Bench::Folders => folders::stopped_again(trial, call, later),
    }
}

/// The script is run by `fresh`, and this call fails.
pub fn failed<R: Threads + Wait + Sync>(
    bench: Bench,
    trial: &Trial<'_, R>,
    call: u64,
) -> Result<Failed, AllocError> {
    match bench {
        Bench::Devices => devices::failed(trial, call),
        Bench::Folders => folders::failed(trial, call),
    }
}

/// The script is run over what is left of a store behind an opening of which all calls fail from this one on, and a stop; and behind
/// another opening of which all calls fail from the later one on, and a stop, where there is one.
pub fn opened<R: Threads + Wait + Sync>(
    bench: Bench,
    trial: &Trial<'_, R>,
    store: &MemStore,
    call: u64,
    later: Option<u64>,
) -> Result<Opened, Fault> {
    match bench {
        Bench::Devices => devices::opened(trial, store, call, later),
        Bench::Folders => folders::opened(trial, store, call, later),
    }
}
