//! A script that is tried with each call in turn that fails.
use crate::answer::Fault;
use crate::bench::{Bench, failed, opened, stopped, stopped_again};
use crate::files::copied;
use crate::trials::{Failed, MOST, Stopped, Trial, answers, digit};
use mem_store::MemStore;
use std::alloc::AllocError;
use std::sync::Wait;
use std::thread::Threads;

/// What the script says that it stored, and what is shown after a stop, for each call.
pub fn stops<R: Threads + Wait + Sync>(
    bench: Bench,
    trial: &Trial<'_, R>,
) -> Result<String, Fault> {
    let mut first = String::new(trial.alloc);
    let mut last = String::new(trial.alloc);
    for call in 0..MOST {
        let Stopped {
            stored,
            shown,
            is_whole,
        } = stopped(bench, trial, call)?;
        first.push(digit(stored))?;
        last.push(shown)?;
        if is_whole {
            return Ok(format!(in trial.alloc; "{first}\n{last}")?);
        }
    }
    Err(Fault::NoCommand)
}

/// What is shown whichever call of the opening stops once more.
fn always<R: Threads + Wait + Sync>(
    bench: Bench,
    trial: &Trial<'_, R>,
    call: u64,
) -> Result<char, AllocError> {
    let (first, _) = stopped_again(bench, trial, call, 0)?;
    for later in 1..MOST {
        let (sign, has_failed) = stopped_again(bench, trial, call, later)?;
        if sign != first {
            return Ok('!');
        }
        if !has_failed {
            return Ok(sign);
        }
    }
    Ok('!')
}

/// What is shown after a stop at each call and one more in the opening.
pub fn again<R: Threads + Wait + Sync>(
    bench: Bench,
    trial: &Trial<'_, R>,
) -> Result<String, Fault> {
    let mut signs = String::new(trial.alloc);
    for call in 0..MOST {
        signs.push(always(bench, trial, call)?)?;
        if stopped(bench, trial, call)?.is_whole {
            return Ok(signs);
        }
    }
    Err(Fault::NoCommand)
}

/// The status, the first file with faults and how many there are, where the one call fails, for each call up to the first that isn't made.
pub fn faults<R: Threads + Wait + Sync>(
    bench: Bench,
    trial: &Trial<'_, R>,
) -> Result<String, Fault> {
    let mut statuses = String::new(trial.alloc);
    let mut files = String::new(trial.alloc);
    let mut counts = String::new(trial.alloc);
    for call in 0..MOST {
        let Failed {
            status,
            file,
            faults,
        } = failed(bench, trial, call)?;
        statuses.push(digit(status as usize))?;
        files.push(file)?;
        counts.push(digit((faults % 10) as usize))?;
        if faults == 0 {
            return Ok(format!(in trial.alloc; "{statuses}\n{files}\n{counts}")?);
        }
    }
    Err(Fault::NoCommand)
}

/// `=` where the script is answered so over what a stop at this call of the opening leaves, and also after one more stop, whichever call
/// of the opening that follows is the first that fails, else `!`; and whether the call was made.
fn sign<R: Threads + Wait + Sync>(
    bench: Bench,
    trial: &Trial<'_, R>,
    store: &MemStore,
    call: u64,
    whole: &str,
) -> Result<(char, bool), Fault> {
    let first = opened(bench, trial, store, call, None)?;
    if first.words.as_str() != whole {
        return Ok(('!', first.has_failed));
    }
    for later in 0..MOST {
        let again = opened(bench, trial, store, call, Some(later))?;
        if again.words.as_str() != whole {
            return Ok(('!', first.has_failed));
        }
        if !again.has_failed_again {
            return Ok(('=', first.has_failed));
        }
    }
    Ok(('!', first.has_failed))
}

/// The sign for each call of the store's opening that is the first that fails before a stop, and at last for the opening in which none does.
pub fn opens<R: Threads + Wait + Sync>(
    bench: Bench,
    trial: &Trial<'_, R>,
    store: &MemStore,
) -> Result<String, Fault> {
    let whole = answers(trial, copied(MemStore::new(trial.alloc), store)?)?;
    let mut signs = String::new(trial.alloc);
    for call in 0..MOST {
        let (sign, has_failed) = sign(bench, trial, store, call, &whole)?;
        signs.push(sign)?;
        if !has_failed {
            return Ok(signs);
        }
    }
    Err(Fault::NoCommand)
}
