//! Lists of objects, discarded by transactions of at most 256, and one by one where such a transaction is refused.
ghost use Rattle.std.specs.Prelude.{◌≡◌, ◌≤◌, length, IfOk};
ghost use Rattle.steps.specs.Calls.{Call};
ghost use Rattle.deletions.specs.Discarding.{Tries, Works};

use crate::objects::{Doomed, Tried, discarding, outcome};
use entries::change_items::DiscardReason;
use kinds::Refusal;
use std::alloc::Global;
use steps::Stepper;

/// How many objects one transaction takes away at most.
const MOST: usize = 256;

/// Tries one transaction that discards these objects.
pub(crate) fn try_objects<P: Stepper>(
    alloc: Global,
    p: &mut P,
    reason: DiscardReason,
    objects: &[Doomed],
) -> Result<Tried, Refusal>
    requires { length objects.now ≤ 256 }
    ensures { Call P.did p.old p.new (λ events. Tries reason objects.now events result) }
{
    let asked = match discarding(alloc, reason, objects) {
        Ok(asked) => asked,
        Err(refusal) => return Err(refusal),
    };
    let answer = p.commit(&asked, &[]);
    drop(asked);
    outcome(answer)
}

/// Discards one object by a transaction of its own, and answers how many went: none where it is gone, or isn't as it was named.
fn discard_alone<P: Stepper>(
    alloc: Global,
    p: &mut P,
    reason: DiscardReason,
    objects: &[Doomed],
) -> Result<u64, Refusal>
    requires { length objects.now ≡ 1 }
    ensures works { Call P.did p.old p.new (λ events. Works reason objects.now events result) }
    ensures few { IfOk result (λ count. count ≤ length objects.now) }
{
    match try_objects(alloc, p, reason, objects) {
        Ok(Tried::Made) => Ok(objects.len() as u64),
        Ok(Tried::Refused) => Ok(0),
        // The transaction of one object is never so long.
        Ok(Tried::TooLong) => Err(Refusal::Memory),
        Err(refusal) => Err(refusal),
    }
}

/// Discards objects, each by a transaction of its own, and answers how many went.
fn one_by_one<P: Stepper>(
    alloc: Global,
    p: &mut P,
    reason: DiscardReason,
    objects: &[Doomed],
) -> Result<u64, Refusal>
    ensures works { Call P.did p.old p.new (λ events. Works reason objects.now events result) }
    ensures few { IfOk result (λ count. count ≤ length objects.now) }
{
    let mut count = 0;
    'objects: for place in 0..objects.len() {
        match discard_alone(alloc, p, reason, &objects[place..place + 1]) {
            Ok(more) => count += more,
            Err(refusal) => return Err(refusal),
        }
    }
    Ok(count)
}

/// Discards objects by one transaction, or where that is refused each by itself, and answers how many went.
fn discard_run<P: Stepper>(
    alloc: Global,
    p: &mut P,
    reason: DiscardReason,
    objects: &[Doomed],
) -> Result<u64, Refusal>
    requires { length objects.now ≤ 256 }
    ensures works { Call P.did p.old p.new (λ events. Works reason objects.now events result) }
    ensures few { IfOk result (λ count. count ≤ length objects.now) }
{
    match try_objects(alloc, p, reason, objects) {
        Ok(Tried::Made) => Ok(objects.len() as u64),
        Ok(Tried::Refused) => one_by_one(alloc, p, reason, objects),
        Ok(Tried::TooLong) => one_by_one(alloc, p, reason, objects),
        Err(refusal) => Err(refusal),
    }
}

/// How many of so many objects the next transaction takes away.
pub(crate) fn run_of(left: usize) -> usize
    requires { 1 ≤ left }
    ensures some { 1 ≤ result }
    ensures few { result ≤ 256 }
    ensures within { result ≤ left }
{
    if left < MOST { left } else { MOST }
}

/// Discards objects, and answers how many went.
pub(crate) fn discard_all<P: Stepper>(
    alloc: Global,
    p: &mut P,
    reason: DiscardReason,
    objects: &[Doomed],
) -> Result<u64, Refusal>
    ensures { Call P.did p.old p.new (λ events. Works reason objects.now events result) }
{
    let mut count = 0;
    let mut at = 0;
    'runs: while at < objects.len() {
        let rest = &objects[at..];
        let run = run_of(rest.len());
        match discard_run(alloc, p, reason, &rest[..run]) {
            Ok(more) => count += more,
            Err(refusal) => return Err(refusal),
        }
        at += run;
    }
    Ok(count)
}
