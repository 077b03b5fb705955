//! Lists of any length: files in batches, and lines without tickets by transactions of at most 256.
ghost use Rattle.std.specs.Prelude.{◌≡◌, ◌≤◌, ◌^◌, ◌++◌, [], length, IfErr, OnOk};
ghost use Rattle.kinds.specs.declared.refusal.Refusal.TheVariants.{Memory};
ghost use Rattle.steps.specs.Calls.{Call};
ghost use Rattle.client_batches.specs.Rounds.{AwaitsOne, InRuns, SendsAll, SendsOn, unwaited};

use crate::batch::send_batch;
use crate::committing::commit_lines;
use crate::listing::Listing;
use crate::settling::settle;
use client_plan::{ActiveClasses, SendLine};
use client_trees::Tree;
use inventory_work::Listed;
use kinds::{Holder, Refusal};
use std::alloc::Global;
use steps::Stepper;

/// How many lines one transaction has at most.
const MOST: usize = 256;

/// The refusal with which a call ends whose wait was refused so. What can't be answered there stands for want of memory.
fn unwaited(refusal: Refusal) -> Refusal
    ensures { result ≡ unwaited refusal }
{
    match refusal.number() {
        21 | 40 | 41 | 50 => refusal,
        _ => Refusal::Memory,
    }
}

/// Waits for this holder, where there is one.
fn wait_for<P: Stepper>(p: &mut P, holder: Option<Holder>) -> Result<(), Refusal>
    ensures { Call P.did p.old p.new (λ events. AwaitsOne holder events result) }
{
    match holder {
        None => Ok(()),
        Some(holder) => match p.wait(holder) {
            Ok(()) => Ok(()),
            Err(refusal) => Err(unwaited(refusal)),
        },
    }
}

/// Sends the first of the files that are left and commits them, adds what came of those that needn't be sent again, and where others hold the room of the next one waits for them.
fn send_some<P: Stepper, T: Tree>(
    alloc: Global,
    p: &mut P,
    tree: &mut T,
    classes: &ActiveClasses,
    filespace: u32,
    lines: &[SendLine],
    settled: &mut Vec<Option<Refusal>>,
    buffer: &mut [u8],
) -> Result<(), Refusal>
    requires some { 1 ≤ length buffer.old }
    requires few { length buffer.old ≤ 2 ^ 16 }
    ensures sends { Call P.did p.old p.new (λ events. SendsOn classes.now (T.files tree.old) filespace lines.now settled.old.items settled.new.items (T.fault_count tree.old) (T.fault_count tree.new) events result) }
    ensures kept { T.files tree.new ≡ T.files tree.old }
    ensures rises { T.fault_count tree.old ≤ T.fault_count tree.new }
    ensures long { length buffer.new ≡ length buffer.old }
{
    let batch = match send_batch(alloc, p, tree, classes, filespace, lines, buffer) {
        Ok(batch) => batch,
        Err(refusal) => return Err(refusal),
    };
    let came = batch.came.as_slice();
    let sealed = batch.sealed.as_slice();
    let outs = batch.outs.as_slice();
    match settle(settled, came, sealed, outs) {
        Ok(holder) => wait_for(p, holder),
        Err(refusal) => Err(refusal),
    }
}

/// Sends these files of a filespace and commits them, batch after batch, until all are handled.
pub(crate) fn send_rounds<P: Stepper, T: Tree>(
    alloc: Global,
    p: &mut P,
    tree: &mut T,
    classes: &ActiveClasses,
    filespace: u32,
    lines: &[SendLine],
    buffer: &mut [u8],
) -> Result<Listed<Option<Refusal>>, Refusal>
    requires some { 1 ≤ length buffer.old }
    requires few { length buffer.old ≤ 2 ^ 16 }
    ensures sends { Call P.did p.old p.new (λ events. SendsAll classes.now (T.files tree.old) filespace lines.now (T.fault_count tree.old) (T.fault_count tree.new) events result) }
    ensures kept { T.files tree.new ≡ T.files tree.old }
    ensures rises { T.fault_count tree.old ≤ T.fault_count tree.new }
    ensures long { length buffer.new ≡ length buffer.old }
{
    let mut settled = Vec::new(alloc);
    let mut rounds = 0;
    'rounds: while rounds < u64::MAX {
        let done = settled.len();
        let ended = lines.len() <= done;
        if ended {
            return Ok(Listed::from_vec(settled));
        }
        match send_some(
            alloc,
            p,
            tree,
            classes,
            filespace,
            &lines[done..],
            &mut settled,
            buffer,
        ) {
            Ok(()) => rounds += 1,
            Err(refusal) => return Err(refusal),
        }
    }
    Err(Refusal::Memory)
}

/// Puts what came of some lines behind what came of those before them.
fn add_all(outs: &mut Vec<Option<Refusal>>, some: &[Option<Refusal>]) -> Result<(), Refusal>
    ensures ok { OnOk result (outs.new.items ≡ outs.old.items ++ some.now) }
    ensures memory { IfErr result (λ e. e ≡ Memory) }
{
    outs.extend_from_slice(some)?;
    Ok(())
}

/// Commits these lines of a filespace, which have no tickets, in their order and at most 256 by a transaction, as `commit_lines` does; and answers of each why it isn't committed, or none
/// where it is. It ends as `commit_lines` does.
pub(crate) fn commit_in_runs<P: Stepper, L: Listing>(
    alloc: Global,
    p: &mut P,
    filespace: u32,
    lines: &[L],
) -> Result<Listed<Option<Refusal>>, Refusal>
    ensures { Call P.did p.old p.new (λ events. InRuns (L.asking filespace) lines.now events result) }
{
    let mut outs = Vec::new(alloc);
    let mut at = 0;
    'runs: while at < lines.len() {
        let run = (lines.len() - at).min(MOST);
        let some = match commit_lines(alloc, p, filespace, &lines[at..at + run], &[]) {
            Ok(some) => some,
            Err(refusal) => return Err(refusal),
        };
        match add_all(&mut outs, some.as_slice()) {
            Ok(()) => {}
            Err(refusal) => return Err(refusal),
        }
        at += run;
    }
    Ok(Listed::from_vec(outs))
}
