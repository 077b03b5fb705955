//! The incremental backup.
ghost use Rattle.std.specs.Prelude.{◌≡◌, ◌≤◌, ◌^◌, [], length};
ghost use Rattle.steps.specs.Calls.{Call};
ghost use Rattle.incrementals.specs.Process.{CarriesOut, CommitsLists, Finishes, Forces, Incremental, Increments, Works, is_idle, is_sending, no_outs};
ghost use Rattle.client_batches.specs.Handling.{BindsPaths, EndsVersions};

use crate::answering::{Outs, Sent, sent_of};
use crate::filespaces::filespace_number;
use crate::planning::{Begun, begin};
use choosers::Binder;
use client_batches::{end_all, rebind_all, send_all};
use client_files::stopping;
use client_plan::Plan;
use client_trees::Tree;
use inventory_work::Listed;
use kinds::{FilespaceName, NodeName, Refusal};
use std::alloc::Global;
use steps::Stepper;

/// Whether a plan has files to be sent.
fn is_sending(plan: &Plan) -> bool
    ensures { result ≡ is_sending plan.now }
{
    plan.send().len() > 0
}

/// Whether a plan has nothing that is to be committed.
fn is_idle(plan: &Plan) -> bool
    ensures { result ≡ is_idle plan.now }
{
    (plan.send().len() == 0) & (plan.rebind().len() == 0) & (plan.gone().len() == 0)
}

/// Commits what a plan has to be bound anew.
fn commit_rebound<P: Stepper>(
    alloc: Global,
    p: &mut P,
    filespace: u32,
    plan: &Plan,
) -> Result<Listed<Option<Refusal>>, Refusal>
    ensures { Call P.did p.old p.new (λ events. BindsPaths filespace plan.now.rebind events result) }
{
    rebind_all(alloc, p, filespace, plan.rebind())
}

/// Commits what a plan has to be ended.
fn commit_gone<P: Stepper>(
    alloc: Global,
    p: &mut P,
    filespace: u32,
    plan: &Plan,
) -> Result<Listed<Option<Refusal>>, Refusal>
    ensures { Call P.did p.old p.new (λ events. EndsVersions filespace plan.now.gone events result) }
{
    end_all(alloc, p, filespace, plan.gone())
}

/// Commits what a plan has to be bound anew, and then what it has to be ended.
fn commit_lists<P: Stepper>(
    alloc: Global,
    p: &mut P,
    filespace: u32,
    plan: &Plan,
    sent: Listed<Option<Refusal>>,
) -> Result<Outs, Refusal>
    ensures { Call P.did p.old p.new (λ events. CommitsLists filespace plan.now sent events result) }
{
    let rebound = match commit_rebound(alloc, p, filespace, plan) {
        Ok(rebound) => rebound,
        Err(refusal) => return Err(refusal),
    };
    match commit_gone(alloc, p, filespace, plan) {
        Ok(gone) => Ok(Outs {
            sent,
            rebound,
            gone,
        }),
        Err(refusal) => Err(refusal),
    }
}

/// Sends what a plan has to be sent to the filespace with this number, and then commits its other lines.
fn carry_out<P: Stepper, T: Tree>(
    alloc: Global,
    p: &mut P,
    tree: &mut T,
    filespace: u32,
    begun: &Begun,
    buffer: &mut [u8],
) -> Result<Outs, Refusal>
    requires some { 1 ≤ length buffer.old }
    requires few { length buffer.old ≤ 2 ^ 16 }
    ensures carries { Call P.did p.old p.new (λ events. CarriesOut filespace begun.now (T.files tree.old) (T.fault_count tree.old) (T.fault_count tree.new) events result) }
    ensures kept { T.files tree.new ≡ T.files tree.old }
    ensures rises { T.fault_count tree.old ≤ T.fault_count tree.new }
{
    match send_all(
        alloc,
        p,
        tree,
        &begun.classes,
        filespace,
        begun.plan.send(),
        buffer,
    ) {
        Ok(sent) => commit_lists(alloc, p, filespace, &begun.plan, sent),
        Err(refusal) => Err(refusal),
    }
}

/// What came of the lines of a plan that has none.
fn no_outs(alloc: Global) -> Outs
    ensures { result ≡ no_outs }
{
    Outs {
        sent: Listed::from_vec(Vec::new(alloc)),
        rebound: Listed::from_vec(Vec::new(alloc)),
        gone: Listed::from_vec(Vec::new(alloc)),
    }
}

/// Carries a plan out in its filespace, where it has anything to be committed.
fn work<P: Stepper, T: Tree>(
    alloc: Global,
    p: &mut P,
    tree: &mut T,
    node: &NodeName,
    filespace: &FilespaceName,
    begun: &Begun,
    buffer: &mut [u8],
) -> Result<Outs, Refusal>
    requires some { 1 ≤ length buffer.old }
    requires few { length buffer.old ≤ 2 ^ 16 }
    ensures works { Call P.did p.old p.new (λ events. Works node.now filespace.now begun.now (T.files tree.old) (T.fault_count tree.old) (T.fault_count tree.new) events result) }
    ensures kept { T.files tree.new ≡ T.files tree.old }
    ensures rises { T.fault_count tree.old ≤ T.fault_count tree.new }
{
    let idle = is_idle(&begun.plan);
    if idle {
        return Ok(no_outs(alloc));
    }
    let sends = is_sending(&begun.plan);
    match filespace_number(p, node, begun.node, filespace, sends) {
        Ok(number) => carry_out(alloc, p, tree, number, begun, buffer),
        Err(refusal) => Err(refusal),
    }
}

/// Makes all durable.
fn force<P: Stepper>(p: &mut P) -> Result<(), Refusal>
    ensures { Call P.did p.old p.new (λ events. Forces events result) }
{
    match p.force() {
        Ok(_) => Ok(()),
        Err(refusal) => Err(stopping(refusal)),
    }
}

/// Carries a plan out, and makes all durable.
fn work_and_force<P: Stepper, T: Tree>(
    alloc: Global,
    p: &mut P,
    tree: &mut T,
    node: &NodeName,
    filespace: &FilespaceName,
    begun: &Begun,
    buffer: &mut [u8],
) -> Result<Outs, Refusal>
    requires some { 1 ≤ length buffer.old }
    requires few { length buffer.old ≤ 2 ^ 16 }
    ensures finishes { Call P.did p.old p.new (λ events. Finishes node.now filespace.now begun.now (T.files tree.old) (T.fault_count tree.old) (T.fault_count tree.new) events result) }
    ensures kept { T.files tree.new ≡ T.files tree.old }
    ensures rises { T.fault_count tree.old ≤ T.fault_count tree.new }
{
    let outs = match work(alloc, p, tree, node, filespace, begun, buffer) {
        Ok(outs) => outs,
        Err(refusal) => return Err(refusal),
    };
    match force(p) {
        Ok(()) => Ok(outs),
        Err(refusal) => Err(refusal),
    }
}

/// Asks, lists and plans, carries the plan out, and answers what came of it.
fn back_up<P: Stepper, T: Tree>(
    alloc: Global,
    p: &mut P,
    tree: &mut T,
    binder: &Binder,
    node: &NodeName,
    filespace: &FilespaceName,
    buffer: &mut [u8],
) -> Result<Sent, Refusal>
    requires some { 1 ≤ length buffer.old }
    requires few { length buffer.old ≤ 2 ^ 16 }
    ensures increments { Call P.did p.old p.new (λ events. Increments node.now filespace.now binder.now (T.files tree.old) (T.fault_count tree.old) (T.fault_count tree.new) events result) }
    ensures kept { T.files tree.new ≡ T.files tree.old }
    ensures rises { T.fault_count tree.old ≤ T.fault_count tree.new }
{
    let begun = match begin(alloc, p, tree, binder, node, filespace) {
        Ok(begun) => begun,
        Err(refusal) => return Err(refusal),
    };
    match work_and_force(alloc, p, tree, node, filespace, &begun, buffer) {
        Ok(outs) => sent_of(alloc, &begun.plan, &outs),
        Err(refusal) => Err(refusal),
    }
}

/// The incremental backup of a tree's files into a filespace: what changed since the last one is sent, bound to another class or marked gone, by the rules of the node's classes and the
/// include-exclude list; all else is skipped. The filespace is defined where it isn't there and files are to be sent. It answers how many of each there were, and of each path for which nothing
/// was committed why. The buffer has 1 to 65,536 bytes.
///
/// It ends with `NotFound` where the node isn't there, or what it names went meanwhile; with `TreeFault` before any change where the listing failed; with `Busy` where a step of its own and then
/// `wait` answer so; with `InventoryFull` where the filespace's number reaches its bound; with `LogFault`, `RunFull` or `Memory` where a step of its own answers so; and with `Memory` for want of
/// its own. What it committed until then stays, and the tickets of the batch that it was at are given back, unless that is with `LogFault` or `RunFull`.
pub fn incremental<P: Stepper, T: Tree>(
    alloc: Global,
    p: &mut P,
    tree: &mut T,
    binder: &Binder,
    node: &NodeName,
    filespace: &FilespaceName,
    buffer: &mut [u8],
) -> Result<Sent, Refusal>
    requires some { 1 ≤ length buffer.old }
    requires few { length buffer.old ≤ 2 ^ 16 }
    ensures increments { Call P.did p.old p.new (λ events. Incremental node.now filespace.now binder.now (T.files tree.old) (T.fault_count tree.old) (T.fault_count tree.new) events result) }
    ensures kept { T.files tree.new ≡ T.files tree.old }
    ensures rises { T.fault_count tree.old ≤ T.fault_count tree.new }
{
    back_up(alloc, p, tree, binder, node, filespace, buffer)
}
