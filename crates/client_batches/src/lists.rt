//! The lists of a plan, each handled whole.
ghost use Rattle.std.specs.Prelude.{◌≡◌, ◌≤◌, ◌^◌, length};
ghost use Rattle.steps.specs.Calls.{Call};
ghost use Rattle.client_batches.specs.Handling.{BindsPaths, EndsVersions, SendsFiles};

use crate::rounds::{commit_in_runs, send_rounds};
use client_plan::{ActiveClasses, GoneLine, RebindLine, SendLine};
use client_trees::Tree;
use inventory_work::Listed;
use kinds::Refusal;
use std::alloc::Global;
use steps::Stepper;

/// Sends these files of a filespace and commits them, in their order, and answers of each why it isn't committed, or none where it is. The buffer has 1 to 65,536 bytes. It ends as `send_batch`
/// does, and with `Busy` where a step of its own and then `wait` answer so.
pub fn send_all<P: Stepper, T: Tree>(
    alloc: Global,
    p: &mut P,
    tree: &mut T,
    classes: &ActiveClasses,
    filespace: u32,
    lines: &[SendLine],
    buffer: &mut [u8],
) -> Result<Listed<Option<Refusal>>, Refusal>
    requires some { 1 ≤ length buffer.old }
    requires few { length buffer.old ≤ 2 ^ 16 }
    ensures sends { Call P.did p.old p.new (λ events. SendsFiles classes.now (T.files tree.old) filespace lines.now (T.fault_count tree.old) (T.fault_count tree.new) events result) }
    ensures kept { T.files tree.new ≡ T.files tree.old }
    ensures rises { T.fault_count tree.old ≤ T.fault_count tree.new }
    ensures long { length buffer.new ≡ length buffer.old }
{
    send_rounds(alloc, p, tree, classes, filespace, lines, buffer)
}

/// Binds these paths of a filespace to other classes, in their order and at most 256 by a transaction, or where one of them is in the way each by a transaction of its own; and answers of each
/// why it isn't bound anew, or none where it is. It ends as `commit_lines` does.
pub fn rebind_all<P: Stepper>(
    alloc: Global,
    p: &mut P,
    filespace: u32,
    lines: &[RebindLine],
) -> Result<Listed<Option<Refusal>>, Refusal>
    ensures { Call P.did p.old p.new (λ events. BindsPaths filespace lines.now events result) }
{
    commit_in_runs(alloc, p, filespace, lines)
}

/// Ends these active versions of a filespace, whose files are gone, as `rebind_all` binds paths.
pub fn end_all<P: Stepper>(
    alloc: Global,
    p: &mut P,
    filespace: u32,
    lines: &[GoneLine],
) -> Result<Listed<Option<Refusal>>, Refusal>
    ensures { Call P.did p.old p.new (λ events. EndsVersions filespace lines.now events result) }
{
    commit_in_runs(alloc, p, filespace, lines)
}
