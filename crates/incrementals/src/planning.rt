//! What an incremental backup is to do: asked, listed and planned.
ghost use Rattle.std.specs.Prelude.{◌≡◌, ◌≤◌};
ghost use Rattle.steps.specs.Calls.{Call};
ghost use Rattle.incrementals.specs.Planning.{Begins, ListsFiles, Plans, PlansFiles};
ghost use Rattle.client_plan.specs.Plans.{AreListed};

use crate::asking::{Basis, Ruled, ask_all};
use choosers::Binder;
use client_plan::{ActiveClasses, Plan, plan};
use client_trees::{FileRow, ListRefused, Tree};
use inventory_work::Listed;
use kinds::{FilespaceName, NodeName, Refusal};
use std::alloc::Global;
use steps::Stepper;

/// What an incremental backup is to do, the classes by which it does it, and the number of its node.
#[derive(Drop)]
pub struct Begun {
    pub plan: Plan,
    pub classes: ActiveClasses,
    pub node: u32,
}

/// Lists the files of a tree. `TreeFault` where that failed.
fn list_files<T: Tree>(alloc: Global, tree: &mut T) -> Result<Listed<FileRow>, Refusal>
    ensures lists { ListsFiles (T.files tree.old) (T.fault_count tree.old) (T.fault_count tree.new) result }
    ensures kept { T.files tree.new ≡ T.files tree.old }
    ensures rises { T.fault_count tree.old ≤ T.fault_count tree.new }
{
    match tree.list(alloc) {
        Ok(rows) => Ok(Listed::from_vec(rows)),
        Err(ListRefused::Failed) => Err(Refusal::TreeFault),
        Err(ListRefused::Memory) => Err(Refusal::Memory),
    }
}

/// The plan of these files, by what was asked.
fn plan_files(
    alloc: Global,
    files: &[FileRow],
    binder: &Binder,
    basis: Basis,
) -> Result<Begun, Refusal>
    requires { AreListed files.now }
    ensures { PlansFiles binder.now files.now basis result }
{
    let Basis { versions, ruled } = basis;
    let Ruled { node, rules, today } = ruled;
    let classes = ActiveClasses::new(rules);
    let planned = plan(alloc, files, versions.as_slice(), &classes, binder, today);
    drop(versions);
    match planned {
        Ok(plan) => Ok(Begun {
            plan,
            classes,
            node,
        }),
        Err(refusal) => Err(refusal),
    }
}

/// Lists a tree and plans its files.
fn list_and_plan<T: Tree>(
    alloc: Global,
    tree: &mut T,
    binder: &Binder,
    basis: Basis,
) -> Result<Begun, Refusal>
    ensures plans { Plans binder.now (T.files tree.old) basis (T.fault_count tree.old) (T.fault_count tree.new) result }
    ensures kept { T.files tree.new ≡ T.files tree.old }
    ensures rises { T.fault_count tree.old ≤ T.fault_count tree.new }
{
    let files = match list_files(alloc, tree) {
        Ok(files) => files,
        Err(refusal) => return Err(refusal),
    };
    let begun = plan_files(alloc, files.as_slice(), binder, basis);
    drop(files);
    begun
}

/// Asks for what a plan goes by, and then lists the tree and plans its files. `NotFound` where the node isn't there, `TreeFault` where the listing failed.
pub(crate) fn begin<P: Stepper, T: Tree>(
    alloc: Global,
    p: &mut P,
    tree: &mut T,
    binder: &Binder,
    node: &NodeName,
    filespace: &FilespaceName,
) -> Result<Begun, Refusal>
    ensures begins { Call P.did p.old p.new (λ events. Begins node.now filespace.now binder.now (T.files tree.old) (T.fault_count tree.old) (T.fault_count tree.new) events result) }
    ensures kept { T.files tree.new ≡ T.files tree.old }
    ensures rises { T.fault_count tree.old ≤ T.fault_count tree.new }
{
    let basis = match ask_all(alloc, p, node, filespace) {
        Ok(basis) => basis,
        Err(refusal) => return Err(refusal),
    };
    list_and_plan(alloc, tree, binder, basis)
}
