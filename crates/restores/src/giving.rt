// Objects into a client's tree, one after the other.
ghost use Rattle.std.specs.Prelude.{◌≡◌, ◌≤◌, ◌^◌, length};
ghost use Rattle.steps.specs.Calls.{Call};
ghost use Rattle.restores.specs.Given.{GivesEach};

use crate::choosing::RestoreLine;
use client_files::{Gave, restore_file};
use client_trees::Tree;
use inventory_work::Listed;
use kinds::Refusal;
use std::alloc::Global;
use steps::Stepper;

/// Restores each of these objects, in their order, and answers what came of each.
pub(crate) fn give_each<P: Stepper, T: Tree>(
    alloc: Global,
    p: &mut P,
    tree: &mut T,
    lines: &[RestoreLine],
    buffer: &mut [u8],
) -> Result<Listed<Gave>, Refusal>
    requires some { 1 ≤ length buffer.old }
    requires few { length buffer.old ≤ 2 ^ 16 }
    ensures gives { Call P.did p.old p.new (λ events. GivesEach lines.now (T.fault_count tree.old) (T.fault_count tree.new) (T.files tree.old) (T.files tree.new) events result) }
    ensures rises { T.fault_count tree.old ≤ T.fault_count tree.new }
{
    let mut gave = Vec::new(alloc);
    'lines: for line in lines {
        match restore_file(p, tree, &line.path, &line.stored, buffer) {
            Ok(came) => match gave.push(came) {
                Ok(()) => {}
                Err(_) => return Err(Refusal::Memory),
            },
            Err(refusal) => return Err(refusal),
        }
    }
    Ok(Listed::from_vec(gave))
}
