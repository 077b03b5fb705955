//! The run.
ghost use Rattle.std.specs.Prelude.{◌≡◌};
ghost use Rattle.steps.specs.Calls.{Call};
ghost use Rattle.copy_runs.specs.Runs.{Run, Runs};

use crate::wanted::{Moved, Wanted, counted};
use copy_attempts::make_copy;
use kinds::Refusal;
use steps::Stepper;

/// Makes these copies, one after the other, and counts what came of them.
fn copy_each<P: Stepper>(p: &mut P, wanted: &[Wanted], avoid: u32) -> Result<Moved, Refusal>
    ensures { Call P.did p.old p.new (λ events. Runs wanted.now avoid events result) }
{
    let mut so_far = Moved {
        moved: 0,
        failed: 0,
    };
    'wanted: for place in 0..wanted.len() {
        let it = wanted[place];
        match make_copy(p, it.object, it.aim, avoid, it.size) {
            Ok(came) => so_far = counted(so_far, came),
            Err(refusal) => return Err(refusal),
        }
    }
    Ok(so_far)
}

/// Makes these copies, one after the other, each by a ticket of its own, and counts what came of them. `avoid` is a volume that is not to be used, or 0. It
/// passes over an object that was removed meanwhile, and over one whose copy was made, moved or dropped. The caller holds no ticket, and none is left at the
/// end, unless that is with `LogFault` or `RunFull`. It ends as `make_copy` does where that ends with a refusal.
pub fn copy_all<P: Stepper>(p: &mut P, wanted: &[Wanted], avoid: u32) -> Result<Moved, Refusal>
    ensures { Call P.did p.old p.new (λ events. Run wanted.now avoid events result) }
{
    copy_each(p, wanted, avoid)
}
