//! Which copies were tried.
ghost use Rattle.std.specs.Prelude.{◌≡◌, ◌++◌, not, map, OnOk, IfErr};
ghost use Rattle.kinds.specs.Answers.{AnswersBy};
ghost use Rattle.kinds.specs.declared.refusal.Refusal.TheVariants.{Memory as NoMemory};
ghost use Rattle.inventory_work.specs.Lists.{only};
ghost use Rattle.reclamation.specs.Moving.{moving};
ghost use Rattle.reclamation.specs.Tried.{fresh, is_tried, seen, with_tried};

use crate::target::moving;
use copy_runs::Wanted;
use inventory_work::{CopyLine, Listed};
use kinds::Refusal;
use std::alloc::Global;
use std::collections::BTreeSet;

/// Writes the copy that is wanted in the place of this one, unless it was tried, and that it is tried then.
fn push_untried(
    wanted: &mut Vec<Wanted>,
    line: &CopyLine,
    to: u32,
    tried: &mut BTreeSet<(u64, u32, u64)>,
) -> Result<(), Refusal>
    ensures written { OnOk result (wanted.new.items ≡ wanted.old.items ++ map (moving to) (only (not (is_tried tried.old.keys line.now)) line.now)) }
    ensures seen { OnOk result (tried.new.keys ≡ with_tried tried.old.keys line.now) }
    ensures memory { IfErr result (λ e. e ≡ NoMemory) }
{
    if !tried.insert((line.object, line.pool, line.placed))? {
        return Ok(());
    }
    wanted.push(moving(line, to))?;
    Ok(())
}

/// The copies that are wanted in the place of those of these that weren't tried; they are tried then.
pub(crate) fn untried(
    alloc: Global,
    lines: &[CopyLine],
    to: u32,
    tried: &mut BTreeSet<(u64, u32, u64)>,
) -> Result<Listed<Wanted>, Refusal>
    ensures wanted { AnswersBy (λ w. w) result (map (moving to) (fresh tried.old.keys lines.now)) }
    ensures seen { OnOk result (tried.new.keys ≡ seen tried.old.keys lines.now) }
{
    let mut wanted = Vec::new(alloc);
    'lines: for line in lines {
        push_untried(&mut wanted, line, to, tried)?;
    }
    Ok(Listed::from_vec(wanted))
}
