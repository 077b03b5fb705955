// Held objects.
ghost use Rattle.std.specs.Prelude.{◌≡◌};
ghost use Rattle.kinds.specs.Answers.{Answers, AnswersBy};
ghost use Rattle.inventory_work.specs.inventory_rows.State.{inv_of};
ghost use Rattle.inventory_work.specs.Lists.{Writes};
ghost use Rattle.inventory_answers.specs.Held.{held_line, held_lines_of, held_lines, held_of};

use crate::lines::HeldLine;
use inventory_work::Listed;
use inventory_work::copy_groups::is_held_on;
use inventory_work::inventory_rows::Tables;
use inventory_work::inventory_rows::object_rows::HeldRow;
use kinds::{Day, Refusal};
use std::alloc::Global;
use std::collections::BTreeMap;

fn held_line(today: Day, row: &HeldRow) -> Result<HeldLine, Refusal>
    ensures { AnswersBy (λ line. line) result (held_line today row.now) }
{
    Ok(HeldLine {
        path: row.held.path.clone()?,
        description: row.held.description.clone()?,
        object: row.held.version.object,
        size: row.held.version.size,
        mtime: row.held.version.mtime,
        digest: row.held.version.digest,
        stored: row.held.version.stored,
        until: row.held.until,
        owed: is_held_on(today, row.held.until),
    })
}

fn write_row(
    lines: &mut Vec<HeldLine>,
    today: Day,
    filespace: u32,
    row: &HeldRow,
) -> Result<(), Refusal>
    ensures { Writes result lines.old.items lines.new.items (held_lines_of today filespace row.now) }
{
    if row.filespace != filespace {
        return Ok(());
    }
    lines.push(held_line(today, row)?)?;
    Ok(())
}

fn held_lines(
    alloc: Global,
    today: Day,
    filespace: u32,
    held: &BTreeMap<u64, HeldRow>,
) -> Result<Listed<HeldLine>, Refusal>
    ensures { AnswersBy (λ lines. lines) result (held_lines today filespace held.now.entries) }
{
    let mut lines = Vec::new(alloc);
    'held: for (_, row) in held {
        write_row(&mut lines, today, filespace, row)?;
    }
    Ok(Listed::from_vec(lines))
}

/// The objects that are held in the filespace with this number.
pub(crate) fn held_of(
    alloc: Global,
    tables: &Tables,
    filespace: u32,
) -> Result<Listed<HeldLine>, Refusal>
    ensures { Answers result (held_of filespace (inv_of tables.now)) }
{
    if tables.objects.filespaces().contains_key(&filespace) {
        held_lines(alloc, tables.today, filespace, tables.objects.held())
    } else {
        Err(Refusal::NotFound)
    }
}
