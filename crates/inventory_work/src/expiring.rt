// The objects that are not retained.
ghost use Rattle.std.specs.Prelude.{◌≡◌};
ghost use Rattle.kinds.specs.Answers.{AnswersBy};
ghost use Rattle.inventory_rows.specs.State.{inv_of};
ghost use Rattle.inventory_work.specs.Lists.{Writes, flat_from};
ghost use Rattle.inventory_work.specs.Expiring.{unretained_lines, unretained_of_group, unretained_of_filespace, unretained_of_filespaces, unretained_of_row, unretained_of_held, unretained};

use crate::lines::UnretainedLine;
use crate::listed::Listed;
use crate::order::sort_by_object;
use copy_groups::{is_held_on, is_owed};
use inventory_rows::object_rows::HeldRow;
use inventory_rows::version_groups::{Filespace, Group, Version};
use inventory_rows::{Tables, rule_in};
use kinds::{Day, Path, Refusal, RuleFound};
use std::alloc::Global;
use std::collections::BTreeMap;

fn write_unretained(
    lines: &mut Vec<UnretainedLine>,
    filespace: u32,
    path: &Path,
    rule: &Option<RuleFound>,
    active: bool,
    today: Day,
    place: usize,
    version: &Version,
) -> Result<(), Refusal>
    ensures { Writes result lines.old.items lines.new.items (unretained_lines filespace path.now rule.now active today place version.now) }
{
    if is_owed(rule, active, version.since, today, place) {
        return Ok(());
    }
    let path = path.clone()?;
    lines.push(UnretainedLine {
        filespace,
        path,
        object: version.object,
    })?;
    Ok(())
}

fn write_versions(
    lines: &mut Vec<UnretainedLine>,
    filespace: u32,
    path: &Path,
    rule: &Option<RuleFound>,
    active: bool,
    today: Day,
    versions: &[Version],
) -> Result<(), Refusal>
    ensures { Writes result lines.old.items lines.new.items (flat_from (unretained_lines filespace path.now rule.now active today) 0 versions.now) }
{
    'versions: for (place, version) in versions.iter().enumerate() {
        write_unretained(lines, filespace, path, rule, active, today, place, version)?;
    }
    Ok(())
}

fn write_group(
    lines: &mut Vec<UnretainedLine>,
    filespace: u32,
    path: &Path,
    rule: &Option<RuleFound>,
    today: Day,
    group: &Group,
) -> Result<(), Refusal>
    ensures { Writes result lines.old.items lines.new.items (unretained_of_group filespace path.now rule.now today group.now) }
{
    let active = group.versions.has_active();
    let versions = group.versions.as_slice();
    write_versions(lines, filespace, path, rule, active, today, versions)
}

fn write_filespace(
    lines: &mut Vec<UnretainedLine>,
    tables: &Tables,
    number: u32,
    filespace: &Filespace,
) -> Result<(), Refusal>
    ensures { Writes result lines.old.items lines.new.items (unretained_of_filespace (inv_of tables.now) number filespace.now) }
{
    'groups: for (path, group) in filespace.groups.as_map() {
        let rule = rule_in(tables, number, &group.class);
        write_group(lines, number, path, &rule, tables.today, group)?;
    }
    Ok(())
}

fn write_filespaces(
    lines: &mut Vec<UnretainedLine>,
    tables: &Tables,
    filespaces: &BTreeMap<u32, Filespace>,
) -> Result<(), Refusal>
    ensures { Writes result lines.old.items lines.new.items (unretained_of_filespaces (inv_of tables.now) filespaces.now.entries) }
{
    'filespaces: for (number, filespace) in filespaces {
        write_filespace(lines, tables, *number, filespace)?;
    }
    Ok(())
}

fn write_row(lines: &mut Vec<UnretainedLine>, today: Day, row: &HeldRow) -> Result<(), Refusal>
    ensures { Writes result lines.old.items lines.new.items (unretained_of_row today row.now) }
{
    if is_held_on(today, row.held.until) {
        return Ok(());
    }
    let path = row.held.path.clone()?;
    lines.push(UnretainedLine {
        filespace: row.filespace,
        path,
        object: row.held.version.object,
    })?;
    Ok(())
}

fn write_held(
    lines: &mut Vec<UnretainedLine>,
    today: Day,
    held: &BTreeMap<u64, HeldRow>,
) -> Result<(), Refusal>
    ensures { Writes result lines.old.items lines.new.items (unretained_of_held today held.now.entries) }
{
    'held: for (_, row) in held {
        write_row(lines, today, row)?;
    }
    Ok(())
}

/// The objects that are not retained today, versions by their rules and held objects by their days, in ascending order of their numbers. Its one
/// refusal is want of memory. It walks all objects, and sorts what it found.
pub fn unretained(alloc: Global, tables: &Tables) -> Result<Listed<UnretainedLine>, Refusal>
    ensures { AnswersBy (λ lines. lines) result (unretained (inv_of tables.now)) }
{
    let mut lines = Vec::new(alloc);
    write_filespaces(&mut lines, tables, tables.objects.filespaces())?;
    write_held(&mut lines, tables.today, tables.objects.held())?;
    sort_by_object(&mut lines)?;
    Ok(Listed::from_vec(lines))
}
