//! Whether an object is retained.

ghost use Rattle.std.specs.Prelude.{◌≡◌, false};
ghost use Rattle.std.specs.Option.{option_copied, option_map_or};
ghost use Rattle.inventory_rules.specs.inventory_rows.State.{inv_of};
ghost use Rattle.inventory_rules.specs.inventory_rows.object_rows.HeldRows.{held_at};
ghost use Rattle.inventory_rules.specs.copy_groups.Retention.{is_held_on};
ghost use Rattle.inventory_rules.specs.Owed.{is_owed_in, is_owed_of, is_retained};

use inventory_rules::copy_groups::{is_held_on, is_owed};
use inventory_rules::inventory_rows::version_groups::{Group, Versions};
use inventory_rules::inventory_rows::{Tables, rule_in};
use kinds::{Day, Path, RuleFound};

/// Whether one of a path's versions is the object's, and is retained today by the rule that was found for the path.
fn is_owed_in(rule: &Option<RuleFound>, today: Day, object: u64, versions: &Versions) -> bool
    ensures { result ≡ is_owed_in rule.now today object versions.now }
{
    let active = versions.has_active();
    'versions: for (place, version) in versions.as_slice().iter().enumerate() {
        if version.object == object {
            return is_owed(rule, active, version.since, today, place);
        }
    }
    false
}

fn is_owed_of(tables: &Tables, filespace: u32, object: u64, group: Option<&Group>) -> bool
    ensures { result ≡ is_owed_of filespace (inv_of tables.now).domains (inv_of tables.now).clients (inv_of tables.now).today object (option_copied group.entry) }
{
    match group {
        None => false,
        Some(group) => {
            let rule = rule_in(tables, filespace, &group.class);
            is_owed_in(&rule, tables.today, object, &group.versions)
        }
    }
}

fn is_held_today(tables: &Tables, object: u64) -> bool
    ensures { result ≡ option_map_or (λ row. is_held_on (inv_of tables.now).today row.held.until) (held_at object (inv_of tables.now).clients.held) false }
{
    match tables.objects.held().get(&object) {
        Some(row) => is_held_on(tables.today, row.held.until),
        None => false,
    }
}

/// Whether the object is held under the path and its day lies ahead, or its version stands there and is retained today by the rule of the path's
/// class.
pub(crate) fn is_retained(tables: &Tables, filespace: u32, path: &Path, object: u64) -> bool
    ensures { result ≡ is_retained filespace path.now object (inv_of tables.now) }
{
    if tables.objects.has_held(filespace, path, object) {
        return is_held_today(tables, object);
    }
    let group = tables.objects.group(filespace, path);
    is_owed_of(tables, filespace, object, group)
}
