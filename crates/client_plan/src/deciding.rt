// What is to be done with a listed path.
ghost use Rattle.std.specs.Prelude.{◌≡◌, ◌+◌, ◌<◌, ◌^◌};
ghost use Rattle.std.specs.Option.{option_copied};
ghost use Rattle.client_plan.specs.Plans.{Grows, scheme, is_due, task_ruled, task_bound, task_left, task_listed};

use crate::classes::{ActiveClasses, is_left_out, own_group};
use crate::plans::Plan;
use choosers::Binder;
use client_trees::FileRow;
use inventory_answers::VersionLine;
use inventory_work::ClassRule;
use kinds::{BackupRule, Day, Name, Path, Refusal};

/// Whether a file that has an active version is to be sent again.
fn is_due(today: Day, rule: &BackupRule, file: &FileRow, version: &VersionLine) -> bool
    ensures { result ≡ is_due today rule.now file.now version.now }
{
    let changed = file.size != version.size.bytes() || file.mtime != version.mtime;
    let days = today.number().saturating_sub(version.stored.number());
    (changed || rule.absolute) && rule.frequency as u32 <= days
}

/// Plans a listed file that is bound to a class with this copy group.
fn add_ruled(
    plan: &mut Plan,
    today: Day,
    class: &Name,
    rule: &BackupRule,
    file: &FileRow,
    active: Option<&VersionLine>,
) -> Result<(), Refusal>
    requires { plan.old.skip + 1 < 2 ^ 64 }
    ensures { Grows result plan.old plan.new (task_ruled today class.now rule.now file.now (option_copied active.entry)) }
{
    match active {
        None => plan.add_send(file, class),
        Some(version) => {
            if is_due(today, rule, file, version) {
                plan.add_send(file, class)
            } else if *class == version.class {
                plan.add_skip();
                Ok(())
            } else {
                plan.add_rebind(&file.path, class)
            }
        }
    }
}

/// Plans a listed file that is bound to this class, or to none.
fn add_bound(
    plan: &mut Plan,
    today: Day,
    class: Option<&ClassRule>,
    file: &FileRow,
    active: Option<&VersionLine>,
) -> Result<(), Refusal>
    requires { plan.old.skip + 1 < 2 ^ 64 }
    ensures { Grows result plan.old plan.new (task_bound today (option_copied class.entry) file.now (option_copied active.entry)) }
{
    match class {
        None => plan.add_failed(&file.path),
        Some(row) => match own_group(row.rule) {
            None => plan.add_failed(&file.path),
            Some(rule) => add_ruled(plan, today, &row.class, &rule, file, active),
        },
    }
}

/// Plans a listed path that is left out.
fn add_left(plan: &mut Plan, path: &Path, active: Option<&VersionLine>) -> Result<(), Refusal>
    requires { plan.old.skip + 1 < 2 ^ 64 }
    ensures { Grows result plan.old plan.new (task_left path.now (option_copied active.entry)) }
{
    match active {
        None => {
            plan.add_skip();
            Ok(())
        }
        Some(version) => plan.add_gone(path, version.object),
    }
}

/// Plans a listed path, with its active version where it has one.
pub(crate) fn add_listed(
    plan: &mut Plan,
    classes: &ActiveClasses,
    binder: &Binder,
    today: Day,
    file: &FileRow,
    active: Option<&VersionLine>,
) -> Result<(), Refusal>
    requires { plan.old.skip + 1 < 2 ^ 64 }
    ensures { Grows result plan.old plan.new (task_listed (scheme classes.now binder.now today) file.now (option_copied active.entry)) }
{
    if is_left_out(binder, &file.path) {
        add_left(plan, &file.path, active)
    } else {
        add_bound(
            plan,
            today,
            classes.bound_to(binder, &file.path),
            file,
            active,
        )
    }
}
