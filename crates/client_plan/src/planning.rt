// The walk along the listed files and the versions.
ghost use Rattle.std.specs.Prelude.{◌≡◌, ◌+◌, ◌<◌, ◌^◌, [], length, is_some, IfOk, IfErr};
ghost use Rattle.kinds.specs.Answers.{AnswersBy};
ghost use Rattle.client_plan.specs.Parts.{IsParted, KeepsListed};
ghost use Rattle.client_plan.specs.Plans.{AreListed, AreActive, scheme, actives, plan_of, joined};

use crate::classes::ActiveClasses;
use crate::deciding::add_listed;
use crate::plans::Plan;
use choosers::Binder;
use client_trees::FileRow;
use inventory_answers::VersionLine;
use kinds::{Day, Refusal};
use std::alloc::Global;
use std::cmp::Ordering;

/// Plans the listed paths that lie behind all active versions.
fn add_rest(
    plan: &mut Plan,
    classes: &ActiveClasses,
    binder: &Binder,
    today: Day,
    files: &[FileRow],
) -> Result<(), Refusal>
    requires few { plan.old.skip + length files.now < 2 ^ 64 }
    ensures { AnswersBy (λ done. plan.new) result (joined plan.old (plan_of (scheme classes.now binder.now today) files.now [])) }
{
    let mut left = files;
    'files: while let Some((file, more)) = left.split_first() {
        add_listed(plan, classes, binder, today, file, None)?;
        left = more;
    }
    Ok(())
}

fn is_inactive(version: &VersionLine) -> bool
    ensures { result ≡ is_some version.now.since }
{
    version.since.is_some()
}

/// The plan of an incremental backup of these files, where the database answers these versions of the filespace, of which the
/// active ones ascend by path, as in every valid database. Both lists are walked once. Its one refusal is want of memory.
pub fn plan(
    alloc: Global,
    files: &[FileRow],
    versions: &[VersionLine],
    classes: &ActiveClasses,
    binder: &Binder,
    today: Day,
) -> Result<Plan, Refusal>
    requires { AreListed files.now }
    ensures memory { IfErr result (λ e. e ≡ Refusal.Memory) }
    ensures value { AreActive (actives versions.now) → IfOk result (λ plan. plan ≡ plan_of (scheme classes.now binder.now today) files.now (actives versions.now)) }

    // Each path that is listed or has an active version stands in one set, and one that is listed and isn't left out keeps its version.
    ensures parted { AreActive (actives versions.now) → IfOk result (λ plan. IsParted files.now (actives versions.now) plan) }
    ensures kept { AreActive (actives versions.now) → IfOk result (λ plan. KeepsListed (scheme classes.now binder.now today) files.now plan) }
{
    let most = files.len();
    let mut plan = Plan::new(alloc);
    let mut files_left = files;
    let mut versions_left = versions;
    'paths: while let Some((version, others)) = versions_left.split_first() {
        if is_inactive(version) {
            versions_left = others;
            continue;
        }
        match files_left.split_first() {
            None => {
                plan.add_gone(&version.path, version.object)?;
                versions_left = others;
            }
            Some((file, more)) => match version.path.cmp(&file.path) {
                Ordering::Less => {
                    plan.add_gone(&version.path, version.object)?;
                    versions_left = others;
                }
                Ordering::Equal => {
                    add_listed(&mut plan, classes, binder, today, file, Some(version))?;
                    files_left = more;
                    versions_left = others;
                }
                Ordering::Greater => {
                    add_listed(&mut plan, classes, binder, today, file, None)?;
                    files_left = more;
                }
            },
        }
    }
    add_rest(&mut plan, classes, binder, today, files_left)?;
    Ok(plan)
}
