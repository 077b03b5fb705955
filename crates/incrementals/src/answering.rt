//! What an incremental backup answers.
ghost use Rattle.std.specs.Prelude.{◌≡◌, ℕ, List, ◌++◌, map, IfErr, OnOk};
ghost use Rattle.kinds.specs.declared.refusal.Refusal.TheVariants.{Memory};
ghost use Rattle.kinds.specs.Answers.{AnswersBy};
ghost use Rattle.incrementals.specs.Answering.{committed, failed_of, failures, failures_of, sent_of, unbound, weight};

use client_plan::{GoneLine, Plan, RebindLine, SendLine};
use inventory_work::Listed;
use kinds::{Path, Refusal};
use std::alloc::Global;

/// A path for which nothing was committed, and why.
#[derive(Drop)]
pub struct Failure {
    pub path: Path,
    pub refusal: Refusal,
}

/// What an incremental backup came to.
#[derive(Drop)]
pub struct Sent {
    /// How many files became versions of their paths.
    pub sent: u64,
    /// How many paths were bound to another class.
    pub rebound: u64,
    /// How many versions are no longer active, since their files are gone.
    pub gone: u64,
    /// How many listed paths were left as they are.
    pub skipped: u64,
    /// The paths for which nothing was committed, and why: first those whose class has no copy group, and then those that were to be sent, to be bound anew and to be ended, each by path.
    pub failed: Listed<Failure>,
}

/// Of each line of a plan why it isn't committed, or none where it is.
#[derive(Drop)]
pub struct Outs {
    pub sent: Listed<Option<Refusal>>,
    pub rebound: Listed<Option<Refusal>>,
    pub gone: Listed<Option<Refusal>>,
}

/// A line of a plan, which is of a path.
pub trait Pathed: Drop {
    /// The path.
    ghost path_of: { Self → List ℕ };

    /// The path.
    fn path(&self) -> &Path
        ensures { result.now ≡ path_of self.now };
}

impl Pathed for SendLine {
    ghost path_of = { λ l. l.file.path };

    fn path(&self) -> &Path {
        &self.file.path
    }
}

impl Pathed for RebindLine {
    ghost path_of = { λ l. l.path };

    fn path(&self) -> &Path {
        &self.path
    }
}

impl Pathed for GoneLine {
    ghost path_of = { λ l. l.path };

    fn path(&self) -> &Path {
        &self.path
    }
}

/// 1 for one that is committed.
fn weight(out: Option<Refusal>) -> u64
    ensures { result ≡ weight out }
{
    match out {
        None => 1,
        Some(_) => 0,
    }
}

/// How many are committed.
fn committed(outs: &[Option<Refusal>]) -> u64
    ensures { result ≡ committed outs.now }
{
    let _most = outs.len();
    let mut count = 0;
    let mut left = outs;
    'outs: while let Some((out, more)) = left.split_first() {
        count += weight(*out);
        left = more;
    }
    count
}

fn failed_path(path: &Path, refusal: Refusal) -> Result<Failure, Refusal>
    ensures { AnswersBy (λ f. f) result (record { path = path.now; refusal = refusal }) }
{
    Ok(Failure {
        path: path.clone()?,
        refusal,
    })
}

/// Adds a path whose class has no copy group.
fn add_unbound(failed: &mut Vec<Failure>, paths: &[Path]) -> Result<(), Refusal>
    ensures ok { OnOk result (failed.new.items ≡ failed.old.items ++ map unbound paths.now) }
    ensures memory { IfErr result (λ e. e ≡ Memory) }
{
    'paths: for path in paths {
        failed.push(failed_path(path, Refusal::NoBackupGroup)?)?;
    }
    Ok(())
}

/// Adds the path of a line, where that isn't committed.
fn add_failure<L: Pathed>(
    failed: &mut Vec<Failure>,
    line: &L,
    out: Option<Refusal>,
) -> Result<(), Refusal>
    ensures ok { OnOk result (failed.new.items ≡ failed.old.items ++ failures_of (L.path_of line.now) out) }
    ensures memory { IfErr result (λ e. e ≡ Memory) }
{
    match out {
        Some(refusal) => {
            failed.push(failed_path(line.path(), refusal)?)?;
            Ok(())
        }
        None => Ok(()),
    }
}

/// Adds the paths of those lines that aren't committed.
fn add_failures<L: Pathed>(
    failed: &mut Vec<Failure>,
    lines: &[L],
    outs: &[Option<Refusal>],
) -> Result<(), Refusal>
    ensures ok { OnOk result (failed.new.items ≡ failed.old.items ++ failures L.path_of lines.now outs.now) }
    ensures memory { IfErr result (λ e. e ≡ Memory) }
{
    let mut lines_left = lines;
    let mut outs_left = outs;
    'lines: while let Some((line, others)) = lines_left.split_first() {
        match outs_left.split_first() {
            None => return Ok(()),
            Some((out, more)) => {
                add_failure(failed, line, *out)?;
                lines_left = others;
                outs_left = more;
            }
        }
    }
    Ok(())
}

/// Adds the paths of the files that aren't committed.
fn add_sent(failed: &mut Vec<Failure>, plan: &Plan, outs: &Outs) -> Result<(), Refusal>
    ensures ok { OnOk result (failed.new.items ≡ failed.old.items ++ failures (λ l. l.file.path) plan.now.send outs.now.sent) }
    ensures memory { IfErr result (λ e. e ≡ Memory) }
{
    add_failures(failed, plan.send(), outs.sent.as_slice())
}

/// Adds the paths that aren't bound anew.
fn add_rebound(failed: &mut Vec<Failure>, plan: &Plan, outs: &Outs) -> Result<(), Refusal>
    ensures ok { OnOk result (failed.new.items ≡ failed.old.items ++ failures (λ l. l.path) plan.now.rebind outs.now.rebound) }
    ensures memory { IfErr result (λ e. e ≡ Memory) }
{
    add_failures(failed, plan.rebind(), outs.rebound.as_slice())
}

/// Adds the paths of the versions that aren't ended.
fn add_gone(failed: &mut Vec<Failure>, plan: &Plan, outs: &Outs) -> Result<(), Refusal>
    ensures ok { OnOk result (failed.new.items ≡ failed.old.items ++ failures (λ l. l.path) plan.now.gone outs.now.gone) }
    ensures memory { IfErr result (λ e. e ≡ Memory) }
{
    add_failures(failed, plan.gone(), outs.gone.as_slice())
}

/// The paths of a plan for which nothing is committed, where this came of its lines.
fn failed_of(alloc: Global, plan: &Plan, outs: &Outs) -> Result<Listed<Failure>, Refusal>
    ensures { AnswersBy (λ f. f) result (failed_of plan.now outs.now) }
{
    let mut failed = Vec::new(alloc);
    add_unbound(&mut failed, plan.failed())?;
    add_sent(&mut failed, plan, outs)?;
    add_rebound(&mut failed, plan, outs)?;
    add_gone(&mut failed, plan, outs)?;
    Ok(Listed::from_vec(failed))
}

/// What is answered where this came of the lines of a plan. Its one refusal is want of memory.
pub(crate) fn sent_of(alloc: Global, plan: &Plan, outs: &Outs) -> Result<Sent, Refusal>
    ensures { AnswersBy (λ s. s) result (sent_of plan.now outs.now) }
{
    let failed = failed_of(alloc, plan, outs)?;
    Ok(Sent {
        sent: committed(outs.sent.as_slice()),
        rebound: committed(outs.rebound.as_slice()),
        gone: committed(outs.gone.as_slice()),
        skipped: plan.skip(),
        failed,
    })
}
