//! The restore of a client's files.
ghost use Rattle.std.specs.Prelude.{◌≡◌, ◌≤◌, ◌^◌, length, IfErr, IfOk};
ghost use Rattle.kinds.specs.declared.refusal.Refusal.TheVariants.{Memory as NoMemory};
ghost use Rattle.inventory_answers.specs.declared.reply.Rows.TheVariants as rows;
ghost use Rattle.steps.specs.Calls.{Call};
ghost use Rattle.restores.specs.Restores.{Asks, Begins, Restores, unasked};

use crate::choosing::{RestoreLine, Which, choose};
use crate::giving::give_each;
use client_files::Gave;
use client_trees::Tree;
use inventory_answers::{Answer, Query, Rows, VersionLine};
use inventory_work::Listed;
use kinds::{FilespaceName, NodeName, Refusal};
use std::alloc::Global;
use steps::Stepper;

/// The objects that were to be restored, and what came of each, in the same order.
#[derive(Drop)]
pub struct Restored {
    pub lines: Listed<RestoreLine>,
    pub gave: Listed<Gave>,
}

/// The versions that an answer has. An answer to another query has none, and stands for want of memory.
fn versions_of(answer: Answer) -> Result<Listed<VersionLine>, Refusal>
    ensures ok { IfOk result (λ lines. answer.rows ≡ rows.Versions lines) }
    ensures err { IfErr result (λ e. e ≡ NoMemory) }
{
    match answer.rows {
        Rows::Versions(lines) => Ok(lines),
        other => {
            drop(other);
            Err(Refusal::Memory)
        }
    }
}

/// The refusal with which a restore ends whose question was refused so. What can't be answered there stands for want of memory.
fn unasked(refusal: Refusal) -> Refusal
    ensures { result ≡ unasked refusal }
{
    match refusal.number() {
        10 | 40 | 41 => refusal,
        _ => Refusal::Memory,
    }
}

/// Asks for the versions of a filespace.
fn ask_versions<P: Stepper>(
    p: &mut P,
    node: NodeName,
    filespace: FilespaceName,
) -> Result<Listed<VersionLine>, Refusal>
    ensures { Call P.did p.old p.new (λ events. Asks node filespace events result) }
{
    let query = Query::Versions { node, filespace };
    let answer = p.ask(&query);
    drop(query);
    match answer {
        Ok(answer) => versions_of(answer),
        Err(refusal) => Err(unasked(refusal)),
    }
}

/// Asks for the versions of a filespace, and answers those that are to be restored.
fn ask_and_choose<P: Stepper>(
    alloc: Global,
    p: &mut P,
    node: NodeName,
    filespace: FilespaceName,
    which: &Which,
) -> Result<Listed<RestoreLine>, Refusal>
    ensures { Call P.did p.old p.new (λ events. Begins node filespace which.now events result) }
{
    let lines = match ask_versions(p, node, filespace) {
        Ok(lines) => lines,
        Err(refusal) => return Err(refusal),
    };
    let chosen = choose(alloc, lines.as_slice(), which);
    drop(lines);
    chosen
}

/// Restores the versions of a filespace's files that are asked into the client's tree, by path, and answers what came of each. The buffer has 1 to 65,536 bytes.
/// `NotFound` where the filespace isn't there. It ends with `LogFault`, `RunFull` or `Memory` where a step of its own answers so, and with `Memory` for want of its own; what it restored until then stays.
pub fn restore<P: Stepper, T: Tree>(
    alloc: Global,
    p: &mut P,
    tree: &mut T,
    node: NodeName,
    filespace: FilespaceName,
    which: &Which,
    buffer: &mut [u8],
) -> Result<Restored, Refusal>
    requires some { 1 ≤ length buffer.old }
    requires few { length buffer.old ≤ 2 ^ 16 }
    ensures restores { Call P.did p.old p.new (λ events. Restores node filespace which.now (T.fault_count tree.old) (T.fault_count tree.new) (T.files tree.old) (T.files tree.new) events result) }
    ensures rises { T.fault_count tree.old ≤ T.fault_count tree.new }
{
    let lines = match ask_and_choose(alloc, p, node, filespace, which) {
        Ok(lines) => lines,
        Err(refusal) => return Err(refusal),
    };
    match give_each(alloc, p, tree, lines.as_slice(), buffer) {
        Ok(gave) => Ok(Restored { lines, gave }),
        Err(refusal) => Err(refusal),
    }
}
