//! A batch of files: written, sealed, and committed together.
ghost use Rattle.std.specs.Prelude.{◌≡◌, ◌≤◌, ◌^◌, ◌++◌, [], length, IfErr, OnOk};
ghost use Rattle.kinds.specs.declared.refusal.Refusal.TheVariants.{Memory};
ghost use Rattle.kinds.specs.Answers.{AnswersBy};
ghost use Rattle.steps.specs.Calls.{Call};
ghost use Rattle.client_batches.specs.Batches.{Batches, SealsAndStores, Stores, sealed_line, sealed_lines, sealed_row};
ghost use Rattle.client_batches.specs.Sends.{tickets_in};

use crate::committing::commit_lines;
use crate::listing::SealedLine;
use crate::sealing::seal_batch;
use crate::sending::fill_batch;
use crate::tickets::give_back;
use client_files::Came;
use client_plan::{ActiveClasses, SendLine};
use client_trees::Tree;
use inventory_work::Listed;
use kinds::{Digest, Refusal};
use std::alloc::Global;
use steps::Stepper;

/// What came of the first files of a list that were to be sent.
#[derive(Drop)]
pub struct Batch {
    /// What came of each when it was written. Where others held the room, or there was none for it while others of the batch had tickets, the last one is to be sent again.
    pub came: Listed<Came>,
    /// What came of each behind its seal, in the same order: one whose volume can't be written has failed.
    pub sealed: Listed<Came>,
    /// Of each that was sealed why it isn't committed, or none where it is, in the same order.
    pub outs: Listed<Option<Refusal>>,
}

fn sealed_line(line: &SendLine, digest: Digest) -> Result<SealedLine, Refusal>
    ensures { AnswersBy (λ row. row) result (sealed_line line.now digest) }
{
    let path = line.file.path.clone()?;
    let class = line.class.clone()?;
    Ok(SealedLine {
        path,
        class,
        mtime: line.file.mtime,
        digest,
    })
}

/// Adds a file as it is committed, where it is sealed.
fn add_row(rows: &mut Vec<SealedLine>, line: &SendLine, came: Came) -> Result<(), Refusal>
    ensures ok { OnOk result (rows.new.items ≡ rows.old.items ++ sealed_row line.now came) }
    ensures memory { IfErr result (λ e. e ≡ Memory) }
{
    match came {
        Came::Written(_, digest) => {
            rows.push(sealed_line(line, digest)?)?;
            Ok(())
        }
        Came::Failed(_) => Ok(()),
        Came::Held(_) => Ok(()),
    }
}

/// The files that are sealed, as they are committed.
fn sealed_lines(
    alloc: Global,
    lines: &[SendLine],
    came: &[Came],
) -> Result<Vec<SealedLine>, Refusal>
    ensures { AnswersBy (λ rows. rows.items) result (sealed_lines lines.now came.now) }
{
    let mut rows = Vec::new(alloc);
    let mut lines_left = lines;
    let mut came_left = came;
    'lines: while let Some((line, others)) = lines_left.split_first() {
        match came_left.split_first() {
            None => return Ok(rows),
            Some((it, more)) => {
                add_row(&mut rows, line, *it)?;
                lines_left = others;
                came_left = more;
            }
        }
    }
    Ok(rows)
}

/// Commits the files of these that are sealed, in the tickets that are held.
fn store_sealed<P: Stepper>(
    alloc: Global,
    p: &mut P,
    filespace: u32,
    lines: &[SendLine],
    came: &[Came],
    held: &[u64],
) -> Result<Listed<Option<Refusal>>, Refusal>
    requires of { held.now ≡ tickets_in came.now }
    requires few { length held.now ≤ 32 }
    ensures { Call P.did p.old p.new (λ events. Stores filespace lines.now came.now held.now events result) }
{
    if held.is_empty() {
        return Ok(Listed::from_vec(Vec::new(alloc)));
    }
    let rows = match sealed_lines(alloc, lines, came) {
        Ok(rows) => rows,
        Err(refusal) => return Err(give_back(p, held, refusal)),
    };
    let outs = commit_lines(alloc, p, filespace, rows.as_slice(), held);
    drop(rows);
    outs
}

/// Seals the tickets of these files, all of which are written, and commits those that are sealed; and answers what came of each behind its seal, and of each that is sealed why it isn't
/// committed, or none where it is.
fn seal_and_store<P: Stepper>(
    alloc: Global,
    p: &mut P,
    filespace: u32,
    lines: &[SendLine],
    came: &[Came],
    tickets: &[u64],
    sealed: &mut Vec<Came>,
) -> Result<Listed<Option<Refusal>>, Refusal>
    requires of { tickets.now ≡ tickets_in came.now }
    requires few { length tickets.now ≤ 32 }
    requires none { sealed.old.items ≡ [] }
    ensures { Call P.did p.old p.new (λ events. SealsAndStores filespace lines.now came.now sealed.new.items events result) }
{
    let mut held = Vec::new(alloc);
    match seal_batch(p, came, tickets, sealed, &mut held) {
        Ok(()) => {}
        Err(refusal) => return Err(refusal),
    }
    store_sealed(
        alloc,
        p,
        filespace,
        lines,
        sealed.as_slice(),
        held.as_slice(),
    )
}

/// Writes the first of these files, in their order, then seals their tickets, and commits those that are sealed. A batch ends with the last file, with the 32nd that has a ticket, and where a file
/// has to wait: others hold the room, or there is none for it while others of the batch have tickets. The buffer has 1 to 65,536 bytes. No ticket is left at the end, unless that is with
/// `LogFault` or `RunFull`. It ends with these two and `Memory` where a step of its own answers so, and with `Memory` for want of its own; what it committed until then stays.
pub fn send_batch<P: Stepper, T: Tree>(
    alloc: Global,
    p: &mut P,
    tree: &mut T,
    classes: &ActiveClasses,
    filespace: u32,
    lines: &[SendLine],
    buffer: &mut [u8],
) -> Result<Batch, Refusal>
    requires some { 1 ≤ length buffer.old }
    requires few { length buffer.old ≤ 2 ^ 16 }
    ensures batches { Call P.did p.old p.new (λ events. Batches classes.now (T.files tree.old) filespace lines.now (T.fault_count tree.old) (T.fault_count tree.new) events result) }
    ensures kept { T.files tree.new ≡ T.files tree.old }
    ensures rises { T.fault_count tree.old ≤ T.fault_count tree.new }
    ensures long { length buffer.new ≡ length buffer.old }
{
    let mut came = Vec::new(alloc);
    let mut held = Vec::new(alloc);
    match fill_batch(p, tree, classes, lines, &mut came, &mut held, buffer) {
        Ok(()) => {}
        Err(refusal) => return Err(refusal),
    }
    let mut sealed = Vec::new(alloc);
    let all = came.as_slice();
    let tickets = held.as_slice();
    match seal_and_store(alloc, p, filespace, lines, all, tickets, &mut sealed) {
        Ok(outs) => Ok(Batch {
            came: Listed::from_vec(came),
            sealed: Listed::from_vec(sealed),
            outs,
        }),
        Err(refusal) => Err(refusal),
    }
}
