// What is done on a client's tree.
ghost use Rattle.std.specs.Prelude.{◌≡◌, ◌≤◌, ◌^◌, length, IfErr, IfOk};
ghost use Rattle.kinds.specs.declared.refusal.Refusal.TheVariants.{Memory};
ghost use Rattle.kinds.specs.Answers.{Answers};
ghost use Rattle.steps.specs.Calls.{Call};
ghost use Rattle.command_steps.specs.Clients.{client, seen};
ghost use Rattle.command_steps.specs.Reading.{tree_view};
ghost use Rattle.command_steps.specs.Trees.{BacksUp, DoesOn, DoesThere, ErasesFile, GivesBack, GivesWanted, IsByPath, WritesFile, given_back, is_absent, which_of};

use crate::outcome::Outcome;
use crate::own::{OnTree, tree_of};
use crate::writing::{erase_file, write_file};
use admin_words::files::{FileErase, FileWrite, FilesRestore, IncrementalBackup, Wanted};
use choosers::Binder;
use client_trees::Tree;
use incrementals::{Sent, incremental};
use inventory_work::Listed;
use kinds::{FilespaceName, NodeName, Refusal};
use path_patterns::Pattern;
use reports::Shown;
use restores::{RestoreLine, Restored, Which, restore};
use std::alloc::Global;
use steps::Stepper;

// ---- WRITE and ERASE

/// Writes a file of the tree.
fn write<T: Tree>(tree: &mut T, buffer: &mut [u8], file: &FileWrite) -> Result<Outcome, Refusal>
    requires some { 1 ≤ length buffer.old }
    ensures { WritesFile file.now (seen T.files T.fault_count tree.old) (seen T.files T.fault_count tree.new) result }
{
    match write_file(tree, &file.path, file.mtime, &file.contents, buffer) {
        Ok(()) => Ok(Outcome::Said(Shown::Done)),
        Err(refusal) => Err(refusal),
    }
}

/// Takes a file of the tree away.
fn erase<T: Tree>(tree: &mut T, file: &FileErase) -> Result<Outcome, Refusal>
    ensures { ErasesFile file.now (seen T.files T.fault_count tree.old) (seen T.files T.fault_count tree.new) result }
{
    match erase_file(tree, &file.path) {
        Ok(()) => Ok(Outcome::Said(Shown::Done)),
        Err(refusal) => Err(refusal),
    }
}

// ---- DSMC INCREMENTAL

/// What came of a backup, with the paths for which nothing was committed in ascending order.
fn by_path(sent: Sent) -> Sent
    ensures { IsByPath sent result }
{
    let Sent {
        sent,
        rebound,
        gone,
        skipped,
        failed,
    } = sent;
    let mut failed = failed.into_vec();
    failed.sort_unstable_by(|a, b| a.path.cmp(&b.path));
    Sent {
        sent,
        rebound,
        gone,
        skipped,
        failed: Listed::from_vec(failed),
    }
}

/// Backs up the tree's files.
fn back_up<P: Stepper, T: Tree>(
    alloc: Global,
    p: &mut P,
    tree: &mut T,
    binder: &Binder,
    buffer: &mut [u8],
    files: &IncrementalBackup,
) -> Result<Outcome, Refusal>
    requires some { 1 ≤ length buffer.old }
    requires few { length buffer.old ≤ 2 ^ 16 }
    ensures { Call P.did p.old p.new (λ events. BacksUp binder.now files.now (seen T.files T.fault_count tree.old) (seen T.files T.fault_count tree.new) events result) }
{
    match incremental(
        alloc,
        p,
        tree,
        binder,
        &files.node,
        &files.filespace,
        buffer,
    ) {
        Ok(sent) => Ok(Outcome::Sent(by_path(sent))),
        Err(refusal) => Err(refusal),
    }
}

// ---- DSMC RESTORE

/// Which versions are restored.
fn which_of(alloc: Global, wanted: &Wanted) -> Result<Which, Refusal>
    ensures { Answers result (which_of wanted.now) }
{
    match wanted {
        Wanted::Active => Ok(Which::Active),
        Wanted::Like(pattern) => Ok(Which::Like(Pattern::read(alloc, pattern.as_bytes())?)),
        Wanted::On(day) => Ok(Which::On(*day)),
        Wanted::Object(object) => Ok(Which::Object(*object)),
    }
}

/// Whether an object is wanted by its number, and there is none.
fn is_absent(wanted: &Wanted, lines: &[RestoreLine]) -> bool
    ensures { result ≡ is_absent wanted.now lines.now }
{
    match wanted {
        Wanted::Object(_) => lines.is_empty(),
        _ => false,
    }
}

/// What a restore answers that came to this.
fn given_back(wanted: &Wanted, restored: Restored) -> Result<Outcome, Refusal>
    ensures { result ≡ given_back wanted.now restored }
{
    if is_absent(wanted, restored.lines.as_slice()) {
        drop(restored);
        Err(Refusal::NotFound)
    } else {
        Ok(Outcome::Restored(restored))
    }
}

/// Restores these versions into the tree.
fn give_back<P: Stepper, T: Tree>(
    alloc: Global,
    p: &mut P,
    tree: &mut T,
    buffer: &mut [u8],
    files: &FilesRestore,
    which: &Which,
    names: (NodeName, FilespaceName),
) -> Result<Outcome, Refusal>
    requires some { 1 ≤ length buffer.old }
    requires few { length buffer.old ≤ 2 ^ 16 }
    requires node { names.0 ≡ files.now.node }
    requires filespace { names.1 ≡ files.now.filespace }
    ensures { Call P.did p.old p.new (λ events. GivesBack files.now which.now (seen T.files T.fault_count tree.old) (seen T.files T.fault_count tree.new) events result) }
{
    let (node, filespace) = names;
    match restore(alloc, p, tree, node, filespace, which, buffer) {
        Ok(restored) => given_back(&files.wanted, restored),
        Err(refusal) => Err(refusal),
    }
}

/// The names of a node and of a filespace, once more. Its one refusal is want of memory.
fn names_of(files: &FilesRestore) -> Result<(NodeName, FilespaceName), Refusal>
    ensures node { IfOk result (λ names. names.0 ≡ files.now.node) }
    ensures filespace { IfOk result (λ names. names.1 ≡ files.now.filespace) }
    ensures memory { IfErr result (λ e. e ≡ Memory) }
{
    Ok((files.node.clone()?, files.filespace.clone()?))
}

/// Restores what is wanted into the tree.
fn give_wanted<P: Stepper, T: Tree>(
    alloc: Global,
    p: &mut P,
    tree: &mut T,
    buffer: &mut [u8],
    files: &FilesRestore,
) -> Result<Outcome, Refusal>
    requires some { 1 ≤ length buffer.old }
    requires few { length buffer.old ≤ 2 ^ 16 }
    ensures { Call P.did p.old p.new (λ events. GivesWanted files.now (seen T.files T.fault_count tree.old) (seen T.files T.fault_count tree.new) events result) }
{
    let names = match names_of(files) {
        Ok(names) => names,
        Err(refusal) => return Err(refusal),
    };
    match which_of(alloc, &files.wanted) {
        Ok(which) => {
            let outcome = give_back(alloc, p, tree, buffer, files, &which, names);
            drop(which);
            outcome
        }
        Err(refusal) => {
            drop(names);
            Err(refusal)
        }
    }
}

// ---- each of them

/// Does what is asked on the tree.
fn do_on<P: Stepper, T: Tree>(
    alloc: Global,
    p: &mut P,
    tree: &mut T,
    binder: &Binder,
    buffer: &mut [u8],
    work: OnTree<'_>,
) -> Result<Outcome, Refusal>
    requires some { 1 ≤ length buffer.old }
    requires few { length buffer.old ≤ 2 ^ 16 }
    ensures { Call P.did p.old p.new (λ events. DoesOn binder.now (tree_view work.entry) (seen T.files T.fault_count tree.old) (seen T.files T.fault_count tree.new) events result) }
{
    match work {
        OnTree::Write(file) => write(tree, buffer, file),
        OnTree::Erase(file) => erase(tree, file),
        OnTree::BackUp(files) => back_up(alloc, p, tree, binder, buffer, files),
        OnTree::Restore(files) => give_wanted(alloc, p, tree, buffer, files),
    }
}

/// Does what is asked on the tree that it names, which has to be there.
pub(crate) fn do_there<P: Stepper, T: Tree>(
    alloc: Global,
    p: &mut P,
    trees: &mut [T],
    binder: &Binder,
    buffer: &mut [u8],
    work: OnTree<'_>,
) -> Result<Outcome, Refusal>
    requires some { 1 ≤ length buffer.old }
    requires few { length buffer.old ≤ 2 ^ 16 }
    ensures { Call P.did p.old p.new (λ events. DoesThere (client T.files T.fault_count binder.now trees.old trees.new) (tree_view work.entry) events result) }
{
    let number = tree_of(work) as usize;
    if number < trees.len() {
        do_on(alloc, p, &mut trees[number], binder, buffer, work)
    } else {
        Err(Refusal::NotFound)
    }
}
