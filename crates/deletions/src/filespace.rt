//! The deletion of a filespace.
ghost use Rattle.std.specs.Prelude.{◌≡◌, ◌++◌, map, IfOk, IfErr};
ghost use Rattle.std.specs.Option.{option_copied};
ghost use Rattle.kinds.specs.Answers.{Answers, AnswersBy};
ghost use Rattle.kinds.specs.declared.refusal.Refusal.TheVariants.{Memory as NoMemory};
ghost use Rattle.inventory_answers.specs.declared.query.Query.TheVariants as query;
ghost use Rattle.inventory_answers.specs.declared.reply.Rows.TheVariants as rows;
ghost use Rattle.steps.specs.Calls.{Call};
ghost use Rattle.deletions.specs.Filespaces.{Asks, Clears, Empties, FilespaceDeletion, Finds, ListsHeld, ListsObjects, ListsVersions, Removes, RemovesRow, deleting, line_of, names_in, names_of, of_held, of_version, unremoved};

use crate::lists::discard_all;
use crate::objects::Doomed;
use copy_attempts::stopping;
use copy_runs::unlisted;
use entries::Change;
use entries::change_items::DiscardReason;
use inventory_answers::{Answer, FilespaceLine, HeldLine, Query, Rows, VersionLine};
use inventory_work::Listed;
use kinds::{DefineOrDelete, FilespaceName, NodeName, ObjectChange, Refusal};
use std::alloc::Global;
use steps::{Asked, Stepper};

/// The filespaces that an answer has. An answer to another query has none, and stands for want of memory.
fn filespaces_of(answer: Answer) -> Result<Listed<FilespaceLine>, Refusal>
    ensures ok { IfOk result (λ lines. answer.rows ≡ rows.Filespaces lines) }
    ensures err { IfErr result (λ e. e ≡ NoMemory) }
{
    match answer.rows {
        Rows::Filespaces(lines) => Ok(lines),
        other => {
            drop(other);
            Err(Refusal::Memory)
        }
    }
}

/// The versions that an answer has.
fn versions_of(answer: Answer) -> Result<Listed<VersionLine>, Refusal>
    ensures ok { IfOk result (λ lines. answer.rows ≡ rows.Versions lines) }
    ensures err { IfErr result (λ e. e ≡ NoMemory) }
{
    match answer.rows {
        Rows::Versions(lines) => Ok(lines),
        other => {
            drop(other);
            Err(Refusal::Memory)
        }
    }
}

/// The held objects that an answer has.
fn held_of(answer: Answer) -> Result<Listed<HeldLine>, Refusal>
    ensures ok { IfOk result (λ lines. answer.rows ≡ rows.Held lines) }
    ensures err { IfErr result (λ e. e ≡ NoMemory) }
{
    match answer.rows {
        Rows::Held(lines) => Ok(lines),
        other => {
            drop(other);
            Err(Refusal::Memory)
        }
    }
}

/// The names of a filespace.
#[derive(Drop)]
struct Names {
    /// Its node's.
    node: NodeName,
    /// Its own.
    name: FilespaceName,
}

/// The names of a filespace, where its node is there.
fn names_of(line: &FilespaceLine) -> Result<Names, Refusal>
    ensures { Answers result (names_of line.now) }
{
    match &line.node {
        Some(node) => {
            let node = node.clone()?;
            let name = line.name.clone()?;
            Ok(Names { node, name })
        }
        None => Err(Refusal::NotFound),
    }
}

/// The filespace with this number, where it is among these.
fn line_of<'a>(lines: &'a [FilespaceLine], filespace: u32) -> Option<&'a FilespaceLine>
    ensures { option_copied result ≡ line_of filespace lines.now }
{
    lines.iter().find(|line| line.number == filespace)
}

/// The names of the filespace with this number, where it is among these.
fn names_in(lines: &[FilespaceLine], filespace: u32) -> Result<Names, Refusal>
    ensures { Answers result (names_in filespace lines.now) }
{
    match line_of(lines, filespace) {
        Some(line) => names_of(line),
        None => Err(Refusal::NotFound),
    }
}

/// Asks for what belongs to the filespace.
fn ask<P: Stepper>(p: &mut P, filespace: u32, query: &Query) -> Result<Answer, Refusal>
    ensures { Call P.did p.old p.new (λ events. Asks filespace query.now events result) }
{
    match p.ask(query) {
        Ok(answer) => Ok(answer),
        Err(refusal) => Err(unlisted(refusal)),
    }
}

/// Asks for the names of the filespace with this number.
fn find<P: Stepper>(p: &mut P, filespace: u32) -> Result<Names, Refusal>
    ensures { Call P.did p.old p.new (λ events. Finds filespace events result) }
{
    let query = Query::Filespaces { node: None };
    let answer = ask(p, filespace, &query);
    drop(query);
    match answer {
        Ok(answer) => match filespaces_of(answer) {
            Ok(lines) => names_in(lines.as_slice(), filespace),
            Err(refusal) => Err(refusal),
        },
        Err(refusal) => Err(refusal),
    }
}

/// The question for the versions of a filespace. Its one refusal is want of memory.
fn asking_versions(names: &Names) -> Result<Query, Refusal>
    ensures { AnswersBy (λ query. query) result (query.Versions names.now.node names.now.name) }
{
    let node = names.node.clone()?;
    let filespace = names.name.clone()?;
    Ok(Query::Versions { node, filespace })
}

/// Asks for the versions of a filespace.
fn list_versions<P: Stepper>(
    p: &mut P,
    filespace: u32,
    names: &Names,
) -> Result<Listed<VersionLine>, Refusal>
    ensures { Call P.did p.old p.new (λ events. ListsVersions filespace names.now events result) }
{
    let query = match asking_versions(names) {
        Ok(query) => query,
        Err(refusal) => return Err(refusal),
    };
    let answer = ask(p, filespace, &query);
    drop(query);
    match answer {
        Ok(answer) => versions_of(answer),
        Err(refusal) => Err(refusal),
    }
}

/// Asks for the objects that are held in a filespace.
fn list_held<P: Stepper>(p: &mut P, filespace: u32) -> Result<Listed<HeldLine>, Refusal>
    ensures { Call P.did p.old p.new (λ events. ListsHeld filespace events result) }
{
    let query = Query::Held { filespace };
    let answer = ask(p, filespace, &query);
    drop(query);
    match answer {
        Ok(answer) => held_of(answer),
        Err(refusal) => Err(refusal),
    }
}

/// The objects of these versions. Its one refusal is want of memory.
fn objects_of(alloc: Global, lines: &[VersionLine]) -> Result<Vec<Doomed>, Refusal>
    ensures { AnswersBy (λ objects. objects.items) result (map of_version lines.now) }
{
    let mut objects = Vec::new(alloc);
    'lines: for line in lines {
        objects.push(Doomed {
            object: line.object,
            found: line.digest,
        })?;
    }
    Ok(objects)
}

/// With held objects behind them. Its one refusal is want of memory.
fn with_held(objects: Vec<Doomed>, lines: &[HeldLine]) -> Result<Vec<Doomed>, Refusal>
    ensures { AnswersBy (λ all. all.items) result (objects.items ++ map of_held lines.now) }
{
    let mut all = objects;
    'lines: for line in lines {
        all.push(Doomed {
            object: line.object,
            found: line.digest,
        })?;
    }
    Ok(all)
}

/// The objects of versions, and held objects behind them. Its one refusal is want of memory.
fn both(
    alloc: Global,
    versions: &[VersionLine],
    held: &[HeldLine],
) -> Result<Listed<Doomed>, Refusal>
    ensures { AnswersBy (λ all. all) result (map of_version versions.now ++ map of_held held.now) }
{
    let objects = objects_of(alloc, versions)?;
    Ok(Listed::from_vec(with_held(objects, held)?))
}

/// Asks for the objects that are kept in a filespace.
fn list_objects<P: Stepper>(
    alloc: Global,
    p: &mut P,
    filespace: u32,
    names: &Names,
) -> Result<Listed<Doomed>, Refusal>
    ensures { Call P.did p.old p.new (λ events. ListsObjects filespace names.now events result) }
{
    let versions = match list_versions(p, filespace, names) {
        Ok(lines) => lines,
        Err(refusal) => return Err(refusal),
    };
    match list_held(p, filespace) {
        Ok(held) => both(alloc, versions.as_slice(), held.as_slice()),
        Err(refusal) => Err(refusal),
    }
}

/// Discards the objects that are kept in a filespace, and answers how many.
fn clear<P: Stepper>(
    alloc: Global,
    p: &mut P,
    filespace: u32,
    names: &Names,
) -> Result<u64, Refusal>
    ensures { Call P.did p.old p.new (λ events. Clears filespace names.now events result) }
{
    let objects = match list_objects(alloc, p, filespace, names) {
        Ok(objects) => objects,
        Err(refusal) => return Err(refusal),
    };
    let reason = DiscardReason::Filespace { filespace };
    discard_all(alloc, p, reason, objects.as_slice())
}

/// The refusal with which a deletion ends where the transaction of the row itself was so refused.
pub(crate) fn unremoved(refusal: Refusal) -> Refusal
    ensures { result ≡ unremoved refusal }
{
    match refusal.number() {
        10 | 12 | 32 => refusal,
        _ => stopping(refusal),
    }
}

/// The transaction that deletes a filespace's row. The number of its node isn't looked at. Its one refusal is want of memory.
fn deleting(filespace: u32, names: &Names) -> Result<Asked, Refusal>
    ensures { AnswersBy (λ asked. asked) result (deleting names.now.name filespace) }
{
    let name = names.name.clone()?;
    Ok(Asked::Plain(Change::Object(ObjectChange::Filespace {
        verb: DefineOrDelete::Delete,
        node: 0,
        name,
        filespace,
    })))
}

/// Commits that the filespace's row goes.
fn remove_row<P: Stepper>(p: &mut P, filespace: u32, names: &Names) -> Result<(), Refusal>
    ensures { Call P.did p.old p.new (λ events. RemovesRow filespace names.now.name events result) }
{
    let asked = match deleting(filespace, names) {
        Ok(asked) => asked,
        Err(refusal) => return Err(refusal),
    };
    let answer = p.commit(&asked, &[]);
    drop(asked);
    match answer {
        Ok(_) => Ok(()),
        Err(refusal) => Err(unremoved(refusal)),
    }
}

/// Commits that the filespace's row goes, and makes all durable.
fn remove<P: Stepper>(p: &mut P, filespace: u32, names: &Names) -> Result<(), Refusal>
    ensures { Call P.did p.old p.new (λ events. Removes filespace names.now.name events result) }
{
    match remove_row(p, filespace, names) {
        Ok(()) => match p.force() {
            Ok(_) => Ok(()),
            Err(refusal) => Err(stopping(refusal)),
        },
        Err(refusal) => Err(refusal),
    }
}

/// Deletes the filespace with these names, and answers how many objects it discarded.
fn delete_named<P: Stepper>(
    alloc: Global,
    p: &mut P,
    filespace: u32,
    names: &Names,
) -> Result<u64, Refusal>
    ensures { Call P.did p.old p.new (λ events. Empties filespace names.now events result) }
{
    match clear(alloc, p, filespace, names) {
        Ok(count) => match remove(p, filespace, names) {
            Ok(()) => Ok(count),
            Err(refusal) => Err(refusal),
        },
        Err(refusal) => Err(refusal),
    }
}

/// Deletes the filespace with this number, with the versions and the held objects that are kept in it, and answers how many objects it discarded. `NotFound` where
/// the filespace isn't there. It passes over an object that goes meanwhile; where another is stored there meanwhile the filespace stays, and the answer is `InUse`
/// with it. It ends with `InventoryFull`, `LogFault`, `RunFull` or `Memory` where a step of its own answers so; what it discarded until then stays discarded.
pub fn delete_filespace<P: Stepper>(
    alloc: Global,
    p: &mut P,
    filespace: u32,
) -> Result<u64, Refusal>
    ensures { Call P.did p.old p.new (λ events. FilespaceDeletion filespace events result) }
{
    match find(p, filespace) {
        Ok(names) => {
            let result = delete_named(alloc, p, filespace, &names);
            drop(names);
            result
        }
        Err(refusal) => Err(refusal),
    }
}
