//! The filespace of an incremental backup: found by its name, or defined.
ghost use Rattle.std.specs.Prelude.{◌≡◌, []};
ghost use Rattle.std.specs.Option.{option_copied};
ghost use Rattle.kinds.specs.Answers.{AnswersBy};
ghost use Rattle.steps.specs.Calls.{Call};
ghost use Rattle.incrementals.specs.Filespaces.{DefinesAndFinds, DefinesOne, FindsOne, HasFilespace, defined, defining, line_in, number_in, there};

use crate::asking::ask_filespaces;
use client_files::stopping;
use entries::Change;
use inventory_answers::FilespaceLine;
use kinds::{DefineOrDelete, FilespaceName, NodeName, ObjectChange, Refusal};
use steps::{Asked, Stepper};

/// The filespace with this name, among these.
fn line_in<'a>(lines: &'a [FilespaceLine], name: &FilespaceName) -> Option<&'a FilespaceLine>
    ensures { option_copied result ≡ line_in name.now lines.now }
{
    lines.iter().find(|line| line.name == *name)
}

/// Its number.
fn number_in(lines: &[FilespaceLine], name: &FilespaceName) -> Option<u32>
    ensures { result ≡ number_in name.now lines.now }
{
    match line_in(lines, name) {
        Some(line) => Some(line.number),
        None => None,
    }
}

/// Looks up the number of a node's filespace, which may not be there.
fn find_filespace<P: Stepper>(
    p: &mut P,
    node: &NodeName,
    filespace: &FilespaceName,
) -> Result<Option<u32>, Refusal>
    ensures { Call P.did p.old p.new (λ events. FindsOne node.now filespace.now events result) }
{
    let lines = match ask_filespaces(p, node) {
        Ok(lines) => lines,
        Err(refusal) => return Err(refusal),
    };
    let found = number_in(lines.as_slice(), filespace);
    drop(lines);
    Ok(found)
}

/// The transaction that defines a filespace of the node with this number.
fn defining(node: u32, filespace: &FilespaceName) -> Result<Asked, Refusal>
    ensures { AnswersBy (λ asked. asked) result (defining node filespace.now) }
{
    let name = filespace.clone()?;
    Ok(Asked::Plain(Change::Object(ObjectChange::Filespace {
        verb: DefineOrDelete::Define,
        node,
        name,
        filespace: 0,
    })))
}

/// What the definition of a filespace came to: it is there, also where somebody else defined it meanwhile.
fn defined(answer: Result<u64, Refusal>) -> Result<(), Refusal>
    ensures { result ≡ defined answer }
{
    match answer {
        Ok(_) => Ok(()),
        Err(refusal) => match refusal.number() {
            11 => Ok(()),
            10 | 31 => Err(refusal),
            _ => Err(stopping(refusal)),
        },
    }
}

/// Defines a filespace of the node with this number by a transaction of its own.
fn define_filespace<P: Stepper>(
    p: &mut P,
    number: u32,
    filespace: &FilespaceName,
) -> Result<(), Refusal>
    ensures { Call P.did p.old p.new (λ events. DefinesOne number filespace.now events result) }
{
    let asked = match defining(number, filespace) {
        Ok(asked) => asked,
        Err(refusal) => return Err(refusal),
    };
    let answer = p.commit(&asked, &[]);
    drop(asked);
    defined(answer)
}

/// The number of a filespace, which has to be there.
fn there(found: Option<u32>) -> Result<u32, Refusal>
    ensures { result ≡ there found }
{
    match found {
        Some(number) => Ok(number),
        None => Err(Refusal::NotFound),
    }
}

/// Defines a filespace, and looks up its number.
fn define_and_find<P: Stepper>(
    p: &mut P,
    node: &NodeName,
    number: u32,
    filespace: &FilespaceName,
) -> Result<u32, Refusal>
    ensures { Call P.did p.old p.new (λ events. DefinesAndFinds node.now number filespace.now events result) }
{
    match define_filespace(p, number, filespace) {
        Ok(()) => match find_filespace(p, node, filespace) {
            Ok(found) => there(found),
            Err(refusal) => Err(refusal),
        },
        Err(refusal) => Err(refusal),
    }
}

/// Looks up the number of a filespace of this node, and defines it where it isn't there and files are to be sent. It ends with `NotFound` where the node went meanwhile, or the filespace did
/// while no files are to be sent.
pub(crate) fn filespace_number<P: Stepper>(
    p: &mut P,
    node: &NodeName,
    number: u32,
    filespace: &FilespaceName,
    sends: bool,
) -> Result<u32, Refusal>
    ensures { Call P.did p.old p.new (λ events. HasFilespace node.now number filespace.now sends events result) }
{
    let found = match find_filespace(p, node, filespace) {
        Ok(found) => found,
        Err(refusal) => return Err(refusal),
    };
    match found {
        Some(filespace) => Ok(filespace),
        None => {
            if sends {
                define_and_find(p, node, number, filespace)
            } else {
                Err(Refusal::NotFound)
            }
        }
    }
}
