// The filespace that a file is stored in.
ghost use Rattle.std.specs.Prelude.{◌≡◌};
ghost use Rattle.kinds.specs.Answers.{AnswersBy};
ghost use Rattle.steps.specs.Calls.{Call};
ghost use Rattle.sessions.specs.InTurn.{OrMemory};
ghost use Rattle.sessions.specs.Putting.{AsksFor, Defines, FindsFilespace, FindsIn, Looks, defined, defined_by, there_or_not, unplaced};

use crate::asking::ask_filespace;
use crate::changing::commit_change;
use entries::Change;
use kinds::{DefineOrDelete, FilespaceName, NodeName, ObjectChange, Refusal};
use steps::Stepper;

/// The refusal with which the storing of a file ends whose transaction was refused so. What can't be answered there stands for want of memory.
pub(crate) fn unplaced(refusal: Refusal) -> Refusal
    ensures { result ≡ unplaced refusal }
{
    match refusal.number() {
        10 | 30 | 31 | 40 | 41 | 50 => refusal,
        _ => Refusal::Memory,
    }
}

/// The number that was asked, or that it isn't there.
fn there_or_not(answer: Result<u32, Refusal>) -> Result<Option<u32>, Refusal>
    ensures { result ≡ there_or_not answer }
{
    match answer {
        Ok(number) => Ok(Some(number)),
        Err(Refusal::NotFound) => Ok(None),
        Err(refusal) => Err(refusal),
    }
}

/// Asks for the number of a node's filespace, which has to be there.
fn ask_for<P: Stepper>(
    p: &mut P,
    node: &NodeName,
    filespace: &FilespaceName,
) -> Result<u32, Refusal>
    ensures { Call P.did p.old p.new (λ events. AsksFor node.now filespace.now events result) }
{
    match node.clone() {
        Ok(node) => match filespace.clone() {
            Ok(filespace) => ask_filespace(p, node, filespace),
            Err(_) => Err(Refusal::Memory),
        },
        Err(_) => Err(Refusal::Memory),
    }
}

/// Asks for the number of a node's filespace.
fn look<P: Stepper>(
    p: &mut P,
    node: &NodeName,
    filespace: &FilespaceName,
) -> Result<Option<u32>, Refusal>
    ensures { Call P.did p.old p.new (λ events. Looks node.now filespace.now events result) }
{
    there_or_not(ask_for(p, node, filespace))
}

fn defined(node: u32, filespace: &FilespaceName) -> Result<Change, Refusal>
    ensures { AnswersBy (λ c. c) result (defined node filespace.now) }
{
    Ok(Change::Object(ObjectChange::Filespace {
        verb: DefineOrDelete::Define,
        node,
        name: filespace.clone()?,
        filespace: 0,
    }))
}

/// Whether a filespace is there behind the change that defines it.
fn defined_by(answer: Result<u64, Refusal>) -> Result<(), Refusal>
    ensures { result ≡ defined_by answer }
{
    match answer {
        Ok(_) => Ok(()),
        Err(Refusal::Exists) => Ok(()),
        Err(refusal) => Err(unplaced(refusal)),
    }
}

/// Defines a filespace.
fn define<P: Stepper>(p: &mut P, node: u32, filespace: &FilespaceName) -> Result<(), Refusal>
    ensures { Call P.did p.old p.new (λ events. OrMemory (Defines node filespace.now) events result) }
{
    match defined(node, filespace) {
        Ok(change) => defined_by(commit_change(p, change)),
        Err(refusal) => Err(refusal),
    }
}

/// The number of a node's filespace, which is defined where it wasn't found.
fn find_in<P: Stepper>(
    p: &mut P,
    node: &NodeName,
    filespace: &FilespaceName,
    number: u32,
    found: Option<u32>,
) -> Result<u32, Refusal>
    ensures { Call P.did p.old p.new (λ events. FindsIn node.now filespace.now number found events result) }
{
    match found {
        Some(it) => Ok(it),
        None => match define(p, number, filespace) {
            Ok(()) => ask_for(p, node, filespace),
            Err(refusal) => Err(refusal),
        },
    }
}

/// The number of a filespace of the node that has this name and this number. It is defined where it isn't there.
pub(crate) fn find_filespace<P: Stepper>(
    p: &mut P,
    node: &NodeName,
    filespace: &FilespaceName,
    number: u32,
) -> Result<u32, Refusal>
    ensures { Call P.did p.old p.new (λ events. FindsFilespace node.now filespace.now number events result) }
{
    match look(p, node, filespace) {
        Ok(found) => find_in(p, node, filespace, number, found),
        Err(refusal) => Err(refusal),
    }
}
