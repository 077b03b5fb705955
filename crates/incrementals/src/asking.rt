//! What an incremental backup asks the server.
ghost use Rattle.std.specs.Prelude.{◌≡◌, [], Some, IfErr, IfOk};
ghost use Rattle.kinds.specs.declared.refusal.Refusal.TheVariants.{Memory as NoMemory};
ghost use Rattle.kinds.specs.Answers.{AnswersBy};
ghost use Rattle.inventory_answers.specs.declared.query.Query.TheVariants as asked;
ghost use Rattle.inventory_work.specs.declared.search.Named.TheVariants as thing;
ghost use Rattle.steps.specs.Calls.{Call, Made};
ghost use Rattle.steps.specs.Events.Deed.{Ask};
ghost use Rattle.incrementals.specs.Asking.{AsksAll, AsksFor, AsksNodeRules, AsksVersions, HasFilespaces, HasNumber, HasRules, HasVersions, number_found, unasked, unlisted};

use inventory_answers::{Answer, FilespaceLine, Query, Rows, VersionLine};
use inventory_work::{Found, Listed, Named, Rules};
use kinds::{Day, FilespaceName, NodeName, Refusal};
use std::alloc::Global;
use steps::Stepper;

/// The rules of a node's classes, and the day on which they were answered.
#[derive(Drop)]
pub struct Ruled {
    /// The node's number.
    pub node: u32,
    pub rules: Rules,
    pub today: Day,
}

/// What a plan goes by: the versions of a filespace, and the rules of its node's classes.
#[derive(Drop)]
pub struct Basis {
    pub versions: Listed<VersionLine>,
    pub ruled: Ruled,
}

/// Asks, and lets the question go.
fn ask<P: Stepper>(p: &mut P, query: Query) -> Result<Answer, Refusal>
    ensures { Call P.did p.old p.new (λ events. Made (Ask query result) events) }
{
    let answer = p.ask(&query);
    drop(query);
    answer
}

/// The refusal with which a call ends whose question was refused so: what it names isn't there, a halted hall or a full run. What can't be answered there stands for want of memory.
fn unasked(refusal: Refusal) -> Refusal
    ensures { result ≡ unasked refusal }
{
    match refusal.number() {
        10 | 40 | 41 => refusal,
        _ => Refusal::Memory,
    }
}

/// The versions of a filespace whose question was refused so: it has none where it isn't there.
fn unlisted(alloc: Global, refusal: Refusal) -> Result<Listed<VersionLine>, Refusal>
    ensures { result ≡ unlisted refusal }
{
    match refusal.number() {
        10 => Ok(Listed::from_vec(Vec::new(alloc))),
        _ => Err(unasked(refusal)),
    }
}

fn versions_asked(node: &NodeName, filespace: &FilespaceName) -> Result<Query, Refusal>
    ensures { AnswersBy (λ q. q) result (asked.Versions node.now filespace.now) }
{
    let node = node.clone()?;
    let filespace = filespace.clone()?;
    Ok(Query::Versions { node, filespace })
}

fn node_asked(node: &NodeName) -> Result<Query, Refusal>
    ensures { AnswersBy (λ q. q) result (asked.Lookup (thing.Node node.now)) }
{
    let node = node.clone()?;
    Ok(Query::Lookup {
        named: Named::Node(node),
    })
}

fn filespaces_asked(node: &NodeName) -> Result<Query, Refusal>
    ensures { AnswersBy (λ q. q) result (asked.Filespaces (Some node.now)) }
{
    let node = node.clone()?;
    Ok(Query::Filespaces { node: Some(node) })
}

/// The versions that an answer has. An answer to another query has none, and stands for want of memory; so it is of the following.
fn versions_of(answer: Answer) -> Result<Listed<VersionLine>, Refusal>
    ensures ok { IfOk result (λ lines. HasVersions lines answer) }
    ensures err { IfErr result (λ e. e ≡ NoMemory) }
{
    match answer.rows {
        Rows::Versions(lines) => Ok(lines),
        other => {
            drop(other);
            Err(Refusal::Memory)
        }
    }
}

/// The number that a name leads to.
fn number_found(found: Found) -> Option<u32>
    ensures { result ≡ number_found found }
{
    match found {
        Found::Number(number) => Some(number),
        Found::DevClass(_) => None,
    }
}

/// The number that an answer has.
fn number_of(answer: Answer) -> Result<u32, Refusal>
    ensures ok { IfOk result (λ number. HasNumber number answer) }
    ensures err { IfErr result (λ e. e ≡ NoMemory) }
{
    match answer.rows {
        Rows::Lookup(found) => match number_found(found) {
            Some(number) => Ok(number),
            None => Err(Refusal::Memory),
        },
        other => {
            drop(other);
            Err(Refusal::Memory)
        }
    }
}

/// The rules that an answer has.
fn rules_of(node: u32, answer: Answer) -> Result<Ruled, Refusal>
    ensures ok { IfOk result (λ r. HasRules node r answer) }
    ensures err { IfErr result (λ e. e ≡ NoMemory) }
{
    let today = answer.today;
    match answer.rows {
        Rows::Rules(rules) => Ok(Ruled { node, rules, today }),
        other => {
            drop(other);
            Err(Refusal::Memory)
        }
    }
}

/// The filespaces that an answer has.
fn filespaces_of(answer: Answer) -> Result<Listed<FilespaceLine>, Refusal>
    ensures ok { IfOk result (λ lines. HasFilespaces lines answer) }
    ensures err { IfErr result (λ e. e ≡ NoMemory) }
{
    match answer.rows {
        Rows::Filespaces(lines) => Ok(lines),
        other => {
            drop(other);
            Err(Refusal::Memory)
        }
    }
}

/// Asks for the versions of a filespace. It has none where it isn't there.
fn ask_versions<P: Stepper>(
    alloc: Global,
    p: &mut P,
    node: &NodeName,
    filespace: &FilespaceName,
) -> Result<Listed<VersionLine>, Refusal>
    ensures { Call P.did p.old p.new (λ events. AsksVersions node.now filespace.now events result) }
{
    let query = match versions_asked(node, filespace) {
        Ok(query) => query,
        Err(refusal) => return Err(refusal),
    };
    match ask(p, query) {
        Ok(answer) => versions_of(answer),
        Err(refusal) => unlisted(alloc, refusal),
    }
}

/// Asks for the number of a node.
fn ask_node<P: Stepper>(p: &mut P, node: &NodeName) -> Result<u32, Refusal>
    ensures { Call P.did p.old p.new (λ events. AsksFor (asked.Lookup (thing.Node node.now)) HasNumber events result) }
{
    let query = match node_asked(node) {
        Ok(query) => query,
        Err(refusal) => return Err(refusal),
    };
    match ask(p, query) {
        Ok(answer) => number_of(answer),
        Err(refusal) => Err(unasked(refusal)),
    }
}

/// Asks for the rules of a node's classes.
fn ask_rules<P: Stepper>(p: &mut P, node: u32) -> Result<Ruled, Refusal>
    ensures { Call P.did p.old p.new (λ events. AsksFor (asked.Rules node) (HasRules node) events result) }
{
    let query = Query::Rules { node };
    match ask(p, query) {
        Ok(answer) => rules_of(node, answer),
        Err(refusal) => Err(unasked(refusal)),
    }
}

/// Asks for the rules of the classes of the node with this name.
fn ask_node_rules<P: Stepper>(p: &mut P, node: &NodeName) -> Result<Ruled, Refusal>
    ensures { Call P.did p.old p.new (λ events. AsksNodeRules node.now events result) }
{
    let number = match ask_node(p, node) {
        Ok(number) => number,
        Err(refusal) => return Err(refusal),
    };
    ask_rules(p, number)
}

/// Asks for what a plan goes by: the versions of a filespace, and the rules of its node's classes. `NotFound` where the node isn't there.
pub(crate) fn ask_all<P: Stepper>(
    alloc: Global,
    p: &mut P,
    node: &NodeName,
    filespace: &FilespaceName,
) -> Result<Basis, Refusal>
    ensures { Call P.did p.old p.new (λ events. AsksAll node.now filespace.now events result) }
{
    let versions = match ask_versions(alloc, p, node, filespace) {
        Ok(versions) => versions,
        Err(refusal) => return Err(refusal),
    };
    match ask_node_rules(p, node) {
        Ok(ruled) => Ok(Basis { versions, ruled }),
        Err(refusal) => Err(refusal),
    }
}

/// Asks for the filespaces of a node.
pub(crate) fn ask_filespaces<P: Stepper>(
    p: &mut P,
    node: &NodeName,
) -> Result<Listed<FilespaceLine>, Refusal>
    ensures { Call P.did p.old p.new (λ events. AsksFor (asked.Filespaces (Some node.now)) HasFilespaces events result) }
{
    let query = match filespaces_asked(node) {
        Ok(query) => query,
        Err(refusal) => return Err(refusal),
    };
    match ask(p, query) {
        Ok(answer) => filespaces_of(answer),
        Err(refusal) => Err(unasked(refusal)),
    }
}
