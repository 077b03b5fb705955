// What a command asks before it does anything.
ghost use Rattle.std.specs.Prelude.{◌≡◌, IfErr, IfOk};
ghost use Rattle.kinds.specs.declared.refusal.Refusal.TheVariants.{Memory as NoMemory};
ghost use Rattle.inventory_answers.specs.declared.reply.Rows.TheVariants as rows;
ghost use Rattle.inventory_work.specs.declared.search.Found.TheVariants as found;
ghost use Rattle.steps.specs.Calls.{Call};
ghost use Rattle.sessions.specs.Asking.{AsksFilespace, AsksNode, AsksPath, AsksRules, unasked};

use inventory_answers::{Answer, Query, Rows, VersionLine};
use inventory_work::{Found, Listed, Named, Rules};
use kinds::{FilespaceName, NodeName, Path, Refusal};
use steps::Stepper;

/// The refusal with which a command ends whose question was refused so. What can't be answered there stands for want of memory.
pub(crate) fn unasked(refusal: Refusal) -> Refusal
    ensures { result ≡ unasked refusal }
{
    match refusal.number() {
        10 | 40 | 41 => refusal,
        _ => Refusal::Memory,
    }
}

/// The versions that an answer has. An answer to another query has none, and stands for want of memory.
fn versions_of(answer: Answer) -> Result<Listed<VersionLine>, Refusal>
    ensures ok { IfOk result (λ lines. answer.rows ≡ rows.Versions lines) }
    ensures err { IfErr result (λ e. e ≡ NoMemory) }
{
    match answer.rows {
        Rows::Versions(lines) => Ok(lines),
        other => {
            drop(other);
            Err(Refusal::Memory)
        }
    }
}

/// Asks for the versions of one path of a filespace.
pub(crate) fn ask_path<P: Stepper>(
    p: &mut P,
    node: NodeName,
    filespace: FilespaceName,
    path: Path,
) -> Result<Listed<VersionLine>, Refusal>
    ensures { Call P.did p.old p.new (λ events. AsksPath node filespace path events result) }
{
    let query = Query::Path {
        node,
        filespace,
        path,
    };
    let answer = p.ask(&query);
    drop(query);
    match answer {
        Ok(answer) => versions_of(answer),
        Err(refusal) => Err(unasked(refusal)),
    }
}

/// The number that an answer has. An answer to another query has none, and stands for want of memory.
fn number_of(answer: Answer) -> Result<u32, Refusal>
    ensures ok { IfOk result (λ number. answer.rows ≡ rows.Lookup (found.Number number)) }
    ensures err { IfErr result (λ e. e ≡ NoMemory) }
{
    match answer.rows {
        Rows::Lookup(Found::Number(number)) => Ok(number),
        other => {
            drop(other);
            Err(Refusal::Memory)
        }
    }
}

/// Asks for the number of a node.
pub(crate) fn ask_node<P: Stepper>(p: &mut P, node: NodeName) -> Result<u32, Refusal>
    ensures { Call P.did p.old p.new (λ events. AsksNode node events result) }
{
    let query = Query::Lookup {
        named: Named::Node(node),
    };
    let answer = p.ask(&query);
    drop(query);
    match answer {
        Ok(answer) => number_of(answer),
        Err(refusal) => Err(unasked(refusal)),
    }
}

/// Asks for the number of a node's filespace.
pub(crate) fn ask_filespace<P: Stepper>(
    p: &mut P,
    node: NodeName,
    filespace: FilespaceName,
) -> Result<u32, Refusal>
    ensures { Call P.did p.old p.new (λ events. AsksFilespace node filespace events result) }
{
    let query = Query::Lookup {
        named: Named::Filespace { node, filespace },
    };
    let answer = p.ask(&query);
    drop(query);
    match answer {
        Ok(answer) => number_of(answer),
        Err(refusal) => Err(unasked(refusal)),
    }
}

/// The rules that an answer has. An answer to another query has none, and stands for want of memory.
fn rules_of(answer: Answer) -> Result<Rules, Refusal>
    ensures ok { IfOk result (λ rules. answer.rows ≡ rows.Rules rules) }
    ensures err { IfErr result (λ e. e ≡ NoMemory) }
{
    match answer.rows {
        Rows::Rules(rules) => Ok(rules),
        other => {
            drop(other);
            Err(Refusal::Memory)
        }
    }
}

/// Asks for the rules of the classes of a node's domain.
pub(crate) fn ask_rules<P: Stepper>(p: &mut P, node: u32) -> Result<Rules, Refusal>
    ensures { Call P.did p.old p.new (λ events. AsksRules node events result) }
{
    let query = Query::Rules { node };
    let answer = p.ask(&query);
    drop(query);
    match answer {
        Ok(answer) => rules_of(answer),
        Err(refusal) => Err(unasked(refusal)),
    }
}
