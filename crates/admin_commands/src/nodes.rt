// Commands of client nodes and filespaces.
ghost use Rattle.std.specs.Prelude.{◌≡◌};
ghost use Rattle.kinds.specs.Answers.{Answers, AnswersBy};
ghost use Rattle.inventory_answers.specs.declared.query.Query.TheVariants as query;
ghost use Rattle.admin_commands.specs.Orders.{node_needs, node_work, remove_node, run_filespace, show, show_held};

use crate::changes::node;
use crate::found::{filespace_named, node_named};
use crate::looks::{filespaces, one};
use crate::work::{Work, run_one};
use admin_words::command::NodeCommand;
use admin_words::nodes::{FilespaceQuery, NodeFilespace};
use inventory_answers::{Answer, Query};
use kinds::{DefineOrDelete, FilespaceName, NodeName, Refusal};
use std::alloc::Global;

pub(crate) fn node_needs(alloc: Global, command: &NodeCommand) -> Result<Vec<Query>, Refusal>
    ensures { AnswersBy (λ v. v.items) result (node_needs command.now) }
{
    match command {
        NodeCommand::DeleteFilespace(it) => one(alloc, filespaces(&it.node)?),
        NodeCommand::QueryArchive(it) => one(alloc, filespaces(&it.node)?),
        NodeCommand::QueryBackup(_) => Ok(Vec::new(alloc)),
        NodeCommand::QueryFilespace(_) => Ok(Vec::new(alloc)),
        NodeCommand::QueryNode => Ok(Vec::new(alloc)),
        NodeCommand::RegisterNode(_) => Ok(Vec::new(alloc)),
        NodeCommand::RemoveNode(_) => one(alloc, Query::Nodes),
    }
}

/// Work over the number of the filespace with this name.
pub(crate) fn run_filespace(
    alloc: Global,
    name: &FilespaceName,
    answers: &[Answer],
) -> Result<Work, Refusal>
    ensures { Answers result (run_filespace name.now answers.now) }
{
    match filespace_named(answers, name) {
        None => Err(Refusal::NotFound),
        Some(line) => run_one(alloc, line.number),
    }
}

fn remove_node(name: &NodeName, answers: &[Answer]) -> Result<Work, Refusal>
    ensures { Answers result (remove_node name.now answers.now) }
{
    match node_named(answers, name) {
        None => Err(Refusal::NotFound),
        Some(old) => node(DefineOrDelete::Delete, name, &old.domain),
    }
}

/// The objects that are held in the filespace with this name.
fn show_held(name: &FilespaceName, answers: &[Answer]) -> Result<Work, Refusal>
    ensures { Answers result (show_held name.now answers.now) }
{
    match filespace_named(answers, name) {
        None => Err(Refusal::NotFound),
        Some(line) => Ok(Work::Show(Query::Held {
            filespace: line.number,
        })),
    }
}

fn show_versions(it: &NodeFilespace) -> Result<Work, Refusal>
    ensures { Answers result (show (query.Versions it.now.node it.now.filespace)) }
{
    Ok(Work::Show(Query::Versions {
        node: it.node.clone()?,
        filespace: it.filespace.clone()?,
    }))
}

fn show_filespaces(it: &FilespaceQuery) -> Result<Work, Refusal>
    ensures { Answers result (show (query.Filespaces it.now.node)) }
{
    match &it.node {
        None => Ok(Work::Show(Query::Filespaces { node: None })),
        Some(node) => Ok(Work::Show(filespaces(node)?)),
    }
}

pub(crate) fn node_work(
    alloc: Global,
    command: &NodeCommand,
    answers: &[Answer],
) -> Result<Work, Refusal>
    ensures { Answers result (node_work command.now answers.now) }
{
    match command {
        NodeCommand::DeleteFilespace(it) => run_filespace(alloc, &it.filespace, answers),
        NodeCommand::QueryArchive(it) => show_held(&it.filespace, answers),
        NodeCommand::QueryBackup(it) => show_versions(it),
        NodeCommand::QueryFilespace(it) => show_filespaces(it),
        NodeCommand::QueryNode => Ok(Work::Show(Query::Nodes)),
        NodeCommand::RegisterNode(it) => node(DefineOrDelete::Define, &it.node, &it.domain),
        NodeCommand::RemoveNode(it) => remove_node(&it.node, answers),
    }
}
