ghost use Rattle.std.specs.Prelude.{map};
ghost use Rattle.kinds.specs.Answers.{AnswersBy};
ghost use Rattle.command_words.specs.Rows.{given_view};
ghost use Rattle.admin_words.specs.Nodes.{named_node, node_registration, node_filespace, filespace_query};

use command_words::{Given, field, text_at};
use kinds::{FilespaceName, Name, NodeName, Refusal};
use std::alloc::Global;

/// A node by its name.
#[derive(Debug, Drop)]
pub struct NamedNode {
    pub node: NodeName,
}

/// What the values that were given for the row say.
pub fn read_named_node(
    alloc: Global,
    places: &[Given],
    keys: &[Given],
) -> Result<NamedNode, Refusal>
    ensures { AnswersBy (λ x. x) result (named_node (map given_view places.now) (map given_view keys.now)) }
{
    let node = field::node_name(alloc, text_at(places, 0))?;
    Ok(NamedNode { node })
}

/// REGISTER NODE. The domain is STANDARD where none is given; the password is not kept.
#[derive(Debug, Drop)]
pub struct NodeRegistration {
    pub node: NodeName,
    pub domain: Name,
}

/// What the values that were given for the row say.
pub fn read_node_registration(
    alloc: Global,
    places: &[Given],
    keys: &[Given],
) -> Result<NodeRegistration, Refusal>
    ensures { AnswersBy (λ x. x) result (node_registration (map given_view places.now) (map given_view keys.now)) }
{
    let node = field::node_name(alloc, text_at(places, 0))?;
    let domain = field::name(alloc, text_at(keys, 0))?;
    Ok(NodeRegistration { node, domain })
}

/// A filespace by its node and its name.
#[derive(Debug, Drop)]
pub struct NodeFilespace {
    pub node: NodeName,
    pub filespace: FilespaceName,
}

/// What the values that were given for the row say.
pub fn read_node_filespace(
    alloc: Global,
    places: &[Given],
    keys: &[Given],
) -> Result<NodeFilespace, Refusal>
    ensures { AnswersBy (λ x. x) result (node_filespace (map given_view places.now) (map given_view keys.now)) }
{
    let node = field::node_name(alloc, text_at(places, 0))?;
    let filespace = field::filespace(alloc, text_at(places, 1))?;
    Ok(NodeFilespace { node, filespace })
}

/// QUERY FILESPACE: of one node, or of all.
#[derive(Debug, Drop)]
pub struct FilespaceQuery {
    pub node: Option<NodeName>,
}

/// What the values that were given for the row say.
pub fn read_filespace_query(
    alloc: Global,
    places: &[Given],
    keys: &[Given],
) -> Result<FilespaceQuery, Refusal>
    ensures { AnswersBy (λ x. x) result (filespace_query (map given_view places.now) (map given_view keys.now)) }
{
    let node = field::node_name_if(alloc, text_at(places, 0))?;
    Ok(FilespaceQuery { node })
}
