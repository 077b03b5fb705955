ghost use Rattle.std.specs.Prelude.{◌≡◌};
ghost use Rattle.kinds.specs.Answers.{Answers};
ghost use Rattle.inventory_work.specs.inventory_rows.State.{inv_of};
ghost use Rattle.inventory_work.specs.OnVolume.{RowsHoldObjects};
ghost use Rattle.inventory_answers.specs.Answered.{rows_of, answered};

use crate::clients::{filespaces_of, node_lines, path_versions_of, versions_of};
use crate::content::content_of;
use crate::held::held_of;
use crate::policy::{activation_refusal, classes_of, domain_lines, groups_of, sets_of};
use crate::query::Query;
use crate::reply::{Answer, Rows};
use crate::stores::{backup_lines, device_lines, pools_of, volumes_of};
use inventory_work::inventory_rows::Tables;
use inventory_work::{
    eligible, emptied, find_named, missing, on_pool, on_volume, rules_of, unretained,
};
use kinds::Refusal;
use std::alloc::Global;

fn rows_of(alloc: Global, tables: &Tables, query: &Query) -> Result<Rows, Refusal>
    requires held { RowsHoldObjects (inv_of tables.now) }
    ensures { Answers result (rows_of query.now (inv_of tables.now)) }
{
    let domains = &tables.domains;
    let objects = &tables.objects;
    let pools = &tables.pools;
    match query {
        Query::Today => Ok(Rows::Today),
        Query::Domains => Ok(Rows::Domains(domain_lines(alloc, domains)?)),
        Query::Sets { domain } => Ok(Rows::Sets(sets_of(alloc, domains, domain)?)),
        Query::Classes { domain, set } => {
            Ok(Rows::Classes(classes_of(alloc, domains, domain, set)?))
        }
        Query::Groups { domain, set } => {
            Ok(Rows::Groups(groups_of(alloc, domains, pools, domain, set)?))
        }
        Query::Validated { domain, set } => {
            Ok(Rows::Validated(activation_refusal(domains, domain, set)))
        }
        Query::Nodes => Ok(Rows::Nodes(node_lines(alloc, objects)?)),
        Query::Filespaces { node } => Ok(Rows::Filespaces(filespaces_of(alloc, objects, node)?)),
        Query::Devices => Ok(Rows::Devices(device_lines(alloc, pools)?)),
        Query::Pools { pool } => Ok(Rows::Pools(pools_of(alloc, pools, pool)?)),
        Query::Volumes { volume, pool } => {
            Ok(Rows::Volumes(volumes_of(alloc, pools, volume, pool)?))
        }
        Query::Content { volume } => Ok(Rows::Content(content_of(alloc, tables, volume)?)),
        Query::History => Ok(Rows::History(backup_lines(alloc, &tables.backups)?)),
        Query::Versions { node, filespace } => {
            Ok(Rows::Versions(versions_of(alloc, tables, node, filespace)?))
        }
        Query::Path {
            node,
            filespace,
            path,
        } => Ok(Rows::Versions(path_versions_of(alloc, tables, node, filespace, path)?)),
        Query::Held { filespace } => Ok(Rows::Held(held_of(alloc, tables, *filespace)?)),
        Query::Lookup { named } => Ok(Rows::Lookup(find_named(tables, named)?)),
        Query::Rules { node } => Ok(Rows::Rules(rules_of(alloc, tables, *node)?)),
        Query::OnPool { pool } => Ok(Rows::OnPool(on_pool(alloc, tables, *pool)?)),
        Query::OnVolume { file } => Ok(Rows::OnVolume(on_volume(alloc, tables, *file)?)),
        Query::Missing { primary, copy } => {
            Ok(Rows::Missing(missing(alloc, tables, *primary, *copy)?))
        }
        Query::Eligible { pool, threshold } => {
            Ok(Rows::Eligible(eligible(alloc, tables, *pool, *threshold)?))
        }
        Query::Unretained => Ok(Rows::Unretained(unretained(alloc, tables)?)),
        Query::Emptied => Ok(Rows::Emptied(emptied(alloc, tables)?)),
        Query::LogBytes => Ok(Rows::LogBytes(0)),
    }
}

/// What the database answers to a query: the number of the last transaction, the day, and the rows that are asked for.
/// `NotFound` exactly where something that the query names is not there; else its one refusal is want of memory. The volumes' rows have to hold
/// segments of the objects that have one there, as those of every valid database do: by them the copies on a volume are found.
pub fn answer(alloc: Global, tables: &Tables, query: &Query) -> Result<Answer, Refusal>
    requires held { RowsHoldObjects (inv_of tables.now) }
    ensures { Answers result (answered query.now (inv_of tables.now)) }
{
    let rows = rows_of(alloc, tables, query)?;
    Ok(Answer {
        n: tables.number,
        today: tables.today,
        rows,
    })
}
