//! Whether the tables are those of a database.

ghost use Rattle.std.specs.Prelude.{◌≡◌, ◌&&◌};
ghost use Rattle.kinds.specs.Answers.{AnswersBy};
ghost use Rattle.inventory_rows.specs.State.{inv_of};
ghost use Rattle.inventory_rules.specs.Held.{IsTied};
ghost use Rattle.inventory_rules.specs.Valid.{is_valid};
ghost use Rattle.inventory_check.specs.Together.{agree, all_cited, together};

use crate::backups::{are_by_today, are_past};
use crate::classes::classes_are;
use crate::clients::{filespaces_cite, groups_are_orderly, held_cite, nodes_cite};
use crate::counts::is_small;
use crate::names::{are_named, are_numbered};
use crate::numbers::{are_bounded, are_drawn};
use crate::policy::{defaults_are_there, rules_cite};
use crate::stores::{no_ring, pools_cite, volumes_cite};
use crate::versions::{copies_cite, versions_are_copied};
use crate::volumes::volumes_are;
use inventory_rows::Tables;
use kinds::Refusal;
use std::alloc::Global;

/// Whether all that is cited is there.
fn all_cited(tables: &Tables) -> bool
    ensures { result ≡ all_cited (inv_of tables.now) }
{
    nodes_cite(tables)
        && (filespaces_cite(tables)
            && (held_cite(tables)
                && (rules_cite(tables)
                    && (pools_cite(tables) && (volumes_cite(tables) && copies_cite(tables))))))
}

/// Whether defaults, groups, objects, volumes, the hierarchy of pools, the days and the device classes are as they have to be.
fn agree(tables: &Tables) -> bool
    requires { IsTied (inv_of tables.now) }
    ensures { result ≡ agree (inv_of tables.now) }
{
    defaults_are_there(tables)
        && (groups_are_orderly(tables)
            && (versions_are_copied(tables)
                && (volumes_are(tables)
                    && (no_ring(tables) && (are_by_today(tables) && classes_are(tables))))))
}

fn together(tables: &Tables, numbered: bool, named: bool, small: bool) -> bool
    requires { IsTied (inv_of tables.now) }
    ensures { result ≡ together (inv_of tables.now) numbered named small }
{
    all_cited(tables)
        && (are_drawn(tables)
            && (are_bounded(tables)
                && (numbered && (are_past(tables) && (named && (agree(tables) && small))))))
}

/// Whether the tables are those of a database. Each volume's row has to hold the segments of the copies that lie on it. Its one refusal is want of
/// memory. It walks each table a few times, with a look-up for each thing that is cited; for rings among pools it walks the pools once for each pool.
pub fn is_valid(alloc: Global, tables: &Tables) -> Result<bool, Refusal>
    requires { IsTied (inv_of tables.now) }
    ensures { AnswersBy (λ valid. valid) result (is_valid (inv_of tables.now)) }
{
    let numbered = are_numbered(alloc, tables)?;
    let named = are_named(tables);
    Ok(together(tables, numbered, named, is_small(tables)))
}
