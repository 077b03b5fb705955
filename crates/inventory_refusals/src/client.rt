//! Why a change of client nodes and filespaces is refused.

ghost use Rattle.std.specs.Prelude.{◌≡◌};
ghost use Rattle.kinds.specs.Refusals.{foremost};
ghost use Rattle.inventory_rows.specs.State.{inv_of};
ghost use Rattle.inventory_rules.specs.Clients.{client_bounds, client_refused};

use inventory_rows::Tables;
use item_refusals::full_at;
use kinds::{DefineOrDelete, ObjectChange, Refusal, bad_value, sooner_of, unless};

/// The domain of a new node isn't there; a new filespace has another number than the next; or the next number would reach its bound.
#[tactic(auto, using(item_refusals::proofs::Foremost::foremost_append))]
fn bounds_refusal(tables: &Tables, change: &ObjectChange) -> Option<Refusal>
    ensures { result ≡ foremost (client_bounds change.now (inv_of tables.now)) }
{
    match change {
        ObjectChange::Node {
            verb: DefineOrDelete::Define,
            domain,
            ..
        } => {
            let there = tables.domains.rows().contains_key(domain);
            sooner_of(
                unless(there, Refusal::NotFound),
                full_at(tables.next_node, u32::MAX),
            )
        }
        ObjectChange::Filespace {
            verb: DefineOrDelete::Define,
            filespace,
            ..
        } => {
            let next = *filespace == tables.next_filespace;
            sooner_of(
                unless(next, bad_value()),
                full_at(tables.next_filespace, u32::MAX),
            )
        }
        ObjectChange::Node {
            verb: DefineOrDelete::Delete,
            ..
        } => None,
        ObjectChange::Filespace {
            verb: DefineOrDelete::Delete,
            ..
        } => None,
    }
}

/// Why the database refuses a change of client nodes and filespaces: a filespace that is defined under another number than the next one is
/// `BadValue`; what is named and not there is `NotFound`; a name that is taken is `Exists`; a node with filespaces, or a filespace with
/// versions, that is deleted is `InUse` by the least of them; and a next number that would reach its bound is `InventoryFull`. It takes no memory.
#[tactic(auto, using(item_refusals::proofs::Foremost::foremost_append, crate::proofs::Changes::foremost_of_change))]
pub fn client_refused(tables: &Tables, change: &ObjectChange) -> Option<Refusal>
    ensures { result ≡ foremost (client_refused change.now (inv_of tables.now)) }
{
    let rows = tables.objects.refusal(change);
    let bounds = bounds_refusal(tables, change);
    sooner_of(rows, bounds)
}
