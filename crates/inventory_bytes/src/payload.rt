ghost use Rattle.std.specs.Prelude.{◌≡◌, true, IfOk, IfSome, IfNone};
ghost use Rattle.inventory_rows.specs.State.{Inv, inv_of};
ghost use Rattle.inventory_rules.specs.Held.{IsTied};
ghost use Rattle.fields.specs.Editions.{second_form};
ghost use Rattle.inventory_rows.specs.object_rows.HeldRows.{are_held_rows};
ghost use Rattle.inventory_bytes.specs.Segments.{all_lie};
ghost use Rattle.inventory_bytes.specs.Payload.{payload, unheld, AreSound};

use crate::held_rows::put_held_rows;
use crate::numbers::Numbers;
use crate::parts::{Parts, PartsBy, put_clients, put_stores};
use crate::policy_codecs::DomainRow;
use crate::store_codecs::BackupRow;
use fields::{Formed, InEdition, Memory, Second, put_table, put_u8};
use inventory_rows::policy_domains::PolicyDomain;
use inventory_rows::{Backup, Tables};
use kinds::Name;
use std::alloc::Global;

/// The bytes of the database. The segments on its volumes stand with the copies.
#[tactic(auto, unfolding(crate::specs::Payload::payload, crate::specs::Payload::held_objects))]
pub fn encode(alloc: Global, tables: &Tables) -> Result<Vec<u8>, Memory>
    requires { (payload second_form).Fits (unheld (inv_of tables.now)) }
    ensures { IfOk result (λ bytes. bytes.items ≡ (payload second_form).spell (inv_of tables.now)) }
{
    let mut out = Vec::new(alloc);
    let numbers = Numbers {
        number: tables.number,
        today: tables.today,
        next_node: tables.next_node,
        next_filespace: tables.next_filespace,
        next_pool: tables.next_pool,
        next_file: tables.next_file,
        next_object: tables.next_object,
    };
    put_u8(&mut out, 2)?;
    numbers.write_to(&mut out)?;
    put_table::<Name, PolicyDomain, DomainRow<Second>>(&mut out, tables.domains.rows())?;
    put_clients(
        &mut out,
        tables.objects.nodes(),
        tables.objects.filespaces(),
    )?;
    put_stores(
        &mut out,
        tables.pools.classes(),
        tables.pools.pools(),
        tables.pools.volumes(),
    )?;
    put_table::<u32, Backup, BackupRow<Second>>(&mut out, &tables.backups)?;
    put_held_rows(&mut out, tables.objects.held())?;
    Ok(out)
}

/// The database whose bytes these are in one of the two forms, with the segments of all copies on their volumes; none where they are no
/// database's, or where nodes, filespaces of one node, pools or volumes of one name, two objects of one number, a group without a version, a
/// volume of another kind's name or a segment on a volume that isn't there stand in them.
pub fn decode<E: InEdition>(alloc: Global, bytes: &[u8]) -> Result<Option<Tables>, Memory>
    ensures found { IfOk result (λ o. IfSome o (λ t. (payload E.edition).Fits (unheld (inv_of t)) × (bytes.now ≡ (payload E.edition).spell (inv_of t)))) }
    ensures tied { IfOk result (λ o. IfSome o (λ t. IsTied (inv_of t))) }
    ensures alone { IfOk result (λ o. IfSome o (λ t. (v : Inv) → (payload E.edition).Fits (unheld v) → are_held_rows v.clients.held ≡ true → IsTied v → bytes.now ≡ (payload E.edition).spell v → v ≡ inv_of t)) }
    ensures none { IfOk result (λ o. IfNone o ((v : Inv) → (payload E.edition).Fits (unheld v) → AreSound v → all_lie v ≡ true → bytes.now ≡ (payload E.edition).spell v → ⊥)) }
{
    match fields::decode_by::<Parts, PartsBy<E>>(alloc, bytes)? {
        None => Ok(None),
        Some(parts) => parts.numbered().into_tables(alloc),
    }
}
