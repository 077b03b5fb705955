//! How the index follows the change of one volume.
ghost use Rattle.std.specs.Prelude.{◌≡◌, ℕ, not, Some, None, OnOk};
ghost use Rattle.std.specs.List.{list_all};
ghost use Rattle.pool_tables.specs.Rows.{row_at};
ghost use Rattle.pool_rows.specs.PoolRows.{PoolRows};
ghost use Rattle.space.specs.Claims.{Claims};
ghost use Rattle.space.specs.Volumes.{is_held};
ghost use Rattle.space_index.specs.Tails.{IsIndexOf};
ghost use Rattle.space_index.specs.Updates.{ChangesAt, IsAccessOf};

use kinds::Access;
use pool_rows::Pools;
use space::{Space, is_held};
use space_index::{Index, Lost};

/// No ticket holds space on the volume.
fn no_ticket_there(space: &Space, file: u32) -> bool
    ensures { result ≡ list_all (λ t. not (is_held file t.1.places)) space.now.tickets }
{
    'tickets: for (_, claim) in space.tickets() {
        if is_held(file, claim.places.as_slice()) {
            return false;
        }
    }
    true
}

/// No transaction that isn't forced yet took a segment from the volume.
fn none_freed_there(space: &Space, file: u32) -> bool
    ensures { result ≡ list_all (λ f. not (is_held file f.1)) space.now.freed }
{
    'freed: for (_, places) in space.freed() {
        if is_held(file, places.as_slice()) {
            return false;
        }
    }
    true
}

/// A volume was defined. It takes time for its blocks, and for all that is held, since nothing is to be held on it.
pub fn define_volume(index: &mut Index, pools: &Pools, space: &Space, file: u32) -> Result<(), Lost>
    ensures { (s : PoolRows) → IsIndexOf index.old s space.now → ChangesAt file s pools.now → row_at file s.volumes ≡ None → OnOk result (IsIndexOf index.new pools.now space.now) }
{
    let volume = match pools.volumes().get(&file) {
        Some(volume) => volume,
        None => return Err(Lost::Kind),
    };
    if pools.is_sequential(volume.pool) {
        index.set_sequential_volume(pools, file)?;
        return Ok(());
    }
    if !(no_ticket_there(space, file) & none_freed_there(space, file)) {
        return Err(Lost::Kind);
    }
    index.add_volume(pools, file, volume)?;
    Ok(())
}

/// The access of the volume that was named changed.
pub fn set_access(
    index: &mut Index,
    pools: &Pools,
    named: Option<u32>,
    access: &Access,
) -> Result<(), Lost>
    ensures { (s : PoolRows) (c : Claims) (file : ℕ) → named ≡ Some file → IsIndexOf index.old s c → ChangesAt file s pools.now → IsAccessOf access.now (row_at file s.volumes) (row_at file pools.now.volumes) → OnOk result (IsIndexOf index.new pools.now c) }
{
    let Some(at) = named else {
        return Err(Lost::Kind);
    };
    index.set_volume_access(pools, at, access)?;
    Ok(())
}

/// The volume that was named went.
pub fn delete_volume(index: &mut Index, pools: &Pools, named: Option<u32>) -> Result<(), Lost>
    ensures { (s : PoolRows) (c : Claims) (file : ℕ) → named ≡ Some file → IsIndexOf index.old s c → ChangesAt file s pools.now → row_at file pools.now.volumes ≡ None → OnOk result (IsIndexOf index.new pools.now c) }
{
    let Some(at) = named else {
        return Err(Lost::Kind);
    };
    index.remove_volume(pools, at)?;
    Ok(())
}
