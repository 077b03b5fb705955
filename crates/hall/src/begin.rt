//! How a hall is opened.
ghost use Rattle.std.specs.Prelude.{◌≡◌, ◌≤◌, ◌^◌, max, true, IfOk};
ghost use Rattle.store_api.specs.Cause.{NoneFell};
ghost use Rattle.store_api.specs.Told.{Told};
ghost use Rattle.inventory_rules.specs.Held.{IsTied};
ghost use Rattle.inventory_rules.specs.Valid.{is_valid};
ghost use Rattle.vault.specs.Openings.{IsNew};
ghost use Rattle.hall.specs.Opening.{IsNewHall, Opens, OpensFiles, store_of, vault_of};

use crate::hall::Hall;
use crate::parts::Parts;
use entries::Database;
use inventory::Inventory;
use kept_index::KeptIndex;
use kinds::{OpenRefused, Refusal};
use run_past::RunPast;
use space::Space;
use std::alloc::Global;
use std::collections::BTreeMap;
use store_api::Store;
use vault::Vault;

impl Parts {
    /// What a hall holds that begins at this moment over a vault that was opened: no transaction, no ticket and no image. Refused for want of memory alone.
    fn begun(alloc: Global, opened: u64, vault: Vault<Inventory>) -> Result<Parts, Refusal>
        requires { IsNew vault }
        ensures fresh { IfOk result (IsNewHall opened) }
        ensures vault { IfOk result (λ parts. parts.vault ≡ vault) }
        ensures valid { IfOk result (λ parts. is_valid parts.base ≡ true) }
        ensures tied { IfOk result (λ parts. IsTied parts.base) }
    {
        let base = vault.database().copy(alloc)?;
        let next_file = base.tables().next_file;
        let next_object = base.tables().next_object;
        let space = Space::new(alloc, next_file);
        let index = KeptIndex::of(alloc, &vault.database().tables().pools, &space);
        Ok(Parts {
            alloc,
            base,
            opened,
            vault,
            stamps: Vec::new(alloc),
            seats: BTreeMap::new(alloc),
            space,
            index,
            next_object,
            next_ticket: 1,
            image: None,
            past: RunPast::new(alloc),
        })
    }
}

impl<S: Store> Hall<S> {
    /// Opens a hall over the store: its database is the one to which the files recover, after they were made durable, and it begins with no transaction, no ticket and no image. What isn't in
    /// the form that is written is written in it first, as the vault says. Nothing is taken from a store, whatever comes of it: of a sound one each image that a stop might leave meanwhile gives
    /// back a database that one gave back before, with every copy of every object. Refused with `NotFormatted` where no image has an open gate; with `Damaged` and the first finding; with
    /// `ReadFault` only where a call on a file of the vault failed; with `RunFull` only where the moment is, or came to, 2^62 - 2^24; and with `Memory`.
    pub fn open(alloc: Global, store: S) -> Result<Hall<S>, (S, OpenRefused)>
        ensures opens { Opens S.told S.moment_of S.faults_of store result }
        ensures files { Told (S.told store) (S.told (store_of result)) (OpensFiles (vault_of result)) }
        ensures time { S.moment_of (store_of result) ≤ max (S.moment_of store) (2 ^ 62) }
        ensures later { S.moment_of store ≤ S.moment_of (store_of result) }
        ensures counts { NoneFell (S.faults_of store) (S.faults_of (store_of result)) }
    {
        let mut store = store;
        let vault = match Vault::open(alloc, &mut store) {
            Ok(vault) => vault,
            Err(refused) => return Err((store, refused)),
        };
        match Parts::begun(alloc, store.moment(), vault) {
            Ok(parts) => Ok(Hall { store, parts }),
            Err(_) => Err((store, OpenRefused::Memory)),
        }
    }
}
