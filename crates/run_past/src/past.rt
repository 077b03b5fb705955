//! What the transactions of a run tell.
ghost use Rattle.std.specs.Prelude.{◌≡◌, IfOk, IfErr};
ghost use Rattle.kinds.specs.declared.refusal.Refusal.TheVariants.{Memory};
ghost use Rattle.entries.specs.declared.change.Change.{Change};
ghost use Rattle.inventory_rows.specs.State.{Inv, inv_of};
ghost use Rattle.inventory_rules.specs.Journal.{no_journal};
ghost use Rattle.run_past.specs.Before.{HasRoom, IsBefore};
ghost use Rattle.run_past.specs.Telling.{Follows};
ghost use Rattle.run_past.specs.Told.{journal_from, journal_with};

use crate::emptied::{self, Emptied};
use crate::prepared::{Prepared, before};
use crate::{ledger, rooms, telling};
use entries::Change;
use inventory_rows::Tables;
use item_refusals::Past;
use kinds::{Path, Refusal};
use std::alloc::Global;
use std::collections::BTreeMap;
use std::marker::Model;

/// What the transactions of a run tell: the last one that removed an object, changed it, changed its copy in a pool, or emptied a path. Whoever makes a transaction calls `prepare` before
/// it, and `note` behind it.
#[derive(Drop)]
pub struct RunPast {
    alloc: Global,
    removed: BTreeMap<u64, Option<u64>>,
    changed: BTreeMap<u64, Option<u64>>,
    copies: BTreeMap<(u64, u32), Option<u64>>,
    emptied: BTreeMap<u32, Emptied>,
}

impl Model for RunPast {
    ghost use Rattle.run_past.specs.Told.{Told};

    ghost Value = { Told };

    ghost view = { λ p. record { removed = p.removed.entries; changed = p.changed.entries; copies = p.copies.entries; emptied = p.emptied.entries } };
}

impl Past for RunPast {
    ghost use Rattle.run_past.specs.Told.{journal_from};

    ghost journal = { journal_from };

    fn removed(&self, object: u64) -> Option<u64> {
        ledger::told(&self.removed, &object)
    }

    fn changed(&self, object: u64) -> Option<u64> {
        ledger::told(&self.changed, &object)
    }

    fn copy_changed(&self, object: u64, pool: u32) -> Option<u64> {
        ledger::told(&self.copies, &(object, pool))
    }

    fn path_emptied(&self, filespace: u32, path: &Path) -> Option<u64> {
        emptied::told(&self.emptied, filespace, path)
    }
}

impl RunPast {
    /// Of a run without transactions. It takes no memory.
    pub fn new(alloc: Global) -> Self
        ensures { journal_from result ≡ no_journal }
    {
        RunPast {
            alloc,
            removed: BTreeMap::new(alloc),
            changed: BTreeMap::new(alloc),
            copies: BTreeMap::new(alloc),
            emptied: BTreeMap::new(alloc),
        }
    }

    /// Before a transaction with this change is made of the rows: what stands of that which it may touch, with all memory that telling of it will want. Refused only for want of memory. What
    /// is told stays the same, whatever comes of it. One that discards objects walks the versions of the filespaces in which these are kept, since an object's path isn't found by its number; any other looks up what its items name.
    pub fn prepare(&mut self, tables: &Tables, change: &Change) -> Result<Prepared, Refusal>
        ensures before { IfOk result (λ p. IsBefore change.now (inv_of tables.now) p) }
        ensures room { IfOk result (λ p. HasRoom p self.new) }
        ensures same { journal_from self.new ≡ journal_from self.old }
        ensures memory { IfErr result (λ e. e ≡ Memory) }
    {
        let prepared = before(self.alloc, tables, change)?;
        rooms::for_objects(&mut self.removed, &prepared.versions)?;
        rooms::for_objects(&mut self.changed, &prepared.versions)?;
        rooms::for_copies(&mut self.copies, &prepared.versions)?;
        rooms::for_paths(self.alloc, &mut self.emptied, &prepared.paths)?;
        Ok(prepared)
    }

    /// Behind the transaction that was prepared, over the rows that it left: it is told of all that it removed, changed and emptied, by its number. It takes no memory.
    pub fn note(&mut self, prepared: Prepared, tables: &Tables)
        requires { HasRoom prepared self.old }
        ensures { (c : Change) (v : Inv) → IsBefore c v prepared → Follows c v (inv_of tables.now) → journal_from self.new ≡ journal_with v (inv_of tables.now) (journal_from self.old) }
    {
        let number = tables.number;
        let versions = prepared.versions.as_slice();
        telling::tell_removed(&mut self.removed, versions, tables, number);
        telling::tell_changed(&mut self.changed, versions, tables, number);
        telling::tell_copies(&mut self.copies, versions, tables, number);
        telling::tell_emptied(&mut self.emptied, prepared.paths.as_slice(), tables, number);
    }
}
