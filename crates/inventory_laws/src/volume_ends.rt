// What only rises from one transaction to the next, as laws. Each stands on a function that does nothing.
ghost use Rattle.std.specs.Prelude.{◌≡◌, ℕ, ◌+◌, ◌≤◌, true, false, [], Some};
ghost use Rattle.std.specs.List.{AllByRecursion};
ghost use Rattle.inventory_rules.specs.entries.declared.change.Change.{Change};
ghost use Rattle.inventory_rules.specs.inventory_rows.volume_rows.declared.volume.Volume.{Volume};
ghost use Rattle.inventory_rules.specs.inventory_rows.pool_tables.Rows.{row_at};
ghost use Rattle.inventory_rules.specs.inventory_rows.pool_rows.PoolRows.{is_sequential};
ghost use Rattle.inventory_rules.specs.inventory_rows.Search.{segments_on};
ghost use Rattle.inventory_rules.specs.inventory_rows.State.{Inv};
ghost use Rattle.inventory_rules.specs.Journal.{Journal};
ghost use Rattle.inventory_rules.specs.Transactions.{causes, effect};
ghost use Rattle.inventory_rules.specs.Valid.{is_valid};
ghost use Rattle.inventory_laws.specs.Rising.{is_reuse, DrawsOn, EndsLater};

/// A volume that is there before and after a transaction that no cause refuses, other than its reuse, lies in the same pool and ends no earlier. In a valid
/// database each segment on a sequential volume ends at or below the volume's end; so what was written behind the end lies beside each segment that any
/// transaction brings, as long as the volume isn't reused.
pub fn volumes_end_later()
    ensures later { (j : Journal) (c : Change) (v : Inv) (file : ℕ) (old new : Volume) → is_valid v ≡ true → causes j c v ≡ [] → is_reuse file c ≡ false
        → row_at file v.stores.volumes ≡ Some old → row_at file (effect c v).stores.volumes ≡ Some new → EndsLater old new }
    ensures below { (v : Inv) (file : ℕ) (volume : Volume) → is_valid v ≡ true → row_at file v.stores.volumes ≡ Some volume → is_sequential volume.pool v.stores ≡ true
        → AllByRecursion (λ e. e.1.offset + 32 + e.1.len ≤ volume.end) (segments_on file v) }
{}

/// Whether a pool that has a volume is sequential isn't changed by any transaction.
pub fn pools_stay_sequential()
    ensures { (c : Change) (v : Inv) (file : ℕ) (volume : Volume) → is_valid v ≡ true → row_at file v.stores.volumes ≡ Some volume
        → is_sequential volume.pool (effect c v).stores ≡ is_sequential volume.pool v.stores }
{}

/// The numbers of nodes, filespaces, pools, files and objects that are drawn next never fall, whatever the transaction.
pub fn numbers_never_fall()
    ensures { (c : Change) (v : Inv) → DrawsOn v (effect c v) }
{}
