// What a legal change of the stores leaves, as laws. Each stands on a function that does nothing.
ghost use Rattle.std.specs.Prelude.{◌≡◌, ℕ, true, []};
ghost use Rattle.std.specs.Map.{keys_of};
ghost use Rattle.kinds.specs.declared.change.PoolChange.{PoolChange};
ghost use Rattle.inventory_rules.specs.entries.declared.change.Change.TheVariants.{Pool, Reuse};
ghost use Rattle.inventory_rules.specs.inventory_rows.State.{Inv};
ghost use Rattle.inventory_rules.specs.Transactions.{effect, causes, sizes_refused, parts_fit};
ghost use Rattle.inventory_rules.specs.Held.{IsTied};
ghost use Rattle.inventory_rules.specs.Journal.{Journal};
ghost use Rattle.inventory_rules.specs.Valid.{are_apart, is_valid, no_ring};

/// A legal change of device classes, storage pools or volumes leaves a tied database, valid exactly where no chain of next pools comes back to its beginning. Where no
/// two pools have one number none does, and still no two have one. A legal reuse of a volume leaves a valid and tied database.
pub fn stores_stay_valid()
    ensures changes { (j : Journal) (c : PoolChange) (v : Inv) → is_valid v ≡ true → IsTied v → causes j (Pool c) v ≡ [] → sizes_refused (Pool c) v ≡ [] → parts_fit (Pool c) v ≡ true → (is_valid (effect (Pool c) v) ≡ no_ring (effect (Pool c) v)) × IsTied (effect (Pool c) v) }
    ensures rings { (j : Journal) (c : PoolChange) (v : Inv) → is_valid v ≡ true → IsTied v → causes j (Pool c) v ≡ [] → sizes_refused (Pool c) v ≡ [] → parts_fit (Pool c) v ≡ true → are_apart (keys_of v.stores.pools) ≡ true → no_ring (effect (Pool c) v) ≡ true }
    ensures numbers { (c : PoolChange) (v : Inv) → is_valid v ≡ true → are_apart (keys_of v.stores.pools) ≡ true → are_apart (keys_of (effect (Pool c) v).stores.pools) ≡ true }
    ensures reuse { (j : Journal) (file : ℕ) (v : Inv) → is_valid v ≡ true → IsTied v → causes j (Reuse file) v ≡ [] → sizes_refused (Reuse file) v ≡ [] → (is_valid (effect (Reuse file) v) ≡ true) × IsTied (effect (Reuse file) v) }
{}
