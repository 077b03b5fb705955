// What a legal transaction leaves, and that what leaves a valid database is legal, as laws. Each stands on a function that does nothing.
ghost use Rattle.std.specs.Prelude.{◌≡◌, true, []};
ghost use Rattle.std.specs.Map.{keys_of};
ghost use Rattle.inventory_rules.specs.entries.declared.change.Change.{Change};
ghost use Rattle.inventory_rules.specs.inventory_rows.State.{Inv};
ghost use Rattle.inventory_rules.specs.Transactions.{effect, causes, sizes_refused, parts_fit, IsDayOf};
ghost use Rattle.inventory_rules.specs.Held.{IsTied};
ghost use Rattle.inventory_rules.specs.Journal.{Journal};
ghost use Rattle.inventory_rules.specs.Valid.{are_apart, is_valid};
ghost use Rattle.inventory_rules.specs.Ordered.{IsOrdered};

/// Every transaction that no cause refuses, for which there is room, and whose parts fit leaves a valid database whose volumes' rows hold the
/// segments of its copies. The rows of the filespaces have to stand in order, and no two pools may have one number, as in all tables; and a
/// day has to be one of the calendar.
pub fn legal_stays_valid()
    ensures { (j : Journal) (c : Change) (v : Inv) → is_valid v ≡ true → IsTied v → IsOrdered v → are_apart (keys_of v.stores.pools) ≡ true → IsDayOf c → causes j c v ≡ [] → sizes_refused c v ≡ [] → parts_fit c v ≡ true → (is_valid (effect c v) ≡ true) × IsTied (effect c v) }
{}

/// What a transaction that no cause refuses brings fits where the database afterwards is valid. So the tests of what it brings, made on the
/// database before it, are no stronger than validity asks.
pub fn valid_means_fitting()
    ensures { (j : Journal) (c : Change) (v : Inv) → is_valid v ≡ true → IsTied v → IsOrdered v → are_apart (keys_of v.stores.pools) ≡ true → causes j c v ≡ [] → is_valid (effect c v) ≡ true → parts_fit c v ≡ true }
{}
