// What the definitions mean, as laws. Each stands on a function that does nothing.
ghost use Rattle.std.specs.Prelude.{◌≡◌, ◌+◌, ◌≤◌, true, false, nat_le, []};
ghost use Rattle.inventory_rules.specs.entries.declared.change.Change.{Change};
ghost use Rattle.inventory_rules.specs.inventory_rows.Items.{count_items, most_items};
ghost use Rattle.inventory_rules.specs.inventory_rows.State.{Inv};
ghost use Rattle.inventory_rules.specs.Transactions.{effect, causes, brings_items, items_added, items_gone, AreRowsOrdered as IsOrdered, IsOrderedFor};
ghost use Rattle.inventory_rules.specs.Journal.{Journal};
ghost use Rattle.inventory_rules.specs.Valid.{is_valid};

/// After a transaction that brings items there are as many more as it brings, but for those that go; after any other there are no more. So
/// whether a database would be too large is decided by look-ups in the one before. Rows in order are asked of an activation and of new versions alone.
pub fn items_are_counted()
    ensures adds { (j : Journal) (c : Change) (v : Inv) → is_valid v ≡ true → IsOrderedFor c v → causes j c v ≡ [] → brings_items c ≡ true → count_items (effect c v) + items_gone c v ≡ count_items v + items_added c v }
    ensures others { (c : Change) (v : Inv) → is_valid v ≡ true → brings_items c ≡ false → count_items (effect c v) ≤ count_items v }
    ensures fits { (j : Journal) (c : Change) (v : Inv) → is_valid v ≡ true → IsOrderedFor c v → causes j c v ≡ [] → nat_le (count_items (effect c v)) most_items ≡ nat_le (count_items v + items_added c v) (most_items + items_gone c v) }
    ensures ordered { (c : Change) (v : Inv) → IsOrdered v → IsOrderedFor c v }
{}
