// What the definitions mean, as laws. Each stands on a function that does nothing.
ghost use Rattle.std.specs.Prelude.{◌≡◌, true, []};
ghost use Rattle.inventory_rules.specs.entries.declared.change.Change.{Change};
ghost use Rattle.inventory_rules.specs.inventory_rows.object_rows.Places.{AreAllOrderly};
ghost use Rattle.inventory_rules.specs.inventory_rows.State.{Inv};
ghost use Rattle.inventory_rules.specs.Transactions.{CanMake, parts_fit, causes};
ghost use Rattle.inventory_rules.specs.Facts.{Facts};
ghost use Rattle.inventory_rules.specs.Journal.{Journal};

/// Every transaction that isn't refused, and whose parts fit, can be made: its change, and the number behind the last one. The paths of each
/// filespace have to ascend, and each group to have a version.
pub fn legal_can_be_made()
    ensures { (j : Journal) (c : Change) (v : Inv) → Facts v → AreAllOrderly v.clients.filespaces → causes j c v ≡ [] → parts_fit c v ≡ true → CanMake c v }
{}
