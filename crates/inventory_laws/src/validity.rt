// What the definitions mean, as laws. Each stands on a function that does nothing.
ghost use Rattle.std.specs.Prelude.{◌≡◌, true};
ghost use Rattle.inventory_rules.specs.inventory_rows.State.{Inv};
ghost use Rattle.inventory_rules.specs.Valid.{is_valid};
ghost use Rattle.inventory_rules.specs.Facts.{Facts};

/// A database is valid exactly where each of the facts holds.
pub fn valid_is_facts()
    ensures facts { (v : Inv) → is_valid v ≡ true → Facts v }
    ensures valid { (v : Inv) → Facts v → is_valid v ≡ true }
{}
