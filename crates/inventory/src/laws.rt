// What the definitions mean, as laws. Each stands on a function that does nothing.
ghost use Rattle.std.specs.Prelude.{◌≡◌, true, None};
ghost use Rattle.entries.specs.declared.change.Change.{Change};
ghost use Rattle.inventory_rows.specs.State.{Inv};
ghost use Rattle.inventory_rules.specs.Transactions.{effect, refused, IsDayOf};
ghost use Rattle.inventory_rules.specs.Held.{IsTied};
ghost use Rattle.inventory_rules.specs.Journal.{Journal};
ghost use Rattle.inventory_rules.specs.Valid.{is_valid};
ghost use Rattle.inventory_rows.specs.Ascending.{AreAscending};
ghost use Rattle.inventory.specs.Legal.{tested};

/// The tests that are made before a transaction refuse what the rules refuse, by the same refusal, so they never look at the database that it
/// would leave. The rows have to ascend, as those of all tables do, and a day has to be one of the calendar.
pub fn tests_are_the_rules()
    ensures { (j : Journal) (c : Change) (v : Inv) → is_valid v ≡ true → IsTied v → AreAscending v → IsDayOf c → tested j c v ≡ refused j c v }
{}

/// A transaction that isn't refused leaves a valid database, whose volumes hold the segments of the copies that lie on them. The rows have to
/// ascend, as those of all tables do.
pub fn legal_leaves_valid()
    ensures valid { (j : Journal) (c : Change) (v : Inv) → is_valid v ≡ true → IsTied v → AreAscending v → IsDayOf c → refused j c v ≡ None → is_valid (effect c v) ≡ true }
    ensures tied { (j : Journal) (c : Change) (v : Inv) → is_valid v ≡ true → IsTied v → AreAscending v → IsDayOf c → refused j c v ≡ None → IsTied (effect c v) }
{}
