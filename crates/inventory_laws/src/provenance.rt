// Where what is kept after a transaction comes from, as laws. Each stands on a function that does nothing.
ghost use Rattle.std.specs.List.{AllByRecursion};
ghost use Rattle.inventory_rules.specs.entries.declared.change.Change.{Change};
ghost use Rattle.inventory_rules.specs.inventory_rows.Search.{versions};
ghost use Rattle.inventory_rules.specs.inventory_rows.State.{Inv};
ghost use Rattle.inventory_rules.specs.Transactions.{effect};
ghost use Rattle.inventory_laws.specs.Origins.{ComesFrom, HasOldOrNew};

/// Whatever the transaction, be it legal or not: each object that is kept afterwards, a version or held, has the number, the size and the digest of one that
/// was kept before, or of one that the transaction brings; and each of its copies is one that the object had, or has the segments of one that the
/// transaction places of it.
pub fn objects_come_from()
    ensures { (c : Change) (v : Inv) → AllByRecursion (ComesFrom c v) (versions (effect c v)) }
{}

/// Whatever the transaction, be it legal or not: each copy of an object that is kept afterwards is one that the object had, placed by the transaction that placed it
/// then, or is placed by this one. So one that isn't there any more, as an earlier transaction placed it, doesn't come back.
pub fn copies_are_placed_once()
    ensures { (c : Change) (v : Inv) → AllByRecursion (HasOldOrNew v) (versions (effect c v)) }
{}
