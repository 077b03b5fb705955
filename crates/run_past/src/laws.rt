// What a run's journal tells with one transaction more, and what a transaction leaves as it was, as laws. Each stands on a function that does nothing.
ghost use Rattle.std.specs.Prelude.{◌≡◌, ℕ, true, false, is_some, List, [], ◌∷◌, ◌++◌, None, Some};
ghost use Rattle.std.specs.BTreeMap.{is_at};
ghost use Rattle.std.specs.List.{list_any};
ghost use Rattle.std.specs.Ordering.{nat_cmp};
ghost use Rattle.entries.specs.declared.change.Change.{Change};
ghost use Rattle.entries.specs.declared.entry.Entry.{Entry};
ghost use Rattle.inventory_rows.specs.version_groups.declared.group.Group.{Group};
ghost use Rattle.inventory_rows.specs.version_groups.declared.versions.Version.{Version};
ghost use Rattle.inventory_rows.specs.Ascending.{AreAscending};
ghost use Rattle.inventory_rows.specs.Search.{group, version};
ghost use Rattle.inventory_rows.specs.State.{Inv};
ghost use Rattle.inventory_rules.specs.Run.{journal_of};
ghost use Rattle.inventory_rules.specs.Journal.{Journal};
ghost use Rattle.inventory_rules.specs.Transactions.{effect, refused};
ghost use Rattle.inventory_rules.specs.Valid.{is_valid};
ghost use Rattle.run_past.specs.Before.{paths, stood};
ghost use Rattle.run_past.specs.Telling.{is_path};
ghost use Rattle.run_past.specs.Told.{behind_all, journal_with};

/// The journal with one entry more tells what the one without it tells, but for what that entry did to the database that it was made on.
pub fn journal_goes_on()
    ensures { (base : Inv) (entries : List Entry) (e : Entry) → journal_of base (entries ++ e ∷ []) ≡ journal_with (behind_all base entries) (effect e.change (behind_all base entries)) (journal_of base entries) }
{}

/// A legal transaction leaves what is kept of each object that isn't among those that it may touch, and empties no path but one of those that it may empty.
pub fn the_rest_stays()
    ensures versions { (j : Journal) (c : Change) (v : Inv) (k : ℕ) (a : Version) → is_valid v ≡ true → AreAscending v → refused j c v ≡ None → version k v ≡ Some a → list_any (λ b. is_at (nat_cmp b.object) k) (stood c v) ≡ false → version k (effect c v) ≡ Some a }
    ensures paths { (j : Journal) (c : Change) (v : Inv) (filespace : ℕ) (path : List ℕ) (g : Group) → is_valid v ≡ true → AreAscending v → refused j c v ≡ None → group filespace path v ≡ Some g → list_any (is_path filespace path) (paths c v) ≡ false → is_some (group filespace path (effect c v)) ≡ true }
{}
