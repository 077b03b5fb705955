// What each step of a transaction does, as laws. Each stands on a function that does nothing.
ghost use Rattle.std.specs.Prelude.{◌≡◌, ℕ, ◌+◌, ◌^◌, true, false, not, ◌==◌, ◌||◌, nat_le, nat_lt, is_some, length, map, List, ◌∷◌, ◌++◌, Some};
ghost use Rattle.std.specs.List.{list_all, sum_by};
ghost use Rattle.kinds.specs.declared.segment.Segment.{Segment};
ghost use Rattle.inventory_rules.specs.entries.change_items.declared.items.NewHeldObject.{NewHeldObject};
ghost use Rattle.inventory_rules.specs.entries.change_items.declared.items.NewVersion.{NewVersion};
ghost use Rattle.inventory_rules.specs.entries.change_items.declared.items.ScratchVolume.{ScratchVolume};
ghost use Rattle.inventory_rules.specs.inventory_rows.version_groups.declared.copies.CopyChange.{CopyChange};
ghost use Rattle.inventory_rules.specs.inventory_rows.version_groups.declared.copies.CopyChange.TheVariants.{Add, Replace, Drop};
ghost use Rattle.inventory_rules.specs.inventory_rows.version_groups.declared.copies.CopyRow.{CopyRow};
ghost use Rattle.inventory_rules.specs.inventory_rows.version_groups.declared.group.GroupChange.{GroupChange};
ghost use Rattle.inventory_rules.specs.inventory_rows.version_groups.declared.group.GroupChange.TheVariants.{Gone, Remove, Rebind};
ghost use Rattle.inventory_rules.specs.inventory_rows.version_groups.declared.versions.Version.{Version};
ghost use Rattle.inventory_rules.specs.inventory_rows.version_groups.Copies.{has_copy, without_copy};
ghost use Rattle.inventory_rules.specs.inventory_rows.version_groups.Entries.{is_nil};
ghost use Rattle.inventory_rules.specs.inventory_rows.version_groups.Versions.{has_object};
ghost use Rattle.inventory_rules.specs.inventory_rows.object_rows.declared.place.Place.{Place};
ghost use Rattle.inventory_rules.specs.inventory_rows.object_rows.Filespaces.{filespace_at, versions_at};
ghost use Rattle.inventory_rules.specs.inventory_rows.object_rows.Places.{place_of};
ghost use Rattle.inventory_rules.specs.inventory_rows.object_rows.Rows.{rows_cleared, rows_without};
ghost use Rattle.inventory_rules.specs.inventory_rows.Search.{copies, copy_in, is_primary, pool, version, versions};
ghost use Rattle.inventory_rules.specs.inventory_rows.State.{Inv};
ghost use Rattle.inventory_rules.specs.Common.{each, this};
ghost use Rattle.inventory_rules.specs.Copies.{change_copy, placed_now};
ghost use Rattle.inventory_rules.specs.Segments.{make_scratch, put, take_all, take_away};
ghost use Rattle.inventory_rules.specs.Versions.{change_group, held_too, inserted, is_new_object, is_under};
ghost use Rattle.inventory_rules.specs.Valid.{primary_copies};
ghost use Rattle.inventory_rules.specs.Facts.{Facts};
ghost use Rattle.inventory_rules.specs.Halfway.{VersionFacts};
ghost use Rattle.inventory_rules.specs.Reordered.{IsReordered};
ghost use Rattle.inventory_rules.specs.Ordered.{IsOrdered};
ghost use Rattle.inventory_laws.specs.Kept.{clients_after};
ghost use Rattle.inventory_laws.specs.Volumes.{OnlyVolumes};

/// What becomes of the facts of the objects, and of the list of all copies, where a copy of an object goes, comes, or takes the
/// place of another one.
pub fn copies_change()
    ensures dropped { (n object from : ℕ) (v : Inv) (w : Version) (old : CopyRow) → VersionFacts n v → version object v ≡ Some w → copy_in from w ≡ Some old → nat_le 2 (length w.copies) ≡ true
        → VersionFacts n (change_copy object (Drop from) v) × IsReordered (copies v) ((object, old) ∷ copies (change_copy object (Drop from) v)) }
    ensures added { (n object : ℕ) (v : Inv) (w : Version) (new : CopyRow) → VersionFacts n v → version object v ≡ Some w → is_some (copy_in new.pool w) ≡ false → is_some (pool new.pool v) ≡ true → (sum_by (λ s. s.len) new.segments == w.size) ≡ true
        → (not (is_primary new.pool v) || is_nil (primary_copies v w)) ≡ true → nat_le new.placed n ≡ true
        → VersionFacts n (change_copy object (Add new) v) × IsReordered ((object, new) ∷ copies v) (copies (change_copy object (Add new) v)) }
    ensures replaced { (n object from : ℕ) (v : Inv) (w : Version) (old new : CopyRow) → VersionFacts n v → version object v ≡ Some w → copy_in from w ≡ Some old → is_some (pool new.pool v) ≡ true → (sum_by (λ s. s.len) new.segments == w.size) ≡ true
        → not (has_copy new.pool (without_copy from w.copies)) ≡ true → (not (is_primary new.pool v) || list_all (λ c. c.pool == from) (primary_copies v w)) ≡ true → nat_le new.placed n ≡ true
        → VersionFacts n (change_copy object (Replace from new) v) × IsReordered ((object, new) ∷ copies v) ((object, old) ∷ copies (change_copy object (Replace from new) v)) }
{}

/// The same where an object goes from a path or from wherever it is kept, a version becomes inactive today, or its path is bound to another class.
pub fn groups_change()
    ensures expired { (n filespace object : ℕ) (path : List ℕ) (v : Inv) (old : Version) → VersionFacts n v → version object v ≡ Some old → is_under filespace path object v ≡ true
        → VersionFacts n (clients_after (rows_cleared filespace path object) v) × IsReordered (copies v) (map (λ c. (object, c)) old.copies ++ copies (clients_after (rows_cleared filespace path object) v)) }
    ensures discarded { (n object : ℕ) (v : Inv) (old : Version) → VersionFacts n v → IsOrdered v → version object v ≡ Some old
        → VersionFacts n (clients_after (rows_without object) v) × IsReordered (copies v) (map (λ c. (object, c)) old.copies ++ copies (clients_after (rows_without object) v)) }
    ensures gone { (n filespace object : ℕ) (path : List ℕ) (v : Inv) → VersionFacts n v → VersionFacts n (change_group filespace path (Gone object v.today) v) × (copies (change_group filespace path (Gone object v.today) v) ≡ copies v)
        × (map (λ w. w.object) (versions (change_group filespace path (Gone object v.today) v)) ≡ map (λ w. w.object) (versions v)) }
    ensures rebound { (n filespace : ℕ) (path class : List ℕ) (v : Inv) → VersionFacts n v → VersionFacts n (change_group filespace path (Rebind class) v) × (versions (change_group filespace path (Rebind class) v) ≡ versions v) }
{}

/// The same where a client's file becomes the newest version of its path, or an object is held from now on. Other objects are kept where they were.
pub fn versions_come()
    ensures stored { (n filespace : ℕ) (item : NewVersion) (v : Inv) → VersionFacts n v → IsOrdered v → is_some (filespace_at filespace v.clients.filespaces) ≡ true → is_new_object v item.object ≡ true → is_some (pool item.pool v) ≡ true
        → (sum_by (λ s. s.len) item.segments == item.size) ≡ true → nat_lt (item.object + 1) (2 ^ 62) ≡ true → nat_le (this v) n ≡ true
        → VersionFacts n (inserted filespace item v) × IsReordered ((item.object, placed_now item.pool item.segments v) ∷ copies v) (copies (inserted filespace item v)) }
    ensures held { (n filespace : ℕ) (item : NewHeldObject) (v : Inv) → VersionFacts n v → is_some (filespace_at filespace v.clients.filespaces) ≡ true → is_new_object v item.object ≡ true → is_some (pool item.pool v) ≡ true
        → (sum_by (λ s. s.len) item.segments == item.size) ≡ true → nat_lt (item.object + 1) (2 ^ 62) ≡ true → nat_le (this v) n ≡ true
        → VersionFacts n (held_too filespace item v) × IsReordered ((item.object, placed_now item.pool item.segments v) ∷ copies v) (copies (held_too filespace item v)) }
    ensures others { (filespace other : ℕ) (item : NewVersion) (v : Inv) → IsOrdered v → (item.object == other) ≡ false → has_object other (versions (inserted filespace item v)) ≡ has_object other (versions v) }
    ensures others_held { (n filespace other : ℕ) (item : NewHeldObject) (v : Inv) → VersionFacts n v → is_some (filespace_at filespace v.clients.filespaces) ≡ true → is_new_object v item.object ≡ true → (item.object == other) ≡ false
        → has_object other (versions (held_too filespace item v)) ≡ has_object other (versions v) }
{}

/// What is kept of other objects is as it was, and other versions stand where they stood.
pub fn others_stay()
    ensures copied { (object other : ℕ) (step : CopyChange) (v : Inv) → (other == object) ≡ false → version other (change_copy object step v) ≡ version other v }
    ensures objects { (object : ℕ) (step : CopyChange) (v : Inv) → map (λ w. w.object) (versions (change_copy object step v)) ≡ map (λ w. w.object) (versions v) }
    ensures expired { (n filespace object other : ℕ) (path : List ℕ) (v : Inv) (old : Version) → VersionFacts n v → version object v ≡ Some old → is_under filespace path object v ≡ true → (other == object) ≡ false
        → version other (clients_after (rows_cleared filespace path object) v) ≡ version other v }
    ensures discarded { (n object other : ℕ) (v : Inv) (old : Version) → VersionFacts n v → IsOrdered v → version object v ≡ Some old → (other == object) ≡ false → version other (clients_after (rows_without object) v) ≡ version other v }
    ensures places { (filespace object other : ℕ) (path : List ℕ) (v : Inv) → (other == object) ≡ false → place_of other (change_group filespace path (Remove object) v).clients.filespaces ≡ place_of other v.clients.filespaces }
{}

/// A version of a path stands at the place that is found for its object, and at the place that is found stands the version.
pub fn places_are_found()
    ensures place { (n filespace object : ℕ) (path : List ℕ) (v : Inv) → VersionFacts n v → has_object object (versions_at filespace path v.clients.filespaces) ≡ true → place_of object v.clients.filespaces ≡ Some (record { filespace = filespace; path = path }) }
    ensures path { (n object : ℕ) (v : Inv) (at : Place) → VersionFacts n v → IsOrdered v → place_of object v.clients.filespaces ≡ Some at → has_object object (versions_at at.filespace at.path v.clients.filespaces) ≡ true }
{}

/// The same filespaces are there.
pub fn filespaces_stay()
    ensures copied { (filespace object : ℕ) (step : CopyChange) (v : Inv) → is_some (filespace_at filespace (change_copy object step v).clients.filespaces) ≡ is_some (filespace_at filespace v.clients.filespaces) }
    ensures grouped { (filespace other : ℕ) (path : List ℕ) (step : GroupChange) (v : Inv) → is_some (filespace_at filespace (change_group other path step v).clients.filespaces) ≡ is_some (filespace_at filespace v.clients.filespaces) }
    ensures stored { (filespace other : ℕ) (item : NewVersion) (v : Inv) → is_some (filespace_at filespace (inserted other item v).clients.filespaces) ≡ is_some (filespace_at filespace v.clients.filespaces) }
    ensures held { (filespace other : ℕ) (item : NewHeldObject) (v : Inv) → is_some (filespace_at filespace (held_too other item v).clients.filespaces) ≡ is_some (filespace_at filespace v.clients.filespaces) }
{}

/// How many objects are kept afterwards.
pub fn versions_are_counted()
    ensures copied { (object : ℕ) (step : CopyChange) (v : Inv) → length (versions (change_copy object step v)) ≡ length (versions v) }
    ensures gone { (n filespace object : ℕ) (path : List ℕ) (v : Inv) → VersionFacts n v → length (versions (change_group filespace path (Gone object v.today) v)) ≡ length (versions v) }
    ensures expired { (n filespace object : ℕ) (path : List ℕ) (v : Inv) (old : Version) → VersionFacts n v → version object v ≡ Some old → is_under filespace path object v ≡ true
        → length (versions (clients_after (rows_cleared filespace path object) v)) + 1 ≡ length (versions v) }
    ensures discarded { (n object : ℕ) (v : Inv) (old : Version) → VersionFacts n v → IsOrdered v → version object v ≡ Some old → length (versions (clients_after (rows_without object) v)) + 1 ≡ length (versions v) }
    ensures stored { (filespace : ℕ) (item : NewVersion) (v : Inv) → IsOrdered v → is_some (filespace_at filespace v.clients.filespaces) ≡ true → length (versions (inserted filespace item v)) ≡ length (versions v) + 1 }
    ensures held { (n filespace : ℕ) (item : NewHeldObject) (v : Inv) → VersionFacts n v → is_some (filespace_at filespace v.clients.filespaces) ≡ true → is_new_object v item.object ≡ true → length (versions (held_too filespace item v)) ≡ length (versions v) + 1 }
{}

/// A valid database has the facts of the objects; they stay where a later transaction may have placed copies, and where other parts
/// change than those that they speak of.
pub fn facts_of_versions()
    ensures valid { (v : Inv) → Facts v → VersionFacts v.number v }
    ensures later { (n m : ℕ) (v : Inv) → nat_le n m ≡ true → VersionFacts n v → VersionFacts m v }
    ensures elsewhere { (n : ℕ) (v w : Inv) → w.clients ≡ v.clients → w.next_filespace ≡ v.next_filespace → w.next_object ≡ v.next_object → w.stores.pools ≡ v.stores.pools → w.today ≡ v.today → VersionFacts n v → VersionFacts n w }
    ensures ordered { (v w : Inv) → w.clients ≡ v.clients → IsOrdered v → IsOrdered w }
{}

/// Segments that come on their volumes or go from them, and scratch volumes that are made, leave the rest as it was, and so the facts of
/// the objects.
pub fn volumes_alone()
    ensures put { (object : ℕ) (segments : List Segment) (v : Inv) → OnlyVolumes v (put object segments v) }
    ensures taken { (object : ℕ) (segments : List Segment) (v : Inv) → OnlyVolumes v (take_away object segments v) }
    ensures all_taken { (object : ℕ) (copies : List CopyRow) (v : Inv) → OnlyVolumes v (take_all object copies v) }
    ensures scratch { (scratch : List ScratchVolume) (v : Inv) → OnlyVolumes v (each make_scratch scratch v) }
    ensures facts { (n : ℕ) (v w : Inv) → OnlyVolumes v w → VersionFacts n v → VersionFacts n w }
{}

/// Rows that stand in the order of their keys stay so.
pub fn order_stays()
    ensures copied { (object : ℕ) (step : CopyChange) (v : Inv) → IsOrdered v → IsOrdered (change_copy object step v) }
    ensures grouped { (filespace : ℕ) (path : List ℕ) (step : GroupChange) (v : Inv) → IsOrdered v → IsOrdered (change_group filespace path step v) }
    ensures expired { (n filespace object : ℕ) (path : List ℕ) (v : Inv) (old : Version) → VersionFacts n v → version object v ≡ Some old → is_under filespace path object v ≡ true → IsOrdered v → IsOrdered (clients_after (rows_cleared filespace path object) v) }
    ensures discarded { (n object : ℕ) (v : Inv) (old : Version) → VersionFacts n v → version object v ≡ Some old → IsOrdered v → IsOrdered (clients_after (rows_without object) v) }
    ensures stored { (filespace : ℕ) (item : NewVersion) (v : Inv) → IsOrdered v → IsOrdered (inserted filespace item v) }
    ensures held { (filespace : ℕ) (item : NewHeldObject) (v : Inv) → IsOrdered v → IsOrdered (held_too filespace item v) }
{}
