// What the definitions mean, as laws. Each stands on a function that does nothing.
ghost use Rattle.std.specs.Prelude.{◌≡◌, ℕ, ◌+◌, ◌-◌, ◌^◌, max, Bool, true, nat_lt, nat_le, is_some, List, [], ◌∷◌, ◌++◌, map, Some, Result};
ghost use Rattle.std.specs.List.{list_all, flat_map};
ghost use Rattle.kinds.specs.declared.refusal.Refusal.{Refusal};
ghost use Rattle.kinds.specs.declared.segment.Segment.{Segment};
ghost use Rattle.inventory_rules.specs.entries.change_items.declared.items.DroppedCopy.{DroppedCopy};
ghost use Rattle.inventory_rules.specs.entries.change_items.declared.items.MovedCopy.{MovedCopy};
ghost use Rattle.inventory_rules.specs.entries.change_items.declared.items.NewCopy.{NewCopy};
ghost use Rattle.inventory_rules.specs.entries.change_items.declared.items.NewHeldObject.{NewHeldObject};
ghost use Rattle.inventory_rules.specs.entries.change_items.declared.items.NewVersion.{NewVersion};
ghost use Rattle.inventory_rules.specs.entries.change_items.declared.items.ScratchVolume.{ScratchVolume};
ghost use Rattle.inventory_rules.specs.entries.declared.change.Change.{Change};
ghost use Rattle.inventory_rules.specs.inventory_rows.version_groups.declared.copies.CopyRow.{CopyRow};
ghost use Rattle.inventory_rules.specs.inventory_rows.version_groups.declared.versions.Version.{Version};
ghost use Rattle.inventory_rules.specs.inventory_rows.volume_rows.declared.volume.Volume.{Volume};
ghost use Rattle.inventory_rules.specs.inventory_rows.volume_rows.Held.{held_of};
ghost use Rattle.inventory_rules.specs.inventory_rows.volume_rows.Volumes.{put_on, take_from};
ghost use Rattle.inventory_rules.specs.inventory_rows.object_rows.Rows.{Rows};
ghost use Rattle.inventory_rules.specs.inventory_rows.pool_tables.Rows.{row_at};
ghost use Rattle.inventory_rules.specs.inventory_rows.pool_rows.PoolRows.{is_sequential, is_sequential_at};
ghost use Rattle.inventory_rules.specs.inventory_rows.Search.{copies, copy_in, pool, version, versions};
ghost use Rattle.inventory_rules.specs.inventory_rows.State.{Inv};
ghost use Rattle.inventory_rules.specs.Common.{each, is_free_file};
ghost use Rattle.inventory_rules.specs.Copies.{added, add_copy, change_copy, drop_copy, dropped, move_copy, moved, placed_now, put_moved, moved_copy_fits, new_copy_fits};
ghost use Rattle.inventory_rules.specs.Segments.{make_scratch, put, take_all, take_away, scratch_refused, are_all_clear, are_clear, items_fit, lies_rightly, scratch_fits};
ghost use Rattle.inventory_rules.specs.Transactions.{changed, effect, sizes_refused, is_of_data};
ghost use Rattle.inventory_rules.specs.Versions.{back_up, held_too, hold, inserted, new_held_fits, new_version_fits, take_versions};
ghost use Rattle.inventory_rules.specs.Held.{holding, IsTied};
ghost use Rattle.inventory_rules.specs.Valid.{are_disjoint, copies_cite, is_valid, volumes_are};
ghost use Rattle.inventory_rules.specs.Facts.{Facts};
ghost use Rattle.inventory_rules.specs.Halfway.{is_volume_with, lying, segments_of, VersionFacts, VolumeFacts};
ghost use Rattle.inventory_rules.specs.Reordered.{IsReordered};
ghost use Rattle.inventory_laws.specs.Coming.{Came, in_pool, in_pools, MayCome, of_object};
ghost use Rattle.inventory_laws.specs.Kept.{clients_after, is_cited, OnlyVolumes};
ghost use Rattle.inventory_laws.specs.Steady.{IsSteady};

/// Segments in another order are the same segments: they pass the same tests, are as disjoint, and a volume's row holds the same of them.
pub fn order_is_free()
    ensures itself { (xs : List (ℕ × Segment)) → IsReordered xs xs }
    ensures back { (xs ys : List (ℕ × Segment)) → IsReordered xs ys → IsReordered ys xs }
    ensures then { (xs ys zs : List (ℕ × Segment)) → IsReordered xs ys → IsReordered ys zs → IsReordered xs zs }
    ensures behind { (xs ys zs : List (ℕ × Segment)) → IsReordered xs ys → IsReordered (zs ++ xs) (zs ++ ys) }
    ensures before { (xs ys zs : List (ℕ × Segment)) → IsReordered xs ys → IsReordered (xs ++ zs) (ys ++ zs) }
    ensures swap { (xs ys : List (ℕ × Segment)) → IsReordered (xs ++ ys) (ys ++ xs) }
    ensures segments { (a b : List (ℕ × CopyRow)) → IsReordered a b → IsReordered (segments_of a) (segments_of b) }
    ensures disjoint { (sequential : Bool) (xs ys : List (ℕ × Segment)) → IsReordered xs ys → are_disjoint sequential xs ≡ are_disjoint sequential ys }
    ensures held { (xs ys : List (ℕ × Segment)) → IsReordered xs ys → holding xs ≡ holding ys }
{}

/// A volume that is what it has to be with the segments on it is so with one more that lies rightly and is clear of the others, once it is put
/// there; and with one less, once that is taken away. Its row then holds the segments that lie there.
pub fn volume_stays()
    ensures put { (v : Inv) (there : List (ℕ × Segment)) (f : ℕ × Volume) (object : ℕ) (s : Segment) → is_volume_with v there f ≡ true → lies_rightly (is_sequential f.1.pool v.stores) f.1.pool s (Some f.1) ≡ true → list_all (λ e. are_clear (is_sequential f.1.pool v.stores) s e.1) there ≡ true → is_volume_with v ((object, s) ∷ there) (f.0, put_on (is_sequential f.1.pool v.stores) (held_of object s) f.1) ≡ true }
    ensures put_held { (there : List (ℕ × Segment)) (sequential : Bool) (object : ℕ) (s : Segment) (volume : Volume) → volume.segments ≡ holding there → (put_on sequential (held_of object s) volume).segments ≡ holding ((object, s) ∷ there) }
    ensures take { (v : Inv) (there : List (ℕ × Segment)) (f : ℕ × Volume) (object : ℕ) (s : Segment) (today : ℕ) → is_volume_with v ((object, s) ∷ there) f ≡ true → f.1.segments ≡ holding ((object, s) ∷ there) → is_volume_with v there (f.0, take_from (is_sequential f.1.pool v.stores) (held_of object s) today f.1) ≡ true }
    ensures take_held { (there : List (ℕ × Segment)) (sequential : Bool) (object : ℕ) (s : Segment) (today : ℕ) (volume : Volume) → volume.segments ≡ holding ((object, s) ∷ there) → (take_from sequential (held_of object s) today volume).segments ≡ holding there }
{}

/// Within a transaction the facts of the volumes are kept: pending segments may stand in any order; a segment that lies rightly and is clear
/// of what lies there comes and is pending, and so do the segments of a copy; pending segments go.
pub fn segments_keep_facts()
    ensures reorder { (p q : List (ℕ × Segment)) (v : Inv) → VolumeFacts p v → IsReordered p q → VolumeFacts q v }
    ensures put { (p : List (ℕ × Segment)) (v : Inv) (object n : ℕ) (s : Segment) → VolumeFacts p v → lies_rightly (is_sequential_at s.file v.stores) n s (row_at s.file v.stores.volumes) ≡ true → list_all (λ e. are_clear (is_sequential_at s.file v.stores) s e.1) (lying p s.file v) ≡ true → VolumeFacts ((object, s) ∷ p) (put object (s ∷ []) v) }
    ensures put_all { (p : List (ℕ × Segment)) (object n : ℕ) (segments : List Segment) (v : Inv) → VolumeFacts p v → list_all (λ s. lies_rightly (is_sequential_at s.file v.stores) n s (row_at s.file v.stores.volumes)) segments ≡ true → list_all (λ s. list_all (λ e. are_clear (is_sequential_at s.file v.stores) s e.1) (lying p s.file v)) segments ≡ true → are_all_clear v segments ≡ true → VolumeFacts (map (λ s. (object, s)) segments ++ p) (put object segments v) }
    ensures take { (p : List (ℕ × Segment)) (v : Inv) (object : ℕ) (s : Segment) → VolumeFacts ((object, s) ∷ p) v → VolumeFacts p (take_away object (s ∷ []) v) }
    ensures take_list { (p : List (ℕ × Segment)) (object : ℕ) (segments : List Segment) (v : Inv) → VolumeFacts (map (λ s. (object, s)) segments ++ p) v → VolumeFacts p (take_away object segments v) }
    ensures take_copies { (p : List (ℕ × Segment)) (object : ℕ) (copies : List CopyRow) (v : Inv) → VolumeFacts (segments_of (map (λ c. (object, c)) copies) ++ p) v → VolumeFacts p (take_all object copies v) }
{}

/// Where copies come into the rows, and others go from them, while the volumes stay, the segments of the former are pending no longer and those
/// of the latter are now.
pub fn copies_come_and_go()
    ensures { (a b : List (ℕ × CopyRow)) (p : List (ℕ × Segment)) (v w : Inv) → w.stores ≡ v.stores → w.backups ≡ v.backups → w.next_file ≡ v.next_file → w.today ≡ v.today → IsReordered (a ++ copies v) (b ++ copies w) → VolumeFacts (segments_of a ++ p) v → VolumeFacts (segments_of b ++ p) w }
{}

/// A scratch volume is made for a sequential pool, under a number that is free and on which nothing lies.
pub fn scratch_keeps_facts()
    ensures made { (p : List (ℕ × Segment)) (s : ScratchVolume) (v : Inv) → VolumeFacts p v → is_free_file v s.file ≡ true → is_sequential s.pool v.stores ≡ true → nat_lt (max v.next_file (s.file + 1)) (2 ^ 32 - 1) ≡ true → lying p s.file v ≡ [] → VolumeFacts p (make_scratch s v) }
    ensures each { (n : ℕ) (scratch : List ScratchVolume) (v : Inv) → scratch_refused scratch v ≡ [] → scratch_fits v scratch ≡ true → IsSteady n [] v → IsSteady n [] (each make_scratch scratch v) }
    ensures others { (s : ScratchVolume) (v : Inv) (file : ℕ) (volume : Volume) → is_free_file v s.file ≡ true → row_at file v.stores.volumes ≡ Some volume → row_at file (make_scratch s v).stores.volumes ≡ Some volume }
    ensures sequential { (s : ScratchVolume) (v : Inv) (n : ℕ) → is_sequential n (make_scratch s v).stores ≡ is_sequential n v.stores }
    ensures clients { (s : ScratchVolume) (v : Inv) → (make_scratch s v).clients ≡ v.clients }
{}

/// The facts of the volumes where nothing is pending: a valid database that is tied has them, and they give what is said of its volumes.
pub fn facts_begin_and_end()
    ensures begin { (v : Inv) → Facts v → IsTied v → VolumeFacts [] v }
    ensures volumes { (v : Inv) → VolumeFacts [] v → volumes_are v ≡ true }
    ensures tied { (v : Inv) → VolumeFacts [] v → IsTied v }
{}

/// Segments that come and go change nothing but the rows of volumes, and of these neither which there are, nor their pools and capacities.
pub fn volumes_alone_change()
    ensures put { (object : ℕ) (segments : List Segment) (v : Inv) → OnlyVolumes v (put object segments v) }
    ensures take { (object : ℕ) (segments : List Segment) (v : Inv) → OnlyVolumes v (take_away object segments v) }
    ensures take_all { (object : ℕ) (copies : List CopyRow) (v : Inv) → OnlyVolumes v (take_all object copies v) }
    ensures sequential { (v w : Inv) → OnlyVolumes v w → (file : ℕ) → is_sequential_at file w.stores ≡ is_sequential_at file v.stores }
    ensures lies { (v w : Inv) → OnlyVolumes v w → (n : ℕ) (s : Segment) → lies_rightly (is_sequential_at s.file w.stores) n s (row_at s.file w.stores.volumes) ≡ lies_rightly (is_sequential_at s.file v.stores) n s (row_at s.file v.stores.volumes) }
{}

/// Segments that fit where they are to come, as a transaction's parts have to, may come; so may those that are left once others came, and once
/// copies came into the rows or went from them.
pub fn segments_may_come()
    ensures new_versions { (items : List NewVersion) (v : Inv) → items_fit new_version_fits (λ i. i.segments) items v ≡ true → MayCome [] v (in_pools (λ i. i.pool) (λ i. i.segments) items) }
    ensures new_held { (items : List NewHeldObject) (v : Inv) → items_fit new_held_fits (λ i. i.segments) items v ≡ true → MayCome [] v (in_pools (λ i. i.pool) (λ i. i.segments) items) }
    ensures new_copies { (items : List NewCopy) (v : Inv) → items_fit new_copy_fits (λ i. i.segments) items v ≡ true → MayCome [] v (in_pools (λ i. i.pool) (λ i. i.segments) items) }
    ensures moved { (items : List MovedCopy) (v : Inv) → items_fit (moved_copy_fits []) (λ i. i.segments) items v ≡ true → MayCome [] v (in_pools (λ i. i.pool) (λ i. i.segments) items) }
    ensures put { (p : List (ℕ × Segment)) (object n : ℕ) (segments : List Segment) (v : Inv) (rest : List (ℕ × Segment)) → VolumeFacts p v → MayCome p v (in_pool n segments ++ rest) → Came (of_object object segments ++ p) (put object segments v) rest }
    ensures put_moved { (p : List (ℕ × Segment)) (items : List MovedCopy) (v : Inv) (rest : List (ℕ × Segment)) → VolumeFacts p v → MayCome p v (in_pools (λ i. i.pool) (λ i. i.segments) items ++ rest) → Came (flat_map (λ i. of_object i.object i.segments) items ++ p) (each put_moved items v) rest }
    ensures swap { (a b : List (ℕ × CopyRow)) (p : List (ℕ × Segment)) (v w : Inv) (rest : List (ℕ × Segment)) → w.stores ≡ v.stores → IsReordered (a ++ copies v) (b ++ copies w) → MayCome (segments_of a ++ p) v rest → MayCome (segments_of b ++ p) w rest }
{}

/// Each copy lies on volumes of its pool, however its segments, those of others and scratch volumes come and go.
pub fn copies_stay_cited()
    ensures volumes { (v w : Inv) → OnlyVolumes v w → copies_cite w ≡ copies_cite v }
    ensures pending { (v w : Inv) → OnlyVolumes v w → (e : ℕ × CopyRow) → is_cited w e ≡ is_cited v e }
    ensures swap { (a b : List (ℕ × CopyRow)) (v w : Inv) → w.stores ≡ v.stores → IsReordered (a ++ copies v) (b ++ copies w) → list_all (is_cited v) a ≡ true → copies_cite v ≡ true → (list_all (is_cited w) b ≡ true) × (copies_cite w ≡ true) }
    ensures new { (v : Inv) (object : ℕ) (row : CopyRow) → is_some (pool row.pool v) ≡ true → list_all (λ s. lies_rightly (is_sequential_at s.file v.stores) row.pool s (row_at s.file v.stores.volumes)) row.segments ≡ true → is_cited v (object, row) ≡ true }
    ensures made { (s : ScratchVolume) (v : Inv) → is_free_file v s.file ≡ true → copies_cite v ≡ true → copies_cite (make_scratch s v) ≡ true }
{}

/// What holds within a transaction on data is kept by the step of each item, where the change of the clients' rows keeps the facts of the
/// objects and changes the copies as it is said of it. An object that expires or is discarded goes from the rows by some such change.
pub fn items_keep_steady()
    ensures backed_up { (n : ℕ) (p : List (ℕ × Segment)) (filespace : ℕ) (item : NewVersion) (v : Inv) (rest : List (ℕ × Segment)) → MayCome p v (in_pool item.pool item.segments ++ rest) → is_some (pool item.pool v) ≡ true → VersionFacts n (inserted filespace item v) → IsReordered ((item.object, placed_now item.pool item.segments v) ∷ copies v) (copies (inserted filespace item v)) → VolumeFacts p v → copies_cite v ≡ true → IsSteady n p (back_up filespace item v) × MayCome p (back_up filespace item v) rest }
    ensures held { (n : ℕ) (p : List (ℕ × Segment)) (filespace : ℕ) (item : NewHeldObject) (v : Inv) (rest : List (ℕ × Segment)) → MayCome p v (in_pool item.pool item.segments ++ rest) → is_some (pool item.pool v) ≡ true → VersionFacts n (held_too filespace item v) → IsReordered ((item.object, placed_now item.pool item.segments v) ∷ copies v) (copies (held_too filespace item v)) → VolumeFacts p v → copies_cite v ≡ true → IsSteady n p (hold filespace item v) × MayCome p (hold filespace item v) rest }
    ensures added { (n : ℕ) (p : List (ℕ × Segment)) (item : NewCopy) (v : Inv) (rest : List (ℕ × Segment)) → MayCome p v (in_pool item.pool item.segments ++ rest) → is_some (pool item.pool v) ≡ true → VersionFacts n (change_copy item.object (added item v) v) → IsReordered ((item.object, placed_now item.pool item.segments v) ∷ copies v) (copies (change_copy item.object (added item v) v)) → VolumeFacts p v → copies_cite v ≡ true → IsSteady n p (add_copy item v) × MayCome p (add_copy item v) rest }
    ensures moved { (n : ℕ) (p : List (ℕ × Segment)) (item : MovedCopy) (v : Inv) (w : Version) (old : CopyRow) → version item.object v ≡ Some w → copy_in item.from w ≡ Some old → is_cited v (item.object, placed_now item.pool item.segments v) ≡ true → VersionFacts n (change_copy item.object (moved item v) v) → IsReordered ((item.object, placed_now item.pool item.segments v) ∷ copies v) ((item.object, old) ∷ copies (change_copy item.object (moved item v) v)) → VolumeFacts (of_object item.object item.segments ++ p) v → copies_cite v ≡ true → IsSteady n p (move_copy item v) }
    ensures others_cited { (item : MovedCopy) (v : Inv) (e : ℕ × CopyRow) → is_cited (move_copy item v) e ≡ is_cited v e }
    ensures dropped { (n : ℕ) (p : List (ℕ × Segment)) (item : DroppedCopy) (v : Inv) (w : Version) (old : CopyRow) → version item.object v ≡ Some w → copy_in item.pool w ≡ Some old → VersionFacts n (change_copy item.object (dropped item) v) → IsReordered (copies v) ((item.object, old) ∷ copies (change_copy item.object (dropped item) v)) → VolumeFacts p v → copies_cite v ≡ true → IsSteady n p (drop_copy item v) }
    ensures removed { (n : ℕ) (p : List (ℕ × Segment)) (step : Rows → Result Rows Refusal) (object : ℕ) (v : Inv) (w : Version) → version object v ≡ Some w → VersionFacts n (clients_after step v) → IsReordered (copies v) (map (λ c. (object, c)) w.copies ++ copies (clients_after step v)) → VolumeFacts p v → copies_cite v ≡ true → IsSteady n p (clients_after step (take_versions object v)) }
{}

/// But for the rows of volumes, the step of an item is the change of the clients' rows.
pub fn items_change_clients()
    ensures backed_up { (filespace : ℕ) (item : NewVersion) (v : Inv) → OnlyVolumes (inserted filespace item v) (back_up filespace item v) }
    ensures held { (filespace : ℕ) (item : NewHeldObject) (v : Inv) → OnlyVolumes (held_too filespace item v) (hold filespace item v) }
    ensures added { (item : NewCopy) (v : Inv) → OnlyVolumes (change_copy item.object (added item v) v) (add_copy item v) }
    ensures put_moved { (items : List MovedCopy) (v : Inv) → OnlyVolumes v (each put_moved items v) }
    ensures moved { (item : MovedCopy) (v : Inv) → OnlyVolumes (change_copy item.object (moved item v) v) (move_copy item v) }
    ensures dropped { (item : DroppedCopy) (v : Inv) → OnlyVolumes (change_copy item.object (dropped item) v) (drop_copy item v) }
    ensures removed { (step : Rows → Result Rows Refusal) (object : ℕ) (v : Inv) → OnlyVolumes (clients_after step v) (clients_after step (take_versions object v)) }
    ensures versions { (n : ℕ) (v w : Inv) → OnlyVolumes v w → VersionFacts n v → VersionFacts n w }
{}

/// What holds within a transaction on data holds of a valid database at the beginning, and at the end it makes one, if there is room.
pub fn steady_from_valid_to_valid()
    ensures begins { (n : ℕ) (v : Inv) → Facts v → IsTied v → nat_le v.number n ≡ true → IsSteady n [] v }
    ensures ends { (c : Change) (v : Inv) → is_of_data c ≡ true → Facts v → IsSteady (v.number + 1) [] (changed c v) → sizes_refused c v ≡ [] → (is_valid (effect c v) ≡ true) × IsTied (effect c v) }
{}
