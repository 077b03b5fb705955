// What transactions do to the contents of a database, as laws. Each stands on a function that does nothing.
ghost use Rattle.std.specs.Prelude.{◌≡◌, ◌≤◌, ℕ, true, List, [], ◌∷◌, None};
ghost use Rattle.std.specs.List.{AllByRecursion, list_all};
ghost use Rattle.kinds.specs.declared.change.ObjectChange.{ObjectChange};
ghost use Rattle.kinds.specs.declared.change.PolicyChange.{PolicyChange};
ghost use Rattle.kinds.specs.declared.change.PoolChange.{PoolChange};
ghost use Rattle.store_api.specs.Disk.{History};
ghost use Rattle.inventory_laws.specs.entries.change_items.declared.items.NewHeldObject.{NewHeldObject};
ghost use Rattle.inventory_laws.specs.entries.change_items.declared.items.NewVersion.{NewVersion};
ghost use Rattle.inventory_laws.specs.entries.change_items.declared.lists.NewHeldObjects.{NewHeldObjects};
ghost use Rattle.inventory_laws.specs.entries.change_items.declared.lists.NewVersions.{NewVersions};
ghost use Rattle.inventory_laws.specs.entries.declared.change.Change.{Change};
ghost use Rattle.inventory_laws.specs.entries.declared.change.Change.TheVariants as change;
ghost use Rattle.inventory_laws.specs.inventory_rows.pool_rows.PoolRows.{is_sequential};
ghost use Rattle.inventory_laws.specs.inventory_rows.Search.{segments_on, version, versions};
ghost use Rattle.inventory_laws.specs.inventory_rows.State.{Inv};
ghost use Rattle.inventory_laws.specs.inventory_rules.Transactions.{effect, causes, parts_fit};
ghost use Rattle.inventory_laws.specs.inventory_rules.Versions.{new_held, new_version};
ghost use Rattle.inventory_laws.specs.inventory_rules.Journal.{Journal};
ghost use Rattle.inventory_laws.specs.inventory_rules.Valid.{is_valid};
ghost use Rattle.inventory_laws.specs.inventory_rules.Segments.{are_all_clear, are_clear};
ghost use Rattle.inventory_laws.specs.inventory_rows.Ascending.{AreAscending};
ghost use Rattle.contents.specs.Contents.{BringsHave, HasVersion, InImage, InStore, Holds, IsKept, with_content};

/// A transaction on days, policy, clients, or device classes, pools and volumes leaves what is kept as it is. A filespace
/// that is defined has no versions, and takes the place of none that has.
pub fn versions_stay()
    ensures day { (day : ℕ) (v : Inv) → versions (effect (change.Day day) v) ≡ versions v }
    ensures policy { (c : PolicyChange) (v : Inv) → versions (effect (change.Policy c) v) ≡ versions v }
    ensures clients { (j : Journal) (c : ObjectChange) (v : Inv) → is_valid v ≡ true → causes j (change.Object c) v ≡ [] → versions (effect (change.Object c) v) ≡ versions v }
    ensures stores { (c : PoolChange) (v : Inv) → versions (effect (change.Pool c) v) ≡ versions v }
{}

/// Whatever the transaction: where what it brings has these contents, and all that was kept before it has, all that is kept behind it has.
pub fn contents_go_on()
    ensures kept { (contents : ℕ → List ℕ) (h : History) (c : Change) (v : Inv) → BringsHave (InStore h) contents c → IsKept contents h v → IsKept contents h (effect c v) }
    ensures held { (contents image : ℕ → List ℕ) (c : Change) (v : Inv) → BringsHave (InImage image) contents c → Holds contents image v → Holds contents image (effect c v) }
{}

/// Only the contents of objects that are kept matter: others may take their place where each object that is kept has the same,
/// and those of an object that isn't kept may come.
pub fn other_contents()
    ensures kept { (contents other : ℕ → List ℕ) (h : History) (v : Inv) → AllByRecursion (λ w. other w.object ≡ contents w.object) (versions v) → IsKept contents h v → IsKept other h v }
    ensures held { (contents other image : ℕ → List ℕ) (v : Inv) → AllByRecursion (λ w. other w.object ≡ contents w.object) (versions v) → Holds contents image v → Holds other image v }
    ensures new_kept { (contents : ℕ → List ℕ) (object : ℕ) (bytes : List ℕ) (h : History) (v : Inv) → version object v ≡ None → IsKept contents h v → IsKept (with_content object bytes contents) h v }
    ensures new_held { (contents image : ℕ → List ℕ) (object : ℕ) (bytes : List ℕ) (v : Inv) → version object v ≡ None → Holds contents image v → Holds (with_content object bytes contents) image v }
{}

/// Where the versions and held objects are the same, so is what is kept of them.
pub fn same_versions()
    ensures kept { (contents : ℕ → List ℕ) (h : History) (v w : Inv) → versions w ≡ versions v → IsKept contents h v → IsKept contents h w }
    ensures held { (contents image : ℕ → List ℕ) (v w : Inv) → versions w ≡ versions v → Holds contents image v → Holds contents image w }
{}

/// A transaction that brings one version, with no scratch volume, and that no cause refuses: where the version has its bytes, the database
/// afterwards is kept, or held by an image, with the contents of one object more. The former active version of its path stays with its bytes.
pub fn a_version_more()
    ensures kept { (j : Journal) (contents : ℕ → List ℕ) (bytes : List ℕ) (h : History) (c : NewVersions) (item : NewVersion) (v : Inv) →
        AreAscending v → causes j (change.Backup c) v ≡ [] → c.scratch ≡ [] → c.items ≡ item ∷ [] →
        IsKept contents h v → HasVersion (InStore h) bytes (new_version v item) → IsKept (with_content item.object bytes contents) h (effect (change.Backup c) v) }
    ensures held { (j : Journal) (contents image : ℕ → List ℕ) (bytes : List ℕ) (c : NewVersions) (item : NewVersion) (v : Inv) →
        AreAscending v → causes j (change.Backup c) v ≡ [] → c.scratch ≡ [] → c.items ≡ item ∷ [] →
        Holds contents image v → HasVersion (InImage image) bytes (new_version v item) → Holds (with_content item.object bytes contents) image (effect (change.Backup c) v) }
{}

/// A transaction that brings one archived object, with no scratch volume, and that no cause refuses: the same of it.
pub fn a_held_object_more()
    ensures kept { (j : Journal) (contents : ℕ → List ℕ) (bytes : List ℕ) (h : History) (c : NewHeldObjects) (item : NewHeldObject) (v : Inv) →
        is_valid v ≡ true → causes j (change.Hold c) v ≡ [] → c.scratch ≡ [] → c.items ≡ item ∷ [] →
        IsKept contents h v → HasVersion (InStore h) bytes (new_held v item).version → IsKept (with_content item.object bytes contents) h (effect (change.Hold c) v) }
    ensures held { (j : Journal) (contents image : ℕ → List ℕ) (bytes : List ℕ) (c : NewHeldObjects) (item : NewHeldObject) (v : Inv) →
        is_valid v ≡ true → causes j (change.Hold c) v ≡ [] → c.scratch ≡ [] → c.items ≡ item ∷ [] →
        Holds contents image v → HasVersion (InImage image) bytes (new_held v item).version → Holds (with_content item.object bytes contents) image (effect (change.Hold c) v) }
{}

/// Of a transaction that brings one version the segments lie on volumes, overlap no segment that lies there, and don't overlap one another.
pub fn where_it_comes()
    ensures volumes { (c : NewVersions) (item : NewVersion) (v : Inv) → is_valid v ≡ true → parts_fit (change.Backup c) v ≡ true → c.scratch ≡ [] → c.items ≡ item ∷ [] →
        AllByRecursion (λ s. 4 ≤ s.file) item.segments }
    ensures clear { (c : NewVersions) (item : NewVersion) (v : Inv) → parts_fit (change.Backup c) v ≡ true → c.scratch ≡ [] → c.items ≡ item ∷ [] →
        AllByRecursion (λ s. list_all (λ e. are_clear (is_sequential item.pool v.stores) s e.1) (segments_on s.file v) ≡ true) item.segments }
    ensures apart { (c : NewVersions) (item : NewVersion) (v : Inv) → parts_fit (change.Backup c) v ≡ true → c.scratch ≡ [] → c.items ≡ item ∷ [] →
        are_all_clear v item.segments ≡ true }
{}

/// The same of a transaction that brings one archived object.
pub fn where_it_is_held()
    ensures volumes { (c : NewHeldObjects) (item : NewHeldObject) (v : Inv) → is_valid v ≡ true → parts_fit (change.Hold c) v ≡ true → c.scratch ≡ [] → c.items ≡ item ∷ [] →
        AllByRecursion (λ s. 4 ≤ s.file) item.segments }
    ensures clear { (c : NewHeldObjects) (item : NewHeldObject) (v : Inv) → parts_fit (change.Hold c) v ≡ true → c.scratch ≡ [] → c.items ≡ item ∷ [] →
        AllByRecursion (λ s. list_all (λ e. are_clear (is_sequential item.pool v.stores) s e.1) (segments_on s.file v) ≡ true) item.segments }
    ensures apart { (c : NewHeldObjects) (item : NewHeldObject) (v : Inv) → parts_fit (change.Hold c) v ≡ true → c.scratch ≡ [] → c.items ≡ item ∷ [] →
        are_all_clear v item.segments ≡ true }
{}
