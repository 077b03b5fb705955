// What the rules say of single kinds of change, as laws, a function for each group of them. Each stands on a function that does nothing. The laws
// of `leaving`, `counting` and `making` speak of every kind at once, and ask of each what any of them needs; here each kind asks what it needs itself.
ghost use Rattle.std.specs.Prelude.{◌≡◌, ℕ, ◌+◌, ◌≤◌, ◌^◌, true, false, nat_lt, List, [], Option};
ghost use Rattle.kinds.specs.declared.change.DefineOrDelete.TheVariants as two;
ghost use Rattle.kinds.specs.declared.change.ObjectChange.{ObjectChange};
ghost use Rattle.kinds.specs.declared.change.PolicyChange.{PolicyChange};
ghost use Rattle.kinds.specs.declared.change.PoolChange.{PoolChange};
ghost use Rattle.kinds.specs.declared.change.PoolChange.TheVariants as store;
ghost use Rattle.kinds.specs.declared.change.Verb.TheVariants as verb;
ghost use Rattle.kinds.specs.declared.pool.Access.{Access};
ghost use Rattle.kinds.specs.declared.pool.PoolKind.{PoolKind};
ghost use Rattle.kinds.specs.declared.pool.PoolRule.{PoolRule};
ghost use Rattle.inventory_rules.specs.entries.change_items.declared.lists.DiscardedVersions.{DiscardedVersions};
ghost use Rattle.inventory_rules.specs.entries.change_items.declared.lists.DroppedCopies.{DroppedCopies};
ghost use Rattle.inventory_rules.specs.entries.change_items.declared.lists.MovedCopies.{MovedCopies};
ghost use Rattle.inventory_rules.specs.entries.change_items.declared.lists.NamedVersions.{NamedVersions};
ghost use Rattle.inventory_rules.specs.entries.change_items.declared.lists.NewCopies.{NewCopies};
ghost use Rattle.inventory_rules.specs.entries.change_items.declared.lists.NewHeldObjects.{NewHeldObjects};
ghost use Rattle.inventory_rules.specs.entries.change_items.declared.lists.NewVersions.{NewVersions};
ghost use Rattle.inventory_rules.specs.entries.change_items.declared.lists.Rebindings.{Rebindings};
ghost use Rattle.inventory_rules.specs.entries.declared.change.Change.TheVariants.{Day, Policy, Object, Pool, Backup, Hold, Rebind, Gone, Move, Copy, DropCopies, Expire, Discard, Reuse, DbBegin, DbEnd, DbDelete};
ghost use Rattle.inventory_rules.specs.inventory_rows.object_rows.Places.{AreAllOrderly};
ghost use Rattle.inventory_rules.specs.inventory_rows.Items.{count_items};
ghost use Rattle.inventory_rules.specs.inventory_rows.State.{Inv};
ghost use Rattle.inventory_rules.specs.Clients.{is_new_client};
ghost use Rattle.inventory_rules.specs.Common.{each};
ghost use Rattle.inventory_rules.specs.Copies.{add_copy, drop_copy, move_copy, moved_copy_fits, put_moved};
ghost use Rattle.inventory_rules.specs.Policy.{is_new_policy, IsPolicyOrdered};
ghost use Rattle.inventory_rules.specs.Segments.{items_fit, make_scratch, scratch_fits, scratch_refused};
ghost use Rattle.inventory_rules.specs.Stores.{is_new_store};
ghost use Rattle.inventory_rules.specs.Transactions.{effect, causes, sizes_refused, parts_fit, items_added, items_gone, CanChange};
ghost use Rattle.inventory_rules.specs.Versions.{back_up, discard, expire, hold, mark_gone, rebind, AreGroupsOrdered};
ghost use Rattle.inventory_rules.specs.Facts.{Facts};
ghost use Rattle.inventory_rules.specs.Held.{IsTied};
ghost use Rattle.inventory_rules.specs.Journal.{Journal};
ghost use Rattle.inventory_rules.specs.Ordered.{IsOrdered};
ghost use Rattle.inventory_rules.specs.Valid.{is_valid};
ghost use Rattle.inventory_laws.specs.Chains.{Adds, Discards, Drops, EachCan, Expires, Holds, Moves, Rewrites, Stores};

/// A change of the day, the policy, the clients or the database backups: what a legal one leaves, how it counts, and that it can be made.
pub fn rows_by_kind()
    ensures day_stays { (j : Journal) (day : ℕ) (v : Inv) → nat_lt day (2 ^ 31) ≡ true → is_valid v ≡ true → IsTied v → causes j (Day day) v ≡ [] → sizes_refused (Day day) v ≡ []
        → (is_valid (effect (Day day) v) ≡ true) × IsTied (effect (Day day) v) }
    ensures policy_stays { (j : Journal) (c : PolicyChange) (v : Inv) → is_valid v ≡ true → IsTied v → causes j (Policy c) v ≡ [] → sizes_refused (Policy c) v ≡ [] → (is_valid (effect (Policy c) v) ≡ true) × IsTied (effect (Policy c) v) }
    ensures clients_stay { (j : Journal) (c : ObjectChange) (v : Inv) → is_valid v ≡ true → IsTied v → causes j (Object c) v ≡ [] → sizes_refused (Object c) v ≡ [] → (is_valid (effect (Object c) v) ≡ true) × IsTied (effect (Object c) v) }
    ensures begun_stays { (j : Journal) (file : ℕ) (after : Option ℕ) (v : Inv) → is_valid v ≡ true → IsTied v → causes j (DbBegin file after) v ≡ [] → sizes_refused (DbBegin file after) v ≡ []
        → (is_valid (effect (DbBegin file after) v) ≡ true) × IsTied (effect (DbBegin file after) v) }
    ensures ended_stays { (j : Journal) (file : ℕ) (v : Inv) → is_valid v ≡ true → IsTied v → causes j (DbEnd file) v ≡ [] → sizes_refused (DbEnd file) v ≡ [] → (is_valid (effect (DbEnd file) v) ≡ true) × IsTied (effect (DbEnd file) v) }
    ensures deleted_stays { (j : Journal) (file : ℕ) (v : Inv) → is_valid v ≡ true → IsTied v → causes j (DbDelete file) v ≡ [] → sizes_refused (DbDelete file) v ≡ []
        → (is_valid (effect (DbDelete file) v) ≡ true) × IsTied (effect (DbDelete file) v) }
    ensures policy_counted { (j : Journal) (c : PolicyChange) (v : Inv) → IsPolicyOrdered c v.domains → causes j (Policy c) v ≡ [] → is_new_policy c ≡ true
        → count_items (effect (Policy c) v) + items_gone (Policy c) v ≡ count_items v + items_added (Policy c) v }
    ensures policy_less { (c : PolicyChange) (v : Inv) → is_new_policy c ≡ false → count_items (effect (Policy c) v) ≤ count_items v }
    ensures clients_counted { (j : Journal) (c : ObjectChange) (v : Inv) → is_valid v ≡ true → causes j (Object c) v ≡ [] → is_new_client c ≡ true
        → count_items (effect (Object c) v) + items_gone (Object c) v ≡ count_items v + items_added (Object c) v }
    ensures clients_less { (c : ObjectChange) (v : Inv) → is_new_client c ≡ false → count_items (effect (Object c) v) ≤ count_items v }
    ensures begun_counted { (j : Journal) (file : ℕ) (after : Option ℕ) (v : Inv) → causes j (DbBegin file after) v ≡ [] → count_items (effect (DbBegin file after) v) + items_gone (DbBegin file after) v ≡ count_items v + items_added (DbBegin file after) v }
    ensures ended_less { (file : ℕ) (v : Inv) → count_items (effect (DbEnd file) v) ≤ count_items v }
    ensures deleted_less { (file : ℕ) (v : Inv) → count_items (effect (DbDelete file) v) ≤ count_items v }
    ensures day_made { (day : ℕ) (v : Inv) → CanChange (Day day) v }
    ensures policy_made { (j : Journal) (c : PolicyChange) (v : Inv) → causes j (Policy c) v ≡ [] → CanChange (Policy c) v }
    ensures clients_made { (j : Journal) (c : ObjectChange) (v : Inv) → Facts v → causes j (Object c) v ≡ [] → CanChange (Object c) v }
    ensures begun_made { (j : Journal) (file : ℕ) (after : Option ℕ) (v : Inv) → causes j (DbBegin file after) v ≡ [] → CanChange (DbBegin file after) v }
    ensures ended_made { (file : ℕ) (v : Inv) → CanChange (DbEnd file) v }
    ensures deleted_made { (file : ℕ) (v : Inv) → CanChange (DbDelete file) v }
{}

/// The same of the device classes, the storage pools and the volumes. What a change of pools leaves where two of them have one number is said by `stores_stay_valid`.
pub fn stores_by_kind()
    ensures class_defined { (j : Journal) (class : List ℕ) (capacity : ℕ) (v : Inv) → is_valid v ≡ true → IsTied v → causes j (Pool (store.DevClass two.Define class capacity)) v ≡ []
        → sizes_refused (Pool (store.DevClass two.Define class capacity)) v ≡ [] → (is_valid (effect (Pool (store.DevClass two.Define class capacity)) v) ≡ true) × IsTied (effect (Pool (store.DevClass two.Define class capacity)) v) }
    ensures class_deleted { (j : Journal) (class : List ℕ) (capacity : ℕ) (v : Inv) → is_valid v ≡ true → IsTied v → causes j (Pool (store.DevClass two.Delete class capacity)) v ≡ []
        → sizes_refused (Pool (store.DevClass two.Delete class capacity)) v ≡ [] → (is_valid (effect (Pool (store.DevClass two.Delete class capacity)) v) ≡ true) × IsTied (effect (Pool (store.DevClass two.Delete class capacity)) v) }
    ensures pool_defined { (j : Journal) (name class : List ℕ) (kind : PoolKind) (rule : PoolRule) (v : Inv) → is_valid v ≡ true → IsTied v → causes j (Pool (store.Pool verb.Define name class kind rule)) v ≡ []
        → sizes_refused (Pool (store.Pool verb.Define name class kind rule)) v ≡ []
        → (is_valid (effect (Pool (store.Pool verb.Define name class kind rule)) v) ≡ true) × IsTied (effect (Pool (store.Pool verb.Define name class kind rule)) v) }
    ensures pool_deleted { (j : Journal) (name class : List ℕ) (kind : PoolKind) (rule : PoolRule) (v : Inv) → is_valid v ≡ true → IsTied v → causes j (Pool (store.Pool verb.Delete name class kind rule)) v ≡ []
        → sizes_refused (Pool (store.Pool verb.Delete name class kind rule)) v ≡ [] → parts_fit (Pool (store.Pool verb.Delete name class kind rule)) v ≡ true
        → (is_valid (effect (Pool (store.Pool verb.Delete name class kind rule)) v) ≡ true) × IsTied (effect (Pool (store.Pool verb.Delete name class kind rule)) v) }
    ensures volume_defined { (j : Journal) (name : List ℕ) (number file capacity : ℕ) (access : Access) (v : Inv) → is_valid v ≡ true → IsTied v → causes j (Pool (store.Volume verb.Define name number file capacity access)) v ≡ []
        → sizes_refused (Pool (store.Volume verb.Define name number file capacity access)) v ≡ [] → parts_fit (Pool (store.Volume verb.Define name number file capacity access)) v ≡ true
        → (is_valid (effect (Pool (store.Volume verb.Define name number file capacity access)) v) ≡ true) × IsTied (effect (Pool (store.Volume verb.Define name number file capacity access)) v) }
    ensures volume_updated { (j : Journal) (name : List ℕ) (number file capacity : ℕ) (access : Access) (v : Inv) → is_valid v ≡ true → IsTied v → causes j (Pool (store.Volume verb.Update name number file capacity access)) v ≡ []
        → sizes_refused (Pool (store.Volume verb.Update name number file capacity access)) v ≡ []
        → (is_valid (effect (Pool (store.Volume verb.Update name number file capacity access)) v) ≡ true) × IsTied (effect (Pool (store.Volume verb.Update name number file capacity access)) v) }
    ensures volume_deleted { (j : Journal) (name : List ℕ) (number file capacity : ℕ) (access : Access) (v : Inv) → is_valid v ≡ true → IsTied v → causes j (Pool (store.Volume verb.Delete name number file capacity access)) v ≡ []
        → sizes_refused (Pool (store.Volume verb.Delete name number file capacity access)) v ≡ []
        → (is_valid (effect (Pool (store.Volume verb.Delete name number file capacity access)) v) ≡ true) × IsTied (effect (Pool (store.Volume verb.Delete name number file capacity access)) v) }
    ensures stores_counted { (j : Journal) (c : PoolChange) (v : Inv) → is_valid v ≡ true → causes j (Pool c) v ≡ [] → is_new_store c ≡ true
        → count_items (effect (Pool c) v) + items_gone (Pool c) v ≡ count_items v + items_added (Pool c) v }
    ensures stores_less { (c : PoolChange) (v : Inv) → is_new_store c ≡ false → count_items (effect (Pool c) v) ≤ count_items v }
    ensures reused_less { (file : ℕ) (v : Inv) → count_items (effect (Reuse file) v) ≤ count_items v }
    ensures stores_made { (j : Journal) (c : PoolChange) (v : Inv) → Facts v → causes j (Pool c) v ≡ [] → parts_fit (Pool c) v ≡ true → CanChange (Pool c) v }
    ensures reused_made { (j : Journal) (file : ℕ) (v : Inv) → Facts v → causes j (Reuse file) v ≡ [] → CanChange (Reuse file) v }
{}

/// The same of versions and held objects, and that rows in order stay so. Where each item finds what it names on what the items before it left, what comes fits, and there is
/// room, the whole leaves a valid and tied database.
pub fn versions_by_kind()
    ensures backup_stays { (j : Journal) (c : NewVersions) (v : Inv) → is_valid v ≡ true → IsTied v → IsOrdered v → causes j (Backup c) v ≡ [] → sizes_refused (Backup c) v ≡ [] → parts_fit (Backup c) v ≡ true
        → (is_valid (effect (Backup c) v) ≡ true) × IsTied (effect (Backup c) v) }
    ensures hold_stays { (j : Journal) (c : NewHeldObjects) (v : Inv) → is_valid v ≡ true → IsTied v → causes j (Hold c) v ≡ [] → sizes_refused (Hold c) v ≡ [] → parts_fit (Hold c) v ≡ true
        → (is_valid (effect (Hold c) v) ≡ true) × IsTied (effect (Hold c) v) }
    ensures rebind_stays { (j : Journal) (c : Rebindings) (v : Inv) → is_valid v ≡ true → IsTied v → causes j (Rebind c) v ≡ [] → sizes_refused (Rebind c) v ≡ [] → (is_valid (effect (Rebind c) v) ≡ true) × IsTied (effect (Rebind c) v) }
    ensures gone_stays { (j : Journal) (c : NamedVersions) (v : Inv) → is_valid v ≡ true → IsTied v → causes j (Gone c) v ≡ [] → sizes_refused (Gone c) v ≡ [] → (is_valid (effect (Gone c) v) ≡ true) × IsTied (effect (Gone c) v) }
    ensures expire_stays { (j : Journal) (c : NamedVersions) (v : Inv) → is_valid v ≡ true → IsTied v → IsOrdered v → causes j (Expire c) v ≡ [] → sizes_refused (Expire c) v ≡ []
        → (is_valid (effect (Expire c) v) ≡ true) × IsTied (effect (Expire c) v) }
    ensures discard_stays { (j : Journal) (c : DiscardedVersions) (v : Inv) → is_valid v ≡ true → IsTied v → IsOrdered v → causes j (Discard c) v ≡ [] → sizes_refused (Discard c) v ≡ []
        → (is_valid (effect (Discard c) v) ≡ true) × IsTied (effect (Discard c) v) }
    ensures backup_found { (c : NewVersions) (v : Inv) → Facts v → IsTied v → scratch_refused c.scratch v ≡ [] → parts_fit (Backup c) v ≡ true
        → EachCan (Stores (v.number + 1) c.filespace) (back_up c.filespace) c.items (each make_scratch c.scratch v) → sizes_refused (Backup c) v ≡ []
        → (is_valid (effect (Backup c) v) ≡ true) × IsTied (effect (Backup c) v) }
    ensures hold_found { (c : NewHeldObjects) (v : Inv) → Facts v → IsTied v → scratch_refused c.scratch v ≡ [] → parts_fit (Hold c) v ≡ true
        → EachCan (Holds (v.number + 1) c.filespace) (hold c.filespace) c.items (each make_scratch c.scratch v) → sizes_refused (Hold c) v ≡ []
        → (is_valid (effect (Hold c) v) ≡ true) × IsTied (effect (Hold c) v) }
    ensures rebind_found { (c : Rebindings) (v : Inv) → Facts v → IsTied v → EachCan (λ i w. Rewrites (v.number + 1) w (rebind c.filespace i w)) (rebind c.filespace) c.items v → sizes_refused (Rebind c) v ≡ []
        → (is_valid (effect (Rebind c) v) ≡ true) × IsTied (effect (Rebind c) v) }
    ensures gone_found { (c : NamedVersions) (v : Inv) → Facts v → IsTied v → EachCan (λ i w. Rewrites (v.number + 1) w (mark_gone c.filespace i w)) (mark_gone c.filespace) c.items v → sizes_refused (Gone c) v ≡ []
        → (is_valid (effect (Gone c) v) ≡ true) × IsTied (effect (Gone c) v) }
    ensures expire_found { (c : NamedVersions) (v : Inv) → Facts v → IsTied v → EachCan (Expires (v.number + 1) c.filespace) (expire c.filespace) c.items v → sizes_refused (Expire c) v ≡ []
        → (is_valid (effect (Expire c) v) ≡ true) × IsTied (effect (Expire c) v) }
    ensures discard_found { (c : DiscardedVersions) (v : Inv) → Facts v → IsTied v → EachCan (Discards (v.number + 1)) discard c.items v → sizes_refused (Discard c) v ≡ []
        → (is_valid (effect (Discard c) v) ≡ true) × IsTied (effect (Discard c) v) }
    ensures rebind_order { (c : Rebindings) (v : Inv) → IsOrdered v → IsOrdered (effect (Rebind c) v) }
    ensures gone_order { (c : NamedVersions) (v : Inv) → IsOrdered v → IsOrdered (effect (Gone c) v) }
    ensures expire_order { (c : NamedVersions) (v : Inv) → IsOrdered v → IsOrdered (effect (Expire c) v) }
    ensures discard_order { (c : DiscardedVersions) (v : Inv) → IsOrdered v → IsOrdered (effect (Discard c) v) }
    ensures backup_counted { (j : Journal) (c : NewVersions) (v : Inv) → AreGroupsOrdered v.clients.filespaces → causes j (Backup c) v ≡ []
        → count_items (effect (Backup c) v) + items_gone (Backup c) v ≡ count_items v + items_added (Backup c) v }
    ensures hold_counted { (j : Journal) (c : NewHeldObjects) (v : Inv) → is_valid v ≡ true → causes j (Hold c) v ≡ [] → count_items (effect (Hold c) v) + items_gone (Hold c) v ≡ count_items v + items_added (Hold c) v }
    ensures rebind_less { (c : Rebindings) (v : Inv) → count_items (effect (Rebind c) v) ≤ count_items v }
    ensures gone_less { (c : NamedVersions) (v : Inv) → count_items (effect (Gone c) v) ≤ count_items v }
    ensures expire_less { (c : NamedVersions) (v : Inv) → count_items (effect (Expire c) v) ≤ count_items v }
    ensures discard_less { (c : DiscardedVersions) (v : Inv) → count_items (effect (Discard c) v) ≤ count_items v }
    ensures backup_made { (j : Journal) (c : NewVersions) (v : Inv) → Facts v → AreAllOrderly v.clients.filespaces → causes j (Backup c) v ≡ [] → parts_fit (Backup c) v ≡ true → CanChange (Backup c) v }
    ensures hold_made { (j : Journal) (c : NewHeldObjects) (v : Inv) → Facts v → causes j (Hold c) v ≡ [] → parts_fit (Hold c) v ≡ true → CanChange (Hold c) v }
    ensures rebind_made { (c : Rebindings) (v : Inv) → CanChange (Rebind c) v }
    ensures gone_made { (j : Journal) (c : NamedVersions) (v : Inv) → causes j (Gone c) v ≡ [] → CanChange (Gone c) v }
    ensures expire_made { (c : NamedVersions) (v : Inv) → CanChange (Expire c) v }
    ensures discard_made { (c : DiscardedVersions) (v : Inv) → CanChange (Discard c) v }
{}

/// The same of copies that move, come and go.
pub fn copies_by_kind()
    ensures move_stays { (j : Journal) (c : MovedCopies) (v : Inv) → is_valid v ≡ true → IsTied v → causes j (Move c) v ≡ [] → sizes_refused (Move c) v ≡ [] → parts_fit (Move c) v ≡ true
        → (is_valid (effect (Move c) v) ≡ true) × IsTied (effect (Move c) v) }
    ensures copy_stays { (j : Journal) (c : NewCopies) (v : Inv) → is_valid v ≡ true → IsTied v → causes j (Copy c) v ≡ [] → sizes_refused (Copy c) v ≡ [] → parts_fit (Copy c) v ≡ true
        → (is_valid (effect (Copy c) v) ≡ true) × IsTied (effect (Copy c) v) }
    ensures drop_stays { (j : Journal) (c : DroppedCopies) (v : Inv) → is_valid v ≡ true → IsTied v → causes j (DropCopies c) v ≡ [] → sizes_refused (DropCopies c) v ≡ []
        → (is_valid (effect (DropCopies c) v) ≡ true) × IsTied (effect (DropCopies c) v) }
    ensures move_found { (c : MovedCopies) (v : Inv) → Facts v → IsTied v → scratch_refused c.scratch v ≡ [] → scratch_fits v c.scratch ≡ true
        → items_fit (moved_copy_fits []) (λ i. i.segments) c.items (each make_scratch c.scratch v) ≡ true
        → EachCan (Moves (v.number + 1)) move_copy c.items (each put_moved c.items (each make_scratch c.scratch v)) → sizes_refused (Move c) v ≡ []
        → (is_valid (effect (Move c) v) ≡ true) × IsTied (effect (Move c) v) }
    ensures copy_found { (c : NewCopies) (v : Inv) → Facts v → IsTied v → scratch_refused c.scratch v ≡ [] → parts_fit (Copy c) v ≡ true → EachCan (Adds (v.number + 1)) add_copy c.items (each make_scratch c.scratch v)
        → sizes_refused (Copy c) v ≡ [] → (is_valid (effect (Copy c) v) ≡ true) × IsTied (effect (Copy c) v) }
    ensures drop_found { (c : DroppedCopies) (v : Inv) → Facts v → IsTied v → EachCan (Drops (v.number + 1)) drop_copy c.items v → sizes_refused (DropCopies c) v ≡ []
        → (is_valid (effect (DropCopies c) v) ≡ true) × IsTied (effect (DropCopies c) v) }
    ensures drop_order { (c : DroppedCopies) (v : Inv) → IsOrdered v → IsOrdered (effect (DropCopies c) v) }
    ensures move_counted { (j : Journal) (c : MovedCopies) (v : Inv) → is_valid v ≡ true → causes j (Move c) v ≡ [] → count_items (effect (Move c) v) + items_gone (Move c) v ≡ count_items v + items_added (Move c) v }
    ensures copy_counted { (j : Journal) (c : NewCopies) (v : Inv) → is_valid v ≡ true → causes j (Copy c) v ≡ [] → count_items (effect (Copy c) v) + items_gone (Copy c) v ≡ count_items v + items_added (Copy c) v }
    ensures drop_less { (c : DroppedCopies) (v : Inv) → is_valid v ≡ true → count_items (effect (DropCopies c) v) ≤ count_items v }
    ensures move_made { (j : Journal) (c : MovedCopies) (v : Inv) → Facts v → causes j (Move c) v ≡ [] → parts_fit (Move c) v ≡ true → CanChange (Move c) v }
    ensures copy_made { (j : Journal) (c : NewCopies) (v : Inv) → Facts v → causes j (Copy c) v ≡ [] → parts_fit (Copy c) v ≡ true → CanChange (Copy c) v }
    ensures drop_made { (c : DroppedCopies) (v : Inv) → CanChange (DropCopies c) v }
{}
