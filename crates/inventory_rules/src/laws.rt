// What the definitions mean, as laws. Each stands on a function that does nothing.
ghost use Rattle.std.specs.Prelude.{◌≡◌, ℕ, ◌+◌, true, Option, None, List, []};
ghost use Rattle.kinds.specs.declared.change.ObjectChange.{ObjectChange};
ghost use Rattle.kinds.specs.declared.change.PolicyChange.{PolicyChange};
ghost use Rattle.kinds.specs.declared.change.PoolChange.{PoolChange};
ghost use Rattle.entries.specs.declared.change.Change.{Change};
ghost use Rattle.entries.specs.declared.change.Change.TheVariants.{Day, Policy, Object, Pool, DbBegin, DbEnd, DbDelete};
ghost use Rattle.inventory_rows.specs.Fresh.{fresh};
ghost use Rattle.inventory_rows.specs.State.{Inv};
ghost use Rattle.inventory_rules.specs.Run.{journal_of};
ghost use Rattle.inventory_rules.specs.Transactions.{causes, effect, refused, is_of_data, OnlyData};
ghost use Rattle.inventory_rules.specs.Held.{IsTied};
ghost use Rattle.inventory_rules.specs.Journal.{Journal, no_journal};
ghost use Rattle.inventory_rules.specs.Kept.{kept, kept_after};
ghost use Rattle.inventory_rules.specs.Owed.{is_owed, is_retained};
ghost use Rattle.inventory_rules.specs.Valid.{is_valid};

/// The database of a server that was just formatted is valid, and the rows of its volumes hold the segments of its copies.
pub fn fresh_is_valid()
    ensures valid { is_valid fresh ≡ true }
    ensures tied { IsTied fresh }
{}

/// A transaction that isn't refused leaves a valid database, whose number is one more.
#[tactic(auto, unfolding(crate::specs::Transactions::refused, crate::specs::Transactions::effect))]
pub fn legal_leaves_valid()
    ensures valid { (j : Journal) (c : Change) (v : Inv) → refused j c v ≡ None → is_valid (effect c v) ≡ true }
    ensures number { (c : Change) (v : Inv) → (effect c v).number ≡ v.number + 1 }
{}

/// A transaction touches only what its change names: a new day only the day; a change of the policy only the domains; one of
/// nodes or filespaces only these and their numbers; one of device classes, pools or volumes only these, their numbers and the
/// delays of the listed backups; one of objects and copies only those and the volumes; and one of a database backup only the
/// list of them and the next file number.
#[tactic(auto, unfolding(crate::specs::Transactions::effect))]
pub fn others_stay()
    ensures day { (day : ℕ) (v : Inv) → effect (Day day) v ≡ record v { number = v.number + 1; today = day } }
    ensures policy { (c : PolicyChange) (v : Inv) → effect (Policy c) v ≡ record v { number = v.number + 1; domains = (effect (Policy c) v).domains } }
    ensures clients { (c : ObjectChange) (v : Inv) → effect (Object c) v ≡ record v { number = v.number + 1; next_node = (effect (Object c) v).next_node; next_filespace = (effect (Object c) v).next_filespace; clients = (effect (Object c) v).clients } }
    ensures stores { (c : PoolChange) (v : Inv) → effect (Pool c) v ≡ record v { number = v.number + 1; next_pool = (effect (Pool c) v).next_pool; next_file = (effect (Pool c) v).next_file; stores = (effect (Pool c) v).stores; backups = (effect (Pool c) v).backups } }
    ensures data { (c : Change) (v : Inv) → is_of_data c ≡ true → OnlyData v (effect c v) }
    ensures begun { (file : ℕ) (after : Option ℕ) (v : Inv) → effect (DbBegin file after) v ≡ record v { number = v.number + 1; next_file = (effect (DbBegin file after) v).next_file; backups = (effect (DbBegin file after) v).backups } }
    ensures ended { (file : ℕ) (v : Inv) → effect (DbEnd file) v ≡ record v { number = v.number + 1; backups = (effect (DbEnd file) v).backups } }
    ensures deleted { (file : ℕ) (v : Inv) → effect (DbDelete file) v ≡ record v { number = v.number + 1; backups = (effect (DbDelete file) v).backups } }
{}

/// What the database keeps for its clients, the versions and held objects with their days, sizes, digests and times, the policy, the nodes, the
/// filespaces and the day, changes by a fold that knows no copy, pool, volume or segment. So a move, a copy or a reuse of a
/// volume doesn't change what is owed.
pub fn kept_is_a_fold()
    ensures { (c : Change) (v : Inv) → kept (effect c v) ≡ kept_after c (kept v) }
{}

/// Which objects of a database are retained today is said of what it keeps for its clients: no copy, pool, volume or segment is looked at.
pub fn retained_are_owed()
    ensures { (filespace : ℕ) (path : List ℕ) (object : ℕ) (v : Inv) → is_owed filespace path object (kept v) ≡ is_retained filespace path object v }
{}

/// What no cause refuses with one journal, none refuses with another: a journal tells which refusal comes, not whether one does. So a run's
/// transactions are legal also for a database that knows no journal, as it is when they are read again. A journal without transactions tells
/// nothing.
pub fn journals_agree()
    ensures causes { (j k : Journal) (c : Change) (v : Inv) → causes j c v ≡ [] → causes k c v ≡ [] }
    ensures refused { (j k : Journal) (c : Change) (v : Inv) → refused j c v ≡ None → refused k c v ≡ None }
    ensures none { (base : Inv) → journal_of base [] ≡ no_journal }
{}
