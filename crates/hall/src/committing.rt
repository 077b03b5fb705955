//! A transaction that joins.
ghost use Rattle.std.specs.Prelude.{◌≡◌, ◌+◌, ◌≤◌, ◌<◌, ◌^◌, ◌++◌, ℕ, List, Option, Some, None, Err, true, length, IfErr, IfOk, IfSome, OnErr, OnOk};
ghost use Rattle.store_api.specs.Cause.{NoneFell};
ghost use Rattle.store_api.specs.Told.{Told};
ghost use Rattle.kinds.specs.declared.refusal.Refusal.TheVariants.{Memory};
ghost use Rattle.entries.specs.EntryForm.{entry as entry_form};
ghost use Rattle.inventory.specs.Meant.{meaning};
ghost use Rattle.inventory_rows.specs.Ascending.{AreAscending};
ghost use Rattle.inventory_rows.specs.Search.{version};
ghost use Rattle.inventory_rows.specs.State.{Inv, inv_of};
ghost use Rattle.inventory_rules.specs.Journal.{no_journal};
ghost use Rattle.inventory_rules.specs.Transactions.{refused};
ghost use Rattle.std.specs.List.{flat_map};
ghost use Rattle.std.specs.Vec.{vec_capacity};
ghost use Rattle.space.specs.Claims.{noted};
ghost use Rattle.entries.specs.declared.entry.Entry.{Entry};
ghost use Rattle.inventory_rows.specs.pool_rows.PoolRows.{PoolRows};
ghost use Rattle.kept_index.specs.Steps.{IsLegalOn, named_by};
ghost use Rattle.kept_index.specs.Kept.{IsKeptOf};
ghost use Rattle.inventory_rows.specs.pool_tables.Rows.{row_at};
ghost use Rattle.vault.specs.Vaults.{State, Waits, with_waiting};
ghost use Rattle.hall.specs.Joined.{RefusesJoin, drawn_by, joined_held, left_by_copy, left_by_version, next_behind, placed_of, taken_by, without_seats};

use crate::noting;
use crate::parts::Parts;
use entries::change_items::{DiscardedVersion, DroppedCopy, MovedCopy, NamedVersion};
use entries::{Change, Entry};
use inventory::Inventory;
use inventory_rows::version_groups::{CopyRow, Version};
use inventory_rows::{Tables, are_ascending};
use kept_index::{KeptIndex, named_by};
use kinds::{PoolChange, Refusal, Verb};
use space::{Placed, Places, Space};
use std::alloc::{AllocError, Global};
use store_api::Store;
use vault::Vault;

/// An item of a change that takes copies of an object away.
trait Leaves {
    /// The object, and the pool from which its copy goes; none where all its copies go.
    ghost left: { Self → ℕ × Option ℕ };

    /// The object, and the pool from which its copy goes; none where all its copies go.
    fn left(&self) -> (u64, Option<u32>)
        ensures { result ≡ left self.now };
}

impl Leaves for MovedCopy {
    ghost left = { λ i. (i.object, Some i.from) };

    fn left(&self) -> (u64, Option<u32>) {
        (self.object, Some(self.from))
    }
}

impl Leaves for DroppedCopy {
    ghost left = { λ i. (i.object, Some i.pool) };

    fn left(&self) -> (u64, Option<u32>) {
        (self.object, Some(self.pool))
    }
}

impl Leaves for NamedVersion {
    ghost left = { λ i. (i.object, None) };

    fn left(&self) -> (u64, Option<u32>) {
        (self.object, None)
    }
}

impl Leaves for DiscardedVersion {
    ghost left = { λ i. (i.object, None) };

    fn left(&self) -> (u64, Option<u32>) {
        (self.object, None)
    }
}

/// The segments of a copy, each with its pool.
fn add_copy(out: &mut Vec<Placed>, copy: &CopyRow) -> Result<(), AllocError>
    ensures { OnOk result (out.new.items ≡ out.old.items ++ placed_of copy.now) }
{
    let pool = copy.pool;
    'segments: for segment in copy.segments.as_slice() {
        out.push(Placed {
            pool,
            segment: *segment,
        })?;
    }
    Ok(())
}

/// A copy, where all go, or that of its pool.
fn add_if_gone(out: &mut Vec<Placed>, from: Option<u32>, copy: &CopyRow) -> Result<(), AllocError>
    ensures { OnOk result (out.new.items ≡ out.old.items ++ left_by_copy from copy.now) }
{
    match from {
        Some(pool) if copy.pool != pool => Ok(()),
        _ => add_copy(out, copy),
    }
}

/// The copies of a version that go.
fn add_version(
    out: &mut Vec<Placed>,
    from: Option<u32>,
    version: &Version,
) -> Result<(), AllocError>
    ensures { OnOk result (out.new.items ≡ out.old.items ++ left_by_version from (Some version.now)) }
{
    'copies: for copy in version.copies.as_slice() {
        add_if_gone(out, from, copy)?;
    }
    Ok(())
}

/// The copies of an object that go.
fn add_object(
    out: &mut Vec<Placed>,
    tables: &Tables,
    left: (u64, Option<u32>),
) -> Result<(), AllocError>
    ensures { OnOk result (out.new.items ≡ out.old.items ++ left_by_version left.1 (version left.0 (inv_of tables.now))) }
{
    match tables.objects.find(left.0) {
        Some(version) => add_version(out, left.1, version),
        None => Ok(()),
    }
}

/// What the items of a change take away.
fn taken_by_items<I: Leaves>(
    alloc: Global,
    tables: &Tables,
    items: &[I],
) -> Result<Places, AllocError>
    ensures { IfOk result (λ places. places ≡ flat_map (λ i. left_by_version (I.left i).1 (version (I.left i).0 (inv_of tables.now))) items.now) }
{
    let mut out = Vec::new(alloc);
    'items: for item in items {
        add_object(&mut out, tables, item.left())?;
    }
    Ok(Places::new(out))
}

/// The space of the copies that a change takes away.
fn taken_by(alloc: Global, tables: &Tables, change: &Change) -> Result<Places, AllocError>
    ensures { IfOk result (λ places. places ≡ taken_by change.now (inv_of tables.now)) }
{
    match change {
        Change::Move(c) => taken_by_items(alloc, tables, c.items.as_slice()),
        Change::DropCopies(c) => taken_by_items(alloc, tables, c.items.as_slice()),
        Change::Expire(c) => taken_by_items(alloc, tables, c.items.as_slice()),
        Change::Discard(c) => taken_by_items(alloc, tables, c.items.as_slice()),
        _ => Ok(Places::new(Vec::new(alloc))),
    }
}

/// The file number that a change draws.
fn drawn_by(change: &Change) -> Option<u32>
    ensures { result ≡ drawn_by change.now }
{
    match change {
        Change::Pool(
            PoolChange::Volume {
                verb: Verb::Define,
                file,
                ..
            },
        ) => Some(*file),
        Change::DbBegin { file, .. } => Some(*file),
        _ => None,
    }
}

/// The file number that is drawn next lies behind the one that was drawn. It takes no memory.
fn draw(space: &mut Space, file: Option<u32>)
    requires { IfSome file (λ file. file + 1 < 2 ^ 32) }
    ensures { space.new ≡ record space.old { next_file = next_behind file space.old.next_file } }
{
    if let Some(file) = file {
        space.draw(file);
    }
}

/// What a transaction takes away is noted under its number, which is answered. Refused only for want of memory, and then nothing is noted.
fn make_room(
    alloc: Global,
    vault: &Vault<Inventory>,
    space: &mut Space,
    index: &mut KeptIndex,
    change: &Change,
) -> Result<u64, Refusal>
    ensures noted { OnOk result (space.new ≡ noted (vault.now.database.number + 1) (taken_by change.now vault.now.database) space.old) }
    ensures number { IfOk result (λ number. number ≡ vault.now.database.number + 1) }
    ensures err { OnErr result (space.new ≡ space.old) }
    ensures memory { IfErr result (λ refusal. refusal ≡ Memory) }
    ensures index { (s : PoolRows) → IsKeptOf index.old s space.old → IsKeptOf index.new s space.new }
    ensures legal { refused no_journal change.now vault.now.database ≡ None → OnOk result (IsLegalOn change.now vault.now.database) }
{
    let tables = vault.database().tables();
    are_ascending(tables);
    let taken = taken_by(alloc, tables, change)?;
    let number = tables.number + 1;
    index.note(space, number, &taken);
    if let Err(refusal) = space.note(number, taken) {
        index.lose();
        return Err(refusal);
    }
    Ok(number)
}

/// The volume that a change of the storage names, where it changes one or deletes it.
fn named_in(vault: &Vault<Inventory>, change: &Change) -> Option<u32>
    ensures { result ≡ named_by change.now vault.now.database.stores }
{
    named_by(change, &vault.database().tables().pools)
}

/// The index follows the transaction that was made last, the one behind so many, that named this volume and took away what is noted under its number; where it is in doubt the index is lost.
fn follow(
    index: &mut KeptIndex,
    vault: &Vault<Inventory>,
    space: &Space,
    count: usize,
    number: u64,
    named: Option<u32>,
    joined: bool,
)
    ensures { (old : State Inv) (e : Entry) → count ≡ length old.journal → (joined ≡ true → vault.now ≡ with_waiting meaning old e) → IsLegalOn e.change old.database → named ≡ named_by e.change old.database.stores
        → row_at number space.now.freed ≡ Some (taken_by e.change old.database) → IsKeptOf index.old old.database.stores space.now → IsKeptOf index.new vault.now.database.stores space.now }
{
    let taken = match space.freed().get(&number) {
        Some(taken) => taken,
        None => {
            index.lose();
            return;
        }
    };
    if !joined {
        index.lose();
        return;
    }
    match vault.journal().get(count) {
        Some(entry) => index.follow(
            &entry.change,
            named,
            taken.as_slice(),
            &vault.database().tables().pools,
            space,
        ),
        None => index.lose(),
    }
}

impl Parts {
    /// The rows of the database ascend.
    pub(crate) fn ascends(&self)
        ensures { AreAscending self.now.vault.database }
    {
        are_ascending(self.vault.database().tables());
    }

    /// The tickets with these numbers go, and their space is given back. It takes no memory.
    fn drop_seats(&mut self, numbers: &[u64])
        ensures { self.new ≡ without_seats numbers.now self.old }
    {
        'numbers: for number in numbers {
            self.drop_seat(*number);
        }
    }

    /// Makes a legal transaction and answers its number; its tickets are spent. Refused with `Memory`, and then nothing joined; and with `LogFault` where the call on the log failed: then it
    /// is in doubt, and its tickets are spent. It makes one device call at most.
    pub(crate) fn join<S: Store>(
        &mut self,
        store: &mut S,
        entry: Entry,
        numbers: &[u64],
    ) -> Result<u64, Refusal>
        requires time { S.moment_of store.old + 1 ≤ 2 ^ 62 }
        requires few { length self.old.stamps ≤ length self.old.vault.journal }
        requires sure { self.old.vault.fault ≡ None }
        requires legal { refused no_journal entry.change self.old.vault.database ≡ None }
        requires short { length (entry_form.spell entry) ≤ 2 ^ 24 }
        requires drawn { IfSome (drawn_by entry.change) (λ file. file + 1 < 2 ^ 32) }
        ensures told { (result ≡ Err Memory → ⊥) → Told (S.told store.old) (S.told store.new) (Waits meaning self.old.vault entry result self.new.vault) }
        ensures ok { OnOk result (self.new ≡ joined_held entry.change numbers.now (with_waiting meaning self.old.vault entry) self.old) }
        ensures number { IfOk result (λ number. number ≡ self.old.vault.database.number + 1) }
        ensures err { IfErr result (λ refusal. RefusesJoin self.old entry numbers.now (S.faults_of store.old) (S.faults_of store.new) refusal self.new (store.new ≡ store.old)) }
        ensures time { S.moment_of store.new ≤ S.moment_of store.old + 1 }
        ensures later { S.moment_of store.old ≤ S.moment_of store.new }
        ensures counts { NoneFell (S.faults_of store.old) (S.faults_of store.new) }
    {
        let count = self.vault.journal().len();
        let file = drawn_by(&entry.change);
        let named = named_in(&self.vault, &entry.change);
        let number = match make_room(
            self.alloc,
            &self.vault,
            &mut self.space,
            &mut self.index,
            &entry.change,
        ) {
            Ok(number) => number,
            Err(refusal) => {
                drop(entry);
                return Err(refusal);
            }
        };
        let result = noting::join(
            self.alloc,
            &mut self.past,
            &mut self.stamps,
            &mut self.vault,
            store,
            entry,
        );
        if self.vault.journal().len() == count {
            self.index.forget(&self.space, number);
            self.space.forget(number);
            return result;
        }
        follow(
            &mut self.index,
            &self.vault,
            &self.space,
            count,
            number,
            named,
            result.is_ok(),
        );
        draw(&mut self.space, file);
        self.drop_seats(numbers);
        result
    }
}
