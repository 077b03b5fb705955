//! The steps that draw a ticket: a new object's, and a copy's.
ghost use Rattle.std.specs.Prelude.{◌≡◌, ◌⊎◌, ◌+◌, ◌<◌, ◌≤◌, ◌^◌, ◌&&◌, false, not, true, length, max, None, Err, Ok, Some, IfErr, IfOk, IfSome, OnErr, OnOk};
ghost use Rattle.std.specs.List.{AllByRecursion, find};
ghost use Rattle.std.specs.List.Sorted.{IsStrictlySortedBy};
ghost use Rattle.std.specs.Map.{keys_of};
ghost use Rattle.std.specs.Ordering.{nat_cmp};
ghost use Rattle.kinds.specs.Refusals.{foremost};
ghost use Rattle.kinds.specs.declared.refusal.Refusal.TheVariants.{Memory};
ghost use Rattle.inventory_rows.specs.pool_rows.PoolRows.{pool_capacity};
ghost use Rattle.space.specs.Claims.{counted};
ghost use Rattle.inventory_rows.specs.pool_tables.Rows.{row_at};
ghost use Rattle.inventory_rules.specs.Held.{IsTied};
ghost use Rattle.space.specs.Placing.{choose, may_take, pool_for};
ghost use Rattle.steps.specs.Events.{is_listed};
ghost use Rattle.machine.specs.Causes.{copied_already};
ghost use Rattle.machine.specs.Machine.{can_place_copy, is_for_copies, size_of};
ghost use Rattle.inventory_rules.specs.Copies.{copy_refused};
ghost use Rattle.inventory_rules.specs.Run.{journal_of};
ghost use Rattle.inventory_rules.specs.Versions.{gone_or_unknown, of_version};
ghost use Rattle.inventory_rows.specs.Search.{copy_in, is_primary_kind, version};
ghost use Rattle.inventory_rows.specs.State.{inv_of};
ghost use Rattle.std.specs.Option.{option_copied, option_map_or};
ghost use Rattle.kinds.specs.Refusals.{sooner_of};
ghost use Rattle.steps.specs.Events.Deed.{OpenCopy, OpenNew};
ghost use Rattle.hall.specs.Drawn.{AreBelow, AreRoomy, IsOpenedCopy, IsOpenedNew, IsSpot, NotOpenedCopy, NotOpenedNew, WhyNoCopySeat, copy_refusal, last_file, new_refused_in, object_left, ticket_left, with_seat};
ghost use Rattle.hall.specs.Steps.{Goes, Steps};

use crate::hall::Hall;
use crate::parts::Parts;
use crate::reading::{copy_in, or_sooner};
use crate::seat::{Hashed, Purpose, Seat};
use entries::change_items::MovedCopy;
use inventory_rows::version_groups::{CopyRow, Version};
use inventory_rows::{Tables, is_primary, is_primary_kind};
use item_refusals::{Past, move_refused};
use kinds::{Refusal, Segments, bad_value, sooner_of, unless};
use pool_rows::Pools;
use sha2::{Digest, Sha256};
use space::{Aim, Claim, Placed, Places, Request, goes_to, may_take, walked};
use store_api::Store;

/// The greatest number that is drawn of tickets and of objects, and one more.
const LAST_NUMBER: u64 = (1 << 62) - 1;

/// How many segments a ticket has at most.
const MOST_SEGMENTS: usize = 1 << 23;

/// The greatest file number of some places, 0 where there are none.
fn last_file(places: &[Placed]) -> u32
    ensures { result ≡ last_file places.now }
{
    let mut last = 0;
    'places: for place in places {
        last = last.max(place.segment.file);
    }
    last
}

/// The first of these pools that may take an object of so many bytes.
fn first_to_take(pools: &Pools, numbers: &[u32], size: u64) -> Option<u32>
    ensures { result ≡ find (λ n. may_take size (row_at n pools.now.pools)) numbers.now }
{
    'numbers: for number in numbers {
        let number = *number;
        if may_take(pools, number, size) {
            return Some(number);
        }
    }
    None
}

/// What the types of the rows keep: volumes ascend by file number, and one of a sequential pool has room for a block.
fn are_roomy(pools: &Pools, pool: u32)
    ensures { AreRoomy pool pools.now }
{
    let _volumes = pools.volumes().len();
    if let Some(capacity) = pools.pool_capacity(pool) {
        let _bytes = capacity.bytes();
    }
}

/// The aim is for a copy.
fn is_for_copies(aim: Aim) -> bool
    ensures { result ≡ is_for_copies aim }
{
    match aim {
        Aim::New { .. } => false,
        Aim::Move { .. } => true,
        Aim::Copy { .. } => true,
    }
}

/// The pool is there, and a copy pool.
fn is_copy_pool(tables: &Tables, pool: u32) -> bool
    ensures { result ≡ option_map_or (λ p. not (is_primary_kind p.kind)) (row_at pool (inv_of tables.now).stores.pools) false }
{
    match tables.pools.pools().get(&pool) {
        Some(pool) => !is_primary_kind(pool.kind),
        None => false,
    }
}

/// The version has a copy in this copy pool already.
fn copied_already(version: &Version, to: u32) -> Option<Refusal>
    ensures { result ≡ foremost (copied_already (copy_in to version.now)) }
{
    match copy_in(to, version) {
        Some(copy) => Some(Refusal::Stale(copy.placed)),
        None => None,
    }
}

impl Parts {
    /// Why no object of so many bytes may be placed in this pool, by the database alone.
    fn new_refused(&self, pool: u32, size: u64) -> Option<Refusal>
        ensures { result ≡ foremost (new_refused_in pool size self.now.vault.database) }
    {
        if size >= 1 << 44 {
            return Some(Refusal::TooLarge);
        }
        if is_primary(self.vault.database().tables(), pool) {
            None
        } else {
            Some(Refusal::NotFound)
        }
    }

    /// There is a further number for an object.
    fn object_left(&self) -> bool
        ensures { result ≡ object_left self.now }
    {
        self.next_object < LAST_NUMBER
    }

    /// There is a further number for a ticket.
    fn ticket_left(&self) -> bool
        ensures { result ≡ ticket_left self.now }
    {
        self.next_ticket < LAST_NUMBER
    }

    /// The index of the free space is made anew, where it was lost.
    fn make_index(&mut self)
        ensures { self.new ≡ self.old }
    {
        self.index
            .make(&self.vault.database().tables().pools, &self.space);
    }

    /// The pool of these places, which were chosen for what is asked: the first one's or, where there is none, as of an object without bytes, the first that may take it. Its one
    /// refusal is `Memory`.
    fn pool_of(&self, request: &Request, places: &[Placed]) -> Result<u32, Refusal>
        requires { choose request.now self.now.vault.database.stores self.now.claims ≡ Ok places.now }
        ensures ok { IfOk result (λ number. pool_for request.now self.now.claims.next_file (counted request.now.actor self.now.claims) self.now.vault.database.stores ≡ Some number) }
        ensures err { IfErr result (λ e. e ≡ Memory) }
    {
        if let Some(first) = places.first() {
            return Ok(first.pool);
        }
        let pools = &self.vault.database().tables().pools;
        let numbers = walked(self.alloc, pools, request.aim)?;
        match first_to_take(pools, numbers.as_slice(), request.size) {
            Some(number) => Ok(number),
            None => unreachable!(),
        }
    }

    /// Where what is asked goes: its pool and its places; or why it goes nowhere. `Memory` too where it would be more than 2^23 segments, which no transaction has room for.
    fn spot(&self, request: &Request) -> Result<(u32, Places), Refusal>
        ensures ok { IfOk result (λ spot. IsSpot request.now self.now.vault.database self.now.claims spot × AreRoomy spot.0 self.now.vault.database.stores) }
        ensures tied { IfOk result (λ spot. IsTied self.now.vault.database) }
        ensures few { IfOk result (λ spot. length spot.1 ≤ 2 ^ 23) }
        ensures err { IfErr result (λ e. (choose request.now self.now.vault.database.stores self.now.claims ≡ Err e) ⊎ (e ≡ Memory)) }
    {
        let pools = &self.vault.database().tables().pools;
        let places = self.index.choose(pools, &self.space, request)?;
        if places.as_slice().len() > MOST_SEGMENTS {
            return Err(Refusal::Memory);
        }
        let pool = self.pool_of(request, places.as_slice())?;
        are_roomy(pools, pool);
        Ok((pool, places))
    }

    /// The ticket gets the number that is drawn next, its seat and its space. Its one refusal is `Memory`; then nothing changes.
    fn seat(&mut self, seat: Seat) -> Result<u64, Refusal>
        requires below { AreBelow self.old }
        requires files { AllByRecursion (λ p. p.segment.file + 1 < 2 ^ 32) seat.places }
        requires left { ticket_left self.old ≡ true }
        ensures ok { IfOk result (λ number. (number ≡ self.old.next_ticket) × (self.new ≡ with_seat seat self.old)) }
        ensures same { OnErr result (self.new ≡ self.old) }
        ensures err { IfErr result (λ e. e ≡ Memory) }
    {
        let number = self.next_ticket;
        let claim = Claim {
            actor: seat.actor,
            places: seat.places.clone()?,
        };
        let last = last_file(seat.places.as_slice());
        self.seats.insert(number, seat)?;
        let pools = &self.vault.database().tables().pools;
        self.index.hold(pools, &self.space, number, &claim);
        if let Err(refusal) = self.space.hold(number, claim) {
            self.index.lose();
            let _ = self.seats.remove(&number);
            return Err(refusal);
        }
        self.space.draw(last);
        self.next_ticket = number + 1;
        Ok(number)
    }

    /// Draws a ticket for a new object, and the object's number, with the index as it is. Where it is refused nothing changes.
    fn draw_new(&mut self, actor: u32, pool: u32, size: u64, prefer: u32) -> Result<u64, Refusal>
        requires { AreBelow self.old }
        ensures ok { IfOk result (λ number. IsOpenedNew actor pool size prefer self.old self.new number) }
        ensures same { OnErr result (self.new ≡ self.old) }
        ensures err { IfErr result (λ e. NotOpenedNew actor pool size prefer self.old e ⊎ (e ≡ Memory)) }
    {
        if let Some(refusal) = self.new_refused(pool, size) {
            return Err(refusal);
        }
        let request = Request {
            actor,
            size,
            aim: Aim::New { pool },
            prefer,
            avoid: 0,
        };
        let (pool, places) = self.spot(&request)?;
        if !(self.object_left() & self.ticket_left()) {
            return Err(Refusal::InventoryFull);
        }
        let object = self.next_object;
        let number = self.seat(Seat {
            actor,
            purpose: Purpose::Storing { object },
            size,
            pool,
            places,
            count: 0,
            hashed: Hashed::Taking(Sha256::new()),
            is_sealed: false,
            is_firm: false,
        })?;
        self.next_object = object + 1;
        Ok(number)
    }

    /// Draws a ticket for a new object, and the object's number. Where it is refused nothing changes. The index of the free space is made anew first, where it was lost.
    pub(crate) fn open_new(
        &mut self,
        actor: u32,
        pool: u32,
        size: u64,
        prefer: u32,
    ) -> Result<u64, Refusal>
        requires { AreBelow self.old }
        ensures ok { IfOk result (λ number. IsOpenedNew actor pool size prefer self.old self.new number) }
        ensures same { OnErr result (self.new ≡ self.old) }
        ensures err { IfErr result (λ e. NotOpenedNew actor pool size prefer self.old e ⊎ (e ≡ Memory)) }
    {
        self.make_index();
        self.draw_new(actor, pool, size, prefer)
    }
}

impl Parts {
    /// Why the object's copy that this transaction placed in the pool doesn't move.
    fn move_refused(&self, object: u64, from: u32, placed: u64) -> Option<Refusal>
        requires { self.now.vault.fault ≡ None }
        ensures { result ≡ foremost (of_version (journal_of self.now.base self.now.vault.journal) object (copy_refused (journal_of self.now.base self.now.vault.journal) object from placed) (version object self.now.vault.database)) }
    {
        let item = MovedCopy {
            object,
            from,
            placed,
            pool: from,
            segments: Segments::new(Vec::new(self.alloc)),
        };
        move_refused(self.past(), self.vault.database().tables(), &[item])
    }

    /// Why no further copy of the object is made in this copy pool.
    fn further_refused(&self, object: u64, to: u32) -> Option<Refusal>
        requires { self.now.vault.fault ≡ None }
        ensures { result ≡ foremost (of_version (journal_of self.now.base self.now.vault.journal) object (λ w. copied_already (copy_in to w)) (version object self.now.vault.database)) }
    {
        match self.vault.database().tables().objects.find(object) {
            Some(version) => copied_already(version, to),
            None => Some(self.gone(object)),
        }
    }

    /// Why no copy of the object is made so, by what can be seen of it.
    fn copy_refused(&self, object: u64, aim: Aim) -> Option<Refusal>
        requires { self.now.vault.fault ≡ None }
        ensures { result ≡ copy_refusal object aim self.now }
    {
        let tables = self.vault.database().tables();
        match aim {
            Aim::New { .. } => Some(bad_value()),
            Aim::Move {
                from,
                placed,
                to,
                ..
            } => {
                let there = unless(tables.pools.pools().get(&to).is_some(), Refusal::NotFound);
                sooner_of(there, self.move_refused(object, from, placed))
            }
            Aim::Copy { to } => {
                let there = unless(is_copy_pool(tables, to), Refusal::NotFound);
                sooner_of(there, self.further_refused(object, to))
            }
        }
    }

    /// It can be asked where a copy goes: the object is there, and the pool that the aim goes to.
    fn can_place_copy(&self, object: u64, aim: Aim) -> bool
        ensures { result ≡ can_place_copy object aim self.now.vault.database }
    {
        let tables = self.vault.database().tables();
        let there = tables.objects.find(object).is_some();
        is_for_copies(aim) & (there & tables.pools.pools().get(&goes_to(aim)).is_some())
    }

    /// How many bytes an object has; 0 of one that isn't there.
    fn size_of(&self, object: u64) -> u64
        ensures value { result ≡ size_of object self.now.vault.database }
        ensures small { result < 2 ^ 44 }
    {
        match self.vault.database().tables().objects.find(object) {
            Some(version) => version.size.bytes(),
            None => 0,
        }
    }

    /// Where a copy goes, or why it goes nowhere: of the copy's own refusal and that of placing the one that comes first.
    fn copy_spot(&self, own: Option<Refusal>, request: &Request) -> Result<(u32, Places), Refusal>
        ensures ok { IfOk result (λ spot. (own ≡ None) × IsSpot request.now self.now.vault.database self.now.claims spot × AreRoomy spot.0 self.now.vault.database.stores) }
        ensures tied { IfOk result (λ spot. IsTied self.now.vault.database) }
        ensures few { IfOk result (λ spot. length spot.1 ≤ 2 ^ 23) }
        ensures err { IfErr result (λ e. WhyNoCopySeat own request.now self.now e ⊎ (e ≡ Memory)) }
    {
        match self.spot(request) {
            Ok(spot) => match own {
                Some(refusal) => Err(refusal),
                None => Ok(spot),
            },
            Err(Refusal::Memory) => Err(Refusal::Memory),
            Err(refusal) => Err(or_sooner(own, refusal)),
        }
    }

    /// Draws a ticket for a copy, with the index as it is. Where it is refused nothing changes.
    fn draw_copy(&mut self, actor: u32, object: u64, aim: Aim, avoid: u32) -> Result<u64, Refusal>
        requires below { AreBelow self.old }
        requires running { self.old.vault.fault ≡ None }
        ensures ok { IfOk result (λ number. IsOpenedCopy actor object aim avoid self.old self.new number) }
        ensures same { OnErr result (self.new ≡ self.old) }
        ensures err { IfErr result (λ e. NotOpenedCopy actor object aim avoid self.old e ⊎ (e ≡ Memory)) }
    {
        let own = self.copy_refused(object, aim);
        if !self.can_place_copy(object, aim) {
            return match own {
                Some(refusal) => Err(refusal),
                None => unreachable!(),
            };
        }
        let size = self.size_of(object);
        let request = Request {
            actor,
            size,
            aim,
            prefer: 0,
            avoid,
        };
        let (pool, places) = self.copy_spot(own, &request)?;
        if !self.ticket_left() {
            return Err(Refusal::InventoryFull);
        }
        self.seat(Seat {
            actor,
            purpose: Purpose::Copying { object, aim },
            size,
            pool,
            places,
            count: 0,
            hashed: Hashed::Unhashed,
            is_sealed: false,
            is_firm: false,
        })
    }

    /// Draws a ticket for a copy. Where it is refused nothing changes. The index of the free space is made anew first, where it was lost.
    pub(crate) fn open_copy(
        &mut self,
        actor: u32,
        object: u64,
        aim: Aim,
        avoid: u32,
    ) -> Result<u64, Refusal>
        requires below { AreBelow self.old }
        requires running { self.old.vault.fault ≡ None }
        ensures ok { IfOk result (λ number. IsOpenedCopy actor object aim avoid self.old self.new number) }
        ensures same { OnErr result (self.new ≡ self.old) }
        ensures err { IfErr result (λ e. NotOpenedCopy actor object aim avoid self.old e ⊎ (e ≡ Memory)) }
    {
        self.make_index();
        self.draw_copy(actor, object, aim, avoid)
    }
}

impl<S: Store> Hall<S> {
    /// Draws a ticket for a new object of `size` bytes in the hierarchy that begins with the storage pool `pool`, on the volume with the file `prefer` before others (0: none), and answers the
    /// ticket's number. Refused with `RunFull` and `LogFault`, as any step of a full run or of a halted hall; `TooLarge` where no object has so many bytes; `NotFound` where the pool isn't
    /// there or is none for new objects; `NoSpace` where no pool of the hierarchy has room, and `Busy` where one would have, if other actors' tickets or the transactions that aren't
    /// forced yet were gone; `InventoryFull` where no number is left, of a file, an object or a ticket; and `Memory`, also where the place would be more than 2^23 segments: no transaction that
    /// brings as many fits a record of the log. Nothing changes then. It makes no device call.
    pub fn open_new(
        &mut self,
        actor: u32,
        pool: u32,
        size: u64,
        prefer: u32,
    ) -> Result<u64, Refusal>
        ensures step { Steps S.told S.moment_of S.faults_of actor (OpenNew pool size prefer result) self.old self.new }
        ensures listed { is_listed (OpenNew pool size prefer result) ≡ true }
        ensures goes { Goes S.told self.old self.new }
        ensures store { self.new.store ≡ self.old.store }
    {
        if let Some(refusal) = self.parts.ended(self.store.moment()) {
            return Err(refusal);
        }
        self.parts.open_new(actor, pool, size, prefer)
    }

    /// Draws a ticket for a copy of an object, in the pool or the hierarchy that the aim names, not on the volume with the file `avoid` (0: none), and answers the ticket's number. Refused with
    /// `RunFull` and `LogFault`, as any step of a full run or of a halted hall; `BadValue` where the aim is for no copy; `NotFound` where the pool isn't there, or for a further copy is no
    /// copy pool, or the object isn't there, or its copy that is to move; `Gone` where a transaction of the run removed the object; `Stale` where the copy that is to move was placed or changed by
    /// another transaction, or the copy pool has a copy already; `NoSpace`, `Busy`, `InventoryFull` and `Memory` as for a new object. Nothing changes then. It makes no device call.
    pub fn open_copy(
        &mut self,
        actor: u32,
        object: u64,
        aim: Aim,
        avoid: u32,
    ) -> Result<u64, Refusal>
        ensures step { Steps S.told S.moment_of S.faults_of actor (OpenCopy object aim avoid result) self.old self.new }
        ensures listed { is_listed (OpenCopy object aim avoid result) ≡ true }
        ensures goes { Goes S.told self.old self.new }
        ensures store { self.new.store ≡ self.old.store }
    {
        if let Some(refusal) = self.parts.ended(self.store.moment()) {
            return Err(refusal);
        }
        self.parts.open_copy(actor, object, aim, avoid)
    }
}
