//! What a commit asks: why it is refused, and the transaction that comes of it.
ghost use Rattle.std.specs.Prelude.{◌≡◌, ◌^◌, ◌==◌, ◌&&◌, Some, None, length, map, nat_le, not, option_copied};
ghost use Rattle.std.specs.List.{flat_map, list_all, list_any};
ghost use Rattle.entries.specs.declared.change.Change.TheVariants.{Pool as OfStore};
ghost use Rattle.kinds.specs.Answers.{AnswersBy};
ghost use Rattle.kinds.specs.Refusals.{bad_value, foremost, unless};
ghost use Rattle.kinds.specs.declared.refusal.Refusal.TheVariants.{RecordFull};
ghost use Rattle.entries.specs.EntryForm.{entry as entry_form};
ghost use Rattle.inventory_rules.specs.Run.{journal_of};
ghost use Rattle.inventory_rules.specs.Versions.{name_once};
ghost use Rattle.machine.specs.Causes.{is_plain};
ghost use Rattle.machine.specs.Changes.{all_tickets};
ghost use Rattle.machine.specs.Machine.{held_by, held_refused};
ghost use Rattle.machine.specs.State.{is_storing, ticket};
ghost use Rattle.hall.specs.Held.{purpose_of};
ghost use Rattle.hall.specs.Seats.{own_seat};
ghost use Rattle.hall.specs.Sights.{seen, sight_of, state_of, ticket_of, tickets_of};
ghost use Rattle.hall.specs.Commits.{IsAsked, all_are, asked_unfit, differ, differs, digest_at, is_such, lacks, lies, made_refused, new_unfit, placed_unfit, unfit, unready};

use crate::parts::Parts;
use crate::seat::{Hashed, Purpose, Seat};
use entries::{Change, Entry};
use item_refusals::Past;
use kinds::{By, Digest, Holder, PoolChange, Refusal, Verb, bad_value, sooner_of, unless};
use space::{Aim, Placed};
use std::alloc::Global;
use steps::{Asked, HeldItem, Item};

/// What a ticket has to be for a commit.
#[derive(Clone, Copy)]
enum Needed {
    /// The caller's.
    There,
    /// For a new object, where it is there.
    New,
    /// Sealed, where it is there.
    Whole,
}

/// Where a ticket's space lies.
#[derive(Clone, Copy)]
pub(crate) enum Where {
    /// In part at least on the volume with this file number.
    Volume(u32),
    /// In the storage pool with this number.
    Pool(u32),
}

/// An item that is asked for, with the digest that the bytes of its ticket have to have.
trait Given {
    ghost use Rattle.kinds.specs.declared.segment.Digest.{Digest as Sum};

    /// The digest.
    ghost digest: { Self → Sum };

    /// The digest.
    fn digest(&self) -> Digest
        ensures { result ≡ digest self.now };
}

impl Given for Item {
    ghost digest = { λ i. i.digest };

    fn digest(&self) -> Digest {
        self.digest
    }
}

impl Given for HeldItem {
    ghost digest = { λ i. i.digest };

    fn digest(&self) -> Digest {
        self.digest
    }
}

fn is_new(purpose: &Purpose) -> bool
    ensures { result ≡ is_storing (purpose_of purpose.now) }
{
    match purpose {
        Purpose::Storing { .. } => true,
        Purpose::Copying { .. } => false,
    }
}

/// Whether the ticket is for a copy that moves, or for a further one, as it is asked.
fn is_such(moving: bool, purpose: &Purpose) -> bool
    ensures { result ≡ is_such moving (purpose_of purpose.now) }
{
    match purpose {
        Purpose::Copying {
            aim: Aim::Move { .. },
            ..
        } => moving,
        Purpose::Copying { .. } => !moving,
        Purpose::Storing { .. } => false,
    }
}

/// What has a step of its own, or comes from tickets alone, isn't asked so.
fn is_plain(change: &Change) -> bool
    ensures { result ≡ is_plain change.now }
{
    match change {
        Change::Backup(_)
        | Change::Hold(_)
        | Change::Move(_)
        | Change::Copy(_)
        | Change::Reuse { .. }
        | Change::DbBegin { .. }
        | Change::DbEnd { .. } => false,
        _ => true,
    }
}

fn is_other(number: u64, others: &[u64]) -> bool
    ensures { result ≡ list_all (λ other. not (number == other)) others.now }
{
    'others: for other in others {
        if number == *other {
            return false;
        }
    }
    true
}

/// A number stands only once in the list.
fn stand_once(numbers: &[u64]) -> bool
    ensures { result ≡ name_once numbers.now }
{
    'numbers: for i in 0..numbers.len() {
        if !is_other(numbers[i], &numbers[i + 1..]) {
            return false;
        }
    }
    true
}

/// A commit has at most 256 tickets, each of them once.
fn are_few(numbers: &[u64]) -> bool
    ensures { result ≡ (name_once numbers.now && nat_le (length numbers.now) 256) }
{
    if numbers.len() > 256 {
        return false;
    }
    stand_once(numbers)
}

/// The digest of a sealed ticket's bytes, where it is for a new object.
fn kept_by(seat: &Seat) -> Option<Digest>
    ensures { result ≡ digest_at (Some seat.now) }
{
    match &seat.hashed {
        Hashed::Done(digest) => Some(*digest),
        Hashed::Taking(_) => None,
        Hashed::Unhashed => None,
    }
}

fn differs(given: Digest, kept: Option<Digest>) -> Option<Refusal>
    ensures { result ≡ foremost (differs given kept) }
{
    match kept {
        Some(kept) => unless(kept == given, Refusal::DigestDiffers { kept, given }),
        None => None,
    }
}

fn is_on(file: u32, places: &[Placed]) -> bool
    ensures { result ≡ list_any (λ p. p.segment.file == file) places.now }
{
    places.iter().any(|place| place.segment.file == file)
}

fn lies(here: Where, seat: &Seat) -> bool
    ensures { result ≡ lies here (ticket_of 0 seat.now) }
{
    match here {
        Where::Volume(file) => is_on(file, seat.places.as_slice()),
        Where::Pool(pool) => seat.pool == pool,
    }
}

/// Why the transaction is longer than a record may be, where it is. Refused only for want of memory.
fn length_refused(alloc: Global, entry: &Entry) -> Result<Option<Refusal>, Refusal>
    ensures { AnswersBy (λ found. found) result (foremost (unless (nat_le (length (entry_form.spell entry.now)) (2 ^ 24)) RecordFull)) }
{
    match entry.encode(alloc) {
        Ok(_) => Ok(None),
        Err(refusal) => {
            if refusal.number() == 30 {
                Ok(Some(refusal))
            } else {
                Err(refusal)
            }
        }
    }
}

impl Parts {
    /// The actor's ticket with this number.
    pub(crate) fn own(&self, actor: u32, number: u64) -> Option<&Seat>
        ensures seat { option_copied result ≡ own_seat actor number self.now }
        ensures ticket { ticket number (sight_of actor self.now).tickets ≡ seen number (own_seat actor number self.now) }
    {
        let _ = self.seats.len();
        match self.seats.get(&number) {
            Some(seat) => {
                if seat.actor == actor {
                    Some(seat)
                } else {
                    None
                }
            }
            None => None,
        }
    }

    fn lacks(&self, needed: Needed, actor: u32, number: u64) -> Option<Refusal>
        ensures { result ≡ foremost (lacks needed (ticket number (sight_of actor self.now).tickets)) }
    {
        match self.own(actor, number) {
            Some(seat) => match needed {
                Needed::There => None,
                Needed::New => unless(is_new(&seat.purpose), bad_value()),
                Needed::Whole => unless(seat.is_sealed, Refusal::InUse(By::Ticket(number))),
            },
            None => match needed {
                Needed::There => Some(Refusal::NotFound),
                Needed::New => None,
                Needed::Whole => None,
            },
        }
    }

    /// Why one of the tickets with these numbers isn't as it has to be.
    fn all_lack(&self, needed: Needed, actor: u32, numbers: &[u64]) -> Option<Refusal>
        ensures { result ≡ foremost (flat_map (λ number. lacks needed (ticket number (sight_of actor self.now).tickets)) numbers.now) }
    {
        let mut found = None;
        'numbers: for number in numbers {
            found = sooner_of(found, self.lacks(needed, actor, *number));
        }
        found
    }

    /// Whether all of the actor's tickets with these numbers are for copies that move, or all for further ones.
    pub(crate) fn all_are(&self, moving: bool, actor: u32, numbers: &[u64]) -> bool
        ensures { result ≡ all_are moving (all_tickets numbers.now (sight_of actor self.now)) }
    {
        'numbers: for number in numbers {
            if let Some(seat) = self.own(actor, *number) {
                if !is_such(moving, &seat.purpose) {
                    return false;
                }
            }
        }
        true
    }

    fn new_unfit(&self, count: usize, actor: u32, numbers: &[u64]) -> Option<Refusal>
        ensures { result ≡ foremost (new_unfit count numbers.now (sight_of actor self.now)) }
    {
        let alike = unless(count == numbers.len(), bad_value());
        sooner_of(alike, self.all_lack(Needed::New, actor, numbers))
    }

    fn placed_unfit(&self, actor: u32, numbers: &[u64]) -> Option<Refusal>
        ensures { result ≡ foremost (placed_unfit numbers.now (sight_of actor self.now)) }
    {
        if numbers.is_empty() {
            return Some(bad_value());
        }
        let alike = self.all_are(true, actor, numbers) || self.all_are(false, actor, numbers);
        unless(alike, bad_value())
    }

    fn asked_unfit(&self, actor: u32, asked: &Asked, numbers: &[u64]) -> Option<Refusal>
        ensures { result ≡ foremost (asked_unfit asked.now numbers.now (sight_of actor self.now)) }
    {
        match asked {
            Asked::Plain(change) => unless(numbers.is_empty() && is_plain(change), bad_value()),
            Asked::Backup { items, .. } => self.new_unfit(items.as_slice().len(), actor, numbers),
            Asked::Hold { items, .. } => self.new_unfit(items.as_slice().len(), actor, numbers),
            Asked::Placed => self.placed_unfit(actor, numbers),
        }
    }

    /// Why what is asked and the tickets don't go together, where they don't.
    #[tactic(auto, using(item_refusals::proofs::Foremost::foremost_append))]
    fn unfit(&self, actor: u32, asked: &Asked, numbers: &[u64]) -> Option<Refusal>
        ensures { result ≡ foremost (unfit asked.now numbers.now (sight_of actor self.now)) }
    {
        let there = self.all_lack(Needed::There, actor, numbers);
        let few = unless(are_few(numbers), bad_value());
        sooner_of(
            there,
            sooner_of(few, self.asked_unfit(actor, asked, numbers)),
        )
    }

    /// The digest of the bytes of the actor's ticket with this number, where it is sealed and for a new object.
    fn digest_at(&self, actor: u32, number: u64) -> Option<Digest>
        ensures { result ≡ digest_at (own_seat actor number self.now) }
    {
        match self.own(actor, number) {
            Some(seat) => kept_by(seat),
            None => None,
        }
    }

    /// Which of the digests that are given isn't that of the bytes of its ticket.
    fn differ<T: Given>(&self, items: &[T], actor: u32, numbers: &[u64]) -> Option<Refusal>
        ensures { result ≡ foremost (differ (map T.digest items.now) actor numbers.now self.now) }
    {
        let mut found = None;
        'items: for (at, item) in items.iter().enumerate() {
            match numbers.get(at) {
                Some(number) => {
                    let kept = self.digest_at(actor, *number);
                    found = sooner_of(found, differs(item.digest(), kept));
                }
                None => return found,
            }
        }
        found
    }

    /// Why the tickets may not be committed yet, or not for what is asked.
    #[tactic(auto, using(item_refusals::proofs::Foremost::foremost_append))]
    fn unready(&self, actor: u32, asked: &Asked, numbers: &[u64]) -> Option<Refusal>
        ensures { result ≡ foremost (unready asked.now actor numbers.now self.now) }
    {
        let whole = self.all_lack(Needed::Whole, actor, numbers);
        match asked {
            Asked::Backup { items, .. } => {
                sooner_of(self.differ(items.as_slice(), actor, numbers), whole)
            }
            Asked::Hold { items, .. } => {
                sooner_of(self.differ(items.as_slice(), actor, numbers), whole)
            }
            Asked::Plain(_) => whole,
            Asked::Placed => whole,
        }
    }

    /// The least ticket whose space lies there.
    pub(crate) fn held_there(&self, here: Where) -> Option<Refusal>
        ensures { result ≡ foremost (held_by (lies here) (tickets_of self.now.seats)) }
    {
        'seats: for (number, seat) in &self.seats {
            if lies(here, seat) {
                return Some(Refusal::Busy(Holder::Ticket(*number)));
            }
        }
        None
    }

    fn pool_held(&self, change: &PoolChange) -> Option<Refusal>
        ensures { result ≡ foremost (held_refused (OfStore change.now) (state_of self.now)) }
    {
        let pools = &self.vault.database().tables().pools;
        match change {
            PoolChange::Volume {
                verb: Verb::Delete,
                volume,
                ..
            } => match pools.volume_named(volume) {
                Some(file) => self.held_there(Where::Volume(file)),
                None => None,
            },
            PoolChange::Pool {
                verb: Verb::Delete,
                pool,
                ..
            } => match pools.pool_named(pool) {
                Some(number) => self.held_there(Where::Pool(number)),
                None => None,
            },
            _ => None,
        }
    }

    /// Who holds what the transaction would take away.
    fn held_refused(&self, change: &Change) -> Option<Refusal>
        ensures { result ≡ foremost (held_refused change.now (state_of self.now)) }
    {
        match change {
            Change::Pool(change) => self.pool_held(change),
            Change::DbDelete { file } => match &self.image {
                Some(image) => unless(
                    image.file != *file,
                    Refusal::Busy(Holder::Image(image.actor)),
                ),
                None => None,
            },
            _ => None,
        }
    }

    /// Why the transaction isn't made: it isn't legal, or longer than a record may be, or others hold what it would take away. What the run's journal tells is asked of `past`. Refused only for
    /// want of memory.
    pub(crate) fn change_refused<J: Past>(
        &self,
        past: &J,
        entry: &Entry,
    ) -> Result<Option<Refusal>, Refusal>
        requires { J.journal past.now ≡ journal_of self.now.base self.now.vault.journal }
        ensures { AnswersBy (λ found. found) result (foremost (made_refused entry.now.actor (Some entry.now.change) self.now)) }
    {
        let illegal = self.vault.database().refused(past, &entry.change);
        let held = self.held_refused(&entry.change);
        match length_refused(self.alloc, entry) {
            Ok(long) => Ok(sooner_of(illegal, sooner_of(long, held))),
            Err(refusal) => Err(refusal),
        }
    }

    /// The transaction that is asked, of which nothing is made yet. Refused with the foremost of all that refuses it, or for want of memory. What is asked and the tickets don't go together, or
    /// a ticket isn't sealed or has other bytes than were meant, or the transaction isn't legal, or longer than a record may be, or others hold what it would take away.
    pub(crate) fn asked_entry<J: Past>(
        &self,
        past: &J,
        actor: u32,
        asked: &Asked,
        numbers: &[u64],
    ) -> Result<Entry, Refusal>
        requires { J.journal past.now ≡ journal_of self.now.base self.now.vault.journal }
        ensures { IsAsked actor asked.now numbers.now self.now result }
    {
        if let Some(refusal) = self.unfit(actor, asked, numbers) {
            return Err(refusal);
        }
        let change = match self.change_asked(actor, asked, numbers) {
            Ok(change) => change,
            Err(refusal) => return Err(refusal),
        };
        let entry = Entry { actor, change };
        let unready = self.unready(actor, asked, numbers);
        match self.change_refused(past, &entry) {
            Ok(refused) => match sooner_of(unready, refused) {
                None => Ok(entry),
                Some(refusal) => {
                    drop(entry);
                    Err(refusal)
                }
            },
            Err(refusal) => {
                drop(entry);
                Err(refusal)
            }
        }
    }
}
