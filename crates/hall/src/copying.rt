//! Pieces of objects that tickets copy.
ghost use Rattle.std.specs.Prelude.{◌≡◌, ◌+◌, ◌*◌, ◌<◌, ◌≤◌, ◌^◌, ◌++◌, ℕ, ◌∷◌, [], None, length, true, IfSome};
ghost use Rattle.std.specs.List.{AllByRecursion};
ghost use Rattle.store_api.specs.Cause.{NoneFell};
ghost use Rattle.store_api.specs.Runs.{GoesOn};
ghost use Rattle.store_api.specs.Told.{Told};
ghost use Rattle.kinds.specs.Refusals.{foremost};
ghost use Rattle.inventory_rows.specs.State.{inv_of};
ghost use Rattle.inventory_rows.specs.pool_tables.Rows.{row_at};
ghost use Rattle.contents.specs.Reading.{segments_in};
ghost use Rattle.machine.specs.Pieces.{IsCopyLost, RoseAt};
ghost use Rattle.machine.specs.State.{object_of};
ghost use Rattle.steps.specs.Events.{is_listed};
ghost use Rattle.steps.specs.Events.Deed.{CopyPiece};
ghost use Rattle.machine.specs.Causes.{object_gone};
ghost use Rattle.hall.specs.Copying.{BecomesCopied, Copies, CopiesFor, EndsCopied, EndsOne, IsCopyOf, copy_refused, copying_refused_at, or_clear, writing};
ghost use Rattle.hall.specs.Frames.{segments_of};
ghost use Rattle.hall.specs.Held.{purpose_of};
ghost use Rattle.hall.specs.Reading.{EndsBy, HasPiece, calls_for, seen_by_all, tally};
ghost use Rattle.hall.specs.Seats.{ended_at};
ghost use Rattle.hall.specs.Steps.{Goes, Steps};
ghost use Rattle.hall.specs.Taken.{HasSpace, IsSomeThat};

use crate::frame_calls::write_frames;
use crate::hall::Hall;
use crate::laws::frame_is_written_beside;
use crate::parts::Parts;
use crate::reading::{piece_length, read_one, tally};
use crate::seat::{Purpose, Seat};
use crate::taking::{MOST_BYTES, take_at};
use inventory::Inventory;
use inventory_rows::Tables;
use inventory_rows::version_groups::CopyRow;
use kinds::{By, Refusal, sooner_of, unless};
use store_api::Store;
use vault::laws::pending;

/// What came of a piece that was to be copied.
#[derive(Clone, Copy)]
pub(crate) enum Copied {
    /// No copy was read, since each has lost some of it.
    Unread,
    /// It was written, and each copy has lost some of it by now.
    Lost,
    /// It was written.
    Written,
    /// A call on this file failed when it was written.
    Failed(u32),
}

/// What was written is copied where one copy is clear.
fn or_clear(copied: Copied, clear: bool) -> Copied
    ensures { result ≡ or_clear copied clear }
{
    match (copied, clear) {
        (Copied::Lost, true) => Copied::Written,
        (copied, _) => copied,
    }
}

/// None of the copy's segments that have bytes of the piece is lost since this tally of them was made.
fn is_clear<S: Store>(
    store: &S,
    tables: &Tables,
    copy: &CopyRow,
    tallied: Option<u128>,
    offset: u64,
    count: usize,
) -> bool
    requires piece { HasPiece (inv_of tables.now) offset count copy.now }
    ensures { (before : ℕ → ℕ) → NoneFell before (S.faults_of store.now) → tallied ≡ tally before (inv_of tables.now) (segments_in 0 offset count copy.now.segments)
        → EndsBy (IsCopyLost (RoseAt before (S.faults_of store.now)) (inv_of tables.now) offset count copy.now) result }
{
    if tallied.is_none() {
        return false;
    }
    tally(store, tables, copy.segments.as_slice(), offset, count) == tallied
}

/// Reads the piece that the ticket takes next from this copy, and writes it into the ticket's frames; not where some of it was lost when the tally was made, or since.
fn copy_one<S: Store>(
    store: &mut S,
    tables: &Tables,
    copy: &CopyRow,
    tallied: Option<u128>,
    seat: &Seat,
    into: &mut [u8],
) -> Copied
    requires piece { HasPiece (inv_of tables.now) seat.now.count (length into.old) copy.now }
    requires space { HasSpace seat.now }
    requires room { seat.now.count + length into.old ≤ seat.now.size }
    requires time { S.moment_of store.old + calls_for seat.now.count (length into.old) (copy.now ∷ []) + 2 * length into.old < 2 ^ 62 }
    ensures calls { Copies S.told S.moment_of S.faults_of (copy.now ∷ []) (object_of (purpose_of seat.now.purpose)) seat.now.count (segments_of seat.now.places) into.new result store.old store.new }
    ensures ends { (before : ℕ → ℕ) → NoneFell before (S.faults_of store.old) → tallied ≡ tally before (inv_of tables.now) (segments_in 0 seat.now.count (length into.old) copy.now.segments)
        → EndsOne (IsCopyLost (RoseAt before (S.faults_of store.new)) (inv_of tables.now) seat.now.count (length into.old) copy.now) (segments_of seat.now.places) (S.faults_of store.old) (S.faults_of store.new) result }
    ensures len { length into.new ≡ length into.old }
    ensures brief { S.moment_of store.new ≤ S.moment_of store.old + calls_for seat.now.count (length into.old) (copy.now ∷ []) + writing result (length into.old) }
    ensures later { S.moment_of store.old ≤ S.moment_of store.new }
    ensures counts { NoneFell (S.faults_of store.old) (S.faults_of store.new) }
{
    if !read_one(store, tables, copy, tallied, seat.count, into) {
        return Copied::Unread;
    }
    let places = seat.places.as_slice();
    match write_frames(store, seat.object(), places, seat.count, into) {
        Ok(()) => Copied::Lost,
        Err(file) => Copied::Failed(file),
    }
}

/// Reads the piece that the ticket takes next from the first of these copies that can be read, and writes it into the ticket's frames. How often calls on each copy's files have failed is
/// looked at before any is read, and behind the last call.
fn copy_any<S: Store>(
    store: &mut S,
    tables: &Tables,
    copies: &[CopyRow],
    seat: &Seat,
    into: &mut [u8],
) -> Copied
    requires pieces { AllByRecursion (HasPiece (inv_of tables.now) seat.now.count (length into.old)) copies.now }
    requires space { HasSpace seat.now }
    requires room { seat.now.count + length into.old ≤ seat.now.size }
    requires time { S.moment_of store.old + calls_for seat.now.count (length into.old) copies.now + 2 * length into.old < 2 ^ 62 }
    ensures calls { Copies S.told S.moment_of S.faults_of copies.now (object_of (purpose_of seat.now.purpose)) seat.now.count (segments_of seat.now.places) into.new result store.old store.new }
    ensures ends { EndsCopied (AllByRecursion (IsCopyLost (RoseAt (S.faults_of store.old) (S.faults_of store.new)) (inv_of tables.now) seat.now.count (length into.old)) copies.now) (segments_of seat.now.places)
        (S.faults_of store.old) (S.faults_of store.new) result }
    ensures len { length into.new ≡ length into.old }
    ensures brief { S.moment_of store.new ≤ S.moment_of store.old + calls_for seat.now.count (length into.old) copies.now + writing result (length into.old) }
    ensures later { S.moment_of store.old ≤ S.moment_of store.new }
    ensures counts { NoneFell (S.faults_of store.old) (S.faults_of store.new) }
{
    let [earlier @ .., copy] = copies else {
        return Copied::Unread;
    };
    let tallied = tally(
        store,
        tables,
        copy.segments.as_slice(),
        seat.count,
        into.len(),
    );
    match copy_any(store, tables, earlier, seat, into) {
        Copied::Unread => {
            let copied = copy_one(store, tables, copy, tallied, seat, into);
            or_clear(
                copied,
                is_clear(store, tables, copy, tallied, seat.count, into.len()),
            )
        }
        Copied::Lost => or_clear(
            Copied::Lost,
            is_clear(store, tables, copy, tallied, seat.count, into.len()),
        ),
        Copied::Written => Copied::Written,
        Copied::Failed(file) => Copied::Failed(file),
    }
}

// ---- a ticket

impl Parts {
    /// Why no piece of the object is copied, where that is so: it is kept no longer.
    fn object_gone(&self, object: u64) -> Option<Refusal>
        requires { self.now.vault.fault ≡ None }
        ensures { result ≡ foremost (object_gone object (seen_by_all self.now)) }
    {
        match self.vault.database().tables().objects.find(object) {
            Some(_) => None,
            None => Some(self.gone(object)),
        }
    }

    /// Why this ticket copies no piece, where that is so.
    #[tactic(auto, using(item_refusals::proofs::Foremost::foremost_append))]
    fn seat_refused(&self, number: u64, seat: &Seat) -> Option<Refusal>
        requires { self.now.vault.fault ≡ None }
        ensures { result ≡ foremost (copy_refused number self.now seat.now) }
    {
        match seat.purpose {
            Purpose::Storing { .. } => Some(Refusal::InUse(By::Ticket(number))),
            Purpose::Copying { object, .. } => {
                let open = unless(!seat.is_sealed, Refusal::InUse(By::Ticket(number)));
                sooner_of(open, self.object_gone(object))
            }
        }
    }

    /// Why the actor's ticket copies no piece, where that is so.
    fn copying_refused(&self, actor: u32, number: u64) -> Option<Refusal>
        requires { self.now.vault.fault ≡ None }
        ensures { result ≡ foremost (copying_refused_at actor number self.now) }
    {
        match self.seats.get(&number) {
            Some(seat) if seat.actor == actor => self.seat_refused(number, seat),
            _ => Some(Refusal::NotFound),
        }
    }

    /// What the ticket with this number, which has to be held, took, or what becomes of it.
    fn copied(&mut self, number: u64, bytes: &[u8], copied: Copied) -> Result<u64, Refusal>
        requires { IsSomeThat (row_at number self.old.seats) (λ s. s.count + length bytes.now < 2 ^ 64) }
        ensures { BecomesCopied number bytes.now copied result self.old self.new }
    {
        match copied {
            Copied::Written => Ok(take_at(&mut self.seats, number, bytes, None)),
            Copied::Unread => Err(Refusal::Unavailable),
            Copied::Lost => Err(Refusal::Unavailable),
            Copied::Failed(file) => {
                self.drop_seat(number);
                Err(Refusal::WriteFault(file))
            }
        }
    }

    /// Copies the piece that the ticket with this number, which has to be for a copy of an object that is kept, takes next, by way of this buffer of 65,536 bytes; and answers how many bytes
    /// the ticket has then.
    fn copy_through<S: Store>(
        &mut self,
        store: &mut S,
        number: u64,
        buffer: &mut [u8],
    ) -> Result<u64, Refusal>
        requires there { IsSomeThat (row_at number self.old.seats) (IsCopyOf self.old.vault.database) }
        requires room { length buffer.old ≡ 2 ^ 16 }
        requires time { S.moment_of store.old + 2 ^ 24 ≤ 2 ^ 62 }
        ensures did { CopiesFor S.told S.moment_of S.faults_of number (row_at number self.old.seats) result store.old store.new self.old self.new }
        ensures brief { S.moment_of store.new ≤ S.moment_of store.old + 2 ^ 24 }
        ensures later { S.moment_of store.old ≤ S.moment_of store.new }
        ensures counts { NoneFell (S.faults_of store.old) (S.faults_of store.new) }
    {
        let seat = match self.seats.get(&number) {
            Some(seat) => seat,
            None => unreachable!(),
        };
        let tables = self.vault.database().tables();
        let version = match tables.objects.find(seat.object()) {
            Some(version) => version,
            None => unreachable!(),
        };
        let count = piece_length(MOST_BYTES, seat.size, seat.count);
        let copies = version.copies.as_slice();
        let copied = copy_any(store, tables, copies, seat, &mut buffer[..count]);
        self.copied(number, &buffer[..count], copied)
    }

    /// The same with a buffer of its own.
    fn copy<S: Store>(&mut self, store: &mut S, number: u64) -> Result<u64, Refusal>
        requires there { IsSomeThat (row_at number self.old.seats) (IsCopyOf self.old.vault.database) }
        requires time { S.moment_of store.old + 2 ^ 24 ≤ 2 ^ 62 }
        ensures did { CopiesFor S.told S.moment_of S.faults_of number (row_at number self.old.seats) result store.old store.new self.old self.new }
        ensures brief { S.moment_of store.new ≤ S.moment_of store.old + 2 ^ 24 }
        ensures later { S.moment_of store.old ≤ S.moment_of store.new }
        ensures counts { NoneFell (S.faults_of store.old) (S.faults_of store.new) }
    {
        let mut buffer = [0u8; MOST_BYTES];
        self.copy_through(store, number, &mut buffer)
    }
}

impl<S: Store> Hall<S> {
    /// Copies the next piece of its object into the actor's ticket, as many bytes as are left, at most 65,536, and answers how many the ticket has then. The object's copies are tried in their
    /// order, as by `read_piece`. Refused with `RunFull` and `LogFault` as any step of a full run or of a halted hall; with `NotFound` where the actor has no such ticket; with `InUse` where the
    /// ticket is a new object's, or sealed; with `Gone` where a transaction of this run removed the object; and with `Unavailable` exactly where each of its copies has lost some of the piece: the
    /// ticket then takes nothing. Where a call on the ticket's files fails it is `WriteFault` of that file, and the ticket is dropped. It takes no memory, and makes one device call at most for
    /// each segment of the copies that it tries, and two for each of the ticket's that the bytes touch.
    pub fn copy_piece(&mut self, actor: u32, ticket: u64) -> Result<u64, Refusal>
        ensures step { Steps S.told S.moment_of S.faults_of actor (CopyPiece ticket result) self.old self.new }
        ensures listed { is_listed (CopyPiece ticket result) ≡ true }
        ensures goes { Goes S.told self.old self.new }
        ensures time { S.moment_of self.new.store ≤ S.moment_of self.old.store + 2 ^ 24 }
        ensures later { S.moment_of self.old.store ≤ S.moment_of self.new.store }
        ensures counts { NoneFell (S.faults_of self.old.store) (S.faults_of self.new.store) }
        ensures files { Told (S.told self.old.store) (S.told self.new.store) (GoesOn (λ file. 4 ≤ file)) }
    {
        frame_is_written_beside();
        pending::<Inventory>();
        if let Some(refusal) = self.parts.ended(self.store.moment()) {
            return Err(refusal);
        }
        if let Some(refusal) = self.parts.copying_refused(actor, ticket) {
            return Err(refusal);
        }
        self.parts.copy(&mut self.store, ticket)
    }
}
