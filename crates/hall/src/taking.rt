//! What tickets take: `write_piece`, `write_hashed` and `seal`.
ghost use Rattle.std.specs.Prelude.{◌≡◌, ◌+◌, ◌*◌, ◌<◌, ◌≤◌, ◌^◌, ◌++◌, ◌==◌, Bool, Some, true, is_some, length, IfErr, IfOk, IfSome, OnOk};
ghost use Rattle.std.specs.List.{list_all};
ghost use Rattle.std.specs.Option.{option_copied};
ghost use Rattle.store_api.specs.Cause.{NoneFell, Rose};
ghost use Rattle.store_api.specs.Runs.{GoesOn};
ghost use Rattle.store_api.specs.Told.{Told};
ghost use Rattle.kinds.specs.Refusals.{foremost};
ghost use Rattle.inventory_rows.specs.pool_tables.Rows.{row_at, set_row};
ghost use Rattle.machine.specs.State.{object_of};
ghost use Rattle.steps.specs.Events.{is_listed};
ghost use Rattle.steps.specs.Events.Deed.{Seal, WritePiece};
ghost use Rattle.contents.specs.Reading.{lies_in_file};
ghost use Rattle.hall.specs.Frames.{segments_of};
ghost use Rattle.hall.specs.Held.{purpose_of};
ghost use Rattle.hall.specs.Seats.{ended_at, own_seat};
ghost use Rattle.hall.specs.Steps.{Goes, Steps};
ghost use Rattle.hall.specs.Taken.{DroppedOne, HasRoom, HasSpace, HoldsBehind, IsAhead, IsSomeThat, MoreHashed, SealedAt, SealedOne, SyncedFor, SyncedUnless, TookAt, TookMore, WholeHashed, WroteFor, firm_on, first_file, is_settled, lies_on, made_firm, piece_refused, seal_refused_at, synced_file, unfilled, write_refused_at};

use crate::frame_calls::{sync_files, write_frames};
use crate::hall::Hall;
use crate::laws::frame_is_written_beside;
use crate::parts::Parts;
use crate::seat::{Hashed, Purpose, Seat};
use kinds::{By, Digest, Refusal, bad_value};
use sha2::{Digest as _, Sha256};
use space::Placed;
use std::collections::BTreeMap;
use std::mem;
use store_api::Store;

/// A piece has at most so many bytes.
pub const MOST_BYTES: usize = 1 << 16;

impl Hashed {
    /// The digest goes on over these bytes, where one is made: it is the one that is given, which went on over them, or it is made here.
    fn take(&mut self, bytes: &[u8], ahead: Option<&Sha256>)
        requires { IfSome (option_copied ahead) (λ hasher. HoldsBehind bytes.now hasher self.old) }
        ensures { MoreHashed bytes.now self.old self.new }
    {
        if let Hashed::Taking(hasher) = self {
            match ahead {
                Some(ahead) => *hasher = ahead.clone().unwrap(),
                None => hasher.update(bytes),
            }
        }
    }

    /// The digest is whole, where one is made.
    fn finish(self) -> Hashed
        ensures { (is_sealed : Bool) → WholeHashed is_sealed self result }
    {
        match self {
            Hashed::Taking(hasher) => Hashed::Done(Digest(hasher.finalize())),
            Hashed::Done(digest) => Hashed::Done(digest),
            Hashed::Unhashed => Hashed::Unhashed,
        }
    }
}

impl Seat {
    /// The number of the object that it is for.
    pub(crate) fn object(&self) -> u64
        ensures { result ≡ object_of (purpose_of self.now.purpose) }
    {
        match self.purpose {
            Purpose::Storing { object } => object,
            Purpose::Copying { object, .. } => object,
        }
    }

    /// Why it takes no piece of so many bytes, where that is so.
    fn piece_refused(&self, number: u64, count: u64) -> Option<Refusal>
        requires { self.now.count + count < 2 ^ 64 }
        ensures { result ≡ foremost (piece_refused number count self.now) }
    {
        let takes = match self.purpose {
            Purpose::Storing { .. } => !self.is_sealed,
            Purpose::Copying { .. } => false,
        };
        if !takes {
            return Some(Refusal::InUse(By::Ticket(number)));
        }
        let read = self.count + count;
        if self.size < read {
            return Some(Refusal::Changed {
                listed: self.size,
                read,
            });
        }
        None
    }

    /// Why it can't be sealed, where that is so.
    fn unfilled(&self) -> Option<Refusal>
        ensures { result ≡ foremost (unfilled self.now) }
    {
        if self.count == self.size {
            return None;
        }
        Some(Refusal::Changed {
            listed: self.size,
            read: self.count,
        })
    }

    /// It took these bytes, and has so many then.
    fn take(&mut self, bytes: &[u8], ahead: Option<&Sha256>) -> u64
        requires count { self.old.count + length bytes.now < 2 ^ 64 }
        requires ahead { IfSome (option_copied ahead) (λ hasher. HoldsBehind bytes.now hasher self.old.hashed) }
        ensures count { result ≡ self.old.count + length bytes.now }
        ensures hashed { MoreHashed bytes.now self.old.hashed self.new.hashed }
        ensures rest { self.new ≡ record self.old { count = self.old.count + length bytes.now; hashed = self.new.hashed } }
    {
        self.hashed.take(bytes, ahead);
        self.count += bytes.len() as u64;
        self.count
    }

    /// It takes no more.
    fn seal(&mut self)
        ensures hashed { WholeHashed self.old.is_sealed self.old.hashed self.new.hashed }
        ensures rest { self.new ≡ record self.old { hashed = self.new.hashed; is_sealed = true } }
    {
        self.hashed = mem::replace(&mut self.hashed, Hashed::Unhashed).finish();
        self.is_sealed = true;
    }

    /// It is a new object's, and firm: it is sealed without a device call.
    fn is_settled(&self) -> bool
        ensures { result ≡ is_settled self.now }
    {
        match self.purpose {
            Purpose::Storing { .. } => self.is_firm,
            Purpose::Copying { .. } => false,
        }
    }

    /// The first of its files, where these are synced when it is sealed.
    fn synced_file(&self) -> Option<u32>
        ensures { result ≡ synced_file self.now }
    {
        if self.is_settled() {
            return None;
        }
        first_file(self.places.as_slice())
    }

    /// It took all that it is for, and lies on this file alone.
    fn lies_on(&self, file: u32) -> bool
        ensures { result ≡ lies_on file self.now }
    {
        self.count == self.size && lie_on(file, self.places.as_slice())
    }

    /// It is firm where it lies on this file alone, which was synced.
    fn settle(&mut self, file: u32)
        ensures { self.new ≡ made_firm file self.old }
    {
        self.is_firm = self.is_firm || self.lies_on(file);
    }
}

/// The file of the first place.
fn first_file(places: &[Placed]) -> Option<u32>
    ensures { result ≡ first_file places.now }
{
    match places {
        [first, ..] => Some(first.segment.file),
        [] => None,
    }
}

/// All places lie on this file.
fn lie_on(file: u32, places: &[Placed]) -> bool
    ensures { result ≡ list_all (λ p. p.segment.file == file) places.now }
{
    places.iter().all(|placed| placed.segment.file == file)
}

/// The tickets that took all that they are for, and lie on this file alone, which was synced, are firm.
fn settle_on(seats: &mut BTreeMap<u64, Seat>, file: u32)
    ensures { seats.new.entries ≡ firm_on (Some file) seats.old.entries }
{
    seats.retain(|_, seat| {
        seat.settle(file);
        true
    });
}

/// The same, where a file was synced.
fn settle_after(seats: &mut BTreeMap<u64, Seat>, file: Option<u32>)
    ensures { seats.new.entries ≡ firm_on file seats.old.entries }
{
    if let Some(file) = file {
        settle_on(seats, file);
    }
}

/// Makes firm what the ticket took, where it isn't: its files are synced. The error is the file on which a call failed.
fn make_firm<S: Store>(store: &mut S, seat: &Seat) -> Result<(), u32>
    requires { S.moment_of store.old + length seat.now.places ≤ 2 ^ 62 }
    ensures told { Told (S.told store.old) (S.told store.new) (SyncedUnless (is_settled seat.now) (segments_of seat.now.places) result) }
    ensures file { IfErr result (λ file. lies_in_file (segments_of seat.now.places) file ≡ true) }
    ensures cause { IfErr result (λ file. Rose (S.faults_of store.old file) (S.faults_of store.new file)) }
    ensures time { S.moment_of store.new ≤ S.moment_of store.old + length seat.now.places }
    ensures later { S.moment_of store.old ≤ S.moment_of store.new }
    ensures counts { NoneFell (S.faults_of store.old) (S.faults_of store.new) }
{
    if seat.is_settled() {
        return Ok(());
    }
    sync_files(store, seat.places.as_slice())
}

/// The ticket with this number, which has to be held, took these bytes, and has so many then.
pub(crate) fn take_at(
    seats: &mut BTreeMap<u64, Seat>,
    number: u64,
    bytes: &[u8],
    ahead: Option<&Sha256>,
) -> u64
    requires count { IsSomeThat (row_at number seats.old.entries) (λ s. s.count + length bytes.now < 2 ^ 64) }
    requires ahead { IfSome (option_copied ahead) (λ hasher. IfSome (row_at number seats.old.entries) (λ s. HoldsBehind bytes.now hasher s.hashed)) }
    ensures { TookAt number bytes.now result seats.old.entries seats.new.entries }
{
    match seats.get_mut(&number) {
        Some(seat) => seat.take(bytes, ahead),
        None => unreachable!(),
    }
}

/// The ticket with this number, which has to be held, takes no more.
fn seal_at(seats: &mut BTreeMap<u64, Seat>, number: u64)
    requires { is_some (row_at number seats.old.entries) ≡ true }
    ensures { SealedAt number seats.old.entries seats.new.entries }
{
    match seats.get_mut(&number) {
        Some(seat) => seat.seal(),
        None => unreachable!(),
    }
}

impl Parts {
    /// Why the actor's ticket takes no piece of so many bytes, where that is so.
    fn write_refused(&self, moment: u64, actor: u32, number: u64, count: usize) -> Option<Refusal>
        requires { IfSome (row_at number self.now.seats) HasSpace }
        ensures { result ≡ foremost (ended_at moment self.now ++ write_refused_at actor number count self.now) }
    {
        if let Some(refusal) = self.ended(moment) {
            return Some(refusal);
        }
        if count == 0 {
            return Some(bad_value());
        }
        if count > MOST_BYTES {
            return Some(bad_value());
        }
        match self.seats.get(&number) {
            Some(seat) if seat.actor == actor => seat.piece_refused(number, count as u64),
            _ => Some(Refusal::NotFound),
        }
    }

    /// Why the actor's ticket can't be sealed, where that is so.
    fn seal_refused(&self, moment: u64, actor: u32, number: u64) -> Option<Refusal>
        ensures { result ≡ foremost (ended_at moment self.now ++ seal_refused_at actor number self.now) }
    {
        if let Some(refusal) = self.ended(moment) {
            return Some(refusal);
        }
        match self.seats.get(&number) {
            Some(seat) if seat.actor == actor => seat.unfilled(),
            _ => Some(Refusal::NotFound),
        }
    }

    /// Bytes are written behind those that the ticket with this number took, which has to be held and to have room for them: at most two device calls for each segment that they touch. It
    /// answers how many the ticket has then. Where a call fails, that is `WriteFault` of its file, and the ticket is dropped. It takes no memory.
    pub(crate) fn write_behind<S: Store>(
        &mut self,
        store: &mut S,
        number: u64,
        bytes: &[u8],
        ahead: Option<&Sha256>,
    ) -> Result<u64, Refusal>
        requires room { HasRoom (length bytes.now) (row_at number self.old.seats) }
        requires ahead { IfSome (option_copied ahead) (λ hasher. IfSome (row_at number self.old.seats) (λ s. HoldsBehind bytes.now hasher s.hashed)) }
        requires time { S.moment_of store.old + 2 * length bytes.now ≤ 2 ^ 62 }
        ensures told { Told (S.told store.old) (S.told store.new) (WroteFor (row_at number self.old.seats) bytes.now result) }
        ensures ok { IfOk result (λ count. TookMore number bytes.now count self.old self.new) }
        ensures err { IfErr result (λ e. DroppedOne number (row_at number self.old.seats) (S.faults_of store.old) (S.faults_of store.new) e self.old self.new) }
        ensures time { S.moment_of store.new ≤ S.moment_of store.old + 2 * length bytes.now }
        ensures later { S.moment_of store.old ≤ S.moment_of store.new }
        ensures counts { NoneFell (S.faults_of store.old) (S.faults_of store.new) }
    {
        let seat = match self.seats.get(&number) {
            Some(seat) => seat,
            None => unreachable!(),
        };
        match write_frames(
            store,
            seat.object(),
            seat.places.as_slice(),
            seat.count,
            bytes,
        ) {
            Ok(()) => Ok(take_at(&mut self.seats, number, bytes, ahead)),
            Err(file) => {
                self.drop_seat(number);
                Err(Refusal::WriteFault(file))
            }
        }
    }

    /// What the ticket with this number, which has to be held, took is made firm, and it is sealed; other tickets that lie on a file that was synced may be firm then, too. Where a call fails,
    /// that is `WriteFault` of its file, and the ticket is dropped. It takes no memory.
    fn seal_seat<S: Store>(&mut self, store: &mut S, number: u64) -> Result<(), Refusal>
        requires room { HasRoom 0 (row_at number self.old.seats) }
        requires time { S.moment_of store.old + 2 ^ 23 ≤ 2 ^ 62 }
        ensures told { Told (S.told store.old) (S.told store.new) (SyncedFor (row_at number self.old.seats) result) }
        ensures ok { OnOk result (SealedOne number self.old self.new) }
        ensures err { IfErr result (λ e. DroppedOne number (row_at number self.old.seats) (S.faults_of store.old) (S.faults_of store.new) e self.old self.new) }
        ensures time { S.moment_of store.new ≤ S.moment_of store.old + 2 ^ 23 }
        ensures later { S.moment_of store.old ≤ S.moment_of store.new }
        ensures counts { NoneFell (S.faults_of store.old) (S.faults_of store.new) }
    {
        let seat = match self.seats.get(&number) {
            Some(seat) => seat,
            None => unreachable!(),
        };
        let synced = seat.synced_file();
        match make_firm(store, seat) {
            Ok(()) => {
                seal_at(&mut self.seats, number);
                settle_after(&mut self.seats, synced);
                Ok(())
            }
            Err(file) => {
                self.drop_seat(number);
                Err(Refusal::WriteFault(file))
            }
        }
    }
}

impl<S: Store> Hall<S> {
    /// Writes a piece behind those that the actor's ticket took. The digest goes on by the hasher that is given, or else is made here.
    fn write(
        &mut self,
        actor: u32,
        ticket: u64,
        bytes: &[u8],
        ahead: Option<&Sha256>,
    ) -> Result<u64, Refusal>
        requires { IfSome (option_copied ahead) (λ hasher. IfSome (own_seat actor ticket self.old.held) (IsAhead bytes.now hasher)) }
        ensures step { Steps S.told S.moment_of S.faults_of actor (WritePiece ticket bytes.now result) self.old self.new }
        ensures listed { 1 ≤ length bytes.now → length bytes.now ≤ 2 ^ 16 → is_listed (WritePiece ticket bytes.now result) ≡ true }
        ensures goes { Goes S.told self.old self.new }
        ensures time { S.moment_of self.new.store ≤ S.moment_of self.old.store + 2 ^ 17 }
        ensures later { S.moment_of self.old.store ≤ S.moment_of self.new.store }
        ensures counts { NoneFell (S.faults_of self.old.store) (S.faults_of self.new.store) }
        ensures files { Told (S.told self.old.store) (S.told self.new.store) (GoesOn (λ file. 4 ≤ file)) }
    {
        frame_is_written_beside();
        let moment = self.store.moment();
        if let Some(refusal) = self.parts.write_refused(moment, actor, ticket, bytes.len()) {
            return Err(refusal);
        }
        self.parts
            .write_behind(&mut self.store, ticket, bytes, ahead)
    }

    /// Writes 1 to 65,536 bytes behind those that the actor's ticket took, and answers how many it has then. Refused with `RunFull` and `LogFault` as any step of a full run or of a halted
    /// hall; with `BadValue` where there are no bytes, or more; with `NotFound` where the actor has no such ticket; with `InUse` where the ticket is a copy's, or sealed; and with `Changed`
    /// where it would have more bytes than it is for. Where a call fails it is `WriteFault` of the volume's file, and the ticket is dropped. It takes no memory, and makes at most two device
    /// calls for each segment that the bytes touch.
    pub fn write_piece(&mut self, actor: u32, ticket: u64, bytes: &[u8]) -> Result<u64, Refusal>
        ensures step { Steps S.told S.moment_of S.faults_of actor (WritePiece ticket bytes.now result) self.old self.new }
        ensures listed { 1 ≤ length bytes.now → length bytes.now ≤ 2 ^ 16 → is_listed (WritePiece ticket bytes.now result) ≡ true }
        ensures goes { Goes S.told self.old self.new }
        ensures time { S.moment_of self.new.store ≤ S.moment_of self.old.store + 2 ^ 17 }
        ensures later { S.moment_of self.old.store ≤ S.moment_of self.new.store }
        ensures counts { NoneFell (S.faults_of self.old.store) (S.faults_of self.new.store) }
        ensures files { Told (S.told self.old.store) (S.told self.new.store) (GoesOn (λ file. 4 ≤ file)) }
    {
        self.write(actor, ticket, bytes, None)
    }

    /// Writes a piece as `write_piece` does, for a caller who keeps the SHA-256 of what the ticket took: where the ticket is a new object's that takes more, `hasher` holds what the ticket's
    /// holds, with this piece behind it. The ticket's becomes a copy of it, so that no digest is made here.
    pub fn write_hashed(
        &mut self,
        actor: u32,
        ticket: u64,
        bytes: &[u8],
        hasher: &Sha256,
    ) -> Result<u64, Refusal>
        requires { IfSome (own_seat actor ticket self.old.held) (IsAhead bytes.now hasher.now) }
        ensures step { Steps S.told S.moment_of S.faults_of actor (WritePiece ticket bytes.now result) self.old self.new }
        ensures listed { 1 ≤ length bytes.now → length bytes.now ≤ 2 ^ 16 → is_listed (WritePiece ticket bytes.now result) ≡ true }
        ensures goes { Goes S.told self.old self.new }
        ensures time { S.moment_of self.new.store ≤ S.moment_of self.old.store + 2 ^ 17 }
        ensures later { S.moment_of self.old.store ≤ S.moment_of self.new.store }
        ensures counts { NoneFell (S.faults_of self.old.store) (S.faults_of self.new.store) }
        ensures files { Told (S.told self.old.store) (S.told self.new.store) (GoesOn (λ file. 4 ≤ file)) }
    {
        self.write(actor, ticket, bytes, Some(hasher))
    }

    /// Makes firm what the actor's ticket took, which has to be all that it is for, and ends its digest; it takes no more then. What a seal made firm,
    /// its own or another ticket's, needs no further device call: a ticket of a new object that lies on one volume alone, and was full when that one was synced. Refused with `RunFull` and `LogFault` as any step of a full run or of a
    /// halted hall; with `NotFound` where the actor has no such ticket; and with `Changed` where it has fewer bytes than it is for. Where a call fails it is `WriteFault` of the volume's file,
    /// and the ticket is dropped. It takes no memory, and makes at most one device call for each run of segments on one file, at most 2^23.
    pub fn seal(&mut self, actor: u32, ticket: u64) -> Result<(), Refusal>
        ensures step { Steps S.told S.moment_of S.faults_of actor (Seal ticket result) self.old self.new }
        ensures listed { is_listed (Seal ticket result) ≡ true }
        ensures goes { Goes S.told self.old self.new }
        ensures time { S.moment_of self.new.store ≤ S.moment_of self.old.store + 2 ^ 23 }
        ensures later { S.moment_of self.old.store ≤ S.moment_of self.new.store }
        ensures counts { NoneFell (S.faults_of self.old.store) (S.faults_of self.new.store) }
        ensures files { Told (S.told self.old.store) (S.told self.new.store) (GoesOn (λ file. 4 ≤ file)) }
    {
        frame_is_written_beside();
        let moment = self.store.moment();
        if let Some(refusal) = self.parts.seal_refused(moment, actor, ticket) {
            return Err(refusal);
        }
        self.parts.seal_seat(&mut self.store, ticket)
    }
}
