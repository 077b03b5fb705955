ghost use Rattle.std.specs.Prelude.{◌≡◌, ◌≤◌, IfSome, Contains, All};
ghost use Rattle.kinds.specs.Refusals.{number_of, place_of, sooner, sooner_of, foremost, unless, bad_value};

use crate::segment::Digest;
use fields::Memory;
use std::alloc::{AllocError, AllocFailed};

/// What stands in the way of a change: the thing that uses what was to be changed or taken away.
#[derive(Clone, Copy, Debug, PartialEq, Eq)]
pub enum By {
    /// A client node, by its number.
    Node(u32),
    /// A storage pool, by its number.
    Pool(u32),
    /// A volume, by its file number.
    Volume(u32),
    /// A filespace, by its number.
    Filespace(u32),
    /// A stored object, by its number.
    Object(u64),
    /// A ticket for space that is being filled, by its number.
    Ticket(u64),
    /// A tree of client files, by its number.
    Tree(u32),
    /// A copy group has the pool as its destination.
    Destination,
}

/// Who holds what a caller has to wait for.
#[derive(Clone, Copy, Debug, PartialEq, Eq)]
pub enum Holder {
    /// A ticket holds the space, by its number.
    Ticket(u64),
    /// An image is being written, by the actor with this number.
    Image(u32),
    /// This transaction, which isn't forced yet, frees the space.
    Unforced(u64),
}

/// Why the server refuses what it was asked.
#[derive(Clone, Copy, Debug, PartialEq, Eq)]
pub enum Refusal {
    /// 1: a word is missing, repeated or out of place. The number is the place of the word's first byte in its line,
    /// counted from 1; for a missing word it is the line's length plus 1.
    Syntax(u32),
    /// 2: no word that is possible at this byte of the line begins as the word there does.
    UnknownWord(u32),
    /// 3: two or more words that are possible at this byte of the line begin as the word there does.
    Ambiguous(u32),
    /// 4: a value outside its range or its grammar, at this byte of the line; 0 where no line was read.
    BadValue(u32),
    /// 10: the thing that was named is not there, or is not of the kind that is needed.
    NotFound,
    /// 11: the name is taken already.
    Exists,
    /// 12: the thing is in use by this one.
    InUse(By),
    /// 13: the policy set has no default management class.
    NoDefaultClass,
    /// 14: the storage pools would not form hierarchies, or a move would leave its pool's hierarchy.
    BadHierarchy,
    /// 15: the day that was given lies before the server's day.
    DayBack { today: u32, given: u32 },
    /// 16: the management class that is to be used has no backup copy group.
    NoBackupGroup,
    /// 17: the management class that is to be used has no archive copy group.
    NoArchiveGroup,
    /// 20: no pool of the hierarchy that begins at this destination pool has room.
    NoSpace(u32),
    /// 21: there would be room if this ticket were given back or this transaction forced, or an image is being written.
    Busy(Holder),
    /// 22: this transaction changed or removed the copy or the version that the caller named.
    Stale(u64),
    /// 23: this transaction expired or discarded the version.
    Gone(u64),
    /// 24: each copy of the object has, in the piece that is wanted, a segment on a volume that may not be read, or whose
    /// reading failed in this step.
    Unavailable,
    /// 25: writing to this volume or database backup failed in this step.
    WriteFault(u32),
    /// 26: the tree failed in a call on this path, or on its listing.
    TreeFault,
    /// 27: the file was listed with one length and read with another, both in bytes.
    Changed { listed: u64, read: u64 },
    /// 28: the digest that was given is not the one that is kept.
    DigestDiffers { kept: Digest, given: Digest },
    /// 29: the object has more bytes than any object may have.
    TooLarge,
    /// 30: the transaction has more bytes than a log record may have.
    RecordFull,
    /// 31: the inventory would outgrow one of its bounds, or a number that is drawn would reach its own.
    InventoryFull,
    /// 32: the volume may be used again only from `day` on.
    NotYet { file: u32, day: u32 },
    /// 40: calls on a log or image file failed, `count` times in all so far, in this step or earlier in this run.
    LogFault { file: u32, count: u64 },
    /// 41: the store has made almost as many device calls as its clock can count.
    RunFull,
    /// 50: want of memory.
    Memory,
}

impl Refusal {
    /// The number under which the refusal is printed, at most 50.
    pub fn number(&self) -> u32
        ensures value { result ≡ number_of self.now }
        ensures within { result ≤ 50 }
    {
        match self {
            Refusal::Syntax(_) => 1,
            Refusal::UnknownWord(_) => 2,
            Refusal::Ambiguous(_) => 3,
            Refusal::BadValue(_) => 4,
            Refusal::NotFound => 10,
            Refusal::Exists => 11,
            Refusal::InUse(_) => 12,
            Refusal::NoDefaultClass => 13,
            Refusal::BadHierarchy => 14,
            Refusal::DayBack { .. } => 15,
            Refusal::NoBackupGroup => 16,
            Refusal::NoArchiveGroup => 17,
            Refusal::NoSpace(_) => 20,
            Refusal::Busy(_) => 21,
            Refusal::Stale(_) => 22,
            Refusal::Gone(_) => 23,
            Refusal::Unavailable => 24,
            Refusal::WriteFault(_) => 25,
            Refusal::TreeFault => 26,
            Refusal::Changed { .. } => 27,
            Refusal::DigestDiffers { .. } => 28,
            Refusal::TooLarge => 29,
            Refusal::RecordFull => 30,
            Refusal::InventoryFull => 31,
            Refusal::NotYet { .. } => 32,
            Refusal::LogFault { .. } => 40,
            Refusal::RunFull => 41,
            Refusal::Memory => 50,
        }
    }

    /// The place of the refusal in the order in which refusals are answered: the least comes first.
    pub fn place(&self) -> u32
        ensures { result ≡ place_of self.now }
    {
        match self {
            Refusal::RunFull => 0,
            Refusal::LogFault { .. } => 1,
            Refusal::TooLarge => 2,
            other => other.number() + 2,
        }
    }

    /// The one of two refusals that is answered where both hold.
    pub fn sooner(self, other: Refusal) -> Refusal
        ensures { result ≡ sooner self other }
    {
        if other.place() < self.place() {
            other
        } else {
            self
        }
    }
}

/// Of two refusals of which each may hold or not, the one that is answered.
pub fn sooner_of(first: Option<Refusal>, second: Option<Refusal>) -> Option<Refusal>
    ensures { result ≡ sooner_of first second }
{
    match (first, second) {
        (Some(first), Some(second)) => Some(first.sooner(second)),
        (Some(first), None) => Some(first),
        (None, second) => second,
    }
}

/// Of all the refusals that hold when a call starts, the one that is answered; none where none holds.
pub fn foremost(held: &[Refusal]) -> Option<Refusal>
    ensures value { result ≡ foremost held.now }
    ensures one { IfSome result (Contains held.now) }
    ensures least { IfSome result (λ e. All (λ other. place_of e ≤ place_of other) held.now) }
{
    let mut found = None;
    'held: for refusal in held {
        found = sooner_of(found, Some(*refusal));
    }
    found
}

/// The refusal, unless the test holds.
pub fn unless(holds: bool, refusal: Refusal) -> Option<Refusal>
    ensures { result ≡ foremost (unless holds refusal) }
{
    if holds { None } else { Some(refusal) }
}

/// What is answered where a value is not as it has to be, and no word of a line has it.
pub fn bad_value() -> Refusal
    ensures { result ≡ bad_value }
{
    Refusal::BadValue(0)
}

impl From<AllocError> for Refusal {
    ghost use Rattle.kinds.specs.declared.refusal.Refusal.TheVariants.{Memory};

    ghost from_gives = { λ _ e. e ≡ Memory };

    fn from(_error: AllocError) -> Refusal {
        Refusal::Memory
    }
}

impl<T: Drop> From<AllocFailed<T>> for Refusal {
    ghost use Rattle.kinds.specs.declared.refusal.Refusal.TheVariants.{Memory};

    ghost from_gives = { λ _ e. e ≡ Memory };

    fn from(_error: AllocFailed<T>) -> Refusal {
        Refusal::Memory
    }
}

impl From<Memory> for Refusal {
    ghost use Rattle.kinds.specs.declared.refusal.Refusal.TheVariants as refusals;

    ghost from_gives = { λ _ e. e ≡ refusals.Memory };

    fn from(_error: Memory) -> Refusal {
        Refusal::Memory
    }
}

/// Why the server's database could not be opened, formatted or installed.
#[derive(Clone, Copy, Debug, PartialEq, Eq)]
pub enum OpenRefused {
    /// Calls on this file failed.
    ReadFault(u32),
    /// No image of the database has an open gate.
    NotFormatted,
    /// The bytes of this file are not of their form from this byte on, counted from 0.
    Damaged(u32, u64),
    /// The store has made almost as many device calls as its clock can count.
    RunFull,
    /// Want of memory.
    Memory,
}

impl From<AllocError> for OpenRefused {
    ghost use Rattle.kinds.specs.declared.refusal.OpenRefused.TheVariants.{Memory};

    ghost from_gives = { λ _ e. e ≡ Memory };

    fn from(_error: AllocError) -> OpenRefused {
        OpenRefused::Memory
    }
}

impl<T: Drop> From<AllocFailed<T>> for OpenRefused {
    ghost use Rattle.kinds.specs.declared.refusal.OpenRefused.TheVariants.{Memory};

    ghost from_gives = { λ _ e. e ≡ Memory };

    fn from(_error: AllocFailed<T>) -> OpenRefused {
        OpenRefused::Memory
    }
}
