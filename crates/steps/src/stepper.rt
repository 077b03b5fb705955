//! The trait of whoever makes steps.
ghost use Rattle.std.specs.Prelude.{◌≡◌, ◌≤◌, ◌^◌, ◌++◌, ℕ, List, [], length, IfOk};
ghost use Rattle.steps.specs.Calls.{Does, MakesStep, Waits, piece_of, risen};
ghost use Rattle.steps.specs.Events.{Event};
ghost use Rattle.steps.specs.Events.Deed.{OpenNew, OpenCopy, WritePiece, CopyPiece, Seal, Commit, DropTicket, ReadPiece, Ask, Image, Reuse, Force};

use crate::asked::Asked;
use crate::image::{ImageKind, ImageReply};
use inventory_answers::{Answer, Query};
use kinds::{Digest, Holder, Refusal};
use space::Aim;

/// One actor, a client's session or a process of the server, who makes steps. Each method but the first two and `wait` is one step. Where memory is wanted
/// before a step, nothing is done and the answer is `Memory`; so it may be before each step but `drop_ticket`, also where the step itself takes none, since
/// who keeps what was done takes memory for it. Each step answers `RunFull` in a run that is full and else `LogFault` in a hall that a fault has halted;
/// every other refusal of a step stands in its table (specs/Events). Every step but `ask` and `read_piece` speaks of the caller's own tickets.
pub trait Stepper {
    /// These events, in this order and no others of this actor, led from the one to the other.
    ghost did: { Self → List Event → Self → Type 0 };

    /// The actor's number.
    ghost actor_of: { Self → ℕ };

    /// How many steps so far were refused as such of an object that can't be moved or stored.
    ghost refused_of: { Self → ℕ };

    /// The actor's number.
    fn actor(&self) -> u32
        ensures { result ≡ actor_of self.now };

    /// How many steps so far answered `NoSpace`, `Unavailable`, `WriteFault` or `RecordFull`. It stays at its type's last value.
    fn refused(&self) -> u64
        ensures { result ≡ refused_of self.now };

    /// Reserves space for a new object of `size` bytes in the hierarchy that begins at this pool, and answers the number of its ticket. `prefer` is a
    /// sequential volume to try first, or 0.
    fn open_new(&mut self, pool: u32, size: u64, prefer: u32) -> Result<u64, Refusal>
        ensures { Does did self.old self.new (OpenNew pool size prefer result) };

    /// Reserves space for a copy of an object, and answers the number of its ticket. `avoid` is a volume that is not to be used, or 0.
    fn open_copy(&mut self, object: u64, aim: Aim, avoid: u32) -> Result<u64, Refusal>
        ensures { Does did self.old self.new (OpenCopy object aim avoid result) };

    /// Writes the next bytes of a new object, 1 to 65,536, and answers how many it has so far.
    fn write_piece(&mut self, ticket: u64, bytes: &[u8]) -> Result<u64, Refusal>
        requires some { 1 ≤ length bytes.now }
        requires few { length bytes.now ≤ 2 ^ 16 }
        ensures { Does did self.old self.new (WritePiece ticket bytes.now result) };

    /// Reads the next bytes of the object where it lies now, at most 65,536, writes them into its copy, and answers how many that has so far.
    fn copy_piece(&mut self, ticket: u64) -> Result<u64, Refusal>
        ensures { Does did self.old self.new (CopyPiece ticket result) };

    /// Makes what the ticket took durable.
    fn seal(&mut self, ticket: u64) -> Result<(), Refusal>
        ensures { Does did self.old self.new (Seal ticket result) };

    /// Commits one transaction with at most 256 sealed tickets, and answers its number. The tickets are spent. It is acknowledged by the next `force`.
    fn commit(&mut self, asked: &Asked, tickets: &[u64]) -> Result<u64, Refusal>
        requires { length tickets.now ≤ 256 }
        ensures { Does did self.old self.new (Commit asked.now tickets.now result) };

    /// Gives the ticket's space back. This step is always made and wants no memory, so that whoever makes steps can end with no ticket left: who keeps what was
    /// done takes the memory for a drop when the ticket is opened.
    fn drop_ticket(&mut self, ticket: u64) -> Result<(), Refusal>
        ensures { MakesStep did self.old self.new (DropTicket ticket result) };

    /// Reads bytes of an object from the offset on, from its copy in the pool `from`, or with 0 from any, and answers how many: the buffer's length, at most
    /// 65,536, or what the object has from there on. `kept` is the SHA-256 that the caller takes the object to have.
    fn read_piece(
        &mut self,
        object: u64,
        kept: &Digest,
        from: u32,
        offset: u64,
        into: &mut [u8],
    ) -> Result<usize, Refusal>
        requires { length into.old ≤ 2 ^ 16 }
        ensures does { Does did self.old self.new (ReadPiece object kept.now from offset (length into.old) (piece_of result into.new)) }
        ensures within { IfOk result (λ count. count ≤ length into.new) };

    /// Answers a query.
    fn ask(&mut self, query: &Query) -> Result<Answer, Refusal>
        ensures { Does did self.old self.new (Ask query.now result) };

    /// Begins an image of the database, or goes on with the one that the caller began.
    fn image(&mut self, kind: ImageKind) -> Result<ImageReply, Refusal>
        ensures { Does did self.old self.new (Image kind result) };

    /// Commits and forces that an emptied sequential volume may be written from its start again, and answers the transaction's number.
    fn reuse(&mut self, file: u32) -> Result<u64, Refusal>
        ensures { Does did self.old self.new (Reuse file result) };

    /// Makes every transaction durable, and answers the number of the last one.
    fn force(&mut self) -> Result<u64, Refusal>
        ensures { Does did self.old self.new (Force result) };

    /// Waits for what is held. For a transaction that isn't forced yet this is `force`, without its number. For another holder no step is made: who shares the
    /// hall with others waits until it changed, and who has it alone answers `Busy` with that holder.
    fn wait(&mut self, holder: Holder) -> Result<(), Refusal>
        ensures { Waits did self.old self.new holder result };

    /// Nothing was done between a value and itself.
    ghost stays: { (p : Self) → did p [] p };

    /// What was done after one another was done.
    ghost goes_on: { (p q r : Self) (xs ys : List Event) → did p xs q → did q ys r → did p (xs ++ ys) r };

    /// The count of refused steps is that of the events.
    ghost counts: { (p q : Self) (xs : List Event) → did p xs q → refused_of q ≡ risen (refused_of p) xs };

    /// It is one actor all along.
    ghost one_actor: { (p q : Self) (xs : List Event) → did p xs q → actor_of q ≡ actor_of p };
}
