//! Entries of the journal.
ghost use Rattle.std.specs.Prelude.{◌≡◌, ◌⊎◌, ◌≤◌, ◌<◌, ◌^◌, ◌++◌, [], List, ℕ, length, IfOk, IfErr, IfSome, IfNone};
ghost use Rattle.kinds.specs.Answers.{AnswersBy};
ghost use Rattle.kinds.specs.declared.refusal.Refusal.TheVariants.{RecordFull, Memory as NoMemory};
ghost use Rattle.fields.specs.Editions.{first_form, second_form};
ghost use Rattle.entries.specs.EntryForm.{entry, entry_in, entry_in_form, Spells, SpellsIn, IsAlone};

use crate::change::Change;
use fields::{By, Decoder, Fault, First, Formed, InEdition, Memory, Reader, Second, put_u32};
use kinds::{Fitting, Refusal};
use std::alloc::Global;

/// How many bytes the spelling of an entry has at most, where it is to be a record of the log.
pub const MOST_BYTES: usize = 1 << 24;

/// A transaction: who makes it, and what it changes.
#[derive(Drop)]
pub struct Entry {
    /// The number of the actor that makes the change.
    pub actor: u32,
    /// What it changes.
    pub change: Change,
}

/// The actor's number in four bytes, and the change.
#[tactic(auto, unfolding(crate::specs::EntryForm::entry_in))]
impl<E: InEdition> Decoder<Entry> for By<E> {
    ghost form = { entry_in E.edition };

    fn take(alloc: Global, reader: &mut Reader<'_>) -> Result<Entry, Fault> {
        let actor = reader.u32()?;
        let change: Change = By::<E>::take(alloc, reader)?;
        Ok(Entry { actor, change })
    }

    ghost is_form = { entry_in_form E.edition };
}

#[tactic(auto, unfolding(crate::specs::EntryForm::entry_in))]
impl Formed for Entry {
    ghost form = { entry_in second_form };

    fn write_to(&self, out: &mut Vec<u8>) -> Result<(), Memory> {
        put_u32(out, self.actor)?;
        self.change.write_to(out)?;
        Ok(())
    }

    fn read_from(alloc: Global, reader: &mut Reader<'_>) -> Result<Self, Fault> {
        By::<Second>::take(alloc, reader)
    }

    ghost is_form = { entry_in_form second_form };
}

#[tactic(auto, unfolding(crate::specs::EntryForm::entry_in))]
impl Fitting for Entry {
    fn fits(&self) {
        self.actor.fits();
        self.change.fits();
    }
}

impl Entry {
    /// The entry's spelling, in at most 2^24 bytes. Where it has more the answer is `RecordFull`, or that memory ran out.
    pub fn encode(&self, alloc: Global) -> Result<Vec<u8>, Refusal>
        ensures fits { entry.Fits self.now }
        ensures spelled { IfOk result (λ v. v.items ≡ entry.spell self.now) }
        ensures short { IfOk result (λ v. length v.items ≤ 2 ^ 24) }
        ensures full { IfErr result (λ e. (e ≡ NoMemory) ⊎ ((e ≡ RecordFull) × (2 ^ 24 < length (entry.spell self.now)))) }
        ensures alone { IfOk result (λ v. IsAlone second_form v.items self.now) }
    {
        self.fits();
        let bytes = fields::encode(alloc, self)?;
        if bytes.len() > MOST_BYTES {
            return Err(Refusal::RecordFull);
        }
        Ok(bytes)
    }

    /// The entry whose spelling the bytes are; none where they are no entry's.
    pub fn decode(alloc: Global, bytes: &[u8]) -> Result<Option<Entry>, Refusal>
        ensures found { IfOk result (λ o. IfSome o (λ e. Spells bytes.now e)) }
        ensures none { IfOk result (λ o. IfNone o ((e : Entry) → Spells bytes.now e → ⊥)) }
        ensures alone { IfOk result (λ o. IfSome o (λ e. IsAlone second_form bytes.now e)) }
        ensures memory { IfErr result (λ e. e ≡ NoMemory) }
    {
        let entry = fields::decode(alloc, bytes)?;
        Ok(entry)
    }

    /// The entry whose spelling in the first form the bytes are; none where they are no entry's. What the second form adds is
    /// none or 0 in it.
    pub fn decode_one(alloc: Global, bytes: &[u8]) -> Result<Option<Entry>, Refusal>
        ensures found { IfOk result (λ o. IfSome o (λ e. SpellsIn first_form bytes.now e)) }
        ensures none { IfOk result (λ o. IfNone o ((e : Entry) → SpellsIn first_form bytes.now e → ⊥)) }
        ensures alone { IfOk result (λ o. IfSome o (λ e. IsAlone first_form bytes.now e)) }
        ensures memory { IfErr result (λ e. e ≡ NoMemory) }
    {
        let entry = fields::decode_by::<Entry, By<First>>(alloc, bytes)?;
        Ok(entry)
    }

    /// An equal entry. It is read from the entry's spelling.
    pub fn copy(&self, alloc: Global) -> Result<Entry, Refusal>
        ensures { AnswersBy (λ e. e) result self.now }
    {
        self.fits();
        let bytes = fields::encode(alloc, self)?;
        match Entry::decode(alloc, bytes.as_slice())? {
            Some(entry) => Ok(entry),
            // The bytes are the spelling of this entry.
            None => Err(Refusal::Memory),
        }
    }
}
