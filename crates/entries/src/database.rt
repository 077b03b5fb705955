// The trait of a database.
ghost use Rattle.std.specs.Prelude.{◌≡◌, ◌<◌, ◌^◌, IfOk, IfErr, IfSome, IfNone, Ok};
ghost use Rattle.kinds.specs.Answers.{AnswersBy, Becomes};
ghost use Rattle.kinds.specs.declared.refusal.Refusal.TheVariants.{Memory};
ghost use Rattle.fields.specs.Editions.{first_form, second_form};
ghost use Rattle.entries.specs.Meaning.{Meaning, IsMeaning, IsLegal, Spells, said};

use crate::entry::Entry;
use kinds::Refusal;
use std::alloc::Global;

/// The whole of what a server knows, as one value that changes by transactions only.
pub trait Database: Drop {
    /// What the database means: its number, which transactions are legal, what they make of it, and how it is spelled.
    ghost meaning: { Meaning Self };

    /// The number of the last transaction.
    fn number(&self) -> u64
        ensures { result ≡ meaning.number self.now };

    /// Whether the transaction may be made, and else why not. Takes no memory.
    fn legal(&self, entry: &Entry) -> Result<(), Refusal>
        ensures { result ≡ said (meaning.refused self.now entry.now) };

    /// Makes the transaction. Refused only for want of memory, and then nothing changes.
    fn apply(&mut self, alloc: Global, entry: &Entry) -> Result<(), Refusal>
        requires legal { IsLegal meaning self.old entry.now }
        ensures becomes { Becomes result self.old self.new (Ok (meaning.after self.old entry.now)) };

    /// The spelling in the second form, as the payload of an image. Refused only for want of memory.
    fn encode(&self, alloc: Global) -> Result<Vec<u8>, Refusal>
        ensures valid { meaning.Valid second_form self.now }
        ensures spelled { AnswersBy (λ bytes. bytes.items) result (meaning.spelled second_form self.now) };

    /// The database whose spelling in the second form the bytes are; none exactly where they are no database's in it. Refused
    /// only for want of memory.
    fn decode_two(alloc: Global, bytes: &[u8]) -> Result<Option<Self>, Refusal>
        ensures found { IfOk result (λ o. IfSome o (λ d. Spells meaning second_form bytes.now d)) }
        ensures none { IfOk result (λ o. IfNone o ((d : Self) → Spells meaning second_form bytes.now d → ⊥)) }
        ensures memory { IfErr result (λ e. e ≡ Memory) };

    /// The database whose spelling in the first form, which is only read, the bytes are; none exactly where they are no
    /// database's in it. Refused only for want of memory.
    fn decode_one(alloc: Global, bytes: &[u8]) -> Result<Option<Self>, Refusal>
        ensures found { IfOk result (λ o. IfSome o (λ d. Spells meaning first_form bytes.now d)) }
        ensures none { IfOk result (λ o. IfNone o ((d : Self) → Spells meaning first_form bytes.now d → ⊥)) }
        ensures memory { IfErr result (λ e. e ≡ Memory) };

    /// An equal database. Refused only for want of memory.
    fn copy(&self, alloc: Global) -> Result<Self, Refusal>
        ensures { AnswersBy (λ d. d) result self.now };

    /// The laws of what it means.
    ghost is_meaning: { IsMeaning meaning };
}
