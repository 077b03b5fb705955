// A transaction as it goes into the log, the database and the journal.
ghost use Rattle.std.specs.Prelude.{◌≡◌, ◌⊎◌, ◌<◌, ◌≤◌, ◌^◌, ◌++◌, ◌∷◌, [], length, IfOk, OnOk, IfErr};
ghost use Rattle.kinds.specs.declared.refusal.Refusal.TheVariants.{RecordFull, Memory};
ghost use Rattle.entries.specs.EntryForm.{entry as entry_form};
ghost use Rattle.entries.specs.Meaning.{IsLegal};

use entries::{Database, Entry};
use kinds::Refusal;
use log_file::{Framed, Log};
use std::alloc::Global;

/// The record of a transaction. Refused with 30 where its spelling has more than 2^24 bytes, and for want of memory.
pub(crate) fn frame_entry(alloc: Global, entry: &Entry) -> Result<Framed, Refusal>
    ensures fits { entry_form.Fits entry.now }
    ensures framed { IfOk result (λ framed. framed ≡ entry_form.spell entry.now) }
    ensures short { OnOk result (length (entry_form.spell entry.now) ≤ 2 ^ 24) }
    ensures refused { IfErr result (λ refusal. (refusal ≡ Memory) ⊎ ((refusal ≡ RecordFull) × (2 ^ 24 < length (entry_form.spell entry.now)))) }
{
    match entry.encode(alloc) {
        Ok(bytes) => Log::frame(alloc, &bytes),
        Err(refusal) => Err(refusal),
    }
}

/// Makes a transaction and puts it at the end of the journal. Refused only for want of memory, and then nothing changes.
pub(crate) fn add_entry<D: Database>(
    alloc: Global,
    database: &mut D,
    journal: &mut Vec<Entry>,
    entry: Entry,
) -> Result<(), Refusal>
    requires legal { IsLegal D.meaning database.old entry }
    ensures database { OnOk result (database.new ≡ D.meaning.after database.old entry) }
    ensures journal { OnOk result (journal.new.items ≡ journal.old.items ++ entry ∷ []) }
    ensures err { IfErr result (λ refusal. (refusal ≡ Memory) × (database.new ≡ database.old) × (journal.new.items ≡ journal.old.items)) }
{
    match journal.push(entry) {
        Ok(()) => {}
        Err(failed) => {
            drop(failed);
            return Err(Refusal::Memory);
        }
    }
    let last = journal.len() - 1;
    match database.apply(alloc, &journal[last]) {
        Ok(()) => Ok(()),
        Err(_) => {
            drop(journal.pop());
            Err(Refusal::Memory)
        }
    }
}
