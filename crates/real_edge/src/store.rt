// A folder as a store.
ghost use Rattle.std.specs.Prelude.{◌≡◌, ◌+◌, ◌<◌, ◌≤◌, ◌^◌, ℕ, length, IfOk, IfSome, IsSomeAnd, OnOk, OnErr, IsErr, IsTrue, true};
ghost use Rattle.store_api.specs.Cause.{Rose, NoneFell};
ghost use Rattle.store_api.specs.Disk.{Standing};
ghost use Rattle.store_api.specs.Told.{Told, ReadsFrom, MayWrite, MayCut, MaySync};
ghost use Rattle.files_api.specs.Folder.{away};
ghost use Rattle.real_edge.specs.Ledger.{Faults, faults_of, is_lost, StayLost, Worse};
ghost use Rattle.real_edge.specs.Names.{file_label};
ghost use Rattle.real_edge.specs.Past.{call_of, history_of};
ghost use Rattle.real_edge.specs.declared.past.Step.TheVariants.{Look};
ghost use Rattle.real_edge.specs.Holds.{Holds, After, has, after_sync};
ghost use Rattle.real_edge.specs.Desks.{desk_of, Keeps, LooksFor, Reached, Ends};

use crate::folder::{Folder, mark};
use crate::ledger::Ledger;
use crate::past::{Event, Past, Step};
use crate::pieces::{cut_to, has_room, read_from, write_all};
use crate::pool::Opened;
use files_api::Files;
use std::alloc::Global;
use std::marker::Model;
use store_api::{Failed, Stop, Store};

/// The files of a folder as a store: file n is the file whose name is `f` and n in at least eight decimal digits. It tells its bytes
/// where the files do, and all that is in the folder was on the disk when the store was made. Each call that the system refuses fails
/// and raises the file's count of faults. One store has the folder at a time, under a lock that goes with the process; each call of a
/// second one fails.
///
/// A file that is not there reads as empty, and a write makes it. It is synced when it is first opened in a run, since a run that
/// was cut off may have left of it what no disk has, and the folder is synced with it where a file was made. A file of which a sync
/// failed isn't used again: what it reads as may be what no stop leaves. A sync of a file that this run has synced, and that no call has
/// written or cut since, asks nothing of the system, also where the file isn't open any more; the moment counts it as any call.
///
/// The folder is made and locked by the first call on the store, so a program that makes none leaves no folder behind.
#[derive(Drop)]
pub struct FolderStore<F: Files + Drop> {
    folder: Folder<F>,
    ledger: Ledger,
    // whether a call has entered the folder
    is_entered: bool,
    // how many calls were made
    count: u64,
    past: Past,
}

impl<F: Files + Drop> Model for FolderStore<F> {
    ghost use Rattle.real_edge.specs.Desks.{desk_of};
    ghost use Rattle.real_edge.specs.Kept.{Kept, Tells, TellsTrue};

    ghost Value = { Kept };

    ghost view = { λ s. record { count = s.count; faults = s.ledger; past = s.past.told } };

    ghost invariant = { λ s. Tells (F.told s.folder.files) s.past.told (TellsTrue F.label_of s.is_entered (desk_of s.folder) s.ledger s.count) };
}

// How a call ended, and what it did.
struct Ended<T> {
    answer: Result<T, Failed>,
    step: Step,
}

// A call that did nothing but fail.
fn refused<T>() -> Ended<T>
    ensures answer { IsErr result.answer }
    ensures step { result.step ≡ Look }
{
    Ended {
        answer: Err(Failed),
        step: Step::Look,
    }
}

// Enters the folder, where no call has yet. Where that fails no file is used.
fn enter<F: Files + Drop>(folder: &mut Folder<F>, ledger: &mut Ledger, is_entered: &mut bool)
    ensures counts { NoneFell (faults_of ledger.old) (faults_of ledger.new) }
    ensures stay { StayLost (is_lost ledger.old) (is_lost ledger.new) }
    ensures worse { Worse ledger.old ledger.new }
    ensures told { Told (F.told folder.old.files) (F.told folder.new.files) (λ old new. (seen : ℕ → Standing) → Holds F.label_of is_entered.old (desk_of folder.old) ledger.old old seen → Holds F.label_of true (desk_of folder.new) ledger.new new seen) }
    ensures entered { IsTrue is_entered.new }
{
    if *is_entered {
        return;
    }
    *is_entered = true;
    match folder.enter() {
        Ok(()) => {}
        Err(_) => ledger.lose_all(),
    }
}

// Opens a file, and makes it where it is missing and is to be made. Answers none where there is no such file.
fn reach<F: Files + Drop>(
    folder: &mut Folder<F>,
    ledger: &mut Ledger,
    file: u32,
    is_made: bool,
) -> Result<Option<F::Handle>, Failed>
    requires used { ¬ IsTrue (is_lost ledger.old file) }
    ensures counts { NoneFell (faults_of ledger.old) (faults_of ledger.new) }
    ensures stay { StayLost (is_lost ledger.old) (is_lost ledger.new) }
    ensures told { Told (F.told folder.old.files) (F.told folder.new.files) (LooksFor F.label_of file result folder.old ledger.old folder.new ledger.new) }
    ensures used { IfOk result (λ _. ¬ IsTrue (is_lost ledger.new file)) }
{
    if let Some(handle) = folder.pool.take(file) {
        return Ok(Some(handle));
    }
    make_room(folder, ledger);
    if ledger.is_lost(file) {
        return Err(Failed);
    }
    match folder.fetch(file, is_made) {
        Ok(Some(handle)) => settle(folder, ledger, file, handle),
        Ok(None) => Ok(None),
        Err(_) => Err(Failed),
    }
}

// Closes the file that has been unused the longest, where as many are open as may be. It is synced before that where it was changed.
fn make_room<F: Files + Drop>(folder: &mut Folder<F>, ledger: &mut Ledger)
    ensures counts { NoneFell (faults_of ledger.old) (faults_of ledger.new) }
    ensures stay { StayLost (is_lost ledger.old) (is_lost ledger.new) }
    ensures told { Told (F.told folder.old.files) (F.told folder.new.files) (Keeps F.label_of folder.old ledger.old folder.new ledger.new) }
{
    if let Some(oldest) = folder.pool.take_oldest() {
        close(folder, ledger, oldest);
    }
}

// Closes a file, which is synced before that where it was changed.
fn close<F: Files + Drop>(folder: &mut Folder<F>, ledger: &mut Ledger, oldest: Opened<F::Handle>)
    ensures counts { NoneFell (faults_of ledger.old) (faults_of ledger.new) }
    ensures stay { StayLost (is_lost ledger.old) (is_lost ledger.new) }
    ensures told { Told (F.told folder.old.files) (F.told folder.new.files) (λ old new. (seen : ℕ → Standing) → F.label_of oldest.handle ≡ file_label oldest.file → Holds F.label_of true (desk_of folder.old) ledger.old old seen → Holds F.label_of true (desk_of folder.new) ledger.new new seen) }
{
    let file = oldest.file;
    if ledger.is_lost(file) {
        return;
    }
    match folder.sync_changed(file, &oldest.handle) {
        Ok(()) => {}
        Err(_) => {
            ledger.lose(file);
            ledger.raise(file);
        }
    }
}

// The failure of a sync: the file isn't used again.
fn give_up(ledger: &mut Ledger, file: u32) -> Failed
    ensures counts { NoneFell (faults_of ledger.old) (faults_of ledger.new) }
    ensures stay { StayLost (is_lost ledger.old) (is_lost ledger.new) }
    ensures worse { Worse ledger.old ledger.new }
    ensures lost { IsTrue (is_lost ledger.new file) }
{
    ledger.lose(file);
    Failed
}

// Settles the file that was just opened, where this run has not done so yet: what a former run may have left of it in the system's
// memory alone becomes durable.
fn settle<F: Files + Drop>(
    folder: &mut Folder<F>,
    ledger: &mut Ledger,
    file: u32,
    handle: F::Handle,
) -> Result<Option<F::Handle>, Failed>
    requires used { ¬ IsTrue (is_lost ledger.old file) }
    ensures counts { NoneFell (faults_of ledger.old) (faults_of ledger.new) }
    ensures stay { StayLost (is_lost ledger.old) (is_lost ledger.new) }
    ensures failed { OnErr result (IsTrue (is_lost ledger.new file)) }
    ensures told { Told (F.told folder.old.files) (F.told folder.new.files) (λ old new. (seen : ℕ → Standing) → F.label_of handle ≡ file_label file → Holds F.label_of true (desk_of folder.old) ledger.old old seen → Reached F.label_of file result folder.new ledger.new new seen) }
    ensures used { IfOk result (λ _. ¬ IsTrue (is_lost ledger.new file)) }
{
    if folder.settled.contains(&file) {
        return Ok(Some(handle));
    }
    match folder.files.sync(&handle) {
        Ok(()) => {}
        Err(_) => return Err(give_up(ledger, file)),
    }
    // With no memory for it the file is settled once more when it is next opened.
    let _ = folder.settled.insert(file);
    match sync_names(folder, ledger, file) {
        Ok(()) => Ok(Some(handle)),
        Err(failed) => Err(failed),
    }
}

// Makes the names of the folder's files durable. Where that fails no file may be used any more, this one with them.
fn sync_names<F: Files + Drop>(
    folder: &mut Folder<F>,
    ledger: &mut Ledger,
    file: u32,
) -> Result<(), Failed>
    requires used { ¬ IsTrue (is_lost ledger.old file) }
    ensures counts { NoneFell (faults_of ledger.old) (faults_of ledger.new) }
    ensures stay { StayLost (is_lost ledger.old) (is_lost ledger.new) }
    ensures failed { OnErr result (IsTrue (is_lost ledger.new file)) }
    ensures told { Told (F.told folder.old.files) (F.told folder.new.files) (Keeps F.label_of folder.old ledger.old folder.new ledger.new) }
    ensures synced { OnOk result (IsTrue folder.new.is_synced) }
    ensures changed { folder.new.changed.keys ≡ folder.old.changed.keys }
    ensures used { OnOk result (¬ IsTrue (is_lost ledger.new file)) }
{
    match folder.sync_names() {
        Ok(()) => Ok(()),
        Err(_) => {
            ledger.lose_all();
            Err(Failed)
        }
    }
}

// Looks how long a file is; one that is missing has no bytes.
fn length_in<F: Files + Drop>(
    folder: &mut Folder<F>,
    ledger: &mut Ledger,
    file: u32,
) -> Result<u64, Failed>
    requires used { ¬ IsTrue (is_lost ledger.old file) }
    ensures counts { NoneFell (faults_of ledger.old) (faults_of ledger.new) }
    ensures stay { StayLost (is_lost ledger.old) (is_lost ledger.new) }
    ensures told { Told (F.told folder.old.files) (F.told folder.new.files) (Keeps F.label_of folder.old ledger.old folder.new ledger.new) }
    ensures value { IfOk result (λ len. IfSome (F.told folder.old.files) (λ old. (seen : ℕ → Standing) → Holds F.label_of true (desk_of folder.old) ledger.old old seen → len ≡ length (seen file).bytes)) }
{
    match reach(folder, ledger, file, false) {
        Ok(Some(handle)) => {
            let answer = folder.files.len(&handle);
            folder.pool.keep(file, handle);
            match answer {
                Ok(len) => Ok(len),
                Err(_) => Err(Failed),
            }
        }
        Ok(None) => Ok(0),
        Err(failed) => Err(failed),
    }
}

// The call on a store: it fails where the file isn't used any more.
fn measure<F: Files + Drop>(
    folder: &mut Folder<F>,
    ledger: &mut Ledger,
    is_entered: &mut bool,
    file: u32,
) -> Result<u64, Failed>
    ensures counts { NoneFell (faults_of ledger.old) (faults_of ledger.new) }
    ensures stay { StayLost (is_lost ledger.old) (is_lost ledger.new) }
    ensures lost { IsTrue (is_lost ledger.old file) → IsErr result }
    ensures told { Told (F.told folder.old.files) (F.told folder.new.files) (λ old new. (seen : ℕ → Standing) → Holds F.label_of is_entered.old (desk_of folder.old) ledger.old old seen → Holds F.label_of true (desk_of folder.new) ledger.new new seen) }
    ensures value { IfOk result (λ len. IfSome (F.told folder.old.files) (λ old. (seen : ℕ → Standing) → Holds F.label_of is_entered.old (desk_of folder.old) ledger.old old seen → len ≡ length (seen file).bytes)) }
    ensures entered { IsTrue is_entered.new }
{
    enter(folder, ledger, is_entered);
    if ledger.is_lost(file) {
        return Err(Failed);
    }
    length_in(folder, ledger, file)
}

// Reads from a file; of one that is missing no byte stands.
fn read_in<F: Files + Drop>(
    folder: &mut Folder<F>,
    ledger: &mut Ledger,
    file: u32,
    offset: u64,
    into: &mut [u8],
) -> Result<usize, Failed>
    requires used { ¬ IsTrue (is_lost ledger.old file) }
    ensures counts { NoneFell (faults_of ledger.old) (faults_of ledger.new) }
    ensures stay { StayLost (is_lost ledger.old) (is_lost ledger.new) }
    ensures bound { IfOk result (λ count. count ≤ length into.new) }
    ensures told { Told (F.told folder.old.files) (F.told folder.new.files) (Keeps F.label_of folder.old ledger.old folder.new ledger.new) }
    ensures bytes { IfOk result (λ count. IfSome (F.told folder.old.files) (λ old. (seen : ℕ → Standing) → Holds F.label_of true (desk_of folder.old) ledger.old old seen → ReadsFrom (seen file).bytes offset into.new count)) }
{
    match reach(folder, ledger, file, false) {
        Ok(Some(handle)) => {
            let answer = read_from(&mut folder.files, &handle, offset, into);
            folder.pool.keep(file, handle);
            match answer {
                Ok(count) => Ok(count),
                Err(_) => Err(Failed),
            }
        }
        Ok(None) => Ok(0),
        Err(failed) => Err(failed),
    }
}

// The call on a store, likewise.
fn read<F: Files + Drop>(
    folder: &mut Folder<F>,
    ledger: &mut Ledger,
    is_entered: &mut bool,
    file: u32,
    offset: u64,
    into: &mut [u8],
) -> Result<usize, Failed>
    ensures counts { NoneFell (faults_of ledger.old) (faults_of ledger.new) }
    ensures stay { StayLost (is_lost ledger.old) (is_lost ledger.new) }
    ensures lost { IsTrue (is_lost ledger.old file) → IsErr result }
    ensures bound { IfOk result (λ count. count ≤ length into.new) }
    ensures told { Told (F.told folder.old.files) (F.told folder.new.files) (λ old new. (seen : ℕ → Standing) → Holds F.label_of is_entered.old (desk_of folder.old) ledger.old old seen → Holds F.label_of true (desk_of folder.new) ledger.new new seen) }
    ensures bytes { IfOk result (λ count. IfSome (F.told folder.old.files) (λ old. (seen : ℕ → Standing) → Holds F.label_of is_entered.old (desk_of folder.old) ledger.old old seen → ReadsFrom (seen file).bytes offset into.new count)) }
    ensures entered { IsTrue is_entered.new }
{
    enter(folder, ledger, is_entered);
    if ledger.is_lost(file) {
        return Err(Failed);
    }
    read_in(folder, ledger, file, offset, into)
}

// Writes to an open file, after which it counts as changed.
fn write_open<F: Files + Drop>(
    folder: &mut Folder<F>,
    file: u32,
    handle: F::Handle,
    offset: u64,
    bytes: &[u8],
) -> Ended<()>
    requires { offset + length bytes.now < 2 ^ 63 }
    ensures told { Told (F.told folder.old.files) (F.told folder.new.files) (λ old new. (faults : Faults) (seen : ℕ → Standing) → ¬ IsTrue (is_lost faults file) → F.label_of handle ≡ file_label file → Holds F.label_of true (desk_of folder.old) faults old seen → Ends F.label_of (call_of result.step new) (MayWrite file offset bytes.now result.answer) folder.new faults new seen) }
{
    match mark(&mut folder.changed, file) {
        Ok(()) => {}
        Err(_) => {
            folder.pool.keep(file, handle);
            return refused();
        }
    }
    let answer = write_all(&mut folder.files, &handle, offset, bytes);
    folder.pool.keep(file, handle);
    let step = Step::Write(file, offset, bytes.len() as u64);
    match answer {
        Ok(()) => Ended {
            answer: Ok(()),
            step,
        },
        Err(_) => Ended {
            answer: Err(Failed),
            step,
        },
    }
}

// Writes to a file, and makes it where it is missing and there is something to write.
fn write_in<F: Files + Drop>(
    folder: &mut Folder<F>,
    ledger: &mut Ledger,
    file: u32,
    offset: u64,
    bytes: &[u8],
) -> Ended<()>
    requires used { ¬ IsTrue (is_lost ledger.old file) }
    ensures counts { NoneFell (faults_of ledger.old) (faults_of ledger.new) }
    ensures stay { StayLost (is_lost ledger.old) (is_lost ledger.new) }
    ensures fits { OnOk result.answer (offset + length bytes.now < 2 ^ 64) }
    ensures told { Told (F.told folder.old.files) (F.told folder.new.files) (λ old new. (seen : ℕ → Standing) → Holds F.label_of true (desk_of folder.old) ledger.old old seen → Ends F.label_of (call_of result.step new) (MayWrite file offset bytes.now result.answer) folder.new ledger.new new seen) }
{
    if !has_room(offset, bytes) {
        return refused();
    }
    match reach(folder, ledger, file, !bytes.is_empty()) {
        Ok(Some(handle)) => write_open(folder, file, handle, offset, bytes),
        Ok(None) if bytes.is_empty() => Ended {
            answer: Ok(()),
            step: Step::Write(file, offset, 0),
        },
        _ => refused(),
    }
}

// The call on a store, likewise.
fn write<F: Files + Drop>(
    folder: &mut Folder<F>,
    ledger: &mut Ledger,
    is_entered: &mut bool,
    file: u32,
    offset: u64,
    bytes: &[u8],
) -> Ended<()>
    ensures counts { NoneFell (faults_of ledger.old) (faults_of ledger.new) }
    ensures stay { StayLost (is_lost ledger.old) (is_lost ledger.new) }
    ensures lost { IsTrue (is_lost ledger.old file) → IsErr result.answer }
    ensures fits { OnOk result.answer (offset + length bytes.now < 2 ^ 64) }
    ensures told { Told (F.told folder.old.files) (F.told folder.new.files) (λ old new. (seen : ℕ → Standing) → Holds F.label_of is_entered.old (desk_of folder.old) ledger.old old seen → Ends F.label_of (call_of result.step new) (MayWrite file offset bytes.now result.answer) folder.new ledger.new new seen) }
    ensures entered { IsTrue is_entered.new }
{
    enter(folder, ledger, is_entered);
    if ledger.is_lost(file) {
        return refused();
    }
    write_in(folder, ledger, file, offset, bytes)
}

// Cuts an open file, after which it counts as changed.
fn cut_open<F: Files + Drop>(
    folder: &mut Folder<F>,
    file: u32,
    handle: F::Handle,
    len: u64,
) -> Ended<()>
    ensures told { Told (F.told folder.old.files) (F.told folder.new.files) (λ old new. (faults : Faults) (seen : ℕ → Standing) → ¬ IsTrue (is_lost faults file) → F.label_of handle ≡ file_label file → Holds F.label_of true (desk_of folder.old) faults old seen → Ends F.label_of (call_of result.step new) (MayCut file len result.answer) folder.new faults new seen) }
{
    match mark(&mut folder.changed, file) {
        Ok(()) => {}
        Err(_) => {
            folder.pool.keep(file, handle);
            return refused();
        }
    }
    let answer = cut_to(&mut folder.files, &handle, len);
    folder.pool.keep(file, handle);
    match answer {
        Ok(()) => Ended {
            answer: Ok(()),
            step: Step::Cut(file, len),
        },
        Err(_) => Ended {
            answer: Err(Failed),
            step: Step::FailedCut(file, len),
        },
    }
}

// Cuts a file; one that is missing has nothing to lose.
fn cut_in<F: Files + Drop>(
    folder: &mut Folder<F>,
    ledger: &mut Ledger,
    file: u32,
    len: u64,
) -> Ended<()>
    requires used { ¬ IsTrue (is_lost ledger.old file) }
    ensures counts { NoneFell (faults_of ledger.old) (faults_of ledger.new) }
    ensures stay { StayLost (is_lost ledger.old) (is_lost ledger.new) }
    ensures told { Told (F.told folder.old.files) (F.told folder.new.files) (λ old new. (seen : ℕ → Standing) → Holds F.label_of true (desk_of folder.old) ledger.old old seen → Ends F.label_of (call_of result.step new) (MayCut file len result.answer) folder.new ledger.new new seen) }
{
    match reach(folder, ledger, file, false) {
        Ok(Some(handle)) => cut_open(folder, file, handle, len),
        Ok(None) => Ended {
            answer: Ok(()),
            step: Step::Cut(file, len),
        },
        Err(_) => refused(),
    }
}

// The call on a store, likewise.
fn cut<F: Files + Drop>(
    folder: &mut Folder<F>,
    ledger: &mut Ledger,
    is_entered: &mut bool,
    file: u32,
    len: u64,
) -> Ended<()>
    ensures counts { NoneFell (faults_of ledger.old) (faults_of ledger.new) }
    ensures stay { StayLost (is_lost ledger.old) (is_lost ledger.new) }
    ensures lost { IsTrue (is_lost ledger.old file) → IsErr result.answer }
    ensures told { Told (F.told folder.old.files) (F.told folder.new.files) (λ old new. (seen : ℕ → Standing) → Holds F.label_of is_entered.old (desk_of folder.old) ledger.old old seen → Ends F.label_of (call_of result.step new) (MayCut file len result.answer) folder.new ledger.new new seen) }
    ensures entered { IsTrue is_entered.new }
{
    enter(folder, ledger, is_entered);
    if ledger.is_lost(file) {
        return refused();
    }
    cut_in(folder, ledger, file, len)
}

// Syncs an open file, where it was changed. Where that fails it is closed.
fn sync_open<F: Files + Drop>(
    folder: &mut Folder<F>,
    file: u32,
    handle: F::Handle,
) -> Result<(), Failed>
    ensures told { Told (F.told folder.old.files) (F.told folder.new.files) (λ old new. (faults : Faults) (seen : ℕ → Standing) → ¬ IsTrue (is_lost faults file) → F.label_of handle ≡ file_label file → Holds F.label_of true (desk_of folder.old) faults old seen → After result (λ after. IsTrue (is_lost after file)) faults (λ after. Holds F.label_of true (desk_of folder.new) after new seen)) }
    ensures unchanged { OnOk result (¬ IsTrue (has folder.new.changed.keys file)) }
{
    match folder.sync_changed(file, &handle) {
        Ok(()) => {
            folder.pool.keep(file, handle);
            Ok(())
        }
        Err(_) => Err(Failed),
    }
}

// Syncs a file and the folder's names, without any call where that was done and nothing came since. Nothing of a file that is missing can
// be taken away.
fn sync_in<F: Files + Drop>(
    folder: &mut Folder<F>,
    ledger: &mut Ledger,
    file: u32,
) -> Result<(), Failed>
    requires used { ¬ IsTrue (is_lost ledger.old file) }
    ensures counts { NoneFell (faults_of ledger.old) (faults_of ledger.new) }
    ensures stay { StayLost (is_lost ledger.old) (is_lost ledger.new) }
    ensures told { Told (F.told folder.old.files) (F.told folder.new.files) (λ old new. (seen : ℕ → Standing) → Holds F.label_of true (desk_of folder.old) ledger.old old seen → After result (λ after. IsTrue (is_lost after file)) ledger.new (λ after. Holds F.label_of true (desk_of folder.new) after new (after_sync file result seen))) }
{
    if folder.is_clean(file) {
        return Ok(());
    }
    match reach(folder, ledger, file, false) {
        Ok(Some(handle)) => match sync_open(folder, file, handle) {
            Ok(()) => {}
            Err(failed) => return Err(failed),
        },
        Ok(None) => return Ok(()),
        Err(failed) => return Err(failed),
    }
    match sync_names(folder, ledger, file) {
        Ok(()) => Ok(()),
        Err(failed) => Err(failed),
    }
}

// The call on a store, likewise. Where it fails the file isn't used again.
fn sync<F: Files + Drop>(
    folder: &mut Folder<F>,
    ledger: &mut Ledger,
    is_entered: &mut bool,
    file: u32,
) -> Ended<()>
    ensures counts { NoneFell (faults_of ledger.old) (faults_of ledger.new) }
    ensures stay { StayLost (is_lost ledger.old) (is_lost ledger.new) }
    ensures lost { IsTrue (is_lost ledger.old file) → IsErr result.answer }
    ensures failed { OnErr result.answer (IsTrue (is_lost ledger.new file)) }
    ensures told { Told (F.told folder.old.files) (F.told folder.new.files) (λ old new. (seen : ℕ → Standing) → Holds F.label_of is_entered.old (desk_of folder.old) ledger.old old seen → Ends F.label_of (call_of result.step new) (MaySync file result.answer) folder.new ledger.new new seen) }
    ensures entered { IsTrue is_entered.new }
{
    enter(folder, ledger, is_entered);
    if ledger.is_lost(file) {
        return Ended {
            answer: Err(give_up(ledger, file)),
            step: Step::Look,
        };
    }
    match sync_in(folder, ledger, file) {
        Ok(()) => Ended {
            answer: Ok(()),
            step: Step::Sync(file),
        },
        Err(_) => Ended {
            answer: Err(give_up(ledger, file)),
            step: Step::Look,
        },
    }
}

// The answer of a call that ends: the count of calls is higher by one, and where it failed the file's count of faults rose.
fn end<T>(
    ledger: &mut Ledger,
    count: &mut u64,
    file: u32,
    answer: Result<T, Failed>,
) -> Result<T, Failed>
    requires { count.old < 2 ^ 62 }
    ensures same { result ≡ answer }
    ensures time { count.new ≡ count.old + 1 }
    ensures counts { NoneFell (faults_of ledger.old) (faults_of ledger.new) }
    ensures cause { OnErr result (Rose (faults_of ledger.old file) (faults_of ledger.new file)) }
    ensures stay { StayLost (is_lost ledger.old) (is_lost ledger.new) }
    ensures worse { Worse ledger.old ledger.new }
{
    *count += 1;
    if answer.is_err() {
        ledger.raise(file);
    }
    answer
}

impl<F: Files + Drop> FolderStore<F> {
    ghost use Rattle.real_edge.specs.Kept.{Begins, moment_of};

    /// The store over the files of a folder, which the first call on it makes where it is missing. Where it can't be made, opened or
    /// locked, each call on the store fails. Where the files tell, and tell that all is on the disk and that no run has entered the
    /// folder, the store tells, and begins with what they have.
    pub fn new(files: F, alloc: Global) -> FolderStore<F>
        ensures moment { moment_of result ≡ 0 }
        ensures faults { (file : ℕ) → faults_of result.faults file ≡ 0 }
        ensures told { IfSome (F.told files) (λ folder. IsTrue folder.is_settled → folder.stage ≡ away → IsSomeAnd (history_of result.past) (Begins folder)) }
    {
        let count = 0;
        let past = Past::begin(&files, &count);
        FolderStore {
            folder: Folder::new(files, alloc),
            ledger: Ledger::new(alloc),
            is_entered: false,
            count,
            past,
        }
    }
}

impl<F: Files + Drop> Store for FolderStore<F> {
    ghost use Rattle.store_api.specs.Disk.{idle, reads};
    ghost use Rattle.store_api.specs.Told.{Adds};
    ghost use Rattle.real_edge.specs.Kept.{moment_of, clock_of};

    ghost told = { λ s. history_of s.past };

    ghost moment_of = { moment_of };

    ghost faults_of = { λ s. faults_of s.faults };

    ghost clock = { clock_of };

    fn moment(&self) -> u64 {
        self.count
    }

    fn faults(&self, file: u32) -> u64 {
        self.ledger.faults(file)
    }

    fn len(&mut self, file: u32) -> Result<u64, Failed>
        requires { moment_of self.old < 2 ^ 62 }
        ensures told { Told (history_of self.old.past) (history_of self.new.past) (Adds (λ call. call ≡ idle)) }
        ensures time { moment_of self.new ≡ moment_of self.old + 1 }
        ensures counts { NoneFell (faults_of self.old.faults) (faults_of self.new.faults) }
        ensures cause { OnErr result (Rose (faults_of self.old.faults file) (faults_of self.new.faults file)) }
        ensures length { IfOk result (λ len. IfSome (history_of self.old.past) (λ h. len ≡ length (reads h file))) }
        ensures stay { StayLost (is_lost self.old.faults) (is_lost self.new.faults) }
        ensures lost { IsTrue (is_lost self.old.faults file) → IsErr result }
    {
        let answer = measure(
            &mut self.folder,
            &mut self.ledger,
            &mut self.is_entered,
            file,
        );
        self.past = self
            .past
            .then(&self.folder.files, &Event::Called(Step::Look));
        end(&mut self.ledger, &mut self.count, file, answer)
    }

    fn read_at(&mut self, file: u32, offset: u64, into: &mut [u8]) -> Result<usize, Failed>
        requires { moment_of self.old < 2 ^ 62 }
        ensures told { Told (history_of self.old.past) (history_of self.new.past) (Adds (λ call. call ≡ idle)) }
        ensures time { moment_of self.new ≡ moment_of self.old + 1 }
        ensures counts { NoneFell (faults_of self.old.faults) (faults_of self.new.faults) }
        ensures cause { OnErr result (Rose (faults_of self.old.faults file) (faults_of self.new.faults file)) }
        ensures bound { IfOk result (λ count. count ≤ length into.new) }
        ensures bytes { IfOk result (λ count. IfSome (history_of self.old.past) (λ h. ReadsFrom (reads h file) offset into.new count)) }
        ensures stay { StayLost (is_lost self.old.faults) (is_lost self.new.faults) }
        ensures lost { IsTrue (is_lost self.old.faults file) → IsErr result }
    {
        let answer = read(
            &mut self.folder,
            &mut self.ledger,
            &mut self.is_entered,
            file,
            offset,
            into,
        );
        self.past = self
            .past
            .then(&self.folder.files, &Event::Called(Step::Look));
        end(&mut self.ledger, &mut self.count, file, answer)
    }

    fn write_at(&mut self, file: u32, offset: u64, bytes: &[u8]) -> Result<(), Failed>
        requires { moment_of self.old < 2 ^ 62 }
        ensures told { Told (history_of self.old.past) (history_of self.new.past) (Adds (MayWrite file offset bytes.now result)) }
        ensures time { moment_of self.new ≡ moment_of self.old + 1 }
        ensures counts { NoneFell (faults_of self.old.faults) (faults_of self.new.faults) }
        ensures cause { OnErr result (Rose (faults_of self.old.faults file) (faults_of self.new.faults file)) }
        ensures fits { OnOk result (offset + length bytes.now < 2 ^ 64) }
        ensures stay { StayLost (is_lost self.old.faults) (is_lost self.new.faults) }
        ensures lost { IsTrue (is_lost self.old.faults file) → IsErr result }
    {
        let Ended { answer, step } = write(
            &mut self.folder,
            &mut self.ledger,
            &mut self.is_entered,
            file,
            offset,
            bytes,
        );
        self.past = self.past.then(&self.folder.files, &Event::Called(step));
        end(&mut self.ledger, &mut self.count, file, answer)
    }

    fn cut(&mut self, file: u32, len: u64) -> Result<(), Failed>
        requires { moment_of self.old < 2 ^ 62 }
        ensures told { Told (history_of self.old.past) (history_of self.new.past) (Adds (MayCut file len result)) }
        ensures time { moment_of self.new ≡ moment_of self.old + 1 }
        ensures counts { NoneFell (faults_of self.old.faults) (faults_of self.new.faults) }
        ensures cause { OnErr result (Rose (faults_of self.old.faults file) (faults_of self.new.faults file)) }
        ensures stay { StayLost (is_lost self.old.faults) (is_lost self.new.faults) }
        ensures lost { IsTrue (is_lost self.old.faults file) → IsErr result }
    {
        let Ended { answer, step } = cut(
            &mut self.folder,
            &mut self.ledger,
            &mut self.is_entered,
            file,
            len,
        );
        self.past = self.past.then(&self.folder.files, &Event::Called(step));
        end(&mut self.ledger, &mut self.count, file, answer)
    }

    fn sync(&mut self, file: u32) -> Result<(), Failed>
        requires { moment_of self.old < 2 ^ 62 }
        ensures told { Told (history_of self.old.past) (history_of self.new.past) (Adds (MaySync file result)) }
        ensures time { moment_of self.new ≡ moment_of self.old + 1 }
        ensures counts { NoneFell (faults_of self.old.faults) (faults_of self.new.faults) }
        ensures cause { OnErr result (Rose (faults_of self.old.faults file) (faults_of self.new.faults file)) }
        ensures stay { StayLost (is_lost self.old.faults) (is_lost self.new.faults) }
        ensures lost { IsTrue (is_lost self.old.faults file) → IsErr result }
        ensures failed { OnErr result (IsTrue (is_lost self.new.faults file)) }
    {
        let Ended { answer, step } = sync(
            &mut self.folder,
            &mut self.ledger,
            &mut self.is_entered,
            file,
        );
        self.past = self.past.then(&self.folder.files, &Event::Called(step));
        end(&mut self.ledger, &mut self.count, file, answer)
    }
}

impl<F: files_api::Stop + Drop> Stop for FolderStore<F> {
    ghost use Rattle.store_api.specs.Told.{StopsAs};
    ghost use Rattle.real_edge.specs.Kept.{moment_of};

    /// The store after a stop of the machine of its files, as these leave them. It is to be entered again, and files that were used
    /// no more are used.
    fn stop(self, choice: u64) -> Self
        ensures told { Told (history_of self.past) (history_of result.past) StopsAs }
        ensures time { moment_of result ≡ moment_of self }
        ensures counts { NoneFell (faults_of self.faults) (faults_of result.faults) }
    {
        let FolderStore {
            folder,
            mut ledger,
            is_entered: _,
            count,
            past,
        } = self;
        let folder = folder.stop(choice);
        let past = past.then(&folder.files, &Event::Stopped);
        ledger.forget();
        FolderStore {
            folder,
            ledger,
            is_entered: false,
            count,
            past,
        }
    }
}
