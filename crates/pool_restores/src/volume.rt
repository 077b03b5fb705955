//! The process that restores a volume.
ghost use Rattle.std.specs.Prelude.{◌≡◌, ◌⊎◌, ◌≤◌, ◌+◌, ◌-◌, ◌^◌, IfOk};
ghost use Rattle.std.specs.Option.{option_copied};
ghost use Rattle.kinds.specs.Answers.{Answers, AnswersBy};
ghost use Rattle.steps.specs.Calls.{Call};
ghost use Rattle.pool_restores.specs.Listing.{destroying, destroying_of, volume_with};
ghost use Rattle.pool_restores.specs.Volumes.{BeginsVolume, Destroys, VolumeRestore, unmade};

use crate::asking::ask_volumes;
use crate::listing::collect;
use copy_runs::{Moved, Wanted, copy_and_finish};
use entries::Change;
use inventory_answers::VolumeLine;
use inventory_work::Listed;
use kinds::{Access, PoolChange, Refusal, Verb};
use sessions::commit_change;
use std::alloc::Global;
use steps::Stepper;

/// The volume with this file number, where it is among these.
fn volume_with(lines: &[VolumeLine], file: u32) -> Option<&VolumeLine>
    ensures { option_copied result ≡ volume_with file lines.now }
{
    lines.iter().find(|line| line.file == file)
}

/// The transaction by which what the volume held is lost. Its one refusal is want of memory.
fn destroying(line: &VolumeLine) -> Result<Change, Refusal>
    ensures { AnswersBy (λ c. c) result (destroying line.now) }
{
    let volume = line.name.clone()?;
    Ok(Change::Pool(PoolChange::Volume {
        verb: Verb::Update,
        volume,
        pool: 0,
        file: line.file,
        capacity: line.capacity,
        access: Access::Destroyed,
    }))
}

/// That transaction of the volume with this file number. `NotFound` where it isn't among these.
fn destroying_of(lines: &[VolumeLine], file: u32) -> Result<Change, Refusal>
    ensures { Answers result (destroying_of file lines.now) }
{
    match volume_with(lines, file) {
        Some(line) => destroying(line),
        None => Err(Refusal::NotFound),
    }
}

/// The refusal with which the process ends where the volume's transaction was so refused.
fn unmade(refusal: Refusal) -> Refusal
    ensures { result ≡ unmade refusal }
{
    match refusal.number() {
        4 | 10 | 12 | 21 | 31 | 40 | 41 | 50 => refusal,
        _ => Refusal::Memory,
    }
}

/// Commits that what the volume held is lost, and makes it durable.
fn destroy<P: Stepper>(p: &mut P, file: u32) -> Result<(), Refusal>
    ensures { Call P.did p.old p.new (λ events. Destroys file events result) }
{
    let change = match ask_volumes(p) {
        Ok(lines) => match destroying_of(lines.as_slice(), file) {
            Ok(change) => change,
            Err(refusal) => return Err(refusal),
        },
        Err(refusal) => return Err(refusal),
    };
    match commit_change(p, change) {
        Ok(_) => Ok(()),
        Err(refusal) => Err(unmade(refusal)),
    }
}

/// Asks which copies are wanted, once what the volume held is lost.
fn begin<P: Stepper>(alloc: Global, p: &mut P, file: u32) -> Result<Listed<Wanted>, Refusal>
    ensures { Call P.did p.old p.new (λ events. BeginsVolume file events result) }
{
    match destroy(p, file) {
        Ok(()) => collect(alloc, p, None, &[file]),
        Err(refusal) => Err(refusal),
    }
}

/// Sets the volume with this file number to DESTROYED, copies what it held into its pool again, or where that has no room to the pools behind it, from other copies of the objects, and
/// answers how many copies were made and for how many objects none could be made. The volume isn't deleted. It passes over an object that was removed meanwhile, and over one whose copy
/// was moved or dropped. `NotFound` where the volume isn't there, also where it goes meanwhile, or its pool does; `BadValue` with 0 where it is a copy pool's. It ends with
/// `InventoryFull`, `LogFault`, `RunFull` or `Memory` where a step of its own answers so, and with `Busy` where a step of its own and then `wait` answer so; what it did until then stays.
pub fn restore_volume<P: Stepper>(alloc: Global, p: &mut P, file: u32) -> Result<Moved, Refusal>
    ensures came { Call P.did p.old p.new (λ events. VolumeRestore file events result) }
    ensures rise { IfOk result (λ m. (P.refused_of p.old + m.failed ≤ P.refused_of p.new) ⊎ (2 ^ 64 - 1 ≤ P.refused_of p.new)) }
{
    let wanted = match begin(alloc, p, file) {
        Ok(wanted) => wanted,
        Err(refusal) => return Err(refusal),
    };
    copy_and_finish(p, wanted.as_slice(), 0)
}
