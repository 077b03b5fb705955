//! The changes that commits make of what is asked and of the tickets.
ghost use Rattle.std.specs.Prelude.{◌≡◌, ◌≤◌, ◌<◌, ◌==◌, ◌++◌, IfErr, None, OnOk, Some, is_some, length, map};
ghost use Rattle.std.specs.List.{flat_map, list_any};
ghost use Rattle.kinds.specs.Answers.{AnswersBy};
ghost use Rattle.kinds.specs.Refusals.{foremost};
ghost use Rattle.kinds.specs.declared.refusal.Refusal.TheVariants.{Memory};
ghost use Rattle.inventory_rows.specs.pool_tables.Rows.{row_at};
ghost use Rattle.machine.specs.Changes.{all_tickets, copy_from, filled, held_from, move_from, new_files, placed_change, scratch_of, version_from};
ghost use Rattle.machine.specs.State.{object_of};
ghost use Rattle.hall.specs.Commits.{backup_of, change_asked, filled_client, filled_store, hold_of, new_file, scratch_more, unfit, zipped};
ghost use Rattle.hall.specs.Held.{purpose_of};
ghost use Rattle.hall.specs.Sights.{sight_of, ticket_of};

use crate::parts::Parts;
use crate::seat::{Purpose, Seat};
use entries::Change;
use entries::change_items::{
    Batch, MovedCopies, MovedCopy, NewCopies, NewCopy, NewHeldObject, NewHeldObjects, NewVersion,
    NewVersions, Scratch, ScratchVolume,
};
use fields::Items;
use kinds::{
    DefineOrDelete, Fitting, ObjectChange, ObjectSize, PoolChange, Refusal, Segments, Verb,
};
use space::{Aim, Placed};
use std::alloc::Global;
use steps::{Asked, HeldItem, Item};

fn object_of(purpose: &Purpose) -> u64
    ensures { result ≡ object_of (purpose_of purpose.now) }
{
    match purpose {
        Purpose::Storing { object } => *object,
        Purpose::Copying { object, .. } => *object,
    }
}

fn segments_of(alloc: Global, places: &[Placed]) -> Result<Segments, Refusal>
    ensures { AnswersBy (λ s. s) result (map (λ p. p.segment) places.now) }
{
    let mut items = Vec::new(alloc);
    'places: for place in places {
        items.push(place.segment)?;
    }
    // No memory has room for more.
    if items.len() >= 1 << 32 {
        return Err(Refusal::Memory);
    }
    Ok(Segments::new(items))
}

fn size_of(bytes: u64) -> Result<ObjectSize, Refusal>
    ensures { AnswersBy (λ size. size) result bytes }
{
    match ObjectSize::new(bytes) {
        Some(size) => Ok(size),
        // A ticket is for fewer bytes.
        None => Err(Refusal::Memory),
    }
}

fn version_from(alloc: Global, item: &Item, seat: &Seat) -> Result<NewVersion, Refusal>
    ensures { AnswersBy (λ version. version) result (version_from item.now (ticket_of 0 seat.now)) }
{
    let size = size_of(seat.size)?;
    let path = item.path.clone()?;
    let class = item.class.clone()?;
    Ok(NewVersion {
        path,
        class,
        size,
        mtime: item.mtime,
        digest: item.digest,
        object: object_of(&seat.purpose),
        pool: seat.pool,
        segments: segments_of(alloc, seat.places.as_slice())?,
    })
}

fn held_from(alloc: Global, item: &HeldItem, seat: &Seat) -> Result<NewHeldObject, Refusal>
    ensures { AnswersBy (λ object. object) result (held_from item.now (ticket_of 0 seat.now)) }
{
    let size = size_of(seat.size)?;
    let path = item.path.clone()?;
    let description = item.description.clone()?;
    Ok(NewHeldObject {
        path,
        description,
        size,
        mtime: item.mtime,
        digest: item.digest,
        object: object_of(&seat.purpose),
        pool: seat.pool,
        segments: segments_of(alloc, seat.places.as_slice())?,
        until: item.until,
    })
}

/// Adds the copy that moves into a ticket's space, where the ticket is for one. Refused only for want of memory.
fn add_move(alloc: Global, out: &mut Batch<MovedCopy>, seat: &Seat) -> Result<(), Refusal>
    requires { length out.old < 256 }
    ensures ok { OnOk result (out.new ≡ out.old ++ move_from (ticket_of 0 seat.now) (purpose_of seat.now.purpose)) }
    ensures err { IfErr result (λ e. e ≡ Memory) }
{
    match &seat.purpose {
        Purpose::Copying {
            object,
            aim: Aim::Move { from, placed, .. },
        } => {
            let segments = segments_of(alloc, seat.places.as_slice())?;
            out.push(MovedCopy {
                object: *object,
                from: *from,
                placed: *placed,
                pool: seat.pool,
                segments,
            })?;
            Ok(())
        }
        _ => Ok(()),
    }
}

fn copy_from(alloc: Global, seat: &Seat) -> Result<NewCopy, Refusal>
    ensures { AnswersBy (λ copy. copy) result (copy_from (ticket_of 0 seat.now)) }
{
    let segments = segments_of(alloc, seat.places.as_slice())?;
    Ok(NewCopy {
        object: object_of(&seat.purpose),
        pool: seat.pool,
        segments,
    })
}

/// An equal change. It is read from the change's spelling.
fn copy_of(alloc: Global, change: &Change) -> Result<Change, Refusal>
    ensures { AnswersBy (λ copy. copy) result change.now }
{
    change.fits();
    let bytes = fields::encode(alloc, change)?;
    match fields::decode::<Change>(alloc, bytes.as_slice())? {
        Some(change) => Ok(change),
        // The bytes are the spelling of this change.
        None => Err(Refusal::Memory),
    }
}

/// A volume that is defined gets this file number.
fn fill_store(change: &mut PoolChange, next_file: u32)
    ensures { change.new ≡ filled_store next_file change.old }
{
    if let PoolChange::Volume {
        verb: Verb::Define,
        file,
        ..
    } = change
    {
        *file = next_file;
    }
}

/// A filespace that is defined gets this number.
fn fill_client(change: &mut ObjectChange, next_filespace: u32)
    ensures { change.new ≡ filled_client next_filespace change.old }
{
    if let ObjectChange::Filespace {
        verb: DefineOrDelete::Define,
        filespace,
        ..
    } = change
    {
        *filespace = next_filespace;
    }
}

fn has_file(file: u32, scratch: &[ScratchVolume]) -> bool
    ensures { result ≡ list_any (λ volume. volume.file == file) scratch.now }
{
    scratch.iter().any(|volume| volume.file == file)
}

impl Parts {
    /// The change that is asked, with the numbers that are drawn. Refused only for want of memory.
    fn plain_of(&self, asked: &Change) -> Result<Change, Refusal>
        ensures { AnswersBy (λ c. c) result (filled self.now.claims.next_file self.now.vault.database asked.now) }
    {
        let mut change = copy_of(self.alloc, asked)?;
        match &mut change {
            Change::Pool(it) => fill_store(it, self.space.next_file()),
            Change::Object(it) => fill_client(it, self.vault.database().tables().next_filespace),
            _ => {}
        }
        Ok(change)
    }

    /// There is a volume with this file number.
    pub(crate) fn is_volume(&self, file: u32) -> bool
        ensures { result ≡ is_some (row_at file self.now.vault.database.stores.volumes) }
    {
        let volumes = self.vault.database().tables().pools.volumes();
        volumes.contains_key(&file)
    }

    /// Adds a scratch volume with this file number, where no volume has it and it isn't among them yet. Refused only for want of memory.
    fn add_file(&self, out: &mut Scratch, pool: u32, file: u32) -> Result<(), Refusal>
        ensures ok { OnOk result (out.new ≡ scratch_more (new_file self.now.vault.database pool file) out.old) }
        ensures err { IfErr result (λ e. e ≡ Memory) }
    {
        if self.is_volume(file) {
            return Ok(());
        }
        if has_file(file, out.as_slice()) {
            return Ok(());
        }
        // There are fewer file numbers.
        if out.len() >= 4294967295 {
            return Err(Refusal::Memory);
        }
        out.push(ScratchVolume { pool, file })?;
        Ok(())
    }

    /// Adds the scratch volumes that a ticket's segments lie on, where they aren't there yet. Refused only for want of memory.
    fn add_scratch(&self, out: &mut Scratch, seat: &Seat) -> Result<(), Refusal>
        ensures ok { OnOk result (out.new ≡ scratch_more (new_files self.now.vault.database (ticket_of 0 seat.now)) out.old) }
        ensures err { IfErr result (λ e. e ≡ Memory) }
    {
        'places: for place in seat.places.as_slice() {
            self.add_file(out, seat.pool, place.segment.file)?;
        }
        Ok(())
    }

    /// The scratch volumes that a transaction of these tickets makes. Refused only for want of memory.
    fn scratch_of(&self, actor: u32, numbers: &[u64]) -> Result<Scratch, Refusal>
        ensures { AnswersBy (λ scratch. scratch) result (scratch_of self.now.vault.database (all_tickets numbers.now (sight_of actor self.now))) }
    {
        let mut out = Items::new(self.alloc);
        'numbers: for number in numbers {
            if let Some(seat) = self.own(actor, *number) {
                self.add_scratch(&mut out, seat)?;
            }
        }
        Ok(out)
    }

    fn versions_of(
        &self,
        items: &[Item],
        actor: u32,
        numbers: &[u64],
    ) -> Result<Batch<NewVersion>, Refusal>
        requires { length items.now ≤ 256 }
        ensures { AnswersBy (λ out. out) result (zipped version_from items.now numbers.now (sight_of actor self.now)) }
    {
        let mut out = Items::new(self.alloc);
        'items: for (at, item) in items.iter().enumerate() {
            match numbers.get(at) {
                Some(number) => {
                    if let Some(seat) = self.own(actor, *number) {
                        out.push(version_from(self.alloc, item, seat)?)?;
                    }
                }
                None => return Ok(out),
            }
        }
        Ok(out)
    }

    fn objects_of(
        &self,
        items: &[HeldItem],
        actor: u32,
        numbers: &[u64],
    ) -> Result<Batch<NewHeldObject>, Refusal>
        requires { length items.now ≤ 256 }
        ensures { AnswersBy (λ out. out) result (zipped held_from items.now numbers.now (sight_of actor self.now)) }
    {
        let mut out = Items::new(self.alloc);
        'items: for (at, item) in items.iter().enumerate() {
            match numbers.get(at) {
                Some(number) => {
                    if let Some(seat) = self.own(actor, *number) {
                        out.push(held_from(self.alloc, item, seat)?)?;
                    }
                }
                None => return Ok(out),
            }
        }
        Ok(out)
    }

    fn moves_of(&self, actor: u32, numbers: &[u64]) -> Result<Batch<MovedCopy>, Refusal>
        requires { length numbers.now ≤ 256 }
        ensures { AnswersBy (λ out. out) result (flat_map (λ t. move_from t t.purpose) (all_tickets numbers.now (sight_of actor self.now))) }
    {
        let mut out = Items::new(self.alloc);
        'numbers: for number in numbers {
            if let Some(seat) = self.own(actor, *number) {
                add_move(self.alloc, &mut out, seat)?;
            }
        }
        Ok(out)
    }

    fn copies_of(&self, actor: u32, numbers: &[u64]) -> Result<Batch<NewCopy>, Refusal>
        requires { length numbers.now ≤ 256 }
        ensures { AnswersBy (λ out. out) result (map copy_from (all_tickets numbers.now (sight_of actor self.now))) }
    {
        let mut out = Items::new(self.alloc);
        'numbers: for number in numbers {
            if let Some(seat) = self.own(actor, *number) {
                out.push(copy_from(self.alloc, seat)?)?;
            }
        }
        Ok(out)
    }

    fn backup_of(
        &self,
        filespace: u32,
        items: &[Item],
        actor: u32,
        numbers: &[u64],
    ) -> Result<Change, Refusal>
        requires { length items.now ≤ 256 }
        ensures { AnswersBy (λ c. c) result (backup_of filespace items.now numbers.now (sight_of actor self.now)) }
    {
        let scratch = self.scratch_of(actor, numbers)?;
        let items = self.versions_of(items, actor, numbers)?;
        Ok(Change::Backup(NewVersions {
            filespace,
            scratch,
            items,
        }))
    }

    fn hold_of(
        &self,
        filespace: u32,
        items: &[HeldItem],
        actor: u32,
        numbers: &[u64],
    ) -> Result<Change, Refusal>
        requires { length items.now ≤ 256 }
        ensures { AnswersBy (λ c. c) result (hold_of filespace items.now numbers.now (sight_of actor self.now)) }
    {
        let scratch = self.scratch_of(actor, numbers)?;
        let items = self.objects_of(items, actor, numbers)?;
        Ok(Change::Hold(NewHeldObjects {
            filespace,
            scratch,
            items,
        }))
    }

    fn placed_of(&self, actor: u32, numbers: &[u64]) -> Result<Change, Refusal>
        requires { length numbers.now ≤ 256 }
        ensures { AnswersBy (λ c. c) result (placed_change self.now.vault.database (all_tickets numbers.now (sight_of actor self.now))) }
    {
        let scratch = self.scratch_of(actor, numbers)?;
        if self.all_are(true, actor, numbers) {
            let items = self.moves_of(actor, numbers)?;
            Ok(Change::Move(MovedCopies { scratch, items }))
        } else {
            let items = self.copies_of(actor, numbers)?;
            Ok(Change::Copy(NewCopies { scratch, items }))
        }
    }

    /// The change that comes of what is asked and of the tickets. Refused only for want of memory.
    pub(crate) fn change_asked(
        &self,
        actor: u32,
        asked: &Asked,
        numbers: &[u64],
    ) -> Result<Change, Refusal>
        requires { foremost (unfit asked.now numbers.now (sight_of actor self.now)) ≡ None }
        ensures { AnswersBy (λ c. Some c) result (change_asked actor asked.now numbers.now self.now) }
    {
        match asked {
            Asked::Plain(change) => self.plain_of(change),
            Asked::Backup { filespace, items } => {
                self.backup_of(*filespace, items.as_slice(), actor, numbers)
            }
            Asked::Hold { filespace, items } => {
                self.hold_of(*filespace, items.as_slice(), actor, numbers)
            }
            Asked::Placed => self.placed_of(actor, numbers),
        }
    }
}
