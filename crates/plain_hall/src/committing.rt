//! Transactions of what is asked and of tickets: `commit`.
use crate::list_hall::{Hall, Purpose, Ticket, digest_of};
use entries::change_items::{
    Batch, MovedCopies, MovedCopy, NewCopies, NewCopy, NewHeldObject, NewHeldObjects, NewVersion,
    NewVersions, Scratch, ScratchVolume,
};
use entries::{Change, Entry};
use fields::Items;
use kinds::{
    By, DefineOrDelete, Digest, Fitting, Holder, ObjectChange, ObjectSize, PoolChange, Refusal,
    Segments, Verb, bad_value, sooner_of, unless,
};
use space::Aim;
use std::alloc::Global;
use steps::{Asked, HeldItem, Item};

/// A copy of a change. It is read from the change's spelling.
fn copy_of(alloc: Global, change: &Change) -> Result<Change, Refusal> {
    change.fits();
    let bytes = fields::encode(alloc, change)?;
    match fields::decode::<Change>(alloc, bytes.as_slice())? {
        Some(change) => Ok(change),
        None => Err(Refusal::Memory),
    }
}

/// What has a step of its own, or comes from tickets alone, isn't asked so.
fn is_plain(change: &Change) -> bool {
    match change {
        Change::Backup(_)
        | Change::Hold(_)
        | Change::Move(_)
        | Change::Copy(_)
        | Change::Reuse { .. }
        | Change::DbBegin { .. }
        | Change::DbEnd { .. } => false,
        _ => true,
    }
}

/// A volume that is defined gets this file number.
fn fill_volume(change: &mut PoolChange, next_file: u32) {
    if let PoolChange::Volume {
        verb: Verb::Define,
        file,
        ..
    } = change
    {
        *file = next_file;
    }
}

/// A filespace that is defined gets this number.
fn fill_filespace(change: &mut ObjectChange, next_filespace: u32) {
    if let ObjectChange::Filespace {
        verb: DefineOrDelete::Define,
        filespace,
        ..
    } = change
    {
        *filespace = next_filespace;
    }
}

/// The file number that a volume's change draws, where it draws one.
fn drawn_by(change: &PoolChange) -> Option<u32> {
    match change {
        PoolChange::Volume {
            verb: Verb::Define,
            file,
            ..
        } => Some(*file),
        _ => None,
    }
}

/// A number stands only once in the list.
fn stand_once(numbers: &[u64]) -> bool {
    for (place, number) in numbers.iter().enumerate() {
        if numbers.iter().take(place).any(|n| *n == *number) {
            return false;
        }
    }
    true
}

fn is_storing(ticket: &Ticket) -> bool {
    match ticket.purpose {
        Purpose::Storing { .. } => true,
        Purpose::Copying { .. } => false,
    }
}

fn object_of(ticket: &Ticket) -> u64 {
    match ticket.purpose {
        Purpose::Storing { object } => object,
        Purpose::Copying { object, .. } => object,
    }
}

/// The ticket is for a copy that moves.
fn is_moved(ticket: &Ticket) -> bool {
    match ticket.purpose {
        Purpose::Copying {
            aim: Aim::Move { .. },
            ..
        } => true,
        _ => false,
    }
}

fn segments_of(alloc: Global, ticket: &Ticket) -> Result<Segments, Refusal> {
    let items = Vec::from_slice(alloc, ticket.segments.as_slice())?;
    if items.as_slice().len() < 1 << 32 {
        Ok(Segments::new(items))
    } else {
        Err(Refusal::Memory)
    }
}

fn size_of(ticket: &Ticket) -> Result<ObjectSize, Refusal> {
    ObjectSize::new(ticket.size).ok_or(Refusal::TooLarge)
}

fn version_from(alloc: Global, item: &Item, ticket: &Ticket) -> Result<NewVersion, Refusal> {
    let size = size_of(ticket)?;
    let class = item.class.clone()?;
    let path = item.path.clone()?;
    Ok(NewVersion {
        path,
        class,
        size,
        mtime: item.mtime,
        digest: item.digest,
        object: object_of(ticket),
        pool: ticket.pool,
        segments: segments_of(alloc, ticket)?,
    })
}

fn held_from(alloc: Global, item: &HeldItem, ticket: &Ticket) -> Result<NewHeldObject, Refusal> {
    let size = size_of(ticket)?;
    let path = item.path.clone()?;
    let description = item.description.clone()?;
    Ok(NewHeldObject {
        path,
        description,
        size,
        mtime: item.mtime,
        digest: item.digest,
        object: object_of(ticket),
        pool: ticket.pool,
        segments: segments_of(alloc, ticket)?,
        until: item.until,
    })
}

fn move_from(alloc: Global, ticket: &Ticket) -> Result<MovedCopy, Refusal> {
    match ticket.purpose {
        Purpose::Copying {
            object,
            aim: Aim::Move { from, placed, .. },
        } => Ok(MovedCopy {
            object,
            from,
            placed,
            pool: ticket.pool,
            segments: segments_of(alloc, ticket)?,
        }),
        _ => Err(bad_value()),
    }
}

fn copy_from(alloc: Global, ticket: &Ticket) -> Result<NewCopy, Refusal> {
    Ok(NewCopy {
        object: object_of(ticket),
        pool: ticket.pool,
        segments: segments_of(alloc, ticket)?,
    })
}

/// One item more; a transaction has at most 256.
fn add<T: Drop>(items: &mut Batch<T>, item: T) -> Result<(), Refusal> {
    if items.len() >= 256 {
        drop(item);
        return Err(bad_value());
    }
    items.push(item)?;
    Ok(())
}

/// Each of the digests of what is stored, in its place.
fn digests_of(alloc: Global, asked: &Asked) -> Result<Vec<Digest>, Refusal> {
    let mut out = Vec::new(alloc);
    if let Asked::Backup { items, .. } = asked {
        for item in items.as_slice() {
            out.push(item.digest)?;
        }
    }
    if let Asked::Hold { items, .. } = asked {
        for item in items.as_slice() {
            out.push(item.digest)?;
        }
    }
    Ok(out)
}

impl Hall {
    /// Adds the scratch volumes that the ticket's segments lie on, where they aren't there yet.
    fn add_scratch(&self, out: &mut Scratch, ticket: &Ticket) -> Result<(), Refusal> {
        let volumes = self.inventory.tables().pools.volumes();
        for segment in ticket.segments.as_slice() {
            let file = segment.file;
            let is_new = volumes.get(&file).is_none()
                && !out.as_slice().iter().any(|v| v.file == file);
            if is_new && out.len() < 4_294_967_295 {
                out.push(ScratchVolume {
                    pool: ticket.pool,
                    file,
                })?;
            }
        }
        Ok(())
    }

    /// The scratch volumes that a transaction of these tickets makes.
    fn scratch_of(&self, actor: u32, numbers: &[u64]) -> Result<Scratch, Refusal> {
        let mut out = Items::new(self.alloc);
        for number in numbers {
            if let Some(ticket) = self.own(actor, *number) {
                self.add_scratch(&mut out, ticket)?;
            }
        }
        Ok(out)
    }

    /// The ticket at this place of a list.
    fn at(&self, actor: u32, numbers: &[u64], place: usize) -> Result<&Ticket, Refusal> {
        match numbers.get(place) {
            Some(number) => self.own(actor, *number).ok_or(Refusal::NotFound),
            None => Err(bad_value()),
        }
    }

    fn backup_of(
        &self,
        actor: u32,
        filespace: u32,
        asked: &[Item],
        numbers: &[u64],
    ) -> Result<Change, Refusal> {
        let mut items = Items::new(self.alloc);
        for (place, item) in asked.iter().enumerate() {
            let ticket = self.at(actor, numbers, place)?;
            add(&mut items, version_from(self.alloc, item, ticket)?)?;
        }
        Ok(Change::Backup(NewVersions {
            filespace,
            scratch: self.scratch_of(actor, numbers)?,
            items,
        }))
    }

    fn hold_of(
        &self,
        actor: u32,
        filespace: u32,
        asked: &[HeldItem],
        numbers: &[u64],
    ) -> Result<Change, Refusal> {
        let mut items = Items::new(self.alloc);
        for (place, item) in asked.iter().enumerate() {
            let ticket = self.at(actor, numbers, place)?;
            add(&mut items, held_from(self.alloc, item, ticket)?)?;
        }
        Ok(Change::Hold(NewHeldObjects {
            filespace,
            scratch: self.scratch_of(actor, numbers)?,
            items,
        }))
    }

    fn moves_of(&self, actor: u32, numbers: &[u64]) -> Result<Change, Refusal> {
        let mut items = Items::new(self.alloc);
        for place in 0..numbers.len() {
            let ticket = self.at(actor, numbers, place)?;
            add(&mut items, move_from(self.alloc, ticket)?)?;
        }
        Ok(Change::Move(MovedCopies {
            scratch: self.scratch_of(actor, numbers)?,
            items,
        }))
    }

    fn copies_of(&self, actor: u32, numbers: &[u64]) -> Result<Change, Refusal> {
        let mut items = Items::new(self.alloc);
        for place in 0..numbers.len() {
            let ticket = self.at(actor, numbers, place)?;
            add(&mut items, copy_from(self.alloc, ticket)?)?;
        }
        Ok(Change::Copy(NewCopies {
            scratch: self.scratch_of(actor, numbers)?,
            items,
        }))
    }

    /// All of the actor's tickets with these numbers pass the test.
    fn all_pass<F: Fn(&Ticket) -> bool>(&self, actor: u32, numbers: &[u64], test: F) -> bool
        requires { F.IsAlwaysCallable test }
    {
        for number in numbers {
            if let Some(ticket) = self.own(actor, *number) {
                if !test(ticket) {
                    return false;
                }
            }
        }
        true
    }

    /// The change that is asked, with the numbers that are drawn.
    fn plain_of(&self, asked: &Change) -> Result<Change, Refusal> {
        let mut change = copy_of(self.alloc, asked)?;
        match &mut change {
            Change::Pool(it) => fill_volume(it, self.space.next_file()),
            Change::Object(it) => fill_filespace(it, self.inventory.tables().next_filespace),
            _ => {}
        }
        Ok(change)
    }

    /// The change that is made of what is asked.
    fn change_of(&self, actor: u32, asked: &Asked, numbers: &[u64]) -> Result<Change, Refusal> {
        match asked {
            Asked::Plain(change) => self.plain_of(change),
            Asked::Backup { filespace, items } => {
                self.backup_of(actor, *filespace, items.as_slice(), numbers)
            }
            Asked::Hold { filespace, items } => {
                self.hold_of(actor, *filespace, items.as_slice(), numbers)
            }
            Asked::Placed => {
                if self.all_pass(actor, numbers, is_moved) {
                    self.moves_of(actor, numbers)
                } else {
                    self.copies_of(actor, numbers)
                }
            }
        }
    }

    /// The ticket's bytes have the digest that is given.
    fn digest_refused(&self, actor: u32, number: u64, given: &Digest) -> Option<Refusal> {
        let kept = digest_of(self.own(actor, number)?.bytes.as_slice());
        let given = *given;
        unless(kept == given, Refusal::DigestDiffers { kept, given })
    }

    /// Why tickets aren't those of new objects with these digests, where they aren't.
    fn storing_refused(&self, actor: u32, digests: &[Digest], numbers: &[u64]) -> Option<Refusal> {
        let are_new = digests.len() == numbers.len() && self.all_pass(actor, numbers, is_storing);
        let mut held = unless(are_new, bad_value());
        for (place, number) in numbers.iter().enumerate() {
            if let Some(given) = digests.get(place) {
                held = sooner_of(held, self.digest_refused(actor, *number, given));
            }
        }
        held
    }

    /// Tickets of copies are all to move, or all further ones, and there is one.
    fn are_placed(&self, actor: u32, numbers: &[u64]) -> bool {
        let are_moved = self.all_pass(actor, numbers, is_moved);
        let are_copied = self.all_pass(actor, numbers, |t| !is_storing(t) && !is_moved(t));
        !numbers.is_empty() && (are_moved || are_copied)
    }

    /// Why what is asked and the tickets don't go together, where they don't.
    fn asked_refused(
        &self,
        actor: u32,
        asked: &Asked,
        digests: &[Digest],
        numbers: &[u64],
    ) -> Option<Refusal> {
        match asked {
            Asked::Plain(change) => unless(numbers.is_empty() && is_plain(change), bad_value()),
            Asked::Placed => unless(self.are_placed(actor, numbers), bad_value()),
            _ => self.storing_refused(actor, digests, numbers),
        }
    }

    /// Why one of the tickets isn't one that may be committed, where it isn't.
    fn ticket_refused(&self, actor: u32, number: u64) -> Option<Refusal> {
        match self.own(actor, number) {
            Some(ticket) => unless(ticket.is_sealed, Refusal::InUse(By::Ticket(number))),
            None => Some(Refusal::NotFound),
        }
    }

    fn tickets_refused(
        &self,
        actor: u32,
        asked: &Asked,
        numbers: &[u64],
    ) -> Result<Option<Refusal>, Refusal> {
        let digests = digests_of(self.alloc, asked)?;
        let mut held = unless(stand_once(numbers) && numbers.len() <= 256, bad_value());
        for number in numbers {
            held = sooner_of(held, self.ticket_refused(actor, *number));
        }
        let asked = self.asked_refused(actor, asked, digests.as_slice(), numbers);
        Ok(sooner_of(held, asked))
    }

    fn pool_held(&self, change: &PoolChange) -> Option<Refusal> {
        let pools = &self.inventory.tables().pools;
        match change {
            PoolChange::Volume {
                verb: Verb::Delete,
                volume,
                ..
            } => self.held_on(pools.volume_named(volume)?),
            PoolChange::Pool {
                verb: Verb::Delete,
                pool,
                ..
            } => self.held_in(pools.pool_named(pool)?),
            _ => None,
        }
    }

    /// Who holds what the transaction would take away.
    fn held_refused(&self, change: &Change) -> Option<Refusal> {
        match change {
            Change::Pool(it) => self.pool_held(it),
            Change::DbDelete { file } => {
                let image = self.image?;
                unless(
                    image.file != *file,
                    Refusal::Busy(Holder::Image(image.actor)),
                )
            }
            _ => None,
        }
    }

    /// The transaction has more bytes than a record may have, or memory is wanted.
    fn spelling_refused(&self, entry: &Entry) -> Option<Refusal> {
        match entry.encode(self.alloc) {
            Ok(_) => None,
            Err(refusal) => Some(refusal),
        }
    }

    /// The bytes of new objects are kept.
    fn keep(&mut self, number: u64) -> Result<(), Refusal> {
        if let Some(ticket) = self.tickets.get(&number) {
            if let Purpose::Storing { object } = ticket.purpose {
                let bytes = Vec::from_slice(self.alloc, ticket.bytes.as_slice())?;
                let _ = self.contents.insert(object, bytes)?;
            }
        }
        Ok(())
    }

    /// The file number that a change draws isn't drawn again.
    fn draw_for(&mut self, change: &Change) {
        let drawn = match change {
            Change::Pool(it) => drawn_by(it),
            _ => None,
        };
        if let Some(file) = drawn {
            if file < u32::MAX {
                self.space.draw(file);
            }
        }
    }

    /// Makes the transaction, unless one of these refusals holds, or one of its own.
    fn commit_entry(
        &mut self,
        entry: &Entry,
        numbers: &[u64],
        held: Option<Refusal>,
    ) -> Result<u64, Refusal> {
        let held = sooner_of(held, self.illegal(entry));
        let held = sooner_of(held, self.spelling_refused(entry));
        if let Some(refusal) = sooner_of(held, self.held_refused(&entry.change)) {
            return Err(refusal);
        }
        for number in numbers {
            self.keep(*number)?;
        }
        let made = self.join(entry)?;
        self.draw_for(&entry.change);
        for number in numbers {
            self.let_go(*number);
        }
        Ok(made)
    }

    /// Makes the transaction that is asked, with these tickets, which are spent, and answers its number. It isn't forced yet.
    pub fn commit(&mut self, actor: u32, asked: &Asked, numbers: &[u64]) -> Result<u64, Refusal> {
        let held = self.tickets_refused(actor, asked, numbers)?;
        let change = match self.change_of(actor, asked, numbers) {
            Ok(change) => change,
            Err(refusal) => return Err(held.unwrap_or(refusal)),
        };
        let entry = Entry { actor, change };
        let answer = self.commit_entry(&entry, numbers, held);
        drop(entry);
        answer
    }
}
