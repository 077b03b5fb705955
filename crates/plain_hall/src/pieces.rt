//! Bytes of tickets and of objects: `write_piece`, `copy_piece`, `seal`, `drop_ticket` and `read_piece`.
ghost use Rattle.std.specs.Prelude.{◌≡◌, ◌≤◌, length, IfOk};

use crate::list_hall::{Hall, Purpose, piece};
use inventory_rows::version_groups::{CopyRow, Version};
use kinds::{By, Digest, Refusal, Segment, bad_value, sooner_of, unless};
use placing::is_readable;

/// A piece has at most so many bytes.
pub const MOST_BYTES: u64 = 65536;

/// A copy that is being made.
#[derive(Clone, Copy)]
struct Underway {
    object: u64,
    size: u64,
    done: u64,
    is_sealed: bool,
}

fn in_use(number: u64) -> Refusal {
    Refusal::InUse(By::Ticket(number))
}

/// Copies bytes into the front of a buffer, as many as both have, and answers how many.
fn copy_front(bytes: &[u8], into: &mut [u8]) -> usize
    ensures within { result ≤ length into.new }
    ensures same { length into.new ≡ length into.old }
{
    let count = bytes.len().min(into.len());
    into[..count].copy_from_slice(&bytes[..count]);
    count
}

impl Hall {
    /// Why bytes may not be written into a ticket, where they may not.
    fn write_refused(&self, actor: u32, number: u64, count: u64) -> Option<Refusal> {
        let Some(ticket) = self.own(actor, number) else {
            return Some(Refusal::NotFound);
        };
        let is_storing = match ticket.purpose {
            Purpose::Storing { .. } => true,
            Purpose::Copying { .. } => false,
        };
        if !is_storing || ticket.is_sealed {
            return Some(in_use(number));
        }
        let read = (ticket.bytes.len() as u64).saturating_add(count);
        unless(
            read <= ticket.size,
            Refusal::Changed {
                listed: ticket.size,
                read,
            },
        )
    }

    /// The ticket takes these bytes, and has so many then.
    fn take(&mut self, number: u64, bytes: &[u8]) -> Result<u64, Refusal> {
        match self.tickets.get_mut(&number) {
            Some(ticket) => {
                ticket.bytes.extend_from_slice(bytes)?;
                Ok(ticket.bytes.len() as u64)
            }
            None => Err(Refusal::NotFound),
        }
    }

    /// The next bytes of a new object, and how many it has then.
    pub fn write_piece(&mut self, actor: u32, number: u64, bytes: &[u8]) -> Result<u64, Refusal> {
        match self.write_refused(actor, number, bytes.len() as u64) {
            Some(refusal) => Err(refusal),
            None => self.take(number, bytes),
        }
    }

    /// The copy that the actor's ticket is for.
    fn underway(&self, actor: u32, number: u64) -> Result<Underway, Refusal> {
        let Some(ticket) = self.own(actor, number) else {
            return Err(Refusal::NotFound);
        };
        match ticket.purpose {
            Purpose::Storing { .. } => Err(in_use(number)),
            Purpose::Copying { object, .. } => Ok(Underway {
                object,
                size: ticket.size,
                done: ticket.bytes.len() as u64,
                is_sealed: ticket.is_sealed,
            }),
        }
    }

    /// One of the segments of the piece lies on a volume that can't be read.
    fn is_lost(&self, segments: &[Segment], offset: u64, count: u64) -> bool {
        let tables = self.inventory.tables();
        let mut start: u64 = 0;
        for segment in segments {
            let end = start.saturating_add(segment.len);
            if start < offset.saturating_add(count)
                && offset < end
                && !is_readable(tables, segment.file)
            {
                return true;
            }
            start = end;
        }
        false
    }

    fn is_lost_in(&self, copy: &CopyRow, from: u32, offset: u64, count: u64) -> bool {
        (from != 0 && copy.pool != from) || self.is_lost(copy.segments.as_slice(), offset, count)
    }

    /// No copy of the version that is asked has all of the piece.
    fn is_unavailable(&self, version: &Version, from: u32, offset: u64, count: u64) -> bool {
        let copies = version.copies.as_slice();
        copies
            .iter()
            .all(|c| self.is_lost_in(c, from, offset, count))
    }

    /// These bytes of the object.
    fn bytes_of(&self, object: u64, offset: u64, count: u64) -> &[u8] {
        match self.contents.get(&object) {
            Some(bytes) => piece(bytes.as_slice(), offset, count),
            None => &[],
        }
    }

    /// The next bytes of the object whose copy the ticket is for, as many as one piece has or as are left, and how many the copy has then.
    pub fn copy_piece(&mut self, actor: u32, number: u64) -> Result<u64, Refusal> {
        let it = self.underway(actor, number)?;
        let Some(version) = self.inventory.tables().objects.find(it.object) else {
            let sealed = unless(!it.is_sealed, in_use(number));
            let unknown = self.unknown(it.object);
            return Err(sooner_of(sealed, Some(unknown)).unwrap_or(unknown));
        };
        if it.is_sealed {
            return Err(in_use(number));
        }
        let count = it.size.saturating_sub(it.done).min(MOST_BYTES);
        if self.is_unavailable(version, 0, it.done, count) {
            return Err(Refusal::Unavailable);
        }
        let bytes = Vec::from_slice(self.alloc, self.bytes_of(it.object, it.done, count))?;
        self.take(number, bytes.as_slice())
    }

    /// The ticket has all its bytes, and takes no more.
    pub fn seal(&mut self, actor: u32, number: u64) -> Result<(), Refusal> {
        let Some(ticket) = self.own(actor, number) else {
            return Err(Refusal::NotFound);
        };
        let listed = ticket.size;
        let read = ticket.bytes.len() as u64;
        if read != listed {
            return Err(Refusal::Changed { listed, read });
        }
        if let Some(ticket) = self.tickets.get_mut(&number) {
            ticket.is_sealed = true;
        }
        Ok(())
    }

    /// The actor's ticket goes, with its space; whether it had one with this number.
    pub fn drop_ticket(&mut self, actor: u32, number: u64) -> bool {
        let was_there = self.own(actor, number).is_some();
        if was_there {
            self.let_go(number);
        }
        was_there
    }

    /// Why a version can't be read so, where it can't.
    fn read_refused(
        &self,
        version: &Version,
        kept: &Digest,
        from: u32,
        offset: u64,
    ) -> Option<Refusal> {
        let copies = version.copies.as_slice();
        let has_copy = from == 0 || copies.iter().any(|c| c.pool == from);
        let there = unless(has_copy, Refusal::NotFound);
        let within = unless(offset <= version.size.bytes(), bad_value());
        let differs = Refusal::DigestDiffers {
            kept: version.digest,
            given: *kept,
        };
        let same = unless(version.digest == *kept, differs);
        sooner_of(sooner_of(there, within), same)
    }

    /// The bytes of a piece of an object.
    pub fn read_piece(
        &self,
        object: u64,
        kept: &Digest,
        from: u32,
        offset: u64,
        wanted: u64,
    ) -> Result<&[u8], Refusal> {
        let Some(version) = self.inventory.tables().objects.find(object) else {
            return Err(self.unknown(object));
        };
        if let Some(refusal) = self.read_refused(version, kept, from, offset) {
            return Err(refusal);
        }
        let count = version.size.bytes().saturating_sub(offset).min(wanted);
        if self.is_unavailable(version, from, offset, count) {
            return Err(Refusal::Unavailable);
        }
        Ok(self.bytes_of(object, offset, count))
    }

    /// Reads a piece of an object into the front of a buffer, and answers how many bytes it has.
    pub fn read_into(
        &self,
        object: u64,
        kept: &Digest,
        from: u32,
        offset: u64,
        into: &mut [u8],
    ) -> Result<usize, Refusal>
        ensures { IfOk result (λ count. count ≤ length into.new) }
    {
        match self.read_piece(object, kept, from, offset, into.len() as u64) {
            Ok(bytes) => Ok(copy_front(bytes, into)),
            Err(refusal) => Err(refusal),
        }
    }
}
