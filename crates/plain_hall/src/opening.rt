//! Space for objects: `open_new` and `open_copy`.
use crate::list_hall::{Hall, Purpose, Ticket};
use entries::change_items::MovedCopy;
use inventory_rows::version_groups::Version;
use inventory_rows::{is_primary, is_primary_kind};
use item_refusals::{Past, move_refused};
use kinds::{Refusal, Segment, Segments, bad_value, sooner_of, unless};
use space::{Aim, Claim, Placed, Places, Request, choose_by_walk, goes_to};
use std::alloc::Global;

/// No object has so many bytes.
const TOO_LARGE: u64 = 1 << 44;

/// The pool that some places are in; where there are none, as of an object without bytes, the one that was asked for.
fn pool_of(places: &[Placed], asked: u32) -> u32 {
    match places.first() {
        Some(place) => place.pool,
        None => asked,
    }
}

fn segments_of(alloc: Global, places: &[Placed]) -> Result<Vec<Segment>, Refusal> {
    let mut out = Vec::new(alloc);
    for place in places {
        out.push(place.segment)?;
    }
    Ok(out)
}

/// A ticket without bytes.
fn ticket_of(
    alloc: Global,
    request: &Request,
    purpose: Purpose,
    places: &[Placed],
) -> Result<Ticket, Refusal> {
    Ok(Ticket {
        actor: request.actor,
        purpose,
        size: request.size,
        pool: pool_of(places, goes_to(request.aim)),
        segments: segments_of(alloc, places)?,
        bytes: Vec::new(alloc),
        is_sealed: false,
    })
}

/// A copy pool has a copy of the version already.
fn copied_already(version: &Version, pool: u32) -> Option<Refusal> {
    match version.copies.as_slice().iter().find(|c| c.pool == pool) {
        Some(copy) => Some(Refusal::Stale(copy.placed)),
        None => None,
    }
}

impl Hall {
    /// The numbers of the files that the places are on aren't drawn again.
    fn draw(&mut self, places: &[Placed]) {
        for place in places {
            if place.segment.file < u32::MAX {
                self.space.draw(place.segment.file);
            }
        }
    }

    /// One ticket more, that has these places.
    fn open(
        &mut self,
        request: &Request,
        purpose: Purpose,
        places: Places,
    ) -> Result<u64, Refusal> {
        let number = self.next_ticket;
        let ticket = ticket_of(self.alloc, request, purpose, places.as_slice())?;
        let _ = self.tickets.insert(number, ticket)?;
        self.draw(places.as_slice());
        let actor = request.actor;
        match self.space.hold(number, Claim { actor, places }) {
            Ok(()) => {
                self.next_ticket = number.saturating_add(1);
                Ok(number)
            }
            Err(refusal) => {
                self.let_go(number);
                Err(refusal)
            }
        }
    }

    fn choose(&self, request: &Request) -> Result<Places, Refusal> {
        choose_by_walk(
            self.alloc,
            &self.inventory.tables().pools,
            &self.space,
            request,
        )
    }

    /// Space for a new object, in the hierarchy that begins at this pool, and the number of its ticket.
    pub fn open_new(
        &mut self,
        actor: u32,
        pool: u32,
        size: u64,
        prefer: u32,
    ) -> Result<u64, Refusal> {
        if size >= TOO_LARGE {
            return Err(Refusal::TooLarge);
        }
        if !is_primary(self.inventory.tables(), pool) {
            return Err(Refusal::NotFound);
        }
        let request = Request {
            actor,
            size,
            aim: Aim::New { pool },
            prefer,
            avoid: 0,
        };
        let places = self.choose(&request)?;
        let object = self.next_object;
        let number = self.open(&request, Purpose::Storing { object }, places)?;
        self.next_object = object.saturating_add(1);
        Ok(number)
    }

    /// Nothing is kept of the object any more, or never was.
    pub fn unknown(&self, object: u64) -> Refusal {
        match self.told.removed(object) {
            Some(number) => Refusal::Gone(number),
            None => Refusal::NotFound,
        }
    }

    /// Why the object's copy may not move, where it may not.
    fn move_refused(
        &self,
        object: u64,
        from: u32,
        placed: u64,
        to: u32,
    ) -> Result<Option<Refusal>, Refusal> {
        let mut items = Vec::new(self.alloc);
        items.push(MovedCopy {
            object,
            from,
            placed,
            pool: to,
            segments: Segments::new(Vec::new(self.alloc)),
        })?;
        Ok(move_refused(&self.told, self.inventory.tables(), items.as_slice()))
    }

    fn has_pool(&self, pool: u32) -> bool {
        self.inventory.tables().pools.pools().get(&pool).is_some()
    }

    fn has_copy_pool(&self, pool: u32) -> bool {
        match self.inventory.tables().pools.pools().get(&pool) {
            Some(pool) => !is_primary_kind(pool.kind),
            None => false,
        }
    }

    /// Why an aim for a copy is refused, where it is.
    fn aim_refused(&self, object: u64, aim: Aim) -> Result<Option<Refusal>, Refusal> {
        match aim {
            Aim::New { .. } => Ok(Some(bad_value())),
            Aim::Move {
                from,
                placed,
                to,
                ..
            } => {
                let there = unless(self.has_pool(to), Refusal::NotFound);
                let moved = self.move_refused(object, from, placed, to)?;
                Ok(sooner_of(there, moved))
            }
            Aim::Copy { to } => {
                let there = unless(self.has_copy_pool(to), Refusal::NotFound);
                let copied = match self.inventory.tables().objects.find(object) {
                    Some(version) => copied_already(version, to),
                    None => Some(self.unknown(object)),
                };
                Ok(sooner_of(there, copied))
            }
        }
    }

    /// How many bytes are to be placed, where that is known: the aim is one for copies, and the object and the pool are there.
    fn size_to_place(&self, object: u64, aim: Aim) -> Option<u64> {
        if let Aim::New { .. } = aim {
            return None;
        }
        if !self.has_pool(goes_to(aim)) {
            return None;
        }
        match self.inventory.tables().objects.find(object) {
            Some(version) => Some(version.size.bytes()),
            None => None,
        }
    }

    /// A ticket for a copy in these places, unless that is refused so.
    fn open_unless(
        &mut self,
        refused: Option<Refusal>,
        request: &Request,
        object: u64,
        places: Places,
    ) -> Result<u64, Refusal> {
        match refused {
            Some(refusal) => {
                drop(places);
                Err(refusal)
            }
            None => {
                let aim = request.aim;
                self.open(request, Purpose::Copying { object, aim }, places)
            }
        }
    }

    /// Space for a copy of an object, and the number of its ticket.
    pub fn open_copy(
        &mut self,
        actor: u32,
        object: u64,
        aim: Aim,
        avoid: u32,
    ) -> Result<u64, Refusal> {
        let refused = self.aim_refused(object, aim)?;
        let size = match self.size_to_place(object, aim) {
            Some(size) => size,
            None => return Err(refused.unwrap_or(Refusal::NotFound)),
        };
        let request = Request {
            actor,
            size,
            aim,
            prefer: 0,
            avoid,
        };
        match self.choose(&request) {
            Ok(places) => self.open_unless(refused, &request, object, places),
            Err(refusal) => Err(sooner_of(refused, Some(refusal)).unwrap_or(refusal)),
        }
    }
}
