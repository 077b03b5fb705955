ghost use Rattle.std.specs.Prelude.{◌≡◌, ◌+◌, ◌^◌, ◌<◌, Ok};
ghost use Rattle.kinds.specs.Answers.{Becomes};

use crate::places::Places;
use kinds::Refusal;
use std::alloc::Global;
use std::collections::BTreeMap;
use std::marker::Model;

/// What a live ticket holds on volumes.
#[derive(Drop)]
pub struct Claim {
    /// The number of the actor whose ticket it is.
    pub actor: u32,
    /// The space that it holds.
    pub places: Places,
}

/// What is not to be written on volumes beside the copies: the space that live tickets hold, and that of segments which transactions took away
/// that aren't forced yet, as a stop would bring these copies back. With it stands the number that the next file gets, from which scratch
/// volumes have theirs.
#[derive(Drop)]
pub struct Space {
    alloc: Global,
    tickets: BTreeMap<u64, Claim>,
    freed: BTreeMap<u64, Places>,
    next_file: u32,
}

impl Model for Space {
    ghost use Rattle.space.specs.Claims.{Claims};

    ghost Value = { Claims };

    ghost view = { λ s. record { tickets = s.tickets.entries; freed = s.freed.entries; next_file = s.next_file } };
}

impl Space {
    ghost use Rattle.space.specs.Claims.{unclaimed, held, released, noted, forgotten, forced, drawn};

    /// Nothing is held, and no transaction waits to be forced. It takes no memory.
    pub fn new(alloc: Global, next_file: u32) -> Self
        ensures { result ≡ unclaimed next_file }
    {
        Space {
            alloc,
            tickets: BTreeMap::new(alloc),
            freed: BTreeMap::new(alloc),
            next_file,
        }
    }

    /// What each live ticket holds, by the ticket's number.
    pub fn tickets(&self) -> &BTreeMap<u64, Claim>
        ensures { result.now.entries ≡ self.now.tickets }
    {
        &self.tickets
    }

    /// The segments that each transaction took away which isn't forced yet, by the transaction's number.
    pub fn freed(&self) -> &BTreeMap<u64, Places>
        ensures { result.now.entries ≡ self.now.freed }
    {
        &self.freed
    }

    /// The number that the next file gets.
    pub fn next_file(&self) -> u32
        ensures { result ≡ self.now.next_file }
    {
        self.next_file
    }

    /// A ticket gets its space. Its one refusal is `Memory`; then nothing changes.
    pub fn hold(&mut self, number: u64, claim: Claim) -> Result<(), Refusal>
        ensures { Becomes result self.old self.new (Ok (held number claim self.old)) }
    {
        self.tickets.insert(number, claim)?;
        Ok(())
    }

    /// A ticket gives its space back, or its segments have become a copy's. It takes no memory.
    pub fn release(&mut self, number: u64)
        ensures { self.new ≡ released number self.old }
    {
        let _ = self.tickets.remove(&number);
    }

    /// A transaction that isn't forced yet took these segments away. Its one refusal is `Memory`; then nothing changes.
    pub fn note(&mut self, number: u64, places: Places) -> Result<(), Refusal>
        ensures { Becomes result self.old self.new (Ok (noted number places self.old)) }
    {
        self.freed.insert(number, places)?;
        Ok(())
    }

    /// A transaction that was to take segments away wasn't made: what stands under its number goes. It takes no memory.
    pub fn forget(&mut self, number: u64)
        ensures { self.new ≡ forgotten number self.old }
    {
        let _ = self.freed.remove(&number);
    }

    /// Every transaction is forced. It takes no memory.
    pub fn force(&mut self)
        ensures { self.new ≡ forced self.old }
    {
        self.freed = BTreeMap::new(self.alloc);
    }

    /// A file gets this number. It takes no memory.
    pub fn draw(&mut self, file: u32)
        requires { file + 1 < 2 ^ 32 }
        ensures { self.new ≡ drawn file self.old }
    {
        self.next_file = self.next_file.max(file + 1);
    }
}
