// A store that keeps nothing it is given.
ghost use Rattle.std.specs.Prelude.{◌≡◌, ◌+◌, ◌<◌, ◌^◌};

use store_api::{Failed, Store};

/// A store that keeps no byte that is written and tells nothing: each of its files always reads as the same bytes. Only a write that
/// ends too high fails.
#[derive(Drop)]
pub struct BlankStore {
    moment: u64,
    faults: u64,
    bytes: Vec<u8>,
}

impl BlankStore {
    /// The store at a moment, where each file reads as these bytes.
    pub fn new(moment: u64, bytes: Vec<u8>) -> Self {
        BlankStore {
            moment,
            faults: 0,
            bytes,
        }
    }

    fn pass(&mut self)
        requires { self.old.moment < 2 ^ 62 }
        ensures moment { self.new.moment ≡ self.old.moment + 1 }
        ensures faults { self.new.faults ≡ self.old.faults }
        ensures bytes { self.new.bytes ≡ self.old.bytes }
    {
        self.moment += 1;
    }
}

impl Store for BlankStore {
    ghost use Rattle.std.specs.Prelude.{None};

    ghost told = { λ _. None };

    ghost moment_of = { λ s. s.moment };

    ghost faults_of = { λ s _. s.faults };

    ghost clock = { λ _. record {} };

    fn moment(&self) -> u64 {
        self.moment
    }

    fn faults(&self, _file: u32) -> u64 {
        self.faults
    }

    fn len(&mut self, _file: u32) -> Result<u64, Failed> {
        self.pass();
        Ok(self.bytes.len() as u64)
    }

    fn read_at(&mut self, _file: u32, offset: u64, into: &mut [u8]) -> Result<usize, Failed> {
        self.pass();
        let from = (offset.min(self.bytes.len() as u64)) as usize;
        let rest = &self.bytes[from..];
        let count = rest.len().min(into.len());
        into[..count].copy_from_slice(&rest[..count]);
        Ok(count)
    }

    fn write_at(&mut self, _file: u32, offset: u64, bytes: &[u8]) -> Result<(), Failed> {
        self.pass();
        if bytes.len() as u64 > u64::MAX - offset {
            self.faults = self.faults.saturating_add(1);
            return Err(Failed);
        }
        Ok(())
    }

    fn cut(&mut self, _file: u32, _len: u64) -> Result<(), Failed> {
        self.pass();
        Ok(())
    }

    fn sync(&mut self, _file: u32) -> Result<(), Failed> {
        self.pass();
        Ok(())
    }
}
