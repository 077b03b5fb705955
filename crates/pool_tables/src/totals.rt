ghost use Rattle.std.specs.Prelude.{◌≡◌, ◌+◌, ◌-◌, ◌≤◌, ◌<◌, ◌^◌};

use volume_rows::Volume;

/// What volumes come to in all.
#[derive(Clone, Copy, Debug, PartialEq, Eq)]
pub struct Totals {
    /// The blocks of 4,096 bytes that frames use.
    pub used_blocks: u128,
    /// All blocks of 4,096 bytes.
    pub blocks: u128,
    /// The bytes of the frames.
    pub live_bytes: u128,
    /// How many are defined volumes.
    pub defined: u128,
    /// How many are scratch volumes.
    pub scratch: u128,
}

impl Totals {
    ghost use Rattle.pool_tables.specs.Counted.{no_totals, totals_of_volume, moved, AreWithin, AreAtMost};

    /// Of no volume.
    pub fn none() -> Self
        ensures { result ≡ no_totals }
    {
        Totals {
            used_blocks: 0,
            blocks: 0,
            live_bytes: 0,
            defined: 0,
            scratch: 0,
        }
    }

    /// Of one volume.
    pub fn of(volume: &Volume) -> Self
        ensures value { result ≡ totals_of_volume volume.now }
        ensures few { AreWithin result (2 ^ 56) }
    {
        let is_scratch = volume.scratch;
        Totals {
            used_blocks: volume.segments.used_blocks() as u128,
            blocks: (volume.capacity.bytes() / 4096) as u128,
            live_bytes: volume.segments.live_bytes() as u128,
            defined: if is_scratch { 0 } else { 1 },
            scratch: if is_scratch { 1 } else { 0 },
        }
    }

    /// Takes away those of one volume, which they have, and adds those of another.
    pub fn change(&mut self, less: &Totals, more: &Totals)
        requires most { AreAtMost less.now self.old }
        requires small { AreWithin self.old (2 ^ 119) }
        requires few { AreWithin more.now (2 ^ 56) }
        ensures { self.new ≡ moved less.now more.now self.old }
    {
        *self = Totals {
            used_blocks: self.used_blocks - less.used_blocks + more.used_blocks,
            blocks: self.blocks - less.blocks + more.blocks,
            live_bytes: self.live_bytes - less.live_bytes + more.live_bytes,
            defined: self.defined - less.defined + more.defined,
            scratch: self.scratch - less.scratch + more.scratch,
        };
    }
}
