//! How full a pool is.

ghost use Rattle.std.specs.Prelude.{◌≡◌, ◌*◌, ◌<◌, ◌≤◌, ◌^◌};
ghost use Rattle.pool_tables.specs.Rows.{row_at};
ghost use Rattle.pool_rows.specs.Shares.{scratch_limit, used_of, whole_of, reaches, stays_within, rounded, percent_at_least, percent_at_most, percent_of};

use crate::pools::Pools;
use pool_tables::kinds::Capacity;

fn reaches(percent: u8, used: u128, whole: u128) -> bool
    requires used { used ≤ 2 ^ 119 }
    requires whole { whole ≤ 2 ^ 119 }
    ensures { result ≡ reaches percent used whole }
{
    if used == 0 && whole == 0 {
        percent == 0
    } else {
        percent as u128 * whole <= used * 100
    }
}

fn stays_within(percent: u8, used: u128, whole: u128) -> bool
    requires used { used ≤ 2 ^ 119 }
    requires whole { whole ≤ 2 ^ 119 }
    ensures { result ≡ stays_within percent used whole }
{
    used * 100 <= percent as u128 * whole
}

fn rounded(used: u128, whole: u128) -> u128
    requires { used ≤ 2 ^ 119 }
    ensures { result ≡ rounded used whole }
{
    if whole == 0 { 0 } else { used * 100 / whole }
}

/// The bytes of so many volumes of this capacity.
fn whole_bytes(capacity: Capacity, count: u128) -> u128
    requires { count ≤ 2 ^ 64 }
    ensures value { result ≡ capacity * count }
    ensures few { result ≤ 2 ^ 119 }
{
    capacity.bytes() as u128 * count
}

impl Pools {
    fn scratch_limit(&self, pool: u32) -> u16
        ensures { result ≡ scratch_limit (row_at pool self.now.pools) }
    {
        match self.pools.get(pool) {
            Some(pool) => pool.settings.rule().max_scratch,
            None => 0,
        }
    }

    fn used_of(&self, pool: u32, capacity: Option<Capacity>) -> u128
        ensures value { result ≡ used_of pool self.now capacity }
        ensures few { result ≤ 2 ^ 119 }
    {
        let totals = self.volumes.totals(pool);
        match capacity {
            Some(_) => totals.live_bytes,
            None => totals.used_blocks,
        }
    }

    fn whole_of(&self, pool: u32, capacity: Option<Capacity>) -> u128
        ensures value { result ≡ whole_of pool self.now capacity }
        ensures few { result ≤ 2 ^ 119 }
    {
        let totals = self.volumes.totals(pool);
        match capacity {
            Some(capacity) => {
                let limit = self.scratch_limit(pool) as u128;
                whole_bytes(capacity, totals.defined + limit.max(totals.scratch))
            }
            None => totals.blocks,
        }
    }

    /// Whether the percentage of the pool that is used is at least `high`: of its blocks, or of the bytes of the volumes that it
    /// has or may have. A pool that is not there has 0 percent.
    pub fn percent_at_least(&self, pool: u32, high: u8) -> bool
        ensures { result ≡ percent_at_least pool high self.now }
    {
        let used = self.used_of(pool, self.pool_capacity(pool));
        let whole = self.whole_of(pool, self.pool_capacity(pool));
        reaches(high, used, whole)
    }

    /// Whether the percentage of the pool that is used is at most `low`.
    pub fn percent_at_most(&self, pool: u32, low: u8) -> bool
        ensures { result ≡ percent_at_most pool low self.now }
    {
        let used = self.used_of(pool, self.pool_capacity(pool));
        let whole = self.whole_of(pool, self.pool_capacity(pool));
        stays_within(low, used, whole)
    }

    /// The percentage of the pool that is used, rounded down: of its blocks, or of the bytes of the volumes that it has or may
    /// have. It is 0 where there is nothing to use, and for a pool that is not there.
    pub fn percent_of(&self, pool: u32) -> u128
        ensures { result ≡ percent_of pool self.now }
    {
        let used = self.used_of(pool, self.pool_capacity(pool));
        let whole = self.whole_of(pool, self.pool_capacity(pool));
        rounded(used, whole)
    }
}
