//! How full a pool is beside its marks.
ghost use Rattle.std.specs.Prelude.{◌≡◌};
ghost use Rattle.std.specs.Option.{option_copied};
ghost use Rattle.steps.specs.Calls.{Call};
ghost use Rattle.migration.specs.Marks.{Looks, has_reached, is_within, line_of, onward, target, target_of};

use copy_runs::ask_pools;
use inventory_answers::PoolLine;
use kinds::Refusal;
use steps::Stepper;

/// The pool with this number, where it is among these.
fn line_of(lines: &[PoolLine], pool: u32) -> Option<&PoolLine>
    ensures { option_copied result ≡ line_of pool lines.now }
{
    lines.iter().find(|line| line.number == pool)
}

/// Whether at most this percentage of the pool is used.
fn is_within(line: &PoolLine, low: u8) -> bool
    ensures { result ≡ is_within low line.now }
{
    match line.least {
        Some(percent) => percent <= low,
        None => false,
    }
}

/// Whether at least this percentage of the pool is used.
pub(crate) fn has_reached(line: &PoolLine, high: u8) -> bool
    ensures { result ≡ has_reached high line.now }
{
    match line.least {
        Some(_) => high as u64 <= line.percent,
        None => true,
    }
}

/// Where copies go, by whether at most the mark is used, and by the next pool.
fn onward(within: bool, next: Option<u32>) -> Result<Option<u32>, Refusal>
    ensures { result ≡ onward within next }
{
    match next {
        None => Err(Refusal::BadHierarchy),
        Some(next) => { if within { Ok(None) } else { Ok(Some(next)) } }
    }
}

/// Where copies of the pool are to go, by these lines: none where at most `low` of it is used. `NotFound` where the pool isn't there, `BadHierarchy` where it has no next one.
fn target(lines: &[PoolLine], pool: u32, low: u8) -> Result<Option<u32>, Refusal>
    ensures { result ≡ target pool low lines.now }
{
    match line_of(lines, pool) {
        None => Err(Refusal::NotFound),
        Some(line) => onward(is_within(line, low), line.settings.next),
    }
}

/// Asks where copies of the pool are to go.
pub(crate) fn look<P: Stepper>(p: &mut P, pool: u32, low: u8) -> Result<Option<u32>, Refusal>
    ensures { Call P.did p.old p.new (λ events. Looks pool low events result) }
{
    let lines = match ask_pools(p) {
        Ok(lines) => lines,
        Err(refusal) => return Err(refusal),
    };
    let to = target(lines.as_slice(), pool, low);
    drop(lines);
    to
}
