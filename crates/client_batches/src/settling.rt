//! What came of the files of a batch that needn't be sent again.
ghost use Rattle.std.specs.Prelude.{◌≡◌, ◌++◌, false, length, OnOk, IfOk, IfErr};
ghost use Rattle.kinds.specs.declared.refusal.Refusal.TheVariants.{Memory};
ghost use Rattle.client_batches.specs.Verdicts.{holder_of, has_ticket, left_behind, verdict, verdicts, waiting, waits};

use client_files::Came;
use kinds::{Holder, Refusal};

fn has_ticket(it: Came) -> bool
    ensures { result ≡ has_ticket it }
{
    match it {
        Came::Written(_, _) => true,
        Came::Failed(_) => false,
        Came::Held(_) => false,
    }
}

/// Whether a file is to be sent again, where some of its batch have tickets before it, or none.
fn waits(some: bool, it: Came) -> bool
    ensures { result ≡ waits some it }
{
    match it {
        Came::Written(_, _) => false,
        Came::Failed(refusal) => (refusal.number() == 20) & some,
        Came::Held(_) => true,
    }
}

/// Who holds the room that a file waits for.
fn holder_of(it: Came) -> Option<Holder>
    ensures { result ≡ holder_of it }
{
    match it {
        Came::Written(_, _) => None,
        Came::Failed(_) => None,
        Came::Held(holder) => Some(holder),
    }
}

/// Why a file isn't committed, where this is what came of it behind its seal, and of the transactions of those that are sealed from it on.
fn verdict(it: Came, outs: &[Option<Refusal>]) -> Option<Refusal>
    ensures { result ≡ verdict it outs.now }
{
    match it {
        Came::Written(_, _) => match outs.split_first() {
            Some((out, _)) => *out,
            None => None,
        },
        Came::Failed(refusal) => Some(refusal),
        Came::Held(_) => None,
    }
}

/// What came of the transactions of those behind it.
fn left_behind(it: Came, outs: &[Option<Refusal>]) -> &[Option<Refusal>]
    ensures { result.now ≡ left_behind it outs.now }
{
    match it {
        Came::Written(_, _) => match outs.split_first() {
            Some((_, others)) => others,
            None => outs,
        },
        Came::Failed(_) => outs,
        Came::Held(_) => outs,
    }
}

/// Adds of each file of a batch why it isn't committed, or none where it is, up to the one that is to be sent again; and answers who holds the room that this one waits for.
pub(crate) fn settle(
    settled: &mut Vec<Option<Refusal>>,
    came: &[Came],
    sealed: &[Came],
    outs: &[Option<Refusal>],
) -> Result<Option<Holder>, Refusal>
    requires each { length sealed.now ≡ length came.now }
    ensures ok { OnOk result (settled.new.items ≡ settled.old.items ++ verdicts false came.now sealed.now outs.now) }
    ensures holder { IfOk result (λ holder. holder ≡ waiting false came.now) }
    ensures memory { IfErr result (λ e. e ≡ Memory) }
{
    let mut some = false;
    let mut came_left = came;
    let mut sealed_left = sealed;
    let mut outs_left = outs;
    'came: while let Some((it, more)) = came_left.split_first() {
        let stop = waits(some, *it);
        if stop {
            return Ok(holder_of(*it));
        }
        match sealed_left.split_first() {
            None => return Ok(None),
            Some((behind, others)) => {
                settled.push(verdict(*behind, outs_left))?;
                outs_left = left_behind(*behind, outs_left);
                sealed_left = others;
            }
        }
        some = some | has_ticket(*it);
        came_left = more;
    }
    Ok(None)
}
