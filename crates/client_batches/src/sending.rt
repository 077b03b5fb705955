//! Files that are written into tickets, as many as one transaction takes.
ghost use Rattle.std.specs.Prelude.{◌≡◌, ◌<◌, ◌≤◌, ◌^◌, nat_le, [], ◌∷◌, ◌++◌, length, IfErr, OnOk};
ghost use Rattle.std.specs.Vec.{vec_capacity};
ghost use Rattle.kinds.specs.declared.refusal.Refusal.TheVariants.{Memory};
ghost use Rattle.steps.specs.Calls.{Call};
ghost use Rattle.client_batches.specs.Sends.{Fills, Sends, SendsOne, pauses, tickets_in};

use crate::tickets::give_back;
use client_files::{Came, write_file};
use client_plan::{ActiveClasses, SendLine};
use client_trees::Tree;
use kinds::Refusal;
use steps::Stepper;

/// How many files' tickets are committed together at most.
const MOST: usize = 32;

/// Writes one file to the destination of its class, into a ticket that isn't sealed yet.
fn send_one<P: Stepper, T: Tree>(
    p: &mut P,
    tree: &mut T,
    classes: &ActiveClasses,
    line: &SendLine,
    buffer: &mut [u8],
) -> Result<Came, Refusal>
    requires some { 1 ≤ length buffer.old }
    requires few { length buffer.old ≤ 2 ^ 16 }
    ensures sends { Call P.did p.old p.new (λ events. SendsOne classes.now (T.files tree.old) line.now (T.fault_count tree.old) (T.fault_count tree.new) events result) }
    ensures kept { T.files tree.new ≡ T.files tree.old }
    ensures rises { T.fault_count tree.old ≤ T.fault_count tree.new }
    ensures long { length buffer.new ≡ length buffer.old }
{
    match classes.destination(&line.class) {
        Some(pool) => write_file(p, tree, &line.file, pool, buffer),
        None => Ok(Came::Failed(Refusal::NoBackupGroup)),
    }
}

/// Whether the tickets that are held so far are committed before anything else is sent: others hold the room, or there is none while there are such tickets.
fn pauses(held: &[u64], came: Came) -> bool
    ensures { result ≡ pauses (length held.now) came }
{
    match came {
        Came::Written(_, _) => false,
        Came::Failed(refusal) => refusal.number() == 20 && held.len() > 0,
        Came::Held(_) => true,
    }
}

/// Whether as many are held as are committed together.
fn is_full(held: &[u64]) -> bool
    ensures { result ≡ nat_le 32 (length held.now) }
{
    held.len() >= MOST
}

/// Takes the memory for what comes of one more file.
pub(crate) fn make_room(came: &mut Vec<Came>, held: &mut Vec<u64>) -> Result<(), Refusal>
    ensures came { came.new.items ≡ came.old.items }
    ensures held { held.new.items ≡ held.old.items }
    ensures room { OnOk result (length came.new.items < vec_capacity came.new) }
    ensures free { OnOk result (length held.new.items < vec_capacity held.new) }
    ensures memory { IfErr result (λ e. e ≡ Memory) }
{
    came.reserve(1)?;
    held.reserve(1)?;
    Ok(())
}

/// Adds the ticket in which a file stands, where it has one.
pub(crate) fn hold(held: &mut Vec<u64>, came: Came)
    requires { length held.old.items < vec_capacity held.old }
    ensures { held.new.items ≡ held.old.items ++ tickets_in (came ∷ []) }
{
    match came {
        Came::Written(ticket, _) => held.push_reserved(ticket),
        Came::Failed(_) => {}
        Came::Held(_) => {}
    }
}

/// Adds what came of one more file, and its ticket where it has one; and answers whether it pauses.
fn keep(came: &mut Vec<Came>, held: &mut Vec<u64>, it: Came) -> bool
    requires room { length came.old.items < vec_capacity came.old }
    requires free { length held.old.items < vec_capacity held.old }
    ensures came { came.new.items ≡ came.old.items ++ it ∷ [] }
    ensures held { held.new.items ≡ held.old.items ++ tickets_in (it ∷ []) }
    ensures stop { result ≡ pauses (length held.old.items) it }
{
    let stop = pauses(held.as_slice(), it);
    came.push_reserved(it);
    hold(held, it);
    stop
}

/// Writes these files, one after the other, until 32 have tickets or one pauses; and adds what came of each, and the tickets of those that have one.
fn send_each<P: Stepper, T: Tree>(
    p: &mut P,
    tree: &mut T,
    classes: &ActiveClasses,
    lines: &[SendLine],
    came: &mut Vec<Came>,
    held: &mut Vec<u64>,
    buffer: &mut [u8],
) -> Result<(), Refusal>
    requires none { came.old.items ≡ [] }
    requires free { held.old.items ≡ [] }
    requires some { 1 ≤ length buffer.old }
    requires few { length buffer.old ≤ 2 ^ 16 }
    ensures sends { Call P.did p.old p.new (λ events. Sends classes.now (T.files tree.old) lines.now (T.fault_count tree.old) (T.fault_count tree.new) came.new.items events result) }
    ensures held { held.new.items ≡ tickets_in came.new.items }
    ensures most { length held.new.items ≤ 32 }
    ensures kept { T.files tree.new ≡ T.files tree.old }
    ensures rises { T.fault_count tree.old ≤ T.fault_count tree.new }
    ensures long { length buffer.new ≡ length buffer.old }
{
    'lines: for line in lines {
        let full = is_full(held.as_slice());
        if full {
            return Ok(());
        }
        match make_room(came, held) {
            Ok(()) => {}
            Err(refusal) => return Err(refusal),
        }
        let it = match send_one(p, tree, classes, line, buffer) {
            Ok(it) => it,
            Err(refusal) => return Err(refusal),
        };
        let stop = keep(came, held, it);
        if stop {
            return Ok(());
        }
    }
    Ok(())
}

/// Writes files as `send_each` does, and gives the tickets back where that ends with a refusal.
pub(crate) fn fill_batch<P: Stepper, T: Tree>(
    p: &mut P,
    tree: &mut T,
    classes: &ActiveClasses,
    lines: &[SendLine],
    came: &mut Vec<Came>,
    held: &mut Vec<u64>,
    buffer: &mut [u8],
) -> Result<(), Refusal>
    requires none { came.old.items ≡ [] }
    requires free { held.old.items ≡ [] }
    requires some { 1 ≤ length buffer.old }
    requires few { length buffer.old ≤ 2 ^ 16 }
    ensures fills { Call P.did p.old p.new (λ events. Fills classes.now (T.files tree.old) lines.now (T.fault_count tree.old) (T.fault_count tree.new) came.new.items events result) }
    ensures held { held.new.items ≡ tickets_in came.new.items }
    ensures most { length held.new.items ≤ 32 }
    ensures kept { T.files tree.new ≡ T.files tree.old }
    ensures rises { T.fault_count tree.old ≤ T.fault_count tree.new }
    ensures long { length buffer.new ≡ length buffer.old }
{
    match send_each(p, tree, classes, lines, came, held, buffer) {
        Ok(()) => Ok(()),
        Err(refusal) => Err(give_back(p, held.as_slice(), refusal)),
    }
}
