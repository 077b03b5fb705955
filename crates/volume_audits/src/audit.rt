//! The process.
ghost use Rattle.std.specs.Prelude.{◌≡◌, ◌≤◌, ◌+◌, ◌^◌, ◌++◌, length, IfOk, IfErr, OnOk};
ghost use Rattle.kinds.specs.declared.refusal.Refusal.TheVariants.{Memory as NoMemory};
ghost use Rattle.inventory_answers.specs.declared.reply.Rows.TheVariants as rows;
ghost use Rattle.steps.specs.Calls.{Call};
ghost use Rattle.volume_audits.specs.Auditing.{Audits, AuditsAll, Ends, Lists, VolumeAudit, damage, damage_by, sound_by};

use crate::looking::{Found, look};
use crate::mending::mend_if;
use copy_runs::{finish, unlisted};
use inventory_answers::{Answer, Query, Rows};
use inventory_work::{CopyLine, Listed};
use kinds::{Digest, Refusal};
use std::alloc::Global;
use steps::Stepper;

/// A copy whose bytes aren't those that were stored.
#[derive(Clone, Copy)]
pub struct Damaged {
    /// The number of its object.
    pub object: u64,
    /// The SHA-256 of the bytes that were stored.
    pub kept: Digest,
    /// That of the bytes that were read.
    pub found: Digest,
}

/// What an audit found.
#[derive(Drop)]
pub struct Audit {
    /// How many copies were read and have the bytes that were stored.
    pub sound: u64,
    /// Those that were read and have others, by the numbers of their objects.
    pub damaged: Listed<Damaged>,
    /// How many of these were dropped, or their objects discarded.
    pub fixed: u64,
}

/// What came of one copy.
#[derive(Clone, Copy)]
pub(crate) struct Verdict {
    /// What was found of it.
    pub(crate) found: Found,
    /// How many copies or objects went for it.
    pub(crate) fixed: u64,
}

/// Reads a copy, and mends it where it is damaged and that is asked.
fn audit_one<P: Stepper>(
    alloc: Global,
    p: &mut P,
    fix: bool,
    file: u32,
    line: &CopyLine,
    buffer: &mut [u8],
) -> Result<Verdict, Refusal>
    requires some { 1 ≤ length buffer.old }
    requires bounded { length buffer.old ≤ 2 ^ 16 }
    ensures audits { Call P.did p.old p.new (λ events. Audits fix file line.now events result) }
    ensures few { IfOk result (λ v. v.fixed ≤ 1) }
    ensures long { length buffer.new ≡ length buffer.old }
{
    match look(p, line, buffer) {
        Ok(Found::Sound) => Ok(Verdict {
            found: Found::Sound,
            fixed: 0,
        }),
        Ok(Found::Unread) => Ok(Verdict {
            found: Found::Unread,
            fixed: 0,
        }),
        Ok(Found::Damaged(digest)) => match mend_if(alloc, p, fix, file, line, digest) {
            Ok(fixed) => Ok(Verdict {
                found: Found::Damaged(digest),
                fixed,
            }),
            Err(refusal) => Err(refusal),
        },
        Err(refusal) => Err(refusal),
    }
}

/// How many sound copies that is.
fn sound_by(found: Found) -> u64
    ensures is { result ≡ sound_by found }
    ensures few { result ≤ 1 }
{
    match found {
        Found::Sound => 1,
        Found::Unread => 0,
        Found::Damaged(_) => 0,
    }
}

/// Notes the copy, where it is damaged. Its one refusal is want of memory.
fn note(damaged: &mut Vec<Damaged>, line: &CopyLine, found: Found) -> Result<(), Refusal>
    ensures ok { OnOk result (damaged.new.items ≡ damaged.old.items ++ damage_by line.now found) }
    ensures err { IfErr result (λ e. e ≡ NoMemory) }
{
    match found {
        Found::Sound => Ok(()),
        Found::Unread => Ok(()),
        Found::Damaged(digest) => {
            damaged.push(Damaged {
                object: line.object,
                kept: line.digest,
                found: digest,
            })?;
            Ok(())
        }
    }
}

/// Audits these copies, one after the other.
fn audit_all<P: Stepper>(
    alloc: Global,
    p: &mut P,
    fix: bool,
    file: u32,
    lines: &[CopyLine],
    buffer: &mut [u8],
) -> Result<Audit, Refusal>
    requires some { 1 ≤ length buffer.old }
    requires bounded { length buffer.old ≤ 2 ^ 16 }
    ensures audits { Call P.did p.old p.new (λ events. AuditsAll fix file lines.now events result) }
    ensures long { length buffer.new ≡ length buffer.old }
{
    let mut sound = 0;
    let mut fixed = 0;
    let mut damaged = Vec::new(alloc);
    'lines: for place in 0..lines.len() {
        let line = &lines[place];
        let verdict = match audit_one(alloc, p, fix, file, line, buffer) {
            Ok(verdict) => verdict,
            Err(refusal) => return Err(refusal),
        };
        match note(&mut damaged, line, verdict.found) {
            Ok(()) => (),
            Err(refusal) => return Err(refusal),
        }
        sound += sound_by(verdict.found);
        fixed += verdict.fixed;
    }
    Ok(Audit {
        sound,
        damaged: Listed::from_vec(damaged),
        fixed,
    })
}

/// The copies that an answer has. An answer to another query has none, and stands for want of memory.
fn copies_of(answer: Answer) -> Result<Listed<CopyLine>, Refusal>
    ensures ok { IfOk result (λ lines. answer.rows ≡ rows.OnVolume lines) }
    ensures err { IfErr result (λ e. e ≡ NoMemory) }
{
    match answer.rows {
        Rows::OnVolume(lines) => Ok(lines),
        other => {
            drop(other);
            Err(Refusal::Memory)
        }
    }
}

/// Asks for the copies on the volume.
fn list<P: Stepper>(p: &mut P, file: u32) -> Result<Listed<CopyLine>, Refusal>
    ensures { Call P.did p.old p.new (λ events. Lists file events result) }
{
    let query = Query::OnVolume { file };
    let answer = p.ask(&query);
    drop(query);
    match answer {
        Ok(answer) => copies_of(answer),
        Err(refusal) => Err(unlisted(refusal)),
    }
}

/// Audits these copies, and makes what went durable.
fn audit_and_finish<P: Stepper>(
    alloc: Global,
    p: &mut P,
    fix: bool,
    file: u32,
    lines: &[CopyLine],
    buffer: &mut [u8],
) -> Result<Audit, Refusal>
    requires some { 1 ≤ length buffer.old }
    requires bounded { length buffer.old ≤ 2 ^ 16 }
    ensures audits { Call P.did p.old p.new (λ events. Ends fix file lines.now events result) }
    ensures long { length buffer.new ≡ length buffer.old }
{
    let audit = match audit_all(alloc, p, fix, file, lines, buffer) {
        Ok(audit) => audit,
        Err(refusal) => return Err(refusal),
    };
    match finish(p) {
        Ok(()) => Ok(audit),
        Err(refusal) => {
            drop(audit);
            Err(refusal)
        }
    }
}

/// Reads each copy on the volume with this file number from its pool, in ascending order of the objects' numbers, by pieces of the buffer's length, and answers which are sound and which are damaged: a copy
/// is damaged whose bytes have another SHA-256 than the one that is kept. A copy that isn't there any more, or of which a piece can't be read, is neither. With `fix` a damaged copy is dropped, in a primary pool
/// too, and where it is the object's last one the object is discarded; without it nothing is committed. `NotFound` where the volume isn't there. It ends with `InventoryFull`, `LogFault`, `RunFull` or `Memory`
/// where a step of its own answers so; what went until then stays so.
pub fn audit_volume<P: Stepper>(
    alloc: Global,
    p: &mut P,
    file: u32,
    fix: bool,
    buffer: &mut [u8],
) -> Result<Audit, Refusal>
    requires some { 1 ≤ length buffer.old }
    requires bounded { length buffer.old ≤ 2 ^ 16 }
    ensures audits { Call P.did p.old p.new (λ events. VolumeAudit fix file events result) }
    ensures long { length buffer.new ≡ length buffer.old }
{
    match list(p, file) {
        Ok(lines) => audit_and_finish(alloc, p, fix, file, lines.as_slice(), buffer),
        Err(refusal) => Err(refusal),
    }
}
