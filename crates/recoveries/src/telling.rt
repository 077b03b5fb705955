// What is put for what came of a restore.
ghost use Rattle.std.specs.Prelude.{◌≡◌, ◌++◌, OnOk, IfErr};
ghost use Rattle.kinds.specs.Answers.{AnswersBy};
ghost use Rattle.kinds.specs.declared.refusal.Refusal.TheVariants.{Memory};
ghost use Rattle.reports.specs.Lines.{notice_line};
ghost use Rattle.reports.specs.declared.shown.Notice.TheVariants.{Lost as LostNotice};
ghost use Rattle.recoveries.specs.Telling.{chain_line, chain_status, done_lines, fault_line, lost_lines, restore_line, restore_status, told_lines, told_status};

use db_chains::ChainRefused;
use db_losses::Lost;
use db_restore::{NotRestored, RestoreDone, RestoreRefused};
use kinds::Refusal;
use reports::{Notice, print_notice};
use script_loop::number_line;
use std::alloc::Global;
use std::collections::BTreeMap;

/// The exit status where a chain gives no database.
fn chain_status(why: ChainRefused) -> u8
    ensures { result ≡ chain_status why }
{
    match why {
        ChainRefused::ReadFault(_) => 5,
        ChainRefused::NotABackup(_) => 7,
        ChainRefused::RunFull => 9,
        ChainRefused::Memory => 8,
    }
}

/// The exit status where a database wasn't restored.
fn restore_status(why: RestoreRefused) -> u8
    ensures { result ≡ restore_status why }
{
    match why {
        RestoreRefused::ReadFault(_) => 5,
        RestoreRefused::NotABackup => 7,
        RestoreRefused::DayBack(_, _) => 1,
        RestoreRefused::RunFull => 9,
        RestoreRefused::Memory => 8,
    }
}

/// The exit status for what came of a restore: 0 where nothing was lost, 1 where something was or the day lies before the backup's, 5 for a fault of a file, 7 for a file that is no backup,
/// 8 for want of memory and 9 for a full run.
pub fn status_of(told: &Result<RestoreDone, NotRestored>) -> u8
    ensures { result ≡ told_status told.now }
{
    match told {
        Ok(done) => u8::from(!done.lost.as_map().is_empty()),
        Err(NotRestored::Chain(why)) => chain_status(*why),
        Err(NotRestored::Database(why)) => restore_status(*why),
    }
}

/// Puts a line behind others.
fn put_notice(alloc: Global, out: &mut Vec<u8>, notice: &Notice) -> Result<(), Refusal>
    ensures put { OnOk result (out.new.items ≡ out.old.items ++ notice_line notice.now) }
    ensures memory { IfErr result (λ e. e ≡ Memory) }
{
    let line = print_notice(alloc, notice)?;
    out.extend_from_slice(&line)?;
    Ok(())
}

/// What is said of an object that was lost.
fn lost_notice(object: u64, lost: &Lost) -> Result<Notice, Refusal>
    ensures { AnswersBy (λ notice. notice) result (LostNotice lost.now.node lost.now.filespace lost.now.path object) }
{
    Ok(Notice::Lost {
        node: lost.node.clone()?,
        filespace: lost.filespace.clone()?,
        path: lost.path.clone()?,
        object,
    })
}

/// Puts a line for each object that was lost behind others.
fn put_lost(alloc: Global, out: &mut Vec<u8>, lost: &BTreeMap<u64, Lost>) -> Result<(), Refusal>
    ensures put { OnOk result (out.new.items ≡ out.old.items ++ lost_lines lost.now.entries) }
    ensures memory { IfErr result (λ e. e ≡ Memory) }
{
    'lost: for (object, place) in lost.iter() {
        let notice = lost_notice(*object, place)?;
        put_notice(alloc, out, &notice)?;
    }
    Ok(())
}

/// The lines where a database was restored.
fn done_lines(alloc: Global, done: &RestoreDone) -> Result<Vec<u8>, Refusal>
    ensures { AnswersBy (λ lines. lines.items) result (done_lines done.now) }
{
    let mut out = Vec::new(alloc);
    let lost = done.lost.as_map();
    put_lost(alloc, &mut out, lost)?;
    let counts = Notice::Restored {
        versions: done.versions,
        copies: done.copies,
        lost: lost.len() as u64,
    };
    put_notice(alloc, &mut out, &counts)?;
    Ok(out)
}

/// The bytes of a line.
fn line(alloc: Global, bytes: &[u8]) -> Result<Vec<u8>, Refusal>
    ensures { AnswersBy (λ line. line.items) result bytes.now }
{
    let mut out = Vec::new(alloc);
    out.extend_from_slice(bytes)?;
    Ok(out)
}

/// The line where calls on a file failed.
fn fault_line(alloc: Global, file: u32) -> Result<Vec<u8>, Refusal>
    ensures { AnswersBy (λ line. line.items) result (fault_line file) }
{
    let words = number_line(b"STORE FAULT ", u64::from(file));
    line(alloc, words.as_slice())
}

/// The line where a chain gives no database.
fn chain_line(alloc: Global, why: ChainRefused) -> Result<Vec<u8>, Refusal>
    ensures { AnswersBy (λ line. line.items) result (chain_line why) }
{
    match why {
        ChainRefused::ReadFault(at) => fault_line(alloc, at),
        ChainRefused::NotABackup(at) => print_notice(alloc, &Notice::NotABackup { file: at }),
        ChainRefused::RunFull => line(alloc, b"RUN FULL\n"),
        ChainRefused::Memory => line(alloc, b"MEMORY\n"),
    }
}

/// The line where the database that the backup in a file gives wasn't restored.
fn restore_line(alloc: Global, file: u32, why: RestoreRefused) -> Result<Vec<u8>, Refusal>
    ensures { AnswersBy (λ line. line.items) result (restore_line file why) }
{
    match why {
        RestoreRefused::ReadFault(at) => fault_line(alloc, at),
        RestoreRefused::NotABackup => print_notice(alloc, &Notice::NotABackup { file }),
        RestoreRefused::DayBack(taken, given) => print_notice(
            alloc,
            &Notice::Refused {
                refusal: Refusal::DayBack {
                    today: taken,
                    given,
                },
            },
        ),
        RestoreRefused::RunFull => line(alloc, b"RUN FULL\n"),
        RestoreRefused::Memory => line(alloc, b"MEMORY\n"),
    }
}

/// What is put for what came of restoring the backup in a file, with LF behind each line: a line for each object that was lost, by number, and one with the counts; or why nothing was restored.
/// Refused only for want of memory.
pub fn lines_of(
    alloc: Global,
    file: u32,
    told: &Result<RestoreDone, NotRestored>,
) -> Result<Vec<u8>, Refusal>
    ensures { AnswersBy (λ lines. lines.items) result (told_lines file told.now) }
{
    match told {
        Ok(done) => done_lines(alloc, done),
        Err(NotRestored::Chain(why)) => chain_line(alloc, *why),
        Err(NotRestored::Database(why)) => restore_line(alloc, file, *why),
    }
}
