ghost use Rattle.std.specs.Prelude.{◌≡◌, unwrap_or};
ghost use Rattle.std.specs.Option.{option_copied};
ghost use Rattle.kinds.specs.Answers.{AnswersBy};
ghost use Rattle.command_words.specs.Fields.{number_of, capacity_of};
ghost use Rattle.admin_words.specs.Chosen.{mode_at, mode_of, backup_type_at, backup_type_of, collocate_of, still_at, still_of, yes_at, is_yes, access_at, access_of, pool_kind_at, pool_kind_of, usual_reclaim, next_of};

use crate::table::{
    ACCESSES, BACKUP_TYPES, COLLOCATIONS, MODES, NO_YES, POOL_TYPES, SERIALIZATIONS,
};
use command_words::field;
use kinds::{Access, Capacity, Day, Name, PoolKind, Refusal, Still};
use std::alloc::Global;

/// Which files a copy group has sent: those that changed, or all.
#[derive(Clone, Copy, Debug)]
pub enum Mode {
    Modified,
    Absolute,
}

fn mode_at(at: usize) -> Mode
    ensures { result ≡ mode_at at }
{
    if at == 1 {
        Mode::Absolute
    } else {
        Mode::Modified
    }
}

/// The value of the keyword, where it is given.
pub fn read_mode(text: Option<&[u8]>) -> Option<Mode>
    ensures { result ≡ mode_of (option_copied text.entry) }
{
    match field::word(text, MODES) {
        Some(at) => Some(mode_at(at)),
        None => None,
    }
}

/// What a database backup holds: the whole database, or what came since the newest one that is done.
#[derive(Clone, Copy, Debug)]
pub enum BackupType {
    Full,
    Incremental,
}

fn backup_type_at(at: usize) -> BackupType
    ensures { result ≡ backup_type_at at }
{
    if at == 1 {
        BackupType::Incremental
    } else {
        BackupType::Full
    }
}

/// The value of the keyword, where it is given.
pub fn read_backup_type(text: Option<&[u8]>) -> Option<BackupType>
    ensures { result ≡ backup_type_of (option_copied text.entry) }
{
    match field::word(text, BACKUP_TYPES) {
        Some(at) => Some(backup_type_at(at)),
        None => None,
    }
}

fn still_at(at: usize) -> Still
    ensures { result ≡ still_at at }
{
    if at == 1 {
        Still::Static
    } else {
        Still::ShrStatic
    }
}

/// The value of the keyword, where it is given.
pub fn read_still(text: Option<&[u8]>) -> Option<Still>
    ensures { result ≡ still_of (option_copied text.entry) }
{
    match field::word(text, SERIALIZATIONS) {
        Some(at) => Some(still_at(at)),
        None => None,
    }
}

fn access_at(at: usize) -> Access
    ensures { result ≡ access_at at }
{
    if at == 1 {
        Access::ReadOnly
    } else if at == 2 {
        Access::Unavailable
    } else if at == 3 {
        Access::Offsite
    } else if at == 4 {
        Access::Destroyed
    } else {
        Access::ReadWrite
    }
}

/// The value of the keyword, where it is given.
pub fn read_access(text: Option<&[u8]>) -> Option<Access>
    ensures { result ≡ access_of (option_copied text.entry) }
{
    match field::word(text, ACCESSES) {
        Some(at) => Some(access_at(at)),
        None => None,
    }
}

fn pool_kind_at(at: usize) -> PoolKind
    ensures { result ≡ pool_kind_at at }
{
    if at == 1 {
        PoolKind::Copy
    } else {
        PoolKind::Primary
    }
}

/// The value of the keyword, where it is given.
pub fn read_pool_kind(text: Option<&[u8]>) -> Option<PoolKind>
    ensures { result ≡ pool_kind_of (option_copied text.entry) }
{
    match field::word(text, POOL_TYPES) {
        Some(at) => Some(pool_kind_at(at)),
        None => None,
    }
}

/// Whether YES was given.
pub fn is_yes(text: Option<&[u8]>) -> bool
    ensures { result ≡ is_yes (option_copied text.entry) }
{
    match field::word(text, NO_YES) {
        Some(at) => at == 1,
        None => false,
    }
}

/// Whether NODE was given, where the keyword is.
pub fn read_collocate(text: Option<&[u8]>) -> Option<bool>
    ensures { result ≡ collocate_of (option_copied text.entry) }
{
    match field::word(text, COLLOCATIONS) {
        Some(at) => Some(at == 1),
        None => None,
    }
}

/// RECLAIM where it is not given: 60 for a primary pool, 100 for a copy pool.
pub fn usual_reclaim(kind: PoolKind) -> u8
    ensures { result ≡ usual_reclaim kind }
{
    match kind {
        PoolKind::Primary => 60,
        PoolKind::Copy => 100,
    }
}

/// The next pool of a hierarchy, where NEXTSTGPOOL is given: a pool, or none for an empty text.
pub fn next_pool(alloc: Global, text: Option<&[u8]>) -> Result<Option<Option<Name>>, Refusal>
    ensures { AnswersBy (λ n. n) result (next_of (option_copied text.entry)) }
{
    match text {
        Some(text) => {
            let next = field::name_if(alloc, Some(text))?;
            Ok(Some(next))
        }
        None => Ok(None),
    }
}

/// FILL: the first byte of a file that is counted, 0 to 250.
pub fn first_byte(text: Option<&[u8]>) -> Option<u8>
    ensures { result ≡ number_of 250 (option_copied text.entry) }
{
    match field::number(text, 250) {
        Some(n) => Some(n as u8),
        None => None,
    }
}

/// A day, or the first where none was given.
pub fn day_or_first(text: Option<&[u8]>) -> Day
    ensures { result ≡ unwrap_or (number_of 2147483647 (option_copied text.entry)) 0 }
{
    match field::day(text) {
        Some(day) => day,
        None => Day::default(),
    }
}

/// MAXCAPACITY, or 2 GiB where it is not given.
pub fn capacity_or_usual(text: Option<&[u8]>) -> Capacity
    ensures { result ≡ unwrap_or (capacity_of (option_copied text.entry)) 2147483648 }
{
    match field::capacity(text) {
        Some(capacity) => capacity,
        None => Capacity::new(2147483648).unwrap(),
    }
}
