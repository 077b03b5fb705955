ghost use Rattle.std.specs.Prelude.{map};
ghost use Rattle.kinds.specs.Answers.{AnswersBy};
ghost use Rattle.command_words.specs.Rows.{given_view};
ghost use Rattle.admin_words.specs.Database.{database_backup, history_deletion, day_change};

use crate::words::{BackupType, day_or_first, read_backup_type};
use command_words::{Given, field, text_at};
use kinds::{Day, Name, Refusal};
use std::alloc::Global;

/// BACKUP DB. TYPE is INCREMENTAL where it is not given.
#[derive(Debug, Drop)]
pub struct DatabaseBackup {
    pub dev_class: Option<Name>,
    pub backup_type: BackupType,
}

/// What the values that were given for the row say.
pub fn read_database_backup(
    alloc: Global,
    places: &[Given],
    keys: &[Given],
) -> Result<DatabaseBackup, Refusal>
    ensures { AnswersBy (λ x. x) result (database_backup (map given_view places.now) (map given_view keys.now)) }
{
    let dev_class = field::name_if(alloc, text_at(keys, 0))?;
    Ok(DatabaseBackup {
        dev_class,
        backup_type: read_backup_type(text_at(keys, 1)).unwrap_or(BackupType::Incremental),
    })
}

/// DELETE VOLHISTORY with TYPE=DBBACKUP: what was taken on or before this day.
#[derive(Debug, Drop)]
pub struct HistoryDeletion {
    pub to_date: Day,
}

/// What the values that were given for the row say.
pub fn read_history_deletion(
    alloc: Global,
    places: &[Given],
    keys: &[Given],
) -> Result<HistoryDeletion, Refusal>
    ensures { AnswersBy (λ x. x) result (history_deletion (map given_view places.now) (map given_view keys.now)) }
{
    Ok(HistoryDeletion {
        to_date: day_or_first(text_at(keys, 0)),
    })
}

/// DAY.
#[derive(Debug, Drop)]
pub struct DayChange {
    pub day: Day,
}

/// What the values that were given for the row say.
pub fn read_day_change(
    alloc: Global,
    places: &[Given],
    keys: &[Given],
) -> Result<DayChange, Refusal>
    ensures { AnswersBy (λ x. x) result (day_change (map given_view places.now) (map given_view keys.now)) }
{
    Ok(DayChange {
        day: day_or_first(text_at(places, 0)),
    })
}
