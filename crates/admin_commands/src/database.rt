// Commands of the database, its history and the day.
ghost use Rattle.kinds.specs.Answers.{Answers, AnswersBy};
ghost use Rattle.admin_commands.specs.Orders.{database_needs, database_work, run_in};

use crate::found::device_found;
use crate::looks::dev_class_if;
use crate::work::{Work, run};
use admin_words::command::DatabaseCommand;
use entries::Change;
use inventory_answers::{Answer, Query};
use kinds::{Name, Refusal};
use std::alloc::Global;

pub(crate) fn database_needs(
    alloc: Global,
    command: &DatabaseCommand,
) -> Result<Vec<Query>, Refusal>
    ensures { AnswersBy (λ v. v.items) result (database_needs command.now) }
{
    match command {
        DatabaseCommand::BackupDatabase(it) => dev_class_if(alloc, &it.dev_class),
        DatabaseCommand::Checkpoint => Ok(Vec::new(alloc)),
        DatabaseCommand::Day(_) => Ok(Vec::new(alloc)),
        DatabaseCommand::DeleteHistory(_) => Ok(Vec::new(alloc)),
        DatabaseCommand::ExpireInventory => Ok(Vec::new(alloc)),
        DatabaseCommand::QueryHistory => Ok(Vec::new(alloc)),
    }
}

/// Work over nothing; a device class that is named has to be there.
fn run_in(alloc: Global, class: &Option<Name>, answers: &[Answer]) -> Result<Work, Refusal>
    ensures { Answers result (run_in class.now answers.now) }
{
    match class {
        None => Ok(run(alloc)),
        Some(_) => match device_found(answers) {
            None => Err(Refusal::NotFound),
            Some(_) => Ok(run(alloc)),
        },
    }
}

pub(crate) fn database_work(
    alloc: Global,
    command: &DatabaseCommand,
    answers: &[Answer],
) -> Result<Work, Refusal>
    ensures { Answers result (database_work command.now answers.now) }
{
    match command {
        DatabaseCommand::BackupDatabase(it) => run_in(alloc, &it.dev_class, answers),
        DatabaseCommand::Checkpoint => Ok(run(alloc)),
        DatabaseCommand::Day(it) => Ok(Work::Commit(Change::Day { day: it.day })),
        DatabaseCommand::DeleteHistory(_) => Ok(run(alloc)),
        DatabaseCommand::ExpireInventory => Ok(run(alloc)),
        DatabaseCommand::QueryHistory => Ok(Work::Show(Query::History)),
    }
}
