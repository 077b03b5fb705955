// Commands of clients' files.
ghost use Rattle.kinds.specs.Answers.{Answers, AnswersBy};
ghost use Rattle.admin_commands.specs.Orders.{file_needs, file_work};

use crate::looks::{filespaces, node, one};
use crate::nodes::run_filespace;
use crate::pools::run_found;
use crate::work::{Work, run};
use admin_words::command::FileCommand;
use inventory_answers::{Answer, Query};
use kinds::Refusal;
use std::alloc::Global;

pub(crate) fn file_needs(alloc: Global, command: &FileCommand) -> Result<Vec<Query>, Refusal>
    ensures { AnswersBy (λ v. v.items) result (file_needs command.now) }
{
    match command {
        FileCommand::ArchiveFiles(it) => one(alloc, node(&it.node)?),
        FileCommand::Erase(_) => Ok(Vec::new(alloc)),
        FileCommand::Get(_) => Ok(Vec::new(alloc)),
        FileCommand::Incremental(it) => one(alloc, node(&it.node)?),
        FileCommand::Put(it) => one(alloc, node(&it.node)?),
        FileCommand::RestoreFiles(it) => one(alloc, filespaces(&it.node)?),
        FileCommand::RetrieveFiles(it) => one(alloc, filespaces(&it.node)?),
        FileCommand::Write(_) => Ok(Vec::new(alloc)),
    }
}

pub(crate) fn file_work(
    alloc: Global,
    command: &FileCommand,
    answers: &[Answer],
) -> Result<Work, Refusal>
    ensures { Answers result (file_work command.now answers.now) }
{
    match command {
        FileCommand::ArchiveFiles(_) => run_found(alloc, answers),
        FileCommand::Erase(_) => Ok(run(alloc)),
        FileCommand::Get(_) => Ok(run(alloc)),
        FileCommand::Incremental(_) => run_found(alloc, answers),
        FileCommand::Put(_) => run_found(alloc, answers),
        FileCommand::RestoreFiles(it) => run_filespace(alloc, &it.filespace, answers),
        FileCommand::RetrieveFiles(it) => run_filespace(alloc, &it.filespace, answers),
        FileCommand::Write(_) => Ok(run(alloc)),
    }
}
