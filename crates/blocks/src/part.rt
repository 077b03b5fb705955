// What a line is to a block.
ghost use Rattle.std.specs.Prelude.{◌≡◌, ◌<◌, ◌^◌, ◌-◌, ◌==◌, false, length, Ok, IfOk};
ghost use Rattle.kinds.specs.Refusals.{number_of};
ghost use Rattle.blocks.specs.Parts.{part, part_of, tree_of, begins, is_parallel};

use admin_words::command::FileCommand;
use admin_words::table::BlockForm;
use admin_words::{Command, read_line};
use kinds::Refusal;
use std::alloc::{AllocError, Global};

/// What a line is to a block.
#[derive(Clone, Copy, Debug, PartialEq, Eq)]
pub enum Part {
    /// AND, which ends a job and begins the next.
    And,
    /// END, which ends the block.
    End,
    /// Any other line, with the number of the client's tree that its command names. A comment names none, and so does a line that is refused as it is read.
    Other(Option<u64>),
}

/// The number of the tree that a command of files names.
fn tree_of(command: &FileCommand) -> Option<u64>
    ensures { result ≡ tree_of command.now }
{
    match command {
        FileCommand::ArchiveFiles(it) => Some(it.tree),
        FileCommand::Erase(it) => Some(it.tree),
        FileCommand::Get(_) => None,
        FileCommand::Incremental(it) => Some(it.tree),
        FileCommand::Put(_) => None,
        FileCommand::RestoreFiles(it) => Some(it.tree),
        FileCommand::RetrieveFiles(it) => Some(it.tree),
        FileCommand::Write(it) => Some(it.tree),
    }
}

/// What a command is to a block.
fn part_of(command: &Command) -> Part
    ensures { result ≡ part_of (Ok command.now) }
{
    match command {
        Command::Policy(_) => Part::Other(None),
        Command::Class(_) => Part::Other(None),
        Command::Node(_) => Part::Other(None),
        Command::Pool(_) => Part::Other(None),
        Command::Volume(_) => Part::Other(None),
        Command::File(it) => Part::Other(tree_of(it)),
        Command::Database(_) => Part::Other(None),
        Command::Block(BlockForm::And) => Part::And,
        Command::Block(BlockForm::End) => Part::End,
        Command::Block(BlockForm::Parallel) => Part::Other(None),
    }
}

/// What a line is that is refused so as it is read, unless memory was wanted.
fn refused<A: Copy>(refusal: &Refusal, none: A) -> Result<A, AllocError>
    ensures { IfOk result (λ it. (it ≡ none) × ((number_of refusal.now == 50) ≡ false)) }
{
    if refusal.number() == 50 {
        return Err(AllocError);
    }
    Ok(none)
}

/// What a line of fewer than 2^32 - 1 bytes is to a block in which it stands.
pub(crate) fn part_of_line(alloc: Global, line: &[u8]) -> Result<Part, AllocError>
    requires { length line.now < 2 ^ 32 - 1 }
    ensures { IfOk result (λ it. it ≡ part line.now) }
{
    match read_line(alloc, line, true) {
        Ok(command) => {
            let it = part_of(&command);
            drop(command);
            Ok(it)
        }
        Err(refusal) => refused(&refusal, Part::Other(None)),
    }
}

/// Whether a command is PARALLEL.
fn is_parallel(command: &Command) -> bool
    ensures { result ≡ is_parallel (Ok command.now) }
{
    match command {
        Command::Policy(_) => false,
        Command::Class(_) => false,
        Command::Node(_) => false,
        Command::Pool(_) => false,
        Command::Volume(_) => false,
        Command::File(_) => false,
        Command::Database(_) => false,
        Command::Block(BlockForm::And) => false,
        Command::Block(BlockForm::End) => false,
        Command::Block(BlockForm::Parallel) => true,
    }
}

/// Whether a line of fewer than 2^32 - 1 bytes that stands in no block begins one: whether it is read as PARALLEL. A line that begins so and is refused begins none.
pub fn begins_block(alloc: Global, line: &[u8]) -> Result<bool, AllocError>
    requires { length line.now < 2 ^ 32 - 1 }
    ensures { IfOk result (λ it. it ≡ begins line.now) }
{
    match read_line(alloc, line, false) {
        Ok(command) => {
            let it = is_parallel(&command);
            drop(command);
            Ok(it)
        }
        Err(refusal) => refused(&refusal, false),
    }
}
