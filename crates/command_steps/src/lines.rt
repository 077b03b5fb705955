// What a line of the script is.
ghost use Rattle.std.specs.Prelude.{◌≡◌, ◌<◌, ◌-◌, ◌^◌, length, IfOk, IfErr};
ghost use Rattle.kinds.specs.declared.refusal.Refusal.TheVariants.{Memory};
ghost use Rattle.command_steps.specs.Lines.{does_file, is_done, line_in};
ghost use Rattle.command_steps.specs.Reading.{line_view};

use admin_words::command::FileCommand;
use admin_words::{Command, read_line};
use command_words::is_comment;
use kinds::Refusal;
use std::alloc::Global;

/// What a line is.
#[derive(Drop)]
pub(crate) enum Line {
    /// No command.
    Comment,
    /// A line that is refused as it stands.
    Refused(Refusal),
    /// A command that the server does.
    Asks(Command),
}

fn does_file(command: &FileCommand) -> bool
    ensures { result ≡ does_file command.now }
{
    match command {
        FileCommand::ArchiveFiles(_) | FileCommand::RetrieveFiles(_) => false,
        _ => true,
    }
}

/// Whether the server does a command so far.
fn is_done(command: &Command) -> bool
    ensures { result ≡ is_done command.now }
{
    match command {
        Command::Policy(_)
        | Command::Class(_)
        | Command::Node(_)
        | Command::Pool(_)
        | Command::Volume(_)
        | Command::Database(_) => true,
        Command::File(it) => does_file(it),
        Command::Block(_) => false,
    }
}

/// What a line is that stands in a block, or in none. Its one refusal is want of memory.
pub(crate) fn line_in(alloc: Global, line: &[u8], in_block: bool) -> Result<Line, Refusal>
    requires { length line.now < 2 ^ 32 - 1 }
    ensures said { IfOk result (λ it. line_view it ≡ line_in in_block line.now) }
    ensures memory { IfErr result (λ e. e ≡ Memory) }
{
    if is_comment(line) {
        return Ok(Line::Comment);
    }
    match read_line(alloc, line, in_block) {
        Ok(command) => {
            if is_done(&command) {
                Ok(Line::Asks(command))
            } else {
                drop(command);
                Ok(Line::Refused(Refusal::UnknownWord(1)))
            }
        }
        Err(Refusal::Memory) => Err(Refusal::Memory),
        Err(refusal) => Ok(Line::Refused(refusal)),
    }
}
