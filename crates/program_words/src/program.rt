// The program's command, as the kit's parser of command lines takes it.
ghost use Rattle.std.specs.Prelude.{◌≡◌, IfOk};
ghost use Rattle.clap.specs.Words.{app_of};
ghost use Rattle.program_words.specs.Program.{program};

use clap::{Arg, ArgAction, Command};
use std::alloc::{AllocError, Global};

// The program: `format`, `run`, `fresh`, or `restoredb FILE DAY` with any number of files. Nothing else is a command, not even a word that asks for help.
pub(crate) fn program<'a>(alloc: Global) -> Result<Command<'a>, AllocError>
    ensures { IfOk result (λ command. app_of command ≡ program) }
{
    let file = Arg::new(alloc, "FILE").required(true);
    let day = Arg::new(alloc, "DAY").required(true);
    let files = Arg::new(alloc, "FILES").action(ArgAction::Append);
    let restoring = Command::new(alloc, "restoredb")
        .arg(file)?
        .arg(day)?
        .arg(files)?;
    let format = Command::new(alloc, "format");
    let run = Command::new(alloc, "run");
    let fresh = Command::new(alloc, "fresh");
    let program = Command::new(alloc, "tsm")
        .no_binary_name(true)
        .disable_help_flag(true)
        .disable_help_subcommand(true)
        .subcommand_required(true);
    program
        .subcommand(format)?
        .subcommand(run)?
        .subcommand(fresh)?
        .subcommand(restoring)
}
