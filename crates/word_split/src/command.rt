//! The program's commands, as `clap` knows them.
ghost use Rattle.std.specs.Prelude.{◌≡◌, IfOk};
ghost use Rattle.clap.specs.Words.{app_of};
ghost use Rattle.word_split.specs.ProgramCommand.{program_app};

use clap::{Arg, ArgAction, Command};
use std::alloc::{AllocError, Global};

/// The program with its three commands, each of which takes a list of plain words. A function for
/// each command can't be had: only clauses of `Command::new` tell that a command has no arguments
/// for all levels, which the call that adds it asks.
pub(crate) fn program_command<'a>(alloc: Global) -> Result<Command<'a>, AllocError>
    ensures { IfOk result (λ c. app_of c ≡ program_app) }
{
    let lanes = Arg::new(alloc, "arguments").action(ArgAction::Append);
    let run = Command::new(alloc, "run").arg(lanes)?;
    let file = Arg::new(alloc, "arguments").action(ArgAction::Append);
    let page = Command::new(alloc, "page").arg(file)?;
    let numbers = Arg::new(alloc, "arguments").action(ArgAction::Append);
    let generated = Command::new(alloc, "gen").arg(numbers)?;
    let bare = Command::new(alloc, "ahi")
        .no_binary_name(true)
        .disable_help_flag(true)
        .disable_help_subcommand(true);
    let one = bare.subcommand(run)?;
    let two = one.subcommand(page)?;
    two.subcommand(generated)
}
