//! The words behind a command, as clap reads them.

ghost use Rattle.std.specs.Prelude.{◌≡◌, ◌⊎◌, IfOk};
ghost use Rattle.clap.specs.Words.{app_of, kind_of, with_rule};
ghost use Rattle.clap.specs.declared.error.kind.ErrorKind.TheVariants as kind;
ghost use Rattle.ss_cmd.specs.declared.Usage.TheVariants as usage;
ghost use Rattle.ss_cmd.specs.Words.{texts};
ghost use Rattle.ss_cmd.specs.Reads.{Reads, Texts, app_for, argument_app, checkpoint_app, option_rule, run_app, spread_app};

use crate::Usage;
use clap::error::ErrorKind;
use clap::{Arg, ArgAction, ArgMatches, Command, Error};
use ss_units::Text;
use std::alloc::{AllocError, Global};

/// The one argument, as clap calls it.
pub const ARGUMENT: &str = "ARGUMENT";

/// The words, as clap takes them.
pub fn texts_of<'a>(alloc: Global, words: &'a [Text]) -> Result<Vec<&'a str>, AllocError>
    ensures { IfOk result (λ r. (texts r.items ≡ words.now) × Texts words.now) }
{
    let mut read = Vec::new(alloc);
    for word in words {
        read.push(word.as_str())?;
    }
    Ok(read)
}

/// A command of one argument.
fn argument_command<'a>(alloc: Global) -> Result<Command<'a>, AllocError>
    ensures { IfOk result (λ r. app_of r ≡ argument_app) }
{
    let argument = Arg::new(alloc, ARGUMENT)
        .required(true)
        .action(ArgAction::Set);
    Command::new(alloc, "sst")
        .no_binary_name(true)
        .disable_help_flag(true)
        .arg(argument)
}

/// The command with an option that takes one value.
fn with_option<'a>(
    alloc: Global,
    command: Command<'a>,
    id: &'a str,
    long: &'a str,
) -> Result<Command<'a>, AllocError>
    ensures { IfOk result (λ r. app_of r ≡ with_rule (app_of command.entry) (option_rule id.entry.now long.entry.now)) }
{
    let option = Arg::new(alloc, id).long(long).action(ArgAction::Set);
    command.arg(option)
}

/// The command with the options of a spread.
fn with_spread<'a>(alloc: Global, command: Command<'a>) -> Result<Command<'a>, AllocError>
    ensures { IfOk result (λ r. app_of r ≡ spread_app (app_of command.entry)) }
{
    let first = with_option(alloc, command, "--threads", "threads")?;
    let second = with_option(alloc, first, "--parts", "parts")?;
    let third = with_option(alloc, second, "--partitioner", "partitioner")?;
    with_option(alloc, third, "--exchange", "exchange")
}

/// The command with the options of checkpoints.
fn with_checkpoints<'a>(alloc: Global, command: Command<'a>) -> Result<Command<'a>, AllocError>
    ensures { IfOk result (λ r. app_of r ≡ checkpoint_app (app_of command.entry)) }
{
    let first = with_option(alloc, command, "--checkpoint-at", "checkpoint-at")?;
    let second = with_option(alloc, first, "--checkpoint-period", "checkpoint-period")?;
    with_option(alloc, second, "--checkpoint-prefix", "checkpoint-prefix")
}

/// The command with the options of a run.
fn with_run_options<'a>(alloc: Global, command: Command<'a>) -> Result<Command<'a>, AllocError>
    ensures { IfOk result (λ r. app_of r ≡ run_app (app_of command.entry)) }
{
    let first = with_option(alloc, command, "--stop-at", "stop-at")?;
    let second = with_spread(alloc, first)?;
    let third = with_option(alloc, second, "--stats", "stats")?;
    let fourth = with_option(alloc, third, "--sync-report", "sync-report")?;
    with_checkpoints(alloc, fourth)
}

fn command_for<'a>(alloc: Global, command: crate::Command) -> Result<Command<'a>, AllocError>
    ensures { IfOk result (λ r. app_of r ≡ app_for command) }
{
    let bare = argument_command(alloc)?;
    match command {
        crate::Command::Run | crate::Command::Restart => with_run_options(alloc, bare),
        crate::Command::Check => Ok(bare),
        crate::Command::Partition => {
            let first = with_option(alloc, bare, "--parts", "parts")?;
            with_option(alloc, first, "--partitioner", "partitioner")
        }
    }
}

/// The values that the words behind a command give.
pub fn matches_of<'a>(
    alloc: Global,
    command: crate::Command,
    words: &'a [&'a str],
) -> Result<ArgMatches<'a>, Error>
    ensures { Reads command (texts words.entry.now) result }
{
    let parser = command_for(alloc, command)?;
    parser.try_get_matches_from(words)
}

/// Why clap takes no words.
pub fn refusal(error: &Error) -> Usage
    ensures memory { kind_of error.now ≡ kind.OutOfMemory → result ≡ usage.NoMemory }
    ensures either { (result ≡ usage.NoMemory) ⊎ (result ≡ usage.Words) }
{
    match error.kind() {
        ErrorKind::OutOfMemory => Usage::NoMemory,
        _ => Usage::Words,
    }
}
