//! The words of a call: a command, its options and its argument.
#![tactic(auto)]

ghost use Rattle.std.specs.Prelude.{◌≡◌, IfOk};
ghost use Rattle.ss_cmd.specs.Grammar.{AreInRange, Gives, IsEarly, plan_by, plan_of_words, command_named, options_of, run_options_in, spread_in};
ghost use Rattle.ss_cmd.specs.Reads.{plan_of_values, value_in};
ghost use Rattle.ss_cmd.specs.Words.{said_from, free};

#[cfg(test)]
mod tests;
mod values;
mod words;

use clap::ArgMatches;
use ss_part::How;
use ss_units::Text;
use std::alloc::{AllocError, Global};
use values::{
    MOST_NAME, argument_given, count_given, exchange_given, name_given, partitioner_given,
    prefix_given, time_given,
};
use words::{matches_of, refusal, texts_of};

/// A command.
#[derive(Clone, Copy, Debug, PartialEq, Eq)]
pub enum Command {
    Run,
    Restart,
    Check,
    Partition,
}

/// How a run is spread over parts and threads, as read.
#[derive(Clone, Copy, Debug, PartialEq, Eq)]
pub struct Spread {
    /// The number of threads.
    pub threads: u32,
    /// The number of parts. Where none is given it is the lesser of the threads and the components, and at least 1.
    pub parts: Option<u32>,
    /// How the components are divided into parts.
    pub how: How,
    /// Whether the parts exchange events through queues.
    pub queue: bool,
}

/// The options of a run, as read.
#[derive(Drop)]
pub struct RunOptions {
    /// The time at which the run stops at the latest, in ps, in place of the graph's own. 0 stands for none.
    pub stop_at: Option<u64>,
    pub spread: Spread,
    /// The name under which the statistics are put.
    pub stats: Option<Text>,
    /// The name under which the report on windows is put.
    pub sync_report: Option<Text>,
    /// A time, in ps, for which a checkpoint is put.
    pub checkpoint_at: Option<u64>,
    /// The period, in ps, for each multiple of which a checkpoint is put.
    pub checkpoint_period: Option<u64>,
    /// What the names of the checkpoints begin with.
    pub checkpoint_prefix: Text,
}

/// What the words of a call ask for.
#[derive(Drop)]
pub enum Plan {
    /// To run a graph.
    Run {
        graph: Text,
        options: RunOptions,
    },
    /// To go on with a run from a checkpoint.
    Restart {
        checkpoint: Text,
        options: RunOptions,
    },
    /// To judge a graph.
    Check {
        graph: Text,
    },
    /// To divide a graph into parts.
    Partition {
        graph: Text,
        parts: Option<u32>,
        how: How,
    },
}

/// Why words are refused.
#[derive(Drop)]
pub enum Usage {
    /// The first word is no command.
    UnknownCommand,
    /// The words behind the command aren't its options and its argument.
    Words,
    /// The value of an option or an argument isn't of its form. The text names the option, with its dashes, or the argument.
    Value(Text),
    /// Memory was wanting.
    NoMemory,
}

impl From<AllocError> for Usage {
    ghost use Rattle.std.specs.Prelude.{◌≡◌, IfOk};
    ghost use Rattle.ss_cmd.specs.declared.Usage.TheVariants as usage;

    ghost from_gives = { λ e u. u ≡ usage.NoMemory };

    fn from(_error: AllocError) -> Usage {
        Usage::NoMemory
    }
}

fn command_of(word: &str) -> Option<Command>
    ensures { result ≡ command_named word.now }
{
    match word {
        "run" => Some(Command::Run),
        "restart" => Some(Command::Restart),
        "check" => Some(Command::Check),
        "partition" => Some(Command::Partition),
        _ => None,
    }
}

/// The spread that options give: one thread, the linear partitioner and no queues, where they give nothing else.
fn spread_given(alloc: Global, matches: &ArgMatches) -> Result<Spread, Usage>
    ensures { Gives (spread_in (value_in matches.now)) result }
{
    let threads = count_given(alloc, matches, "--threads")?;
    let parts = count_given(alloc, matches, "--parts")?;
    let how = partitioner_given(alloc, matches, "--partitioner")?;
    let queue = exchange_given(alloc, matches, "--exchange")?;
    Ok(Spread {
        threads: threads.unwrap_or(1),
        parts,
        how: how.unwrap_or(How::Linear),
        queue: queue.unwrap_or(false),
    })
}

/// The options of a run. A refusal is that of the first one, in their order, whose value is refused.
fn run_options_given(alloc: Global, matches: &ArgMatches) -> Result<RunOptions, Usage>
    ensures given { Gives (run_options_in (value_in matches.now)) result }
    ensures early { IfOk result AreInRange }
{
    let stop_at = time_given(alloc, matches, "--stop-at", 0)?;
    let spread = spread_given(alloc, matches)?;
    let stats = name_given(alloc, matches, "--stats", MOST_NAME)?;
    let sync_report = name_given(alloc, matches, "--sync-report", MOST_NAME)?;
    let checkpoint_at = time_given(alloc, matches, "--checkpoint-at", 1)?;
    let checkpoint_period = time_given(alloc, matches, "--checkpoint-period", 1)?;
    let checkpoint_prefix = prefix_given(alloc, matches)?;
    Ok(RunOptions {
        stop_at,
        spread,
        stats,
        sync_report,
        checkpoint_at,
        checkpoint_period,
        checkpoint_prefix,
    })
}

fn run_plan(alloc: Global, matches: &ArgMatches) -> Result<Plan, Usage>
    ensures given { Gives (plan_of_values Command.Run (value_in matches.now)) result }
    ensures early { IfOk result IsEarly }
{
    let options = run_options_given(alloc, matches)?;
    let graph = argument_given(alloc, matches, "GRAPH")?;
    Ok(Plan::Run { graph, options })
}

fn restart_plan(alloc: Global, matches: &ArgMatches) -> Result<Plan, Usage>
    ensures given { Gives (plan_of_values Command.Restart (value_in matches.now)) result }
    ensures early { IfOk result IsEarly }
{
    let options = run_options_given(alloc, matches)?;
    let checkpoint = argument_given(alloc, matches, "CHECKPOINT")?;
    Ok(Plan::Restart {
        checkpoint,
        options,
    })
}

fn check_plan(alloc: Global, matches: &ArgMatches) -> Result<Plan, Usage>
    ensures given { Gives (plan_of_values Command.Check (value_in matches.now)) result }
    ensures early { IfOk result IsEarly }
{
    let graph = argument_given(alloc, matches, "GRAPH")?;
    Ok(Plan::Check { graph })
}

fn partition_plan(alloc: Global, matches: &ArgMatches) -> Result<Plan, Usage>
    ensures given { Gives (plan_of_values Command.Partition (value_in matches.now)) result }
    ensures early { IfOk result IsEarly }
{
    let parts = count_given(alloc, matches, "--parts")?;
    let how = partitioner_given(alloc, matches, "--partitioner")?;
    let graph = argument_given(alloc, matches, "GRAPH")?;
    Ok(Plan::Partition {
        graph,
        parts,
        how: how.unwrap_or(How::Linear),
    })
}

/// What a command and the words behind it ask for.
fn plan_of_command(alloc: Global, command: Command, words: &[Text]) -> Result<Plan, Usage>
    ensures given { Gives (plan_of_words command (said_from (options_of command) free words.now)) result }
    ensures early { IfOk result IsEarly }
{
    let texts = texts_of(alloc, words)?;
    let matches = match matches_of(alloc, command, texts.as_slice()) {
        Ok(matches) => matches,
        Err(error) => return Err(refusal(&error)),
    };
    match command {
        Command::Run => run_plan(alloc, &matches),
        Command::Restart => restart_plan(alloc, &matches),
        Command::Check => check_plan(alloc, &matches),
        Command::Partition => partition_plan(alloc, &matches),
    }
}

/// What the words of a call, those behind the program's name, ask for.
///
/// The first word is the command: `run GRAPH` with `--stop-at=TIME`, `--threads=N`, `--parts=N`,
/// `--partitioner=KIND`, `--exchange=KIND`, `--stats=NAME`, `--sync-report=NAME`, `--checkpoint-at=TIME`,
/// `--checkpoint-period=TIME` and `--checkpoint-prefix=NAME`, `restart CHECKPOINT` with the same options,
/// `check GRAPH`, or `partition GRAPH` with `--parts=N` and `--partitioner=KIND`. An option is written `--name=value`
/// or as two words, in any order and each at most once; `--` ends the options. Before it a word of two or more bytes
/// that begins with `-` is one of the options, or the words are refused. Values are judged after the words, in the
/// order above, and the argument last. The grammar is this project's own.
pub fn plan_of(alloc: Global, words: &[Text]) -> Result<Plan, Usage>
    ensures given { Gives (plan_by words.now) result }
    ensures early { IfOk result IsEarly }
{
    let Some((first, rest)) = words.split_first() else {
        return Err(Usage::UnknownCommand);
    };
    match command_of(first.as_str()) {
        None => Err(Usage::UnknownCommand),
        Some(command) => plan_of_command(alloc, command, rest),
    }
}
