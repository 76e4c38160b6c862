//! The values of options and arguments.

ghost use Rattle.std.specs.Prelude.{◌≡◌, ◌⊎◌, ◌≤◌, ◌^◌, length, IfOk, IfSome};
ghost use Rattle.ss_cmd.specs.Grammar.{Gives, argument_in, option_in, or_refused, prefix_in};
ghost use Rattle.ss_cmd.specs.Reads.{argument_id, value_in};
ghost use Rattle.ss_cmd.specs.Values.{count, exchange, time_from, name_within, partitioner, all_digits};

use crate::Usage;
use crate::words::ARGUMENT;
use clap::ArgMatches;
use ss_part::How;
use ss_units::{Text, ps_of};
use std::alloc::Global;

/// The most digits of a number.
const MOST_DIGITS: usize = 9;

/// The most bytes of a name.
pub const MOST_NAME: usize = 255;

/// The most bytes of what the names of checkpoints begin with.
const MOST_PREFIX: usize = 200;

fn refused(alloc: Global, whose: &str) -> Usage
    ensures { (result ≡ Usage.NoMemory) ⊎ (result ≡ Usage.Value whose.now) }
{
    match Text::new(alloc, whose) {
        Ok(text) => Usage::Value(text),
        Err(_) => Usage::NoMemory,
    }
}

/// The number that digits write, where there are digits alone.
fn digits_of(text: &[u8]) -> Option<u32>
    requires { length text.now ≤ 9 }
    ensures { result ≡ all_digits text.now }
{
    let mut value = 0u32;
    for byte in text {
        if *byte < 48 || *byte > 57 {
            return None;
        }
        value = value * 10 + (*byte - 48) as u32;
    }
    Some(value)
}

fn count_of(text: &[u8]) -> Option<u32>
    ensures { result ≡ count text.now }
{
    if text.len() > MOST_DIGITS {
        return None;
    }
    match text {
        [] => None,
        [48, _, ..] => None,
        _ => digits_of(text),
    }
}

fn partitioner_of(text: &str) -> Option<How>
    ensures { result ≡ partitioner text.now }
{
    match text {
        "linear" => Some(How::Linear),
        "roundrobin" => Some(How::RoundRobin),
        "latency" => Some(How::Latency),
        "self" => Some(How::SelfNamed),
        "single" => Some(How::Single),
        _ => None,
    }
}

/// Whether a way of exchanging events is by queues.
fn exchange_of(text: &str) -> Option<bool>
    ensures { result ≡ exchange text.now }
{
    match text {
        "joined" => Some(false),
        "queue" => Some(true),
        _ => None,
    }
}

/// A name of at most so many bytes, as the value of an option or an argument.
fn named(alloc: Global, whose: &str, text: &str, most: usize) -> Result<Text, Usage>
    ensures given { Gives (or_refused whose.now (name_within most text.now)) result }
    ensures bounds { IfOk result (λ s. (1 ≤ length s) × (length s ≤ most)) }
{
    let len = text.as_bytes().len();
    if len == 0 || len > most {
        return Err(refused(alloc, whose));
    }
    Ok(Text::new(alloc, text)?)
}

/// The time that an option is given, in ps, from the least on.
#[tactic(auto, using(crate::proofs::Times::early))]
pub fn time_given(
    alloc: Global,
    matches: &ArgMatches,
    whose: &str,
    least: u64,
) -> Result<Option<u64>, Usage>
    ensures given { Gives (option_in (time_from least) whose.now (value_in matches.now)) result }
    ensures bounds { IfOk result (λ o. IfSome o (λ t. (least ≤ t) × (t ≤ 2 ^ 62))) }
{
    match matches.get_str(whose) {
        None => Ok(None),
        Some(text) => match ps_of(text.as_bytes()) {
            Ok(time) if time >= least => Ok(Some(time)),
            _ => Err(refused(alloc, whose)),
        },
    }
}

/// The number that an option is given.
pub fn count_given(alloc: Global, matches: &ArgMatches, whose: &str) -> Result<Option<u32>, Usage>
    ensures { Gives (option_in count whose.now (value_in matches.now)) result }
{
    match matches.get_str(whose) {
        None => Ok(None),
        Some(text) => match count_of(text.as_bytes()) {
            Some(count) => Ok(Some(count)),
            None => Err(refused(alloc, whose)),
        },
    }
}

/// The name of at most so many bytes that an option is given.
pub fn name_given(
    alloc: Global,
    matches: &ArgMatches,
    whose: &str,
    most: usize,
) -> Result<Option<Text>, Usage>
    ensures given { Gives (option_in (name_within most) whose.now (value_in matches.now)) result }
    ensures bounds { IfOk result (λ o. IfSome o (λ s. (1 ≤ length s) × (length s ≤ most))) }
{
    match matches.get_str(whose) {
        None => Ok(None),
        Some(text) => match named(alloc, whose, text, most) {
            Ok(name) => Ok(Some(name)),
            Err(usage) => Err(usage),
        },
    }
}

/// What the names of checkpoints begin with.
pub fn prefix_given(alloc: Global, matches: &ArgMatches) -> Result<Text, Usage>
    ensures given { Gives (prefix_in (value_in matches.now)) result }
    ensures bounds { IfOk result (λ s. (1 ≤ length s) × (length s ≤ 200)) }
{
    match name_given(alloc, matches, "--checkpoint-prefix", MOST_PREFIX)? {
        Some(prefix) => Ok(prefix),
        None => Ok(Text::new(alloc, "checkpoint")?),
    }
}

/// The partitioner that an option is given.
pub fn partitioner_given(
    alloc: Global,
    matches: &ArgMatches,
    whose: &str,
) -> Result<Option<How>, Usage>
    ensures { Gives (option_in partitioner whose.now (value_in matches.now)) result }
{
    match matches.get_str(whose) {
        None => Ok(None),
        Some(text) => match partitioner_of(text) {
            Some(how) => Ok(Some(how)),
            None => Err(refused(alloc, whose)),
        },
    }
}

/// Whether the way of exchanging events that an option is given is by queues.
pub fn exchange_given(
    alloc: Global,
    matches: &ArgMatches,
    whose: &str,
) -> Result<Option<bool>, Usage>
    ensures { Gives (option_in exchange whose.now (value_in matches.now)) result }
{
    match matches.get_str(whose) {
        None => Ok(None),
        Some(text) => match exchange_of(text) {
            Some(queue) => Ok(Some(queue)),
            None => Err(refused(alloc, whose)),
        },
    }
}

/// The one argument, a name. A refusal calls it by `whose`.
pub fn argument_given(alloc: Global, matches: &ArgMatches, whose: &str) -> Result<Text, Usage>
    ensures { Gives (argument_in whose.now (value_in matches.now argument_id)) result }
{
    match matches.get_str(ARGUMENT) {
        None => Err(Usage::Words),
        Some(name) => named(alloc, whose, name, MOST_NAME),
    }
}
