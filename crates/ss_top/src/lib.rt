//! The top call of the simulator.
#![tactic(auto)]

ghost use Rattle.std.specs.Prelude.{◌≡◌, ◌≤◌, [], None};
ghost use Rattle.ss_top.specs.Printing.{Told};
ghost use Rattle.ss_cmd.specs.Grammar.{IsEarly};
ghost use Rattle.ss_top.specs.Answer.{AnswersEntry, AnswersPlanned, AsksPlanned, entry_name, line, most_of, size_limit, usage_line, usage_status};
ghost use Rattle.ss_top.specs.Headline.{EndsBy, Ends, Counted, seen, AllComplete, OneAnswer};
ghost use Rattle.ss_top.specs.Left.{LeavesEntry};
ghost use Rattle.ss_top.specs.Spreading.{past_threads, too_many_threads};
ghost use Rattle.std.specs.FinMap.{get};

mod doing;
mod join;
mod lead;
mod parts;
mod plain;
mod print;
mod printed;
mod putting;
mod reading;
mod refusal;
mod report;
mod run;
#[cfg(test)]
mod saving_tests;
mod sheets;
mod simulate;
#[cfg(test)]
mod tests;
mod texts;

pub use print::{Message, tell, tell_plain};
use reading::{ReadStop, read_entry};
use refusal::tell_limit;
pub use refusal::{Fault, Refusal};
use run::finish;
use ss_cmd::{Plan, Usage, plan_of};
use ss_edge::{Shelf, Sink};
use ss_graph::LimitKind;
use ss_library::Any;
use ss_units::Text;
use ss_worker::Worker;
use std::alloc::Global;
use std::thread::Threads;

/// How a call ended. The program's exit statuses are 0 to 8, in this order.
#[derive(Clone, Copy, Debug, PartialEq, Eq)]
pub enum Status {
    Whole,
    Usage,
    Text,
    Graph,
    Limit,
    Checkpoint,
    ReadFault,
    WriteFault,
    NoMemory,
}

/// The greatest number of threads.
const MOST_THREADS: u32 = 32;

/// The name of the graph or the checkpoint that a plan reads.
fn name_of(plan: &Plan) -> &str
    ensures { result.now ≡ entry_name plan.now }
{
    match plan {
        Plan::Run { graph, .. } => graph.as_str(),
        Plan::Restart { checkpoint, .. } => checkpoint.as_str(),
        Plan::Check { graph } => graph.as_str(),
        Plan::Partition { graph, .. } => graph.as_str(),
    }
}

/// The greatest number of bytes that a plan reads, and what they are.
fn most_of(plan: &Plan) -> (usize, LimitKind)
    ensures { result ≡ (most_of plan.now, size_limit plan.now) }
{
    match plan {
        Plan::Restart { .. } => (1 << 30, LimitKind::CheckpointBytes),
        Plan::Run { .. } => (67_108_864, LimitKind::GraphBytes),
        Plan::Check { .. } => (67_108_864, LimitKind::GraphBytes),
        Plan::Partition { .. } => (67_108_864, LimitKind::GraphBytes),
    }
}

/// Writes the line of a refusal of words, or of want of memory. It takes no memory.
fn tell_usage<R: Sink>(err: &mut R, usage: &Usage) -> Status
    ensures status { result ≡ usage_status usage.now }
    ensures told { Told (line (usage_line usage.now)) (R.taken err.old) (R.taken err.new) (R.faults err.old) (R.faults err.new) }
    ensures faults { R.faults err.old ≤ R.faults err.new }
{
    match usage {
        Usage::UnknownCommand => {
            tell(err, Message::Usage, b"unknown command".as_slice());
            Status::Usage
        }
        Usage::Words => {
            tell(err, Message::Usage, b"words".as_slice());
            Status::Usage
        }
        Usage::Value(whose) => {
            tell(err, Message::Usage, whose.as_str().as_bytes());
            Status::Usage
        }
        Usage::NoMemory => {
            tell_plain(err, Message::NoMemory);
            Status::NoMemory
        }
    }
}

/// What a call leaves beside its output: the workers of a graph that was run in two or more parts, one for each part in
/// order, as the run's last window left them.
#[derive(Drop)]
pub struct Ran {
    pub workers: Vec<Worker<Any>>,
}

impl Ran {
    /// Nothing that was run. It takes no memory.
    pub fn new(alloc: Global) -> Ran
        ensures { result.workers.items ≡ [] }
    {
        Ran {
            workers: Vec::new(alloc),
        }
    }
}

/// Reads what a plan names and does with it what the plan asks.
fn read_and_run<T: Threads + Sync, V: Shelf, K: Sink, R: Sink>(
    rt: &T,
    alloc: Global,
    plan: &Plan,
    shelf: &mut V,
    out: &mut K,
    err: &mut R,
    ran: &mut Ran,
) -> Status
    requires early { IsEarly plan.now }
    requires threads { too_many_threads plan.now ≡ None }
    ensures ends { EndsBy (λ held a. AnswersEntry plan.now (get held (entry_name plan.now)) a) (λ n. n ≡ entry_name plan.now) (λ held. LeavesEntry plan.now (get held (entry_name plan.now)) ran.new.workers.items)
        (seen (V.held shelf.old) (V.read_faults shelf.old) (V.put_faults shelf.old) (K.taken out.old) (K.faults out.old) (R.taken err.old) (R.faults err.old))
        (seen (V.held shelf.new) (V.read_faults shelf.new) (V.put_faults shelf.new) (K.taken out.new) (K.faults out.new) (R.taken err.new) (R.faults err.new))
        result }
    ensures counted { Counted
        (seen (V.held shelf.old) (V.read_faults shelf.old) (V.put_faults shelf.old) (K.taken out.old) (K.faults out.old) (R.taken err.old) (R.faults err.old))
        (seen (V.held shelf.new) (V.read_faults shelf.new) (V.put_faults shelf.new) (K.taken out.new) (K.faults out.new) (R.taken err.new) (R.faults err.new)) }
{
    let name = name_of(plan);
    let (most, kind) = most_of(plan);
    match read_entry(alloc, shelf, name, most) {
        Ok(bytes) => finish(rt, alloc, plan, bytes, shelf, out, err, ran),
        Err(ReadStop::Failed) => {
            tell(err, Message::ReadFault, name.as_bytes());
            Status::ReadFault
        }
        Err(ReadStop::TooLarge) => {
            tell_limit(err, kind, most as u64 + 1);
            Status::Limit
        }
        Err(ReadStop::NoMemory) => {
            tell_plain(err, Message::NoMemory);
            Status::NoMemory
        }
    }
}

/// A number of threads, where it passes its limit.
fn past_threads(threads: u32) -> Option<u32>
    ensures { result ≡ past_threads threads }
{
    if threads == 0 || threads > MOST_THREADS {
        Some(threads)
    } else {
        None
    }
}

/// The number of threads that a plan asks for, where it passes its limit.
fn threads_over(plan: &Plan) -> Option<u32>
    ensures { result ≡ too_many_threads plan.now }
{
    match plan {
        Plan::Run { options, .. } => past_threads(options.spread.threads),
        Plan::Restart { options, .. } => past_threads(options.spread.threads),
        Plan::Check { .. } => None,
        Plan::Partition { .. } => None,
    }
}

/// Does what a plan asks, if it doesn't ask for too many threads.
fn carry_out<T: Threads + Sync, V: Shelf, K: Sink, R: Sink>(
    rt: &T,
    alloc: Global,
    plan: &Plan,
    shelf: &mut V,
    out: &mut K,
    err: &mut R,
    ran: &mut Ran,
) -> Status
    requires { IsEarly plan.now }
    ensures ends { EndsBy (λ held a. AnswersPlanned plan.now held (too_many_threads plan.now) a) (AsksPlanned plan.now (too_many_threads plan.now)) (λ held. LeavesEntry plan.now (get held (entry_name plan.now)) ran.new.workers.items)
        (seen (V.held shelf.old) (V.read_faults shelf.old) (V.put_faults shelf.old) (K.taken out.old) (K.faults out.old) (R.taken err.old) (R.faults err.old))
        (seen (V.held shelf.new) (V.read_faults shelf.new) (V.put_faults shelf.new) (K.taken out.new) (K.faults out.new) (R.taken err.new) (R.faults err.new))
        result }
    ensures counted { Counted
        (seen (V.held shelf.old) (V.read_faults shelf.old) (V.put_faults shelf.old) (K.taken out.old) (K.faults out.old) (R.taken err.old) (R.faults err.old))
        (seen (V.held shelf.new) (V.read_faults shelf.new) (V.put_faults shelf.new) (K.taken out.new) (K.faults out.new) (R.taken err.new) (R.faults err.new)) }
{
    match threads_over(plan) {
        Some(threads) => {
            tell_limit(err, LimitKind::Threads, threads as u64);
            Status::Limit
        }
        None => read_and_run(rt, alloc, plan, shelf, out, err, ran),
    }
}

/// Does what the words ask for, and tells how it ended.
///
/// The words are those behind the program's name, as `ss_cmd::plan_of` reads them: `run GRAPH`, `restart CHECKPOINT`,
/// `check GRAPH` or `partition GRAPH` with their options. The graph or the checkpoint is read from the shelf. `run` writes
/// what the run prints to `out`, a line at a time, and `--stop-at` stands in place of the graph's stop time; `check` says
/// how many components and links an accepted graph has. A refusal writes one line to `err`.
///
/// A graph may be run in parts, which run alone from window to window and then exchange what they sent: `--parts`,
/// `--partitioner` and `--threads` say in which and on how many threads. What is printed and stored is the same for
/// each. `--exchange=queue` is taken as `joined`. After status `Whole` of a run in two or more parts `ran` has its
/// workers; after every other call what it holds is open. `--sync-report` puts how many windows there were and how
/// many events went from each part to each other.
///
/// A run puts a checkpoint at the time of `--checkpoint-at` and at each multiple of `--checkpoint-period`, where that lies
/// behind the run's beginning and before its end and an event is still pending: the bytes of the state at that time, under
/// the name `PREFIX_TIME.sstcpt`. All lines before that time are written before it is put. `restart` goes on from such
/// bytes, in whatever parts: with the same stop time it prints the rest of the run, leaves the same statistics, and puts the
/// later checkpoints where it asks for the same. Bytes that spell no sound state are status `Checkpoint`. A checkpoint of
/// more than 2^30 bytes and the 1,025th one end a run with status `Limit` before they are put.
///
/// After status `Whole` of a run from the start packets were once and in order in each of its states: of each source,
/// destination and virtual network, what was delivered and then what stands along the path, from the end, is what was
/// injected. The statistics that are stored tell so: an endpoint's accumulator `out_of_order` has a 0 for each packet that
/// the endpoint delivered in the run, and its accumulator `received` has the flits of each.
///
/// It waits for nobody and returns in any case. The statuses and lines are this project's own.
pub fn sst_here<T: Threads + Sync, V: Shelf, K: Sink, R: Sink>(
    rt: &T,
    alloc: Global,
    words: &[Text],
    shelf: &mut V,
    out: &mut K,
    err: &mut R,
    ran: &mut Ran,
) -> Status
    ensures ends { Ends words.now ran.new.workers.items
        (seen (V.held shelf.old) (V.read_faults shelf.old) (V.put_faults shelf.old) (K.taken out.old) (K.faults out.old) (R.taken err.old) (R.faults err.old))
        (seen (V.held shelf.new) (V.read_faults shelf.new) (V.put_faults shelf.new) (K.taken out.new) (K.faults out.new) (R.taken err.new) (R.faults err.new))
        result }
    ensures counted { Counted
        (seen (V.held shelf.old) (V.read_faults shelf.old) (V.put_faults shelf.old) (K.taken out.old) (K.faults out.old) (R.taken err.old) (R.faults err.old))
        (seen (V.held shelf.new) (V.read_faults shelf.new) (V.put_faults shelf.new) (K.taken out.new) (K.faults out.new) (R.taken err.new) (R.faults err.new)) }
{
    match plan_of(alloc, words) {
        Ok(plan) => carry_out(rt, alloc, &plan, shelf, out, err, ran),
        Err(usage) => tell_usage(err, &usage),
    }
}

/// Words over entries answer one thing, and what they answer is given whole unless the call failed or
/// memory was wanting: so each refusal comes exactly where it is the answer.
pub fn answers_are_given()
    ensures one { OneAnswer }
    ensures complete { AllComplete }
{}
