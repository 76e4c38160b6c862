//! What a call comes to, once the bytes are read that it asks for.

ghost use Rattle.std.specs.Prelude.{◌≡◌, ◌<◌, ◌≤◌, ◌^◌, length, IfErr, IfOk, IfSome, None, List, ℕ};
ghost use Rattle.ss_cmd.specs.Grammar.{AreInRange, IsEarly};
ghost use Rattle.ss_cmd.specs.declared.Plan.TheVariants as plan;
ghost use Rattle.ss_graph.specs.Fit.{IsFit};
ghost use Rattle.ss_graph.specs.Judge.{graph_of};
ghost use Rattle.ss_library.specs.Kinds.{any_safe};
ghost use Rattle.ss_library.specs.Make.{model_of};
ghost use Rattle.ss_model.specs.Step.{opening, starts};
ghost use Rattle.ss_part.specs.Assigned.{assigned};
ghost use Rattle.ss_part.specs.Division.{AreBelow};
ghost use Rattle.ss_recall.specs.Recalled.{IsRecalled};
ghost use Rattle.mr_flow.specs.declared.Load.{Load};
ghost use Rattle.ss_run.specs.declared.Origin.TheVariants as origin;
ghost use Rattle.ss_top.specs.Answer.{AnswersAsked, AnswersRead, AnswersSaved, AnswersText, entry_name};
ghost use Rattle.ss_top.specs.Accepted.{IsAcceptedText, IsDivision, IsRunnable, IsRefusedText, Undivides};
ghost use Rattle.ss_top.specs.Dividing.{BeginsWith};
ghost use Rattle.ss_top.specs.Judge.{stop_by};
ghost use Rattle.ss_top.specs.Left.{Working, LeavesAccepted, LeavesRead, LeavesRun, LeavesSaved};
ghost use Rattle.ss_top.specs.Simulate.{HasRun, IsVerdict};
ghost use Rattle.ss_top.specs.Spreading.{parts_of, too_many_threads};

use crate::Ran;
use crate::parts::{run_divided, spec_of};
use crate::plain::{is_plain, run_plain};
use crate::printed::Printed;
use crate::refusal::{Refusal, refused, undivided, unmade, unrecalled};
use crate::texts::{checked, divide};
use mr_flow::Load;
use ss_ckpt::Saved;
use ss_cmd::{Plan, RunOptions, Spread};
use ss_element::Model;
use ss_graph::{Graph, read};
use ss_library::{Any, make};
use ss_model::{Event, Key, START};
use ss_part::{How, Partition, assign};
use ss_recall::{Recalled, recall};
use ss_run::Origin;
use ss_units::Items;
use std::alloc::{AllocError, Global};
use std::thread::Threads;

/// What a call comes to: what its run prints and puts; texts that are listed; or a refusal.
#[derive(Drop)]
pub enum Verdict {
    Ran(Printed),
    Listed(Vec<Vec<u8>>),
    Refused(Refusal),
}

/// An accepted graph and its model.
#[derive(Drop)]
pub struct Accepted {
    pub graph: Graph,
    pub model: Model<Any>,
}

/// When a run stops at the latest, by what is asked and by its graph.
pub fn stop_time(asked: Option<u64>, stop: u64) -> u64
    requires asked { IfSome asked (λ t. t ≤ 2 ^ 62) }
    requires stop { stop ≤ 2 ^ 62 }
    ensures is { result ≡ stop_by asked stop }
    ensures early { result ≤ 2 ^ 62 }
{
    match asked {
        None => stop,
        Some(0) => 1 << 62,
        Some(time) => time,
    }
}

/// In how many parts a graph is run.
fn part_count(spread: &Spread, graph: &Graph) -> u32
    requires { IsFit graph.now }
    ensures { result ≡ parts_of spread.now graph.now }
{
    match spread.parts {
        Some(parts) => parts,
        None => {
            let components = graph.components.as_slice().len() as u32;
            spread.threads.min(components.max(1))
        }
    }
}

/// The parts in which a graph is run.
fn division_of(alloc: Global, graph: &Graph, spread: &Spread) -> Result<Partition, Refusal>
    requires { IsFit graph.now }
    ensures divided { IfOk result (IsDivision graph.now spread.now) }
    ensures undivided { IfErr result (Undivides graph.now spread.now) }
{
    let parts = part_count(spread, graph);
    match assign(alloc, graph, parts, spread.how) {
        Ok(partition) => Ok(partition),
        Err(fault) => Err(undivided(alloc, fault)),
    }
}

/// The start of each component, in order.
fn start_events(alloc: Global, elements: &[Any]) -> Result<Vec<Event<Load>>, AllocError>
    requires { length elements.now < 2 ^ 32 }
    ensures { IfOk result (λ v. v.items ≡ starts {L = Load} 0 elements.now) }
{
    let mut events = Vec::new(alloc);
    for (line, _) in elements.iter().enumerate() {
        let key = Key {
            time: 0,
            class: START,
            line: line as u32,
        };
        events.push(Event { key, load: None })?;
    }
    Ok(events)
}

/// A model at its start.
fn started(alloc: Global, model: Model<Any>) -> Result<Saved<Any>, AllocError>
    requires { length model.elements.items < 2 ^ 32 }
    ensures { IfOk result (λ s. (s.time ≡ 0) × (s.last ≡ 0) × (s.model ≡ model) × (s.events.items ≡ starts {L = Load} 0 model.elements.items)) }
{
    let events = start_events(alloc, &model.elements)?;
    Ok(Saved {
        time: 0,
        last: 0,
        model,
        events,
    })
}

/// Runs an accepted graph from its start in the parts of a division, as options ask.
fn run_started<T: Threads + Sync>(
    rt: &T,
    alloc: Global,
    accepted: Accepted,
    partition: Partition,
    options: &RunOptions,
    ran: &mut Ran,
) -> Result<Printed, AllocError>
    requires accepted { IsRunnable accepted }
    requires early { AreInRange options.now }
    requires threads { 1 ≤ options.now.spread.threads }
    requires divided { IsDivision accepted.graph options.now.spread partition }
    ensures { IfOk result (HasRun accepted.graph origin.Start options.now (parts_of options.now.spread accepted.graph) ran.new.workers.items) }
{
    let Accepted { graph, model } = accepted;
    let plain = is_plain(options, partition.parts());
    let elements = &model.elements;
    let spec = spec_of(graph, Origin::Start, partition, options, 0, elements);
    if plain {
        return run_plain(alloc, spec, model, options);
    }
    let saved = started(alloc, model)?;
    run_divided(rt, alloc, spec, saved, options, ran)
}

/// Goes on from a checkpoint in the parts of a division, as options ask.
fn run_recalled<T: Threads + Sync>(
    rt: &T,
    alloc: Global,
    recalled: Recalled,
    bytes: Vec<u8>,
    partition: Partition,
    options: &RunOptions,
    ran: &mut Ran,
) -> Result<Printed, AllocError>
    requires recalled { IsRecalled bytes.items recalled }
    requires early { AreInRange options.now }
    requires threads { 1 ≤ options.now.spread.threads }
    requires divided { IsDivision recalled.graph options.now.spread partition }
    ensures { IfOk result (HasRun recalled.graph (origin.Saved bytes.items) options.now (parts_of options.now.spread recalled.graph) ran.new.workers.items) }
{
    let Recalled { graph, saved } = recalled;
    let origin = Origin::Saved {
        bytes: Items::from_vec(bytes),
    };
    let elements = &saved.model.elements;
    let spec = spec_of(graph, origin, partition, options, saved.time, elements);
    run_divided(rt, alloc, spec, saved, options, ran)
}

/// The graph of a text and its model, or why the text isn't accepted.
fn accept(alloc: Global, text: &[u8]) -> Result<Accepted, Refusal>
    ensures accepted { IfOk result (IsAcceptedText text.now) }
    ensures refused { IfErr result (IsRefusedText text.now) }
{
    let graph = match read(alloc, text) {
        Ok(graph) => graph,
        Err(fault) => return Err(refused(fault)),
    };
    match make(alloc, &graph) {
        Ok(model) => Ok(Accepted { graph, model }),
        Err(fault) => Err(unmade(fault)),
    }
}

/// Runs an accepted graph from its start, as options ask.
fn run_accepted<T: Threads + Sync>(
    rt: &T,
    alloc: Global,
    accepted: Accepted,
    options: &RunOptions,
    ran: &mut Ran,
) -> Verdict
    requires accepted { IsRunnable accepted }
    requires early { AreInRange options.now }
    requires threads { 1 ≤ options.now.spread.threads }
    ensures { (name text : List ℕ) → IsAcceptedText text accepted → IsVerdict (AnswersText (plan.Run name options.now) text) (LeavesAccepted (plan.Run name options.now) (graph_of text) ran.new.workers.items) name result }
{
    let partition = match division_of(alloc, &accepted.graph, &options.spread) {
        Ok(partition) => partition,
        Err(refusal) => return Verdict::Refused(refusal),
    };
    match run_started(rt, alloc, accepted, partition, options, ran) {
        Ok(printed) => Verdict::Ran(printed),
        Err(_) => Verdict::Refused(Refusal::NoMemory),
    }
}

/// Goes on from a checkpoint that was recalled, as options ask.
fn go_on<T: Threads + Sync>(
    rt: &T,
    alloc: Global,
    recalled: Recalled,
    bytes: Vec<u8>,
    options: &RunOptions,
    ran: &mut Ran,
) -> Verdict
    requires recalled { IsRecalled bytes.items recalled }
    requires early { AreInRange options.now }
    requires threads { 1 ≤ options.now.spread.threads }
    ensures { (name : List ℕ) → IsVerdict (AnswersSaved name bytes.items options.now) (LeavesSaved bytes.items options.now ran.new.workers.items) name result }
{
    let partition = match division_of(alloc, &recalled.graph, &options.spread) {
        Ok(partition) => partition,
        Err(refusal) => return Verdict::Refused(refusal),
    };
    match run_recalled(rt, alloc, recalled, bytes, partition, options, ran) {
        Ok(printed) => Verdict::Ran(printed),
        Err(_) => Verdict::Refused(Refusal::NoMemory),
    }
}

/// Judges a graph text and runs its graph from the start, as options ask.
fn run_text<T: Threads + Sync>(
    rt: &T,
    alloc: Global,
    text: &[u8],
    options: &RunOptions,
    ran: &mut Ran,
) -> Verdict
    requires early { AreInRange options.now }
    requires threads { 1 ≤ options.now.spread.threads }
    ensures { (name : List ℕ) → IsVerdict (AnswersText (plan.Run name options.now) text.now) (LeavesAccepted (plan.Run name options.now) (graph_of text.now) ran.new.workers.items) name result }
{
    match accept(alloc, text) {
        Ok(accepted) => run_accepted(rt, alloc, accepted, options, ran),
        Err(refusal) => Verdict::Refused(refusal),
    }
}

/// Judges the bytes of a checkpoint and goes on from it, as options ask.
fn restart_from<T: Threads + Sync>(
    rt: &T,
    alloc: Global,
    bytes: Vec<u8>,
    options: &RunOptions,
    ran: &mut Ran,
) -> Verdict
    requires early { AreInRange options.now }
    requires threads { 1 ≤ options.now.spread.threads }
    ensures { (name : List ℕ) → IsVerdict (AnswersSaved name bytes.items options.now) (LeavesSaved bytes.items options.now ran.new.workers.items) name result }
{
    match recall(alloc, bytes.as_slice()) {
        Ok(recalled) => go_on(rt, alloc, recalled, bytes, options, ran),
        Err(fault) => Verdict::Refused(unrecalled(fault)),
    }
}

/// Judges a graph text, and says what its graph has.
fn check_text(alloc: Global, text: &[u8]) -> Verdict
    ensures { (name : List ℕ) (workers : List Working) → IsVerdict (AnswersText (plan.Check name) text.now) (LeavesAccepted (plan.Check name) (graph_of text.now) workers) name result }
{
    match accept(alloc, text) {
        Ok(accepted) => match checked(alloc, &accepted.graph) {
            Ok(texts) => Verdict::Listed(texts),
            Err(_) => Verdict::Refused(Refusal::NoMemory),
        },
        Err(refusal) => Verdict::Refused(refusal),
    }
}

/// Judges a graph text, and divides its graph.
fn divide_text(alloc: Global, name: &str, text: &[u8], parts: Option<u32>, how: How) -> Verdict
    ensures { (workers : List Working) → IsVerdict (AnswersText (plan.Partition name.now parts how) text.now) (LeavesAccepted (plan.Partition name.now parts how) (graph_of text.now) workers) name.now result }
{
    match accept(alloc, text) {
        Ok(accepted) => divide(alloc, name, &accepted.graph, parts.unwrap_or(1), how),
        Err(refusal) => Verdict::Refused(refusal),
    }
}

/// Does with the bytes that were read what a plan asks.
pub fn answer_read<T: Threads + Sync>(
    rt: &T,
    alloc: Global,
    plan: &Plan,
    bytes: Vec<u8>,
    ran: &mut Ran,
) -> Verdict
    requires early { IsEarly plan.now }
    requires threads { too_many_threads plan.now ≡ None }
    ensures { IsVerdict (AnswersRead plan.now bytes.items) (LeavesRead plan.now bytes.items ran.new.workers.items) (entry_name plan.now) result }
{
    match plan {
        Plan::Run { options, .. } => run_text(rt, alloc, bytes.as_slice(), options, ran),
        Plan::Restart { options, .. } => restart_from(rt, alloc, bytes, options, ran),
        Plan::Check { .. } => check_text(alloc, bytes.as_slice()),
        Plan::Partition { graph, parts, how } => {
            divide_text(alloc, graph.as_str(), bytes.as_slice(), *parts, *how)
        }
    }
}
