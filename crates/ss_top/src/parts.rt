//! The run of a graph in parts.

ghost use Rattle.std.specs.Prelude.{◌≡◌, ◌<◌, ◌≤◌, ◌++◌, IfOk, Some, None, if◌then◌else◌};
ghost use Rattle.std.specs.List.{list_any};
ghost use Rattle.std.specs.Arc.{arc_value};
ghost use Rattle.ss_cmd.specs.Grammar.{AreInRange};
ghost use Rattle.ss_course.specs.Kept.{most_kept};
ghost use Rattle.ss_graph.specs.Fit.{IsFit};
ghost use Rattle.ss_join.specs.Cutting.{refused_cuts};
ghost use Rattle.ss_library.specs.Kinds.{any_kind};
ghost use Rattle.ss_library.specs.Meaning.{any_meaning, any_opening};
ghost use Rattle.ss_part.specs.Assigned.{assigned};
ghost use Rattle.ss_run.specs.Run.{IsFitting};
ghost use Rattle.ss_worker.specs.Place.{AllStandAt};
ghost use Rattle.ss_top.specs.Answer.{sheets as puts_of, stats_text};
ghost use Rattle.ss_top.specs.Asked.{run_of};
ghost use Rattle.ss_top.specs.Dividing.{AreSheets, BeginsWith, IsDone, IsEndOf, saves_of};
ghost use Rattle.ss_top.specs.Report.{Has};
ghost use Rattle.ss_top.specs.Simulate.{HasRun, puts_by};

use crate::Ran;
use crate::join::join_workers;
use crate::lead::{Gatherer, MOST_KEPT, count_of};
use crate::printed::{End, Printed};
use crate::report::report_of;
use crate::sheets::{Sheet, add_sheet, stats_in_parts};
use crate::simulate::stop_time;
use ss_ckpt::Saved;
use ss_cmd::RunOptions;
use ss_element::Element;
use ss_graph::Graph;
use ss_join::{Cut, Ending};
use ss_library::Any;
use ss_part::Partition;
use ss_run::{Origin, RunId, RunSpec};
use ss_units::Text;
use ss_window::Cuts;
use ss_worker::{Worker, workers_of};
use std::alloc::{AllocError, Global};
use std::sync::Arc;
use std::thread::Threads;

/// A run that was run: its cuts, its end where it wasn't stopped, and its workers.
#[derive(Drop)]
pub struct Done {
    pub cuts: Vec<Cut>,
    pub ending: Option<Ending>,
    pub workers: Vec<Worker<Any>>,
}

fn has_primary(elements: &[Any]) -> bool
    ensures { result ≡ list_any any_kind.primary elements.now }
{
    elements.iter().any(|e| e.is_primary())
}

/// How often the primaries are asked whether to end, where there are any.
fn exit_of(elements: &[Any], period: u64) -> Option<u64>
    ensures { result ≡ (if list_any any_kind.primary elements.now then Some period else None) }
{
    if has_primary(elements) {
        Some(period)
    } else {
        None
    }
}

/// The run that options ask for, of a graph in the parts of a division, from a time on with the elements that it has then.
pub fn spec_of(
    graph: Graph,
    origin: Origin,
    partition: Partition,
    options: &RunOptions,
    time: u64,
    elements: &[Any],
) -> RunSpec
    requires fit { IsFit graph }
    requires early { AreInRange options.now }
    requires divided { partition.list ≡ assigned graph partition.parts options.now.spread.how }
    requires time { time ≡ (any_opening graph origin).time }
    requires elements { elements.now ≡ (any_opening graph origin).state.components }
    ensures { result ≡ run_of graph origin options.now partition.parts }
{
    let cuts = Cuts {
        stop: time.max(stop_time(options.stop_at, graph.options.stop_at)),
        origin: time,
        exit: exit_of(elements, graph.options.exit_period),
        save_at: options.checkpoint_at,
        save_every: options.checkpoint_period,
    };
    RunSpec {
        graph,
        partition,
        cuts,
        origin,
    }
}

/// The cuts of a run that was stopped since it had more checkpoints than a run may have.
fn all_cuts(lead: Gatherer) -> Result<Vec<Cut>, AllocError>
    ensures cuts { IfOk result (λ v. v.items ≡ lead.cuts.items ++ refused_cuts lead.refused) }
    ensures many { IfOk result (λ v. most_kept < saves_of v.items) }
{
    let Gatherer {
        mut cuts,
        refused,
        ..
    } = lead;
    if let Some(cut) = refused {
        cuts.push(cut)?;
    }
    if count_of(&cuts) > MOST_KEPT {
        Ok(cuts)
    } else {
        Err(AllocError)
    }
}

/// Runs the parts of a run from what it begins with, on at most `hosts` threads.
fn run_all<T: Threads + Sync>(
    rt: &T,
    alloc: Global,
    run: &RunId,
    saved: Saved<Any>,
    hosts: u32,
) -> Result<Done, AllocError>
    requires fits { IsFitting any_kind any_meaning (arc_value run.now) }
    requires begins { BeginsWith (arc_value run.now).graph (arc_value run.now).origin saved }
    requires hosts { 1 ≤ hosts }
    ensures { IfOk result (IsDone (arc_value run.now)) }
{
    let Saved {
        time: _,
        last,
        model,
        events,
    } = saved;
    let mut workers = workers_of(alloc, model, events, last, Arc::try_clone(run)?)?;
    let mut lead = Gatherer::new(alloc);
    match join_workers(rt, alloc, run, &mut workers, hosts, &mut lead) {
        Ok(ending) => Ok(Done {
            cuts: lead.cuts,
            ending: Some(ending),
            workers,
        }),
        Err(_) => Ok(Done {
            cuts: all_cuts(lead)?,
            ending: None,
            workers,
        }),
    }
}

/// The statistics of a run in parts, where a name for them is given.
fn stats_after(
    alloc: Global,
    run: &RunSpec,
    name: &Option<Text>,
    workers: &[Worker<Any>],
    windows: u64,
) -> Result<Vec<Sheet>, AllocError>
    requires fits { IsFitting any_kind any_meaning run.now }
    requires fit { IsFit run.now.graph }
    requires stand { AllStandAt run.now windows workers.now }
    requires windows { Has run.now windows }
    ensures { (n : Has run.now windows) → IfOk result (λ v. puts_by v.items ≡ puts_of name.now (stats_text run.now.graph n.last.whole.state)) }
{
    let mut sheets = Vec::new(alloc);
    match name {
        None => Ok(sheets),
        Some(name) => {
            let text = stats_in_parts(alloc, run, workers, windows)?;
            add_sheet(alloc, &mut sheets, name, text)?;
            Ok(sheets)
        }
    }
}

/// What is put after a run in parts: its statistics and its report, where names for them are given.
fn sheets_after(
    alloc: Global,
    run: &RunSpec,
    options: &RunOptions,
    workers: &[Worker<Any>],
    windows: u64,
) -> Result<Vec<Sheet>, AllocError>
    requires fits { IsFitting any_kind any_meaning run.now }
    requires fit { IsFit run.now.graph }
    requires few { run.now.partition.parts ≤ 32 }
    requires stand { AllStandAt run.now windows workers.now }
    requires windows { Has run.now windows }
    ensures { IfOk result (λ v. AreSheets run.now options.now v.items) }
{
    let mut sheets = stats_after(alloc, run, &options.stats, workers, windows)?;
    match &options.sync_report {
        None => Ok(sheets),
        Some(name) => {
            let text = report_of(alloc, run, workers, windows)?;
            add_sheet(alloc, &mut sheets, name, text)?;
            Ok(sheets)
        }
    }
}

/// How a run ended that was run, with what is put then.
fn end_of(
    alloc: Global,
    run: &RunSpec,
    options: &RunOptions,
    done: &Done,
) -> Result<End, AllocError>
    requires fits { IsFitting any_kind any_meaning run.now }
    requires fit { IsFit run.now.graph }
    requires few { run.now.partition.parts ≤ 32 }
    requires done { IsDone run.now done.now }
    ensures { IfOk result (IsEndOf run.now options.now done.now.ending) }
{
    match &done.ending {
        None => Ok(End::Stopped),
        Some(ending) => {
            let workers = done.workers.as_slice();
            let sheets = sheets_after(alloc, run, options, workers, ending.windows)?;
            Ok(End::Complete {
                time: ending.time,
                sheets,
            })
        }
    }
}

/// Runs what options ask for in parts, from what the run begins with.
pub fn run_divided<T: Threads + Sync>(
    rt: &T,
    alloc: Global,
    spec: RunSpec,
    saved: Saved<Any>,
    options: &RunOptions,
    ran: &mut Ran,
) -> Result<Printed, AllocError>
    requires fits { IsFitting any_kind any_meaning spec }
    requires asked { spec ≡ run_of spec.graph spec.origin options.now spec.partition.parts }
    requires fit { IsFit spec.graph }
    requires begins { BeginsWith spec.graph spec.origin saved }
    requires few { spec.partition.parts ≤ 32 }
    requires threads { 1 ≤ options.now.spread.threads }
    ensures { IfOk result (HasRun spec.graph spec.origin options.now spec.partition.parts ran.new.workers.items) }
{
    let hosts = options.spread.threads.min(spec.partition.parts());
    let prefix = options.checkpoint_prefix.copy(alloc)?;
    let run = Arc::new(alloc, spec)?;
    let done = run_all(rt, alloc, &run, saved, hosts)?;
    let end = end_of(alloc, &run, options, &done)?;
    ran.workers = done.workers;
    Ok(Printed {
        run,
        prefix,
        cuts: done.cuts,
        end,
    })
}
