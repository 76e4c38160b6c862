//! A window of a run, in all its parts, and how the run ends.

ghost use Rattle.std.specs.Prelude.{◌≡◌, ◌<◌, ◌≤◌, ◌+◌, ◌-◌, ℕ, true, false, All, length, slice_index_or, IfOk, OnOk, map};
ghost use Rattle.std.specs.List.{list_any};
ghost use Rattle.ss_model.specs.End.{told_time, ended};
ghost use Rattle.ss_element.specs.Kind.{behaviour};
ghost use Rattle.ss_run.specs.Run.{IsFitting, HasWindows, wires_of, start_of};
ghost use Rattle.ss_worker.specs.Place.{Place, AllStandAt};
ghost use Rattle.ss_piece.specs.Pieces.{slip};
ghost use Rattle.ss_run.specs.declared.RunSpec.{RunSpec};
ghost use Rattle.ss_worker.specs.Told.{IsLeft};
ghost use Rattle.ss_worker.specs.Saves.{AreFirst, IsSaveTime, MayOpen, ArePieces};
ghost use Rattle.ss_join.specs.Between.{Point, AllBetween, IsReady, HasRun, AllRun, AreWindowLines, IsGreatestLast};
ghost use Rattle.ss_join.specs.Checkpoints.{IsWindowCut, AreFirstPieces, IsOpening};
ghost use Rattle.ss_join.specs.Joined.{IsOutcome};

use crate::Ending;
use crate::exchange::exchange;
use crate::lead::Cut;
use ss_merge::merge_lines;
use ss_piece::Piece;
use ss_run::Simulated;
use ss_worker::{Stage, Worker};
use std::alloc::{AllocError, Global};
use std::thread;
use std::thread::Threads;

// The pieces of all parts at the run's beginning, in order.
fn first_pieces<E: Simulated>(
    alloc: Global,
    workers: &Vec<Worker<E>>,
) -> Result<Vec<Piece>, AllocError>
    ghost run: { RunSpec }
    requires stand { AllStandAt run 0 workers.now.items }
    requires may { MayOpen E.kind E.meaning run }
    ensures { IfOk result (λ ps. AreFirstPieces E.kind E.saving E.meaning run (map slip ps.items)) }
{
    let mut pieces = Vec::new(alloc);
    for worker in workers {
        let piece = worker.opening_piece()?;
        pieces.push(piece)?;
    }
    Ok(pieces)
}

/// What is to be handed out before the first window, where a checkpoint is asked for there. It fails only where no memory
/// is left.
pub fn opening<E: Simulated>(
    alloc: Global,
    workers: &Vec<Worker<E>>,
) -> Result<Option<Cut>, AllocError>
    ghost run: { RunSpec }
    requires some { 1 ≤ run.partition.parts }
    requires stand { AllStandAt run 0 workers.now.items }
    ensures { IfOk result (λ o. IsOpening E.kind E.saving E.meaning run o) }
{
    let saves = workers[0].save_times()?;
    if saves.is_empty() {
        return Ok(None);
    }
    let pieces = first_pieces(alloc, workers)?;
    Ok(Some(Cut {
        lines: Vec::new(alloc),
        saves,
        pieces,
    }))
}

// Runs a worker's next window. Whether it failed, the worker tells.
fn run_window<E: Simulated>(worker: &mut Worker<E>)
    requires { IsReady E.kind E.meaning worker.old }
    ensures { HasRun worker.old worker.new }
{
    let _ = worker.window();
}

// Runs the next window of all workers, on at most `hosts` threads.
fn run_windows<T: Threads + Sync, E: Simulated + Send>(
    rt: &T,
    workers: &mut Vec<Worker<E>>,
    hosts: u32,
)
where
    E::Load: Send,
    requires hosts { 1 ≤ hosts }
    requires ready { All (λ pl. IsReady E.kind E.meaning pl) workers.old.items }
    ensures { AllRun workers.old.items workers.new.items }
{
    thread::for_each_mut(
        rt,
        workers.as_mut_slice(),
        hosts as usize,
        &|_, worker: &mut Worker<E>|
            requires { IsReady E.kind E.meaning worker.now }
            ensures { HasRun worker.entry.now worker.exit.now }
        { run_window(worker) },
    );
}

// Whether a worker found no memory.
fn any_failed<E: Simulated>(workers: &Vec<Worker<E>>) -> bool
    ensures { result ≡ list_any (λ pl. pl.failed) workers.now.items }
{
    workers.iter().any(|worker| worker.failed())
}

// What is to be handed out behind the last window: its lines, in the order of their keys, and the times for which a
// checkpoint is asked, with the parts' pieces.
fn gather<E: Simulated>(alloc: Global, workers: &mut Vec<Worker<E>>) -> Result<Cut, AllocError>
    ghost at: { Point }
    requires some { 1 ≤ at.run.partition.parts }
    requires ran { 1 ≤ at.windows }
    requires between { AllBetween at at.run.partition.parts 0 workers.old.items }
    ensures lines { IfOk result (λ cut. AreWindowLines E.kind E.meaning at.run (at.windows - 1) cut.lines) }
    ensures saves { IfOk result (λ cut. AreFirst (IsSaveTime E.kind E.meaning at.run at.windows) 1025 cut.saves) }
    ensures pieces { IfOk result (λ cut. ArePieces E.kind E.saving E.meaning at.run (at.windows - 1) cut.pieces) }
    ensures stand { OnOk result (AllStandAt at.run at.windows workers.new.items) }
{
    let saves = workers[0].save_times()?;
    let gathered = workers[0].gathered();
    let lines = merge_lines(alloc, gathered.lines)?;
    Ok(Cut {
        lines,
        saves,
        pieces: gathered.pieces,
    })
}

/// Runs a window of all parts, on at most `hosts` threads, and exchanges what they sent. It gives the lines that they
/// printed, in the order of their keys, and the checkpoints that are asked for before the next window. It fails only where no memory is left, and the workers may then only be let
/// go.
pub fn advance<T: Threads + Sync, E: Simulated + Send>(
    rt: &T,
    alloc: Global,
    workers: &mut Vec<Worker<E>>,
    hosts: u32,
) -> Result<Cut, AllocError>
where
    E::Load: Send,
    ghost at: { Point }
    requires hosts { 1 ≤ hosts }
    requires some { 1 ≤ at.run.partition.parts }
    requires stand { AllStandAt at.run at.windows workers.old.items }
    requires left { IsLeft E.kind E.meaning at.run at.windows }
    ensures cut { IfOk result (λ cut. IsWindowCut E.kind E.saving E.meaning at.run at.windows cut) }
    ensures stand { OnOk result (AllStandAt at.run (at.windows + 1) workers.new.items) }
{
    run_windows(rt, workers, hosts);
    if any_failed(workers) {
        return Err(AllocError);
    }
    let parts = workers[0].run().partition.parts();
    exchange(workers, parts)?;
    gather(alloc, workers)
}

/// Whether an event is to come before the run's bound.
pub fn is_left<E: Simulated>(workers: &Vec<Worker<E>>) -> bool
    ghost at: { Point }
    requires some { 1 ≤ at.run.partition.parts }
    requires stand { AllStandAt at.run at.windows workers.now.items }
    ensures left { result ≡ true → IsLeft E.kind E.meaning at.run at.windows }
    ensures over { result ≡ false → HasWindows E.kind E.meaning at.run at.windows }
{
    match workers[0].stage() {
        Stage::Ready(_) => true,
        Stage::Waiting => false,
        Stage::Over => false,
    }
}

// The greatest time of a part's last event.
fn greatest_last<E: Simulated>(workers: &Vec<Worker<E>>) -> u64
    ghost at: { Point }
    requires stand { AllStandAt at.run at.windows workers.now.items }
    ensures { IsGreatestLast E.kind E.meaning at.run at.windows at.run.partition.parts result }
{
    let mut greatest = 0;
    for worker in workers {
        greatest = greatest.max(worker.last());
    }
    greatest
}

// The time that the final line of a run tells that is over.
fn final_time<E: Simulated>(workers: &Vec<Worker<E>>) -> u64
    ghost at: { Point }
    requires fits { IsFitting E.kind E.meaning at.run }
    requires stand { AllStandAt at.run at.windows workers.now.items }
    requires over { HasWindows E.kind E.meaning at.run at.windows }
    ensures { (o : _) → IsOutcome E.kind E.meaning at.run o → result ≡ told_time o (ended (behaviour E.kind) (wires_of E.meaning at.run) (start_of E.meaning at.run) o) }
{
    match workers[0].told() {
        Some(time) => time,
        None => greatest_last(workers),
    }
}

/// How a run that is over ended.
pub fn ending<E: Simulated>(workers: &Vec<Worker<E>>) -> Ending
    ghost at: { Point }
    requires fits { IsFitting E.kind E.meaning at.run }
    requires stand { AllStandAt at.run at.windows workers.now.items }
    requires over { HasWindows E.kind E.meaning at.run at.windows }
    ensures windows { result.windows ≡ at.windows }
    ensures time { (o : _) → IsOutcome E.kind E.meaning at.run o → result.time ≡ told_time o (ended (behaviour E.kind) (wires_of E.meaning at.run) (start_of E.meaning at.run) o) }
{
    Ending {
        time: final_time(workers),
        windows: workers[0].windows(),
    }
}
