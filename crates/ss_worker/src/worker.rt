//! A part of a run, window by window.

ghost use Rattle.std.specs.Prelude.{◌≡◌, ◌≢◌, ◌<◌, ◌≤◌, ◌-◌, false, slice_index_or, if◌then◌else◌, true, map, length, slice_set, IfOk, OnOk, MatchResult};
ghost use Rattle.std.specs.Prelude.{slice_index, slice_get, filter, replicate, ℕ, [], Some, option_map, ◌==◌};
ghost use Rattle.ss_window.specs.Least.{IsFirst};
ghost use Rattle.ss_model.specs.Order.{next_time};
ghost use Rattle.ss_theory.specs.Queue.{is_at};
ghost use Rattle.ss_parts.specs.Parts.{components_of};
ghost use Rattle.ss_parts.specs.Division.{all_idle};
ghost use Rattle.ss_worker.specs.Sorted.{goes_to};
ghost use Rattle.ss_run.specs.Run.{IsFitting, wires_of, start_of, view, HasWindows};
ghost use Rattle.ss_worker.specs.Place.{first, after_window, after_out, after_in, after_gathering, broken, IsWhole, only, all_set as all_set_of};
ghost use Rattle.ss_worker.specs.Told.{IsLeft, IsStage, IsNextOrOver, AreElements, AreSent, IsLast, IsTold, AreLines};
ghost use Rattle.ss_worker.specs.Outgoing.{HasFirst};
ghost use Rattle.ss_worker.specs.Sound.{named};
ghost use Rattle.ss_piece.specs.Pieces.{Slip, slip};
ghost use Rattle.ss_worker.specs.Saves.{AreFirst, MayOpen, IsSaveTime, IsFirstPieceOf, ArePieces};

use crate::Part;
use crate::batch::Batch;
use crate::known::Known;
use crate::outgoing::{batches_of, piece_for, run_window};
use crate::stage::{Stage, Window};
use ss_element::Wires;
use ss_model::{Event, Line};
use ss_part::lookahead;
use ss_piece::Piece;
use ss_run::{RunId, Simulated};
use std::alloc::{AllocError, Global};
use std::marker::Model;
use std::mem;
use std::sync::Arc;

// Whether all flags are set.
fn all_set(flags: &[bool]) -> bool
    ensures { result ≡ all_set_of flags.now }
{
    flags.iter().all(|flag| *flag)
}

// So many flags, all of them set.
fn all_flags(alloc: Global, count: u32) -> Result<Vec<bool>, AllocError>
    ensures { IfOk result (λ v. v.items ≡ replicate count true) }
{
    Vec::from_elem(alloc, true, count as usize)
}

// So many counts, all of them 0.
fn no_counts(alloc: Global, count: u32) -> Result<Vec<u128>, AllocError>
    ensures { IfOk result (λ v. v.items ≡ replicate count 0) }
{
    Vec::from_elem(alloc, 0, count as usize)
}

// Leaves one flag set alone.
fn set_only(flags: &mut Vec<bool>, own: u32)
    requires { own < length flags.old.items }
    ensures { flags.new.items ≡ only (length flags.old.items) own }
{
    flags.fill(false);
    flags[own as usize] = true;
}

// The lines of all parts, as far as they are known behind a window of part 0 alone.
fn first_lines(
    alloc: Global,
    part: u32,
    parts: u32,
    lines: &mut Vec<Line>,
) -> Result<Vec<Vec<Line>>, AllocError>
    requires { part < parts }
    ensures lines { IfOk result (λ ls. part ≡ 0 → HasFirst parts lines.old.items (map (λ l. l.items) ls.items)) }
    ensures rest { OnOk result ((part ≡ 0 → ⊥) → lines.new.items ≡ lines.old.items) }
{
    let mut lists = Vec::new(alloc);
    if part == 0 {
        lists.push(mem::replace(lines, Vec::new(alloc)))?;
        for _ in 1..parts {
            lists.push(Vec::new(alloc))?;
        }
    }
    Ok(lists)
}

// Puts the lines of a part in their place, where lines are kept.
fn put_lines(lists: &mut Vec<Vec<Line>>, place: u32, lines: Vec<Line>)
    ensures { place < length lists.old.items → map (λ l. l.items) lists.new.items ≡ slice_set (map (λ l. l.items) lists.old.items) place lines.items }
{
    if (place as usize) < lists.len() {
        lists[place as usize] = lines;
    }
}

// Makes room for a piece of each part, in part 0.
fn make_room(
    alloc: Global,
    part: u32,
    parts: u32,
    pieces: &mut Vec<Piece>,
) -> Result<(), AllocError>
    ensures { OnOk result (part ≡ 0 → length pieces.new.items ≡ parts) }
{
    pieces.clear();
    if part == 0 {
        for _ in 0..parts {
            pieces.push(Piece {
                states: Vec::new(alloc),
                events: Vec::new(alloc),
                last: 0,
            })?;
        }
    }
    Ok(())
}

// Puts the piece of a part in its place, where pieces are kept.
fn put_piece(pieces: &mut Vec<Piece>, place: u32, piece: Option<Piece>)
    ensures count { length pieces.new.items ≡ length pieces.old.items }
    ensures there { (s : Slip) → place < length pieces.old.items → option_map slip piece ≡ Some s → slice_get (map slip pieces.new.items) place ≡ Some s }
    ensures others { (j : ℕ) → j ≢ place → slice_get (map slip pieces.new.items) j ≡ slice_get (map slip pieces.old.items) j }
{
    if let Some(piece) = piece {
        if (place as usize) < pieces.len() {
            pieces[place as usize] = piece;
        }
    }
}

// All pieces where they are due, else none.
fn take_pieces(alloc: Global, due: bool, pieces: &mut Vec<Piece>) -> Vec<Piece>
    ensures due { due ≡ true → result.items ≡ pieces.old.items }
    ensures not_due { due ≡ false → result.items ≡ [] }
{
    if due {
        mem::replace(pieces, Vec::new(alloc))
    } else {
        Vec::new(alloc)
    }
}

/// The lines of a window, a list for each part, in order; and the pieces of the parts, in order, where a checkpoint is
/// asked for before the next window, else none.
#[derive(Drop)]
pub struct Gathered {
    pub lines: Vec<Vec<Line>>,
    pub pieces: Vec<Piece>,
}

/// The worker of one part of a run: the part's elements and events, and what it knows of the run. Contracts see
/// where it stands (its run and part, how many windows it has run, and what is missing of the last one). That its
/// elements, its events and all that it tells are then what the one ordered list of events gives is kept by its
/// type.
#[derive(Drop)]
pub struct Worker<E: Simulated> {
    alloc: Global,
    run: RunId,
    part: u32,
    wires: Arc<Wires>,
    look: u64,
    windows: u64,
    handed: Vec<bool>,
    taken: Vec<bool>,
    gathered: bool,
    failed: bool,
    body: Part<E>,
    known: Known,
    batches: Vec<Option<Batch<E>>>,
    sent: Vec<u128>,
    lines: Vec<Vec<Line>>,
    ended: u64,
    pieces: Vec<Piece>,
}

impl<E: Simulated> Model for Worker<E> {
    ghost use Rattle.std.specs.Prelude.{◌≡◌, false, map, option_map};
    ghost use Rattle.std.specs.Arc.{arc_value};
    ghost use Rattle.ss_worker.specs.Place.{Place};
    ghost use Rattle.ss_worker.specs.Sound.{IsSound, HasBatches, HasSent, named};
    ghost use Rattle.ss_worker.specs.Saves.{HasSaves};
    ghost use Rattle.ss_piece.specs.Pieces.{slip};

    ghost Value = { Place };

    ghost view = { λ w. record { run = arc_value w.run; part = w.part; windows = w.windows; handed = w.handed.items; taken = w.taken.items; gathered = w.gathered; failed = w.failed } };

    ghost invariant = { λ w. w.failed ≡ false →
        IsSound E.kind E.meaning (arc_value w.run) w.part w.windows w.handed.items w.taken.items w.gathered (arc_value w.wires) w.look w.body w.known (map (λ ls. ls.items) w.lines.items)
        × HasBatches E.kind E.meaning (arc_value w.run) w.part w.windows w.handed.items (map (λ b. option_map (λ b. named (arc_value b.run) b.giver b.taker b.number) b) w.batches.items)
        × HasSent E.kind E.meaning (arc_value w.run) w.part w.windows w.handed.items w.sent.items
        × HasSaves E.kind E.saving E.meaning (arc_value w.run) w.part w.windows w.taken.items w.gathered w.ended (map slip w.pieces.items) };
}

impl<E: Simulated> Worker<E> {
    /// The worker of a part of a run at its beginning, with the part's elements and events, the time of the last event
    /// before the beginning, the run's wires, the least time of an event that is to come in any part, and whether all
    /// primaries are done. Times are in picoseconds. It fails only where no memory is left.
    pub fn new(
        alloc: Global,
        run: RunId,
        part: u32,
        elements: Vec<(u32, E)>,
        events: Vec<Event<E::Load>>,
        last: u64,
        wires: Arc<Wires>,
        least: Option<u64>,
        done: bool,
    ) -> Result<Self, AllocError>
        requires fits { IsFitting E.kind E.meaning run.value }
        requires part { part < run.value.partition.parts }
        requires elements { elements.items ≡ components_of (slice_index run.value.partition.list) part 0 (start_of E.meaning run.value).components }
        requires events { events.items ≡ filter (is_at (goes_to (wires_of E.meaning run.value) run.value.partition.list) part) (start_of E.meaning run.value).pending }
        requires last { last ≡ (start_of E.meaning run.value).last }
        requires wires { wires.value ≡ wires_of E.meaning run.value }
        requires least { least ≡ next_time (start_of E.meaning run.value).pending }
        requires done { done ≡ all_idle E.kind (start_of E.meaning run.value).components }
        ensures { IfOk result (λ w. w ≡ first run.value part) }
    {
        let count = run.graph.components.as_slice().len() as u32;
        let body = Part::new(alloc, elements, count, events, last)?;
        let parts = run.partition.parts();
        let look = lookahead(&run.graph, &run.partition);
        let since = done.then_some(run.cuts.origin);
        let handed = all_flags(alloc, parts)?;
        let taken = all_flags(alloc, parts)?;
        let sent = no_counts(alloc, parts)?;
        let known = Known {
            begun: None,
            since,
            next: least,
            idle: done,
        };
        let ended = run.cuts.origin;
        Ok(Worker {
            alloc,
            run,
            part,
            wires,
            look,
            windows: 0,
            handed,
            taken,
            gathered: true,
            failed: false,
            body,
            known,
            batches: Vec::new(alloc),
            sent,
            lines: Vec::new(alloc),
            ended,
            pieces: Vec::new(alloc),
        })
    }

    /// The number of its part. It takes no memory.
    pub fn part(&self) -> u32
        ensures { result ≡ self.now.part }
    {
        self.part
    }

    /// How many windows it has run. It takes no memory.
    pub fn windows(&self) -> u64
        ensures { result ≡ self.now.windows }
    {
        self.windows
    }

    /// The run that it is a part of. It takes no memory.
    pub fn run(&self) -> &RunId
        ensures { result.now.value ≡ self.now.run }
    {
        &self.run
    }

    /// Whether a window, or a batch that was to be taken in, found no memory. Nothing else may then be asked of
    /// the worker. It takes no memory.
    pub fn failed(&self) -> bool
        ensures { result ≡ self.now.failed }
    {
        self.failed
    }

    // The next window, where nothing is missing, or none where the run is over.
    fn next_window(&self) -> Option<Window>
        requires { IsWhole self.now }
        ensures { IsNextOrOver E.kind E.meaning self.now result }
    {
        self.known.window(self.windows, self.look, &self.run.cuts)
    }

    /// What it can do next. It takes no memory.
    pub fn stage(&self) -> Stage
        requires { self.now.failed ≡ false }
        ensures { IsStage E.kind E.meaning self.now result }
    {
        if !all_set(&self.handed) || !all_set(&self.taken) {
            return Stage::Waiting;
        }
        match self.next_window() {
            Some(window) => Stage::Ready(window),
            None => Stage::Over,
        }
    }

    /// Runs the next window. It fails only where no memory is left, and nothing else may then be asked of the
    /// worker.
    pub fn window(&mut self) -> Result<(), AllocError>
        requires whole { IsWhole self.old }
        requires left { IsLeft E.kind E.meaning self.old.run self.old.windows }
        ensures { MatchResult result (λ _. self.new ≡ after_window self.old) (λ _. self.new ≡ broken self.old) }
    {
        let Some(window) = self.next_window() else {
            return Ok(());
        };
        self.failed = true;
        let parts = self.run.partition.parts();
        let owners = self.run.partition.owners();
        let mut outgoing = run_window(
            &mut self.body,
            &self.wires,
            owners,
            self.part,
            parts,
            window.upto,
            &self.run.cuts,
        )?;
        self.known = self.known.behind(outgoing.next, outgoing.idle);
        self.ended = window.upto;
        self.lines = first_lines(self.alloc, self.part, parts, &mut outgoing.lines)?;
        make_room(self.alloc, self.part, parts, &mut self.pieces)?;
        let own = piece_for(self.part, &mut outgoing.piece);
        put_piece(&mut self.pieces, self.part, own);
        self.batches = batches_of(
            self.alloc,
            &self.run,
            self.part,
            self.windows,
            parts,
            outgoing,
        )?;
        set_only(&mut self.handed, self.part);
        set_only(&mut self.taken, self.part);
        self.windows += 1;
        self.gathered = false;
        self.failed = false;
        Ok(())
    }

    /// The batch of its last window for another part, which wasn't handed out yet. It takes no memory.
    pub fn out_batch(&mut self, taker: u32) -> Batch<E>
        requires alive { self.old.failed ≡ false }
        requires part { taker < self.old.run.partition.parts }
        requires other { taker ≢ self.old.part }
        requires missing { slice_index_or self.old.handed taker true ≡ false }
        ensures batch { named result.run.value result.giver result.taker result.number ≡ named self.old.run self.old.part taker (self.old.windows - 1) }
        ensures state { self.new ≡ after_out self.old taker }
    {
        let batch = self.batches[taker as usize].take().unwrap();
        self.sent[taker as usize] += batch.events.len() as u128;
        self.handed[taker as usize] = true;
        batch
    }

    /// Takes in the batch of its last window from another part, which wasn't taken in yet. It fails only where no
    /// memory is left, and nothing else may then be asked of the worker.
    pub fn take_in(&mut self, batch: Batch<E>) -> Result<(), AllocError>
        requires alive { self.old.failed ≡ false }
        requires batch { named batch.run.value batch.giver batch.taker batch.number ≡ named self.old.run batch.giver self.old.part (self.old.windows - 1) }
        requires part { batch.giver < self.old.run.partition.parts }
        requires missing { slice_index_or self.old.taken batch.giver true ≡ false }
        ensures { MatchResult result (λ _. self.new ≡ after_in self.old batch.giver) (λ _. self.new ≡ broken self.old) }
    {
        let Batch {
            run: _,
            giver,
            taker: _,
            number: _,
            next,
            done,
            events,
            lines,
            piece,
        } = batch;
        self.failed = true;
        self.body.take_in(events)?;
        self.known.hear(next, done);
        put_lines(&mut self.lines, giver, lines);
        put_piece(&mut self.pieces, giver, piece);
        self.taken[giver as usize] = true;
        self.failed = false;
        Ok(())
    }

    // The first checkpoint time before the next window, if there is one.
    fn first_save(&self) -> Option<u64>
        requires { IsWhole self.now }
        ensures { IsFirst (IsSaveTime E.kind E.meaning self.now.run self.now.windows) result }
    {
        self.known.save_from(self.ended, &self.run.cuts)
    }

    /// The times before the next window at which checkpoints are asked for, in ascending order: all, or the first 1,025.
    /// None of them is before the end of the last window or the run's beginning, nor after the first event that is to
    /// come in any part, and each is below the bound. They are times at which the run is as it is now. It fails only
    /// where no memory is left.
    pub fn save_times(&self) -> Result<Vec<u64>, AllocError>
        requires { IsWhole self.now }
        ensures { IfOk result (λ ts. AreFirst (IsSaveTime E.kind E.meaning self.now.run self.now.windows) 1025 ts.items) }
    {
        self.known.saves(self.alloc, self.ended, &self.run.cuts)
    }

    /// The part's piece of the run's beginning, in a run that goes on from what was saved, or in which a checkpoint is
    /// asked for before its first event. It fails only where no memory is left.
    pub fn opening_piece(&self) -> Result<Piece, AllocError>
        requires alive { self.now.failed ≡ false }
        requires first { self.now.windows ≡ 0 }
        requires saved { MayOpen E.kind E.meaning self.now.run }
        ensures { IfOk result (λ p. IsFirstPieceOf E.kind E.saving E.meaning self.now.run self.now.part (Some (slip p))) }
    {
        self.body.piece()
    }

    /// The lines of its last window, a list for each part, in order, and the parts' pieces, in order, where
    /// `save_times` has any time, else none. Only the worker of part 0 has them, once for each window, before it runs
    /// the next. It takes no memory.
    pub fn gathered(&mut self) -> Gathered
        requires part { self.old.part ≡ 0 }
        requires whole { IsWhole self.old }
        requires ran { 1 ≤ self.old.windows }
        requires fresh { self.old.gathered ≡ false }
        ensures lines { AreLines E.kind E.meaning self.old.run (self.old.windows - 1) (map (λ ls. ls.items) result.lines.items) }
        ensures pieces { ArePieces E.kind E.saving E.meaning self.old.run (self.old.windows - 1) (map slip result.pieces.items) }
        ensures state { self.new ≡ after_gathering self.old }
    {
        let due = self.first_save().is_some();
        self.gathered = true;
        let lines = mem::replace(&mut self.lines, Vec::new(self.alloc));
        let pieces = take_pieces(self.alloc, due, &mut self.pieces);
        Gathered { lines, pieces }
    }

    /// Where the run is over, the time of its bound, in picoseconds, if an event of any part is still to come or if
    /// the primaries' agreement set the bound. It takes no memory.
    pub fn told(&self) -> Option<u64>
        requires whole { IsWhole self.now }
        requires over { HasWindows E.kind E.meaning self.now.run self.now.windows }
        ensures { IsTold E.kind E.meaning self.now.run result }
    {
        self.known.told(&self.run.cuts)
    }

    /// The part's elements, each with its component's number. It takes no memory.
    pub fn elements(&self) -> &[(u32, E)]
        requires { self.now.failed ≡ false }
        ensures { AreElements E.kind E.meaning self.now.run self.now.part self.now.windows result.now }
    {
        self.body.elements()
    }

    /// The time of the last event that the part handled, in picoseconds, or of the run's beginning. It takes no
    /// memory.
    pub fn last(&self) -> u64
        requires { self.now.failed ≡ false }
        ensures { IsLast E.kind E.meaning self.now.run self.now.part self.now.windows result }
    {
        self.body.last()
    }

    /// How many events were handed out to another part. It takes no memory.
    pub fn sent(&self, taker: u32) -> u128
        requires alive { self.now.failed ≡ false }
        requires part { taker < self.now.run.partition.parts }
        requires other { taker ≢ self.now.part }
        ensures { AreSent E.kind E.meaning self.now.run self.now.part taker (if slice_index_or self.now.handed taker true then self.now.windows else self.now.windows - 1) result }
    {
        self.sent[taker as usize]
    }
}
