//! What a part has for others when it has run to the end of a window.

ghost use Rattle.std.specs.Prelude.{◌≡◌, ◌≢◌, ◌<◌, ◌≤◌, ◌^◌, [], map, option_map, slice_index_or, if◌then◌else◌, ◌==◌, All, None, IfOk, ℕ, length, true, false};
ghost use Rattle.ss_window.specs.Cuts.{IsTime, CutsFit};
ghost use Rattle.ss_parts.specs.Division.{part_idle};
ghost use Rattle.ss_piece.specs.Pieces.{slip};
ghost use Rattle.ss_worker.specs.Standing.{CanRunTo, RunsTo};
ghost use Rattle.ss_worker.specs.Saves.{IsDue, IsHanded, Hands};
ghost use Rattle.ss_worker.specs.Told.{Tells};
ghost use Rattle.ss_worker.specs.Sound.{named};
ghost use Rattle.ss_worker.specs.Outgoing.{earliest as earliest_of, Leaves, AreNamed};

use crate::Part;
use crate::batch::Batch;
use crate::known::sooner;
use ss_element::{Element, Wires};
use ss_model::{Event, Line};
use ss_piece::Piece;
use ss_run::{RunId, Simulated};
use ss_window::{Cuts, next_save};
use std::alloc::{AllocError, Global};
use std::mem;
use std::sync::Arc;

/// The least time of an event that is to come for the part, or that it sent in the window; whether all its primaries
/// are done; the lines that it printed; the events that it sent, a batch for each part; and its piece, where a
/// checkpoint is due as far as the part knows.
#[derive(Drop)]
pub struct Outgoing<L> {
    pub next: Option<u64>,
    pub idle: bool,
    pub lines: Vec<Line>,
    pub batches: Vec<Vec<Event<L>>>,
    pub piece: Option<Piece>,
}

// The least time of events.
fn earliest<L>(events: &[Event<L>]) -> Option<u64>
    ensures { result ≡ earliest_of events.now }
{
    let mut least = None;
    let mut place = events.len();
    while place > 0 {
        place -= 1;
        least = sooner(Some(events[place].key.time), least);
    }
    least
}

// Whether none of the elements keeps the run going.
fn is_idle<E: Element>(elements: &[(u32, E)]) -> bool
    ensures { result ≡ part_idle E.kind elements.now }
{
    elements.iter().all(|x| !x.1.is_primary() || x.1.is_done())
}

// Whether a checkpoint is asked for at a time that isn't before one, nor after another if there is one.
fn is_due(time: u64, next: Option<u64>, cuts: &Cuts) -> bool
    requires time { IsTime time }
    requires cuts { CutsFit cuts.now }
    ensures due { result ≡ true → (t : ℕ) × IsDue cuts.now time next t }
    ensures not { result ≡ false → (t : ℕ) → IsDue cuts.now time next t → ⊥ }
{
    match (next_save(time, cuts), next) {
        (Some(save), Some(next)) => save <= next,
        (Some(_), None) => true,
        (None, _) => false,
    }
}

// The piece of a part that has run to a time, where a checkpoint is due from there to the least time of an event that
// the part knows of.
fn due_piece<E: Element>(
    body: &Part<E>,
    time: u64,
    next: Option<u64>,
    cuts: &Cuts,
) -> Result<Option<Piece>, AllocError>
    requires time { IsTime time }
    requires cuts { CutsFit cuts.now }
    requires begun { All (λ x. E.kind.begun x.1 ≡ true) body.now.part.state }
    ensures { IfOk result (λ o. IsHanded E.saving cuts.now time next body.now (option_map slip o)) }
{
    if is_due(time, next, cuts) {
        let piece = body.piece()?;
        Ok(Some(piece))
    } else {
        Ok(None)
    }
}

/// Runs a part to a time, and hands over what it sent and printed, and its piece where a checkpoint is due by `cuts`. It
/// fails only where no memory is left, and then nothing is known of the part.
pub fn run_window<E: Element>(
    body: &mut Part<E>,
    wires: &Wires,
    owners: &[u32],
    part: u32,
    parts: u32,
    time: u64,
    cuts: &Cuts,
) -> Result<Outgoing<E::Load>, AllocError>
    requires early { time ≤ 2 ^ 62 }
    requires cuts { CutsFit cuts.now }
    requires can { CanRunTo E.kind wires.now owners.now part time body.old }
    requires begun { (ends : _) → RunsTo E.kind wires.now owners.now part time body.old ends → All (λ x. E.kind.begun x.1 ≡ true) ends.part.state }
    ensures { IfOk result (λ o. Leaves E.kind E.saving wires.now owners.now part cuts.now parts time body.old body.new o.next o.idle o.lines.items (map (λ batch. batch.items) o.batches.items) (option_map slip o.piece)) }
{
    body.run_to(wires, owners, part, time)?;
    let next = sooner(body.next_time(), earliest(body.out()));
    let idle = is_idle(body.elements());
    let piece = due_piece(body, time, next, cuts)?;
    let lines = body.take_lines();
    let batches = body.hand_out(wires, owners, parts)?;
    Ok(Outgoing {
        next,
        idle,
        lines,
        batches,
        piece,
    })
}

// A batch of a run.
fn batch_of<E: Simulated>(
    run: &RunId,
    giver: u32,
    taker: u32,
    number: u64,
    next: Option<u64>,
    done: bool,
    events: Vec<Event<E::Load>>,
    lines: Vec<Line>,
    piece: Option<Piece>,
) -> Result<Batch<E>, AllocError>
    requires low { number < 2 ^ 62 }
    requires told { Tells E.kind E.meaning run.now.value giver taker number next done events.items lines.items }
    requires hands { Hands E.kind E.saving E.meaning run.now.value giver taker number (option_map slip piece) }
    ensures { IfOk result (λ b. named b.run.value b.giver b.taker b.number ≡ named run.now.value giver taker number) }
{
    Ok(Batch {
        run: Arc::try_clone(run)?,
        giver,
        taker,
        number,
        next,
        done,
        events,
        lines,
        piece,
    })
}

// The lines go to part 0 alone.
fn lines_for(alloc: Global, taker: u32, lines: &mut Vec<Line>) -> Vec<Line>
    ensures { result.items ≡ (if taker == 0 then lines.old.items else []) }
{
    if taker == 0 {
        mem::replace(lines, Vec::new(alloc))
    } else {
        Vec::new(alloc)
    }
}

/// The piece goes to part 0 alone.
pub fn piece_for(taker: u32, piece: &mut Option<Piece>) -> Option<Piece>
    ensures piece { option_map slip result ≡ (if taker == 0 then option_map slip piece.old else None) }
    ensures rest { (taker ≡ 0 → ⊥) → piece.new ≡ piece.old }
{
    if taker == 0 { piece.take() } else { None }
}

/// The batches of a part, which has run to the end of the window of a number: for each other part one, and nothing
/// for itself. It fails only where no memory is left.
pub fn batches_of<E: Simulated>(
    alloc: Global,
    run: &RunId,
    part: u32,
    number: u64,
    parts: u32,
    mut outgoing: Outgoing<E::Load>,
) -> Result<Vec<Option<Batch<E>>>, AllocError>
    requires low { number < 2 ^ 62 }
    requires count { length outgoing.batches.items ≡ parts }
    requires told { (q : ℕ) → q < parts → q ≢ part → Tells E.kind E.meaning run.now.value part q number outgoing.next outgoing.idle (slice_index_or (map (λ batch. batch.items) outgoing.batches.items) q []) (if q == 0 then outgoing.lines.items else []) }
    requires hands { (q : ℕ) → q < parts → q ≢ part → Hands E.kind E.saving E.meaning run.now.value part q number (if q == 0 then option_map slip outgoing.piece else None) }
    ensures { IfOk result (λ bs. AreNamed run.now.value part number parts (map (λ b. option_map (λ b. named b.run.value b.giver b.taker b.number) b) bs.items)) }
{
    let mut batches = Vec::new(alloc);
    for taker in 0..parts {
        if taker == part {
            batches.push(None)?;
            continue;
        }
        let events = mem::replace(&mut outgoing.batches[taker as usize], Vec::new(alloc));
        let lines = lines_for(alloc, taker, &mut outgoing.lines);
        let piece = piece_for(taker, &mut outgoing.piece);
        let batch = batch_of(
            run,
            part,
            taker,
            number,
            outgoing.next,
            outgoing.idle,
            events,
            lines,
            piece,
        )?;
        batches.push(Some(batch))?;
    }
    Ok(batches)
}
