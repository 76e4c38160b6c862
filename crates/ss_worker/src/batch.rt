//! What one part tells another after a window.

ghost use Rattle.std.specs.Prelude.{◌≡◌, ◌<◌, ◌^◌, option_map};
ghost use Rattle.ss_piece.specs.Pieces.{slip};
ghost use Rattle.ss_worker.specs.Told.{Tells};
ghost use Rattle.ss_worker.specs.Saves.{Hands};

use ss_model::{Event, Line};
use ss_piece::Piece;
use ss_run::{RunId, Simulated};

/// What the giver tells the taker after the giver's window of a number: the least time among the events that are to
/// come in its part and those that it sent in this window, in picoseconds; whether all its primaries are done; the
/// events that it sent to the taker, in the order of sending; and, to part 0 alone, the lines that it printed, and its
/// piece where a checkpoint is asked for at a time that isn't before the window's end, nor after the least time that it
/// tells. What it sent in the window counts as the giver's in that piece. The type keeps that all this is so in the run
/// that the batch names.
#[derive(Drop)]
pub struct Batch<E: Simulated> {
    pub run: RunId,
    pub giver: u32,
    pub taker: u32,
    pub number: u64,
    pub next: Option<u64>,
    pub done: bool,
    pub events: Vec<Event<E::Load>>,
    pub lines: Vec<Line>,
    pub piece: Option<Piece>,
    pub ghost low: { number < 2 ^ 62 },
    pub ghost told: { ∥ Tells E.kind E.meaning run.value giver taker number next done events.items lines.items ∥₁ },
    pub ghost hands: { ∥ Hands E.kind E.saving E.meaning run.value giver taker number (option_map slip piece) ∥₁ },
}
