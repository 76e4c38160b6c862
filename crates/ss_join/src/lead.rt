//! Who is handed what a run prints, while it runs.

ghost use Rattle.std.specs.Prelude.{◌≡◌, ◌≤◌, ℕ, Option, None};
ghost use Rattle.ss_graph.specs.declared.fault.LimitKind.{LimitKind};
ghost use Rattle.ss_join.specs.Cutting.{Seen, Told, Fails, limited};

use ss_graph::LimitKind;
use ss_model::Line;
use ss_piece::Piece;
use std::marker::Model;

/// Why a lead refuses a cut.
#[derive(Clone, Copy, Debug, PartialEq, Eq, Drop)]
pub enum LeadFault {
    /// What it hands the cut to failed.
    Failed,
    /// A quantity of this kind would pass its limit with this number.
    Limit(LimitKind, u64),
    /// No memory is left.
    NoMemory,
}

/// What a run hands out before its first window, between two windows, or at its end: the lines that it printed since the
/// cut before, in order; the times, in picoseconds and ascending, for which a checkpoint is asked at this cut; and the
/// pieces of all parts, in order, which make each of these checkpoints, where there is such a time.
#[derive(Drop)]
pub struct Cut {
    pub lines: Vec<Line>,
    pub saves: Vec<u64>,
    pub pieces: Vec<Piece>,
}

impl Model for Cut {
    ghost use Rattle.std.specs.Prelude.{map};
    ghost use Rattle.ss_piece.specs.Pieces.{slip};
    ghost use Rattle.ss_join.specs.Cutting.{Given};

    ghost Value = { Given };

    ghost view = { λ c. record { lines = c.lines.items; saves = c.saves.items; pieces = map slip c.pieces.items } };
}

/// Who is handed the cuts of a run, one by one.
pub trait Lead {
    /// The cuts that it accepted and the one that it refused, where it tells them.
    ghost seen: { Self → Option Seen };

    /// How often it failed.
    ghost faults: { Self → ℕ };

    /// The limit that it answered, if it answered one.
    ghost limit: { Self → Option (LimitKind × ℕ) };

    /// Accepts a cut, or refuses it. It answers `Failed` only where its count of faults rose in this call.
    fn cut(&mut self, cut: &Cut) -> Result<(), LeadFault>
        requires open { limit self.old ≡ None }
        ensures told { Told result cut.now (seen self.old) (seen self.new) }
        ensures faults { Fails result (faults self.old) (faults self.new) }
        ensures kept { faults self.old ≤ faults self.new }
        ensures limit { limit self.new ≡ limited result (limit self.old) };
}
