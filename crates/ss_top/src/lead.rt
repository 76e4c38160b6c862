//! Gathering what a run prints and puts.

ghost use Rattle.std.specs.Prelude.{◌≡◌, [], None, min, ◌^◌, ◌-◌, sum_by, length};

use ss_graph::LimitKind;
use ss_join::{Cut, Lead, LeadFault};
use std::alloc::Global;

/// How many checkpoints a run may have.
pub const MOST_KEPT: u64 = 1_024;

/// Keeps what a run hands out, cut by cut, until it has more checkpoints than a run may have.
#[derive(Drop)]
pub struct Gatherer {
    alloc: Global,
    pub cuts: Vec<Cut>,
    /// The cut with which there are too many checkpoints.
    pub refused: Option<Cut>,
    /// How many checkpoints the cuts have.
    count: u64,
}

impl Gatherer {
    /// Nothing so far. It takes no memory.
    pub fn new(alloc: Global) -> Gatherer
        ensures cuts { result.cuts.items ≡ [] }
        ensures refused { result.refused ≡ None }
    {
        Gatherer {
            alloc,
            cuts: Vec::new(alloc),
            refused: None,
            count: 0,
        }
    }
}

impl Lead for Gatherer {
    ghost use Rattle.std.specs.Prelude.{Option, Some, None, option_map};
    ghost use Rattle.ss_graph.specs.declared.fault.LimitKind.TheVariants as limit;
    ghost use Rattle.ss_join.specs.Cutting.{Seen};

    ghost seen = { λ g. Some (record { accepted = g.cuts.items; refused = g.refused }) };

    ghost faults = { λ g. 0 };

    ghost limit = { λ g. option_map (λ c. (limit.Checkpoints, 1025)) g.refused };

    fn cut(&mut self, cut: &Cut) -> Result<(), LeadFault> {
        let Ok(copy) = cut.copy(self.alloc) else {
            return Err(LeadFault::NoMemory);
        };
        let count = self.count.saturating_add(cut.saves.len() as u64);
        if count > MOST_KEPT {
            self.refused = Some(copy);
            return Err(LeadFault::Limit(LimitKind::Checkpoints, MOST_KEPT + 1));
        }
        match self.cuts.push(copy) {
            Ok(()) => {
                self.count = count;
                Ok(())
            }
            Err(_) => Err(LeadFault::NoMemory),
        }
    }
}

/// How many checkpoints cuts have, as far as a number of 64 bits tells.
pub fn count_of(cuts: &[Cut]) -> u64
    ensures { result ≡ min (sum_by (λ c. length c.saves) cuts.now) (2 ^ 64 - 1) }
{
    let mut total = 0u64;
    for cut in cuts {
        total = total.saturating_add(cut.saves.len() as u64);
    }
    total
}
