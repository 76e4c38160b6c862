//! Batches of events, one for each part.

ghost use Rattle.std.specs.Prelude.{◌≡◌, ℕ, [], map, IfOk};
ghost use Rattle.ss_worker.specs.Batched.{AllEmpty, AreBatches};

use crate::mail::destination;
use ss_element::Wires;
use ss_model::Event;
use std::alloc::{AllocError, Global};

// So many empty batches.
fn no_batches<L: Copy + Drop>(alloc: Global, parts: u32) -> Result<Vec<Vec<Event<L>>>, AllocError>
    ensures { IfOk result (λ b. AllEmpty parts (map (λ batch. batch.items) b.items)) }
{
    let mut batches = Vec::new(alloc);
    let mut left = parts;
    while left > 0 {
        left -= 1;
        batches.push(Vec::new(alloc))?;
    }
    Ok(batches)
}

/// A batch for each of so many parts, with the events that go to it, in their order. What goes to no such part is
/// left out.
pub fn sort_out<L: Copy + Drop>(
    alloc: Global,
    wires: &Wires,
    owners: &[u32],
    parts: u32,
    events: Vec<Event<L>>,
) -> Result<Vec<Vec<Event<L>>>, AllocError>
    ensures { IfOk result (λ b. AreBatches wires.now owners.now parts events.items (map (λ batch. batch.items) b.items)) }
{
    let mut batches = no_batches(alloc, parts)?;
    for event in events {
        let to = destination(wires, owners, event.key) as usize;
        if to < batches.len() {
            batches[to].push(event)?;
        }
    }
    Ok(batches)
}
