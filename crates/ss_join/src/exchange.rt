//! What the parts of a run tell each other between two windows.

ghost use Rattle.std.specs.Prelude.{◌≡◌, ◌<◌, ◌≤◌, OnOk};
ghost use Rattle.ss_join.specs.Between.{Point, AllBetween};

use ss_run::Simulated;
use ss_worker::Worker;
use std::alloc::AllocError;

// Hands the batches of one giver to all others.
fn exchange_from<E: Simulated>(
    workers: &mut Vec<Worker<E>>,
    parts: u32,
    giver: u32,
) -> Result<(), AllocError>
    ghost at: { Point }
    requires parts { parts ≡ at.run.partition.parts }
    requires giver { giver < parts }
    requires between { AllBetween at giver 0 workers.old.items }
    ensures { OnOk result (AllBetween at giver parts workers.new.items) }
{
    for taker in 0..parts {
        if taker != giver {
            let batch = workers[giver as usize].out_batch(taker);
            workers[taker as usize].take_in(batch)?;
        }
    }
    Ok(())
}

/// Hands each batch of the last window to its taker, giver by giver and taker by taker. It fails only where no memory
/// is left, and the workers may then only be let go.
pub fn exchange<E: Simulated>(workers: &mut Vec<Worker<E>>, parts: u32) -> Result<(), AllocError>
    ghost at: { Point }
    requires parts { parts ≡ at.run.partition.parts }
    requires between { AllBetween at 0 0 workers.old.items }
    ensures { OnOk result (AllBetween at parts 0 workers.new.items) }
{
    for giver in 0..parts {
        exchange_from(workers, parts, giver)?;
    }
    Ok(())
}
