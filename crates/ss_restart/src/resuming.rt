//! The workers of a run that goes on from a saved state.

ghost use Rattle.std.specs.Prelude.{◌≡◌, IfOk, IfErr, OnOk};
ghost use Rattle.ss_ckpt.specs.Views.{state_of};
ghost use Rattle.ss_safe.specs.Sound.{Sound};
ghost use Rattle.ss_worker.specs.Place.{AllStandAt};
ghost use Rattle.ss_restart.specs.declared.fault.RestartFault.TheVariants as fault;
ghost use Rattle.ss_restart.specs.Faults.{IsSpelled};
ghost use Rattle.ss_restart.specs.Resuming.{Resumes, Refuses};

use crate::fault::RestartFault;
use crate::judging::sound;
use ss_ckpt::Saved;
use ss_run::{RunId, Simulated};
use ss_safe::Local;
use ss_worker::{Worker, workers_of};
use std::alloc::Global;

/// The workers of a run's parts, in order, at the saved state from which the run begins, or the first fault of that state as
/// `sound` tells it. It needs a state that some bytes spell over a model that was made, and a run that begins with that state
/// and fits where the state is sound. Which parts the run has is the run's own: nothing of those under which the state was
/// saved enters. `NoMemory` comes only where no memory was left.
pub fn resume<E: Simulated + Local>(
    alloc: Global,
    saved: Saved<E>,
    run: RunId,
) -> Result<Vec<Worker<E>>, RestartFault>
    requires spelled { IsSpelled E.kind E.allowed E.saving saved.model.wires saved.time (state_of saved) }
    requires resumes { Resumes E.kind E.meaning run.value saved.model.wires saved.time (state_of saved) }
    ensures workers { IfOk result (λ ws. AllStandAt run.value 0 ws.items) }
    ensures sound { OnOk result (Sound E.kind saved.model.wires saved.time (state_of saved)) }
    ensures first { IfErr result (Refuses E.kind saved.model.wires saved.time (state_of saved)) }
{
    sound(&saved)?;
    let Saved {
        time: _,
        last,
        model,
        events,
    } = saved;
    let workers = workers_of(alloc, model, events, last, run)?;
    Ok(workers)
}
