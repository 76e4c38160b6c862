//! Running the workers of a run that is at hand.

ghost use Rattle.std.specs.Prelude.{◌≡◌, ◌≤◌, None, IfOk};
ghost use Rattle.ss_run.specs.Run.{IsFitting};
ghost use Rattle.ss_worker.specs.Place.{AllStandAt};
ghost use Rattle.ss_join.specs.Joined.{Answers, none_refused};

use ss_join::{Ending, Lead, LeadFault, run_joined};
use ss_run::{RunSpec, Simulated};
use ss_worker::Worker;
use std::alloc::Global;
use std::thread::Threads;

/// Runs the workers of a run from its beginning to its end, as `run_joined` does.
pub fn join_workers<T: Threads + Sync, E: Simulated + Send, D: Lead>(
    rt: &T,
    alloc: Global,
    run: &RunSpec,
    workers: &mut Vec<Worker<E>>,
    hosts: u32,
    lead: &mut D,
) -> Result<Ending, LeadFault>
where
    E::Load: Send,
    requires hosts { 1 ≤ hosts }
    requires fits { IsFitting E.kind E.meaning run.now }
    requires workers { AllStandAt run.now 0 workers.old.items }
    requires open { D.limit lead.old ≡ None }
    requires unrefused { none_refused (D.seen lead.old) ≡ None }
    ensures answers { Answers E.kind E.saving E.meaning run.now result (D.seen lead.old) (D.seen lead.new) }
    ensures stand { IfOk result (λ e. AllStandAt run.now e.windows workers.new.items) }
{
    run_joined(rt, alloc, workers, hosts, lead)
}
