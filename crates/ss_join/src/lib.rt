//! A run in parts, whose windows are joined: in each window all parts run up to its end, on several threads, and then
//! exchange what they sent to each other.
#![tactic(auto)]

ghost use Rattle.std.specs.Prelude.{◌≡◌, ◌≤◌, None, OnOk, IfOk};
ghost use Rattle.ss_join.specs.Cutting.{Fails, limited};
ghost use Rattle.ss_run.specs.declared.RunSpec.{RunSpec};
ghost use Rattle.ss_run.specs.Run.{IsFitting};
ghost use Rattle.ss_worker.specs.Place.{AllStandAt};
ghost use Rattle.ss_join.specs.declared.lead.LeadFault.TheVariants.{NoMemory};
ghost use Rattle.ss_join.specs.Cutting.{Seen};
ghost use Rattle.ss_join.specs.Joined.{Answers, Begins, Blames, limit_after, none_refused};

mod copying;
mod exchange;
mod lead;
mod window;

pub use lead::{Cut, Lead, LeadFault};
use ss_run::Simulated;
use ss_worker::Worker;
use std::alloc::Global;
use std::thread::Threads;
use window::{advance, ending, is_left, opening};

/// How a run ended: the time that its final line tells, in picoseconds, and how many windows it had.
#[derive(Clone, Copy, Debug, PartialEq, Eq)]
pub struct Ending {
    pub time: u64,
    pub windows: u64,
}

// Hands out what is to be handed out before the first window.
fn begin<E: Simulated, D: Lead>(
    alloc: Global,
    workers: &Vec<Worker<E>>,
    lead: &mut D,
) -> Result<(), LeadFault>
    ghost run: { RunSpec }
    requires fits { IsFitting E.kind E.meaning run }
    requires workers { AllStandAt run 0 workers.now.items }
    requires open { D.limit lead.old ≡ None }
    requires unrefused { none_refused (D.seen lead.old) ≡ None }
    ensures begins { Begins E.kind E.saving E.meaning run result (D.seen lead.old) (D.seen lead.new) }
    ensures fails { Fails result (D.faults lead.old) (D.faults lead.new) }
    ensures kept { D.faults lead.old ≤ D.faults lead.new }
    ensures limit { D.limit lead.new ≡ limited result (D.limit lead.old) }
{
    let Ok(cut) = opening(alloc, workers) else {
        return Err(LeadFault::NoMemory);
    };
    match cut {
        Some(cut) => lead.cut(&cut),
        None => Ok(()),
    }
}

/// Runs a run's workers from its beginning to its end, each window on at most `hosts` threads, and hands the lines and
/// the checkpoints to the lead, window by window; before the first window only where a checkpoint is asked for there.
/// The lines of all cuts are those of the run of one ordered list of events, each of its checkpoints stands in a cut
/// (or 1,025 earlier ones between the same events), whose pieces make it, and the workers then stand at its end, with
/// nothing missing. After a fault the lines and the checkpoints that the lead accepted, and behind them those of the cut
/// that it refused, are a beginning of them, and the workers may only be let go. Where it answers `Failed` or `Limit`,
/// the lead answered so in this call.
pub fn run_joined<T: Threads + Sync, E: Simulated + Send, D: Lead>(
    rt: &T,
    alloc: Global,
    workers: &mut Vec<Worker<E>>,
    hosts: u32,
    lead: &mut D,
) -> Result<Ending, LeadFault>
where
    E::Load: Send,
    ghost run: { RunSpec }
    requires hosts { 1 ≤ hosts }
    requires fits { IsFitting E.kind E.meaning run }
    requires workers { AllStandAt run 0 workers.old.items }
    requires open { D.limit lead.old ≡ None }
    requires unrefused { none_refused (D.seen lead.old) ≡ None }
    ensures answers { Answers E.kind E.saving E.meaning run result (D.seen lead.old) (D.seen lead.new) }
    ensures stand { IfOk result (λ e. AllStandAt run e.windows workers.new.items) }
    ensures blames { Blames result (D.faults lead.old) (D.faults lead.new) }
    ensures kept { D.faults lead.old ≤ D.faults lead.new }
    ensures limit { D.limit lead.new ≡ limit_after result }
{
    begin(alloc, workers, lead)?;
    while is_left(workers) {
        let Ok(cut) = advance(rt, alloc, workers, hosts) else {
            return Err(LeadFault::NoMemory);
        };
        lead.cut(&cut)?;
    }
    Ok(ending(workers))
}
