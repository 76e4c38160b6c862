//! The report on a run's windows.

ghost use Rattle.std.specs.Prelude.{◌≡◌, ◌≤◌, ◌++◌, IfOk, OnOk};
ghost use Rattle.ss_run.specs.Run.{IsFitting};
ghost use Rattle.ss_library.specs.Kinds.{any_kind};
ghost use Rattle.ss_library.specs.Meaning.{any_meaning};
ghost use Rattle.ss_worker.specs.Place.{AllStandAt, StandsAt};
ghost use Rattle.ss_top.specs.Report.{Has, IsReport, Lists, pair_line, windows_line};

use ss_library::Any;
use ss_run::RunSpec;
use ss_units::push_decimal;
use ss_worker::Worker;
use std::alloc::{AllocError, Global};

#[tactic(auto, unfolding(crate::specs::Report::windows_line))]
fn push_windows(text: &mut Vec<u8>, windows: u64) -> Result<(), AllocError>
    ensures { OnOk result (text.new.items ≡ text.old.items ++ windows_line windows) }
{
    text.extend_from_slice(b"windows ")?;
    push_decimal(text, windows as u128)?;
    text.extend_from_slice(b"\n")
}

/// Writes the line of a giver and a taker.
#[tactic(auto, unfolding(crate::specs::Report::pair_line))]
fn push_pair(
    text: &mut Vec<u8>,
    giver: u32,
    taker: u32,
    windows: u64,
    events: u128,
) -> Result<(), AllocError>
    ensures { OnOk result (text.new.items ≡ text.old.items ++ pair_line giver taker windows events) }
{
    push_decimal(text, giver as u128)?;
    text.extend_from_slice(b" ")?;
    push_decimal(text, taker as u128)?;
    text.extend_from_slice(b" batches ")?;
    push_decimal(text, windows as u128)?;
    text.extend_from_slice(b" events ")?;
    push_decimal(text, events)?;
    text.extend_from_slice(b"\n")
}

/// Writes the lines of a giver, one for each other part as taker.
fn push_giver(
    text: &mut Vec<u8>,
    worker: &Worker<Any>,
    giver: u32,
    parts: u32,
    windows: u64,
) -> Result<(), AllocError>
    requires fitting { IsFitting any_kind any_meaning worker.now.run }
    requires parts { worker.now.run.partition.parts ≡ parts }
    requires stands { StandsAt worker.now.run giver windows worker.now }
    ensures { OnOk result (Lists worker.now.run windows giver parts text.old.items text.new.items) }
{
    for taker in 0..parts {
        if taker != giver {
            push_pair(text, giver, taker, windows, worker.sent(taker))?;
        }
    }
    Ok(())
}

/// The report of a run, from its workers after its last window.
pub fn report_of(
    alloc: Global,
    run: &RunSpec,
    workers: &[Worker<Any>],
    windows: u64,
) -> Result<Vec<u8>, AllocError>
    requires fitting { IsFitting any_kind any_meaning run.now }
    requires few { run.now.partition.parts ≤ 32 }
    requires stand { AllStandAt run.now windows workers.now }
    requires windows { Has run.now windows }
    ensures { IfOk result (λ v. IsReport run.now v.items) }
{
    let mut text = Vec::new(alloc);
    push_windows(&mut text, windows)?;
    let parts = workers.len() as u32;
    for (giver, worker) in workers.iter().enumerate() {
        push_giver(&mut text, worker, giver as u32, parts, windows)?;
    }
    Ok(text)
}
