//! The options.

ghost use Rattle.std.specs.Prelude.{◌≡◌, ◌≤◌, Some, option_map, codes};
ghost use Rattle.serde_json.specs.View.{view};
ghost use Rattle.ss_graph.specs.Checks.{Judged};
ghost use Rattle.ss_graph.specs.Faults.{is_memory};
ghost use Rattle.ss_graph.specs.Options.{time_checks, time_or, the, options_checks, options_of};

use crate::fault::GraphFault;
use crate::graph::Options;
use serde_json::Value;
use ss_units::{Text, ps_of};
use std::alloc::Global;

/// The time under a member that may be there.
#[tactic(auto, unfolding(crate::specs::Checks::first_fault, crate::specs::Options::time_checks))]
fn time_at(
    alloc: Global,
    member: Option<&Value>,
    place: &str,
    default: u64,
    least: u64,
    most: u64,
) -> Result<u64, GraphFault>
    ensures { Judged is_memory (λ t. t) result (time_checks place.now default least most (option_map (λ v. view v.now) member.entry)) (the (time_or default least most (option_map (λ v. view v.now) member.entry))) }
{
    let Some(value) = member else {
        return Ok(default);
    };
    let Some(text) = value.as_str() else {
        return Err(GraphFault::Form(Text::new(alloc, place)?));
    };
    if let Ok(time) = ps_of(text.as_bytes()) {
        if least <= time && time <= most {
            return Ok(time);
        }
    }
    Err(GraphFault::Unit(Text::new(alloc, place)?))
}

/// The options of a graph.
#[tactic(auto, using(crate::proofs::Judging::first_fault_append), unfolding(crate::specs::Checks::first_fault, crate::specs::Options::time_checks, crate::specs::Options::options_checks))]
pub fn options_at(alloc: Global, value: &Value) -> Result<Options, GraphFault>
    ensures { Judged is_memory (λ o. o) result (options_checks (view value.now)) (options_of (view value.now)) }
{
    let Some(options) = value.get("program_options") else {
        return Ok(Options {
            stop_at: 1 << 62,
            exit_period: 1_000_000,
        });
    };
    if !options.is_object() {
        return Err(GraphFault::Form(Text::new(alloc, "program_options")?));
    }
    let stop = time_at(
        alloc,
        options.get("stop-at"),
        "program_options.stop-at",
        0,
        0,
        1 << 62,
    )?;
    let exit_period = time_at(
        alloc,
        options.get("exit-period"),
        "program_options.exit-period",
        1_000_000,
        1,
        1 << 40,
    )?;
    let stop_at = if stop == 0 { 1 << 62 } else { stop };
    Ok(Options {
        stop_at,
        exit_period,
    })
}
