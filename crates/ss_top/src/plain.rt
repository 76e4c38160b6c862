//! The run of a graph from its start by the plain engine, as one part.

ghost use Rattle.std.specs.Prelude.{◌≡◌, ◌<◌, ◌≤◌, ◌^◌, ◌∷◌, [], length, IfOk, None};
ghost use Rattle.ss_cmd.specs.Grammar.{AreInRange};
ghost use Rattle.ss_graph.specs.Fit.{IsFit};
ghost use Rattle.ss_library.specs.Kinds.{any_safe};
ghost use Rattle.ss_library.specs.Make.{model_of};
ghost use Rattle.ss_model.specs.Step.{opening};
ghost use Rattle.ss_run.specs.declared.Origin.TheVariants as origin;
ghost use Rattle.ss_top.specs.Asked.{run_of};
ghost use Rattle.ss_top.specs.Left.{Working};
ghost use Rattle.ss_top.specs.Plain.{IsPlain, Runs};
ghost use Rattle.ss_top.specs.Simulate.{HasRun};
ghost use Rattle.std.specs.Prelude.{List, IsTrue, ◌↔◌};

use crate::printed::{End, Printed};
use crate::sheets::stats_sheet;
use ss_cmd::RunOptions;
use ss_element::{Line, Model};
use ss_join::Cut;
use ss_library::Any;
use ss_run::RunSpec;
use ss_serial::Serial;
use std::alloc::{AllocError, Global};
use std::sync::Arc;

/// The lines of a run, the time that its final line tells, and the simulation as the run left it.
#[derive(Drop)]
struct Simulated {
    lines: Vec<Line>,
    time: u64,
    serial: Serial<Any>,
}

/// Runs a model from its start.
fn run_model(
    alloc: Global,
    model: Model<Any>,
    stop: u64,
    exit: u64,
) -> Result<Simulated, AllocError>
    requires few { length model.elements.items < 2 ^ 32 }
    requires early { stop ≤ 2 ^ 62 }
    requires exits { (1 ≤ exit) × (exit ≤ 2 ^ 40) }
    requires safe { any_safe model.wires 0 (opening model.elements.items) }
    ensures { IfOk result (λ r. Runs (record { elements = model.elements.items; wires = model.wires }) (record { origin = 0; stop = stop; exit = exit }) r.lines.items r.time r.serial.state.components) }
{
    let mut serial = Serial::start(alloc, model)?;
    let time = serial.run(0, stop, exit)?;
    let lines = serial.take_lines();
    Ok(Simulated {
        lines,
        time,
        serial,
    })
}

/// Lines as one cut, without checkpoints.
fn lines_alone(alloc: Global, lines: Vec<Line>) -> Result<Vec<Cut>, AllocError>
    ensures { IfOk result (λ v. v.items ≡ record { lines = lines.items; saves = []; pieces = [] } ∷ []) }
{
    let mut cuts = Vec::new(alloc);
    cuts.push(Cut {
        lines,
        saves: Vec::new(alloc),
        pieces: Vec::new(alloc),
    })?;
    Ok(cuts)
}

/// Whether the plain engine serves: as one part, without a report and without checkpoints.
pub fn is_plain(options: &RunOptions, parts: u32) -> bool
    ensures { IsTrue result ↔ IsPlain options.now parts }
{
    parts == 1
        && options.sync_report.is_none()
        && options.checkpoint_at.is_none()
        && options.checkpoint_period.is_none()
}

/// Runs what options ask for from its start, as one part.
pub fn run_plain(
    alloc: Global,
    spec: RunSpec,
    model: Model<Any>,
    options: &RunOptions,
) -> Result<Printed, AllocError>
    requires asked { spec ≡ run_of spec.graph origin.Start options.now spec.partition.parts }
    requires plain { IsPlain options.now spec.partition.parts }
    requires early { AreInRange options.now }
    requires fit { IsFit spec.graph }
    requires made { record { elements = model.elements.items; wires = model.wires } ≡ model_of spec.graph }
    requires few { length model.elements.items < 2 ^ 32 }
    requires safe { any_safe model.wires 0 (opening model.elements.items) }
    ensures { (workers : List Working) → IfOk result (HasRun spec.graph origin.Start options.now spec.partition.parts workers) }
{
    let stop = spec.cuts.stop;
    let exit = spec.graph.options.exit_period;
    let simulated = run_model(alloc, model, stop, exit)?;
    let elements = simulated.serial.elements();
    let sheets = stats_sheet(alloc, &options.stats, &spec.graph, elements)?;
    Ok(Printed {
        prefix: options.checkpoint_prefix.copy(alloc)?,
        cuts: lines_alone(alloc, simulated.lines)?,
        end: End::Complete {
            time: simulated.time,
            sheets,
        },
        run: Arc::new(alloc, spec)?,
    })
}
