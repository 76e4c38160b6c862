//! Runs that go on from a state that an earlier run came to: they print exactly what that run had left to print, and end as it ends.
//! It has no code: its definitions stand in `specs/`.
#![tactic(auto)]

ghost use Rattle.ss_rest.specs.Rest.{RunsStand, RunsGoOn};
ghost use Rattle.ss_rest.specs.Restarts.{SavedRunsStand, RestartsPrintTheRest};

use ss_run::Simulated;

/// At each time between its beginning and its bound a run stands in a state, and a run goes on from it, with that time for its
/// beginning and the same stop time and exit period: there is such a run, and it ends at the same bound, by the same agreement, in
/// the same components, events and last time. The lines of the first run are those before the time and then those of the second,
/// whose final line is the same; and for equal options the first run's checkpoints after the time are those of the second, at the
/// same times and of the same states.
pub fn a_run_goes_on_with_the_rest<S, L>()
    ensures stands { RunsStand S L }
    ensures rest { RunsGoOn S L }
{}

/// A run of a graph that goes on from the state at which another run of it stood at a time, with the same stop time, prints exactly
/// the rest, in whatever parts either is run: what the first prints is its lines before that time and then what the later one
/// prints, the final line with them. Both end in the same state, and so with the same statistics, and where the same checkpoints
/// are asked for, those after that time are the same. Where a run has a checkpoint it stands so, at a time that a checkpoint may
/// have, after the last handled event.
pub fn a_restart_prints_the_rest<E: Simulated>()
    ensures stands { SavedRunsStand E.kind E.meaning }
    ensures rest { RestartsPrintTheRest E.kind E.meaning }
{}
