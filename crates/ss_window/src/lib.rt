//! Where a run that is divided into parts is cut: how far its parts may run before they exchange what they
//! sent to each other, when the run stops, and when a checkpoint is due. All times are in picoseconds, and
//! no call takes memory. The rules are this project's own.
#![tactic(auto)]

ghost use Rattle.std.specs.Prelude.{◌≡◌, ℕ, ◌+◌, ◌<◌, ◌≤◌, Bool, true, false, Option};
ghost use Rattle.ss_window.specs.Least.{IsLeast, IsFirst, IsMultiple, OnPeriod, Above};
ghost use Rattle.ss_window.specs.Cuts.{IsNamed, IsSave, MayEnd, MayStop, IsTime, IsSpan, SpanFits, CutsFit};

mod least;
#[cfg(test)]
mod tests;

use least::{earlier, multiple_above};

/// When a run begins and stops, how often its primaries are asked whether to end, and which checkpoints are
/// asked for.
#[derive(Clone, Copy, Debug, PartialEq, Eq)]
pub struct Cuts {
    /// The time at which the run stops at the latest.
    pub stop: u64,
    /// The time at which it begins.
    pub origin: u64,
    /// The period at whose multiples the primaries are asked. There is none without a primary.
    pub exit: Option<u64>,
    /// A time at which a checkpoint is asked for.
    pub save_at: Option<u64>,
    /// A period at whose multiples checkpoints are asked for.
    pub save_every: Option<u64>,
}

// The least time above another, no earlier than the beginning, for which a checkpoint is asked.
fn save_above(time: u64, cuts: &Cuts) -> Option<u64>
    requires time { IsTime time }
    requires cuts { CutsFit cuts.now }
    ensures { IsFirst (Above (IsNamed cuts.now) time) result }
{
    let named = match cuts.save_at {
        Some(at) if time < at => Some(at),
        _ => None,
    };
    earlier(named, multiple_above(cuts.save_every, time))
}

/// The end of the window that begins where the least time of a pending event is `least`: the least of
/// `least + look`, the bound, the least multiple of the exit period above `least`, and the least checkpoint
/// time above it. Where `least` is below the bound the window isn't empty.
pub fn next_cut(least: u64, look: u64, bound: u64, cuts: &Cuts) -> u64
    requires least { IsTime least }
    requires look { IsSpan look }
    requires bound { IsTime bound }
    requires cuts { CutsFit cuts.now }
    ensures end { IsLeast (MayEnd least look bound cuts.now) result }
    ensures above { least < bound → least < result }
    ensures near { result ≤ least + look }
{
    let near = (least + look).min(bound);
    let saved = save_above(least.max(cuts.origin), cuts);
    match earlier(multiple_above(cuts.exit, least), saved) {
        Some(time) => near.min(time),
        None => near,
    }
}

/// The bound of a run as far as it is known. While a primary isn't done (`done` is false) it is the stop
/// time. Once all are done it is the lesser of the stop time and the least multiple of the exit period above
/// `at`, the least pending time of the window in which the last of them was done, or the run's beginning
/// where all were done from there on.
pub fn stop_bound(done: bool, at: u64, cuts: &Cuts) -> u64
    requires at { IsTime at }
    requires cuts { CutsFit cuts.now }
    ensures running { done ≡ false → result ≡ cuts.now.stop }
    ensures agreed { done ≡ true → IsLeast (MayStop at cuts.now) result }
{
    if !done {
        return cuts.stop;
    }
    match multiple_above(cuts.exit, at) {
        Some(time) => cuts.stop.min(time),
        None => cuts.stop,
    }
}

/// The least checkpoint time that isn't below `at`. Checkpoint times are above the run's beginning. There is
/// none exactly where no such time is asked for.
pub fn next_save(at: u64, cuts: &Cuts) -> Option<u64>
    requires at { IsTime at }
    requires cuts { CutsFit cuts.now }
    ensures { IsFirst (λ t. IsSave cuts.now t × (at ≤ t)) result }
{
    save_above(cuts.origin.max(at.saturating_sub(1)), cuts)
}
