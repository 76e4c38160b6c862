//! What a part knows of its run.

ghost use Rattle.std.specs.Prelude.{◌≡◌, ◌≤◌, ◌^◌, ◌||◌, is_some, if◌then◌else◌, IfOk};
ghost use Rattle.ss_window.specs.Cuts.{IsSpan, IsTime, CutsFit};
ghost use Rattle.ss_window.specs.Least.{IsFirst};
ghost use Rattle.ss_theory.specs.Rounds.{sooner as sooner_of};
ghost use Rattle.ss_worker.specs.Knowing.{KnownFits, since_of, bound_of, next_window, hearing, behind as behind_of, agrees_by};
ghost use Rattle.ss_worker.specs.Saves.{AreFirst, IsKnownSave};

use crate::stage::Window;
use ss_window::{Cuts, next_cut, next_save, stop_bound};
use std::alloc::{AllocError, Global};

/// The most checkpoint times that are told at once.
const MOST_SAVES: u32 = 1025;

/// What a part knows of its run beside its own state. Times are in picoseconds.
#[derive(Clone, Copy)]
pub struct Known {
    /// The least time of an event that was to come in any part when the last window began.
    pub begun: Option<u64>,
    /// Since when all primaries were done then, if they were.
    pub since: Option<u64>,
    /// The least time that a part told of an event that is to come.
    pub next: Option<u64>,
    /// Whether all parts that told it are done.
    pub idle: bool,
}

/// The lesser of two times that may be absent.
pub fn sooner(a: Option<u64>, b: Option<u64>) -> Option<u64>
    ensures { result ≡ sooner_of a b }
{
    match (a, b) {
        (Some(a), Some(b)) => Some(a.min(b)),
        (Some(a), None) => Some(a),
        (None, b) => b,
    }
}

impl Known {
    /// Since when all primaries are done, if they are.
    fn since_when(&self) -> Option<u64>
        ensures { result ≡ since_of self.now }
    {
        match self.since {
            Some(time) => Some(time),
            None => { if self.idle { self.begun } else { None } }
        }
    }

    /// The run's bound, as far as it is known.
    pub fn bound(&self, cuts: &Cuts) -> u64
        requires { KnownFits self.now cuts.now }
        ensures { result ≡ bound_of cuts.now self.now }
    {
        match self.since_when() {
            Some(time) => stop_bound(true, time, cuts),
            None => stop_bound(false, 0, cuts),
        }
    }

    /// The window of a number that begins now, unless nothing is to come before the bound.
    pub fn window(&self, number: u64, look: u64, cuts: &Cuts) -> Option<Window>
        requires fits { KnownFits self.now cuts.now }
        requires look { IsSpan look }
        ensures { result ≡ next_window self.now number look cuts.now }
    {
        let bound = self.bound(cuts);
        let least = self.next?;
        if least >= bound {
            return None;
        }
        let upto = next_cut(least, look, bound, cuts);
        Some(Window {
            number,
            least,
            upto,
        })
    }

    /// Takes in what another part tells: the least time of an event that is to come for it, and whether it is done.
    pub fn hear(&mut self, next: Option<u64>, idle: bool)
        ensures { self.new ≡ hearing self.old next idle }
    {
        self.next = sooner(self.next, next);
        self.idle = self.idle && idle;
    }

    /// What is known behind a window of the part alone: what it tells of itself.
    pub fn behind(&self, next: Option<u64>, idle: bool) -> Known
        ensures { result ≡ behind_of self.now next idle }
    {
        Known {
            begun: self.next,
            since: self.since_when(),
            next,
            idle,
        }
    }

    /// The first checkpoint time that isn't before a time, if it isn't after the first event that is to come and is below
    /// the bound.
    pub fn save_from(&self, from: u64, cuts: &Cuts) -> Option<u64>
        requires fits { KnownFits self.now cuts.now }
        requires from { IsTime from }
        ensures { IsFirst (IsKnownSave cuts.now self.now from) result }
    {
        let next = self.next?;
        let save = next_save(from, cuts)?;
        if save <= next && save < self.bound(cuts) {
            Some(save)
        } else {
            None
        }
    }

    /// The first of these checkpoint times, in ascending order: all, or 1,025. It fails only where no memory is left.
    pub fn saves(&self, alloc: Global, from: u64, cuts: &Cuts) -> Result<Vec<u64>, AllocError>
        requires fits { KnownFits self.now cuts.now }
        requires from { IsTime from }
        ensures { IfOk result (λ ts. AreFirst (IsKnownSave cuts.now self.now from) 1025 ts.items) }
    {
        let mut times = Vec::new(alloc);
        let mut at = from;
        for _ in 0..MOST_SAVES {
            let Some(save) = self.save_from(at, cuts) else {
                return Ok(times);
            };
            times.push(save)?;
            at = save + 1;
        }
        Ok(times)
    }

    /// Whether the run's bound is one at which the primaries agree to end.
    pub fn agrees(&self, cuts: &Cuts) -> bool
        requires { KnownFits self.now cuts.now }
        ensures { result ≡ agrees_by (since_of self.now) cuts.now }
    {
        match (self.since_when(), cuts.exit) {
            (Some(at), Some(period)) => at + (period - at % period) <= cuts.stop,
            _ => false,
        }
    }

    /// The bound, where an event is still to come or the primaries agree to end there.
    pub fn told(&self, cuts: &Cuts) -> Option<u64>
        requires { KnownFits self.now cuts.now }
        ensures { result ≡ (if is_some self.now.next || agrees_by (since_of self.now) cuts.now then Some (bound_of cuts.now self.now) else None) }
    {
        if self.next.is_some() || self.agrees(cuts) {
            Some(self.bound(cuts))
        } else {
            None
        }
    }
}
