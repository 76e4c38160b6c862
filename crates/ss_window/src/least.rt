//! Least times.

ghost use Rattle.std.specs.Prelude.{◌≡◌, ℕ, ◌<◌, Option};
ghost use Rattle.ss_window.specs.Least.{IsFirst, OnPeriod, Above};
ghost use Rattle.ss_window.specs.Cuts.{IsTime, SpanFits};
ghost use Rattle.ss_window.specs.Earlier.{earlier_of};

// The least multiple of a period above a time, if there is a period.
pub fn multiple_above(period: Option<u64>, time: u64) -> Option<u64>
    requires period { SpanFits period }
    requires time { IsTime time }
    ensures { IsFirst (Above (OnPeriod period) time) result }
{
    match period {
        Some(p) => Some(time + (p - time % p)),
        None => None,
    }
}

// The lesser of two times that may be absent.
pub fn earlier(a: Option<u64>, b: Option<u64>) -> Option<u64>
    ensures { result ≡ earlier_of a b }
{
    match (a, b) {
        (Some(x), Some(y)) => Some(x.min(y)),
        (Some(x), None) => Some(x),
        (None, y) => y,
    }
}
