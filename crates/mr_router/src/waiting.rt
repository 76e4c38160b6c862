//! When a router's ports are free.

ghost use Rattle.std.specs.Prelude.{◌<◌, ◌≤◌};
ghost use Rattle.std.specs.List.{All};
ghost use Rattle.mr_router.specs.Quiet.{StaysAs};

use crate::port::Port;

// A time, where it is later than `now`, and else the last of all.
fn later(now: u64, time: u64) -> u64
    ensures { now < time → result ≤ time }
{
    if now < time { time } else { u64::MAX }
}

impl Port {
    // The least time after `now` at which its line, its input or its output gets free, and the last of all where none does.
    fn next_free(&self, now: u64) -> u64
        ensures { StaysAs now result self.now }
    {
        later(now, self.line.line_free())
            .min(later(now, self.in_free))
            .min(later(now, self.cross_free))
    }
}

// The least time after `now` at which the line, the input or the output of a port gets free, and the last of all where none does.
pub(crate) fn next_free(ports: &[Port], now: u64) -> u64
    ensures { All (StaysAs now result) ports.now }
{
    let mut least = u64::MAX;
    for port in ports {
        least = least.min(port.next_free(now));
    }
    least
}
