//! Requests by output: of each output its requests as a chain of their numbers, so that an output looks at its own requests alone.

ghost use Rattle.std.specs.Prelude.{◌≡◌, ◌<◌, ◌≤◌, ◌^◌, All, length, replicate};
ghost use Rattle.mr_arb.specs.Chains.{AreChains};

use crate::Request;

/// Chains the requests of each output, where there is room for all of them.
pub(crate) fn chain(first: &mut [u32], next: &mut [u32], requests: &[Request])
    requires few { length next.old < 2 ^ 32 }
    ensures { length requests.now ≤ length next.new → AreChains first.new next.new 0 requests.now }
{
    if requests.len() <= next.len() {
        first.fill(requests.len() as u32);
        link(first, next, requests);
    }
}

// Puts each request at the head of its output's chain, the last request first.
fn link(first: &mut [u32], next: &mut [u32], requests: &[Request])
    requires few { length next.old < 2 ^ 32 }
    requires room { length requests.now ≤ length next.old }
    requires empty { first.old ≡ replicate (length first.old) (length requests.now) }
    ensures { AreChains first.new next.new 0 requests.now }
{
    let mut number = requests.len();
    while number > 0 {
        number -= 1;
        let output = requests[number].output as usize;
        if output < first.len() {
            next[number] = first[output];
            first[output] = number as u32;
        }
    }
}
