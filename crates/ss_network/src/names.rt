//! The names of the ports of routers and endpoints, and what their input queues hold.

ghost use Rattle.std.specs.Prelude.{◌≡◌, ◌<◌, ◌^◌, ℕ, MatchOption};
ghost use Rattle.ss_network.specs.Network.{input_of};
ghost use Rattle.ss_network.specs.Names.{port_text, numbered, port_of as port_named};

use crate::member::Member;
use crate::param::count_of;
use itoa::Buffer;

// The number in a text of the form of a port's name, `port` and a number below 2^16.
#[tactic(auto, using(crate::proofs::Decimals::no_prefix, crate::proofs::Decimals::no_count, crate::proofs::Decimals::no_text))]
fn port_in(text: &str) -> Option<u16>
    ensures { MatchOption result ((k : ℕ) → k < 2 ^ 16 → text.now ≡ port_text k → ⊥) (λ p. text.now ≡ port_text p) }
{
    let Some(digits) = text.as_bytes().strip_prefix(b"port") else {
        return None;
    };
    match count_of(digits, 65535) {
        None => None,
        Some(port) => {
            let mut buffer = Buffer::new();
            if buffer.format(port).as_bytes() == digits {
                Some(port as u16)
            } else {
                None
            }
        }
    }
}

/// The one of so many ports of a router that has a name: `port` and its number.
fn numbered_port(ports: u16, text: &str) -> Option<u16>
    ensures { result ≡ numbered ports text.now }
{
    match port_in(text) {
        None => None,
        Some(port) => if port < ports { Some(port) } else { None },
    }
}

impl Member {
    /// The number of the port that has a name. A router's ports are `port0`, `port1` and so on, and an endpoint's is `rtr`. It takes no
    /// memory.
    pub fn port_of(&self, text: &str) -> Option<u16>
        ensures { result ≡ port_named self.now text.now }
    {
        match self {
            Member::Router(router) => numbered_port(router.ports(), text),
            Member::Endpoint(_) => if text == "rtr" { Some(0) } else { None },
            Member::Other => None,
        }
    }

    /// What its input queues hold, in flits, and 0 for no part of a network.
    pub fn input_flits(&self) -> u32
        ensures { result ≡ input_of self.now }
    {
        match self {
            Member::Router(router) => router.input_flits,
            Member::Endpoint(endpoint) => endpoint.input_flits,
            Member::Other => 0,
        }
    }
}
