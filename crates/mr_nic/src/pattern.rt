//! Patterns of traffic.

ghost use Rattle.std.specs.Prelude.{◌≡◌, ◌+◌, ◌*◌, ◌-◌, ◌%◌, ◌≤◌, ◌<◌};
ghost use Rattle.mr_nic.specs.Pattern.{but, root, mirrored, destination as destination_of, IsFor};

use ss_gen::word;

/// To which endpoint each packet of an endpoint goes, after Merlin.
#[derive(Clone, Copy, Debug, PartialEq, Eq)]
pub enum Pattern {
    /// To any other, by words of a seed.
    Uniform,
    /// From the first to the last, from the second to the last but one.
    Complement,
    /// To the place with row and column exchanged, where the endpoints are a square.
    Transpose,
    /// To one endpoint.
    Hotspot,
    /// To the endpoint that is nearly half way around.
    Tornado,
}

// A place of a square of side `root peers`, with its row and its column exchanged.
#[tactic(auto, using(crate::proofs::Roots::root_is))]
fn transposed(id: u32, peers: u32) -> u32
    requires some { 2 ≤ peers }
    requires here { id < peers }
    requires square { root peers * root peers ≡ peers }
    ensures place { result ≡ mirrored (root peers) id }
    ensures below { result < peers }
{
    let side = peers.isqrt();
    id % side * side + id / side
}

// A number among all endpoints but one.
fn other_than(id: u32, peers: u32, word: u64) -> u32
    requires some { 2 ≤ peers }
    ensures other { result ≡ but id (word % (peers - 1)) }
    ensures below { result < peers }
{
    let other = (word % u64::from(peers - 1)) as u32;
    if other < id { other } else { other + 1 }
}

/// The endpoint to which packet `k` of endpoint `id` goes, of so many peers. It takes no memory. Uniform traffic goes by word `k` of
/// `seed`, and hotspot traffic to `hot`. The patterns are Merlin's; the words and their numbering are this project's own.
pub fn destination(pattern: Pattern, id: u32, peers: u32, k: u64, seed: u64, hot: u32) -> u32
    requires some { 2 ≤ peers }
    requires here { id < peers }
    requires there { hot < peers }
    requires shape { IsFor pattern peers }
    ensures to { result ≡ destination_of pattern id peers k seed hot }
    ensures below { result < peers }
{
    match pattern {
        Pattern::Uniform => other_than(id, peers, word(seed, k)),
        Pattern::Complement => peers - 1 - id,
        Pattern::Transpose => transposed(id, peers),
        Pattern::Hotspot => hot,
        Pattern::Tornado => {
            let half = (u64::from(peers) + 1) / 2 - 1;
            ((u64::from(id) + half) % u64::from(peers)) as u32
        }
    }
}
