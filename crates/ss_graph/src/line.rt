//! The lines of a graph: link `l` gives line `2 * l` from its left end to its right end, and line `2 * l + 1` back.

ghost use Rattle.std.specs.Prelude.{◌≡◌, ◌+◌, ◌*◌, ◌^◌, ◌<◌, ◌≤◌, length};
ghost use Rattle.ss_graph.specs.Links.{line_latency};
ghost use Rattle.ss_graph.specs.Fit.{IsFit, lat, line_ends as ends_of_line};

use crate::graph::{Graph, Part, PortEnd};
use crate::link::{input_of, output_of};

/// The latency of the line from one end of a link to the other.
fn across(parts: &[Part], from: &PortEnd, to: &PortEnd) -> u64
    requires { line_latency parts.now from.now to.now ≤ 2 ^ 40 }
    ensures { result ≡ line_latency parts.now from.now to.now }
{
    from.latency + output_of(parts, from.component) + input_of(parts, to.component)
}

impl Graph {
    /// A line's latency in picoseconds: the sending end's latency, what the sender adds to each line that it
    /// sends to, and what the receiver adds to each line that it receives from. This rule is SST's.
    #[tactic(auto, using(crate::proofs::Lines::link_at_line))]
    pub fn latency(&self, line: u32) -> u64
        requires fit { IsFit self.now }
        requires within { line < 2 * length self.now.links }
        ensures value { result ≡ lat self.now line }
        ensures least { 1 ≤ result }
        ensures most { result ≤ 2 ^ 40 }
    {
        let parts = self.components.as_slice();
        let join = &self.links.as_slice()[line as usize / 2];
        if line % 2 == 0 {
            across(parts, &join.left, &join.right)
        } else {
            across(parts, &join.right, &join.left)
        }
    }

    /// A line's sending component and its receiving component.
    #[tactic(auto, using(crate::proofs::Lines::link_at_line))]
    pub fn line_ends(&self, line: u32) -> (u32, u32)
        requires fit { IsFit self.now }
        requires within { line < 2 * length self.now.links }
        ensures value { result ≡ ends_of_line self.now line }
        ensures sender { result.0 < length self.now.components }
        ensures receiver { result.1 < length self.now.components }
    {
        let join = &self.links.as_slice()[line as usize / 2];
        if line % 2 == 0 {
            (join.left.component, join.right.component)
        } else {
            (join.right.component, join.left.component)
        }
    }
}
