//! Groups that are joined along the links of least latency first.

ghost use Rattle.std.specs.Prelude.{◌≡◌, ◌*◌, ◌+◌, ◌<◌, ◌≤◌, ℕ, List, All, length, IfOk};
ghost use Rattle.std.specs.List.{range_with_len};
ghost use Rattle.ss_graph.specs.Fit.{IsFit};
ghost use Rattle.ss_part.specs.Division.{AreBelow};
ghost use Rattle.ss_part.specs.Forest.{GoesDown, Stands, StandsFor};
ghost use Rattle.ss_part.specs.Groups.{numbered};
ghost use Rattle.ss_part.specs.Nearness.{weight, weighed, ordered, linked, grouped, gathered, by_latency as nearest};

use crate::forest::{join, name_of};
use ss_graph::Graph;
use std::alloc::{AllocError, Global};

/// A link's weight is the lesser latency of its two lines.
#[tactic(auto, unfolding(crate::specs::Nearness::weight))]
fn weight_of(graph: &Graph, link: u32) -> u64
    requires fit { IsFit graph.now }
    requires within { link < length graph.now.links }
    ensures { result ≡ weight graph.now link }
{
    let onward = graph.latency(2 * link);
    let back = graph.latency(2 * link + 1);
    if onward < back { onward } else { back }
}

/// Each link's number behind its weight.
#[tactic(auto, unfolding(crate::specs::Nearness::weighed))]
fn weighed_links(alloc: Global, graph: &Graph) -> Result<Vec<(u64, u32)>, AllocError>
    requires { IsFit graph.now }
    ensures { IfOk result (λ v. v.items ≡ weighed graph.now) }
{
    let mut links = Vec::new(alloc);
    for link in 0..graph.links.as_slice().len() as u32 {
        links.push((weight_of(graph, link), link))?;
    }
    Ok(links)
}

/// The same in their order: lesser weights first, and of equal weights lower numbers.
fn ordered_links(alloc: Global, graph: &Graph) -> Result<Vec<(u64, u32)>, AllocError>
    requires { IsFit graph.now }
    ensures order { IfOk result (λ v. v.items ≡ ordered (weighed graph.now)) }
    ensures real { IfOk result (λ v. All (λ e. e.1 < length graph.now.links) v.items) }
{
    let mut links = weighed_links(alloc, graph)?;
    links.sort()?;
    Ok(links)
}

/// A table in which each of `count` components is a group of its own.
#[tactic(auto, using(crate::proofs::Tables::range_more))]
fn apart(alloc: Global, count: u32) -> Result<Vec<u32>, AllocError>
    ensures own { IfOk result (λ v. v.items ≡ range_with_len 0 count) }
    ensures whole { IfOk result (λ v. length v.items ≡ count) }
{
    let mut table = Vec::new(alloc);
    for component in 0..count {
        table.push(component)?;
    }
    Ok(table)
}

/// Joins the groups of a link's two ends where `left` groups are more than there are parts, and tells how many are
/// left then.
fn take_link(graph: &Graph, parts: u32, link: u32, table: &mut [u32], left: u32) -> u32
    requires fit { IsFit graph.now }
    requires within { link < length graph.now.links }
    requires whole { length table.old ≡ length graph.now.components }
    requires down { GoesDown table.old }
    ensures down { GoesDown table.new }
    ensures taken { (names : List ℕ) → StandsFor table.old left names → StandsFor table.new result (linked graph.now parts names link) }
{
    if left <= parts {
        return left;
    }
    let (a, b) = graph.line_ends(2 * link);
    if join(table, a, b) { left - 1 } else { left }
}

/// Joins groups along the links, in their order, until there are no more of them than parts.
fn take_links(graph: &Graph, parts: u32, links: &[(u64, u32)], table: &mut [u32])
    requires fit { IsFit graph.now }
    requires real { All (λ e. e.1 < length graph.now.links) links.now }
    requires whole { length table.old ≡ length graph.now.components }
    requires own { table.old ≡ range_with_len 0 (length graph.now.components) }
    ensures down { GoesDown table.new }
    ensures stands { Stands table.new (grouped graph.now parts links.now) }
{
    let mut left = table.len() as u32;
    for (_, link) in links {
        left = take_link(graph, parts, *link, table, left);
    }
}

/// Numbers the groups in order of name. Those that are too many go into the last part.
fn numbers(alloc: Global, parts: u32, table: &mut [u32]) -> Result<Vec<u32>, AllocError>
    requires some { 1 ≤ parts }
    requires few { length table.old ≤ 65536 }
    requires down { GoesDown table.old }
    ensures { IfOk result (λ v. (names : List ℕ) → Stands table.old names → v.items ≡ numbered (gathered parts names)) }
{
    let mut list = Vec::new(alloc);
    let mut next = 0;
    for component in 0..table.len() as u32 {
        let name = name_of(table, component);
        if name == component {
            list.push(next.min(parts - 1))?;
            next += 1;
        } else {
            list.push(list[name as usize])?;
        }
    }
    Ok(list)
}

/// The groups as a table, where the links were taken in their order.
fn groups_of(alloc: Global, graph: &Graph, parts: u32) -> Result<Vec<u32>, AllocError>
    requires { IsFit graph.now }
    ensures down { IfOk result (λ v. GoesDown v.items) }
    ensures stands { IfOk result (λ v. Stands v.items (grouped graph.now parts (ordered (weighed graph.now)))) }
    ensures whole { IfOk result (λ v. length v.items ≡ length graph.now.components) }
{
    let links = ordered_links(alloc, graph)?;
    let mut table = apart(alloc, graph.components.as_slice().len() as u32)?;
    take_links(graph, parts, &links, &mut table);
    Ok(table)
}

/// The parts that groups make up, which are joined along the links of least latency first.
#[tactic(auto, unfolding(crate::specs::Nearness::by_latency))]
pub fn by_latency(alloc: Global, graph: &Graph, parts: u32) -> Result<Vec<u32>, AllocError>
    requires fit { IsFit graph.now }
    requires some { 1 ≤ parts }
    ensures list { IfOk result (λ v. v.items ≡ nearest graph.now parts) }
    ensures whole { IfOk result (λ v. length v.items ≡ length graph.now.components) }
    ensures below { IfOk result (λ v. AreBelow v.items parts) }
{
    let mut table = groups_of(alloc, graph, parts)?;
    let list = numbers(alloc, parts, &mut table)?;
    Ok(list)
}
