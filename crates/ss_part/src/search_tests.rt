//! The division by latency beside a search over all divisions, on small graphs.

ghost use Rattle.std.specs.Prelude.{◌*◌, ◌<◌, ◌≤◌, length};
ghost use Rattle.ss_graph.specs.Fit.{IsFit};

use crate::{How, assign, lookahead};
use ss_graph::{Graph, read};
use std::alloc::{AllocError, Global};
use std::fmt::Write;
use std::test::*;

/// A link's two components and the latency of its ends in picoseconds.
#[derive(Clone, Copy, Drop)]
struct Wire {
    a: u32,
    b: u32,
    latency: u32,
}

/// The text of a graph of so many components with these links.
fn text_of(alloc: Global, count: u32, wires: &[Wire]) -> Result<String, AllocError> {
    let mut text = String::from_str(alloc, "{\"components\":[")?;
    for c in 0..count {
        let comma = if c == 0 { "" } else { "," };
        write!(text, "{comma}{{\"name\":\"{c}\",\"type\":\"t\"}}")?;
    }
    text.push_str("],\"links\":[")?;
    for (i, wire) in wires.iter().enumerate() {
        let comma = if i == 0 { "" } else { "," };
        let Wire { a, b, latency } = *wire;
        write!(
            text,
            "{comma}{{\"name\":\"{i}\",\"left\":{{\"component\":\"{a}\",\"port\":\"l{i}\",\"latency\":\"{latency}ps\"}},"
        )?;
        write!(
            text,
            "\"right\":{{\"component\":\"{b}\",\"port\":\"r{i}\",\"latency\":\"{latency}ps\"}}}}"
        )?;
    }
    text.push_str("]}")?;
    Ok(text)
}

/// Some links among so many components. Ties and links of a component with itself are among them.
fn wires_of(alloc: Global, seed: u32, count: u32) -> Result<Vec<Wire>, AllocError>
    requires { 0 < count }
{
    let mut wires = Vec::new(alloc);
    let mut x = seed;
    for _ in 0..seed % 9 {
        x = x.wrapping_mul(1_103_515_245).wrapping_add(12345);
        wires.push(Wire {
            a: (x >> 8) % count,
            b: (x >> 16) % count,
            latency: 1 + (x >> 24) % 6,
        })?;
    }
    Ok(wires)
}

/// The part of a component in a division, whose number has the components' parts as its digits.
fn digit(division: u32, component: u32, parts: u32) -> u32
    requires { 0 < parts }
{
    let mut rest = division;
    for _ in 0..component {
        rest /= parts;
    }
    rest % parts
}

/// Whether a component is in this part.
fn is_used(division: u32, count: u32, parts: u32, part: u32) -> bool
    requires { 0 < parts }
{
    for component in 0..count {
        if digit(division, component, parts) == part {
            return true;
        }
    }
    false
}

fn uses_all(division: u32, count: u32, parts: u32) -> bool
    requires { 0 < parts }
{
    for part in 0..parts {
        if !is_used(division, count, parts, part) {
            return false;
        }
    }
    true
}

/// The least latency of a line between two parts of a division.
fn cut_of(graph: &Graph, division: u32, parts: u32) -> u64
    requires fit { IsFit graph.now }
    requires some { 0 < parts }
{
    let mut least = 1 << 62;
    for line in 0..2 * graph.links.as_slice().len() as u32 {
        let (a, b) = graph.line_ends(line);
        let latency = graph.latency(line);
        if digit(division, a, parts) != digit(division, b, parts) && latency < least {
            least = latency;
        }
    }
    least
}

/// The greatest that any division without an empty part has.
fn greatest_cut(graph: &Graph, count: u32, parts: u32) -> u64
    requires fit { IsFit graph.now }
    requires some { 0 < parts }
{
    let mut divisions = 1u32;
    for _ in 0..count {
        divisions = divisions.saturating_mul(parts);
    }
    let mut greatest = 0;
    for division in 0..divisions {
        if uses_all(division, count, parts) {
            let cut = cut_of(graph, division, parts);
            if greatest < cut {
                greatest = cut;
            }
        }
    }
    greatest
}

#[test]
fn no_division_is_better(rt: HostRuntime) -> Result<(), Fail> {
    for seed in 0..36 {
        let count = 1 + seed % 6;
        let wires = wires_of(rt.alloc(), seed, count)?;
        let text = text_of(rt.alloc(), count, &wires)?;
        let graph = read(rt.alloc(), text.as_bytes()).ok().ok_or("a graph")?;
        for parts in 1..count + 1 {
            let partition = assign(rt.alloc(), &graph, parts, How::Latency)?;
            assert_eq!(rt;
                lookahead(&graph, &partition),
                greatest_cut(&graph, count, parts),
                "seed {seed}"
            );
        }
    }
    Ok(())
}
