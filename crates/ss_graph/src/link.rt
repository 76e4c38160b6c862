//! The links.

ghost use Rattle.std.specs.Prelude.{◌≡◌, ◌≤◌, ◌^◌, length, ◌++◌, ◌∷◌, [], codes, IfOk, OnOk, map, string_bytes, slice_get, option_map};
ghost use Rattle.serde_json.specs.Find.{get as member_of};
ghost use Rattle.serde_json.specs.View.{view, items_view};
ghost use Rattle.ss_graph.specs.Checks.{Judged, Passes};
ghost use Rattle.ss_graph.specs.Faults.{is_memory};
ghost use Rattle.ss_graph.specs.Components.{text_in, object_checks, or_null, name_in, is_new, place_in, items_or};
ghost use Rattle.ss_graph.specs.Options.{the};
ghost use Rattle.ss_graph.specs.Links.{end_place, is_taken, seen_ends, reach_checks, port_checks, latency_in, latency_checks, end_checks, end_of, end_key, side_checks, output_of as output_in, input_of as input_in, is_lasting as lasts, crossing_checks, link_checks, join_of, left_of, right_of, links_checks, joins_of, link_list_checks, link_items, joins_checks};

use crate::component::{new_name_at, object_at};
use crate::fault::{GraphFault, LimitKind};
use crate::graph::{Join, Part, PortEnd};
use indexmap::IndexSet;
use itoa::Buffer;
use serde_json::Value;
use ss_units::{Text, ps_of};
use std::alloc::{AllocError, Global};

/// A place at the end of a side.
fn place_at(alloc: Global, index: usize, side: &str, tail: &str) -> Result<Text, AllocError>
    ensures { IfOk result (λ t. t ≡ end_place index side.now tail.now) }
{
    let mut text = String::from_str(alloc, "links[")?;
    let mut buffer = Buffer::new();
    text.push_str(buffer.format(index))?;
    text.push_str("].")?;
    text.push_str(side)?;
    text.push_str(tail)?;
    Ok(Text::from_string(text))
}

/// An end is an object.
#[tactic(auto, unfolding(crate::specs::Checks::first_fault, crate::specs::Components::object_checks))]
fn end_object_at(alloc: Global, end: &Value, index: usize, side: &str) -> Result<(), GraphFault>
    ensures { Passes is_memory result (object_checks (end_place index side.now []) (view end.now)) }
{
    if end.is_object() {
        Ok(())
    } else {
        Err(GraphFault::Form(place_at(alloc, index, side, "")?))
    }
}

/// The number of a component.
fn number_of(names: &IndexSet<String>, name: &str) -> Option<u32>
    requires { length names.now.keys ≤ 2 ^ 16 }
    ensures { result ≡ place_in (map string_bytes names.now.keys) name.now }
{
    match names.get_index_of(name) {
        None => None,
        Some(number) => Some(number as u32),
    }
}

/// The component of an end.
#[tactic(auto, unfolding(crate::specs::Checks::first_fault, crate::specs::Links::reach_checks))]
fn reach_at(
    alloc: Global,
    end: &Value,
    index: usize,
    side: &str,
    names: &IndexSet<String>,
) -> Result<u32, GraphFault>
    requires { length names.now.keys ≤ 2 ^ 16 }
    ensures { Judged is_memory (λ n. n) result (reach_checks index side.now (place_in (map string_bytes names.now.keys) (text_in (member_of (codes "component") (view end.now)))) (member_of (codes "component") (view end.now))) (the (place_in (map string_bytes names.now.keys) (text_in (member_of (codes "component") (view end.now))))) }
{
    let Some(name) = end.get("component").and_then(Value::as_str) else {
        return Err(GraphFault::Form(place_at(alloc, index, side, ".component")?));
    };
    match number_of(names, name) {
        None => Err(GraphFault::UnknownComponent(place_at(alloc, index, side, ".component")?)),
        Some(number) => Ok(number),
    }
}

/// The port of an end, which no earlier end has.
#[tactic(auto, using(crate::proofs::Ends::taken_is), unfolding(crate::specs::Checks::first_fault, crate::specs::Links::port_checks))]
fn port_at(
    alloc: Global,
    end: &Value,
    index: usize,
    side: &str,
    component: u32,
    taken: &mut IndexSet<(u32, String)>,
) -> Result<Text, GraphFault>
    ensures judged { Judged is_memory (λ t. t) result (port_checks index side.now (is_taken (seen_ends taken.old.keys) (component, text_in (member_of (codes "port") (view end.now)))) (member_of (codes "port") (view end.now))) (text_in (member_of (codes "port") (view end.now))) }
    ensures noted { OnOk result (seen_ends taken.new.keys ≡ seen_ends taken.old.keys ++ (component, text_in (member_of (codes "port") (view end.now))) ∷ []) }
{
    let Some(port) = end.get("port").and_then(Value::as_str) else {
        return Err(GraphFault::Form(place_at(alloc, index, side, ".port")?));
    };
    let text = Text::new(alloc, port)?;
    let key = String::from_str(alloc, port)?;
    let (_, added) = taken.insert_full((component, key))?;
    if !added {
        return Err(GraphFault::PortTaken(place_at(alloc, index, side, ".port")?));
    }
    Ok(text)
}

/// The latency of an end.
#[tactic(auto, unfolding(crate::specs::Checks::first_fault, crate::specs::Links::latency_checks))]
fn latency_at(alloc: Global, end: &Value, index: usize, side: &str) -> Result<u64, GraphFault>
    ensures { Judged is_memory (λ n. n) result (latency_checks index side.now (member_of (codes "latency") (view end.now))) (the (latency_in (member_of (codes "latency") (view end.now)))) }
{
    let Some(text) = end.get("latency").and_then(Value::as_str) else {
        return Err(GraphFault::Form(place_at(alloc, index, side, ".latency")?));
    };
    if let Ok(time) = ps_of(text.as_bytes()) {
        if time <= 1 << 62 {
            return Ok(time);
        }
    }
    Err(GraphFault::Unit(place_at(alloc, index, side, ".latency")?))
}

/// An end of a link.
#[tactic(auto, using(crate::proofs::Judging::first_fault_append), unfolding(crate::specs::Links::end_checks))]
fn end_at(
    alloc: Global,
    end: &Value,
    index: usize,
    side: &str,
    names: &IndexSet<String>,
    taken: &mut IndexSet<(u32, String)>,
) -> Result<PortEnd, GraphFault>
    requires { length names.now.keys ≤ 2 ^ 16 }
    ensures judged { Judged is_memory (λ e. e) result (end_checks index side.now (map string_bytes names.now.keys) (seen_ends taken.old.keys) (view end.now)) (end_of (map string_bytes names.now.keys) (view end.now)) }
    ensures noted { OnOk result (seen_ends taken.new.keys ≡ seen_ends taken.old.keys ++ end_key (end_of (map string_bytes names.now.keys) (view end.now)) ∷ []) }
{
    end_object_at(alloc, end, index, side)?;
    let component = reach_at(alloc, end, index, side, names)?;
    let port = port_at(alloc, end, index, side, component, taken)?;
    let latency = latency_at(alloc, end, index, side)?;
    Ok(PortEnd {
        component,
        port,
        latency,
    })
}

/// An end that must be there.
#[tactic(auto, using(crate::proofs::Judging::first_fault_append), unfolding(crate::specs::Checks::first_fault, crate::specs::Links::side_checks))]
fn side_at(
    alloc: Global,
    link: &Value,
    index: usize,
    side: &str,
    names: &IndexSet<String>,
    taken: &mut IndexSet<(u32, String)>,
) -> Result<PortEnd, GraphFault>
    requires { length names.now.keys ≤ 2 ^ 16 }
    ensures judged { Judged is_memory (λ e. e) result (side_checks index side.now (map string_bytes names.now.keys) (seen_ends taken.old.keys) (member_of side.now (view link.now))) (end_of (map string_bytes names.now.keys) (or_null (member_of side.now (view link.now)))) }
    ensures noted { OnOk result (seen_ends taken.new.keys ≡ seen_ends taken.old.keys ++ end_key (end_of (map string_bytes names.now.keys) (or_null (member_of side.now (view link.now)))) ∷ []) }
{
    match link.get(side) {
        None => Err(GraphFault::Member(place_at(alloc, index, side, "")?)),
        Some(end) => end_at(alloc, end, index, side, names, taken),
    }
}

/// What a component adds to the latency of the lines that it receives from.
pub fn input_of(parts: &[Part], component: u32) -> u64
    ensures { result ≡ input_in (slice_get parts.now component) }
{
    match parts.get(component as usize) {
        None => 0,
        Some(part) => part.input_latency,
    }
}

/// What a component adds to the latency of the lines that it sends to.
pub fn output_of(parts: &[Part], component: u32) -> u64
    ensures { result ≡ output_in (slice_get parts.now component) }
{
    match parts.get(component as usize) {
        None => 0,
        Some(part) => part.output_latency,
    }
}

/// Whether the line from one end to the other has a latency in range.
fn is_lasting(parts: &[Part], from: &PortEnd, to: &PortEnd) -> bool
    ensures { result ≡ lasts parts.now from.now to.now }
{
    let output = output_of(parts, from.component);
    let input = input_of(parts, to.component);
    let latency = from.latency as u128 + output as u128 + input as u128;
    1 <= latency && latency <= 1 << 40
}

/// The latencies of a link's two lines are in range.
#[tactic(auto, unfolding(crate::specs::Checks::first_fault, crate::specs::Links::crossing_checks))]
fn crossing_at(
    alloc: Global,
    parts: &[Part],
    left: &PortEnd,
    right: &PortEnd,
    index: usize,
) -> Result<(), GraphFault>
    ensures { Passes is_memory result (crossing_checks index parts.now left.now right.now) }
{
    if !is_lasting(parts, left, right) {
        return Err(GraphFault::Latency(place_at(alloc, index, "left", "")?));
    }
    if !is_lasting(parts, right, left) {
        return Err(GraphFault::Latency(place_at(alloc, index, "right", "")?));
    }
    Ok(())
}

/// What the links before one have taken: their names, and their ends.
#[derive(Drop)]
struct Taken {
    names: IndexSet<String>,
    ends: IndexSet<(u32, String)>,
}

/// A link.
#[tactic(auto, using(crate::proofs::Judging::first_fault_append), unfolding(crate::specs::Links::link_checks))]
fn link_at(
    alloc: Global,
    link: &Value,
    index: usize,
    names: &IndexSet<String>,
    parts: &[Part],
    taken: &mut Taken,
) -> Result<Join, GraphFault>
    requires { length names.now.keys ≤ 2 ^ 16 }
    ensures judged { Judged is_memory (λ j. j) result (link_checks index (is_new (map string_bytes taken.old.names.keys) (name_in (view link.now))) (map string_bytes names.now.keys) parts.now (seen_ends taken.old.ends.keys) (view link.now)) (join_of (map string_bytes names.now.keys) (view link.now)) }
    ensures named { OnOk result (map string_bytes taken.new.names.keys ≡ map string_bytes taken.old.names.keys ++ name_in (view link.now) ∷ []) }
    ensures noted { OnOk result (seen_ends taken.new.ends.keys ≡ (seen_ends taken.old.ends.keys ++ end_key (left_of (map string_bytes names.now.keys) (view link.now)) ∷ []) ++ end_key (right_of (map string_bytes names.now.keys) (view link.now)) ∷ []) }
{
    object_at(alloc, link, "links", index)?;
    let name = new_name_at(alloc, link, "links", index, &mut taken.names)?;
    let left = side_at(alloc, link, index, "left", names, &mut taken.ends)?;
    let right = side_at(alloc, link, index, "right", names, &mut taken.ends)?;
    crossing_at(alloc, parts, &left, &right, index)?;
    Ok(Join { name, left, right })
}

/// The links.
fn links_at(
    alloc: Global,
    values: &[Value],
    names: &IndexSet<String>,
    parts: &[Part],
) -> Result<Vec<Join>, GraphFault>
    requires { length names.now.keys ≤ 2 ^ 16 }
    ensures { Judged is_memory (λ js. js.items) result (links_checks (map string_bytes names.now.keys) parts.now 0 [] [] (items_view values.now)) (joins_of (map string_bytes names.now.keys) (items_view values.now)) }
{
    let mut taken = Taken {
        names: IndexSet::new(alloc),
        ends: IndexSet::new(alloc),
    };
    let mut joins = Vec::new(alloc);
    for (i, value) in values.iter().enumerate() {
        joins.push(link_at(alloc, value, i, names, parts, &mut taken)?)?;
    }
    Ok(joins)
}

/// The list of links, which may be missing.
#[tactic(auto, using(crate::proofs::Components::counted_items), unfolding(crate::specs::Checks::first_fault, crate::specs::Links::link_list_checks))]
fn link_list_at<'a>(alloc: Global, value: &'a Value) -> Result<Option<&'a [Value]>, GraphFault>
    ensures { Judged is_memory (λ o. items_or (option_map (λ vs. items_view vs.now) o)) result (link_list_checks (member_of (codes "links") (view value.now))) (link_items (view value.now)) }
{
    let Some(member) = value.get("links") else {
        return Ok(None);
    };
    let Some(values) = member.as_array() else {
        return Err(GraphFault::Form(Text::new(alloc, "links")?));
    };
    if values.len() > 262_144 {
        return Err(GraphFault::Limit(LimitKind::Links, values.len() as u64));
    }
    Ok(Some(values.as_slice()))
}

/// All links.
#[tactic(auto, using(crate::proofs::Judging::first_fault_append, crate::proofs::Links::no_links), unfolding(crate::specs::Links::joins_checks))]
pub fn joins_at(
    alloc: Global,
    value: &Value,
    names: &IndexSet<String>,
    parts: &[Part],
) -> Result<Vec<Join>, GraphFault>
    requires { length names.now.keys ≤ 2 ^ 16 }
    ensures { Judged is_memory (λ js. js.items) result (joins_checks (map string_bytes names.now.keys) parts.now (view value.now)) (joins_of (map string_bytes names.now.keys) (link_items (view value.now))) }
{
    match link_list_at(alloc, value)? {
        None => Ok(Vec::new(alloc)),
        Some(values) => links_at(alloc, values, names, parts),
    }
}
