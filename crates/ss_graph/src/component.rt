//! The components.

ghost use Rattle.std.specs.Prelude.{◌≡◌, ◌≤◌, ◌<◌, ◌^◌, ◌++◌, ◌∷◌, [], length, map, codes, IfOk, OnOk, string_bytes};
ghost use Rattle.serde_json.specs.Find.{get as member_of};
ghost use Rattle.serde_json.specs.View.{view, members_view, items_view};
ghost use Rattle.ss_graph.specs.Checks.{Judged, Passes, at};
ghost use Rattle.ss_graph.specs.Faults.{is_memory};
ghost use Rattle.ss_graph.specs.Options.{the};
ghost use Rattle.ss_graph.specs.Components.{all_plain, object_checks, name_checks, fresh_checks, named_checks, is_new, text_in, name_in, params_checks, seen_params, delay_of};
ghost use Rattle.ss_graph.specs.Statistics.{stats_of, stat_items, thread_in};
ghost use Rattle.ss_graph.specs.Parts.{kind_checks, own_params, all_params, all_params_checks, rest_checks, component_checks, part_of, components_checks, parts_of, names_of, part_list_checks, part_items, parts_checks};

use crate::fault::{GraphFault, LimitKind};
use crate::graph::{Part, StatAsk};
use crate::param::{add_params, delays_at, listed};
use crate::place::{Owner, within_item};
use crate::statistic::{stats_at, thread_at};
use crate::subcomponent::subs_at;
use indexmap::IndexSet;
use serde_json::Value;
use ss_units::{Items, Text};
use std::alloc::Global;
use std::collections::BTreeMap;

/// Whether a name may have each of these bytes.
fn is_plain(text: &[u8]) -> bool
    ensures { result ≡ all_plain text.now }
{
    for byte in text {
        if *byte < 32 || *byte == 127 {
            return false;
        }
    }
    true
}

/// An item that is an object.
#[tactic(auto, unfolding(crate::specs::Checks::first_fault, crate::specs::Components::object_checks))]
pub fn object_at(alloc: Global, value: &Value, list: &str, index: usize) -> Result<(), GraphFault>
    ensures { Passes is_memory result (object_checks (at list.now index) (view value.now)) }
{
    if value.is_object() {
        Ok(())
    } else {
        Err(GraphFault::Form(within_item(alloc, list, index, "")?))
    }
}

/// A name that is there and has its form.
#[tactic(auto, unfolding(crate::specs::Checks::first_fault, crate::specs::Components::name_checks))]
fn name_at(alloc: Global, value: &Value, list: &str, index: usize) -> Result<Text, GraphFault>
    ensures { Judged is_memory (λ t. t) result (name_checks (at list.now index ++ codes ".name") (member_of (codes "name") (view value.now))) (name_in (view value.now)) }
{
    let Some(member) = value.get("name") else {
        return Err(GraphFault::Member(within_item(alloc, list, index, ".name")?));
    };
    let Some(text) = member.as_str() else {
        return Err(GraphFault::Form(within_item(alloc, list, index, ".name")?));
    };
    if text.len() == 0 || !is_plain(text.as_bytes()) {
        return Err(GraphFault::Form(within_item(alloc, list, index, ".name")?));
    }
    if text.len() > 255 {
        return Err(GraphFault::Limit(LimitKind::NameBytes, text.len() as u64));
    }
    Ok(Text::new(alloc, text)?)
}

/// Notes a name, which must be new.
#[tactic(auto, using(crate::proofs::Names::taken_name, crate::proofs::Names::noted_name), unfolding(crate::specs::Checks::first_fault, crate::specs::Components::fresh_checks))]
fn claim(
    alloc: Global,
    names: &mut IndexSet<String>,
    name: &Text,
    list: &str,
    index: usize,
) -> Result<(), GraphFault>
    ensures judged { Passes is_memory result (fresh_checks (at list.now index ++ codes ".name") (is_new (map string_bytes names.old.keys) name.now)) }
    ensures noted { OnOk result (map string_bytes names.new.keys ≡ map string_bytes names.old.keys ++ name.now ∷ []) }
{
    let key = String::from_str(alloc, name.as_str())?;
    let (_, added) = names.insert_full(key)?;
    if !added {
        return Err(GraphFault::DuplicateName(within_item(alloc, list, index, ".name")?));
    }
    Ok(())
}

/// The name of an item, which no earlier item of its list has.
#[tactic(auto, using(crate::proofs::Judging::first_fault_append), unfolding(crate::specs::Components::named_checks))]
pub fn new_name_at(
    alloc: Global,
    value: &Value,
    list: &str,
    index: usize,
    names: &mut IndexSet<String>,
) -> Result<Text, GraphFault>
    ensures judged { Judged is_memory (λ t. t) result (named_checks (at list.now index ++ codes ".name") (is_new (map string_bytes names.old.keys) (name_in (view value.now))) (member_of (codes "name") (view value.now))) (name_in (view value.now)) }
    ensures noted { OnOk result (map string_bytes names.new.keys ≡ map string_bytes names.old.keys ++ name_in (view value.now) ∷ []) }
{
    let name = name_at(alloc, value, list, index)?;
    claim(alloc, names, &name, list, index)?;
    Ok(name)
}

/// The type of a component.
#[tactic(auto, unfolding(crate::specs::Checks::first_fault, crate::specs::Parts::kind_checks))]
fn kind_at(alloc: Global, value: &Value, index: usize) -> Result<Text, GraphFault>
    ensures { Judged is_memory (λ t. t) result (kind_checks index (member_of (codes "type") (view value.now))) (text_in (member_of (codes "type") (view value.now))) }
{
    let Some(member) = value.get("type") else {
        return Err(GraphFault::Member(within_item(alloc, "components", index, ".type")?));
    };
    let Some(text) = member.as_str() else {
        return Err(GraphFault::Form(within_item(alloc, "components", index, ".type")?));
    };
    Ok(Text::new(alloc, text)?)
}

/// A component's own parameters.
#[tactic(auto, unfolding(crate::specs::Checks::first_fault))]
fn own_params_at(
    alloc: Global,
    value: &Value,
    index: usize,
    params: &mut BTreeMap<String, Text>,
) -> Result<(), GraphFault>
    requires { params.old.entries ≡ [] }
    ensures judged { Passes is_memory result (params_checks (at (codes "components") index) (member_of (codes "params") (view value.now))) }
    ensures added { OnOk result (seen_params params.new.entries ≡ own_params (view value.now)) }
{
    add_params(alloc, value, Owner::Component(index), "", params)?;
    Ok(())
}

/// A component's parameters, with those that its subcomponents are read as.
#[tactic(auto, using(crate::proofs::Judging::first_fault_append), unfolding(crate::specs::Parts::all_params_checks))]
fn all_params_at(
    alloc: Global,
    value: &Value,
    index: usize,
) -> Result<Vec<(Text, Text)>, GraphFault>
    ensures { Judged is_memory (λ ps. ps.items) result (all_params_checks index (view value.now)) (all_params (view value.now)) }
{
    let mut params = BTreeMap::new(alloc);
    own_params_at(alloc, value, index, &mut params)?;
    subs_at(alloc, value, index, &mut params)?;
    Ok(listed(alloc, params)?)
}

/// What stands behind a component's parameters.
#[derive(Drop)]
struct Rest {
    stats: Items<StatAsk>,
    thread: Option<u32>,
    input_latency: u64,
    output_latency: u64,
}

#[tactic(auto, using(crate::proofs::Judging::first_fault_append), unfolding(crate::specs::Parts::rest_checks))]
fn rest_at(
    alloc: Global,
    value: &Value,
    params: &[(Text, Text)],
    index: usize,
) -> Result<Rest, GraphFault>
    requires { params.now ≡ all_params (view value.now) }
    ensures { Judged is_memory (λ r. r) result (rest_checks index (view value.now)) (record { stats = stats_of (stat_items (view value.now)); thread = thread_in (member_of (codes "partition") (view value.now)); input_latency = the (delay_of (codes "input_latency") params.now); output_latency = the (delay_of (codes "output_latency") params.now) }) }
{
    let stats = stats_at(alloc, value, index)?;
    let thread = thread_at(alloc, value, index)?;
    let (input_latency, output_latency) = delays_at(alloc, params, index)?;
    Ok(Rest {
        stats: Items::from_vec(stats),
        thread,
        input_latency,
        output_latency,
    })
}

/// A component, whose name must be new.
#[tactic(auto, using(crate::proofs::Judging::first_fault_append), unfolding(crate::specs::Parts::component_checks))]
fn component_at(
    alloc: Global,
    value: &Value,
    index: usize,
    names: &mut IndexSet<String>,
) -> Result<Part, GraphFault>
    ensures judged { Judged is_memory (λ p. p) result (component_checks index (is_new (map string_bytes names.old.keys) (name_in (view value.now))) (view value.now)) (part_of (view value.now)) }
    ensures noted { OnOk result (map string_bytes names.new.keys ≡ map string_bytes names.old.keys ++ name_in (view value.now) ∷ []) }
{
    object_at(alloc, value, "components", index)?;
    let name = new_name_at(alloc, value, "components", index, names)?;
    let kind = kind_at(alloc, value, index)?;
    let params = all_params_at(alloc, value, index)?;
    let rest = rest_at(alloc, value, &params, index)?;
    Ok(Part {
        name,
        kind,
        params: Items::from_vec(params),
        stats: rest.stats,
        thread: rest.thread,
        input_latency: rest.input_latency,
        output_latency: rest.output_latency,
    })
}

/// The components, and their names in order.
#[tactic(auto, using(crate::proofs::Judging::first_fault_append), unfolding(crate::specs::Parts::components_checks))]
fn components_at(
    alloc: Global,
    values: &[Value],
    names: &mut IndexSet<String>,
) -> Result<Vec<Part>, GraphFault>
    requires { names.old.keys ≡ [] }
    ensures judged { Judged is_memory (λ ps. ps.items) result (components_checks 0 [] (items_view values.now)) (parts_of (items_view values.now)) }
    ensures noted { OnOk result (map string_bytes names.new.keys ≡ names_of (items_view values.now)) }
{
    let mut parts = Vec::new(alloc);
    for (i, value) in values.iter().enumerate() {
        parts.push(component_at(alloc, value, i, names)?)?;
    }
    Ok(parts)
}

/// The list of components.
#[tactic(auto, using(crate::proofs::Components::counted_items), unfolding(crate::specs::Checks::first_fault, crate::specs::Parts::part_list_checks))]
fn part_list_at<'a>(alloc: Global, value: &'a Value) -> Result<&'a [Value], GraphFault>
    ensures judged { Judged is_memory (λ vs. items_view vs.now) result (part_list_checks (member_of (codes "components") (view value.now))) (part_items (view value.now)) }
    ensures few { IfOk result (λ vs. length vs.now ≤ 2 ^ 16) }
{
    let Some(member) = value.get("components") else {
        return Err(GraphFault::Member(Text::new(alloc, "components")?));
    };
    let Some(values) = member.as_array() else {
        return Err(GraphFault::Form(Text::new(alloc, "components")?));
    };
    if values.len() > 65_536 {
        return Err(GraphFault::Limit(LimitKind::Components, values.len() as u64));
    }
    Ok(values.as_slice())
}

/// All components, and their names in order.
#[tactic(auto, using(crate::proofs::Judging::first_fault_append, crate::proofs::Components::counted_names), unfolding(crate::specs::Parts::parts_checks))]
pub fn parts_at(
    alloc: Global,
    value: &Value,
    names: &mut IndexSet<String>,
) -> Result<Vec<Part>, GraphFault>
    requires { names.old.keys ≡ [] }
    ensures judged { Judged is_memory (λ ps. ps.items) result (parts_checks (view value.now)) (parts_of (part_items (view value.now))) }
    ensures noted { OnOk result (map string_bytes names.new.keys ≡ names_of (part_items (view value.now))) }
    ensures few { OnOk result (length names.new.keys ≤ 2 ^ 16) }
{
    let values = part_list_at(alloc, value)?;
    components_at(alloc, values, names)
}
