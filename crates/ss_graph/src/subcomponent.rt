//! The subcomponents of a component, which are read as its parameters.

ghost use Rattle.std.specs.Prelude.{◌≡◌, ◌++◌, ◌∷◌, [], codes, OnOk, option_map, string_bytes};
ghost use Rattle.serde_json.specs.Find.{get as member_of};
ghost use Rattle.serde_json.specs.View.{view, items_view};
ghost use Rattle.ss_graph.specs.Checks.{Judged, Passes, at};
ghost use Rattle.ss_graph.specs.Faults.{is_memory};
ghost use Rattle.ss_graph.specs.Owners.{owner_place};
ghost use Rattle.ss_graph.specs.Components.{text_in, object_checks, word_checks, params_checks, seen_params, with_params, are_unnamed, items_in, items_or};
ghost use Rattle.ss_graph.specs.Options.{fits_if};
ghost use Rattle.ss_graph.specs.Subcomponents.{is_no_list, sub_place, sub_params, slot_checks, flat_checks, unnamed_checks, sub_checks, each_sub_checks, with_subs, sub_items, sub_list_checks, subs_checks};

use crate::fault::GraphFault;
use crate::param::{add_param, add_params};
use crate::place::{Owner, within};
use serde_json::Value;
use ss_units::Text;
use std::alloc::Global;
use std::collections::BTreeMap;

/// The text under a member, or none.
fn text_under<'a>(value: &'a Value, name: &str) -> &'a str
    ensures { result.now ≡ text_in (member_of name.now (view value.now)) }
{
    match value.get(name).and_then(Value::as_str) {
        None => "",
        Some(text) => text,
    }
}

/// An item that is an object.
#[tactic(auto, unfolding(crate::specs::Checks::first_fault, crate::specs::Components::object_checks))]
pub fn owner_at(alloc: Global, value: &Value, owner: Owner) -> Result<(), GraphFault>
    ensures { Passes is_memory result (object_checks (owner_place owner) (view value.now)) }
{
    if value.is_object() {
        Ok(())
    } else {
        Err(GraphFault::Form(within(alloc, owner, "")?))
    }
}

/// A member that must be there and be a text, whose place has this end.
#[tactic(auto, unfolding(crate::specs::Checks::first_fault, crate::specs::Components::word_checks))]
pub fn word_at(
    alloc: Global,
    value: &Value,
    name: &str,
    owner: Owner,
    tail: &str,
) -> Result<(), GraphFault>
    ensures { Passes is_memory result (word_checks (owner_place owner ++ tail.now) (member_of name.now (view value.now))) }
{
    match value.get(name).and_then(Value::as_str) {
        None => Err(GraphFault::Form(within(alloc, owner, tail)?)),
        Some(_) => Ok(()),
    }
}

/// A subcomponent's slot and type.
#[tactic(auto, using(crate::proofs::Judging::first_fault_append), unfolding(crate::specs::Subcomponents::slot_checks))]
fn slot_at(alloc: Global, value: &Value, index: usize, item: usize) -> Result<(), GraphFault>
    ensures { Passes is_memory result (slot_checks index item (view value.now)) }
{
    let owner = Owner::Subcomponent(index, item);
    owner_at(alloc, value, owner)?;
    word_at(alloc, value, "slot_name", owner, ".slot_name")?;
    word_at(alloc, value, "type", owner, ".type")
}

/// Adds the parameters that a subcomponent is read as, and tells whether their names are new.
fn add_slot(
    alloc: Global,
    value: &Value,
    index: usize,
    item: usize,
    params: &mut BTreeMap<String, Text>,
) -> Result<bool, GraphFault>
    ensures judged { Judged is_memory (λ b. b) result (params_checks (sub_place index item) (member_of (codes "params") (view value.now))) (are_unnamed (seen_params params.old.entries) (sub_params (view value.now))) }
    ensures added { OnOk result (seen_params params.new.entries ≡ with_params (seen_params params.old.entries) (sub_params (view value.now))) }
{
    let slot = text_under(value, "slot_name");
    let kind = Text::new(alloc, text_under(value, "type"))?;
    let unnamed = add_param(params, String::from_str(alloc, slot)?, kind)?;
    let mut prefix = String::from_str(alloc, slot)?;
    prefix.push_str(".")?;
    let owner = Owner::Subcomponent(index, item);
    let more = add_params(alloc, value, owner, prefix.as_str(), params)?;
    Ok(unnamed && more)
}

/// Whether a member is an empty array, or isn't there.
#[tactic(auto, using(crate::proofs::Params::no_items_counted))]
fn is_flat(value: &Value) -> bool
    ensures { result ≡ fits_if is_no_list (member_of (codes "subcomponents") (view value.now)) }
{
    match value.get("subcomponents") {
        None => true,
        Some(member) => match member.as_array() {
            None => false,
            Some(values) => values.len() == 0,
        },
    }
}

/// A subcomponent has no subcomponents.
#[tactic(auto, unfolding(crate::specs::Checks::first_fault, crate::specs::Subcomponents::flat_checks))]
fn flat_at(alloc: Global, value: &Value, index: usize, item: usize) -> Result<(), GraphFault>
    ensures { Passes is_memory result (flat_checks index item (member_of (codes "subcomponents") (view value.now))) }
{
    if is_flat(value) {
        Ok(())
    } else {
        let owner = Owner::Subcomponent(index, item);
        Err(GraphFault::Form(within(alloc, owner, ".subcomponents")?))
    }
}

/// The names of a subcomponent's parameters are new.
#[tactic(auto, unfolding(crate::specs::Checks::first_fault, crate::specs::Subcomponents::unnamed_checks))]
fn unnamed_at(alloc: Global, unnamed: bool, index: usize, item: usize) -> Result<(), GraphFault>
    ensures { Passes is_memory result (unnamed_checks index item unnamed) }
{
    if unnamed {
        Ok(())
    } else {
        Err(GraphFault::Form(within(alloc, Owner::Subcomponent(index, item), "")?))
    }
}

/// A subcomponent.
#[tactic(auto, using(crate::proofs::Judging::first_fault_append), unfolding(crate::specs::Subcomponents::sub_checks))]
fn sub_at(
    alloc: Global,
    value: &Value,
    index: usize,
    item: usize,
    params: &mut BTreeMap<String, Text>,
) -> Result<(), GraphFault>
    ensures judged { Passes is_memory result (sub_checks index item (seen_params params.old.entries) (view value.now)) }
    ensures added { OnOk result (seen_params params.new.entries ≡ with_params (seen_params params.old.entries) (sub_params (view value.now))) }
{
    slot_at(alloc, value, index, item)?;
    let unnamed = add_slot(alloc, value, index, item, params)?;
    flat_at(alloc, value, index, item)?;
    unnamed_at(alloc, unnamed, index, item)
}

/// Each subcomponent in order.
fn each_sub_at(
    alloc: Global,
    values: &[Value],
    index: usize,
    params: &mut BTreeMap<String, Text>,
) -> Result<(), GraphFault>
    ensures judged { Passes is_memory result (each_sub_checks index 0 (seen_params params.old.entries) (items_view values.now)) }
    ensures added { OnOk result (seen_params params.new.entries ≡ with_subs (seen_params params.old.entries) (items_view values.now)) }
{
    for (i, value) in values.iter().enumerate() {
        sub_at(alloc, value, index, i, params)?;
    }
    Ok(())
}

/// The list of subcomponents, which may be missing.
#[tactic(auto, unfolding(crate::specs::Checks::first_fault, crate::specs::Subcomponents::sub_list_checks))]
fn sub_list_at<'a>(
    alloc: Global,
    value: &'a Value,
    index: usize,
) -> Result<Option<&'a [Value]>, GraphFault>
    ensures { Judged is_memory (λ o. items_or (option_map (λ vs. items_view vs.now) o)) result (sub_list_checks index (member_of (codes "subcomponents") (view value.now))) (sub_items (view value.now)) }
{
    let Some(member) = value.get("subcomponents") else {
        return Ok(None);
    };
    let Some(values) = member.as_array() else {
        return Err(GraphFault::Form(within(alloc, Owner::Component(index), ".subcomponents")?));
    };
    Ok(Some(values.as_slice()))
}

/// The subcomponents, whose parameters are added.
#[tactic(auto, using(crate::proofs::Judging::first_fault_append, crate::proofs::Params::no_subs), unfolding(crate::specs::Subcomponents::subs_checks))]
pub fn subs_at(
    alloc: Global,
    value: &Value,
    index: usize,
    params: &mut BTreeMap<String, Text>,
) -> Result<(), GraphFault>
    ensures judged { Passes is_memory result (subs_checks index (seen_params params.old.entries) (member_of (codes "subcomponents") (view value.now))) }
    ensures added { OnOk result (seen_params params.new.entries ≡ with_subs (seen_params params.old.entries) (sub_items (view value.now))) }
{
    match sub_list_at(alloc, value, index)? {
        None => Ok(()),
        Some(values) => each_sub_at(alloc, values, index, params),
    }
}
