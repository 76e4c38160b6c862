//! Parameters.

ghost use Rattle.std.specs.Prelude.{◌≡◌, ◌++◌, ◌∷◌, [], codes, IfOk, OnOk, string_bytes};
ghost use Rattle.serde_json.specs.Find.{get as member_of};
ghost use Rattle.serde_json.specs.View.{view, members_view};
ghost use Rattle.ss_graph.specs.Checks.{Judged};
ghost use Rattle.ss_graph.specs.Faults.{is_memory};
ghost use Rattle.ss_graph.specs.Owners.{owner_place};
ghost use Rattle.ss_graph.specs.Options.{the};
ghost use Rattle.ss_graph.specs.Components.{value_text, param_checks, params_checks, params_of, members_in, seen_params, with_param, with_params, is_unnamed, are_unnamed, delay_of, delay_checks, delays_checks};

use crate::fault::GraphFault;
use crate::place::{Owner, param_place, within};
use itoa::Buffer;
use serde_json::{Map, Value};
use ss_units::{Text, ps_of};
use std::alloc::{AllocError, AllocFailed, Global};
use std::collections::BTreeMap;

/// The text of a parameter's value.
fn value_at(alloc: Global, value: &Value) -> Result<Option<Text>, AllocError>
    ensures { IfOk result (λ t. t ≡ value_text (view value.now)) }
{
    if let Some(text) = value.as_str() {
        return Ok(Some(Text::new(alloc, text)?));
    }
    if let Some(n) = value.as_u64() {
        let mut buffer = Buffer::new();
        return Ok(Some(Text::new(alloc, buffer.format(n))?));
    }
    match value.as_bool() {
        None => Ok(None),
        Some(b) => Ok(Some(Text::new(alloc, if b { "true" } else { "false" })?)),
    }
}

/// Adds a parameter, and tells whether its name is new.
#[tactic(auto, using(crate::proofs::Params::seen_insert, crate::proofs::Params::seen_get))]
pub fn add_param(
    params: &mut BTreeMap<String, Text>,
    name: String,
    text: Text,
) -> Result<bool, AllocFailed<(String, Text)>>
    ensures unnamed { IfOk result (λ b. b ≡ is_unnamed (seen_params params.old.entries) (string_bytes name)) }
    ensures added { OnOk result (seen_params params.new.entries ≡ with_param (seen_params params.old.entries) (string_bytes name, text)) }
{
    let old = params.insert(name, text)?;
    Ok(old.is_none())
}

/// Adds the members of an object as parameters whose names begin like this, and tells whether all are new.
#[tactic(auto, unfolding(crate::specs::Checks::first_fault, crate::specs::Components::param_checks))]
fn add_members(
    alloc: Global,
    members: &Map<String, Value>,
    owner: Owner,
    prefix: &str,
    params: &mut BTreeMap<String, Text>,
) -> Result<bool, GraphFault>
    ensures judged { Judged is_memory (λ b. b) result (param_checks (owner_place owner ++ codes ".params") (members_view members.now.entries)) (are_unnamed (seen_params params.old.entries) (params_of prefix.now (members_view members.now.entries))) }
    ensures added { OnOk result (seen_params params.new.entries ≡ with_params (seen_params params.old.entries) (params_of prefix.now (members_view members.now.entries))) }
{
    let mut unnamed = true;
    for (name, value) in members.iter() {
        let Some(text) = value_at(alloc, value)? else {
            return Err(GraphFault::Form(param_place(alloc, owner, name.as_str())?));
        };
        let mut key = String::from_str(alloc, prefix)?;
        key.push_str(name.as_str())?;
        let added = add_param(params, key, text)?;
        unnamed = unnamed && added;
    }
    Ok(unnamed)
}

/// Adds the parameters that stand under `params`, where it is there.
#[tactic(auto, unfolding(crate::specs::Checks::first_fault, crate::specs::Components::params_checks, crate::specs::Components::param_checks))]
pub fn add_params(
    alloc: Global,
    value: &Value,
    owner: Owner,
    prefix: &str,
    params: &mut BTreeMap<String, Text>,
) -> Result<bool, GraphFault>
    ensures judged { Judged is_memory (λ b. b) result (params_checks (owner_place owner) (member_of (codes "params") (view value.now))) (are_unnamed (seen_params params.old.entries) (params_of prefix.now (members_in (member_of (codes "params") (view value.now))))) }
    ensures added { OnOk result (seen_params params.new.entries ≡ with_params (seen_params params.old.entries) (params_of prefix.now (members_in (member_of (codes "params") (view value.now))))) }
{
    let Some(member) = value.get("params") else {
        return Ok(true);
    };
    let Some(members) = member.as_object() else {
        return Err(GraphFault::Form(within(alloc, owner, ".params")?));
    };
    add_members(alloc, members, owner, prefix, params)
}

/// The parameters as a list, in byte order of their names.
pub fn listed(
    alloc: Global,
    mut params: BTreeMap<String, Text>,
) -> Result<Vec<(Text, Text)>, AllocFailed<(Text, Text)>>
    ensures { IfOk result (λ v. v.items ≡ seen_params params.entries) }
{
    let mut list = Vec::new(alloc);
    while let Some((name, text)) = params.pop_first() {
        list.push((Text::from_string(name), text))?;
    }
    Ok(list)
}

/// The time that a parameter gives, in picoseconds: 0 where it isn't there.
fn delay_in(params: &[(Text, Text)], name: &str) -> Option<u64>
    ensures { result ≡ delay_of name.now params.now }
{
    for param in params {
        if param.0.as_str() == name {
            return match ps_of(param.1.as_str().as_bytes()) {
                Err(_) => None,
                Ok(time) => if time <= 1 << 40 { Some(time) } else { None },
            };
        }
    }
    Some(0)
}

/// What a component adds to the latency of its lines.
#[tactic(auto, unfolding(crate::specs::Checks::first_fault, crate::specs::Components::delay_checks))]
fn delay_at(
    alloc: Global,
    params: &[(Text, Text)],
    name: &str,
    index: usize,
) -> Result<u64, GraphFault>
    ensures { Judged is_memory (λ t. t) result (delay_checks index name.now params.now) (the (delay_of name.now params.now)) }
{
    match delay_in(params, name) {
        None => Err(GraphFault::Unit(param_place(alloc, Owner::Component(index), name)?)),
        Some(time) => Ok(time),
    }
}

/// What a component adds to the latency of the lines that it receives from, and of those that it sends to.
#[tactic(auto, using(crate::proofs::Judging::first_fault_append), unfolding(crate::specs::Components::delays_checks))]
pub fn delays_at(
    alloc: Global,
    params: &[(Text, Text)],
    index: usize,
) -> Result<(u64, u64), GraphFault>
    ensures { Judged is_memory (λ t. t) result (delays_checks index params.now) (the (delay_of (codes "input_latency") params.now), the (delay_of (codes "output_latency") params.now)) }
{
    let input = delay_at(alloc, params, "input_latency", index)?;
    let output = delay_at(alloc, params, "output_latency", index)?;
    Ok((input, output))
}
