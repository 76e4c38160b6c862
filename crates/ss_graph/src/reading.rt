//! Reading a graph's text.

ghost use Rattle.std.specs.Prelude.{◌≡◌, ◌⊎◌, Some, None, IfOk, IfErr, codes};
ghost use Rattle.serde_json.specs.Find.{get as member_of};
ghost use Rattle.serde_json.specs.View.{view};
ghost use Rattle.ss_graph.specs.Checks.{Judged, Passes};
ghost use Rattle.ss_graph.specs.Faults.{is_memory};
ghost use Rattle.ss_graph.specs.Components.{object_checks};
ghost use Rattle.ss_graph.specs.Options.{options_of, fits_if};
ghost use Rattle.ss_graph.specs.Judge.{json, shared_checks, is_empty_object, head_checks, value_checks, text_checks, graph_of_value, graph_of};
ghost use Rattle.ss_graph.specs.Fit.{IsFit};
ghost use Rattle.ss_graph.specs.declared.fault.GraphFault.TheVariants.{NoMemory, Text as NotText};

use crate::component::parts_at;
use crate::fault::{GraphFault, LimitKind};
use crate::graph::{Graph, Options};
use crate::link::joins_at;
use crate::options::options_at;
use indexmap::IndexSet;
use serde_json::Value;
use ss_units::{Items, Text};
use std::alloc::{AllocError, Global};

/// The value is an object.
#[tactic(auto, unfolding(crate::specs::Checks::first_fault, crate::specs::Components::object_checks))]
fn root_at(alloc: Global, value: &Value) -> Result<(), GraphFault>
    ensures { Passes is_memory result (object_checks (codes "graph") (view value.now)) }
{
    if value.is_object() {
        Ok(())
    } else {
        Err(GraphFault::Form(Text::new(alloc, "graph")?))
    }
}

/// Whether a member is an empty object, or isn't there.
#[tactic(auto, using(crate::proofs::Members::no_members_counted))]
fn is_empty_if(value: &Value, name: &str) -> bool
    ensures { result ≡ fits_if is_empty_object (member_of name.now (view value.now)) }
{
    match value.get(name) {
        None => true,
        Some(member) => match member.as_object() {
            None => false,
            Some(members) => members.is_empty(),
        },
    }
}

/// There are no shared parameters.
#[tactic(auto, unfolding(crate::specs::Checks::first_fault, crate::specs::Judge::shared_checks))]
fn shared_at(value: &Value) -> Result<(), GraphFault>
    ensures { Passes is_memory result (shared_checks (view value.now)) }
{
    if is_empty_if(value, "shared_params") && is_empty_if(value, "global_params") {
        Ok(())
    } else {
        Err(GraphFault::SharedParams)
    }
}

/// What stands before the components.
#[tactic(auto, using(crate::proofs::Judging::first_fault_append), unfolding(crate::specs::Judge::head_checks))]
fn head_at(alloc: Global, value: &Value) -> Result<Options, GraphFault>
    ensures { Judged is_memory (λ o. o) result (head_checks (view value.now)) (options_of (view value.now)) }
{
    root_at(alloc, value)?;
    shared_at(value)?;
    options_at(alloc, value)
}

fn copy_of(alloc: Global, text: &[u8]) -> Result<Items<u8>, AllocError>
    ensures { IfOk result (λ t. t ≡ text.now) }
{
    let mut bytes = Vec::new(alloc);
    bytes.extend_from_slice(text)?;
    Ok(Items::from_vec(bytes))
}

/// The graph of a value that was read from this text.
#[tactic(auto, using(crate::proofs::Judging::first_fault_append), unfolding(crate::specs::Judge::value_checks))]
fn graph_at(alloc: Global, text: &[u8], value: &Value) -> Result<Graph, GraphFault>
    ensures { Judged is_memory (λ g. g) result (value_checks (view value.now)) (graph_of_value text.now (view value.now)) }
{
    let options = head_at(alloc, value)?;
    let mut names = IndexSet::new(alloc);
    let components = parts_at(alloc, value, &mut names)?;
    let links = joins_at(alloc, value, &names, &components)?;
    Ok(Graph {
        text: copy_of(alloc, text)?,
        components: Items::from_vec(components),
        links: Items::from_vec(links),
        options,
    })
}

/// The value of a text.
fn value_of(alloc: Global, text: &[u8]) -> Result<Value, GraphFault>
    ensures ok { IfOk result (λ v. json text.now ≡ Some (view v)) }
    ensures err { IfErr result (λ e. (e ≡ NoMemory) ⊎ ((e ≡ NotText) × (json text.now ≡ None))) }
{
    match Value::from_slice(alloc, text) {
        Ok(value) => Ok(value),
        Err(e) => {
            if e.is_memory() {
                Err(GraphFault::NoMemory)
            } else {
                Err(GraphFault::Text)
            }
        }
    }
}

/// Reads a graph's text: a JSON object with its components, its links and its options.
///
/// The answer is the first check that fails, in the order of the members here; the place in a fault is that
/// of the member or the item that was judged. The form is this project's own, after SST's configuration.
///
/// - At most 67,108,864 bytes (`Limit`), which are a JSON text of depth 127 at most (`Text`), an object (`Form`).
/// - `shared_params` and `global_params` are missing or empty objects (`SharedParams`).
/// - `program_options` may be missing, else it is an object (`Form`) with the times `stop-at` (no time or 0 is
///   2^62 ps) and `exit-period` (1 us where it is missing, from 1 ps to 2^40 ps): texts (`Form`) with a unit (`Unit`).
/// - `components` is there (`Member`), an array (`Form`), of at most 65,536 items (`Limit`). Each is an object
///   (`Form`) with a `name` that is there (`Member`), is a text of at least one byte, none of them below 0x20 or
///   0x7F (`Form`), has at most 255 bytes (`Limit`) and is new (`DuplicateName`); a `type`, which is a text
///   (`Member`, `Form`); and `params`, which may be missing, else it is an object whose values are texts, whole
///   numbers below 2^64 or truth values (`Form`).
/// - A component's `subcomponents` may be missing, else they are an array of objects with the texts `slot_name`
///   and `type`, with `params` like a component's, and without subcomponents of their own (each `Form`). One in
///   slot `s` of type `t` is read as the parameter `s` with the value `t`, and its parameter `p` as `s.p`; a name
///   that is then there twice is `Form` at the subcomponent.
/// - A component's `statistics` may be missing, else they are an array of objects with the text `name`, the text
///   `type`, which is `sst.AccumulatorStatistic` or `sst.HistogramStatistic` and the first where it is missing,
///   and an object `params`, which may be missing. A histogram reads `minvalue` (0 where it is missing) and
///   `binwidth` (5000) below 2^64 and `numbins` (100) below 2^32 in it: whole numbers, or texts of their digits
///   without a leading 0. All faults are `Form`, those of the three numbers at the statistic.
/// - A component's `partition` may be missing, else it is an object, and its `thread` is a whole number below 2^32
///   where it is there (`Form`).
/// - The parameters `input_latency` and `output_latency` are times of at most 2^40 ps (`Unit`), 0 where they are
///   missing.
/// - `links` may be missing, else it is an array (`Form`) of at most 262,144 items (`Limit`). Each is an object
///   with a `name` like a component's, new among the links, and then two ends, `left` and `right`: each is
///   there (`Member`), an object (`Form`) with the texts (`Form`) `component`, a component's name
///   (`UnknownComponent`), `port`, which no earlier end of this component has (`PortTaken`), and `latency`, a
///   time (`Unit`). The latencies of both lines of a link are from 1 ps to 2^40 ps (`Latency`).
///
/// `NoMemory` may come at any place.
#[tactic(auto, using(crate::proofs::Texts::judged_long, crate::proofs::Texts::judged_value, crate::proofs::Texts::judged_fault))]
pub fn read(alloc: Global, text: &[u8]) -> Result<Graph, GraphFault>
    ensures judged { Judged is_memory (λ g. g) result (text_checks text.now) (graph_of text.now) }
    ensures fit { IfOk result (λ g. IsFit g) }
{
    if text.len() > 67_108_864 {
        return Err(GraphFault::Limit(LimitKind::GraphBytes, text.len() as u64));
    }
    let value = value_of(alloc, text)?;
    graph_at(alloc, text, &value)
}
