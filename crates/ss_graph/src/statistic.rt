//! The statistics that are asked of a component, and the thread that it names for itself.

ghost use Rattle.std.specs.Prelude.{◌≡◌, ◌++◌, ◌∷◌, [], codes, IfSome, option_map, ◌≤◌};
ghost use Rattle.serde_json.specs.Find.{get as member_of};
ghost use Rattle.serde_json.specs.View.{view, items_view};
ghost use Rattle.ss_graph.specs.Checks.{Judged, Passes, at};
ghost use Rattle.ss_graph.specs.Faults.{is_memory};
ghost use Rattle.ss_graph.specs.Options.{fits_if, the};
ghost use Rattle.ss_graph.specs.Components.{text_in, or_null, items_or, word_checks};
ghost use Rattle.ss_graph.specs.Statistics.{bounds_of, bounds_in, stat_place, digits_value, count_value, whole_of, whole_or, histogram_in as histogram_of, is_histogram, asked, least_in, width_in, bins_in, type_checks, asked_checks, bounds_checks, stat_checks, stat_of, each_stat_checks, stats_of, stat_items, stat_list_checks, stats_checks, thread_in as thread_of, thread_checks};

use crate::fault::GraphFault;
use crate::graph::StatAsk;
use crate::place::{Owner, within};
use crate::subcomponent::{owner_at, word_at};
use serde_json::Value;
use ss_units::Text;
use std::alloc::Global;

/// The number that digits write, where it is at most this.
fn digits_at(text: &[u8], most: u64) -> Option<u64>
    ensures value { result ≡ digits_value most 0 text.now }
    ensures few { IfSome result (λ n. n ≤ most) }
{
    let mut value = 0u64;
    for byte in text {
        if *byte < 48 || *byte > 57 {
            return None;
        }
        let next = value as u128 * 10 + (*byte - 48) as u128;
        if next > most as u128 {
            return None;
        }
        value = next as u64;
    }
    Some(value)
}

/// The number that a text without a leading 0 writes, where it is at most this.
fn count_at(text: &[u8], most: u64) -> Option<u64>
    ensures value { result ≡ count_value most text.now }
    ensures few { IfSome result (λ n. n ≤ most) }
{
    match text {
        [] => None,
        [48, _, ..] => None,
        _ => digits_at(text, most),
    }
}

/// A whole number, or a text of its digits, where it is at most this.
fn whole_in(value: &Value, most: u64) -> Option<u64>
    ensures value { result ≡ whole_of most (view value.now) }
    ensures few { IfSome result (λ n. n ≤ most) }
{
    if let Some(number) = value.as_u64() {
        return if number <= most { Some(number) } else { None };
    }
    match value.as_str() {
        None => None,
        Some(text) => count_at(text.as_bytes(), most),
    }
}

/// The number under a name in `params`, or this one where it isn't there.
fn number_in(value: &Value, name: &str, default: u64, most: u64) -> Option<u64>
    requires { default ≤ most }
    ensures value { result ≡ whole_or default most (asked (view value.now) name.now) }
    ensures few { IfSome result (λ n. n ≤ most) }
{
    let Some(params) = value.get("params") else {
        return Some(default);
    };
    match params.get(name) {
        None => Some(default),
        Some(member) => whole_in(member, most),
    }
}

/// Whether a statistic's type is that of a histogram.
fn histogram_in(value: &Value) -> Option<bool>
    ensures { result ≡ histogram_of (member_of (codes "type") (view value.now)) }
{
    let Some(member) = value.get("type") else {
        return Some(false);
    };
    let Some(text) = member.as_str() else {
        return None;
    };
    if text == "sst.AccumulatorStatistic" {
        Some(false)
    } else if text == "sst.HistogramStatistic" {
        Some(true)
    } else {
        None
    }
}

/// A statistic's name.
#[tactic(auto, unfolding(crate::specs::Checks::first_fault, crate::specs::Components::word_checks))]
fn stat_name_at(alloc: Global, value: &Value, index: usize, item: usize) -> Result<Text, GraphFault>
    ensures { Judged is_memory (λ t. t) result (word_checks (stat_place index item ++ codes ".name") (member_of (codes "name") (view value.now))) (text_in (member_of (codes "name") (view value.now))) }
{
    match value.get("name").and_then(Value::as_str) {
        None => Err(GraphFault::Form(within(alloc, Owner::Statistic(index, item), ".name")?)),
        Some(name) => Ok(Text::new(alloc, name)?),
    }
}

/// Whether a statistic is a histogram.
#[tactic(auto, unfolding(crate::specs::Checks::first_fault, crate::specs::Statistics::type_checks))]
fn type_at(alloc: Global, value: &Value, index: usize, item: usize) -> Result<bool, GraphFault>
    ensures { Judged is_memory (λ b. b) result (type_checks index item (member_of (codes "type") (view value.now))) (is_histogram (view value.now)) }
{
    match histogram_in(value) {
        None => Err(GraphFault::Form(within(alloc, Owner::Statistic(index, item), ".type")?)),
        Some(histogram) => Ok(histogram),
    }
}

/// A statistic's parameters are an object, where they are there.
#[tactic(auto, unfolding(crate::specs::Checks::first_fault, crate::specs::Statistics::asked_checks))]
fn asked_at(alloc: Global, value: &Value, index: usize, item: usize) -> Result<(), GraphFault>
    ensures { Passes is_memory result (asked_checks index item (member_of (codes "params") (view value.now))) }
{
    let Some(member) = value.get("params") else {
        return Ok(());
    };
    if member.is_object() {
        Ok(())
    } else {
        Err(GraphFault::Form(within(alloc, Owner::Statistic(index, item), ".params")?))
    }
}

/// A histogram's least value, the width of a bin and the number of its bins.
#[derive(Clone, Copy, Debug)]
struct Bounds {
    least: u64,
    width: u64,
    bins: u32,
}

/// A histogram's numbers.
fn numbers_in(value: &Value) -> Option<Bounds>
    ensures { result ≡ bounds_of (view value.now) }
{
    let Some(least) = number_in(value, "minvalue", 0, u64::MAX) else {
        return None;
    };
    let Some(width) = number_in(value, "binwidth", 5000, u64::MAX) else {
        return None;
    };
    match number_in(value, "numbins", 100, u32::MAX as u64) {
        None => None,
        Some(bins) => Some(Bounds {
            least,
            width,
            bins: bins as u32,
        }),
    }
}

/// A statistic's numbers, which are 0 for an accumulator.
#[tactic(auto, unfolding(crate::specs::Checks::first_fault, crate::specs::Statistics::bounds_checks))]
fn bounds_at(
    alloc: Global,
    value: &Value,
    histogram: bool,
    index: usize,
    item: usize,
) -> Result<Bounds, GraphFault>
    requires { histogram ≡ is_histogram (view value.now) }
    ensures { Judged is_memory (λ b. b) result (bounds_checks index item (view value.now)) (bounds_in (view value.now)) }
{
    if !histogram {
        return Ok(Bounds {
            least: 0,
            width: 0,
            bins: 0,
        });
    }
    match numbers_in(value) {
        None => Err(GraphFault::Form(within(alloc, Owner::Statistic(index, item), "")?)),
        Some(bounds) => Ok(bounds),
    }
}

/// A statistic.
#[tactic(auto, using(crate::proofs::Judging::first_fault_append), unfolding(crate::specs::Statistics::stat_checks))]
fn stat_at(alloc: Global, value: &Value, index: usize, item: usize) -> Result<StatAsk, GraphFault>
    ensures { Judged is_memory (λ s. s) result (stat_checks index item (view value.now)) (stat_of (view value.now)) }
{
    owner_at(alloc, value, Owner::Statistic(index, item))?;
    let name = stat_name_at(alloc, value, index, item)?;
    let histogram = type_at(alloc, value, index, item)?;
    asked_at(alloc, value, index, item)?;
    let bounds = bounds_at(alloc, value, histogram, index, item)?;
    Ok(StatAsk {
        name,
        histogram,
        least: bounds.least,
        width: bounds.width,
        bins: bounds.bins,
    })
}

/// Each statistic in order.
fn each_stat_at(alloc: Global, values: &[Value], index: usize) -> Result<Vec<StatAsk>, GraphFault>
    ensures { Judged is_memory (λ v. v.items) result (each_stat_checks index 0 (items_view values.now)) (stats_of (items_view values.now)) }
{
    let mut stats = Vec::new(alloc);
    for (i, value) in values.iter().enumerate() {
        stats.push(stat_at(alloc, value, index, i)?)?;
    }
    Ok(stats)
}

/// The list of statistics, which may be missing.
#[tactic(auto, unfolding(crate::specs::Checks::first_fault, crate::specs::Statistics::stat_list_checks))]
fn stat_list_at<'a>(
    alloc: Global,
    value: &'a Value,
    index: usize,
) -> Result<Option<&'a [Value]>, GraphFault>
    ensures { Judged is_memory (λ o. items_or (option_map (λ vs. items_view vs.now) o)) result (stat_list_checks index (member_of (codes "statistics") (view value.now))) (stat_items (view value.now)) }
{
    let Some(member) = value.get("statistics") else {
        return Ok(None);
    };
    let Some(values) = member.as_array() else {
        return Err(GraphFault::Form(within(alloc, Owner::Component(index), ".statistics")?));
    };
    Ok(Some(values.as_slice()))
}

/// The statistics of a component.
#[tactic(auto, using(crate::proofs::Judging::first_fault_append, crate::proofs::Params::no_stats), unfolding(crate::specs::Statistics::stats_checks))]
pub fn stats_at(alloc: Global, value: &Value, index: usize) -> Result<Vec<StatAsk>, GraphFault>
    ensures { Judged is_memory (λ v. v.items) result (stats_checks index (member_of (codes "statistics") (view value.now))) (stats_of (stat_items (view value.now))) }
{
    match stat_list_at(alloc, value, index)? {
        None => Ok(Vec::new(alloc)),
        Some(values) => each_stat_at(alloc, values, index),
    }
}

/// The thread that a component names for itself.
#[tactic(auto, unfolding(crate::specs::Checks::first_fault, crate::specs::Statistics::thread_checks))]
pub fn thread_at(alloc: Global, value: &Value, index: usize) -> Result<Option<u32>, GraphFault>
    ensures { Judged is_memory (λ t. t) result (thread_checks index (member_of (codes "partition") (view value.now))) (thread_of (member_of (codes "partition") (view value.now))) }
{
    let Some(partition) = value.get("partition") else {
        return Ok(None);
    };
    if !partition.is_object() {
        return Err(GraphFault::Form(within(alloc, Owner::Component(index), ".partition")?));
    }
    let Some(member) = partition.get("thread") else {
        return Ok(None);
    };
    match member.as_u64() {
        None => {}
        Some(thread) => {
            if thread < 1 << 32 {
                return Ok(Some(thread as u32));
            }
        }
    }
    Err(GraphFault::Form(within(alloc, Owner::Component(index), ".partition.thread")?))
}
