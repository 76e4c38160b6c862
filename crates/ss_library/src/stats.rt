//! The statistics that elements begin with.

ghost use Rattle.std.specs.Prelude.{◌≡◌, ◌∷◌, [], take, not, ◌||◌, true, IfOk, Some};
ghost use Rattle.ss_graph.specs.Checks.{Judged};
ghost use Rattle.ss_network.specs.Faults.{is_memory};
ghost use Rattle.ss_library.specs.Stats.{empty_stat, empty_stats, has_bins, is_asked_before};
ghost use Rattle.ss_library.specs.Make.{stat_check, stats_by};

use crate::table::{KindName, has_stat};
use ss_graph::{Part, StatAsk};
use ss_network::{MakeFault, item_place, push_index};
use ss_stats::{Accumulator, Histogram, Stat, StatSet};
use ss_units::Text;
use std::alloc::{AllocError, Global};

/// Whether a histogram's bins may be so wide and so many.
fn can_be_binned(ask: &StatAsk) -> bool
    ensures { result ≡ has_bins ask.now }
{
    let end = ask.least as u128 + ask.width as u128 * ask.bins as u128;
    ask.width >= 1 && ask.bins >= 1 && ask.bins <= 65536 && end <= 1 << 63
}

/// A statistic without values.
fn new_stat(alloc: Global, ask: &StatAsk) -> Result<Stat, AllocError>
    requires { (not ask.now.histogram || has_bins ask.now) ≡ true }
    ensures { IfOk result (λ s. s ≡ empty_stat ask.now) }
{
    if ask.histogram {
        let histogram = Histogram::new(alloc, ask.least, ask.width, ask.bins)?;
        Ok(Stat::Histogram(histogram))
    } else {
        Ok(Stat::Accumulator(Accumulator::new()))
    }
}

/// Statistic `item` of component `index`, without values. Its kind must have it, it must not be asked for
/// before, and a histogram's bins must be within their limits.
#[tactic(auto, unfolding(ss_graph::specs::Checks::first_fault))]
fn stat_at(
    alloc: Global,
    kind: KindName,
    part: &Part,
    before: &StatSet,
    index: usize,
    item: usize,
    ask: &StatAsk,
) -> Result<Stat, MakeFault>
    requires { before.now ≡ empty_stats (take item part.now.stats) }
    ensures { Judged is_memory (λ s. s) result (stat_check (Some kind) part.now.stats index item ask.now ∷ []) (empty_stat ask.now) }
{
    let name = ask.name.as_str();
    let is_new = before.find(name.as_bytes()).is_none();
    if has_stat(kind, name) && is_new && (!ask.histogram || can_be_binned(ask)) {
        return Ok(new_stat(alloc, ask)?);
    }
    let mut place = item_place(alloc, "components", index)?;
    place.push_str(".statistics")?;
    push_index(&mut place, item)?;
    Err(MakeFault::Param(Text::from_string(place)))
}

/// The statistics that component `index` asks for, without values.
pub fn set_of(
    alloc: Global,
    kind: KindName,
    part: &Part,
    index: usize,
) -> Result<StatSet, MakeFault>
    ensures { Judged is_memory (λ s. s) result (stats_by index part.now (Some kind)) (empty_stats part.now.stats) }
{
    let mut stats = StatSet::new(alloc);
    for (item, ask) in part.stats.as_slice().iter().enumerate() {
        let stat = stat_at(alloc, kind, part, &stats, index, item, ask)?;
        stats.push(ask.name.as_str().as_bytes(), stat)?;
    }
    Ok(stats)
}
