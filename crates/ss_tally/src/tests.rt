//! A value is added at its place.

use crate::tally;
use ss_stats::{Accumulator, Stat, StatSet};
use std::alloc::AllocError;

// The count and the sum of the statistic at a place.
fn count_and_sum(stats: &StatSet, place: usize) -> Option<(u64, u128)> {
    if place >= stats.len() {
        return None;
    }
    match stats.stat(place) {
        Stat::Accumulator(a) => Some((a.count, a.sum)),
        Stat::Histogram(_) => None,
    }
}

#[test]
fn a_value_is_added_where_it_was_asked_for(rt: HostRuntime) -> Result<(), AllocError> {
    let mut stats = StatSet::new(rt.alloc());
    stats.push(b"sent", Stat::Accumulator(Accumulator::new()))?;
    let place = stats.find(b"sent");
    tally(&mut stats, place, 5);
    tally(&mut stats, None, 7);
    assert_eq!(rt; count_and_sum(&stats, 0), Some((1, 5)));
    Ok(())
}
