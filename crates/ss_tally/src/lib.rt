//! Values that elements add to their statistics, by the places that the statistics have in their set.
#![tactic(auto)]

ghost use Rattle.std.specs.Prelude.{◌≡◌, ◌<◌, length, IfSome};
ghost use Rattle.ss_tally.specs.Tally.{added};

use ss_stats::StatSet;

/// Adds a value to the statistic at a place, where the graph asked for it. It takes no memory.
pub fn tally(stats: &mut StatSet, place: Option<usize>, value: u64)
    requires { IfSome place (λ i. i < length stats.old) }
    ensures added { stats.new ≡ added stats.old place value }
    ensures len { length stats.new ≡ length stats.old }
{
    if let Some(index) = place {
        stats.add(index, value);
    }
}

#[cfg(test)]
mod tests;
