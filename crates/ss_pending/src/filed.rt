//! An event with its number.

ghost use Rattle.std.specs.Prelude.{◌≡◌};
ghost use Rattle.std.proofs.Common.{rules};
ghost use Rattle.std.specs.Cmp.{partial_order_from_own_ties};
ghost use Rattle.std.specs.Cmp.Rules.{comparing};
ghost use Rattle.std.specs.Ordering.{as_partial_cmp, eq_by_cmp};

use ss_model::Event;
use std::cmp::Ordering;

/// An event with its number among all that were put in. Of two, the one that comes first is the greater: by its
/// key, and with one key by its number.
#[derive(Clone, Copy, Drop)]
pub struct Filed<L> {
    pub event: Event<L>,
    pub number: u64,
}

impl<L> PartialEq for Filed<L> {
    ghost use Rattle.ss_pending.specs.Filed.{latest_first};

    ghost eq = { eq_by_cmp latest_first };

    ghost laws = { Prim.search (comparing, rules) depth 12 };

    fn eq(&self, other: &Filed<L>) -> bool {
        self.cmp(other).is_eq()
    }
}

impl<L> Eq for Filed<L> {
    ghost laws = { Prim.search (comparing, rules) depth 12 };
}

impl<L> PartialOrd for Filed<L> {
    ghost use Rattle.ss_pending.specs.Filed.{latest_first};

    ghost partial_cmp = { as_partial_cmp latest_first };

    ghost laws = { partial_order_from_own_ties (Prim.search (comparing, rules) depth 12) (Prim.search (comparing, rules) depth 12) };

    fn partial_cmp(&self, other: &Filed<L>) -> Option<Ordering> {
        Some(self.cmp(other))
    }
}

impl<L> Ord for Filed<L> {
    ghost use Rattle.ss_pending.specs.Filed.{latest_first};

    ghost cmp = { latest_first };

    ghost total = { Prim.search (comparing, rules) depth 12 };

    ghost matches_partial_cmp = { Prim.search (comparing, rules) depth 12 };

    ghost matches_eq = { Prim.search (comparing, rules) depth 12 };

    fn cmp(&self, other: &Filed<L>) -> Ordering {
        let (mine, its) = (&self.event.key, &other.event.key);
        its.time
            .cmp(&mine.time)
            .then(its.class.cmp(&mine.class))
            .then(its.line.cmp(&mine.line))
            .then(other.number.cmp(&self.number))
    }
}

impl<L> Filed<L> {
    ghost use Rattle.ss_pending.specs.Filed.{is_before};

    /// Whether it comes before another.
    pub fn is_before(&self, other: &Filed<L>) -> bool
        ensures { result ≡ is_before self.now other.now }
    {
        let (mine, its) = (&self.event.key, &other.event.key);
        if mine.time != its.time {
            return mine.time < its.time;
        }
        if mine.class != its.class {
            return mine.class < its.class;
        }
        if mine.line != its.line {
            return mine.line < its.line;
        }
        self.number < other.number
    }
}
