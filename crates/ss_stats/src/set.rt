//! Named statistics in order.

ghost use Rattle.std.specs.Prelude.{◌≡◌, ◌<◌, ◌∷◌, [], ◌++◌, length, Some, OnOk, OnErr};
ghost use Rattle.ss_stats.specs.Set.{with_value, set_with_value, set_with, stat_at, place_of};

use crate::accumulator::Accumulator;
use crate::histogram::Histogram;
use std::alloc::{AllocError, Global};
use std::marker::Model;
use std::mem;

/// A statistic.
#[derive(Drop)]
pub enum Stat {
    Accumulator(Accumulator),
    Histogram(Histogram),
}

impl Stat {
    /// Adds a value. It takes no memory.
    fn add(&mut self, v: u64)
        ensures { self.new ≡ with_value self.old v }
    {
        match self {
            Stat::Accumulator(accumulator) => accumulator.add(v),
            Stat::Histogram(histogram) => histogram.add(v),
        }
    }
}

/// A name and its statistic.
#[derive(Drop)]
pub(crate) struct Entry {
    pub(crate) name: Vec<u8>,
    pub(crate) stat: Stat,
}

impl Model for Entry {
    ghost use Rattle.std.specs.Prelude.{ℕ, List};
    ghost use Rattle.ss_stats.specs.declared.set.Stat.{Stat};

    ghost Value = { List ℕ × Stat };

    ghost view = { λ e. (e.name.items, e.stat) };
}

/// Named statistics in order. Clauses see the list of the names and their statistics.
#[derive(Drop)]
pub struct StatSet {
    entries: Vec<Entry>,
    alloc: Global,
}

impl Model for StatSet {
    ghost use Rattle.std.specs.Prelude.{ℕ, List};
    ghost use Rattle.ss_stats.specs.declared.set.Stat.{Stat};

    ghost Value = { List (List ℕ × Stat) };

    ghost view = { λ s. s.entries.items };
}

impl StatSet {
    /// No statistics. It takes no memory.
    pub fn new(alloc: Global) -> StatSet
        ensures { result ≡ [] }
    {
        StatSet {
            entries: Vec::new(alloc),
            alloc,
        }
    }

    /// Adds a statistic behind those that there are. It fails only where no memory is left, and the set is then as
    /// before.
    pub fn push(&mut self, name: &[u8], stat: Stat) -> Result<(), AllocError>
        ensures ok { OnOk result (self.new ≡ self.old ++ (name.now, stat) ∷ []) }
        ensures err { OnErr result (self.new ≡ self.old) }
    {
        let name = Vec::from_slice(self.alloc, name)?;
        self.entries.push(Entry { name, stat })?;
        Ok(())
    }

    /// Adds a value to the statistic at a place. It takes no memory.
    pub fn add(&mut self, index: usize, v: u64)
        requires { index < length self.old }
        ensures after { self.new ≡ set_with_value self.old index v }
        ensures len { length self.new ≡ length self.old }
    {
        let entry = &mut self.entries[index];
        entry.stat.add(v);
    }

    /// The least place of a statistic of this name, or `None` where none has it.
    pub fn find(&self, name: &[u8]) -> Option<usize>
        ensures { result ≡ place_of self.now name.now }
    {
        self.entries
            .iter()
            .position(|entry| entry.name.as_slice() == name)
    }

    /// How many statistics there are.
    pub fn len(&self) -> usize
        ensures { result ≡ length self.now }
    {
        self.entries.len()
    }

    /// The statistic at a place.
    pub fn stat(&self, index: usize) -> &Stat
        requires { index < length self.now }
        ensures { stat_at self.now index ≡ Some result.now }
    {
        let entry = &self.entries[index];
        &entry.stat
    }

    /// Puts another statistic in a place, under the name that is there, and gives the old one back. It takes no memory.
    pub fn replace(&mut self, index: usize, stat: Stat) -> Stat
        requires { index < length self.old }
        ensures after { self.new ≡ set_with self.old index stat }
        ensures before { stat_at self.old index ≡ Some result }
        ensures len { length self.new ≡ length self.old }
    {
        let entry = &mut self.entries[index];
        mem::replace(&mut entry.stat, stat)
    }

    pub(crate) fn entries(&self) -> &[Entry]
        ensures { result.now ≡ self.now }
    {
        self.entries.as_slice()
    }
}
