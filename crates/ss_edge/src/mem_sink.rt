//! A sink in memory.

ghost use Rattle.std.specs.Prelude.{◌≡◌, ◌+◌, ◌-◌, ◌^◌, ◌==◌, min, if◌then◌else◌, ◌<◌, ◌≤◌, ◌⊎◌, ◌++◌, [], Some, length, take, IfOk, OnOk, OnErr, IsErr, is_err};
ghost use Rattle.std.specs.List.{Contains};
ghost use Rattle.ss_edge.specs.Edge.{Rose, more};
ghost use Rattle.ss_edge.specs.Entries.{risen};

use crate::{Failed, Sink};
use std::alloc::Global;

/// A sink in memory, which tells what it took and fails at listed calls. Its calls are numbered from 0, up to 2^64 - 1.
#[derive(Drop)]
pub struct MemSink {
    taken: Vec<u8>,
    most: usize,
    fails: Vec<u64>,
    calls: u64,
    faults: u64,
    starved: u64,
}

impl MemSink {
    /// A sink that takes at most `most` bytes a call, or without limit where that is 0, and fails at the calls of `fails`. It
    /// takes no memory.
    pub fn new(alloc: Global, most: usize, fails: Vec<u64>) -> MemSink
        ensures taken { result.taken.items ≡ [] }
        ensures most { result.most ≡ most }
        ensures fails { result.fails ≡ fails }
        ensures calls { result.calls ≡ 0 }
        ensures faults { result.faults ≡ 0 }
        ensures starved { result.starved ≡ 0 }
    {
        MemSink {
            taken: Vec::new(alloc),
            most,
            fails,
            calls: 0,
            faults: 0,
            starved: 0,
        }
    }

    /// The bytes taken. It takes no memory.
    pub fn bytes(&self) -> &[u8]
        ensures { result.now ≡ self.now.taken.items }
    {
        self.taken.as_slice()
    }

    /// How many calls found no memory, up to 2^64 - 1. Such a call fails and takes nothing.
    pub fn starved(&self) -> u64
        ensures { result ≡ self.now.starved }
    {
        self.starved
    }
}

impl Sink for MemSink {
    ghost taken = { λ s. Some s.taken.items };

    ghost faults = { λ s. s.faults };

    fn write(&mut self, piece: &[u8]) -> Result<usize, Failed>
        ensures fits { IfOk result (λ n. n ≤ length piece.now) }
        ensures took { IfOk result (λ n. Some self.new.taken.items ≡ more (take n piece.now) (Some self.old.taken.items)) }
        ensures none { OnErr result (Some self.new.taken.items ≡ Some self.old.taken.items) }
        ensures faults { self.old.faults ≤ self.new.faults }
        ensures stuck { IfOk result (λ n. n ≡ 0 → 0 < length piece.now → Rose self.old.faults self.new.faults) }
        ensures cause { OnErr result (Rose self.old.faults self.new.faults) }
        ensures most { IfOk result (λ n. n ≡ (if self.old.most == 0 then length piece.now else min (length piece.now) self.old.most)) }
        ensures calls { self.new.calls ≡ risen self.old.calls }
        ensures counts { self.new.faults ≡ (if is_err result then risen self.old.faults else self.old.faults) }
        ensures only { OnErr result (Contains self.old.fails.items self.old.calls ⊎ Rose self.old.starved self.new.starved) }
        ensures listed { Contains self.old.fails.items self.old.calls → IsErr result }
        ensures starved { self.old.starved < self.new.starved → IsErr result }
        ensures keeps { (self.new.fails ≡ self.old.fails) × (self.new.most ≡ self.old.most) × ((self.new.starved ≡ self.old.starved) ⊎ (self.new.starved ≡ risen self.old.starved)) }
    {
        let listed = self.fails.contains(&self.calls);
        self.calls = self.calls.saturating_add(1);
        if listed {
            self.faults = self.faults.saturating_add(1);
            return Err(Failed);
        }
        let n = if self.most == 0 {
            piece.len()
        } else {
            piece.len().min(self.most)
        };
        match self.taken.extend_from_slice(&piece[..n]) {
            Ok(()) => Ok(n),
            Err(_) => {
                self.starved = self.starved.saturating_add(1);
                self.faults = self.faults.saturating_add(1);
                Err(Failed)
            }
        }
    }
}
