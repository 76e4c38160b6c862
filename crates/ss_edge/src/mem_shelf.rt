//! A shelf in memory.

ghost use Rattle.std.specs.Prelude.{◌≡◌, ◌+◌, ◌-◌, ◌^◌, ◌<◌, ◌≤◌, ◌⊎◌, ◌∷◌, ◌++◌, [], Some, None, length, take, MatchOption, IfOk, OnOk, OnErr, IsErr, is_err, IsSome, OnSome, ℕ, List, min, drop, map, option_map};
ghost use Rattle.std.specs.FinMap.{insert, get, from_entries};
ghost use Rattle.ss_edge.specs.Edge.{Rose, Kept, Reads, HasRead, with_entry, PartlyPut};
ghost use Rattle.ss_edge.specs.Entries.{IsAt, IsNowhere, contents, reads_of, puts_of, listed, kept_of, raw_of, risen, counted, Counts, Same};

use crate::{Failed, Shelf};
use ss_units::Text;
use std::alloc::{AllocError, Global};

/// An entry, and how many reads and puts of its name failed.
#[derive(Drop)]
pub struct Entry {
    name: Text,
    bytes: Vec<u8>,
    read_faults: u64,
    put_faults: u64,
}

/// Where the first entry of a name stands.
fn place_of(entries: &[Entry], name: &str) -> Option<usize>
    ensures { MatchOption result (IsNowhere name.now entries.now) (IsAt name.now entries.now) }
{
    for (i, entry) in entries.iter().enumerate() {
        if entry.name.as_str() == name {
            return Some(i);
        }
    }
    None
}

/// How many bytes a listed call keeps.
fn listed_at(fails: &[(u64, u64)], call: u64) -> Option<u64>
    ensures { result ≡ listed call fails.now }
{
    for fail in fails {
        if fail.0 == call {
            return Some(fail.1);
        }
    }
    None
}

/// Copies what an entry has from a place on, as far as there is room.
fn copy_from(entry: &[u8], at: u64, buf: &mut [u8]) -> usize
    ensures fits { result ≤ length buf.new }
    ensures read { HasRead entry.now at result buf.new }
{
    if at >= entry.len() as u64 {
        return 0;
    }
    let from = at as usize;
    let n = buf.len().min(entry.len() - from);
    buf[..n].copy_from_slice(&entry[from..from + n]);
    n
}

/// What a listed put keeps of its bytes.
fn kept_by(fails: Option<u64>, bytes: &[u8]) -> &[u8]
    ensures { result.now ≡ kept_of fails bytes.now }
{
    match fails {
        None => bytes,
        Some(n) => {
            if n < bytes.len() as u64 {
                &bytes[..n as usize]
            } else {
                bytes
            }
        }
    }
}

/// Counts a failed read of a name.
fn note_read(entries: &mut Vec<Entry>, name: &str, others: &mut u64)
    ensures contents { contents entries.new.items ≡ contents entries.old.items }
    ensures reads { (other : List ℕ) → reads_of others.new entries.new.items other ≡ counted (contents entries.old.items) name.now (reads_of others.old entries.old.items) other }
    ensures puts { (o : ℕ) → Same (puts_of o entries.old.items) (puts_of o entries.new.items) }
{
    match place_of(entries.as_slice(), name) {
        None => {
            *others = others.saturating_add(1);
        }
        Some(i) => {
            let entry = &mut entries[i];
            entry.read_faults = entry.read_faults.saturating_add(1);
        }
    }
}

/// Counts a failed put of a name.
fn note_put(entries: &mut Vec<Entry>, name: &str, others: &mut u64)
    ensures contents { contents entries.new.items ≡ contents entries.old.items }
    ensures reads { (o : ℕ) → Same (reads_of o entries.old.items) (reads_of o entries.new.items) }
    ensures puts { (other : List ℕ) → puts_of others.new entries.new.items other ≡ counted (contents entries.old.items) name.now (puts_of others.old entries.old.items) other }
{
    match place_of(entries.as_slice(), name) {
        None => {
            *others = others.saturating_add(1);
        }
        Some(i) => {
            let entry = &mut entries[i];
            entry.put_faults = entry.put_faults.saturating_add(1);
        }
    }
}

/// Makes these bytes the entry of a name. A new entry begins with the counts of the others.
fn store(
    alloc: Global,
    entries: &mut Vec<Entry>,
    name: &str,
    bytes: &[u8],
    reads: u64,
    puts: u64,
) -> Result<(), AllocError>
    ensures ok { OnOk result (contents entries.new.items ≡ insert (contents entries.old.items) name.now bytes.now) }
    ensures reads { Same (reads_of reads entries.old.items) (reads_of reads entries.new.items) }
    ensures puts { Same (puts_of puts entries.old.items) (puts_of puts entries.new.items) }
    ensures err { OnErr result (entries.new.items ≡ entries.old.items) }
{
    let kept = Vec::from_slice(alloc, bytes)?;
    match place_of(entries.as_slice(), name) {
        Some(i) => {
            let entry = &mut entries[i];
            entry.bytes = kept;
            Ok(())
        }
        None => {
            let entry = Entry {
                name: Text::new(alloc, name)?,
                bytes: kept,
                read_faults: reads,
                put_faults: puts,
            };
            entries.push(entry)?;
            Ok(())
        }
    }
}

/// A shelf in memory, which tells what it holds and fails at listed calls. Reads and puts are numbered together from 0, up to
/// 2^64 - 1. It counts failed reads and failed puts for each entry, and once more for all names that aren't there; a new
/// entry begins with those.
#[derive(Drop)]
pub struct MemShelf {
    alloc: Global,
    entries: Vec<Entry>,
    read_faults: u64,
    put_faults: u64,
    fails: Vec<(u64, u64)>,
    calls: u64,
    starved: u64,
}

impl MemShelf {
    /// A shelf with these entries. A pair `(k, n)` of `fails` makes call number `k` fail, and where that is a put, it keeps the
    /// first `n` bytes, or with `n` at 2^64 - 1 the old entry. Of several entries of one name, or pairs of one call, the first
    /// counts. It fails only where no memory is left.
    pub fn new(
        alloc: Global,
        entries: Vec<(Text, Vec<u8>)>,
        fails: Vec<(u64, u64)>,
    ) -> Result<MemShelf, AllocError>
        ensures held { IfOk result (λ s. contents s.entries.items ≡ from_entries (map raw_of entries.items)) }
        ensures fails { IfOk result (λ s. s.fails ≡ fails) }
        ensures counts { IfOk result (λ s. (name : List ℕ) → (reads_of s.read_faults s.entries.items name ≡ 0) × (puts_of s.put_faults s.entries.items name ≡ 0)) }
        ensures starved { IfOk result (λ s. (s.starved ≡ 0) × (s.calls ≡ 0)) }
    {
        let mut list = Vec::new(alloc);
        let mut rest = entries;
        rest.reverse();
        while let Some((name, bytes)) = rest.pop() {
            list.push(Entry {
                name,
                bytes,
                read_faults: 0,
                put_faults: 0,
            })?;
        }
        Ok(MemShelf {
            alloc,
            entries: list,
            read_faults: 0,
            put_faults: 0,
            fails,
            calls: 0,
            starved: 0,
        })
    }

    /// An entry's bytes, or `None` exactly where no entry has the name. It is no numbered call and takes no memory.
    pub fn entry(&self, name: &str) -> Option<&[u8]>
        ensures { option_map (λ b. b.now) result ≡ get (contents self.now.entries.items) name.now }
    {
        match place_of(self.entries.as_slice(), name) {
            None => None,
            Some(i) => Some(self.entries[i].bytes.as_slice()),
        }
    }

    /// How many calls found no memory, up to 2^64 - 1. Such a call fails and leaves all entries as they are.
    pub fn starved(&self) -> u64
        ensures { result ≡ self.now.starved }
    {
        self.starved
    }
}

impl Shelf for MemShelf {
    ghost held = { λ s. Some (contents s.entries.items) };

    ghost read_faults = { λ s. reads_of s.read_faults s.entries.items };

    ghost put_faults = { λ s. puts_of s.put_faults s.entries.items };

    fn read_at(&mut self, name: &str, at: u64, buf: &mut [u8]) -> Result<usize, Failed>
        ensures fits { IfOk result (λ n. n ≤ length buf.new) }
        ensures read { IfOk result (λ n. Reads (Some (contents self.old.entries.items)) name.now at n buf.new) }
        ensures same { Some (contents self.new.entries.items) ≡ Some (contents self.old.entries.items) }
        ensures reads { Kept (reads_of self.old.read_faults self.old.entries.items) (reads_of self.new.read_faults self.new.entries.items) }
        ensures puts { Kept (puts_of self.old.put_faults self.old.entries.items) (puts_of self.new.put_faults self.new.entries.items) }
        ensures cause { OnErr result (Rose ((reads_of self.old.read_faults self.old.entries.items) name.now) ((reads_of self.new.read_faults self.new.entries.items) name.now)) }
        ensures only { OnErr result (IsSome (listed self.old.calls self.old.fails.items) ⊎ (get (contents self.old.entries.items) name.now ≡ None)) }
        ensures listed { IsSome (listed self.old.calls self.old.fails.items) → IsErr result }
        ensures counts { Counts (is_err result) (contents self.old.entries.items) name.now (reads_of self.old.read_faults self.old.entries.items) (reads_of self.new.read_faults self.new.entries.items) }
        ensures others { Same (puts_of self.old.put_faults self.old.entries.items) (puts_of self.new.put_faults self.new.entries.items) }
        ensures calls { (self.new.calls ≡ risen self.old.calls) × (self.new.fails ≡ self.old.fails) × (self.new.starved ≡ self.old.starved) }
    {
        let fails = listed_at(self.fails.as_slice(), self.calls);
        self.calls = self.calls.saturating_add(1);
        if fails.is_some() {
            note_read(&mut self.entries, name, &mut self.read_faults);
            return Err(Failed);
        }
        match place_of(self.entries.as_slice(), name) {
            None => {
                note_read(&mut self.entries, name, &mut self.read_faults);
                Err(Failed)
            }
            Some(i) => Ok(copy_from(self.entries[i].bytes.as_slice(), at, buf)),
        }
    }

    fn put(&mut self, name: &str, bytes: &[u8]) -> Result<(), Failed>
        ensures put { OnOk result (Some (contents self.new.entries.items) ≡ with_entry name.now bytes.now (Some (contents self.old.entries.items))) }
        ensures partly { OnErr result (PartlyPut name.now bytes.now (Some (contents self.old.entries.items)) (Some (contents self.new.entries.items))) }
        ensures reads { Kept (reads_of self.old.read_faults self.old.entries.items) (reads_of self.new.read_faults self.new.entries.items) }
        ensures puts { Kept (puts_of self.old.put_faults self.old.entries.items) (puts_of self.new.put_faults self.new.entries.items) }
        ensures cause { OnErr result (Rose ((puts_of self.old.put_faults self.old.entries.items) name.now) ((puts_of self.new.put_faults self.new.entries.items) name.now)) }
        ensures only { OnErr result (IsSome (listed self.old.calls self.old.fails.items) ⊎ Rose self.old.starved self.new.starved) }
        ensures listed { IsSome (listed self.old.calls self.old.fails.items) → IsErr result }
        ensures starved { self.old.starved < self.new.starved → IsErr result }
        ensures starved_keeps { self.old.starved < self.new.starved → contents self.new.entries.items ≡ contents self.old.entries.items }
        ensures listed_keeps { listed self.old.calls self.old.fails.items ≡ Some (2 ^ 64 - 1) → contents self.new.entries.items ≡ contents self.old.entries.items }
        ensures listed_part { (n : ℕ) → listed self.old.calls self.old.fails.items ≡ Some n → n < 2 ^ 64 - 1 → self.old.starved < 2 ^ 64 - 1 → self.new.starved ≡ self.old.starved → contents self.new.entries.items ≡ insert (contents self.old.entries.items) name.now (take n bytes.now) }
        ensures counts { Counts (is_err result) (contents self.new.entries.items) name.now (puts_of self.old.put_faults self.old.entries.items) (puts_of self.new.put_faults self.new.entries.items) }
        ensures others { Same (reads_of self.old.read_faults self.old.entries.items) (reads_of self.new.read_faults self.new.entries.items) }
        ensures calls { (self.new.calls ≡ risen self.old.calls) × (self.new.fails ≡ self.old.fails) × ((self.new.starved ≡ self.old.starved) ⊎ (self.new.starved ≡ risen self.old.starved)) }
    {
        let fails = listed_at(self.fails.as_slice(), self.calls);
        self.calls = self.calls.saturating_add(1);
        if fails == Some(u64::MAX) {
            note_put(&mut self.entries, name, &mut self.put_faults);
            return Err(Failed);
        }
        let kept = kept_by(fails, bytes);
        match store(
            self.alloc,
            &mut self.entries,
            name,
            kept,
            self.read_faults,
            self.put_faults,
        ) {
            Err(_) => {
                self.starved = self.starved.saturating_add(1);
                note_put(&mut self.entries, name, &mut self.put_faults);
                Err(Failed)
            }
            Ok(()) => {
                if fails.is_some() {
                    note_put(&mut self.entries, name, &mut self.put_faults);
                    return Err(Failed);
                }
                Ok(())
            }
        }
    }
}
