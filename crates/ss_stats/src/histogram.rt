//! Counts of values in bins of one width.

ghost use Rattle.std.specs.Prelude.{◌≡◌, ◌<◌, length, slice_index, slice_set, IfOk};
ghost use Rattle.ss_stats.specs.Binned.{InRange, no_values, binned};

use std::alloc::{AllocError, Global};
use std::marker::Model;

/// How many values there were, how many of them below all bins and above all bins, and how many in each bin. Bin
/// `i` has the values from `least + width * i` up to but not `least + width * (i + 1)`. A count that would pass
/// 2^64 - 1 stays there.
#[derive(Drop)]
pub struct Histogram {
    least: u64,
    width: u64,
    count: u64,
    below: u64,
    above: u64,
    bins: Vec<u64>,
}

impl Model for Histogram {
    ghost use Rattle.std.specs.Prelude.{length};
    ghost use Rattle.ss_stats.specs.Binned.{Binned, InRange};

    ghost Value = { Binned };

    ghost view = { λ h. record { least = h.least; width = h.width; count = h.count; below = h.below; above = h.above; bins = h.bins.items } };

    ghost invariant = { λ h. InRange h.least h.width (length h.bins.items) };
}

impl Histogram {
    /// No values in `bins` bins, the first of which begins at `least`. It fails only where no memory is left.
    pub fn new(alloc: Global, least: u64, width: u64, bins: u32) -> Result<Histogram, AllocError>
        requires { InRange least width bins }
        ensures { IfOk result (λ h. h ≡ no_values least width bins) }
    {
        let bins = Vec::from_elem(alloc, 0, bins as usize)?;
        Ok(Histogram {
            least,
            width,
            count: 0,
            below: 0,
            above: 0,
            bins,
        })
    }

    /// Adds a value. It takes no memory.
    pub fn add(&mut self, v: u64)
        ensures { self.new ≡ binned self.old v }
    {
        self.count = self.count.saturating_add(1);
        if v < self.least {
            self.below = self.below.saturating_add(1);
            return;
        }
        let place = ((v - self.least) / self.width) as usize;
        if place < self.bins.len() {
            self.bins[place] = self.bins[place].saturating_add(1);
        } else {
            self.above = self.above.saturating_add(1);
        }
    }

    /// How many values there were.
    pub fn count(&self) -> u64
        ensures { result ≡ self.now.count }
    {
        self.count
    }

    /// How many values were under the first bin.
    pub fn below(&self) -> u64
        ensures { result ≡ self.now.below }
    {
        self.below
    }

    /// How many values were past the last bin.
    pub fn above(&self) -> u64
        ensures { result ≡ self.now.above }
    {
        self.above
    }

    /// How many values were in a bin.
    pub fn bin(&self, i: u32) -> u64
        requires { i < length self.now.bins }
        ensures { result ≡ slice_index self.now.bins i }
    {
        self.bins[i as usize]
    }

    /// How many bins there are.
    pub fn bins(&self) -> u32
        ensures { result ≡ length self.now.bins }
    {
        self.bins.len() as u32
    }

    /// Sets the counts of all values, and of those below and above all bins, as they were saved. All else stays.
    pub fn set_counts(&mut self, count: u64, below: u64, above: u64)
        ensures { self.new ≡ record self.old { count = count; below = below; above = above } }
    {
        self.count = count;
        self.below = below;
        self.above = above;
    }

    /// Sets the count of a bin, as it was saved. All else stays.
    pub fn set_bin(&mut self, i: u32, n: u64)
        requires { i < length self.old.bins }
        ensures { self.new ≡ record self.old { bins = slice_set self.old.bins i n } }
    {
        self.bins[i as usize] = n;
    }
}
