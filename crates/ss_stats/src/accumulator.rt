//! Counts, sums and extremes.

ghost use Rattle.std.specs.Prelude.{◌≡◌};
ghost use Rattle.ss_stats.specs.Steps.{accumulated};

/// How many values there were, their sum, the sum of their squares, and the least and the greatest of them. Least
/// and greatest are 0 where there was none. A number that would pass the greatest that its field holds stays there.
#[derive(Clone, Copy, Debug, PartialEq, Eq)]
pub struct Accumulator {
    pub count: u64,
    pub sum: u128,
    pub sumsq: u128,
    pub least: u64,
    pub greatest: u64,
}

impl Accumulator {
    /// No values.
    pub fn new() -> Accumulator
        ensures { result ≡ record { count = 0; sum = 0; sumsq = 0; least = 0; greatest = 0 } }
    {
        Accumulator {
            count: 0,
            sum: 0,
            sumsq: 0,
            least: 0,
            greatest: 0,
        }
    }

    /// Adds a value, whatever the fields are. It takes no memory.
    pub fn add(&mut self, v: u64)
        ensures { self.new ≡ accumulated self.old v }
    {
        if self.count == 0 {
            self.least = v;
            self.greatest = v;
        } else {
            self.least = self.least.min(v);
            self.greatest = self.greatest.max(v);
        }
        let wide = u128::from(v);
        self.count = self.count.saturating_add(1);
        self.sum = self.sum.saturating_add(wide);
        self.sumsq = self.sumsq.saturating_add(wide * wide);
    }
}
