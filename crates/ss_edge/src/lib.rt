//! The outside: shelves that hold named bytes, and sinks that take bytes. A program keeps its files behind a shelf and its
//! output behind a sink, and a test keeps both in memory. The two traits are this project's own.
#![tactic(auto)]

ghost use Rattle.std.specs.Prelude.{◌≡◌, ◌<◌, ◌≤◌, ◌++◌, ℕ, List, length, take, Option, IfOk, OnOk, OnErr};
ghost use Rattle.ss_edge.specs.Edge.{Contents, Rose, Kept, Reads, with_entry, PartlyPut, more, TookSome};

mod mem_shelf;
mod mem_sink;

pub use mem_shelf::MemShelf;
pub use mem_sink::MemSink;

/// A read, a put or a write failed. It comes only where a count of the object rose in that call.
#[derive(Clone, Copy, Debug, PartialEq, Eq)]
pub struct Failed;

/// Named bytes: a finite map from names to bytes, where it tells that, and for each name a count of failed reads and a count
/// of failed puts. No count ever falls. A count that is kept in 64 bits and stands at 2^64 - 1 counts as risen.
pub trait Shelf {
    /// What it holds, where it tells that.
    ghost held: { Self → Option Contents };

    /// How many reads of a name failed.
    ghost read_faults: { Self → List ℕ → ℕ };

    /// How many puts of a name failed.
    ghost put_faults: { Self → List ℕ → ℕ };

    /// Puts an entry's bytes from `at` on into the first places of `buf`, and answers how many. For a `buf` with room that is
    /// 0 exactly where `at` isn't below the entry's length. A name that isn't there is a fault. The map stays as it is.
    fn read_at(&mut self, name: &str, at: u64, buf: &mut [u8]) -> Result<usize, Failed>
        ensures fits { IfOk result (λ n. n ≤ length buf.new) }
        ensures read { IfOk result (λ n. Reads (held self.old) name.now at n buf.new) }
        ensures same { held self.new ≡ held self.old }
        ensures reads { Kept (read_faults self.old) (read_faults self.new) }
        ensures puts { Kept (put_faults self.old) (put_faults self.new) }
        ensures cause { OnErr result (Rose (read_faults self.old name.now) (read_faults self.new name.now)) };

    /// Makes `bytes` the entry of a name. After `Failed` the entry is a beginning of `bytes` or as before; other names stay.
    fn put(&mut self, name: &str, bytes: &[u8]) -> Result<(), Failed>
        ensures put { OnOk result (held self.new ≡ with_entry name.now bytes.now (held self.old)) }
        ensures partly { OnErr result (PartlyPut name.now bytes.now (held self.old) (held self.new)) }
        ensures reads { Kept (read_faults self.old) (read_faults self.new) }
        ensures puts { Kept (put_faults self.old) (put_faults self.new) }
        ensures cause { OnErr result (Rose (put_faults self.old name.now) (put_faults self.new name.now)) };
}

/// What takes bytes: the bytes that it has taken, where it tells that, and a count of faults that never falls.
pub trait Sink {
    /// What it has taken, where it tells that.
    ghost taken: { Self → Option (List ℕ) };

    /// How often it failed.
    ghost faults: { Self → ℕ };

    /// Takes the first bytes of a piece, and answers how many. After `Failed` it took none. Where it takes none of a piece
    /// that isn't empty, its count rises.
    fn write(&mut self, piece: &[u8]) -> Result<usize, Failed>
        ensures fits { IfOk result (λ n. n ≤ length piece.now) }
        ensures took { IfOk result (λ n. taken self.new ≡ more (take n piece.now) (taken self.old)) }
        ensures none { OnErr result (taken self.new ≡ taken self.old) }
        ensures faults { faults self.old ≤ faults self.new }
        ensures stuck { IfOk result (λ n. n ≡ 0 → 0 < length piece.now → Rose (faults self.old) (faults self.new)) }
        ensures cause { OnErr result (Rose (faults self.old) (faults self.new)) };
}

/// Writes all of `bytes`, in as many calls as the sink needs. After `Failed`, which also comes where the sink takes nothing,
/// the sink took a beginning of `bytes`.
#[tactic(auto, using(crate::proofs::More::writing))]
pub fn write_all<K: Sink>(out: &mut K, bytes: &[u8]) -> Result<(), Failed>
    ensures all { OnOk result (K.taken out.new ≡ more bytes.now (K.taken out.old)) }
    ensures some { OnErr result (TookSome bytes.now (K.taken out.old) (K.taken out.new)) }
    ensures faults { K.faults out.old ≤ K.faults out.new }
    ensures cause { OnErr result (Rose (K.faults out.old) (K.faults out.new)) }
{
    let mut at = 0;
    while at < bytes.len() {
        let n = out.write(&bytes[at..])?;
        if n == 0 {
            return Err(Failed);
        }
        at += n;
    }
    Ok(())
}

#[cfg(test)]
mod tests;
