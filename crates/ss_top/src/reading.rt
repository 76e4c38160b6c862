//! Reading whole entries.

ghost use Rattle.std.specs.Prelude.{◌≡◌, ◌<◌, ◌≤◌, ◌+◌, ◌^◌, ℕ, List, length, IfOk, IsErrOf};
ghost use Rattle.ss_edge.specs.Edge.{Rose, Kept};
ghost use Rattle.ss_top.specs.Reading.{Holds};

use ss_edge::Shelf;
use std::alloc::{AllocError, Global};

/// Why an entry was not read.
#[derive(Clone, Copy, Debug, PartialEq, Eq)]
pub enum ReadStop {
    Failed,
    TooLarge,
    NoMemory,
}

/// How many bytes are asked of the shelf at once.
const PIECE: usize = 1 << 18;

/// A buffer of so many bytes.
fn buffer(alloc: Global, size: usize) -> Result<Vec<u8>, AllocError>
    ensures { IfOk result (λ v. length v.items ≡ size) }
{
    vec![in alloc; 0u8; size]
}

/// Reads a whole entry of at most `most` bytes, in pieces.
pub fn read_entry<V: Shelf>(
    alloc: Global,
    shelf: &mut V,
    name: &str,
    most: usize,
) -> Result<Vec<u8>, ReadStop>
    requires { most < 2 ^ 62 }
    ensures whole { IfOk result (λ b. Holds (V.held shelf.old) name.now b.items) }
    ensures within { IfOk result (λ b. length b.items ≤ most) }
    ensures large { IsErrOf result ReadStop.TooLarge → (e : List ℕ) × (most < length e) × Holds (V.held shelf.old) name.now e }
    ensures failed { IsErrOf result ReadStop.Failed → Rose (V.read_faults shelf.old name.now) (V.read_faults shelf.new name.now) }
    ensures same { V.held shelf.new ≡ V.held shelf.old }
    ensures reads { Kept (V.read_faults shelf.old) (V.read_faults shelf.new) }
    ensures puts { Kept (V.put_faults shelf.old) (V.put_faults shelf.new) }
{
    let mut bytes = Vec::new(alloc);
    let Ok(mut piece) = buffer(alloc, PIECE) else {
        return Err(ReadStop::NoMemory);
    };
    while bytes.len() <= most {
        let n = match shelf.read_at(name, bytes.len() as u64, piece.as_mut_slice()) {
            Ok(n) => n,
            Err(_) => return Err(ReadStop::Failed),
        };
        if n == 0 {
            return Ok(bytes);
        }
        if bytes.extend_from_slice(&piece[..n]).is_err() {
            return Err(ReadStop::NoMemory);
        }
    }
    Err(ReadStop::TooLarge)
}
