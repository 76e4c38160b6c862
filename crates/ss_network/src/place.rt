//! Places in a graph's text, which are written only at a fault.

ghost use Rattle.std.specs.Prelude.{◌≡◌, ◌++◌, IfOk, OnOk, codes, string_bytes};
ghost use Rattle.ss_graph.specs.Checks.{at};

use itoa::Buffer;
use std::alloc::{AllocError, Global};

/// Adds an index in brackets.
pub fn push_index(place: &mut String, index: usize) -> Result<(), AllocError>
    ensures { OnOk result (string_bytes place.new ≡ at (string_bytes place.old) index) }
{
    let mut digits = Buffer::new();
    place.push_str("[")?;
    place.push_str(digits.format(index))?;
    place.push_str("]")
}

/// The place of an item of a list.
pub fn item_place(alloc: Global, list: &str, index: usize) -> Result<String, AllocError>
    ensures { IfOk result (λ t. string_bytes t ≡ at list.now index) }
{
    let mut place = String::from_str(alloc, list)?;
    push_index(&mut place, index)?;
    Ok(place)
}
