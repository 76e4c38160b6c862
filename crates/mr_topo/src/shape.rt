//! Texts of shapes.

ghost use Rattle.std.specs.Prelude.{◌≡◌, ℕ, List, IfOk, false};
ghost use Rattle.mr_topo.specs.Shape.{Spells, is_digit};

use mr_flow::ShapeFault;
use std::alloc::Global;

// The greatest number of a shape.
const MOST: u32 = 256;

/// The numbers of a text: decimal numbers from 1 to 256 without leading zeros, with the separators `first` and `second` between them in
/// turn. It is `Form` exactly where the text isn't of that form, and `NoMemory` where no memory is left.
pub fn numbers_in(alloc: Global, text: &[u8], first: u8, second: u8) -> Result<Vec<u32>, ShapeFault>
    requires first { is_digit first ≡ false }
    requires second { is_digit second ≡ false }
    ensures ok { IfOk result (λ v. Spells first second v.items text.now) }
    ensures form { result ≡ Err ShapeFault.Form → (ns : List ℕ) → Spells first second ns text.now → ⊥ }
{
    let mut numbers = Vec::new(alloc);
    let mut next = first;
    let mut other = second;
    let mut current = 0u32;
    for c in text {
        if *c >= b'0' && *c <= b'9' {
            current = current * 10 + (*c - b'0') as u32;
            if current == 0 || current > MOST {
                return Err(ShapeFault::Form);
            }
        } else if *c == next && current != 0 {
            numbers.push(current)?;
            current = 0;
            let passed = next;
            next = other;
            other = passed;
        } else {
            return Err(ShapeFault::Form);
        }
    }
    if current == 0 {
        return Err(ShapeFault::Form);
    }
    numbers.push(current)?;
    Ok(numbers)
}
