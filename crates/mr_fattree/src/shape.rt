//! Texts of fat trees.

ghost use Rattle.std.specs.Prelude.{◌≡◌, ℕ, List, ◌+◌, ◌<◌, ◌≤◌, ◌%◌, ◌↔◌, IsTrue, IfOk, length, slice_index, EachIndex};
ghost use Rattle.mr_fattree.specs.declared.Level.{Level};
ghost use Rattle.mr_fattree.specs.Tree.{AreLevels, IsLevel, IsTree, IsShape, levels_of};

use crate::Level;
use crate::levels::{before_of, downs_of};
use mr_flow::ShapeFault;
use mr_topo::numbers_in;
use std::alloc::{AllocError, Global};

// Whether these are the ports of a level, which is the last one or not.
fn is_level(level: Level, last: bool) -> bool
    ensures { IsTrue result ↔ IsLevel level.down level.up last }
{
    level.down >= 1 && level.down <= 128 && level.up <= 128 && (level.up == 0) == last
}

fn are_levels(levels: &[Level]) -> bool
    ensures { IsTrue result ↔ AreLevels levels.now }
{
    for l in 0..levels.len() {
        if !is_level(levels[l], l + 1 == levels.len()) {
            return false;
        }
    }
    true
}

// Whether levels make a tree.
fn is_tree(levels: &[Level]) -> bool
    ensures { IsTrue result ↔ IsTree levels.now }
{
    if levels.is_empty() || levels.len() > 4 || !are_levels(levels) {
        return false;
    }
    before_of(levels, levels.len()) <= 65536 && downs_of(levels) <= 4096
}

// Whether these may be numbers of ports.
fn are_few(numbers: &[u32]) -> bool
    ensures { IsTrue result ↔ EachIndex numbers.now (λ k. slice_index numbers.now k ≤ 128) }
{
    numbers.iter().all(|n| *n <= 128)
}

// The levels of numbers, which are ports down and up in turn.
#[tactic(auto, using(crate::proofs::Shapes::levels_step, crate::proofs::Shapes::levels_end))]
fn levels_from(alloc: Global, numbers: &[u32]) -> Result<Vec<Level>, AllocError>
    requires odd { length numbers.now % 2 ≡ 1 }
    requires few { EachIndex numbers.now (λ k. slice_index numbers.now k ≤ 128) }
    ensures { IfOk result (λ v. v.items ≡ levels_of numbers.now) }
{
    let mut levels = Vec::new(alloc);
    for l in 0..numbers.len() / 2 {
        levels.push(Level {
            down: numbers[2 * l] as u8,
            up: numbers[2 * l + 1] as u8,
        })?;
    }
    levels.push(Level {
        down: numbers[numbers.len() - 1] as u8,
        up: 0,
    })?;
    Ok(levels)
}

// The levels of a shape's text.
#[tactic(auto, using(crate::proofs::Shapes::shape_spells, crate::proofs::Shapes::shape_from))]
pub(crate) fn levels_in(alloc: Global, shape: &[u8]) -> Result<Vec<Level>, ShapeFault>
    ensures ok { IfOk result (λ v. IsShape v.items shape.now) }
    ensures form { result ≡ Err ShapeFault.Form → (ls : List Level) → IsShape ls shape.now → ⊥ }
{
    let numbers = numbers_in(alloc, shape, b',', b':')?;
    if numbers.len() % 2 == 0 || !are_few(&numbers) {
        return Err(ShapeFault::Form);
    }
    let levels = levels_from(alloc, &numbers)?;
    if is_tree(&levels) {
        Ok(levels)
    } else {
        Err(ShapeFault::Form)
    }
}
