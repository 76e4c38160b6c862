//! Merges the lines that the parts of a simulation printed.
#![tactic(auto)]

ghost use Rattle.std.specs.Prelude.{◌≡◌, IfOk, OnOk};
ghost use Rattle.std.specs.List.{flat_map};
ghost use Rattle.ss_merge.specs.Merge.{IsMerged};

#[cfg(test)]
mod tests;

use ss_model::Line;
use std::alloc::{AllocError, Global};

// The lines of all lists, list by list.
fn joined(alloc: Global, per_part: Vec<Vec<Line>>) -> Result<Vec<Line>, AllocError>
    ensures { IfOk result (λ lines. lines.items ≡ flat_map (λ part. part.items) per_part.items) }
{
    let mut lines = Vec::new(alloc);
    for mut part in per_part {
        lines.append(&mut part)?;
    }
    Ok(lines)
}

// Sorts lines by their keys. Those of one key keep their order.
fn sort(lines: &mut Vec<Line>) -> Result<(), AllocError>
    ensures { OnOk result (IsMerged lines.old.items lines.new.items) }
{
    lines.sort_by_key(|line| line.key)?;
    Ok(())
}

/// The lines of all lists in the order of their keys. Those of one key stand in the order of the lists and,
/// in each list, in its order. Lists that are sorted already, and share no key, are merged in about linear
/// time.
pub fn merge_lines(alloc: Global, per_part: Vec<Vec<Line>>) -> Result<Vec<Line>, AllocError>
    ensures merged { IfOk result (λ lines. IsMerged (flat_map (λ part. part.items) per_part.items) lines.items) }
{
    let mut lines = joined(alloc, per_part)?;
    sort(&mut lines)?;
    Ok(lines)
}
