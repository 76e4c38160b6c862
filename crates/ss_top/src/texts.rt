//! What is listed of an accepted graph.

ghost use Rattle.std.specs.Prelude.{◌≡◌, ◌≤◌, ◌^◌, ◌∷◌, [], map, length, IfOk};
ghost use Rattle.ss_graph.specs.Fit.{IsFit};
ghost use Rattle.ss_top.specs.Answer.{accepted_text, part_line, part_lines, cut_line, division_texts};
ghost use Rattle.ss_top.specs.Simulate.{IsDivided};

use crate::refusal::{Refusal, undivided};
use crate::simulate::Verdict;
use ss_graph::{Graph, Part};
use ss_part::{How, Partition, assign, lookahead};
use ss_units::push_decimal;
use std::alloc::{AllocError, Global};

/// What an accepted graph says of itself.
#[tactic(auto, unfolding(crate::specs::Answer::accepted_text))]
fn accepted_line(alloc: Global, graph: &Graph) -> Result<Vec<u8>, AllocError>
    ensures { IfOk result (λ v. v.items ≡ accepted_text graph.now) }
{
    let mut text = Vec::from_slice(alloc, b"graph accepted: ")?;
    push_decimal(&mut text, graph.components.as_slice().len() as u128)?;
    text.extend_from_slice(b" components, ")?;
    push_decimal(&mut text, graph.links.as_slice().len() as u128)?;
    text.extend_from_slice(b" links\n")?;
    Ok(text)
}

/// One text that is listed.
fn listed(alloc: Global, text: Vec<u8>) -> Result<Vec<Vec<u8>>, AllocError>
    ensures { IfOk result (λ v. map (λ t. t.items) v.items ≡ text.items ∷ []) }
{
    let mut texts = Vec::new(alloc);
    texts.push(text)?;
    Ok(texts)
}

/// The text of an accepted graph, as a list.
pub fn checked(alloc: Global, graph: &Graph) -> Result<Vec<Vec<u8>>, AllocError>
    ensures { IfOk result (λ v. map (λ t. t.items) v.items ≡ accepted_text graph.now ∷ []) }
{
    listed(alloc, accepted_line(alloc, graph)?)
}

/// The line of a component and its part.
fn part_text(alloc: Global, name: &str, part: u32) -> Result<Vec<u8>, AllocError>
    ensures { IfOk result (λ v. v.items ≡ part_line name.now part) }
{
    let mut text = Vec::from_slice(alloc, name.as_bytes())?;
    text.push(b' ')?;
    push_decimal(&mut text, part as u128)?;
    text.push(b'\n')?;
    Ok(text)
}

/// The line of the least latency between two parts.
#[tactic(auto, unfolding(crate::specs::Answer::cut_line))]
fn cut_text(alloc: Global, least: u64) -> Result<Vec<u8>, AllocError>
    ensures { IfOk result (λ v. v.items ≡ cut_line least) }
{
    if least == 1 << 62 {
        return Vec::from_slice(alloc, b"cut none\n");
    }
    let mut text = Vec::from_slice(alloc, b"cut ")?;
    push_decimal(&mut text, least as u128)?;
    text.extend_from_slice(b" ps\n")?;
    Ok(text)
}

/// The lines of the components and their parts.
fn part_texts(
    alloc: Global,
    parts: &[Part],
    partition: &Partition,
) -> Result<Vec<Vec<u8>>, AllocError>
    requires whole { length partition.now.list ≡ length parts.now }
    requires few { length parts.now ≤ 2 ^ 16 }
    ensures { IfOk result (λ v. map (λ t. t.items) v.items ≡ part_lines partition.now.list 0 parts.now) }
{
    let mut texts = Vec::new(alloc);
    for (i, component) in parts.iter().enumerate() {
        let text = part_text(alloc, component.name.as_str(), partition.part_of(i as u32))?;
        texts.push(text)?;
    }
    Ok(texts)
}

/// What a division says.
fn division_list(
    alloc: Global,
    graph: &Graph,
    partition: &Partition,
) -> Result<Vec<Vec<u8>>, AllocError>
    requires fit { IsFit graph.now }
    requires whole { length partition.now.list ≡ length graph.now.components }
    ensures { IfOk result (λ v. map (λ t. t.items) v.items ≡ division_texts graph.now partition.now.list) }
{
    let mut texts = part_texts(alloc, graph.components.as_slice(), partition)?;
    let cut = cut_text(alloc, lookahead(graph, partition))?;
    texts.push(cut)?;
    Ok(texts)
}

/// Divides an accepted graph whose text stands under a name.
pub fn divide(alloc: Global, name: &str, graph: &Graph, parts: u32, how: How) -> Verdict
    requires { IsFit graph.now }
    ensures { IsDivided name.now graph.now parts how result }
{
    match assign(alloc, graph, parts, how) {
        Ok(partition) => match division_list(alloc, graph, &partition) {
            Ok(texts) => Verdict::Listed(texts),
            Err(_) => Verdict::Refused(Refusal::NoMemory),
        },
        Err(fault) => Verdict::Refused(undivided(alloc, fault)),
    }
}
