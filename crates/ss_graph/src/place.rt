//! Places in a graph's text, which are written only at a fault.

ghost use Rattle.std.specs.Prelude.{◌≡◌, ◌++◌, IfOk, OnOk, codes, decimal, string_bytes};
ghost use Rattle.ss_graph.specs.Checks.{at};
ghost use Rattle.ss_graph.specs.Owners.{owner_place};

use itoa::Buffer;
use ss_units::Text;
use std::alloc::{AllocError, Global};

/// What has parameters: a component, one of its subcomponents, or one of its statistics, by their places in
/// their lists.
#[derive(Clone, Copy, Debug, PartialEq, Eq)]
pub enum Owner {
    Component(usize),
    Subcomponent(usize, usize),
    Statistic(usize, usize),
}

/// Adds the place of an item to that of its list.
fn push_index(text: &mut String, index: usize) -> Result<(), AllocError>
    ensures { OnOk result (string_bytes text.new ≡ at (string_bytes text.old) index) }
{
    text.push_str("[")?;
    let mut buffer = Buffer::new();
    text.push_str(buffer.format(index))?;
    text.push_str("]")
}

/// A place within an item of a list.
pub fn within_item(alloc: Global, list: &str, index: usize, tail: &str) -> Result<Text, AllocError>
    ensures { IfOk result (λ t. t ≡ at list.now index ++ tail.now) }
{
    let mut text = String::from_str(alloc, list)?;
    push_index(&mut text, index)?;
    text.push_str(tail)?;
    Ok(Text::from_string(text))
}

fn component_place(alloc: Global, index: usize) -> Result<String, AllocError>
    ensures { IfOk result (λ s. string_bytes s ≡ at (codes "components") index) }
{
    let mut text = String::from_str(alloc, "components")?;
    push_index(&mut text, index)?;
    Ok(text)
}

/// The place of an item of a component's list.
fn item_place(alloc: Global, index: usize, list: &str, item: usize) -> Result<String, AllocError>
    ensures { IfOk result (λ s. string_bytes s ≡ at (at (codes "components") index ++ list.now) item) }
{
    let mut text = component_place(alloc, index)?;
    text.push_str(list)?;
    push_index(&mut text, item)?;
    Ok(text)
}

fn place_of(alloc: Global, owner: Owner) -> Result<String, AllocError>
    ensures { IfOk result (λ s. string_bytes s ≡ owner_place owner) }
{
    match owner {
        Owner::Component(index) => component_place(alloc, index),
        Owner::Subcomponent(index, item) => item_place(alloc, index, ".subcomponents", item),
        Owner::Statistic(index, item) => item_place(alloc, index, ".statistics", item),
    }
}

/// A place within a component, a subcomponent or a statistic.
pub fn within(alloc: Global, owner: Owner, tail: &str) -> Result<Text, AllocError>
    ensures { IfOk result (λ t. t ≡ owner_place owner ++ tail.now) }
{
    let mut text = place_of(alloc, owner)?;
    text.push_str(tail)?;
    Ok(Text::from_string(text))
}

/// The place of a parameter.
pub fn param_place(alloc: Global, owner: Owner, name: &str) -> Result<Text, AllocError>
    ensures { IfOk result (λ t. t ≡ (owner_place owner ++ codes ".params") ++ codes "." ++ name.now) }
{
    let mut text = place_of(alloc, owner)?;
    text.push_str(".params.")?;
    text.push_str(name)?;
    Ok(Text::from_string(text))
}
