//! The divisions that ask for nothing but numbers.

ghost use Rattle.std.specs.Prelude.{◌≡◌, ℕ, ◌*◌, ◌/◌, ◌%◌, ◌<◌, ◌≤◌, length, map, not, position, replicate, unwrap_or, IfOk};
ghost use Rattle.std.specs.List.{range_with_len};
ghost use Rattle.ss_part.specs.Division.{AreBelow};
ghost use Rattle.ss_part.specs.Assigned.{is_placed as placed};

use ss_graph::Part;
use std::alloc::{AllocError, Global};

/// Of `count` components in order, the `c`-th goes into part `c * parts / count`, rounded down.
pub fn linear(alloc: Global, count: usize, parts: u32) -> Result<Vec<u32>, AllocError>
    requires few { count ≤ 65536 }
    requires some { 0 < parts }
    requires most { parts ≤ 32 }
    ensures list { IfOk result (λ v. v.items ≡ map (λ c. c * parts / count) (range_with_len 0 count)) }
    ensures whole { IfOk result (λ v. length v.items ≡ count) }
    ensures below { IfOk result (λ v. AreBelow v.items parts) }
{
    let mut list = Vec::new(alloc);
    for c in 0..count {
        let part = c * parts as usize / count;
        list.push(part as u32)?;
    }
    Ok(list)
}

/// Component `c` goes into part `c` modulo `parts`.
pub fn round_robin(alloc: Global, count: usize, parts: u32) -> Result<Vec<u32>, AllocError>
    requires few { count ≤ 65536 }
    requires some { 0 < parts }
    ensures list { IfOk result (λ v. v.items ≡ map (λ c. c % parts) (range_with_len 0 count)) }
    ensures whole { IfOk result (λ v. length v.items ≡ count) }
    ensures below { IfOk result (λ v. AreBelow v.items parts) }
{
    (0..count as u32).map(|c| c % parts).collect(alloc)
}

/// All components go into part 0.
pub fn single(alloc: Global, count: usize) -> Result<Vec<u32>, AllocError>
    ensures list { IfOk result (λ v. v.items ≡ replicate count 0) }
    ensures whole { IfOk result (λ v. length v.items ≡ count) }
    ensures below { IfOk result (λ v. (parts : ℕ) → 0 < parts → AreBelow v.items parts) }
{
    vec![in alloc; 0; count]
}

/// Whether the thread that a component names is there and is a part.
#[tactic(auto, unfolding(crate::specs::Assigned::is_placed))]
fn is_placed(component: &Part, parts: u32) -> bool
    ensures { result ≡ placed parts component.now }
{
    component.thread.map_or(false, |thread| thread < parts)
}

/// The first component whose thread is missing or is no part.
pub fn first_misplaced(components: &[Part], parts: u32) -> Option<u32>
    requires { length components.now ≤ 65536 }
    ensures { result ≡ position (λ c. not (placed parts c)) components.now }
{
    for (c, component) in components.iter().enumerate() {
        if !is_placed(component, parts) {
            return Some(c as u32);
        }
    }
    None
}

/// Each component goes into the part of the thread that it names.
pub fn self_named(alloc: Global, components: &[Part]) -> Result<Vec<u32>, AllocError>
    ensures { IfOk result (λ v. v.items ≡ map (λ c. unwrap_or c.thread 0) components.now) }
{
    let mut list = Vec::new(alloc);
    for component in components {
        list.push(component.thread.unwrap_or(0))?;
    }
    Ok(list)
}
