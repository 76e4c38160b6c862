//! Groups of components as a table: each entry leads to a component of the same group, and the entry of the group's
//! lowest component, whose number is the group's name, leads to itself.

ghost use Rattle.std.specs.Prelude.{◌≡◌, ◌==◌, ◌<◌, ◌≤◌, ℕ, List, length, not, slice_index};
ghost use Rattle.ss_part.specs.Forest.{GoesDown, Stands};
ghost use Rattle.ss_part.specs.Groups.{joined};

/// The name of a component's group. Each entry on the way is led two steps on, so that later ways are short.
pub fn name_of(table: &mut [u32], component: u32) -> u32
    requires down { GoesDown table.old }
    requires within { component < length table.old }
    ensures down { GoesDown table.new }
    ensures low { result ≤ component }
    ensures named { (names : List ℕ) → Stands table.old names → Stands table.new names × (result ≡ slice_index names component) }
{
    let mut at = component;
    while table[at as usize] != at {
        let up = table[at as usize];
        let above = table[up as usize];
        table[at as usize] = above;
        at = above;
    }
    at
}

/// Joins the groups of two components under the lower name, and tells whether they were two groups.
pub fn join(table: &mut [u32], a: u32, b: u32) -> bool
    requires down { GoesDown table.old }
    requires a_within { a < length table.old }
    requires b_within { b < length table.old }
    ensures down { GoesDown table.new }
    ensures joined { (names : List ℕ) → Stands table.old names → Stands table.new (joined names (slice_index names a) (slice_index names b)) }
    ensures two { (names : List ℕ) → Stands table.old names → result ≡ not (slice_index names a == slice_index names b) }
{
    let x = name_of(table, a);
    let y = name_of(table, b);
    let low = x.min(y);
    let high = x.max(y);
    table[high as usize] = low;
    low != high
}
