//! The levels of a fat tree, and its routers by number and by place.

ghost use Rattle.std.specs.Prelude.{◌≡◌, ℕ, ◌+◌, ◌-◌, ◌*◌, ◌/◌, ◌%◌, ◌<◌, ◌≤◌, ◌^◌, ◌↔◌, IsTrue, IfOk, length, take, drop};
ghost use Rattle.mr_fattree.specs.Tree.{IsPlace, IsTree, before, below, above, downs, ups, down_at, up_at, groups, members, number_of, place_of, peer_at, port_at, fat_tree};

use crate::{Level, Place};
use mr_flow::Peer;

// The ports down of so many levels together, one of each: the product.
#[tactic(auto, using(crate::proofs::Numbers::downs_take, crate::proofs::Numbers::down_read))]
pub(crate) fn downs_of(levels: &[Level]) -> u64
    requires few { length levels.now ≤ 4 }
    ensures value { result ≡ downs levels.now }
    ensures bound { result ≤ 256 ^ length levels.now }
{
    let mut product = 1;
    for level in levels {
        product *= u64::from(level.down);
    }
    product
}

#[tactic(auto, using(crate::proofs::Numbers::ups_take, crate::proofs::Numbers::up_read))]
fn ups_of(levels: &[Level]) -> u64
    requires few { length levels.now ≤ 4 }
    ensures value { result ≡ ups levels.now }
    ensures bound { result ≤ 256 ^ length levels.now }
{
    let mut product = 1;
    for level in levels {
        product *= u64::from(level.up);
    }
    product
}

#[tactic(auto, using(crate::proofs::Numbers::small_power))]
fn groups_of(levels: &[Level], level: usize) -> u64
    requires few { length levels.now ≤ 4 }
    requires inside { level < length levels.now }
    ensures value { result ≡ groups levels.now level }
    ensures bound { result ≤ 2 ^ 24 }
{
    downs_of(&levels[level + 1..])
}

#[tactic(auto, using(crate::proofs::Numbers::small_power))]
fn members_of(levels: &[Level], level: usize) -> u64
    requires few { length levels.now ≤ 4 }
    requires inside { level < length levels.now }
    ensures value { result ≡ members levels.now level }
    ensures bound { result ≤ 2 ^ 24 }
{
    ups_of(&levels[..level])
}

// The routers of the levels below one.
pub(crate) fn before_of(levels: &[Level], level: usize) -> u64
    requires few { length levels.now ≤ 4 }
    requires inside { level ≤ length levels.now }
    ensures value { result ≡ before levels.now level }
    ensures bound { result ≤ 2 ^ 51 }
{
    let mut sum = 0;
    for l in 0..level {
        sum += groups_of(levels, l) * members_of(levels, l);
    }
    sum
}

// Where a router of a tree stands.
#[tactic(auto, using(crate::proofs::Places::place_here, crate::proofs::Places::place_on, crate::proofs::Places::place_first, crate::proofs::Places::place_end, crate::proofs::Places::place_is))]
pub(crate) fn place_of(levels: &[Level], router: u32) -> Place
    requires tree { IsTree levels.now }
    requires inside { router < before levels.now (length levels.now) }
    ensures value { result ≡ place_of levels.now router }
    ensures place { IsPlace levels.now result }
{
    let mut left = u64::from(router);
    for level in 0..levels.len() {
        let members = members_of(levels, level);
        let size = groups_of(levels, level) * members;
        if left < size {
            return Place {
                level,
                group: left / members,
                member: left % members,
            };
        }
        left -= size;
    }
    Place {
        level: levels.len(),
        group: 0,
        member: 0,
    }
}

#[tactic(auto, using(crate::proofs::Numbers::number_fits))]
fn number_of(levels: &[Level], place: Place) -> u32
    requires tree { IsTree levels.now }
    requires place { IsPlace levels.now place }
    ensures { result ≡ number_of levels.now place }
{
    let first = before_of(levels, place.level);
    (first + place.group * members_of(levels, place.level) + place.member) as u32
}

// The output port towards an endpoint: down where it is below the router, and else up.
#[tactic(auto, using(crate::proofs::Numbers::part_some, crate::proofs::Numbers::members_some, crate::proofs::Numbers::goes_up, crate::proofs::Numbers::up_some, crate::proofs::Numbers::down_some, crate::proofs::Numbers::down_few, crate::proofs::Numbers::up_few, crate::proofs::Numbers::down_read, crate::proofs::Numbers::up_read))]
pub(crate) fn port_at(levels: &[Level], place: Place, to: u32) -> u16
    requires tree { IsTree levels.now }
    requires place { IsPlace levels.now place }
    requires to { to < downs levels.now }
    ensures { result ≡ port_at levels.now place to }
{
    let to = u64::from(to);
    let down = u64::from(levels[place.level].down);
    if to / downs_of(&levels[..place.level + 1]) == place.group {
        return (to / downs_of(&levels[..place.level]) % down) as u16;
    }
    let up = u64::from(levels[place.level].up);
    (down + to / members_of(levels, place.level) % up) as u16
}

// Where a port down leads, of those counted from 0.
#[tactic(auto, using(crate::proofs::Numbers::below_place, crate::proofs::Numbers::host_fits, crate::proofs::Numbers::up_some, crate::proofs::Numbers::down_few, crate::proofs::Numbers::up_few, crate::proofs::Numbers::down_read, crate::proofs::Numbers::up_read))]
fn peer_below(levels: &[Level], place: Place, port: u64) -> Peer
    requires tree { IsTree levels.now }
    requires place { IsPlace levels.now place }
    requires port { port < down_at levels.now place.level }
    ensures { result ≡ below levels.now place.level place.group place.member port }
{
    let group = place.group * u64::from(levels[place.level].down) + port;
    if place.level == 0 {
        return Peer::Host { id: group as u32 };
    }
    let level = place.level - 1;
    let up = u64::from(levels[level].up);
    let member = place.member / up;
    Peer::Router {
        id: number_of(
            levels,
            Place {
                level,
                group,
                member,
            },
        ),
        port: (u64::from(levels[level].down) + place.member % up) as u16,
    }
}

// Where a port up leads, of those counted from 0.
#[tactic(auto, using(crate::proofs::Numbers::above_place, crate::proofs::Numbers::down_some, crate::proofs::Numbers::down_few, crate::proofs::Numbers::down_read, crate::proofs::Numbers::up_read))]
fn peer_above(levels: &[Level], place: Place, port: u64) -> Peer
    requires tree { IsTree levels.now }
    requires place { IsPlace levels.now place }
    requires port { port < up_at levels.now place.level }
    ensures { result ≡ above levels.now place port }
{
    let level = place.level + 1;
    let down = u64::from(levels[level].down);
    let group = place.group / down;
    let member = place.member * u64::from(levels[place.level].up) + port;
    Peer::Router {
        id: number_of(
            levels,
            Place {
                level,
                group,
                member,
            },
        ),
        port: (place.group % down) as u16,
    }
}

// Where a port of a router leads.
#[tactic(auto, using(crate::proofs::Numbers::down_read))]
pub(crate) fn peer_at(levels: &[Level], place: Place, port: u16) -> Peer
    requires tree { IsTree levels.now }
    requires place { IsPlace levels.now place }
    requires port { port < down_at levels.now place.level + up_at levels.now place.level }
    ensures { result ≡ peer_at levels.now place port }
{
    let down = u16::from(levels[place.level].down);
    if port < down {
        peer_below(levels, place, u64::from(port))
    } else {
        peer_above(levels, place, u64::from(port - down))
    }
}

// How many ports the routers of a level have.
#[tactic(auto, using(crate::proofs::Numbers::down_read, crate::proofs::Numbers::up_read, crate::proofs::Numbers::down_few, crate::proofs::Numbers::up_few))]
pub(crate) fn ports_at(levels: &[Level], level: usize) -> u16
    requires tree { IsTree levels.now }
    requires inside { level < length levels.now }
    ensures { result ≡ down_at levels.now level + up_at levels.now level }
{
    u16::from(levels[level].down) + u16::from(levels[level].up)
}
