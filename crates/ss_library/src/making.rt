//! The making of a graph's elements and wires.

ghost use Rattle.std.specs.Prelude.{◌≡◌, ◌<◌, ◌≤◌, ◌+◌, ◌-◌, ◌*◌, ◌^◌, ◌∷◌, [], ◌++◌, codes, length, slice_get, Some, None, is_some, true, not, ◌||◌, map, OnOk, IfOk, ℕ};
ghost use Rattle.ss_model.specs.Wiring.{link_at};
ghost use Rattle.ss_model.specs.Step.{opening};
ghost use Rattle.ss_element.specs.Index.{entries};
ghost use Rattle.ss_library.specs.Kinds.{any_safe};
ghost use Rattle.ss_graph.specs.Checks.{Judged, Passes, first_fault};
ghost use Rattle.ss_graph.specs.Options.{the};
ghost use Rattle.ss_graph.specs.Links.{is_taken};
ghost use Rattle.ss_graph.specs.Fit.{IsFit, ends_of};
ghost use Rattle.ss_kinds.specs.Names.{port_text};
ghost use Rattle.ss_library.specs.declared.table.KindName.TheVariants as kind;
ghost use Rattle.ss_library.specs.Tables.{kind_named, is_endpoint, ports_table};
ghost use Rattle.ss_network.specs.Faults.{is_memory};
ghost use Rattle.ss_network.specs.Names.{rtr_text};
ghost use Rattle.ss_library.specs.Make.{each_numbered, port_in, member_of, is_network as is_network_member, is_part, ports_of as rows_of, port_named as port_of_name, port_check, protocol_check, link_checks, links_checks, lines_of, linked_check, rtr_check, ports_checks, all_ports_checks, inner_of, make_checks, model_of, Made};
ghost use Rattle.ss_library.specs.Order.{PacketsStayInOrder};

use crate::element::{elements_of, members_of};
use crate::kinds::Any;
use crate::param::row_value;
use crate::table::{CLOCK, KindName, PortRow, kind_of, port_of, ports_of};
use ss_element::{Model, Wires};
use ss_graph::{Graph, Join, Part, PortEnd};
use ss_kinds::port_name;
use ss_network::{MakeFault, Member, is_network, item_place};
use ss_units::Text;
use std::alloc::{AllocError, Global};

/// The number of the port that an end names.
fn port_at(parts: &[Part], members: &[Member], end: &PortEnd) -> Option<u16>
    requires { members.now ≡ map member_of parts.now }
    ensures { result ≡ port_in parts.now end.now }
{
    let index = end.component as usize;
    match parts.get(index) {
        None => None,
        Some(part) => port_named(part, &members[index], end.port.as_str()),
    }
}

/// The number of a component's port.
fn port_named(part: &Part, member: &Member, text: &str) -> Option<u16>
    requires { member.now ≡ member_of part.now }
    ensures { result ≡ port_of_name part.now (kind_named part.now.kind) text.now }
{
    match kind_of(part.kind.as_str()) {
        None => None,
        Some(KindName::Router | KindName::TestNic | KindName::TrafficGen) => member.port_of(text),
        Some(kind) => port_of(kind, text),
    }
}

fn is_of_network(member: &Member) -> bool
    ensures { result ≡ is_network_member member.now }
{
    match member {
        Member::Router(_) | Member::Endpoint(_) => true,
        Member::Other => false,
    }
}

fn is_part_of_network(members: &[Member], component: u32) -> bool
    ensures { result ≡ is_part (slice_get members.now component) }
{
    match members.get(component as usize) {
        None => false,
        Some(member) => is_of_network(member),
    }
}

/// Whether both ends of link `index` are of a network, or neither is.
#[tactic(auto, unfolding(ss_graph::specs::Checks::first_fault))]
fn one_protocol(
    alloc: Global,
    parts: &[Part],
    members: &[Member],
    join: &Join,
    index: usize,
) -> Result<(), MakeFault>
    requires { members.now ≡ map member_of parts.now }
    ensures { Passes is_memory result (protocol_check parts.now index join.now ∷ []) }
{
    let _ = parts;
    let left = is_part_of_network(members, join.left.component);
    let right = is_part_of_network(members, join.right.component);
    if left == right {
        return Ok(());
    }
    let place = item_place(alloc, "links", index)?;
    Err(MakeFault::Protocol(Text::from_string(place)))
}

/// The number of the port that an end of link `index` names, which its component's kind must have.
#[tactic(auto, unfolding(ss_graph::specs::Checks::first_fault))]
fn known_port(
    alloc: Global,
    parts: &[Part],
    members: &[Member],
    end: &PortEnd,
    index: usize,
    side: &str,
) -> Result<u16, MakeFault>
    requires { members.now ≡ map member_of parts.now }
    ensures { Judged is_memory (λ p. p) result (port_check parts.now index side.now end.now ∷ []) (the (port_in parts.now end.now)) }
{
    match port_at(parts, members, end) {
        Some(port) => Ok(port),
        None => {
            let mut place = item_place(alloc, "links", index)?;
            place.push_str(".")?;
            place.push_str(side)?;
            place.push_str(".port")?;
            Err(MakeFault::UnknownPort(Text::from_string(place)))
        }
    }
}

/// Adds the two lines of link `index`.
#[tactic(auto, using(ss_graph::proofs::Judging::first_fault_append, crate::proofs::Lines::onward, crate::proofs::Lines::back, crate::proofs::Lines::two_more), unfolding(ss_graph::specs::Checks::first_fault, crate::specs::Make::link_checks))]
fn connect(
    alloc: Global,
    graph: &Graph,
    members: &[Member],
    index: usize,
    join: &Join,
    wires: &mut Wires,
) -> Result<(), MakeFault>
    requires same { members.now ≡ map member_of graph.now.components }
    requires fit { IsFit graph.now }
    requires there { slice_get graph.now.links index ≡ Some join.now }
    requires within { index < length graph.now.links }
    requires room { entries wires.old + 2 < 2 ^ 32 }
    ensures judged { Passes is_memory result (link_checks graph.now.components index join.now) }
    ensures lines { OnOk result (wires.new ≡ record { links = wires.old.links ++ lines_of graph.now.components index join.now; inner = wires.old.inner }) }
{
    let parts = graph.components.as_slice();
    let left = known_port(alloc, parts, members, &join.left, index, "left")?;
    let right = known_port(alloc, parts, members, &join.right, index, "right")?;
    one_protocol(alloc, parts, members, join, index)?;
    let (from, to) = (join.left.component, join.right.component);
    let line = 2 * index as u32;
    wires.line(from, left, to, right, graph.latency(line))?;
    wires.line(to, right, from, left, graph.latency(line + 1))?;
    Ok(())
}

/// The lines of the links.
fn lines(alloc: Global, graph: &Graph, members: &[Member]) -> Result<Wires, MakeFault>
    requires fit { IsFit graph.now }
    requires same { members.now ≡ map member_of graph.now.components }
    ensures { Judged is_memory (λ w. w) result (links_checks graph.now.components graph.now.links) (record { links = each_numbered (lines_of graph.now.components) 0 graph.now.links; inner = [] }) }
{
    let mut wires = Wires::new(alloc);
    for (index, join) in graph.links.as_slice().iter().enumerate() {
        connect(alloc, graph, members, index, join, &mut wires)?;
    }
    Ok(wires)
}

/// Adds the self lines and clocks of component `index`.
#[tactic(auto, using(crate::proofs::Values::the_is))]
fn add_inner_of(
    part: &Part,
    member: &Member,
    index: u32,
    wires: &mut Wires,
) -> Result<(), AllocError>
    requires few { entries wires.old < 2 ^ 32 - 1 }
    requires same { member.now ≡ member_of part.now }
    ensures { OnOk result (wires.new ≡ record { links = wires.old.links; inner = wires.old.inner ++ inner_of index part.now }) }
{
    match member {
        Member::Router(router) => return wires.clock(index, 0, router.period),
        Member::Endpoint(endpoint) => return wires.clock(index, 0, endpoint.flit_time),
        Member::Other => {}
    }
    match kind_of(part.kind.as_str()) {
        Some(KindName::Echo) => wires.own_line(index, 0),
        Some(KindName::Ticker) => {
            let period = row_value(part.params.as_slice(), CLOCK).unwrap_or(0);
            wires.clock(index, 0, period)
        }
        _ => Ok(()),
    }
}

/// Adds the self lines and clocks of all components.
fn add_inner(parts: &[Part], members: &[Member], wires: &mut Wires) -> Result<(), AllocError>
    requires same { members.now ≡ map member_of parts.now }
    requires none { wires.old.inner ≡ [] }
    requires few_links { length wires.old.links ≤ 2 ^ 19 }
    requires few_parts { length parts.now ≤ 2 ^ 16 }
    ensures { OnOk result (wires.new ≡ record { links = wires.old.links; inner = each_numbered inner_of 0 parts.now }) }
{
    for (index, part) in parts.iter().enumerate() {
        add_inner_of(part, &members[index], index as u32, wires)?;
    }
    Ok(())
}

/// Whether port `number` of component `index` is linked, or needn't be.
fn is_joined(
    graph: &Graph,
    index: u32,
    part: &Part,
    number: u16,
    row: &PortRow,
    wires: &Wires,
) -> bool
    requires there { slice_get graph.now.components index ≡ Some part.now }
    requires row { slice_get (rows_of (kind_named part.now.kind)) number ≡ Some row.now }
    requires lines { wires.now.links ≡ each_numbered (lines_of graph.now.components) 0 graph.now.links }
    requires known { first_fault (links_checks graph.now.components graph.now.links) ≡ None }
    ensures { result ≡ (not row.now.required || is_taken (ends_of graph.now.links) (index, port_text row.now.name)) }
{
    !row.required || wires.line_from(index, number).is_some()
}

/// Whether the required ports of component `index`, of a core kind, are linked.
#[tactic(auto, unfolding(ss_graph::specs::Checks::first_fault))]
fn rows_linked(
    alloc: Global,
    graph: &Graph,
    index: usize,
    part: &Part,
    kind: KindName,
    wires: &Wires,
) -> Result<(), MakeFault>
    requires there { slice_get graph.now.components index ≡ Some part.now }
    requires kind { kind_named part.now.kind ≡ Some kind }
    requires few { index < 2 ^ 16 }
    requires lines { wires.now.links ≡ each_numbered (lines_of graph.now.components) 0 graph.now.links }
    requires known { first_fault (links_checks graph.now.components graph.now.links) ≡ None }
    ensures { Passes is_memory result (map (linked_check (ends_of graph.now.links) index) (ports_table kind)) }
{
    for (number, row) in ports_of(kind).iter().enumerate() {
        if !is_joined(graph, index as u32, part, number as u16, row, wires) {
            let mut place = item_place(alloc, "components", index)?;
            place.push_str(".")?;
            place.push_str(port_name(row.name))?;
            return Err(MakeFault::PortUnlinked(Text::from_string(place)));
        }
    }
    Ok(())
}

/// Whether the port of component `index`, an endpoint, is linked.
fn is_rtr_joined(graph: &Graph, index: u32, part: &Part, wires: &Wires) -> bool
    requires there { slice_get graph.now.components index ≡ Some part.now }
    requires kind { is_endpoint (kind_named part.now.kind) ≡ true }
    requires lines { wires.now.links ≡ each_numbered (lines_of graph.now.components) 0 graph.now.links }
    requires known { first_fault (links_checks graph.now.components graph.now.links) ≡ None }
    ensures { result ≡ is_taken (ends_of graph.now.links) (index, rtr_text) }
{
    let _ = graph;
    let _ = part;
    wires.line_from(index, 0).is_some()
}

/// Whether the port of component `index`, an endpoint, is linked, as it must be.
#[tactic(auto, unfolding(ss_graph::specs::Checks::first_fault))]
fn rtr_linked(
    alloc: Global,
    graph: &Graph,
    index: usize,
    part: &Part,
    wires: &Wires,
) -> Result<(), MakeFault>
    requires there { slice_get graph.now.components index ≡ Some part.now }
    requires kind { is_endpoint (kind_named part.now.kind) ≡ true }
    requires few { index < 2 ^ 16 }
    requires lines { wires.now.links ≡ each_numbered (lines_of graph.now.components) 0 graph.now.links }
    requires known { first_fault (links_checks graph.now.components graph.now.links) ≡ None }
    ensures { Passes is_memory result (rtr_check (ends_of graph.now.links) index ∷ []) }
{
    if is_rtr_joined(graph, index as u32, part, wires) {
        return Ok(());
    }
    let mut place = item_place(alloc, "components", index)?;
    place.push_str(".rtr")?;
    Err(MakeFault::PortUnlinked(Text::from_string(place)))
}

/// Whether the required ports of component `index` are linked.
#[tactic(auto, unfolding(ss_graph::specs::Checks::first_fault, crate::specs::Make::ports_checks))]
fn linked(
    alloc: Global,
    graph: &Graph,
    index: usize,
    part: &Part,
    wires: &Wires,
) -> Result<(), MakeFault>
    requires there { slice_get graph.now.components index ≡ Some part.now }
    requires few { index < 2 ^ 16 }
    requires lines { wires.now.links ≡ each_numbered (lines_of graph.now.components) 0 graph.now.links }
    requires known { first_fault (links_checks graph.now.components graph.now.links) ≡ None }
    ensures { Passes is_memory result (ports_checks (ends_of graph.now.links) index part.now) }
{
    match kind_of(part.kind.as_str()) {
        None | Some(KindName::Router) => Ok(()),
        Some(KindName::TestNic | KindName::TrafficGen) => {
            rtr_linked(alloc, graph, index, part, wires)
        }
        Some(KindName::Pinger) => {
            rows_linked(alloc, graph, index, part, KindName::Pinger, wires)
        }
        Some(KindName::Echo) => rows_linked(alloc, graph, index, part, KindName::Echo, wires),
        Some(KindName::Ticker) => {
            rows_linked(alloc, graph, index, part, KindName::Ticker, wires)
        }
    }
}

/// Whether all required ports are linked.
fn all_linked(alloc: Global, graph: &Graph, wires: &Wires) -> Result<(), MakeFault>
    requires fit { IsFit graph.now }
    requires lines { wires.now.links ≡ each_numbered (lines_of graph.now.components) 0 graph.now.links }
    requires known { first_fault (links_checks graph.now.components graph.now.links) ≡ None }
    ensures { Passes is_memory result (all_ports_checks (ends_of graph.now.links) graph.now.components) }
{
    for (index, part) in graph.components.as_slice().iter().enumerate() {
        linked(alloc, graph, index, part, wires)?;
    }
    Ok(())
}

/// The elements and the wires of a graph that was read, or the first check that fails. The checks in order: each component's type is
/// known, its parameters and its statistics are as its kind has them, and a router has no more than 256 ports; each link's ends name
/// ports of their components' kinds, left then right, and are both of a network or both not; each component's required ports are linked;
/// and the routers and endpoints are one network, as `ss_network::is_network` judges it. The lines of link `l` have the numbers `2l`, from
/// left to right, and `2l + 1`; self lines and clocks are numbered on, component by component. Routers and endpoints begin with the
/// credits that the queues at the other ends of their lines hold. The checks and their order are this project's own.
///
/// In each state of a run of what is made, from its start, each packet of the network is once in a place of its path or was delivered,
/// and those of one source, destination and virtual network are in the order of their injection; endpoints tell of none that it came
/// out of order, and of each that they received.
#[tactic(auto, using(ss_graph::proofs::Judging::first_fault_append), unfolding(crate::specs::Make::make_checks))]
pub fn make(alloc: Global, graph: &Graph) -> Result<Model<Any>, MakeFault>
    requires { IsFit graph.now }
    ensures safe { IfOk result (λ m. any_safe m.wires 0 (opening m.elements.items)) }
    ensures judged { Judged is_memory (λ m. record { elements = m.elements.items; wires = m.wires }) result (make_checks graph.now) (model_of graph.now) }
    ensures order { IfOk result (λ m. PacketsStayInOrder graph.now (record { elements = m.elements.items; wires = m.wires })) }
{
    let parts = graph.components.as_slice();
    let members = members_of(alloc, parts)?;
    let mut wires = lines(alloc, graph, members.as_slice())?;
    all_linked(alloc, graph, &wires)?;
    add_inner(parts, members.as_slice(), &mut wires)?;
    is_network(alloc, members.as_slice(), &wires)?;
    let elements = elements_of(alloc, &wires, members.as_slice(), parts)?;
    Ok(Model { elements, wires })
}
