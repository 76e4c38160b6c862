//! The crossbar between a router's ports.

ghost use Rattle.std.specs.Prelude.{◌≡◌, ◌<◌, ◌≤◌, ◌+◌, ◌*◌, ◌/◌, ◌%◌, ◌^◌, ◌++◌, ◌∷◌, [], ◌==◌, min, length, OnOk, IfSome, Some, nat_le};
ghost use Rattle.mr_flow.specs.Queue.{room, head};
ghost use Rattle.mr_flow.specs.Side.{channels, input, output};
ghost use Rattle.mr_router.specs.Router.{port_at, width, way, crossing, asks_by, asks_of, port_asks, all_asks, given, received, changed, moved, crossed, all_crossed};
ghost use Rattle.mr_router.specs.Holding.{IsBound, AllBound, AllWithin, IsPlaced};
ghost use Rattle.mr_router.specs.Ways.{AreWays};

use crate::port::Port;
use crate::settings::RouterSettings;
use crate::ways::{Way, way_of};
use mr_arb::Request;
use mr_flow::{Load, NetLoad, Packet};
use ss_element::{Action, Acts};
use std::alloc::AllocError;

impl RouterSettings {
    // How long a packet takes through the crossbar.
    fn crossing(&self, packet: &Packet) -> u64
        ensures { result ≡ crossing self.now packet.now }
    {
        u64::from(packet.flits)
            .saturating_mul(self.period)
            .min(1 << 40)
    }
}

// The room in an output queue, none where there is no such port or channel.
fn room_at(ports: &[Port], port: u16, channel: u8) -> u32
    ensures room { result ≡ room (output (port_at ports.now port).line channel) }
    ensures port { 1 ≤ result → port < length ports.now }
    ensures channel { 1 ≤ result → channel < channels (port_at ports.now port).line }
{
    let Some(port) = ports.get(usize::from(port)) else {
        return 0;
    };
    if u16::from(channel) < port.line.channels() {
        port.line.room(channel)
    } else {
        0
    }
}

// The packet in front of an input queue, none where there is no such port or channel.
fn head_at(ports: &[Port], port: u32, channel: u32) -> Option<Packet>
    requires { channel < 256 }
    ensures front { result ≡ head (input (port_at ports.now port).line channel) }
    ensures port { IfSome result (λ p. port < length ports.now) }
    ensures channel { IfSome result (λ p. channel < channels (port_at ports.now port).line) }
{
    let Some(port) = ports.get(port as usize) else {
        return None;
    };
    if channel < u32::from(port.line.channels()) {
        port.line.head(channel as u8)
    } else {
        None
    }
}

// Adds the request of a packet, if it may ask.
fn ask(
    set: &RouterSettings,
    ports: &[Port],
    now: u64,
    input: u16,
    channel: u8,
    packet: Packet,
    ways: &mut [Option<Way>],
    requests: &mut Vec<Request>,
) -> Result<(), AllocError>
    requires placed { IsPlaced set.now (length ports.now) }
    requires here { input < 256 }
    requires bound { IsBound set.now packet }
    requires ways { AreWays set.now ways.old }
    ensures asks { OnOk result (requests.new.items ≡ requests.old.items ++ asks_by set.now ports.now now input channel packet) }
    ensures ways { AreWays set.now ways.new }
{
    let slot = u32::from(input) * set.width() + u32::from(channel);
    let (output, out_channel) = way_of(set, ways, slot, &packet);
    let Some(port) = ports.get(usize::from(output)) else {
        return Ok(());
    };
    if port.cross_free <= now && packet.flits <= room_at(ports, output, out_channel) {
        requests.push(Request {
            slot,
            input,
            output,
            born: packet.born,
        })?;
    }
    Ok(())
}

// Adds the request of the packet in front of an input queue, where there is one.
fn ask_front(
    set: &RouterSettings,
    ports: &[Port],
    now: u64,
    port: u16,
    channel: u8,
    ways: &mut [Option<Way>],
    requests: &mut Vec<Request>,
) -> Result<(), AllocError>
    requires placed { IsPlaced set.now (length ports.now) }
    requires here { port < length ports.now }
    requires channel { channel < channels (port_at ports.now port).line }
    requires bound { AllBound set.now ports.now }
    requires ways { AreWays set.now ways.old }
    ensures asks { OnOk result (requests.new.items ≡ requests.old.items ++ asks_of set.now ports.now now port channel (head (input (port_at ports.now port).line channel))) }
    ensures ways { AreWays set.now ways.new }
{
    match ports[usize::from(port)].line.head(channel) {
        Some(packet) => ask(set, ports, now, port, channel, packet, ways, requests),
        None => Ok(()),
    }
}

// Adds the requests of a port's input queues, if its input is free. A port that holds nothing is passed by.
#[tactic(auto, using(crate::proofs::Quiet::quiet_port))]
fn ask_port(
    set: &RouterSettings,
    ports: &[Port],
    now: u64,
    input: u16,
    ways: &mut [Option<Way>],
    requests: &mut Vec<Request>,
) -> Result<(), AllocError>
    requires placed { IsPlaced set.now (length ports.now) }
    requires here { input < length ports.now }
    requires bound { AllBound set.now ports.now }
    requires ways { AreWays set.now ways.old }
    ensures asks { OnOk result (requests.new.items ≡ requests.old.items ++ port_asks set.now ports.now now input) }
    ensures ways { AreWays set.now ways.new }
{
    let port = &ports[usize::from(input)];
    if now < port.in_free {
        return Ok(());
    }
    if port.line.held() == 0 {
        return Ok(());
    }
    for channel in 0..port.line.channels() {
        ask_front(set, ports, now, input, channel as u8, ways, requests)?;
    }
    Ok(())
}

// The requests of all input queues, in the order of their slots.
pub(crate) fn ask_all(
    set: &RouterSettings,
    ports: &[Port],
    now: u64,
    ways: &mut [Option<Way>],
    requests: &mut Vec<Request>,
) -> Result<(), AllocError>
    requires placed { IsPlaced set.now (length ports.now) }
    requires bound { AllBound set.now ports.now }
    requires ways { AreWays set.now ways.old }
    ensures asks { OnOk result (requests.new.items ≡ requests.old.items ++ all_asks set.now ports.now now) }
    ensures ways { AreWays set.now ways.new }
{
    for input in 0..ports.len() {
        ask_port(set, ports, now, input as u16, ways, requests)?;
    }
    Ok(())
}

// Takes the packet in front of an input queue.
fn give(set: &RouterSettings, port: &mut Port, channel: u8, packet: &Packet, now: u64)
    requires here { channel < channels port.old.line }
    requires early { now < 2 ^ 62 }
    ensures { port.new ≡ given set.now now channel packet.now port.old }
{
    port.line.take_head(channel);
    port.in_free = now + set.crossing(packet);
}

// Puts a packet at the back of an output queue.
fn receive(
    set: &RouterSettings,
    port: &mut Port,
    channel: u8,
    packet: &Packet,
    now: u64,
) -> Result<(), AllocError>
    requires here { channel < channels port.old.line }
    requires room { packet.now.flits ≤ room (output port.old.line channel) }
    requires early { now < 2 ^ 62 }
    requires way { channel ≡ (way set.now packet.now).1 }
    ensures { OnOk result (port.new ≡ received set.now now packet.now port.old) }
{
    port.line.queue(channel, *packet)?;
    port.cross_free = now + set.crossing(packet);
    Ok(())
}

// Moves the packet in front of a channel of a port to the output queue of its route, and sends a credit back for it.
fn move_packet(
    set: &RouterSettings,
    ports: &mut [Port],
    port: u16,
    channel: u8,
    packet: &Packet,
    to: (u16, u8),
    now: u64,
) -> Result<(), AllocError>
    requires early { now < 2 ^ 62 }
    requires here { port < length ports.old }
    requires channel { channel < channels (port_at ports.old port).line }
    requires way { to ≡ way set.now packet.now }
    requires there { to.0 < length ports.old }
    requires out { to.1 < channels (port_at ports.old to.0).line }
    requires room { packet.now.flits ≤ room (output (port_at ports.old to.0).line to.1) }
    ensures { OnOk result (ports.new ≡ moved set.now now port channel packet.now ports.old) }
{
    give(set, &mut ports[usize::from(port)], channel, packet, now);
    receive(set, &mut ports[usize::from(to.0)], to.1, packet, now)
}

// Moves the packet in front of a slot's input queue, where there is one that its output has room for.
fn cross(
    set: &RouterSettings,
    ports: &mut [Port],
    slot: u32,
    now: u64,
    ways: &mut [Option<Way>],
    acts: &mut Acts<Load>,
) -> Result<(), AllocError>
    requires placed { IsPlaced set.now (length ports.old) }
    requires bound { AllBound set.now ports.old }
    requires early { now < 2 ^ 62 }
    requires ways { AreWays set.now ways.old }
    ensures ports { OnOk result (ports.new ≡ (crossed set.now now ports.old slot).0) }
    ensures actions { OnOk result (acts.new ≡ acts.old ++ (crossed set.now now ports.old slot).1) }
    ensures ways { AreWays set.now ways.new }
{
    let width = set.width();
    let port = slot / width;
    let channel = slot % width;
    let Some(packet) = head_at(ports, port, channel) else {
        return Ok(());
    };
    let to = way_of(set, ways, slot, &packet);
    if room_at(ports, to.0, to.1) < packet.flits {
        return Ok(());
    }
    move_packet(set, ports, port as u16, channel as u8, &packet, to, now)?;
    acts.push(Action::Send {
        port: port as u16,
        extra: 0,
        load: Load::Net(NetLoad::Credit {
            channel: channel as u8,
            flits: packet.flits,
        }),
    })
}

// Moves what the grants of the outputs say, in ascending order.
pub(crate) fn cross_all(
    set: &RouterSettings,
    ports: &mut [Port],
    grants: &[u32],
    now: u64,
    ways: &mut [Option<Way>],
    acts: &mut Acts<Load>,
) -> Result<(), AllocError>
    requires placed { IsPlaced set.now (length ports.old) }
    requires bound { AllBound set.now ports.old }
    requires early { now < 2 ^ 62 }
    requires ways { AreWays set.now ways.old }
    ensures ports { OnOk result (ports.new ≡ (all_crossed set.now now ports.old grants.now).0) }
    ensures actions { OnOk result (acts.new ≡ acts.old ++ (all_crossed set.now now ports.old grants.now).1) }
    ensures ways { AreWays set.now ways.new }
{
    for slot in grants {
        cross(set, ports, *slot, now, ways, acts)?;
    }
    Ok(())
}
