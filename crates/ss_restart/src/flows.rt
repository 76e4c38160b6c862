//! The balance of the lines of networks.

ghost use Rattle.std.specs.Prelude.{◌≡◌, ◌+◌, ◌-◌, ◌*◌, ◌^◌, ◌<◌, ◌≤◌, ◌↔◌, ℕ, Bool, true, false, length, slice_index, IsTrue, MatchOption};
ghost use Rattle.ss_ckpt.specs.Views.{state_of};
ghost use Rattle.ss_safe.specs.Safe.{weight_at};
ghost use Rattle.ss_safe.specs.Sound.{ElementSound, FlowSound};
ghost use Rattle.ss_restart.specs.declared.fault.RestartFault.TheVariants as fault;
ghost use Rattle.ss_restart.specs.Flows.{flits_of, Counts, IsWay, NoWay, Joins, JudgesFlows};
ghost use Rattle.ss_restart.specs.Ready.{IsReady, Judges};

use crate::fault::RestartFault;
use ss_ckpt::Saved;
use ss_element::{ARRIVAL, Element, Event, Key, Payload, Wires};

/// A line and its way back.
#[derive(Clone, Copy)]
struct Way {
    line: u32,
    back: u32,
    sender: u32,
    out_port: u16,
    receiver: u32,
    in_port: u16,
}

/// The flits of each channel: of the packets on a line, and of the credits on its way back.
#[derive(Drop)]
struct Flits {
    packets: [u64; 256],
    credits: [u64; 256],
}

/// The key of what comes on a line.
fn arrival(line: u32) -> Key
    ensures { result ≡ record { time = 0; class = 2; line = line } }
{
    Key {
        time: 0,
        class: ARRIVAL,
        line,
    }
}

/// The ends of a line, with the first line from its receiver's port as its way back.
fn way_of(wires: &Wires, line: u32) -> Option<Way>
    ensures { MatchOption result (NoWay wires.now line) (IsWay wires.now line) }
{
    let Some((receiver, in_port)) = wires.target(arrival(line)) else {
        return None;
    };
    let Some((back, _)) = wires.line_from(receiver, in_port) else {
        return None;
    };
    let Some((sender, out_port)) = wires.target(arrival(back)) else {
        return None;
    };
    Some(Way {
        line,
        back,
        sender,
        out_port,
        receiver,
        in_port,
    })
}

/// Adds what an event brings on a line to the flits of its channel, as a packet or as a credit.
fn add_flits<L: Payload>(flits: &mut [u64; 256], event: &Event<L>, line: u32, packets: bool)
    requires { (ch : ℕ) → ch < 256 → slice_index flits.old ch ≤ 2 ^ 32 * (2 ^ 32 - 1) }
    ensures added { (ch : ℕ) → ch < 256 → slice_index flits.new ch ≡ slice_index flits.old ch + weight_at (λ y. flits_of packets ch (L.weighs y)) line event.now }
    ensures few { (ch : ℕ) → ch < 256 → slice_index flits.new ch ≤ slice_index flits.old ch + 2 ^ 32 }
{
    if event.key.class != ARRIVAL || event.key.line != line {
        return;
    }
    let Some(load) = event.load else {
        return;
    };
    match load.weight() {
        Some((packet, channel, count)) if packet == packets => {
            flits[channel as usize] += u64::from(count);
        }
        _ => {}
    }
}

/// The flits that events bring on a line as packets and on its way back as credits, each channel's.
fn flits_on<L: Payload>(events: &[Event<L>], way: Way) -> Flits
    requires { length events.now < 2 ^ 32 }
    ensures packets { Counts L.weighs true way.line events.now result.packets }
    ensures credits { Counts L.weighs false way.back events.now result.credits }
{
    let mut packets = [0; 256];
    let mut credits = [0; 256];
    for event in events {
        add_flits(&mut packets, event, way.line, true);
        add_flits(&mut credits, event, way.back, false);
    }
    Flits { packets, credits }
}

/// Whether what a line's sender may send on a channel, what is under way, what the receiver's queue holds and what comes
/// back are together what that queue can hold.
fn is_balanced<E: Element>(saved: &Saved<E>, way: Way, flits: &Flits, channel: u8) -> bool
    requires ready { IsReady E.kind saved.now.model.wires saved.now.time (state_of saved.now) }
    requires fit { (c : ℕ) → ElementSound E.kind saved.now.model.wires saved.now.time (state_of saved.now) c }
    requires joins { Joins E.kind saved.now.model.wires saved.now.model.elements.items way channel }
    requires packets { Counts E.Load.weighs true way.line saved.now.events.items flits.now.packets }
    requires credits { Counts E.Load.weighs false way.back saved.now.events.items flits.now.credits }
    ensures { IsTrue result ↔ FlowSound E.kind saved.now.model.wires saved.now.time (state_of saved.now) way.line channel }
{
    let sender = saved.model.elements[way.sender as usize].flow(way.out_port, channel);
    let receiver = saved.model.elements[way.receiver as usize].flow(way.in_port, channel);
    u128::from(sender.credits)
        + u128::from(flits.packets[channel as usize])
        + u128::from(receiver.queued)
        + u128::from(flits.credits[channel as usize])
        == u128::from(receiver.capacity)
}

/// Whether each channel of a line is in balance.
fn line_matches<E: Element>(saved: &Saved<E>, line: u32) -> Result<(), RestartFault>
    requires ready { IsReady E.kind saved.now.model.wires saved.now.time (state_of saved.now) }
    requires fit { (c : ℕ) → ElementSound E.kind saved.now.model.wires saved.now.time (state_of saved.now) c }
    requires within { line < length saved.now.model.wires.links }
    ensures { Judges (FlowSound E.kind saved.now.model.wires saved.now.time (state_of saved.now) line) (fault.Unbalanced line) result }
{
    let Some(way) = way_of(&saved.model.wires, line) else {
        return Ok(());
    };
    let channels = saved.model.elements[way.receiver as usize].channels(way.in_port);
    if channels == 0 {
        return Ok(());
    }
    let flits = flits_on(&saved.events, way);
    for channel in 0..channels {
        if !is_balanced(saved, way, &flits, channel as u8) {
            return Err(RestartFault::Unbalanced {
                line,
                channel: channel as u8,
            });
        }
    }
    Ok(())
}

/// Whether each line is in balance.
pub fn flows_match<E: Element>(saved: &Saved<E>) -> Result<(), RestartFault>
    requires ready { IsReady E.kind saved.now.model.wires saved.now.time (state_of saved.now) }
    requires fit { (c : ℕ) → ElementSound E.kind saved.now.model.wires saved.now.time (state_of saved.now) c }
    ensures { JudgesFlows (FlowSound E.kind saved.now.model.wires saved.now.time (state_of saved.now)) result }
{
    let (links, _, _) = saved.model.wires.counts();
    for line in 0..links {
        line_matches(saved, line)?;
    }
    Ok(())
}
