//! A router's end of a line, after Merlin's port control. What it does is what an end of a line does (`mr_flow`): its input queues
//! hold what came in, and the crossbar moves packets from them to the output queues of other ports.
#![tactic(auto)]

ghost use Rattle.std.specs.Prelude.{◌++◌, ◌≡◌, ◌≤◌, ◌<◌, ◌*◌, ◌^◌, slice_set, OnOk, OnErr, IfOk};
ghost use Rattle.std.specs.List.{flat_map};
ghost use Rattle.ss_element.specs.Gives.{Gives};
ghost use Rattle.mr_flow.specs.Saved.{lane_text, lanes_form, lanes_of, with_lanes};
ghost use Rattle.mr_flow.specs.Queue.{room, head, waiting_in};
ghost use Rattle.mr_flow.specs.Side.{HasRoom, IsWhole, channels, input, output, credits_at, fresh, arrived, queued, taken, sent, pumped, is_idle};

use mr_flow::{LineEnd, NetLoad, Packet, Queue};
use ss_element::RestoreFault;
use ss_wire::{Reader, Writer};
use std::alloc::{AllocError, Global};
use std::marker::Model;

/// A router's end of a line: per channel the packets that came in, those that are to go out, and the credits for them.
#[derive(Drop)]
pub struct PortControl {
    line: LineEnd,
}

impl Model for PortControl {
    ghost use Rattle.mr_flow.specs.Side.{Side};

    ghost Value = { Side };

    ghost view = { λ p. p.line };
}

impl PortControl {
    /// A port with so many channels, of which at most 256 count, since a byte names a channel. Capacities and credits are in
    /// flits, the time of a flit in picoseconds. It fails only where no memory is left.
    pub fn new(
        alloc: Global,
        channels: u16,
        input_flits: u32,
        output_flits: u32,
        credits: u32,
        flit_time: u64,
    ) -> Result<PortControl, AllocError>
        requires input { input_flits * flit_time ≤ 2 ^ 40 }
        requires output { output_flits * flit_time ≤ 2 ^ 40 }
        ensures { IfOk result (λ p. p ≡ fresh channels input_flits output_flits credits flit_time) }
    {
        let line = LineEnd::new(
            alloc,
            channels,
            input_flits,
            output_flits,
            credits,
            flit_time,
        )?;
        Ok(PortControl { line })
    }

    /// How many channels there are.
    pub fn channels(&self) -> u16
        ensures count { result ≡ channels self.now }
        ensures whole { IsWhole self.now }
    {
        self.line.channels()
    }

    /// Takes in what comes over the line: a packet goes to the back of its channel's input queue, a credit adds to its channel's
    /// credits. It fails only where no memory is left, and the port is then as before.
    pub fn arrive(&mut self, load: NetLoad) -> Result<(), AllocError>
        requires { HasRoom self.old load }
        ensures ok { OnOk result (self.new ≡ arrived self.old load) }
        ensures err { OnErr result (self.new ≡ self.old) }
    {
        self.line.arrive(load)?;
        Ok(())
    }

    /// The packet in front of a channel's input queue, or `None` where that queue is empty. It takes no memory.
    pub fn head(&self, channel: u8) -> Option<Packet>
        requires { channel < channels self.now }
        ensures { result ≡ head (input self.now channel) }
    {
        self.line.input(channel).head()
    }

    /// Takes the packet in front of a channel's input queue, or answers `None` where that queue is empty. It takes no memory.
    pub fn take_head(&mut self, channel: u8) -> Option<Packet>
        requires { channel < channels self.old }
        ensures front { result ≡ head (input self.old channel) }
        ensures rest { self.new ≡ taken self.old channel }
    {
        self.line.take(channel)
    }

    /// How many flits more a channel's output queue can hold. It takes no memory.
    pub fn room(&self, channel: u8) -> u32
        requires { channel < channels self.now }
        ensures { result ≡ room (output self.now channel) }
    {
        self.line.output(channel).room()
    }

    /// Puts a packet at the back of a channel's output queue. It fails only where no memory is left, and the port is then as
    /// before.
    pub fn queue(&mut self, channel: u8, packet: Packet) -> Result<(), AllocError>
        requires here { channel < channels self.old }
        requires room { packet.flits ≤ room (output self.old channel) }
        ensures ok { OnOk result (self.new ≡ queued self.old channel packet) }
        ensures err { OnErr result (self.new ≡ self.old) }
    {
        self.line.queue(channel, packet)?;
        Ok(())
    }

    /// Lets a packet go at `now`, in picoseconds, where the line is free: the first one of the first channel in cyclic order whose
    /// output queue has one and that has credits for it. It answers the channel, the packet and the extra delay, in picoseconds,
    /// or `None` where no packet may go. It takes no memory.
    pub fn pump(&mut self, now: u64) -> Option<(u8, Packet, u64)>
        requires { now < 2 ^ 62 }
        ensures sent { result ≡ sent self.old now }
        ensures after { self.new ≡ pumped self.old now }
    {
        self.line.pump(now)
    }

    /// How many channels have a packet that came in.
    pub fn held(&self) -> u16
        ensures { result ≡ waiting_in self.now.inputs }
    {
        self.line.held()
    }

    /// How many channels have a packet that is to go out.
    pub fn waiting(&self) -> u16
        ensures { result ≡ waiting_in self.now.outputs }
    {
        self.line.waiting()
    }

    /// Whether all queues are empty.
    pub fn is_idle(&self) -> bool
        ensures { result ≡ is_idle self.now }
    {
        self.line.is_idle()
    }

    /// A channel's input queue.
    pub fn input(&self, channel: u8) -> &Queue
        requires { channel < channels self.now }
        ensures { result.now ≡ input self.now channel }
    {
        self.line.input(channel)
    }

    /// A channel's output queue.
    pub fn output(&self, channel: u8) -> &Queue
        requires { channel < channels self.now }
        ensures { result.now ≡ output self.now channel }
    {
        self.line.output(channel)
    }

    /// The flits that may still go out on a channel.
    pub fn credits(&self, channel: u8) -> u32
        requires { channel < channels self.now }
        ensures { result ≡ credits_at self.now channel }
    {
        self.line.credits(channel)
    }

    /// From when on the line is free, in picoseconds.
    pub fn line_free(&self) -> u64
        ensures { result ≡ self.now.line_free }
    {
        self.line.line_free()
    }

    /// The channel whose turn it is to send.
    pub fn turn(&self) -> u8
        ensures { result ≡ self.now.pump }
    {
        self.line.turn()
    }

    /// Sets when the line is free, in picoseconds, and the channel whose turn it is, as they were saved. All else stays.
    pub fn set_line(&mut self, line_free: u64, turn: u8)
        ensures { self.new ≡ record self.old { line_free = line_free; pump = turn } }
    {
        self.line.set_line(line_free, turn);
    }

    /// Sets the flits that may still go out on a channel, as they were saved. All else stays.
    pub fn set_credits(&mut self, channel: u8, flits: u32)
        requires { channel < channels self.old }
        ensures { self.new ≡ record self.old { credits = slice_set self.old.credits channel flits } }
    {
        self.line.set_credits(channel, flits);
    }

    /// Writes what stands on its channels in order: of each the packets that came in, those that are to go out, and 4 bytes of its
    /// credits. It fails only where no memory is left, and nothing is then known of `out`. The form is this project's own.
    pub fn save_channels(&self, out: &mut Writer) -> Result<(), AllocError>
        ensures { OnOk result (out.new ≡ out.old ++ flat_map lane_text (lanes_of self.now)) }
    {
        self.line.save_channels(out)
    }

    /// Takes on what was written of its channels, be it what they may hold or not. All else stays. After a refusal nothing is known
    /// of it and of the reader.
    pub fn restore_channels(&mut self, bytes: &mut Reader<'_>) -> Result<(), RestoreFault>
        ensures told { Gives (λ u. lanes_of self.new) result bytes.new ((lanes_form (lanes_of self.old)).read bytes.old) }
        ensures same { OnOk result (self.new ≡ with_lanes self.old (lanes_of self.new)) }
    {
        self.line.restore_channels(bytes)
    }
}

#[cfg(test)]
mod tests;
