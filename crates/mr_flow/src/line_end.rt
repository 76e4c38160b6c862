//! One end of a line between routers and endpoints.

ghost use Rattle.std.specs.Prelude.{◌≡◌, ◌≤◌, ◌<◌, ◌+◌, ◌*◌, ◌^◌, ◌-◌, ◌++◌, ◌==◌, true, length, slice_get, slice_set, Some, OnOk, OnErr, IfOk, IfSome, find, min};
ghost use Rattle.std.specs.List.{range_with_len};
ghost use Rattle.mr_flow.specs.Queue.{room, head, added, waiting_in};
ghost use Rattle.std.specs.List.{flat_map};
ghost use Rattle.ss_element.specs.Gives.{Gives, put_at};
ghost use Rattle.mr_flow.specs.Saved.{Lane, lane_of, lane_text, lane_form, lanes_form, lanes_of, with_lanes};
ghost use Rattle.mr_flow.specs.Side.{HasRoom, IsWhole, channels, input, output, credits_at, fresh, arrived, queued, taken, may_go, next_channel, leaving, sent, departed, pumped, is_idle};

use crate::credits::Credits;
use crate::queue::Queue;
use crate::queues::Queues;
use crate::{NetLoad, Packet};
use ss_element::RestoreFault;
use ss_wire::{Reader, Writer};
use std::alloc::{AllocError, Global};
use std::marker::Model;

/// One end of a line, after Merlin's port control: per channel the packets that came in, the packets that are to go out, and the
/// credits for them. A line takes one packet at a time, whose flits pass one after another.
#[derive(Drop)]
pub struct LineEnd {
    inputs: Queues,
    outputs: Queues,
    credits: Credits,
    line_free: u64,
    pump: u8,
    flit_time: u64,
}

impl Model for LineEnd {
    ghost use Rattle.mr_flow.specs.Side.{Side, IsWhole};

    ghost Value = { Side };

    ghost view = { λ e. record { inputs = e.inputs; outputs = e.outputs; credits = e.credits; line_free = e.line_free; pump = e.pump; flit_time = e.flit_time } };

    ghost invariant = { λ e. IsWhole (record { inputs = e.inputs; outputs = e.outputs; credits = e.credits; line_free = e.line_free; pump = e.pump; flit_time = e.flit_time }) };
}

impl LineEnd {
    /// An end with so many channels, on which nothing happened yet. Capacities and credits are in flits, the time of a flit in
    /// picoseconds. A byte names a channel, so that of more than 256 channels the first 256 count. It fails only where no
    /// memory is left.
    pub fn new(
        alloc: Global,
        channels: u16,
        input_flits: u32,
        output_flits: u32,
        credits: u32,
        flit_time: u64,
    ) -> Result<LineEnd, AllocError>
        requires input { input_flits * flit_time ≤ 2 ^ 40 }
        requires output { output_flits * flit_time ≤ 2 ^ 40 }
        ensures { IfOk result (λ e. e ≡ fresh channels input_flits output_flits credits flit_time) }
    {
        let count = channels.min(256);
        let inputs = Queues::new(alloc, count, input_flits)?;
        let outputs = Queues::new(alloc, count, output_flits)?;
        let credits = Credits::new(alloc, count, credits)?;
        Ok(LineEnd {
            inputs,
            outputs,
            credits,
            line_free: 0,
            pump: 0,
            flit_time,
        })
    }

    /// How many channels there are.
    pub fn channels(&self) -> u16
        ensures count { result ≡ channels self.now }
        ensures whole { IsWhole self.now }
    {
        self.credits.channels() as u16
    }

    /// The packets that came in on a channel.
    pub fn input(&self, channel: u8) -> &Queue
        requires { channel < channels self.now }
        ensures { result.now ≡ input self.now channel }
    {
        self.inputs.get(channel)
    }

    /// The packets that are to go out on a channel.
    pub fn output(&self, channel: u8) -> &Queue
        requires { channel < channels self.now }
        ensures { result.now ≡ output self.now channel }
    {
        self.outputs.get(channel)
    }

    /// The flits that may still go out on a channel.
    pub fn credits(&self, channel: u8) -> u32
        requires { channel < channels self.now }
        ensures { result ≡ credits_at self.now channel }
    {
        self.credits.left(channel)
    }

    /// From when on the line is free, in picoseconds.
    pub fn line_free(&self) -> u64
        ensures { result ≡ self.now.line_free }
    {
        self.line_free
    }

    /// The channel whose turn it is to send.
    pub fn turn(&self) -> u8
        ensures { result ≡ self.now.pump }
    {
        self.pump
    }

    /// How many channels have a packet that came in.
    pub fn held(&self) -> u16
        ensures { result ≡ waiting_in self.now.inputs }
    {
        self.inputs.waiting()
    }

    /// How many channels have a packet that is to go out.
    pub fn waiting(&self) -> u16
        ensures { result ≡ waiting_in self.now.outputs }
    {
        self.outputs.waiting()
    }

    /// Whether all queues are empty.
    pub fn is_idle(&self) -> bool
        ensures { result ≡ is_idle self.now }
    {
        self.inputs.waiting() == 0 && self.outputs.waiting() == 0
    }

    /// Takes in what comes over the line: a packet goes to the back of its channel's queue, a credit adds to its channel's
    /// credits. It fails only where no memory is left, and the end is then as before.
    pub fn arrive(&mut self, load: NetLoad) -> Result<(), AllocError>
        requires { HasRoom self.old load }
        ensures ok { OnOk result (self.new ≡ arrived self.old load) }
        ensures err { OnErr result (self.new ≡ self.old) }
    {
        match load {
            NetLoad::Packet { channel, packet } => self.inputs.add(channel, packet)?,
            NetLoad::Credit { channel, flits } => self.credits.give(channel, flits),
        }
        Ok(())
    }

    /// Takes the packet in front of those that came in on a channel, or answers `None` where there is none. It takes no memory.
    pub fn take(&mut self, channel: u8) -> Option<Packet>
        requires { channel < channels self.old }
        ensures front { result ≡ head (input self.old channel) }
        ensures rest { self.new ≡ taken self.old channel }
    {
        self.inputs.take(channel)
    }

    /// Puts a packet behind those that are to go out on a channel. It fails only where no memory is left, and the end is then as
    /// before.
    pub fn queue(&mut self, channel: u8, packet: Packet) -> Result<(), AllocError>
        requires here { channel < channels self.old }
        requires room { packet.flits ≤ room (output self.old channel) }
        ensures ok { OnOk result (self.new ≡ queued self.old channel packet) }
        ensures err { OnErr result (self.new ≡ self.old) }
    {
        self.outputs.add(channel, packet)?;
        Ok(())
    }

    /// Sets when the line is free, in picoseconds, and the channel whose turn it is, as they were saved. All else stays.
    pub fn set_line(&mut self, line_free: u64, turn: u8)
        ensures { self.new ≡ record self.old { line_free = line_free; pump = turn } }
    {
        self.line_free = line_free;
        self.pump = turn;
    }

    /// Sets the flits that may still go out on a channel, as they were saved. All else stays.
    pub fn set_credits(&mut self, channel: u8, flits: u32)
        requires { channel < channels self.old }
        ensures { self.new ≡ record self.old { credits = slice_set self.old.credits channel flits } }
    {
        self.credits.set(channel, flits);
    }

    // Whether the packet in front of a channel may go.
    fn may_go(&self, channel: u8) -> bool
        requires { channel < channels self.now }
        ensures { result ≡ may_go self.now channel }
    {
        match self.outputs.get(channel).head() {
            Some(packet) => packet.flits <= self.credits.left(channel),
            None => false,
        }
    }

    // The first channel from `low` on and before `high` whose packet in front may go.
    fn first_from(&self, low: u16, high: u16) -> Option<u8>
        requires within { high ≤ channels self.now }
        requires few { high ≤ 256 }
        ensures first { result ≡ find (may_go self.now) (range_with_len low (high - low)) }
        ensures below { IfSome result (λ c. c < channels self.now) }
    {
        for channel in low..high {
            if self.may_go(channel as u8) {
                return Some(channel as u8);
            }
        }
        None
    }

    // The first channel in cyclic order whose packet in front may go.
    fn next_channel(&self) -> Option<u8>
        ensures first { result ≡ next_channel self.now }
        ensures below { IfSome result (λ c. c < channels self.now) }
    {
        let turn = u16::from(self.pump);
        let count = self.channels();
        match self.first_from(turn, count) {
            Some(channel) => Some(channel),
            None => self.first_from(0, turn.min(count)),
        }
    }

    // Lets the packet in front of a channel go.
    fn depart(&mut self, channel: u8, now: u64) -> Option<(u8, Packet, u64)>
        requires early { now < 2 ^ 62 }
        requires here { channel < channels self.old }
        requires covered { may_go self.old channel ≡ true }
        ensures sent { result ≡ leaving self.old channel }
        ensures after { self.new ≡ departed self.old now (leaving self.old channel) }
    {
        let Some(packet) = self.outputs.take(channel) else {
            unreachable!()
        };
        self.credits.take(channel, packet.flits);
        let extra = u64::from(packet.flits)
            .saturating_mul(self.flit_time)
            .min(1 << 40);
        self.line_free = now + extra;
        self.pump = ((usize::from(channel) + 1) % self.credits.channels()) as u8;
        Some((channel, packet, extra))
    }

    /// Writes its channels in order: of each the packets that came in, those that are to go out, and 4 bytes of its credits. It fails
    /// only where no memory is left, and nothing is then known of `out`. The form is this project's own.
    pub fn save_channels(&self, out: &mut Writer) -> Result<(), AllocError>
        ensures { OnOk result (out.new ≡ out.old ++ flat_map lane_text (lanes_of self.now)) }
    {
        for channel in 0..self.channels() {
            self.save_channel(channel as u8, out)?;
        }
        Ok(())
    }

    // Writes a channel.
    fn save_channel(&self, channel: u8, out: &mut Writer) -> Result<(), AllocError>
        requires { channel < channels self.now }
        ensures { OnOk result (out.new ≡ out.old ++ lane_text (lane_of self.now channel)) }
    {
        self.inputs.get(channel).save(out)?;
        self.outputs.get(channel).save(out)?;
        out.u32(self.credits.left(channel))?;
        Ok(())
    }

    // Takes on a channel that was written.
    fn restore_channel(&mut self, channel: u8, bytes: &mut Reader<'_>) -> Result<(), RestoreFault>
        requires { channel < channels self.old }
        ensures told { (l : Lane) → slice_get (lanes_of self.old) channel ≡ Some l → Gives (λ u. lanes_of self.new) result bytes.new (put_at (lanes_of self.old) channel ((lane_form l).read bytes.old)) }
        ensures len { channels self.new ≡ channels self.old }
        ensures same { self.new ≡ record self.old { inputs = self.new.inputs; outputs = self.new.outputs; credits = self.new.credits } }
    {
        self.inputs.restore(channel, bytes)?;
        self.outputs.restore(channel, bytes)?;
        self.credits.set(channel, bytes.u32()?);
        Ok(())
    }

    /// Takes on the channels that were written, be it what they may hold or not. All else stays. After a refusal nothing is known of
    /// the end and of the reader.
    pub fn restore_channels(&mut self, bytes: &mut Reader<'_>) -> Result<(), RestoreFault>
        ensures told { Gives (λ u. lanes_of self.new) result bytes.new ((lanes_form (lanes_of self.old)).read bytes.old) }
        ensures same { OnOk result (self.new ≡ with_lanes self.old (lanes_of self.new)) }
    {
        for channel in 0..self.channels() {
            self.restore_channel(channel as u8, bytes)?;
        }
        let _ = &self.inputs;
        Ok(())
    }

    /// Lets a packet go at `now`, in picoseconds, where the line is free: the first one of the first channel in cyclic order that
    /// has one and credits for it. It answers the channel, the packet and the time that the packet's flits take, in picoseconds,
    /// or `None` where no packet may go. The order of the channels is Merlin's. It takes no memory.
    pub fn pump(&mut self, now: u64) -> Option<(u8, Packet, u64)>
        requires { now < 2 ^ 62 }
        ensures sent { result ≡ sent self.old now }
        ensures after { self.new ≡ pumped self.old now }
    {
        if now < self.line_free || self.outputs.waiting() == 0 {
            return None;
        }
        let channel = self.next_channel()?;
        self.depart(channel, now)
    }
}
