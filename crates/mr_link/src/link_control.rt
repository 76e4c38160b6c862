//! Link control.

ghost use Rattle.std.specs.Prelude.{◌++◌, ◌≡◌, ◌≤◌, ◌<◌, ◌*◌, ◌^◌, slice_set, OnOk, OnErr, IfOk};
ghost use Rattle.std.specs.List.{flat_map};
ghost use Rattle.ss_element.specs.Gives.{Gives};
ghost use Rattle.mr_flow.specs.Saved.{lane_text, lanes_form, lanes_of, with_lanes};
ghost use Rattle.mr_flow.specs.Queue.{head, waiting_in};
ghost use Rattle.mr_flow.specs.Side.{HasRoom, IsWhole, channels, input, output, credits_at, fresh, arrived, taken, sent, pumped, is_idle};
ghost use Rattle.mr_link.specs.Sending.{Sends};

use crate::SendBack;
use mr_flow::{LineEnd, NetLoad, Packet, Queue};
use ss_element::RestoreFault;
use ss_wire::{Reader, Writer};
use std::alloc::{AllocError, Global};
use std::marker::Model;

/// An endpoint's end of a line: per virtual network the packets that came in, those that are to go out, and the credits for them.
#[derive(Drop)]
pub struct LinkControl {
    line: LineEnd,
}

impl Model for LinkControl {
    ghost use Rattle.mr_flow.specs.Side.{Side};

    ghost Value = { Side };

    ghost view = { λ l. l.line };
}

impl LinkControl {
    /// Link control for so many virtual networks. Capacities and credits are in flits, the time of a flit in picoseconds. It
    /// fails only where no memory is left.
    pub fn new(
        alloc: Global,
        vns: u8,
        input_flits: u32,
        output_flits: u32,
        credits: u32,
        flit_time: u64,
    ) -> Result<LinkControl, AllocError>
        requires input { input_flits * flit_time ≤ 2 ^ 40 }
        requires output { output_flits * flit_time ≤ 2 ^ 40 }
        ensures { IfOk result (λ l. l ≡ fresh vns input_flits output_flits credits flit_time) }
    {
        let line = LineEnd::new(
            alloc,
            u16::from(vns),
            input_flits,
            output_flits,
            credits,
            flit_time,
        )?;
        Ok(LinkControl { line })
    }

    /// How many virtual networks there are.
    pub fn networks(&self) -> u16
        ensures count { result ≡ channels self.now }
        ensures whole { IsWhole self.now }
    {
        self.line.channels()
    }

    /// Puts a packet behind those that are to go out on its virtual network. It answers `Busy` exactly where that queue has fewer
    /// free flits than the packet, and `NoMemory` only where no memory is left. A packet that comes back leaves all as it was.
    pub fn send(&mut self, p: Packet) -> Result<(), SendBack>
        requires { p.vn < channels self.old }
        ensures { Sends result self.old self.new p }
    {
        if self.line.output(p.vn).room() < p.flits {
            return Err(SendBack::Busy(p));
        }
        match self.line.queue(p.vn, p) {
            Ok(()) => Ok(()),
            Err(_) => Err(SendBack::NoMemory(p)),
        }
    }

    /// Takes in what comes over the line: a packet goes to the back of the input queue of its channel, a credit adds to its
    /// channel's credits. It fails only where no memory is left, and all is then as before.
    pub fn arrive(&mut self, load: NetLoad) -> Result<(), AllocError>
        requires { HasRoom self.old load }
        ensures ok { OnOk result (self.new ≡ arrived self.old load) }
        ensures err { OnErr result (self.new ≡ self.old) }
    {
        self.line.arrive(load)?;
        Ok(())
    }

    /// Lets a packet go at `now`, in picoseconds, where the line is free: the first one of the first virtual network in cyclic
    /// order whose output queue has one and that has credits for it. It answers the network, the packet and the extra delay, in
    /// picoseconds, or `None` where no packet may go. It takes no memory.
    pub fn pump(&mut self, now: u64) -> Option<(u8, Packet, u64)>
        requires { now < 2 ^ 62 }
        ensures sent { result ≡ sent self.old now }
        ensures after { self.new ≡ pumped self.old now }
    {
        self.line.pump(now)
    }

    /// Takes the first packet that came in on a virtual network, or answers `None` where there is none. It takes no memory.
    pub fn receive(&mut self, vn: u8) -> Option<Packet>
        requires { vn < channels self.old }
        ensures front { result ≡ head (input self.old vn) }
        ensures rest { self.new ≡ taken self.old vn }
    {
        self.line.take(vn)
    }

    /// How many virtual networks have a packet that came in.
    pub fn held(&self) -> u16
        ensures { result ≡ waiting_in self.now.inputs }
    {
        self.line.held()
    }

    /// How many virtual networks have a packet that is to go out.
    pub fn waiting(&self) -> u16
        ensures { result ≡ waiting_in self.now.outputs }
    {
        self.line.waiting()
    }

    /// Whether all queues are empty.
    pub fn is_idle(&self) -> bool
        ensures { result ≡ is_idle self.now }
    {
        self.line.is_idle()
    }

    /// The packets that came in on a virtual network.
    pub fn input(&self, vn: u8) -> &Queue
        requires { vn < channels self.now }
        ensures { result.now ≡ input self.now vn }
    {
        self.line.input(vn)
    }

    /// The packets that are to go out on a virtual network.
    pub fn output(&self, vn: u8) -> &Queue
        requires { vn < channels self.now }
        ensures { result.now ≡ output self.now vn }
    {
        self.line.output(vn)
    }

    /// The flits that may still go out on a virtual network.
    pub fn credits(&self, vn: u8) -> u32
        requires { vn < channels self.now }
        ensures { result ≡ credits_at self.now vn }
    {
        self.line.credits(vn)
    }

    /// From when on the line is free, in picoseconds.
    pub fn line_free(&self) -> u64
        ensures { result ≡ self.now.line_free }
    {
        self.line.line_free()
    }

    /// The virtual network whose turn it is to send.
    pub fn turn(&self) -> u8
        ensures { result ≡ self.now.pump }
    {
        self.line.turn()
    }

    /// Sets when the line is free, in picoseconds, and the virtual network whose turn it is, as they were saved. All else stays.
    pub fn set_line(&mut self, line_free: u64, turn: u8)
        ensures { self.new ≡ record self.old { line_free = line_free; pump = turn } }
    {
        self.line.set_line(line_free, turn);
    }

    /// Sets the flits that may still go out on a virtual network, as they were saved. All else stays.
    pub fn set_credits(&mut self, vn: u8, flits: u32)
        requires { vn < channels self.old }
        ensures { self.new ≡ record self.old { credits = slice_set self.old.credits vn flits } }
    {
        self.line.set_credits(vn, flits);
    }

    /// Writes what stands on its channels in order: of each the packets that came in, those that are to go out, and 4 bytes of its
    /// credits. It fails only where no memory is left, and nothing is then known of `out`. The form is this project's own.
    pub fn save_channels(&self, out: &mut Writer) -> Result<(), AllocError>
        ensures { OnOk result (out.new ≡ out.old ++ flat_map lane_text (lanes_of self.now)) }
    {
        self.line.save_channels(out)
    }

    /// Takes on what was written of its channels, be it what they may hold or not. All else stays. After a refusal nothing is known
    /// of it and of the reader.
    pub fn restore_channels(&mut self, bytes: &mut Reader<'_>) -> Result<(), RestoreFault>
        ensures told { Gives (λ u. lanes_of self.new) result bytes.new ((lanes_form (lanes_of self.old)).read bytes.old) }
        ensures same { OnOk result (self.new ≡ with_lanes self.old (lanes_of self.new)) }
    {
        self.line.restore_channels(bytes)
    }
}
