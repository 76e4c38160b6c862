//! The state of an endpoint: how it is saved, when it is sound, and what stands on its channels.

ghost use Rattle.std.specs.Prelude.{◌≡◌, ◌<◌, ◌^◌, ◌++◌, true, length, OnOk};
ghost use Rattle.std.specs.List.{list_all, range_with_len};
ghost use Rattle.ss_element.specs.Gives.{Gives};
ghost use Rattle.mr_flow.specs.Load.{is_of};
ghost use Rattle.mr_nic.specs.Endpoint.{networks};
ghost use Rattle.mr_nic.specs.Saved.{endpoint_form};
ghost use Rattle.mr_nic.specs.Kind.{bounds_of, lane_fits, endpoint_fits, comes, load_comes, cause_comes, channels_of, flow_of};

use crate::nic::Endpoint;
use mr_flow::{Bounds, Load, NetLoad, Packet};
use ss_element::{Flow, RestoreFault, restore_stats, save_stats};
use ss_model::Cause;
use ss_stats::StatSet;
use ss_wire::{Reader, Writer};
use std::alloc::AllocError;

impl Endpoint {
    // The packets of the network.
    fn bounds(&self) -> Bounds
        ensures { result ≡ bounds_of self.now }
    {
        Bounds {
            endpoints: self.peers,
            vns: self.vns,
            least: self.least,
        }
    }

    // Whether what stands on a network may be there before a time.
    #[tactic(auto, unfolding(crate::specs::Kind::lane_fits))]
    fn lane_fits(&self, vn: u8, at: u64) -> bool
        requires { vn < networks self.now }
        ensures { result ≡ lane_fits self.now at vn }
    {
        let bounds = self.bounds();
        self.link.input(vn).fits(bounds, vn, at)
            && self.link.output(vn).fits(bounds, vn, at)
            && self.link.credits(vn) <= self.most
    }

    // Whether it may on each.
    #[tactic(auto, using(crate::specs::Kept::Judging::not_each, crate::specs::Kept::Judging::each_more))]
    fn lanes_fit(&self, at: u64) -> bool
        ensures { result ≡ list_all (lane_fits self.now at) (range_with_len 0 (networks self.now)) }
    {
        for vn in 0..self.link.networks() {
            if !self.lane_fits(vn as u8, at) {
                return false;
            }
        }
        true
    }

    /// Whether a run may leave it so that handled what came before a time, in picoseconds: the line is free soon, the turn is one of
    /// the networks', what stands on them may be there, and no more was sent than there is.
    #[tactic(auto, unfolding(crate::specs::Kind::endpoint_fits))]
    pub(crate) fn fits(&self, at: u64) -> bool
        ensures { result ≡ endpoint_fits self.now at }
    {
        self.link.line_free() <= at.saturating_add(1 << 40)
            && u16::from(self.link.turn()) < self.link.networks()
            && self.lanes_fit(at)
            && self.sent <= self.total
    }

    // Whether a packet is one of a network that may be there before a time.
    fn is_of(&self, vn: u8, packet: &Packet, at: u64) -> bool
        ensures { result ≡ is_of (bounds_of self.now) vn at packet.now }
    {
        packet.vn == vn && packet.fits(self.bounds(), at)
    }

    // Whether something may come over its line before a time.
    #[tactic(auto, using(crate::specs::Kept::Lanes::count_lanes))]
    fn comes(&self, load: &NetLoad, at: u64) -> bool
        ensures { result ≡ comes self.now at load.now }
    {
        let networks = self.link.networks();
        match load {
            NetLoad::Packet { channel, packet } => {
                u16::from(*channel) < networks && self.is_of(*channel, packet, at)
            }
            NetLoad::Credit { channel, flits } => {
                u16::from(*channel) < networks && 1 <= *flits && *flits <= self.most
            }
        }
    }

    /// Whether what a cause brings may come after all that came before a time, in picoseconds: a packet of the network's on its
    /// channel, or a credit of no more than the router's queue can hold.
    pub(crate) fn fits_load(&self, cause: &Cause<Load>, at: u64) -> bool
        ensures { result ≡ cause_comes self.now cause.now at }
    {
        match cause {
            Cause::Start | Cause::Tick { .. } => true,
            Cause::Own { .. } => false,
            Cause::Link { port, load } => match load {
                Load::Core { .. } => false,
                Load::Net(load) => *port == 0 && self.comes(load, at),
            },
        }
    }

    /// How many channels a port has: the only one has one for each virtual network.
    #[tactic(auto, using(crate::specs::Kept::Lanes::count_lanes))]
    pub(crate) fn channels(&self, port: u16) -> u16
        ensures { result ≡ channels_of self.now port }
    {
        if port == 0 { self.link.networks() } else { 0 }
    }

    /// What stands on a network, in flits.
    #[tactic(auto, using(crate::specs::Kept::Fitting::within_networks))]
    pub(crate) fn flow(&self, port: u16, vn: u8) -> Flow
        requires there { vn < channels_of self.now port }
        requires fits { endpoint_fits self.now (2 ^ 62) ≡ true }
        ensures { result ≡ flow_of self.now vn }
    {
        let queue = self.link.input(vn);
        let capacity = queue.capacity();
        let queued = queue.flits() as u32;
        Flow {
            credits: self.link.credits(vn),
            queued,
            capacity,
        }
    }

    /// The statistics that are kept.
    pub(crate) fn stats(&self) -> &StatSet
        ensures { result.now ≡ self.now.stats }
    {
        &self.stats
    }

    /// Writes what runs change: 8 bytes each of what was sent, what was received and when the line is free, 1 of the network whose
    /// turn it is, what stands on the networks, 8 bytes for each expected number and for each number of a generator's destinations,
    /// and the statistics.
    pub(crate) fn save(&self, out: &mut Writer) -> Result<(), AllocError>
        ensures { OnOk result (out.new ≡ out.old ++ (endpoint_form self.now).spell self.now) }
    {
        out.u64(self.sent)?;
        out.u64(self.received)?;
        out.u64(self.link.line_free())?;
        out.u8(self.link.turn())?;
        self.link.save_channels(out)?;
        self.expected.save(out)?;
        self.next.save(out)?;
        save_stats(&self.stats, out)?;
        Ok(())
    }

    /// Takes on what was written, as an endpoint whose start event was handled.
    pub(crate) fn restore(&mut self, bytes: &mut Reader<'_>) -> Result<(), RestoreFault>
        ensures { Gives (λ u. self.new) result bytes.new ((endpoint_form self.old).read bytes.old) }
    {
        self.begun = true;
        self.sent = bytes.u64()?;
        self.received = bytes.u64()?;
        let line_free = bytes.u64()?;
        let turn = bytes.u8()?;
        self.link.set_line(line_free, turn);
        self.link.restore_channels(bytes)?;
        self.expected.restore(bytes)?;
        self.next.restore(bytes)?;
        restore_stats(&mut self.stats, bytes)
    }
}
