//! The state of a router: how it is saved, when it is sound, and what stands on its channels.

ghost use Rattle.std.specs.Prelude.{◌≡◌, ◌<◌, ◌≤◌, ◌^◌, ◌++◌, ◌/◌, true, length, OnOk};
ghost use Rattle.std.specs.List.{list_all, range_with_len};
ghost use Rattle.ss_element.specs.Gives.{Gives};
ghost use Rattle.mr_flow.specs.Load.{is_of};
ghost use Rattle.mr_flow.specs.declared.NetLoad.TheVariants as net;
ghost use Rattle.mr_router.specs.Network.{routes};
ghost use Rattle.mr_router.specs.Router.{port_at, router_ticks};
ghost use Rattle.mr_router.specs.Holding.{IsOfTopology};
ghost use Rattle.mr_router.specs.Fitting.{lanes, bounds_of, port_fits, router_fits, lane_count, comes, cause_comes};
ghost use Rattle.mr_router.specs.Saved.{router_form};
ghost use Rattle.mr_router.specs.Kind.{router_kind};

use crate::port::{Port, restore_ports, save_ports};
use crate::pumping::is_idle;
use crate::router::Router;
use crate::settings::RouterSettings;
use mr_flow::{Load, NetLoad, Packet};
use ss_element::{Cause, Flow, RestoreFault, restore_stats, save_stats};
use ss_wire::{Reader, Writer};
use std::alloc::AllocError;

// Whether a run may leave each port so that handled what came before a time.
#[tactic(auto, using(crate::specs::Kept::Judging::each_more))]
fn ports_fit(set: &RouterSettings, ports: &[Port], at: u64) -> bool
    requires { IsOfTopology set.now (length ports.now) }
    ensures { result ≡ list_all (λ i. port_fits set.now at i (port_at ports.now i)) (range_with_len 0 (length ports.now)) }
{
    for index in 0..ports.len() {
        if !ports[index].fits(set, index as u16, at) {
            return false;
        }
    }
    true
}

impl Router {
    /// Whether a run may leave it so that handled what came before a time, in picoseconds: each port fits, and the turns are such as
    /// an arbiter may have.
    pub(crate) fn is_sound(&self, at: u64) -> bool
        ensures { result ≡ router_fits self.now at }
    {
        ports_fit(&self.set, &self.ports, at) && self.outputs.fit()
    }

    // Whether a packet is of the network of a port's channel, and may be there before a time.
    fn is_of(&self, port: u16, channel: u8, packet: &Packet, at: u64) -> bool
        requires { port < length self.now.ports }
        ensures { result ≡ is_of (bounds_of self.now.set) (channel / lanes self.now.set port) at packet.now }
    {
        packet.vn == self.set.network(port, channel) && packet.fits(self.set.bounds(), at)
    }

    // Whether a packet may come on a port's channel before a time.
    #[tactic(auto, using(crate::specs::Kept::Judging::and_false))]
    fn packet_comes(&self, port: u16, channel: u8, packet: &Packet, at: u64) -> bool
        ensures { result ≡ comes self.now port at (net.Packet channel packet.now) }
    {
        if u16::from(channel) >= self.channels_of(port) {
            return false;
        }
        self.set.leads(port) && self.is_of(port, channel, packet, at)
    }

    // The most flits that may be sent out of a port on a channel at once.
    fn most(&self, port: u16) -> u32
        ensures { result ≡ (port_at self.now.ports port).most }
    {
        match self.ports.get(usize::from(port)) {
            Some(port) => port.most,
            None => 0,
        }
    }

    // Whether something may come to a port before a time.
    fn comes(&self, port: u16, load: &NetLoad, at: u64) -> bool
        ensures { result ≡ comes self.now port at load.now }
    {
        match load {
            NetLoad::Packet { channel, packet } => self.packet_comes(port, *channel, packet, at),
            NetLoad::Credit { channel, flits } => {
                u16::from(*channel) < self.channels_of(port)
                    && 1 <= *flits
                    && *flits <= self.most(port)
            }
        }
    }

    /// Whether what a cause brings may come after all that came before a time, in picoseconds: to a port that leads somewhere a packet
    /// of the network's on one of its channels, or a credit of no more than the other end's queue can hold.
    pub(crate) fn may_come(&self, cause: &Cause<Load>, at: u64) -> bool
        ensures { result ≡ cause_comes self.now cause.now at }
    {
        match cause {
            Cause::Start | Cause::Tick { .. } => true,
            Cause::Own { .. } => false,
            Cause::Link { port, load } => match load {
                Load::Core { .. } => false,
                Load::Net(load) => self.comes(*port, load, at),
            },
        }
    }

    /// Whether a clock is on: the only one is where some queue isn't empty.
    pub(crate) fn ticks(&self, clock: u16) -> bool
        ensures { result ≡ router_ticks self.now clock }
    {
        clock == 0 && !is_idle(&self.ports)
    }

    /// How many channels a port has.
    #[tactic(auto, using(crate::specs::Kept::Sizes::count_lanes))]
    pub(crate) fn channels_of(&self, port: u16) -> u16
        ensures count { result ≡ lane_count (port_at self.now.ports port) }
        ensures here { 1 ≤ result → port < length self.now.ports }
    {
        match self.ports.get(usize::from(port)) {
            Some(port) => port.line.channels(),
            None => 0,
        }
    }

    /// What stands on a port's channel, in flits.
    pub(crate) fn flow_at(&self, port: u16, channel: u8) -> Flow
        requires there { channel < lane_count (port_at self.now.ports port) }
        requires fits { router_fits self.now (2 ^ 62) ≡ true }
        ensures { result ≡ router_kind.flow self.now port channel }
    {
        let line = &self.ports[usize::from(port)].line;
        let queue = line.input(channel);
        let capacity = queue.capacity();
        let queued = queue.flits() as u32;
        Flow {
            credits: line.credits(channel),
            queued,
            capacity,
        }
    }

    /// Writes what runs change: the ports, the turns of the outputs, and the statistics.
    pub(crate) fn save_state(&self, out: &mut Writer) -> Result<(), AllocError>
        ensures { OnOk result (out.new ≡ out.old ++ (router_form self.now).spell self.now) }
    {
        save_ports(&self.ports, out)?;
        self.outputs.save(out)?;
        save_stats(&self.stats, out)?;
        Ok(())
    }

    /// Takes on what was written.
    #[tactic(auto, using(crate::proofs::Resting::never_quiet))]
    pub(crate) fn restore_state(&mut self, bytes: &mut Reader<'_>) -> Result<(), RestoreFault>
        ensures { Gives (λ u. self.new) result bytes.new ((router_form self.old).read bytes.old) }
    {
        self.quiet_until = 0;
        restore_ports(&mut self.ports, bytes)?;
        self.outputs.restore(bytes)?;
        restore_stats(&mut self.stats, bytes)
    }
}
