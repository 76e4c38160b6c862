//! A router's port.

ghost use Rattle.std.specs.Prelude.{◌≡◌, ◌<◌, ◌++◌, length, OnOk};
ghost use Rattle.std.specs.List.{flat_map, list_all, range_with_len};
ghost use Rattle.ss_element.specs.Gives.{Gives, put_at};
ghost use Rattle.mr_router.specs.Router.{port_at};
ghost use Rattle.mr_flow.specs.Side.{channels};
ghost use Rattle.mr_router.specs.Network.{routes};
ghost use Rattle.mr_router.specs.Fitting.{lane_fits, port_fits};
ghost use Rattle.mr_router.specs.Saved.{port_text, port_form, ports_form};

use crate::settings::RouterSettings;
use mr_port::PortControl;
use ss_element::RestoreFault;
use ss_wire::{Reader, Writer};
use std::alloc::AllocError;

/// A port of a router: its end of the line, and when it may go on. Times are in picoseconds.
#[derive(Drop)]
pub struct Port {
    pub line: PortControl,
    /// From when on its input may give a packet to the crossbar.
    pub in_free: u64,
    /// From when on its output may take a packet from the crossbar.
    pub cross_free: u64,
    /// What the other end's input queues can hold, in flits; 0 where the port leads nowhere.
    pub most: u32,
}

impl Port {
    // Whether what stands on a channel of port `index` may be there before a time.
    fn lane_fits(&self, set: &RouterSettings, index: u16, channel: u8, at: u64) -> bool
        requires id { set.now.id < (routes set.now.topology).routers }
        requires port { index < (routes set.now.topology).ports set.now.id }
        requires channel { channel < channels self.now.line }
        ensures { result ≡ lane_fits set.now at index self.now channel }
    {
        let bounds = set.bounds();
        let vn = set.network(index, channel);
        self.line.input(channel).fits(bounds, vn, at)
            && self.line.output(channel).fits(bounds, vn, at)
            && self.line.credits(channel) <= self.most
    }

    // Whether it may on each.
    #[tactic(auto, using(crate::specs::Kept::Judging::each_more))]
    fn lanes_fit(&self, set: &RouterSettings, index: u16, at: u64) -> bool
        requires id { set.now.id < (routes set.now.topology).routers }
        requires port { index < (routes set.now.topology).ports set.now.id }
        ensures { result ≡ list_all (lane_fits set.now at index self.now) (range_with_len 0 (channels self.now.line)) }
    {
        for channel in 0..self.line.channels() {
            if !self.lane_fits(set, index, channel as u8, at) {
                return false;
            }
        }
        true
    }

    /// Whether a run may leave it, as port `index`, so that handled what came before a time, in picoseconds: it is free soon, the turn
    /// is one of its channels', what stands on them may be there, and nothing does where it leads nowhere.
    pub(crate) fn fits(&self, set: &RouterSettings, index: u16, at: u64) -> bool
        requires id { set.now.id < (routes set.now.topology).routers }
        requires port { index < (routes set.now.topology).ports set.now.id }
        ensures { result ≡ port_fits set.now at index self.now }
    {
        let latest = at.saturating_add(1 << 40);
        self.line.line_free() <= latest
            && self.in_free <= latest
            && self.cross_free <= latest
            && u16::from(self.line.turn()) < self.line.channels()
            && (set.leads(index) || self.line.is_idle())
            && self.lanes_fit(set, index, at)
    }

    /// Writes what runs change: 8 bytes each of when its line, its input and its output are free, 1 of the channel whose turn it is,
    /// and what stands on its channels.
    pub(crate) fn save(&self, out: &mut Writer) -> Result<(), AllocError>
        ensures { OnOk result (out.new ≡ out.old ++ port_text self.now) }
    {
        out.u64(self.line.line_free())?;
        out.u64(self.in_free)?;
        out.u64(self.cross_free)?;
        out.u8(self.line.turn())?;
        self.line.save_channels(out)?;
        Ok(())
    }

    /// Takes on what was written.
    pub(crate) fn restore(&mut self, bytes: &mut Reader<'_>) -> Result<(), RestoreFault>
        ensures { Gives (λ u. self.new) result bytes.new ((port_form self.old).read bytes.old) }
    {
        let line_free = bytes.u64()?;
        self.in_free = bytes.u64()?;
        self.cross_free = bytes.u64()?;
        let turn = bytes.u8()?;
        self.line.set_line(line_free, turn);
        self.line.restore_channels(bytes)
    }
}

// Writes each port.
pub(crate) fn save_ports(ports: &[Port], out: &mut Writer) -> Result<(), AllocError>
    ensures { OnOk result (out.new ≡ out.old ++ flat_map port_text ports.now) }
{
    for index in 0..ports.len() {
        ports[index].save(out)?;
    }
    Ok(())
}

// Takes on what was written of a port.
fn restore_at(ports: &mut [Port], index: usize, bytes: &mut Reader<'_>) -> Result<(), RestoreFault>
    requires { index < length ports.old }
    ensures told { Gives (λ u. ports.new) result bytes.new (put_at ports.old index ((port_form (port_at ports.old index)).read bytes.old)) }
{
    ports[index].restore(bytes)?;
    Ok(())
}

// Takes on what was written of each port.
pub(crate) fn restore_ports(ports: &mut [Port], bytes: &mut Reader<'_>) -> Result<(), RestoreFault>
    ensures { Gives (λ u. ports.new) result bytes.new ((ports_form ports.old).read bytes.old) }
{
    for index in 0..ports.len() {
        restore_at(ports, index, bytes)?;
    }
    Ok(())
}
