//! What events carry, and when it may come.

ghost use Rattle.std.specs.Prelude.{◌≡◌, ◌++◌, OnOk};
ghost use Rattle.ss_element.specs.Gives.{Tells};
ghost use Rattle.mr_flow.specs.Load.{packet_fits, net_weight};
ghost use Rattle.mr_flow.specs.Saved.{packet_form, net_text, core_load_form, net_load_form, packet_load_form, credit_load_form, kind_form};

use crate::{Bounds, Load, NetLoad, Packet};
use ss_element::{Payload, RestoreFault};
use ss_wire::{Reader, Writer};
use std::alloc::AllocError;

impl Packet {
    /// Whether it may be in a network at a time, in picoseconds: it goes between endpoints, on one of the virtual networks, has from
    /// 1 flit to the least capacity of a queue, and was made before the time.
    pub fn fits(&self, bounds: Bounds, at: u64) -> bool
        ensures { result ≡ packet_fits bounds at self.now }
    {
        self.src < bounds.endpoints
            && self.dst < bounds.endpoints
            && self.vn < bounds.vns
            && 1 <= self.flits
            && self.flits <= bounds.least
            && self.born < at
            && self.seq <= u64::MAX
            && self.tag <= u64::MAX
    }

    /// Writes the packet, high byte first: 4 bytes each of its source and its destination, 1 of its virtual network, 4 of its flits,
    /// and 8 each of its number, of when it was made and of its tag. It fails only where no memory is left, and nothing is then known
    /// of `out`. The form is this project's own.
    pub fn save(&self, out: &mut Writer) -> Result<(), AllocError>
        ensures { OnOk result (out.new ≡ out.old ++ packet_form.spell self.now) }
    {
        out.u32(self.src)?;
        out.u32(self.dst)?;
        out.u8(self.vn)?;
        out.u32(self.flits)?;
        out.u64(self.seq)?;
        out.u64(self.born)?;
        out.u64(self.tag)?;
        Ok(())
    }

    /// Reads a packet that was written. It takes no memory. After a refusal nothing is known of the reader.
    pub fn read(bytes: &mut Reader<'_>) -> Result<Packet, RestoreFault>
        ensures { Tells (λ p. p) result bytes.new (packet_form.read bytes.old) }
    {
        let src = bytes.u32()?;
        let dst = bytes.u32()?;
        let vn = bytes.u8()?;
        let flits = bytes.u32()?;
        let seq = bytes.u64()?;
        let born = bytes.u64()?;
        let tag = bytes.u64()?;
        Ok(Packet {
            src,
            dst,
            vn,
            flits,
            seq,
            born,
            tag,
        })
    }
}

impl NetLoad {
    /// What it weighs: whether it is a packet or a credit, its channel and its flits. It takes no memory.
    pub fn weight(&self) -> (bool, u8, u32)
        ensures { Some result ≡ net_weight self.now }
    {
        match self {
            NetLoad::Packet { channel, packet } => (true, *channel, packet.flits),
            NetLoad::Credit { channel, flits } => (false, *channel, *flits),
        }
    }

    fn save(&self, out: &mut Writer) -> Result<(), AllocError>
        ensures { OnOk result (out.new ≡ out.old ++ net_text self.now) }
    {
        match self {
            NetLoad::Packet { channel, packet } => {
                out.u8(0)?;
                out.u8(*channel)?;
                packet.save(out)?;
            }
            NetLoad::Credit { channel, flits } => {
                out.u8(1)?;
                out.u8(*channel)?;
                out.u32(*flits)?;
            }
        }
        Ok(())
    }
}

fn read_packet_load(bytes: &mut Reader<'_>) -> Result<NetLoad, RestoreFault>
    ensures { Tells (λ y. y) result bytes.new (packet_load_form.read bytes.old) }
{
    let channel = bytes.u8()?;
    let packet = Packet::read(bytes)?;
    Ok(NetLoad::Packet { channel, packet })
}

fn read_credit_load(bytes: &mut Reader<'_>) -> Result<NetLoad, RestoreFault>
    ensures { Tells (λ y. y) result bytes.new (credit_load_form.read bytes.old) }
{
    let channel = bytes.u8()?;
    let flits = bytes.u32()?;
    Ok(NetLoad::Credit { channel, flits })
}

fn read_kind(bytes: &mut Reader<'_>) -> Result<u8, RestoreFault>
    ensures { Tells (λ k. k) result bytes.new (kind_form.read bytes.old) }
{
    let at = bytes.at();
    let kind = bytes.u8()?;
    if kind < 2 {
        Ok(kind)
    } else {
        Err(RestoreFault::Value { at })
    }
}

/// Reads a load of a network that was written. It is `Value` at its first byte where that is no kind of load. It takes no memory.
/// After a refusal nothing is known of the reader.
pub fn read_net_load(bytes: &mut Reader<'_>) -> Result<Load, RestoreFault>
    ensures { Tells (λ y. y) result bytes.new (net_load_form.read bytes.old) }
{
    let kind = read_kind(bytes)?;
    if kind == 0 {
        let load = read_packet_load(bytes)?;
        Ok(Load::Net(load))
    } else {
        let load = read_credit_load(bytes)?;
        Ok(Load::Net(load))
    }
}

/// Reads a load of a core kind that was written. It takes no memory. After a refusal nothing is known of the reader.
pub fn read_core_load(bytes: &mut Reader<'_>) -> Result<Load, RestoreFault>
    ensures { Tells (λ y. y) result bytes.new (core_load_form.read bytes.old) }
{
    let n = bytes.u32()?;
    Ok(Load::Core { n })
}

impl Payload for Load {
    ghost use Rattle.mr_flow.specs.Load.{load_weight};
    ghost use Rattle.mr_flow.specs.Saved.{load_text};

    ghost weighs = { load_weight };

    ghost spells = { load_text };

    fn weight(&self) -> Option<(bool, u8, u32)> {
        match self {
            Load::Core { .. } => None,
            Load::Net(load) => Some(load.weight()),
        }
    }

    /// Writes the load: of a core kind 4 bytes of its number; of a network 1 byte of its kind, which is 0 for a packet and 1 for a
    /// credit, 1 of its channel, and then the packet, or 4 bytes of the credit's flits.
    fn save(&self, out: &mut Writer) -> Result<(), AllocError> {
        match self {
            Load::Core { n } => out.u32(*n),
            Load::Net(load) => load.save(out),
        }
    }
}
