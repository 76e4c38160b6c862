//! Queues of packets.

ghost use Rattle.std.specs.Prelude.{◌≡◌, ◌≤◌, ◌<◌, ◌+◌, ◌++◌, ◌^◌, length, OnOk, OnErr, IfSome, ◌==◌};
ghost use Rattle.std.specs.Slice.{IsItemAt};
ghost use Rattle.ss_element.specs.Gives.{Gives};
ghost use Rattle.mr_flow.specs.Queue.{flits_of, room, empty_row, head, rest, added};
ghost use Rattle.mr_flow.specs.Load.{is_of, row_fits};
ghost use Rattle.mr_flow.specs.Saved.{packet_form, packets_text, row_form};
ghost use Rattle.std.specs.List.{flat_map, list_all};

use crate::{Bounds, Packet};
use ss_element::RestoreFault;
use ss_wire::{Reader, Writer};
use std::alloc::{AllocError, Global};
use std::collections::VecDeque;
use std::marker::Model;

/// Packets, first in first out, which together have no more flits than the queue's capacity, unless they were read from bytes that
/// say otherwise. It is a ring buffer, which keeps its memory when packets leave.
#[derive(Drop)]
pub struct Queue {
    packets: VecDeque<Packet>,
    flits: u64,
    capacity: u32,
}

impl Model for Queue {
    ghost use Rattle.std.specs.Prelude.{◌≡◌};
    ghost use Rattle.mr_flow.specs.Queue.{Row, flits_of};

    ghost Value = { Row };

    ghost view = { λ q. record { packets = q.packets.items; capacity = q.capacity } };

    ghost invariant = { λ q. q.flits ≡ flits_of q.packets.items };
}

impl Queue {
    /// A queue of no packets that can hold so many flits. It takes no memory.
    pub fn new(alloc: Global, capacity: u32) -> Queue
        ensures { result ≡ empty_row capacity }
    {
        Queue {
            packets: VecDeque::new(alloc),
            flits: 0,
            capacity,
        }
    }

    /// How many flits it can hold.
    pub fn capacity(&self) -> u32
        ensures { result ≡ self.now.capacity }
    {
        self.capacity
    }

    /// How many flits its packets have.
    pub fn flits(&self) -> u64
        ensures { result ≡ flits_of self.now.packets }
    {
        self.flits
    }

    /// How many flits more it can hold.
    pub fn room(&self) -> u32
        ensures { result ≡ room self.now }
    {
        u64::from(self.capacity).saturating_sub(self.flits) as u32
    }

    /// How many packets it has.
    pub fn len(&self) -> usize
        ensures { result ≡ length self.now.packets }
    {
        self.packets.len()
    }

    /// Whether it has no packet.
    pub fn is_empty(&self) -> bool
        ensures { result ≡ (length self.now.packets == 0) }
    {
        self.packets.is_empty()
    }

    /// The packet at an index, counted from the front.
    pub fn get(&self, index: usize) -> Option<&Packet>
        ensures { IsItemAt self.now.packets index result }
    {
        self.packets.get(index)
    }

    /// The packet in front, or `None` where there is none.
    pub fn head(&self) -> Option<Packet>
        ensures front { result ≡ head self.now }
        ensures fits { IfSome result (λ p. p.flits ≤ flits_of self.now.packets) }
    {
        self.packets.front().copied()
    }

    /// Puts a packet at the back. It fails only where no memory is left, and the queue is then as before.
    #[tactic(auto, using(crate::proofs::Rows::pushing))]
    pub fn add(&mut self, packet: Packet) -> Result<(), AllocError>
        requires { packet.flits ≤ room self.old }
        ensures ok { OnOk result (self.new ≡ added self.old packet) }
        ensures err { OnErr result (self.new ≡ self.old) }
    {
        self.packets.push_back(packet)?;
        self.flits += u64::from(packet.flits);
        Ok(())
    }

    /// Takes the packet in front, or answers `None` where there is none. It takes no memory.
    pub fn take(&mut self) -> Option<Packet>
        ensures front { result ≡ head self.old }
        ensures rest { self.new ≡ rest self.old }
    {
        let packet = self.packets.pop_front()?;
        self.flits -= u64::from(packet.flits);
        Some(packet)
    }

    /// Whether it holds no more than it may, and packets of one virtual network alone that may be there at a time.
    pub fn fits(&self, bounds: Bounds, vn: u8, at: u64) -> bool
        ensures { result ≡ row_fits bounds vn at self.now }
    {
        self.flits <= u64::from(self.capacity) && self.all_fit(bounds, vn, at)
    }

    // Whether all packets are of a virtual network and may be there.
    fn all_fit(&self, bounds: Bounds, vn: u8, at: u64) -> bool
        ensures { result ≡ list_all (is_of bounds vn at) self.now.packets }
    {
        for index in 0..self.packets.len() {
            let packet = self.packets[index];
            if packet.vn != vn || !packet.fits(bounds, at) {
                return false;
            }
        }
        true
    }

    /// Writes the packets: 4 bytes of their count, and then each from the front. It fails only where no memory is left, and
    /// nothing is then known of `out`; more packets than 4 bytes can count are too many for any memory. The form is this project's own.
    pub fn save(&self, out: &mut Writer) -> Result<(), AllocError>
        ensures { OnOk result (out.new ≡ out.old ++ packets_text self.now.packets) }
    {
        let count = self.packets.len();
        if count >= 1 << 32 {
            return Err(AllocError);
        }
        out.u32(count as u32)?;
        self.save_each(out)
    }

    // Writes each packet from the front.
    fn save_each(&self, out: &mut Writer) -> Result<(), AllocError>
        ensures { OnOk result (out.new ≡ out.old ++ flat_map packet_form.spell self.now.packets) }
    {
        for index in 0..self.packets.len() {
            self.packets[index].save(out)?;
        }
        Ok(())
    }

    // Lets all packets go.
    fn clear(&mut self)
        ensures { self.new ≡ empty_row self.old.capacity }
    {
        self.packets.clear();
        self.flits = 0;
    }

    // Puts a packet that was saved at the back.
    #[tactic(auto, using(crate::proofs::Rows::pushing))]
    fn hold(&mut self, packet: Packet) -> Result<(), AllocError>
        requires { flits_of self.old.packets + packet.flits < 2 ^ 64 }
        ensures ok { OnOk result (self.new ≡ added self.old packet) }
        ensures err { OnErr result (self.new ≡ self.old) }
    {
        self.packets.push_back(packet)?;
        self.flits += u64::from(packet.flits);
        Ok(())
    }

    /// Takes on the packets that were written, be they more than it may hold or not. After a refusal nothing is known of the queue
    /// and of the reader.
    pub fn restore(&mut self, bytes: &mut Reader<'_>) -> Result<(), RestoreFault>
        ensures told { Gives (λ u. self.new) result bytes.new ((row_form self.old).read bytes.old) }
        ensures kept { self.new.capacity ≡ self.old.capacity }
    {
        let count = bytes.u32()?;
        self.clear();
        for _i in 0..count {
            let packet = Packet::read(bytes)?;
            self.hold(packet)?;
        }
        Ok(())
    }
}
