//! A queue of packets per channel.

ghost use Rattle.std.specs.Prelude.{◌≡◌, ◌≤◌, ◌<◌, length, replicate, slice_set, OnOk, OnErr, IfOk, IfSome};
ghost use Rattle.ss_element.specs.Gives.{Gives};
ghost use Rattle.mr_flow.specs.Queue.{flits_of, room, empty_row, head, rest, added, row_at, waiting_in};
ghost use Rattle.mr_flow.specs.Saved.{row_form};

use crate::Packet;
use crate::queue::Queue;
use ss_element::RestoreFault;
use ss_wire::Reader;
use std::alloc::{AllocError, Global};
use std::marker::Model;

/// A queue per channel, with the count of those that have a packet.
#[derive(Drop)]
pub(crate) struct Queues {
    items: Vec<Queue>,
    waiting: u16,
}

impl Model for Queues {
    ghost use Rattle.std.specs.Prelude.{◌≡◌, ◌≤◌, List, length};
    ghost use Rattle.mr_flow.specs.Queue.{Row, waiting_in};

    ghost Value = { List Row };

    ghost view = { λ q. q.items.items };

    ghost invariant = { λ q. (q.waiting ≡ waiting_in q.items.items) × (length q.items.items ≤ 256) };
}

impl Queues {
    // So many queues of one capacity.
    #[tactic(auto, using(crate::proofs::Rows::making))]
    pub(crate) fn new(alloc: Global, count: u16, capacity: u32) -> Result<Queues, AllocError>
        requires { count ≤ 256 }
        ensures { IfOk result (λ q. q ≡ replicate count (empty_row capacity)) }
    {
        let mut items = Vec::new(alloc);
        for _i in 0..count {
            items.push(Queue::new(alloc, capacity))?;
        }
        Ok(Queues { items, waiting: 0 })
    }

    pub(crate) fn get(&self, channel: u8) -> &Queue
        requires { channel < length self.now }
        ensures { result.now ≡ row_at self.now channel }
    {
        &self.items[usize::from(channel)]
    }

    // How many have a packet.
    pub(crate) fn waiting(&self) -> u16
        ensures { result ≡ waiting_in self.now }
    {
        self.waiting
    }

    pub(crate) fn add(&mut self, channel: u8, packet: Packet) -> Result<(), AllocError>
        requires here { channel < length self.old }
        requires room { packet.flits ≤ room (row_at self.old channel) }
        ensures ok { OnOk result (self.new ≡ slice_set self.old channel (added (row_at self.old channel) packet)) }
        ensures err { OnErr result (self.new ≡ self.old) }
    {
        let queue = &mut self.items[usize::from(channel)];
        let was_empty = queue.is_empty();
        queue.add(packet)?;
        if was_empty {
            self.waiting += 1;
        }
        Ok(())
    }

    pub(crate) fn take(&mut self, channel: u8) -> Option<Packet>
        requires { channel < length self.old }
        ensures front { result ≡ head (row_at self.old channel) }
        ensures rest { self.new ≡ slice_set self.old channel (rest (row_at self.old channel)) }
    {
        let queue = &mut self.items[usize::from(channel)];
        let packet = queue.take()?;
        if queue.is_empty() {
            self.waiting -= 1;
        }
        Some(packet)
    }

    // Takes on the packets of a channel that were written.
    pub(crate) fn restore(
        &mut self,
        channel: u8,
        bytes: &mut Reader<'_>,
    ) -> Result<(), RestoreFault>
        requires { channel < length self.old }
        ensures told { Gives (λ u. row_at self.new channel) result bytes.new ((row_form (row_at self.old channel)).read bytes.old) }
        ensures same { self.new ≡ slice_set self.old channel (row_at self.new channel) }
        ensures kept { (row_at self.new channel).capacity ≡ (row_at self.old channel).capacity }
    {
        let queue = &mut self.items[usize::from(channel)];
        if !queue.is_empty() {
            self.waiting -= 1;
        }
        let outcome = queue.restore(bytes);
        if !queue.is_empty() {
            self.waiting += 1;
        }
        outcome
    }
}
