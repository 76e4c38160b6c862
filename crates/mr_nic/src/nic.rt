//! What every endpoint of a network is, and what it does.

ghost use Rattle.std.specs.Prelude.{◌≡◌, ◌≤◌, ◌<◌, ◌+◌, ◌*◌, ◌^◌, ◌∷◌, [], ◌++◌, ◌==◌, length, OnOk, IfOk, Some, None};
ghost use Rattle.ss_tally.specs.Tally.{added};
ghost use Rattle.mr_flow.specs.declared.Load.TheVariants as net;
ghost use Rattle.mr_nic.specs.Endpoint.{networks, places_of, PlacesWithin, SameShape, packet_of, packet_by, next_packet, numbers_after, noted, made, counted, injected, sent_out, stats_after, received_by, received_on, received_to, received_all, is_done, done_text, is_verbose, tells, is_busy, rests, ended, ticked, is_on, turns_on, heard, endpoint_handled, CanTick, SourceFits, HearsWell, endpoint_meets, endpoint_by};

use crate::numbers::Numbers;
use crate::pattern::{Pattern, destination};
use itoa::Buffer;
use mr_flow::{Load, NetLoad, Packet};
use mr_link::{LinkControl, NicSettings, SendBack};
use ss_element::Acts;
use ss_model::{Action, Cause};
use ss_stats::StatSet;
use ss_tally::tally;
use ss_units::Text;
use std::alloc::{AllocError, Global};

/// What an endpoint sends.
#[derive(Clone, Copy, Debug)]
pub enum Source {
    /// As many messages to each of the others, in turn.
    Test {
        /// Whether it prints when it is done.
        verbose: bool,
    },
    /// Packets by a pattern, on one virtual network.
    Traffic {
        pattern: Pattern,
        vn: u8,
        seed: u64,
        hot: u32,
    },
}

/// Where the statistics of an endpoint stand in its set, if its graph asked for them.
#[derive(Clone, Copy, Debug)]
pub struct Places {
    pub sent: Option<usize>,
    pub received: Option<usize>,
    pub latency: Option<usize>,
    pub out_of_order: Option<usize>,
}

impl Places {
    // Where they stand in a set.
    fn of(stats: &StatSet) -> Places
        ensures { result ≡ places_of stats.now }
    {
        Places {
            sent: stats.find(b"sent"),
            received: stats.find(b"received"),
            latency: stats.find(b"latency"),
            out_of_order: stats.find(b"out_of_order"),
        }
    }
}

/// An endpoint of a network.
#[derive(Drop)]
pub struct Endpoint {
    /// The name in the graph.
    pub(crate) name: Text,
    /// Its number among the endpoints.
    pub(crate) id: u32,
    /// How many endpoints there are.
    pub(crate) peers: u32,
    /// How many virtual networks there are.
    pub(crate) vns: u8,
    /// The size of each packet that it makes, in flits.
    pub(crate) flits: u32,
    /// The most flits of a packet: the least capacity of the network.
    pub(crate) least: u32,
    /// The most credits: the capacity of the queues that they are for.
    pub(crate) most: u32,
    /// How many packets it makes in all.
    pub(crate) total: u64,
    pub(crate) source: Source,
    /// Its end of the line to its router.
    pub(crate) link: LinkControl,
    /// Whether its start event was handled.
    pub(crate) begun: bool,
    /// How many packets found room.
    pub(crate) sent: u64,
    /// How many packets were received.
    pub(crate) received: u64,
    /// By source, then by network, the number that the next packet has if none is missing.
    pub(crate) expected: Numbers,
    /// By destination the number of the next packet; a generator alone has these.
    pub(crate) next: Numbers,
    /// The statistics that its graph asked for.
    pub(crate) stats: StatSet,
    pub(crate) places: Places,
}

impl Endpoint {
    // An endpoint that has done nothing yet.
    pub(crate) fn new(
        alloc: Global,
        set: NicSettings,
        total: u64,
        flits: u32,
        from: Source,
        next: Numbers,
        stats: StatSet,
    ) -> Result<Endpoint, AllocError>
        requires input { set.input_flits * set.flit_time ≤ 2 ^ 40 }
        requires output { set.output_flits * set.flit_time ≤ 2 ^ 40 }
        ensures { IfOk result (λ n. n ≡ endpoint_by set total flits from next stats) }
    {
        let link = LinkControl::new(
            alloc,
            set.vns,
            set.input_flits,
            set.output_flits,
            set.credits,
            set.flit_time,
        )?;
        let expected = Numbers::zeros(alloc, set.peers as usize * usize::from(set.vns))?;
        let places = Places::of(&stats);
        Ok(Endpoint {
            name: set.name,
            id: set.id,
            peers: set.peers,
            vns: set.vns,
            flits,
            least: set.least,
            most: set.credits,
            total,
            source: from,
            link,
            begun: false,
            sent: 0,
            received: 0,
            expected,
            next,
            stats,
            places,
        })
    }

    // A packet of its size.
    fn packet(&self, dst: u32, vn: u8, seq: u64, now: u64) -> Packet
        ensures { result ≡ packet_of self.now dst vn seq now }
    {
        Packet {
            src: self.id,
            dst,
            vn,
            flits: self.flits,
            seq,
            born: now,
            tag: 0,
        }
    }

    // The packet that is to be made next.
    #[tactic(auto, unfolding(crate::specs::Endpoint::next_packet))]
    fn next_packet(&self, now: u64) -> Packet
        requires { CanTick self.now }
        ensures packet { result ≡ next_packet self.now now }
        ensures here { result.vn < networks self.now }
        ensures size { result.flits ≡ self.now.flits }
    {
        match self.source {
            Source::Test { .. } => {
                let others = u64::from(self.peers - 1);
                let message = self.sent / others;
                let vns = u64::from(self.link.networks());
                let dst = (u64::from(self.id) + 1 + self.sent % others) % u64::from(self.peers);
                self.packet(dst as u32, (message % vns) as u8, message / vns, now)
            }
            Source::Traffic {
                pattern,
                vn,
                seed,
                hot,
            } => {
                let dst = destination(pattern, self.id, self.peers, self.sent, seed, hot);
                self.packet(dst, vn, self.next.get(dst as usize), now)
            }
        }
    }

    // Counts a packet that found room.
    fn note_made(&mut self, packet: Packet)
        requires places { PlacesWithin self.old.places (length self.old.stats) }
        requires more { self.old.sent + 1 < 2 ^ 64 }
        ensures noted { self.new ≡ noted self.old packet }
        ensures shape { SameShape self.old self.new }
    {
        self.sent += 1;
        if let Source::Traffic { .. } = self.source {
            self.next
                .set(packet.dst as usize, packet.seq.saturating_add(1));
        }
        tally(&mut self.stats, self.places.sent, u64::from(packet.flits));
    }

    // Makes the next packet, where there is one and it finds room.
    #[tactic(auto, unfolding(crate::specs::Endpoint::injected))]
    fn inject(&mut self, now: u64) -> Result<(), AllocError>
        requires { CanTick self.old }
        ensures made { OnOk result (self.new ≡ injected self.old now) }
        ensures shape { OnOk result (SameShape self.old self.new) }
    {
        if self.sent >= self.total {
            return Ok(());
        }
        let packet = self.next_packet(now);
        match self.link.send(packet) {
            Ok(()) => {
                self.note_made(packet);
                Ok(())
            }
            Err(SendBack::Busy(_)) => Ok(()),
            Err(SendBack::NoMemory(_)) => Err(AllocError),
        }
    }

    // Lets a packet go where the line is free.
    #[tactic(auto, unfolding(crate::specs::Endpoint::sent_out))]
    fn send_out(&mut self, now: u64, acts: &mut Acts<Load>) -> Result<(), AllocError>
        requires { now < 2 ^ 62 }
        ensures state { OnOk result (self.new ≡ (sent_out self.old now).state) }
        ensures actions { OnOk result (acts.new ≡ acts.old ++ (sent_out self.old now).actions) }
        ensures shape { OnOk result (SameShape self.old self.new) }
    {
        if let Some((channel, packet, extra)) = self.link.pump(now) {
            acts.push(Action::Send {
                port: 0,
                extra,
                load: Load::Net(NetLoad::Packet { channel, packet }),
            })?;
        }
        Ok(())
    }

    // Counts a packet that was received on a network.
    fn note_received(&mut self, vn: u8, packet: Packet, now: u64)
        requires { PlacesWithin self.old.places (length self.old.stats) }
        ensures counted { self.new ≡ counted self.old now vn packet }
        ensures shape { SameShape self.old self.new }
    {
        let networks = usize::from(self.link.networks());
        let slot = packet.src as usize * networks + usize::from(vn);
        let early = u64::from(packet.seq != self.expected.get(slot));
        tally(
            &mut self.stats,
            self.places.received,
            u64::from(packet.flits),
        );
        let taken = now.saturating_sub(packet.born);
        tally(&mut self.stats, self.places.latency, taken);
        tally(&mut self.stats, self.places.out_of_order, early);
        self.received = self.received.saturating_add(1);
        self.expected.set(slot, packet.seq.saturating_add(1));
    }

    // Takes in a packet on a network, if one came.
    #[tactic(auto, unfolding(crate::specs::Endpoint::received_on))]
    fn receive(&mut self, vn: u8, now: u64, acts: &mut Acts<Load>) -> Result<(), AllocError>
        requires here { vn < networks self.old }
        requires places { PlacesWithin self.old.places (length self.old.stats) }
        ensures state { OnOk result (self.new ≡ (received_on self.old now vn).state) }
        ensures actions { OnOk result (acts.new ≡ acts.old ++ (received_on self.old now vn).actions) }
        ensures shape { OnOk result (SameShape self.old self.new) }
    {
        let Some(packet) = self.link.input(vn).head() else {
            return Ok(());
        };
        self.link.receive(vn);
        acts.push(Action::Send {
            port: 0,
            extra: 0,
            load: Load::Net(NetLoad::Credit {
                channel: vn,
                flits: packet.flits,
            }),
        })?;
        self.note_received(vn, packet, now);
        Ok(())
    }

    // Takes in a packet on each network that one came on.
    #[tactic(auto, unfolding(crate::specs::Endpoint::received_all))]
    fn receive_all(&mut self, now: u64, acts: &mut Acts<Load>) -> Result<(), AllocError>
        requires few { networks self.old ≤ 255 }
        requires places { PlacesWithin self.old.places (length self.old.stats) }
        ensures state { OnOk result (self.new ≡ (received_all self.old now).state) }
        ensures actions { OnOk result (acts.new ≡ acts.old ++ (received_all self.old now).actions) }
    {
        for vn in 0..self.link.networks() {
            self.receive(vn as u8, now, acts)?;
        }
        Ok(())
    }

    /// Whether it has sent all, and a test has received as much.
    #[tactic(auto, unfolding(crate::specs::Endpoint::is_done))]
    pub(crate) fn is_done(&self) -> bool
        ensures { result ≡ is_done self.now }
    {
        match self.source {
            Source::Test { .. } => self.sent == self.total && self.total <= self.received,
            Source::Traffic { .. } => self.sent == self.total,
        }
    }

    // Whether something is to be sent or a queue has a packet.
    #[tactic(auto, unfolding(crate::specs::Endpoint::is_busy))]
    fn is_busy(&self) -> bool
        ensures { result ≡ is_busy self.now }
    {
        self.sent < self.total || !self.link.is_idle()
    }

    // What is printed when it is done.
    fn done_text(&self, alloc: Global, now: u64) -> Result<Text, AllocError>
        ensures { IfOk result (λ t. t ≡ done_text self.now now) }
    {
        let name = self.name.as_str();
        let mut digits = Buffer::new();
        let mut text = String::with_capacity(alloc, name.len() + 112)?;
        text.push_str(name)?;
        text.push_str(": done, sent ")?;
        text.push_str(digits.format(self.sent))?;
        text.push_str(" received ")?;
        text.push_str(digits.format(self.received))?;
        text.push_str(" at ")?;
        text.push_str(digits.format(now))?;
        text.push_str(" ps\n")?;
        Ok(Text::from_string(text))
    }

    fn is_verbose(&self) -> bool
        ensures { result ≡ is_verbose self.now.source }
    {
        match self.source {
            Source::Test { verbose } => verbose,
            Source::Traffic { .. } => false,
        }
    }

    // Says that it is done, where it was not and is asked to, and turns the clock off where nothing is left to do.
    fn end(&self, was_done: bool, now: u64, acts: &mut Acts<Load>) -> Result<(), AllocError>
        ensures { OnOk result (acts.new ≡ acts.old ++ (ended was_done self.now now).actions) }
    {
        if self.is_verbose() && !was_done && self.is_done() {
            let text = self.done_text(acts.allocator(), now)?;
            acts.push(Action::Print { text })?;
        }
        if !self.is_busy() {
            acts.push(Action::ClockOff { clock: 0 })?;
        }
        Ok(())
    }

    #[tactic(auto, using(crate::proofs::Shapes::places_same, crate::proofs::Shapes::shape_through), unfolding(crate::specs::Endpoint::ticked))]
    pub(crate) fn tick(&mut self, now: u64, acts: &mut Acts<Load>) -> Result<(), AllocError>
        requires early { now < 2 ^ 62 }
        requires can { CanTick self.old }
        ensures state { OnOk result (self.new ≡ (ticked self.old now).state) }
        ensures actions { OnOk result (acts.new ≡ acts.old ++ (ticked self.old now).actions) }
    {
        let was_done = self.is_done();
        self.inject(now)?;
        self.send_out(now, acts)?;
        self.receive_all(now, acts)?;
        self.end(was_done, now, acts)
    }

    /// Whether a clock is on: the only one is, from the start event on, while something is to be sent or a queue has a packet.
    pub(crate) fn clock_on(&self, clock: u16) -> bool
        ensures { result ≡ is_on self.now clock }
    {
        self.begun && clock == 0 && self.is_busy()
    }

    fn hear(&mut self, load: NetLoad, acts: &mut Acts<Load>) -> Result<(), AllocError>
        requires { HearsWell self.old (net.Net load) }
        ensures state { OnOk result (self.new ≡ (heard self.old (net.Net load)).state) }
        ensures actions { OnOk result (acts.new ≡ acts.old ++ (heard self.old (net.Net load)).actions) }
    {
        let was_on = self.clock_on(0);
        let is_packet = matches!(load, NetLoad::Packet { .. });
        self.link.arrive(load)?;
        if is_packet && !was_on {
            acts.push(Action::ClockOn { clock: 0 })?;
        }
        Ok(())
    }

    /// Handles a cause. The order of a tick's steps is Merlin's: a packet is made, the line takes one, and of each network one is
    /// received.
    pub(crate) fn handle(
        &mut self,
        now: u64,
        cause: &Cause<Load>,
        acts: &mut Acts<Load>,
    ) -> Result<(), AllocError>
        requires early { now < 2 ^ 62 }
        requires meets { endpoint_meets self.old cause.now }
        ensures state { OnOk result (self.new ≡ (endpoint_handled self.old now cause.now).state) }
        ensures actions { OnOk result (acts.new ≡ acts.old ++ (endpoint_handled self.old now cause.now).actions) }
    {
        match cause {
            Cause::Start => {
                self.begun = true;
                if self.total > 0 {
                    acts.push(Action::ClockOn { clock: 0 })?;
                }
                Ok(())
            }
            Cause::Link { load, .. } => match load {
                Load::Core { .. } => Ok(()),
                Load::Net(load) => self.hear(*load, acts),
            },
            Cause::Own { .. } => Ok(()),
            Cause::Tick { .. } => self.tick(now, acts),
        }
    }
}
