//! The router.

ghost use Rattle.std.specs.Prelude.{◌≡◌, ◌<◌, ◌≤◌, ◌*◌, ◌+◌, ◌^◌, ◌++◌, length, map, true, OnOk, IfOk, IfSome};
ghost use Rattle.std.specs.Option.{ForSome};
ghost use Rattle.mr_flow.specs.Side.{HasRoom};
ghost use Rattle.mr_arb.specs.Arbitrating.{EachFits, picks};
ghost use Rattle.mr_router.specs.Router.{Switch, port_at, width, port_pumped, all_asks, all_crossed, heard, ticked, router_handled};
ghost use Rattle.mr_router.specs.Network.{routes};
ghost use Rattle.mr_router.specs.Fresh.{fresh_port, fresh_ports, fresh_router};
ghost use Rattle.mr_router.specs.Holding.{AllBound, AllWithin, IsPlaced, IsReady, HearsWell, switch};
ghost use Rattle.mr_router.specs.Ways.{AreWays};

use crate::crossbar::{ask_all, cross_all};
use crate::outputs::Outputs;
use crate::port::Port;
use crate::pumping::{is_idle, pump_all};
use crate::settings::RouterSettings;
use crate::waiting::next_free;
use crate::ways::{Way, no_ways};
use mr_arb::Request;
use mr_flow::{Load, NetLoad};
use mr_port::PortControl;
use ss_element::{Action, Acts, Cause};
use ss_stats::StatSet;
use std::alloc::{AllocError, Global};
use std::marker::Model;

/// A high-radix router after Merlin's. Packets come in at its ports, cross to the ports that its topology's routes give, one at a
/// time per input and per output, and go on as credits allow.
#[derive(Drop)]
pub struct Router {
    pub(crate) set: RouterSettings,
    pub(crate) ports: Vec<Port>,
    pub(crate) outputs: Outputs,
    // The statistics that its graph asked for, and the place of `sent` among them, if it is there.
    pub(crate) stats: StatSet,
    sent: Option<usize>,
    // What asks for outputs in a tick.
    requests: Vec<Request>,
    // By slot, the way of the packet that was last looked up there.
    ways: Vec<Option<Way>>,
    // From when on and before when a tick changes nothing.
    quiet_from: u64,
    pub(crate) quiet_until: u64,
}

impl Model for Router {
    ghost use Rattle.std.specs.Prelude.{length};
    ghost use Rattle.mr_router.specs.Router.{Switch};
    ghost use Rattle.mr_router.specs.Holding.{IsOfTopology, switch};
    ghost use Rattle.mr_router.specs.Ways.{AreWays};
    ghost use Rattle.mr_router.specs.Quiet.{IsQuiet};

    ghost Value = { Switch };

    ghost view = { λ r. record { set = r.set; ports = r.ports.items; slots = r.outputs.slots; turns = r.outputs.turns; stats = r.stats; sent = r.sent } };

    ghost invariant = { λ r. IsOfTopology r.set (length r.ports.items) × AreWays r.set r.ways.items × IsQuiet (switch r.set r.ports.items r.outputs r.stats r.sent) r.quiet_from r.quiet_until };
}

// Lets each output take a packet at most from the crossbar. Where nothing asks, no arbiter is asked, and nothing crosses.
fn switch_all(
    set: &RouterSettings,
    ports: &mut [Port],
    outputs: &mut Outputs,
    requests: &mut Vec<Request>,
    ways: &mut [Option<Way>],
    now: u64,
    acts: &mut Acts<Load>,
) -> Result<(), AllocError>
    requires early { now < 2 ^ 62 }
    requires placed { IsPlaced set.now (length ports.old) }
    requires bound { AllBound set.now ports.old }
    requires within { AllWithin set.now ports.old }
    requires slots { outputs.old.slots ≡ length ports.old * width set.now }
    requires turns { EachFits outputs.old.slots outputs.old.turns }
    requires ways { AreWays set.now ways.old }
    ensures asked { OnOk result (requests.new.items ≡ all_asks set.now ports.old now) }
    ensures ports { let picked = picks outputs.old.slots 0 outputs.old.turns (all_asks set.now ports.old now) in OnOk result (ports.new ≡ (all_crossed set.now now ports.old picked.1).0) }
    ensures slots { OnOk result (outputs.new.slots ≡ outputs.old.slots) }
    ensures turns { let picked = picks outputs.old.slots 0 outputs.old.turns (all_asks set.now ports.old now) in OnOk result (outputs.new.turns ≡ picked.0) }
    ensures actions { let picked = picks outputs.old.slots 0 outputs.old.turns (all_asks set.now ports.old now) in OnOk result (acts.new ≡ acts.old ++ (all_crossed set.now now ports.old picked.1).1) }
    ensures ways { AreWays set.now ways.new }
{
    requests.clear();
    ask_all(set, ports, now, ways, requests)?;
    if requests.is_empty() {
        return Ok(());
    }
    outputs.pick(requests);
    cross_all(set, ports, outputs.grants(), now, ways, acts)
}

// Pumps each port, lets the crossbar move packets, and turns the clock off where all queues are empty.
fn tick_all(
    set: &RouterSettings,
    ports: &mut [Port],
    outputs: &mut Outputs,
    requests: &mut Vec<Request>,
    ways: &mut [Option<Way>],
    stats: &mut StatSet,
    place: Option<usize>,
    now: u64,
    acts: &mut Acts<Load>,
) -> Result<(), AllocError>
    requires early { now < 2 ^ 62 }
    requires placed { IsPlaced set.now (length ports.old) }
    requires bound { AllBound set.now ports.old }
    requires within { AllWithin set.now ports.old }
    requires place { IfSome place (λ i. i < length stats.old) }
    requires slots { outputs.old.slots ≡ length ports.old * width set.now }
    requires turns { EachFits outputs.old.slots outputs.old.turns }
    requires ways { AreWays set.now ways.old }
    ensures asked { OnOk result (requests.new.items ≡ all_asks set.now (map (port_pumped now) ports.old) now) }
    ensures ports { OnOk result (ports.new ≡ (ticked (switch set.now ports.old outputs.old stats.old place) now).state.ports) }
    ensures slots { OnOk result (outputs.new.slots ≡ outputs.old.slots) }
    ensures turns { OnOk result (outputs.new.turns ≡ (ticked (switch set.now ports.old outputs.old stats.old place) now).state.turns) }
    ensures stats { OnOk result (stats.new ≡ (ticked (switch set.now ports.old outputs.old stats.old place) now).state.stats) }
    ensures actions { OnOk result (acts.new ≡ acts.old ++ (ticked (switch set.now ports.old outputs.old stats.old place) now).actions) }
    ensures ways { AreWays set.now ways.new }
{
    pump_all(ports, stats, place, now, acts)?;
    switch_all(set, ports, outputs, requests, ways, now, acts)?;
    if is_idle(ports) {
        acts.push(Action::ClockOff { clock: 0 })?;
    }
    Ok(())
}

// The ports of a router on which nothing happened yet.
fn fresh_ports(
    alloc: Global,
    set: &RouterSettings,
    rooms: &[Option<u32>],
) -> Result<Vec<Port>, AllocError>
    requires id { set.now.id < (routes set.now.topology).routers }
    requires ports { length rooms.now ≡ (routes set.now.topology).ports set.now.id }
    requires few { length rooms.now ≤ 256 }
    requires input { set.now.input_flits * set.now.flit_time ≤ 2 ^ 40 }
    requires output { set.now.output_flits * set.now.flit_time ≤ 2 ^ 40 }
    ensures { IfOk result (λ v. v.items ≡ fresh_ports set.now 0 rooms.now) }
{
    let mut ports = Vec::with_capacity(alloc, rooms.len())?;
    for index in 0..rooms.len() {
        ports.push(fresh_port(alloc, set, index as u16, rooms[index])?)?;
    }
    Ok(ports)
}

// A port of a router on which nothing happened yet.
fn fresh_port(
    alloc: Global,
    set: &RouterSettings,
    port: u16,
    room: Option<u32>,
) -> Result<Port, AllocError>
    requires id { set.now.id < (routes set.now.topology).routers }
    requires port { port < (routes set.now.topology).ports set.now.id }
    requires input { set.now.input_flits * set.now.flit_time ≤ 2 ^ 40 }
    requires output { set.now.output_flits * set.now.flit_time ≤ 2 ^ 40 }
    ensures { IfOk result (λ p. p ≡ fresh_port set.now port room) }
{
    let most = room.unwrap_or(0);
    let line = PortControl::new(
        alloc,
        set.channels(port),
        set.input_flits,
        set.output_flits,
        most,
        set.flit_time,
    )?;
    Ok(Port {
        line,
        in_free: 0,
        cross_free: 0,
        most,
    })
}

impl Router {
    /// A router on which nothing happened yet. `rooms` has per port what the input queues at the other end can hold, in flits, and
    /// `None` where the port leads nowhere. It fails only where no memory is left.
    pub fn new(
        alloc: Global,
        set: RouterSettings,
        rooms: &[Option<u32>],
        stats: StatSet,
    ) -> Result<Router, AllocError>
        requires placed { IsPlaced set (length rooms.now) }
        requires some { 1 ≤ length rooms.now }
        requires ports { length rooms.now ≡ (routes set.topology).ports set.id }
        requires input { set.input_flits * set.flit_time ≤ 2 ^ 40 }
        requires output { set.output_flits * set.flit_time ≤ 2 ^ 40 }
        ensures { IfOk result (λ r. r ≡ fresh_router set rooms.now stats) }
    {
        let slots = rooms.len() as u32 * set.width();
        let outputs = Outputs::new(alloc, set.arb, slots, rooms.len() as u16)?;
        let ports = fresh_ports(alloc, &set, rooms)?;
        let sent = stats.find(b"sent");
        let requests = Vec::with_capacity(alloc, slots as usize)?;
        let ways = no_ways(alloc, slots)?;
        Ok(Router {
            set,
            ports,
            outputs,
            stats,
            sent,
            requests,
            ways,
            quiet_from: 0,
            quiet_until: 0,
        })
    }

    // Takes in what comes to a port, after which a tick may change something.
    #[tactic(auto, using(crate::proofs::Resting::never_quiet))]
    fn hear(&mut self, port: u16, load: NetLoad, acts: &mut Acts<Load>) -> Result<(), AllocError>
        requires here { port < length self.old.ports }
        requires room { HasRoom (port_at self.old.ports port).line load }
        ensures state { OnOk result (self.new ≡ (heard self.old port load).state) }
        ensures actions { OnOk result (acts.new ≡ acts.old ++ (heard self.old port load).actions) }
    {
        let wakes = match load {
            NetLoad::Packet { .. } => is_idle(&self.ports),
            NetLoad::Credit { .. } => false,
        };
        if wakes {
            acts.push(Action::ClockOn { clock: 0 })?;
        }
        self.quiet_until = 0;
        self.ports[usize::from(port)].line.arrive(load)?;
        Ok(())
    }

    // A tick: pump, crossbar, and the clock off where all queues are empty. One that is known to change nothing is passed by: where a
    // tick did nothing, none does anything until something of a port gets free.
    #[tactic(auto, using(crate::proofs::Resting::never_quiet))]
    fn tick(&mut self, now: u64, acts: &mut Acts<Load>) -> Result<(), AllocError>
        requires early { now < 2 ^ 62 }
        requires ready { IsReady self.old }
        ensures state { OnOk result (self.new ≡ (ticked self.old now).state) }
        ensures actions { OnOk result (acts.new ≡ acts.old ++ (ticked self.old now).actions) }
    {
        if self.quiet_from <= now && now < self.quiet_until {
            return Ok(());
        }
        self.quiet_until = 0;
        let before = acts.len();
        tick_all(
            &self.set,
            &mut self.ports,
            &mut self.outputs,
            &mut self.requests,
            &mut self.ways,
            &mut self.stats,
            self.sent,
            now,
            acts,
        )?;
        if acts.len() == before && self.requests.is_empty() {
            self.quiet_from = now;
            self.quiet_until = next_free(&self.ports, now);
        }
        Ok(())
    }

    /// Handles a cause.
    pub(crate) fn react(
        &mut self,
        now: u64,
        cause: &Cause<Load>,
        acts: &mut Acts<Load>,
    ) -> Result<(), AllocError>
        requires early { now < 2 ^ 62 }
        requires ready { IsReady self.old }
        requires room { HearsWell self.old cause.now }
        ensures state { OnOk result (self.new ≡ (router_handled self.old now cause.now).state) }
        ensures actions { OnOk result (acts.new ≡ acts.old ++ (router_handled self.old now cause.now).actions) }
    {
        match cause {
            Cause::Link { port, load } => {
                let Load::Net(load) = load else {
                    return Ok(());
                };
                self.hear(*port, *load, acts)
            }
            Cause::Tick { .. } => self.tick(now, acts),
            Cause::Start | Cause::Own { .. } => Ok(()),
        }
    }
}
