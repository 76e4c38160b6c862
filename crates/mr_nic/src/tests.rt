//! Rows that are known from elsewhere.

ghost use Rattle.std.specs.Prelude.{◌≡◌, IfOk};
ghost use Rattle.mr_nic.specs.Pattern.{IsFor};

use crate::station::Station;
use crate::{Endpoint, Numbers, Pattern, Source, TestNic, TrafficGen, destination};
use mr_link::NicSettings;
use ss_element::{Acts, Element};
use ss_model::Cause;
use ss_stats::StatSet;
use ss_units::Text;
use std::alloc::{AllocError, Global};

fn crosses<T: Send + Sync + Drop>(_value: T) {}

// Whether packet 0 of each of four endpoints goes to these, for seed 0 and the hot endpoint 1.
fn goes_to(pattern: Pattern, to: [u32; 4]) -> bool
    requires { IsFor pattern 4 }
{
    let mut all = true;
    for id in 0..4 {
        all = all && destination(pattern, id, 4, 0, 0, 1) == to[id as usize];
    }
    all
}

#[test]
#[tactic(auto, unfolding(crate::specs::Pattern::root))]
fn destinations_of_four(rt: HostRuntime) {
    assert!(rt; goes_to(Pattern::Complement, [3, 2, 1, 0]));
    assert!(rt; goes_to(Pattern::Transpose, [0, 2, 1, 3]));
    assert!(rt; goes_to(Pattern::Tornado, [1, 2, 3, 0]));
    assert!(rt; goes_to(Pattern::Hotspot, [1, 1, 1, 1]));
    assert!(rt; goes_to(Pattern::Uniform, [2, 2, 1, 1]));
}

// The first of two endpoints, on one virtual network.
fn settings(alloc: Global) -> Result<NicSettings, AllocError>
    ensures peers { IfOk result (λ s. s.peers ≡ 2) }
    ensures id { IfOk result (λ s. s.id ≡ 0) }
    ensures vns { IfOk result (λ s. s.vns ≡ 1) }
    ensures time { IfOk result (λ s. s.flit_time ≡ 1000) }
    ensures input { IfOk result (λ s. s.input_flits ≡ 8) }
    ensures output { IfOk result (λ s. s.output_flits ≡ 8) }
{
    let name = Text::new(alloc, "n0")?;
    Ok(NicSettings {
        name,
        id: 0,
        peers: 2,
        vns: 1,
        flit_time: 1000,
        input_flits: 8,
        output_flits: 8,
        credits: 8,
        least: 8,
    })
}

#[test]
fn endpoints_are_made(rt: HostRuntime) -> Result<(), AllocError> {
    let set = settings(rt.alloc())?;
    let nic = TestNic::new(rt.alloc(), set, 3, 4, true, StatSet::new(rt.alloc()))?;
    assert!(rt; nic.is_primary() && !nic.is_done() && !nic.clock_on(0) && nic.fits(1));
    assert_eq!(rt; nic.channels(0), 1);
    crosses(nic);
    let set = settings(rt.alloc())?;
    let stats = StatSet::new(rt.alloc());
    let nic = TrafficGen::new(rt.alloc(), set, Pattern::Hotspot, 10, 8, 0, 0, 0, stats)?;
    assert!(rt; nic.is_done());
    crosses(nic);
    Ok(())
}

// Its packets find no room, and its line is busy.
#[test]
fn a_tick_that_changes_nothing_is_noted(rt: HostRuntime) -> Result<(), AllocError> {
    let set = settings(rt.alloc())?;
    let from = Source::Test { verbose: false };
    let next = Numbers::zeros(rt.alloc(), 0)?;
    let stats = StatSet::new(rt.alloc());
    let mut endpoint = Endpoint::new(rt.alloc(), set, 3, 9, from, next, stats)?;
    endpoint.link.set_line(4000, 0);
    let mut station = Station::new(endpoint);
    let mut acts = Acts::new(rt.alloc());
    station.handle(1000, &Cause::Tick { clock: 0 }, &mut acts)?;
    assert!(rt; !station.is_quiet(999) && station.is_quiet(1000));
    assert!(rt; station.is_quiet(3999) && !station.is_quiet(4000));
    station.handle(2000, &Cause::Start, &mut acts)?;
    assert!(rt; !station.is_quiet(2000));
    Ok(())
}
