//! What no clause says.

ghost use Rattle.std.specs.Prelude.{◌≡◌, length, IfOk};

use crate::{
    ARRIVAL, Action, Acts, Cause, Event, Key, Model, RestoreFault, START, TICK, Wires,
    restore_stats, save_stats,
};
use ss_stats::{Accumulator, Histogram, Stat, StatSet};
use ss_wire::{Reader, Writer};
use std::alloc::{AllocError, Global};

fn crosses<T: Send + Sync + Drop>(_value: T) {}

fn wired(alloc: Global) -> Result<Wires, AllocError>
    ensures { IfOk result (λ w. (length w.links ≡ 2) × (length w.inner ≡ 2)) }
{
    let mut wires = Wires::new(alloc);
    wires.line(0, 0, 1, 3, 10)?;
    wires.line(0, 0, 1, 4, 20)?;
    wires.own_line(1, 2)?;
    wires.clock(0, 5, 1000)?;
    Ok(wires)
}

#[test]
fn a_simulation_crosses_threads(rt: HostRuntime) -> Result<(), AllocError> {
    let wires = Wires::new(rt.alloc());
    let mut elements = Vec::new(rt.alloc());
    elements.push(7_u64)?;
    let model = Model { elements, wires };
    assert_eq!(rt; model.elements.len(), 1);
    crosses(model);
    Ok(())
}

#[test]
fn wires_are_looked_up(rt: HostRuntime) -> Result<(), AllocError> {
    let wires = wired(rt.alloc())?;
    assert_eq!(rt; wires.line_from(0, 0), Some((0, 10)));
    assert_eq!(rt; wires.line_from(1, 0), None);
    assert_eq!(rt; wires.own_from(1, 2), Some(2));
    assert_eq!(rt; wires.clock_of(0, 5), Some((3, 1000)));
    assert_eq!(rt; wires.counts(), (2, 1, 1));
    Ok(())
}

#[test]
fn the_first_clock_ticks_on(rt: HostRuntime) -> Result<(), AllocError> {
    let mut wires = wired(rt.alloc())?;
    wires.clock(0, 5, 3000)?;
    assert_eq!(rt; wires.ticks_again(3), Some((3, 1000)));
    assert_eq!(rt; wires.ticks_again(4), Some((3, 1000)));
    assert_eq!(rt; wires.ticks_again(2), None);
    assert_eq!(rt; wires.ticks_again(1), None);
    assert_eq!(rt; wires.ticks_again(5), None);
    Ok(())
}

fn event(class: u8, line: u32, load: Option<u64>) -> Event<u64> {
    let key = Key {
        time: 5,
        class,
        line,
    };
    Event { key, load }
}

#[test]
fn events_are_told(rt: HostRuntime) -> Result<(), AllocError> {
    let wires = wired(rt.alloc())?;
    let told = wires.told(&event(ARRIVAL, 1, Some(9)));
    assert!(rt; matches!(told, Some((1, Cause::Link { port: 4, load: 9 }))));
    let told = wires.told(&event(ARRIVAL, 2, Some(9)));
    assert!(rt; matches!(told, Some((1, Cause::Own { line: 2, load: 9 }))));
    let told = wires.told(&event(TICK, 3, None));
    assert!(rt; matches!(told, Some((0, Cause::Tick { clock: 5 }))));
    let told = wires.told(&event(START, 1, None));
    assert!(rt; matches!(told, Some((1, Cause::Start))));
    assert!(rt; wires.told(&event(TICK, 2, None)).is_none());
    assert!(rt; wires.told(&event(ARRIVAL, 3, Some(9))).is_none());
    Ok(())
}

#[test]
fn actions_are_taken_in_order(rt: HostRuntime) -> Result<(), AllocError> {
    let mut acts = Acts::new(rt.alloc());
    acts.push(Action::Send {
        port: 1,
        extra: 2,
        load: 3_u64,
    })?;
    acts.push(Action::ClockOff { clock: 4 })?;
    assert!(rt; acts.turns_off(4));
    assert!(rt; !acts.turns_off(5));
    assert_eq!(rt; acts.len(), 2);
    assert!(rt; matches!(acts.get(1), Some(Action::ClockOff { clock: 4 })));
    assert!(rt; matches!(acts.take(), Some(Action::Send { load: 3, .. })));
    acts.clear();
    assert!(rt; acts.is_empty());
    Ok(())
}

#[test]
fn actions_are_passed_by(rt: HostRuntime) -> Result<(), AllocError> {
    let mut acts: Acts<u64> = Acts::new(rt.alloc());
    acts.push(Action::ClockOn { clock: 1 })?;
    acts.push(Action::ClockOff { clock: 2 })?;
    acts.skip();
    assert_eq!(rt; acts.len(), 1);
    assert!(rt; matches!(acts.get(0), Some(Action::ClockOff { clock: 2 })));
    acts.skip();
    acts.skip();
    assert!(rt; acts.is_empty());
    assert!(rt; acts.take().is_none());
    Ok(())
}

#[test]
fn actions_are_written_over(rt: HostRuntime) -> Result<(), AllocError> {
    let mut acts: Acts<u64> = Acts::new(rt.alloc());
    for clock in 0..3 {
        acts.push(Action::ClockOn { clock })?;
    }
    acts.skip();
    acts.clear();
    assert!(rt; acts.take().is_none());
    acts.push(Action::ClockOff { clock: 5 })?;
    assert_eq!(rt; acts.len(), 1);
    assert!(rt; acts.turns_off(5));
    assert!(rt; matches!(acts.take(), Some(Action::ClockOff { clock: 5 })));
    assert!(rt; acts.is_empty());
    for clock in 6..10 {
        acts.push(Action::ClockOff { clock })?;
    }
    assert_eq!(rt; acts.len(), 4);
    assert!(rt; matches!(acts.get(0), Some(Action::ClockOff { clock: 6 })));
    assert!(rt; matches!(acts.get(3), Some(Action::ClockOff { clock: 9 })));
    Ok(())
}

/// No values of a round trip, and none in bins of 5 from 10 on.
fn no_values(alloc: Global) -> Result<StatSet, AllocError>
    ensures { IfOk result (λ s. length s ≡ 2) }
{
    let mut set = StatSet::new(alloc);
    set.push(b"trip", Stat::Accumulator(Accumulator::new()))?;
    set.push(b"size", Stat::Histogram(Histogram::new(alloc, 10, 5, 2)?))?;
    Ok(set)
}

/// The same with some values.
fn some_values(alloc: Global) -> Result<StatSet, AllocError> {
    let mut set = no_values(alloc)?;
    set.add(0, 2000);
    set.add(0, 2000);
    set.add(1, 9);
    set.add(1, 10);
    set.add(1, 20);
    Ok(set)
}

fn saved(alloc: Global, set: &StatSet) -> Result<Vec<u8>, AllocError> {
    let mut out = Writer::new(alloc);
    save_stats(set, &mut out)?;
    Ok(out.finish())
}

#[test]
fn statistics_are_saved_and_restored(rt: HostRuntime) -> Result<(), AllocError> {
    let set = some_values(rt.alloc())?;
    let bytes = saved(rt.alloc(), &set)?;
    assert_eq!(rt; bytes.len(), 96);
    // 2 values, of the sum 4000
    assert_eq!(rt; &bytes[..8], b"\0\0\0\0\0\0\0\x02".as_slice());
    assert_eq!(rt; &bytes[22..24], b"\x0f\xa0".as_slice());
    // 3 values, 1 in the first bin, none in the second
    assert_eq!(rt; &bytes[56..64], b"\0\0\0\0\0\0\0\x03".as_slice());
    assert_eq!(rt;
        &bytes[80..],
        b"\0\0\0\0\0\0\0\x01\0\0\0\0\0\0\0\0".as_slice()
    );
    let mut other = no_values(rt.alloc())?;
    let mut reader = Reader::new(bytes.as_slice(), 0);
    assert_eq!(rt; restore_stats(&mut other, &mut reader), Ok(()));
    assert_eq!(rt; reader.at(), 96);
    let again = saved(rt.alloc(), &other)?;
    assert_eq!(rt; again.as_slice(), bytes.as_slice());
    Ok(())
}

#[test]
fn saved_statistics_may_be_too_short(rt: HostRuntime) -> Result<(), AllocError> {
    let mut set = no_values(rt.alloc())?;
    let mut reader = Reader::new(b"\0\0\0\0\0\0\0\x01\0\0\0".as_slice(), 0);
    assert_eq!(rt;
        restore_stats(&mut set, &mut reader),
        Err(RestoreFault::Short { at: 8 })
    );
    Ok(())
}
