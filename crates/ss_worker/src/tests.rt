//! What no clause says.

ghost use Rattle.std.specs.Prelude.{◌≡◌, length, IfOk};

use crate::out::sort_out;
use crate::{Batch, Worker, insert_events};
use ss_element::Wires;
use ss_model::{ARRIVAL, Event, Key};
use ss_pending::Pending;
use ss_run::Simulated;
use std::alloc::{AllocError, Global};

fn crosses<T: Send>() {}

// Batches and workers go between threads where their elements do.
fn batches_and_workers_cross<E: Simulated + Send>()
where
    E::Load: Send,
{
    crosses::<Batch<E>>();
    crosses::<Worker<E>>();
}

// Line 0 goes to component 1, and line 1 to component 2.
fn wired(alloc: Global) -> Result<Wires, AllocError> {
    let mut wires = Wires::new(alloc);
    wires.line(0, 0, 1, 3, 10)?;
    wires.line(1, 0, 2, 4, 20)?;
    Ok(wires)
}

fn arrival(time: u64, line: u32, load: u64) -> Event<u64> {
    let key = Key {
        time,
        class: ARRIVAL,
        line,
    };
    Event {
        key,
        load: Some(load),
    }
}

// Each batch has the events that go to its part, in their order, and what goes to no part is left out.
#[test]
fn events_go_to_their_parts(rt: HostRuntime) -> Result<(), AllocError> {
    let wires = wired(rt.alloc())?;
    let mut events = Vec::new(rt.alloc());
    for (line, load) in [(1, 7), (0, 8), (1, 9)] {
        events.push(arrival(50, line, load))?;
    }
    let batches = sort_out(rt.alloc(), &wires, &[0, 5, 1], 3, events)?;
    let mut loads = Vec::new(rt.alloc());
    for batch in &batches {
        for event in batch {
            loads.push(event.load)?;
        }
        loads.push(None)?;
    }
    assert_eq!(rt;
        loads.as_slice(),
        [None, Some(7), Some(9), None, None].as_slice()
    );
    Ok(())
}

// What is taken in stands behind what has its key.
#[test]
fn events_are_taken_in(rt: HostRuntime) -> Result<(), AllocError> {
    let mut pending = Pending::new(rt.alloc());
    pending.insert(arrival(50, 1, 1))?;
    let mut events = Vec::new(rt.alloc());
    for (time, load) in [(50, 2), (40, 3), (50, 4)] {
        events.push(arrival(time, 1, load))?;
    }
    insert_events(&mut pending, events)?;
    for load in [3, 1, 2, 4] {
        let taken = pending.take_before(51).and_then(|e| e.load);
        assert_eq!(rt; taken, Some(load));
    }
    assert!(rt; pending.next_time().is_none());
    Ok(())
}
