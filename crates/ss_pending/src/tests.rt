//! What no clause says.

use super::*;
use std::alloc::AllocError;

fn at(time: u64, class: u8, line: u32, load: Option<u64>) -> Event<u64> {
    Event {
        key: Key { time, class, line },
        load,
    }
}

// Events of one key come in the order in which they were put in.
#[test]
fn events_in_order(rt: HostRuntime) -> Result<(), AllocError> {
    let mut pending: Pending<u64> = Pending::new(rt.alloc());
    assert!(rt; pending.is_empty());
    for (time, line, load) in [(7, 1, 10), (5, 3, 11), (7, 1, 12), (7, 0, 13), (7, 1, 14)] {
        pending.insert(at(time, 2, line, Some(load)))?;
    }
    pending.insert(at(5, 1, 9, None))?;
    assert_eq!(rt; pending.list()?.len(), 6);
    for load in [None, Some(11), Some(13), Some(10), Some(12)] {
        let taken = pending.take_before(8).and_then(|e| e.load);
        assert_eq!(rt; taken, load);
    }
    assert_eq!(rt; pending.next_time(), Some(7));
    assert!(rt; pending.take_before(7).is_none());
    assert_eq!(rt; pending.take_before(8).and_then(|e| e.load), Some(14));
    assert!(rt; pending.is_empty());
    Ok(())
}
