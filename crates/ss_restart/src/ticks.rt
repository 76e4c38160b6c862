//! The times of events, and the ticks of clocks among them.

ghost use Rattle.std.specs.Prelude.{◌≡◌, ◌<◌, ◌≤◌, ◌^◌, ◌↔◌, ℕ, length, IsTrue, MatchOption};
ghost use Rattle.ss_model.specs.Order.{IsSorted};
ghost use Rattle.ss_ckpt.specs.Views.{state_of};
ghost use Rattle.ss_safe.specs.Sound.{multiple_from, TimeSound, TickSound};
ghost use Rattle.ss_restart.specs.Ready.{IsReady, MustTick, NoTick, Repeats, HasKey};

use ss_ckpt::Saved;
use ss_element::{Element, Event, Key, TICK};

/// How far ahead of the checkpoint's time events may be, in picoseconds: two delays.
const AHEAD: u64 = 1 << 41;

/// The least multiple of a period that isn't below a time above 0, in picoseconds.
fn multiple_from(at: u64, period: u64) -> u64
    requires some { 1 ≤ at }
    requires early { at ≤ 2 ^ 62 }
    requires positive { 1 ≤ period }
    requires short { period ≤ 2 ^ 40 }
    ensures { result ≡ multiple_from at period }
{
    let before = at - 1;
    before + (period - before % period)
}

/// When the next tick of the clock with this number has to come, if there is such a clock and it is on.
fn tick_time<E: Element>(saved: &Saved<E>, line: u32) -> Option<u64>
    requires { IsReady E.kind saved.now.model.wires saved.now.time (state_of saved.now) }
    ensures { MatchOption result (NoTick E.kind saved.now.model.wires saved.now.time (state_of saved.now) line) (MustTick E.kind saved.now.model.wires saved.now.time (state_of saved.now) line) }
{
    let wires = &saved.model.wires;
    let key = Key {
        time: 0,
        class: TICK,
        line,
    };
    let Some((component, clock)) = wires.target(key) else {
        return None;
    };
    let Some(element) = saved.model.elements.get(component as usize) else {
        return None;
    };
    if !element.clock_on(clock) {
        return None;
    }
    let Some((_, period)) = wires.clock_of(component, clock) else {
        return None;
    };
    Some(multiple_from(saved.time, period))
}

/// Whether the event at a place has the key of the one in front of it.
fn is_repeated<L>(events: &[Event<L>], index: usize) -> bool
    requires { index < length events.now }
    ensures { IsTrue result ↔ Repeats events.now index }
{
    index > 0 && events[index - 1].key == events[index].key
}

/// Whether a tick at a place is the next of a clock that is on, and the first of that clock.
fn is_due<E: Element>(saved: &Saved<E>, index: usize, key: Key) -> bool
    requires ready { IsReady E.kind saved.now.model.wires saved.now.time (state_of saved.now) }
    requires within { index < length saved.now.events.items }
    ensures { IsTrue result ↔ ((Repeats saved.now.events.items index → ⊥) × MustTick E.kind saved.now.model.wires saved.now.time (state_of saved.now) key.line key.time) }
{
    match tick_time(saved, key.line) {
        Some(time) => time == key.time && !is_repeated(&saved.events, index),
        None => false,
    }
}

/// Whether the event at a place stands in its time, where those before it do.
pub fn is_timed<E: Element>(saved: &Saved<E>, index: usize) -> bool
    requires ready { IsReady E.kind saved.now.model.wires saved.now.time (state_of saved.now) }
    requires within { index < length saved.now.events.items }
    requires before { (i : ℕ) → i < index → TimeSound E.kind saved.now.model.wires saved.now.time (state_of saved.now) i }
    ensures { IsTrue result ↔ TimeSound E.kind saved.now.model.wires saved.now.time (state_of saved.now) index }
{
    let key = saved.events[index].key;
    if key.time < saved.time || key.time >= saved.time + AHEAD {
        return false;
    }
    key.class != TICK || is_due(saved, index, key)
}

/// Whether an event with this key is among events in order.
fn is_among<L>(events: &[Event<L>], key: Key) -> bool
    requires { IsSorted events.now }
    ensures { IsTrue result ↔ HasKey events.now key }
{
    let mut low = 0;
    let mut high = events.len();
    while low < high {
        let middle = low + (high - low) / 2;
        if events[middle].key.is_before(&key) {
            low = middle + 1;
        } else {
            high = middle;
        }
    }
    low < events.len() && events[low].key == key
}

/// Whether the clock with this number has a tick, if it is on, where all events stand in their times.
pub fn has_tick<E: Element>(saved: &Saved<E>, line: u32) -> bool
    requires ready { IsReady E.kind saved.now.model.wires saved.now.time (state_of saved.now) }
    requires times { (i : ℕ) → TimeSound E.kind saved.now.model.wires saved.now.time (state_of saved.now) i }
    ensures { IsTrue result ↔ TickSound E.kind saved.now.model.wires saved.now.time (state_of saved.now) line }
{
    let Some(time) = tick_time(saved, line) else {
        return true;
    };
    let key = Key {
        time,
        class: TICK,
        line,
    };
    is_among(&saved.events, key)
}
