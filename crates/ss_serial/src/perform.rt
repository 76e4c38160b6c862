//! What follows one event, over the parts of a simulation.

ghost use Rattle.std.specs.Prelude.{◌≡◌, ◌<◌, ◌≤◌, ◌^◌, [], ◌∷◌, ◌++◌, OnOk, OnErr, IfSome, List, ℕ, Some, drop, length, slice_get, option_to_list, map};
ghost use Rattle.ss_model.specs.Order.{insert_all};
ghost use Rattle.ss_model.specs.Wiring.{WiringFits, told};
ghost use Rattle.ss_model.specs.Step.{made, made_all, again, printed, step_told, lines_told};
ghost use Rattle.ss_element.specs.Kind.{ActionFits, ActionsFit};
ghost use Rattle.ss_serial.specs.Serial.{state_of, MayReact, TicksOn, tick};

use ss_element::{Acts, Element, Wires};
use ss_model::{ARRIVAL, Action, Cause, Event, Key, Line, START, TICK};
use ss_pending::Pending;
use std::alloc::AllocError;

// Puts in what one action makes.
#[inline(always)]
fn put_made<E: Element>(
    wires: &Wires,
    component: u32,
    now: u64,
    action: &Action<E::Load>,
    pending: &mut Pending<E::Load>,
) -> Result<(), AllocError>
    requires early { now < 2 ^ 62 }
    requires wires { WiringFits wires.now }
    requires action { ActionFits action.now }
    ensures { OnOk result (pending.new ≡ insert_all (made wires.now component now action.now) pending.old) }
{
    let (time, class, line, load) = match action {
        Action::Send { port, extra, load } => match wires.line_from(component, *port) {
            Some((line, latency)) => (now + *extra + latency, ARRIVAL, line, Some(load)),
            None => return Ok(()),
        },
        Action::SelfSend {
            line: index,
            delay,
            load,
        } => match wires.own_from(component, *index) {
            Some(line) => (now + *delay, ARRIVAL, line, Some(load)),
            None => return Ok(()),
        },
        Action::ClockOn { clock } => match wires.clock_of(component, *clock) {
            Some((line, period)) => (now + (period - now % period), TICK, line, None),
            None => return Ok(()),
        },
        Action::ClockOff { .. } | Action::Print { .. } => return Ok(()),
    };
    let key = Key { time, class, line };
    pending.insert_copied(key, load)
}

// Moves the text of the first action into a line, where that action prints one, and leaves the others.
#[inline(never)]
fn print_text<L: Drop>(
    key: Key,
    acts: &mut Acts<L>,
    lines: &mut Vec<Line>,
) -> Result<(), AllocError>
    ensures rest { acts.new ≡ drop 1 acts.old }
    ensures lines { OnOk result (lines.new.items ++ printed key acts.new ≡ lines.old.items ++ printed key acts.old) }
{
    if let Some(Action::Print { text }) = acts.take() {
        lines.push(Line { key, text })?;
    }
    Ok(())
}

// Does what the actions ask for, in order. A load is copied from its action into its event, and the action is passed
// by; a text moves into its line.
fn carry_out_all<E: Element>(
    wires: &Wires,
    component: u32,
    key: Key,
    acts: &mut Acts<E::Load>,
    pending: &mut Pending<E::Load>,
    lines: &mut Vec<Line>,
) -> Result<(), AllocError>
    requires early { key.time < 2 ^ 62 }
    requires wires { WiringFits wires.now }
    requires actions { ActionsFit acts.old }
    ensures pending { OnOk result (pending.new ≡ insert_all (made_all wires.now component key.time acts.old) pending.old) }
    ensures lines { OnOk result (lines.new.items ≡ lines.old.items ++ printed key acts.old) }
{
    while let Some(action) = acts.get(0) {
        if let Action::Print { .. } = action {
            print_text(key, acts, lines)?;
        } else {
            put_made::<E>(wires, component, key.time, action, pending)?;
            acts.skip();
        }
    }
    Ok(())
}

// When the clock that ticked ticks next, unless one of the actions turns it off. The key is that of the event.
fn next_tick<L: Copy>(
    wires: &Wires,
    component: u32,
    key: Key,
    cause: &Cause<L>,
    acts: &Acts<L>,
) -> Option<Key>
    requires early { key.time < 2 ^ 62 }
    requires wires { WiringFits wires.now }
    requires on { TicksOn wires.now component key.line cause.now }
    ensures { map tick (option_to_list result) ≡ again wires.now component key.time cause.now acts.now }
{
    match cause {
        Cause::Tick { clock } => {
            if acts.turns_off(*clock) {
                return None;
            }
            match wires.ticks_again(key.line) {
                Some((line, period)) => Some(Key {
                    time: key.time + period,
                    class: TICK,
                    line,
                }),
                None => None,
            }
        }
        _ => None,
    }
}

// An element is told of an event, and what it asks for is done. The buffer of actions is used again.
fn react<E: Element>(
    wires: &Wires,
    component: u32,
    element: &mut E,
    key: Key,
    cause: &Cause<E::Load>,
    pending: &mut Pending<E::Load>,
    lines: &mut Vec<Line>,
    acts: &mut Acts<E::Load>,
) -> Result<(), AllocError>
    requires early { key.time < 2 ^ 62 }
    requires wires { WiringFits wires.now }
    requires on { TicksOn wires.now component key.line cause.now }
    requires meets { E.kind.Meets element.old key.time cause.now }
    requires fit { ActionsFit (E.kind.handled element.old key.time cause.now).actions }
    ensures element { OnOk result (element.new ≡ (E.kind.handled element.old key.time cause.now).state) }
    ensures pending { OnOk result (let acts = (E.kind.handled element.old key.time cause.now).actions in pending.new ≡ insert_all (again wires.now component key.time cause.now acts) (insert_all (made_all wires.now component key.time acts) pending.old)) }
    ensures lines { OnOk result (lines.new.items ≡ lines.old.items ++ printed key (E.kind.handled element.old key.time cause.now).actions) }
{
    acts.clear();
    element.handle(key.time, cause, acts)?;
    let next = next_tick(wires, component, key, cause, acts);
    carry_out_all::<E>(wires, component, key, acts, pending, lines)?;
    match next {
        Some(key) => pending.insert(Event { key, load: None }),
        None => Ok(()),
    }
}

// Who is told of an event, and what: as the wires tell it, but the load moves from the event into the cause.
#[inline(always)]
fn told<L: Copy>(wires: &Wires, event: Event<L>) -> Option<(u32, Cause<L>)>
    ensures { result ≡ told wires.now event }
{
    let Event { key, load } = event;
    let (component, index) = wires.target(key)?;
    let cause = match key.class {
        START => Cause::Start,
        TICK => Cause::Tick { clock: index },
        _ => {
            let load = load?;
            if key.line < wires.counts().0 {
                Cause::Link { port: index, load }
            } else {
                Cause::Own { line: index, load }
            }
        }
    };
    Some((component, cause))
}

/// What follows an event that was taken.
pub fn perform<E: Element>(
    wires: &Wires,
    elements: &mut Vec<E>,
    event: Event<E::Load>,
    pending: &mut Pending<E::Load>,
    lines: &mut Vec<Line>,
    acts: &mut Acts<E::Load>,
) -> Result<(), AllocError>
    requires early { event.key.time < 2 ^ 62 }
    requires wires { WiringFits wires.now }
    requires may { MayReact E.kind wires.now elements.old.items event }
    ensures state { OnOk result (state_of elements.new.items pending.new event.key.time ≡ step_told E.kind.handled wires.now elements.old.items pending.old event.key.time (told wires.now event)) }
    ensures lines { OnOk result (lines.new.items ≡ lines.old.items ++ lines_told E.kind.handled elements.old.items event.key (told wires.now event)) }
{
    let key = event.key;
    let Some((component, cause)) = told(wires, event) else {
        return Ok(());
    };
    let place = component as usize;
    if place >= elements.len() {
        return Ok(());
    }
    let element = &mut elements[place];
    react(wires, component, element, key, &cause, pending, lines, acts)?;
    Ok(())
}
