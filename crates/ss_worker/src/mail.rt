//! What a part's elements ask for.

ghost use Rattle.std.specs.Prelude.{◌≡◌, ◌<◌, ◌^◌, [], ◌∷◌, ◌++◌, OnOk, slice_index, option_to_list};
ghost use Rattle.ss_model.specs.Order.{insert_all};
ghost use Rattle.ss_model.specs.Wiring.{WiringFits};
ghost use Rattle.ss_model.specs.Step.{made, made_all, again, printed};
ghost use Rattle.ss_element.specs.Kind.{ActionFits, ActionsFit};
ghost use Rattle.ss_parts.specs.Parts.{part_at, receiver, answer, state_of, with_state};
ghost use Rattle.ss_worker.specs.Reacting.{MayReact};
ghost use Rattle.ss_worker.specs.Sorted.{kept, given};

use crate::elements::Elements;
use ss_element::{Acts, Element, Wires};
use ss_model::{ARRIVAL, Action, Cause, Event, Key, Line, TICK};
use ss_pending::Pending;
use std::alloc::AllocError;

/// The events that are to come in a part, those that go to others, and the lines that it printed.
#[derive(Drop)]
pub struct Mail<L> {
    pub pending: Pending<L>,
    pub out: Vec<Event<L>>,
    pub lines: Vec<Line>,
}

/// The part to which the events of a key go.
pub fn destination(wires: &Wires, owners: &[u32], key: Key) -> u32
    ensures { result ≡ part_at (slice_index owners.now) (receiver wires.now key) }
{
    match wires.target(key) {
        Some((component, _)) => match owners.get(component as usize) {
            Some(part) => *part,
            None => 0,
        },
        None => 0,
    }
}

// The event that one action makes, if it makes one.
fn event_of<L: Copy>(
    wires: &Wires,
    component: u32,
    now: u64,
    action: &Action<L>,
) -> Option<Event<L>>
    requires early { now < 2 ^ 62 }
    requires wires { WiringFits wires.now }
    requires action { ActionFits action.now }
    ensures { option_to_list result ≡ made wires.now component now action.now }
{
    match action {
        Action::Send { port, extra, load } => {
            let (line, latency) = wires.line_from(component, *port)?;
            let key = Key {
                time: now + *extra + latency,
                class: ARRIVAL,
                line,
            };
            Some(Event {
                key,
                load: Some(*load),
            })
        }
        Action::SelfSend {
            line: index,
            delay,
            load,
        } => {
            let line = wires.own_from(component, *index)?;
            let key = Key {
                time: now + *delay,
                class: ARRIVAL,
                line,
            };
            Some(Event {
                key,
                load: Some(*load),
            })
        }
        Action::ClockOn { clock } => {
            let (line, period) = wires.clock_of(component, *clock)?;
            let key = Key {
                time: now + (period - now % period),
                class: TICK,
                line,
            };
            Some(Event { key, load: None })
        }
        _ => None,
    }
}

// The next tick of the clock that ticked, unless one of the actions turns it off.
fn next_tick<L: Copy>(
    wires: &Wires,
    component: u32,
    now: u64,
    cause: &Cause<L>,
    acts: &Acts<L>,
) -> Option<Event<L>>
    requires early { now < 2 ^ 62 }
    requires wires { WiringFits wires.now }
    ensures { option_to_list result ≡ again wires.now component now cause.now acts.now }
{
    match cause {
        Cause::Tick { clock } => {
            if acts.turns_off(*clock) {
                return None;
            }
            match wires.clock_of(component, *clock) {
                Some((line, period)) => Some(Event {
                    key: Key {
                        time: now + period,
                        class: TICK,
                        line,
                    },
                    load: None,
                }),
                None => None,
            }
        }
        _ => None,
    }
}

impl<L: Copy + Drop> Mail<L> {
    // Puts an event where it goes: to those that are to come, or to those for others.
    fn post(
        &mut self,
        wires: &Wires,
        owners: &[u32],
        part: u32,
        event: Event<L>,
    ) -> Result<(), AllocError>
        ensures pending { OnOk result (self.new.pending ≡ insert_all (kept wires.now owners.now part (event ∷ [])) self.old.pending) }
        ensures out { OnOk result (self.new.out.items ≡ self.old.out.items ++ given wires.now owners.now part (event ∷ [])) }
        ensures lines { OnOk result (self.new.lines.items ≡ self.old.lines.items) }
    {
        if destination(wires, owners, event.key) == part {
            self.pending.insert(event)?;
        } else {
            self.out.push(event)?;
        }
        Ok(())
    }

    // Puts an event where it goes, if there is one.
    fn post_one(
        &mut self,
        wires: &Wires,
        owners: &[u32],
        part: u32,
        event: Option<Event<L>>,
    ) -> Result<(), AllocError>
        ensures pending { OnOk result (self.new.pending ≡ insert_all (kept wires.now owners.now part (option_to_list event)) self.old.pending) }
        ensures out { OnOk result (self.new.out.items ≡ self.old.out.items ++ given wires.now owners.now part (option_to_list event)) }
        ensures lines { OnOk result (self.new.lines.items ≡ self.old.lines.items) }
    {
        match event {
            Some(event) => {
                self.post(wires, owners, part, event)?;
                Ok(())
            }
            None => Ok(()),
        }
    }

    // Does what one action asks for.
    fn carry_out(
        &mut self,
        wires: &Wires,
        owners: &[u32],
        part: u32,
        component: u32,
        key: Key,
        action: Action<L>,
    ) -> Result<(), AllocError>
        requires early { key.time < 2 ^ 62 }
        requires wires { WiringFits wires.now }
        requires action { ActionFits action }
        ensures pending { OnOk result (self.new.pending ≡ insert_all (kept wires.now owners.now part (made wires.now component key.time action)) self.old.pending) }
        ensures out { OnOk result (self.new.out.items ≡ self.old.out.items ++ given wires.now owners.now part (made wires.now component key.time action)) }
        ensures lines { OnOk result (self.new.lines.items ≡ self.old.lines.items ++ printed key (action ∷ [])) }
    {
        let event = event_of(wires, component, key.time, &action);
        self.post_one(wires, owners, part, event)?;
        if let Action::Print { text } = action {
            self.lines.push(Line { key, text })?;
        }
        Ok(())
    }
}

impl<L: Copy + Drop> Mail<L> {
    /// Does what the actions ask for, in order.
    pub fn carry_out_all(
        &mut self,
        wires: &Wires,
        owners: &[u32],
        part: u32,
        component: u32,
        key: Key,
        acts: &mut Acts<L>,
    ) -> Result<(), AllocError>
        requires early { key.time < 2 ^ 62 }
        requires wires { WiringFits wires.now }
        requires actions { ActionsFit acts.old }
        ensures pending { OnOk result (self.new.pending ≡ insert_all (kept wires.now owners.now part (made_all wires.now component key.time acts.old)) self.old.pending) }
        ensures out { OnOk result (self.new.out.items ≡ self.old.out.items ++ given wires.now owners.now part (made_all wires.now component key.time acts.old)) }
        ensures lines { OnOk result (self.new.lines.items ≡ self.old.lines.items ++ printed key acts.old) }
    {
        while let Some(action) = acts.take() {
            self.carry_out(wires, owners, part, component, key, action)?;
        }
        Ok(())
    }
}

/// What follows an event that was taken. After an error nothing is known of the elements, of `mail` and of
/// `acts`, whose buffer is used again.
pub fn perform<E: Element>(
    wires: &Wires,
    owners: &[u32],
    part: u32,
    elements: &mut Elements<E>,
    mail: &mut Mail<E::Load>,
    acts: &mut Acts<E::Load>,
    event: Event<E::Load>,
) -> Result<(), AllocError>
    requires early { event.key.time < 2 ^ 62 }
    requires wires { WiringFits wires.now }
    requires may { MayReact E.kind wires.now elements.old event }
    ensures elements { OnOk result (elements.new ≡ (answer E.kind.handled wires.now state_of with_state elements.old event).after) }
    ensures pending { OnOk result (mail.new.pending ≡ insert_all (kept wires.now owners.now part (answer E.kind.handled wires.now state_of with_state elements.old event).sends) mail.old.pending) }
    ensures out { OnOk result (mail.new.out.items ≡ mail.old.out.items ++ given wires.now owners.now part (answer E.kind.handled wires.now state_of with_state elements.old event).sends) }
    ensures lines { OnOk result (mail.new.lines.items ≡ mail.old.lines.items ++ (answer E.kind.handled wires.now state_of with_state elements.old event).says) }
{
    let Some((component, cause)) = wires.told(&event) else {
        return Ok(());
    };
    acts.clear();
    if !elements.handle(component, event.key.time, &cause, acts)? {
        return Ok(());
    }
    let next = next_tick(wires, component, event.key.time, &cause, acts);
    mail.carry_out_all(wires, owners, part, component, event.key, acts)?;
    mail.post_one(wires, owners, part, next)?;
    Ok(())
}
