//! The wires between components, with tables to look them up.

ghost use Rattle.std.specs.Prelude.{◌≡◌, ◌<◌, ◌-◌, ◌^◌, [], ◌∷◌, ◌++◌, length, nat_lt, slice_get, List, ℕ, OnOk, OnErr};
ghost use Rattle.ss_model.specs.declared.InnerLine.TheVariants as inner;
ghost use Rattle.ss_model.specs.Wiring.{link_at, own_at, clock_at, target, told, told_load, of_line, of_own, of_clock, inner_at, WiringFits, SecondFits};
ghost use Rattle.ss_element.specs.Index.{with_link, with_inner, entries, counts, first_place, place_or, clock_again};

use crate::table::Table;
use ss_model::{ARRIVAL, Cause, Event, InnerLine, Key, LinkLine, START, TICK};
use std::alloc::{AllocError, Global};
use std::marker::Model;

/// The lines of links and, in one numbering behind them, self lines and clocks. Clauses see the two lists.
#[derive(Drop)]
pub struct Wires {
    links: Vec<LinkLine>,
    inner: Vec<InnerLine>,
    // At a clock's place among `inner`, the place of the first clock of its component and index.
    firsts: Vec<u32>,
    own_lines: u32,
    ports: Table<(u32, u64)>,
    owns: Table<u32>,
    clocks: Table<(u32, u64)>,
}

impl Model for Wires {
    ghost use Rattle.ss_model.specs.Wiring.{Wiring};
    ghost use Rattle.ss_element.specs.Index.{Indexed};

    ghost Value = { Wiring };

    ghost view = { λ w. record { links = w.links.items; inner = w.inner.items } };

    ghost invariant = { λ w. Indexed w.links.items w.inner.items w.firsts.items w.own_lines w.ports w.owns w.clocks };
}

// Adds an entry to each of two lists that stand side by side. After an error both are as before.
fn push_both(
    inner: &mut Vec<InnerLine>,
    firsts: &mut Vec<u32>,
    line: InnerLine,
    first: u32,
) -> Result<(), AllocError>
    ensures inner { OnOk result (inner.new.items ≡ inner.old.items ++ line ∷ []) }
    ensures firsts { OnOk result (firsts.new.items ≡ firsts.old.items ++ first ∷ []) }
    ensures same_inner { OnErr result (inner.new.items ≡ inner.old.items) }
    ensures same_firsts { OnErr result (firsts.new.items ≡ firsts.old.items) }
{
    firsts.push(first)?;
    if inner.push(line).is_err() {
        firsts.pop();
        return Err(AllocError);
    }
    Ok(())
}

// The place of a clock that is there, or else another.
fn place_or(clock: Option<(u32, u64)>, place: u32) -> u32
    ensures { result ≡ place_or clock place }
{
    match clock {
        Some((first, _)) => first,
        None => place,
    }
}

impl Wires {
    /// No wires.
    pub fn new(alloc: Global) -> Wires
        ensures { result ≡ record { links = []; inner = [] } }
    {
        Wires {
            links: Vec::new(alloc),
            inner: Vec::new(alloc),
            firsts: Vec::new(alloc),
            own_lines: 0,
            ports: Table::new(alloc),
            owns: Table::new(alloc),
            clocks: Table::new(alloc),
        }
    }

    /// Adds a line from a port of one component to a port of another behind the lines that there are. The
    /// latency is in picoseconds. It fails only where no memory is left, and the wires are then as before.
    pub fn line(
        &mut self,
        sender: u32,
        out_port: u16,
        receiver: u32,
        in_port: u16,
        latency: u64,
    ) -> Result<(), AllocError>
        requires { entries self.old < 2 ^ 32 - 1 }
        ensures ok { OnOk result (self.new ≡ with_link self.old (record { sender = sender; out_port = out_port; receiver = receiver; in_port = in_port; latency = latency })) }
        ensures err { OnErr result (self.new ≡ self.old) }
    {
        let number = self.links.len() as u32;
        self.ports.grow(sender, out_port)?;
        self.links.push(LinkLine {
            sender,
            out_port,
            receiver,
            in_port,
            latency,
        })?;
        self.ports.fill(sender, out_port, (number, latency));
        Ok(())
    }

    /// Adds a self line of a component behind the self lines and clocks that there are. It fails only where
    /// no memory is left, and the wires are then as before.
    pub fn own_line(&mut self, component: u32, index: u16) -> Result<(), AllocError>
        requires { entries self.old < 2 ^ 32 - 1 }
        ensures ok { OnOk result (self.new ≡ with_inner self.old (inner.Own component index)) }
        ensures err { OnErr result (self.new ≡ self.old) }
    {
        let place = self.inner.len() as u32;
        self.owns.grow(component, index)?;
        let line = InnerLine::Own { component, index };
        push_both(&mut self.inner, &mut self.firsts, line, place)?;
        self.owns.fill(component, index, place);
        self.own_lines += 1;
        Ok(())
    }

    /// Adds a clock of a component behind the self lines and clocks that there are. The period is in
    /// picoseconds. It fails only where no memory is left, and the wires are then as before.
    pub fn clock(&mut self, component: u32, index: u16, period: u64) -> Result<(), AllocError>
        requires { entries self.old < 2 ^ 32 - 1 }
        ensures ok { OnOk result (self.new ≡ with_inner self.old (inner.Clock component index period)) }
        ensures err { OnErr result (self.new ≡ self.old) }
    {
        let place = self.inner.len() as u32;
        self.clocks.grow(component, index)?;
        let first = place_or(self.clocks.get(component, index), place);
        let line = InnerLine::Clock {
            component,
            index,
            period,
        };
        push_both(&mut self.inner, &mut self.firsts, line, first)?;
        self.clocks.fill(component, index, (place, period));
        Ok(())
    }

    /// How many link lines, self lines and clocks there are.
    pub fn counts(&self) -> (u32, u32, u32)
        ensures { result ≡ counts self.now }
    {
        let inner = self.inner.len() as u32;
        (
            self.links.len() as u32,
            self.own_lines,
            inner - self.own_lines,
        )
    }

    /// The number and the latency, in picoseconds, of the first line out of a port.
    pub fn line_from(&self, component: u32, port: u16) -> Option<(u32, u64)>
        ensures value { result ≡ link_at self.now component port }
        ensures fits { WiringFits self.now → SecondFits result }
    {
        self.ports.get(component, port)
    }

    /// The number of a component's first self line of this index.
    pub fn own_from(&self, component: u32, index: u16) -> Option<u32>
        ensures { result ≡ own_at self.now component index }
    {
        let links = self.links.len() as u32;
        match self.owns.get(component, index) {
            Some(place) => Some(links + place),
            None => None,
        }
    }

    /// The number and the period, in picoseconds, of a component's first clock of this index.
    pub fn clock_of(&self, component: u32, index: u16) -> Option<(u32, u64)>
        ensures value { result ≡ clock_at self.now component index }
        ensures fits { WiringFits self.now → SecondFits result }
    {
        let links = self.links.len() as u32;
        match self.clocks.get(component, index) {
            Some((place, period)) => Some((links + place, period)),
            None => None,
        }
    }

    /// The place behind the link lines of the first clock with the component and the index of the clock at a place.
    #[inline(always)]
    fn first_at(&self, place: usize) -> Option<u32>
        ensures { result ≡ first_place self.now.inner (slice_get self.now.inner place) }
    {
        match self.inner.get(place)? {
            InnerLine::Own { .. } => None,
            InnerLine::Clock { .. } => self.firsts.get(place).copied(),
        }
    }

    /// The number and the period, in picoseconds, of the component's first clock of the index that the clock with
    /// this number has: the one that ticks on after it.
    #[inline(always)]
    pub fn ticks_again(&self, line: u32) -> Option<(u32, u64)>
        ensures value { result ≡ clock_again self.now line }
        ensures fits { WiringFits self.now → SecondFits result }
    {
        let links = self.links.len();
        let first = self.first_at((line as usize).checked_sub(links)?)?;
        match self.inner.get(first as usize)? {
            InnerLine::Own { .. } => None,
            InnerLine::Clock { period, .. } => Some((links as u32 + first, *period)),
        }
    }

    /// Whether a number is that of a link line.
    fn is_link(&self, line: u32) -> bool
        ensures { result ≡ nat_lt line (length self.now.links) }
    {
        (line as usize) < self.links.len()
    }

    /// What stands at a number behind the link lines.
    fn inner_at(&self, line: u32) -> Option<InnerLine>
        ensures { result ≡ inner_at self.now line }
    {
        let place = (line as usize).checked_sub(self.links.len())?;
        self.inner.get(place).copied()
    }

    /// The component and the index of the clock with this number.
    fn clock_at(&self, line: u32) -> Option<(u32, u16)>
        ensures { result ≡ of_clock (inner_at self.now line) }
    {
        match self.inner_at(line)? {
            InnerLine::Own { .. } => None,
            InnerLine::Clock {
                component,
                index,
                ..
            } => Some((component, index)),
        }
    }

    /// The component and the index of the self line with this number.
    fn own_at(&self, line: u32) -> Option<(u32, u16)>
        ensures { result ≡ of_own (inner_at self.now line) }
    {
        match self.inner_at(line)? {
            InnerLine::Own { component, index } => Some((component, index)),
            InnerLine::Clock { .. } => None,
        }
    }

    /// Who receives on the line with this number, and at which port or self line.
    fn line_at(&self, line: u32) -> Option<(u32, u16)>
        ensures { result ≡ of_line self.now line }
    {
        match self.links.get(line as usize) {
            Some(link) => Some((link.receiver, link.in_port)),
            None => self.own_at(line),
        }
    }

    /// Whom an event with this key reaches, and at which port, self line or clock. For a start event that is
    /// the component with the key's line as its number, and 0: whether there is such a component is for the
    /// caller to know. There is no one where the key's class has no such line.
    pub fn target(&self, key: Key) -> Option<(u32, u16)>
        ensures { result ≡ target self.now key }
    {
        match key.class {
            START => Some((key.line, 0)),
            TICK => self.clock_at(key.line),
            ARRIVAL => self.line_at(key.line),
            _ => None,
        }
    }

    /// Who is told of an event, and what. No one is told where its key reaches no one, or where it comes on a
    /// line and has no load.
    pub fn told<L: Copy>(&self, event: &Event<L>) -> Option<(u32, Cause<L>)>
        ensures { result ≡ told self.now event.now }
    {
        let (component, index) = self.target(event.key)?;
        match event.key.class {
            START => Some((component, Cause::Start)),
            TICK => Some((component, Cause::Tick { clock: index })),
            _ => self.arrival(component, index, event),
        }
    }

    /// The arrival of an event's load at a component.
    fn arrival<L: Copy>(
        &self,
        component: u32,
        index: u16,
        event: &Event<L>,
    ) -> Option<(u32, Cause<L>)>
        ensures { result ≡ told_load (nat_lt event.now.key.line (length self.now.links)) (component, index) event.now.load }
    {
        match event.load {
            Some(load) if self.is_link(event.key.line) => {
                Some((component, Cause::Link { port: index, load }))
            }
            Some(load) => Some((component, Cause::Own { line: index, load })),
            None => None,
        }
    }
}
