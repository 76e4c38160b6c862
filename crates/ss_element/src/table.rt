//! Tables of slots that may be empty, by component and by index.

ghost use Rattle.std.specs.Prelude.{◌≡◌, ◌<◌, ◌≤◌, ◌+◌, ◌==◌, ◌&&◌, ℕ, [], length, OnOk};
ghost use Rattle.ss_element.specs.Index.{slot, row, at, first_of, only_if};
ghost use Rattle.ss_element.specs.Spans.{span, within, IsCopied};

use std::alloc::{AllocError, Global};
use std::marker::Model;

/// Where the slots of one component stand among all, and for how many indices there is room.
#[derive(Clone, Copy)]
struct Span {
    start: u32,
    room: u32,
}

/// The slots of all components in one list, and the span of each component in it, as far as there are any. A span
/// that becomes too small moves to the list's end, and what it leaves there isn't used again.
#[derive(Drop)]
pub struct Table<T> {
    slots: Vec<Option<T>>,
    spans: Vec<Span>,
}

impl<T> Model for Table<T> {
    ghost use Rattle.std.specs.Prelude.{List, Option, length};
    ghost use Rattle.ss_element.specs.Spans.{rows, AreApart};

    ghost Value = { List (List (Option T)) };

    ghost view = { λ t. rows t.slots.items t.spans.items };

    ghost invariant = { λ t. AreApart (length t.slots.items) t.spans.items };
}

// Makes an empty span for each component up to one that has none.
fn reach(spans: &mut Vec<Span>, component: u32) -> Result<(), AllocError>
    ensures same { (c : ℕ) → span spans.new.items c ≡ span spans.old.items c }
    ensures there { OnOk result (component < length spans.new.items) }
{
    while spans.len() <= component as usize {
        spans.push(Span { start: 0, room: 0 })?;
    }
    Ok(())
}

// Copies the slots of a span behind all others, with empty slots behind them up to a room.
fn copy_out<T: Copy + Drop>(
    slots: &mut Vec<Option<T>>,
    from: Span,
    room: u32,
) -> Result<(), AllocError>
    requires { from.start + from.room ≤ length slots.old.items }
    ensures longer { length slots.old.items ≤ length slots.new.items }
    ensures kept { (i : ℕ) → i < length slots.old.items → slot slots.new.items i ≡ slot slots.old.items i }
    ensures copied { OnOk result (IsCopied from room slots.old.items slots.new.items) }
{
    for i in 0..room {
        let slot = if i < from.room {
            slots[from.start as usize + i as usize]
        } else {
            None
        };
        slots.push(slot)?;
    }
    Ok(())
}

// The room of a span that has no room for an index: at least twice as much as before.
fn more_room(from: Span, index: u16) -> u32
    requires { from.room ≤ index }
    ensures index { index < result }
    ensures kept { from.room ≤ result }
{
    let wanted = u32::from(index) + 1;
    wanted.max(from.room * 2)
}

impl<T: Copy + Drop> Table<T> {
    /// A table with no rows.
    pub fn new(alloc: Global) -> Self
        ensures { result ≡ [] }
    {
        Table {
            slots: Vec::new(alloc),
            spans: Vec::new(alloc),
        }
    }

    /// What a component has at an index.
    #[inline(always)]
    pub fn get(&self, component: u32, index: u16) -> Option<T>
        ensures { result ≡ at self.now component index }
    {
        match self.spans.get(component as usize) {
            Some(span) if u32::from(index) < span.room => {
                self.slots[span.start as usize + usize::from(index)]
            }
            _ => None,
        }
    }

    /// Makes room for a slot. What the slots hold stays.
    pub fn grow(&mut self, component: u32, index: u16) -> Result<(), AllocError>
        ensures same { (c i : ℕ) → at self.new c i ≡ at self.old c i }
        ensures wide { OnOk result (index < length (row self.new component)) }
    {
        reach(&mut self.spans, component)?;
        let from = self.spans[component as usize];
        if u32::from(index) < from.room {
            return Ok(());
        }
        let room = more_room(from, index);
        let Ok(start) = u32::try_from(self.slots.len()) else {
            return Err(AllocError);
        };
        copy_out(&mut self.slots, from, room)?;
        self.spans[component as usize] = Span { start, room };
        Ok(())
    }

    /// Fills a slot that is empty, and leaves one that is not.
    pub fn fill(&mut self, component: u32, index: u16, value: T)
        requires { index < length (row self.old component) }
        ensures { (c i : ℕ) → at self.new c i ≡ first_of (at self.old c i) (only_if ((component == c) && (index == i)) value) }
    {
        let span = self.spans[component as usize];
        let slot = &mut self.slots[span.start as usize + usize::from(index)];
        if slot.is_none() {
            *slot = Some(value);
        }
    }
}
