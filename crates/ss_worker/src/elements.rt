//! The elements of a part.

ghost use Rattle.std.specs.Prelude.{◌≡◌, ◌<◌, ◌^◌, ◌++◌, ℕ, All, IfOk, OnOk, length, Some, is_some};
ghost use Rattle.ss_parts.specs.Parts.{state_of};
ghost use Rattle.ss_worker.specs.Placed.{IsPlaced, place_from, reacts, with_reaction, asked};

use ss_element::{Acts, Element};
use ss_model::Cause;
use std::alloc::{AllocError, Global};
use std::marker::Model;

/// Elements with their numbers, found by number.
#[derive(Drop)]
pub struct Elements<E: Element> {
    list: Vec<(u32, E)>,
    places: Vec<Option<u32>>,
}

impl<E: Element> Model for Elements<E> {
    ghost use Rattle.std.specs.Prelude.{ℕ, List};
    ghost use Rattle.ss_worker.specs.Placed.{IsPlaced};

    ghost Value = { List (ℕ × E) };

    ghost view = { λ e. e.list.items };

    ghost invariant = { λ e. IsPlaced e.places.items e.list.items };
}

// A table of the places of elements, by number, for numbers below a count.
fn places_of<E>(
    alloc: Global,
    list: &[(u32, E)],
    count: u32,
) -> Result<Vec<Option<u32>>, AllocError>
    requires few { length list.now < 2 ^ 32 }
    requires below { All (λ x. x.0 < count) list.now }
    ensures { IfOk result (λ places. IsPlaced places.items list.now) }
{
    let mut places = vec![in alloc; None; count as usize]?;
    let mut place = list.len();
    while place > 0 {
        place -= 1;
        places[list[place].0 as usize] = Some(place as u32);
    }
    Ok(places)
}

impl<E: Element> Elements<E> {
    /// Elements with these numbers, which are below a count. It fails only where no memory is left.
    pub fn new(alloc: Global, list: Vec<(u32, E)>, count: u32) -> Result<Self, AllocError>
        requires few { length list.items < 2 ^ 32 }
        requires below { All (λ x. x.0 < count) list.items }
        ensures { IfOk result (λ e. e ≡ list.items) }
    {
        let places = places_of(alloc, &list, count)?;
        Ok(Elements { list, places })
    }

    /// The elements, each with its number.
    pub fn list(&self) -> &[(u32, E)]
        ensures { result.now ≡ self.now }
    {
        &self.list
    }

    // The place of the element with a number.
    fn place(&self, number: u32) -> Option<u32>
        ensures { result ≡ place_from 0 self.now number }
    {
        match self.places.get(number as usize) {
            Some(place) => *place,
            None => None,
        }
    }

    /// Lets the element with a number handle a cause, and tells whether there is one. After an error nothing is
    /// known of the element and of `acts`.
    pub fn handle(
        &mut self,
        number: u32,
        now: u64,
        cause: &Cause<E::Load>,
        acts: &mut Acts<E::Load>,
    ) -> Result<bool, AllocError>
        requires early { now < 2 ^ 62 }
        requires meets { (x : E) → state_of self.old number ≡ Some x → E.kind.Meets x now cause.now }
        ensures there { IfOk result (λ b. b ≡ is_some (state_of self.old number)) }
        ensures state { OnOk result (self.new ≡ with_reaction self.old number (reacts E.kind.handled self.old number now cause.now)) }
        ensures actions { OnOk result (acts.new ≡ acts.old ++ asked (reacts E.kind.handled self.old number now cause.now)) }
    {
        let Some(place) = self.place(number) else {
            return Ok(false);
        };
        let (_, element) = &mut self.list[place as usize];
        element.handle(now, cause, acts)?;
        Ok(true)
    }
}
