//! A lane of which the first event is at hand.

ghost use Rattle.std.specs.Prelude.{◌≡◌, [], ◌∷◌, ◌++◌, OnOk, OnErr, IfOk, IfSome, IfNone, option_copied, IsPermutation};
ghost use Rattle.ss_pending.specs.Filed.{FirstOf, Takes};

use crate::filed::Filed;
use crate::lane::Lane;
use std::alloc::{AllocError, Global};
use std::marker::Model;

/// Events of one sort, mostly, of which the first stands ahead of the lane that holds the others.
#[derive(Drop)]
pub struct Ahead<L> {
    first: Option<Filed<L>>,
    // The sort of events that it was made for.
    sort: u64,
    rest: Box<Lane<L>>,
}

impl<L> Model for Ahead<L> {
    ghost use Rattle.std.specs.Prelude.{List, ◌++◌, option_to_list};
    ghost use Rattle.ss_pending.specs.declared.filed.Filed.{Filed};
    ghost use Rattle.ss_pending.specs.Filed.{FirstOf};

    ghost Value = { List (Filed L) };

    ghost view = { λ a. option_to_list a.first ++ a.rest.value };

    ghost invariant = { λ a. FirstOf a.first (option_to_list a.first ++ a.rest.value) };
}

impl<L> Ahead<L> {
    /// No events, of which a sort is to come.
    pub fn new(alloc: Global, sort: u64) -> Result<Self, AllocError>
    where
        L: Drop,
        ensures { IfOk result (λ a. a ≡ []) }
    {
        Ok(Ahead {
            first: None,
            sort,
            rest: Box::new(alloc, Lane::new(alloc))?,
        })
    }

    /// Whether it was made for a sort of events.
    pub fn is_for(&self, sort: u64) -> bool {
        self.sort == sort
    }

    /// The first event.
    pub fn first(&self) -> Option<&Filed<L>>
        ensures { FirstOf (option_copied result) self.now }
    {
        self.first.as_ref()
    }

    /// Puts in an event. It fails only where no memory is left, and then changes nothing.
    #[inline(always)]
    pub fn put(&mut self, filed: Filed<L>) -> Result<(), AllocError>
    where
        L: Copy + Drop,
        ensures ok { OnOk result (IsPermutation (filed ∷ self.old) self.new) }
        ensures err { OnErr result (self.new ≡ self.old) }
    {
        match self.first {
            None => {
                self.first = Some(filed);
                Ok(())
            }
            Some(first) => {
                if filed.is_before(&first) {
                    self.rest.put_aside(first)?;
                    self.first = Some(filed);
                    Ok(())
                } else {
                    self.rest.put(filed)
                }
            }
        }
    }

    /// Takes the first event. It takes no memory.
    #[inline(always)]
    pub fn take(&mut self) -> Option<Filed<L>>
    where
        L: Copy + Drop,
        ensures some { IfSome result (λ x. Takes x self.old self.new) }
        ensures none { IfNone result ((self.old ≡ []) × (self.new ≡ [])) }
    {
        let first = self.first?;
        self.first = self.rest.take();
        Some(first)
    }

    /// Copies the events behind those of a list, in no particular order.
    pub fn copy_to(&self, list: &mut Vec<Filed<L>>) -> Result<(), AllocError>
    where
        L: Copy + Drop,
        ensures { OnOk result (list.new.items ≡ list.old.items ++ self.now) }
    {
        if let Some(first) = self.first {
            list.push(first)?;
        }
        self.rest.copy_to(list)
    }
}
