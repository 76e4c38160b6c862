//! Events of which each comes behind those that were put in before it.

ghost use Rattle.std.specs.Prelude.{◌≡◌, [], ◌∷◌, ◌++◌, OnOk, OnErr, IfNone, option_copied, option_to_list, slice_get};
ghost use Rattle.ss_pending.specs.Filed.{LastOf};

use crate::filed::Filed;
use std::alloc::{AllocError, Global};
use std::collections::VecDeque;
use std::marker::Model;

/// A list that grows at its end and is taken from its front. The last stands by itself until another comes behind it, so
/// that what was written a moment ago is not read back at once.
#[derive(Drop)]
pub struct Run<L> {
    items: VecDeque<Filed<L>>,
    last: Option<Filed<L>>,
}

impl<L> Model for Run<L> {
    ghost use Rattle.std.specs.Prelude.{List, ◌≡◌, [], ◌++◌, None, option_to_list};
    ghost use Rattle.ss_pending.specs.declared.filed.Filed.{Filed};

    ghost Value = { List (Filed L) };

    ghost view = { λ r. r.items.items ++ option_to_list r.last };

    ghost invariant = { λ r. r.last ≡ None → r.items.items ≡ [] };
}

// Copies the events of a queue behind those of a list.
fn copy_items<L: Copy + Drop>(
    items: &VecDeque<Filed<L>>,
    list: &mut Vec<Filed<L>>,
) -> Result<(), AllocError>
    ensures { OnOk result (list.new.items ≡ list.old.items ++ items.now.items) }
{
    for filed in items {
        list.push(*filed)?;
    }
    Ok(())
}

impl<L> Run<L> {
    /// No events. It takes no memory.
    pub fn new(alloc: Global) -> Self
        ensures { result ≡ [] }
    {
        Run {
            items: VecDeque::new(alloc),
            last: None,
        }
    }

    /// The first event.
    #[inline(always)]
    pub fn first(&self) -> Option<&Filed<L>>
        ensures { option_copied result ≡ slice_get self.now 0 }
    {
        match self.items.front() {
            Some(first) => Some(first),
            None => self.last.as_ref(),
        }
    }

    /// The last event.
    #[inline(always)]
    pub fn last(&self) -> Option<&Filed<L>>
        ensures { LastOf (option_copied result) self.now }
    {
        self.last.as_ref()
    }

    /// Puts an event behind all. It fails only where no memory is left, and then changes nothing.
    #[inline(always)]
    pub fn push(&mut self, filed: Filed<L>) -> Result<(), AllocError>
    where
        L: Copy + Drop,
        ensures ok { OnOk result (self.new ≡ self.old ++ filed ∷ []) }
        ensures err { OnErr result (self.new ≡ self.old) }
    {
        if let Some(last) = self.last {
            self.items.push_back(last)?;
        }
        self.last = Some(filed);
        Ok(())
    }

    /// Takes the first event. It takes no memory.
    #[inline(always)]
    pub fn pop(&mut self) -> Option<Filed<L>>
        ensures items { self.old ≡ option_to_list result ++ self.new }
        ensures none { IfNone result (self.new ≡ []) }
    {
        match self.items.pop_front() {
            Some(first) => Some(first),
            None => self.last.take(),
        }
    }

    /// Copies the events behind those of a list.
    pub fn copy_to(&self, list: &mut Vec<Filed<L>>) -> Result<(), AllocError>
    where
        L: Copy + Drop,
        ensures { OnOk result (list.new.items ≡ list.old.items ++ self.now) }
    {
        copy_items(&self.items, list)?;
        if let Some(last) = self.last {
            list.push(last)?;
        }
        Ok(())
    }
}
