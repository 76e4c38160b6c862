//! Numbered events, of which the first is at hand.

ghost use Rattle.std.specs.Prelude.{◌≡◌, ◌+◌, ◌<◌, [], ◌∷◌, ◌++◌, OnOk, OnErr, List, ℕ, length, IfSome, IfNone, IfOk, OnSome, option_copied, Bool, is_some, IsPermutation, true, IfNone};
ghost use Rattle.std.specs.BinaryHeap.{heap_items, heap_len, IsHeap};
ghost use Rattle.ss_pending.specs.Filed.{is_before, latest_first, AllBelow, Ascends, FirstOf, Takes, leads, first_of};

use crate::filed::Filed;
use crate::run::Run;
use std::alloc::{AllocError, Global};
use std::collections::BinaryHeap;
use std::marker::Model;

/// Whether the first of two lists comes first, where both firsts are given. It is the second where there is no first.
pub fn leads<L>(first: Option<&Filed<L>>, second: Option<&Filed<L>>) -> bool
    ensures { result ≡ leads (option_copied first.entry) (option_copied second.entry) }
{
    match (first, second) {
        (Some(first), Some(second)) => !second.is_before(first),
        (Some(_), None) => true,
        (None, _) => false,
    }
}

/// Events of which most are put in in the order in which they come: those stand in a run, and the others in a heap.
#[derive(Drop)]
pub struct Lane<L> {
    run: Run<L>,
    heap: BinaryHeap<Filed<L>>,
}

impl<L> Model for Lane<L> {
    ghost use Rattle.std.specs.Prelude.{List, ◌++◌};
    ghost use Rattle.std.specs.BinaryHeap.{heap_items};
    ghost use Rattle.ss_pending.specs.declared.filed.Filed.{Filed};
    ghost use Rattle.ss_pending.specs.Filed.{IsFiled};

    ghost Value = { List (Filed L) };

    ghost view = { λ l. l.run ++ heap_items l.heap };

    ghost invariant = { λ l. IsFiled l.run (heap_items l.heap) };
}

// The first event of a run.
fn front<L>(run: &Run<L>) -> Option<&Filed<L>>
    requires { Ascends run.now }
    ensures { FirstOf (option_copied result) run.now }
{
    run.first()
}

// The first event of a heap.
fn top<L>(heap: &BinaryHeap<Filed<L>>) -> Option<&Filed<L>>
    requires { IsHeap latest_first (heap_items heap.now) }
    ensures { FirstOf (option_copied result) (heap_items heap.now) }
{
    heap.peek()
}

// Takes the first event of a run.
fn take_front<L>(run: &mut Run<L>) -> Option<Filed<L>>
    requires { Ascends run.old }
    ensures some { IfSome result (λ x. Takes x run.old run.new) }
    ensures none { IfNone result ((run.old ≡ []) × (run.new ≡ [])) }
    ensures ascends { Ascends run.new }
{
    run.pop()
}

/// Takes the first event of a heap.
#[inline(never)]
pub fn take_top<L>(heap: &mut BinaryHeap<Filed<L>>) -> Option<Filed<L>>
    requires { IsHeap latest_first (heap_items heap.old) }
    ensures some { IfSome result (λ x. Takes x (heap_items heap.old) (heap_items heap.new)) }
    ensures shorter { OnSome result (heap_len heap.new + 1 ≡ heap_len heap.old) }
    ensures none { IfNone result ((heap_items heap.old ≡ []) × (heap_items heap.new ≡ [])) }
    ensures heap { IsHeap latest_first (heap_items heap.new) }
{
    heap.pop()
}

// Puts an event into a heap.
#[inline(never)]
fn push<L: Drop>(heap: &mut BinaryHeap<Filed<L>>, filed: Filed<L>) -> Result<(), AllocError>
    requires { IsHeap latest_first (heap_items heap.old) }
    ensures ok { OnOk result (IsPermutation (filed ∷ heap_items heap.old) (heap_items heap.new)) }
    ensures err { OnErr result (heap_items heap.new ≡ heap_items heap.old) }
    ensures heap { IsHeap latest_first (heap_items heap.new) }
{
    heap.push(filed)?;
    Ok(())
}

// Whether an event comes behind those of a run.
fn is_behind<L>(run: &Run<L>, filed: &Filed<L>) -> bool
    requires { Ascends run.now }
    ensures { result ≡ true → Ascends (run.now ++ filed.now ∷ []) }
{
    match run.last() {
        Some(last) => last.is_before(filed),
        None => true,
    }
}

/// The first of two firsts.
pub fn first_of<'a, L>(
    first: Option<&'a Filed<L>>,
    second: Option<&'a Filed<L>>,
) -> Option<&'a Filed<L>>
    ensures { option_copied result ≡ first_of (option_copied first.entry) (option_copied second.entry) }
{
    if leads(first, second) { first } else { second }
}

impl<L> Lane<L> {
    /// No events. It takes no memory.
    pub fn new(alloc: Global) -> Self
        ensures { result ≡ [] }
    {
        Lane {
            run: Run::new(alloc),
            heap: BinaryHeap::new(alloc),
        }
    }

    /// The first event.
    pub fn first(&self) -> Option<&Filed<L>>
        ensures { FirstOf (option_copied result) self.now }
    {
        first_of(front(&self.run), top(&self.heap))
    }

    /// Puts in an event. It fails only where no memory is left, and then changes nothing.
    #[inline(always)]
    pub fn put(&mut self, filed: Filed<L>) -> Result<(), AllocError>
    where
        L: Copy + Drop,
        ensures ok { OnOk result (IsPermutation (filed ∷ self.old) self.new) }
        ensures err { OnErr result (self.new ≡ self.old) }
    {
        if is_behind(&self.run, &filed) {
            self.run.push(filed)
        } else {
            push(&mut self.heap, filed)
        }
    }

    /// Puts in an event as `put` does, where that is rare.
    #[inline(never)]
    pub fn put_aside(&mut self, filed: Filed<L>) -> Result<(), AllocError>
    where
        L: Copy + Drop,
        ensures ok { OnOk result (IsPermutation (filed ∷ self.old) self.new) }
        ensures err { OnErr result (self.new ≡ self.old) }
    {
        self.put(filed)
    }

    /// Takes the first event. It takes no memory.
    #[inline(always)]
    pub fn take(&mut self) -> Option<Filed<L>>
        ensures some { IfSome result (λ x. Takes x self.old self.new) }
        ensures none { IfNone result ((self.old ≡ []) × (self.new ≡ [])) }
    {
        if self.heap.is_empty() {
            return take_front(&mut self.run);
        }
        self.take_either()
    }

    // Takes the first event, of the run or of the heap.
    #[inline(never)]
    fn take_either(&mut self) -> Option<Filed<L>>
        ensures some { IfSome result (λ x. Takes x self.old self.new) }
        ensures none { IfNone result ((self.old ≡ []) × (self.new ≡ [])) }
    {
        if leads(front(&self.run), top(&self.heap)) {
            take_front(&mut self.run)
        } else {
            take_top(&mut self.heap)
        }
    }

    /// Copies the events behind those of a list, in no particular order.
    pub fn copy_to(&self, list: &mut Vec<Filed<L>>) -> Result<(), AllocError>
    where
        L: Copy + Drop,
        ensures { OnOk result (list.new.items ≡ list.old.items ++ self.now) }
    {
        self.run.copy_to(list)?;
        list.extend_from_slice(self.heap.as_slice())?;
        Ok(())
    }
}
