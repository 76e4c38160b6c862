//! A value that stands on the heap.

ghost use Rattle.std.specs.Prelude.{◌≡◌, IfOk};
ghost use Rattle.std.specs.Borrow.{Lends, sem};

use std::alloc::{AllocError, Global};
use std::marker::Model;

/// A value that stands on the heap, so that what holds it stays small. Clauses see the value alone.
#[derive(Drop)]
pub struct Housed<T> {
    inner: Box<T>,
}

impl<T> Model for Housed<T> {
    ghost Value = { T };

    ghost view = { λ h. h.inner.value };
}

impl<T: Drop> Housed<T> {
    /// The value, put on the heap.
    pub fn new(alloc: Global, value: T) -> Result<Self, AllocError>
        ensures { IfOk result (λ h. h ≡ value) }
    {
        let inner = Box::new(alloc, value)?;
        Ok(Housed { inner })
    }
}

impl<T> Housed<T> {
    ghost use Rattle.ss_library.specs.contracts.housed.Housed.{the_row};

    /// The value, to be read.
    #[inline(always)]
    pub fn get(&self) -> &T
        ensures { result.now ≡ self.now }
    {
        &self.inner
    }

    /// The value, to be written: what is left behind the result is what this then holds.
    #[inline(always)]
    pub fn get_mut(&mut self) -> &mut T
        ensures value { result.now ≡ self.old }
        ensures* writes_back { sem 𝓛 (Lends (the_row T.row) T.row self.entry result (λ w. w)) }
    {
        &mut self.inner
    }
}
