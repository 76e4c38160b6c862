//! A row of numbers.

ghost use Rattle.std.specs.Prelude.{◌≡◌, ◌++◌, length, replicate, slice_index, slice_set, OnOk, IfOk};
ghost use Rattle.std.specs.List.{flat_map};
ghost use Rattle.ss_wire.specs.Form.{big_bytes};
ghost use Rattle.ss_element.specs.Gives.{Tells};
ghost use Rattle.mr_nic.specs.Saved.{numbers_form};

use ss_element::RestoreFault;
use ss_wire::{Reader, Writer};
use std::alloc::{AllocError, Global};
use std::marker::Model;

/// A row of numbers, which contracts see as their list.
#[derive(Drop)]
pub struct Numbers {
    items: Vec<u64>,
}

impl Model for Numbers {
    ghost use Rattle.std.specs.Prelude.{ℕ, List};

    ghost Value = { List ℕ };

    ghost view = { λ r. r.items.items };
}

impl Numbers {
    /// So many numbers, each 0. It fails only where no memory is left.
    pub(crate) fn zeros(alloc: Global, count: usize) -> Result<Numbers, AllocError>
        ensures { IfOk result (λ r. r ≡ replicate count 0) }
    {
        let items = Vec::from_elem(alloc, 0u64, count)?;
        Ok(Numbers { items })
    }

    // How many numbers there are.
    pub(crate) fn len(&self) -> usize
        ensures { result ≡ length self.now }
    {
        self.items.len()
    }

    // The number at an index, and 0 where there is none.
    pub(crate) fn get(&self, index: usize) -> u64
        ensures { result ≡ slice_index self.now index }
    {
        match self.items.get(index) {
            Some(number) => *number,
            None => 0,
        }
    }

    // Sets the number at an index, if there is one.
    pub(crate) fn set(&mut self, index: usize, number: u64)
        ensures { self.new ≡ slice_set self.old index number }
    {
        if index < self.items.len() {
            self.items[index] = number;
        }
    }

    // Writes the numbers, 8 bytes each, high byte first.
    pub(crate) fn save(&self, out: &mut Writer) -> Result<(), AllocError>
        ensures { OnOk result (out.new ≡ out.old ++ flat_map (big_bytes 8) self.now) }
    {
        for index in 0..self.len() {
            out.u64(self.get(index))?;
        }
        Ok(())
    }

    // Takes on as many numbers that were written.
    pub(crate) fn restore(&mut self, bytes: &mut Reader<'_>) -> Result<(), RestoreFault>
        ensures { Tells (λ u. self.new) result bytes.new ((numbers_form self.old).read bytes.old) }
    {
        for index in 0..self.len() {
            let number = bytes.u64()?;
            self.set(index, number);
        }
        Ok(())
    }
}
