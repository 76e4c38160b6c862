//! The turns of a router's outputs.

ghost use Rattle.std.specs.Prelude.{◌≡◌, ◌<◌, ◌≤◌, ◌^◌, ◌++◌, ◌∷◌, [], All, length, map, replicate, slice_get, Some, OnOk, IfOk};
ghost use Rattle.std.specs.List.{flat_map, list_all};
ghost use Rattle.ss_element.specs.Gives.{Gives};
ghost use Rattle.mr_arb.specs.declared.turn.Turn.{Turn};
ghost use Rattle.mr_arb.specs.Arbitrating.{EachFits, picks, turn_of};
ghost use Rattle.mr_router.specs.Turns.{Chosen, turn_read, turns_in, turn_fits, turn_text, turn_form, turns_form, IsChoice};

use crate::listed::{Listed, all_fit, to_turns};
use mr_arb::{ArbKind, Arbiter, Request};
use ss_element::RestoreFault;
use ss_wire::{Reader, Writer};
use std::alloc::{AllocError, Global};
use std::marker::Model;

/// The turns of all outputs: those of an arbiter, or such as no arbiter has, which were read and aren't judged yet.
#[derive(Drop)]
pub enum Choice {
    Ready(Arbiter),
    Read(Vec<Listed>),
}

/// The turns of a router's outputs over so many slots, and what each output granted last.
#[derive(Drop)]
pub struct Outputs {
    alloc: Global,
    slots: u32,
    choice: Choice,
    grants: Vec<u32>,
}

impl Model for Outputs {
    ghost use Rattle.std.specs.Prelude.{◌≡◌, ◌<◌, ◌^◌, length};
    ghost use Rattle.mr_router.specs.Turns.{Chosen, turns_in, IsChoice};

    ghost Value = { Chosen };

    ghost view = { λ o. record { slots = o.slots; turns = turns_in o.choice; grants = o.grants.items } };

    ghost invariant = { λ o. IsChoice o.slots o.choice × (length o.grants.items ≡ length (turns_in o.choice)) × (length o.grants.items < 2 ^ 16) };
}

impl Outputs {
    /// The first turns of so many outputs. It fails only where no memory is left.
    pub(crate) fn new(
        alloc: Global,
        kind: ArbKind,
        slots: u32,
        outputs: u16,
    ) -> Result<Outputs, AllocError>
        requires some { 1 ≤ slots }
        requires few { slots ≤ 4096 }
        ensures slots { IfOk result (λ o. o.slots ≡ slots) }
        ensures turns { IfOk result (λ o. o.turns ≡ replicate outputs (turn_of kind slots)) }
    {
        let arbiter = Arbiter::new(alloc, kind, slots, outputs)?;
        let grants = Vec::from_elem(alloc, u32::MAX, usize::from(outputs))?;
        Ok(Outputs {
            alloc,
            slots,
            choice: Choice::Ready(arbiter),
            grants,
        })
    }

    /// What each output granted last: a slot, or `u32::MAX`.
    pub(crate) fn grants(&self) -> &[u32]
        ensures { result.now ≡ self.now.grants }
    {
        &self.grants
    }

    /// Grants each output the slot of one of its requests or none, as an arbiter does. It takes no memory.
    pub(crate) fn pick(&mut self, requests: &[Request])
        requires fit { EachFits self.old.slots self.old.turns }
        requires slots { All (λ q. q.slot < self.old.slots) requests.now }
        requires inputs { All (λ q. q.input < self.old.slots) requests.now }
        ensures { let picked = picks self.old.slots 0 self.old.turns requests.now in self.new ≡ record self.old { turns = picked.0; grants = picked.1 } }
    {
        match &mut self.choice {
            Choice::Ready(arbiter) => arbiter.pick(requests, &mut self.grants),
            Choice::Read(_) => unreachable!(),
        }
    }

    // How many outputs there are.
    fn len(&self) -> usize
        ensures { result ≡ length self.now.turns }
    {
        self.grants.len()
    }

    /// Whether the turns are such as an arbiter may have.
    pub(crate) fn fit(&self) -> bool
        ensures { result ≡ list_all (turn_fits self.now.slots) self.now.turns }
    {
        match self.choice {
            Choice::Ready(_) => true,
            Choice::Read(_) => false,
        }
    }

    // The turn of an output, as it is written.
    fn listed(&self, output: usize) -> Result<Listed, AllocError>
        requires { output < length self.now.turns }
        ensures { IfOk result (λ l. slice_get self.now.turns output ≡ Some (turn_read l)) }
    {
        match &self.choice {
            Choice::Ready(arbiter) => {
                Listed::of_turn(self.alloc, self.slots, &arbiter.turns()[output])
            }
            Choice::Read(turns) => turns[output].copied(self.alloc),
        }
    }

    /// Writes the turns. It fails only where no memory is left, and nothing is then known of `out`.
    pub(crate) fn save(&self, out: &mut Writer) -> Result<(), AllocError>
        ensures { OnOk result (out.new ≡ out.old ++ flat_map turn_text self.now.turns) }
    {
        for output in 0..self.len() {
            let turn = self.listed(output)?;
            turn.save(out)?;
        }
        Ok(())
    }

    // Reads a turn in the place of an output's.
    fn read_turn(&self, output: usize, bytes: &mut Reader<'_>) -> Result<Listed, RestoreFault>
        requires { output < length self.now.turns }
        ensures { (t : Turn) → slice_get self.now.turns output ≡ Some t → Gives turn_read result bytes.new ((turn_form t).read bytes.old) }
    {
        let mut turn = self.listed(output)?;
        turn.restore(bytes)?;
        Ok(turn)
    }

    // Reads turns in the place of those that there are.
    fn read(&self, bytes: &mut Reader<'_>) -> Result<Vec<Listed>, RestoreFault>
        ensures told { Gives (λ v. map turn_read v.items) result bytes.new ((turns_form self.now.turns).read bytes.old) }
        ensures long { IfOk result (λ v. length v.items ≡ length self.now.turns) }
    {
        let mut turns = Vec::with_capacity(self.alloc, self.len())?;
        for output in 0..self.len() {
            let turn = self.read_turn(output, bytes)?;
            hold(&mut turns, turn)?;
        }
        Ok(turns)
    }

    /// Takes on the turns that were written, be they such as an arbiter may have or not. After a refusal nothing is known of them and
    /// of the reader.
    pub(crate) fn restore(&mut self, bytes: &mut Reader<'_>) -> Result<(), RestoreFault>
        ensures told { Gives (λ u. self.new.turns) result bytes.new ((turns_form self.old.turns).read bytes.old) }
        ensures slots { self.new.slots ≡ self.old.slots }
    {
        let turns = self.read(bytes)?;
        self.choice = chosen(self.alloc, self.slots, turns)?;
        Ok(())
    }
}

// Puts a turn that was read behind the others.
fn hold(turns: &mut Vec<Listed>, turn: Listed) -> Result<(), AllocError>
    ensures { OnOk result (turns.new.items ≡ turns.old.items ++ turn ∷ []) }
{
    turns.push(turn)?;
    Ok(())
}

// Turns that were read, as those of an arbiter where one may have them.
fn chosen(alloc: Global, slots: u32, turns: Vec<Listed>) -> Result<Choice, AllocError>
    requires some { 1 ≤ slots }
    requires few { slots ≤ 4096 }
    requires outputs { length turns.items < 2 ^ 16 }
    ensures turns { IfOk result (λ c. turns_in c ≡ map turn_read turns.items) }
    ensures choice { IfOk result (λ c. IsChoice slots c) }
{
    if !all_fit(alloc, slots, &turns)? {
        return Ok(Choice::Read(turns));
    }
    let turns = to_turns(alloc, slots, &turns)?;
    Ok(Choice::Ready(Arbiter::of_turns(alloc, slots, turns)?))
}
