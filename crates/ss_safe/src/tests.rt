//! An element that keeps the local laws, and has its world from them.

ghost use Rattle.std.specs.Prelude.{◌≡◌, [], None, refl};
ghost use Rattle.ss_safe.specs.Quiet.{quiet_kind, quiet_saving, all_allowed, quiet_laws, quiet_saves};
ghost use Rattle.ss_safe.specs.Safe.{Safe};
ghost use Rattle.ss_safe.specs.Worlds.{world_of, saved_of};

use crate::{
    Local, a_run_can_be_saved, a_run_stays_safe, a_run_stays_sound, a_sound_state_is_safe,
    an_opening_is_safe, elements_stay_alike, local_laws_give_a_world, nothing_overflows,
    what_is_kept_is_safe, what_is_safe_stands,
};
use ss_element::{Acts, Cause, Element, Flow, Payload, RestoreFault};
use ss_stats::StatSet;
use ss_wire::{Reader, Writer};
use std::alloc::{AllocError, Global};

/// A load that says nothing.
#[derive(Clone, Copy, Debug)]
struct Blank {}

impl Payload for Blank {
    ghost weighs = { λ y. None };

    ghost spells = { λ y. [] };

    fn weight(&self) -> Option<(bool, u8, u32)> {
        None
    }

    fn save(&self, _out: &mut Writer) -> Result<(), AllocError> {
        Ok(())
    }
}

/// Nothing comes to it with a load, and it never asks for anything.
#[derive(Drop)]
struct Quiet {
    stats: StatSet,
}

impl Element for Quiet {
    type Load = Blank;

    ghost use Rattle.ss_safe.specs.declared.tests.Blank.{Blank};

    ghost kind = { quiet_kind Blank (λ q. q.stats) };

    ghost safe = { Safe (quiet_kind Blank (λ q. q.stats)) all_allowed };

    ghost saving = { quiet_saving };

    ghost laws = { world_of (quiet_kind Blank (λ q. q.stats)) all_allowed (quiet_laws Blank (λ q. q.stats)) };

    ghost saved = { saved_of (quiet_kind Blank (λ q. q.stats)) all_allowed (quiet_laws Blank (λ q. q.stats)) quiet_saving (quiet_saves Blank (λ q. q.stats)) (λ y. None) (λ y. []) (λ y. refl) (λ y. refl) };

    fn handle(
        &mut self,
        _now: u64,
        _cause: &Cause<Blank>,
        _acts: &mut Acts<Blank>,
    ) -> Result<(), AllocError> {
        Ok(())
    }

    fn save(&self, _out: &mut Writer) -> Result<(), AllocError> {
        Ok(())
    }

    fn restore(&mut self, _alloc: Global, _bytes: &mut Reader<'_>) -> Result<(), RestoreFault> {
        Ok(())
    }

    fn read_load(&self, bytes: &mut Reader<'_>) -> Result<Blank, RestoreFault> {
        Err(RestoreFault::Value { at: bytes.at() })
    }

    fn fits(&self, _at: u64) -> bool {
        true
    }

    fn fits_load(&self, _cause: &Cause<Blank>, _at: u64) -> bool {
        false
    }

    fn is_primary(&self) -> bool {
        false
    }

    fn is_done(&self) -> bool {
        true
    }

    fn clock_on(&self, _clock: u16) -> bool {
        false
    }

    fn channels(&self, _port: u16) -> u16 {
        0
    }

    fn flow(&self, _port: u16, _channel: u8) -> Flow
        ensures { result ≡ record { credits = 0; queued = 0; capacity = 0 } }
    {
        Flow {
            credits: 0,
            queued: 0,
            capacity: 0,
        }
    }

    fn stats(&self) -> &StatSet {
        &self.stats
    }
}

impl Local for Quiet {
    ghost use Rattle.ss_safe.specs.declared.tests.Blank.{Blank};

    ghost allowed = { all_allowed };

    ghost local = { quiet_laws Blank (λ q. q.stats) };

    ghost saves = { quiet_saves Blank (λ q. q.stats) };

    ghost tied = { λ w now s. (λ h. h, λ h. h) };
}

#[test]
fn a_quiet_element_has_its_world() {
    local_laws_give_a_world::<Quiet>();
    an_opening_is_safe::<Quiet>();
    a_run_stays_safe::<Quiet>();
    nothing_overflows::<Quiet>();
    what_is_kept_is_safe::<Quiet>();
    what_is_safe_stands::<Quiet>();
    elements_stay_alike::<Quiet>();
    a_sound_state_is_safe::<Quiet>();
    a_run_stays_sound::<Quiet>();
    a_run_can_be_saved::<Quiet>();
}
