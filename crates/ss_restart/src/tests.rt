//! Small checkpoints, read and judged.

ghost use Rattle.std.specs.Prelude.{◌≡◌, [], None, refl, IfOk, length};
ghost use Rattle.ss_safe.specs.Quiet.{quiet_kind, quiet_saving, all_allowed, quiet_laws, quiet_saves};
ghost use Rattle.ss_element.specs.Index.{entries};
ghost use Rattle.ss_safe.specs.Safe.{Safe, Stands};
ghost use Rattle.ss_safe.specs.Worlds.{world_of, saved_of};
ghost use Rattle.ss_restart.specs.declared.tests.Blank.{Blank};

use crate::{RestartFault, sound};
use ss_ckpt::{CkptFault, read, read_head};
use ss_element::{Acts, Cause, Element, Flow, Model, Payload, RestoreFault, Wires};
use ss_safe::Local;
use ss_stats::StatSet;
use ss_wire::{Reader, Writer};
use std::alloc::{AllocError, Global};
use std::test::Fail;

/// A load that says nothing.
#[derive(Clone, Copy, Debug)]
struct Blank {}

impl Payload for Blank {
    ghost weighs = { λ y. None };

    ghost spells = { λ y. [] };

    fn weight(&self) -> Option<(bool, u8, u32)> {
        None
    }

    fn save(&self, _out: &mut Writer) -> Result<(), AllocError> {
        Ok(())
    }
}

/// Nothing comes to it with a load, it never asks for anything, and nothing of it is saved.
#[derive(Drop)]
struct Quiet {
    stats: StatSet,
}

impl Element for Quiet {
    type Load = Blank;

    ghost use Rattle.ss_restart.specs.declared.tests.Blank.{Blank};

    ghost kind = { quiet_kind Blank (λ q. q.stats) };

    ghost safe = { Safe (quiet_kind Blank (λ q. q.stats)) all_allowed };

    ghost saving = { quiet_saving };

    ghost laws = { world_of (quiet_kind Blank (λ q. q.stats)) all_allowed (quiet_laws Blank (λ q. q.stats)) };

    ghost saved = { saved_of (quiet_kind Blank (λ q. q.stats)) all_allowed (quiet_laws Blank (λ q. q.stats)) quiet_saving (quiet_saves Blank (λ q. q.stats)) (λ y. None) (λ y. []) (λ y. refl) (λ y. refl) };

    fn handle(
        &mut self,
        _now: u64,
        _cause: &Cause<Blank>,
        _acts: &mut Acts<Blank>,
    ) -> Result<(), AllocError> {
        Ok(())
    }

    fn save(&self, _out: &mut Writer) -> Result<(), AllocError> {
        Ok(())
    }

    fn restore(&mut self, _alloc: Global, _bytes: &mut Reader<'_>) -> Result<(), RestoreFault> {
        Ok(())
    }

    fn read_load(&self, bytes: &mut Reader<'_>) -> Result<Blank, RestoreFault> {
        Err(RestoreFault::Value { at: bytes.at() })
    }

    fn fits(&self, _at: u64) -> bool {
        true
    }

    fn fits_load(&self, _cause: &Cause<Blank>, _at: u64) -> bool {
        false
    }

    fn is_primary(&self) -> bool {
        false
    }

    fn is_done(&self) -> bool {
        true
    }

    fn clock_on(&self, _clock: u16) -> bool {
        false
    }

    fn channels(&self, _port: u16) -> u16 {
        0
    }

    fn flow(&self, _port: u16, _channel: u8) -> Flow
        ensures { result ≡ record { credits = 0; queued = 0; capacity = 0 } }
    {
        Flow {
            credits: 0,
            queued: 0,
            capacity: 0,
        }
    }

    fn stats(&self) -> &StatSet {
        &self.stats
    }
}

impl Local for Quiet {
    ghost use Rattle.ss_restart.specs.declared.tests.Blank.{Blank};

    ghost allowed = { all_allowed };

    ghost local = { quiet_laws Blank (λ q. q.stats) };

    ghost saves = { quiet_saves Blank (λ q. q.stats) };

    ghost tied = { λ w now s. (λ h. h, λ h. h) };
}

/// A model of one element with a clock, which is off.
fn model_of(alloc: Global) -> Result<Model<Quiet>, AllocError>
    ensures stands { IfOk result (λ m. Stands (quiet_kind Blank (λ q. q.stats)) all_allowed m.wires m.elements.items) }
    ensures few { IfOk result (λ m. length m.elements.items ≡ 1) }
    ensures numbered { IfOk result (λ m. entries m.wires ≡ 1) }
{
    let mut elements = Vec::new(alloc);
    elements.push(Quiet {
        stats: StatSet::new(alloc),
    })?;
    let mut wires = Wires::new(alloc);
    wires.clock(0, 0, 1000)?;
    Ok(Model { elements, wires })
}

/// The bytes of a checkpoint at 5000, the last event at 4000, of the graph text `{}`, with ticks of line 0 at these times.
fn ticks(alloc: Global, times: &[u64]) -> Result<Vec<u8>, AllocError> {
    let mut out = Writer::new(alloc);
    out.bytes(b"SSTCKPT1".as_slice())?;
    out.u64(5000)?;
    out.u64(4000)?;
    out.u32(2)?;
    out.bytes(b"{}".as_slice())?;
    out.u32((times.len() % 100) as u32)?;
    for time in times {
        out.u64(*time)?;
        out.u8(1)?;
        out.u32(0)?;
    }
    Ok(out.finish())
}

/// What is wrong with the state that these bytes spell, if anything is.
fn judged(alloc: Global, bytes: &[u8]) -> Result<Option<RestartFault>, CkptFault> {
    let head = read_head(alloc, bytes)?;
    let model = model_of(alloc)?;
    let saved = read(alloc, bytes, &head, model)?;
    Ok(sound(&saved).err())
}

#[test]
fn small_checkpoints_are_judged(rt: HostRuntime) -> Result<(), Fail> {
    let alloc = rt.alloc();
    let none = ticks(alloc, &[])?;
    assert_eq!(rt; judged(alloc, none.as_slice()), Ok(None));
    let off = ticks(alloc, &[5000])?;
    assert_eq!(rt;
        judged(alloc, off.as_slice()),
        Ok(Some(RestartFault::Time { event: 0 }))
    );
    Ok(())
}
