//! Heads and bodies of small checkpoints, whole and with faults.

ghost use Rattle.std.specs.Prelude.{◌≡◌, [], None, refl};
ghost use Rattle.ss_safe.specs.Quiet.{quiet_kind, quiet_saving, all_allowed, quiet_laws, quiet_saves};
ghost use Rattle.ss_safe.specs.Safe.{Safe};
ghost use Rattle.ss_safe.specs.Worlds.{world_of, saved_of};

use crate::{CkptFault, Saved, a_checkpoint_has_one_spelling, read, read_head};
use ss_element::{Acts, Cause, Element, Flow, Model, Payload, RestoreFault, Wires};
use ss_stats::StatSet;
use ss_wire::{Reader, Writer};
use std::alloc::{AllocError, Global};
use std::test::Fail;

/// A load that says nothing.
#[derive(Clone, Copy, Debug)]
struct Blank {}

impl Payload for Blank {
    ghost weighs = { λ y. None };

    ghost spells = { λ y. [] };

    fn weight(&self) -> Option<(bool, u8, u32)> {
        None
    }

    fn save(&self, _out: &mut Writer) -> Result<(), AllocError> {
        Ok(())
    }
}

/// Nothing comes to it with a load, it never asks for anything, and nothing of it is saved.
#[derive(Drop)]
struct Quiet {
    stats: StatSet,
}

impl Element for Quiet {
    type Load = Blank;

    ghost use Rattle.ss_ckpt.specs.declared.tests.Blank.{Blank};

    ghost kind = { quiet_kind Blank (λ q. q.stats) };

    ghost safe = { Safe (quiet_kind Blank (λ q. q.stats)) all_allowed };

    ghost saving = { quiet_saving };

    ghost laws = { world_of (quiet_kind Blank (λ q. q.stats)) all_allowed (quiet_laws Blank (λ q. q.stats)) };

    ghost saved = { saved_of (quiet_kind Blank (λ q. q.stats)) all_allowed (quiet_laws Blank (λ q. q.stats)) quiet_saving (quiet_saves Blank (λ q. q.stats)) (λ y. None) (λ y. []) (λ y. refl) (λ y. refl) };

    fn handle(
        &mut self,
        _now: u64,
        _cause: &Cause<Blank>,
        _acts: &mut Acts<Blank>,
    ) -> Result<(), AllocError> {
        Ok(())
    }

    fn save(&self, _out: &mut Writer) -> Result<(), AllocError> {
        Ok(())
    }

    fn restore(&mut self, _alloc: Global, _bytes: &mut Reader<'_>) -> Result<(), RestoreFault> {
        Ok(())
    }

    fn read_load(&self, bytes: &mut Reader<'_>) -> Result<Blank, RestoreFault> {
        Err(RestoreFault::Value { at: bytes.at() })
    }

    fn fits(&self, _at: u64) -> bool {
        true
    }

    fn fits_load(&self, _cause: &Cause<Blank>, _at: u64) -> bool {
        false
    }

    fn is_primary(&self) -> bool {
        false
    }

    fn is_done(&self) -> bool {
        true
    }

    fn clock_on(&self, _clock: u16) -> bool {
        false
    }

    fn channels(&self, _port: u16) -> u16 {
        0
    }

    fn flow(&self, _port: u16, _channel: u8) -> Flow
        ensures { result ≡ record { credits = 0; queued = 0; capacity = 0 } }
    {
        Flow {
            credits: 0,
            queued: 0,
            capacity: 0,
        }
    }

    fn stats(&self) -> &StatSet {
        &self.stats
    }
}

/// The bytes of a head with the graph text `{}`.
fn head_bytes(alloc: Global, time: u64, last: u64) -> Result<Writer, AllocError> {
    let mut out = Writer::new(alloc);
    out.bytes(b"SSTCKPT1".as_slice())?;
    out.u64(time)?;
    out.u64(last)?;
    out.u32(2)?;
    out.bytes(b"{}".as_slice())?;
    Ok(out)
}

/// The first field of those that begin at 0, 8, 16, 24 and 28 that `n` bytes don't hold.
fn short_at(n: usize) -> u64 {
    if n < 8 {
        0
    } else if n < 16 {
        8
    } else if n < 24 {
        16
    } else if n < 28 {
        24
    } else {
        28
    }
}

/// What a head answers, with nothing of the text.
fn times(alloc: Global, bytes: &[u8]) -> Result<(u64, u64, u64), CkptFault> {
    let head = read_head(alloc, bytes)?;
    Ok((head.time, head.last, head.body))
}

#[test]
fn heads(rt: HostRuntime) -> Result<(), Fail> {
    let bytes = head_bytes(rt.alloc(), 5000, 4000)?.finish();
    assert_eq!(rt; times(rt.alloc(), bytes.as_slice()), Ok((5000, 4000, 30)));
    for n in 0..bytes.len() {
        assert_eq!(rt;
            times(rt.alloc(), &bytes[..n]),
            Err(CkptFault::Short { at: short_at(n) })
        );
    }
    let never = head_bytes(rt.alloc(), 0, 0)?.finish();
    assert_eq!(rt;
        times(rt.alloc(), never.as_slice()),
        Err(CkptFault::Value { at: 8 })
    );
    let late = head_bytes(rt.alloc(), 5000, 5000)?.finish();
    assert_eq!(rt;
        times(rt.alloc(), late.as_slice()),
        Err(CkptFault::Value { at: 16 })
    );
    assert_eq!(rt;
        times(rt.alloc(), b"SSTCKPT9".as_slice()),
        Err(CkptFault::Form)
    );
    assert_eq!(rt;
        times(rt.alloc(), b"SSTS".as_slice()),
        Err(CkptFault::Magic)
    );
    Ok(())
}

/// A model of one element with a clock.
fn model_of(alloc: Global) -> Result<Model<Quiet>, AllocError> {
    let mut elements = Vec::new(alloc);
    elements.push(Quiet {
        stats: StatSet::new(alloc),
    })?;
    let mut wires = Wires::new(alloc);
    wires.clock(0, 0, 1000)?;
    Ok(Model { elements, wires })
}

/// The bytes of a checkpoint with ticks at two times, and more bytes.
fn ticks(alloc: Global, first: u64, second: u64, more: &[u8]) -> Result<Vec<u8>, AllocError> {
    let mut out = head_bytes(alloc, 5000, 4000)?;
    out.u32(2)?;
    for time in [first, second] {
        out.u64(time)?;
        out.u8(1)?;
        out.u32(0)?;
    }
    out.bytes(more)?;
    Ok(out.finish())
}

/// What these bytes spell.
fn spelled(alloc: Global, bytes: &[u8]) -> Result<Saved<Quiet>, CkptFault> {
    let head = read_head(alloc, bytes)?;
    let model = model_of(alloc)?;
    read(alloc, bytes, &head, model)
}

/// The number of elements and events, and the time of the last handled event.
fn sizes(alloc: Global, bytes: &[u8]) -> Result<(usize, usize, u64), CkptFault> {
    let saved = spelled(alloc, bytes)?;
    Ok((saved.model.elements.len(), saved.events.len(), saved.last))
}

#[test]
fn bodies(rt: HostRuntime) -> Result<(), Fail> {
    let alloc = rt.alloc();
    let good = ticks(alloc, 6000, 7000, b"".as_slice())?;
    assert_eq!(rt; sizes(alloc, good.as_slice()), Ok((1, 2, 4000)));
    let long = ticks(alloc, 6000, 7000, b"x".as_slice())?;
    assert_eq!(rt;
        sizes(alloc, long.as_slice()),
        Err(CkptFault::Trailing { at: 60 })
    );
    let back = ticks(alloc, 7000, 6000, b"".as_slice())?;
    assert_eq!(rt;
        sizes(alloc, back.as_slice()),
        Err(CkptFault::Order { at: 47 })
    );
    a_checkpoint_has_one_spelling::<Quiet>();
    Ok(())
}
