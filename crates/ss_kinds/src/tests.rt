//! What no clause says: printed texts, and that elements handle what comes where memory is there.

ghost use Rattle.std.specs.Prelude.{◌≡◌, IfOk, OnOk};
ghost use Rattle.ss_stats.specs.Set.{place_of};
ghost use Rattle.ss_kinds.specs.declared.names.StatName.TheVariants.{Roundtrip, Events};
ghost use Rattle.ss_kinds.specs.Names.{stat_text};

use crate::names::{StatName, place_in, stat_name};
use crate::{Echo, Pinger, Ticker};
use mr_flow::Load;
use ss_element::{Action, Acts, Cause, Element, Payload, RestoreFault};
use ss_stats::{Accumulator, Stat, StatSet, csv_rows};
use ss_units::Text;
use ss_wire::{Reader, Writer};
use std::alloc::{AllocError, Global};
use std::test::*;

/// What an action sends, and whether it prints the text.
fn sent(action: Option<&Action<Load>>) -> Option<(u16, u64, u32)> {
    match action {
        Some(
            Action::Send {
                port,
                extra,
                load: Load::Core { n },
            },
        ) => Some((*port, *extra, *n)),
        _ => None,
    }
}

fn prints(action: Option<&Action<Load>>, line: &str) -> bool {
    match action {
        Some(Action::Print { text }) => text.as_str() == line,
        _ => false,
    }
}

fn pinger(alloc: Global, sent: u32, got: u32) -> Result<Pinger, AllocError>
    ensures { IfOk result (λ p. p.roundtrip ≡ place_of p.stats (stat_text Roundtrip)) }
{
    Ok(Pinger {
        name: Text::new(alloc, "ping")?,
        count: 3,
        sent,
        got,
        at: 0,
        stats: StatSet::new(alloc),
        roundtrip: None,
    })
}

#[test]
fn a_pinger_begins(rt: HostRuntime) -> Result<(), Fail> {
    let mut pinger = pinger(rt.alloc(), 0, 0)?;
    let mut acts = Acts::new(rt.alloc());
    pinger.react(7, &Cause::Start, &mut acts)?;
    assert_eq!(rt; sent(acts.get(0)), Some((0, 0, 1)));
    assert_eq!(rt; acts.len(), 1);
    assert_eq!(rt; (pinger.sent, pinger.got, pinger.at), (1, 0, 7));
    Ok(())
}

#[test]
fn a_pinger_goes_on(rt: HostRuntime) -> Result<(), Fail> {
    for (n, now, line, next) in [
        (1, 2000, "ping: pong 1 at 2000 ps\n", Some((0, 0, 2))),
        (2, 4000, "ping: pong 2 at 4000 ps\n", Some((0, 0, 3))),
        (3, 6000, "ping: pong 3 at 6000 ps\n", None),
    ] {
        let mut pinger = pinger(rt.alloc(), n, n - 1)?;
        let mut acts = Acts::new(rt.alloc());
        let load = Load::Core { n };
        pinger.react(now, &Cause::Link { port: 0, load }, &mut acts)?;
        assert!(rt; prints(acts.get(0), line));
        assert_eq!(rt; sent(acts.get(1)), next);
        assert_eq!(rt; pinger.got, n);
    }
    Ok(())
}

/// A set of one accumulator.
fn one_stat(alloc: Global, name: StatName) -> Result<StatSet, AllocError> {
    let mut stats = StatSet::new(alloc);
    stats.push(
        stat_name(name).as_bytes(),
        Stat::Accumulator(Accumulator::new()),
    )?;
    Ok(stats)
}

/// A number comes back to a pinger.
#[tactic(auto, using(ss_tally::specs::Kept::place_kept))]
fn hand_back(pinger: &mut Pinger, n: u32, now: u64, acts: &mut Acts<Load>) -> Result<(), AllocError>
    requires { pinger.old.roundtrip ≡ place_of pinger.old.stats (stat_text Roundtrip) }
    ensures { OnOk result (pinger.new.roundtrip ≡ place_of pinger.new.stats (stat_text Roundtrip)) }
{
    let load = Load::Core { n };
    pinger.react(now, &Cause::Link { port: 0, load }, acts)
}

#[test]
fn a_pinger_times_round_trips(rt: HostRuntime) -> Result<(), Fail> {
    let mut pinger = pinger(rt.alloc(), 1, 0)?;
    pinger.stats = one_stat(rt.alloc(), StatName::Roundtrip)?;
    pinger.roundtrip = place_in(&pinger.stats, StatName::Roundtrip);
    let mut acts = Acts::new(rt.alloc());
    hand_back(&mut pinger, 1, 2000, &mut acts)?;
    hand_back(&mut pinger, 2, 4000, &mut acts)?;
    hand_back(&mut pinger, 3, 6000, &mut acts)?;
    let mut out = Vec::new(rt.alloc());
    csv_rows(b"ping", pinger.stats(), &mut out)?;
    let want =
        "ping,roundtrip,count,3\nping,roundtrip,sum,6000\nping,roundtrip,sumsq,12000000\nping,roundtrip,min,2000\nping,roundtrip,max,2000\n";
    assert_eq!(rt; out.as_slice(), want.as_bytes());
    Ok(())
}

#[test]
fn an_echo_waits(rt: HostRuntime) -> Result<(), Fail> {
    let stats = one_stat(rt.alloc(), StatName::Received)?;
    let received = place_in(&stats, StatName::Received);
    let mut echo = Echo {
        delay: 5,
        stats,
        received,
    };
    let mut acts = Acts::new(rt.alloc());
    let load = Load::Core { n: 9 };
    echo.react(&Cause::Link { port: 0, load }, &mut acts)?;
    let mut out = Vec::new(rt.alloc());
    csv_rows(b"e", echo.stats(), &mut out)?;
    let want =
        "e,received,count,1\ne,received,sum,9\ne,received,sumsq,81\ne,received,min,9\ne,received,max,9\n";
    assert_eq!(rt; out.as_slice(), want.as_bytes());
    assert!(rt;
        matches!(
            acts.get(0),
            Some(Action::SelfSend {
                line: 0,
                delay: 5,
                ..
            })
        )
    );
    acts.clear();
    Ok(())
}

/// A ticker that ticks twice.
fn ticker(alloc: Global, ticks: u32) -> Result<Ticker, AllocError>
    ensures { IfOk result (λ t. t.events ≡ place_of t.stats (stat_text Events)) }
{
    let stats = one_stat(alloc, StatName::Events)?;
    let events = place_in(&stats, StatName::Events);
    Ok(Ticker {
        name: Text::new(alloc, "tick")?,
        count: 2,
        primary: true,
        linked: true,
        begun: ticks > 0,
        ticks,
        stats,
        events,
    })
}

#[test]
fn a_ticker_begins(rt: HostRuntime) -> Result<(), Fail> {
    let mut ticker = ticker(rt.alloc(), 0)?;
    let mut acts = Acts::new(rt.alloc());
    ticker.react(0, &Cause::Start, &mut acts)?;
    assert!(rt; matches!(acts.get(0), Some(Action::ClockOn { clock: 0 })));
    assert_eq!(rt; acts.len(), 1);
    assert!(rt; ticker.clock_on(0));
    assert!(rt; ticker.is_primary());
    assert!(rt; !ticker.is_done());
    Ok(())
}

#[test]
fn a_ticker_ticks(rt: HostRuntime) -> Result<(), Fail> {
    for (ticks, now, line, next, last) in [
        (0, 1000, "tick: tick 1 at 1000 ps\n", 1, false),
        (1, 2000, "tick: tick 2 at 2000 ps\n", 2, true),
    ] {
        let mut ticker = ticker(rt.alloc(), ticks)?;
        let mut acts = Acts::new(rt.alloc());
        ticker.react(now, &Cause::Tick { clock: 0 }, &mut acts)?;
        assert!(rt; prints(acts.get(0), line));
        assert_eq!(rt; sent(acts.get(1)), Some((0, 0, next)));
        assert_eq!(rt;
            matches!(acts.get(2), Some(Action::ClockOff { clock: 0 })),
            last
        );
        assert_eq!(rt; ticker.ticks, next);
    }
    Ok(())
}

#[test]
fn a_ticker_prints_what_comes(rt: HostRuntime) -> Result<(), Fail> {
    for (port, line) in [
        (1, "tick: event 9 on in0 at 5 ps\n"),
        (4, "tick: event 9 on in3 at 5 ps\n"),
        (0, "tick: event 9 on out at 5 ps\n"),
    ] {
        let mut ticker = ticker(rt.alloc(), 1)?;
        let mut acts = Acts::new(rt.alloc());
        let load = Load::Core { n: 9 };
        ticker.react(5, &Cause::Link { port, load }, &mut acts)?;
        assert!(rt; prints(acts.get(0), line));
        assert_eq!(rt; acts.len(), 1);
        let mut out = Vec::new(rt.alloc());
        csv_rows(b"t", &ticker.stats, &mut out)?;
        assert!(rt;
            out.as_slice()
                .starts_with(b"t,events,count,1\nt,events,sum,9\n")
        );
    }
    Ok(())
}

#[test]
fn a_pinger_is_saved(rt: HostRuntime) -> Result<(), Fail> {
    let mut saved = pinger(rt.alloc(), 2, 1)?;
    saved.at = 258;
    let mut out = Writer::new(rt.alloc());
    saved.save(&mut out)?;
    let bytes = out.finish();
    let want = [0, 0, 0, 2, 0, 0, 0, 1, 0, 0, 0, 0, 0, 0, 1, 2];
    assert_eq!(rt; bytes.as_slice(), want.as_slice());
    let mut element = pinger(rt.alloc(), 0, 0)?;
    let mut reader = Reader::new(bytes.as_slice(), 0);
    assert_eq!(rt; element.restore(rt.alloc(), &mut reader), Ok(()));
    assert_eq!(rt; (element.sent, element.got, element.at), (2, 1, 258));
    assert!(rt; element.fits(259));
    assert!(rt; !element.fits(258));
    let mut short = Reader::new(&want[..15], 0);
    assert_eq!(rt;
        element.restore(rt.alloc(), &mut short),
        Err(RestoreFault::Short { at: 8 })
    );
    Ok(())
}

#[test]
fn a_ticker_is_restored(rt: HostRuntime) -> Result<(), Fail> {
    let mut bytes = [0u8; 60];
    bytes[3] = 1;
    bytes[11] = 5;
    let mut element = ticker(rt.alloc(), 0)?;
    let mut reader = Reader::new(&bytes, 0);
    assert_eq!(rt; element.restore(rt.alloc(), &mut reader), Ok(()));
    assert!(rt; element.clock_on(0));
    let mut out = Vec::new(rt.alloc());
    csv_rows(b"t", element.stats(), &mut out)?;
    assert!(rt;
        out.as_slice()
            .starts_with(b"t,events,count,5\nt,events,sum,0\n")
    );
    Ok(())
}

#[test]
fn a_load_is_saved(rt: HostRuntime) -> Result<(), Fail> {
    let load = Load::Core { n: 258 };
    let mut out = Writer::new(rt.alloc());
    load.save(&mut out)?;
    let bytes = out.finish();
    assert_eq!(rt; bytes.as_slice(), [0, 0, 1, 2].as_slice());
    assert_eq!(rt; load.weight(), None);
    let element = pinger(rt.alloc(), 0, 0)?;
    let mut reader = Reader::new(bytes.as_slice(), 0);
    let back = element.read_load(&mut reader);
    assert!(rt; matches!(back, Ok(Load::Core { n: 258 })));
    assert!(rt; element.fits_load(&Cause::Link { port: 0, load }, 1));
    assert_eq!(rt; element.channels(0), 0);
    assert_eq!(rt; element.flow(0, 0).credits, 0);
    Ok(())
}
