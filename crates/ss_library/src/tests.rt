//! What no clause says: printed texts, and that graphs are made and refused where memory is there.

ghost use Rattle.std.specs.Prelude.{◌≡◌, ◌≤◌, ◌∷◌, [], IfOk, length};
ghost use Rattle.std.specs.List.{All, IsDistinct};
ghost use Rattle.ss_graph.specs.Links.{same_end};
ghost use Rattle.ss_graph.specs.Fit.{IsFit, IsSoundLink, ends_of};

use crate::{Any, Housed, Load, MakeFault, make};
use mr_link::NicSettings;
use mr_nic::TestNic;
use ss_element::{Action, Acts, Cause, Element, Model, RestoreFault};
use ss_graph::{Graph, Join, Options, Part, PortEnd, StatAsk, read};
use ss_kinds::Pinger;
use ss_stats::StatSet;
use ss_units::{Items, Text};
use ss_wire::{Reader, Writer};
use std::alloc::{AllocError, Global};
use std::test::*;

const GRAPH: &str =
    "{\"components\":[{\"name\":\"ping\",\"type\":\"core.pinger\",\"params\":{\"count\":3}},{\"name\":\"echo\",\"type\":\"core.echo\",\"params\":{}}],\"links\":[{\"name\":\"wire\",\"left\":{\"component\":\"ping\",\"port\":\"port\",\"latency\":\"1ns\"},\"right\":{\"component\":\"echo\",\"port\":\"port\",\"latency\":\"2ns\"}}]}";

fn crosses<T: Send + Sync + Drop>(_value: T) {}

#[test]
fn an_element_is_saved_as_its_kind(rt: HostRuntime) -> Result<(), Fail> {
    let bytes = [0, 0, 0, 2, 0, 0, 0, 1, 0, 0, 0, 0, 0, 0, 1, 2];
    let mut element = Any::Pinger(Pinger {
        name: Text::new(rt.alloc(), "ping")?,
        count: 3,
        sent: 0,
        got: 0,
        at: 0,
        stats: StatSet::new(rt.alloc()),
        roundtrip: None,
    });
    let mut reader = Reader::new(&bytes, 0);
    assert_eq!(rt; element.restore(rt.alloc(), &mut reader), Ok(()));
    assert!(rt; matches!(&element, Any::Pinger(p) if p.sent == 2 && p.got == 1 && p.at == 258));
    assert!(rt; element.fits(259));
    assert!(rt; !element.fits(258));
    let mut out = Writer::new(rt.alloc());
    element.save(&mut out)?;
    assert_eq!(rt; out.finish().as_slice(), bytes.as_slice());
    let mut short = Reader::new(&bytes[..15], 0);
    assert_eq!(rt;
        element.restore(rt.alloc(), &mut short),
        Err(RestoreFault::Short { at: 8 })
    );
    let load = element.read_load(&mut Reader::new(&bytes[12..], 0));
    assert!(rt; matches!(load, Ok(Load::Core { n: 258 })));
    let load = Load::Core { n: 258 };
    assert!(rt; element.fits_load(&Cause::Link { port: 0, load }, 1));
    assert_eq!(rt; element.channels(0), 0);
    Ok(())
}

#[test]
fn an_endpoint_begins(rt: HostRuntime) -> Result<(), Fail> {
    let set = NicSettings {
        name: Text::new(rt.alloc(), "n0")?,
        id: 0,
        peers: 2,
        vns: 1,
        flit_time: 1000,
        input_flits: 8,
        output_flits: 8,
        credits: 8,
        least: 8,
    };
    let nic = TestNic::new(rt.alloc(), set, 1, 4, true, StatSet::new(rt.alloc()))?;
    let mut element = Any::TestNic(Housed::new(rt.alloc(), nic)?);
    assert!(rt; element.is_primary() && !element.is_done() && element.fits(1));
    assert_eq!(rt; (element.channels(0), element.channels(1)), (1, 0));
    let load = Load::Core { n: 1 };
    assert!(rt; !element.fits_load(&Cause::Link { port: 0, load }, 1));
    let mut acts = Acts::new(rt.alloc());
    element.handle(0, &Cause::Start, &mut acts)?;
    assert!(rt; matches!(acts.get(0), Some(Action::ClockOn { clock: 0 })));
    assert!(rt; element.clock_on(0));
    Ok(())
}

#[test]
fn a_graph_is_made(rt: HostRuntime) -> Result<(), Fail> {
    let graph = read(rt.alloc(), GRAPH.as_bytes()).ok().ok_or("a graph")?;
    let model = make(rt.alloc(), &graph).ok().ok_or("a model")?;
    assert_eq!(rt; model.elements.len(), 2);
    assert!(rt;
        matches!(model.elements.get(0), Some(Any::Pinger(p)) if p.count == 3 && p.name.as_str() == "ping")
    );
    assert!(rt; matches!(model.elements.get(1), Some(Any::Echo(e)) if e.delay == 0));
    assert_eq!(rt; model.wires.counts(), (2, 1, 0));
    assert_eq!(rt; model.wires.line_from(0, 0), Some((0, 1000)));
    assert_eq!(rt; model.wires.line_from(1, 0), Some((1, 2000)));
    assert_eq!(rt; model.wires.own_from(1, 0), Some(2));
    crosses(model);
    Ok(())
}

/// A component with one parameter.
fn part(alloc: Global, kind: &str, name: &str, value: &str) -> Result<Part, AllocError>
    ensures { IfOk result (λ p. (p.input_latency ≡ 0) × (p.output_latency ≡ 0)) }
{
    let mut params = Vec::new(alloc);
    params.push((Text::new(alloc, name)?, Text::new(alloc, value)?))?;
    Ok(Part {
        name: Text::new(alloc, "a")?,
        kind: Text::new(alloc, kind)?,
        params: Items::from_vec(params),
        stats: Items::from_vec(Vec::new(alloc)),
        thread: None,
        input_latency: 0,
        output_latency: 0,
    })
}

/// A graph of one component and these links.
fn graph(alloc: Global, part: Part, links: Vec<Join>) -> Result<Graph, AllocError>
    requires few { length links.items ≤ 1 }
    requires ends { IsDistinct same_end (ends_of links.items) }
    requires sound { All (λ j. IsSoundLink (part ∷ []) j) links.items }
    ensures { IfOk result (λ g. IsFit g) }
{
    let mut components = Vec::new(alloc);
    components.push(part)?;
    Ok(Graph {
        text: Items::from_vec(Vec::new(alloc)),
        components: Items::from_vec(components),
        links: Items::from_vec(links),
        options: Options {
            stop_at: 1 << 62,
            exit_period: 1_000_000,
        },
    })
}

/// A graph of one component whose parameter has this text.
fn lone(alloc: Global, kind: &str, name: &str, value: &str) -> Result<Graph, AllocError>
    ensures { IfOk result (λ g. IsFit g) }
{
    graph(alloc, part(alloc, kind, name, value)?, Vec::new(alloc))
}

/// A graph of one pinger whose port is joined to one that it hasn't.
fn astray(alloc: Global) -> Result<Graph, AllocError>
    ensures { IfOk result (λ g. IsFit g) }
{
    let mut links = Vec::new(alloc);
    links.push(Join {
        name: Text::new(alloc, "wire")?,
        left: PortEnd {
            component: 0,
            port: Text::new(alloc, "port")?,
            latency: 1,
        },
        right: PortEnd {
            component: 0,
            port: Text::new(alloc, "prot")?,
            latency: 1,
        },
    })?;
    graph(alloc, part(alloc, "core.pinger", "count", "1")?, links)
}

/// A graph of one ticker whose port `out` is joined to its port `in1`.
fn looped(alloc: Global) -> Result<Graph, AllocError>
    ensures { IfOk result (λ g. IsFit g) }
{
    let mut links = Vec::new(alloc);
    links.push(Join {
        name: Text::new(alloc, "wire")?,
        left: PortEnd {
            component: 0,
            port: Text::new(alloc, "out")?,
            latency: 1,
        },
        right: PortEnd {
            component: 0,
            port: Text::new(alloc, "in1")?,
            latency: 1,
        },
    })?;
    graph(alloc, part(alloc, "core.ticker", "clock", "1us")?, links)
}

/// What is to be said of a ticker that was made.
fn told(element: Option<&Any>) -> Option<(u32, bool, bool)> {
    match element {
        Some(Any::Ticker(t)) => Some((t.count, t.primary, t.linked)),
        _ => None,
    }
}

#[test]
fn tickers_are_made(rt: HostRuntime) -> Result<(), Fail> {
    let graph = looped(rt.alloc())?;
    let model = make(rt.alloc(), &graph).ok().ok_or("a model")?;
    assert_eq!(rt; told(model.elements.get(0)), Some((1, true, true)));
    assert_eq!(rt; model.wires.clock_of(0, 0), Some((2, 1_000_000)));
    let graph = lone(rt.alloc(), "core.ticker", "primary", "false")?;
    let model = make(rt.alloc(), &graph).ok().ok_or("a model")?;
    assert_eq!(rt; told(model.elements.get(0)), Some((1, false, false)));
    assert_eq!(rt; model.wires.clock_of(0, 0), Some((0, 1000)));
    Ok(())
}

fn fault_of(answer: Result<Model<Any>, MakeFault>) -> (&'static str, Option<Text>) {
    match answer {
        Ok(_) => ("made", None),
        Err(MakeFault::UnknownType(place)) => ("UnknownType", Some(place)),
        Err(MakeFault::UnknownPort(place)) => ("UnknownPort", Some(place)),
        Err(MakeFault::Param(place)) => ("Param", Some(place)),
        Err(MakeFault::Protocol(place)) => ("Protocol", Some(place)),
        Err(MakeFault::PortUnlinked(place)) => ("PortUnlinked", Some(place)),
        Err(MakeFault::Miswired(place)) => ("Miswired", Some(place)),
        Err(MakeFault::Limit(_, _)) => ("Limit", None),
        Err(MakeFault::NoMemory) => ("NoMemory", None),
    }
}

/// A graph of one component that asks for these statistics, which are histograms where they have bins.
fn asking(
    alloc: Global,
    kind: &str,
    names: &[&str],
    bounds: (u64, u64, u32),
) -> Result<Graph, AllocError>
    ensures { IfOk result (λ g. IsFit g) }
{
    let mut asks = Vec::new(alloc);
    for name in names {
        asks.push(StatAsk {
            name: Text::new(alloc, name)?,
            histogram: bounds != (0, 0, 0),
            least: bounds.0,
            width: bounds.1,
            bins: bounds.2,
        })?;
    }
    let mut part = part(alloc, kind, "count", "1")?;
    part.stats = Items::from_vec(asks);
    graph(alloc, part, Vec::new(alloc))
}

#[test]
fn statistics_that_are_asked_for(rt: HostRuntime) -> Result<(), Fail> {
    let none = (0, 0, 0);
    let widest = (0, 1 << 47, 65536);
    for (kind, names, bounds, place) in [
        (
            "core.pinger",
            ["roundtrip"].as_slice(),
            none,
            "components[0].port",
        ),
        (
            "core.pinger",
            ["received"].as_slice(),
            none,
            "components[0].statistics[0]",
        ),
        (
            "core.pinger",
            ["roundtrip", "roundtrip"].as_slice(),
            none,
            "components[0].statistics[1]",
        ),
        (
            "core.echo",
            ["received", "events"].as_slice(),
            none,
            "components[0].statistics[1]",
        ),
        (
            "core.echo",
            ["received"].as_slice(),
            widest,
            "components[0].port",
        ),
        (
            "core.echo",
            ["received"].as_slice(),
            (1, 1 << 47, 65536),
            "components[0].statistics[0]",
        ),
        (
            "core.echo",
            ["received"].as_slice(),
            (0, 1, 65537),
            "components[0].statistics[0]",
        ),
        (
            "core.echo",
            ["received"].as_slice(),
            (0, 0, 1),
            "components[0].statistics[0]",
        ),
        (
            "core.ticker",
            ["events"].as_slice(),
            (0, 1, 0),
            "components[0].statistics[0]",
        ),
    ] {
        let graph = asking(rt.alloc(), kind, names, bounds)?;
        let (_, at) = fault_of(make(rt.alloc(), &graph));
        assert!(rt; matches!(&at, Some(text) if text.as_str() == place));
    }
    let graph = asking(rt.alloc(), "core.ticker", &["events"], none)?;
    let model = make(rt.alloc(), &graph).ok().ok_or("a model")?;
    assert!(rt; matches!(model.elements.get(0), Some(element) if element.stats().len() == 1));
    Ok(())
}

#[test]
fn refusals(rt: HostRuntime) -> Result<(), Fail> {
    for (kind, name, value, fault, place) in [
        (
            "core.ping",
            "count",
            "1",
            "UnknownType",
            "components[0].type",
        ),
        (
            "core.pinger",
            "count",
            "01",
            "Param",
            "components[0].params.count",
        ),
        (
            "core.pinger",
            "count",
            "",
            "Param",
            "components[0].params.count",
        ),
        (
            "core.pinger",
            "count",
            "4294967296",
            "Param",
            "components[0].params.count",
        ),
        (
            "core.pinger",
            "count",
            "4294967295",
            "PortUnlinked",
            "components[0].port",
        ),
        (
            "core.pinger",
            "other",
            "x",
            "PortUnlinked",
            "components[0].port",
        ),
        (
            "core.echo",
            "delay",
            "0",
            "Param",
            "components[0].params.delay",
        ),
        (
            "core.echo",
            "delay",
            "2s",
            "Param",
            "components[0].params.delay",
        ),
        (
            "core.ticker",
            "clock",
            "0ps",
            "Param",
            "components[0].params.clock",
        ),
        (
            "core.ticker",
            "count",
            "-1",
            "Param",
            "components[0].params.count",
        ),
        (
            "core.ticker",
            "primary",
            "yes",
            "Param",
            "components[0].params.primary",
        ),
        (
            "core.echo",
            "delay",
            "1s",
            "PortUnlinked",
            "components[0].port",
        ),
    ] {
        let graph = lone(rt.alloc(), kind, name, value)?;
        let (found, at) = fault_of(make(rt.alloc(), &graph));
        assert_eq!(rt; found, fault);
        assert!(rt; matches!(&at, Some(text) if text.as_str() == place));
    }
    let graph = astray(rt.alloc())?;
    let (found, at) = fault_of(make(rt.alloc(), &graph));
    assert_eq!(rt; found, "UnknownPort");
    assert!(rt; matches!(&at, Some(text) if text.as_str() == "links[0].right.port"));
    Ok(())
}
