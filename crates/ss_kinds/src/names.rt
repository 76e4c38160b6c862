//! The names of the core kinds' statistics and ports.

ghost use Rattle.std.specs.Prelude.{◌≡◌};
ghost use Rattle.ss_stats.specs.Set.{place_of};
ghost use Rattle.ss_kinds.specs.Names.{stat_text, port_text, ticker_ports};

use ss_stats::StatSet;

/// The name of a statistic.
#[derive(Clone, Copy, Debug, PartialEq, Eq)]
pub enum StatName {
    Roundtrip,
    Received,
    Events,
}

/// The name of a port.
#[derive(Clone, Copy, Debug, PartialEq, Eq)]
pub enum PortName {
    Port,
    Out,
    In0,
    In1,
    In2,
    In3,
}

static TICKER_PORTS: [PortName; 5] = [
    PortName::Out,
    PortName::In0,
    PortName::In1,
    PortName::In2,
    PortName::In3,
];

pub fn stat_name(name: StatName) -> &'static str
    ensures { result.now ≡ stat_text name }
{
    match name {
        StatName::Roundtrip => "roundtrip",
        StatName::Received => "received",
        StatName::Events => "events",
    }
}

/// The place of a statistic in a set.
pub fn place_in(stats: &StatSet, name: StatName) -> Option<usize>
    ensures { result ≡ place_of stats.now (stat_text name) }
{
    stats.find(stat_name(name).as_bytes())
}

pub fn port_name(name: PortName) -> &'static str
    ensures { result.now ≡ port_text name }
{
    match name {
        PortName::Port => "port",
        PortName::Out => "out",
        PortName::In0 => "in0",
        PortName::In1 => "in1",
        PortName::In2 => "in2",
        PortName::In3 => "in3",
    }
}

/// The ports of a ticker, each with its number as the place.
pub(crate) fn ticker_ports() -> &'static [PortName]
    ensures { result.now ≡ ticker_ports }
{
    &TICKER_PORTS
}
