//! The kinds' names, and the tables of their parameters, statistics and ports.

ghost use Rattle.std.specs.Prelude.{◌≡◌, ◌∷◌, [], codes, ◌<◌, ◌≤◌, ◌^◌, slice_get, length, IfSome};
ghost use Rattle.ss_library.specs.Tables.{kind_named, param_text, count_row, delay_row, clock_row, primary_row, nic_stats, stats_table, is_among, ports_table, port_by};

use ss_kinds::{PortName, StatName, port_name, stat_name};

/// The name of a kind.
#[derive(Clone, Copy, Debug, PartialEq, Eq)]
pub enum KindName {
    Pinger,
    Echo,
    Ticker,
    Router,
    TestNic,
    TrafficGen,
}

/// The name of a parameter.
#[derive(Clone, Copy, Debug, PartialEq, Eq)]
pub enum ParamName {
    Count,
    Delay,
    Clock,
    Primary,
}

/// What the text of a parameter writes: a number, from the least to the most where there are such.
#[derive(Clone, Copy, Debug, PartialEq, Eq)]
pub enum Form {
    /// Decimal digits without a leading 0, or 0.
    Count { least: u64, most: u64 },
    /// A time, in picoseconds.
    Time { least: u64, most: u64 },
    /// A time, or a frequency that stands for the time between two of its beats, in picoseconds.
    Period { least: u64, most: u64 },
    /// `true`, which is 1, or `false`, which is 0.
    Truth,
}

/// A row of a kind's table of parameters. A parameter with no default is required.
#[derive(Clone, Copy, Debug)]
pub struct ParamRow {
    pub name: ParamName,
    pub form: Form,
    pub default: Option<u64>,
}

/// A row of a kind's table of ports. A port that is required must be linked.
#[derive(Clone, Copy, Debug)]
pub struct PortRow {
    pub name: PortName,
    pub required: bool,
}

/// How many numbers a pinger sends, and how often a ticker ticks.
pub const COUNT: ParamRow = ParamRow {
    name: ParamName::Count,
    form: Form::Count {
        least: 0,
        most: (1 << 32) - 1,
    },
    default: Some(1),
};

/// How long an echo waits.
pub const DELAY: ParamRow = ParamRow {
    name: ParamName::Delay,
    form: Form::Time {
        least: 0,
        most: 1 << 40,
    },
    default: Some(0),
};

/// How long it is from tick to tick.
pub const CLOCK: ParamRow = ParamRow {
    name: ParamName::Clock,
    form: Form::Period {
        least: 1,
        most: 1 << 40,
    },
    default: Some(1000),
};

/// Whether a ticker keeps the simulation going.
pub const PRIMARY: ParamRow = ParamRow {
    name: ParamName::Primary,
    form: Form::Truth,
    default: Some(1),
};

static NO_PORTS: [PortRow; 0] = [];

static ONE_PORT: [PortRow; 1] = [PortRow {
    name: PortName::Port,
    required: true,
}];

static TICKER_PORTS: [PortRow; 5] = [
    PortRow {
        name: PortName::Out,
        required: false,
    },
    PortRow {
        name: PortName::In0,
        required: false,
    },
    PortRow {
        name: PortName::In1,
        required: false,
    },
    PortRow {
        name: PortName::In2,
        required: false,
    },
    PortRow {
        name: PortName::In3,
        required: false,
    },
];

/// The kind of a name.
pub fn kind_of(text: &str) -> Option<KindName>
    ensures { result ≡ kind_named text.now }
{
    match text {
        "core.pinger" => Some(KindName::Pinger),
        "core.echo" => Some(KindName::Echo),
        "core.ticker" => Some(KindName::Ticker),
        "merlin.hr_router" => Some(KindName::Router),
        "merlin.test_nic" => Some(KindName::TestNic),
        "merlin.trafficgen" => Some(KindName::TrafficGen),
        _ => None,
    }
}

pub fn param_name(name: ParamName) -> &'static str
    ensures { result.now ≡ param_text name }
{
    match name {
        ParamName::Count => "count",
        ParamName::Delay => "delay",
        ParamName::Clock => "clock",
        ParamName::Primary => "primary",
    }
}

/// Whether a kind has a statistic of this name.
pub fn has_stat(kind: KindName, name: &str) -> bool
    ensures { result ≡ is_among (stats_table kind) name.now }
{
    match kind {
        KindName::Pinger => stat_name(StatName::Roundtrip) == name,
        KindName::Echo => stat_name(StatName::Received) == name,
        KindName::Ticker => stat_name(StatName::Events) == name,
        KindName::Router => name == "sent",
        KindName::TestNic | KindName::TrafficGen => is_nic_stat(name),
    }
}

fn is_late_stat(name: &str) -> bool
    ensures { result ≡ is_among (codes "latency" ∷ codes "out_of_order" ∷ []) name.now }
{
    "latency" == name || "out_of_order" == name
}

fn is_nic_stat(name: &str) -> bool
    ensures { result ≡ is_among nic_stats name.now }
{
    "sent" == name || "received" == name || is_late_stat(name)
}

/// The ports of a core kind, each with its number as the place in the table.
pub fn ports_of(kind: KindName) -> &'static [PortRow]
    ensures rows { result.now ≡ ports_table kind }
    ensures few { length result.now ≤ 256 }
{
    match kind {
        KindName::Pinger | KindName::Echo => &ONE_PORT,
        KindName::Ticker => &TICKER_PORTS,
        KindName::Router | KindName::TestNic | KindName::TrafficGen => &NO_PORTS,
    }
}

/// The number of a kind's port.
pub fn port_of(kind: KindName, text: &str) -> Option<u16>
    ensures { result ≡ port_by kind text.now }
{
    for (number, row) in ports_of(kind).iter().enumerate() {
        if port_name(row.name) == text {
            return Some(number as u16);
        }
    }
    None
}
