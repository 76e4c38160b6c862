//! The parameters of routers and endpoints.

ghost use Rattle.std.specs.Prelude.{◌≡◌, ◌≤◌, ◌∷◌, ◌++◌, [], IfOk, IfSome, codes, string_bytes, Some};
ghost use Rattle.std.specs.Option.{option_copied};
ghost use Rattle.ss_graph.specs.Checks.{Judged, at};
ghost use Rattle.ss_graph.specs.Options.{the, ranged};
ghost use Rattle.ss_network.specs.Faults.{is_memory, param_place};
ghost use Rattle.ss_network.specs.Params.{digits_value, count_value, truth_value, value_of, given, param_text, number, row_check, IsNumber, FitsDefault, topology_named, arb_named, arb_of, the_arb, arb_check, vn_row, hot_row, pattern_named, pattern_of, the_pattern, pattern_check};

use crate::fault::MakeFault;
use crate::place::item_place;
use mr_arb::ArbKind;
use mr_nic::Pattern;
use ss_units::{Text, UnitFault, bits_of, rate_of};
use std::alloc::{AllocError, Global};

/// The name of a parameter.
#[derive(Clone, Copy, Debug, PartialEq, Eq)]
pub enum ParamName {
    Id,
    Topology,
    Shape,
    LocalPorts,
    NumVns,
    FlitSize,
    LinkBw,
    XbarBw,
    InputBufSize,
    OutputBufSize,
    XbarArb,
    NumPeers,
    NumMessages,
    MessageSize,
    Verbose,
    Pattern,
    Packets,
    PacketSize,
    Vn,
    Seed,
    Hot,
}

/// What the text of a parameter writes.
#[derive(Clone, Copy, Debug, PartialEq, Eq)]
pub enum Form {
    /// Decimal digits without a leading 0, or 0, from the least to the most.
    Count { least: u64, most: u64 },
    /// A size, in bits.
    Size,
    /// A rate, in bits per second.
    Rate,
    /// `true`, which is 1, or `false`, which is 0.
    Truth,
}

/// A row of a table of parameters. A parameter with no default is required.
#[derive(Clone, Copy, Debug)]
pub struct ParamRow {
    pub name: ParamName,
    pub form: Form,
    pub default: Option<u64>,
}

/// The name of a topology.
#[derive(Clone, Copy, Debug, PartialEq, Eq)]
pub enum TopologyName {
    Single,
    Mesh,
    Torus,
    FatTree,
}

/// A router's or an endpoint's number.
pub const ID: ParamRow = ParamRow {
    name: ParamName::Id,
    form: Form::Count {
        least: 0,
        most: (1 << 32) - 1,
    },
    default: None,
};

/// How many endpoints a router has.
pub const LOCAL_PORTS: ParamRow = ParamRow {
    name: ParamName::LocalPorts,
    form: Form::Count {
        least: 1,
        most: 255,
    },
    default: Some(1),
};

/// How many virtual networks there are.
pub const NUM_VNS: ParamRow = ParamRow {
    name: ParamName::NumVns,
    form: Form::Count { least: 1, most: 8 },
    default: Some(2),
};

/// How many bits a flit has.
pub const FLIT_SIZE: ParamRow = ParamRow {
    name: ParamName::FlitSize,
    form: Form::Size,
    default: Some(64),
};

/// How many bits a line takes in a second.
pub const LINK_BW: ParamRow = ParamRow {
    name: ParamName::LinkBw,
    form: Form::Rate,
    default: None,
};

/// How many bits a crossbar takes in a second.
pub const XBAR_BW: ParamRow = ParamRow {
    name: ParamName::XbarBw,
    form: Form::Rate,
    default: None,
};

/// How many bits an input queue can hold.
pub const INPUT_BUF: ParamRow = ParamRow {
    name: ParamName::InputBufSize,
    form: Form::Size,
    default: None,
};

/// How many bits an output queue can hold.
pub const OUTPUT_BUF: ParamRow = ParamRow {
    name: ParamName::OutputBufSize,
    form: Form::Size,
    default: None,
};

/// How many endpoints there are.
pub const NUM_PEERS: ParamRow = ParamRow {
    name: ParamName::NumPeers,
    form: Form::Count {
        least: 2,
        most: 4096,
    },
    default: None,
};

/// How many messages an endpoint sends to each other.
pub const NUM_MESSAGES: ParamRow = ParamRow {
    name: ParamName::NumMessages,
    form: Form::Count {
        least: 0,
        most: 1_000_000,
    },
    default: Some(10),
};

/// How many bits a message has.
pub const MESSAGE_SIZE: ParamRow = ParamRow {
    name: ParamName::MessageSize,
    form: Form::Size,
    default: Some(512),
};

/// Whether an endpoint tells that it is done.
pub const VERBOSE: ParamRow = ParamRow {
    name: ParamName::Verbose,
    form: Form::Truth,
    default: Some(0),
};

/// How many packets a generator sends.
pub const PACKETS: ParamRow = ParamRow {
    name: ParamName::Packets,
    form: Form::Count {
        least: 0,
        most: 1_000_000,
    },
    default: Some(10),
};

/// How many bits a packet has.
pub const PACKET_SIZE: ParamRow = ParamRow {
    name: ParamName::PacketSize,
    form: Form::Size,
    default: Some(512),
};

/// The number whose words pick the endpoints of uniform traffic.
pub const SEED: ParamRow = ParamRow {
    name: ParamName::Seed,
    form: Form::Count {
        least: 0,
        most: u64::MAX,
    },
    default: Some(0),
};

/// On which of so many virtual networks a generator sends.
pub fn vn_of(vns: u8) -> ParamRow
    requires { 1 ≤ vns }
    ensures { result ≡ vn_row vns }
{
    ParamRow {
        name: ParamName::Vn,
        form: Form::Count {
            least: 0,
            most: u64::from(vns - 1),
        },
        default: Some(0),
    }
}

/// To which of so many endpoints a hotspot's packets go.
pub fn hot_of(peers: u32) -> ParamRow
    requires { 1 ≤ peers }
    ensures { result ≡ hot_row peers }
{
    ParamRow {
        name: ParamName::Hot,
        form: Form::Count {
            least: 0,
            most: u64::from(peers - 1),
        },
        default: Some(0),
    }
}

pub fn param_name(name: ParamName) -> &'static str
    ensures { result.now ≡ param_text name }
{
    match name {
        ParamName::Id => "id",
        ParamName::Topology => "topology",
        ParamName::Shape => "topology.shape",
        ParamName::LocalPorts => "topology.local_ports",
        ParamName::NumVns => "num_vns",
        ParamName::FlitSize => "flit_size",
        ParamName::LinkBw => "link_bw",
        ParamName::XbarBw => "xbar_bw",
        ParamName::InputBufSize => "input_buf_size",
        ParamName::OutputBufSize => "output_buf_size",
        ParamName::XbarArb => "xbar_arb",
        ParamName::NumPeers => "num_peers",
        ParamName::NumMessages => "num_messages",
        ParamName::MessageSize => "message_size",
        ParamName::Verbose => "verbose",
        ParamName::Pattern => "pattern",
        ParamName::Packets => "packets",
        ParamName::PacketSize => "packet_size",
        ParamName::Vn => "vn",
        ParamName::Seed => "seed",
        ParamName::Hot => "hot",
    }
}

/// The number that digits write, where it is at most `most`.
fn digits_of(text: &[u8], most: u64) -> Option<u64>
    ensures { result ≡ digits_value most 0 text.now }
{
    let mut value = 0u64;
    for byte in text {
        if *byte < 48 || *byte > 57 {
            return None;
        }
        let next = value as u128 * 10 + (*byte - 48) as u128;
        if next > most as u128 {
            return None;
        }
        value = next as u64;
    }
    Some(value)
}

pub fn count_of(text: &[u8], most: u64) -> Option<u64>
    ensures { result ≡ count_value most text.now }
{
    match text {
        [] => None,
        [48, _, ..] => None,
        _ => digits_of(text, most),
    }
}

fn truth_of(text: &str) -> Option<u64>
    ensures { result ≡ truth_value text.now }
{
    match text {
        "true" => Some(1),
        "false" => Some(0),
        _ => None,
    }
}

/// A quantity that is from the least to the most.
fn within(answer: Result<u64, UnitFault>, least: u64, most: u64) -> Option<u64>
    ensures { result ≡ ranged least most answer }
{
    match answer {
        Err(_) => None,
        Ok(n) => if least <= n && n <= most {
            Some(n)
        } else {
            None
        },
    }
}

/// The value of a parameter's text.
fn value_at(form: Form, text: &str) -> Option<u64>
    ensures { result ≡ value_of form text.now }
{
    match form {
        Form::Count { least, most } => match count_of(text.as_bytes(), most) {
            None => None,
            Some(n) => if n >= least { Some(n) } else { None },
        },
        Form::Size => within(bits_of(text.as_bytes()), 1, 1 << 50),
        Form::Rate => within(rate_of(text.as_bytes()), 1, 1_000_000_000_000_000),
        Form::Truth => truth_of(text),
    }
}

/// The text that a parameter is given.
pub fn text_of(params: &[(Text, Text)], name: ParamName) -> Option<&str>
    ensures { option_copied result ≡ given params.now (param_text name) }
{
    for param in params {
        if param.0.as_str() == param_name(name) {
            return Some(param.1.as_str());
        }
    }
    None
}

/// The value of a row.
pub fn number_of(params: &[(Text, Text)], row: ParamRow) -> Option<u64>
    ensures { result ≡ number params.now row }
{
    for param in params {
        if param.0.as_str() == param_name(row.name) {
            return value_at(row.form, param.1.as_str());
        }
    }
    row.default
}

/// The place of a parameter of component `index`.
pub fn place_of(alloc: Global, index: usize, name: ParamName) -> Result<Text, AllocError>
    ensures { IfOk result (λ t. t ≡ param_place index (param_text name)) }
{
    let mut place = item_place(alloc, "components", index)?;
    place.push_str(".params.")?;
    place.push_str(param_name(name))?;
    Ok(Text::from_string(place))
}

/// The value of a parameter of component `index`.
#[tactic(auto, unfolding(ss_graph::specs::Checks::first_fault))]
pub fn number_at(
    alloc: Global,
    params: &[(Text, Text)],
    row: ParamRow,
    index: usize,
) -> Result<u64, MakeFault>
    requires { FitsDefault row }
    ensures judged { Judged is_memory (λ n. n) result (row_check index params.now row ∷ []) (the (number params.now row)) }
    ensures within { IfOk result (IsNumber row.form) }
{
    match number_of(params, row) {
        Some(value) => Ok(value),
        None => Err(MakeFault::Param(place_of(alloc, index, row.name)?)),
    }
}

/// The topology of a name.
pub fn topology_by(text: &str) -> Option<TopologyName>
    ensures { result ≡ topology_named text.now }
{
    match text {
        "merlin.singlerouter" => Some(TopologyName::Single),
        "merlin.mesh" => Some(TopologyName::Mesh),
        "merlin.torus" => Some(TopologyName::Torus),
        "merlin.fattree" => Some(TopologyName::FatTree),
        _ => None,
    }
}

/// The arbiter of a name.
fn arb_by(text: &str) -> Option<ArbKind>
    ensures { result ≡ arb_named text.now }
{
    match text {
        "merlin.xbar_arb_rr" => Some(ArbKind::RoundRobin),
        "merlin.xbar_arb_lru" => Some(ArbKind::LeastRecent),
        "merlin.xbar_arb_age" => Some(ArbKind::Age),
        _ => None,
    }
}

fn arb_in(params: &[(Text, Text)]) -> Option<ArbKind>
    ensures { result ≡ arb_of params.now }
{
    match text_of(params, ParamName::XbarArb) {
        None => Some(ArbKind::RoundRobin),
        Some(text) => arb_by(text),
    }
}

/// The arbiter of component `index`.
#[tactic(auto, unfolding(ss_graph::specs::Checks::first_fault))]
pub fn arb_at(alloc: Global, params: &[(Text, Text)], index: usize) -> Result<ArbKind, MakeFault>
    ensures { Judged is_memory (λ a. a) result (arb_check index params.now ∷ []) (the_arb params.now) }
{
    match arb_in(params) {
        Some(arb) => Ok(arb),
        None => Err(MakeFault::Param(place_of(alloc, index, ParamName::XbarArb)?)),
    }
}

/// The pattern of a name.
fn pattern_by(text: &str) -> Option<Pattern>
    ensures { result ≡ pattern_named text.now }
{
    match text {
        "uniform" => Some(Pattern::Uniform),
        "complement" => Some(Pattern::Complement),
        "transpose" => Some(Pattern::Transpose),
        "hotspot" => Some(Pattern::Hotspot),
        "tornado" => Some(Pattern::Tornado),
        _ => None,
    }
}

fn pattern_in(params: &[(Text, Text)]) -> Option<Pattern>
    ensures { result ≡ pattern_of params.now }
{
    match text_of(params, ParamName::Pattern) {
        None => None,
        Some(text) => pattern_by(text),
    }
}

/// The pattern of component `index`.
#[tactic(auto, unfolding(ss_graph::specs::Checks::first_fault))]
pub fn pattern_at(
    alloc: Global,
    params: &[(Text, Text)],
    index: usize,
) -> Result<Pattern, MakeFault>
    ensures { Judged is_memory (λ p. p) result (pattern_check index params.now ∷ []) (the_pattern params.now) }
{
    match pattern_in(params) {
        Some(pattern) => Ok(pattern),
        None => Err(MakeFault::Param(place_of(alloc, index, ParamName::Pattern)?)),
    }
}
