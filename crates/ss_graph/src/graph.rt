//! What a graph is.

use ss_units::{Items, Text};

/// How a graph is run: the stop time and the period at whose multiples a run may end, in picoseconds.
#[derive(Clone, Copy, Debug)]
pub struct Options {
    pub stop_at: u64,
    pub exit_period: u64,
}

/// A statistic that is asked of a component: an accumulator, or a histogram with its least value, the width
/// of a bin and the number of its bins. An accumulator's three numbers are 0.
#[derive(Drop)]
pub struct StatAsk {
    pub name: Text,
    pub histogram: bool,
    pub least: u64,
    pub width: u64,
    pub bins: u32,
}

/// A component: its name, the name of its kind, its parameters in byte order of their names, the statistics
/// that are asked of it, the thread that it names for itself, and what it adds to the latency of each line
/// that it receives from and sends to, in picoseconds.
#[derive(Drop)]
pub struct Part {
    pub name: Text,
    pub kind: Text,
    pub params: Items<(Text, Text)>,
    pub stats: Items<StatAsk>,
    pub thread: Option<u32>,
    pub input_latency: u64,
    pub output_latency: u64,
}

/// One end of a link: the component's number, the name of its port, and the end's latency in picoseconds.
#[derive(Drop)]
pub struct PortEnd {
    pub component: u32,
    pub port: Text,
    pub latency: u64,
}

/// A link between two ports.
#[derive(Drop)]
pub struct Join {
    pub name: Text,
    pub left: PortEnd,
    pub right: PortEnd,
}

/// A graph: the bytes that it was read from, its components and links in the order of the text, and its options.
#[derive(Drop)]
pub struct Graph {
    pub text: Items<u8>,
    pub components: Items<Part>,
    pub links: Items<Join>,
    pub options: Options,
}
