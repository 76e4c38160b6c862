//! What a discrete event simulation is made of: keys, events, causes, actions and lines. The definitions
//! over them stand in `specs/`: the ordered list of pending events, one step, many steps, and the end.
#![tactic(auto)]

ghost use Rattle.std.specs.Prelude.{◌≡◌};
ghost use Rattle.ss_model.specs.End.{OneRun};

use ss_units::Text;

/// The class of a component's start event. The key's line is the component's number.
pub const START: u8 = 0;

/// The class of a clock's tick. The key's line is the clock's number.
pub const TICK: u8 = 1;

/// The class of an event on a line. The key's line is that line's number.
pub const ARRIVAL: u8 = 2;

/// When an event comes, in picoseconds, and its place among those at one time: class before line.
/// The order of classes and lines is this project's own.
#[derive(Clone, Copy, Debug, PartialEq, Eq, PartialOrd, Ord)]
pub struct Key {
    pub time: u64,
    pub class: u8,
    pub line: u32,
}

impl Key {
    ghost use Rattle.ss_model.specs.Order.{key_before};

    /// Whether an event with this key comes before one with the other.
    pub fn is_before(&self, other: &Key) -> bool
        ensures { result ≡ key_before self.now other.now }
    {
        *self < *other
    }
}

/// A pending event. It has a load where it comes on a line.
#[derive(Clone, Copy, Debug, Drop)]
pub struct Event<L> {
    pub key: Key,
    pub load: Option<L>,
}

/// What a component is told.
#[derive(Clone, Copy, Debug, Drop)]
pub enum Cause<L> {
    /// The simulation begins.
    Start,
    /// A load arrives at a port.
    Link { port: u16, load: L },
    /// A load that the component sent to itself arrives on its self line.
    Own { line: u16, load: L },
    /// One of its clocks ticks.
    Tick { clock: u16 },
}

/// What a component asks for. Extra delays and delays are in picoseconds.
#[derive(Drop)]
pub enum Action<L> {
    /// Sends a load out of a port, which takes so much longer than the line does.
    Send { port: u16, extra: u64, load: L },
    /// Sends a load to itself, after a delay.
    SelfSend { line: u16, delay: u64, load: L },
    ClockOn { clock: u16 },
    ClockOff { clock: u16 },
    /// Prints a text, which ends with its line end.
    Print { text: Text },
}

/// A printed text, with the key of the event at which it was printed.
#[derive(Drop)]
pub struct Line {
    pub key: Key,
    pub text: Text,
}

/// A line from a port of one component to a port of another. The latency is in picoseconds.
#[derive(Clone, Copy, Debug, PartialEq, Eq)]
pub struct LinkLine {
    pub sender: u32,
    pub out_port: u16,
    pub receiver: u32,
    pub in_port: u16,
    pub latency: u64,
}

/// What a component has to itself and is numbered among the lines: a line to itself, or a clock with
/// its period in picoseconds.
#[derive(Clone, Copy, Debug, PartialEq, Eq)]
pub enum InnerLine {
    Own {
        component: u32,
        index: u16,
    },
    Clock {
        component: u32,
        index: u16,
        period: u64,
    },
}

/// From one state a run within given limits has one outcome: one number of steps, one bound, and one
/// answer to whether the primaries' agreement set it.
pub fn a_run_has_one_outcome<S, L>()
    ensures { OneRun S L }
{}
