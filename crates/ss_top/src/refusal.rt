//! Why a graph text or a checkpoint is refused.

ghost use Rattle.std.specs.Prelude.{◌≡◌, ◌≤◌, ◌++◌, ℕ, List, IfOk, codes, decimal};
ghost use Rattle.ss_graph.specs.Checks.{at};
ghost use Rattle.ss_edge.specs.Edge.{Rose};
ghost use Rattle.ss_top.specs.Answer.{line};
ghost use Rattle.ss_restart.specs.declared.fault.RestartFault.TheVariants as state;
ghost use Rattle.ss_top.specs.Answer as answer;
ghost use Rattle.ss_top.specs.Message.{message_text, fault_text, limit_text, fault_line, limit_line, unsound_line};
ghost use Rattle.ss_top.specs.declared.print.Message.TheVariants as message;
ghost use Rattle.ss_top.specs.Printing.{Told};
ghost use Rattle.ss_top.specs.Simulate.{RefusedBy, UnmadeBy, UndividedBy, UnrecalledBy, TellsJudged, TellsRefusal, misspelled_by, unsound_by};

use crate::Status;
use crate::print::{Message, tell, tell_four, tell_plain, tell_two};
use itoa::Buffer;
use ss_ckpt::CkptFault;
use ss_edge::Sink;
use ss_graph::{GraphFault, LimitKind};
use ss_library::MakeFault;
use ss_part::PartFault;
use ss_recall::RecallFault;
use ss_restart::RestartFault;
use ss_units::Text;
use std::alloc::{AllocError, Global};

/// The faults of a graph that a line names with their place.
#[derive(Clone, Copy, Debug, PartialEq, Eq)]
pub enum Fault {
    Form,
    SharedParams,
    Member,
    Unit,
    DuplicateName,
    UnknownComponent,
    PortTaken,
    Latency,
    UnknownType,
    UnknownPort,
    Param,
    Protocol,
    PortUnlinked,
    Miswired,
    BadThread,
}

/// Why what was read isn't run.
#[derive(Drop)]
pub enum Refusal {
    NotText,
    Graph { fault: Fault, place: Text },
    SharedParams,
    Limit { kind: LimitKind, number: u64 },
    Misspelled(CkptFault),
    Unsound(RestartFault),
    NoMemory,
}

fn graph(fault: Fault, place: Text) -> Refusal
    ensures { result ≡ Refusal.Graph fault place }
{
    Refusal::Graph { fault, place }
}

/// By the first fault of the text.
pub fn refused(fault: GraphFault) -> Refusal
    ensures { RefusedBy fault result }
{
    match fault {
        GraphFault::Text => Refusal::NotText,
        GraphFault::Form(place) => graph(Fault::Form, place),
        GraphFault::SharedParams => Refusal::SharedParams,
        GraphFault::Member(place) => graph(Fault::Member, place),
        GraphFault::Unit(place) => graph(Fault::Unit, place),
        GraphFault::DuplicateName(place) => graph(Fault::DuplicateName, place),
        GraphFault::UnknownComponent(place) => graph(Fault::UnknownComponent, place),
        GraphFault::PortTaken(place) => graph(Fault::PortTaken, place),
        GraphFault::Latency(place) => graph(Fault::Latency, place),
        GraphFault::Limit(kind, number) => Refusal::Limit { kind, number },
        GraphFault::NoMemory => Refusal::NoMemory,
    }
}

/// By the first fault of its making.
pub fn unmade(fault: MakeFault) -> Refusal
    ensures { UnmadeBy fault result }
{
    match fault {
        MakeFault::UnknownType(place) => graph(Fault::UnknownType, place),
        MakeFault::UnknownPort(place) => graph(Fault::UnknownPort, place),
        MakeFault::Param(place) => graph(Fault::Param, place),
        MakeFault::Protocol(place) => graph(Fault::Protocol, place),
        MakeFault::PortUnlinked(place) => graph(Fault::PortUnlinked, place),
        MakeFault::Miswired(place) => graph(Fault::Miswired, place),
        MakeFault::Limit(kind, number) => Refusal::Limit { kind, number },
        MakeFault::NoMemory => Refusal::NoMemory,
    }
}

/// By why a checkpoint isn't gone on from.
pub fn unrecalled(fault: RecallFault) -> Refusal
    ensures { UnrecalledBy fault result }
{
    match fault {
        RecallFault::Form(fault) => Refusal::Misspelled(fault),
        RecallFault::State(fault) => Refusal::Unsound(fault),
        RecallFault::NoMemory => Refusal::NoMemory,
    }
}

/// The place of a component's thread.
fn thread_place(alloc: Global, component: u32) -> Result<Text, AllocError>
    ensures { IfOk result (λ t. t ≡ at (codes "components") component ++ codes ".partition.thread") }
{
    let mut place = String::from_str(alloc, "components")?;
    let mut digits = Buffer::new();
    place.push_str("[")?;
    place.push_str(digits.format(component))?;
    place.push_str("]")?;
    place.push_str(".partition.thread")?;
    Ok(Text::from_string(place))
}

/// By why a graph isn't divided.
pub fn undivided(alloc: Global, fault: PartFault) -> Refusal
    ensures { UndividedBy fault result }
{
    match fault {
        PartFault::Parts { asked } => Refusal::Limit {
            kind: LimitKind::Parts,
            number: asked as u64,
        },
        PartFault::BadThread { component } => match thread_place(alloc, component) {
            Ok(place) => graph(Fault::BadThread, place),
            Err(_) => Refusal::NoMemory,
        },
        PartFault::NoMemory => Refusal::NoMemory,
    }
}

#[tactic(auto, unfolding(crate::specs::Message::fault_text))]
fn text_of_fault(fault: Fault) -> &'static [u8]
    ensures { result.now ≡ fault_text fault }
{
    match fault {
        Fault::Form => b"Form ",
        Fault::SharedParams => b"SharedParams ",
        Fault::Member => b"Member ",
        Fault::Unit => b"Unit ",
        Fault::DuplicateName => b"DuplicateName ",
        Fault::UnknownComponent => b"UnknownComponent ",
        Fault::PortTaken => b"PortTaken ",
        Fault::Latency => b"Latency ",
        Fault::UnknownType => b"UnknownType ",
        Fault::UnknownPort => b"UnknownPort ",
        Fault::Param => b"Param ",
        Fault::Protocol => b"Protocol ",
        Fault::PortUnlinked => b"PortUnlinked ",
        Fault::Miswired => b"Miswired ",
        Fault::BadThread => b"BadThread ",
    }
}

#[tactic(auto, unfolding(crate::specs::Message::limit_text))]
fn text_of_limit(kind: LimitKind) -> &'static [u8]
    ensures { result.now ≡ limit_text kind }
{
    match kind {
        LimitKind::GraphBytes => b"graph bytes ",
        LimitKind::CheckpointBytes => b"checkpoint bytes ",
        LimitKind::Components => b"components ",
        LimitKind::Links => b"links ",
        LimitKind::Ports => b"ports ",
        LimitKind::NameBytes => b"name bytes ",
        LimitKind::Parts => b"parts ",
        LimitKind::Threads => b"threads ",
        LimitKind::Checkpoints => b"checkpoints ",
    }
}

/// Writes the line of a graph's fault. It takes no memory.
fn tell_fault<R: Sink>(err: &mut R, fault: Fault, place: &[u8])
    ensures told { Told (line (fault_line fault place.now)) (R.taken err.old) (R.taken err.new) (R.faults err.old) (R.faults err.new) }
    ensures faults { R.faults err.old ≤ R.faults err.new }
{
    tell_two(err, Message::Graph, text_of_fault(fault), place);
}

/// Writes the line of a limit that a number passes. It takes no memory.
pub fn tell_limit<R: Sink>(err: &mut R, kind: LimitKind, number: u64)
    ensures told { Told (line (limit_line kind number)) (R.taken err.old) (R.taken err.new) (R.faults err.old) (R.faults err.new) }
    ensures faults { R.faults err.old ≤ R.faults err.new }
{
    let mut buffer = Buffer::new();
    let digits = buffer.format(number).as_bytes();
    tell_two(err, Message::Limit, text_of_limit(kind), digits);
}

/// Writes the line of a checkpoint's fault that has a place. It takes no memory.
fn tell_place<R: Sink>(err: &mut R, fault: &[u8], place: u64)
    ensures told { Told (line (message_text message.Checkpoint ++ (fault.now ++ decimal place))) (R.taken err.old) (R.taken err.new) (R.faults err.old) (R.faults err.new) }
    ensures faults { R.faults err.old ≤ R.faults err.new }
{
    let mut buffer = Buffer::new();
    let digits = buffer.format(place).as_bytes();
    tell_two(err, Message::Checkpoint, fault, digits);
}

/// Writes the line of a network's line and a channel of it, on which flits are missing or too many. It takes no memory.
#[tactic(auto, unfolding(crate::specs::Message::unsound_text))]
fn tell_unbalanced<R: Sink>(err: &mut R, line: u32, channel: u8)
    ensures told { Told (answer.line (unsound_line (state.Unbalanced line channel))) (R.taken err.old) (R.taken err.new) (R.faults err.old) (R.faults err.new) }
    ensures faults { R.faults err.old ≤ R.faults err.new }
{
    let mut lines = Buffer::new();
    let mut channels = Buffer::new();
    let number = lines.format(line).as_bytes();
    let way = channels.format(channel).as_bytes();
    tell_four(
        err,
        Message::Checkpoint,
        b"Unbalanced line ".as_slice(),
        number,
        b" channel ".as_slice(),
        way,
    );
}

/// Writes the line of what is wrong with the bytes of a checkpoint. It takes no memory.
#[tactic(auto, unfolding(crate::specs::Message::misspelled_text))]
fn tell_misspelled<R: Sink>(err: &mut R, fault: CkptFault) -> Status
    ensures told { (name : List ℕ) → TellsJudged name (misspelled_by fault) (R.taken err.old) (R.taken err.new) (R.faults err.old) (R.faults err.new) result }
    ensures faults { R.faults err.old ≤ R.faults err.new }
{
    match fault {
        CkptFault::Magic => tell(err, Message::Checkpoint, b"Magic".as_slice()),
        CkptFault::Form => tell(err, Message::Checkpoint, b"Form".as_slice()),
        CkptFault::Short { at } => tell_place(err, b"Short at ".as_slice(), at),
        CkptFault::Value { at } => tell_place(err, b"Value at ".as_slice(), at),
        CkptFault::Order { at } => tell_place(err, b"Order at ".as_slice(), at),
        CkptFault::Trailing { at } => tell_place(err, b"Trailing at ".as_slice(), at),
        CkptFault::NoMemory => {
            tell_plain(err, Message::NoMemory);
            return Status::NoMemory;
        }
    }
    Status::Checkpoint
}

/// Writes the line of what is wrong with a saved state. It takes no memory.
#[tactic(auto, unfolding(crate::specs::Message::unsound_text))]
fn tell_unsound<R: Sink>(err: &mut R, fault: RestartFault) -> Status
    ensures told { (name : List ℕ) → TellsJudged name (unsound_by fault) (R.taken err.old) (R.taken err.new) (R.faults err.old) (R.faults err.new) result }
    ensures faults { R.faults err.old ≤ R.faults err.new }
{
    match fault {
        RestartFault::Element { component } => {
            tell_place(err, b"Element component ".as_slice(), component as u64)
        }
        RestartFault::Payload { event } => { tell_place(err, b"Payload event ".as_slice(), event) }
        RestartFault::Time { event } => tell_place(err, b"Time event ".as_slice(), event),
        RestartFault::Tick { clock } => { tell_place(err, b"Tick clock ".as_slice(), clock as u64) }
        RestartFault::Unbalanced { line, channel } => tell_unbalanced(err, line, channel),
        RestartFault::NoMemory => {
            tell_plain(err, Message::NoMemory);
            return Status::NoMemory;
        }
    }
    Status::Checkpoint
}

/// Writes the line of a refusal of the bytes that stand under a name. It takes no memory.
pub fn tell_refusal<R: Sink>(err: &mut R, name: &str, refusal: &Refusal) -> Status
    ensures told { TellsRefusal name.now refusal.now (R.taken err.old) (R.taken err.new) (R.faults err.old) (R.faults err.new) result }
    ensures faults { R.faults err.old ≤ R.faults err.new }
{
    match refusal {
        Refusal::NotText => {
            tell(err, Message::NotText, name.as_bytes());
            Status::Text
        }
        Refusal::Graph { fault, place } => {
            tell_fault(err, *fault, place.as_str().as_bytes());
            Status::Graph
        }
        Refusal::SharedParams => {
            tell_fault(err, Fault::SharedParams, b"shared_params");
            Status::Graph
        }
        Refusal::Limit { kind, number } => {
            tell_limit(err, *kind, *number);
            Status::Limit
        }
        Refusal::Misspelled(fault) => tell_misspelled(err, *fault),
        Refusal::Unsound(fault) => tell_unsound(err, *fault),
        Refusal::NoMemory => {
            tell_plain(err, Message::NoMemory);
            Status::NoMemory
        }
    }
}
