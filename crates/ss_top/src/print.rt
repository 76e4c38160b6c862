//! Writing texts, and lines on the error output.

ghost use Rattle.std.specs.Prelude.{◌≡◌, ◌≤◌, ◌++◌, map, OnOk, OnErr};
ghost use Rattle.ss_edge.specs.Edge.{Rose, more};
ghost use Rattle.ss_model.specs.End.{text_of};
ghost use Rattle.ss_top.specs.Answer.{line};
ghost use Rattle.ss_top.specs.Message.{message_text};
ghost use Rattle.ss_top.specs.Printing.{Told, more_all, StopsIn};

use ss_edge::{Failed, Sink, write_all};
use ss_element::Line;

/// Writes the texts of lines, each by one call.
pub fn write_lines<K: Sink>(out: &mut K, lines: &[Line]) -> Result<(), Failed>
    ensures all { OnOk result (K.taken out.new ≡ more_all (map text_of lines.now) (K.taken out.old)) }
    ensures some { OnErr result (StopsIn (map text_of lines.now) (K.taken out.old) (K.taken out.new)) }
    ensures faults { K.faults out.old ≤ K.faults out.new }
    ensures cause { OnErr result (Rose (K.faults out.old) (K.faults out.new)) }
{
    for line in lines {
        match write_all(out, line.text.as_str().as_bytes()) {
            Ok(()) => (),
            Err(_) => return Err(Failed),
        }
    }
    Ok(())
}

/// Writes texts, each by one call.
pub fn write_texts<K: Sink>(out: &mut K, texts: &[Vec<u8>]) -> Result<(), Failed>
    ensures all { OnOk result (K.taken out.new ≡ more_all (map (λ t. t.items) texts.now) (K.taken out.old)) }
    ensures some { OnErr result (StopsIn (map (λ t. t.items) texts.now) (K.taken out.old) (K.taken out.new)) }
    ensures faults { K.faults out.old ≤ K.faults out.new }
    ensures cause { OnErr result (Rose (K.faults out.old) (K.faults out.new)) }
{
    for text in texts {
        match write_all(out, text.as_slice()) {
            Ok(()) => (),
            Err(_) => return Err(Failed),
        }
    }
    Ok(())
}

/// What a refusal's line says in front of what it names.
#[derive(Clone, Copy, Debug, PartialEq, Eq)]
pub enum Message {
    Usage,
    NotText,
    Graph,
    Limit,
    Checkpoint,
    ReadFault,
    WriteFault,
    OutputFault,
    NoMemory,
}

#[tactic(auto, unfolding(crate::specs::Message::message_text))]
fn text_of_message(message: Message) -> &'static [u8]
    ensures { result.now ≡ message_text message }
{
    match message {
        Message::Usage => b"sst: usage: ",
        Message::NotText => b"sst: text: ",
        Message::Graph => b"sst: graph: ",
        Message::Limit => b"sst: limit: ",
        Message::Checkpoint => b"sst: checkpoint: ",
        Message::ReadFault => b"sst: read fault: ",
        Message::WriteFault => b"sst: write fault: ",
        Message::OutputFault => b"sst: write fault: output",
        Message::NoMemory => b"sst: no memory",
    }
}

/// Writes a line that says a message and what it names in two parts. It takes no memory.
pub fn tell_two<R: Sink>(err: &mut R, message: Message, front: &[u8], back: &[u8])
    ensures told { Told (line (message_text message ++ (front.now ++ back.now))) (R.taken err.old) (R.taken err.new) (R.faults err.old) (R.faults err.new) }
    ensures faults { R.faults err.old ≤ R.faults err.new }
{
    match write_all(err, text_of_message(message)) {
        Ok(()) => (),
        Err(_) => return,
    }
    match write_all(err, front) {
        Ok(()) => (),
        Err(_) => return,
    }
    match write_all(err, back) {
        Ok(()) => (),
        Err(_) => return,
    }
    match write_all(err, b"\n".as_slice()) {
        Ok(()) => (),
        Err(_) => (),
    }
}

/// Writes a line that says a message and what it names in four parts. It takes no memory.
pub fn tell_four<R: Sink>(
    err: &mut R,
    message: Message,
    first: &[u8],
    second: &[u8],
    third: &[u8],
    fourth: &[u8],
)
    ensures told { Told (line (message_text message ++ (first.now ++ (second.now ++ (third.now ++ fourth.now))))) (R.taken err.old) (R.taken err.new) (R.faults err.old) (R.faults err.new) }
    ensures faults { R.faults err.old ≤ R.faults err.new }
{
    match write_all(err, text_of_message(message)) {
        Ok(()) => (),
        Err(_) => return,
    }
    match write_all(err, first) {
        Ok(()) => (),
        Err(_) => return,
    }
    match write_all(err, second) {
        Ok(()) => (),
        Err(_) => return,
    }
    match write_all(err, third) {
        Ok(()) => (),
        Err(_) => return,
    }
    match write_all(err, fourth) {
        Ok(()) => (),
        Err(_) => return,
    }
    match write_all(err, b"\n".as_slice()) {
        Ok(()) => (),
        Err(_) => (),
    }
}

/// Writes a line that says a message and what it names. It takes no memory.
pub fn tell<R: Sink>(err: &mut R, message: Message, named: &[u8])
    ensures told { Told (line (message_text message ++ named.now)) (R.taken err.old) (R.taken err.new) (R.faults err.old) (R.faults err.new) }
    ensures faults { R.faults err.old ≤ R.faults err.new }
{
    tell_two(err, message, named, b"".as_slice());
}

/// Writes a line that says a message alone. It takes no memory.
pub fn tell_plain<R: Sink>(err: &mut R, message: Message)
    ensures told { Told (line (message_text message)) (R.taken err.old) (R.taken err.new) (R.faults err.old) (R.faults err.new) }
    ensures faults { R.faults err.old ≤ R.faults err.new }
{
    tell(err, message, b"".as_slice());
}
