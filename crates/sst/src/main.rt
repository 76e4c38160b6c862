//! The program.
#![tactic(auto)]

mod edge;

use edge::{FileShelf, Held, HeldSink, TiedSink};
use ss_edge::Sink;
use ss_top::{Message, Ran, Status, sst_here, tell, tell_plain};
use ss_units::Text;
use std::io::ErrorKind;
use std::process::ExitCode;
use std::rt::Env;
use std::{env, io};

/// The words behind the program's name.
fn words<R: Env + AllocGlobal>(rt: &R) -> io::Result<Vec<Text>> {
    let mut all = Vec::new(rt.alloc());
    for (i, word) in env::args(rt)?.enumerate() {
        if i > 0 {
            all.push(Text::new(rt.alloc(), word.as_str())?)?;
        }
    }
    Ok(all)
}

fn code(status: Status) -> u8 {
    match status {
        Status::Whole => 0,
        Status::Usage => 1,
        Status::Text => 2,
        Status::Graph => 3,
        Status::Limit => 4,
        Status::Checkpoint => 5,
        Status::ReadFault => 6,
        Status::WriteFault => 7,
        Status::NoMemory => 8,
    }
}

/// The words, or how the call ends without them: a word that isn't UTF-8 is no word of the grammar.
fn words_or_end<R: Env + AllocGlobal, W: Sink>(rt: &R, err: &mut W) -> Result<Vec<Text>, Status> {
    match words(rt) {
        Ok(words) => Ok(words),
        Err(e) => {
            if e.kind() == ErrorKind::OutOfMemory {
                tell_plain(err, Message::NoMemory);
                Err(Status::NoMemory)
            } else {
                tell(err, Message::Usage, b"words".as_slice());
                Err(Status::Usage)
            }
        }
    }
}

/// How the call ends once what was held back has gone out. Where that was lost, nothing was told yet.
fn flushed<W: Sink>(status: Status, went_out: bool, err: &mut W) -> Status {
    if went_out {
        return status;
    }
    tell_plain(err, Message::OutputFault);
    Status::WriteFault
}

fn main(rt: HostRuntime) -> ExitCode {
    let held = Held::new(rt.alloc(), io::writer(&rt));
    let before = held.as_ref().ok();
    let mut err = TiedSink::new(rt.stderr(), before);
    let Some(held) = before else {
        tell_plain(&mut err, Message::NoMemory);
        return ExitCode::from(code(Status::NoMemory));
    };
    let status = match words_or_end(&rt, &mut err) {
        Err(status) => status,
        Ok(words) => {
            let mut shelf = FileShelf::new(&rt, held);
            let mut out = HeldSink::new(held);
            let mut ran = Ran::new(rt.alloc());
            sst_here(
                &rt,
                rt.alloc(),
                words.as_slice(),
                &mut shelf,
                &mut out,
                &mut err,
                &mut ran,
            )
        }
    };
    let went_out = held.flush().is_ok();
    err.untie();
    ExitCode::from(code(flushed(status, went_out, &mut err)))
}
