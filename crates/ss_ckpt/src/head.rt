//! The fields before the states of the components.

ghost use Rattle.std.specs.Prelude.{◌≡◌, IfOk};
ghost use Rattle.ss_ckpt.specs.Faults.{Gives, GivesAll};
ghost use Rattle.ss_ckpt.specs.Form.{mark, time_field, last_field, text_form, head_form};
ghost use Rattle.ss_ckpt.specs.Spells.{IsHead, first_read};
ghost use Rattle.ss_ckpt.specs.Views.{fields_of};

use crate::fault::CkptFault;
use ss_wire::Reader;
use std::alloc::Global;

/// What a checkpoint's bytes begin with.
const MAGIC: [u8; 7] = *b"SSTCKPT";

/// The number of this form, as a letter.
const VERSION: u8 = b'1';

/// The most bytes that a graph text has.
const MOST_TEXT: u32 = 67_108_864;

/// The fields of a checkpoint up to the end of its graph text. Times are in picoseconds.
#[derive(Drop)]
pub struct Head {
    /// The time at which the state was saved: all that comes before it was handled.
    pub time: u64,
    /// The time of the last handled event, 0 where there was none.
    pub last: u64,
    /// The graph text as it was given.
    pub graph: Vec<u8>,
    /// How many bytes these fields have.
    pub body: u64,
}

/// Reads what checkpoints begin with.
fn read_mark(bytes: &mut Reader<'_>) -> Result<(), CkptFault>
    ensures { Gives (λ u. 1) result bytes.new (mark.read bytes.old) }
{
    for letter in &MAGIC {
        match bytes.u8() {
            Ok(byte) if byte == *letter => {}
            Ok(_) => return Err(CkptFault::Magic),
            Err(_) => return Err(CkptFault::Short { at: 0 }),
        }
    }
    match bytes.u8() {
        Ok(VERSION) => Ok(()),
        Ok(_) => Err(CkptFault::Form),
        Err(_) => Err(CkptFault::Short { at: 0 }),
    }
}

/// Reads the time of the checkpoint.
fn read_time(bytes: &mut Reader<'_>) -> Result<u64, CkptFault>
    ensures { Gives (λ n. n) result bytes.new (time_field.read bytes.old) }
{
    let at = bytes.at();
    let time = bytes.u64()?;
    if time > 0 && time < 1 << 62 {
        Ok(time)
    } else {
        Err(CkptFault::Value { at })
    }
}

/// Reads the time of the last handled event.
fn read_last(time: u64, bytes: &mut Reader<'_>) -> Result<u64, CkptFault>
    ensures { Gives (λ n. n) result bytes.new ((last_field time).read bytes.old) }
{
    let at = bytes.at();
    let last = bytes.u64()?;
    if last < time {
        Ok(last)
    } else {
        Err(CkptFault::Value { at })
    }
}

/// Reads the graph text with its length.
fn read_text<'a>(bytes: &mut Reader<'a>) -> Result<&'a [u8], CkptFault>
    ensures { Gives (λ t. t.now) result bytes.new (text_form.read bytes.old) }
{
    let at = bytes.at();
    let length = bytes.u32()?;
    if length > MOST_TEXT {
        return Err(CkptFault::Value { at });
    }
    let text = bytes.take(length as usize)?;
    Ok(text)
}

/// Reads the head.
fn head_of(alloc: Global, bytes: &mut Reader<'_>) -> Result<Head, CkptFault>
    ensures told { Gives fields_of result bytes.new (head_form.read bytes.old) }
    ensures body { IfOk result (λ h. h.body ≡ bytes.new.at) }
{
    read_mark(bytes)?;
    let time = read_time(bytes)?;
    let last = read_last(time, bytes)?;
    let text = read_text(bytes)?;
    let graph = text.to_vec(alloc)?;
    Ok(Head {
        time,
        last,
        graph,
        body: bytes.at(),
    })
}

/// The fields of a checkpoint up to the end of its graph text, or their first fault: `Magic`, `Form`, `Short` and `Value`
/// as the fields follow one another. It doesn't judge the graph. `NoMemory` comes only where no memory was left. The form
/// is this project's own.
pub fn read_head(alloc: Global, bytes: &[u8]) -> Result<Head, CkptFault>
    // What is read is spelled so, and ends where `body` says.
    ensures found { IfOk result (λ h. IsHead bytes.now (fields_of h) h.body) }
    // Which fault it is.
    ensures exact { GivesAll fields_of result (first_read head_form bytes.now 0) }
{
    let mut reader = Reader::new(bytes, 0);
    head_of(alloc, &mut reader)
}
