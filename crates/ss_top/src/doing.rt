//! Writing what a run prints and putting its checkpoints, cut by cut.

ghost use Rattle.std.specs.Prelude.{◌≡◌, ◌≤◌, [], ◌∷◌, ℕ, List, Option, length, map, IfOk};
ghost use Rattle.std.specs.List.{Contains};
ghost use Rattle.ss_edge.specs.Edge.{Kept};
ghost use Rattle.ss_wire.specs.Wire.{IsBytes};
ghost use Rattle.ss_graph.specs.Fit.{IsFit};
ghost use Rattle.ss_piece.specs.Pieces.{slip};
ghost use Rattle.ss_compose.specs.Compose.{AreApart, composed};
ghost use Rattle.ss_course.specs.Kept.{most_bytes, most_kept, passed};
ghost use Rattle.ss_top.specs.Answer.{save_name};
ghost use Rattle.ss_top.specs.Doing.{AreWhole, Does, acts_in, doing, prints, saves, saves_in};
ghost use Rattle.ss_top.specs.Headline.{Counted, seen};

use crate::lead::MOST_KEPT;
use crate::print::{Message, tell, tell_plain, write_lines};
use itoa::Buffer;
use ss_compose::{compose, length as size_of};
use ss_edge::{Shelf, Sink};
use ss_graph::{Graph, LimitKind};
use ss_join::Cut;
use ss_piece::Piece;
use ss_units::Text;
use std::alloc::{AllocError, Global};

/// Why the steps of a run were not all done. But for a limit its line was told.
#[derive(Clone, Copy, Debug, PartialEq, Eq, Drop)]
pub enum Stop {
    /// A checkpoint passes this limit with this number.
    Limit(LimitKind, u64),
    WriteFault,
    NoMemory,
}

/// The greatest number of bytes of a checkpoint.
pub const MOST_BYTES: u64 = 1 << 30;

/// The name of the checkpoint of a time, in picoseconds.
#[tactic(auto, unfolding(crate::specs::Answer::save_name))]
fn name_of_save(alloc: Global, prefix: &str, time: u64) -> Result<Text, AllocError>
    ensures { IfOk result (λ n. n ≡ save_name prefix.now time) }
{
    let mut digits = Buffer::new();
    let mut name = String::from_str(alloc, prefix)?;
    name.push_str("_")?;
    name.push_str(digits.format(time))?;
    name.push_str(".sstcpt")?;
    Ok(Text::from_string(name))
}

/// The limit that the checkpoint passes which pieces make, behind so many others, and with which number.
fn limit_passed(graph: &Graph, pieces: &[Piece], count: u64) -> Option<(LimitKind, u64)>
    ensures { (time : ℕ) → result ≡ passed count (length (composed graph.now time (map slip pieces.now))) }
{
    let size = size_of(graph, pieces);
    if size > MOST_BYTES {
        Some((LimitKind::CheckpointBytes, size))
    } else if count < MOST_KEPT {
        None
    } else {
        Some((LimitKind::Checkpoints, MOST_KEPT + 1))
    }
}

/// Makes the bytes of the checkpoint of a time, in picoseconds, in place of what was in the buffer, and its name.
fn make_save(
    alloc: Global,
    graph: &Graph,
    prefix: &str,
    time: u64,
    pieces: &[Piece],
    bytes: &mut Vec<u8>,
) -> Result<Text, AllocError>
    requires fit { IsFit graph.now }
    requires apart { AreApart (map slip pieces.now) }
    requires small { length (composed graph.now time (map slip pieces.now)) ≤ most_bytes }
    ensures name { IfOk result (λ n. n ≡ save_name prefix.now time) }
    ensures bytes { IfOk result (λ n. bytes.new.items ≡ composed graph.now time (map slip pieces.now)) }
    ensures whole { IfOk result (λ n. IsBytes bytes.new.items) }
{
    bytes.clear();
    compose(alloc, graph, time, pieces, bytes)?;
    name_of_save(alloc, prefix, time)
}

/// Puts the checkpoint of a time that pieces make, behind so many others, unless it passes a limit.
fn put_save<V: Shelf, R: Sink>(
    alloc: Global,
    graph: &Graph,
    prefix: &str,
    time: u64,
    pieces: &[Piece],
    count: u64,
    bytes: &mut Vec<u8>,
    shelf: &mut V,
    err: &mut R,
) -> Result<(), Stop>
    requires fit { IsFit graph.now }
    requires apart { AreApart (map slip pieces.now) }
    ensures does { (taken : Option (List ℕ)) (faults : ℕ) → Does (doing prefix.now graph.now count (saves time (map slip pieces.now) ∷ []))
        (seen (V.held shelf.old) (V.read_faults shelf.old) (V.put_faults shelf.old) taken faults (R.taken err.old) (R.faults err.old))
        (seen (V.held shelf.new) (V.read_faults shelf.new) (V.put_faults shelf.new) taken faults (R.taken err.new) (R.faults err.new))
        result }
    ensures reads { Kept (V.read_faults shelf.old) (V.read_faults shelf.new) }
    ensures puts { Kept (V.put_faults shelf.old) (V.put_faults shelf.new) }
    ensures err_faults { R.faults err.old ≤ R.faults err.new }
{
    if let Some((kind, number)) = limit_passed(graph, pieces, count) {
        return Err(Stop::Limit(kind, number));
    }
    let Ok(name) = make_save(alloc, graph, prefix, time, pieces, bytes) else {
        tell_plain(err, Message::NoMemory);
        return Err(Stop::NoMemory);
    };
    match shelf.put(name.as_str(), bytes.as_slice()) {
        Ok(()) => Ok(()),
        Err(_) => {
            tell(err, Message::WriteFault, name.as_str().as_bytes());
            Err(Stop::WriteFault)
        }
    }
}

/// Puts the checkpoints of times that pieces make, behind so many others.
fn put_saves<V: Shelf, R: Sink>(
    alloc: Global,
    graph: &Graph,
    prefix: &str,
    times: &[u64],
    pieces: &[Piece],
    count: u64,
    bytes: &mut Vec<u8>,
    shelf: &mut V,
    err: &mut R,
) -> Result<(), Stop>
    requires fit { IsFit graph.now }
    requires whole { (t : ℕ) → Contains times.now t → AreApart (map slip pieces.now) }
    requires count { count ≤ most_kept }
    ensures does { (taken : Option (List ℕ)) (faults : ℕ) → Does (doing prefix.now graph.now count (map (λ t. saves t (map slip pieces.now)) times.now))
        (seen (V.held shelf.old) (V.read_faults shelf.old) (V.put_faults shelf.old) taken faults (R.taken err.old) (R.faults err.old))
        (seen (V.held shelf.new) (V.read_faults shelf.new) (V.put_faults shelf.new) taken faults (R.taken err.new) (R.faults err.new))
        result }
    ensures reads { Kept (V.read_faults shelf.old) (V.read_faults shelf.new) }
    ensures puts { Kept (V.put_faults shelf.old) (V.put_faults shelf.new) }
    ensures err_faults { R.faults err.old ≤ R.faults err.new }
{
    let mut count = count;
    for time in times {
        put_save(
            alloc, graph, prefix, *time, pieces, count, bytes, shelf, err,
        )?;
        count += 1;
    }
    Ok(())
}

/// Writes the lines of a cut and puts its checkpoints, behind so many others.
fn write_cut<V: Shelf, K: Sink, R: Sink>(
    alloc: Global,
    graph: &Graph,
    prefix: &str,
    cut: &Cut,
    count: u64,
    bytes: &mut Vec<u8>,
    shelf: &mut V,
    out: &mut K,
    err: &mut R,
) -> Result<(), Stop>
    requires fit { IsFit graph.now }
    requires whole { (t : ℕ) → Contains cut.now.saves t → AreApart cut.now.pieces }
    requires count { count ≤ most_kept }
    ensures does { Does (doing prefix.now graph.now count (prints cut.now.lines ∷ saves_in cut.now))
        (seen (V.held shelf.old) (V.read_faults shelf.old) (V.put_faults shelf.old) (K.taken out.old) (K.faults out.old) (R.taken err.old) (R.faults err.old))
        (seen (V.held shelf.new) (V.read_faults shelf.new) (V.put_faults shelf.new) (K.taken out.new) (K.faults out.new) (R.taken err.new) (R.faults err.new))
        result }
    ensures counted { Counted
        (seen (V.held shelf.old) (V.read_faults shelf.old) (V.put_faults shelf.old) (K.taken out.old) (K.faults out.old) (R.taken err.old) (R.faults err.old))
        (seen (V.held shelf.new) (V.read_faults shelf.new) (V.put_faults shelf.new) (K.taken out.new) (K.faults out.new) (R.taken err.new) (R.faults err.new)) }
{
    match write_lines(out, &cut.lines) {
        Ok(()) => (),
        Err(_) => {
            tell_plain(err, Message::OutputFault);
            return Err(Stop::WriteFault);
        }
    }
    put_saves(
        alloc,
        graph,
        prefix,
        &cut.saves,
        &cut.pieces,
        count,
        bytes,
        shelf,
        err,
    )
}

/// Writes the lines of cuts and puts their checkpoints, one after another, up to the first checkpoint that passes a limit.
/// All lines before a checkpoint are written before it is put, and one buffer serves all checkpoints.
pub fn write_cuts<V: Shelf, K: Sink, R: Sink>(
    alloc: Global,
    graph: &Graph,
    prefix: &str,
    cuts: &[Cut],
    shelf: &mut V,
    out: &mut K,
    err: &mut R,
) -> Result<(), Stop>
    requires fit { IsFit graph.now }
    requires whole { AreWhole cuts.now }
    ensures does { Does (doing prefix.now graph.now 0 (acts_in cuts.now))
        (seen (V.held shelf.old) (V.read_faults shelf.old) (V.put_faults shelf.old) (K.taken out.old) (K.faults out.old) (R.taken err.old) (R.faults err.old))
        (seen (V.held shelf.new) (V.read_faults shelf.new) (V.put_faults shelf.new) (K.taken out.new) (K.faults out.new) (R.taken err.new) (R.faults err.new))
        result }
    ensures counted { Counted
        (seen (V.held shelf.old) (V.read_faults shelf.old) (V.put_faults shelf.old) (K.taken out.old) (K.faults out.old) (R.taken err.old) (R.faults err.old))
        (seen (V.held shelf.new) (V.read_faults shelf.new) (V.put_faults shelf.new) (K.taken out.new) (K.faults out.new) (R.taken err.new) (R.faults err.new)) }
{
    let mut bytes = Vec::new(alloc);
    let mut count = 0u64;
    for cut in cuts {
        write_cut(
            alloc, graph, prefix, cut, count, &mut bytes, shelf, out, err,
        )?;
        count += cut.saves.len() as u64;
    }
    Ok(())
}
