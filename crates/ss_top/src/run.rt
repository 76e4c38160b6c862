//! Doing what a call comes to: writing what its run prints, or what it lists, and telling how that ended.

ghost use Rattle.std.specs.Prelude.{◌≡◌, ◌≤◌, ℕ, List, Option, None, map, IfOk};
ghost use Rattle.ss_cmd.specs.Grammar.{IsEarly};
ghost use Rattle.ss_edge.specs.Edge.{Contents};
ghost use Rattle.ss_graph.specs.Fit.{IsFit};
ghost use Rattle.ss_model.specs.End.{final_line};
ghost use Rattle.ss_top.specs.Answer.{AnswersRead};
ghost use Rattle.ss_top.specs.Doing.{AreWhole, Does, EndsIn, closing, listing};
ghost use Rattle.ss_top.specs.Headline.{Counted, seen};
ghost use Rattle.ss_top.specs.Left.{LeavesRead};
ghost use Rattle.ss_top.specs.Simulate.{cuts_by, doing_by, puts_by};
ghost use Rattle.ss_top.specs.Spreading.{too_many_threads};
ghost use Rattle.ss_top.specs.Writing.{EndsAs};

use crate::doing::{Stop, write_cuts};
use crate::print::{Message, tell_plain, write_texts};
use crate::printed::{End, Printed};
use crate::putting::put_sheets;
use crate::refusal::{tell_limit, tell_refusal};
use crate::sheets::Sheet;
use crate::simulate::{Verdict, answer_read};
use crate::{Ran, Status, name_of};
use ss_cmd::Plan;
use ss_edge::{Shelf, Sink, write_all};
use ss_units::push_decimal;
use std::alloc::{AllocError, Global};
use std::thread::Threads;

#[tactic(auto, unfolding(ss_model::specs::End::final_line))]
fn final_text(alloc: Global, time: u64) -> Result<Vec<u8>, AllocError>
    ensures { IfOk result (λ v. v.items ≡ final_line time) }
{
    let mut text = Vec::from_slice(alloc, b"Simulation is complete, simulated time: ")?;
    push_decimal(&mut text, time as u128)?;
    text.extend_from_slice(b" ps\n")?;
    Ok(text)
}

/// Writes the final line of a run and puts what stands behind it.
fn write_end<V: Shelf, K: Sink, R: Sink>(
    alloc: Global,
    time: u64,
    sheets: &[Sheet],
    shelf: &mut V,
    out: &mut K,
    err: &mut R,
) -> Result<(), Stop>
    ensures does { Does (closing time (puts_by sheets.now))
        (seen (V.held shelf.old) (V.read_faults shelf.old) (V.put_faults shelf.old) (K.taken out.old) (K.faults out.old) (R.taken err.old) (R.faults err.old))
        (seen (V.held shelf.new) (V.read_faults shelf.new) (V.put_faults shelf.new) (K.taken out.new) (K.faults out.new) (R.taken err.new) (R.faults err.new))
        result }
    ensures counted { Counted
        (seen (V.held shelf.old) (V.read_faults shelf.old) (V.put_faults shelf.old) (K.taken out.old) (K.faults out.old) (R.taken err.old) (R.faults err.old))
        (seen (V.held shelf.new) (V.read_faults shelf.new) (V.put_faults shelf.new) (K.taken out.new) (K.faults out.new) (R.taken err.new) (R.faults err.new)) }
{
    let Ok(text) = final_text(alloc, time) else {
        tell_plain(err, Message::NoMemory);
        return Err(Stop::NoMemory);
    };
    match write_all(out, text.as_slice()) {
        Ok(()) => (),
        Err(_) => {
            tell_plain(err, Message::OutputFault);
            return Err(Stop::WriteFault);
        }
    }
    put_sheets(sheets, shelf, err)
}

/// Writes and puts all that a run came to.
fn write_all_of<V: Shelf, K: Sink, R: Sink>(
    alloc: Global,
    printed: &Printed,
    shelf: &mut V,
    out: &mut K,
    err: &mut R,
) -> Result<(), Stop>
    requires fit { IsFit printed.now.run.value.graph }
    requires whole { AreWhole (cuts_by printed.now) }
    ensures does { Does (doing_by printed.now.run.value.graph printed.now)
        (seen (V.held shelf.old) (V.read_faults shelf.old) (V.put_faults shelf.old) (K.taken out.old) (K.faults out.old) (R.taken err.old) (R.faults err.old))
        (seen (V.held shelf.new) (V.read_faults shelf.new) (V.put_faults shelf.new) (K.taken out.new) (K.faults out.new) (R.taken err.new) (R.faults err.new))
        result }
    ensures counted { Counted
        (seen (V.held shelf.old) (V.read_faults shelf.old) (V.put_faults shelf.old) (K.taken out.old) (K.faults out.old) (R.taken err.old) (R.faults err.old))
        (seen (V.held shelf.new) (V.read_faults shelf.new) (V.put_faults shelf.new) (K.taken out.new) (K.faults out.new) (R.taken err.new) (R.faults err.new)) }
{
    let prefix = printed.prefix.as_str();
    write_cuts(
        alloc,
        &printed.run.graph,
        prefix,
        &printed.cuts,
        shelf,
        out,
        err,
    )?;
    match &printed.end {
        End::Complete { time, sheets } => write_end(alloc, *time, sheets, shelf, out, err),
        End::Stopped => Ok(()),
    }
}

/// Writes and puts what a run came to, and tells how that ended.
fn write_printed<V: Shelf, K: Sink, R: Sink>(
    alloc: Global,
    printed: &Printed,
    shelf: &mut V,
    out: &mut K,
    err: &mut R,
) -> Status
    requires fit { IsFit printed.now.run.value.graph }
    requires whole { AreWhole (cuts_by printed.now) }
    ensures ends { EndsIn (doing_by printed.now.run.value.graph printed.now)
        (seen (V.held shelf.old) (V.read_faults shelf.old) (V.put_faults shelf.old) (K.taken out.old) (K.faults out.old) (R.taken err.old) (R.faults err.old))
        (seen (V.held shelf.new) (V.read_faults shelf.new) (V.put_faults shelf.new) (K.taken out.new) (K.faults out.new) (R.taken err.new) (R.faults err.new))
        result }
    ensures counted { Counted
        (seen (V.held shelf.old) (V.read_faults shelf.old) (V.put_faults shelf.old) (K.taken out.old) (K.faults out.old) (R.taken err.old) (R.faults err.old))
        (seen (V.held shelf.new) (V.read_faults shelf.new) (V.put_faults shelf.new) (K.taken out.new) (K.faults out.new) (R.taken err.new) (R.faults err.new)) }
{
    match write_all_of(alloc, printed, shelf, out, err) {
        Ok(()) => Status::Whole,
        Err(Stop::Limit(kind, number)) => {
            tell_limit(err, kind, number);
            Status::Limit
        }
        Err(Stop::WriteFault) => Status::WriteFault,
        Err(Stop::NoMemory) => Status::NoMemory,
    }
}

/// Writes texts that are listed.
fn write_list<K: Sink, R: Sink>(texts: &[Vec<u8>], out: &mut K, err: &mut R) -> Status
    ensures ends { (held : Option Contents) (reads puts : List ℕ → ℕ) → EndsIn (listing (map (λ t. t.items) texts.now))
        (seen held reads puts (K.taken out.old) (K.faults out.old) (R.taken err.old) (R.faults err.old))
        (seen held reads puts (K.taken out.new) (K.faults out.new) (R.taken err.new) (R.faults err.new))
        result }
    ensures out_faults { K.faults out.old ≤ K.faults out.new }
    ensures err_faults { R.faults err.old ≤ R.faults err.new }
{
    match write_texts(out, texts) {
        Ok(()) => Status::Whole,
        Err(_) => {
            tell_plain(err, Message::OutputFault);
            Status::WriteFault
        }
    }
}

/// Does with the bytes that were read what a plan asks.
pub fn finish<T: Threads + Sync, V: Shelf, K: Sink, R: Sink>(
    rt: &T,
    alloc: Global,
    plan: &Plan,
    bytes: Vec<u8>,
    shelf: &mut V,
    out: &mut K,
    err: &mut R,
    ran: &mut Ran,
) -> Status
    requires early { IsEarly plan.now }
    requires threads { too_many_threads plan.now ≡ None }
    ensures ends { EndsAs (AnswersRead plan.now bytes.items) (LeavesRead plan.now bytes.items ran.new.workers.items)
        (seen (V.held shelf.old) (V.read_faults shelf.old) (V.put_faults shelf.old) (K.taken out.old) (K.faults out.old) (R.taken err.old) (R.faults err.old))
        (seen (V.held shelf.new) (V.read_faults shelf.new) (V.put_faults shelf.new) (K.taken out.new) (K.faults out.new) (R.taken err.new) (R.faults err.new))
        result }
    ensures counted { Counted
        (seen (V.held shelf.old) (V.read_faults shelf.old) (V.put_faults shelf.old) (K.taken out.old) (K.faults out.old) (R.taken err.old) (R.faults err.old))
        (seen (V.held shelf.new) (V.read_faults shelf.new) (V.put_faults shelf.new) (K.taken out.new) (K.faults out.new) (R.taken err.new) (R.faults err.new)) }
{
    match answer_read(rt, alloc, plan, bytes, ran) {
        Verdict::Refused(refusal) => tell_refusal(err, name_of(plan), &refusal),
        Verdict::Ran(printed) => write_printed(alloc, &printed, shelf, out, err),
        Verdict::Listed(texts) => write_list(texts.as_slice(), out, err),
    }
}
