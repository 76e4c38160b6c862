//! Copies of what a run hands out.

ghost use Rattle.std.specs.Prelude.{◌≡◌, IfOk, map};
ghost use Rattle.ss_piece.specs.Pieces.{slip, state_text, event_text};

use crate::lead::Cut;
use ss_model::{Key, Line};
use ss_piece::Piece;
use std::alloc::{AllocError, Global};

fn lines_of(alloc: Global, lines: &[Line]) -> Result<Vec<Line>, AllocError>
    ensures { IfOk result (λ v. v.items ≡ lines.now) }
{
    let mut copy = Vec::new(alloc);
    for line in lines {
        let text = line.text.copy(alloc)?;
        copy.push(Line {
            key: line.key,
            text,
        })?;
    }
    Ok(copy)
}

fn times_of(alloc: Global, times: &[u64]) -> Result<Vec<u64>, AllocError>
    ensures { IfOk result (λ v. v.items ≡ times.now) }
{
    let mut copy = Vec::new(alloc);
    copy.extend_from_slice(times)?;
    Ok(copy)
}

fn bytes_of(alloc: Global, bytes: &[u8]) -> Result<Vec<u8>, AllocError>
    ensures { IfOk result (λ v. v.items ≡ bytes.now) }
{
    let mut copy = Vec::new(alloc);
    copy.extend_from_slice(bytes)?;
    Ok(copy)
}

fn states_of(alloc: Global, states: &[(u32, Vec<u8>)]) -> Result<Vec<(u32, Vec<u8>)>, AllocError>
    ensures { IfOk result (λ v. map state_text v.items ≡ map state_text states.now) }
{
    let mut copy = Vec::new(alloc);
    for (number, state) in states {
        let bytes = bytes_of(alloc, state)?;
        copy.push((*number, bytes))?;
    }
    Ok(copy)
}

fn events_of(alloc: Global, events: &[(Key, Vec<u8>)]) -> Result<Vec<(Key, Vec<u8>)>, AllocError>
    ensures { IfOk result (λ v. map event_text v.items ≡ map event_text events.now) }
{
    let mut copy = Vec::new(alloc);
    for (key, load) in events {
        let bytes = bytes_of(alloc, load)?;
        copy.push((*key, bytes))?;
    }
    Ok(copy)
}

fn piece_of(alloc: Global, piece: &Piece) -> Result<Piece, AllocError>
    ensures { IfOk result (λ p. slip p ≡ slip piece.now) }
{
    let states = states_of(alloc, &piece.states)?;
    let events = events_of(alloc, &piece.events)?;
    Ok(Piece {
        states,
        events,
        last: piece.last,
    })
}

fn pieces_of(alloc: Global, pieces: &[Piece]) -> Result<Vec<Piece>, AllocError>
    ensures { IfOk result (λ v. map slip v.items ≡ map slip pieces.now) }
{
    let mut copy = Vec::new(alloc);
    for piece in pieces {
        let piece = piece_of(alloc, piece)?;
        copy.push(piece)?;
    }
    Ok(copy)
}

impl Cut {
    /// A copy of the cut. It fails only where no memory is left.
    pub fn copy(&self, alloc: Global) -> Result<Cut, AllocError>
        ensures { IfOk result (λ c. c ≡ self.now) }
    {
        let lines = lines_of(alloc, &self.lines)?;
        let saves = times_of(alloc, &self.saves)?;
        let pieces = pieces_of(alloc, &self.pieces)?;
        Ok(Cut {
            lines,
            saves,
            pieces,
        })
    }
}
