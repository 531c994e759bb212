//! Requests on a meter whose memory is an arena that takes nothing back: each growth is refused in turn, also one that would fit
//! into what was freed before it.

use crate::client::{associated, exchange};
use crate::hostile::growths::{Asked, Ended, ended_by, filled, is_right};
use crate::tally::{Tally, Verdict};
use bumpalo::Bump;
use std::alloc::{AllocError, Global};

/// The first chunk of an arena. The second one has twice as much.
const CHUNK: usize = 1_048_576;

/// Fills the first chunk of an arena and begins the second: from then on nothing that is freed is used again. No third chunk is
/// taken.
fn close_up(arena: &Bump) -> Result<(), AllocError> {
    let first = Vec::<u8, &Bump>::with_capacity(arena, arena.chunk_capacity())?;
    let second = Vec::<u8, &Bump>::with_capacity(arena, 1)?;
    drop(second);
    drop(first);
    arena.set_allocation_limit(Some(arena.allocated_bytes()));
    Ok(())
}

/// A request to a meter with this many rows, with this many bytes left of its arena.
fn asked_with(
    alloc: Global,
    asked: &Asked,
    rows: u32,
    left: usize,
) -> Result<Option<Ended>, AllocError> {
    let arena: Bump = Bump::try_with_capacity(alloc, CHUNK)?;
    close_up(&arena)?;
    let Some(mut meter) = filled(alloc, &arena, rows)? else {
        return Ok(None);
    };
    let Some(mut link) = associated(&mut meter, asked.client) else {
        return Ok(None);
    };
    let taken = arena.chunk_capacity().saturating_sub(left);
    let ballast = Vec::<u8, &Bump>::with_capacity(&arena, taken)?;
    let answer = exchange(&mut meter, &mut link, asked.apdu);
    drop(ballast);
    Ok(answer.map(|answer| ended_by(asked, answer.as_slice())))
}

/// A request to a meter with this many rows, on arenas with a step more left each: notes how many were refused.
pub fn refused_in_arenas(
    alloc: Global,
    asked: &Asked,
    rows: u32,
    step: usize,
    cases: usize,
) -> Result<Tally, AllocError> {
    let mut tally = Tally::new();
    for case in 0..cases {
        let ended = asked_with(alloc, asked, rows, case.saturating_mul(step))?;
        tally.count(Verdict {
            is_noted: ended == Some(Ended::Refused),
            is_right: match ended {
                Some(ended) => is_right(asked, case, cases, ended),
                None => false,
            },
        });
    }
    Ok(tally)
}
