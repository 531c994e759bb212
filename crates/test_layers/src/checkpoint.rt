//! Rows of `dlms_checkpoint`.
ghost use Rattle.std.specs.Prelude.{IsTrue};
ghost use Rattle.dlms_checkpoint.specs.Checkpoint.{IsNamed};

use crate::answers::{put_number, put_shown, put_with_number};
use crate::bench::{Bench, Room};
use crate::fault::RowFault;
use crate::hexadecimal::put_hex;
use crate::state::StateBench;
use crate::words::Words;
use dlms_checkpoint::{
    Checkpoint, RING_ROWS, Refilling, Restoring, Version, checkpoint_of, ring_page_of,
};
use dlms_state::State;
use linked_list_allocator::LocalHeap;

/// A state, its checkpoint, and bodies and ring pages that are taken.
#[derive(Drop)]
pub struct CheckpointBench<'h> {
    heap: &'h LocalHeap,
    state: StateBench<'h>,
    restoring: Option<Restoring>,
    refilling: Option<Refilling<&'h LocalHeap>>,
}

/// How many bodies there are, and how long each is.
fn put_bodies(checkpoint: &Checkpoint, answer: &mut String) -> Result<(), RowFault> {
    let count = checkpoint.body_count();
    put_number(answer, u64::from(count))?;
    for index in 0..count {
        put_with_number(answer, " ", checkpoint.body(index).len() as u64)?;
    }
    Ok(())
}

/// Whether a state's checkpoint names this ring page.
fn is_named(state: &State<&LocalHeap>, page: u64) -> bool
    ensures { IsTrue result → IsNamed state.now.rows page }
{
    let behind = (u128::from(page) + 1) * RING_ROWS as u128;
    state.first_number() < behind && behind <= state.next_number()
}

/// The places of this ring page; `no` if the state's checkpoint names none.
fn put_ring(state: &State<&LocalHeap>, page: u64, answer: &mut String) -> Result<(), RowFault> {
    if is_named(state, page) {
        put_hex(answer, ring_page_of(state, page).as_slice())
    } else {
        Ok(answer.push_str("no")?)
    }
}

/// All bodies of a checkpoint, taken one after another.
fn taken(checkpoint: &Checkpoint) -> Result<Restoring, RowFault> {
    let Ok(mut restoring) = Restoring::begin(Version::Columns, checkpoint.body(0)) else {
        return Err(RowFault::Missing);
    };
    for index in 1..checkpoint.body_count() {
        if restoring.more(checkpoint.body(index)).is_err() {
            return Err(RowFault::Missing);
        }
    }
    Ok(restoring)
}

/// Takes all ring pages of a state that the bodies name.
fn refill(
    refilling: &mut Refilling<&LocalHeap>,
    state: &State<&LocalHeap>,
) -> Result<(), RowFault> {
    for _ in 0..32 {
        let Some(page) = refilling.awaited_page() else {
            return Ok(());
        };
        if !is_named(state, page)
            || refilling
                .take(ring_page_of(state, page).as_slice())
                .is_err()
        {
            return Err(RowFault::Missing);
        }
    }
    Ok(())
}

impl<'h> CheckpointBench<'h> {
    pub fn new(room: Room<'h>) -> Self {
        CheckpointBench {
            heap: room.heap,
            state: StateBench::new(room.ample),
            restoring: None,
            refilling: None,
        }
    }

    /// Begins with a first body of a version.
    fn begin(&mut self, words: &mut Words<'_>, answer: &mut String) -> Result<(), RowFault> {
        let Some(version) = Version::of_number(words.byte()?) else {
            return Err(RowFault::Form);
        };
        let body = words.bytes()?;
        self.restoring = None;
        self.refilling = None;
        match Restoring::begin(version, &body) {
            Ok(restoring) => {
                self.restoring = Some(restoring);
                Ok(())
            }
            Err(fault) => put_shown(answer, &fault),
        }
    }

    /// Takes a further body.
    fn more(&mut self, body: &[u8], answer: &mut String) -> Result<(), RowFault> {
        let Some(restoring) = &mut self.restoring else {
            return Err(RowFault::Missing);
        };
        match restoring.more(body) {
            Ok(()) => Ok(()),
            Err(fault) => put_shown(answer, &fault),
        }
    }

    /// Joins the bodies, which are taken for it: how many bytes are awaited, or whether a state has them.
    fn join(&mut self, answer: &mut String) -> Result<(), RowFault> {
        let Some(restoring) = self.restoring.take() else {
            return Err(RowFault::Missing);
        };
        let awaited = restoring.awaited();
        if awaited != 0 {
            self.restoring = Some(restoring);
            return put_with_number(answer, "awaits ", awaited as u64);
        }
        match restoring.joined() {
            Some(joined) => self.refilling = Some(joined.refilling(self.heap)),
            None => {
                self.refilling = None;
                answer.push_str("spelling")?;
            }
        }
        Ok(())
    }

    /// Takes a ring page.
    fn ring(&mut self, places: &[u8], answer: &mut String) -> Result<(), RowFault> {
        let Some(refilling) = &mut self.refilling else {
            return Err(RowFault::Missing);
        };
        let Some(_) = refilling.awaited_page() else {
            return Ok(answer.push_str("none awaited")?);
        };
        match refilling.take(places) {
            Ok(()) => Ok(()),
            Err(fault) => put_shown(answer, &fault),
        }
    }

    /// Takes the state of the bodies and ring pages in the place of the one that was there.
    fn finish(&mut self, answer: &mut String) -> Result<(), RowFault> {
        let Some(refilling) = self.refilling.take() else {
            return Err(RowFault::Missing);
        };
        if let Some(page) = refilling.awaited_page() {
            self.refilling = Some(refilling);
            return put_with_number(answer, "awaits page ", page);
        }
        match refilling.finish() {
            Ok(state) => {
                self.state.set(state);
                Ok(())
            }
            Err(_) => Ok(answer.push_str("memory")?),
        }
    }

    /// Takes all bodies of the state's checkpoint, and the ring pages that they name.
    fn take_all(&mut self) -> Result<(), RowFault> {
        let state = self.state.state()?;
        let restoring = taken(&checkpoint_of(state))?;
        if restoring.awaited() != 0 {
            return Err(RowFault::Missing);
        }
        let Some(joined) = restoring.joined() else {
            return Err(RowFault::Missing);
        };
        let mut refilling = joined.refilling(self.heap);
        refill(&mut refilling, state)?;
        self.refilling = Some(refilling);
        Ok(())
    }
}

impl Bench for CheckpointBench<'_> {
    fn step(&mut self, words: &mut Words<'_>, answer: &mut String) -> Result<(), RowFault> {
        let call = words.word()?;
        match call {
            "bodies" => put_bodies(&checkpoint_of(self.state.state()?), answer),
            "body" => {
                let index = words.short()?;
                put_hex(answer, checkpoint_of(self.state.state()?).body(index))
            }
            "ring" => put_ring(self.state.state()?, words.long()?, answer),
            "take-all" => self.take_all(),
            "begin" => self.begin(words, answer),
            "more" => self.more(&words.bytes()?, answer),
            "join" => self.join(answer),
            "take-ring" => self.ring(&words.bytes()?, answer),
            "finish" => self.finish(answer),
            _ => self.state.call(call, words, answer),
        }
    }
}
