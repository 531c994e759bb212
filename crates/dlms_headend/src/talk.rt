//! The content of the answers so far.

ghost use Rattle.std.specs.Prelude.{◌≡◌, ◌++◌, ◌∷◌, ◌↔◌, [], List, ℕ, IsTrue};
ghost use Rattle.dlms_headend.specs.declared.stage.Stage.TheVariants.{Associating, Naming, Getting, Checking, Releasing};
ghost use Rattle.dlms_headend.specs.Rows.{AreReadings};
ghost use Rattle.dlms_headend.specs.Talk.{fresh_talk, behind_acceptance, behind_rows, FitsTalk, CanTake, IsLate, Takes};

use crate::answer::{read_association, read_release};
use crate::capture_objects::told;
use crate::get_answer::GetAnswer;
use crate::plan::Columns;
use crate::poll_fault::PollFault;
use crate::read_get_answer::heard;
use crate::row::Row;
use crate::stage::Stage;
use dlms_blocks::GetIn;
use std::alloc::{Allocator, Global};
use std::marker::Model;

/// The content of the answers so far.
#[derive(Drop)]
pub struct Talk<A: Allocator = Global> {
    alloc: A,
    stage: Stage,
    blocks: GetIn<A>,
    rows: Vec<Row, A>,
}

impl<A: Allocator> Model for Talk<A> {
    ghost use Rattle.dlms_headend.specs.TalkValue.{TalkValue};
    ghost use Rattle.dlms_headend.specs.Rows.{AreReadings};

    ghost Value = { TalkValue };

    ghost view = { λ t. record { stage = t.stage; blocks = t.blocks; rows = t.rows.items } };

    ghost invariant = { λ t. AreReadings t.rows.items };
}

/// The answer that is awaited after the acceptance.
fn behind_acceptance(columns: Columns) -> Stage
    ensures { result ≡ behind_acceptance columns }
{
    match columns {
        Columns::Trusted => Stage::Getting(0),
        Columns::Asked => Stage::Naming,
    }
}

/// The answer that is awaited after the rows.
fn behind_rows(columns: Columns) -> Stage
    ensures { result ≡ behind_rows columns }
{
    match columns {
        Columns::Trusted => Stage::Releasing,
        Columns::Asked => Stage::Checking,
    }
}

impl<A: Allocator + Copy> Talk<A> {
    /// Nothing was taken yet.
    pub fn new(alloc: A) -> Self
        ensures { result ≡ fresh_talk }
    {
        Talk {
            alloc,
            stage: Stage::Associating,
            blocks: GetIn::new(alloc),
            rows: Vec::new(alloc),
        }
    }

    /// The answer that is awaited.
    pub fn stage(&self) -> Stage
        ensures { result ≡ self.now.stage }
    {
        self.stage
    }

    /// Whether an answer is awaited.
    pub fn awaits(&self) -> bool
        ensures { IsTrue result ↔ CanTake self.now.stage }
    {
        match self.stage {
            Stage::Leaving => false,
            _ => true,
        }
    }

    /// Whether the answer to the release is awaited.
    pub fn is_releasing(&self) -> bool
        ensures { IsTrue result ↔ (self.now.stage ≡ Releasing) }
    {
        match self.stage {
            Stage::Releasing => true,
            _ => false,
        }
    }

    /// Whether nothing is awaited but the answer to the release, or the connection's end.
    pub fn has_all(&self) -> bool
        ensures { IsTrue result ↔ IsLate self.now.stage }
    {
        match self.stage {
            Stage::Releasing | Stage::Leaving => true,
            _ => false,
        }
    }

    /// The rows that were brought; none before an answer that has them.
    pub fn rows(&self) -> &[Row]
        ensures rows { result.now ≡ self.now.rows }
        ensures readings { AreReadings result.now }
    {
        &self.rows
    }

    /// The answer to the association request.
    fn associate(&mut self, columns: Columns, apdu: &[u8]) -> Result<(), PollFault>
        ensures { (apdus : List (List ℕ)) → FitsTalk columns self.old apdus
            → self.old.stage ≡ Associating → Takes columns self.old apdus apdu.now result self.new }
    {
        match read_association(apdu) {
            Ok(()) => {
                self.stage = behind_acceptance(columns);
                Ok(())
            }
            Err(fault) => Err(fault),
        }
    }

    /// The answer to the first GET of the columns.
    fn name(&mut self, columns: Columns, apdu: &[u8]) -> Result<(), PollFault>
        ensures { (apdus : List (List ℕ)) → FitsTalk columns self.old apdus
            → self.old.stage ≡ Naming → Takes columns self.old apdus apdu.now result self.new }
    {
        match told(self.alloc, apdu) {
            Ok(()) => {
                self.stage = Stage::Getting(0);
                Ok(())
            }
            Err(fault) => Err(fault),
        }
    }

    /// The answer to the second one.
    fn check(&mut self, columns: Columns, apdu: &[u8]) -> Result<(), PollFault>
        ensures { (apdus : List (List ℕ)) → FitsTalk columns self.old apdus
            → self.old.stage ≡ Checking → Takes columns self.old apdus apdu.now result self.new }
    {
        match told(self.alloc, apdu) {
            Ok(()) => {
                self.stage = Stage::Releasing;
                Ok(())
            }
            Err(fault) => Err(fault),
        }
    }

    /// An answer to a GET of the buffer, after this many blocks.
    #[tactic(auto, using(crate::proofs::TalkLemmas::block_taken, crate::proofs::TalkLemmas::rows_taken, crate::proofs::TalkLemmas::get_ends))]
    fn hear(&mut self, columns: Columns, taken: u32, apdu: &[u8]) -> Result<(), PollFault>
        ensures { (apdus : List (List ℕ)) → FitsTalk columns self.old apdus
            → self.old.stage ≡ Getting taken
            → Takes columns self.old apdus apdu.now result self.new }
    {
        match heard(self.alloc, taken, &mut self.blocks, apdu) {
            Ok(GetAnswer::More(number)) => {
                self.stage = Stage::Getting(number);
                Ok(())
            }
            Ok(GetAnswer::Rows(rows)) => {
                self.stage = behind_rows(columns);
                self.rows = rows;
                Ok(())
            }
            Err(fault) => Err(fault),
        }
    }

    /// The next APDU of a poll that asks for the columns or not.
    pub fn take(&mut self, columns: Columns, apdu: &[u8]) -> Result<(), PollFault>
        ensures { (apdus : List (List ℕ)) → FitsTalk columns self.old apdus → CanTake self.old.stage
            → Takes columns self.old apdus apdu.now result self.new }
    {
        match self.stage {
            Stage::Associating => self.associate(columns, apdu),
            Stage::Naming => self.name(columns, apdu),
            Stage::Getting(taken) => self.hear(columns, taken, apdu),
            Stage::Checking => self.check(columns, apdu),
            Stage::Releasing => match read_release(apdu) {
                Ok(()) => {
                    self.stage = Stage::Leaving;
                    Ok(())
                }
                Err(fault) => Err(fault),
            },
            Stage::Leaving => Err(PollFault::Protocol),
        }
    }
}
