//! The crates whose rows lie here.

use crate::acse::AcseBench;
use crate::apdu::ApduBench;
use crate::bench::{Room, play};
use crate::blocks::BlocksBench;
use crate::carrier::CarrierBench;
use crate::checkpoint::CheckpointBench;
use crate::classes::ClassesBench;
use crate::data::DataBench;
use crate::fault::RowFault;
use crate::frame::FrameBench;
use crate::headend::HeadendBench;
use crate::journal::JournalBench;
use crate::link::LinkBench;
use crate::profile::ProfileBench;
use crate::scenario::Line;
use crate::security::SecurityBench;
use crate::state::StateBench;

/// A crate under test.
#[derive(Clone, Copy)]
pub enum Subject {
    Acse,
    Apdu,
    Blocks,
    Carrier,
    Checkpoint,
    Classes,
    Data,
    Frame,
    Headend,
    Journal,
    Link,
    Profile,
    Security,
    State,
}

pub const SUBJECTS: [Subject; 14] = [
    Subject::Acse,
    Subject::Apdu,
    Subject::Blocks,
    Subject::Carrier,
    Subject::Checkpoint,
    Subject::Classes,
    Subject::Data,
    Subject::Frame,
    Subject::Headend,
    Subject::Journal,
    Subject::Link,
    Subject::Profile,
    Subject::Security,
    Subject::State,
];

impl Subject {
    /// The file of its rows.
    pub fn file(self) -> &'static str {
        match self {
            Subject::Acse => "dlms_acse.txt",
            Subject::Apdu => "dlms_apdu.txt",
            Subject::Blocks => "dlms_blocks.txt",
            Subject::Carrier => "dlms_carrier.txt",
            Subject::Checkpoint => "dlms_checkpoint.txt",
            Subject::Classes => "dlms_classes.txt",
            Subject::Data => "dlms_data.txt",
            Subject::Frame => "dlms_frame.txt",
            Subject::Headend => "dlms_headend.txt",
            Subject::Journal => "dlms_journal.txt",
            Subject::Link => "dlms_link.txt",
            Subject::Profile => "dlms_profile.txt",
            Subject::Security => "dlms_security.txt",
            Subject::State => "dlms_state.txt",
        }
    }

    /// Plays a scenario, and writes the answers.
    pub fn play(
        self,
        room: Room<'_>,
        lines: &[Line<'_>],
        answers: &mut String,
    ) -> Result<(), RowFault> {
        match self {
            Subject::Acse => play(AcseBench, lines, answers),
            Subject::Apdu => play(ApduBench::new(room), lines, answers),
            Subject::Blocks => play(BlocksBench::new(room), lines, answers),
            Subject::Carrier => play(CarrierBench::new(), lines, answers),
            Subject::Checkpoint => play(CheckpointBench::new(room), lines, answers),
            Subject::Classes => play(ClassesBench::new(room), lines, answers),
            Subject::Data => play(DataBench::new(room), lines, answers),
            Subject::Frame => play(FrameBench::new(), lines, answers),
            Subject::Headend => play(HeadendBench::new(room), lines, answers),
            Subject::Journal => play(JournalBench, lines, answers),
            Subject::Link => play(LinkBench::new(), lines, answers),
            Subject::Profile => play(ProfileBench::new(room.heap), lines, answers),
            Subject::Security => play(SecurityBench::new(), lines, answers),
            Subject::State => play(StateBench::new(room.heap), lines, answers),
        }
    }
}
