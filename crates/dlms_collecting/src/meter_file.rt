//! The readings file of a meter that is polled.

ghost use Rattle.std.specs.Prelude.{◌≡◌, ◌≤◌, Err, IfOk, IfSome};
ghost use Rattle.dlms_collecting.specs.Own.{FilesOwn};
ghost use Rattle.dlms_collecting.specs.declared.fault.MeterFault.TheVariants.{AnotherJob};
ghost use Rattle.dlms_data.specs.declared.date_time.TheConstants.{LAST_SECOND};
ghost use Rattle.dlms_polling.specs.Keeping.{FilesPolled};

use crate::fault::MeterFault;
use crate::grouped::{GroupPlace, group_place};
use crate::own::own_job;
use dlms_data::LAST_SECOND;
use dlms_filing::{Filing, Holding, Output};
use dlms_fleet::Numbered;
use dlms_headend::{Readings, Row};
use dlms_inquiries::MeterJob;
use dlms_jobs::PollJob;
use dlms_polling::{file_readings, hold_file, judge, open_readings};
use std::alloc::{AllocError, Global};
use std::fs::{File, Files};

/// The readings file of a meter, which no other program has, and its contents.
#[derive(Drop)]
pub struct MeterFile<'r, R> {
    path: String,
    place: GroupPlace<'r, R>,
    readings: Readings,
}

/// The path of the readings file of a name in this folder.
pub fn path_of(alloc: Global, folder: &str, name: &str) -> Result<String, AllocError> {
    format!(in alloc; "{folder}/{name}.csv")
}

/// Holds the readings file at this path, and reads it.
fn hold_and_read<F: Holding>(
    alloc: Global,
    place: &mut F,
    path: &str,
) -> Result<Readings, MeterFault> {
    if let Err(fault) = hold_file(place, Some(path)) {
        return Err(MeterFault::of_file(fault));
    }
    match open_readings(alloc, Some(path), place) {
        Ok(readings) => Ok(readings),
        Err(fault) => Err(MeterFault::of_file(fault)),
    }
}

/// Judges the rows of a poll that is done, prints the new ones, and files them at this path. The number of rows that are left out is
/// printed on the errors.
fn file_poll<F: Filing, O: Output, E: Output>(
    alloc: Global,
    place: &mut F,
    readings: &mut Readings,
    path: &str,
    job: &PollJob,
    output: &mut O,
    errors: &mut E,
) -> Result<(), MeterFault>
    ensures { IfOk result (λ _. FilesPolled (F.asked place.old) (F.asked place.new)
        (O.printed output.old) (O.printed output.new)
        (E.printed errors.old) (E.printed errors.new) readings.old job.now.poll.talk.rows) }
{
    if let Err(fault) = judge(job.rows(), None, false) {
        return Err(MeterFault::Clock(fault));
    }
    let rows = job.rows();
    match file_readings(alloc, place, readings, rows, Some(path), output, errors) {
        Ok(()) => Ok(()),
        Err(fault) => Err(MeterFault::of_file(fault)),
    }
}

/// The same with the rows of a job that is done, if it is the poll of the meter with this number. Another job is refused, and nothing is
/// printed or filed.
fn file_own<F: Filing, O: Output, E: Output>(
    alloc: Global,
    number: usize,
    place: &mut F,
    readings: &mut Readings,
    path: &str,
    job: &Numbered<MeterJob>,
    output: &mut O,
    errors: &mut E,
) -> Result<(), MeterFault>
    ensures own { IfOk result (λ _. FilesOwn number job.now (F.asked place.old) (F.asked place.new)
        (O.printed output.old) (O.printed output.new)
        (E.printed errors.old) (E.printed errors.new) readings.old) }
    ensures other { (job.now.number ≡ number → ⊥) → (result ≡ Err AnotherJob)
        × (place.new ≡ place.old) × (output.new ≡ output.old) × (errors.new ≡ errors.old) }
{
    match own_job(number, job) {
        Ok(MeterJob::Poll(poll)) => {
            file_poll(alloc, place, readings, path, &**poll, output, errors)
        }
        Ok(_) => Err(MeterFault::AnotherJob),
        Err(fault) => Err(fault),
    }
}

impl<'r, R: Files<File = File> + AllocGlobal> MeterFile<'r, R> {
    /// Holds and reads the file at this path.
    pub fn open(rt: &'r R, path: String) -> Result<Self, MeterFault> {
        let mut place = group_place(rt);
        match hold_and_read(rt.alloc(), &mut place, path.as_str()) {
            Ok(readings) => Ok(MeterFile {
                path,
                place,
                readings,
            }),
            Err(fault) => Err(fault),
        }
    }

    /// The last row of the file.
    pub fn last(&self) -> Option<u32>
        ensures { IfSome result (λ second. second ≤ LAST_SECOND) }
    {
        self.readings.last()
    }

    /// Files the rows of the poll of the meter with this number, as `file_own` does.
    pub fn file<O: Output, E: Output>(
        &mut self,
        alloc: Global,
        number: usize,
        job: &Numbered<MeterJob>,
        output: &mut O,
        errors: &mut E,
    ) -> Result<(), MeterFault> {
        let place = &mut self.place;
        let readings = &mut self.readings;
        file_own(
            alloc,
            number,
            place,
            readings,
            self.path.as_str(),
            job,
            output,
            errors,
        )
    }
}
