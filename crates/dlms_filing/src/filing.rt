//! The place of a readings file, and the texts that are put there.
ghost use Rattle.std.specs.Prelude.{◌≡◌, ◌<◌, List, ℕ, Option, None, [], ◌∷◌, drop, length, string_bytes, OnErr, OnOk};
ghost use Rattle.dlms_headend.specs.Merged.{added, merged};
ghost use Rattle.dlms_headend.specs.Rows.{AreReadings};
ghost use Rattle.dlms_filing.specs.Filing.{AddsRows, PlaceCall, Asks, KeepsRows, FilesRows, MergesInto, OpensRows, Gives, IsPut, error_in, text_in};
ghost use Rattle.dlms_filing.specs.Filing.PlaceCall.{Holds, Opens, Lays, Puts, Drops};
ghost use Rattle.dlms_filing.specs.declared.filing.FilingFault.TheVariants.{Memory as MemoryOf};

use crate::output::Output;
use dlms_headend::{Readings, ReadingsFault, Row};
use std::alloc::{AllocError, Global};
use std::io;

/// Why rows were not filed.
#[derive(Clone, Copy)]
pub enum FilingFault {
    /// A growth was refused.
    Memory,
    /// The new rows could not be printed.
    Output,
    /// A call of the place failed, for which the system has these words.
    Place(io::Error),
}

impl From<AllocError> for FilingFault {
    ghost from_gives = { λ fault given. given ≡ MemoryOf };

    fn from(_fault: AllocError) -> FilingFault {
        FilingFault::Memory
    }
}

/// Why readings were not opened.
#[derive(Clone, Copy)]
pub enum OpeningFault {
    /// The call of the place failed, for which the system has these words.
    Place(io::Error),
    /// The text is no file of readings, or memory ran out.
    Readings(ReadingsFault),
}

/// Where a text of readings stands.
pub trait Filing {
    /// The requests to it, in order, each with its outcome, if these are known. For a file they are not; a theorem about code that
    /// takes any place also holds for places whose requests are known.
    ghost asked: { Self → Option (List PlaceCall) } = { λ _. None };

    /// The text in the place. Without one it is empty.
    fn text(&mut self, alloc: Global) -> io::Result<String>
        ensures { Asks (asked self.old) (asked self.new) (Opens (text_in result) ∷ []) };

    /// Lays a new text beside the present one, and makes it survive a power failure.
    fn lay(&mut self, text: &str) -> io::Result<()>
        ensures { Asks (asked self.old) (asked self.new) (Lays text.now (error_in result) ∷ []) };

    /// Puts the text that was laid last in the place of the present one, whole. If that fails, or is stopped, either of them is
    /// there.
    fn put(&mut self) -> io::Result<()>
        ensures { Asks (asked self.old) (asked self.new) (Puts (error_in result) ∷ []) };

    /// Takes the text that was laid away.
    fn drop_laid(&mut self)
        ensures { Asks (asked self.old) (asked self.new) (Drops ∷ []) };
}

/// A place that becomes the file of a name. Until it holds one its text is empty, and a text that is put goes nowhere.
pub trait Holding: Filing {
    /// Holds the file that this name stands for, which nobody else has then.
    fn hold(&mut self, file: &str) -> io::Result<()>
        ensures { Asks (Self.asked self.old) (Self.asked self.new)
            (Holds file.now (error_in result) ∷ []) };
}

/// The readings in the place.
pub fn open_rows<F: Filing>(alloc: Global, place: &mut F) -> Result<Readings, OpeningFault>
    ensures { OpensRows (F.asked place.old) (F.asked place.new) result }
{
    let text = match place.text(alloc) {
        Ok(text) => text,
        Err(error) => return Err(OpeningFault::Place(error)),
    };
    match Readings::open(alloc, text.as_str()) {
        Ok(readings) => Ok(readings),
        Err(fault) => Err(OpeningFault::Readings(fault)),
    }
}

/// Lays a text, and puts it in its place.
fn replace<F: Filing>(place: &mut F, text: &str) -> io::Result<()>
    ensures { IsPut (F.asked place.old) (F.asked place.new) text.now result }
{
    place.lay(text)?;
    place.put()
}

/// Merges rows that a readings file may hold.
fn merge(readings: &mut Readings, rows: &[Row]) -> Result<usize, AllocError>
    requires { AreReadings rows.now }
    ensures ok { OnOk result (readings.new ≡ merged readings.old rows.now) }
    ensures err { OnErr result (readings.new ≡ readings.old) }
    ensures memory { OnErr result (0 < length (added readings.old rows.now)) }
{
    readings.merge(rows)
}

/// Merges the rows into the readings, and returns the text of the result. If memory runs out, the rows may have been merged.
fn merged_text(readings: &mut Readings, rows: &[Row]) -> Result<String, FilingFault>
    requires { AreReadings rows.now }
    ensures { MergesInto readings.old rows.now result readings.new }
{
    let _added = merge(readings, rows)?;
    Ok(readings.text()?)
}

/// Merges the rows of a finished poll into the readings, and puts their text in the place of the present one.
pub fn keep_rows<F: Filing>(
    place: &mut F,
    readings: &mut Readings,
    rows: &[Row],
) -> Result<(), FilingFault>
    requires { AreReadings rows.now }
    ensures { KeepsRows (F.asked place.old)
        (F.asked place.new) readings.old rows.now result readings.new }
{
    let text = merged_text(readings, rows)?;
    match replace(place, text.as_str()) {
        Ok(()) => Ok(()),
        Err(error) => Err(FilingFault::Place(error)),
    }
}

/// Lays a text, prints what is new in it, and puts it in its place.
fn give<F: Filing, O: Output>(
    place: &mut F,
    text: &str,
    news: &[u8],
    output: &mut O,
) -> Result<(), FilingFault>
    ensures { Gives (F.asked place.old) (F.asked place.new) (O.printed output.old)
        (O.printed output.new) text.now news.now result }
{
    if let Err(error) = place.lay(text) {
        return Err(FilingFault::Place(error));
    }
    if output.print(news).is_err() {
        place.drop_laid();
        return Err(FilingFault::Output);
    }
    match place.put() {
        Ok(()) => Ok(()),
        Err(error) => Err(FilingFault::Place(error)),
    }
}

/// The bytes after the first `count`.
pub fn bytes_behind(bytes: &[u8], count: usize) -> &[u8]
    ensures { result.now ≡ drop count bytes.now }
{
    bytes.get(count..).unwrap_or(&[])
}

/// Merges rows into the readings, and appends the lines of the new ones to a text. If memory runs out, the rows may have been merged.
fn add_rows(text: &mut String, readings: &mut Readings, rows: &[Row]) -> Result<(), FilingFault>
    requires { AreReadings rows.now }
    ensures { AddsRows (string_bytes text.old) readings.old rows.now result (string_bytes text.new) readings.new }
{
    let before = readings.rows().len();
    let _count = merge(readings, rows)?;
    readings.append_text(text, before)?;
    Ok(())
}

/// Merges the rows of a finished poll into the readings, prints the lines of the new ones, and puts the text in the place of the
/// present one. A row is printed before its text is put there: after a stop or an error each row in the place has been printed, and
/// a row that was printed and is not in the place comes again.
pub fn file_rows<F: Filing, O: Output>(
    place: &mut F,
    readings: &mut Readings,
    rows: &[Row],
    output: &mut O,
) -> Result<(), FilingFault>
    requires { AreReadings rows.now }
    ensures { FilesRows (F.asked place.old) (F.asked place.new) (O.printed output.old)
        (O.printed output.new) readings.old rows.now result readings.new }
{
    let mut text = readings.text()?;
    let before = text.len();
    add_rows(&mut text, readings, rows)?;
    let news = bytes_behind(text.as_bytes(), before);
    give(place, text.as_str(), news, output)
}
