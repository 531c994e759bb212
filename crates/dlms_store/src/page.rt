//! The contents of a page, and the layout by which it was written.
ghost use Rattle.std.specs.Prelude.{◌≡◌, ◌≤◌, List, ℕ, length, MatchOption, IsTrue, ◌↔◌};
ghost use Rattle.dlms_pages.specs.declared.device.PageRead.TheVariants.{Damaged};
ghost use Rattle.dlms_checkpoint.specs.declared.version.Version.{Version as VersionOf};
ghost use Rattle.dlms_checkpoint.specs.declared.version.Version.TheVariants.{Rings, Columns};
ghost use Rattle.dlms_journal.specs.declared.kind.PageKind.TheVariants.{Ring};
ghost use Rattle.dlms_state.specs.Columns.{first_columns};
ghost use Rattle.dlms_store.specs.Image.{Serves};
ghost use Rattle.dlms_store.specs.Page.{HasPage, IsOf, IsOpen, IsNot, of_version, present};
ghost use Rattle.dlms_store.specs.declared.page.Edition.{Edition as EditionOf};

use dlms_checkpoint::Version;
use dlms_journal::{PageKind, generation_of, index_of, kind_of, payload_of, version_of};
use dlms_pages::PageRead;

/// Whether a page reads as damaged.
pub(crate) fn is_damaged(page: &PageRead) -> bool
    ensures { IsTrue result ↔ (page.now ≡ Damaged) }
{
    matches!(page, PageRead::Damaged)
}

/// By which layout pages were written, and to which checkpoint they belong.
#[derive(Clone, Copy, Debug, PartialEq, Eq)]
pub struct Edition {
    /// The layout's version.
    pub version: Version,
    /// The checkpoint's number.
    pub generation: u64,
}

/// Pages of this generation as they are written now.
pub(crate) fn present(generation: u64) -> Edition
    ensures { result ≡ present generation }
{
    Edition {
        version: Version::Columns,
        generation,
    }
}

/// The edition of a page that is a whole, open gate of a known version. Its index and payload are not looked at.
pub fn open_edition(page: &PageRead) -> Option<Edition>
    ensures { MatchOption result ((e : EditionOf)
        → IsNot (IsOpen e page.now)) (λ e. IsOpen e page.now) }
{
    let PageRead::Content(bytes) = page else {
        return None;
    };
    if kind_of(bytes) != Some(PageKind::OpenGate) {
        return None;
    }
    let version = Version::of_number(version_of(bytes))?;
    Some(Edition {
        version,
        generation: generation_of(bytes),
    })
}

/// Whether a page is of this edition, kind and index, whatever its payload is.
pub(crate) fn is_of(page: &PageRead, kind: PageKind, index: u16, edition: Edition) -> bool
    ensures { IsTrue result ↔ IsOf kind index edition page.now }
{
    let PageRead::Content(bytes) = page else {
        return false;
    };
    kind_of(bytes) == Some(kind)
        && version_of(bytes) == edition.version.number()
        && index_of(bytes) == index
        && generation_of(bytes) == edition.generation
}

/// The payload of a page of this edition, kind and index.
pub(crate) fn payload_in(
    page: &PageRead,
    kind: PageKind,
    index: u16,
    edition: Edition,
) -> Option<&[u8]>
    ensures { MatchOption result ((payload : List ℕ)
        → IsNot (HasPage kind index edition payload page.now))
        (λ payload. HasPage kind index edition payload.now page.now) }
{
    let PageRead::Content(bytes) = page else {
        return None;
    };
    if kind_of(bytes) != Some(kind) || version_of(bytes) != edition.version.number() {
        return None;
    }
    if index_of(bytes) != index || generation_of(bytes) != edition.generation {
        return None;
    }
    payload_of(bytes)
}

/// The payload of the ring page of this number and of version 2, which serves a checkpoint of version 2.
fn present_rows(page: &PageRead, version: Version, index: u16, number: u64) -> Option<&[u8]>
    ensures { MatchOption result ((payload : List ℕ) → version ≡ Columns
        → IsNot (HasPage Ring index (of_version Columns number) payload page.now))
        (λ payload. (version ≡ Columns)
        × HasPage Ring index (of_version Columns number) payload.now page.now) }
{
    match version {
        Version::Columns => payload_in(page, PageKind::Ring, index, present(number)),
        Version::Rings => None,
    }
}

/// The payload of the ring page of this number and of version 1. It can be used if the columns are the initial ones.
fn older_rows(page: &PageRead, serves: bool, index: u16, number: u64) -> Option<&[u8]>
    ensures { MatchOption result ((payload : List ℕ) → IsTrue serves
        → IsNot (HasPage Ring index (of_version Rings number) payload page.now))
        (λ payload. IsTrue serves × HasPage Ring index
        (of_version Rings number) payload.now page.now) }
{
    if !serves {
        return None;
    }
    let edition = Edition {
        version: Version::Rings,
        generation: number,
    };
    payload_in(page, PageKind::Ring, index, edition)
}

/// The payload of the ring page of this number that serves a checkpoint of a version, with the first columns or others.
pub(crate) fn ring_payload(
    page: &PageRead,
    version: Version,
    has_first_columns: bool,
    index: u16,
    number: u64,
) -> Option<&[u8]>
    ensures { (columns : List ℕ) → (IsTrue has_first_columns ↔ (columns ≡ first_columns))
        → MatchOption result ((own : VersionOf) (payload : List ℕ) → Serves version columns own
        → IsNot (HasPage Ring index (of_version own number) payload page.now))
        (λ payload. (own : VersionOf) × Serves version columns own
        × HasPage Ring index (of_version own number) payload.now page.now) }
{
    match present_rows(page, version, index, number) {
        Some(payload) => Some(payload),
        None => older_rows(page, has_first_columns, index, number),
    }
}
