//! Whether each page of an image serves a recovery, and why not.
ghost use Rattle.std.specs.Prelude.{◌≡◌, ◌≢◌, ◌≤◌, ◌<◌, ◌+◌, ◌-◌, ◌%◌, ◌^◌, ◌↔◌, ◌==◌, ◌||◌, ℕ, List, IfErr, IfSome, IsTrue, MatchResult, Ok, Err, Some, is_some};
ghost use Rattle.dlms_journal.specs.Page.{head_of as said_by, payload_at};
ghost use Rattle.dlms_pages.specs.declared.device.PageRead.{PageRead as PageReadOf};
ghost use Rattle.dlms_pages.specs.declared.device.PageRead.TheVariants.{Content};
ghost use Rattle.dlms_store.specs.Layout.{gate_of};
ghost use Rattle.dlms_store.specs.declared.layout.Slot.{Slot as SlotOf};
ghost use Rattle.dlms_store.specs.declared.layout.TheConstants.{BODIES, JOURNAL, JOURNAL_PAGES, RING, RING_PAGES};
ghost use Rattle.dlms_store.specs.declared.page.Edition.{Edition as EditionOf};
ghost use Rattle.dlms_survey.specs.Judging.{CountsGate, CountsJournal, CountsRing, IsBefore, IsBehindNamed, IsJournalTold, IsKind, IsRecordsTold, IsToldAt, MayCountBody, Says, SaysOf, asks_by, asks_for_more, body_at, body_told, gate_told, number_from, refuses, ring_at, ring_told};
ghost use Rattle.dlms_survey.specs.Own.{fit, is_for, of_edition, own, payload_of};
ghost use Rattle.dlms_survey.specs.Places.{index_at, place_at};
ghost use Rattle.dlms_survey.specs.Image.{ImageValue};

use crate::head::{Head, head_of};
use crate::image::Image;
use crate::place::{Place, place_of};
use crate::survey::Survey;
use crate::verdict::Verdict;
use dlms_checkpoint::{Joined, RING_ROWS, Restoring, Version};
use dlms_journal::{PageKind, payload_of, records_of};
use dlms_pages::{PAGE_BYTES, PageRead};
use dlms_state::State;
use dlms_store::{BODIES, Edition, Found, OpenFault, RING, RING_PAGES, Slot};
use std::alloc::{Allocator, Global};

/// Whether the place is for pages of this kind.
fn is_for(place: Place, kind: PageKind) -> bool
    ensures { result ≡ is_for place kind }
{
    match place {
        Place::Gate(_) => matches!(kind, PageKind::OpenGate | PageKind::ClosedGate),
        Place::Body(..) => matches!(kind, PageKind::Body),
        Place::Journal(_) => matches!(kind, PageKind::Journal),
        Place::Ring(_) => matches!(kind, PageKind::Ring),
    }
}

/// The index that a place asks for. That of a gate is not looked at.
fn index_at(place: Place) -> Option<u16>
    ensures { result ≡ index_at place }
{
    match place {
        Place::Gate(_) => None,
        Place::Body(_, index) | Place::Journal(index) | Place::Ring(index) => Some(index),
    }
}

/// Whether a page of this kind has what its place asks for, whatever counts.
fn fits_place(place: Place, kind: PageKind, head: Head) -> Verdict
    ensures counts { result ≢ Verdict.Counts }
    ensures says { (image : ImageValue) (page : ℕ) (bytes : List ℕ)
        → IsKind (Some kind) (said_by bytes) → head.version ≡ (said_by bytes).version
        → head.index ≡ (said_by bytes).index → head.has_payload ≡ is_some (payload_at bytes)
        → SaysOf image page (Content bytes) result }
    ensures exact { result ≡ fit place kind head.version head.index head.has_payload }
{
    if kind == PageKind::Empty {
        return Verdict::Empty;
    }
    if Version::of_number(head.version).is_none() {
        return Verdict::UnknownVersion(head.version);
    }
    if !is_for(place, kind) {
        return Verdict::OtherKind(kind);
    }
    if kind == PageKind::ClosedGate {
        return Verdict::Closed;
    }
    match index_at(place) {
        Some(index) if index != head.index => Verdict::OtherIndex(head.index),
        Some(_) if !head.has_payload => Verdict::Overlong,
        _ => Verdict::Unused,
    }
}

/// Whether a page has what its place asks for, whatever counts.
fn at_place<A: Allocator + Copy>(image: &Image<A>, page: u16) -> Verdict
    ensures counts { result ≢ Verdict.Counts }
    ensures says { Says image.now page result }
    ensures exact { result ≡ own image.now page }
{
    match image.page(page) {
        PageRead::Damaged if image.is_cut(page) => Verdict::Cut,
        PageRead::Damaged => Verdict::Torn,
        PageRead::Content(bytes) => {
            let head = head_of(bytes);
            match head.kind {
                Some(kind) => fits_place(place_of(page), kind, head),
                None => Verdict::UnknownKind(head.number),
            }
        }
    }
}

/// The payload of a page that has what its place asks for, if it is of this edition; else why it is not.
fn of_edition(bytes: &[u8; PAGE_BYTES], edition: Edition) -> Result<&[u8], Verdict>
    ensures counts { IfErr result (λ verdict. verdict ≢ Verdict.Counts) }
    ensures says { (image : ImageValue) (page : ℕ)
        → IfErr result (SaysOf image page (Content bytes.now)) }
    ensures exact { MatchResult result (λ payload. of_edition edition bytes.now ≡ Ok payload.now)
        (λ told. of_edition edition bytes.now ≡ Err told) }
{
    let head = head_of(bytes);
    if head.generation != edition.generation {
        return Err(Verdict::OtherCheckpoint(head.generation));
    }
    if head.version != edition.version.number() {
        return Err(Verdict::OtherVersion(head.version));
    }
    match payload_of(bytes) {
        Some(payload) => Ok(payload),
        None => Err(Verdict::Overlong),
    }
}

/// The payload of a page that has what its place asks for and is of this edition; else why it is not.
fn payload_in<A: Allocator + Copy>(
    image: &Image<A>,
    page: u16,
    edition: Edition,
) -> Result<&[u8], Verdict>
    ensures counts { IfErr result (λ verdict. verdict ≢ Verdict.Counts) }
    ensures says { IfErr result (Says image.now page) }
    ensures exact { MatchResult result
        (λ payload. payload_of image.now page edition ≡ Ok payload.now)
        (λ told. payload_of image.now page edition ≡ Err told) }
{
    let found = at_place(image, page);
    let PageRead::Content(bytes) = image.page(page) else {
        return Err(found);
    };
    if found != Verdict::Unused {
        return Err(found);
    }
    of_edition(bytes, edition)
}

/// The bodies of a slot, if they encode a state.
fn bodies_of<A: Allocator + Copy>(
    image: &Image<A>,
    slot: Slot,
    edition: Edition,
) -> Option<Joined> {
    let first = slot.gate() + 1;
    let body = payload_in(image, first, edition).ok()?;
    let mut restoring = Restoring::begin(edition.version, body).ok()?;
    for index in 1..BODIES {
        if restoring.awaited() == 0 {
            break;
        }
        let body = payload_in(image, first + index, edition).ok()?;
        restoring.more(body).ok()?;
    }
    if restoring.awaited() != 0 {
        return None;
    }
    restoring.joined()
}

/// Whether a slot's first body asks for a second one.
fn asks_for_more<A: Allocator + Copy>(image: &Image<A>, slot: Slot, edition: Edition) -> bool
    ensures { result ≡ asks_by edition.version (payload_of image.now (gate_of slot + 1) edition) }
{
    let Ok(body) = payload_in(image, slot.gate() + 1, edition) else {
        return false;
    };
    match Restoring::begin(edition.version, body) {
        Ok(restoring) => restoring.awaited() != 0,
        Err(_) => false,
    }
}

/// Why a body does not fit.
fn body_reason<A: Allocator + Copy>(
    image: &Image<A>,
    page: u16,
    index: u16,
    edition: Edition,
) -> Verdict
    ensures counts { result ≢ Verdict.Counts }
    ensures says { Says image.now page result }
    ensures exact { result ≡ body_told index edition.version (payload_of image.now page edition) }
{
    let body = match payload_in(image, page, edition) {
        Ok(body) => body,
        Err(verdict) => return verdict,
    };
    if index > 0 {
        return Verdict::OtherLength;
    }
    match Restoring::begin(edition.version, body) {
        Ok(_) => Verdict::NoState,
        Err(fault) => Verdict::Body(fault),
    }
}

/// Why a journal page of the active edition after this state does not fit.
fn records_reason<A: Allocator + Copy>(state: &State<A>, payload: &[u8]) -> Verdict
    ensures counts { result ≢ Verdict.Counts }
    ensures says { (image : ImageValue) (page : ℕ) (read : PageReadOf)
        → SaysOf image page read result }
    ensures exact { IsRecordsTold state.now payload.now result }
{
    let Some(events) = records_of(payload) else {
        return Verdict::NoRecords;
    };
    if payload.is_empty() {
        return Verdict::NoRecords;
    }
    let mut outlook = state.outlook();
    for event in events {
        match outlook.after(&event) {
            Ok(next) => outlook = next,
            Err(refused) => return Verdict::Refused(refused),
        }
    }
    Verdict::RingFull
}

/// The ring pages that a checkpoint names, by their numbers: from the first one up to the one after the last.
#[derive(Clone, Copy, PartialEq, Eq)]
struct Named {
    first: u64,
    behind: u64,
    /// Whether ring pages of version 1 serve it too.
    serves_older: bool,
}

/// The number of the ring page at this index, if this one is the first that may be named.
fn number_at(first: u64, index: u16) -> u64
    ensures from { first ≤ result }
    ensures place { result < 2 ^ 64 - 1 → index < RING_PAGES → result % RING_PAGES ≡ index }
    ensures least { (n : ℕ) → index < RING_PAGES → first ≤ n → n < 2 ^ 64 → n % RING_PAGES ≡ index
        → result ≤ n }
    ensures exact { result ≡ number_from first index }
{
    let pages = u64::from(RING_PAGES);
    let ahead = (u64::from(index) + pages - first % pages) % pages;
    first.saturating_add(ahead)
}

/// The number of the ring page after those that were named: those that a recovery read, or up to the one that does not fit.
fn behind_named<A: Allocator + Copy>(found: &Result<Found<A>, OpenFault>, first: u64) -> u64
    ensures { IsBehindNamed first found.now result }
{
    match found {
        Ok(found) => {
            let captured = u128::from(found.journal.captured);
            let checkpointed = found.state.next_number().saturating_sub(captured);
            u64::try_from(checkpointed / RING_ROWS as u128).unwrap_or(u64::MAX)
        }
        Err(OpenFault::Corrupt(page)) if *page >= RING => {
            number_at(first, *page - RING).saturating_add(1)
        }
        Err(_) => first,
    }
}

/// Judges the pages of an image by what a recovery finds there.
#[derive(Drop)]
pub struct Judge<'a, A: Allocator = Global> {
    image: &'a Image<A>,
    survey: &'a Survey<A>,
    more: bool,
    named: Option<Named>,
}

impl<'a, A: Allocator + Copy> Judge<'a, A> {
    /// A judge of this image, of which this is the survey.
    pub fn new(image: &'a Image<A>, survey: &'a Survey<A>) -> Self
        ensures image { result.image.now ≡ image.now }
        ensures survey { result.survey.now ≡ survey.now }
        ensures more { result.more ≡ asks_for_more image.now survey.now.active }
        ensures named { IfSome result.named
            (λ named. IsBehindNamed named.first survey.now.found named.behind) }
    {
        let Ok((slot, edition)) = survey.active else {
            return Judge {
                image,
                survey,
                more: false,
                named: None,
            };
        };
        Judge {
            image,
            survey,
            more: asks_for_more(image, slot, edition),
            named: named_in(image, slot, edition, &survey.found),
        }
    }

    /// Whether a recovery refuses this very page.
    fn is_unfit(&self, page: u16) -> bool
        ensures exact { result ≡ refuses page self.now.survey.now.found }
        ensures page { IsTrue result ↔ (self.now.survey.now.found ≡ Err (OpenFault.Corrupt page)) }
    {
        match &self.survey.found {
            Err(OpenFault::Corrupt(unfit)) => *unfit == page,
            _ => false,
        }
    }

    /// Whether a gate counts, and why not.
    fn gate(&self, slot: Slot) -> Verdict
        ensures counts { (result ≡ Verdict.Counts) ↔ CountsGate slot self.now.survey.now }
        ensures says { Says self.now.image.now (gate_of slot) result }
        ensures exact { result ≡ gate_told slot self.now.survey.now.active
            (own self.now.image.now (gate_of slot)) }
    {
        match self.survey.active {
            Ok((active, _)) if active == slot => Verdict::Counts,
            Err(OpenFault::Corrupt(_)) => Verdict::SameGeneration,
            _ => match at_place(self.image, slot.gate()) {
                Verdict::Unused => Verdict::Older,
                verdict => verdict,
            },
        }
    }

    /// Whether a slot counts, and its bodies are as many as to have one of this index.
    fn is_asked_for(&self, slot: Slot, index: u16) -> bool
        ensures slot { IsTrue result → CountsGate slot self.now.survey.now }
        ensures index { IsTrue result → IsTrue ((index == 0) || self.now.more) }
        ensures all { CountsGate slot self.now.survey.now → IsTrue ((index == 0) || self.now.more)
            → IsTrue result }
    {
        match self.survey.active {
            Ok((active, _)) if active == slot => index == 0 || self.more,
            _ => false,
        }
    }

    /// Whether a page comes before the one that a recovery names in its refusal.
    fn is_before(&self, page: u16) -> bool
        ensures { IsTrue result ↔ IsBefore page self.now.survey.now.found }
    {
        match &self.survey.found {
            Err(OpenFault::Corrupt(unfit)) => page < *unfit,
            _ => true,
        }
    }

    /// Whether a body counts, and why not.
    fn body(&self, slot: Slot, index: u16, page: u16) -> Verdict
        ensures counts { (result ≡ Verdict.Counts)
            ↔ MayCountBody slot index page self.now.more self.now.survey.now }
        ensures says { Says self.now.image.now page result }
        ensures exact { result ≡ body_at self.now.image.now self.now.survey.now.found self.now.more
            slot index page self.now.survey.now.active }
    {
        let Ok((_, edition)) = self.survey.active else {
            return at_place(self.image, page);
        };
        if !self.is_asked_for(slot, index) {
            return at_place(self.image, page);
        }
        if self.is_unfit(page) {
            return body_reason(self.image, page, index, edition);
        }
        if self.is_before(page) {
            Verdict::Counts
        } else {
            Verdict::Unused
        }
    }

    /// Whether a journal page counts, and why not.
    fn journal(&self, index: u16, page: u16) -> Verdict
        ensures counts { (result ≡ Verdict.Counts) ↔ CountsJournal index self.now.survey.now }
        ensures says { Says self.now.image.now page result }
        ensures exact { IsJournalTold self.now.image.now index page self.now.survey.now.found
            result }
    {
        let Ok(found) = &self.survey.found else {
            return at_place(self.image, page);
        };
        if index < found.journal.pages {
            return Verdict::Counts;
        }
        match payload_in(self.image, page, found.edition) {
            Err(verdict) => verdict,
            Ok(_) if index > found.journal.pages => Verdict::Behind,
            Ok(payload) => records_reason(&found.state, payload),
        }
    }

    /// Why a named ring page does not fit.
    fn ring_reason(&self, page: u16, number: u64, named: Named) -> Verdict
        ensures counts { result ≢ Verdict.Counts }
        ensures says { Says self.now.image.now page result }
        ensures exact { result ≡ ring_told self.now.image.now page number named
            self.now.survey.now.active }
    {
        let Ok((_, edition)) = self.survey.active else {
            return at_place(self.image, page);
        };
        let own = Edition {
            version: edition.version,
            generation: number,
        };
        match payload_in(self.image, page, own) {
            Err(Verdict::OtherVersion(_)) if named.serves_older => Verdict::NoRows,
            Err(verdict) => verdict,
            Ok(_) => Verdict::NoRows,
        }
    }

    /// Whether a ring page counts, and why not.
    fn ring(&self, index: u16, page: u16) -> Verdict
        ensures counts { index < RING_PAGES → (result ≡ Verdict.Counts)
            ↔ CountsRing index page self.now.named self.now.survey.now }
        ensures says { Says self.now.image.now page result }
        ensures exact { result ≡ ring_at self.now.image.now self.now.survey.now index page
            self.now.named }
    {
        let Some(named) = self.named else {
            return at_place(self.image, page);
        };
        let number = number_at(named.first, index);
        if number >= named.behind {
            return at_place(self.image, page);
        }
        if self.is_unfit(page) {
            self.ring_reason(page, number, named)
        } else {
            Verdict::Counts
        }
    }

    /// Whether a page is used, and if not, why. A gate counts exactly if its slot does, a body if it is one of those that the first
    /// body asks for, a journal page if a recovery applies its events, and a ring page if the bodies name it. Its statements about
    /// a page's octets are true.
    pub fn verdict(&self, page: u16) -> Verdict
        ensures gate { (slot : SlotOf) → page ≡ gate_of slot → (result ≡ Verdict.Counts)
            ↔ CountsGate slot self.now.survey.now }
        ensures body { (slot : SlotOf) (k : ℕ) → page ≡ gate_of slot + 1 + k → k < BODIES
            → (result ≡ Verdict.Counts)
            ↔ MayCountBody slot k page self.now.more self.now.survey.now }
        ensures journal { (k : ℕ) → page ≡ JOURNAL + k → k < JOURNAL_PAGES
            → (result ≡ Verdict.Counts) ↔ CountsJournal k self.now.survey.now }
        ensures ring { (k : ℕ) → page ≡ RING + k → k < RING_PAGES → (result ≡ Verdict.Counts)
            ↔ CountsRing k page self.now.named self.now.survey.now }
        // The verdict on a page, by its place.
        ensures exact { IsToldAt self.now.image.now self.now.survey.now self.now.more self.now.named
            page (place_at page) result }
        // What that says of its octets.
        ensures says { Says self.now.image.now page result }
    {
        match place_of(page) {
            Place::Gate(slot) => self.gate(slot),
            Place::Body(slot, index) => self.body(slot, index, page),
            Place::Journal(index) => self.journal(index, page),
            Place::Ring(index) => self.ring(index, page),
        }
    }
}

/// The ring pages that a slot's bodies name.
fn named_in<A: Allocator + Copy>(
    image: &Image<A>,
    slot: Slot,
    edition: Edition,
    found: &Result<Found<A>, OpenFault>,
) -> Option<Named>
    ensures { IfSome result (λ named. IsBehindNamed named.first found.now named.behind) }
{
    let bodies = bodies_of(image, slot, edition)?;
    let first = bodies.first_page()?;
    Some(Named {
        first,
        behind: behind_named(found, first),
        serves_older: bodies.has_first_columns(),
    })
}
