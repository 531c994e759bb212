//! Laws of records and pages. They make no call: the calls' own contracts cite the same definitions.
ghost use Rattle.std.specs.Prelude.{◌≡◌, ◌≤◌, ℕ, List, ◌++◌, length, Some};
ghost use Rattle.dlms_state.specs.declared.event.Event.{Event};
ghost use Rattle.dlms_state.specs.Types.{FitsType};
ghost use Rattle.dlms_journal.specs.declared.kind.PageKind.{PageKind};
ghost use Rattle.dlms_journal.specs.Page.{IsPage, head_of, kind_named, payload_at};
ghost use Rattle.dlms_journal.specs.Record.{Holds, record_of};
ghost use Rattle.dlms_journal.specs.declared.page.TheConstants.{MOST_PAYLOAD, VERSION};

/// No record is the beginning of another: the bytes determine an event and what follows its record.
pub fn no_record_begins_another()
    ensures { (e f : Event) (behind after : List ℕ) → FitsType e → FitsType f
        → record_of e ++ behind ≡ record_of f ++ after → (e ≡ f) × (behind ≡ after) }
{}

/// Bytes hold one list of events at most.
pub fn one_list()
    ensures { (bytes : List ℕ) (E F : List Event) → Holds bytes E → Holds bytes F → E ≡ F }
{}

/// Records after records contain the events of both, in order.
pub fn records_join()
    ensures { (front back : List ℕ) (E F : List Event) → Holds front E → Holds back F
        → Holds (front ++ back) (E ++ F) }
{}

/// A written page is read as it was written: its kind and its payload. The other fields are equations of `IsPage` itself.
pub fn pages_are_read()
    ensures { (page : List ℕ) (kind : PageKind) (index generation : ℕ) (payload : List ℕ)
        → length payload ≤ MOST_PAYLOAD → IsPage page kind index generation payload
        → (kind_named (head_of page).kind ≡ Some kind) × (payload_at page ≡ Some payload) }
{}

/// The numbers that clauses and definitions cite by name.
pub fn the_numbers()
    ensures payload { MOST_PAYLOAD ≡ 496 }
    ensures version { VERSION ≡ 2 }
{}
