//! The content of the head of a page.
ghost use Rattle.std.specs.Prelude.{◌≡◌, slice_index, is_some};
ghost use Rattle.dlms_journal.specs.Page.{kind_named, payload_at};
ghost use Rattle.dlms_journal.specs.Page.{head_of as said_by};

use dlms_journal::{
    PAGE_BYTES, PageKind, generation_of, index_of, kind_of, payload_of, version_of,
};

/// The content of the head of a page.
#[derive(Clone, Copy, PartialEq, Eq)]
pub struct Head {
    /// The kind of the page; none if the number is unknown.
    pub kind: Option<PageKind>,
    /// The number by which it says so.
    pub number: u8,
    /// The version of the layout by which it was written.
    pub version: u8,
    /// Its place within its kind and slot.
    pub index: u16,
    /// The checkpoint that it belongs to.
    pub generation: u64,
    /// Whether its payload is one that a page can hold.
    pub has_payload: bool,
}

/// The content of the head of a page, by the readers of heads.
pub fn head_of(page: &[u8; PAGE_BYTES]) -> Head
    ensures kind { result.kind ≡ kind_named (said_by page.now).kind }
    ensures number { result.number ≡ (said_by page.now).kind }
    ensures version { result.version ≡ (said_by page.now).version }
    ensures index { result.index ≡ (said_by page.now).index }
    ensures generation { result.generation ≡ (said_by page.now).generation }
    ensures payload { result.has_payload ≡ is_some (payload_at page.now) }
{
    Head {
        kind: kind_of(page),
        number: page[0],
        version: version_of(page),
        index: index_of(page),
        generation: generation_of(page),
        has_payload: payload_of(page).is_some(),
    }
}
