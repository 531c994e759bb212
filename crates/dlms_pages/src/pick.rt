//! What a stop leaves of the pages that were written since the last sync.
ghost use Rattle.std.specs.Prelude.{◌≡◌};
ghost use Rattle.dlms_pages.specs.Pick.{choice_at};

/// What a stop leaves of a page that was written since the last sync.
#[derive(Clone, Copy, Debug, PartialEq, Eq)]
pub enum PageChoice {
    /// Its content at the last sync.
    Old,
    /// What was written to it last.
    New,
    /// Neither: the page reads as damaged.
    Torn,
}

/// What a stop leaves of all of them.
#[derive(Clone, Copy, Debug)]
pub enum Pick<'a> {
    /// Each is left as it was at the last sync.
    AllOld,
    /// Each is left as it was written last.
    AllNew,
    /// Each reads as damaged.
    AllDamaged,
    /// The choice at each place is for the page with that index; pages past the list's end are left old.
    Each(&'a [PageChoice]),
}

impl Pick<'_> {
    pub(crate) fn choice(&self, index: usize) -> PageChoice
        ensures { result ≡ choice_at self.now index }
    {
        match self {
            Pick::AllOld => PageChoice::Old,
            Pick::AllNew => PageChoice::New,
            Pick::AllDamaged => PageChoice::Torn,
            Pick::Each(choices) => choices.get(index).copied().unwrap_or(PageChoice::Old),
        }
    }
}
