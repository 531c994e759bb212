//! What became of one page.
ghost use Rattle.std.specs.Prelude.{◌≡◌, ◌<◌, length};
ghost use Rattle.dlms_pages.specs.Disk.{Disk, after, disk_after, at_first};
ghost use Rattle.dlms_pages.specs.Device.{Image, page_at};
ghost use Rattle.dlms_pages.specs.History.{IsHistory};

use crate::{Call, PageRead};

/// A page as at the last sync, what reads of it give, and whether it was written since.
#[derive(Clone, Copy, Debug, PartialEq, Eq)]
pub struct History {
    pub stable: PageRead,
    pub seen: PageRead,
    pub written: bool,
}

/// What became of a page that held `first` before the calls.
pub fn history_of(first: PageRead, calls: &[Call], index: u16) -> History
    ensures { (image : Image) → index < length image → page_at image index ≡ first
        → IsHistory (disk_after (at_first image) calls.now) index result }
{
    let mut history = History {
        stable: first,
        seen: first,
        written: false,
    };
    for call in calls {
        history = after_call(history, call, index);
    }
    history
}

fn after_call(history: History, call: &Call, index: u16) -> History
    ensures { (disk : Disk) → IsHistory disk index history
        → IsHistory (after disk call.now) index result }
{
    match call {
        Call::Write { index: at, bytes } => {
            if *at == index {
                History {
                    stable: history.stable,
                    seen: PageRead::Content(*bytes),
                    written: true,
                }
            } else {
                history
            }
        }
        Call::Sync => History {
            stable: history.seen,
            seen: history.seen,
            written: false,
        },
    }
}
