//! The last invocation counter that was accepted from each sender.

ghost use Rattle.std.specs.Prelude.{◌≡◌, ◌≢◌, ◌<◌, ◌≤◌, ℕ, IfNone, IfSome, Some, length, slice_get};
ghost use Rattle.dlms_listen.specs.declared.counters.TheConstants.{MOST_SENDERS};
ghost use Rattle.dlms_listen.specs.Sender.{IsFresh, last_of, place_in};

use arrayvec::ArrayVec;

/// The most senders, as many as a file of keys has stations.
const MOST_SENDERS: usize = 256;

/// A sender, and its last counter.
#[derive(Clone, Copy, Default)]
struct Sender {
    title: [u8; 8],
    last: Option<u32>,
}

/// The senders of a run. Their counters are not stored: a new run accepts old messages again, each once.
#[derive(Drop)]
pub struct Senders {
    all: ArrayVec<Sender, MOST_SENDERS>,
}

/// Why a counter is not accepted.
#[derive(Clone, Copy)]
pub enum Unaccepted {
    /// It is not above this one, the last that was accepted.
    Replay(u32),
    /// It is of one sender more than there is room for.
    Full,
}

/// The last counter, if a counter is not above it.
fn stale_by(last: Option<u32>, counter: u32) -> Option<u32>
    ensures some { IfSome result (λ l. (last ≡ Some l) × (counter ≤ l)) }
    ensures none { IfNone result (IsFresh last counter) }
{
    match last {
        Some(last) if counter <= last => Some(last),
        _ => None,
    }
}

/// The place of the sender with this title; the end if no sender has it.
fn place_of(senders: &[Sender], title: [u8; 8]) -> usize
    ensures place { result ≡ place_in title senders.now }
    ensures within { result ≤ length senders.now }
{
    for (i, sender) in senders.iter().enumerate() {
        if sender.title == title {
            return i;
        }
    }
    senders.len()
}

/// The last counter of the sender at a place.
fn last_at(senders: &[Sender], at: usize) -> Option<u32>
    ensures { result ≡ last_of (slice_get senders.now at) }
{
    match senders.get(at) {
        Some(sender) => sender.last,
        None => None,
    }
}

/// Puts a sender at a place, or at the end.
fn put(all: &mut ArrayVec<Sender, MOST_SENDERS>, at: usize, sender: Sender)
    requires within { at ≤ length all.old.items }
    requires room { at ≡ length all.old.items → at < MOST_SENDERS }
    ensures here { slice_get all.new.items at ≡ Some sender }
    ensures others { (i : ℕ) → i ≢ at → slice_get all.new.items i ≡ slice_get all.old.items i }
{
    if at < all.len() {
        all.as_mut_slice()[at] = sender;
    } else {
        let _ = all.try_push(sender);
    }
}

impl Senders {
    ghost use Rattle.std.specs.Prelude.{◌≡◌, [], IfErr, OnErr, OnOk};
    ghost use Rattle.dlms_listen.specs.Sender.{Accepts, IsUnaccepted};

    /// Nothing was accepted.
    pub fn new() -> Self
        ensures { result.all.items ≡ [] }
    {
        Senders {
            all: ArrayVec::new(),
        }
    }

    /// Accepts a counter of the sender with this title if it is above the last one, which it then is. Otherwise nothing changes.
    pub fn accept(&mut self, title: [u8; 8], counter: u32) -> Result<(), Unaccepted>
        ensures ok { OnOk result (Accepts title counter self.old.all.items self.new.all.items) }
        ensures err { OnErr result (self.new ≡ self.old) }
        ensures why { IfErr result (IsUnaccepted title counter self.old.all.items) }
    {
        let at = place_of(self.all.as_slice(), title);
        let last = last_at(self.all.as_slice(), at);
        if let Some(last) = stale_by(last, counter) {
            return Err(Unaccepted::Replay(last));
        }
        if at == self.all.len() && at == MOST_SENDERS {
            return Err(Unaccepted::Full);
        }
        let sender = Sender {
            title,
            last: Some(counter),
        };
        put(&mut self.all, at, sender);
        Ok(())
    }
}
