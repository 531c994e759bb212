//! The APDUs of a stream that comes in pieces.

ghost use Rattle.std.specs.Prelude.{◌≡◌};
ghost use Rattle.dlms_transfer.specs.Blocks.{block_in, kept_after};
ghost use Rattle.dlms_listen.specs.Joined.{heard, outcome_of, segment_of, torn};
ghost use Rattle.dlms_listen.specs.Line.{found_after, skip_after, skip_of, with_segment};

use crate::carrier::{Carrier, carrier_of};
use crate::fault::Skip;
use crate::noise::Noise;
use crate::segments::Segments;
use dlms_frame::{Deframer, Frame};
use dlms_telegram as telegrams;
use dlms_telegram::TelegramReader;
use dlms_transfer::{Blocks, Outcome, Step};
use dlms_wrapper::{MOST_APDU, MessageReader};
use std::marker::Model;

/// Where the APDU is that the last call completed.
#[derive(Clone, Copy)]
enum Found {
    Nothing,
    Frame,
    Message,
    Blocks,
}

/// Finds the APDUs of a stream, in HDLC frames or in messages of the wrapper, and joins segments and blocks; or its telegrams. It
/// allocates nothing and takes some 29 KB. After each `feed` look at `noise`, `skipped`, `apdu` and `telegram`.
#[derive(Drop)]
pub struct Listener {
    carrier: Option<Carrier>,
    deframer: Deframer,
    reader: MessageReader,
    segments: Segments,
    blocks: Blocks,
    telegrams: TelegramReader,
    found: Found,
    skipped: Option<Skip>,
    noise: Noise,
}

impl Model for Listener {
    ghost use Rattle.dlms_listen.specs.Line.{Line};

    ghost Value = { Line };

    ghost view = { λ l. record {
      carrier = l.carrier;
      frames = l.deframer;
      messages = l.reader;
      segments = l.segments;
      blocks = l.blocks;
      telegrams = l.telegrams;
      found = l.found;
      skipped = l.skipped;
    } };
}

/// The cause of octets left out, if earlier blocks were dropped.
fn torn(is_torn: bool) -> Option<Skip>
    ensures { result ≡ torn is_torn }
{
    if is_torn {
        Some(Skip::TornBlocks)
    } else {
        None
    }
}

/// Whether an APDU is complete with a block, and the cause of octets left out.
fn heard(outcome: Outcome) -> (bool, Option<Skip>)
    ensures { record { complete = result.0; skip = result.1 } ≡ heard outcome }
{
    match outcome.step {
        Step::More => (false, torn(outcome.is_torn)),
        Step::Whole => (true, torn(outcome.is_torn)),
        Step::NotNext => (false, Some(Skip::TornBlocks)),
        Step::Long => (false, Some(Skip::Long)),
    }
}

/// Takes an APDU that is complete in a frame or in a message. Returns its place, which is the blocks if it is the last one of them,
/// and the cause of octets left out: with it or `before` it.
fn join_apdu(
    blocks: &mut Blocks,
    apdu: &[u8],
    found: Found,
    before: Option<Skip>,
) -> (Found, Option<Skip>)
    ensures blocks { blocks.new ≡ kept_after blocks.old (block_in apdu.now) }
    ensures found { result.0 ≡ found_after found (outcome_of blocks.old (block_in apdu.now)) }
    ensures skipped { result.1 ≡ skip_after before (outcome_of blocks.old (block_in apdu.now)) }
{
    match blocks.offer(apdu) {
        None => (found, before),
        Some(outcome) => match heard(outcome) {
            (true, skip) => (Found::Blocks, skip.or(before)),
            (false, skip) => (Found::Nothing, skip.or(before)),
        },
    }
}

/// Takes a frame. Returns the place of a complete APDU, and the cause of octets left out.
fn join_frame(
    segments: &mut Segments,
    blocks: &mut Blocks,
    frame: &Frame<'_>,
) -> (Found, Option<Skip>)
    ensures { record {
      segments = segments.new;
      blocks = blocks.new;
      found = result.0;
      skipped = result.1;
    }
        ≡ with_segment blocks.old (segment_of segments.old frame.now) }
{
    let (is_whole, skip) = segments.take(frame);
    if is_whole {
        join_apdu(blocks, segments.apdu(), Found::Frame, skip)
    } else {
        (Found::Nothing, skip)
    }
}

/// Why a telegram is left out, if the last call of its reader completed none that is whole.
fn skip_of(found: telegrams::Found) -> Option<Skip>
    ensures { result ≡ skip_of found }
{
    match found {
        telegrams::Found::WrongCheck => Some(Skip::WrongCheck),
        telegrams::Found::Long => Some(Skip::LongTelegram),
        telegrams::Found::Nothing | telegrams::Found::Telegram | telegrams::Found::Sealed => None,
    }
}

/// The octets that a reader keeps of a telegram that has not ended; `None` if the last call ended one.
fn open_octets(reader: &TelegramReader) -> Option<usize> {
    match reader.found() {
        telegrams::Found::Nothing => Some(reader.octets().len()),
        _ => None,
    }
}

impl Listener {
    ghost use Rattle.std.specs.Prelude.{◌≡◌, ◌<◌, ◌≤◌, None, [], length, option_map, take};
    ghost use Rattle.dlms_frame.specs.Stream.{Fits};
    ghost use Rattle.dlms_listen.specs.Line.{Takes, TakesFrames, TakesMessages, TakesTelegrams, apdu_in, telegram_in};
    ghost use Rattle.dlms_telegram.specs.Telegram.{nothing};
    ghost use Rattle.dlms_telegram.specs.declared.reader.Found.TheVariants.{Nothing};

    /// At the beginning of a stream of this carrier, which the first octet tells if none is given.
    pub fn new(carrier: Option<Carrier>) -> Self
        ensures carrier { result.carrier ≡ carrier }
        ensures frames { Fits result.frames.bytes [] 0 }
        ensures messages { result.messages ≡ record { limit = 1024; bytes = []; message = None } }
        ensures segments { result.segments ≡ record { octets = []; ends = None } }
        ensures blocks { result.blocks ≡ record { octets = []; last = 0 } }
        ensures telegrams { result.telegrams ≡ nothing Nothing }
    {
        Listener {
            carrier,
            deframer: Deframer::new(),
            reader: MessageReader::new(MOST_APDU),
            segments: Segments::new(),
            blocks: Blocks::new(),
            telegrams: TelegramReader::new(),
            found: Found::Nothing,
            skipped: None,
            noise: Noise::new(),
        }
    }

    /// Takes octets of HDLC frames, at most to the end of the next one.
    fn feed_frames(&mut self, octets: &[u8]) -> usize
        ensures len { result ≤ length octets.now }
        ensures some { 0 < length octets.now → 0 < result }
        ensures takes { TakesFrames self.old (take result octets.now) self.new }
    {
        self.carrier = Some(Carrier::Hdlc);
        self.found = Found::Nothing;
        self.skipped = None;
        let count = self.deframer.feed(octets);
        match self.deframer.frame() {
            Some(frame) => {
                self.noise.until(&octets[..count], frame.len() as u32);
                let (found, skipped) = join_frame(&mut self.segments, &mut self.blocks, &frame);
                self.found = found;
                self.skipped = skipped;
            }
            None => self.noise.more(&octets[..count]),
        }
        count
    }

    /// Takes octets of messages, at most to the end of the next one; all, if there are no further messages.
    fn feed_messages(&mut self, octets: &[u8]) -> usize
        ensures len { result ≤ length octets.now }
        ensures some { 0 < length octets.now → 0 < result }
        ensures takes { TakesMessages self.old (take result octets.now) self.new }
    {
        self.carrier = Some(Carrier::Wrapper);
        self.found = Found::Nothing;
        self.skipped = None;
        let count = self.reader.feed(octets);
        if let Some(message) = self.reader.message() {
            let (found, skipped) = join_apdu(&mut self.blocks, message.apdu, Found::Message, None);
            self.found = found;
            self.skipped = skipped;
            return count;
        }
        match self.reader.fault() {
            Some(fault) => {
                if count > 0 {
                    self.skipped = Some(Skip::Header(fault));
                }
                octets.len()
            }
            None => count,
        }
    }

    /// Takes octets of telegrams, at most to the end of the next one.
    fn feed_telegrams(&mut self, octets: &[u8]) -> usize
        ensures len { result ≤ length octets.now }
        ensures some { 0 < length octets.now → 0 < result }
        ensures takes { TakesTelegrams self.old (take result octets.now) self.new }
    {
        self.carrier = Some(Carrier::Telegrams);
        self.found = Found::Nothing;
        let before = open_octets(&self.telegrams).unwrap_or(0);
        let count = self.telegrams.feed(octets);
        self.skipped = skip_of(self.telegrams.found());
        let kept = self.telegrams.octets().len();
        let is_end = open_octets(&self.telegrams).is_none();
        let all = before.saturating_add(count);
        self.noise.outside(all.saturating_sub(kept), is_end);
        count
    }

    /// Takes octets, at most to the end of the next frame, message or telegram, and returns how many it took; pass the others to the
    /// next call. It drops the APDU or the telegram of the call before.
    pub fn feed(&mut self, octets: &[u8]) -> usize
        ensures len { result ≤ length octets.now }
        ensures some { 0 < length octets.now → 0 < result }
        ensures takes { Takes self.old (take result octets.now) self.new }
    {
        let carrier = match (self.carrier, octets) {
            (Some(carrier), _) => carrier,
            (None, [first, ..]) => carrier_of(*first),
            (None, []) => {
                self.found = Found::Nothing;
                self.skipped = None;
                return 0;
            }
        };
        match carrier {
            Carrier::Hdlc => self.feed_frames(octets),
            Carrier::Wrapper => self.feed_messages(octets),
            Carrier::Telegrams => self.feed_telegrams(octets),
        }
    }

    /// The stream is at its end: reports what is left of it by `noise` and `skipped`.
    pub fn close(&mut self) {
        self.found = Found::Nothing;
        self.noise.end();
        let is_torn = self.segments.clear();
        let is_torn_block = self.blocks.clear();
        self.skipped = if is_torn {
            Some(Skip::Torn)
        } else if is_torn_block {
            Some(Skip::TornBlocks)
        } else {
            None
        };
    }

    /// How many octets were in no frame or telegram, before the one that the last call completed.
    pub fn noise(&self) -> u32 {
        self.noise.reported()
    }

    /// What carries the APDUs, if that is known.
    pub fn carrier(&self) -> Option<Carrier>
        ensures { result ≡ self.now.carrier }
    {
        self.carrier
    }

    /// Why the last call left out octets, if it did.
    pub fn skipped(&self) -> Option<Skip>
        ensures { result ≡ self.now.skipped }
    {
        self.skipped
    }

    /// The APDU that the last call completed, if it completed one.
    pub fn apdu(&self) -> Option<&[u8]>
        ensures { option_map (λ apdu. apdu.now) result ≡ apdu_in self.now }
    {
        match self.found {
            Found::Nothing => None,
            Found::Frame => Some(self.segments.apdu()),
            Found::Message => match self.reader.message() {
                Some(message) => Some(message.apdu),
                None => None,
            },
            Found::Blocks => Some(self.blocks.apdu()),
        }
    }

    /// The octets of the telegram that the last call completed, in clear or ciphered, if it completed one.
    pub fn telegram(&self) -> Option<&[u8]>
        ensures { option_map (λ octets. octets.now) result ≡ telegram_in self.now.telegrams }
    {
        match self.telegrams.found() {
            telegrams::Found::Telegram | telegrams::Found::Sealed => Some(self.telegrams.octets()),
            telegrams::Found::Nothing | telegrams::Found::WrongCheck | telegrams::Found::Long =>
                None,
        }
    }
}
