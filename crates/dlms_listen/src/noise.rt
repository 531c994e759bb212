//! The octets of a stream that are in no frame.

/// The flag of a frame.
const FLAG: u8 = 0x7e;

/// The number of flags around a frame.
const FLAGS: u32 = 2;

/// So many octets without a frame are reported before a frame comes.
const MOST_NOISE: u32 = 65_536;

/// Counts the octets that are in no frame.
#[derive(Drop)]
pub struct Noise {
    /// The octets since the last frame, without repeated flags.
    since: u32,
    /// Whether the last octet was a flag.
    is_flag: bool,
    reported: u32,
}

impl Noise {
    /// At the beginning of a stream.
    pub fn new() -> Self {
        Noise {
            since: 0,
            is_flag: false,
            reported: 0,
        }
    }

    /// Counts octets; a flag that follows another only fills the time between frames.
    fn count(&mut self, octets: &[u8]) {
        for octet in octets {
            let is_flag = *octet == FLAG;
            if !(is_flag && self.is_flag) {
                self.since = self.since.saturating_add(1);
            }
            self.is_flag = is_flag;
        }
    }

    /// Reports the octets since the last frame besides this many.
    fn report(&mut self, frame: u32) {
        self.reported = self.since.saturating_sub(frame);
        self.since = 0;
    }

    /// Takes octets in which no frame ended.
    pub fn more(&mut self, octets: &[u8]) {
        self.count(octets);
        self.reported = 0;
        if self.since > MOST_NOISE {
            self.report(0);
        }
    }

    /// Takes octets at whose end a frame ended, which has this many octets between its flags.
    pub fn until(&mut self, octets: &[u8], frame: u32) {
        self.count(octets);
        self.report(frame.saturating_add(FLAGS));
    }

    /// Takes this many octets that are in no telegram, before the telegram that they end with if there is one.
    pub fn outside(&mut self, count: usize, is_end: bool) {
        let count = u32::try_from(count).unwrap_or(u32::MAX);
        self.since = self.since.saturating_add(count);
        self.reported = 0;
        if is_end || self.since > MOST_NOISE {
            self.report(0);
        }
    }

    /// The stream is at its end.
    pub fn end(&mut self) {
        self.report(0);
    }

    /// How many octets the last call reported.
    pub fn reported(&self) -> u32 {
        self.reported
    }
}
