//! The words of a line.

ghost use Rattle.std.specs.Prelude.{◌≤◌, IfOk};

use crate::fault::RowFault;
use crate::hexadecimal::bytes_of;
use dlms_frame::Client;
use std::alloc::Global;
use std::str::Split;

/// One above the greatest number that a row can have.
pub const NUMBERS_END: u128 = 18_446_744_073_709_551_616;

/// The arguments of a line's call, word by word. One blank is between two words.
#[derive(Drop)]
pub struct Words<'t> {
    alloc: Global,
    words: Split<'t, &'static str>,
    ahead: Option<&'t str>,
}

impl<'t> Words<'t> {
    pub fn new(alloc: Global, text: &'t str) -> Self {
        Words {
            alloc,
            words: text.trim().split(" "),
            ahead: None,
        }
    }

    /// Whether there is no further word.
    pub fn is_empty(&mut self) -> bool {
        self.ahead().is_none()
    }

    /// The next word, which stays; none after the last.
    fn ahead(&mut self) -> Option<&'t str> {
        if self.ahead.is_none() {
            self.ahead = self.words.next();
        }
        self.ahead
    }

    /// The next word, which has to be there.
    pub fn word(&mut self) -> Result<&'t str, RowFault> {
        let next = self.ahead();
        self.ahead = None;
        match next {
            Some(word) => Ok(word),
            None => Err(RowFault::Form),
        }
    }

    /// The next word, which is a number of at most this.
    fn at_most(&mut self, most: u64) -> Result<u64, RowFault>
        ensures { IfOk result (λ number. number ≤ most) }
    {
        match self.word()?.parse::<u64>() {
            Ok(number) if number <= most => Ok(number),
            _ => Err(RowFault::Form),
        }
    }

    /// The next word, which is a number.
    pub fn number(&mut self) -> Result<u32, RowFault> {
        Ok(self.at_most(4_294_967_295)? as u32)
    }

    /// The next word, which is a number of two bytes.
    pub fn short(&mut self) -> Result<u16, RowFault> {
        Ok(self.at_most(65_535)? as u16)
    }

    /// The next word, which is a number of a byte.
    pub fn byte(&mut self) -> Result<u8, RowFault> {
        Ok(self.at_most(255)? as u8)
    }

    /// The next word, which is a number of eight bytes.
    pub fn long(&mut self) -> Result<u64, RowFault> {
        self.at_most(u64::MAX)
    }

    /// The next word, which is the number of a row, or one above the last.
    pub fn row_number(&mut self) -> Result<u128, RowFault> {
        match self.word()?.parse::<u128>() {
            Ok(number) if number <= NUMBERS_END => Ok(number),
            _ => Err(RowFault::Form),
        }
    }

    /// The next word, which is a number with a sign.
    pub fn signed(&mut self) -> Result<i64, RowFault> {
        match self.word()?.parse::<i64>() {
            Ok(number) => Ok(number),
            Err(_) => Err(RowFault::Form),
        }
    }

    /// The next word, as exactly `N` bytes.
    pub fn octets<const N: usize>(&mut self) -> Result<[u8; N], RowFault> {
        let mut octets = [0u8; N];
        match hex::decode_to_slice(self.word()?.as_bytes(), &mut octets) {
            Ok(()) => Ok(octets),
            Err(_) => Err(RowFault::Form),
        }
    }

    /// The next word, as bytes.
    pub fn bytes(&mut self) -> Result<Vec<u8>, RowFault> {
        let word = self.word()?;
        bytes_of(self.alloc, word)
    }
}

/// The client that a word names.
pub fn client_of(word: &str) -> Result<Client, RowFault> {
    match word {
        "public" => Ok(Client::Public),
        "management" => Ok(Client::Management),
        "reader" => Ok(Client::Reader),
        _ => Err(RowFault::Form),
    }
}

/// `yes` or `no`.
pub fn truth_of(word: &str) -> Result<bool, RowFault> {
    match word {
        "yes" => Ok(true),
        "no" => Ok(false),
        _ => Err(RowFault::Form),
    }
}

/// Says whether it is so.
pub fn put_truth(answer: &mut String, is_so: bool) -> Result<(), RowFault> {
    Ok(answer.push_str(if is_so { "yes" } else { "no" })?)
}
