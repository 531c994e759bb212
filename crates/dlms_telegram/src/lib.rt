//! Telegrams of customer ports: the octets of a line in, its telegrams out, and the values in them.
#![tactic(auto)]

mod division;
pub mod laws;
mod lines;
mod numbers;
mod reader;

pub use division::check;
pub use lines::{DataLine, group_in, line_in, read_line, split_at};
pub use numbers::{Number, character_in, moment_in, number_in};
pub use reader::{Found, MOST_TELEGRAM, Telegram, TelegramReader, read_telegram};
