//! A meter that serves a TCP port or a serial line.
#![tactic(auto)]

mod carrier;
mod gauge;
pub mod guess_laws;
mod guesses;
mod hanging_up;
pub mod laws;
mod log;
mod pace;
mod port_watch;
mod queue;
mod refusals;
mod serial_watch;
mod serving;
mod serving_line;
mod talking;
mod telling;
mod ticks;
mod turns;
mod watch;
mod wrapped;

pub use carrier::Carrier;
pub use log::Log;
pub use serving::{Serving, serve, serve_all};
pub use serving_line::{serve_line, serve_turns};
pub use talking::{Ending, Rules, Server};
pub use ticks::{Second, Ticks};
pub use turns::{Over, Times};
pub use watch::{Peer, Watch};
