//! What a meter that serves asks of the world besides the line.

ghost use Rattle.std.specs.Prelude.{List, Option, None, Ok, [], ◌∷◌};
ghost use Rattle.dlms_lines.specs.Watching.{Sight, Sees, came_in, error_in, ok_in};
ghost use Rattle.dlms_lines.specs.Watching.Sight.{Second, Another, Next, Prepares, Bars, Trusts, Pauses};

use dlms_ends::End;
use std::io;
use std::net::SocketAddr;

/// A connection that was taken, and whose it is.
#[derive(Drop)]
pub struct Peer<S> {
    pub stream: S,
    pub address: SocketAddr,
}

/// A clock, and a port at which connections come.
pub trait Watch {
    /// A connection's end here.
    type Stream: End + Drop;

    /// The questions, in order, each with its outcome, if these are known. For the system they are not; a theorem about code that
    /// takes any watch also holds for watches whose questions are known.
    ghost seen: { Self → Option (List Sight) } = { λ _. None };

    /// How many whole seconds have gone by since the beginning.
    fn seconds(&mut self) -> io::Result<u64>
        ensures { Sees (seen self.old) (seen self.new) (Second (ok_in result) ∷ []) };

    /// Whether another connection waits at this second.
    fn another_waits(&mut self, now: u64) -> bool
        ensures { Sees (seen self.old) (seen self.new) (Another now result ∷ []) };

    /// The next connection at this second: the one that has waited longest, if there is one.
    fn next(&mut self, now: u64) -> io::Result<Option<Peer<Self::Stream>>>
        ensures { Sees (seen self.old) (seen self.new)
            (Next now (came_in result (λ peer. peer.address)) ∷ []) };

    /// Makes a connection ready: no call on it waits for long.
    fn prepare(&mut self, stream: &mut Self::Stream) -> io::Result<()>
        ensures { Sees (seen self.old) (seen self.new) (Prepares (error_in result) ∷ []) };

    /// An association request from this address was refused at this second: its connections are not served for a while.
    fn bar(&mut self, address: SocketAddr, now: u64)
        ensures { Sees (seen self.old) (seen self.new) (Bars address now ∷ []) };

    /// The client that is served has proved a secret at this second: it waits for a shorter time after a refusal.
    fn trust(&mut self, now: u64)
        ensures { Sees (seen self.old) (seen self.new) (Trusts now ∷ []) };

    /// Lets a while go by.
    fn pause(&mut self)
        ensures { Sees (seen self.old) (seen self.new) (Pauses ∷ []) };
}
