//! A clock and a port for tests, whose past is known: a second goes by at each look, a number of times, and one connection comes.

ghost use Rattle.std.specs.Prelude.{◌≡◌, [], ◌∷◌, ◌++◌, Some, map};
ghost use Rattle.test_scripts.specs.Scripts.{sight_of};

use crate::line::{Play, SNRM, Script, UA};
use crate::noted::{Noted, are_numbered};
use dlms_lines::FieldFault;
use dlms_meter::Meter;
use dlms_pages::MemoryPages;
use dlms_serving::{
    Carrier, Log, Peer, Rules, Server, Ticks, Times, Watch, serve_all, serve_turns,
};
use dlms_store::PAGES;
use std::alloc::Global;
use std::io;
use std::net::{Ipv4Addr, SocketAddr};
use std::process::Abort;

/// A clock that ends before this second, and a port at which one connection comes, if this is played; then the port fails.
#[derive(Drop)]
struct Porch<'a, R: Abort> {
    rt: &'a R,
    alloc: Global,
    plays: &'a [Play<'a>],
    second: u64,
    end: u64,
    has_come: bool,
    noted: Vec<Noted>,
}

impl<'a, R: Abort> Porch<'a, R> {
    /// Nothing was asked.
    fn new(rt: &'a R, alloc: Global, plays: &'a [Play<'a>], end: u64) -> Self {
        Porch {
            rt,
            alloc,
            plays,
            second: 0,
            end,
            has_come: false,
            noted: Vec::new(alloc),
        }
    }

    /// This was asked.
    fn note(&mut self, noted: Noted)
        ensures { self.new.noted.items ≡ self.old.noted.items ++ noted ∷ [] }
    {
        self.noted.push(noted).expect(self.rt, "memory");
    }
}

impl<'a, R: Abort> Watch for Porch<'a, R> {
    type Stream = Script<'a, R>;

    ghost seen = { λ s. Some (map (λ n. sight_of n.number n.second n.is_so n.failed n.address n.file.items n.bytes.items) s.noted.items) };

    #[tactic(auto, using(crate::proofs::Lists::map_append))]
    fn seconds(&mut self) -> io::Result<u64> {
        let second = self.second;
        let is_so = second < self.end;
        self.second = second.saturating_add(1);
        self.note(Noted::of(self.alloc, 0, second, is_so, None));
        if is_so {
            Ok(second)
        } else {
            Err(io::Error::other("no clock"))
        }
    }

    #[tactic(auto, using(crate::proofs::Lists::map_append))]
    fn another_waits(&mut self, now: u64) -> bool {
        self.note(Noted::of(self.alloc, 1, now, false, None));
        false
    }

    #[tactic(auto, using(crate::proofs::Lists::map_append))]
    fn next(&mut self, now: u64) -> io::Result<Option<Peer<Script<'a, R>>>> {
        if self.has_come {
            let error = io::Error::other("no port");
            self.note(Noted::of(self.alloc, 2, now, false, Some(error)));
            return Err(error);
        }
        self.has_come = true;
        let address = SocketAddr::from((Ipv4Addr::LOCALHOST, 4_059u16));
        self.note(Noted::from(self.alloc, 2, now, None, address));
        Ok(Some(Peer {
            stream: Script::new(self.rt, self.alloc, self.plays),
            address,
        }))
    }

    #[tactic(auto, using(crate::proofs::Lists::map_append))]
    fn prepare(&mut self, _stream: &mut Script<'a, R>) -> io::Result<()> {
        self.note(Noted::of(self.alloc, 3, 0, true, None));
        Ok(())
    }

    #[tactic(auto, using(crate::proofs::Lists::map_append))]
    fn bar(&mut self, address: SocketAddr, now: u64) {
        self.note(Noted::from(self.alloc, 4, now, None, address));
    }

    #[tactic(auto, using(crate::proofs::Lists::map_append))]
    fn trust(&mut self, now: u64) {
        self.note(Noted::of(self.alloc, 9, now, true, None));
    }

    #[tactic(auto, using(crate::proofs::Lists::map_append))]
    fn pause(&mut self) {
        self.note(Noted::of(self.alloc, 5, 0, true, None));
    }
}

/// A connection is made ready and served: the clock is read when it comes, when it begins, before each read and after each frame;
/// and if the port or the clock fails, the serving ends with that.
#[test]
fn a_connection_is_served(rt: HostRuntime) {
    let rules = Rules {
        carrier: Carrier::Hdlc,
        tick: 1,
        times: Times {
            inactivity: 120,
            idle: 5,
            longest: 60,
        },
        refusals: 1,
    };
    let plays = [Play::Bytes(&SNRM), Play::Nothing];
    let served: [(u64, bool, &[u8]); 3] = [
        (100, true, &[0, 2, 3, 0, 0, 1, 0, 1, 0, 1, 0, 1, 0, 2]),
        (4, false, &[0, 2, 3, 0, 0, 1, 0, 1, 0]),
        (0, false, &[0]),
    ];
    for (end, is_of_port, numbers) in served {
        let pages = MemoryPages::new(rt.alloc(), PAGES).expect(&rt, "memory");
        let Ok(mut meter) = Meter::format(rt.alloc(), pages) else {
            panic!(rt; "no meter");
        };
        let mut errors: Vec<u8> = Vec::new(rt.alloc());
        let porch = Porch::new(&rt, rt.alloc(), &plays, end);
        let mut server = Server::new(porch, Ticks::new(0, 0), Log::quiet(), &mut errors);
        let served = serve_all(&mut server, rules, &mut meter, "here");
        let is_of_system = matches!(served, Err(FieldFault::System("here", _)));
        assert!(rt; is_of_system == is_of_port);
        assert!(rt; served.is_err());
        assert!(rt; are_numbered(server.watch.noted.as_slice(), numbers));
    }
}

/// A serial line is served one turn after another: the clock is read when a turn begins, before each read and after each frame;
/// three seconds without a frame end a turn, and the next one begins; and if the line is gone, or the clock fails, the serving ends
/// with that.
#[test]
fn a_line_is_served(rt: HostRuntime) {
    let rules = Rules {
        carrier: Carrier::Hdlc,
        tick: 1,
        times: Times {
            inactivity: 3,
            idle: 5,
            longest: 60,
        },
        refusals: 1,
    };
    let asking = [Play::Bytes(&SNRM), Play::Nothing];
    let silent = [Play::Nothing, Play::Nothing];
    let served: [(bool, u64, bool, &[u8]); 4] = [
        (true, 100, true, &[0, 0, 1, 0, 1, 0, 1, 0, 1]),
        (true, 4, false, &[0, 0, 1, 0, 1, 0, 1, 0]),
        (true, 0, false, &[0]),
        (false, 100, true, &[0, 0, 1, 0, 1, 0, 1, 0, 0, 1]),
    ];
    for (asks, end, is_gone, numbers) in served {
        let pages = MemoryPages::new(rt.alloc(), PAGES).expect(&rt, "memory");
        let Ok(mut meter) = Meter::format(rt.alloc(), pages) else {
            panic!(rt; "no meter");
        };
        let mut errors: Vec<u8> = Vec::new(rt.alloc());
        let plays = if asks { &asking } else { &silent };
        let mut line = Script::new(&rt, rt.alloc(), plays);
        let porch = Porch::new(&rt, rt.alloc(), &[], end);
        let mut server = Server::new(porch, Ticks::new(0, 0), Log::quiet(), &mut errors);
        let served = serve_turns(&mut server, rules, &mut meter, &mut line, "here");
        let is_of_system = matches!(served, Err(FieldFault::System("here", _)));
        assert!(rt; is_of_system == is_gone);
        assert!(rt; served.is_err());
        assert!(rt; are_numbered(server.watch.noted.as_slice(), numbers));
        let is_answered = line.has(2, false, true, &UA);
        assert!(rt; is_answered == (asks && is_gone));
    }
}
