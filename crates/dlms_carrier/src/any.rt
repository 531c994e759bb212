//! A carrier that is chosen while the program runs.

ghost use Rattle.std.specs.Prelude.{◌≡◌, ◌↔◌, IfOk, IfSome, IsTrue};
ghost use Rattle.dlms_frame.specs.Frame.{IsAddress};
ghost use Rattle.dlms_link.specs.Parameters.{IsProposable};
ghost use Rattle.dlms_carrier.specs.Any.{IsFresh, IsRoute, outlasts};

use crate::carrier::Carrier;
use crate::event::{Event, Fed};
use crate::hdlc::HdlcCarrier;
use crate::tcp::TcpCarrier;
use dlms_frame::Address;
use dlms_link::is_proposable;
use std::alloc::{AllocError, Allocator, Global};
use std::marker::Model;

/// Which carrier leads to a meter, and both addresses on it.
#[derive(Clone, Copy, Debug, PartialEq, Eq)]
pub enum Route {
    /// An HDLC link, from the client with this service access point, 1 to 127, to the meter at this address. If there is a number,
    /// 128 to 2,030, the link proposes it as the most octets of information in a frame of the meter.
    Hdlc(u8, Address, Option<u16>),
    /// The TCP wrapper, from this wrapper port of the client, which is not 0, to this one of the meter.
    Tcp(u16, u16),
}

/// Whether each part of an address has its bits.
fn is_address(address: Address) -> bool
    ensures { IsTrue result ↔ IsAddress address }
{
    match address {
        Address::One(part) => part < 128,
        Address::Two(high, low) => high < 128 && low < 128,
        Address::Four(high, low) => high < 16_384 && low < 16_384,
    }
}

/// Whether a link may propose this.
fn is_proposal(proposal: Option<u16>) -> bool
    ensures { IsTrue result ↔ IfSome proposal IsProposable }
{
    match proposal {
        None => true,
        Some(size) => is_proposable(size),
    }
}

impl Route {
    /// Whether the addresses and the proposal are in their ranges: a carrier may be made for this route.
    pub fn is_lawful(&self) -> bool
        ensures { IsTrue result ↔ IsRoute self.now }
    {
        match *self {
            Route::Hdlc(own, server, proposal) => {
                0 < own && own < 128 && is_address(server) && is_proposal(proposal)
            }
            Route::Tcp(own, _) => 0 < own,
        }
    }

    /// Whether a connection outlasts an association over it, and an answer that did not come. Over the wrapper it does not: the
    /// association ends with its connection (IEC 62056-47), and a late answer could be taken for that to the next request.
    pub fn outlasts(&self) -> bool
        ensures { result ≡ outlasts self.now }
    {
        match *self {
            Route::Hdlc(..) => true,
            Route::Tcp(..) => false,
        }
    }
}

/// The carriers of the routes.
#[derive(Drop)]
enum Chosen<A: Allocator> {
    Hdlc(HdlcCarrier<A>),
    Tcp(TcpCarrier),
}

/// The carrier of a route.
#[derive(Drop)]
pub struct AnyCarrier<A: Allocator = Global> {
    chosen: Chosen<A>,
}

impl<A: Allocator> Model for AnyCarrier<A> {
    ghost use Rattle.dlms_carrier.specs.Any.{AnyValue, value_of};

    ghost Value = { AnyValue };

    ghost view = { value_of };
}

impl<A: Allocator> AnyCarrier<A> {
    /// The carrier of this route, without a connection. Only one over HDLC allocates.
    pub fn new(alloc: A, route: Route) -> Result<Self, AllocError>
        requires { IsRoute route }
        ensures { IfOk result (IsFresh route) }
    {
        match route {
            Route::Hdlc(own, server, proposal) => {
                let carrier = HdlcCarrier::new(alloc, own, server, proposal)?;
                Ok(AnyCarrier {
                    chosen: Chosen::Hdlc(carrier),
                })
            }
            Route::Tcp(own, server) => {
                drop(alloc);
                Ok(AnyCarrier {
                    chosen: Chosen::Tcp(TcpCarrier::new(own, server)),
                })
            }
        }
    }
}

impl<A: Allocator> Carrier for AnyCarrier<A> {
    ghost use Rattle.dlms_carrier.specs.Any.{Steps, apdu_of, awaited, is_down, is_idle, is_waiting, out_of, settled};

    ghost steps = { Steps };

    ghost out_of = { out_of };

    ghost apdu_of = { apdu_of };

    ghost is_down = { is_down };

    ghost is_idle = { is_idle };

    ghost is_waiting = { is_waiting };

    ghost awaited = { awaited };

    ghost settled = { settled };

    fn is_down(&self) -> bool {
        match &self.chosen {
            Chosen::Hdlc(carrier) => carrier.is_down(),
            Chosen::Tcp(carrier) => carrier.is_down(),
        }
    }

    fn is_idle(&self) -> bool {
        match &self.chosen {
            Chosen::Hdlc(carrier) => carrier.is_idle(),
            Chosen::Tcp(carrier) => carrier.is_idle(),
        }
    }

    fn is_waiting(&self) -> bool {
        match &self.chosen {
            Chosen::Hdlc(carrier) => carrier.is_waiting(),
            Chosen::Tcp(carrier) => carrier.is_waiting(),
        }
    }

    fn begin(&mut self) -> Event {
        match &mut self.chosen {
            Chosen::Hdlc(carrier) => carrier.begin(),
            Chosen::Tcp(carrier) => carrier.begin(),
        }
    }

    fn give(&mut self, apdu: &[u8]) -> Event {
        match &mut self.chosen {
            Chosen::Hdlc(carrier) => carrier.give(apdu),
            Chosen::Tcp(carrier) => carrier.give(apdu),
        }
    }

    fn feed(&mut self, octets: &[u8]) -> Fed {
        match &mut self.chosen {
            Chosen::Hdlc(carrier) => carrier.feed(octets),
            Chosen::Tcp(carrier) => carrier.feed(octets),
        }
    }

    fn wait(&mut self) -> Event {
        match &mut self.chosen {
            Chosen::Hdlc(carrier) => carrier.wait(),
            Chosen::Tcp(carrier) => carrier.wait(),
        }
    }

    fn end(&mut self) -> Event {
        match &mut self.chosen {
            Chosen::Hdlc(carrier) => carrier.end(),
            Chosen::Tcp(carrier) => carrier.end(),
        }
    }

    fn out(&self) -> &[u8] {
        match &self.chosen {
            Chosen::Hdlc(carrier) => carrier.out(),
            Chosen::Tcp(carrier) => carrier.out(),
        }
    }

    fn apdu(&self) -> &[u8] {
        match &self.chosen {
            Chosen::Hdlc(carrier) => carrier.apdu(),
            Chosen::Tcp(carrier) => carrier.apdu(),
        }
    }
}
