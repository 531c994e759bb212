//! An association: its requests, and how it handles the answers.

ghost use Rattle.std.specs.Prelude.{◌≡◌, ◌≤◌, ◌<◌, ◌↔◌, IsTrue, IfSome, IfOk, option_map, length};
ghost use Rattle.dlms_apdu.specs.Forms.{get_normal, set_normal, action_normal};
ghost use Rattle.dlms_apdu.specs.View.{request_of, selection_of};
ghost use Rattle.dlms_apdu.specs.Writing.{RequestFits, SelectorFits, ParameterFits, request_bytes};
ghost use Rattle.dlms_data.specs.View.{value_of};
ghost use Rattle.dlms_blocks.specs.BlockView.{view_of};
ghost use Rattle.dlms_data.specs.Writing.{Fits, canonical};
ghost use Rattle.dlms_association.specs.Association.{granted_at, released_at};
ghost use Rattle.dlms_association.specs.Calls.{fresh, HasFailed, OpensBy, ReleasesBy, TakesAt, Takes, GoesOn, AsksMore, HasNext, Starts, most_bytes, Sends, IsClosed, IsFree, Opens, Asks, Releases, Closes, Breaks};
ghost use Rattle.dlms_association.specs.Terms.{IsTerms, terms_of};
ghost use Rattle.dlms_association.specs.declared.stage.Asked.TheVariants.{Get, Set, Action};

use crate::apdu::Apdu;
use crate::ask_fault::AskFault;
use crate::fault::Fault;
use crate::granted::Granted;
use crate::hearing::{Heard, hear};
use crate::opening::{association, granted, released};
use crate::requests::{
    INVOKE, MOST_RAW, first_of_action, first_of_set, next_of_action, next_of_set, next_request,
};
use crate::stage::{Asked, Stage};
use crate::step::Step;
use crate::terms::Terms;
use dlms_acse::{Conformance, write_rlrq};
use dlms_apdu::{Request, write_request};
use dlms_blocks::{Block, GetIn, LEAST_SIZE, MOST_SIZE, PutOut};
use dlms_data::{Data, Descriptor, Selector, write};
use std::alloc::{Allocator, Global};
use std::marker::Model;

/// One association with a meter. It takes and returns APDUs, and knows no frame and no address.
///
/// While nothing is awaited an APDU is ignored.
#[derive(Drop)]
pub struct Association<A: Allocator = Global> {
    alloc: A,
    terms: Terms,
    stage: Stage,
    failed: Option<Fault>,
    granted: Granted,
    blocks: GetIn<A>,
    sent: Option<PutOut<A>>,
}

impl<A: Allocator> Model for Association<A> {
    ghost use Rattle.dlms_association.specs.AssociationValue.{AssociationValue, IsStanding};
    ghost use Rattle.dlms_association.specs.Terms.{terms_of};

    ghost Value = { AssociationValue };

    ghost view = { λ c. record { terms = terms_of c.terms; stage = c.stage; failed = c.failed; granted = c.granted; blocks = c.blocks; sent = c.sent } };

    ghost invariant = { λ c. IsStanding c.terms c.sent };
}

impl<A: Allocator + Copy> Association<A> {
    /// A closed association with these terms. It allocates nothing.
    pub fn new(alloc: A, terms: Terms) -> Self
        requires { IsTerms (terms_of terms) }
        ensures { result ≡ fresh (terms_of terms) }
    {
        Association {
            alloc,
            terms,
            stage: Stage::Closed,
            failed: None,
            granted: Granted {
                conformance: Conformance(0),
                size: 0,
            },
            blocks: GetIn::new(alloc),
            sent: None,
        }
    }

    /// Whether the association request may be sent: `open` may be called.
    pub fn is_closed(&self) -> bool
        ensures { IsTrue result ↔ IsClosed self.now }
    {
        match (self.failed, self.stage) {
            (None, Stage::Closed) => true,
            _ => false,
        }
    }

    /// The association request.
    pub fn open(&mut self) -> Apdu
        requires { IsClosed self.old }
        ensures { Opens self.old result self.new }
    {
        let request = association(&self.terms);
        self.send(Stage::Associating, request.as_slice())
    }

    /// How the association handles an APDU of the meter. After a fault it returns the same fault again; while nothing is awaited it
    /// ignores the APDU and returns `Nothing`.
    pub fn take(&mut self, apdu: &[u8]) -> Result<Step, Fault>
        ensures { Takes self.old apdu.now result self.new }
    {
        match self.failed {
            Some(fault) => Err(fault),
            None => self.takes(apdu),
        }
    }

    /// The connection ended as requested: `open` may be called again.
    pub fn close(&mut self)
        ensures { Closes self.old self.new }
    {
        self.stage = Stage::Closed;
    }

    /// The connection failed with this fault. From now on every APDU returns it.
    pub fn end(&mut self, fault: Fault)
        ensures { Breaks self.old fault self.new }
    {
        self.failed = Some(fault);
    }

    /// An APDU goes out, and this is awaited.
    fn send(&mut self, stage: Stage, apdu: &[u8]) -> Apdu
        requires { length apdu.now ≤ 1024 }
        ensures { Sends self.old apdu.now stage result self.new }
    {
        self.stage = stage;
        Apdu::new(apdu)
    }

    /// It is over, for good.
    fn fail(&mut self, fault: Fault) -> Result<Step, Fault>
        ensures { HasFailed self.old fault result self.new }
    {
        self.failed = Some(fault);
        Err(fault)
    }

    /// An APDU, by what is awaited.
    fn takes(&mut self, apdu: &[u8]) -> Result<Step, Fault>
        ensures { TakesAt self.old.stage self.old apdu.now result self.new }
    {
        match self.stage {
            Stage::Associating => self.opens(apdu),
            Stage::Asking(asked) => {
                let heard = hear(self.alloc, asked, &mut self.blocks, apdu);
                self.goes_on(asked, heard)
            }
            Stage::Releasing => self.releases(apdu),
            Stage::Closed | Stage::Free | Stage::Released => Ok(Step::Nothing),
        }
    }

    /// The answer to the association request.
    fn opens(&mut self, apdu: &[u8]) -> Result<Step, Fault>
        ensures { OpensBy (granted_at apdu.now) self.old result self.new }
    {
        match granted(apdu) {
            Ok(granted) => {
                self.granted = granted;
                self.stage = Stage::Free;
                Ok(Step::Associated)
            }
            Err(fault) => self.fail(fault),
        }
    }

    /// What was made of the answer to a request.
    fn goes_on(&mut self, asked: Asked, heard: Result<Heard, Fault>) -> Result<Step, Fault>
        ensures { GoesOn heard asked self.old result self.new }
    {
        match heard {
            Ok(Heard::More(number)) => self.asks_more(asked, number),
            Ok(Heard::Told(answer)) => {
                self.stage = Stage::Free;
                Ok(Step::Answered(answer))
            }
            Err(fault) => self.fail(fault),
        }
    }

    /// The request after a block with this number.
    fn asks_more(&mut self, asked: Asked, number: u32) -> Result<Step, Fault>
        ensures { AsksMore asked number self.old result self.new }
    {
        match asked {
            Asked::Get => {
                let request = next_request(number);
                Ok(Step::Send(self.send(Stage::Asking(Asked::Get), request.as_slice())))
            }
            Asked::Set => match self.next_block(number) {
                Some(block) => {
                    let request = next_of_set(&block);
                    Ok(Step::Send(self.send(Stage::Asking(Asked::Set), request.as_slice())))
                }
                None => self.fail(Fault::Block),
            },
            Asked::Action => match self.next_block(number) {
                Some(block) => {
                    let request = next_of_action(&block);
                    Ok(Step::Send(self.send(Stage::Asking(Asked::Action), request.as_slice())))
                }
                None => self.fail(Fault::Block),
            },
        }
    }

    /// The block of the request after the one with this number, if that was the last one sent and another one follows.
    fn next_block(&mut self, number: u32) -> Option<Block>
        ensures next { HasNext self.old.sent number (option_map view_of result) self.old self.new }
        ensures short { IfSome result (λ block. length block.bytes.items ≤ MOST_RAW) }
    {
        match &mut self.sent {
            Some(sent) => sent.next(number).ok(),
            None => None,
        }
    }

    /// The answer to the release.
    fn releases(&mut self, apdu: &[u8]) -> Result<Step, Fault>
        ensures { ReleasesBy (released_at apdu.now) self.old result self.new }
    {
        match released(apdu) {
            Ok(()) => {
                self.stage = Stage::Released;
                Ok(Step::Released)
            }
            Err(fault) => self.fail(fault),
        }
    }

    /// Whether a request may be made: `get`, `set`, `act` and `release` may be called.
    pub fn is_free(&self) -> bool
        ensures { IsTrue result ↔ IsFree self.now }
    {
        match (self.failed, self.stage) {
            (None, Stage::Free) => true,
            _ => false,
        }
    }

    /// Asks for an attribute, or for a part of it (Blue Book, selective access).
    pub fn get<B: Allocator>(
        &mut self,
        descriptor: Descriptor,
        selector: Option<Selector<B>>,
    ) -> Result<Apdu, AskFault>
        requires free { IsFree self.old }
        requires fits { SelectorFits (option_map selection_of selector) }
        ensures { Asks Get (get_normal INVOKE descriptor
            (option_map selection_of selector)) self.old result self.new }
    {
        let request = Request::GetNormal {
            invoke: INVOKE,
            descriptor,
            selector,
        };
        let asked = self.ask(Asked::Get, &request);
        drop(request);
        asked
    }

    /// Sets an attribute.
    pub fn set<B: Allocator>(
        &mut self,
        descriptor: Descriptor,
        selector: Option<Selector<B>>,
        value: Data<B>,
    ) -> Result<Apdu, AskFault>
        requires free { IsFree self.old }
        requires selector { SelectorFits (option_map selection_of selector) }
        requires value { Fits (value_of value) }
        ensures { Asks Set (set_normal INVOKE descriptor (option_map selection_of selector)
            (value_of value)) self.old result self.new }
    {
        let request = Request::SetNormal {
            invoke: INVOKE,
            descriptor,
            selector,
            value,
        };
        let asked = self.ask(Asked::Set, &request);
        drop(request);
        asked
    }

    /// Calls a method.
    pub fn act<B: Allocator>(
        &mut self,
        descriptor: Descriptor,
        parameter: Option<Data<B>>,
    ) -> Result<Apdu, AskFault>
        requires free { IsFree self.old }
        requires fits { ParameterFits (option_map value_of parameter) }
        ensures { Asks Action (action_normal INVOKE descriptor
            (option_map value_of parameter)) self.old result self.new }
    {
        let request = Request::ActionNormal {
            invoke: INVOKE,
            descriptor,
            parameter,
        };
        let asked = self.ask(Asked::Action, &request);
        drop(request);
        asked
    }

    /// The most bytes of an APDU that goes out.
    fn most_bytes(&self) -> u16
        ensures value { result ≡ most_bytes self.now }
        ensures carried { result ≤ MOST_SIZE }
    {
        let granted = self.granted.size;
        if granted == 0 {
            self.terms.size
        } else {
            granted.min(self.terms.size)
        }
    }

    /// A request goes out in one piece; or in blocks, the first of them now.
    fn ask<B: Allocator>(
        &mut self,
        asked: Asked,
        request: &Request<'_, B>,
    ) -> Result<Apdu, AskFault>
        requires free { IsFree self.old }
        requires fits { RequestFits (request_of request.now) }
        ensures { Asks asked (request_of request.now) self.old result self.new }
    {
        let text = write_request(self.alloc, request)?;
        if text.len() <= usize::from(self.most_bytes()) {
            self.blocks = GetIn::new(self.alloc);
            self.sent = None;
            return Ok(self.send(Stage::Asking(asked), text.as_slice()));
        }
        self.ask_in_blocks(asked, request)
    }

    /// A request that is too long for one piece goes in blocks, the first of them now.
    fn ask_in_blocks<B: Allocator>(
        &mut self,
        asked: Asked,
        request: &Request<'_, B>,
    ) -> Result<Apdu, AskFault>
        requires free { IsFree self.old }
        requires fits { RequestFits (request_of request.now) }
        requires long { most_bytes self.old < length (request_bytes (request_of request.now)) }
        ensures { Asks asked (request_of request.now) self.old result self.new }
    {
        match request {
            Request::SetNormal {
                descriptor,
                selector: None,
                value,
                ..
            } => {
                let block = self.starts(value)?;
                let request = first_of_set(*descriptor, &block);
                Ok(self.send(Stage::Asking(asked), request.as_slice()))
            }
            Request::ActionNormal {
                descriptor,
                parameter: Some(value),
                ..
            } => {
                let block = self.starts(value)?;
                let request = first_of_action(*descriptor, &block);
                Ok(self.send(Stage::Asking(asked), request.as_slice()))
            }
            _ => Err(AskFault::TooLong),
        }
    }

    /// A value is to go in blocks: the first one.
    fn starts<B: Allocator>(&mut self, value: &Data<B>) -> Result<Block, AskFault>
        requires { Fits (value_of value.now) }
        ensures starts { Starts (canonical (value_of value.now)) self.old result self.new }
        ensures short { IfOk result (λ block. length block.bytes.items ≤ MOST_RAW) }
    {
        let encoding = write(self.alloc, value)?;
        let most = self.most_bytes();
        if most < LEAST_SIZE || encoding.len() > 65_536 {
            return Err(AskFault::TooLong);
        }
        let mut sent = PutOut::start(encoding, most);
        let Ok(block) = sent.next(0) else {
            unreachable!();
        };
        self.blocks = GetIn::new(self.alloc);
        self.sent = Some(sent);
        Ok(block)
    }

    /// The release request.
    pub fn release(&mut self) -> Apdu
        requires { IsFree self.old }
        ensures { Releases self.old result self.new }
    {
        let request = write_rlrq();
        self.send(Stage::Releasing, request.as_slice())
    }

    /// The encoding of the last GET's value, as far as it was joined: all of it once the answer was returned.
    pub fn value(&self) -> &[u8]
        ensures { result.now ≡ self.now.blocks.joined }
    {
        self.blocks.bytes()
    }

    /// Why the association is over, if it is.
    pub fn fault(&self) -> Option<Fault>
        ensures { result ≡ self.now.failed }
    {
        self.failed
    }

    /// The services and size that the meter granted last; nothing before an association.
    pub fn granted(&self) -> Granted
        ensures { result ≡ self.now.granted }
    {
        self.granted
    }
}
