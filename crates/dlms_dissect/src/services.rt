//! The state of the services of a session, from one APDU to the next.

ghost use Rattle.std.specs.Prelude.{◌≡◌, Some, None, length, option_map, IfOk, OnErr};
ghost use Rattle.dlms_dissect.specs.Foreign.{answered_by, of_answer, role_of, values_of};
ghost use Rattle.dlms_dissect.specs.Said.{ShowsRequest, ShowsResponse, answered, asked_of, request_form, request_invoke, request_selector, response_form, response_invoke};
ghost use Rattle.dlms_dissect.specs.Secrets.{secrecy_of, told_as};
ghost use Rattle.dlms_dissect.specs.Services.{awaited_behind, behind_request, behind_response, got_joined, heard, JoinsBlock, idle, put_joined, transfers_behind, transfers_behind_response, unasked};
ghost use Rattle.dlms_dissect.specs.Whole.{IsToldOfWhole, WantsMemory};

use crate::foreign::{Foreign, Role};
use crate::joining::{Joined, Transfers};
use crate::named::{Asked, Named, of_invoke};
use crate::said::{Said, asked_by, request_said, response_said};
use crate::secrecy::{Secrecy, secrecy_of, secrecy_of_named, told_as};
use crate::whole::Whole;
use dlms_apdu::{Request, Response};
use std::alloc::{AllocError, Allocator};

/// The object of an answer with this invoke-id-and-priority.
fn answered_by(asked: Option<Asked>, invoke: Option<u8>) -> Option<Asked>
    ensures { result ≡ answered_by asked invoke }
{
    match invoke {
        Some(invoke) => of_invoke(asked, invoke),
        None => None,
    }
}

/// The state of the services of a session.
#[derive(Drop)]
pub struct Services<A: Allocator> {
    transfers: Transfers<A>,
    /// The object that the client's last APDU asked for, if that is known and no answer has come yet.
    asked: Option<Asked>,
    /// Whether strings that may be a secret are shown as they are.
    raw: bool,
}

/// The report of an APDU, and the position of its block among those before it, if it has one.
#[derive(Drop)]
pub struct Heard<'a, A: Allocator> {
    pub said: Said<'a, A>,
    pub joined: Option<Joined>,
}

impl<A: Allocator + Copy> Services<A> {
    /// Nothing was asked for. No memory is taken here.
    pub fn new(alloc: A, raw: bool) -> Self
        ensures { result ≡ idle raw }
    {
        Services {
            transfers: Transfers::new(alloc),
            asked: None,
            raw,
        }
    }

    /// Whether strings that may be a secret are shown as they are.
    pub fn is_raw(&self) -> bool
        ensures { result ≡ self.now.raw }
    {
        self.raw
    }

    /// No answer is awaited any more.
    pub fn pass(&mut self)
        ensures { self.new ≡ unasked self.old }
    {
        self.asked = None;
    }

    /// The object of the answer to this request.
    fn awaited_object(&self, request: &Request<'_, A>) -> Option<Asked>
        ensures { result ≡ awaited_behind self.now.transfers request.now }
    {
        match request {
            Request::GetNext { invoke, .. } => self.transfers.got_of(*invoke),
            Request::SetBlock { invoke, .. } => self.transfers.put_of(*invoke, false),
            Request::ActionBlock { invoke, .. } => self.transfers.put_of(*invoke, true),
            _ => asked_by(request),
        }
    }

    /// Takes the block of a request.
    fn put(&mut self, alloc: A, request: &Request<'_, A>) -> Option<Joined>
        ensures joined { result ≡ put_joined self.old.transfers request.now }
        ensures after { self.new ≡ record self.old {
          transfers =
              transfers_behind self.old.transfers request.now;
        } }
    {
        match request {
            Request::GetNormal { .. } => {
                self.transfers.drop_got(alloc);
                None
            }
            Request::SetFirst {
                last,
                number,
                raw,
                ..
            } => Some(
                self.transfers
                    .put_first(asked_by(request), *last, *number, raw),
            ),
            Request::ActionFirst {
                last,
                number,
                raw,
                ..
            } => Some(
                self.transfers
                    .put_first(asked_by(request), *last, *number, raw),
            ),
            Request::SetBlock {
                invoke,
                last,
                number,
                raw,
            } => Some(self.transfers.put_more(*invoke, false, *last, *number, raw)),
            Request::ActionBlock {
                invoke,
                last,
                number,
                raw,
            } => Some(self.transfers.put_more(*invoke, true, *last, *number, raw)),
            _ => None,
        }
    }

    /// Takes a request and returns its report. If its block is the last one of a value, `put_whole` reports that.
    pub fn ask<'a>(&mut self, alloc: A, request: &'a Request<'_, A>) -> Heard<'a, A>
        ensures form { result.said.form.now ≡ request_form request.now }
        ensures invoke { result.said.invoke ≡ Some (request_invoke request.now) }
        ensures named { result.said.named ≡ option_map (λ asked. asked.named)
            (asked_of request.now) }
        ensures selector { option_map
            (λ selector. selector.now) result.said.selector ≡ request_selector request.now }
        ensures content { ShowsRequest self.old.raw request.now result.said.content }
        ensures joined { result.joined ≡ put_joined self.old.transfers request.now }
        ensures after { self.new ≡ behind_request self.old request.now }
    {
        let said = request_said(request, self.raw);
        self.asked = self.awaited_object(request);
        let joined = self.put(alloc, request);
        Heard { said, joined }
    }

    /// Takes the block of a response.
    fn get(&mut self, alloc: A, response: &Response<'_, A>) -> Result<Option<Joined>, AllocError>
        ensures joined { IfOk result
            (λ joined. joined ≡ got_joined self.old.transfers response.now) }
        ensures after { IfOk result
            (λ joined. self.new ≡ record self.old {
              transfers =
                  transfers_behind_response self.old.transfers self.old.asked response.now;
            }) }
        ensures memory { OnErr result (JoinsBlock self.old.transfers response.now) }
    {
        let Response::GetBlock {
            invoke,
            last,
            number,
            raw,
        } = response
        else {
            return Ok(None);
        };
        let joined = self
            .transfers
            .get(alloc, self.asked, *invoke, *last, *number, raw)?;
        Ok(Some(joined))
    }

    /// Takes a response and returns its report, by the requested object. If its block is the last one of a value, `got_whole`
    /// reports that. If memory is refused, the state afterwards is unspecified.
    pub fn answer<'a>(
        &mut self,
        alloc: A,
        response: &'a Response<'_, A>,
    ) -> Result<Heard<'a, A>, AllocError>
        ensures form { IfOk result (λ heard. heard.said.form.now ≡ response_form response.now) }
        ensures invoke { IfOk result (λ heard. heard.said.invoke ≡ response_invoke response.now) }
        ensures named { IfOk result (λ heard. heard.said.named ≡ option_map (λ asked. asked.named)
            (answered self.old.asked response.now)) }
        ensures content { IfOk result
            (λ heard. ShowsResponse (told_as self.old.raw
            (secrecy_of
            (answered self.old.asked response.now))) response.now heard.said.content) }
        ensures joined { IfOk result
            (λ heard. heard.joined ≡ got_joined self.old.transfers response.now) }
        ensures after { IfOk result (λ heard. self.new ≡ behind_response self.old response.now) }
        ensures memory { OnErr result (JoinsBlock self.old.transfers response.now) }
    {
        let said = response_said(response, self.asked, self.raw);
        let joined = self.get(alloc, response)?;
        self.asked = None;
        Ok(Heard { said, joined })
    }

    /// What was asked for is not known any more, and nothing goes on in blocks: an APDU of the client is not readable.
    pub fn forget(&mut self, alloc: A)
        ensures { self.new ≡ idle self.old.raw }
    {
        *self = Services::new(alloc, self.raw);
    }

    /// The object that such an APDU answers for, if that is known.
    pub fn answered_with(&self, foreign: Foreign<'_>) -> Option<Named>
        ensures { result ≡ option_map (λ asked. asked.named)
            (of_answer (role_of foreign.entry.tag) self.now.asked foreign.entry.survey) }
    {
        match foreign.role() {
            Role::Answers => {
                answered_by(self.asked, foreign.survey.invoke).map(|asked| asked.named)
            }
            _ => None,
        }
    }

    /// How the values of an APDU from the reader of all forms are reported, before it is taken.
    pub fn values(&self, foreign: Foreign<'_>) -> Secrecy
        ensures { result ≡ values_of
            (role_of foreign.entry.tag) self.now.raw self.now.asked foreign.entry.survey }
    {
        match foreign.role() {
            Role::Asks | Role::Says => { told_as(self.raw, secrecy_of_named(foreign.survey.chief)) }
            Role::Answers => {
                let of = answered_by(self.asked, foreign.survey.invoke);
                told_as(self.raw, secrecy_of(of))
            }
            Role::AnswersUnfollowed => Secrecy::Unknown,
        }
    }

    /// Takes an APDU from the reader of other forms, and returns how its values are reported.
    pub fn hear(&mut self, alloc: A, foreign: Foreign<'_>) -> Secrecy
        ensures values { result ≡ values_of
            (role_of foreign.entry.tag) self.old.raw self.old.asked foreign.entry.survey }
        ensures after { self.new ≡ heard self.old foreign.entry }
    {
        match foreign.role() {
            Role::Asks => {
                self.forget(alloc);
                self.asked = foreign.requested_object();
                told_as(self.raw, secrecy_of_named(foreign.survey.chief))
            }
            Role::Answers => {
                let of = answered_by(self.asked, foreign.survey.invoke);
                self.asked = None;
                told_as(self.raw, secrecy_of(of))
            }
            Role::AnswersUnfollowed => {
                self.asked = None;
                Secrecy::Unknown
            }
            Role::Says => told_as(self.raw, secrecy_of_named(foreign.survey.chief)),
        }
    }

    /// How many octets were joined of a value to set or of a parameter.
    pub fn put_len(&self) -> usize
        ensures { result ≡ length self.now.transfers.put.joined }
    {
        self.transfers.put_len()
    }

    /// How many octets were joined of a value that is read.
    pub fn got_len(&self) -> usize
        ensures { result ≡ length self.now.transfers.got.joined }
    {
        self.transfers.got_len()
    }

    /// The reported content of a value to set or of a parameter, after its last block.
    pub fn put_whole(&self, alloc: A) -> Result<Whole<A>, AllocError>
        ensures told { IfOk result (IsToldOfWhole
            (told_as self.now.raw
            (secrecy_of self.now.transfers.put_of)) self.now.transfers.put.joined) }
        ensures memory { OnErr result
            (WantsMemory (told_as self.now.raw
            (secrecy_of self.now.transfers.put_of)) self.now.transfers.put.joined) }
    {
        self.transfers.put_whole(alloc, self.raw)
    }

    /// The reported content of a value that was read, after its last block.
    pub fn got_whole(&self, alloc: A) -> Result<Whole<A>, AllocError>
        ensures told { IfOk result (IsToldOfWhole
            (told_as self.now.raw
            (secrecy_of self.now.transfers.got_of)) self.now.transfers.got.joined) }
        ensures memory { OnErr result
            (WantsMemory (told_as self.now.raw
            (secrecy_of self.now.transfers.got_of)) self.now.transfers.got.joined) }
    {
        self.transfers.got_whole(alloc, self.raw)
    }
}
