//! The reported content of a request and of a response. It has no octet of a secret or of a block.

ghost use Rattle.std.specs.Prelude.{◌≡◌, true, false, length, Some, None, option_map};
ghost use Rattle.dlms_dissect.specs.Secrets.{secrecy_of, told_as};
ghost use Rattle.dlms_dissect.specs.Said.{Shows, ShowsParameter, ShowsRequest, ShowsResponse, answered, asked_of, known_of, request_form, request_invoke, request_selector, response_form, response_invoke};

use crate::named::{Asked, Named, of_invoke};
use crate::secrecy::{Secrecy, secrecy_at, secrecy_of, told_as};
use crate::veiled::Veiled;
use dlms_apdu::{Request, Response};
use dlms_data::{Data, Descriptor, Selector};
use std::alloc::Allocator;

/// The content of a request or a response besides its form and the object that it names.
#[derive(Drop)]
pub enum Content<'a, A: Allocator> {
    /// Nothing more.
    Nothing,
    /// A value to set, a parameter, or a value that was read.
    Value(&'a Data<A>),
    /// Such a value, which may be a secret or hold one.
    Unknown(Veiled<'a, A>),
    /// Such a value, which is a secret.
    Secret,
    /// A block of a value: whether it is the last one, its number, and how many octets it has.
    Block { last: bool, number: u32, len: usize },
    /// The block after this one is requested.
    Next(u32),
    /// This block was taken.
    Taken(u32),
    /// A Data-Access-Result.
    Access(u8),
    /// The same in place of a block.
    AccessOfBlock { number: u32, result: u8 },
    /// The same after the last block.
    AccessBehind { number: u32, result: u8 },
    /// An Action-Result.
    Action(u8),
    /// The request was not served: the state-error and the service-error.
    Exception { state: u8, service: u8 },
}

/// The reported content of a request or a response.
#[derive(Drop)]
pub struct Said<'a, A: Allocator> {
    /// The name of its form (IEC 62056-5-3).
    pub form: &'static str,
    /// The invoke-id-and-priority, of all but an exception.
    pub invoke: Option<u8>,
    /// The object that it names, or that the answered request named.
    pub named: Option<Named>,
    /// Which part of the attribute is wanted, where not all of it is.
    pub selector: Option<&'a Selector<A>>,
    pub content: Content<'a, A>,
}

/// The reported content of a value.
fn shown<'a, A: Allocator>(secrecy: Secrecy, value: &'a Data<A>) -> Content<'a, A>
    ensures { Shows secrecy value.now result }
{
    match secrecy {
        Secrecy::Secret => Content::Secret,
        Secrecy::Unknown => Content::Unknown(Veiled::new(value)),
        Secrecy::Open => Content::Value(value),
    }
}

/// The secrecy of an attribute's value, or of a method's parameter, and how it is reported.
fn known_of(raw: bool, descriptor: Descriptor, method: bool) -> Secrecy
    ensures { result ≡ known_of raw descriptor method }
{
    told_as(raw, secrecy_at(Named { descriptor, method }))
}

/// An attribute of an object.
fn attribute(descriptor: Descriptor) -> Named
    ensures { result ≡ record { descriptor = descriptor; method = false } }
{
    Named {
        descriptor,
        method: false,
    }
}

/// A method of an object.
fn method(descriptor: Descriptor) -> Named
    ensures { result ≡ record { descriptor = descriptor; method = true } }
{
    Named {
        descriptor,
        method: true,
    }
}

/// The object that a request names; none if it continues a transfer.
pub fn asked_by<A: Allocator>(request: &Request<'_, A>) -> Option<Asked>
    ensures { result ≡ asked_of request.now }
{
    let (invoke, named) = match request {
        Request::GetNormal {
            invoke,
            descriptor,
            ..
        }
        | Request::SetNormal {
            invoke,
            descriptor,
            ..
        }
        | Request::SetFirst {
            invoke,
            descriptor,
            ..
        } => (*invoke, attribute(*descriptor)),
        Request::ActionNormal {
            invoke,
            descriptor,
            ..
        }
        | Request::ActionFirst {
            invoke,
            descriptor,
            ..
        } => (*invoke, method(*descriptor)),
        _ => return None,
    };
    Some(Asked { invoke, named })
}

/// The reported content of a method's parameter.
fn parameter_shown<'a, A: Allocator>(
    secrecy: Secrecy,
    parameter: &'a Option<Data<A>>,
) -> Content<'a, A>
    ensures { ShowsParameter secrecy parameter.now result }
{
    match parameter {
        Some(value) => shown(secrecy, value),
        None => Content::Nothing,
    }
}

/// The reported content of a block.
fn block<'a, A: Allocator>(last: bool, number: u32, raw: &[u8]) -> Content<'a, A>
    ensures { result ≡ Content.Block last number (length raw.now) }
{
    Content::Block {
        last,
        number,
        len: raw.len(),
    }
}

/// The name of a request's form.
fn request_form<A: Allocator>(request: &Request<'_, A>) -> &'static str
    ensures { result.now ≡ request_form request.now }
{
    match request {
        Request::GetNormal { .. } => "get-request-normal",
        Request::GetNext { .. } => "get-request-next",
        Request::SetNormal { .. } => "set-request-normal",
        Request::SetFirst { .. } => "set-request-with-first-datablock",
        Request::SetBlock { .. } => "set-request-with-datablock",
        Request::ActionNormal { .. } => "action-request-normal",
        Request::ActionFirst { .. } => "action-request-with-first-pblock",
        Request::ActionBlock { .. } => "action-request-with-pblock",
    }
}

/// The invoke-id-and-priority of a request.
fn request_invoke<A: Allocator>(request: &Request<'_, A>) -> u8
    ensures { result ≡ request_invoke request.now }
{
    match request {
        Request::GetNormal { invoke, .. }
        | Request::GetNext { invoke, .. }
        | Request::SetNormal { invoke, .. }
        | Request::SetFirst { invoke, .. }
        | Request::SetBlock { invoke, .. }
        | Request::ActionNormal { invoke, .. }
        | Request::ActionFirst { invoke, .. }
        | Request::ActionBlock { invoke, .. } => *invoke,
    }
}

/// The selector of a request.
fn request_selector<'a, A: Allocator>(request: &'a Request<'_, A>) -> Option<&'a Selector<A>>
    ensures { option_map (λ selector. selector.now) result ≡ request_selector request.now }
{
    match request {
        Request::GetNormal { selector, .. }
        | Request::SetNormal { selector, .. }
        | Request::SetFirst { selector, .. } => selector.as_ref(),
        _ => None,
    }
}

/// The content of a request besides its form and the object that it names.
fn request_content<'a, A: Allocator>(request: &'a Request<'_, A>, raw: bool) -> Content<'a, A>
    ensures { ShowsRequest raw request.now result }
{
    match request {
        Request::GetNormal { .. } => Content::Nothing,
        Request::GetNext { number, .. } => Content::Next(*number),
        Request::SetNormal {
            descriptor,
            value,
            ..
        } => return shown(known_of(raw, *descriptor, false), value),
        Request::ActionNormal {
            descriptor,
            parameter,
            ..
        } => return parameter_shown(known_of(raw, *descriptor, true), parameter),
        Request::SetFirst {
            last,
            number,
            raw: octets,
            ..
        } => block(*last, *number, octets),
        Request::SetBlock {
            last,
            number,
            raw: octets,
            ..
        } => block(*last, *number, octets),
        Request::ActionFirst {
            last,
            number,
            raw: octets,
            ..
        } => block(*last, *number, octets),
        Request::ActionBlock {
            last,
            number,
            raw: octets,
            ..
        } => block(*last, *number, octets),
    }
}

/// The reported content of a request; with `raw`, strings that may be a secret are shown as they are.
pub fn request_said<'a, A: Allocator>(request: &'a Request<'_, A>, raw: bool) -> Said<'a, A>
    ensures form { result.form.now ≡ request_form request.now }
    ensures invoke { result.invoke ≡ Some (request_invoke request.now) }
    ensures named { result.named ≡ option_map (λ asked. asked.named) (asked_of request.now) }
    ensures selector { option_map
        (λ selector. selector.now) result.selector ≡ request_selector request.now }
    ensures content { ShowsRequest raw request.now result.content }
{
    let asked = asked_by(request);
    Said {
        form: request_form(request),
        invoke: Some(request_invoke(request)),
        named: asked.map(|asked| asked.named),
        selector: request_selector(request),
        content: request_content(request, raw),
    }
}

/// The name of a response's form.
fn response_form<A: Allocator>(response: &Response<'_, A>) -> &'static str
    ensures { result.now ≡ response_form response.now }
{
    match response {
        Response::GetData { .. } => "get-response-normal",
        Response::GetResult { .. } => "get-response-normal",
        Response::GetBlock { .. } => "get-response-with-datablock",
        Response::GetBlockResult { .. } => "get-response-with-datablock",
        Response::SetResult { .. } => "set-response-normal",
        Response::SetBlock { .. } => "set-response-datablock",
        Response::SetLast { .. } => "set-response-last-datablock",
        Response::ActionResult { .. } => "action-response-normal",
        Response::ActionBlock { .. } => "action-response-next-pblock",
        Response::Exception { .. } => "exception-response",
    }
}

/// The invoke-id-and-priority of a response; an exception has none.
fn response_invoke<A: Allocator>(response: &Response<'_, A>) -> Option<u8>
    ensures { result ≡ response_invoke response.now }
{
    match response {
        Response::GetData { invoke, .. }
        | Response::GetResult { invoke, .. }
        | Response::GetBlock { invoke, .. }
        | Response::GetBlockResult { invoke, .. }
        | Response::SetResult { invoke, .. }
        | Response::SetBlock { invoke, .. }
        | Response::SetLast { invoke, .. }
        | Response::ActionResult { invoke, .. }
        | Response::ActionBlock { invoke, .. } => Some(*invoke),
        Response::Exception { .. } => None,
    }
}

/// The content of a response besides its form and the object that it answers for.
fn response_content<'a, A: Allocator>(
    response: &'a Response<'_, A>,
    secrecy: Secrecy,
) -> Content<'a, A>
    ensures { ShowsResponse secrecy response.now result }
{
    match response {
        Response::GetData { value, .. } => return shown(secrecy, value),
        Response::GetResult { result, .. } => Content::Access(*result),
        Response::GetBlock {
            last,
            number,
            raw,
            ..
        } => block(*last, *number, raw),
        Response::GetBlockResult { number, result, .. } => Content::AccessOfBlock {
            number: *number,
            result: *result,
        },
        Response::SetResult { result, .. } => Content::Access(*result),
        Response::SetBlock { number, .. } => Content::Taken(*number),
        Response::SetLast { number, result, .. } => Content::AccessBehind {
            number: *number,
            result: *result,
        },
        Response::ActionResult { result, .. } => Content::Action(*result),
        Response::ActionBlock { number, .. } => Content::Taken(*number),
        Response::Exception { state, service } => Content::Exception {
            state: *state,
            service: *service,
        },
    }
}

/// The object that the request of a response asked for, if the response has its invoke-id-and-priority.
pub fn answered_object<A: Allocator>(
    asked: Option<Asked>,
    response: &Response<'_, A>,
) -> Option<Asked>
    ensures { result ≡ answered asked response.now }
{
    match response_invoke(response) {
        Some(invoke) => of_invoke(asked, invoke),
        None => None,
    }
}

/// The reported content of a response. `asked` is the object that the client's APDU before it asked for, if that is known; with
/// `raw`, strings that may be a secret are shown as they are.
pub fn response_said<'a, A: Allocator>(
    response: &'a Response<'_, A>,
    asked: Option<Asked>,
    raw: bool,
) -> Said<'a, A>
    ensures form { result.form.now ≡ response_form response.now }
    ensures invoke { result.invoke ≡ response_invoke response.now }
    ensures named { result.named ≡ option_map (λ asked. asked.named) (answered asked response.now) }
    ensures selector { option_map (λ selector. selector.now) result.selector ≡ None }
    ensures content { ShowsResponse
        (told_as raw (secrecy_of (answered asked response.now))) response.now result.content }
{
    let of = answered_object(asked, response);
    Said {
        form: response_form(response),
        invoke: response_invoke(response),
        named: of.map(|asked| asked.named),
        selector: None,
        content: response_content(response, told_as(raw, secrecy_of(of))),
    }
}
