//! Which requests and responses can be written.

ghost use Rattle.std.specs.Prelude.{◌≡◌, ◌↔◌, IsTrue, option_map};
ghost use Rattle.dlms_data.specs.View.{value_of};
ghost use Rattle.dlms_apdu.specs.View.{selection_of, request_of, response_of};
ghost use Rattle.dlms_apdu.specs.Writing.{SelectorFits, ParameterFits, RawFits, RequestFits, ResponseFits};

use crate::request::Request;
use crate::response::Response;
use dlms_data::{Data, Selector, fits};
use std::alloc::Allocator;

/// Whether a selector's value has a spelling.
fn selector_fits<A: Allocator>(selector: &Option<Selector<A>>) -> bool
    ensures { IsTrue result ↔ SelectorFits (option_map selection_of selector.now) }
{
    match selector {
        None => true,
        Some(selector) => fits(&selector.value),
    }
}

/// Whether a parameter has a spelling.
fn parameter_fits<A: Allocator>(parameter: &Option<Data<A>>) -> bool
    ensures { IsTrue result ↔ ParameterFits (option_map value_of parameter.now) }
{
    match parameter {
        None => true,
        Some(value) => fits(value),
    }
}

/// Whether a length can say how many bytes there are.
fn raw_fits(raw: &[u8]) -> bool
    ensures { IsTrue result ↔ RawFits raw.now }
{
    raw.len() <= u32::MAX as usize
}

impl<A: Allocator> Request<'_, A> {
    /// Whether it can be written: its values have a spelling, and its block has at most 2^32 - 1 bytes.
    pub fn fits(&self) -> bool
        ensures { IsTrue result ↔ RequestFits (request_of self.now) }
    {
        match self {
            Request::GetNormal { selector, .. } => selector_fits(selector),
            Request::GetNext { .. } => true,
            Request::SetNormal {
                selector,
                value,
                ..
            } => selector_fits(selector) && fits(value),
            Request::SetFirst { selector, raw, .. } => selector_fits(selector) && raw_fits(raw),
            Request::SetBlock { raw, .. } => raw_fits(raw),
            Request::ActionNormal { parameter, .. } => parameter_fits(parameter),
            Request::ActionFirst { raw, .. } => raw_fits(raw),
            Request::ActionBlock { raw, .. } => raw_fits(raw),
        }
    }
}

impl<A: Allocator> Response<'_, A> {
    /// Whether it can be written: its value has a spelling, and its block has at most 2^32 - 1 bytes.
    pub fn fits(&self) -> bool
        ensures { IsTrue result ↔ ResponseFits (response_of self.now) }
    {
        match self {
            Response::GetData { value, .. } => fits(value),
            Response::GetBlock { raw, .. } => raw_fits(raw),
            _ => true,
        }
    }
}
