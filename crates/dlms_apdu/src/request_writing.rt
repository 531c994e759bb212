//! Requests, written as bytes.

ghost use Rattle.std.specs.Prelude.{◌≡◌, ◌<◌, ◌^◌, ◌++◌, ◌∷◌, [], length, option_map, IfOk, OnOk};
ghost use Rattle.dlms_data.specs.View.{value_of};
ghost use Rattle.dlms_data.specs.Writing.{Fits};
ghost use Rattle.dlms_apdu.specs.Forms.{set_normal};
ghost use Rattle.dlms_apdu.specs.Spelling.{SpellsRequest};
ghost use Rattle.dlms_apdu.specs.View.{selection_of, request_of};
ghost use Rattle.dlms_apdu.specs.Writing.{descriptor_bytes, selector_bytes, parameter_bytes, block_bytes, request_bytes, SelectorFits, ParameterFits, RawFits, RequestFits, DescriptorInRange, RequestInRange};

use crate::request::Request;
use dlms_data::{Data, Descriptor, Selector, append, append_counted};
use std::alloc::{AllocError, Allocator};

/// The bytes, followed by a descriptor.
fn with_descriptor<A: Allocator>(
    mut out: Vec<u8, A>,
    descriptor: Descriptor,
) -> Result<Vec<u8, A>, AllocError>
    ensures { IfOk result (λ longer. longer.items ≡ out.items ++ descriptor_bytes descriptor) }
{
    out.extend_from_slice(&descriptor.class.to_be_bytes())?;
    out.extend_from_slice(&descriptor.name)?;
    out.push(descriptor.id)?;
    Ok(out)
}

/// The bytes, followed by a selector or its absence.
fn with_selector<A: Allocator, B: Allocator>(
    mut out: Vec<u8, A>,
    selector: &Option<Selector<B>>,
) -> Result<Vec<u8, A>, AllocError>
    requires { SelectorFits (option_map selection_of selector.now) }
    ensures { IfOk result (λ longer. longer.items ≡ out.items
        ++ selector_bytes (option_map selection_of selector.now)) }
{
    match selector {
        None => {
            out.push(0)?;
            Ok(out)
        }
        Some(selector) => {
            out.extend_from_slice(&[1, selector.number])?;
            append(out, &selector.value)
        }
    }
}

/// The bytes, followed by a parameter or its absence.
fn with_parameter<A: Allocator, B: Allocator>(
    mut out: Vec<u8, A>,
    parameter: &Option<Data<B>>,
) -> Result<Vec<u8, A>, AllocError>
    requires { ParameterFits (option_map value_of parameter.now) }
    ensures { IfOk result (λ longer. longer.items ≡ out.items
        ++ parameter_bytes (option_map value_of parameter.now)) }
{
    match parameter {
        None => {
            out.push(0)?;
            Ok(out)
        }
        Some(value) => {
            out.push(1)?;
            append(out, value)
        }
    }
}

/// The bytes, followed by a block.
fn with_block<A: Allocator>(
    mut out: Vec<u8, A>,
    last: bool,
    number: u32,
    raw: &[u8],
) -> Result<Vec<u8, A>, AllocError>
    requires { RawFits raw.now }
    ensures { IfOk result (λ longer. longer.items ≡ out.items ++ block_bytes last number raw.now) }
{
    out.push(u8::from(last))?;
    out.extend_from_slice(&number.to_be_bytes())?;
    append_counted(out, raw)
}

/// The first three bytes of a request, and a descriptor.
fn with_head<A: Allocator>(
    alloc: A,
    service: u8,
    form: u8,
    invoke: u8,
    descriptor: Descriptor,
) -> Result<Vec<u8, A>, AllocError>
    ensures canonical { IfOk result
        (λ out. out.items ≡ service ∷ form ∷ invoke ∷ descriptor_bytes descriptor) }
    ensures in_range { DescriptorInRange descriptor }
{
    with_descriptor(
        Vec::from_slice(alloc, &[service, form, invoke])?,
        descriptor,
    )
}

/// A SET's spelling.
fn set_normal_text<A: Allocator, B: Allocator>(
    alloc: A,
    invoke: u8,
    descriptor: Descriptor,
    selector: &Option<Selector<B>>,
    value: &Data<B>,
) -> Result<Vec<u8, A>, AllocError>
    requires selector { SelectorFits (option_map selection_of selector.now) }
    requires value { Fits (value_of value.now) }
    ensures canonical { IfOk result
        (λ out. out.items ≡ request_bytes
        (set_normal invoke descriptor (option_map selection_of selector.now)
        (value_of value.now))) }
    ensures in_range { OnOk result (DescriptorInRange descriptor) }
{
    let out = with_head(alloc, 0xc1, 1, invoke, descriptor)?;
    append(with_selector(out, selector)?, value)
}

/// A request's spelling.
fn text<A: Allocator, B: Allocator>(
    alloc: A,
    request: &Request<'_, B>,
) -> Result<Vec<u8, A>, AllocError>
    requires { RequestFits (request_of request.now) }
    ensures canonical { IfOk result (λ out. out.items ≡ request_bytes (request_of request.now)) }
    ensures in_range { OnOk result (RequestInRange (request_of request.now)) }
{
    match request {
        Request::GetNormal {
            invoke,
            descriptor,
            selector,
        } => {
            let out = with_head(alloc, 0xc0, 1, *invoke, *descriptor)?;
            with_selector(out, selector)
        }
        Request::GetNext { invoke, number } => {
            let mut out = Vec::from_slice(alloc, &[0xc0, 2, *invoke])?;
            out.extend_from_slice(&number.to_be_bytes())?;
            Ok(out)
        }
        Request::SetNormal {
            invoke,
            descriptor,
            selector,
            value,
        } => set_normal_text(alloc, *invoke, *descriptor, selector, value),
        Request::SetFirst {
            invoke,
            descriptor,
            selector,
            last,
            number,
            raw,
        } => {
            let out = with_head(alloc, 0xc1, 2, *invoke, *descriptor)?;
            with_block(with_selector(out, selector)?, *last, *number, raw)
        }
        Request::SetBlock {
            invoke,
            last,
            number,
            raw,
        } => {
            let out = Vec::from_slice(alloc, &[0xc1, 3, *invoke])?;
            with_block(out, *last, *number, raw)
        }
        Request::ActionNormal {
            invoke,
            descriptor,
            parameter,
        } => {
            let out = with_head(alloc, 0xc3, 1, *invoke, *descriptor)?;
            with_parameter(out, parameter)
        }
        Request::ActionFirst {
            invoke,
            descriptor,
            last,
            number,
            raw,
        } => {
            let out = with_head(alloc, 0xc3, 4, *invoke, *descriptor)?;
            with_block(out, *last, *number, raw)
        }
        Request::ActionBlock {
            invoke,
            last,
            number,
            raw,
        } => {
            let out = Vec::from_slice(alloc, &[0xc3, 6, *invoke])?;
            with_block(out, *last, *number, raw)
        }
    }
}

/// The canonical spelling of a request, which `read_request` reads again.
pub fn write_request<A: Allocator, B: Allocator>(
    alloc: A,
    request: &Request<'_, B>,
) -> Result<Vec<u8, A>, AllocError>
    requires { RequestFits (request_of request.now) }
    ensures canonical { IfOk result (λ out. out.items ≡ request_bytes (request_of request.now)) }
    ensures spelled { IfOk result (λ out. SpellsRequest out.items (request_of request.now)) }
{
    text(alloc, request)
}
