//! The kinds of APDUs.

ghost use Rattle.std.specs.Prelude.{◌≡◌, ◌⊎◌, IfOk, IsErr, get_or};
ghost use Rattle.dlms_dissect.specs.Acse.{is_counted};
ghost use Rattle.dlms_dissect.specs.Apdus.{IsRelease, IsUncounted, kind_of, reason_of, IsToldAs, IsToldOfAarq, IsToldOfAare, IsToldOfRequest, IsToldOfResponse, RequestNeedsMemory, ResponseNeedsMemory};

use crate::acse::is_counted;
use crate::foreign::{Foreign, read_foreign};
use crate::parties::Side;
use crate::places::{Fault, acse_fault, apdu_fault};
use dlms_acse::{Aarq, Verdict, read_aare, read_aarq};
use dlms_apdu::{ApduFault, Request, Response, read_request, read_response};
use std::alloc::{AllocError, Allocator};

/// An APDU (IEC 62056-5-3), as the readers of its kind give it.
#[derive(Drop)]
pub enum Apdu<'a, A: Allocator> {
    AssociationRequest(Aarq),
    AssociationResponse(Verdict),
    /// The end of an association, with its reason, if it gives one.
    ReleaseRequest(Option<u8>),
    ReleaseResponse(Option<u8>),
    Request(Request<'a, A>),
    Response(Response<'a, A>),
    /// The reader of its kind refuses it, and it has another form of the standard.
    Foreign(Foreign<'a>),
    /// It has none.
    Unreadable(Fault),
}

/// The kinds of APDUs that a reader has.
#[derive(Clone, Copy)]
enum Kind {
    AssociationRequest,
    AssociationResponse,
    ReleaseRequest,
    ReleaseResponse,
    Request,
    Response,
}

/// Which reader an APDU with this first octet from this side is given to.
fn kind_of(side: Option<Side>, octet: u8) -> Kind
    ensures { result ≡ kind_of side octet }
{
    match octet {
        0x60 => Kind::AssociationRequest,
        0x61 => Kind::AssociationResponse,
        0x62 => Kind::ReleaseRequest,
        0x63 => Kind::ReleaseResponse,
        0xc4 | 0xc5 | 0xc7 | 0xd8 => Kind::Response,
        0xc0 | 0xc1 | 0xc3 => Kind::Request,
        _ => match side {
            Some(Side::Meter) => Kind::Response,
            _ => Kind::Request,
        },
    }
}

/// The reason of a release.
fn reason(bytes: &[u8]) -> Option<u8>
    ensures { result ≡ reason_of bytes.now }
{
    if bytes.len() > 4 && bytes[2] == 0x80 && bytes[3] == 0x01 {
        Some(bytes[4])
    } else {
        None
    }
}

/// The report of a release whose length does not count the bytes after it.
fn wrong_length<'a, A: Allocator>() -> Apdu<'a, A>
    ensures { IsUncounted result }
{
    Apdu::Unreadable(Fault {
        words: "no length counts the bytes after it",
        octet: 2,
    })
}

/// A release request.
fn release_request<'a, A: Allocator>(bytes: &'a [u8]) -> Apdu<'a, A>
    ensures { IsRelease (is_counted bytes.now) (Apdu.ReleaseRequest (reason_of bytes.now)) result }
{
    if is_counted(bytes) {
        Apdu::ReleaseRequest(reason(bytes))
    } else {
        wrong_length()
    }
}

/// The response to one.
fn release_response<'a, A: Allocator>(bytes: &'a [u8]) -> Apdu<'a, A>
    ensures { IsRelease (is_counted bytes.now) (Apdu.ReleaseResponse (reason_of bytes.now)) result }
{
    if is_counted(bytes) {
        Apdu::ReleaseResponse(reason(bytes))
    } else {
        wrong_length()
    }
}

/// An association request.
fn association_request<'a, A: Allocator>(bytes: &'a [u8]) -> Apdu<'a, A>
    ensures { IsToldOfAarq bytes.now result }
{
    match read_aarq(bytes) {
        Ok(request) => Apdu::AssociationRequest(request),
        Err(fault) => Apdu::Unreadable(acse_fault(fault, bytes)),
    }
}

/// The response to one.
fn association_response<'a, A: Allocator>(bytes: &'a [u8]) -> Apdu<'a, A>
    ensures { IsToldOfAare bytes.now result }
{
    match read_aare(bytes) {
        Ok(response) => Apdu::AssociationResponse(response),
        Err(fault) => Apdu::Unreadable(acse_fault(fault, bytes)),
    }
}

/// A request of a service.
fn request<A: Allocator + Copy>(alloc: A, bytes: &[u8]) -> Result<Apdu<'_, A>, AllocError>
    ensures told { IfOk result (IsToldOfRequest bytes.now) }
    ensures memory { IsErr result → RequestNeedsMemory bytes.now }
{
    match read_request(alloc, bytes) {
        Ok(request) => Ok(Apdu::Request(request)),
        Err(fault) => match fault {
            ApduFault::Memory => Err(AllocError),
            _ => Ok(match read_foreign(bytes) {
                Some(foreign) => Apdu::Foreign(foreign),
                None => Apdu::Unreadable(apdu_fault(alloc, Side::Client, fault, bytes)),
            }),
        },
    }
}

/// A response of a service.
fn response<A: Allocator + Copy>(alloc: A, bytes: &[u8]) -> Result<Apdu<'_, A>, AllocError>
    ensures told { IfOk result (IsToldOfResponse bytes.now) }
    ensures memory { IsErr result → ResponseNeedsMemory bytes.now }
{
    match read_response(alloc, bytes) {
        Ok(response) => Ok(Apdu::Response(response)),
        Err(fault) => match fault {
            ApduFault::Memory => Err(AllocError),
            _ => Ok(match read_foreign(bytes) {
                Some(foreign) => Apdu::Foreign(foreign),
                None => Apdu::Unreadable(apdu_fault(alloc, Side::Meter, fault, bytes)),
            }),
        },
    }
}

/// Reads an APDU from this side. Its first octet selects the reader; an octet that names no APDU is refused by the reader of the
/// side's services. Out of memory is reported only of a request or a response with a value that needs some.
pub fn read_apdu<A: Allocator + Copy>(
    alloc: A,
    side: Option<Side>,
    bytes: &[u8],
) -> Result<Apdu<'_, A>, AllocError>
    ensures told { IfOk result (IsToldAs (kind_of side (get_or bytes.now 0 0)) bytes.now) }
    ensures memory { IsErr result → RequestNeedsMemory bytes.now ⊎ ResponseNeedsMemory bytes.now }
{
    let octet = bytes.first().copied().unwrap_or(0);
    match kind_of(side, octet) {
        Kind::AssociationRequest => Ok(association_request(bytes)),
        Kind::AssociationResponse => Ok(association_response(bytes)),
        Kind::ReleaseRequest => Ok(release_request(bytes)),
        Kind::ReleaseResponse => Ok(release_response(bytes)),
        Kind::Request => request(alloc, bytes),
        Kind::Response => response(alloc, bytes),
    }
}
