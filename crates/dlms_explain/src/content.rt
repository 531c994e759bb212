//! The lines of a frame's content: its APDU, or its parameters.

use crate::association_text;
use crate::foreign_text::write_foreign;
use crate::frame_text::{write_came, write_information, write_no_llc};
use crate::joined_text::{begun, take_block};
use crate::opening::{Opening, write_initiate, write_verdict};
use crate::service_text::{write_fault, write_joined, write_said, write_whole};
use crate::units::{Units, write_units};
use crate::words::Text;
use dlms_apdu::{Request, Response};
use dlms_dissect::{
    Apdu, Came, Control, Fault, Joined, Numbers, Segments, Services, Side, Talk, acse_of,
    behind_llc, has_poll, is_counted, left_of_acse, misfit, parameters_of, read, read_apdu,
    read_foreign, without_secret,
};
use dlms_frame::Frame;
use dlms_names::apdu_name;
use dlms_security::{NoKeys, Opener};
use dlms_transfer::{Block, block_in};
use std::alloc::{AllocError, Allocator};

/// The number of octets before an APDU in a frame (IEC 62056-46, the LLC sublayer).
const LLC: usize = 3;

/// The lines of a value to set or of a parameter that is joined of all its blocks.
fn write_put<A: Allocator + Copy>(text: &mut Text<A>, alloc: A, services: &Services<A>) {
    match services.put_whole(alloc) {
        Ok(whole) => {
            write_whole(text, services.put_len(), &whole);
            drop(whole);
        }
        Err(_) => text.refuse(),
    }
}

/// The lines of a value that was read and is joined of all its blocks.
fn write_got<A: Allocator + Copy>(text: &mut Text<A>, alloc: A, services: &Services<A>) {
    match services.got_whole(alloc) {
        Ok(whole) => {
            write_whole(text, services.got_len(), &whole);
            drop(whole);
        }
        Err(_) => text.refuse(),
    }
}

/// The lines of a request, and what its block is among those before it.
fn hear_request<A: Allocator + Copy>(
    text: &mut Text<A>,
    alloc: A,
    services: &mut Services<A>,
    request: &Request<'_, A>,
) -> Option<Joined> {
    let heard = services.ask(alloc, request);
    write_said(text, "", &heard.said);
    heard.joined
}

/// The lines of a request, and of what its blocks join to.
fn explain_request<A: Allocator + Copy>(
    text: &mut Text<A>,
    alloc: A,
    services: &mut Services<A>,
    request: &Request<'_, A>,
) {
    match hear_request(text, alloc, services, request) {
        Some(Joined::Whole) => write_put(text, alloc, services),
        Some(joined) => write_joined(text, joined),
        None => {}
    }
}

/// The lines of a response, and what its block is among those before it.
fn hear_response<A: Allocator + Copy>(
    text: &mut Text<A>,
    alloc: A,
    units: &mut Units,
    services: &mut Services<A>,
    response: &Response<'_, A>,
) -> Option<Joined> {
    match services.answer(alloc, response) {
        Ok(heard) => {
            write_said(text, "of ", &heard.said);
            write_units(text, units, &heard.said);
            heard.joined
        }
        Err(_) => {
            text.refuse();
            None
        }
    }
}

/// The lines of a response, and of what its blocks join to.
fn explain_response<A: Allocator + Copy>(
    text: &mut Text<A>,
    alloc: A,
    units: &mut Units,
    services: &mut Services<A>,
    response: &Response<'_, A>,
) {
    match hear_response(text, alloc, units, services, response) {
        Some(Joined::Whole) => write_got(text, alloc, services),
        Some(joined) => write_joined(text, joined),
        None => {}
    }
}

/// The tag of a data-notification (IEC 62056-5-3, 9.5), that of an octet-string, and the length of a date-time.
const NOTIFICATION: u8 = 0x0f;

const OCTET_STRING: u8 = 0x09;

const DATE_TIME: u8 = 12;

/// The tag of an association response.
const ASSOCIATION_RESPONSE: u8 = 0x61;

/// The line of an APDU that is not readable. What the meter's readers refuse at its first two octets may be of a form of the
/// standard, and does not fit that; of an association response the initiate response may be ciphered.
fn write_unreadable<A: Allocator>(text: &mut Text<A>, bytes: &[u8], fault: Fault) {
    if fault.octet <= 2
        && let Some((form, octet)) = misfit(bytes)
    {
        let words = "not of this form";
        write_fault(text, Some(form.name), Fault { words, octet });
        return;
    }
    if bytes.first() == Some(&ASSOCIATION_RESPONSE) && is_counted(bytes) {
        let acse = acse_of(bytes);
        if let (Some(outcome), Some(initiate)) = (acse.outcome, acse.ciphered) {
            association_text::write_ciphered_response(text, acse, outcome, initiate);
            return;
        }
    }
    match bytes.first() {
        Some(octet) => write_fault(text, apdu_name(*octet), fault),
        None => write_fault(text, None, fault),
    }
}

/// The number of octets of an APDU before the first field that is reported by its length or not at all: those may be shown beside
/// the report, before it is taken. None of an unreadable one may.
fn open_len<A: Allocator + Copy>(
    services: &Services<A>,
    apdu: &Apdu<'_, A>,
    bytes: &[u8],
) -> usize {
    let closed = match apdu {
        Apdu::Unreadable(_) => bytes.len(),
        Apdu::Request(_) | Apdu::Response(_) | Apdu::Foreign(_) => match read_foreign(bytes) {
            Some(foreign) => foreign.hidden_len(services.values(foreign)),
            None => bytes.len(),
        },
        _ => left_of_acse(bytes),
    };
    bytes.len().saturating_sub(closed)
}

/// The lines of an APDU, and with `hex`, how many of its octets may be shown beside them; of a ciphered one also those of the APDU in
/// it, if keys open it, and of the last block of an APDU those of the APDU.
pub fn explain_apdu<A: Allocator + Copy, O: Opener>(
    text: &mut Text<A>,
    alloc: A,
    opening: &mut Opening<A, O>,
    side: Option<Side>,
    services: &mut Services<A>,
    bytes: &[u8],
) -> usize {
    let shown = explain_one(text, alloc, opening, side, services, bytes);
    match block_in(bytes) {
        Some(block) if !block.octets.is_empty() => {
            explain_block(text, alloc, opening, side, services, block);
        }
        _ => {}
    }
    shown
}

/// The lines of the APDU that a block completes, or why the block is not joined.
fn explain_block<A: Allocator + Copy, O: Opener>(
    text: &mut Text<A>,
    alloc: A,
    opening: &mut Opening<A, O>,
    side: Option<Side>,
    services: &mut Services<A>,
    block: Block<'_>,
) {
    let Ok(mut blocks) = begun(alloc, opening.blocks.take()) else {
        text.refuse();
        return;
    };
    if let Some(apdu) = take_block(text, &mut blocks, side, block) {
        text.go_in();
        explain_one(text, alloc, opening, side, services, apdu);
        text.go_out();
    }
    opening.blocks = Some(blocks);
}

/// The lines of an APDU that is in no blocks, and of a ciphered one also those of the APDU in it.
fn explain_one<A: Allocator + Copy, O: Opener>(
    text: &mut Text<A>,
    alloc: A,
    opening: &mut Opening<A, O>,
    side: Option<Side>,
    services: &mut Services<A>,
    bytes: &[u8],
) -> usize {
    let shown = explain_closed(text, alloc, opening, side, services, bytes);
    if let Some((is_part, opened)) = opening.opened(side, bytes) {
        write_verdict(text, is_part, &opened);
        if let Ok(plain) = &opened {
            explain_inside(text, alloc, opening, side, services, plain.apdu.as_slice());
        }
    }
    shown
}

/// The lines of an APDU that was ciphered.
fn explain_inside<A: Allocator + Copy, O: Opener>(
    text: &mut Text<A>,
    alloc: A,
    opening: &mut Opening<A, O>,
    side: Option<Side>,
    services: &mut Services<A>,
    bytes: &[u8],
) {
    text.go_in();
    if !write_initiate(text, bytes) {
        explain_closed(text, alloc, opening, side, services, bytes);
    }
    text.go_out();
}

/// A data-notification without the tag of its date-time, which the standard's grammar does not have.
fn without_tag<A: Allocator>(alloc: A, bytes: &[u8]) -> Result<Vec<u8, A>, AllocError> {
    let mut plain = Vec::new(alloc);
    if let [a, b, c, d, e, _, rest @ ..] = bytes {
        plain.extend_from_slice(&[*a, *b, *c, *d, *e])?;
        plain.extend_from_slice(rest)?;
    }
    Ok(plain)
}

/// The lines of an APDU, of a ciphered one without its content, and with `hex`, how many of its octets may be shown beside them. A
/// data-notification may have a tag before its date-time.
fn explain_closed<A: Allocator + Copy, O: Opener>(
    text: &mut Text<A>,
    alloc: A,
    opening: &mut Opening<A, O>,
    side: Option<Side>,
    services: &mut Services<A>,
    bytes: &[u8],
) -> usize {
    if !matches!(
        bytes,
        [NOTIFICATION, _, _, _, _, OCTET_STRING, DATE_TIME, ..]
    ) {
        return explain_plain(text, alloc, opening, side, services, bytes);
    }
    let Ok(plain) = without_tag(alloc, bytes) else {
        text.refuse();
        return 0;
    };
    let shown = explain_plain(text, alloc, opening, side, services, plain.as_slice());
    drop(plain);
    shown
}

/// The same of one of the standard's form.
fn explain_plain<A: Allocator + Copy, O: Opener>(
    text: &mut Text<A>,
    alloc: A,
    opening: &mut Opening<A, O>,
    side: Option<Side>,
    services: &mut Services<A>,
    bytes: &[u8],
) -> usize {
    match read_apdu(alloc, side, bytes) {
        Ok(apdu) => {
            let shown = explain_told(text, alloc, opening, side, services, bytes, &apdu);
            drop(apdu);
            shown
        }
        Err(_) => {
            text.refuse();
            0
        }
    }
}

/// The same of one that was read.
fn explain_told<A: Allocator + Copy, O: Opener>(
    text: &mut Text<A>,
    alloc: A,
    opening: &mut Opening<A, O>,
    side: Option<Side>,
    services: &mut Services<A>,
    bytes: &[u8],
    apdu: &Apdu<'_, A>,
) -> usize {
    let shown = if opening.hex {
        open_len(services, apdu, bytes)
    } else {
        0
    };
    explain_read(text, alloc, &mut opening.units, side, services, bytes, apdu);
    shown
}

/// The lines of an APDU that was read.
fn explain_read<A: Allocator + Copy>(
    text: &mut Text<A>,
    alloc: A,
    units: &mut Units,
    side: Option<Side>,
    services: &mut Services<A>,
    bytes: &[u8],
    apdu: &Apdu<'_, A>,
) {
    match apdu {
        Apdu::AssociationRequest(request) => {
            association_text::write_request(text, without_secret(request), acse_of(bytes));
        }
        Apdu::AssociationResponse(response) => {
            association_text::write_response(text, *response, acse_of(bytes));
        }
        Apdu::ReleaseRequest(reason) => association_text::write_release_request(text, *reason),
        Apdu::ReleaseResponse(reason) => association_text::write_release_response(text, *reason),
        Apdu::Request(request) => explain_request(text, alloc, services, request),
        Apdu::Response(response) => explain_response(text, alloc, units, services, response),
        Apdu::Foreign(foreign) => {
            let of = services.answered_with(*foreign);
            let secrecy = services.hear(alloc, *foreign);
            write_foreign(text, alloc, *foreign, of, secrecy);
        }
        Apdu::Unreadable(fault) => {
            if side != Some(Side::Meter) {
                services.forget(alloc);
            }
            write_unreadable(text, bytes, *fault);
        }
    }
}

/// The lines of the APDU that the last information frame of this side completed, and how many of its octets may be shown beside
/// them.
fn explain_whole<A: Allocator + Copy, O: Opener>(
    text: &mut Text<A>,
    alloc: A,
    opening: &mut Opening<A, O>,
    side: Option<Side>,
    talk: &mut Talk<A>,
) -> usize {
    match side {
        Some(Side::Meter) => {
            let apdu = talk.meter.apdu();
            let shown = explain_apdu(text, alloc, opening, side, &mut talk.services, apdu);
            talk.services.pass();
            shown
        }
        _ => {
            let apdu = talk.client.apdu();
            explain_apdu(text, alloc, opening, side, &mut talk.services, apdu)
        }
    }
}

/// The lines of an APDU by itself, as in a frame that is not taken: nothing is known of earlier ones, and it changes nothing.
fn explain_alone<A: Allocator + Copy, O: Opener>(
    text: &mut Text<A>,
    alloc: A,
    opening: &mut Opening<A, O>,
    side: Option<Side>,
    raw: bool,
    info: &[u8],
) -> usize {
    let Some(apdu) = behind_llc(side, info) else {
        write_no_llc(text);
        return 0;
    };
    explain_apdu(
        text,
        alloc,
        opening,
        side,
        &mut Services::new(alloc, raw),
        apdu,
    )
    .saturating_add(LLC)
}

/// Appends the lines of an APDU by itself, from this side or from either: nothing is known of earlier ones. Of secrets, and of
/// strings that may be one, only the length is shown. If memory is refused the text may end within a line.
pub fn write_apdu<A: Allocator + Copy>(
    words: &mut String<A>,
    alloc: A,
    side: Option<Side>,
    bytes: &[u8],
) -> Result<(), AllocError> {
    let mut text = Text::behind(words);
    let mut services = Services::new(alloc, false);
    let mut opening = Opening::new(NoKeys, false);
    explain_apdu(&mut text, alloc, &mut opening, side, &mut services, bytes);
    text.end(words)
}

/// Whether a meter's frame with the number of the one before has another APDU: a port that only sends does not count.
fn is_another<A: Allocator>(talk: &Talk<A>, side: Option<Side>, frame: &Frame<'_>) -> bool {
    if frame.segmented || side != Some(Side::Meter) {
        return false;
    }
    match behind_llc(side, frame.info) {
        Some(apdu) => apdu != talk.meter.apdu(),
        None => false,
    }
}

/// The lines of an information frame, and how many octets of its information may be shown beside them: none of an APDU in segments.
fn explain_information<A: Allocator + Copy, O: Opener>(
    text: &mut Text<A>,
    alloc: A,
    opening: &mut Opening<A, O>,
    side: Option<Side>,
    talk: &mut Talk<A>,
    numbers: Numbers,
    frame: &Frame<'_>,
) -> usize {
    let info = frame.info;
    let Ok(came) = talk.take(alloc, side, numbers, frame.segmented, info) else {
        text.refuse();
        return 0;
    };
    write_came(text, came);
    let raw = talk.services.is_raw();
    match came {
        Came::Again if is_another(talk, side, frame) => {
            explain_alone(text, alloc, opening, side, raw, info)
        }
        Came::Apart => explain_alone(text, alloc, opening, side, raw, info),
        Came::NoPoll if !frame.segmented => explain_alone(text, alloc, opening, side, raw, info),
        Came::Whole(count) => {
            let shown = explain_whole(text, alloc, opening, side, talk);
            if count == 1 {
                shown.saturating_add(LLC)
            } else {
                0
            }
        }
        _ => 0,
    }
}

/// The number that is next for these segments.
fn next_number<A: Allocator>(segments: &Segments<A>) -> u8 {
    for number in 0..7u8 {
        if segments.is_next(number) {
            return number;
        }
    }
    7
}

/// Takes a UI frame that is a segment of an APDU, and appends the lines of the APDU that it completes.
fn explain_segment<A: Allocator + Copy, O: Opener>(
    text: &mut Text<A>,
    alloc: A,
    opening: &mut Opening<A, O>,
    side: Option<Side>,
    raw: bool,
    segments: &mut Segments<A>,
    frame: &Frame<'_>,
) {
    if behind_llc(None, frame.info).is_some() {
        segments.forget();
    }
    let number = next_number(segments);
    let Ok(came) = segments.take(None, number, frame.segmented, frame.info) else {
        text.refuse();
        return;
    };
    write_came(text, came);
    if let Came::Whole(_) = came {
        let mut services = Services::new(alloc, raw);
        explain_apdu(text, alloc, opening, side, &mut services, segments.apdu());
    }
    if !frame.segmented {
        segments.forget();
    }
}

/// The lines of a UI frame, with an APDU or a segment of one, and how many octets of its information may be shown beside them: none
/// of an APDU in segments. A notification has the LLC of either side.
fn explain_unnumbered<A: Allocator + Copy, O: Opener>(
    text: &mut Text<A>,
    alloc: A,
    opening: &mut Opening<A, O>,
    side: Option<Side>,
    talk: &mut Talk<A>,
    frame: &Frame<'_>,
) -> usize {
    let raw = talk.services.is_raw();
    if let (false, Some(apdu)) = (frame.segmented, behind_llc(None, frame.info)) {
        let mut services = Services::new(alloc, raw);
        return explain_apdu(text, alloc, opening, side, &mut services, apdu).saturating_add(LLC);
    }
    match side {
        Some(Side::Client) => {
            explain_segment(text, alloc, opening, side, raw, &mut talk.client, frame);
        }
        _ => explain_segment(text, alloc, opening, side, raw, &mut talk.meter, frame),
    }
    0
}

/// The lines of the parameters of an SNRM or a UA, if it has any, and how many octets of these may be shown beside them: all but
/// those after the parameters, if each is readable.
fn explain_parameters<A: Allocator>(text: &mut Text<A>, info: &[u8]) -> usize {
    if info.is_empty() {
        return 0;
    }
    let parameters = parameters_of(info);
    write_information(text, parameters);
    match parameters {
        Some(parameters) if parameters.wrong.is_none() => {
            info.len().saturating_sub(parameters.behind)
        }
        _ => 0,
    }
}

/// The lines of a frame's content, and how many octets of its information may be shown beside them.
pub fn explain_content<A: Allocator + Copy, O: Opener>(
    text: &mut Text<A>,
    alloc: A,
    opening: &mut Opening<A, O>,
    side: Option<Side>,
    talk: &mut Talk<A>,
    frame: &Frame<'_>,
) -> usize {
    talk.heed(alloc, side, frame.control);
    match read(frame.control) {
        Control::Snrm | Control::Ua => explain_parameters(text, frame.info),
        Control::Information { send, receive } => {
            let poll = has_poll(frame.control);
            let numbers = Numbers {
                send,
                receive,
                poll,
            };
            explain_information(text, alloc, opening, side, talk, numbers, frame)
        }
        Control::Ui => explain_unnumbered(text, alloc, opening, side, talk, frame),
        _ => 0,
    }
}
