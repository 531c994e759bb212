//! Notifications and telegrams, as text, as objects of JSON, or as rows of CSV.

use crate::attributes_json::append_shown;
use crate::json_text::append_member;
use crate::table::append_field;
use crate::typed::is_number;
use crate::values::{Teller, append_code, append_labelled};
use dlms_buffer::{Cell, append_cell, append_clock};
use dlms_data::Descriptor;
use dlms_faults::Fault;
use dlms_listen::{Content, Entry, Notification, Received, Seal};
use dlms_names::unit_name;
use dlms_text::{append_decimal, append_pairs, append_quoted};
use dlms_values::{OctetsKind, Value};
use std::alloc::AllocError;
use std::io::Write;

/// The logical name of the clock (IEC 62056-6-1).
const CLOCK: [u8; 6] = [0, 0, 1, 0, 0, 255];

/// A notification or a telegram, its place of origin, and the values in it.
#[derive(Clone, Copy)]
pub struct Notified<'n> {
    pub from: &'n str,
    pub received: Received<'n>,
    pub entries: &'n [Entry<'n>],
}

/// Appends a value as text, a number times its scaler.
fn append_scaled(text: &mut Vec<u8>, entry: &Entry<'_>) -> Result<(), AllocError> {
    let scaler = match entry.scale {
        Some((scaler, _)) if is_number(&entry.value) => scaler,
        _ => 0,
    };
    let cell = Cell {
        value: entry.value,
        age: 0,
    };
    append_cell(text, &cell, 0, scaler)
}

/// Appends the unit of a value, if it has one.
fn append_unit_of(text: &mut Vec<u8>, entry: &Entry<'_>) -> Result<(), AllocError> {
    let Some((_, unit)) = entry.scale else {
        return Ok(());
    };
    match unit_name(unit) {
        Some(name) if !name.is_empty() => {
            text.extend_from_slice(b" ")?;
            text.extend_from_slice(name.as_bytes())
        }
        _ => Ok(()),
    }
}

/// Appends who protected a notification, and how.
fn append_seal(text: &mut Vec<u8>, seal: Seal) -> Result<(), AllocError> {
    text.extend_from_slice(b" title ")?;
    append_pairs(text, &seal.title)?;
    append_labelled(text, b" counter ", u64::from(seal.counter))?;
    if seal.is_authenticated {
        return Ok(());
    }
    text.extend_from_slice(b" not authenticated")
}

/// Appends when a notification was made, unless the octets name no time.
fn append_moment(text: &mut Vec<u8>, octets: &[u8]) -> Result<(), AllocError> {
    let length = text.len();
    text.extend_from_slice(b" at ")?;
    if !append_clock(text, octets, 0)? {
        text.truncate(length);
    }
    Ok(())
}

/// Appends when a notification was made, if it says so.
fn append_moment_of(text: &mut Vec<u8>, time: Option<[u8; 12]>) -> Result<(), AllocError> {
    match time {
        Some(octets) => append_moment(text, &octets),
        None => Ok(()),
    }
}

/// What was received, as the first words of its line.
fn kind_of(content: &Content<'_>) -> &'static [u8] {
    match content {
        Content::Notification(
            Notification {
                attribute: Some(_),
                ..
            },
        ) => b"event from ",
        Content::Notification(_) => b"notification from ",
        Content::Telegram(_) => b"telegram from ",
    }
}

/// When a notification was made, if it says so; the clock of a telegram is among its values.
fn time_of(notified: &Notified<'_>) -> Option<[u8; 12]> {
    match notified.received.content {
        Content::Notification(notification) => notification.time,
        Content::Telegram(_) => notified.time(),
    }
}

/// Appends the line of a notification.
fn append_head(text: &mut Vec<u8>, notified: &Notified<'_>) -> Result<(), AllocError> {
    text.extend_from_slice(kind_of(&notified.received.content))?;
    text.extend_from_slice(notified.from.as_bytes())?;
    append_moment_of(text, time_of(notified))?;
    if let Some(seal) = notified.received.seal {
        append_seal(text, seal)?;
    }
    append_identification(text, &notified.received.content)?;
    text.extend_from_slice(b"\n")
}

/// Appends the attribute of an event as a line.
fn append_attribute(text: &mut Vec<u8>, content: &Content<'_>) -> Result<(), AllocError> {
    let Content::Notification(
        Notification {
            attribute: Some(attribute),
            ..
        },
    ) = content
    else {
        return Ok(());
    };
    append_labelled(text, b"  class ", u64::from(attribute.class))?;
    text.extend_from_slice(b" ")?;
    append_code(text, attribute.name)?;
    append_labelled(text, b" attribute ", u64::from(attribute.id))?;
    text.extend_from_slice(b"\n")
}

/// Appends the line of a value.
fn append_entry(text: &mut Vec<u8>, entry: &Entry<'_>) -> Result<(), AllocError> {
    text.extend_from_slice(b"  ")?;
    if let Some(name) = entry.name {
        append_code(text, name)?;
        text.extend_from_slice(b" ")?;
    }
    append_scaled(text, entry)?;
    append_unit_of(text, entry)?;
    text.extend_from_slice(b"\n")
}

/// Appends the members that say who protected a notification, and how.
fn append_seal_members(text: &mut Vec<u8>, seal: Seal) -> Result<(), AllocError> {
    text.extend_from_slice(b",\"title\":\"")?;
    append_pairs(text, &seal.title)?;
    append_labelled(text, b"\",\"counter\":", u64::from(seal.counter))?;
    text.extend_from_slice(b",\"authenticated\":")?;
    text.extend_from_slice(if seal.is_authenticated {
        b"true"
    } else {
        b"false"
    })
}

/// Appends the member with the attribute of an event.
fn append_event(text: &mut Vec<u8>, attribute: Descriptor) -> Result<(), AllocError> {
    text.extend_from_slice(b",\"event\":{\"name\":\"")?;
    append_code(text, attribute.name)?;
    append_labelled(text, b"\",\"class\":", u64::from(attribute.class))?;
    append_labelled(text, b",\"attribute\":", u64::from(attribute.id))?;
    text.extend_from_slice(b"}")
}

/// Appends the identification of a telegram, and whether it has no check.
fn append_identification(text: &mut Vec<u8>, content: &Content<'_>) -> Result<(), AllocError> {
    let Content::Telegram(telegram) = content else {
        return Ok(());
    };
    text.extend_from_slice(b" identification ")?;
    append_quoted(text, telegram.identification())?;
    if telegram.is_checked {
        return Ok(());
    }
    text.extend_from_slice(b" without a check")
}

/// Appends the member with the identification of a telegram, and whether it has a check.
fn append_telegram(text: &mut Vec<u8>, content: &Content<'_>) -> Result<(), AllocError> {
    let Content::Telegram(telegram) = content else {
        return Ok(());
    };
    text.extend_from_slice(b",\"telegram\":{\"identification\":")?;
    append_quoted(text, telegram.identification())?;
    text.extend_from_slice(if telegram.is_checked {
        b",\"checked\":true}"
    } else {
        b",\"checked\":false}"
    })
}

/// Appends the members of a notification before its values.
fn append_members(text: &mut Vec<u8>, notified: &Notified<'_>) -> Result<(), AllocError> {
    append_member(text, b"{\"from\":", notified.from)?;
    if let Some(seal) = notified.received.seal {
        append_seal_members(text, seal)?;
    }
    if let Content::Notification(
        Notification {
            invoke: Some(invoke),
            ..
        },
    ) = notified.received.content
    {
        append_labelled(text, b",\"invoke\":", u64::from(invoke))?;
    }
    append_shown(text, b",\"time\":\"", time_of(notified))?;
    if let Content::Notification(
        Notification {
            attribute: Some(attribute),
            ..
        },
    ) = notified.received.content
    {
        append_event(text, attribute)?;
    }
    append_telegram(text, &notified.received.content)?;
    text.extend_from_slice(b",\"values\":[")
}

/// Appends the scaler and the unit of a value.
fn append_scale(text: &mut Vec<u8>, scaler: i8, unit: u8) -> Result<(), AllocError> {
    text.extend_from_slice(b",\"scaler\":")?;
    append_decimal(text, scaler < 0, u64::from(scaler.unsigned_abs()), 0)?;
    text.extend_from_slice(b",\"unit\":")?;
    append_quoted(text, unit_name(unit).unwrap_or("").as_bytes())
}

/// The octets of a date-time that a value is.
fn date_time_in(value: &Value<'_>) -> Option<[u8; 12]> {
    match value {
        Value::Octets(
            OctetsKind::OctetString | OctetsKind::DateTime,
            [a, b, c, d, e, f, g, h, i, j, k, l],
        ) => Some([*a, *b, *c, *d, *e, *f, *g, *h, *i, *j, *k, *l]),
        _ => None,
    }
}

impl<'n> Notified<'n> {
    /// The first value of this name.
    pub fn named(&self, name: [u8; 6]) -> Option<&'n Entry<'n>> {
        self.entries.iter().find(|entry| entry.name == Some(name))
    }

    /// The date-time of the notification, or that of the clock among its values.
    pub fn time(&self) -> Option<[u8; 12]> {
        if let Content::Notification(
            Notification {
                time: Some(time),
                ..
            },
        ) = self.received.content
        {
            return Some(time);
        }
        date_time_in(&self.named(CLOCK)?.value)
    }
}

impl<'a, W: Write> Teller<'a, '_, W> {
    /// Prints a notification in lines, of which the others are indented.
    pub fn put_notified(&mut self, notified: &Notified<'_>) -> Result<(), Fault<'a>> {
        append_head(&mut self.text, notified)?;
        append_attribute(&mut self.text, &notified.received.content)?;
        for entry in notified.entries {
            append_entry(&mut self.text, entry)?;
            self.flush_long()?;
        }
        self.flush()
    }

    /// The object of a value in a notification.
    fn put_entry_json(&mut self, entry: &Entry<'_>) -> Result<(), Fault<'a>> {
        self.text.extend_from_slice(b"{")?;
        if let Some(name) = entry.name {
            self.text.extend_from_slice(b"\"name\":\"")?;
            append_code(&mut self.text, name)?;
            self.text.extend_from_slice(b"\",")?;
        }
        self.text.extend_from_slice(b"\"value\":")?;
        match entry.scale {
            Some((scaler, unit)) => {
                self.put_scaled_value(&entry.value, true, Some(scaler))?;
                append_scale(&mut self.text, scaler, unit)?;
            }
            None => self.put_scaled_value(&entry.value, true, None)?,
        }
        self.text.extend_from_slice(b"}")?;
        Ok(())
    }

    /// Prints a notification as an object and a line feed.
    pub fn put_notified_json(&mut self, notified: &Notified<'_>) -> Result<(), Fault<'a>> {
        append_members(&mut self.text, notified)?;
        for (at, entry) in notified.entries.iter().enumerate() {
            if at > 0 {
                self.text.extend_from_slice(b",")?;
            }
            self.put_entry_json(entry)?;
        }
        self.text.extend_from_slice(b"]}\n")?;
        self.flush()
    }

    /// Prints the first row of CSV: the names of the columns.
    pub fn put_notified_names(&mut self, names: &[[u8; 6]]) -> Result<(), Fault<'a>> {
        self.text.extend_from_slice(b"time")?;
        for name in names {
            self.text.extend_from_slice(b",")?;
            append_code(&mut self.text, *name)?;
        }
        self.text.extend_from_slice(b"\n")?;
        self.flush()
    }

    /// Prints the time and the values of these names as a row of CSV; nothing if there is no value of them.
    pub fn put_notified_csv(
        &mut self,
        notified: &Notified<'_>,
        names: &[[u8; 6]],
    ) -> Result<(), Fault<'a>> {
        if !names.iter().any(|name| notified.named(*name).is_some()) {
            return Ok(());
        }
        if let Some(time) = notified.time() {
            let _is_time = append_clock(&mut self.text, &time, 0)?;
        }
        for name in names {
            self.text.extend_from_slice(b",")?;
            if let Some(entry) = notified.named(*name) {
                let mut field = Vec::new(self.alloc);
                append_scaled(&mut field, entry)?;
                append_field(&mut self.text, field.as_slice())?;
            }
        }
        self.text.extend_from_slice(b"\n")?;
        self.flush()
    }
}
