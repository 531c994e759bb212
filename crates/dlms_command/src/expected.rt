//! The texts that a meter must show before it is polled, as `--expect` gives them.

use dlms_faults::Fault;
use dlms_identity::Expected;
use dlms_text::written_name;
use dlms_words::Expecting;
use std::alloc::Global;

/// How many texts may be expected.
const MOST: usize = 4;

/// The object and the text that `NAME=TEXT` names.
fn expected_in(text: &str) -> Result<Expected<'_>, Fault<'_>> {
    let Some((said, shown)) = text.split_once('=') else {
        return Err(Fault::Expect(text));
    };
    match written_name(said) {
        Some(name) if name.number.is_none() => Ok(Expected {
            name: name.code,
            text: shown,
        }),
        _ => Err(Fault::Expect(text)),
    }
}

/// Appends what a text names, if there is one.
fn take<'a>(list: &mut Vec<Expected<'a>>, text: Option<&'a str>) -> Result<(), Fault<'a>> {
    let Some(text) = text else {
        return Ok(());
    };
    let expected = expected_in(text)?;
    if list.len() >= MOST {
        return Err(Fault::Expect(text));
    }
    match list.push(expected) {
        Ok(()) => Ok(()),
        Err(_) => Err(Fault::MEMORY),
    }
}

/// Appends what the texts name, in their order.
fn take_all<'a>(list: &mut Vec<Expected<'a>>, expecting: &Expecting<'a>) -> Result<(), Fault<'a>> {
    take(list, expecting.first)?;
    take(list, expecting.second)?;
    take(list, expecting.third)?;
    take(list, expecting.fourth)?;
    take(list, expecting.fifth)
}

/// The names and texts that the arguments give, in their order. A fifth one is refused.
pub fn expected_of<'a>(
    alloc: Global,
    expecting: &Expecting<'a>,
) -> Result<Vec<Expected<'a>>, Fault<'a>> {
    let mut list = Vec::new(alloc);
    match take_all(&mut list, expecting) {
        Ok(()) => Ok(list),
        Err(fault) => {
            drop(list);
            Err(fault)
        }
    }
}
