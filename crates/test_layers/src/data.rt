//! Rows of `dlms_data`.

use crate::answers::{put_number, put_number_and, put_shown, put_with_number};
use crate::bench::{Bench, Room};
use crate::fault::RowFault;
use crate::hexadecimal::put_hex;
use crate::words::{Words, put_truth};
use bumpalo::Bump;
use dlms_data::{
    Bits, Bytes, Data, DataFault, Items, LAST_SECOND, append, append_counted, counted, fits,
    is_value, laws, octets, read, secs, span, write,
};
use linked_list_allocator::LocalHeap;

/// The calls of the codec of values.
#[derive(Drop)]
pub struct DataBench<'h> {
    room: Room<'h>,
}

fn put_fault(answer: &mut String, fault: DataFault) -> Result<(), RowFault> {
    put_with_number(answer, "fault ", u64::from(fault.number()))
}

/// A value, as it is written with memory from this heap.
fn put_value<'h>(
    answer: &mut String,
    heap: &'h LocalHeap,
    value: &Data<&'h LocalHeap>,
) -> Result<(), RowFault> {
    if !fits(value) {
        return Ok(answer.push_str("unfit")?);
    }
    match write(heap, value) {
        Ok(bytes) => put_hex(answer, &bytes),
        Err(_) => Ok(answer.push_str("memory")?),
    }
}

/// The length of a value that was read, as `span` tells it too, and how it is written.
fn put_found<'h>(
    heap: &'h LocalHeap,
    bytes: &[u8],
    value: &Data<&'h LocalHeap>,
    len: usize,
    answer: &mut String,
) -> Result<(), RowFault> {
    if span(bytes).ok() != Some(len) {
        answer.push_str("another span ")?;
    }
    put_number_and(answer, len as u64, ' ')?;
    put_value(answer, heap, value)
}

/// The result of reading.
fn put_read(room: Room<'_>, bytes: &[u8], answer: &mut String) -> Result<(), RowFault> {
    match read(room.heap, bytes) {
        Ok((value, len)) => put_found(room.ample, bytes, &value, len, answer),
        Err(fault) => put_fault(answer, fault),
    }
}

/// Whether reading takes at most this many bytes of memory, all its allocations together; otherwise how many.
fn put_taken(room: Room<'_>, most: u32, bytes: &[u8], answer: &mut String) -> Result<(), RowFault> {
    let arena = Bump::new(room.ample);
    drop(read(&arena, bytes));
    let taken = arena.allocated_bytes() as u64;
    if taken <= u64::from(most) {
        Ok(answer.push_str("within")?)
    } else {
        put_number(answer, taken)
    }
}

/// The length of the value at the front, or the fault.
fn put_span(bytes: &[u8], answer: &mut String) -> Result<(), RowFault> {
    match span(bytes) {
        Ok(len) => put_number(answer, len as u64),
        Err(fault) => put_fault(answer, fault),
    }
}

/// A value after other bytes, with memory from the heap.
fn put_appended<'h>(
    heap: &'h LocalHeap,
    front: &[u8],
    value: &Data<&'h LocalHeap>,
    answer: &mut String,
) -> Result<(), RowFault> {
    if !fits(value) {
        return Ok(answer.push_str("unfit")?);
    }
    let Ok(out) = Vec::from_slice(heap, front) else {
        return Ok(answer.push_str("memory")?);
    };
    match append(out, value) {
        Ok(out) => put_hex(answer, &out),
        Err(_) => Ok(answer.push_str("memory")?),
    }
}

/// The value of these bytes, written with memory from the heap, after other bytes.
fn put_written(
    room: Room<'_>,
    front: &[u8],
    bytes: &[u8],
    answer: &mut String,
) -> Result<(), RowFault> {
    match read(room.ample, bytes) {
        Ok((value, _)) => put_appended(room.heap, front, &value, answer),
        Err(_) => Err(RowFault::Form),
    }
}

/// The result of reading, variant by variant.
fn put_debug(room: Room<'_>, bytes: &[u8], answer: &mut String) -> Result<(), RowFault> {
    match read(room.heap, bytes) {
        Ok((value, _)) => put_shown(answer, &value),
        Err(fault) => put_fault(answer, fault),
    }
}

/// The octets after their length, and what follows them.
fn put_counted(bytes: &[u8], answer: &mut String) -> Result<(), RowFault> {
    match counted(bytes) {
        Ok((octets, rest)) => {
            put_hex(answer, octets)?;
            answer.push(' ')?;
            put_hex(answer, rest)
        }
        Err(fault) => put_fault(answer, fault),
    }
}

/// Bytes, and octets after their length.
fn put_append_counted(
    room: Room<'_>,
    front: &[u8],
    octets: &[u8],
    answer: &mut String,
) -> Result<(), RowFault> {
    let out = Vec::from_slice(room.ample, front)?;
    if octets.len() > u32::MAX as usize {
        return Err(RowFault::Form);
    }
    let out = append_counted(out, octets)?;
    put_hex(answer, &out)
}

/// One more value.
fn extended<'h>(
    mut items: Items<&'h LocalHeap>,
    value: Data<&'h LocalHeap>,
) -> Result<Items<&'h LocalHeap>, RowFault> {
    items.push(value)?;
    Ok(items)
}

/// Whether a null in this many arrays, each in the next, has a spelling.
fn put_nested(room: Room<'_>, levels: u32, answer: &mut String) -> Result<(), RowFault> {
    let mut value = Data::Null;
    for _ in 0..levels {
        value = Data::Array(extended(Items::new(room.ample), value)?);
    }
    put_truth(answer, fits(&value))
}

/// A number of a byte, with its sign.
fn small_of(words: &mut Words<'_>) -> Result<i8, RowFault> {
    let number = words.signed()?;
    if -128 <= number && number <= 127 {
        Ok(number as i8)
    } else {
        Err(RowFault::Form)
    }
}

/// A structure made of octets and a number: the number of its values, and its spelling after other bytes.
fn put_structure(
    room: Room<'_>,
    octets: &[u8],
    number: i8,
    answer: &mut String,
) -> Result<(), RowFault> {
    let octets = Data::OctetString(Bytes::from_slice(room.ample, octets)?);
    let items = extended(Items::new(room.ample), octets)?;
    let items = extended(items, Data::Integer(number))?;
    put_number_and(answer, items.len() as u64, ' ')?;
    put_value(answer, room.ample, &Data::Structure(items))
}

/// The number of the first bits of bytes, and the bytes that hold them.
fn put_first_bits(
    room: Room<'_>,
    bytes: &[u8],
    count: usize,
    answer: &mut String,
) -> Result<(), RowFault> {
    if count > 65_536 || bytes.len() != count.div_ceil(8) {
        return Err(RowFault::Form);
    }
    let bits = Bits::from_vec(Vec::from_slice(room.ample, bytes)?, count);
    put_number_and(answer, bits.len() as u64, ' ')?;
    put_hex(answer, bits.as_bytes())
}

/// How many bits a bit string has, and the bytes that hold them.
fn put_bits(room: Room<'_>, bytes: &[u8], answer: &mut String) -> Result<(), RowFault> {
    match read(room.ample, bytes) {
        Ok((Data::BitString(bits), _)) => {
            put_number_and(answer, bits.len() as u64, ' ')?;
            put_hex(answer, bits.as_bytes())
        }
        _ => Err(RowFault::Form),
    }
}

/// The octets of a second, as they are read again.
fn put_octets(second: u32, answer: &mut String) -> Result<(), RowFault> {
    if second > LAST_SECOND {
        return Err(RowFault::Form);
    }
    put_hex(answer, octets(second).as_slice())?;
    put_second(answer, laws::reads_each_second(second))
}

/// A second, if there is one.
fn put_second(answer: &mut String, second: Option<u32>) -> Result<(), RowFault> {
    match second {
        Some(second) => put_with_number(answer, " ", u64::from(second)),
        None => Ok(answer.push_str(" no")?),
    }
}

impl<'h> DataBench<'h> {
    pub fn new(room: Room<'h>) -> Self {
        DataBench { room }
    }

    /// The calls about date-times and octets.
    fn other_step(
        &mut self,
        call: &str,
        words: &mut Words<'_>,
        answer: &mut String,
    ) -> Result<(), RowFault> {
        match call {
            "counted" => put_counted(&words.bytes()?, answer),
            "append-counted" => {
                let front = words.bytes()?;
                put_append_counted(self.room, &front, &words.bytes()?, answer)
            }
            "takes" => {
                let most = words.number()?;
                put_taken(self.room, most, &words.bytes()?, answer)
            }
            "nested" => put_nested(self.room, words.number()?, answer),
            "structure" => {
                let octets = words.bytes()?;
                put_structure(self.room, &octets, small_of(words)?, answer)
            }
            "first-bits" => {
                let bytes = words.bytes()?;
                put_first_bits(self.room, &bytes, words.number()? as usize, answer)
            }
            "bits" => put_bits(self.room, &words.bytes()?, answer),
            "octets" => put_octets(words.number()?, answer),
            "seconds" => put_second(answer, secs(&words.bytes()?)),
            _ => Err(RowFault::Form),
        }
    }
}

impl Bench for DataBench<'_> {
    fn step(&mut self, words: &mut Words<'_>, answer: &mut String) -> Result<(), RowFault> {
        let call = words.word()?;
        match call {
            "read" => put_read(self.room, &words.bytes()?, answer),
            "span" => put_span(&words.bytes()?, answer),
            "append" => {
                let front = words.bytes()?;
                put_written(self.room, &front, &words.bytes()?, answer)
            }
            "shown" => put_debug(self.room, &words.bytes()?, answer),
            "is-value" => put_truth(answer, is_value(&words.bytes()?)),
            _ => self.other_step(call, words, answer),
        }
    }
}
