//! The requests of a poll.

ghost use Rattle.std.specs.Prelude.{◌≡◌, ◌≤◌, ◌<◌, ◌^◌, ◌+◌, ◌++◌, All, length};
ghost use Rattle.arrayvec.specs.ArrayVec.{array_vec_len};
ghost use Rattle.dlms_data.specs.Building.{IsTime};
ghost use Rattle.dlms_data.specs.Value.{Value};
ghost use Rattle.dlms_data.specs.Writing.{canonical};
ghost use Rattle.dlms_headend.specs.Asking.{AreSeconds, columns_bytes, next_bytes, IsBufferRequest};

use arrayvec::ArrayVec;
use dlms_data::{LAST_SECOND, octets};

/// The invoke-id-and-priority byte of each request: number 1, confirmed, high priority.
pub const INVOKE: u8 = 0xc1;

/// The clock's logical name.
pub const CLOCK: [u8; 6] = [0, 0, 1, 0, 0, 255];

/// The most octets of a request.
const MOST_OCTETS: usize = 128;

/// A request of a poll.
pub type Request = ArrayVec<u8, MOST_OCTETS>;

/// The GET of a range of the buffer, up to the first date-time: a GET (C0 01) with the invoke octet, of attribute 2 of class 7,
/// 1.0.99.1.0.255, with selector 1 (01 01); of that a structure of four (02 04), and its column, a structure of four (02 04): class 8
/// (12), 0.0.1.0.0.255 (09 06), attribute 2 (0F), data index 0 (12).
const RANGE_HEAD: [u8; 34] = [
    0xc0, 0x01, INVOKE, 0x00, 0x07, 1, 0, 99, 1, 0, 255, 0x02, 0x01, 0x01, 0x02, 0x04, 0x02, 0x04,
    0x12, 0x00, 0x08, 0x09, 0x06, 0, 0, 1, 0, 0, 255, 0x0f, 0x02, 0x12, 0x00, 0x00,
];

/// All columns: an array (01) of none.
const ALL_COLUMNS: [u8; 2] = [0x01, 0x00];

/// The GET of the capture objects, attribute 3.
const COLUMNS_GET: [u8; 13] = [
    0xc0, 0x01, INVOKE, 0x00, 0x07, 1, 0, 99, 1, 0, 255, 0x03, 0x00,
];

/// The tag and the length of a date-time as an octet-string.
const TIME_HEAD: [u8; 2] = [0x09, 0x0c];

/// Appends octets.
fn append(request: &mut Request, octets: &[u8])
    requires { array_vec_len request.old + length octets.now ≤ MOST_OCTETS }
    ensures items { request.new.items ≡ request.old.items ++ octets.now }
    ensures len { array_vec_len request.new ≡ array_vec_len request.old + length octets.now }
    ensures bytes { All (λ octet. octet < 2 ^ 8) octets.now }
{
    let _octets = octets;
    let _ = request.try_extend_from_slice(octets);
}

/// Appends a second's date-time, as an octet-string.
fn append_time(request: &mut Request, second: u32)
    requires second { second ≤ LAST_SECOND }
    requires room { array_vec_len request.old + 14 ≤ MOST_OCTETS }
    ensures time { (time : Value) × IsTime second time
        × (request.new.items ≡ request.old.items ++ canonical time) }
    ensures len { array_vec_len request.new ≡ array_vec_len request.old + 14 }
{
    let octets = octets(second);
    append(request, TIME_HEAD.as_slice());
    append(request, octets.as_slice());
}

/// The GET of the rows from that second on, or from 0, until the other one, or the clock's last. It takes no memory.
#[tactic(auto, using(crate::proofs::Requests::request_is_short))]
pub fn buffer_request(after: Option<u32>, until: Option<u32>) -> Request
    requires { AreSeconds after until }
    ensures asks { IsBufferRequest after until result.items }
    ensures short { length result.items ≤ MOST_OCTETS }
{
    let mut request = ArrayVec::new();
    append(&mut request, RANGE_HEAD.as_slice());
    append_time(&mut request, after.unwrap_or(0));
    append_time(&mut request, until.unwrap_or(LAST_SECOND));
    append(&mut request, ALL_COLUMNS.as_slice());
    request
}

/// The GET of the load profile's capture objects: class 7, 1.0.99.1.0.255, attribute 3, no selector. It takes no memory.
pub fn columns_request() -> Request
    ensures asks { result.items ≡ columns_bytes }
    ensures short { length result.items ≤ MOST_OCTETS }
{
    let mut request = ArrayVec::new();
    append(&mut request, COLUMNS_GET.as_slice());
    request
}

/// The GET of the block after the one with this number: C0 02, the invoke octet, the number. It takes no memory.
pub fn next_request(number: u32) -> Request
    ensures asks { result.items ≡ next_bytes number }
    ensures short { length result.items ≤ MOST_OCTETS }
{
    let mut request = ArrayVec::new();
    append(&mut request, &[0xc0, 0x02, INVOKE]);
    append(&mut request, &number.to_be_bytes());
    request
}
