//! The requests that follow others: the next block of a GET's value, and the blocks of a value to set or of a parameter. They take
//! no memory.

ghost use Rattle.std.specs.Prelude.{◌≡◌, ◌≤◌, ◌+◌, ◌++◌, None, length};
ghost use Rattle.arrayvec.specs.ArrayVec.{array_vec_len};
ghost use Rattle.dlms_apdu.specs.Forms.{set_first, set_block, action_first, action_block};
ghost use Rattle.dlms_apdu.specs.Writing.{descriptor_bytes, block_bytes, request_bytes};
ghost use Rattle.dlms_data.specs.Writing.{short_length};
ghost use Rattle.dlms_association.specs.Calls.{next_bytes};

use arrayvec::ArrayVec;
use dlms_blocks::Block;
use dlms_data::Descriptor;

/// The invoke-id-and-priority byte of each request: number 1, confirmed, high priority.
pub const INVOKE: u8 = 0xc1;

/// The most bytes of a block of a request.
pub const MOST_RAW: usize = 1003;

/// The most octets of such a request: those of the first one, in APDUs of 1,024.
const MOST_OCTETS: usize = 1024;

/// A request.
pub type RequestText = ArrayVec<u8, MOST_OCTETS>;

/// The GET of the block after the one with this number: `c0 02`, the invoke octet, the number.
pub fn next_request(number: u32) -> [u8; 7]
    ensures { result ≡ next_bytes number }
{
    let [a, b, c, d] = number.to_be_bytes();
    [0xc0, 0x02, INVOKE, a, b, c, d]
}

/// Appends octets.
fn append(request: &mut RequestText, octets: &[u8])
    requires { array_vec_len request.old + length octets.now ≤ MOST_OCTETS }
    ensures items { request.new.items ≡ request.old.items ++ octets.now }
    ensures len { array_vec_len request.new ≡ array_vec_len request.old + length octets.now }
{
    let _ = request.try_extend_from_slice(octets);
}

/// Appends a length in its shortest spelling.
#[tactic(auto, unfolding(dlms_data::specs::Writing::short_length))]
fn append_length(request: &mut RequestText, number: u16)
    requires { array_vec_len request.old + 3 ≤ MOST_OCTETS }
    ensures items { request.new.items ≡ request.old.items ++ short_length number }
    ensures len { array_vec_len request.new ≤ array_vec_len request.old + 3 }
{
    let [high, low] = number.to_be_bytes();
    if number < 128 {
        append(request, &[low]);
    } else if number < 256 {
        append(request, &[0x81, low]);
    } else {
        append(request, &[0x82, high, low]);
    }
}

/// Appends a descriptor: class, name, attribute or method.
fn append_descriptor(request: &mut RequestText, descriptor: Descriptor)
    requires { array_vec_len request.old + 9 ≤ MOST_OCTETS }
    ensures items { request.new.items ≡ request.old.items ++ descriptor_bytes descriptor }
    ensures len { array_vec_len request.new ≡ array_vec_len request.old + 9 }
{
    append(request, &descriptor.class.to_be_bytes());
    append(request, &descriptor.name);
    append(request, &[descriptor.id]);
}

/// Appends a block: whether it is the last one, its number, and its bytes after their length.
fn append_block(request: &mut RequestText, block: &Block)
    requires raw { length block.now.bytes.items ≤ MOST_RAW }
    requires room { array_vec_len request.old ≤ 13 }
    ensures items { request.new.items ≡ request.old.items
        ++ block_bytes block.now.last block.now.number block.now.bytes.items }
{
    let bytes = block.bytes.as_slice();
    append(request, &[u8::from(block.last)]);
    append(request, &block.number.to_be_bytes());
    append_length(request, bytes.len() as u16);
    append(request, bytes);
}

/// A request with a block after these octets.
fn with_block(head: &[u8], block: &Block) -> RequestText
    requires raw { length block.now.bytes.items ≤ MOST_RAW }
    requires room { length head.now ≤ 13 }
    ensures { result.items ≡ head.now
        ++ block_bytes block.now.last block.now.number block.now.bytes.items }
{
    let mut request = ArrayVec::new();
    append(&mut request, head);
    append_block(&mut request, block);
    request
}

/// The first block of a value to set.
pub fn first_of_set(descriptor: Descriptor, block: &Block) -> RequestText
    requires { length block.now.bytes.items ≤ MOST_RAW }
    ensures { result.items ≡ request_bytes
        (set_first INVOKE descriptor None block.now.last block.now.number block.now.bytes.items) }
{
    let mut request = ArrayVec::new();
    append(&mut request, &[0xc1, 0x02, INVOKE]);
    append_descriptor(&mut request, descriptor);
    append(&mut request, &[0x00]);
    append_block(&mut request, block);
    request
}

/// The first block of a method's parameter.
pub fn first_of_action(descriptor: Descriptor, block: &Block) -> RequestText
    requires { length block.now.bytes.items ≤ MOST_RAW }
    ensures { result.items ≡ request_bytes
        (action_first INVOKE descriptor block.now.last block.now.number block.now.bytes.items) }
{
    let mut request = ArrayVec::new();
    append(&mut request, &[0xc3, 0x04, INVOKE]);
    append_descriptor(&mut request, descriptor);
    append_block(&mut request, block);
    request
}

/// A further block of a value to set.
pub fn next_of_set(block: &Block) -> RequestText
    requires { length block.now.bytes.items ≤ MOST_RAW }
    ensures { result.items ≡ request_bytes
        (set_block INVOKE block.now.last block.now.number block.now.bytes.items) }
{
    with_block(&[0xc1, 0x03, INVOKE], block)
}

/// A further block of a method's parameter.
pub fn next_of_action(block: &Block) -> RequestText
    requires { length block.now.bytes.items ≤ MOST_RAW }
    ensures { result.items ≡ request_bytes
        (action_block INVOKE block.now.last block.now.number block.now.bytes.items) }
{
    with_block(&[0xc3, 0x06, INVOKE], block)
}
