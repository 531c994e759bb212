//! Laws of the definitions that the contracts cite. The functions do nothing: their contracts are the laws.
ghost use Rattle.std.specs.Prelude.{◌≡◌, ◌<◌, ◌^◌, ◌+◌, ℕ, List, ◌++◌, replicate, length, slice_index, bit_xor};
ghost use Rattle.dlms_cipher.specs.Field.{IsRemainder, plain_product, octet_product, block_product};
ghost use Rattle.dlms_cipher.specs.Aes.{inverse, aes};
ghost use Rattle.dlms_cipher.specs.Gcm.{poly_of, block_of};
ghost use Rattle.dlms_cipher.specs.Examples.{example_key, example_authentication, example_title, example_block, example_cipher, example_message, example_ciphertext, example_tag, example_challenge, example_answer};
ghost use Rattle.dlms_cipher.specs.Dlms.{cipher_of, sealed_tag, answer_of};

/// Deciphering a ciphertext gives the message, with any key, title and counter.
pub fn round_trip()
    ensures { (key title text : List ℕ) (counter : ℕ) → cipher_of key title counter (cipher_of key title counter text) ≡ text }
{}

/// Every octet except 0 has an inverse.
pub fn inverse_octet()
    ensures some { (a : ℕ) → a < 256 → 0 < a → octet_product a (inverse a) ≡ 1 }
    ensures zero { inverse 0 ≡ 0 }
{}

/// The product in a field is the remainder of the product of the polynomials by the modulus, and there is only one remainder.
pub fn remainder()
    ensures octets { (a b : ℕ) → b < 256 → IsRemainder 8 (plain_product 8 a b) 0x11B (octet_product a b) }
    ensures one_octet { (dividend p q : ℕ) → IsRemainder 8 dividend 0x11B p → IsRemainder 8 dividend 0x11B q → p ≡ q }
    ensures blocks { (a b : ℕ) → b < 2 ^ 128 → IsRemainder 128 (plain_product 128 a b) (2 ^ 128 + 0x87) (block_product a b) }
    ensures one_block { (dividend p q : ℕ) → IsRemainder 128 dividend (2 ^ 128 + 0x87) p → IsRemainder 128 dividend (2 ^ 128 + 0x87) q → p ≡ q }
{}

/// Products of blocks commute, associate and distribute over sums, and 1 is neutral.
pub fn block_ring()
    ensures one { (a : ℕ) → a < 2 ^ 128 → block_product a 1 ≡ a }
    ensures commutes { (a b : ℕ) → a < 2 ^ 128 → b < 2 ^ 128 → block_product a b ≡ block_product b a }
    ensures associates { (a b c : ℕ) → a < 2 ^ 128 → b < 2 ^ 128 → c < 2 ^ 128
        → block_product (block_product a b) c ≡ block_product a (block_product b c) }
    ensures distributes { (a b c : ℕ) → block_product (bit_xor a b) c ≡ bit_xor (block_product a c) (block_product b c) }
{}

/// A polynomial determines its block, and zeros after a block do not change its polynomial.
pub fn block_polynomial()
    ensures determined { (block : List ℕ) → ((i : ℕ) → slice_index block i < 256) → block_of (length block) (poly_of block) ≡ block }
    ensures padded { (octets : List ℕ) (n : ℕ) → poly_of (octets ++ replicate n 0) ≡ poly_of octets }
{}

/// The definitions give the results that the standards print: a block of AES (FIPS 197, C.1), a sealed message and an
/// answer to a challenge (Green Book).
pub fn examples()
    ensures block { aes example_key example_block ≡ example_cipher }
    ensures message { cipher_of example_key example_title 0x01234567 example_message ≡ example_ciphertext }
    ensures tag { sealed_tag example_key example_authentication example_title 0x01234567 example_ciphertext ≡ example_tag }
    ensures answer { answer_of example_key example_authentication example_title 0x01234567 example_challenge ≡ example_answer }
{}
