//! The ciphers of DLMS security suite 0: AES-128 in Galois/Counter Mode (FIPS 197, NIST SP 800-38D), and the protection of
//! messages and the answers to challenges above them (IEC 62056-5-3; Green Book 9.2.7). Nothing is allocated: texts are
//! encrypted and decrypted in the caller's slice.
#![tactic(auto)]

mod aes;
mod columns;
mod gcm;
mod ghash;
mod keys;
pub mod laws;
mod tables;

pub use keys::{Keys, WrongTag};
