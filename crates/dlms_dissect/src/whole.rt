//! A value that is joined of its blocks.

ghost use Rattle.std.specs.Prelude.{IfOk, OnErr};
ghost use Rattle.dlms_dissect.specs.Whole.{IsToldOfWhole, WantsMemory};

use crate::places::{Fault, value_fault};
use crate::secrecy::Secrecy;
use crate::veiled::Covered;
use dlms_data::{Data, DataFault, read};
use std::alloc::{AllocError, Allocator};

/// The report of the joined octets of all blocks.
#[derive(Drop)]
pub enum Whole<A: Allocator> {
    /// They are a secret.
    Secret,
    /// They spell this value.
    Value(Data<A>),
    /// They spell this value, which may be a secret.
    Unknown(Covered<A>),
    /// They spell no value.
    Unreadable(Fault),
}

/// The report of the joined octets: of a secret only that it is one.
pub fn whole_of<A: Allocator + Copy>(
    alloc: A,
    secrecy: Secrecy,
    octets: &[u8],
) -> Result<Whole<A>, AllocError>
    ensures told { IfOk result (IsToldOfWhole secrecy octets.now) }
    ensures memory { OnErr result (WantsMemory secrecy octets.now) }
{
    let veiled = match secrecy {
        Secrecy::Secret => return Ok(Whole::Secret),
        Secrecy::Unknown => true,
        Secrecy::Open => false,
    };
    match read(alloc, octets) {
        Ok((value, len)) if len == octets.len() => Ok(if veiled {
            Whole::Unknown(Covered::new(value))
        } else {
            Whole::Value(value)
        }),
        Ok(_) => Ok(Whole::Unreadable(value_fault(octets, 0))),
        Err(fault) => match fault {
            DataFault::Memory => Err(AllocError),
            _ => Ok(Whole::Unreadable(value_fault(octets, 0))),
        },
    }
}
