//! The meters that push at a TCP port, each on a connection of its own, or at a UDP port.

use crate::Fault;
use crate::hearing::{Ear, Hearing};
use dlms_pushes::{Arrival, DatagramPort, PIECE, PushPort};
use std::fs::{File, Files};
use std::io;
use std::io::Write;
use std::net::{Net, SocketAddr};

/// A meter's connection, and the state of reading it.
#[derive(Drop)]
struct Caller {
    name: String,
    ear: Ear,
}

/// Gives a caller its place among the others.
fn keep_caller(
    callers: &mut Vec<Option<Caller>>,
    at: usize,
    caller: Caller,
) -> Result<(), Fault<'static>> {
    for _ in callers.len()..at.saturating_add(1) {
        callers.push(None)?;
    }
    if let Some(place) = callers.get_mut(at) {
        *place = Some(caller);
    }
    Ok(())
}

/// Hears octets of a caller, if there is one.
fn hear_caller<'f, H: Net + Files<File = File> + AllocGlobal, W: Write, E: Write>(
    hearing: &mut Hearing<'f, '_, '_, H, W, E>,
    place: &'f str,
    caller: &mut Option<Caller>,
    octets: &[u8],
) -> Result<(), Fault<'f>> {
    match caller {
        Some(caller) => hear_from(hearing, place, caller, octets),
        None => Ok(()),
    }
}

/// Hears octets of a caller.
fn hear_from<'f, H: Net + Files<File = File> + AllocGlobal, W: Write, E: Write>(
    hearing: &mut Hearing<'f, '_, '_, H, W, E>,
    place: &'f str,
    caller: &mut Caller,
    octets: &[u8],
) -> Result<(), Fault<'f>> {
    let Caller { name, ear } = caller;
    hearing.hear(place, name.as_str(), ear, octets)
}

/// The connection of a caller is over, if there is one.
fn close_caller<H: Net + Files<File = File> + AllocGlobal, W: Write, E: Write>(
    hearing: &mut Hearing<'_, '_, '_, H, W, E>,
    caller: &mut Option<Caller>,
) {
    if let Some(caller) = caller {
        close_call(hearing, caller);
    }
}

/// The connection of a caller is over.
fn close_call<H: Net + Files<File = File> + AllocGlobal, W: Write, E: Write>(
    hearing: &mut Hearing<'_, '_, '_, H, W, E>,
    caller: &mut Caller,
) {
    let Caller { name, ear } = caller;
    hearing.close(name.as_str(), ear);
}

/// Takes what happened at a port.
fn hear_arrival<'f, H: Net + Files<File = File> + AllocGlobal, W: Write, E: Write>(
    hearing: &mut Hearing<'f, '_, '_, H, W, E>,
    place: &'f str,
    callers: &mut Vec<Option<Caller>>,
    arrival: Arrival,
    piece: &[u8],
) -> Result<(), Fault<'f>> {
    let alloc = hearing.alloc;
    match arrival {
        Arrival::Opened(at, address) => {
            let caller = Caller {
                name: format!(in alloc; "{address}")?,
                ear: Ear::new(alloc, None)?,
            };
            keep_caller(callers, at, caller)
        }
        Arrival::Octets(at, count) => match callers.get_mut(at) {
            Some(caller) => {
                let octets = piece.get(..count).unwrap_or(&[]);
                hear_caller(hearing, place, caller, octets)
            }
            None => Ok(()),
        },
        Arrival::Closed(at) => {
            if let Some(caller) = callers.get_mut(at) {
                close_caller(hearing, caller);
                *caller = None;
            }
            Ok(())
        }
    }
}

/// Hears what comes to an open port.
fn hear_port<'f, H: Net + Files<File = File> + AllocGlobal, W: Write, E: Write>(
    hearing: &mut Hearing<'f, '_, '_, H, W, E>,
    place: &'f str,
    port: &mut PushPort,
) -> Result<(), Fault<'f>> {
    let alloc = hearing.alloc;
    let mut callers = Vec::new(alloc);
    let mut piece = [0u8; PIECE];
    for _ in 0..u64::MAX {
        if !hearing.goes_on() {
            break;
        }
        let arrival = match port.next(&mut piece) {
            Ok(arrival) => arrival,
            Err(error) => return Err(Fault::of_system(alloc, place, &error)),
        };
        hear_arrival(hearing, place, &mut callers, arrival, &piece)?;
    }
    Ok(())
}

/// Listens on a port.
pub fn listen_on<'f, H: Net + Files<File = File> + AllocGlobal, W: Write, E: Write>(
    host: &H,
    hearing: &mut Hearing<'f, '_, '_, H, W, E>,
    place: &'f str,
) -> Result<(), Fault<'f>> {
    let mut port = match PushPort::open(host, place) {
        Ok(port) => port,
        Err(error) => return Err(Fault::of_system(host.alloc(), place, &error)),
    };
    announce_address(hearing, place, port.address())?;
    hear_port(hearing, place, &mut port)
}

/// Says at which address it listens.
fn announce_address<'f, H: Net + Files<File = File> + AllocGlobal, W: Write, E: Write>(
    hearing: &mut Hearing<'f, '_, '_, H, W, E>,
    place: &'f str,
    address: io::Result<SocketAddr>,
) -> Result<(), Fault<'f>> {
    match address {
        Ok(address) => {
            let _said = writeln!(hearing.errors, "listening on {address}");
            Ok(())
        }
        Err(error) => Err(Fault::of_system(hearing.alloc, place, &error)),
    }
}

/// Hears a datagram, which is a stream of its own: a message of the wrapper, frames, or telegrams.
fn hear_datagram<'f, H: Net + Files<File = File> + AllocGlobal, W: Write, E: Write>(
    hearing: &mut Hearing<'f, '_, '_, H, W, E>,
    place: &'f str,
    from: SocketAddr,
    octets: &[u8],
) -> Result<(), Fault<'f>> {
    let alloc = hearing.alloc;
    let name = format!(in alloc; "{from}")?;
    let mut ear = Ear::new(alloc, None)?;
    hearing.hear(place, name.as_str(), &mut ear, octets)?;
    hearing.close(name.as_str(), &mut ear);
    Ok(())
}

/// Listens on a UDP port.
pub fn listen_for_datagrams<'f, H: Net + Files<File = File> + AllocGlobal, W: Write, E: Write>(
    host: &H,
    hearing: &mut Hearing<'f, '_, '_, H, W, E>,
    place: &'f str,
) -> Result<(), Fault<'f>> {
    let mut port = match DatagramPort::open(host, place) {
        Ok(port) => port,
        Err(error) => return Err(Fault::of_system(host.alloc(), place, &error)),
    };
    announce_address(hearing, place, port.address())?;
    let mut piece = [0u8; PIECE];
    for _ in 0..u64::MAX {
        if !hearing.goes_on() {
            break;
        }
        match port.next(&mut piece) {
            Ok((count, from)) => {
                let octets = piece.get(..count).unwrap_or(&[]);
                hear_datagram(hearing, place, from, octets)?;
            }
            Err(error) => return Err(Fault::of_system(host.alloc(), place, &error)),
        }
    }
    Ok(())
}
