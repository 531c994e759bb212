//! Prints the messages of faults that no case of the command line causes: those of a poll's other end, of a device, and out of memory.
//! Each is printed as text, and as its line of JSON.
#![tactic(auto)]

use anyhow::Result;
use dlms_apdu::ApduFault;
use dlms_call::CallFault;
use dlms_client::{Denial, Fault as Talked};
use dlms_ends::RunFault;
use dlms_faults::Fault;
use dlms_headend::{PollFault, list_columns};
use dlms_identity::Expected;
use dlms_lines::ClockFault;
use dlms_printing::put_fault;
use dlms_program::ReplayFault;
use dlms_secured::SecuredFault;
use dlms_store::OpenFault;
use std::alloc::Global;
use std::io;
use std::io::Write;

/// The address of a poll.
const ADDRESS: &str = "192.0.2.7:4059";

/// The name of the request.
const NAME: &str = "1.0.1.8.0.255";

/// The file of a meter.
const METER: &str = "meter.bin";

/// An answer with the columns clock, 1.0.3.8.0.255, attribute 3 of it, a register of class 4, and one of another form.
const COLUMNS: &str = "c401c10001050204120008090600000100\
00ff0f021200000204120003090601000308\
00ff0f021200000204120003090601000308\
00ff0f031200010204120004090601000108\
00ff0f021200000205120003090601000108\
00ff0f02120000";

/// An output, and the memory for its lines.
#[derive(Drop)]
struct Page<'w, W> {
    alloc: Global,
    output: &'w mut W,
}

impl<W: Write> Page<'_, W> {
    /// Prints the message of a fault in both forms.
    fn put(&mut self, fault: Fault<'_>) -> Result<()> {
        put_fault(self.alloc, &fault, false, self.output)?;
        put_fault(self.alloc, &fault, true, self.output)?;
        drop(fault);
        Ok(())
    }
}

/// Prints the messages of polls.
fn put_polls<W: Write>(page: &mut Page<'_, W>) -> Result<()> {
    for fault in [
        PollFault::Refused(13),
        PollFault::Refused(2),
        PollFault::Refused(99),
        PollFault::Result(3),
        PollFault::Result(250),
        PollFault::Result(77),
        PollFault::Line,
        PollFault::Protocol,
        PollFault::Memory,
    ] {
        page.put(Fault::Poll(ADDRESS, fault))?;
    }
    let answer = hex::decode(page.alloc, COLUMNS)?;
    let columns = list_columns(answer.as_slice());
    drop(answer);
    page.put(Fault::Columns(ADDRESS, columns))?;
    page.put(Fault::Columns(ADDRESS, list_columns(&[])))?;
    page.put(Fault::Overdue(ADDRESS, 300))?;
    page.put(Fault::NoPeriod(ADDRESS))?;
    page.put(Fault::Unfiled)?;
    page.put(Fault::Clock(ADDRESS, ClockFault::Fallen(3)))?;
    let expected = Expected {
        name: [0, 0, 42, 0, 0, 255],
        text: "RTL0000000000001",
    };
    page.put(Fault::Stranger(ADDRESS, expected))
}

/// Prints the messages of a meter's device, and of streams.
fn put_devices<W: Write>(page: &mut Page<'_, W>) -> Result<()> {
    for fault in [OpenFault::Device, OpenFault::Size, OpenFault::Memory] {
        page.put(Fault::Open(Some(METER), fault))?;
    }
    page.put(Fault::Open(None, OpenFault::Device))?;
    for fault in [ReplayFault::Line(7), ReplayFault::Io, ReplayFault::Memory] {
        page.put(Fault::Replay(fault))?;
    }
    for fault in [RunFault::Io, RunFault::Memory] {
        page.put(Fault::Run(fault))?;
    }
    page.put(Fault::Output)?;
    page.put(Fault::Input("line.log"))
}

/// Prints the messages of a meter's refusals.
fn put_results<W: Write>(page: &mut Page<'_, W>) -> Result<()> {
    page.put(Fault::Result(NAME, 9, true))?;
    page.put(Fault::Result(NAME, 77, false))?;
    for denial in [
        Denial::Exception {
            state: 2,
            service: 77,
        },
        Denial::ServiceError {
            service: 5,
            class: 6,
            value: 3,
        },
    ] {
        page.put(Fault::Denied(NAME, denial))?;
    }
    page.put(Fault::Class(NAME))?;
    page.put(Fault::Large(NAME, 4_194_304))?;
    page.put(Fault::File("secret"))?;
    page.put(Fault::Now)
}

/// Prints the messages of sessions that end early.
fn put_sessions<W: Write>(page: &mut Page<'_, W>) -> Result<()> {
    for fault in [
        CallFault::Talk(Talked::Unread(ApduFault::Trailing)),
        CallFault::Talk(Talked::Block),
        CallFault::Talk(Talked::Refused {
            diagnostic: 1,
            initiate: Some(1),
        }),
        CallFault::Insecure(SecuredFault::InClear),
        CallFault::TooLong,
        CallFault::TooLarge,
        CallFault::Io,
    ] {
        page.put(Fault::Call(ADDRESS, fault))?;
    }
    for fault in [CallFault::Talk(Talked::Line), CallFault::Memory] {
        page.put(Fault::of_call(ADDRESS, fault))?;
    }
    Ok(())
}

fn main(rt: HostRuntime) -> Result<()> {
    let mut output = io::writer(&rt);
    let mut page = Page {
        alloc: rt.alloc(),
        output: &mut output,
    };
    put_polls(&mut page)?;
    put_devices(&mut page)?;
    put_results(&mut page)?;
    put_sessions(&mut page)
}
