//! An open association over a line, and the calls that the requests to a meter make by it.

ghost use Rattle.dlms_client.specs.Plan.{IsPlan, plan_of};

use dlms_call::{CallFault, ClientEnd, Watch, act, begin, end, get_part_watched, get_watched, set};
use dlms_client::{Answer, Plan};
use dlms_data::{Data, Descriptor, Selector};
use dlms_ends::End;
use dlms_faults::Fault;
use dlms_secured::Guard;
use std::alloc::Global;

/// The calls by an open association.
pub trait Calls {
    /// Requests an attribute whose encoding has at most `most` octets, and shows what has come of it.
    fn get<V: Watch>(
        &mut self,
        attribute: Descriptor,
        most: usize,
        watch: &mut V,
    ) -> Result<Answer, CallFault>;

    /// The same for a part of an attribute.
    fn get_part<V: Watch>(
        &mut self,
        attribute: Descriptor,
        part: Selector<Global>,
        most: usize,
        watch: &mut V,
    ) -> Result<Answer, CallFault>;

    /// Sets an attribute.
    fn set(&mut self, attribute: Descriptor, value: Data<Global>) -> Result<Answer, CallFault>;

    /// Calls a method.
    fn act(
        &mut self,
        method: Descriptor,
        parameter: Option<Data<Global>>,
    ) -> Result<Answer, CallFault>;

    /// Ends the association, and the link.
    fn end(&mut self);

    /// The encoding of the value that came last.
    fn value(&self) -> &[u8];

    /// The meter's system title, if the association is protected, and the meter sent it.
    fn peer(&self) -> Option<[u8; 8]>;

    /// The counter of the meter that was accepted last, if the association is protected.
    fn last_accepted(&self) -> Option<u32>;
}

/// An open association over a line.
#[derive(Drop)]
pub struct Connection<'s, S: End> {
    line: &'s mut S,
    head: Box<ClientEnd<Global>>,
}

impl<S: End> Calls for Connection<'_, S> {
    fn get<V: Watch>(
        &mut self,
        attribute: Descriptor,
        most: usize,
        watch: &mut V,
    ) -> Result<Answer, CallFault> {
        get_watched(self.line, &mut self.head, attribute, most, watch)
    }

    fn get_part<V: Watch>(
        &mut self,
        attribute: Descriptor,
        part: Selector<Global>,
        most: usize,
        watch: &mut V,
    ) -> Result<Answer, CallFault> {
        get_part_watched(self.line, &mut self.head, attribute, part, most, watch)
    }

    fn set(&mut self, attribute: Descriptor, value: Data<Global>) -> Result<Answer, CallFault> {
        set(self.line, &mut self.head, attribute, value)
    }

    fn act(
        &mut self,
        method: Descriptor,
        parameter: Option<Data<Global>>,
    ) -> Result<Answer, CallFault> {
        act(self.line, &mut self.head, method, parameter)
    }

    fn end(&mut self) {
        let _ended = end(self.line, &mut self.head);
    }

    fn value(&self) -> &[u8] {
        self.head.value()
    }

    fn peer(&self) -> Option<[u8; 8]> {
        self.head.peer()
    }

    fn last_accepted(&self) -> Option<u32> {
        self.head.last_accepted()
    }
}

/// An association over a line, on the heap.
#[inline(never)]
fn associate<S: End>(
    alloc: Global,
    plan: Plan,
    guard: Option<Box<Guard>>,
    line: &mut S,
) -> Result<Box<ClientEnd<Global>>, CallFault>
    requires { IsPlan (plan_of plan) }
{
    match begin(alloc, line, plan, guard) {
        Ok(head) => match Box::new(alloc, head) {
            Ok(head) => Ok(head),
            Err(_) => Err(CallFault::Memory),
        },
        Err(fault) => Err(fault),
    }
}

/// An association over a line, if its addresses are valid.
#[inline(never)]
pub fn open_association<'a, 's, S: End>(
    alloc: Global,
    place: &'a str,
    plan: Plan,
    guard: Option<Box<Guard>>,
    line: &'s mut S,
) -> Result<Connection<'s, S>, Fault<'a>> {
    if !plan.is_lawful() {
        drop(guard);
        return Err(Fault::Server(place));
    }
    match associate(alloc, plan, guard, line) {
        Ok(head) => Ok(Connection { line, head }),
        Err(fault) => Err(Fault::of_call(place, fault)),
    }
}
