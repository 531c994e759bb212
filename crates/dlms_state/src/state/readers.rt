//! Reads a state. Each method returns the value of the definitions, for every list of events that leads to the state.
ghost use Rattle.std.specs.Prelude.{◌≡◌, ◌<◌, ◌≤◌, ◌-◌, ◌^◌, List, All, length, true};
ghost use Rattle.dlms_state.specs.declared.event.TheConstants.{LAST_SECOND, LONGEST_PERIOD, MOST_COLUMNS, MOST_TEXT};
ghost use Rattle.dlms_state.specs.Events.{clock_at, registers_after, clock_after, moment_after, offset_after, period_after, text_after, secret_after, columns_after, buffer_after, captures};

use crate::event::SecretOf;
use crate::state::State;
use dlms_profile::Rows;
use std::alloc::Allocator;

impl<A: Allocator + Copy> State<A> {
    ghost use Rattle.dlms_state.specs.declared.event.Event.{Event};
    ghost use Rattle.dlms_state.specs.StateValue.{IsStateOf, secret_of};
    ghost use Rattle.dlms_state.specs.Columns.{fits_columns, IsRowOf};
    ghost use Rattle.dlms_profile.specs.Rows.{first_number};

    /// The three registers: Wh imported, Wh exported, varh.
    pub fn registers(&self) -> [u32; 3]
        ensures value { result ≡ self.now.registers }
        ensures after { (E : List Event) → IsStateOf E self.now → result ≡ registers_after E }
    {
        self.registers
    }

    /// The second that the clock shows, counted from 2000-01-01 00:00:00.
    pub fn clock(&self) -> u32
        ensures value { result ≡ clock_at self.now.last self.now.offset }
        ensures after { (E : List Event) → IsStateOf E self.now → result ≡ clock_after E }
        ensures in_range { result ≤ LAST_SECOND }
    {
        self.clock.second()
    }

    /// The last moment, 0 before any.
    pub fn last(&self) -> u32
        ensures value { result ≡ self.now.last }
        ensures after { (E : List Event) → IsStateOf E self.now → result ≡ moment_after E }
    {
        self.clock.last
    }

    /// The offset added to the last moment to make the clock.
    pub fn offset(&self) -> i64
        ensures value { result ≡ self.now.offset }
        ensures after { (E : List Event) → IsStateOf E self.now → result ≡ offset_after E }
    {
        self.clock.offset
    }

    /// The capture period in seconds; 0 means no period.
    pub fn period(&self) -> u32
        ensures value { result ≡ self.now.period }
        ensures after { (E : List Event) → IsStateOf E self.now → result ≡ period_after E }
        ensures limit { result ≤ LONGEST_PERIOD }
    {
        self.period
    }

    /// The text of the device, at most 240 bytes.
    pub fn text(&self) -> &[u8]
        ensures value { result.now ≡ self.now.text }
        ensures after { (E : List Event) → IsStateOf E self.now → result.now ≡ text_after E }
        ensures limit { length self.now.text ≤ MOST_TEXT }
    {
        self.text.as_slice()
    }

    /// A client's secret, 1 to 16 bytes.
    pub fn secret(&self, of: SecretOf) -> &[u8]
        ensures value { result.now ≡ secret_of of self.now }
        ensures after { (E : List Event) → IsStateOf E self.now → result.now ≡ secret_after of E }
        ensures not_empty { 0 < length result.now }
        ensures limit { length result.now ≤ 16 }
    {
        match of {
            SecretOf::Management => self.secret.as_slice(),
            SecretOf::Reader => self.reader_secret.as_slice(),
        }
    }

    /// The columns of a row, in their order: 0 is the clock, 1 to 3 are the registers 0 to 2. One to four of them, none twice.
    pub fn columns(&self) -> &[u8]
        ensures value { result.now ≡ self.now.columns }
        ensures after { (E : List Event) → IsStateOf E self.now → result.now ≡ columns_after E }
        ensures fit { fits_columns result.now ≡ true }
        ensures limit { length result.now ≤ MOST_COLUMNS }
    {
        self.columns.as_slice()
    }

    /// The load profile's buffer.
    pub fn rows(&self) -> &Rows<A>
        ensures value { result.now ≡ self.now.rows }
        ensures after { (E : List Event) → IsStateOf E self.now
            → result.now.items ≡ buffer_after E }
        ensures columns { All (IsRowOf self.now.columns) self.now.rows.items }
    {
        &self.rows
    }

    /// The number of the oldest row in the buffer, or of the next one if it is empty.
    pub fn first_number(&self) -> u128
        ensures value { result ≡ first_number self.now.rows }
        ensures after { (E : List Event) → IsStateOf E self.now
            → result ≡ length (captures E) - length (buffer_after E) }
    {
        self.rows.first_number()
    }

    /// The number that the next row gets: how many rows were captured. It is at most 2^64.
    pub fn next_number(&self) -> u128
        ensures value { result ≡ self.now.rows.next }
        ensures after { (E : List Event) → IsStateOf E self.now → result ≡ length (captures E) }
        ensures last { result ≤ 2 ^ 64 }
    {
        self.rows.next_number()
    }
}
