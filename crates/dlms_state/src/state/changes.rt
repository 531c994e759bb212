//! What each event does to a state. `apply` calls one of these, and the proofs tie it to the list of events.
ghost use Rattle.std.specs.Prelude.{◌≡◌, ◌<◌, ◌≤◌, ◌^◌, None, true};
ghost use Rattle.arrayvec.specs.ArrayVec.{array_vec_len};
ghost use Rattle.dlms_state.specs.Refusal.{refusal};
ghost use Rattle.dlms_state.specs.Columns.{fits_columns};
ghost use Rattle.dlms_state.specs.declared.event.TheConstants.{LONGEST_PERIOD};

use crate::clock::passes;
use crate::columns::row_of;
use crate::event::{MOST_COLUMNS, MOST_SECRET, MOST_TEXT, SecretOf};
use crate::state::State;
use arrayvec::ArrayVec;
use std::alloc::Allocator;

impl<A: Allocator + Copy> State<A> {
    ghost use Rattle.dlms_state.specs.declared.event.Event.{Event};
    ghost use Rattle.dlms_state.specs.StateValue.{HasNumberFor};
    ghost use Rattle.dlms_state.specs.Step.{step};

    pub(super) fn count_pulses(&mut self, channel: u8, count: u32)
        requires { channel < 3 }
        ensures { self.new ≡ step (Event.Pulses channel count) self.old }
    {
        let channel = channel as usize;
        self.registers[channel] = self.registers[channel].wrapping_add(count);
    }

    pub(super) fn pass_moment(&mut self, moment: u32)
        requires passes { refusal self.old.last self.old.offset (Event.Moment moment) ≡ None }
        requires number { HasNumberFor self.old (Event.Moment moment) }
        ensures { self.new ≡ step (Event.Moment moment) self.old }
    {
        let before = self.clock.second();
        self.clock = self.clock.at(moment);
        if passes(self.period, before, self.clock.second()) {
            self.capture();
        }
    }

    pub(super) fn set_time(&mut self, seconds: u32)
        requires { refusal self.old.last self.old.offset (Event.SetTime seconds) ≡ None }
        ensures { self.new ≡ step (Event.SetTime seconds) self.old }
    {
        self.clock = self.clock.set_to(seconds);
    }

    pub(super) fn shift(&mut self, by: i16)
        requires { refusal self.old.last self.old.offset (Event.Shift by) ≡ None }
        ensures { self.new ≡ step (Event.Shift by) self.old }
    {
        self.clock = self.clock.shifted(by);
    }

    pub(super) fn adjust_minute(&mut self)
        requires { refusal self.old.last self.old.offset Event.AdjustMinute ≡ None }
        ensures { self.new ≡ step Event.AdjustMinute self.old }
    {
        self.clock = self.clock.adjusted();
    }

    pub(super) fn set_period(&mut self, period: u32)
        requires { period ≤ LONGEST_PERIOD }
        ensures { self.new ≡ step (Event.SetPeriod period) self.old }
    {
        self.period = period;
        self.rows.clear();
    }

    pub(super) fn set_text(&mut self, text: ArrayVec<u8, MOST_TEXT>)
        ensures { self.new ≡ step (Event.SetText text) self.old }
    {
        self.text = text;
    }

    pub(super) fn set_secret(&mut self, of: SecretOf, secret: ArrayVec<u8, MOST_SECRET>)
        requires { 0 < array_vec_len secret }
        ensures { self.new ≡ step (Event.SetSecret of secret) self.old }
    {
        match of {
            SecretOf::Management => self.secret = secret,
            SecretOf::Reader => self.reader_secret = secret,
        }
    }

    pub(super) fn set_columns(&mut self, ids: ArrayVec<u8, MOST_COLUMNS>)
        requires { fits_columns ids.items ≡ true }
        ensures { self.new ≡ step (Event.SetColumns ids) self.old }
    {
        self.columns = ids;
        self.rows.clear();
    }

    pub(super) fn reset_register(&mut self, channel: u8)
        requires { channel < 3 }
        ensures { self.new ≡ step (Event.ResetRegister channel) self.old }
    {
        self.registers[channel as usize] = 0;
    }

    pub(super) fn reset_profile(&mut self)
        ensures { self.new ≡ step Event.ResetProfile self.old }
    {
        self.rows.clear();
    }

    pub(super) fn capture(&mut self)
        requires { self.old.rows.next < 2 ^ 64 }
        ensures { self.new ≡ step Event.Capture self.old }
    {
        let clock = self.clock.second();
        let row = row_of(self.columns.as_slice(), clock, self.registers);
        self.rows.push(row);
    }
}
