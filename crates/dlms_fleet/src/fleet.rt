//! The seats of many running jobs: as many jobs run at once as there are seats.
ghost use Rattle.std.specs.Prelude.{◌≡◌, IfOk, length};
ghost use Rattle.dlms_fleet.specs.RunningJob.{moment_of};
ghost use Rattle.dlms_fleet.specs.Seats.{FleetSteps, SeatSteps, Starts, empty_fleet, is_free};

use crate::job::Job;
use crate::running::{Limits, Moment, Outcome, Running, Step};
use std::alloc::{AllocError, Allocator, Global};
use std::marker::Model;

/// What the job on a seat does at a moment.
#[derive(Drop)]
pub enum FleetStep<T, M, E> {
    Nothing,
    /// This message is to be sent on its line.
    Sends(M),
    /// The job ended, and is handed back. Its line is to be closed; its seat is free.
    Ends(Outcome<E>, T),
}

/// A fixed number of seats, each of them free or with a running job. A seat is free again once its job has ended.
#[derive(Drop)]
pub struct Fleet<T, A: Allocator = Global> {
    limits: Limits,
    seats: Vec<Option<Running<T>>, A>,
}

impl<T, A: Allocator> Model for Fleet<T, A> {
    ghost use Rattle.dlms_fleet.specs.Seats.{FleetValue};

    ghost Value = { FleetValue T };

    ghost view = { λ f. record { limits = f.limits; seats = f.seats.items } };
}

/// A moment of a seat.
fn seat_on<T: Job + Drop>(
    seat: &mut Option<Running<T>>,
    limits: Limits,
    moment: Moment<'_>,
) -> FleetStep<T, T::Message, T::Fault>
    ensures { SeatSteps T.steps limits seat.old (moment_of moment.entry) result seat.new }
{
    let Some(running) = seat.take() else {
        return FleetStep::Nothing;
    };
    let mut running = running;
    match running.on(limits, moment) {
        Step::Nothing => {
            *seat = Some(running);
            FleetStep::Nothing
        }
        Step::Sends(message) => {
            *seat = Some(running);
            FleetStep::Sends(message)
        }
        Step::Ends(outcome) => FleetStep::Ends(outcome, running.job),
    }
}

impl<T: Job + Drop, A: Allocator> Fleet<T, A> {
    /// This many seats, all of them free. It takes all its memory here.
    pub fn new(alloc: A, limits: Limits, seats: usize) -> Result<Self, AllocError>
        ensures { IfOk result (λ fleet. fleet ≡ empty_fleet limits seats) }
    {
        let mut free = Vec::with_capacity(alloc, seats)?;
        for _seat in 0..seats {
            free.push(None)?;
        }
        Ok(Fleet {
            limits,
            seats: free,
        })
    }

    /// The number of seats.
    pub fn seats(&self) -> usize
        ensures { result ≡ length self.now.seats }
    {
        self.seats.len()
    }

    /// Whether there is a seat of this number, and no job runs on it.
    pub fn is_free(&self, number: usize) -> bool
        ensures { result ≡ is_free self.now.seats number }
    {
        match self.seats.get(number) {
            Some(seat) => seat.is_none(),
            None => false,
        }
    }

    /// Starts a job on a free seat. If the seat is not free, or there is none of this number, the job is handed back and nothing changes.
    pub fn start(&mut self, number: usize, job: T) -> Result<(), T>
        ensures { Starts self.old number job result self.new }
    {
        if !self.is_free(number) {
            return Err(job);
        }
        self.seats[number] = Some(Running::new(self.limits, job));
        Ok(())
    }

    /// A moment of the job on this seat. On a free seat, or on one that does not exist, nothing comes of it.
    pub fn on(&mut self, number: usize, moment: Moment<'_>) -> FleetStep<T, T::Message, T::Fault>
        ensures { FleetSteps T.steps self.old number (moment_of moment.entry) result self.new }
    {
        let Some(seat) = self.seats.get_mut(number) else {
            return FleetStep::Nothing;
        };
        seat_on(seat, self.limits, moment)
    }
}
