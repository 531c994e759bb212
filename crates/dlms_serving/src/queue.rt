//! Which of the connections that wait is served next, and which gives way where too many do.

ghost use Rattle.std.specs.Prelude.{◌≡◌, ◌+◌, ◌^◌, ◌-◌, min, map};
ghost use Rattle.dlms_serving.specs.Queue.{GivesWay, IsLastUnknown, IsLeast, IsMost, crowd_of, greater, lesser, rank_of, rounds_of};

use crate::guesses::{Guesses, Origin, PATIENCE};
use crate::turns::have_passed;

/// So many connections wait at most.
pub const MOST_WAITING: usize = 256;

/// Where a connection stands among those that wait.
#[derive(Clone, Copy)]
pub struct Place {
    pub origin: Origin,
    /// Since when it waits.
    pub since: u64,
    /// In which round it is served: each address has one turn in each round.
    pub round: u64,
}

/// How many connections wait from there.
pub fn crowd_of(places: &[Place], origin: Origin) -> usize
    ensures { result ≡ crowd_of places.now origin }
{
    places
        .iter()
        .filter(|place| place.origin.is(origin))
        .count()
}

/// The round of a new connection, if this one is served now: one later for each that waits from the same address.
pub fn round_of(places: &[Place], origin: Origin, served: u64) -> u64
    ensures { result ≡ min (served + crowd_of places.now origin) (2 ^ 64 - 1) }
{
    served.saturating_add(crowd_of(places, origin) as u64)
}

/// The round of a connection that may be served at this second; of those alone whose address has proved a secret, where these go before.
fn rank_of(
    places: &[Place],
    place: Place,
    guesses: &Guesses,
    only_known: bool,
    now: u64,
) -> Option<u64>
    ensures { result ≡ rank_of places.now guesses.now only_known now place }
{
    if only_known && !guesses.is_known(place.origin, now) {
        return None;
    }
    let is_patient = have_passed(PATIENCE, place.since, now) && crowd_of(places, place.origin) > 1;
    if guesses.may_try(place.origin, is_patient, now) {
        Some(place.round)
    } else {
        None
    }
}

/// An entry of a list, by its index, and a number that it has.
#[derive(Clone, Copy)]
struct Found {
    index: usize,
    number: u64,
}

/// The lesser of the least number so far and one after it, which may have no number; the one so far if both are the same.
fn lesser(least: Option<Found>, index: usize, number: Option<u64>) -> Option<Found>
    ensures { result ≡ lesser least index number }
{
    match number {
        Some(number) => match least {
            Some(found) => {
                if number < found.number {
                    Some(Found { index, number })
                } else {
                    least
                }
            }
            None => Some(Found { index, number }),
        },
        None => least,
    }
}

/// The greater of the greatest number so far and one after it; the one after it if both are the same.
fn greater(most: Option<Found>, index: usize, number: u64) -> Option<Found>
    ensures { result ≡ greater most index number }
{
    match most {
        Some(found) => {
            if number < found.number {
                most
            } else {
                Some(Found { index, number })
            }
        }
        None => Some(Found { index, number }),
    }
}

/// Which connection is served next: of those that may be served at this second one of the earliest round, and of these the first.
pub fn next_of(places: &[Place], guesses: &Guesses, only_known: bool, now: u64) -> Option<usize>
    ensures { IsLeast (map (rank_of places.now guesses.now only_known now) places.now) result }
{
    let mut least = None;
    for (index, place) in places.iter().enumerate() {
        let rank = rank_of(places, *place, guesses, only_known, now);
        least = lesser(least, index, rank);
    }
    match least {
        Some(found) => Some(found.index),
        None => None,
    }
}

/// The last connection of the latest round.
fn last_served(places: &[Place]) -> Option<Found>
    ensures { IsMost (rounds_of places.now) result }
{
    let mut most = None;
    for (index, place) in places.iter().enumerate() {
        most = greater(most, index, place.round);
    }
    most
}

/// The last connection of an address that has proved no secret.
fn last_unknown(places: &[Place], guesses: &Guesses, now: u64) -> Option<usize>
    ensures { IsLastUnknown places.now guesses.now now result }
{
    let mut last = None;
    for (index, place) in places.iter().enumerate() {
        if !guesses.is_known(place.origin, now) {
            last = Some(index);
        }
    }
    last
}

/// Which connection gives way if there is no room for a new one, of this address and round: the one that would be served last, if
/// that is at least two rounds later; otherwise, if the address of the new one has proved a secret, the last one of an address that
/// has not. `None`: the new one is not admitted.
pub fn giving_way(
    places: &[Place],
    origin: Origin,
    round: u64,
    guesses: &Guesses,
    now: u64,
) -> Option<usize>
    ensures { GivesWay places.now origin round guesses.now now result }
{
    match last_served(places) {
        Some(found) => {
            if round < found.number.saturating_sub(1) {
                Some(found.index)
            } else if guesses.is_known(origin, now) {
                last_unknown(places, guesses, now)
            } else {
                None
            }
        }
        None => None,
    }
}
