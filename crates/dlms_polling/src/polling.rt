//! A head end that polls the meter at an address once.

ghost use Rattle.std.specs.Prelude.{◌≡◌, ◌≤◌, IfErr, IfOk, IfSome, option_map};
ghost use Rattle.dlms_carrier.specs.Any.{IsRoute};
ghost use Rattle.dlms_data.specs.declared.date_time.TheConstants.{LAST_SECOND};
ghost use Rattle.dlms_polling.specs.Calling.{FailsCalled, HasDone, aim_of};
ghost use Rattle.dlms_polling.specs.Clocks.{Takes};
ghost use Rattle.dlms_polling.specs.Guards.{watch};
ghost use Rattle.dlms_polling.specs.Polled.{IsReady, IsUnready, JudgesFiled, Known, Limits, Polls, route_or_link, secret_in, way_after};
ghost use Rattle.dlms_polling.specs.Ways.{IsDoneBy, IsWay, rows_of, way_of};

use crate::calling::call;
use crate::clocks::{Limit, first_ahead, judge};
use crate::guards::Guards;
use crate::keeping::{file_readings, hold_file, open_readings};
use crate::poll_inputs::PollInputs;
use crate::secret::secret_to_send;
use crate::way::{DonePoll, Way};
use arrayvec::ArrayVec;
use dlms_client::Route;
use dlms_ends::RunFault;
use dlms_filing::{Holding, Output};
use dlms_frame::{Address, Client};
use dlms_headend::{Columns, Plan, PollTerms, Readings, Row};
use dlms_identity::Expected;
use dlms_lines::{ClockFault, Dialling, FieldFault};
use std::alloc::Global;

/// The meter to poll, the file, and the client that asks.
#[derive(Clone, Copy)]
pub struct Polling<'a, 'e> {
    /// The meter's address and port, or the device of its serial line.
    pub address: &'a str,
    /// The route to the meter, whose addresses are in their ranges (`Route::is_lawful`). Without one the client polls the meter at
    /// address 1 over its HDLC link.
    pub route: Option<Route>,
    /// The readings file.
    pub readings: Option<&'a str>,
    /// The file of the client's secret. If no file is given, no secret is sent over a route, and without a route the client's first one.
    pub secret_file: Option<&'a str>,
    /// The client that asks, without a route. For a client without a secret no file is read.
    pub client: Client,
    /// For how many seconds the meter is talked to at most.
    pub deadline: u32,
    /// How many times a meter is called again that does not answer, or whose connection is refused or lost; `MOST_RETRIES` leaves the
    /// deadline as the only bound.
    pub retries: u32,
    /// The last second of the meter's clock whose rows are asked for; without it, the clock's own last one.
    pub until: Option<u32>,
    /// By how many seconds a row's clock may be past the system's; without it, by any.
    pub ahead: Option<u32>,
    /// Whether an answer is refused if one of its rows is not later than the row before it. Otherwise such rows are left out.
    pub strict: bool,
    /// The texts that the meter must show before it is polled. They are asked for in clear.
    pub expected: &'e [Expected<'a>],
    /// Whether each association is protected, with the guards of the setup. Then no secret is sent, and without a route the poll goes by
    /// that of its client to the meter at address 1.
    pub is_protected: bool,
}

/// The parts of a head end for a poll: its questions to the world, what gives the guards of its associations, the place of its
/// readings, and its line.
#[derive(Drop)]
pub struct PollSetup<D, G, F, L> {
    pub inputs: D,
    pub guards: G,
    pub place: F,
    pub line: L,
}

/// The secret and the readings, read before the meter is called.
#[derive(Drop)]
struct Ready {
    secret: Option<ArrayVec<u8, 16>>,
    readings: Readings,
    limit: Option<Limit>,
}

/// How far a row may be past the clock of the day, which is looked at now.
fn limit<D: PollInputs>(inputs: &mut D, ahead: Option<u32>) -> Result<Option<Limit>, RunFault>
    ensures { Limits ahead (D.seen inputs.old) (D.seen inputs.new) result }
{
    match ahead {
        Some(margin) => match inputs.date() {
            Ok(now) => Ok(Some(Limit { now, margin })),
            Err(error) => Err(RunFault::from(error)),
        },
        None => Ok(None),
    }
}

/// Judges the rows of the file: after a row that is too far past the clock of the day nothing could be filed any more.
fn judge_filed<'a>(
    file: Option<&'a str>,
    limit: Option<Limit>,
    rows: &[Row],
) -> Result<(), FieldFault<'a>>
    ensures { JudgesFiled (option_map (λ x. x.now) file.entry) limit rows.now result }
{
    let Some(file) = file else {
        return Ok(());
    };
    let Some(limit) = limit else {
        return Ok(());
    };
    match first_ahead(limit.now, limit.margin, rows) {
        Some(number) => Err(FieldFault::Clock(file, ClockFault::Ahead(number))),
        None => Ok(()),
    }
}

/// Reads the secret and the file, and judges the rows in the file.
#[inline(never)]
fn prepare_poll<'a, D: PollInputs, F: Holding>(
    alloc: Global,
    inputs: &mut D,
    place: &mut F,
    polling: &Polling<'a, '_>,
) -> Result<Ready, FieldFault<'a>>
    ensures ready { IfOk result (λ ready. IsReady polling.now (D.seen inputs.old)
        (D.seen inputs.new) (F.asked place.old) (F.asked place.new)
        (option_map (λ s. s.items) ready.secret) ready.readings ready.limit) }
    ensures fails { IfErr result (IsUnready polling.now (D.seen inputs.old) (D.seen inputs.new)
        (F.asked place.old) (F.asked place.new)) }
{
    let secret = match secret_to_send(inputs, polling.route, polling.client, polling.secret_file) {
        Ok(secret) => secret,
        Err(fault) => return Err(fault),
    };
    match hold_file(place, polling.readings) {
        Ok(()) => {}
        Err(fault) => return Err(fault),
    }
    let readings = match open_readings(alloc, polling.readings, place) {
        Ok(readings) => readings,
        Err(fault) => return Err(fault),
    };
    let limit = match limit(inputs, polling.ahead) {
        Ok(limit) => limit,
        Err(fault) => return Err(FieldFault::Other(fault)),
    };
    match judge_filed(polling.readings, limit, readings.rows()) {
        Ok(()) => {}
        Err(fault) => return Err(fault),
    }
    Ok(Ready {
        secret,
        readings,
        limit,
    })
}

/// Polls the meter, and judges the clocks of the rows that came.
fn call_meter<'a, D: PollInputs, G: Guards, L: Dialling>(
    alloc: Global,
    inputs: &mut D,
    guards: &mut G,
    line: &mut L,
    polling: &Polling<'a, '_>,
    way: &Way,
    limit: Option<Limit>,
) -> Result<DonePoll, FieldFault<'a>>
    requires { IsWay (way_of way.now) }
    ensures fails { IfErr result (FailsCalled
        (aim_of polling.now (way_of way.now)) polling.now.strict limit (L.past line.old)
        (L.past line.new) (watch (D.seen inputs.old) (G.given guards.old))
        (watch (D.seen inputs.new) (G.given guards.new))) }
    ensures takes { IfOk result (λ done. HasDone (aim_of polling.now (way_of way.now))
        (L.past line.old) (L.past line.new) (watch (D.seen inputs.old) (G.given guards.old))
        (watch (D.seen inputs.new) (G.given guards.new)) done
        × Takes polling.now.strict limit (rows_of done)) }
    ensures done { IfOk result (IsDoneBy (way_of way.now)) }
{
    let called = call(alloc, inputs, guards, line, polling, way);
    let done = match called {
        Ok(Some(done)) => done,
        Ok(None) => return Err(FieldFault::Late(polling.address, polling.deadline)),
        Err(fault) => return Err(fault),
    };
    match judge(done.rows(), limit, polling.strict) {
        Ok(()) => Ok(done),
        Err(fault) => Err(FieldFault::Clock(polling.address, fault)),
    }
}

/// The secret, or an empty one.
fn or_empty(secret: Option<ArrayVec<u8, 16>>) -> ArrayVec<u8, 16>
    ensures { result.items ≡ secret_in (option_map (λ s. s.items) secret) }
{
    match secret {
        Some(secret) => secret,
        None => ArrayVec::new(),
    }
}

/// The route, or without one that of a client to the meter at address 1.
fn route_or_link(route: Option<Route>, client: Client) -> Route
    requires { IfSome route IsRoute }
    ensures route { result ≡ route_or_link route client }
    ensures lawful { IsRoute result }
{
    match route {
        Some(route) => route,
        None => Route::Hdlc(client.sap(), Address::One(1), None),
    }
}

/// How the meter is polled from the last of the readings on, with this secret, which no protected association sends.
fn way_after(
    polling: &Polling<'_, '_>,
    secret: Option<ArrayVec<u8, 16>>,
    readings: &Readings,
) -> Way
    requires route { IfSome polling.now.route IsRoute }
    requires until { IfSome polling.now.until (λ second. second ≤ LAST_SECOND) }
    ensures way { way_of result ≡ way_after polling.now (option_map (λ s. s.items) secret)
        readings.now }
    ensures lawful { IsWay (way_of result) }
{
    let after = readings.last();
    let until = polling.until;
    let columns = Columns::Asked;
    if polling.is_protected {
        let route = route_or_link(polling.route, polling.client);
        let secret = None;
        let terms = PollTerms {
            secret,
            after,
            until,
            columns,
        };
        return Way::Secured(route, terms);
    }
    match polling.route {
        Some(route) => Way::Routed(
            route,
            PollTerms {
                secret,
                after,
                until,
                columns,
            },
        ),
        None => Way::Linked(Plan {
            client: polling.client,
            secret: or_empty(secret),
            after,
            until,
            columns,
        }),
    }
}

/// Polls the meter at an address once over a line, by the route if one is given, if it shows the expected texts, merges the rows into
/// the file if one is given, and prints the rows that the file did not have. The caller has checked a route by `Route::is_lawful`,
/// and that `until` is a second of the clock.
///
/// The secret and the file are read before the meter is called, and no other poll has the file until the end. Each row that is later
/// than the row filed before it is filed; the number of rows left out is reported on the errors. Rows that are too far past the clock of
/// the day are refused, and with `strict` also rows that do not rise: nothing is filed then. A protected poll has a new guard in each
/// attempt, and files nothing if its association was not newer than all earlier ones.
pub fn poll<'a, D: PollInputs, G: Guards, F: Holding, L: Dialling, O: Output, E: Output>(
    alloc: Global,
    setup: &mut PollSetup<D, G, F, L>,
    polling: &Polling<'a, '_>,
    output: &mut O,
    errors: &mut E,
) -> Result<(), FieldFault<'a>>
    requires route { IfSome polling.now.route IsRoute }
    requires until { IfSome polling.now.until (λ second. second ≤ LAST_SECOND) }
    ensures { let before : Known = record {
      seen = D.seen setup.old.inputs;
      given = G.given setup.old.guards;
      asked = F.asked setup.old.place;
      past = L.past setup.old.line;
      printed = O.printed output.old;
      errors = E.printed errors.old;
    } in
        let after : Known = record {
          seen = D.seen setup.new.inputs;
          given = G.given setup.new.guards;
          asked = F.asked setup.new.place;
          past = L.past setup.new.line;
          printed = O.printed output.new;
          errors = E.printed errors.new;
        } in
        Polls polling.now before after result }
{
    let ready = match prepare_poll(alloc, &mut setup.inputs, &mut setup.place, polling) {
        Ok(ready) => ready,
        Err(fault) => return Err(fault),
    };
    let mut readings = ready.readings;
    let way = way_after(polling, ready.secret, &readings);
    let done = match call_meter(
        alloc,
        &mut setup.inputs,
        &mut setup.guards,
        &mut setup.line,
        polling,
        &way,
        ready.limit,
    ) {
        Ok(done) => done,
        Err(fault) => return Err(fault),
    };
    file_readings(
        alloc,
        &mut setup.place,
        &mut readings,
        done.rows(),
        polling.readings,
        output,
        errors,
    )
}
