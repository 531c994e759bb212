//! How a meter is polled: over its client's link, or over a route.

ghost use Rattle.dlms_headend.specs.Asking.{AreSeconds};
ghost use Rattle.std.specs.Prelude.{◌≡◌, ◌≤◌, IfSome, option_map};
ghost use Rattle.dlms_client.specs.Plan.{IsPlan, plan_of as asking_plan};
ghost use Rattle.dlms_headend.specs.CarrierPollValue.{terms_of};
ghost use Rattle.dlms_headend.specs.PollerValue.{plan_of};
ghost use Rattle.dlms_headend.specs.Polling.{fresh_poll};
ghost use Rattle.dlms_headend.specs.Rows.{AreReadings};
ghost use Rattle.dlms_polling.specs.declared.way.TheConstants.{SIZE};
ghost use Rattle.dlms_polling.specs.Ways.{IsWay, asker_of, outlasts, rows_of, secret_by, way_of};

use arrayvec::ArrayVec;
use dlms_client::Route;
use dlms_ends::PollEnd;
use dlms_frame::{Address, Client};
use dlms_headend::{Plan, PollTerms, Poller, Row};
use std::alloc::Global;

/// The most bytes of an APDU by which a text is asked for.
const SIZE: u16 = 1_024;

/// How a meter is polled.
#[derive(Drop)]
pub enum Way {
    /// By this project's client, over its HDLC link to the meter at address 1.
    Linked(Plan),
    /// Over this route, by these terms, in clear.
    Routed(Route, PollTerms),
    /// Over this route, by these terms, in an association that a guard protects.
    Secured(Route, PollTerms),
}

/// A poll that is done.
#[derive(Drop)]
pub enum DonePoll {
    Linked(Poller),
    Routed(PollEnd),
}

impl DonePoll {
    /// The rows that were polled.
    pub fn rows(&self) -> &[Row]
        ensures rows { result.now ≡ rows_of self.now }
        ensures readings { AreReadings result.now }
    {
        match self {
            DonePoll::Linked(poller) => poller.rows(),
            DonePoll::Routed(end) => end.rows(),
        }
    }
}

/// The same secret once more.
fn copy_of(secret: &ArrayVec<u8, 16>) -> ArrayVec<u8, 16>
    ensures { result.items ≡ secret.now.items }
{
    let mut copy = ArrayVec::new();
    let _fits = copy.try_extend_from_slice(secret.as_slice());
    copy
}

/// The same secret once more, if there is one.
fn copy_of_any(secret: &Option<ArrayVec<u8, 16>>) -> Option<ArrayVec<u8, 16>>
    ensures { option_map (λ s. s.items) result ≡ option_map (λ s. s.items) secret.now }
{
    match secret {
        Some(secret) => Some(copy_of(secret)),
        None => None,
    }
}

/// The secret that a client sends.
fn secret_by(client: Client, secret: &ArrayVec<u8, 16>) -> Option<ArrayVec<u8, 16>>
    ensures { option_map (λ secret. secret.items) result ≡ secret_by client secret.now.items }
{
    match client {
        Client::Public => None,
        Client::Management => Some(copy_of(secret)),
        Client::Reader => Some(copy_of(secret)),
    }
}

/// A poll by this plan that has not begun.
pub fn fresh(alloc: Global, plan: &Plan) -> Poller
    requires { AreSeconds plan.now.after plan.now.until }
    ensures { result ≡ fresh_poll (plan_of plan.now) }
{
    Poller::new(
        alloc,
        Plan {
            client: plan.client,
            secret: copy_of(&plan.secret),
            after: plan.after,
            until: plan.until,
            columns: plan.columns,
        },
    )
}

/// The same terms once more.
pub fn again(terms: &PollTerms) -> PollTerms
    ensures { terms_of result ≡ terms_of terms.now }
{
    PollTerms {
        secret: copy_of_any(&terms.secret),
        after: terms.after,
        until: terms.until,
        columns: terms.columns,
    }
}

/// The plan of a client that asks for texts over this route, with the secret of these terms.
fn asking_plan(route: Route, terms: &PollTerms) -> dlms_client::Plan
    ensures { asking_plan result ≡ record {
      route = route;
      secret = (terms_of terms.now).secret;
      size = SIZE;
    } }
{
    dlms_client::Plan {
        route,
        secret: copy_of_any(&terms.secret),
        size: SIZE,
    }
}

impl Way {
    /// The plan of a client that asks the same meter for texts.
    pub fn asker(&self) -> dlms_client::Plan
        requires { IsWay (way_of self.now) }
        ensures asker { asking_plan result ≡ asker_of (way_of self.now) }
        ensures lawful { IsPlan (asking_plan result) }
    {
        match self {
            Way::Linked(plan) => dlms_client::Plan {
                route: Route::Hdlc(plan.client.sap(), Address::One(1), None),
                secret: secret_by(plan.client, &plan.secret),
                size: SIZE,
            },
            Way::Routed(route, terms) => asking_plan(*route, terms),
            Way::Secured(route, terms) => asking_plan(*route, terms),
        }
    }

    /// Whether a connection outlasts an association over it, and an answer that did not come.
    pub fn outlasts(&self) -> bool
        ensures { result ≡ outlasts (way_of self.now) }
    {
        match self {
            Way::Linked(_) => true,
            Way::Routed(route, _) => route.outlasts(),
            Way::Secured(route, _) => route.outlasts(),
        }
    }
}
