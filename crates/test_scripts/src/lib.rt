//! Test doubles with a known past: their results are written down beforehand, and the calls are kept. The tests drive `dlms_ends`,
//! `dlms_filing`, `dlms_polling` and `dlms_serving` with them.
#![tactic(auto)]

#[cfg(test)]
mod disk;
#[cfg(test)]
mod inputs;
#[cfg(test)]
mod line;
#[cfg(test)]
mod noted;
#[cfg(test)]
mod place;
#[cfg(test)]
mod watch;
