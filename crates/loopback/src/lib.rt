// The round trip of a message: it is encoded, spread, sent without noise, weighed, decoded and read back, as a
// self-test of a probe and a receiver.
#![tactic(auto)]

mod chain;
mod given;
mod message;
mod samples;
mod table;

pub use chain::round_trip;
pub use given::{Reception, Transmission, TripLent};
