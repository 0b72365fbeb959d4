// Chip distances of a base: how near its shifts lie, and whether the premise of the noiseless statement holds.
#![tactic(auto)]

mod distance;
mod premise;
mod shifts;

pub use distance::{least_distance, shift_distance};
pub use premise::premise_holds;
pub use shifts::shifts_within;
