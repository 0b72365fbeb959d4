// The soft demapper (document 01: weighing): from samples to penalties.
#![tactic(auto)]

mod chips;
mod demapper;
mod gain;
mod samples;

pub use demapper::demap;
pub use gain::Gain;
