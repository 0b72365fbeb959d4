// CCSK chips: spreading of symbols to chips.
#![tactic(auto)]

mod chips;
mod spreader;

pub use chips::{check_base, turned};
pub use spreader::spread;
