// The check node of a kernel: one vector of 64 penalties from theta's and phi's of the layer before its own, on the
// side of the channel. The body is shaped for the compiler, which works on eight entries at a time.
#![tactic(auto)]

mod check;
mod copying;
mod differences;
mod steps;

pub use check::check_node;
pub use copying::copies;
pub use steps::signed_min;
