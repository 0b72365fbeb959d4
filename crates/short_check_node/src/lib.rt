// A check node that tries fewer than 64 values: those with the smallest penalties of phi. A threshold gives them, as
// the bits of one number, and only their sums are made. The body is shaped for the compiler, which works on eight
// entries at a time.
#![tactic(auto)]

mod counts;
mod masks;
mod short;
mod sums;

pub use short::short_check_node;
