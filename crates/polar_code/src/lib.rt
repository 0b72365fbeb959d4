// A polar code over GF(64): its sizes, the kinds of its places and how many carry the message, and what it is refused
// by, for its sizes and for its bytes.
#![tactic(auto)]

mod code;
mod kinds;
mod sizes;

pub use code::Code;
pub use kinds::{Kind, message_places};
pub use sizes::{kernel_count, place_count};
