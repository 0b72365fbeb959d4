// Vectors of 64 penalties as the nodes of the decoder read them: the bits of a penalty that count, and entries in
// another order.
#![tactic(auto)]

mod part;
mod penalties;
mod swap;

pub use part::replace_part;
pub use penalties::{LLRS, low_bits};
pub use swap::swapped;
