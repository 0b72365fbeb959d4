// The polar code over GF(64): the transform by halves and the encoder.
#![tactic(auto)]

mod encoder;
mod places;
mod transform;

pub use encoder::encode;
pub use transform::join_halves;
