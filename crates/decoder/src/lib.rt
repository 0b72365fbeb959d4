// The SC-MS decoder (successive cancellation, min-sum) of polar codes over GF(64): the nodes of a layer, the decoder by
// halves, and the call.
#![tactic(auto)]

mod block;
mod decoder;
mod layers;
mod vectors;

pub use decoder::decode;
