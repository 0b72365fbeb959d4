// The program's listing: the bytes that the program prints for a code and a frame. No file is touched here.
#![tactic(auto)]

mod decoding;
mod lines;
mod table;

pub use decoding::decode_listing;
