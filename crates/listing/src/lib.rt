// The lines that the program prints. No file is touched here: each function makes the bytes of one line.
#![tactic(auto)]

mod held;
mod lines;

pub use lines::{number_line, place_line};
