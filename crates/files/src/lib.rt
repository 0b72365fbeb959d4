// The program's work with files: a code sheet and a frame are read, and a listing or a refusal's number is printed.
// It is generic over the runtime that opens, reads and prints: what this does is the standard library's own.
#![tactic(auto)]

mod frame;
mod print;
mod program;
mod read;

pub use program::run;
