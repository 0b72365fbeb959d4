// Numbers in columns, as they are written: right-justified, blanks before them. What it is to read them is in
// specs/Reading.antt.
#![tactic(auto)]

mod write;

pub use write::write_number;
