// Refusals: why a call refuses what it is given, and what several calls test. The table that picks the refusal is a
// definition, in specs/Table.antt; a call goes down it row by row, by `require` and `?`.
#![tactic(auto)]

mod kinds;
mod limits;

pub use kinds::{Refusal, require, status};
pub use limits::any_outside;
