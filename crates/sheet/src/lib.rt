// The code sheet and the lines of a frame file, read: numbers in four columns, the lines of a sheet, one line of a
// frame.
#![tactic(auto)]

mod check;
mod code_sheet;
mod frame_line;
mod line;
mod number;

pub use code_sheet::read_sheet;
pub use frame_line::read_frame_line;
