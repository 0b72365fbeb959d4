// The code sheet and the lines of a frame file, written. No file is touched here: each call fills a lent buffer with
// the bytes of a file or of a line.
#![tactic(auto)]

mod code_sheet;
mod frame_line;

pub use code_sheet::write_sheet;
pub use frame_line::write_frame_line;
