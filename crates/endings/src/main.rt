// The program once for each way that it can end: on each pair of files of the data folder. Standard input has three
// lines for each pair: its name, and the names of its code sheet and its frame file. For each pair a line with its name
// is printed, and then what the program prints. All files are made by tools/outside/make.py.
#![tactic(auto)]

mod input;

use crate::input::read_line;
use std::io::BufRead;
use std::ops::ControlFlow;
use std::rt::Files;

// The bytes that a line of the input may have.
const LONGEST: usize = 64;

// The most pairs that a run makes.
const MOST_PAIRS: usize = 1000;

// Runs the program on the next pair, and breaks off where there is none.
fn run_next<R: Files + Print, F: BufRead>(rt: &R, input: &mut F) -> ControlFlow<()> {
    let mut name = [0u8; LONGEST];
    let mut code = [0u8; LONGEST];
    let mut frame = [0u8; LONGEST];
    let name = read_line(input, &mut name);
    let code = read_line(input, &mut code);
    let frame = read_line(input, &mut frame);
    if name.is_empty() {
        return ControlFlow::Break(());
    }
    let _ = rt.write_all(name);
    let _ = rt.write_all(b"\n");
    files::run(rt, code, frame);
    ControlFlow::Continue(())
}

// Runs the program on all pairs.
fn main(rt: HostRuntime) {
    let mut input = rt.reader();
    let _ = (0..MOST_PAIRS).try_for_each(|_| run_next(&rt, &mut input));
}
