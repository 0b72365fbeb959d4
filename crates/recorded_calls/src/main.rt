// Recorded calls: the public calls on the records of the file stdin. A record names a call, its numbers, and its slices
// with what they hold; for each a line is printed with the number answered, the values, and a checksum of each buffer
// that was lent to be written. The file stdout has the lines that the outside program gives; both are made by
// tools/outside/make.py. tools/outside/records.md has the form of a record. One that breaks it ends the run with a line
// that says so.
#![tactic(auto)]

mod channel;
mod decoding;
mod draws;
mod entries;
mod field;
mod input;
mod reading;
mod run;
mod sending;
mod shifts;
mod slices;
mod values;
mod writing;

use crate::input::{BrokenRecord, Input};
use crate::run::Run;
use crate::slices::{Buffers, CodeBuffers};
use std::io::BufRead;

// The most records that a run makes.
const MOST_RECORDS: usize = 1000000;

impl<R: Print, F: BufRead> Run<'_, R, F> {
    // Runs the record of the call with this letter. One with another letter is read as if a code came first.
    fn record(&mut self, letter: u8) -> Result<(), BrokenRecord> {
        self.input.end_token()?;
        match letter {
            b'e' => self.encode(),
            b's' => self.spread(),
            b'c' => self.send(),
            b'd' => self.demap(),
            b'p' => self.place_llrs(),
            b'D' => self.decode(),
            b't' => self.round_trip(),
            b'h' => self.read_sheet(),
            b'l' => self.read_line(),
            b'f' => self.feed_line(),
            b'g' => self.end_frame(),
            b'i' => self.place_line(),
            b'n' => self.number_line(),
            b'o' => self.list(),
            b'w' => self.write_sheet(),
            b'x' => self.write_line(),
            b'm' => self.products(),
            b'a' => self.shift_distance(),
            b'b' => self.least_distance(),
            b'j' => self.shifts_within(),
            b'k' => self.premise_holds(),
            _ => {
                self.input.code(&mut CodeBuffers::new())?;
                Err(BrokenRecord::Record)
            }
        }
    }
}

// Runs all records. The run ends with the input, and at a NUL byte in the place of a letter.
fn main(rt: HostRuntime) {
    let mut run = Run {
        rt: &rt,
        input: Input::new(rt.reader()),
        kept: Buffers::new(),
    };
    for i in 1..=MOST_RECORDS {
        let Some(letter) = run.input.next_byte().filter(|letter| *letter != 0) else {
            return;
        };
        if let Err(broken) = run.record(letter) {
            if matches!(broken, BrokenRecord::Token) {
                run.input.drop_rest();
            }
            let _ = println!(rt; "record {i} breaks its form");
            return;
        }
    }
}
