// The calls on a base: chip distances, and whether the premise of the noiseless statement holds.
use crate::entries::checksum;
use crate::input::BrokenRecord;
use crate::run::{Answer, Run, print_line};
use std::io::BufRead;

impl<R: Print, F: BufRead> Run<'_, R, F> {
    // `distances::shift_distance`.
    pub(crate) fn shift_distance(&mut self) -> Result<(), BrokenRecord> {
        let base = self.input.number()?;
        let s = self.input.number()?;
        self.input.end_record()?;
        let answer = distances::shift_distance(base, s);
        print_line(self.rt, Answer::from(answer), &[]);
        Ok(())
    }

    // `distances::least_distance`.
    pub(crate) fn least_distance(&mut self) -> Result<(), BrokenRecord> {
        let base = self.input.number()?;
        self.input.end_record()?;
        let answer = distances::least_distance(base);
        print_line(self.rt, Answer::from(answer), &[]);
        Ok(())
    }

    // `distances::shifts_within`.
    pub(crate) fn shifts_within(&mut self) -> Result<(), BrokenRecord> {
        let base = self.input.number()?;
        let d = self.input.number()?;
        let shifts = self.input.slice(&mut self.kept.text)?;
        self.input.end_record()?;
        let answer = distances::shifts_within(base, d, shifts);
        print_line(self.rt, Answer::from(answer), &[checksum(shifts)]);
        Ok(())
    }

    // `distances::premise_holds`.
    pub(crate) fn premise_holds(&mut self) -> Result<(), BrokenRecord> {
        let base = self.input.number()?;
        let amplitude = self.input.number()?;
        let gain = self.input.gain()?;
        self.input.end_record()?;
        let answer = distances::premise_holds(base, amplitude, gain);
        print_line(self.rt, Answer::from(answer), &[]);
        Ok(())
    }
}
