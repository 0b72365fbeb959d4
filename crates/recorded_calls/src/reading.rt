// The readers of sheets and frames, and the lines of a listing.
use crate::entries::checksum;
use crate::input::BrokenRecord;
use crate::run::{Answer, Run, print_line};
use crate::slices::{KERNELS, PLACES};
use std::io::BufRead;

impl<R: Print, F: BufRead> Run<'_, R, F> {
    // `sheet::read_sheet`.
    pub(crate) fn read_sheet(&mut self) -> Result<(), BrokenRecord> {
        let mut map = [0u8; PLACES];
        let mut coefs = [0u8; KERNELS];
        let bytes = self.input.slice(&mut self.kept.text)?;
        let map = self.input.slice(&mut map)?;
        let coefs = self.input.slice(&mut coefs)?;
        self.input.end_record()?;
        let answer = sheet::read_sheet(bytes, map, coefs);
        print_line(
            self.rt,
            Answer::from(answer),
            &[checksum(map), checksum(coefs)],
        );
        Ok(())
    }

    // `sheet::read_frame_line`.
    pub(crate) fn read_line(&mut self) -> Result<(), BrokenRecord> {
        let line = self.input.slice(&mut self.kept.text)?;
        let llrs = self.input.slice(&mut self.kept.frame)?;
        self.input.end_record()?;
        let answer = sheet::read_frame_line(line, llrs);
        print_line(self.rt, Answer::from(answer), &[checksum(llrs)]);
        Ok(())
    }

    // `frame_file::feed_line`.
    pub(crate) fn feed_line(&mut self) -> Result<(), BrokenRecord> {
        let verdict = self.input.number()?;
        let line = self.input.slice(&mut self.kept.text)?;
        let llrs = self.input.slice(&mut self.kept.frame)?;
        self.input.end_record()?;
        let verdict = frame_file::feed_line(verdict, line, llrs);
        print_line(self.rt, verdict, &[checksum(llrs)]);
        Ok(())
    }

    // `frame_file::end_frame`.
    pub(crate) fn end_frame(&mut self) -> Result<(), BrokenRecord> {
        let verdict = self.input.number()?;
        let left = self.input.number_within(0, 1)? == 1;
        self.input.end_record()?;
        print_line(self.rt, frame_file::end_frame(verdict, left), &[]);
        Ok(())
    }

    // `listing::place_line`: the checksum of its bytes.
    pub(crate) fn place_line(&mut self) -> Result<(), BrokenRecord> {
        let place = self.input.number()?;
        let symbol = self.input.number()?;
        let llrs = self.input.slice(&mut self.kept.frame)?;
        self.input.end_record()?;
        let line = listing::place_line(place, symbol, llrs);
        print_line(self.rt, checksum(&line), &[]);
        Ok(())
    }

    // `listing::number_line`: the same.
    pub(crate) fn number_line(&mut self) -> Result<(), BrokenRecord> {
        let number = self.input.number()?;
        self.input.end_record()?;
        let line = listing::number_line(number);
        print_line(self.rt, checksum(&line), &[]);
        Ok(())
    }
}
