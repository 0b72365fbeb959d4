// The calls from a message to a frame: encoder, spreading, weighing; and the channel between the last two.
use crate::channel::Channel;
use crate::entries::checksum;
use crate::input::BrokenRecord;
use crate::run::{Answer, Run, print_line};
use crate::slices::{CodeBuffers, PLACES};
use std::io::BufRead;

impl<R: Print, F: BufRead> Run<'_, R, F> {
    // `polar::encode`.
    pub(crate) fn encode(&mut self) -> Result<(), BrokenRecord> {
        let mut code = CodeBuffers::new();
        let mut message = [0u8; PLACES];
        let code = self.input.code(&mut code)?;
        let message = self.input.slice(&mut message)?;
        let codeword = self.input.slice(&mut self.kept.symbols)?;
        self.input.end_record()?;
        let answer = polar::encode(&code, message, codeword);
        print_line(self.rt, Answer::from(answer), &[checksum(codeword)]);
        Ok(())
    }

    // `ccsk::spread`.
    pub(crate) fn spread(&mut self) -> Result<(), BrokenRecord> {
        let base = self.input.number()?;
        let symbols = self.input.slice(&mut self.kept.symbols)?;
        let numbers = self.input.slice(&mut self.kept.numbers)?;
        self.input.end_record()?;
        let answer = ccsk::spread(base, symbols, numbers);
        print_line(self.rt, Answer::from(answer), &[checksum(numbers)]);
        Ok(())
    }

    // Sends numbers of 64 chips: no call, but what makes the samples that the next record weighs.
    pub(crate) fn send(&mut self) -> Result<(), BrokenRecord> {
        let amplitude = self.input.number_within(0, 127)? as u8;
        let noise = self.input.number_within(0, 127)? as u8;
        let lost = self.input.number()?;
        let seed = self.input.number()?;
        let numbers = self.input.slice(&mut self.kept.numbers)?;
        let samples = self.input.slice(&mut self.kept.samples)?;
        self.input.end_record()?;
        let channel = Channel {
            amplitude,
            noise,
            lost,
        };
        channel.make_samples(seed, numbers, samples);
        print_line(self.rt, checksum(samples), &[]);
        Ok(())
    }

    // `demapper::demap`.
    pub(crate) fn demap(&mut self) -> Result<(), BrokenRecord> {
        let base = self.input.number()?;
        let samples = self.input.slice(&mut self.kept.samples)?;
        let gain = self.input.gain()?;
        let qc = self.input.number()?;
        let llrs = self.input.slice(&mut self.kept.frame)?;
        self.input.end_record()?;
        let answer = demapper::demap(base, samples, gain, qc, llrs);
        print_line(self.rt, Answer::from(answer), &[checksum(llrs)]);
        Ok(())
    }

    // `vector::place_llrs`: how many numbers the part has, and its checksum.
    pub(crate) fn place_llrs(&mut self) -> Result<(), BrokenRecord> {
        let llrs = self.input.slice(&mut self.kept.frame)?;
        let place = self.input.number()?;
        self.input.end_record()?;
        let part = vector::place_llrs(llrs, place);
        print_line(self.rt, part.len(), &[checksum(part)]);
        Ok(())
    }
}
