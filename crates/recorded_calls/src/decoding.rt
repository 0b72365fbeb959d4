// The calls that decode: the decoder, the round trip and the program's listing.
use crate::entries::checksum;
use crate::input::{BrokenRecord, Input};
use crate::run::{Answer, Run, print_line};
use crate::slices::{CodeBuffers, LONGEST, PLACES};
use decoder_refusal::{Lent, Settings};
use demapper::Gain;
use loopback::{Reception, Transmission, TripLent};
use std::io::BufRead;

impl<F: BufRead> Input<F> {
    // Reads a gain: its top and its bottom.
    pub(crate) fn gain(&mut self) -> Result<Gain, BrokenRecord> {
        Ok(Gain {
            top: self.number()?,
            bottom: self.number()?,
        })
    }

    // Reads what the decoder's caller sets.
    fn settings(&mut self) -> Result<Settings, BrokenRecord> {
        Ok(Settings {
            qc: self.number()?,
            qm: self.number()?,
            candidates: self.number()?,
        })
    }
}

impl<R: Print, F: BufRead> Run<'_, R, F> {
    // `decoder::decode`.
    pub(crate) fn decode(&mut self) -> Result<(), BrokenRecord> {
        let mut code = CodeBuffers::new();
        let mut work = [0u16; LONGEST];
        let mut report = [0u16; LONGEST];
        let mut totals = [0u16; PLACES];
        let code = self.input.code(&mut code)?;
        let settings = self.input.settings()?;
        let frame = self.input.slice(&mut self.kept.frame)?;
        let work = self.input.slice(&mut work)?;
        let symbols = self.input.slice(&mut self.kept.symbols)?;
        let report = self.input.slice(&mut report)?;
        let totals = self.input.slice(&mut totals)?;
        self.input.end_record()?;
        let lent = Lent {
            work: &mut *work,
            symbols: &mut *symbols,
            report: &mut *report,
            totals: &mut *totals,
        };
        let answer = decoder::decode(&code, settings, frame, lent);
        let sums = [
            checksum(work),
            checksum(symbols),
            checksum(report),
            checksum(totals),
        ];
        print_line(self.rt, Answer::from(answer), &sums);
        Ok(())
    }

    // `program_listing::decode_listing`.
    pub(crate) fn list(&mut self) -> Result<(), BrokenRecord> {
        let mut code = CodeBuffers::new();
        let code = self.input.code(&mut code)?;
        let frame = self.input.slice(&mut self.kept.frame)?;
        let output = self.input.slice(&mut self.kept.text)?;
        self.input.end_record()?;
        let answer = program_listing::decode_listing(&code, frame, output);
        print_line(self.rt, Answer::from(answer), &[checksum(output)]);
        Ok(())
    }

    // A round trip.
    pub(crate) fn round_trip(&mut self) -> Result<(), BrokenRecord> {
        let mut code = CodeBuffers::new();
        let mut message = [0u8; PLACES];
        let mut work = [0u16; LONGEST];
        let mut report = [0u16; LONGEST];
        let mut totals = [0u16; PLACES];
        let s = Transmission {
            code: self.input.code(&mut code)?,
            message: self.input.slice(&mut message)?,
            base: self.input.number()?,
            amplitude: self.input.number()?,
        };
        let r = Reception {
            gain: self.input.gain()?,
            settings: self.input.settings()?,
        };
        let samples = self.input.slice(&mut self.kept.samples)?;
        let frame = self.input.slice(&mut self.kept.frame)?;
        let work = self.input.slice(&mut work)?;
        let symbols = self.input.slice(&mut self.kept.symbols)?;
        let report = self.input.slice(&mut report)?;
        let totals = self.input.slice(&mut totals)?;
        let decoded = self.input.slice(&mut self.kept.text)?;
        self.input.end_record()?;
        let lent = TripLent {
            samples: &mut *samples,
            frame: &mut *frame,
            work: &mut *work,
            symbols: &mut *symbols,
            report: &mut *report,
            totals: &mut *totals,
            decoded: &mut *decoded,
        };
        let answer = loopback::round_trip(&s, r, lent);
        let sums = [
            checksum(samples),
            checksum(frame),
            checksum(work),
            checksum(symbols),
            checksum(report),
            checksum(totals),
            checksum(decoded),
        ];
        print_line(self.rt, Answer::from(answer), &sums);
        Ok(())
    }
}
