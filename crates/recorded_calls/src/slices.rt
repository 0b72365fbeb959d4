// Slices of records, as parts of the buffers that they are kept in.
use crate::entries::Entry;
use crate::input::{BrokenRecord, Input};
use polar_code::Code;
use std::io::BufRead;

// The entries of the buffers: of those with a byte for each place, of the coefficients, of a text, of those with a
// number for each place, and of the longest ones.
pub(crate) const PLACES: usize = 600;

pub(crate) const KERNELS: usize = 1200;

pub(crate) const TEXT: usize = 16384;

pub(crate) const NUMBERS: usize = 300;

pub(crate) const LONGEST: usize = 20000;

// The buffers that keep what a record leaves for the next one.
#[derive(Drop)]
pub(crate) struct Buffers {
    pub(crate) symbols: [u8; PLACES],
    pub(crate) numbers: [u64; NUMBERS],
    pub(crate) samples: [i8; LONGEST],
    pub(crate) frame: [u16; LONGEST],
    pub(crate) text: [u8; TEXT],
}

impl Buffers {
    // The buffers at the start.
    pub(crate) fn new() -> Buffers {
        Buffers {
            symbols: [0; PLACES],
            numbers: [0; NUMBERS],
            samples: [0; LONGEST],
            frame: [0; LONGEST],
            text: [0; TEXT],
        }
    }
}

// The buffers of a code, all zeros at the start of each record.
#[derive(Drop)]
pub(crate) struct CodeBuffers {
    map: [u8; PLACES],
    coefs: [u8; KERNELS],
}

impl CodeBuffers {
    // The buffers at the start.
    pub(crate) fn new() -> CodeBuffers {
        CodeBuffers {
            map: [0; PLACES],
            coefs: [0; KERNELS],
        }
    }
}

impl<F: BufRead> Input<F> {
    // Reads the values of a slice, by the rule with this letter, and puts them there.
    fn put<T: Entry>(&mut self, part: &mut [T], rule: u8) -> Result<(), BrokenRecord> {
        let mut values = [0; LONGEST];
        let values = values.get_mut(..part.len()).ok_or(BrokenRecord::Token)?;
        self.read_values(values, rule)?;
        for (entry, value) in part.iter_mut().zip(values) {
            *entry = T::from_value(*value)?;
        }
        Ok(())
    }

    // Reads a slice that a buffer keeps: the first entries of it, with their values or as they were left.
    pub(crate) fn slice<'a, T: Entry>(
        &mut self,
        buffer: &'a mut [T],
    ) -> Result<&'a mut [T], BrokenRecord> {
        let length: usize = self.number()?;
        let part = buffer.get_mut(..length).ok_or(BrokenRecord::Token)?;
        let rule = self.letter()?;
        if rule == b'=' {
            self.expect_byte(b';')?;
            self.end_token()?;
        } else {
            self.put(part, rule)?;
        }
        Ok(part)
    }

    // Reads a code: n, the map and the coefficients.
    pub(crate) fn code<'a>(
        &mut self,
        buffers: &'a mut CodeBuffers,
    ) -> Result<Code<'a>, BrokenRecord> {
        let n = self.number()?;
        let CodeBuffers { map, coefs } = buffers;
        let map = self.slice(map)?;
        let coefs = self.slice(coefs)?;
        Ok(Code { n, map, coefs })
    }
}
