// The values of a slice as a record gives them: a rule, changes of single entries, and ';' at the end.
ghost use Rattle.std.specs.Prelude.{◌<◌};

use crate::draws::Draws;
use crate::input::{BrokenRecord, Input};
use std::io::BufRead;

// The most changes that a slice can have, with its end.
const MOST_CHANGES: usize = 65536;

// The entries of a vector.
const VECTOR: usize = 64;

// How entries are drawn: from `low` on and one of `range`, at most `top`.
#[derive(Drop)]
struct Drawing {
    draws: Draws,
    low: u16,
    range: u64,
    top: u64,
    ghost some_range: { 0 < range },
}

impl Drawing {
    // Draws the next entry.
    fn entry(&mut self) -> u64 {
        let drawn = u64::from(self.draws.draw()) % self.range;
        (u64::from(self.low) + drawn).min(self.top)
    }

    // Draws each of these entries.
    fn fill(&mut self, values: &mut [u64]) {
        for value in values.iter_mut() {
            *value = self.entry();
        }
    }

    // The same, with an entry that is 0 in each vector: one more draw, before those of the vector, says which.
    fn fill_vectors(&mut self, values: &mut [u64]) {
        for vector in values.chunks_mut(VECTOR) {
            let zero = usize::from(self.draws.draw()) % VECTOR;
            self.fill(vector);
            if let Some(value) = vector.get_mut(zero) {
                *value = 0;
            }
        }
    }
}

impl<F: BufRead> Input<F> {
    // Reads how entries are drawn.
    fn drawing(&mut self) -> Result<Drawing, BrokenRecord> {
        let seed: u32 = self.number()?;
        Ok(Drawing {
            draws: Draws::from(seed),
            low: self.number()?,
            range: self.number_within(1, 65536)?,
            top: self.number()?,
        })
    }

    // Reads entries that are written out, by hexadecimal digits, as many as come first.
    fn fill_written(&mut self, values: &mut [u64]) -> Result<(), BrokenRecord> {
        let digits = self.number_within(1, 16)?;
        for value in values.iter_mut() {
            *value = self.hexadecimal(digits)?;
        }
        self.end_token()
    }

    // Fills the entries by the rule with this letter.
    fn fill(&mut self, values: &mut [u64], rule: u8) -> Result<(), BrokenRecord> {
        match rule {
            b'r' => values.fill(self.number()?),
            b's' => self.drawing()?.fill(values),
            b'v' => self.drawing()?.fill_vectors(values),
            b'x' => self.fill_written(values)?,
            _ => return Err(BrokenRecord::Token),
        }
        Ok(())
    }

    // Reads a change of an entry, and makes it.
    fn change(&mut self, values: &mut [u64]) -> Result<(), BrokenRecord> {
        let at: usize = self.number()?;
        *values.get_mut(at).ok_or(BrokenRecord::Token)? = self.number()?;
        Ok(())
    }

    // Makes the changes, up to the ';' that ends the slice.
    fn make_changes(&mut self, values: &mut [u64]) -> Result<(), BrokenRecord> {
        for _ in 0..MOST_CHANGES {
            match self.letter()? {
                b';' => return Ok(()),
                b'@' => self.change(values)?,
                _ => return Err(BrokenRecord::Token),
            }
        }
        Err(BrokenRecord::Token)
    }

    // Reads the values of all entries of a slice, by the rule with this letter.
    pub(crate) fn read_values(&mut self, values: &mut [u64], rule: u8) -> Result<(), BrokenRecord> {
        self.fill(values, rule)?;
        self.make_changes(values)
    }
}
