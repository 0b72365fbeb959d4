// The input, token by token. A token is bytes other than a blank and a line feed, and one of these two ends it. Where a
// token breaks the form of a record the rest of the input is read and dropped, so that who writes it is not cut off.
ghost use Rattle.std.specs.Prelude.{◌≡◌, ◌≤◌, IfOk, IfSome};

use std::io::BufRead;
use std::num::TryFromIntError;

// The most digits that a number has.
const MOST_DIGITS: usize = 20;

// The bytes of the input that are dropped at one time.
const BLOCK: usize = 65536;

// The most bytes of the input that are dropped: more than any input has.
const MOST_DROPPED: usize = 65536000;

// The error where a record breaks its form.
#[derive(Clone, Copy, Debug, PartialEq, Eq)]
pub(crate) enum BrokenRecord {
    // In a token: the rest of the input is read and dropped.
    Token,
    // No call has its letter, or another byte stands in the place of its '.'.
    Record,
}

impl From<TryFromIntError> for BrokenRecord {
    // A number that does not fit its type breaks the form.
    fn from(_error: TryFromIntError) -> BrokenRecord {
        BrokenRecord::Token
    }
}

// The value of a digit, decimal or hexadecimal.
fn digit_value(byte: u8) -> Option<u8>
    ensures { IfSome result (λ digit. digit ≤ 15) }
{
    match byte {
        b'0'..=b'9' => Some(byte - b'0'),
        b'a'..=b'f' => Some(byte - b'a' + 10),
        _ => None,
    }
}

// A number with one more digit of this base.
fn with_digit(value: u64, base: u8, byte: u8) -> Result<u64, BrokenRecord> {
    let digit = digit_value(byte)
        .filter(|digit| *digit < base)
        .ok_or(BrokenRecord::Token)?;
    value
        .checked_mul(u64::from(base))
        .and_then(|rest| rest.checked_add(u64::from(digit)))
        .ok_or(BrokenRecord::Token)
}

// The input, by the reader of its bytes.
#[derive(Drop)]
pub(crate) struct Input<F> {
    reader: F,
}

impl<F: BufRead> Input<F> {
    // The input of a reader.
    pub(crate) fn new(reader: F) -> Input<F> {
        Input { reader }
    }

    // The next byte of the input, none where it has ended.
    pub(crate) fn next_byte(&mut self) -> Option<u8> {
        let byte = *self.reader.fill_buf().ok()?.first()?;
        self.reader.consume(1);
        Some(byte)
    }

    // Drops the rest of the input.
    pub(crate) fn drop_rest(&mut self) {
        let mut block = [0u8; BLOCK];
        let mut left = MOST_DROPPED;
        while let Ok(got @ 1..) = self.reader.read(&mut block) {
            if left <= got {
                return;
            }
            left -= got;
        }
    }

    // The next byte of a record, which does not end before it.
    fn byte(&mut self) -> Result<u8, BrokenRecord> {
        self.next_byte().ok_or(BrokenRecord::Token)
    }

    // The next byte of a token, none where a blank or a line feed ends it.
    fn token_byte(&mut self) -> Result<Option<u8>, BrokenRecord> {
        let byte = self.byte()?;
        Ok(Some(byte).filter(|byte| !matches!(*byte, b' ' | b'\n')))
    }

    // Reads the byte that ends a token.
    pub(crate) fn end_token(&mut self) -> Result<(), BrokenRecord> {
        match self.token_byte()? {
            None => Ok(()),
            Some(_) => Err(BrokenRecord::Token),
        }
    }

    // The next token, which has one byte.
    pub(crate) fn letter(&mut self) -> Result<u8, BrokenRecord> {
        let letter = self.byte()?;
        self.end_token()?;
        Ok(letter)
    }

    // Reads the next byte, which is this one.
    pub(crate) fn expect_byte(&mut self, wanted: u8) -> Result<(), BrokenRecord> {
        if self.byte()? == wanted {
            Ok(())
        } else {
            Err(BrokenRecord::Token)
        }
    }

    // Reads the '.' that ends a record, before its call is made. A record with its '.' is whole: where neither a blank
    // nor a line feed follows it, the rest of the input is dropped.
    pub(crate) fn end_record(&mut self) -> Result<(), BrokenRecord> {
        let byte = self.byte()?;
        if self.end_token().is_err() {
            self.drop_rest();
        }
        if byte == b'.' {
            Ok(())
        } else {
            Err(BrokenRecord::Record)
        }
    }

    // The next token, a decimal number.
    fn decimal(&mut self) -> Result<u64, BrokenRecord> {
        let mut value = with_digit(0, 10, self.byte()?)?;
        for _ in 0..MOST_DIGITS {
            match self.token_byte()? {
                None => return Ok(value),
                Some(byte) => value = with_digit(value, 10, byte)?,
            }
        }
        Err(BrokenRecord::Token)
    }

    // The next token, a number that fits the type.
    pub(crate) fn number<T: TryFrom<u64, Error = TryFromIntError>>(
        &mut self,
    ) -> Result<T, BrokenRecord> {
        Ok(T::try_from(self.decimal()?)?)
    }

    // The next token, a number from `low` to `high`.
    pub(crate) fn number_within(&mut self, low: u64, high: u64) -> Result<u64, BrokenRecord>
        ensures { IfOk result (λ x. (low ≤ x) × (x ≤ high)) }
    {
        let x = self.decimal()?;
        if x < low || high < x {
            return Err(BrokenRecord::Token);
        }
        Ok(x)
    }

    // The next bytes, a hexadecimal number of so many digits.
    pub(crate) fn hexadecimal(&mut self, digits: u64) -> Result<u64, BrokenRecord> {
        let mut value = 0;
        for _ in 0..digits {
            value = with_digit(value, 16, self.byte()?)?;
        }
        Ok(value)
    }
}
