// The entries of slices: how a record's value becomes one, and the checksum of a slice, which depends on every entry
// and on its place.
use crate::input::BrokenRecord;

// An entry of a slice.
pub(crate) trait Entry: Copy {
    // The entry that a value of a record stands for.
    fn from_value(value: u64) -> Result<Self, BrokenRecord>;

    // A checksum with this entry.
    fn added_to(self, sum: u64) -> u64;
}

// What a checksum is multiplied by for each number, and what it is counted modulo: the greatest prime below 2^32.
const FACTOR: u64 = 1000003;

const MODULUS: u64 = 4294967291;

// A checksum with one more number.
fn with_number(sum: u64, x: u32) -> u64 {
    (sum % MODULUS * FACTOR + u64::from(x)) % MODULUS
}

impl Entry for u8 {
    // A value of at most 255.
    fn from_value(value: u64) -> Result<u8, BrokenRecord> {
        Ok(u8::try_from(value)?)
    }

    // It counts as itself.
    fn added_to(self, sum: u64) -> u64 {
        with_number(sum, u32::from(self))
    }
}

impl Entry for u16 {
    // A value of at most 65,535.
    fn from_value(value: u64) -> Result<u16, BrokenRecord> {
        Ok(u16::try_from(value)?)
    }

    // It counts as itself.
    fn added_to(self, sum: u64) -> u64 {
        with_number(sum, u32::from(self))
    }
}

impl Entry for i8 {
    // The sample with this byte.
    fn from_value(value: u64) -> Result<i8, BrokenRecord> {
        Ok(u8::try_from(value)?.cast_signed())
    }

    // It counts by its byte.
    fn added_to(self, sum: u64) -> u64 {
        with_number(sum, u32::from(self.cast_unsigned()))
    }
}

impl Entry for u64 {
    // Any value.
    fn from_value(value: u64) -> Result<u64, BrokenRecord> {
        Ok(value)
    }

    // It counts as two numbers, its lower and its upper 32 bits.
    fn added_to(self, sum: u64) -> u64 {
        with_number(
            with_number(sum, (self & 0xffff_ffff) as u32),
            (self >> 32) as u32,
        )
    }
}

// The checksum of a slice.
pub(crate) fn checksum<T: Entry>(entries: &[T]) -> u64 {
    entries.iter().fold(1, |sum, entry| entry.added_to(sum))
}
