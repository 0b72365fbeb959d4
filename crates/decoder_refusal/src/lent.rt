// The buffers of the decoder.

// The buffers that a caller of `decode` lends to be written, N places being decoded.
#[derive(Drop)]
pub struct Lent<'a> {
    // 65 N numbers: all zeros afterwards.
    pub work: &'a mut [u16],
    // N bytes: the symbols decided.
    pub symbols: &'a mut [u8],
    // 64 N numbers: the penalties held for each place when it was decided.
    pub report: &'a mut [u16],
    // N numbers: for each place what was taken off along its line.
    pub totals: &'a mut [u16],
}
