// The product of the field.
use crate::entries::checksum;
use crate::input::BrokenRecord;
use crate::run::{Run, print_line};
use std::io::BufRead;

// The products of x with all 256 bytes, by this product.
fn products_of<P: Fn(u8, u8) -> u8>(x: u8, product: P) -> [u8; 256]
    requires { P.IsAlwaysCallable product }
{
    let mut products = [0; 256];
    for (y, entry) in (0..=u8::MAX).zip(products.iter_mut()) {
        *entry = product(x, y);
    }
    products
}

impl<R: Print, F: BufRead> Run<'_, R, F> {
    // `gf64::product` and `gf64::worked_out_product`, of one byte with all 256: the checksums of both.
    pub(crate) fn products(&mut self) -> Result<(), BrokenRecord> {
        let x = self.input.number()?;
        self.input.end_record()?;
        let read = products_of(x, |x, y| gf64::product(x, y));
        let worked_out = products_of(x, |x, y| gf64::worked_out_product(x, y));
        print_line(self.rt, checksum(&read), &[checksum(&worked_out)]);
        Ok(())
    }
}
