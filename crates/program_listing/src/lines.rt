// The listing of a decoded frame, line by line.
ghost use Rattle.std.specs.Prelude.{◌≡◌};
ghost use Rattle.program_listing.specs.Parts.{Listing, listing_of};

// The bytes of the line of a place: four fields of five columns, and a line feed.
pub(crate) const LINE: usize = 21;

// The bytes of the last line: one field and a line feed.
pub(crate) const LAST_LINE: usize = 6;

// Writes the listing: a line for each place in rising order, and last the clip count.
pub(crate) fn write_listing(symbols: &[u8], report: &[u16], count: u32, output: &mut [u8])
    requires { Listing symbols.now report.now output.old }
    ensures { output.new ≡ listing_of symbols.now report.now count }
{
    for (place, symbol) in symbols.iter().enumerate() {
        let at = LINE * place;
        let end = at + LINE;
        let llrs = vector::place_llrs(report, place);
        let line = listing::place_line(place as u32, *symbol, llrs);
        output[at..end].copy_from_slice(&line);
    }
    let at = LINE * symbols.len();
    let end = at + LAST_LINE;
    output[at..end].copy_from_slice(&listing::number_line(count));
}
