// Printing a refusal.
ghost use Rattle.std.specs.Prelude.{◌≡◌};

// Prints a refusal's number, and returns it.
pub(crate) fn print_refusal<R: Print>(rt: &R, number: u8) -> u8
    ensures { result ≡ number }
{
    let line = listing::number_line(u32::from(number));
    let _ = rt.write_all(&line);
    number
}
