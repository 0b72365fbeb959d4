// A number in four columns.
ghost use Rattle.std.specs.Prelude.{◌≡◌, ◌-◌, ◌≤◌, length, take};
ghost use Rattle.columns.specs.Reading.{spelled, same, is_field};

// What a column counts: the digit of a byte from 48 on, 0 for a byte before that.
fn digit_of(byte: u8) -> u32
    ensures value { result ≡ byte - 48 }
    ensures upper_bound { result ≤ 207 }
{
    u32::from(byte.saturating_sub(b'0'))
}

// The number that the first four columns spell.
#[tactic(auto, using(crate::proofs::NumberLaws::four_columns))]
pub(crate) fn spelled_number(text: &[u8]) -> u32
    requires { 4 ≤ length text.now }
    ensures { result ≡ spelled (take 4 text.now) }
{
    let first = digit_of(text[0]);
    let second = digit_of(text[1]);
    let third = digit_of(text[2]);
    let fourth = digit_of(text[3]);
    ((first * 10 + second) * 10 + third) * 10 + fourth
}

// Whether two slices hold the same bytes. They are compared byte by byte where they are short, as here: `==` calls a
// function for long ones.
fn is_same(text: &[u8], form: &[u8]) -> bool
    ensures { result ≡ same text.now form.now }
{
    text.len() == form.len() && text.iter().zip(form).all(|(a, b)| a == b)
}

// Whether four bytes are a number in four columns: what is written for the number that they spell.
pub(crate) fn is_number(text: &[u8]) -> bool
    requires { length text.now ≡ 4 }
    ensures { result ≡ is_field 4 text.now }
{
    let mut form = [0u8; 4];
    columns::write_number(spelled_number(text), &mut form);
    is_same(text, &form)
}
