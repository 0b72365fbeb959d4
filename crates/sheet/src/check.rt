// What `read_sheet` refuses a sheet by, in the reader's own order.
ghost use Rattle.std.specs.Prelude.{◌≡◌, ◌+◌, ◌*◌, ◌/◌, ◌≤◌, IfOk, length};
ghost use Rattle.refusal.specs.Table.{refusal_of};
ghost use Rattle.refusal.specs.Tests.{any_outside, any_to};
ghost use Rattle.refusal.specs.Kinds.{number};
ghost use Rattle.sheet.specs.CodeSheet.{bad_line, number_on, numbers_on, sheet_layers, form_table, content_table};
ghost use Rattle.sheet.specs.Parts.{Lines, Formed, tried_form, tried_content};

use crate::line::{is_line, part};
use crate::number::spelled_number;
use polar_code::{kernel_count, place_count};
use refusal::{Refusal, require};

// Whether a line is not one number in four columns and a line feed.
#[tactic(auto, unfolding(crate::specs::CodeSheet::bad_line))]
fn is_bad_line(bytes: &[u8], i: usize) -> bool
    requires { 5 * (i + 1) ≤ length bytes.now }
    ensures { result ≡ bad_line i bytes.now }
{
    !is_line(part(bytes, 5, i), 1)
}

// The number on a line.
#[tactic(auto, unfolding(crate::specs::CodeSheet::number_on))]
pub(crate) fn number_on(bytes: &[u8], i: usize) -> u32
    requires { 5 * (i + 1) ≤ length bytes.now }
    ensures { result ≡ number_on i bytes.now }
{
    spelled_number(part(bytes, 5, i))
}

// Whether one of the lines of five bytes is bad. Bytes after the last whole line are not looked at.
fn any_bad_line(bytes: &[u8]) -> bool
    ensures { result ≡ any_to (length bytes.now / 5) (λ i. bad_line i bytes.now) }
{
    for i in 0..bytes.len() / 5 {
        if is_bad_line(bytes, i) {
            return true;
        }
    }
    false
}

// Whether one of the numbers on `count` lines from line `first` on is below low or above high.
fn any_number_outside(bytes: &[u8], first: usize, count: usize, low: u32, high: u32) -> bool
    requires { Lines first count bytes.now }
    ensures { result ≡ any_outside low high (numbers_on first count bytes.now) }
{
    for i in 0..count {
        if !(low..=high).contains(&number_on(bytes, first + i)) {
            return true;
        }
    }
    false
}

// Goes down the rows on the lines and on n, of a sheet of five bytes or more. For an n above 8 the lines are counted as
// for 8: the row before refuses such a sheet.
#[tactic(auto, unfolding(refusal::specs::Table::refusal_of, refusal::specs::Tests::outside, refusal::specs::Tests::unequal))]
fn check_lines(bytes: &[u8], n: usize) -> Result<(), Refusal>
    requires { 5 ≤ length bytes.now }
    ensures { number result ≡ refusal_of (tried_form n bytes.now) }
{
    require(!is_bad_line(bytes, 0), Refusal::Form)?;
    require((1..=8).contains(&n), Refusal::Layers)?;
    require(
        bytes.len() == 5 * (1 + place_count(n) + kernel_count(n)),
        Refusal::Form,
    )?;
    require(!any_bad_line(bytes), Refusal::Form)
}

// Goes down the rows on the form of the sheet and on n, and answers n.
pub(crate) fn check_form(bytes: &[u8]) -> Result<usize, Refusal>
    ensures refusal { number result ≡ refusal_of (form_table bytes.now) }
    ensures layers { IfOk result (λ n. n ≡ sheet_layers bytes.now) }
{
    require(bytes.len() >= 5, Refusal::Form)?;
    let n = number_on(bytes, 0) as usize;
    check_lines(bytes, n)?;
    Ok(n)
}

// Goes down the rows on the lengths of the buffers and on the numbers of the map and the coefficients, for this many
// places and kernels. Where no number of the map is above 1, no place is a message place exactly when all of them are
// 1.
#[tactic(auto, unfolding(refusal::specs::Table::refusal_of))]
fn check_numbers(
    bytes: &[u8],
    places: usize,
    kernels: usize,
    map: &[u8],
    coefs: &[u8],
) -> Result<(), Refusal>
    requires { Lines 1 places bytes.now × Lines (1 + places) kernels bytes.now }
    ensures { number result ≡ refusal_of (tried_content places kernels bytes.now map.now coefs.now) }
{
    require(places <= map.len(), Refusal::Length)?;
    require(kernels <= coefs.len(), Refusal::Length)?;
    require(
        !any_number_outside(bytes, 1, places, 0, 1),
        Refusal::MapByte,
    )?;
    require(
        any_number_outside(bytes, 1, places, 1, 1),
        Refusal::NoMessagePlace,
    )?;
    require(
        !any_number_outside(bytes, 1 + places, kernels, 1, 63),
        Refusal::Coefficient,
    )
}

// The same of a sheet with n layers.
pub(crate) fn check_contents(
    n: usize,
    bytes: &[u8],
    map: &[u8],
    coefs: &[u8],
) -> Result<(), Refusal>
    requires { Formed n bytes.now }
    ensures { number result ≡ refusal_of (content_table bytes.now map.now coefs.now) }
{
    check_numbers(bytes, place_count(n), kernel_count(n), map, coefs)
}
