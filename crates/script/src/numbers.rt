// Readers of bytes and numbers: each gives what it has read and the bytes
// behind it.

ghost use Rattle.std.specs.Prelude.{◌≡◌, ◌<◌, ◌^◌, option_map, Some};
ghost use Rattle.script.specs.Reading.{Gives, after_byte, digits_on as digits_at, number_at, number_then as number_before, ended_at, numbers_at, number_line_at};
ghost use Rattle.script.specs.declared.numbers.Stop.TheVariants.{Memory};

use std::alloc::{AllocError, AllocFailed, Global};

// Why reading stops.
#[derive(Debug, Drop)]
pub(crate) enum Stop {
    // Memory has run out.
    Memory,
    // The bytes are not as the format has them.
    Malformed,
}

impl From<AllocError> for Stop {
    ghost from_gives = { λ _ e. e ≡ Memory };

    fn from(_e: AllocError) -> Stop {
        Stop::Memory
    }
}

impl<T: Drop> From<AllocFailed<T>> for Stop {
    ghost from_gives = { λ _ e. e ≡ Memory };

    fn from(_e: AllocFailed<T>) -> Stop {
        Stop::Memory
    }
}

// From this number on, another digit would be the tenth.
const NINE_DIGITS: u32 = 100_000_000;

// Passes over one byte, which has to be the one that is wanted.
#[tactic(auto, unfolding(crate::specs::Reading::after_byte))]
pub(crate) fn after(wanted: u8, text: &[u8]) -> Option<&[u8]>
    ensures { option_map (λ rest. rest.now) result ≡ after_byte wanted text.now }
{
    match text {
        [first, rest @ ..] if *first == wanted => Some(rest),
        _ => None,
    }
}

// The number that begins with `first` and goes on with the digits at the front
// of the text, up to nine in all.
#[tactic(auto, unfolding(crate::specs::Reading::digits_on))]
fn digits_on(first: u32, text: &[u8]) -> (u32, &[u8])
    requires { first < 10 ^ 9 }
    ensures { (result.0, result.1.now) ≡ digits_at first text.now }
{
    let mut n = first;
    for (i, digit) in text.iter().enumerate() {
        if !digit.is_ascii_digit() || NINE_DIGITS <= n {
            return (n, &text[i..]);
        }
        n = 10 * n + u32::from(*digit - b'0');
    }
    (n, &[])
}

// A number without needless zeros.
#[tactic(auto, unfolding(crate::specs::Reading::number_at))]
fn number(text: &[u8]) -> Option<(u32, &[u8])>
    ensures { option_map (λ x. (x.0, x.1.now)) result ≡ number_at text.now }
{
    match text {
        [b'0', rest @ ..] => Some((0, rest)),
        [digit @ b'1'..=b'9', rest @ ..] => Some(digits_on(u32::from(*digit - b'0'), rest)),
        _ => None,
    }
}

// A number and one byte, which has to be the one that is wanted.
#[tactic(auto, unfolding(crate::specs::Reading::number_then))]
pub(crate) fn number_then(wanted: u8, text: &[u8]) -> Option<(u32, &[u8])>
    ensures { option_map (λ x. (x.0, x.1.now)) result ≡ number_before wanted text.now }
{
    let (n, rest) = number(text)?;
    Some((n, after(wanted, rest)?))
}

// A number and what ends it: yes for the line feed, no for a space.
#[tactic(auto, unfolding(crate::specs::Reading::ended_at))]
fn ended(text: &[u8]) -> Option<(u32, bool, &[u8])>
    ensures { option_map (λ x. ((x.0, x.1), x.2.now)) result ≡ ended_at text.now }
{
    let (n, end) = number(text)?;
    match end {
        [b'\n', rest @ ..] => Some((n, true, rest)),
        [b' ', rest @ ..] => Some((n, false, rest)),
        _ => None,
    }
}

// The numbers up to the line feed, at most so many.
#[tactic(auto, using(crate::proofs::Turns::with_front_none, crate::proofs::Turns::numbers_step, crate::proofs::Turns::numbers_over))]
fn numbers(alloc: Global, limit: usize, text: &[u8]) -> Result<(Vec<u32>, &[u8]), Stop>
    ensures { Gives (λ x. (x.0.items, x.1.now)) result (numbers_at limit text.now) }
{
    let mut numbers = Vec::new(alloc);
    let mut rest = text;
    for _ in 0..limit {
        let (n, is_last, behind) = ended(rest).ok_or(Stop::Malformed)?;
        numbers.push(n)?;
        if is_last {
            return Ok((numbers, behind));
        }
        rest = behind;
    }
    Err(Stop::Malformed)
}

// A line of numbers, at most so many, or of a hyphen for none.
#[tactic(auto, unfolding(crate::specs::Reading::number_line_at))]
pub(crate) fn number_line(
    alloc: Global,
    limit: usize,
    text: &[u8],
) -> Result<(Vec<u32>, &[u8]), Stop>
    ensures { Gives (λ x. (x.0.items, x.1.now)) result (number_line_at limit text.now) }
{
    if let Some(rest) = after(b'-', text) {
        let rest = after(b'\n', rest).ok_or(Stop::Malformed)?;
        return Ok((Vec::new(alloc), rest));
    }
    numbers(alloc, limit, text)
}
