// Numbers of a sheet: an optional minus sign and then 1 to 13 digits, with no leading zero and no `-0`.
ghost use Rattle.std.specs.Prelude.{◌≡◌, ◌^◌, ◌<◌, ◌≤◌, ◌∷◌, length, IfSome};
ghost use Rattle.text.specs.Numbers.{digit_of, digits_value, unsigned_of, negative_of, positive_of, number_of, number_in, NumberLaw};

use crate::fault::{At, FieldFault};

const MOST_DIGITS: usize = 13;

// The value of a digit.
fn digit(byte: u8) -> Option<u64>
    ensures { result ≡ digit_of byte }
{
    char::from(byte).to_digit(10).map(u64::from)
}

// The value of a first digit and at most 12 more; nothing where a byte is no digit.
fn value(first: u8, rest: &[u8]) -> Option<u64>
    requires { length rest.now ≤ 12 }
    ensures value { result ≡ digits_value (first ∷ rest.now) }
    ensures small { IfSome result (λ n. n < 10 ^ 13) }
{
    let mut n = digit(first)?;
    // A loop and no `try_fold`: that the number stays small is its invariant, and a closure has none.
    for b in rest {
        n = n * 10 + digit(*b)?;
    }
    Some(n)
}

// The value of 1 to 13 digits with no leading zero.
fn unsigned(first: u8, rest: &[u8]) -> Option<u64>
    ensures value { result ≡ unsigned_of (first ∷ rest.now) }
    ensures small { IfSome result (λ n. n < 10 ^ 13) }
{
    if (first == b'0' && !rest.is_empty()) || rest.len() >= MOST_DIGITS {
        return None;
    }
    value(first, rest)
}

// The number whose digits follow a minus sign.
fn negative(digits: &[u8]) -> Option<i64>
    ensures { result ≡ negative_of digits.now }
{
    let [first, rest @ ..] = digits else {
        return None;
    };
    match unsigned(*first, rest)? {
        0 => None,
        n => Some(-(n as i64)),
    }
}

// The number that has digits alone.
fn positive(first: u8, rest: &[u8]) -> Option<i64>
    ensures { result ≡ positive_of (first ∷ rest.now) }
{
    unsigned(first, rest).map(|n| n as i64)
}

// The number that a field spells, if it spells one.
pub fn number(field: &[u8]) -> Option<i64>
    ensures value { result ≡ number_of field.now }
    ensures law { NumberLaw field.now }
{
    match field {
        [b'-', rest @ ..] => negative(rest),
        [first, rest @ ..] => positive(*first, rest),
        [] => None,
    }
}

// The number that a field spells, from `low` to `high`: fault 4 where it spells none, fault 5 where it lies outside. The two
// are parameters of their own, since a range in their place would say no more to a caller. It is laid into its callers: as a call
// of its own it made the reading of pair lines half as slow again.
#[inline(always)]
pub fn number_within(field: &[u8], low: i64, high: i64, at: At) -> Result<i64, FieldFault>
    ensures { result ≡ number_in low high at field.now }
{
    let n = number(field).ok_or(FieldFault::Malformed(at))?;
    if (low..=high).contains(&n) {
        Ok(n)
    } else {
        Err(FieldFault::OutOfRange(at))
    }
}
