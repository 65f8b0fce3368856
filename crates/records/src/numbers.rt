// Numbers of fields, in the widths that the rows hold.
ghost use Rattle.std.specs.Prelude.{◌≡◌};
ghost use Rattle.text.specs.Numbers.{number_in};
ghost use Rattle.records.specs.Numbers.{count_within};

use text::{At, FieldFault, number_within};

// The number that a field spells, from `low` to `high`; fault 4 or 5 for any other field.
pub(crate) fn whole(field: &[u8], low: i32, high: i32, at: At) -> Result<i32, FieldFault>
    ensures { result ≡ number_in low high at field.now }
{
    let n = number_within(field, low as i64, high as i64, at)?;
    Ok(n as i32)
}

// The same for numbers that are not below 0.
// Not one function over both widths: its bound would need laws that say which number a value is, for these two lines.
pub(crate) fn count(field: &[u8], low: u8, high: u8, at: At) -> Result<u8, FieldFault>
    ensures { result ≡ count_within low high at field.now }
{
    let n = number_within(field, low as i64, high as i64, at)?;
    Ok(n as u8)
}
