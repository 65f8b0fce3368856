// Names: 1 to 24 bytes, none below 32 and none 127.
ghost use Rattle.std.specs.Prelude.{◌≡◌, Decides};
ghost use Rattle.text.specs.Names.{name_test, name_at, shown_name, same_name};

use crate::fault::{At, FieldFault};

const NAME_BYTES: usize = 24;

// Whether the bytes are a name.
fn is_name(field: &[u8]) -> bool
    ensures { result ≡ name_test field.now }
{
    (1..=NAME_BYTES).contains(&field.len()) && field.iter().all(|b| !b.is_ascii_control())
}

// The field as a name, or fault 4.
pub fn name<'l>(field: &'l [u8], at: At) -> Result<&'l [u8], FieldFault>
    ensures { shown_name result ≡ name_at at field.now }
{
    if is_name(field) {
        return Ok(field);
    }
    Err(FieldFault::Malformed(at))
}

// Whether two names are the same. Every look-up of a name goes through here.
pub fn same_name(a: &[u8], b: &[u8]) -> bool
    ensures same { result ≡ same_name a.now b.now }
    ensures law { Decides result (a.now ≡ b.now) }
{
    a == b
}
