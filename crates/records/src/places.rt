// The places of a game, as its place lines declare them.
ghost use Rattle.std.specs.Prelude.{◌≡◌, map};
ghost use Rattle.text.specs.Fields.{fields_left};
ghost use Rattle.records.specs.Places.{place_shown, declares, opening_of, place_line, shown_place};

use crate::numbers::{count, whole};
use crate::record::{Record, Word, next_field, word_record};
use sheets::{SheetFault, SpanKind};
use text::{At, FieldFault, Fields, name, same_name};

const MILLION: i32 = 1_000_000;

const TOKENS: u8 = 64;

// What may lie at a place at the opening: the amounts from a floor to a ceiling, or the first tokens.
#[derive(Clone, Copy, PartialEq, Eq, Debug)]
pub enum Opening {
    Amount { floor: i32, ceiling: i32 },
    Tokens { count: u8 },
}

// A place of a game, with its name as a part of the sheet.
#[derive(Clone, Copy)]
pub struct PlaceRow<'s> {
    pub name: &'s [u8],
    pub opening: Opening,
}

// Whether one of the places has the name.
fn is_declared(places: &[PlaceRow], name: &[u8]) -> bool
    ensures { result ≡ declares (map place_shown places.now) name.now }
{
    places.iter().any(|place| same_name(place.name, name))
}

// What the numbers of a place line open: fault 4 or 5 at the first field that is wrong.
fn read_opening(kind: SpanKind, numbers: Fields, line: usize) -> Result<Opening, FieldFault>
    ensures { result ≡ opening_of kind line (fields_left numbers.entry) }
{
    let mut fields = numbers;
    let first = next_field(&mut fields);
    match kind {
        SpanKind::Amounts => {
            let floor = whole(first, -MILLION, MILLION, At { line, field: 2 })?;
            let second = next_field(&mut fields);
            let ceiling = whole(second, floor, MILLION, At { line, field: 3 })?;
            Ok(Opening::Amount { floor, ceiling })
        }
        SpanKind::Choices => {
            let count = count(first, 1, TOKENS, At { line, field: 2 })?;
            Ok(Opening::Tokens { count })
        }
    }
}

// The place of a place line after the places given, or its first fault.
pub fn read_place<'s>(
    kind: SpanKind,
    places: &[PlaceRow<'s>],
    bytes: &'s [u8],
    line: usize,
) -> Result<PlaceRow<'s>, SheetFault>
    ensures { shown_place result ≡ place_line kind (map place_shown places.now) line bytes.now }
{
    let Some(
        Record::Place {
            name: field,
            numbers,
        },
    ) = word_record(kind, Word::Place, bytes)
    else {
        return Err(SheetFault::Count { line });
    };
    let at = At { line, field: 1 };
    let name = name(field, at)?;
    if is_declared(places, name) {
        return Err(SheetFault::Name(at));
    }
    let opening = read_opening(kind, numbers, line)?;
    Ok(PlaceRow { name, opening })
}
