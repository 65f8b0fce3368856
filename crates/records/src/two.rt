// Rules between two places: pair lines and apart lines.
ghost use Rattle.std.specs.Prelude.{◌≡◌, ◌≤◌, length};
ghost use Rattle.text.specs.Fields.{fields_left};
ghost use Rattle.records.specs.Names.{named};
ghost use Rattle.records.specs.Rules.{Tokens};
ghost use Rattle.records.specs.Between.{two_places, tokens_at, tokens_shown, pair_fields, apart_fields, shown_pair, shown_apart};

use crate::names::Names;
use crate::numbers::count;
use crate::twos::{Item, read_twos};
use books::Place;
use rules::choices::pair::MOST_PAIRS;
use rules::choices::{ApartRow, PairRow, TokenPair};
use rules::few::Few;
use sheets::SheetFault;
use text::{At, FieldFault, Fields};

const LAST_TOKEN: u8 = 63;

// Two different places.
#[derive(Clone, Copy)]
pub(crate) struct TwoPlaces {
    first: Place,
    second: Place,
}

// The places that the fields 1 and 2 of a line name, or the first fault from the left.
fn read_two(names: Names, first: &[u8], second: &[u8], line: usize) -> Result<TwoPlaces, SheetFault>
    ensures { result ≡ two_places (named names.entry) line first.now second.now }
{
    let first = names.place(first, At { line, field: 1 })?;
    let second = names.place(second, At { line, field: 2 })?;
    if first == second {
        return Err(SheetFault::Name(At { line, field: 2 }));
    }
    Ok(TwoPlaces { first, second })
}

impl Item for TokenPair {
    type Fault = FieldFault;

    ghost Shown = { Tokens };

    ghost shows = { tokens_shown };

    ghost reads = { λ ps line f ts. tokens_at line f };

    const BLANK: TokenPair = TokenPair {
        first: 0,
        second: 0,
    };

    // Each field is a token.
    fn read(
        _names: Names,
        _pairs: &[TokenPair],
        first: &[u8],
        second: &[u8],
        at: At,
    ) -> Result<TokenPair, FieldFault> {
        let first = count(first, 0, LAST_TOKEN, at)?;
        let next = At {
            line: at.line,
            field: at.field + 1,
        };
        let second = count(second, 0, LAST_TOKEN, next)?;
        Ok(TokenPair::new(first, second).unwrap())
    }
}

// The rule of a pair line's fields, or their first fault from the left.
pub(crate) fn read_pair(
    names: Names,
    first: &[u8],
    second: &[u8],
    pairs: Fields,
    line: usize,
) -> Result<PairRow, SheetFault>
    requires some { 1 ≤ length (fields_left pairs) }
    requires few { length (fields_left pairs) ≤ 200 }
    ensures { shown_pair result ≡ pair_fields (named names.entry) line first.now second.now (fields_left pairs.entry) }
{
    let two = read_two(names, first, second, line)?;
    let pairs: Few<TokenPair, MOST_PAIRS> = read_twos(names, pairs, line)?;
    let row = PairRow::new(names.count(), two.first, two.second, pairs.as_slice()).unwrap();
    Ok(row)
}

// The rule of an apart line's fields, or their first fault from the left.
pub(crate) fn read_apart(
    names: Names,
    first: &[u8],
    second: &[u8],
    line: usize,
) -> Result<ApartRow, SheetFault>
    ensures { shown_apart result ≡ apart_fields (named names.entry) line first.now second.now }
{
    let two = read_two(names, first, second, line)?;
    let row = ApartRow::new(names.count(), two.first, two.second).unwrap();
    Ok(row)
}
