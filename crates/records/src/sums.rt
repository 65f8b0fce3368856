// Sum lines: a relation, a bound, and coefficients each followed by a name.
ghost use Rattle.std.specs.Prelude.{◌≡◌, ◌≤◌, length};
ghost use Rattle.text.specs.Fields.{fields_left};
ghost use Rattle.rules.specs.declared.sums.term.Term.{Term};
ghost use Rattle.records.specs.Names.{named};
ghost use Rattle.records.specs.Sums.{relation_at, coefficient_at, term_of, sum_fields, shown_sum};

use crate::names::Names;
use crate::numbers::whole;
use crate::twos::{Item, read_twos};
use rules::few::Few;
use rules::sums::row::MOST_TERMS;
use rules::sums::{Relation, SumRow, Term, uses_place};
use sheets::SheetFault;
use text::{At, FieldFault, Fields, number_within};

const MOST_BOUND: i64 = 1_000_000_000_000;

const MOST_COEFFICIENT: i32 = 10_000;

// The relation that a field spells, or fault 4.
fn read_relation(field: &[u8], at: At) -> Result<Relation, FieldFault>
    ensures { result ≡ relation_at at field.now }
{
    match field {
        b"<=" => Ok(Relation::AtMost),
        b">=" => Ok(Relation::AtLeast),
        b"=" => Ok(Relation::Equal),
        _ => Err(FieldFault::Malformed(at)),
    }
}

// The coefficient that a field spells: fault 4 where it spells no number, fault 5 where that is 0 or beyond 10,000.
fn read_coefficient(field: &[u8], at: At) -> Result<i32, FieldFault>
    ensures { result ≡ coefficient_at at field.now }
{
    let coefficient = whole(field, -MOST_COEFFICIENT, MOST_COEFFICIENT, at)?;
    if coefficient == 0 {
        return Err(FieldFault::OutOfRange(at));
    }
    Ok(coefficient)
}

impl Item for Term {
    type Fault = SheetFault;

    ghost Shown = { Term };

    ghost shows = { λ t. t };

    ghost reads = { term_of };

    const BLANK: Term = Term {
        coefficient: 0,
        place: 0,
    };

    // The first field is the coefficient, and the second the name.
    fn read(
        names: Names,
        terms: &[Term],
        coefficient: &[u8],
        name: &[u8],
        at: At,
    ) -> Result<Term, SheetFault> {
        let coefficient = read_coefficient(coefficient, at)?;
        let next = At {
            line: at.line,
            field: at.field + 1,
        };
        let place = names.place(name, next)?;
        if uses_place(terms, place) {
            return Err(SheetFault::Name(next));
        }
        Ok(Term { coefficient, place })
    }
}

// The sum of a sum line's fields, or their first fault from the left.
pub(crate) fn read_sum(
    names: Names,
    relation: &[u8],
    bound: &[u8],
    terms: Fields,
    line: usize,
) -> Result<SumRow, SheetFault>
    requires some { 1 ≤ length (fields_left terms) }
    requires few { length (fields_left terms) ≤ 32 }
    ensures { shown_sum result ≡ sum_fields (named names.entry) line relation.now bound.now (fields_left terms.entry) }
{
    let relation = read_relation(relation, At { line, field: 1 })?;
    let bound = number_within(bound, -MOST_BOUND, MOST_BOUND, At { line, field: 2 })?;
    let terms: Few<Term, MOST_TERMS> = read_twos(names, terms, line)?;
    let row = SumRow::new(names.count(), relation, bound, terms.as_slice()).unwrap();
    Ok(row)
}
