use crate::sums::book::SumBook;
use crate::sums::row::SumRow;
use crate::sums::term::{Relation, Term};
use books::{Book, Place};
use spans::Amount;
use std::process::Abort;
use std::test::Fail;

fn term(coefficient: i32, place: Place) -> Term {
    Term { coefficient, place }
}

// A sum that the tests take for one.
fn sum(places: Place, relation: Relation, bound: i64, terms: &[Term]) -> Result<SumRow, Fail> {
    Ok(SumRow::new(places, relation, bound, terms).ok_or("no sum")?)
}

// A book may be handed back in a Result.
fn book_of(places: Place, rows: &[SumRow]) -> Result<SumBook<'_>, u8> {
    if rows.is_empty() {
        return Err(0);
    }
    Ok(SumBook::new(places, rows))
}

// The answer for a place of a board of two places, as floor and ceiling.
fn answer(
    rt: &impl Abort,
    relation: Relation,
    bound: i64,
    terms: &[Term],
    place: Place,
    board: &[Amount; 2],
) -> Result<(i32, i32), Fail> {
    let row = sum(2, relation, bound, terms)?;
    let rows = [row];
    let book = SumBook::new(2, &rows);
    assert!(rt; place < 2);
    let a = book.answer(0, place, board);
    Ok((a.floor(), a.ceiling()))
}

#[test]
fn rounded_inward(rt: HostRuntime) -> Result<(), Fail> {
    let tens = Amount::between(-10, 10);
    let board = [tens, tens];
    let table = [
        (Relation::AtMost, -7, 2, (-10, -4)),
        (Relation::AtMost, 7, 2, (-10, 3)),
        (Relation::AtMost, 7, -2, (-3, 10)),
        (Relation::AtMost, -7, -2, (4, 10)),
        (Relation::AtLeast, -7, 2, (-3, 10)),
        (Relation::AtLeast, 7, -3, (-10, -3)),
        (Relation::Equal, 7, 2, (1, 0)),
        (Relation::Equal, 8, -2, (-4, -4)),
    ];
    for (relation, bound, a, kept) in table {
        assert_eq!(rt;
            answer(&rt, relation, bound, &[term(a, 0)], 0, &board)?,
            kept
        );
        assert_eq!(rt;
            answer(&rt, relation, bound, &[term(a, 0)], 1, &board)?,
            (-10, 10)
        );
    }
    Ok(())
}

#[test]
fn two_terms(rt: HostRuntime) -> Result<(), Fail> {
    let span = Amount::between(1, 10);
    let board = [span, span];
    let terms = [term(3, 0), term(-4, 1)];
    assert_eq!(rt;
        answer(&rt, Relation::Equal, 0, &terms, 0, &board)?,
        (2, 10)
    );
    assert_eq!(rt; answer(&rt, Relation::Equal, 0, &terms, 1, &board)?, (1, 7));
    let empty = [span, Amount::empty()];
    assert_eq!(rt;
        answer(&rt, Relation::Equal, 0, &terms, 0, &empty)?,
        (1, 10)
    );
    Ok(())
}

#[test]
fn sixteen_terms(rt: HostRuntime) -> Result<(), Fail> {
    let terms = [
        term(10_000, 0),
        term(-10_000, 1),
        term(10_000, 2),
        term(-10_000, 3),
        term(10_000, 4),
        term(-10_000, 5),
        term(10_000, 6),
        term(-10_000, 7),
        term(10_000, 8),
        term(-10_000, 9),
        term(10_000, 10),
        term(-10_000, 11),
        term(10_000, 12),
        term(-10_000, 13),
        term(10_000, 14),
        term(-10_000, 15),
    ];
    let widest = Amount::between(-1_000_000, 1_000_000);
    let board = [widest; 16];
    let far = sum(16, Relation::Equal, 160_000_000_000, &terms)?;
    let farther = sum(16, Relation::AtLeast, 1_000_000_000_000, &terms)?;
    let rows = [far, farther];
    let book = SumBook::new(16, &rows);
    assert_eq!(rt;
        book.answer(0, 0, &board),
        Amount::between(1_000_000, 1_000_000)
    );
    assert_eq!(rt;
        book.answer(0, 15, &board),
        Amount::between(-1_000_000, -1_000_000)
    );
    assert_eq!(rt; book.answer(1, 15, &board), Amount::empty());
    Ok(())
}

#[test]
fn no_sums(rt: HostRuntime) -> Result<(), Fail> {
    let relation = Relation::AtMost;
    assert!(rt; SumRow::new(2, relation, 0, &[]).is_none());
    assert!(rt; SumRow::new(2, relation, 0, &[term(0, 1)]).is_none());
    assert!(rt; SumRow::new(2, relation, 0, &[term(10_001, 1)]).is_none());
    assert!(rt; SumRow::new(2, relation, 0, &[term(1, 2)]).is_none());
    assert!(rt; SumRow::new(2, relation, 0, &[term(1, 1), term(2, 1)]).is_none());
    assert!(rt; SumRow::new(2, relation, 1_000_000_000_001, &[term(1, 1)]).is_none());
    let row = sum(2, relation, -1_000_000_000_000, &[term(-10_000, 1)])?;
    let rows = [row];
    let book = book_of(3, &rows)?;
    assert_eq!(rt; (book.places(), book.rules()), (3, 1));
    assert_eq!(rt; (book.scope_len(0), row.terms().len()), (1, 1));
    Ok(())
}
