use super::{ApartRow, ChoiceBook, ChoiceRow, PairRow, Side, TokenPair, kept_apart};
use books::Book;
use spans::Choice;
use std::test::Fail;

#[test]
fn refused_rows(rt: HostRuntime) -> Result<(), Fail> {
    let pair = TokenPair::new(63, 0).ok_or("two tokens")?;
    assert!(rt; TokenPair::new(64, 0).is_none());
    assert!(rt; ApartRow::new(2, 0, 2).is_none(), "a place past the board");
    assert!(rt; ApartRow::new(2, 1, 1).is_none(), "one place twice");
    assert!(rt; PairRow::new(2, 0, 1, &[]).is_none(), "no pair");
    assert!(rt; PairRow::new(2, 0, 1, &[pair; 100]).is_some());
    assert!(rt; PairRow::new(2, 0, 1, &[pair; 101]).is_none());
    Ok(())
}

#[test]
fn pairs_keep_what_is_joined(rt: HostRuntime) -> Result<(), Fail> {
    let up = TokenPair::new(0, 1).ok_or("two tokens")?;
    let more = TokenPair::new(1, 2).ok_or("two tokens")?;
    let row = PairRow::new(2, 0, 1, &[up, more]).ok_or("a row")?;
    let all = Choice::first(3);
    assert_eq!(rt; row.kept(Side::First, all, all), Choice::first(2));
    assert_eq!(rt; row.kept(Side::Second, all, all), all.without(0));
    assert_eq!(rt;
        row.kept(Side::First, all, Choice::only(2)),
        Choice::only(1)
    );
    Ok(())
}

#[test]
fn apart_strikes_the_only_token(rt: HostRuntime) {
    let both = Choice::first(2);
    assert_eq!(rt; kept_apart(both, both), both);
    assert_eq!(rt; kept_apart(both, Choice::only(1)), Choice::only(0));
    assert_eq!(rt; kept_apart(both, Choice::only(7)), both);
}

#[test]
fn rows_for_other_boards_change_nothing(rt: HostRuntime) -> Result<(), Fail> {
    let row = ApartRow::new(3, 0, 1).ok_or("a row")?;
    let rows = [ChoiceRow::Apart(row)];
    let small = ChoiceBook::new(2, &rows);
    assert_eq!(rt; small.scope_len(0), 1);
    let fit = ChoiceBook::new(3, &rows);
    assert_eq!(rt; fit.scope_len(0), 2);
    let board = [Choice::only(5), Choice::first(9), Choice::first(2)];
    assert_eq!(rt; fit.answer(0, 1, &board), Choice::first(9).without(5));
    assert_eq!(rt; fit.answer(0, 2, &board), Choice::first(2));
    Ok(())
}
