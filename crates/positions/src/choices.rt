// Positions of choices under pair rules and apart rules.
use crate::saying::{print_refusal, print_row, print_strikes};
use engine::{limit, opening};
use rules::choices::{ApartRow, ChoiceBook, ChoiceRow, PairRow, TokenPair};
use spans::Choice;
use std::io;
use std::io::ErrorKind;

// The pairs (0, 1) and (1, 2), for P and Q.
fn two_pairs() -> Option<ChoiceRow> {
    let one = TokenPair::new(0, 1)?;
    let two = TokenPair::new(1, 2)?;
    let row = PairRow::new(2, 0, 1, &[one, two])?;
    Some(ChoiceRow::Pair(row))
}

// Two places of three that must differ.
fn apart(first: u8, second: u8) -> Option<ChoiceRow> {
    let row = ApartRow::new(3, first, second)?;
    Some(ChoiceRow::Apart(row))
}

// No one function with the opening of amounts: there the position is gone at once, and here it is limited.
// Opens a board of tokens, limits place 0 to token 0, and shows the board after each.
fn open_and_limit(
    rt: &HostRuntime,
    book: &ChoiceBook,
    board: &mut [Choice],
    working: &mut [Choice],
) -> io::Result<()> {
    let mut waiting = [0; 3];
    match opening(book, board, working, &mut waiting) {
        Ok(opened) => {
            print_strikes(rt, "opening", Ok(opened.strikes))?;
            print_row(rt, "", board)?;
            let said = limit(
                &opened.position,
                book,
                board,
                working,
                &mut waiting,
                0,
                Choice::only(0),
            );
            print_strikes(rt, "limit P", said)?;
            print_row(rt, "", board)
        }
        Err(refusal) => print_refusal(rt, "opening", refusal),
    }
}

// P and Q take the tokens of a pair.
fn pairs(rt: &HostRuntime) -> io::Result<()> {
    let row = two_pairs().ok_or(ErrorKind::InvalidInput)?;
    println!(rt; "P, Q by the pairs (0, 1) and (1, 2)")?;
    let rows = [row];
    let book = ChoiceBook::new(2, &rows);
    open_and_limit(
        rt,
        &book,
        &mut [Choice::first(3); 2],
        &mut [Choice::empty(); 2],
    )
}

// P, Q and R differ, each two of them, with two tokens for three places: settled, and refused at the first limit.
fn all_apart(rt: &HostRuntime) -> io::Result<()> {
    let one = apart(0, 1).ok_or(ErrorKind::InvalidInput)?;
    let two = apart(0, 2).ok_or(ErrorKind::InvalidInput)?;
    let three = apart(1, 2).ok_or(ErrorKind::InvalidInput)?;
    println!(rt; "P, Q, R apart")?;
    let rows = [one, two, three];
    let book = ChoiceBook::new(3, &rows);
    open_and_limit(
        rt,
        &book,
        &mut [Choice::first(2); 3],
        &mut [Choice::empty(); 3],
    )
}

pub fn play(rt: &HostRuntime) -> io::Result<()> {
    pairs(rt)?;
    all_apart(rt)
}
