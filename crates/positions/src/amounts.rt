// Positions of amounts under sums.
use crate::saying::{print_answer, print_refusal, print_row, print_strikes};
use engine::{Position, back, check_finish, finish, limit, mark, opening};
use rules::sums::{Relation, SumBook, SumRow, Term};
use spans::Amount;
use std::io;
use std::io::ErrorKind;

fn term(coefficient: i32, place: u8) -> Term {
    Term { coefficient, place }
}

// Opens a board, and shows it.
fn open(
    rt: &HostRuntime,
    book: &SumBook,
    board: &mut [Amount],
    working: &mut [Amount],
) -> io::Result<()> {
    let said = opening(book, board, working, &mut [0; 1]);
    print_strikes(rt, "opening", said.map(|opened| opened.strikes))?;
    print_row(rt, "", board)
}

// Limits X in a position of 3X - 4Y = 0, and shows the board.
fn limit_x(
    rt: &HostRuntime,
    position: &Position,
    book: &SumBook,
    board: &mut [Amount],
    span: Amount,
) -> io::Result<()> {
    let mut working = [Amount::empty(); 2];
    let mut waiting = [0; 1];
    let said = limit(position, book, board, &mut working, &mut waiting, 0, span);
    print_strikes(rt, "limit X", said)?;
    print_row(rt, "", board)
}

// A limit that leaves one holding, taken back; a limit that a rule refuses; and then the first again, to the end.
fn marks_and_limits(
    rt: &HostRuntime,
    opened: Position,
    book: &SumBook,
    board: &mut [Amount],
) -> io::Result<()> {
    let mut position = opened;
    let mut keep = [Amount::empty(); 2];
    let mut holding = [0; 2];
    print_answer(rt, "mark", mark(&mut position, board, &mut keep))?;
    limit_x(rt, &position, book, board, Amount::between(5, 8))?;
    print_answer(rt, "mark", mark(&mut position, board, &mut keep))?;
    print_answer(rt, "back", back(&mut position, board, &keep))?;
    print_row(rt, "", board)?;
    limit_x(rt, &position, book, board, Amount::between(5, 7))?;
    print_answer(rt, "check finish", check_finish(&position, board, &holding))?;
    print_answer(rt, "back", back(&mut position, board, &keep))?;
    limit_x(rt, &position, book, board, Amount::between(5, 8))?;
    print_answer(rt, "check finish", check_finish(&position, board, &holding))?;
    finish(position, board, &mut holding);
    print_row(rt, "holding", &holding)
}

// 3X - 4Y = 0, from 0 to 10, and then from 1 to 10 with marks and limits.
fn three_four(rt: &HostRuntime) -> io::Result<()> {
    let terms = [term(3, 0), term(-4, 1)];
    let row = SumRow::new(2, Relation::Equal, 0, &terms).ok_or(ErrorKind::InvalidInput)?;
    println!(rt; "3X - 4Y = 0")?;
    let rows = [row];
    let book = SumBook::new(2, &rows);
    let mut working = [Amount::empty(); 2];
    open(rt, &book, &mut [Amount::between(0, 10); 2], &mut working)?;
    let mut board = [Amount::between(1, 10); 2];
    match opening(&book, &mut board, &mut working, &mut [0; 1]) {
        Ok(opened) => {
            print_strikes(rt, "opening", Ok(opened.strikes))?;
            print_row(rt, "", &board)?;
            marks_and_limits(rt, opened.position, &book, &mut board)
        }
        Err(refusal) => print_refusal(rt, "opening", refusal),
    }
}

// 2A <= -7: the bound is rounded inward.
fn twice(rt: &HostRuntime) -> io::Result<()> {
    let row = SumRow::new(1, Relation::AtMost, -7, &[term(2, 0)]).ok_or(ErrorKind::InvalidInput)?;
    println!(rt; "2A <= -7")?;
    let rows = [row];
    let book = SumBook::new(1, &rows);
    open(
        rt,
        &book,
        &mut [Amount::between(-10, 10)],
        &mut [Amount::empty()],
    )
}

// 2A + 2B + 2C = 3: settled, though no holding obeys it.
fn three_twos(rt: &HostRuntime) -> io::Result<()> {
    let terms = [term(2, 0), term(2, 1), term(2, 2)];
    let row = SumRow::new(3, Relation::Equal, 3, &terms).ok_or(ErrorKind::InvalidInput)?;
    println!(rt; "2A + 2B + 2C = 3")?;
    let rows = [row];
    let book = SumBook::new(3, &rows);
    open(
        rt,
        &book,
        &mut [Amount::between(0, 1); 3],
        &mut [Amount::empty(); 3],
    )
}

pub fn play(rt: &HostRuntime) -> io::Result<()> {
    three_four(rt)?;
    twice(rt)?;
    three_twos(rt)
}
