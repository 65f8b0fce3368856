// Opening: a board is settled, and a position begins.
ghost use Rattle.engine.specs.Lent.{lent, OpeningCall};
ghost use Rattle.engine.specs.History.{HistoryLaw};

use super::Position;
use super::settling::{attempt, prepare};
use crate::counts::Counts;
use crate::refusal::Refusal;
use crate::sweep::Strikes;
use books::Book;

// A position that has been opened, and the strikes that it took.
#[derive(Drop)]
pub struct Opened {
    pub position: Position,
    pub strikes: Strikes,
}

// Settles the board, as far as the book counts places. Its law is the law of all histories of the book.
#[tactic(auto, using(crate::proofs::Law::history_law_lem, crate::proofs::Exits::checked_long, crate::proofs::Calling::none_empty), unfolding(crate::specs::Calls::open_reply, crate::specs::Calls::enough))]
pub fn opening<B: Book>(
    book: &B,
    board: &mut [B::Span],
    working: &mut [B::Span],
    waiting: &mut [u8],
) -> Result<Opened, Refusal>
    ensures call { OpeningCall B.Span.Span.kind (B.Book.meaning book.now) (lent board.old working.old waiting.old board.old) result board.new working.new waiting.new }
    ensures law { HistoryLaw B.Span.Span.kind (B.Book.meaning book.now) }
{
    book.lawful();
    let counts = Counts::of(book);
    counts.check_memory(board, working, waiting)?;
    let places = counts.places as usize;
    let board = &mut board[0..places];
    let working = &mut working[0..places];
    let waiting = &mut waiting[0..counts.rules as usize];
    prepare(board, working, waiting)?;
    let strikes = attempt(book, board, working, waiting)?;
    let position = Position { counts, marks: 0 };
    Ok(Opened { position, strikes })
}
