// Limit: one place is cut to its common part with a span, and the board is settled.
ghost use Rattle.std.specs.Prelude.{◌≡◌};
ghost use Rattle.engine.specs.Lent.{lent, limit_checked, LimitCall};

use super::Position;
use super::settling::{attempt, prepare};
use crate::counts::Counts;
use crate::refusal::Refusal;
use crate::sweep::Strikes;
use books::{Book, Place};
use spans::Span;

// Whether the memory and the book fit the position, and the place is one of it.
fn check_limit<B: Book>(
    position: &Position,
    book: &B,
    board: &[B::Span],
    working: &[B::Span],
    waiting: &[u8],
    place: Place,
) -> Result<(), Refusal>
    ensures { result ≡ limit_checked position.now (B.Book.meaning book.now) place board.now working.now waiting.now }
{
    position.counts.check_memory(board, working, waiting)?;
    if Counts::of(book) != position.counts {
        return Err(Refusal::OtherBook);
    }
    if place >= position.counts.places {
        return Err(Refusal::NoSuchPlace { place });
    }
    Ok(())
}

// Cuts the place to its common part with the span, settles the board, and returns the strikes; the cut is none of them.
#[tactic(auto, using(crate::proofs::Limiting::checked_lengths), unfolding(crate::specs::Calls::limit_reply, crate::specs::Calls::enough))]
pub fn limit<B: Book>(
    position: &Position,
    book: &B,
    board: &mut [B::Span],
    working: &mut [B::Span],
    waiting: &mut [u8],
    place: Place,
    span: B::Span,
) -> Result<Strikes, Refusal>
    ensures { LimitCall B.Span.Span.kind (B.Book.meaning book.now) position.now (record { place = place; span = span }) (lent board.old working.old waiting.old board.old) result board.new working.new waiting.new }
{
    book.lawful();
    check_limit(position, book, board, working, waiting, place)?;
    let places = position.counts.places as usize;
    let board = &mut board[0..places];
    let working = &mut working[0..places];
    let waiting = &mut waiting[0..position.counts.rules as usize];
    prepare(board, working, waiting)?;
    let cut = board[place as usize].common(span);
    if cut.is_empty() {
        return Err(Refusal::NothingShared { place });
    }
    working[place as usize] = cut;
    attempt(book, board, working, waiting)
}
