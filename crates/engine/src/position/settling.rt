// What opening and limit share: they try on the working board, and touch the board only where the try is granted.
ghost use Rattle.std.specs.Prelude.{◌≡◌, ◌<◌, ◌≤◌, length, replicate, ◌==◌};
ghost use Rattle.std.specs.List.{position};
ghost use Rattle.books.specs.Boards.{Full};
ghost use Rattle.books.specs.Sweeps.{settle as settled};
ghost use Rattle.engine.specs.Calls.{judged};
ghost use Rattle.engine.specs.Lent.{empty_told, verdict_answer, verdict_board};

use crate::refusal::Refusal;
use crate::sweep::{Strikes, settle};
use books::{Book, Place};
use spans::Span;

// The lowest place whose span is empty, if there is one.
fn lowest_empty<S: Span>(board: &[S]) -> Option<usize>
    ensures { result ≡ position (λ span. S.Span.kind.size span == 0) board.now }
{
    board.iter().position(|span| span.is_empty())
}

// Copies the board onto the working board and lets no rule wait; refused at the lowest empty span.
// Slices and no struct that borrows them: each method would need clauses that it keeps the references, as many as it saves.
pub(super) fn prepare<S: Span>(
    board: &[S],
    working: &mut [S],
    waiting: &mut [u8],
) -> Result<(), Refusal>
    requires places { length board.now < 256 }
    requires working { length working.old ≡ length board.now }
    ensures answer { result ≡ empty_told S.Span.kind board.now }
    ensures working { working.new ≡ board.now }
    ensures waiting { waiting.new ≡ replicate (length waiting.old) 0 }
{
    working.copy_from_slice(board);
    waiting.fill(0);
    lowest_empty(board).map_or(Ok(()), |place| {
        Err(Refusal::EmptySpan {
            place: place as Place,
        })
    })
}

// Settles the working board. Granted, the board becomes what is left of it; refused, the working board becomes the board again.
#[tactic(auto, using(crate::proofs::Attempting::tried_granted, crate::proofs::Attempting::tried_refused))]
pub(super) fn attempt<B: Book>(
    book: &B,
    board: &mut [B::Span],
    working: &mut [B::Span],
    waiting: &mut [u8],
) -> Result<Strikes, Refusal>
    requires board { length board.old ≡ (B.Book.meaning book.now).places }
    requires full { Full B.Span.Span.kind (B.Book.meaning book.now).places working.old }
    requires waiting { (B.Book.meaning book.now).rules ≤ length waiting.old }
    ensures answer { result ≡ verdict_answer (judged (settled B.Span.Span.kind (B.Book.meaning book.now) working.old)) }
    ensures board { board.new ≡ verdict_board board.old (judged (settled B.Span.Span.kind (B.Book.meaning book.now) working.old)) }
    ensures working { working.new ≡ board.new }
    ensures waiting { waiting.new ≡ replicate (length waiting.old) 0 }
{
    book.lawful();
    let settled = settle(book, working, waiting);
    waiting.fill(0);
    match settled {
        Ok(strikes) => {
            board.copy_from_slice(working);
            Ok(strikes)
        }
        Err(by) => {
            working.copy_from_slice(board);
            Err(Refusal::Emptied {
                place: by.place,
                rule: by.rule,
            })
        }
    }
}
