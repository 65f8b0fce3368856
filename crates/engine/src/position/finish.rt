// Finish: the least numbers of the board are handed out, and the position is used up.
ghost use Rattle.std.specs.Prelude.{◌≡◌, not, ◌==◌};
ghost use Rattle.std.specs.List.{position};
ghost use Rattle.books.specs.Boards.{span_at};
ghost use Rattle.engine.specs.Calls.{lowest};
ghost use Rattle.engine.specs.Lent.{CheckCall, FinishCall};

use super::Position;
use crate::refusal::Refusal;
use books::Place;
use spans::Span;

// The lowest place without exactly one number, if there is one.
fn lowest_several<S: Span>(board: &[S]) -> Option<usize>
    ensures { result ≡ position (λ span. not (S.Span.kind.size span == 1)) board.now }
{
    board.iter().position(|span| !span.is_single())
}

// Whether every place has exactly one number, and the list an entry for it. Nothing moves.
#[tactic(auto, unfolding(crate::specs::Calls::check_answer, crate::specs::Calls::shown))]
pub fn check_finish<S: Span>(position: &Position, board: &[S], list: &[i32]) -> Result<(), Refusal>
    ensures { CheckCall S.Span.kind position.now board.now list.now result }
{
    let places = position.counts.places as usize;
    if board.len() < places || list.len() < places {
        return Err(Refusal::TooShort);
    }
    lowest_several(&board[0..places]).map_or(Ok(()), |place| {
        Err(Refusal::NotOneNumber {
            place: place as Place,
        })
    })
}

// The least number at a place, or 0 where the span is empty or missing.
fn least_at<S: Span>(board: &[S], place: usize) -> i32
    ensures { result ≡ lowest S.Span.kind (span_at S.Span.kind board.now place) }
{
    board.get(place).and_then(|span| span.least()).unwrap_or(0)
}

// Uses the position up, and writes each place's least number into the list, as far as it reaches; the rest stays.
pub fn finish<S: Span>(position: Position, board: &[S], list: &mut [i32])
    ensures { FinishCall S.Span.kind position board.now list.old list.new }
{
    let places = position.counts.places as usize;
    let reached = places.min(list.len());
    for (place, number) in list[0..reached].iter_mut().enumerate() {
        *number = least_at(board, place);
    }
}
