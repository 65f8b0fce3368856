// The answer of a sum for one place.
ghost use Rattle.std.specs.Prelude.{◌≡◌, ◌<◌, length};
ghost use Rattle.rules.specs.SumRows.{terms_of};
ghost use Rattle.rules.specs.Sums.{sum_rule};

use crate::sums::adding::add_others;
use crate::sums::cutting::{at_least, at_most};
use crate::sums::row::SumRow;
use crate::sums::term::Relation;
use books::Place;
use spans::Amount;

// What the sum leaves of the board's span at the place.
pub(super) fn sum_answer(row: &SumRow, place: Place, board: &[Amount]) -> Amount
    requires place { place < length board.now }
    requires whole { row.now.places ≡ length board.now }
    ensures { result ≡ (sum_rule row.now.relation row.now.bound (terms_of row.now)).answer place board.now }
{
    let span = board[place as usize];
    let terms = row.terms();
    let bound = row.bound();
    let Some(others) = add_others(terms, place, board) else {
        return span;
    };
    let coefficient = terms[others.asked].coefficient;
    let under = bound - others.low;
    let over = bound - others.high;
    match row.relation() {
        Relation::AtMost => at_most(span, coefficient, under),
        Relation::AtLeast => at_least(span, coefficient, over),
        Relation::Equal => {
            let below = at_most(span, coefficient, under);
            at_least(below, coefficient, over)
        }
    }
}
