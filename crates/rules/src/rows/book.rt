ghost use Rattle.std.specs.Prelude.{◌≡◌, ℕ, ◌<◌, ◌≤◌, [], ◌∷◌, length, MatchOption};
ghost use Rattle.books.specs.Meaning.{Meaning, Lawful, idle};
ghost use Rattle.rules.specs.BookCounts.{place_count};
ghost use Rattle.rules.specs.RowBooks.{row_book_of, RowBookLaw};

use super::Row;
use books::{Book, Place, RuleNumber};

// The most places and the most rules that a book counts.
const MOST_PLACES: Place = 254;

const MOST_RULES: usize = 1000;

// The rules of these rows, on boards of so many places.
#[derive(Clone, Copy)]
pub struct RowBook<'t, R: Row> {
    places: Place,
    rows: &'t [R],
}

impl<'t, R: Row> RowBook<'t, R> {
    // The book of these rows. It counts at least 1 place and at most 254, and of the rows at most 1,000. A row that was made for
    // boards of another count of places is a rule that changes nothing. A board with no empty span is settled under the book
    // exactly when it is consistent for every row that was made for its count of places.
    pub fn new(places: Place, rows: &'t [R]) -> RowBook<'t, R>
        ensures holds { (result.places ≡ places) × (result.rows ≡ rows.entry) }
        ensures consistent { RowBookLaw R.Span.Span.kind R.boards R.rule R.consistent places rows.now }
    {
        R::lawful();
        RowBook { places, rows }
    }

    // The row of a number, if it was made for the book's count of places.
    fn fitting_row(&self, rule: RuleNumber) -> Option<&'t R>
        requires { rule < (row_book_of R.Span.Span.kind R.boards R.rule self.now.places self.now.rows.now).rules }
        ensures { let book = row_book_of R.Span.Span.kind R.boards R.rule self.now.places self.now.rows.now in MatchOption result (book.rule rule ≡ idle R.Span.Span.kind (0 ∷ [])) (λ row. (R.boards row.now ≡ book.places) × (book.rule rule ≡ R.rule row.now)) }
    {
        let row = &self.rows[rule as usize];
        // An `if`, and no filter of `Some(row)`: with that the proof was left open.
        if row.places() == self.places() {
            Some(row)
        } else {
            None
        }
    }
}

impl<'t, R: Row> Book for RowBook<'t, R> {
    type Span = R::Span;

    ghost meaning = { λ b. row_book_of R.Span.Span.kind R.boards R.rule b.places b.rows.now };

    fn lawful(&self) {
        R::lawful();
    }

    fn places(&self) -> Place {
        self.places.clamp(1, MOST_PLACES)
    }

    fn rules(&self) -> RuleNumber {
        self.rows.len().min(MOST_RULES) as RuleNumber
    }

    fn scope_len(&self, rule: RuleNumber) -> u8 {
        self.fitting_row(rule).map_or(1, |row| row.scope_len())
    }

    fn scope_at(&self, rule: RuleNumber, i: u8) -> Place {
        self.fitting_row(rule)
            .and_then(|row| row.scope_at(i))
            .unwrap_or(0)
    }

    // Asked of the row whole, which tests once that it fits, and not for each of its places.
    fn has_place(&self, rule: RuleNumber, place: Place) -> bool {
        self.fitting_row(rule)
            .map_or(place == 0, |row| row.has_place(place))
    }

    fn answer(&self, rule: RuleNumber, place: Place, board: &[R::Span]) -> R::Span {
        self.fitting_row(rule)
            .and_then(|row| row.answer_on(place, board))
            .unwrap_or(board[place as usize])
    }
}
