// Rows: what a table of rules holds of each rule, and the books made of them.
ghost use Rattle.std.specs.Prelude.{◌≡◌, ℕ, ◌&&◌, ◌==◌, List, length, Some, None, nat_lt, slice_get, if◌then◌else◌};
ghost use Rattle.books.specs.Boards.{has};
ghost use Rattle.books.specs.Meaning.{Rule, Sound};
ghost use Rattle.rules.specs.RowBooks.{RowLaw};

use books::Place;
use spans::Span;

pub mod book;

pub use book::RowBook;

// A rule that stands in a table, for boards of so many places.
pub trait Row: Copy {
    // the kind of span that the rule speaks of
    type Span: Span;

    // how many places the boards have that the row is for
    ghost boards: { Self → ℕ };

    // the rule that it means
    ghost rule: { Self → Rule Self.Span };

    // which boards with no empty span are consistent for it
    ghost consistent: { Self → List Self.Span → Type 0 };

    // Does nothing. Its contract is that the rule of each row keeps the laws of rules on the boards that it is for, and that these
    // are settled under it, where no span is empty, exactly when they are consistent.
    fn lawful()
        ensures sound { (row : Self) → Sound Self.Span.Span.kind (boards row) (rule row) }
        ensures settled { RowLaw Self.Span.Span.kind boards rule consistent };

    // How many places the boards have that it is for.
    fn places(&self) -> Place
        ensures { result ≡ boards self.now };

    // How many places it has.
    fn scope_len(&self) -> u8
        ensures { result ≡ length (rule self.now).scope };

    // Its places, in order, counted from 0; none past the last.
    fn scope_at(&self, i: u8) -> Option<Place>
        ensures { result ≡ slice_get (rule self.now).scope i };

    // Whether the rule has the place.
    fn has_place(&self, place: Place) -> bool
        ensures { result ≡ has place (rule self.now).scope };

    // Whether the place is one of a board of so many places as the row is for.
    fn is_on(&self, place: Place, board: &[Self::Span]) -> bool
        ensures { result ≡ (length board.now == boards self.now && nat_lt place (boards self.now)) }
    {
        board.len() == self.places() as usize && place < self.places()
    }

    // Its answer for a place on a board; none where the board has another count of places, or not the place.
    fn answer_on(&self, place: Place, board: &[Self::Span]) -> Option<Self::Span>
        ensures { result ≡ (if length board.now == boards self.now && nat_lt place (boards self.now) then Some ((rule self.now).answer place board.now) else None) };
}
