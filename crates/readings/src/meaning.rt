// What a sheet that was read means: a book over its rules, and the board that its places open.
ghost use Rattle.std.specs.Prelude.{◌≡◌, min, map, length};
ghost use Rattle.rules.specs.RowBooks.{row_book_of};
ghost use Rattle.records.specs.Places.{place_shown};
ghost use Rattle.readings.specs.Books.{BookLaw, Opened};

use crate::sheet::Sheet;
use records::{BookRow, Names, RuleRow};
use rules::rows::{Row, RowBook};
use spans::Span;

// The book of a sheet: its rules, over boards of its places.
pub fn book<'t, R: BookRow>(sheet: &Sheet<'t, '_, R>) -> RowBook<'t, R>
    ensures places { result.places ≡ min (length sheet.now.places.now) 254 }
    ensures rules { result.rows ≡ sheet.now.rules }
    ensures law { BookLaw result.places (map R.RuleRow.holds result.rows.now) (row_book_of ⟦<<R as Row>::Span as Span>⟧.kind R.boards R.rule result.places result.rows.now) }
{
    R::means();
    let names = Names::new(sheet.places);
    RowBook::new(names.count(), sheet.rules)
}

// Writes the opening spans of a sheet's places into a board, as far as the board reaches.
pub fn write_board<R: RuleRow>(sheet: &Sheet<R>, board: &mut [R::Span])
    ensures { Opened R.Span.Span.kind R.RuleRow.sheets (map place_shown sheet.now.places.now) board.old board.new }
{
    let places = sheet.places;
    // By index: over a zipped `iter_mut` a proof knows nothing of what is written, and a numbered one would index the places.
    for i in 0..places.len().min(board.len()) {
        board[i] = R::open(places[i].opening);
    }
}
