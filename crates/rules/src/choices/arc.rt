// Arc consistency: what it means that a board is settled under rules over choices.
ghost use Rattle.rules.specs.ArcConsistency.{ArcLaw, ArcBookLaw};

use crate::choices::book::ChoiceBook;

// Does nothing. Its contract is that a board with no empty span is settled under a pair rule or an apart rule exactly when it is
// arc consistent.
pub fn arc_consistency()
    ensures { ArcLaw }
{}

// Does nothing. Its contract is that a board with no empty span is settled under a book of such rules exactly when it is arc
// consistent for every row of the book that was made for its count of places.
pub fn settled_is_all_arc_consistent(book: &ChoiceBook)
    ensures { ArcBookLaw book.now.places book.now.rows.now }
{}
