// What holds of sums, in the words of constraint programming. Each of these functions does nothing: what it ensures is the theorem.
ghost use Rattle.rules.specs.SumConsistency.{ExactLaw, BoundsLaw, ArcLaw, SettledLaw};
ghost use Rattle.rules.specs.SumExamples.{EvenLaw};

use crate::sums::book::SumBook;
use crate::sums::row::SumRow;

// An answer keeps exactly the numbers with which the sum can still stand in its relation, going by the least and the greatest products elsewhere.
pub fn answers_are_exact(row: &SumRow)
    ensures { ExactLaw row.now }
{}

// A board without an empty span is settled under a sum exactly when the sum is bounds consistent there.
pub fn settled_is_bounds_consistent(row: &SumRow)
    ensures { BoundsLaw row.now }
{}

// A bounds-consistent sum of the relation `<=` or `>=` is arc consistent.
pub fn inequality_is_arc_consistent(row: &SumRow)
    ensures { ArcLaw row.now }
{}

// A board is settled for a book of sums exactly when it has no empty span and each of its sums is bounds consistent there.
pub fn settled_is_all_consistent(book: &SumBook)
    ensures { SettledLaw book.now.places book.now.rows.now }
{}

// 2A + 2B + 2C = 3 strikes nothing from spans 0..1, though no holding obeys it.
pub fn bounds_are_not_support()
    ensures { EvenLaw }
{}
