// How the rows of sums are made and read.
ghost use Rattle.std.specs.Prelude.{◌≡◌, ◌≤◌, length};
ghost use Rattle.rules.specs.SumTerms.{bound_test, term_test, sum_test, terms_test};
ghost use Rattle.rules.specs.SumRows.{Made, boards_of, terms_of, uses};
ghost use Rattle.rules.specs.SumBooks.{rule_of};
ghost use Rattle.rules.specs.SumConsistency.{BoundsConsistent};

use super::{MOST_TERMS, SumRow};
use crate::few::Few;
use crate::rows::Row;
use crate::sums::answers::sum_answer;
use crate::sums::term::{Relation, Term};
use books::Place;
use spans::Amount;

const MOST_BOUND: i64 = 1_000_000_000_000;

const MOST_COEFFICIENT: i32 = 10_000;

const BLANK: Term = Term {
    coefficient: 0,
    place: 0,
};

// Whether a sum may have this bound.
fn is_bound(bound: i64) -> bool
    ensures { result ≡ bound_test bound }
{
    (-MOST_BOUND..=MOST_BOUND).contains(&bound)
}

// Whether the term may stand in a sum on boards of so many places.
fn is_term(places: Place, t: Term) -> bool
    ensures { result ≡ term_test places t }
{
    (-MOST_COEFFICIENT..=MOST_COEFFICIENT).contains(&t.coefficient)
        && t.coefficient != 0
        && t.place < places
}

// Whether one of the terms has the place.
pub fn uses_place(terms: &[Term], place: Place) -> bool
    ensures { result ≡ uses terms.now place }
{
    terms.iter().any(|t| place == t.place)
}

// Whether each term may stand in a sum, and no place stands twice.
fn are_terms(places: Place, terms: &[Term]) -> bool
    ensures { result ≡ terms_test places terms.now }
{
    match terms {
        [] => true,
        [t, rest @ ..] => is_term(places, *t)
            && !uses_place(rest, t.place)
            && are_terms(places, rest),
    }
}

// Whether a row may be made of these.
fn is_sum(places: Place, bound: i64, terms: &[Term]) -> bool
    ensures { result ≡ sum_test places bound terms.now }
{
    is_bound(bound) && (1..=MOST_TERMS).contains(&terms.len()) && are_terms(places, terms)
}

impl SumRow {
    // The sum of these terms, on boards of so many places; none where these are no sum.
    pub fn new(places: Place, relation: Relation, bound: i64, terms: &[Term]) -> Option<SumRow>
        ensures { Made places relation bound terms.now result }
    {
        if !is_sum(places, bound, terms) {
            return None;
        }
        Some(SumRow {
            places,
            relation,
            bound,
            terms: Few::from_slice(terms, BLANK)?,
        })
    }

    // How the total is to stand to the bound.
    pub fn relation(&self) -> Relation
        ensures { result ≡ self.now.relation }
    {
        self.relation
    }

    // What the total is compared with.
    pub fn bound(&self) -> i64
        ensures { result ≡ self.now.bound }
    {
        self.bound
    }

    // The terms, in order.
    pub fn terms(&self) -> &[Term]
        ensures { result.now ≡ terms_of self.now }
    {
        self.terms.as_slice()
    }
}

impl Row for SumRow {
    type Span = Amount;

    ghost boards = { boards_of };

    ghost rule = { rule_of };

    ghost consistent = { BoundsConsistent };

    fn lawful() {}

    fn places(&self) -> Place {
        self.places
    }

    fn scope_len(&self) -> u8 {
        self.terms().len() as u8
    }

    fn scope_at(&self, i: u8) -> Option<Place> {
        self.terms().get(i as usize).map(|t| t.place)
    }

    fn has_place(&self, place: Place) -> bool {
        uses_place(self.terms(), place)
    }

    fn answer_on(&self, place: Place, board: &[Amount]) -> Option<Amount> {
        if !self.is_on(place, board) {
            return None;
        }
        Some(sum_answer(self, place, board))
    }
}
