ghost use Rattle.std.specs.Prelude.{T};
ghost use Rattle.rules.specs.Fews.{listed};
ghost use Rattle.rules.specs.SumTerms.{sum_test};

use crate::few::Few;
use crate::sums::term::{Relation, Term};
use books::Place;

mod methods;

pub use methods::uses_place;

// How many terms a sum may have.
pub const MOST_TERMS: usize = 16;

// A sum: its terms, and how their total is to stand to the bound. It is for boards of so many places.
#[derive(Clone, Copy)]
pub struct SumRow {
    places: Place,
    relation: Relation,
    bound: i64,
    terms: Few<Term, MOST_TERMS>,
    ghost ok: { T (sum_test places bound (listed terms)) },
}
