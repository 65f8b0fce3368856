// What the other terms of a sum come to, at the least and at the most.
ghost use Rattle.std.specs.Prelude.{◌≡◌, ◌<◌, ◌≤◌, T, length};
ghost use Rattle.rules.specs.SumTerms.{is_coefficient, terms_test};
ghost use Rattle.rules.specs.Sums.{least_product_of, greatest_product_of, asked_in};
ghost use Rattle.rules.specs.SumPasses.{passed};

use crate::sums::term::Term;
use books::Place;
use spans::{Amount, Span};

// The products of a coefficient and the numbers of a span lie between these two.
#[derive(Clone, Copy)]
struct Products {
    least: i64,
    greatest: i64,
}

// The least product of the coefficient and a number of the span, and the greatest.
fn products_of(coefficient: i32, span: Amount) -> Products
    requires { T (is_coefficient coefficient) }
    ensures least { result.least ≡ least_product_of coefficient span }
    ensures greatest { result.greatest ≡ greatest_product_of coefficient span }
{
    let at_floor = coefficient as i64 * span.floor() as i64;
    let at_ceiling = coefficient as i64 * span.ceiling() as i64;
    if 0 < coefficient {
        Products {
            least: at_floor,
            greatest: at_ceiling,
        }
    } else {
        Products {
            least: at_ceiling,
            greatest: at_floor,
        }
    }
}

// What a pass over the terms finds for a place: the index of its term, and what the other terms come to, at the least and at the most.
#[derive(Clone, Copy)]
pub(super) struct Others {
    pub asked: usize,
    pub low: i64,
    pub high: i64,
}

// One pass over the terms, for a place. It finds nothing at another place, and nothing where a place of the terms has an empty span.
pub(super) fn add_others(terms: &[Term], place: Place, board: &[Amount]) -> Option<Others>
    requires terms { T (terms_test (length board.now) terms.now) }
    requires few { length terms.now ≤ 16 }
    ensures { result ≡ passed terms.now board.now (asked_in terms.now place board.now) }
{
    let mut found = None;
    let mut low = 0;
    let mut high = 0;
    for (i, t) in terms.iter().enumerate() {
        let span = board[t.place as usize];
        if span.is_empty() {
            return None;
        }
        if t.place == place {
            found = Some(i);
        } else {
            let products = products_of(t.coefficient, span);
            low += products.least;
            high += products.greatest;
        }
    }
    let asked = found?;
    Some(Others { asked, low, high })
}
