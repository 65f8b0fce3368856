ghost use Rattle.std.specs.Prelude.{◌≡◌, ℕ, ◌&&◌, pos};
ghost use Rattle.spans.specs.Choices.{Exactly, choice_admits};
ghost use Rattle.rules.specs.TokenSets.{keeping};
ghost use Rattle.rules.specs.ChoiceRows.{PairAsked, pairs_of};
ghost use Rattle.rules.specs.ChoiceRules.{joins, some_pair};

use super::PairRow;
use crate::choices::apart::are_two_places;
use crate::choices::side::Side;
use crate::choices::token::TokenPair;
use crate::choices::tokens::has_token;
use crate::few::Few;
use books::Place;
use spans::{Choice, Span};

// The tokens on a side that some of the pairs joins to a token that the other span admits.
fn joined(pairs: &[TokenPair], side: Side, other: Choice) -> Choice
    ensures { Exactly result (λ t. some_pair (joins side other t) pairs.now) }
{
    // A loop and not a chain: a fold would hand the choice found so far from turn to turn as well, beside a filter.
    let mut found = Choice::empty();
    for pair in pairs {
        if has_token(other, pair.on(side.across())) {
            found = found.with(pair.on(side));
        }
    }
    found
}

impl PairRow {
    // The rule of two places on boards of so many that lists these pairs, and none where these are not two different places,
    // or not 1 to 100 pairs.
    pub fn new(places: Place, first: Place, second: Place, pairs: &[TokenPair]) -> Option<PairRow>
        ensures { PairAsked places first second pairs.now result }
    {
        if !are_two_places(places, first, second) || pairs.is_empty() {
            return None;
        }
        Some(PairRow {
            places,
            first,
            second,
            pairs: Few::from_slice(pairs, pairs[0])?,
        })
    }

    // What the rule leaves of the span of the place on a side, by the span of the other place: the tokens that some listed pair
    // joins to a token that the other span admits.
    pub fn kept(&self, side: Side, span: Choice, other: Choice) -> Choice
        ensures value { result ≡ keeping span (λ t. some_pair (joins side other t) (pairs_of self.now)) }
        ensures admits { (t : ℕ) → choice_admits result (pos t) ≡ (choice_admits span (pos t) && some_pair (joins side other t) (pairs_of self.now)) }
    {
        span.common(joined(self.pairs.as_slice(), side, other))
    }
}
