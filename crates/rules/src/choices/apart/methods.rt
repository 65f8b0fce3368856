ghost use Rattle.std.specs.Prelude.{◌≡◌, ℕ, not, ◌&&◌, pos};
ghost use Rattle.spans.specs.Choices.{choice_admits};
ghost use Rattle.rules.specs.ChoiceTests.{two_places_test};
ghost use Rattle.rules.specs.TokenSets.{keeping};
ghost use Rattle.rules.specs.ChoiceRows.{ApartAsked};
ghost use Rattle.rules.specs.ChoiceRules.{admits_only};

use super::ApartRow;
use crate::choices::tokens::only_token;
use books::Place;
use spans::Choice;

// Whether these are two different places of a board of so many.
pub(crate) fn are_two_places(places: Place, first: Place, second: Place) -> bool
    ensures { result ≡ two_places_test places first second }
{
    first < places && second < places && first != second
}

// What the rule leaves of a span, by the span of the other place: all but the one token that the other span admits.
pub fn kept_apart(span: Choice, other: Choice) -> Choice
    ensures value { result ≡ keeping span (λ t. not (admits_only other t)) }
    ensures admits { (t : ℕ) → choice_admits result (pos t) ≡ (choice_admits span (pos t) && not (admits_only other t)) }
{
    // A match, and no `map_or`: behind that the check left both facts of the contract open.
    match only_token(other) {
        Some(token) => span.without(token),
        None => span,
    }
}

impl ApartRow {
    // The rule of two places on boards of so many, and none where these are not two different places.
    pub fn new(places: Place, first: Place, second: Place) -> Option<ApartRow>
        ensures { ApartAsked places first second result }
    {
        if are_two_places(places, first, second) {
            return Some(ApartRow {
                places,
                first,
                second,
            });
        }
        None
    }
}
