ghost use Rattle.std.specs.Prelude.{◌≡◌};
ghost use Rattle.rules.specs.ChoiceRows.{TokensAsked};
ghost use Rattle.rules.specs.ChoiceRules.{token_on};

use super::TokenPair;
use crate::choices::side::Side;

// How many tokens there are.
const TOKENS: u8 = 64;

impl TokenPair {
    // The pair of two tokens, and none where a number is above 63.
    pub fn new(first: u8, second: u8) -> Option<TokenPair>
        ensures { TokensAsked first second result }
    {
        if first < TOKENS && second < TOKENS {
            return Some(TokenPair { first, second });
        }
        None
    }

    // The token on a side.
    pub fn on(self, side: Side) -> u8
        ensures { result ≡ token_on self side }
    {
        side.of(self.first, self.second)
    }
}
