ghost use Rattle.std.specs.Prelude.{T, length};
ghost use Rattle.rules.specs.Fews.{listed};
ghost use Rattle.rules.specs.ChoiceTests.{is_pair_row};

use super::token::TokenPair;
use crate::few::Few;
use books::Place;

mod methods;

// How many pairs a rule lists at most.
pub const MOST_PAIRS: usize = 100;

// A rule that lists the pairs of tokens that its two places may have. It is for boards of so many places, and has 1 to 100
// pairs. The place count and the two places are fields here and in an apart rule, and no struct of their own: each is read
// alone, by name, where the rules of a sheet are shown.
#[derive(Clone, Copy)]
pub struct PairRow {
    pub places: Place,
    pub first: Place,
    pub second: Place,
    pub pairs: Few<TokenPair, MOST_PAIRS>,
    ghost ok: { T (is_pair_row places first second (length (listed pairs))) },
}
