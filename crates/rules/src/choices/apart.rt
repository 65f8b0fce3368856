ghost use Rattle.std.specs.Prelude.{T};
ghost use Rattle.rules.specs.ChoiceTests.{two_places_test};

use books::Place;

mod methods;

pub(crate) use methods::are_two_places;
pub use methods::kept_apart;

// A rule that its two places have different tokens. It is for boards of so many places.
#[derive(Clone, Copy, PartialEq, Eq, Debug)]
pub struct ApartRow {
    pub places: Place,
    pub first: Place,
    pub second: Place,
    ghost ok: { T (two_places_test places first second) },
}
