// The parts of a sum.
use books::Place;

// How the total of a sum is to stand to its bound.
#[derive(Clone, Copy, PartialEq, Eq, Debug)]
pub enum Relation {
    AtMost,
    AtLeast,
    Equal,
}

// One summand: a coefficient, and the place whose number it multiplies.
#[derive(Clone, Copy, PartialEq, Eq, Debug)]
pub struct Term {
    pub coefficient: i32,
    pub place: Place,
}
