ghost use Rattle.std.specs.Prelude.{◌≡◌};
ghost use Rattle.rules.specs.Sides.{across, on};

// The two places of a rule between two places.
#[derive(Clone, Copy, PartialEq, Eq, Debug)]
pub enum Side {
    First,
    Second,
}

impl Side {
    // The other side.
    pub fn across(self) -> Side
        ensures { result ≡ across self }
    {
        match self {
            Side::First => Side::Second,
            Side::Second => Side::First,
        }
    }

    // Of two, the one on the side.
    pub fn of<T: Copy>(self, first: T, second: T) -> T
        ensures { result ≡ on self first second }
    {
        match self {
            Side::First => first,
            Side::Second => second,
        }
    }
}
