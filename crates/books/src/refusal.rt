ghost use Rattle.std.specs.Prelude.{◌≡◌};
ghost use Rattle.books.specs.Refusals.{refusal_number};

// Why two books are not joined. Such a refusal names no place and no rule.
#[derive(Clone, Copy, PartialEq, Eq, Debug)]
pub enum JoinRefusal {
    // they count different places
    OtherPlaces,
    // they have more than 1,000 rules together
    TooManyRules,
}

impl JoinRefusal {
    // The number by which the game is told. No trait of refusals: it would have a table for each type all the same.
    pub fn number(self) -> u8
        ensures { result ≡ refusal_number self }
    {
        match self {
            JoinRefusal::OtherPlaces => 20,
            JoinRefusal::TooManyRules => 20,
        }
    }
}
