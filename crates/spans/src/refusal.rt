ghost use Rattle.std.specs.Prelude.{◌≡◌};
ghost use Rattle.spans.specs.Refusals.{refusal_number};

// Why a span is not made. Such a refusal names no place and no rule.
#[derive(Clone, Copy, PartialEq, Eq, Debug)]
pub enum SpanRefusal {
    // the floor of an amount above its ceiling, or one of them beyond a million
    AmountBounds,
}

impl SpanRefusal {
    // The number by which the game is told. No trait of refusals: it would have a table for each type all the same.
    pub fn number(self) -> u8
        ensures { result ≡ refusal_number self }
    {
        match self {
            SpanRefusal::AmountBounds => 19,
        }
    }
}
