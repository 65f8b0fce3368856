// How amounts are made, and that they are spans.
ghost use Rattle.std.specs.Prelude.{◌≡◌, ◌&&◌, ℤ, Some, IfOk};
ghost use Rattle.spans.specs.Bounds.{bounded};
ghost use Rattle.spans.specs.Amounts.{asked, amount_admits, amount_from, from_to, no_amount};
ghost use Rattle.spans.specs.AmountKind.{amounts};
ghost use Rattle.spans.specs.Texts.{amount_text};

use super::Amount;
use crate::Span;
use crate::refusal::SpanRefusal;
use std::fmt;

const MILLION: i32 = 1_000_000;

// Whether an amount may be asked for with this floor and this ceiling.
fn are_bounds(floor: i32, ceiling: i32) -> bool
    ensures { result ≡ bounded floor ceiling }
{
    -MILLION <= floor && floor <= ceiling && ceiling <= MILLION
}

impl Amount {
    // The amount from the floor to the ceiling, unless the floor is above the ceiling or one of them is beyond a million.
    pub fn new(floor: i32, ceiling: i32) -> Result<Amount, SpanRefusal>
        ensures value { result ≡ asked floor ceiling }
        ensures ends { IfOk result (λ a. (a.floor ≡ floor) × (a.ceiling ≡ ceiling)) }
    {
        if are_bounds(floor, ceiling) {
            Ok(Amount { floor, ceiling })
        } else {
            Err(SpanRefusal::AmountBounds)
        }
    }

    // The same, but the empty amount where `new` refuses. It tests the bounds itself: through `new` it would make a refusal to
    // throw it away.
    pub fn between(floor: i32, ceiling: i32) -> Amount
        ensures value { result ≡ amount_from floor ceiling }
        ensures admits { (x : ℤ) → amount_admits result x ≡ (bounded floor ceiling && from_to floor ceiling x) }
    {
        if are_bounds(floor, ceiling) {
            return Amount { floor, ceiling };
        }
        Amount::empty()
    }

    // The amount that admits nothing.
    pub fn empty() -> Amount
        ensures { result ≡ no_amount }
    {
        Amount {
            floor: 1,
            ceiling: 0,
        }
    }
}

impl Span for Amount {
    ghost kind = { amounts };

    fn common(self, other: Amount) -> Amount {
        Amount::between(self.floor.max(other.floor), self.ceiling.min(other.ceiling))
    }

    fn count(self) -> u32 {
        (self.ceiling - self.floor + 1) as u32
    }

    fn admits(self, number: i32) -> bool {
        self.floor <= number && number <= self.ceiling
    }

    fn least(self) -> Option<i32> {
        (self.floor <= self.ceiling).then_some(self.floor)
    }
}

// Its floor, two dots and its ceiling.
impl fmt::Display for Amount {
    ghost output = { λ a. Some (amount_text a) };

    fn fmt<W: fmt::Write>(&self, f: &mut fmt::Formatter<W>) -> fmt::Result {
        write!(f, "{}..{}", self.floor, self.ceiling)
    }
}
