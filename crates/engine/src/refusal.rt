// Why a call on a position is refused.
ghost use Rattle.std.specs.Prelude.{◌≡◌, Some};
ghost use Rattle.engine.specs.Refusals.{refusal_number, refusal_place, refusal_rule, refusal_text};

use books::{NO_PLACE, NO_RULE, Place, RuleNumber};
use std::fmt;

// A refusal has a number, and may name a place and a rule.
#[derive(Clone, Copy, PartialEq, Eq, Debug)]
pub enum Refusal {
    // a piece of memory is too short for the counts
    TooShort,
    // the book counts other places or rules than the position
    OtherBook,
    // the place given is not counted
    NoSuchPlace { place: Place },
    // the board has an empty span, here at the lowest place
    EmptySpan { place: Place },
    // a limit shares no number with the span of its place
    NothingShared { place: Place },
    // a rule empties a span
    Emptied { place: Place, rule: RuleNumber },
    // no whole board is left on the keep
    KeepFull,
    // no mark stands
    NoMark,
    // a place does not admit exactly one number, here the lowest such place
    NotOneNumber { place: Place },
}

impl Refusal {
    // The number by which the game is told. No trait of refusals: it would have a table for each type all the same.
    pub fn number(self) -> u8
        ensures { result ≡ refusal_number self }
    {
        match self {
            Refusal::TooShort => 12,
            Refusal::NoSuchPlace { .. } => 13,
            Refusal::EmptySpan { .. } | Refusal::NothingShared { .. } => 14,
            Refusal::Emptied { .. } => 15,
            Refusal::KeepFull => 16,
            Refusal::NoMark => 17,
            Refusal::NotOneNumber { .. } => 18,
            Refusal::OtherBook => 20,
        }
    }

    // The place named, or the place that is none. A number and not an `Option`: 255 is what the game is told.
    pub fn place(self) -> Place
        ensures { result ≡ refusal_place self }
    {
        match self {
            Refusal::NoSuchPlace { place }
            | Refusal::EmptySpan { place }
            | Refusal::NothingShared { place }
            | Refusal::Emptied { place, .. }
            | Refusal::NotOneNumber { place } => place,
            Refusal::TooShort | Refusal::OtherBook | Refusal::KeepFull | Refusal::NoMark =>
                NO_PLACE,
        }
    }

    // The rule named, or the rule that is none. A number and not an `Option`: 65,535 is what the game is told.
    pub fn rule(self) -> RuleNumber
        ensures { result ≡ refusal_rule self }
    {
        match self {
            Refusal::Emptied { rule, .. } => rule,
            _ => NO_RULE,
        }
    }
}

// Its number, place and rule, with tabs between.
impl fmt::Display for Refusal {
    ghost output = { λ refusal. Some (refusal_text refusal) };

    fn fmt<W: fmt::Write>(&self, f: &mut fmt::Formatter<W>) -> fmt::Result {
        write!(f, "{}\t{}\t{}", self.number(), self.place(), self.rule())
    }
}
