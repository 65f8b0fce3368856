// How choices are made and changed, and that they are spans.
ghost use Rattle.std.specs.Prelude.{Some, false, not, ◌&&◌, ◌||◌, pos, ◌==◌, nat_eq, nat_lt};
ghost use Rattle.spans.specs.Masks.{Marks};
ghost use Rattle.spans.specs.Choices.{Exactly, choice_admits};
ghost use Rattle.spans.specs.ChoiceKind.{choices};
ghost use Rattle.spans.specs.Texts.{choice_text};

use super::Choice;
use crate::Span;
use std::fmt;

// How many tokens there are.
const TOKENS: u8 = 64;

// The mask of one token alone. A number above 63 is no token, and its mask has no bit.
fn mask_of(token: u8) -> u64
    ensures { Marks result (λ t. nat_eq t token) }
{
    if token < TOKENS { 1 << token } else { 0 }
}

impl Choice {
    // The choice of no token.
    pub fn empty() -> Choice
        ensures { Exactly result (λ _. false) }
    {
        Choice { mask: 0 }
    }

    // The choice of the tokens 0 to count - 1: all 64 of them where the count is 64 or more.
    pub fn first(count: u8) -> Choice
        ensures { Exactly result (λ t. nat_lt t count) }
    {
        if count >= TOKENS {
            return Choice { mask: u64::MAX };
        }
        Choice {
            mask: (1 << count) - 1,
        }
    }

    // The choice of one token, or of none where the number is above 63.
    pub fn only(token: u8) -> Choice
        ensures { Exactly result (λ t. nat_eq t token) }
    {
        Choice {
            mask: mask_of(token),
        }
    }

    // The choice with the token added. A number above 63 changes nothing.
    pub fn with(self, token: u8) -> Choice
        ensures { Exactly result (λ t. choice_admits self (pos t) || t == token) }
    {
        Choice {
            mask: self.mask | mask_of(token),
        }
    }

    // The choice with the token struck. A number above 63 changes nothing.
    pub fn without(self, token: u8) -> Choice
        ensures { Exactly result (λ t. choice_admits self (pos t) && not (t == token)) }
    {
        Choice {
            mask: self.mask & !mask_of(token),
        }
    }
}

impl Span for Choice {
    ghost kind = { choices };

    fn common(self, other: Choice) -> Choice {
        Choice {
            mask: self.mask & other.mask,
        }
    }

    fn count(self) -> u32 {
        self.mask.count_ones()
    }

    fn admits(self, number: i32) -> bool {
        // A test and a cast: behind `try_from`, the numbers 64 to 255, which have no bit, would be one more case to prove.
        if number < 0 || number >= TOKENS as i32 {
            return false;
        }
        self.mask & mask_of(number as u8) != 0
    }

    fn least(self) -> Option<i32> {
        (self.mask != 0).then_some(self.mask.trailing_zeros() as i32)
    }
}

// Its tokens between braces, as `{ 0 5 }`.
impl fmt::Display for Choice {
    ghost output = { λ c. Some (choice_text c) };

    fn fmt<W: fmt::Write>(&self, f: &mut fmt::Formatter<W>) -> fmt::Result {
        f.write_str("{")?;
        for token in 0..TOKENS {
            if self.admits(token as i32) {
                write!(f, " {token}")?;
            }
        }
        f.write_str(" }")
    }
}
