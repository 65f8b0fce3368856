// Two books of one kind of span as one: the first's rules, and then the second's.
ghost use Rattle.std.specs.Prelude.{◌≡◌, ℕ, ◌+◌, ◌<◌, ◌≤◌, length, Ok, Err, MatchResult};
ghost use Rattle.books.specs.Meaning.{Meaning, Lawful};
ghost use Rattle.books.specs.Joining.{joined, join_checked};

use crate::refusal::JoinRefusal;
use crate::{Book, Place, RuleNumber};
use spans::Span;

const MOST_RULES: u32 = 1000;

// Two books joined. That they fit is no invariant: with it, to ask the second for the places would be no mistake, and no edit
// that does so would be refused.
#[derive(Drop)]
pub struct Joined<'a, 'b, A: Book, B: Book<Span = A::Span>> {
    first: &'a A,
    second: &'b B,
}

// Whether two books can be joined.
fn check_join<A: Book, B: Book<Span = A::Span>>(first: &A, second: &B) -> Result<(), JoinRefusal>
    ensures { result ≡ join_checked (A.Book.meaning first.now) (B.Book.meaning second.now) }
{
    if first.places() != second.places() {
        return Err(JoinRefusal::OtherPlaces);
    }
    if first.rules() as u32 + second.rules() as u32 > MOST_RULES {
        return Err(JoinRefusal::TooManyRules);
    }
    Ok(())
}

// Joins two books of as many places, that have at most 1,000 rules together.
pub fn join<'a, 'b, A: Book, B: Book<Span = A::Span>>(
    first: &'a A,
    second: &'b B,
) -> Result<Joined<'a, 'b, A, B>, JoinRefusal>
    ensures { MatchResult result (λ j. (join_checked (A.Book.meaning first.now) (B.Book.meaning second.now) ≡ Ok tt) × (j.first ≡ first.entry) × (j.second ≡ second.entry)) (λ e. join_checked (A.Book.meaning first.now) (B.Book.meaning second.now) ≡ Err e) }
{
    check_join(first, second)?;
    Ok(Joined { first, second })
}

impl<'a, 'b, A: Book, B: Book<Span = A::Span>> Book for Joined<'a, 'b, A, B> {
    type Span = A::Span;

    ghost meaning = { λ j. joined (A.Book.meaning j.first.now) (B.Book.meaning j.second.now) };

    fn lawful(&self) {
        self.first.lawful();
        self.second.lawful();
    }

    fn places(&self) -> Place {
        self.first.places()
    }

    fn rules(&self) -> RuleNumber {
        // A match, and no `map_or`: the two counts are alike, and stand one above the other.
        match check_join(self.first, self.second) {
            Ok(()) => self.first.rules() + self.second.rules(),
            Err(_) => self.first.rules(),
        }
    }

    fn scope_len(&self, rule: RuleNumber) -> u8 {
        let n = self.first.rules();
        if rule < n {
            return self.first.scope_len(rule);
        }
        self.second.scope_len(rule - n)
    }

    fn scope_at(&self, rule: RuleNumber, i: u8) -> Place {
        let n = self.first.rules();
        if rule < n {
            return self.first.scope_at(rule, i);
        }
        self.second.scope_at(rule - n, i)
    }

    fn has_place(&self, rule: RuleNumber, place: Place) -> bool {
        let n = self.first.rules();
        if rule < n {
            return self.first.has_place(rule, place);
        }
        self.second.has_place(rule - n, place)
    }

    fn answer(&self, rule: RuleNumber, place: Place, board: &[A::Span]) -> A::Span {
        let n = self.first.rules();
        if rule < n {
            return self.first.answer(rule, place, board);
        }
        self.second.answer(rule - n, place, board)
    }
}
