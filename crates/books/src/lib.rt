// Rule books: what a book of rules is, whatever its rules and whatever the kind of its spans.
#![tactic(auto)]

ghost use Rattle.std.specs.Prelude.{◌≡◌, ℕ, ◌<◌, ◌≤◌, length, slice_index};
ghost use Rattle.books.specs.Meaning.{Meaning, Lawful};
ghost use Rattle.books.specs.Boards.{has};
ghost use Rattle.books.specs.Waking.{woken};

use spans::Span;

pub mod joined;
pub mod refusal;

pub use joined::{Joined, join};
pub use refusal::JoinRefusal;

// A place of a board, counted from 0: a book counts 1 to 254 of them.
pub type Place = u8;

// The place that is none: the number that the game is told, and so no `Option`.
pub const NO_PLACE: Place = 255;

// A rule of a book, counted from 0: a book counts up to 1,000 of them.
pub type RuleNumber = u16;

// The rule that is none, told in the same way.
pub const NO_RULE: RuleNumber = 65535;

// A book of rules over boards, which have one span for each place. Only a rule and a place that it counts may be asked for.
// That stands in each contract: a type for counted rules would have to hold the book that counts them.
pub trait Book {
    // the kind of span that the book speaks of
    type Span: Span;

    // what the book means
    ghost meaning: { Self → Meaning Self.Span };

    // Does nothing. Its contract is that the book keeps the laws of books.
    fn lawful(&self)
        ensures { Lawful Self.Span.Span.kind (meaning self.now) };

    // How many places a board has.
    fn places(&self) -> Place
        ensures { result ≡ (meaning self.now).places };

    // How many rules there are.
    fn rules(&self) -> RuleNumber
        ensures { result ≡ (meaning self.now).rules };

    // How many places a rule has.
    fn scope_len(&self, rule: RuleNumber) -> u8
        requires { rule < (meaning self.now).rules }
        ensures { result ≡ length ((meaning self.now).rule rule).scope };

    // The places of a rule, in order, counted from 0.
    fn scope_at(&self, rule: RuleNumber, i: u8) -> Place
        requires rule { rule < (meaning self.now).rules }
        requires i { i < length ((meaning self.now).rule rule).scope }
        ensures { result ≡ slice_index ((meaning self.now).rule rule).scope i };

    // The answer of a rule for a place, on a whole board.
    fn answer(&self, rule: RuleNumber, place: Place, board: &[Self::Span]) -> Self::Span
        requires rule { rule < (meaning self.now).rules }
        requires place { place < (meaning self.now).places }
        requires whole { length board.now ≡ (meaning self.now).places }
        ensures { result ≡ ((meaning self.now).rule rule).answer place board.now };

    // Whether a rule has the place.
    fn has_place(&self, rule: RuleNumber, place: Place) -> bool
        requires { rule < (meaning self.now).rules }
        ensures { result ≡ has place ((meaning self.now).rule rule).scope }
    {
        (0..self.scope_len(rule)).any(|i| place == self.scope_at(rule, i))
    }

    // Sets every rule that has the place to waiting. A book that knows the rules of a place may be faster. The list is one of
    // bytes, and not of `bool`, since that is what the game hands in.
    fn wake(&self, place: Place, waiting: &mut [u8])
        requires { (meaning self.now).rules ≤ length waiting.old }
        ensures { waiting.new ≡ woken (meaning self.now) place waiting.old }
    {
        // By number: over a zipped `iter_mut` a proof knows nothing of what is written, and a numbered one would cast its index.
        for rule in 0..self.rules() {
            if self.has_place(rule, place) {
                waiting[rule as usize] = 1;
            }
        }
    }
}
