// Counts of places and rules: a book has them, a position keeps them, and the memory of its calls is measured by them.
ghost use Rattle.std.specs.Prelude.{◌≡◌};
ghost use Rattle.engine.specs.Lent.{counted, memory_checked};

use crate::refusal::Refusal;
use books::{Book, Place, RuleNumber};

// How many places and rules there are.
#[derive(Clone, Copy, PartialEq, Eq)]
pub(crate) struct Counts {
    pub places: Place,
    pub rules: RuleNumber,
}

impl Counts {
    // The counts of a book.
    pub fn of<B: Book>(book: &B) -> Counts
        ensures { result ≡ counted (B.Book.meaning book.now) }
    {
        Counts {
            places: book.places(),
            rules: book.rules(),
        }
    }

    // Whether the memory that a call settles in is long enough.
    #[tactic(auto, unfolding(crate::specs::Calls::enough))]
    pub fn check_memory<S>(self, board: &[S], working: &[S], waiting: &[u8]) -> Result<(), Refusal>
        ensures { result ≡ memory_checked self board.now working.now waiting.now }
    {
        let places = self.places as usize;
        let rules = self.rules as usize;
        if board.len() < places || working.len() < places || waiting.len() < rules {
            return Err(Refusal::TooShort);
        }
        Ok(())
    }
}
