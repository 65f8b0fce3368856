// The laws of the engine: functions that do nothing, and whose contracts are the laws, for whatever book is handed in.
ghost use Rattle.engine.specs.Settling.{SweepsLaw};
ghost use Rattle.engine.specs.Skims.{PassingLaw};
ghost use Rattle.engine.specs.History.{HistoryLaw};

use books::Book;

// Sweeps leave the widest settled board inside a board, or show that none lies inside it.
#[tactic(auto, using(crate::proofs::Sweeping::sweeps_law_lem))]
pub fn sweeps_law<B: Book>(book: &B)
    ensures { SweepsLaw B.Span.Span.kind (B.Book.meaning book.now) }
{
    book.lawful();
}

// Passing over the rules that do not wait changes neither the board left nor the strikes, nor the place and the rule of a refusal.
#[tactic(auto, using(crate::proofs::Passing::passing_law_lem))]
pub fn passing_law<B: Book>(book: &B)
    ensures { PassingLaw B.Span.Span.kind (B.Book.meaning book.now) }
{
    book.lawful();
}

// What every history of a position shows, grants and refuses, by its opening board and the limits in force alone.
#[tactic(auto, using(crate::proofs::Law::history_law_lem))]
pub fn history_law<B: Book>(book: &B)
    ensures { HistoryLaw B.Span.Span.kind (B.Book.meaning book.now) }
{
    book.lawful();
}
