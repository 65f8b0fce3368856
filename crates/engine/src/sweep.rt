// Settling: sweeps over the rules that wait, until one has no strike.
ghost use Rattle.std.specs.Prelude.{◌≡◌, ◌+◌, ◌*◌, ◌≤◌, length};
ghost use Rattle.books.specs.Boards.{Full};
ghost use Rattle.books.specs.Sweeps.{total};
ghost use Rattle.engine.specs.Skims.{skim, skimmed};
ghost use Rattle.engine.specs.Lent.{skim_told};

use books::{Book, Place, RuleNumber};
use spans::Span;

// A count of strikes.
pub type Strikes = u32;

// A place that a rule leaves without a number.
#[derive(Clone, Copy)]
pub(crate) struct EmptiedBy {
    pub place: Place,
    pub rule: RuleNumber,
}

// One sweep over the rules that wait, by rising number, each rule's places in its order. It goes on from so many strikes.
// A rule waits no more when its visit begins; a strike makes every rule of its place wait.
// Loops and no chain: a strike changes the board and the waiting list that the next visit reads. The facts on these two stand
// in each contract that needs them, since a struct that borrows both needs as many clauses.
pub(crate) fn sweep<B: Book>(
    book: &B,
    board: &mut [B::Span],
    waiting: &mut [u8],
    start: Strikes,
) -> Result<Strikes, EmptiedBy>
    requires full { Full B.Span.Span.kind (B.Book.meaning book.now).places board.old }
    requires waiting { (B.Book.meaning book.now).rules ≤ length waiting.old }
    requires few { total B.Span.Span.kind board.old + start ≤ 2000001 * 254 }
    ensures { skim_told result board.new waiting.new ≡ skim B.Span.Span.kind (B.Book.meaning book.now) board.old waiting.old start }
{
    book.lawful();
    let mut strikes = start;
    let emptied = 'rules: {
        for rule in 0..book.rules() {
            if waiting[rule as usize] == 0 {
                continue;
            }
            waiting[rule as usize] = 0;
            for i in 0..book.scope_len(rule) {
                let place = book.scope_at(rule, i);
                let old = board[place as usize];
                let new = book.answer(rule, place, board);
                if new.is_empty() {
                    break 'rules Some(EmptiedBy { place, rule });
                }
                if new.is_narrower(old) {
                    board[place as usize] = new;
                    book.wake(place, waiting);
                    strikes += 1;
                }
            }
        }
        None
    };
    // Left by the label with a place and a rule, or at the end of all rules: each is an answer of its own, and proved so.
    match emptied {
        Some(by) => Err(by),
        None => Ok(strikes),
    }
}

// Sweeps until one has no strike; every rule waits at first. The list is of bytes and no flags, since the game hands in bytes.
pub(crate) fn settle<B: Book>(
    book: &B,
    board: &mut [B::Span],
    waiting: &mut [u8],
) -> Result<Strikes, EmptiedBy>
    requires full { Full B.Span.Span.kind (B.Book.meaning book.now).places board.old }
    requires waiting { (B.Book.meaning book.now).rules ≤ length waiting.old }
    ensures { skim_told result board.new waiting.new ≡ skimmed B.Span.Span.kind (B.Book.meaning book.now) board.old waiting.old }
{
    book.lawful();
    waiting[0..book.rules() as usize].fill(1);
    let mut strikes = 0;
    loop {
        let after = sweep(book, board, waiting, strikes)?;
        if after == strikes {
            return Ok(strikes);
        }
        strikes = after;
    }
}
