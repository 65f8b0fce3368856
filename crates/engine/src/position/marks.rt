// Marks: copies of the board on the keep, to go back to.
ghost use Rattle.std.specs.Prelude.{◌≡◌, ◌*◌};
ghost use Rattle.engine.specs.Lent.{keep_checked, MarkCall, BackCall};

use super::Position;
use crate::keep::{push, restore};
use crate::refusal::Refusal;
use spans::Span;

// How many spans the boards of the standing marks take.
fn kept_spans(position: &Position) -> u128
    ensures { result ≡ position.now.marks * position.now.counts.places }
{
    position.marks as u128 * position.counts.places as u128
}

// Whether a board of so many spans has every place, and a keep of so many holds the boards of the marks.
fn check_keep(position: &Position, board: usize, keep: usize) -> Result<(), Refusal>
    ensures { result ≡ keep_checked position.now board keep }
{
    if board < position.counts.places as usize || (keep as u128) < kept_spans(position) {
        return Err(Refusal::TooShort);
    }
    Ok(())
}

// Puts a copy of the board on the keep.
#[tactic(auto, unfolding(crate::specs::Calls::mark_reply, crate::specs::Calls::holds, crate::specs::Calls::marked, crate::specs::Calls::shown))]
pub fn mark<S: Span>(position: &mut Position, board: &[S], keep: &mut [S]) -> Result<(), Refusal>
    ensures { MarkCall position.old board.now keep.old result position.new keep.new }
{
    check_keep(position, board.len(), keep.len())?;
    let size = position.counts.places as usize;
    if keep.len() - position.marks * size < size {
        return Err(Refusal::KeepFull);
    }
    push(keep, position.marks, size, board);
    position.marks += 1;
    Ok(())
}

// Restores the board of the latest standing mark, and removes that mark.
#[tactic(auto, unfolding(crate::specs::Calls::back_reply, crate::specs::Calls::holds, crate::specs::Calls::back_to))]
pub fn back<S: Span>(position: &mut Position, board: &mut [S], keep: &[S]) -> Result<(), Refusal>
    ensures { BackCall position.old board.old keep.now result position.new board.new }
{
    check_keep(position, board.len(), keep.len())?;
    if position.marks == 0 {
        return Err(Refusal::NoMark);
    }
    let below = position.marks - 1;
    restore(keep, below, position.counts.places as usize, board);
    position.marks = below;
    Ok(())
}
