// A stack of boards of one size in lent memory, for every kind of span. How many boards stand on it is told by the caller: the
// keep is lent anew at each call, once to be written and once to be read, so that a struct around it would keep nothing.
ghost use Rattle.std.specs.Prelude.{◌≡◌, ◌+◌, ◌*◌, ◌≤◌, ◌++◌, length, take, drop};

// Puts a copy of the board on top of the boards that stand.
pub(crate) fn push<S: Copy>(stack: &mut [S], standing: usize, size: usize, board: &[S])
    requires room { standing * size + size ≤ length stack.old }
    requires board { size ≤ length board.now }
    ensures { stack.new ≡ take (standing * size) stack.old ++ (take size board.now ++ drop (standing * size + size) stack.old) }
{
    let at = standing * size;
    stack[at..at + size].copy_from_slice(&board[0..size]);
}

// Copies the board that stands on so many others back; the stack stays as it is.
pub(crate) fn restore<S: Copy>(stack: &[S], below: usize, size: usize, board: &mut [S])
    requires room { below * size + size ≤ length stack.now }
    requires board { size ≤ length board.old }
    ensures { board.new ≡ take size (drop (below * size) stack.now) ++ drop size board.old }
{
    let at = below * size;
    board[0..size].copy_from_slice(&stack[at..at + size]);
}
