// A position, which the calls of a game go by.
ghost use Rattle.std.specs.Prelude.{◌≤◌};

use crate::counts::Counts;

pub mod finish;
pub mod limits;
pub mod marks;
pub mod opening;
mod settling;

// The counts of the book that it was opened with, and how many marks stand. Only a granted opening makes a position, and it is no
// copy of another.
#[derive(Drop)]
pub struct Position {
    counts: Counts,
    marks: usize,
    ghost some: { 1 ≤ counts.places },
}
