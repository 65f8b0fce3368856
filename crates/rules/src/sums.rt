// Sums on amounts: the total of coefficient times number, over up to 16 places, stands in a relation to a bound.
mod adding;
mod answers;
pub mod book;
mod cutting;
pub mod row;
pub mod term;
pub mod theorems;

pub use book::SumBook;
pub use row::{SumRow, uses_place};
pub use term::{Relation, Term};

#[cfg(test)]
mod tests;
