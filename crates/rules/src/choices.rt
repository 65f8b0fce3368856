// Rules over choices: pairs of tokens that go together, and tokens that have to differ.
pub mod apart;
pub mod arc;
pub mod book;
pub mod pair;
pub mod row;
pub mod side;
pub mod token;
mod tokens;

pub use apart::{ApartRow, kept_apart};
pub use arc::{arc_consistency, settled_is_all_arc_consistent};
pub use book::ChoiceBook;
pub use pair::PairRow;
pub use row::ChoiceRow;
pub use side::Side;
pub use token::TokenPair;

#[cfg(test)]
mod tests;
