// Whole sheets: the tables that their lines fill, the books and boards over those, and the lines of their rules.
#![tactic(auto)]

mod calls;
mod filling;
pub mod meaning;
mod reading;
pub mod rule_lines;
#[cfg(test)]
mod rule_tests;
pub mod sheet;
mod walk;

pub use calls::{read_expansion, read_game};
pub use meaning::{book, write_board};
pub use rule_lines::rule_line;
pub use sheet::{Refused, Sheet};
