// The rules of the games: rows that hold them, and books made of rows.
#![tactic(auto)]

pub mod choices;
pub mod few;
pub mod rows;
pub mod sums;
pub mod worked;
