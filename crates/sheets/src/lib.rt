// The sheet layer above the text: what the lines of a rule sheet have to be.
#![tactic(auto)]

pub mod fault;
pub mod outline;
#[cfg(test)]
mod tests;
pub mod title;

pub use fault::SheetFault;
pub use outline::read_outline;
pub use title::{SpanKind, game_title};
