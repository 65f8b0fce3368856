// The engine: calls on a position, for every kind of span and every rule book.
#![tactic(auto)]

mod counts;
mod keep;
pub mod laws;
pub mod position;
pub mod refusal;
pub mod sweep;

pub use position::Position;
pub use position::finish::{check_finish, finish};
pub use position::limits::limit;
pub use position::marks::{back, mark};
pub use position::opening::{Opened, opening};
pub use refusal::Refusal;
pub use sweep::Strikes;
