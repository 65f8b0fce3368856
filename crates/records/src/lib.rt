// The records of rule sheets: one line as a title, a place or a rule, with every check that a line has to pass.
// Nothing here copies a byte of the sheet: names and fields are parts of it.
#![tactic(auto)]

pub mod kind;
pub mod names;
mod numbers;
pub mod places;
pub mod record;
pub mod row;
mod sums;
pub mod title;
mod two;
mod twos;

pub use kind::SheetKind;
pub use names::Names;
pub use places::{Opening, PlaceRow, read_place};
pub use record::{Word, line_word};
pub use row::{BookRow, RuleRow};
pub use sheets::{SheetFault, SpanKind};
pub use title::{check_title, title_kind};
