// The lowest layer of a rule sheet: its bytes as lines, a line as fields, a field as a number or a name.
// Nothing here copies a byte of the sheet: lines, fields and names are parts of it.
#![tactic(auto)]

pub mod fault;
pub mod fields;
pub mod lines;
pub mod names;
pub mod numbers;
pub mod part;
#[cfg(test)]
mod tests;

pub use fault::{At, Fault, FieldFault, TextFault, Told};
pub use fields::{Fields, field_count};
pub use lines::Lines;
pub use lines::walk::{check_size, line_count};
pub use names::{name, same_name};
pub use numbers::{number, number_within};
pub use part::length_before;
