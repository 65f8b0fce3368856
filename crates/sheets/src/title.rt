// The title: the first line of a sheet.
ghost use Rattle.std.specs.Prelude.{◌≡◌};
ghost use Rattle.sheets.specs.Titles.{title_of};

use crate::fault::SheetFault;

// The kind of span that a sheet speaks of.
#[derive(Clone, Copy, PartialEq, Eq, Debug)]
pub enum SpanKind {
    Amounts,
    Choices,
}

// Read by the whole line, and not by its fields, which is for the records of a sheet.
// The kind of span that the title of a game names; fault 6 for any other line.
pub fn game_title(line: &[u8]) -> Result<SpanKind, SheetFault>
    ensures { result ≡ title_of line.now }
{
    if line == b"game\tamounts".as_slice() {
        Ok(SpanKind::Amounts)
    } else if line == b"game\tchoices".as_slice() {
        Ok(SpanKind::Choices)
    } else {
        Err(SheetFault::Title)
    }
}
