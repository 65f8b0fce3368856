// What a sheet's lines and its title tell before its records are read.
ghost use Rattle.std.specs.Prelude.{◌≡◌};
ghost use Rattle.sheets.specs.Outlines.{first_line_of, shown_first, line_total_of, outline_of};

use crate::fault::SheetFault;
use crate::title::{SpanKind, game_title};
use text::{FieldFault, Lines, check_size, line_count};

// The kind of span that a sheet speaks of, and how many lines it has.
#[derive(Clone, Copy)]
pub struct Outline {
    pub kind: SpanKind,
    pub lines: usize,
}

// The first line of a sheet that is not too big.
fn first_line(sheet: &[u8]) -> Result<Option<&[u8]>, FieldFault>
    ensures { shown_first result ≡ first_line_of sheet.now }
{
    check_size(sheet)?;
    Ok(Lines::new(sheet).next()?)
}

// The outline of a game sheet, or the first fault that its text and its title show.
pub fn read_outline(sheet: &[u8]) -> Result<Outline, SheetFault>
    ensures { result ≡ outline_of sheet.now }
{
    let first = first_line(sheet)?.ok_or(SheetFault::Title)?;
    let kind = game_title(first)?;
    let lines = line_count(sheet).map_err(FieldFault::from)?;
    Ok(Outline { kind, lines })
}
