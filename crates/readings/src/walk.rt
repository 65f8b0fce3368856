// A walk along the lines of a sheet.
ghost use Rattle.std.specs.Prelude.{◌≡◌};
ghost use Rattle.readings.specs.Lines.{lines_left, next_of, lines_after, read_after, raised, shown_next};
ghost use Rattle.readings.specs.Tables.{first_place, after_place, read_place, shown_bytes};

use records::{Word, line_word};
use text::{FieldFault, Lines};

// The next line, if there is one, or the fault of its text.
pub(crate) fn next_line<'s>(lines: &mut Lines<'s>) -> Result<Option<&'s [u8]>, FieldFault>
    ensures answer { shown_next result ≡ raised (next_of lines.old.read (lines_left lines.old)) }
    ensures left { lines_left lines.new ≡ lines_after (lines_left lines.old) }
    ensures read { lines.new.read ≡ read_after lines.old.read (lines_left lines.old) }
{
    Ok(lines.next()?)
}

// The next line, where that is a place line; the walk stays where it is before any other.
pub(crate) fn next_place<'s>(lines: &mut Lines<'s>) -> Option<&'s [u8]>
    ensures answer { shown_bytes result ≡ first_place (lines_left lines.old) }
    ensures left { lines_left lines.new ≡ after_place (lines_left lines.old) }
    ensures read { lines.new.read ≡ read_place lines.old.read (lines_left lines.old) }
{
    let mut ahead = *lines;
    let Ok(Some(line)) = next_line(&mut ahead) else {
        return None;
    };
    match line_word(line) {
        Some(Word::Place) => {
            *lines = ahead;
            Some(line)
        }
        _ => None,
    }
}
