// The title: the first line of a sheet.
ghost use Rattle.std.specs.Prelude.{◌≡◌};
ghost use Rattle.records.specs.Titles.{sheet_word, span_word, title_checked, first_kind, kind_of_line};

use crate::kind::SheetKind;
use crate::record::{Record, line_record};
use sheets::{SheetFault, SpanKind};
use text::Lines;

// Whether the bytes are the word of such a sheet. This and the next are one test for each enum: a trait for both would only
// name their words.
fn is_sheet(bytes: &[u8], sheet: SheetKind) -> bool
    ensures { result ≡ sheet_word sheet bytes.now }
{
    match sheet {
        SheetKind::Game => bytes == b"game".as_slice(),
        SheetKind::Expansion => bytes == b"expansion".as_slice(),
    }
}

// Whether the bytes are the word of such spans.
fn is_span(bytes: &[u8], kind: SpanKind) -> bool
    ensures { result ≡ span_word kind bytes.now }
{
    match kind {
        SpanKind::Amounts => bytes == b"amounts".as_slice(),
        SpanKind::Choices => bytes == b"choices".as_slice(),
    }
}

// Fault 6 unless the line is the title that is asked for.
pub fn check_title(asked: SheetKind, kind: SpanKind, line: &[u8]) -> Result<(), SheetFault>
    ensures { result ≡ title_checked asked kind line.now }
{
    let Some(Record::Title { sheet, span }) = line_record(kind, line) else {
        return Err(SheetFault::Title);
    };
    if !is_sheet(sheet, asked) || !is_span(span, kind) {
        return Err(SheetFault::Title);
    }
    Ok(())
}

// The kind of span that a line names as the title of a game: choices, or else amounts.
fn line_kind(line: &[u8]) -> SpanKind
    ensures { result ≡ kind_of_line line.now }
{
    if check_title(SheetKind::Game, SpanKind::Choices, line).is_ok() {
        SpanKind::Choices
    } else {
        SpanKind::Amounts
    }
}

// The kind of span that a game is to be read for: choices where its first line is the title of a game of choices, or else
// amounts. A sheet that is no game is refused with the same fault for either kind.
pub fn title_kind(sheet: &[u8]) -> SpanKind
    ensures { result ≡ first_kind sheet.now }
{
    let mut lines = Lines::new(sheet);
    match lines.next() {
        Ok(Some(line)) => line_kind(line),
        Ok(None) | Err(_) => SpanKind::Amounts,
    }
}
