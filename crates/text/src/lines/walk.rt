// Reading a sheet line by line.
ghost use Rattle.std.specs.Prelude.{◌≡◌};
ghost use Rattle.text.specs.Lines.{left, line_next, shown_line, size_checked, sheet_lines, counted, LinesLaw};

use super::Lines;
use crate::fault::TextFault;
use crate::part::length_before;

// A sheet has at most 65,535 bytes, and a line at most 1,024 before its end.
const SHEET_BYTES: usize = 65535;

const LINE_BYTES: usize = 1024;

// Fault 1 where the sheet is too big.
pub fn check_size(sheet: &[u8]) -> Result<(), TextFault>
    ensures { result ≡ size_checked sheet.now }
{
    if sheet.len() > SHEET_BYTES {
        return Err(TextFault::TooBig);
    }
    Ok(())
}

// How many lines the sheet has, or its first fault.
pub fn line_count(sheet: &[u8]) -> Result<usize, TextFault>
    ensures count { result ≡ counted (sheet_lines sheet.now) }
    ensures law { LinesLaw sheet.now }
{
    check_size(sheet)?;
    let mut lines = Lines::new(sheet);
    while let Some(_) = lines.next()? {}
    Ok(lines.read())
}

impl<'s> Lines<'s> {
    // A reader before the first line of the sheet, however long that is.
    pub fn new(sheet: &'s [u8]) -> Lines<'s>
        ensures sheet { result.sheet ≡ sheet.entry }
        ensures read { result.read ≡ 0 }
        ensures left { left result ≡ sheet.now }
    {
        Lines {
            sheet,
            offset: 0,
            read: 0,
        }
    }

    // The next line without its byte 10; nothing at the sheet's end.
    // No `Iterator`: a fault leaves the reader where it was and is answered again for ever, so no loop over it would be proved to
    // end.
    pub fn next(&mut self) -> Result<Option<&'s [u8]>, TextFault>
        ensures answer { shown_line result ≡ (line_next self.old.read (left self.old)).answer }
        ensures left { left self.new ≡ (line_next self.old.read (left self.old)).left }
        ensures read { self.new.read ≡ (line_next self.old.read (left self.old)).read }
        ensures sheet { self.new.sheet ≡ self.old.sheet }
    {
        let sheet = self.sheet;
        let rest = &sheet[self.offset..];
        if rest.is_empty() {
            return Ok(None);
        }
        let n = length_before(b'\n', rest);
        let line = self.read + 1;
        if n > LINE_BYTES {
            return Err(TextFault::TooLong { line });
        }
        if n >= rest.len() {
            return Err(TextFault::Unended { line });
        }
        self.offset += n + 1;
        self.read = line;
        Ok(Some(&rest[..n]))
    }
}
