// What may be wrong with a sheet's text and with one field, a type for each layer.
// Each fault has a number, the line where it stands (lines count from 1) and the field (fields count from 0).
ghost use Rattle.std.specs.Prelude.{◌≡◌, Some};
ghost use Rattle.text.specs.declared.fault.Told.{Told};
ghost use Rattle.text.specs.declared.fault.FieldFault.TheVariants.{Text};
ghost use Rattle.text.specs.Faults.{told_at, told_text, text_told, field_told};

use std::fmt;

// A field of a line of the sheet.
#[derive(Clone, Copy, PartialEq, Eq, Debug)]
pub struct At {
    pub line: usize,
    pub field: usize,
}

// What is told of a fault: its number, its line (0 for the sheet as a whole) and its field.
#[derive(Clone, Copy, PartialEq, Eq, Debug)]
pub struct Told {
    pub number: u8,
    pub line: usize,
    pub field: usize,
}

impl Told {
    // A fault at a line as a whole stands at its field 0.
    pub fn of_line(number: u8, line: usize) -> Told
        ensures { result ≡ told_at number line 0 }
    {
        Told {
            number,
            line,
            field: 0,
        }
    }

    // A fault at a field.
    pub fn of_field(number: u8, at: At) -> Told
        ensures { result ≡ told_at number at.line at.field }
    {
        Told {
            number,
            line: at.line,
            field: at.field,
        }
    }
}

// The number, the line and the field, with tabs between.
impl fmt::Display for Told {
    ghost output = { λ t. Some (told_text t) };

    fn fmt<W: fmt::Write>(&self, f: &mut fmt::Formatter<W>) -> fmt::Result {
        write!(f, "{}\t{}\t{}", self.number, self.line, self.field)
    }
}

// A fault of one layer. Each layer says once what is told of its faults.
pub trait Fault: Copy {
    // what is told of each fault
    ghost told: { Self → Told };

    fn told(self) -> Told
        ensures { result ≡ told self };

    fn number(self) -> u8
        ensures { result ≡ (told self).number }
    {
        self.told().number
    }

    fn line(self) -> usize
        ensures { result ≡ (told self).line }
    {
        self.told().line
    }

    fn field(self) -> usize
        ensures { result ≡ (told self).field }
    {
        self.told().field
    }
}

// Faults of the sheet's text.
#[derive(Clone, Copy, PartialEq, Eq, Debug)]
pub enum TextFault {
    // the sheet has more than 65,535 bytes
    TooBig,
    // the last line has no byte 10 behind it
    Unended { line: usize },
    // a line has more than 1,024 bytes before its end
    TooLong { line: usize },
}

impl Fault for TextFault {
    ghost told = { text_told };

    fn told(self) -> Told {
        match self {
            TextFault::TooBig => Told::of_line(1, 0),
            TextFault::Unended { line } => Told::of_line(2, line),
            TextFault::TooLong { line } => Told::of_line(3, line),
        }
    }
}

// Faults of one field, and those of the text below it.
#[derive(Clone, Copy, PartialEq, Eq, Debug)]
pub enum FieldFault {
    Text(TextFault),
    // neither a number nor a name nor whatever the field should be
    Malformed(At),
    // a number outside the range asked
    OutOfRange(At),
}

impl From<TextFault> for FieldFault {
    ghost from_gives = { λ fault r. r ≡ Text fault };

    fn from(fault: TextFault) -> FieldFault {
        FieldFault::Text(fault)
    }
}

impl Fault for FieldFault {
    ghost told = { field_told };

    fn told(self) -> Told {
        match self {
            FieldFault::Text(fault) => fault.told(),
            FieldFault::Malformed(at) => Told::of_field(4, at),
            FieldFault::OutOfRange(at) => Told::of_field(5, at),
        }
    }
}
