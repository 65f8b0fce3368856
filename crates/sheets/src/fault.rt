// What may be wrong with a sheet as a whole, above the faults of its fields and its text.
ghost use Rattle.std.specs.Prelude.{◌≡◌};
ghost use Rattle.sheets.specs.declared.fault.SheetFault.TheVariants.{Field};
ghost use Rattle.sheets.specs.Faults.{sheet_told};

use text::{At, Fault, FieldFault, Told};

#[derive(Clone, Copy, PartialEq, Debug)]
pub enum SheetFault {
    Field(FieldFault),
    // no line at all, or a first line that is not the title asked for
    Title,
    // a word that no record has, that the other kind of sheet has, or that is misplaced
    Word { line: usize },
    // a wrong count of fields
    Count { line: usize },
    // a name that is declared twice, unknown, or twice in a rule
    Name(At),
    // no table entry is left, or there are over 254 places or 1,000 rules
    Full { line: usize },
    // a game without a place; the line is the last one
    NoPlace { line: usize },
}

impl From<FieldFault> for SheetFault {
    ghost from_gives = { λ fault r. r ≡ Field fault };

    fn from(fault: FieldFault) -> SheetFault {
        SheetFault::Field(fault)
    }
}

impl Fault for SheetFault {
    ghost told = { sheet_told };

    fn told(self) -> Told {
        match self {
            SheetFault::Field(fault) => fault.told(),
            SheetFault::Title => Told::of_line(6, 1),
            SheetFault::Word { line } => Told::of_line(7, line),
            SheetFault::Count { line } => Told::of_line(8, line),
            SheetFault::Name(at) => Told::of_field(9, at),
            SheetFault::Full { line } => Told::of_line(10, line),
            SheetFault::NoPlace { line } => Told::of_line(11, line),
        }
    }
}
