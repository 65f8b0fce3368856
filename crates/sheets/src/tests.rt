// Sheets with and without an outline.
use crate::*;
use text::{Fault, FieldFault, TextFault};

// A sheet's kind and count of lines, or its fault.
fn outlined(sheet: &[u8]) -> Result<(SpanKind, usize), SheetFault> {
    let outline = read_outline(sheet)?;
    Ok((outline.kind, outline.lines))
}

#[test]
fn titles(rt: HostRuntime) {
    assert_eq!(rt; outlined(b"game\tamounts\n"), Ok((SpanKind::Amounts, 1)));
    assert_eq!(rt;
        outlined(b"game\tchoices\nplace\tp\t3\n"),
        Ok((SpanKind::Choices, 2))
    );
    assert_eq!(rt; outlined(b""), Err(SheetFault::Title));
    assert_eq!(rt; outlined(b"\n"), Err(SheetFault::Title));
    assert_eq!(rt; outlined(b"expansion\tamounts\n"), Err(SheetFault::Title));
    assert_eq!(rt; outlined(b"game\tamounts\t\n"), Err(SheetFault::Title));
}

#[test]
fn first_fault(rt: HostRuntime) {
    let unended = SheetFault::Field(FieldFault::Text(TextFault::Unended { line: 2 }));
    assert_eq!(rt; outlined(b"game\tamounts\nplace"), Err(unended));
    assert_eq!(rt;
        outlined(b"game\nplace"),
        Err(SheetFault::Title),
        "line 1 comes first"
    );
    assert_eq!(rt;
        (unended.number(), unended.line(), unended.field()),
        (2, 2, 0)
    );
}
