// The edges of each layer.
use crate::*;
use std::test::Fail;

const HERE: At = At { line: 7, field: 2 };

#[test]
fn line_lengths(rt: HostRuntime) {
    let mut sheet = [b'a'; 1026];
    sheet[1024] = b'\n';
    assert_eq!(rt; line_count(&sheet[0..1025]), Ok(1), "1,024 bytes pass");
    assert_eq!(rt;
        line_count(&sheet[0..1024]),
        Err(TextFault::Unended { line: 1 })
    );
    sheet[1024] = b'a';
    assert_eq!(rt;
        line_count(&sheet[0..1025]),
        Err(TextFault::TooLong { line: 1 }),
        "too long before it is unended"
    );
    sheet[1025] = b'\n';
    assert_eq!(rt;
        line_count(&sheet),
        Err(TextFault::TooLong { line: 1 }),
        "1,025 bytes do not pass"
    );
    assert_eq!(rt; line_count(b""), Ok(0));
    assert_eq!(rt; line_count(b"a\n\nb"), Err(TextFault::Unended { line: 3 }));
}

#[test]
fn sheet_sizes(rt: HostRuntime) {
    let sheet = [b'\n'; 65536];
    assert_eq!(rt; line_count(&sheet[0..65535]), Ok(65535));
    assert_eq!(rt; line_count(&sheet), Err(TextFault::TooBig));
}

#[test]
fn fields_of_a_line(rt: HostRuntime) {
    assert_eq!(rt; field_count(b""), 1);
    assert_eq!(rt; field_count(b"\ta\t"), 3);
    let mut fields = Fields::new(b"ab\t");
    assert!(rt; fields.next() == Some(b"ab"));
    assert!(rt; fields.next() == Some(b""));
    assert!(rt; fields.next() == None);
}

#[test]
fn spellings(rt: HostRuntime) {
    assert_eq!(rt; number(b"0"), Some(0));
    assert_eq!(rt; number(b"-0"), None);
    assert_eq!(rt; number(b"00"), None);
    assert_eq!(rt; number(b"-"), None);
    assert_eq!(rt; number(b""), None);
    assert_eq!(rt; number(b"+1"), None);
    assert_eq!(rt; number(b"9999999999999"), Some(9999999999999));
    assert_eq!(rt; number(b"-9999999999999"), Some(-9999999999999));
    assert_eq!(rt; number(b"10000000000000"), None, "14 digits");
    assert_eq!(rt; number_within(b"5", 0, 5, HERE), Ok(5));
    assert_eq!(rt;
        number_within(b"6", 0, 5, HERE),
        Err(FieldFault::OutOfRange(HERE))
    );
    assert_eq!(rt;
        number_within(b"6x", 0, 5, HERE),
        Err(FieldFault::Malformed(HERE))
    );
}

fn is_a_name(bytes: &[u8]) -> bool {
    name(bytes, HERE).is_ok()
}

#[test]
fn name_bytes(rt: HostRuntime) {
    let long = [b'x'; 25];
    assert!(rt; is_a_name(&long[0..24]));
    assert!(rt; !is_a_name(&long));
    assert!(rt; !is_a_name(b""));
    assert!(rt; !is_a_name(&[31]));
    assert!(rt; is_a_name(&[32, 126, 128]));
    assert!(rt; !is_a_name(&[127]));
    assert!(rt; same_name(b"wool", b"wool"));
    assert!(rt; !same_name(b"wool", b"woo"));
}

#[test]
fn faults_are_told(rt: HostRuntime) {
    let fault = FieldFault::Text(TextFault::TooLong { line: 9 });
    assert_eq!(rt; (fault.number(), fault.line(), fault.field()), (3, 9, 0));
    let fault = FieldFault::OutOfRange(HERE);
    assert_eq!(rt; (fault.number(), fault.line(), fault.field()), (5, 7, 2));
}

#[test]
fn told_text(rt: HostRuntime) -> Result<(), Fail> {
    let told = FieldFault::OutOfRange(HERE).told();
    assert_eq!(rt; told.to_string(rt.alloc())?.as_str(), "5\t7\t2");
    Ok(())
}
