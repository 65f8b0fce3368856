// Lines of rules in sheets, of which some cannot be read.
use crate::rule_line;

#[test]
fn counted_through_both(rt: HostRuntime) {
    let game = b"game\tamounts\nplace\ta\t0\t9\nplace\tb\t0\t9\nsum\tmost\t9\t1\ta\napart\ta\tb\n";
    let expansion = b"expansion\tamounts\npair\ta\tb\t1\t2\n";
    assert_eq!(rt;
        rule_line(game, expansion, 0),
        b"sum\tmost\t9\t1\ta".as_slice()
    );
    assert_eq!(rt; rule_line(game, expansion, 1), b"apart\ta\tb".as_slice());
    assert_eq!(rt;
        rule_line(game, expansion, 2),
        b"pair\ta\tb\t1\t2".as_slice()
    );
    assert_eq!(rt;
        rule_line(game, expansion, 3),
        b"".as_slice(),
        "beyond both"
    );
    assert_eq!(rt; rule_line(game, expansion, 65535), b"".as_slice());
}

#[test]
fn ended_lines_with_a_word(rt: HostRuntime) {
    assert_eq!(rt;
        rule_line(b"sum", b"apart\n", 0),
        b"apart".as_slice(),
        "a last line without byte 10"
    );
    assert_eq!(rt;
        rule_line(b"summ\nsum\t\n", b"", 0),
        b"sum\t".as_slice(),
        "another word"
    );
    assert_eq!(rt;
        rule_line(b"", b"\n\npair\n", 0),
        b"pair".as_slice(),
        "empty lines"
    );
}

#[test]
fn long_line(rt: HostRuntime) {
    let mut sheet = [b'x'; 1030];
    sheet[0] = b's';
    sheet[1] = b'u';
    sheet[2] = b'm';
    sheet[3] = b'\t';
    sheet[1029] = b'\n';
    assert_eq!(rt; rule_line(&sheet, b"pair\n", 0).len(), 1029);
    assert_eq!(rt; rule_line(&sheet, b"pair\n", 1), b"pair".as_slice());
}
