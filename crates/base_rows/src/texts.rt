//! Rows of the lines and the pieces of a text.
use hl_base::{Kind, cut_items, next_line};
use std::test::Fail;

#[test]
fn cuts_each_kind(rt: HostRuntime) -> Result<(), Fail> {
    let text = b"; a\n\n  x\n2024 a\n  b\n\t; c\ncomment\n2024\nend comment\t\nP 1\r\n y\n";
    let pieces = cut_items(rt.alloc(), text)?;
    let expected = [
        (0, 5, 1, Kind::Gap),
        (5, 4, 3, Kind::Stray),
        (9, 16, 4, Kind::Entry),
        (25, 26, 7, Kind::Block),
        (51, 8, 10, Kind::Head),
    ];
    assert_eq!(rt; pieces.len(), expected.len());
    for (piece, (at, len, line, kind)) in pieces.as_slice().iter().zip(&expected) {
        assert_eq!(rt; piece.at, *at);
        assert_eq!(rt; piece.len, *len);
        assert_eq!(rt; piece.line, *line);
        assert_eq!(rt; piece.kind, *kind);
    }
    Ok(())
}

#[test]
fn ends_lines(rt: HostRuntime) {
    let text = b"ab\r\nc\n\nd\re\r";
    for (at, end, next) in [(0, 2, 4), (2, 2, 4), (4, 5, 6), (6, 6, 7), (7, 10, 11)] {
        assert_eq!(rt; next_line(text, at), (end, next), "at {at}");
    }
}
