//! Fields and lines, read and written.
use line_format::{
    FieldKind, Lines, WrongLine, bit_line, field, number_line, number_line_of, number_of,
    numbered_line, numbered_line_of, put_bit_line, put_number, put_number_line, put_numbered_line,
    put_words_line, word_line, words_line,
};
use std::test::Fail;

/// What stands at the front of a text, and what of it is a number of two decimal digits.
const DECIMALS: [(&[u8], Option<u32>); 8] = [
    (b"07", Some(7)),
    (b"30\n", Some(30)),
    (b"999", Some(99)),
    (b"7", None),
    (b"7 ", None),
    (b"0a", None),
    (b"-1", None),
    (b"", None),
];

/// The same for four hexadecimal digits.
const HEXADECIMALS: [(&[u8], Option<u32>); 6] = [
    (b"00ff", Some(0xff)),
    (b"ffff", Some(0xffff)),
    (b"1234 5", Some(0x1234)),
    (b"00FF", None),
    (b"00fg", None),
    (b"0ff", None),
];

#[test]
fn numbers_are_read_by_their_width(rt: HostRuntime) -> Result<(), Fail> {
    for (text, wanted) in &DECIMALS {
        assert_eq!(rt;
            number_of(*text, FieldKind::Decimal).map(|r| r.0),
            *wanted,
            "{text:?}"
        );
    }
    for (text, wanted) in &HEXADECIMALS {
        assert_eq!(rt;
            number_of(*text, FieldKind::Word).map(|r| r.0),
            *wanted,
            "{text:?}"
        );
    }
    assert_eq!(rt; field(b" 30\n", FieldKind::Decimal).map(|r| r.0), Some(30));
    assert_eq!(rt; field(b"30\n", FieldKind::Decimal).map(|r| r.0), None);
    assert_eq!(rt; field(b"  3", FieldKind::Decimal).map(|r| r.0), None);
    Ok(())
}

#[test]
fn lines_are_read_and_written(rt: HostRuntime) -> Result<(), Fail> {
    let mut text = Vec::new(rt.alloc());
    put_bit_line(&mut text, b"head", true)?;
    put_number_line(&mut text, b"word", FieldKind::Word, 0xbeef)?;
    put_numbered_line(&mut text, b"row", 3, 0x8000_0001)?;
    put_number(&mut text, FieldKind::Decimal, 10)?;
    put_number(&mut text, FieldKind::Bit, 1)?;
    let bytes = text.as_slice();
    assert_eq!(rt;
        bytes,
        b"head 1\nword beef\nrow 03 80000001\n101".as_slice()
    );
    match bit_line(Lines::of(bytes), b"head") {
        Ok((bit, lines)) => {
            assert!(rt; bit);
            assert_eq!(rt; lines.number, 2);
            assert_eq!(rt; lines.wrong().line, 2);
            let word = number_line_of(lines.rest, b"word", FieldKind::Word);
            assert_eq!(rt; word.map(|r| r.0), Some(0xbeef));
            let other = number_line_of(lines.rest, b"ward", FieldKind::Word);
            assert_eq!(rt; other.map(|r| r.0), None);
            let row = word.and_then(|r| numbered_line_of(r.1, b"row"));
            assert_eq!(rt; row.map(|r| (r.0, r.1)), Some((3, 0x8000_0001)));
            assert_eq!(rt; row.map(|r| r.2), Some(b"101".as_slice()));
        }
        Err(wrong) => assert_eq!(rt; wrong.line, 0),
    }
    match bit_line(Lines::of(bytes), b"had") {
        Ok((_, lines)) => assert_eq!(rt; lines.number, 0),
        Err(wrong) => assert_eq!(rt; wrong.line, 1),
    }
    Ok(())
}

#[test]
fn a_number_line_is_read_where_its_number_passes(rt: HostRuntime) -> Result<(), Fail> {
    for (text, wanted) in &[
        (b"mask 0000000f\n".as_slice(), Ok(15)),
        (b"mask 00000010\n", Err(1)),
        (b"mask 0000000F\n", Err(1)),
        (b"mask f\n", Err(1)),
    ] {
        let read = number_line(Lines::of(*text), b"mask", FieldKind::Mask, |n| n < 16);
        let found = read.map(|r| r.0).map_err(|wrong| wrong.line);
        assert_eq!(rt; found, *wanted, "{text:?}");
    }
    Ok(())
}

/// Reads a bit, a word, a mask of number 3 and two words of number 7, one line after another.
fn four_lines<'a>(
    lines: Lines<'a>,
    words: &mut [u16; 2],
) -> Result<(bool, u16, u32, Lines<'a>), WrongLine> {
    let (bit, lines) = bit_line(lines, b"bit")?;
    let (word, lines) = word_line(lines, b"word")?;
    let (mask, lines) = numbered_line(lines, b"row", 3)?;
    let lines = words_line(lines, b"words", 7, words.as_mut_slice())?;
    Ok((bit, word, mask, lines))
}

#[test]
fn four_lines_are_read_and_written(rt: HostRuntime) -> Result<(), Fail> {
    let mut text = Vec::new(rt.alloc());
    put_bit_line(&mut text, b"bit", true)?;
    put_number_line(&mut text, b"word", FieldKind::Word, 0xbeef)?;
    put_numbered_line(&mut text, b"row", 3, 0x8000_0001)?;
    put_words_line(&mut text, b"words", 7, &[1, 0xfffe])?;
    let bytes = text.as_slice();
    assert_eq!(rt;
        bytes,
        b"bit 1\nword beef\nrow 03 80000001\nwords 07 0001 fffe\n".as_slice()
    );
    let mut words = [0; 2];
    match four_lines(Lines::of(bytes), &mut words) {
        Ok((bit, word, mask, lines)) => {
            assert!(rt; bit && lines.rest.is_empty());
            assert_eq!(rt; word, 0xbeef);
            assert_eq!(rt; mask, 0x8000_0001);
            assert_eq!(rt; words, [1, 0xfffe]);
        }
        Err(wrong) => assert_eq!(rt; wrong.line, 0),
    }
    Ok(())
}
