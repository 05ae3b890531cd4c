//! What only calls show: worked messages, columns, and texts of faults.
use rt1553_expand::{
    ExpandFault, Expanded, ScriptFor, UnexpandedLine, expand, gather, source_lines,
};
use std::alloc::{AllocError, Global};
use std::format;
use std::test::Fail;

/// The script of a text for the terminal of an address, if there is one; nothing where there is none.
fn script_for(alloc: Global, own: Option<u8>, text: &[u8]) -> Result<Vec<u8>, AllocError> {
    match expand(alloc, text, &ScriptFor::Terminal(own))? {
        Expanded::Script(script) => Ok(script),
        _ => Ok(Vec::new(alloc)),
    }
}

/// The script of a text for no terminal.
fn script_of(alloc: Global, text: &[u8]) -> Result<Vec<u8>, AllocError> {
    script_for(alloc, None, text)
}

/// Whether this is the script of a text.
fn expands(alloc: Global, text: &str, script: &str) -> Result<bool, AllocError> {
    let found = script_of(alloc, text.as_bytes())?;
    Ok(found.as_slice() == script.as_bytes())
}

/// The lines of a text that are refused.
fn refused_of(alloc: Global, text: &[u8]) -> Result<Vec<UnexpandedLine>, AllocError> {
    match expand(alloc, text, &ScriptFor::Terminal(None))? {
        Expanded::Refused(lines) => Ok(lines),
        _ => Ok(Vec::new(alloc)),
    }
}

/// Whether the events of a script are these messages, for the terminal of an address, if there is one.
fn gathers(
    alloc: Global,
    own: Option<u8>,
    script: &str,
    messages: &str,
) -> Result<bool, AllocError> {
    match gather(alloc, script.as_bytes(), &ScriptFor::Terminal(own))? {
        Some(found) => Ok(found.as_slice() == messages.as_bytes()),
        None => Ok(false),
    }
}

#[test]
fn messages_gathered(rt: HostRuntime) -> Result<(), Fail> {
    let cases: [(Option<u8>, &str, &str); 6] = [
        (
            None,
            "A c 2862\nA d 0001\nA d 0002\nA gap\nslot\n",
            "A rx 5 3 2: 0001 0002\n",
        ),
        (
            Some(5),
            "B c f861\nB d 00ff\nB gap\nB c 2dc2\nB gap\nslot\nslot\nslot\n",
            "B rx all 3 1: 00ff\nB tx 5 14 2\n",
        ),
        (
            None,
            "A c 2bf1\nA d 1234\nA gap\nslot\n",
            "A mode 5 17 rx 31: 1234\n",
        ),
        (
            Some(5),
            "A c 2862\nA c 3482\nA gap\nA c 3000\nA d 0001\nA d 0002\nA gap\nslot\n",
            "A rx 5 3 2 from 6 4: 0001 0002\n",
        ),
        // its own words are not on the bus
        (
            Some(9),
            "A c 3021\nA c 4c21\nA gap\nslot\nslot\n",
            "A rx 6 1 1 from 9 1: 0000\n",
        ),
        (
            None,
            "A c 3021\nA c 4c21\nA gap\nslot\nslot\n",
            "A c 3021\nA tx 9 1 1\n",
        ),
    ];
    for (own, script, messages) in cases {
        assert!(rt; gathers(rt.alloc(), own, script, messages)?);
    }
    Ok(())
}

#[test]
fn events_that_are_no_message(rt: HostRuntime) -> Result<(), Fail> {
    let cases: [(Option<u8>, &str, &str); 4] = [
        // a data word and a slot are missing; comments are left out
        (
            None,
            "A c 2862\nA d 0001\nA gap\nslot\n",
            "A c 2862\nA d 0001\nA gap\nslot\n",
        ),
        (
            None,
            "# x\nflag busy 1\nA c 2c02\nA gap\n\nslot\n#> A s 2808\nA c 2c02\nA gap\n",
            "flag busy 1\nA mode 5 2 tx\nA c 2c02\nA gap\n",
        ),
        // it goes on on the other bus
        (None, "A c 2c02\nB gap\nslot\n", "A c 2c02\nB gap\nslot\n"),
        (None, "", ""),
    ];
    for (own, script, messages) in cases {
        assert!(rt; gathers(rt.alloc(), own, script, messages)?);
    }
    let nobody = ScriptFor::Terminal(None);
    assert!(rt; gather(rt.alloc(), b"A gap\nx\n", &nobody)?.is_none());
    Ok(())
}

#[test]
fn forms(rt: HostRuntime) -> Result<(), Fail> {
    let forms: [(&str, &str); 14] = [
        (
            "A rx 5 3 2: 0001 0002",
            "A c 2862\nA d 0001\nA d 0002\nA gap\nslot\n",
        ),
        ("B rx all 3 1: 00ff", "B c f861\nB d 00ff\nB gap\n"),
        ("A tx 5 14 2", "A c 2dc2\nA gap\nslot\nslot\nslot\n"),
        ("A tx 5 14 2:", "A c 2dc2\nA gap\nslot\nslot\nslot\n"),
        ("A tx  5\t14 1 ", "A c 2dc1\nA gap\nslot\nslot\n"),
        ("A tx all 14 2", "A c fdc2\nA gap\n"),
        ("A mode 5 17: 1234", "A c 2811\nA d 1234\nA gap\nslot\n"),
        (
            "A mode 5 17 rx 31: 1234",
            "A c 2bf1\nA d 1234\nA gap\nslot\n",
        ),
        ("A mode all 17: 1234", "A c f811\nA d 1234\nA gap\n"),
        (
            "A rx 5 3 2 from 6 4: 0001 0002",
            "A c 2862\nA c 3482\nA gap\nA c 3000\nA d 0001\nA d 0002\nA gap\nslot\n",
        ),
        (
            "B rx all 3 1 from 6 30: abcd",
            "B c f861\nB c 37c1\nB gap\nB c 3000\nB d abcd\nB gap\n",
        ),
        ("B status 6 busy", "B c 3008\n"),
        ("B data 00ff", "B d 00ff\n"),
        (
            "# to 5, from 6\nA rx 5 3 2 from 6 4: 0011 0022\nA mode 5 18\n",
            "# to 5, from 6\nA c 2862\nA c 3482\nA gap\nA c 3000\nA d 0011\nA d 0022\nA gap\nslot\nA c 2c12\nA gap\nslot\nslot\n",
        ),
    ];
    for (text, script) in forms {
        assert!(rt; expands(rt.alloc(), text, script)?, "{text}");
    }
    Ok(())
}

#[test]
fn transfers_for_a_terminal(rt: HostRuntime) -> Result<(), Fail> {
    let transfer = "A rx 5 3 2 from 6 4: 0001 0002";
    let heard = "A c 2862\nA c 3482\nA gap\nA c 3000\nA d 0001\nA d 0002\nA gap\nslot\n";
    let sent = "A c 2862\nA c 3482\nA gap\nslot\nslot\nslot\n";
    let to_all = "B rx all 3 1 from 6 30: abcd";
    for (own, text, script) in [
        (5, transfer, heard),
        (6, transfer, sent),
        (3, transfer, heard),
        (6, to_all, "B c f861\nB c 37c1\nB gap\nslot\nslot\n"),
        (6, "A tx 6 4 1", "A c 3481\nA gap\nslot\nslot\n"),
    ] {
        let found = script_for(rt.alloc(), Some(own), text.as_bytes())?;
        assert!(rt; found.as_slice() == script.as_bytes(), "{own}: {text}");
    }
    Ok(())
}

#[test]
fn messages_on_a_bus(rt: HostRuntime) -> Result<(), Fail> {
    let bus = ScriptFor::Bus(Vec::from_slice(rt.alloc(), &[5, 6])?);
    for (text, script) in [
        // to another terminal of the bus, to all, and to one that is not there
        (
            "A rx 5 3 2 from 6 4: 0001 0002",
            "A c 2862\nA c 3482\nA gap\nslot\nslot\nslot\nA gap\nslot\n",
        ),
        (
            "B rx all 3 1 from 6 30: abcd",
            "B c f861\nB c 37c1\nB gap\nslot\nslot\nB gap\n",
        ),
        (
            "A rx 7 3 1 from 6 4: 0001",
            "A c 3861\nA c 3481\nA gap\nslot\nslot\n",
        ),
        // from one that is not there
        (
            "A rx 6 1 1 from 9 1: 0007",
            "A c 3021\nA c 4c21\nA gap\nA c 4800\nA d 0007\nA gap\nslot\n",
        ),
        // a line with an address in front stays, whatever is behind it
        ("05 bit 0001", "05 bit 0001\n"),
        ("99 x", "99 x\n"),
    ] {
        let Expanded::Script(found) = expand(rt.alloc(), text.as_bytes(), &bus)? else {
            panic!(rt; "{text} is refused");
        };
        assert!(rt; found.as_slice() == script.as_bytes(), "{text}");
    }
    let refused = refused_of(rt.alloc(), b"05 bit 0001\n")?;
    let Some(first) = refused.as_slice().first() else {
        panic!(rt; "an address in front is taken");
    };
    assert!(rt; first.fault == ExpandFault::Neither);
    Ok(())
}

#[test]
fn mode_codes(rt: HostRuntime) -> Result<(), Fail> {
    let bare = [0u16, 1, 2, 3, 4, 5, 6, 7, 8];
    for code in bare {
        let text = format!(in rt.alloc(); "A mode 5 {code}")?;
        let want = format!(in rt.alloc(); "A c {:04x}\nA gap\nslot\n", 0x2c00 + code)?;
        assert!(rt;
            expands(rt.alloc(), text.as_str(), want.as_str())?,
            "{text}"
        );
    }
    let answered = [16u16, 18, 19];
    for code in answered {
        let text = format!(in rt.alloc(); "A mode 5 {code}")?;
        let want = format!(in rt.alloc(); "A c {:04x}\nA gap\nslot\nslot\n", 0x2c00 + code)?;
        assert!(rt;
            expands(rt.alloc(), text.as_str(), want.as_str())?,
            "{text}"
        );
    }
    Ok(())
}

#[test]
fn reserved_codes(rt: HostRuntime) -> Result<(), Fail> {
    let codes = [
        9u16, 10, 11, 12, 13, 14, 15, 20, 21, 22, 23, 24, 25, 26, 27, 28, 29, 30, 31,
    ];
    for code in codes {
        let slots = if code < 16 { "slot\n" } else { "slot\nslot\n" };
        let text = format!(in rt.alloc(); "A mode 5 {code} tx")?;
        let want = format!(in rt.alloc(); "A c {:04x}\nA gap\n{slots}", 0x2c00 + code)?;
        assert!(rt;
            expands(rt.alloc(), text.as_str(), want.as_str())?,
            "{text}"
        );
        let word = if code < 16 { "" } else { ": 0001" };
        let data = if code < 16 { "" } else { "A d 0001\n" };
        let text = format!(in rt.alloc(); "A mode 5 {code} rx{word}")?;
        let want = format!(in rt.alloc(); "A c {:04x}\n{data}A gap\nslot\n", 0x2800 + code)?;
        assert!(rt;
            expands(rt.alloc(), text.as_str(), want.as_str())?,
            "{text}"
        );
    }
    Ok(())
}

#[test]
fn counts(rt: HostRuntime) -> Result<(), Fail> {
    for count in 1..=32u16 {
        let text = format!(in rt.alloc(); "A tx 5 1 {count}")?;
        let found = script_of(rt.alloc(), text.as_bytes())?;
        let slots = usize::from(count) + 1;
        assert_eq!(rt; found.len(), 9 + 6 + 5 * slots, "{count}");
        let mut text = format!(in rt.alloc(); "A rx 5 1 {count}:")?;
        for _ in 0..count {
            text.push_str(" 00ff")?;
        }
        let found = script_of(rt.alloc(), text.as_bytes())?;
        assert_eq!(rt; found.len(), 9 + 9 * usize::from(count) + 6 + 5, "{count}");
    }
    Ok(())
}

#[test]
fn kept_lines(rt: HostRuntime) -> Result<(), Fail> {
    let text = "# a comment: of 2 # marks\n\n#> A s 2800\n#~ x\n#+ y\nA c 2862\nA D\0\nslot\n";
    let lines = refused_of(rt.alloc(), text.as_bytes())?;
    assert_eq!(rt; lines.len(), 1);
    let text =
        "# a comment: of 2 # marks\n\n#> A s 2800\n#~ \x7f\n#+ y\nA c 2862\nA d 00FF\nA d 0001 1\nB noise\nB gap\nslot\nwrite 01 32 00aB\nvector 0001\nbit 0002\nflag busy 1\n#";
    let want = format!(in rt.alloc(); "{text}\n")?;
    assert!(rt; expands(rt.alloc(), text, want.as_str())?);
    assert!(rt; expands(rt.alloc(), "", "")?);
    Ok(())
}

/// The address of a terminal, messages that state answers, and their script.
const STATED_ANSWERS: [(u8, &str, &str); 9] = [
    (
        5,
        "A tx 5 1 2\n#> A s 2800\n#~ A d ....\n#~ *\n",
        "A c 2c22\nA gap\nslot\n#> A s 2800\nslot\n#~ A d ....\nslot\n#~ *\n",
    ),
    (
        5,
        "A rx 5 3 1: 0001\n#> hand receive own 03\n#+ 0001\n#> A s\n#+ 2800\n# x\n#> A s 2800\n",
        "A c 2861\nA d 0001\nA gap\n#> hand receive own 03\n#+ 0001\nslot\n#> A s\n#+ 2800\n# x\n#> A s 2800\n",
    ),
    // in a transfer the hand-over comes behind the data words
    (
        5,
        "A rx 5 3 1 from 6 4: 0001\n#> hand receive own 03 0001\n#> A s 2800\n",
        "A c 2861\nA c 3481\nA gap\nA c 3000\nA d 0001\nA gap\n#> hand receive own 03 0001\nslot\n#> A s 2800\n",
    ),
    (
        6,
        "A rx 5 3 1 from 6 4: 0000\n#> A s 3000\n#> A d 0007\n",
        "A c 2861\nA c 3481\nA gap\nslot\n#> A s 3000\nslot\n#> A d 0007\n",
    ),
    (
        5,
        "B rx all 3 1: 0001\n#~ hand\nB mode 5 1\n#> hand sync\n",
        "B c f861\nB d 0001\nB gap\n#~ hand\nB c 2c01\nB gap\n#> hand sync\nslot\n",
    ),
    // those that no event is left for
    (
        5,
        "A mode 5 1\n#~ handed\n#> hand sync\n#> A s 2800\nslot\n#> x\n#> y\n",
        "A c 2c01\nA gap\nslot\n#~ handed\n#> hand sync\n#> A s 2800\nslot\n#> x\n#> y\n",
    ),
    (
        5,
        "A tx 5 1 1\n#+ x\n#+ y\n#> A d 0000\n",
        "A c 2c21\nA gap\nslot\n#+ x\n#+ y\nslot\n#> A d 0000\n",
    ),
    (
        5,
        "A tx 5 1 1\n\n#> A s 2800\n",
        "A c 2c21\nA gap\nslot\nslot\n\n#> A s 2800\n",
    ),
    (
        5,
        "A tx 5 1 1\n#>A s 2800\n",
        "A c 2c21\nA gap\nslot\nslot\n#>A s 2800\n",
    ),
];

#[test]
fn stated_answers(rt: HostRuntime) -> Result<(), Fail> {
    for (own, text, script) in STATED_ANSWERS {
        let found = script_for(rt.alloc(), Some(own), text.as_bytes())?;
        assert!(rt; found.as_slice() == script.as_bytes(), "{text}");
    }
    Ok(())
}

#[test]
fn lines_of_stated_answers(rt: HostRuntime) -> Result<(), Fail> {
    let text =
        b"A tx 5 1 2\n#> A s 2800\n#> A d 0001\n#> A d 0002\nA rx 5 3 1: 0001\n#> hand\n#+ x\n";
    let found = source_lines(rt.alloc(), text, &ScriptFor::Terminal(None))?;
    let want: [u64; 14] = [1, 1, 1, 2, 1, 3, 1, 4, 5, 5, 5, 6, 7, 5];
    assert!(rt; found.as_slice() == want.as_slice());
    Ok(())
}

/// Lines that are rejected, each with its column and its reason.
const REJECTED_LINES: [(&str, usize, &str); 39] = [
    (
        "\u{feff}A mode 5 2",
        1,
        "a byte order mark: save the file as UTF-8 without it",
    ),
    (
        "A rx 5 3 1: 0001\r",
        17,
        "a carriage return: a line ends in a line feed alone",
    ),
    (
        "\r",
        1,
        "a carriage return: a line ends in a line feed alone",
    ),
    (
        "wrte 01 01 0000",
        1,
        "neither a line of a script nor a message, which begins with A or B and a space",
    ),
    (
        "write 01 1 0000",
        10,
        "neither a line of a script nor a message, which begins with A or B and a space",
    ),
    (
        "a rx 5 3 1: 0001",
        1,
        "neither a line of a script nor a message, which begins with A or B and a space",
    ),
    (
        "A tx 5 3 1 # x",
        12,
        "a comment after a message: a comment is a line of its own",
    ),
    (
        "A rx 5 3 1: 0001 # x",
        18,
        "a comment after a message: a comment is a line of its own",
    ),
    (
        "A",
        2,
        "neither a line of a script nor a message, which begins with A or B and a space",
    ),
    (
        "A ",
        3,
        "after a bus, rx, tx, mode, status or data is expected for a message, and c, d, gap or noise for an event",
    ),
    (
        "A gpa",
        3,
        "after a bus, rx, tx, mode, status or data is expected for a message, and c, d, gap or noise for an event",
    ),
    (
        "A s 2800",
        3,
        "a message names its fields, by rx, tx, mode, status or data",
    ),
    ("A c 286", 5, "a word is four hexadecimal digits"),
    (
        "A rx 31 3 2: 0001 0002",
        6,
        "an address is 0 to 30, or all for a command",
    ),
    ("A rx", 5, "an address is 0 to 30, or all for a command"),
    ("A  rx  5 31 2: 0001 0002", 10, "a subaddress is 1 to 30"),
    ("A rx 5 3: 0001", 9, "a count is 1 to 32"),
    ("A rx 5 3 33: 0001", 10, "a count is 1 to 32"),
    (
        "A rx 5 3 1 1: 0001",
        12,
        "nothing may follow the last field",
    ),
    ("A mode 5 32", 10, "a mode code is 0 to 31"),
    (
        "A mode 5 20",
        12,
        "after a mode code comes tx or rx; a reserved code needs it",
    ),
    (
        "A mode 5 2 tx 3",
        15,
        "the subaddress of a mode code is 0 or 31",
    ),
    (
        "A mode 5 2 tx 31 x",
        18,
        "nothing may follow the last field",
    ),
    (
        "A status 5 busy bsy error",
        17,
        "a status has error, instrumentation, service, reserved1 to 3, broadcast, busy, subsystem, accept, terminal",
    ),
    (
        "A tx 5 3 1 from 6 4",
        11,
        "from follows rx alone: the terminal of rx receives what another sends",
    ),
    (
        "A rx 5 3 1 from 5 4: 0001",
        17,
        "after from, the address of another terminal, 0 to 30, and its subaddress, 1 to 30, are expected",
    ),
    (
        "A rx 5 3 1 from all 4: 0001",
        17,
        "after from, the address of another terminal, 0 to 30, and its subaddress, 1 to 30, are expected",
    ),
    (
        "A rx 5 3 1 from 6: 0001",
        17,
        "after from, the address of another terminal, 0 to 30, and its subaddress, 1 to 30, are expected",
    ),
    (
        "A rx 5 3 1 from 6 4 1: 0001",
        17,
        "after from, the address of another terminal, 0 to 30, and its subaddress, 1 to 30, are expected",
    ),
    (
        "A rx 5 3 2: 0001",
        17,
        "a data word is wanted: one space and four hexadecimal digits",
    ),
    (
        "A rx 5 3 2",
        11,
        "a colon is missing before the data words, as in A rx 5 3 1: 0001",
    ),
    (
        "A rx 5 3 2 0001 0002",
        12,
        "a colon is missing before the data words, as in A rx 5 3 1: 0001",
    ),
    (
        "A rx 5 3 2 from 6 4",
        20,
        "a colon is missing before the data words, as in A rx 5 3 1: 0001",
    ),
    (
        "A mode 5 17 rx 0",
        17,
        "a colon is missing before the data words, as in A rx 5 3 1: 0001",
    ),
    (
        "A tx 5 3 2 0001 0002",
        12,
        "nothing may follow the last field",
    ),
    (
        "A rx 5 3 2: 0001  0002",
        17,
        "a data word is wanted: one space and four hexadecimal digits",
    ),
    (
        "A rx 5 3 2: 0001 000G",
        17,
        "a data word is wanted: one space and four hexadecimal digits",
    ),
    (
        "A rx 5 3 1: 0001 0002",
        17,
        "nothing more is wanted: the message has all its data words",
    ),
    (
        "A tx 5 3 1: 0001",
        12,
        "nothing more is wanted: the message has all its data words",
    ),
];

#[test]
fn columns(rt: HostRuntime) -> Result<(), Fail> {
    for (text, column, reason) in REJECTED_LINES {
        let found = refused_of(rt.alloc(), text.as_bytes())?;
        assert_eq!(rt; found.len(), 1, "{text}");
        assert_eq!(rt; (found[0].line, found[0].column), (1, column), "{text}");
        let told = format!(in rt.alloc(); "{}", found[0].fault)?;
        assert_eq!(rt; told.as_str(), reason, "{text}");
    }
    Ok(())
}

#[test]
fn lengths(rt: HostRuntime) -> Result<(), Fail> {
    let mut comment = Vec::new(rt.alloc());
    for _ in 0..64 {
        comment.push(b'#')?;
    }
    assert_eq!(rt; script_of(rt.alloc(), comment.as_slice())?.len(), 65);
    comment.push(b'#')?;
    let found = refused_of(rt.alloc(), comment.as_slice())?;
    assert_eq!(rt; found.len(), 1);
    assert_eq!(rt; found[0].column, 65);
    assert!(rt; found[0].fault == ExpandFault::LongComment);
    for _ in 65..257 {
        comment.push(b'#')?;
    }
    let found = refused_of(rt.alloc(), comment.as_slice())?;
    assert_eq!(rt; found.len(), 1);
    assert_eq!(rt; found[0].column, 257);
    assert!(rt; found[0].fault == ExpandFault::Long);
    Ok(())
}

#[test]
fn all_refused_lines(rt: HostRuntime) -> Result<(), Fail> {
    let found = refused_of(rt.alloc(), b"x\nslot\nA rx\n\nA tx 5 3 1\ny")?;
    assert_eq!(rt; found.len(), 3);
    assert_eq!(rt; found[0].line, 1);
    assert_eq!(rt; found[1].line, 3);
    assert_eq!(rt; found[2].line, 6);
    Ok(())
}

#[test]
fn too_many_lines(rt: HostRuntime) -> Result<(), Fail> {
    let nobody = ScriptFor::Terminal(None);
    let mut text = Vec::new(rt.alloc());
    for _ in 0..29_959 {
        text.extend_from_slice(b"A tx 5 3 32\n")?;
    }
    // 35 lines for each message
    for _ in 0..11 {
        text.push(b'\n')?;
    }
    assert!(rt;
        matches!(
            expand(rt.alloc(), text.as_slice(), &nobody)?,
            Expanded::Script(_)
        )
    );
    text.push(b'\n')?;
    assert!(rt;
        matches!(
            expand(rt.alloc(), text.as_slice(), &nobody)?,
            Expanded::TooLong
        )
    );
    Ok(())
}
