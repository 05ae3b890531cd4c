//! What only calls show: bytes of JSON, texts, and which tables are refused, and where.
use bus_legal::Normal;
use rt1553::load;
use rt1553_results::{
    Comparison, ResultsExplained, Rows, TestRow, compare_results, csv_header, csv_row,
    explain_results, json_row, other_command, read_results,
};
use std::alloc::{AllocError, Global};
use std::format;
use std::test::Fail;

/// Receives 1 or 2 words at subaddress 3, and hears broadcasts.
const PROFILE: &[u8] = b"address = 5
broadcast = true
[[rule]]
direction = \"receive\"
subaddresses = 3
counts = \"1-2\"
";

/// How many exchanges its acceptance test has.
const TOTAL: u32 = 3871;

fn row_number(p: &Normal, number: u32) -> Option<TestRow> {
    let mut rows = Rows::new(p);
    while let Some(row) = rows.next() {
        if row.number == number {
            return Some(row);
        }
    }
    None
}

/// A header with the column of replies, and all rows.
fn table(alloc: Global, p: &Normal) -> Result<Vec<u8>, AllocError> {
    let mut text = Vec::from_slice(alloc, b"number,tries,command,data,reply,handed\r\n")?;
    let mut rows = Rows::new(p);
    while let Some(row) = rows.next() {
        text.extend_from_slice(csv_row(alloc, p, &row, None)?.as_slice())?;
    }
    Ok(text)
}

#[test]
fn rows_as_csv(rt: HostRuntime) -> Result<(), Fail> {
    let alloc = rt.alloc();
    let p = load(alloc, PROFILE)?;
    let cases: [(u32, &[u8]); 4] = [
        (
            1,
            b"1,broadcast transmit status word: illegal,fc02,,none,\r\n",
        ),
        (2, b"2,transmit status word: legal,2c02,,2c10,\r\n"),
        (3, b"3,\"transmit 1, 1 word: illegal\",2c21,,2c00,\r\n"),
        (
            1028,
            b"1028,\"receive 3, 2 words: legal\",2862,0000 0000,2800,receive own 03 0000 0000\r\n",
        ),
    ];
    for (number, bytes) in cases {
        let row = row_number(&p, number).ok_or("no row")?;
        assert_eq!(rt; csv_row(alloc, &p, &row, None)?.as_slice(), bytes);
    }
    assert_eq!(rt;
        csv_header(alloc, false)?.as_slice(),
        b"number,tries,command,data,expected,handed\r\n".as_slice()
    );
    assert!(rt; row_number(&p, TOTAL + 1).is_none());
    Ok(())
}

#[test]
fn rows_as_json(rt: HostRuntime) -> Result<(), Fail> {
    let alloc = rt.alloc();
    let p = load(alloc, PROFILE)?;
    let cases: [(u32, &str); 2] = [
        (
            1,
            "{\"number\":1,\"tries\":\"broadcast transmit status word: illegal\",\"command\":\"fc02\",\"data\":[],\"expected\":null,\"handed\":null}",
        ),
        (
            1028,
            "{\"number\":1028,\"tries\":\"receive 3, 2 words: legal\",\"command\":\"2862\",\"data\":[\"0000\",\"0000\"],\"expected\":[\"2800\"],\"handed\":\"receive own 03 0000 0000\"}",
        ),
    ];
    for (number, text) in cases {
        let row = row_number(&p, number).ok_or("no row")?;
        let line = json_row(alloc, &p, &row, None).ok_or("no memory")?;
        assert_eq!(rt; line.as_str(), text);
    }
    Ok(())
}

/// The comparison of a table with the terminal.
fn compared(alloc: Global, text: &[u8]) -> Result<Comparison, Fail> {
    let p = load(alloc, PROFILE)?;
    let results = read_results(alloc, text)?;
    Ok(compare_results(alloc, &p, &results)?)
}

#[test]
fn own_table_passes(rt: HostRuntime) -> Result<(), Fail> {
    let alloc = rt.alloc();
    let p = load(alloc, PROFILE)?;
    let comparison = compared(alloc, table(alloc, &p)?.as_slice())?;
    assert!(rt; comparison.passes());
    assert_eq!(rt; comparison.total, TOTAL);
    assert_eq!(rt;
        format!(in alloc; "{comparison}")?.as_str(),
        "all 3871 exchanges are answered as by this terminal: it is the same terminal"
    );
    Ok(())
}

#[test]
fn others_and_missing_ones(rt: HostRuntime) -> Result<(), Fail> {
    let alloc = rt.alloc();
    let comparison = compared(
        alloc,
        b"reply,number,note\n2C10,2,\nnone,1028,\"a, b\"\nnone,1,\n2c00,4,\n",
    )?;
    assert!(rt; !comparison.passes());
    let mut told = String::new(alloc);
    for difference in &comparison.wrong_replies {
        writeln!(told, "{}: {difference}", difference.number)?;
    }
    for numbers in &comparison.missing {
        writeln!(told, "{numbers}")?;
    }
    write!(told, "{comparison}")?;
    assert_eq!(rt;
        told.as_str(),
        "1028: receive 3, 2 words: legal: expected 2800, came none
no result for 3
no result for 5 to 1027
no result for 1029 to 3871
1 of 3871 exchanges are answered otherwise: it is another terminal"
    );
    let few = compared(alloc, b"number,reply\r\n1,none\r\n")?;
    assert_eq!(rt;
        format!(in alloc; "{few}")?.as_str(),
        "3870 of 3871 exchanges have no result: no verdict"
    );
    Ok(())
}

/// What comes of a table where the subsystem may do anything.
fn explained(alloc: Global, text: &[u8]) -> Result<ResultsExplained, Fail> {
    let p = load(alloc, PROFILE)?;
    let results = read_results(alloc, text)?;
    Ok(explain_results(alloc, &p, &results)?)
}

#[test]
fn own_table_is_explained(rt: HostRuntime) -> Result<(), Fail> {
    let alloc = rt.alloc();
    let p = load(alloc, PROFILE)?;
    let explained = explained(alloc, table(alloc, &p)?.as_slice())?;
    assert!(rt; explained.passes());
    assert_eq!(rt;
        format!(in alloc; "{explained}")?.as_str(),
        "some behaviour of the subsystem explains all 3871 exchanges"
    );
    Ok(())
}

/// Results, and the reply that nothing explains; empty for none.
const EXPLAINED: [(&[u8], &str); 5] = [
    (b"number,reply\n1,none\n2,2c10\n", ""),
    (b"number,reply\n2,2800\n", ""),
    (
        b"number,reply\n1,none\n2,2800\n",
        "2: transmit status word: legal: came 2800, word 1 can be 2c10",
    ),
    (
        b"number,reply\n1,none\n2,2c10 0000\n",
        "2: transmit status word: legal: came 2c10 0000, word 2 can be none",
    ),
    (
        b"number,reply\n1,2800\n",
        "1: broadcast transmit status word: illegal: came 2800, word 1 can be none",
    ),
];

#[test]
fn first_unexplained_reply(rt: HostRuntime) -> Result<(), Fail> {
    let alloc = rt.alloc();
    for (text, told) in EXPLAINED {
        let explained = explained(alloc, text)?;
        let line = match &explained.first {
            Some(first) => format!(in alloc; "{}: {first}", first.number)?,
            None => String::new(alloc),
        };
        assert_eq!(rt; line.as_str(), told);
        assert!(rt; !explained.passes());
    }
    Ok(())
}

#[test]
fn number_beyond_the_last(rt: HostRuntime) -> Result<(), Fail> {
    let alloc = rt.alloc();
    let p = load(alloc, PROFILE)?;
    let results = read_results(alloc, b"number,reply\n3872,none\n1,none\n")?;
    let Err(fault) = compare_results(alloc, &p, &results) else {
        return Err("compared")?;
    };
    assert_eq!(rt;
        format!(in alloc; "{fault}")?.as_str(),
        "results: row 2: no exchange has this number"
    );
    Ok(())
}

/// Tables that are refused, and by which fault.
const REFUSED: [(&[u8], &str); 22] = [
    (
        b"number,reply\n1,\"28\"00\n",
        "results: row 2, column 2: not CSV, a quote is misplaced or missing",
    ),
    (
        b"number,reply\n1,2800\n2,\"none\n",
        "results: row 3, column 2: not CSV, a quote is misplaced or missing",
    ),
    (
        b"\xef\xbb\xbfnumber,reply\r\n1,none\r\n0,none\r\n",
        "results: row 3, column 1: not the number of an exchange",
    ),
    (
        b"number,reply\r\n1,none\r\n0,none\r\n",
        "results: row 3, column 1: not the number of an exchange",
    ),
    (
        b"\nnote,number,reply\n\n\"a\nb\",1,none\n,0,none\n",
        "results: row 6, column 2: not the number of an exchange",
    ),
    (b"", "results: row 1, column 1: no header"),
    (
        b"number\n",
        "results: row 1, column 2: no column is named reply",
    ),
    (
        b"a,reply\n",
        "results: row 1, column 3: no column is named number",
    ),
    (
        b"number,reply,number\n",
        "results: row 1, column 3: a second column is named number",
    ),
    (
        b"number,reply\n1\n",
        "results: row 2, column 2: not as many fields as the header",
    ),
    (
        b"number,reply\n1,none,\n",
        "results: row 2, column 3: not as many fields as the header",
    ),
    (
        b"number,reply\n1,none\n0,none\n",
        "results: row 3, column 1: not the number of an exchange",
    ),
    (
        b"number,reply\n+1,none\n",
        "results: row 2, column 1: not the number of an exchange",
    ),
    (
        b"number,reply\n,none\n",
        "results: row 2, column 1: not the number of an exchange",
    ),
    (
        b"number,reply\n4294967296,none\n",
        "results: row 2, column 1: not the number of an exchange",
    ),
    (
        b"number,reply\n\xff,none\n",
        "results: row 2, column 1: not the number of an exchange",
    ),
    (
        b"reply,number\nnone,1\nnone,01\n",
        "results: row 3, column 2: the number of an earlier row",
    ),
    (
        b"number,reply\n1,\n",
        "results: row 2, column 2: not `none`, or 1 to 33 words of four hexadecimal digits",
    ),
    (
        b"number,reply\n1,280\n",
        "results: row 2, column 2: not `none`, or 1 to 33 words of four hexadecimal digits",
    ),
    (
        b"number,reply\n1,28 00\n",
        "results: row 2, column 2: not `none`, or 1 to 33 words of four hexadecimal digits",
    ),
    (
        b"number,reply\n1,2800  2800\n",
        "results: row 2, column 2: not `none`, or 1 to 33 words of four hexadecimal digits",
    ),
    (
        b"number,reply\n1,28x0\n",
        "results: row 2, column 2: not `none`, or 1 to 33 words of four hexadecimal digits",
    ),
];

#[test]
fn refused_tables(rt: HostRuntime) -> Result<(), Fail> {
    let alloc = rt.alloc();
    for (text, wanted) in REFUSED {
        let Err(fault) = read_results(alloc, text) else {
            return Err("read")?;
        };
        assert_eq!(rt; format!(in alloc; "{fault}")?.as_str(), wanted);
    }
    Ok(())
}

#[test]
fn blanks_and_delimiters(rt: HostRuntime) -> Result<(), Fail> {
    for text in [
        b"number, reply \n1,2800 \n".as_slice(),
        b"number;reply\r1;none\r",
        b"number\treply\n\t\n2\tnone\n",
    ] {
        assert!(rt; read_results(rt.alloc(), text).is_ok());
    }
    Ok(())
}

/// Tables with a column of commands, and the place of the first that is of another exchange.
const COMMANDED: [(&[u8], Option<(u64, u64)>); 6] = [
    (b"number,reply,command\n1,none,fc02\n2,2c00,2C02\n", None),
    (b"number,reply\n1,none\n", None),
    (
        b"command,number,reply\nfc02,1,none\n2c03,2,2c00\n",
        Some((3, 1)),
    ),
    (b"number,reply,command\n1,none,\n", Some((2, 3))),
    (b"number,reply,command\n9999,none,0000\n", None),
    (b"", None),
];

#[test]
fn commands_of_results(rt: HostRuntime) -> Result<(), Fail> {
    let alloc = rt.alloc();
    let normal = load(alloc, b"address = 5")?;
    for (text, wanted) in COMMANDED {
        let found = match other_command(alloc, &normal, text)? {
            Some(place) => Some((place.row, place.column)),
            None => None,
        };
        assert_eq!(rt; found, wanted);
    }
    Ok(())
}
