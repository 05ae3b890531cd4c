//! What only calls show: the lines of faults, names as comments, warnings, and tables as spreadsheets save them.
use rt1553_import::{ImportFault, import_table};
use std::alloc::{AllocError, Global};
use std::test::Fail;
use tool_names::{table_warnings, told_text};

/// A table as a spreadsheet saves it: a byte order mark, semicolons, quotes and carriage returns.
const DISPLAY: &[u8] =
    b"\xef\xbb\xbf\"kind\";\"subaddress\";\"words\";\"to\";\"name\";\"code\";\"legal\";\"value\"\r
\"address\";;;;;;;\"7\"\r
\"receive\";\"1-4\";\"1-32\";\"own\";\"pages; one each\";;;\r
;;;;;;;\r
\"mode\";;;;;\"17\";\"yes\";\r
";

const DISPLAY_PROFILE: &str = "address = 7

# pages; one each
[[rule]]
direction = \"receive\"
subaddresses = \"1-4\"
counts = \"1-32\"
to = \"own\"

[[mode]]
codes = 17
legal = true
";

/// A table with commas, initial words, a column that is left out, and a name that would end its comment.
const RECORDER: &[u8] = b"kind,value,subaddress,words,initial,name,\"my \"\"notes\"\"\"
address,0x13,,,,,
wraparound,FALSE,,,,,x
transmit,, 2 ,4,0001  a 00ff,\"state\n[[rule]]\",
";

const RECORDER_PROFILE: &str = "address = 0x13
wraparound = false

# state\\n[[rule]]
[[rule]]
direction = \"transmit\"
subaddresses = 2
counts = 4

[[initial]]
subaddress = 2
words = [0x0001, 0xa, 0x00ff]
";

#[test]
fn tables_of_spreadsheets(rt: HostRuntime) -> Result<(), Fail> {
    let alloc = rt.alloc();
    let Ok(display) = import_table(alloc, DISPLAY) else {
        return Err("refused")?;
    };
    assert_eq!(rt; display.profile.as_str(), DISPLAY_PROFILE);
    assert!(rt; table_warnings(alloc, &display.sheet)?.is_empty());
    Ok(())
}

#[test]
fn names_and_warnings(rt: HostRuntime) -> Result<(), Fail> {
    let alloc = rt.alloc();
    let Ok(recorder) = import_table(alloc, RECORDER) else {
        return Err("refused")?;
    };
    assert_eq!(rt; recorder.profile.as_str(), RECORDER_PROFILE);
    let mut told = String::new(alloc);
    for warning in &table_warnings(alloc, &recorder.sheet)? {
        writeln!(told, "{warning}")?;
    }
    assert_eq!(rt;
        told.as_str(),
        "1:7: warning: the column \"my \\\"notes\\\"\" is left out; known are kind, value, subaddress, words, code, to, initial, legal, name\n"
    );
    Ok(())
}

/// What is told of a table that is refused.
fn told(alloc: Global, text: &[u8]) -> Result<String, AllocError> {
    match import_table(alloc, text) {
        Ok(_) => Ok(String::new(alloc)),
        Err(ImportFault::Faults(table)) => told_text(alloc, "t", &table),
        Err(fault) => format!(in alloc; "{fault}"),
    }
}

/// Tables that are refused, and what is told.
const REFUSED: [(&[u8], &str); 18] = [
    (
        b"kind,value\naddress,\"1\"2\n",
        "table: row 2, column 2: not CSV, a quote is misplaced or missing",
    ),
    (
        b"kind;value\naddress;1\"\n",
        "table: row 2, column 2: not CSV, a quote is misplaced or missing",
    ),
    (
        b"kind,name\naddress,\"a\"\"b\"\n\nbit,\"c\nd\"\nbit,\"open,1\nbit,2\n",
        "table: row 6, column 2: not CSV, a quote is misplaced or missing",
    ),
    (
        b"kind,value\raddress,1\rbit,1\"\r",
        "table: row 3, column 2: not CSV, a quote is misplaced or missing",
    ),
    (
        b"\xef\xbb\xbf\"kind\"\r\n\"address\" ,1\r\n",
        "table: row 2, column 1: not CSV, a quote is misplaced or missing",
    ),
    (b"kind,value\naddress,\xff\n", "table: row 2: not UTF-8"),
    (b"", "t:1:1: error: no column is named kind"),
    (
        b"\nvalue,to,value\n",
        "t:2:1: error: no column is named kind\nt:2:3: error: a second column is named value",
    ),
    (
        b"kind,value\naddress,1,\nnothing,\n,x\naddress,2\naddress,3\n",
        "t:2:2: error: 3 fields, and the header has 2\nt:3:1: error: kind: \"nothing\": allowed is address, broadcast, wraparound, accept_bus_control, vector, bit, receive, transmit, both, mode\nt:4:1: error: kind: empty: allowed is address, broadcast, wraparound, accept_bus_control, vector, bit, receive, transmit, both, mode\nt:5:1: error: kind: \"address\": an earlier row has this setting\nt:6:1: error: kind: \"address\": an earlier row has this setting",
    ),
    (
        b"kind,value\raddress,1\rbit,x\r",
        "t:3:2: error: value: \"x\": allowed is 0 to 65535, or 0x0000 to 0xffff",
    ),
    (
        b"kind,value,code,initial,subaddress\naddress,1,2,,\nreceive,,,0001,3\n",
        "t:1:6: warning: no column is named words, so all counts 1 to 32: is this meant?\nt:2:3: error: code: \"2\": a row of this kind takes nothing here\nt:3:4: error: initial: \"0001\": a row of this kind takes nothing here",
    ),
    (
        b"kind,value,subaddress,initial\naddress,1,,\ntransmit,,1-2,0001\ntransmit,,2,00001\ntransmit,,2,xyz\n",
        "t:1:5: warning: no column is named words, so all counts 1 to 32: is this meant?\nt:3:3: error: subaddress: \"1-2\": allowed beside initial words is 1 to 30, one number\nt:4:4: error: initial: \"00001\": allowed is at most 32 words of 1 to 4 hexadecimal digits, as \"0001 00ff\"\nt:5:4: error: initial: \"xyz\": allowed is at most 32 words of 1 to 4 hexadecimal digits, as \"0001 00ff\"",
    ),
    (
        b"kind,value\nbit,1\n",
        "t: error: no row is of the kind address; its value is 0 to 30",
    ),
    (
        b"value,kind\n31,address\nx,bit\n",
        "t:2:1: error: value: \"31\": allowed is 0 to 30\nt:3:1: error: value: \"x\": allowed is 0 to 65535, or 0x0000 to 0xffff",
    ),
    (
        b"kind,value,subaddress,words,to,name\naddress,1,,,,\nreceive,,1,33,,\n\"receive\",,,,,\"two\nlines\"\nboth,,31,x,all,\n",
        "t:4:4: warning: words: empty, so all counts 1 to 32: is this meant?\nt:3:4: error: words: \"33\": allowed is 1 to 32, as \"1-3, 5\"\nt:4:3: error: subaddress: empty: allowed is 1 to 30, as \"1-3, 5\"\nt:6:5: error: to: \"all\": allowed is own, broadcast or both\nt:6:3: error: subaddress: \"31\": allowed is 1 to 30, as \"1-3, 5\"\nt:6:4: error: words: \"x\": allowed is 1 to 32, as \"1-3, 5\"",
    ),
    (
        b"kind,value,code,legal\naddress,1,,\nmode,,0-31,no\n",
        "t:3:4: error: legal: \"no\": mode code 2 must be legal\nt:3:4: error: legal: \"no\": mode code 4 must be legal\nt:3:4: error: legal: \"no\": mode code 5 must be legal\nt:3:4: error: legal: \"no\": mode code 8 must be legal",
    ),
    (
        b"kind,value,subaddress,initial\naddress,1,,\ntransmit,,3,\ntransmit,,31,1 2\n",
        "t:1:5: warning: no column is named words, so all counts 1 to 32: is this meant?\nt:4:3: error: subaddress: \"31\": allowed is 1 to 30, as \"1-3, 5\"\nt:4:3: error: subaddress: \"31\": allowed is 1 to 30",
    ),
    (
        b"Kind,Subaddress ,counts\nAddress,1,\n",
        "t:1:3: warning: the column \"counts\" is left out; known are kind, value, subaddress, words, code, to, initial, legal, name\nt:1:1: error: no column is named value",
    ),
];

#[test]
fn refused_tables(rt: HostRuntime) -> Result<(), Fail> {
    let alloc = rt.alloc();
    for (text, wanted) in REFUSED {
        assert_eq!(rt; told(alloc, text)?.as_str(), wanted);
    }
    Ok(())
}
