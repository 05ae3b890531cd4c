//! The printed texts.
use rt1553::load;
use rt1553_export::export_table;
use std::test::Fail;

/// A profile with something in each column.
const PROFILE: &[u8] = b"address = 5
broadcast = true
wraparound = 29
bit = 0x8000

[[rule]]
direction = \"receive\"
subaddresses = \"1-3, 5\"
counts = \"2, 5-8\"

[[rule]]
direction = \"both\"
subaddresses = 29

[[rule]]
direction = \"transmit\"
subaddresses = \"7-8\"
counts = 4

[[rule]]
to = \"broadcast\"
direction = \"receive\"
subaddresses = 6
counts = 3

[[mode]]
codes = \"1, 19\"

[[mode]]
to = \"broadcast\"
codes = \"1, 4\"

[[initial]]
subaddress = 8
words = [0x3132, 0, 0x00ff]
";

/// Its table.
const TABLE: &str = "kind,value,subaddress,words,code,to,initial,legal,name
address,5,,,,,,,
broadcast,yes,,,,,,,
wraparound,29,,,,,,,
bit,0x8000,,,,,,,
receive,,\"1-3,5\",\"2,5-8\",,,,,
both,,29,1-32,,,,,
transmit,,7,4,,,,,
transmit,,8,4,,,3132 0000 00ff,,
receive,,6,3,,broadcast,,,
mode,,,,1,both,,,synchronize
mode,,,,4,broadcast,,,transmitter shutdown
mode,,,,19,,,,transmit BIT word
";

#[test]
fn printed(rt: HostRuntime) -> Result<(), Fail> {
    let alloc = rt.alloc();
    let normal = load(alloc, PROFILE)?;
    assert_eq!(rt; export_table(alloc, &normal)?.as_str(), TABLE);
    let smallest = load(alloc, b"address = 0\n")?;
    assert_eq!(rt;
        export_table(alloc, &smallest)?.as_str(),
        "kind,value,subaddress,words,code,to,initial,legal,name\naddress,0,,,,,,,\n"
    );
    Ok(())
}
