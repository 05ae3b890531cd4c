//! How many events a script has, and that its transcript is the same however many bytes are read and written at once.
ghost use Rattle.std.specs.Prelude.{◌≤◌};

use super::terminal;
use bus_script::run_script;
use byte_streams::{MemorySink, MemorySource};
use std::test::Fail;

/// In each row a name, the number of events, and the script, with `;` for its line feeds.
const COUNTED: &str = "\
    transmit-status|3|A c 2c02;A gap;slot;\n\
    wrong-parity|3|A c 2c02 0;A gap;slot;\n\
    mode-by-31|3|A c 2fe2;A gap;slot;\n\
    receive-two|5|A c 2862;A d 1111;A d 2222;A gap;slot;\n\
    illegal-receive|5|A c 2862;A d 1111;A d 2222;A gap;slot;\n\
    short-message|6|A c 2862;A d 1111;A gap;A c 2c02;A gap;slot;\n\
    transmit-32|35|A c 2c60;A gap;slot;slot;slot;slot;slot;slot;slot;slot;slot;slot;slot;slot;slot;slot;slot;slot;\
    slot;slot;slot;slot;slot;slot;slot;slot;slot;slot;slot;slot;slot;slot;slot;slot;slot;\n\
    broadcast-status|5|A c fc02;A gap;A c 2c02;A gap;slot;\n\
    broadcast-status, option off|5|A c fc02;A gap;A c 2c02;A gap;slot;\n\
    shutdown-other-bus|12|A c 2c04;A gap;slot;B c 2c02;B gap;slot;A c 2c05;A gap;slot;B c 2c02;B gap;slot;\n\
    superseded|7|A c 2862;A d 1111;B c 2c02;B gap;slot;A d 2222;A gap;\n\
    wraparound|8|A c 2bc1;A d beef;A gap;slot;A c 2fc1;A gap;slot;slot;\n\
    last-command|18|A c 2c61;A gap;slot;A c 2c12;A gap;slot;slot;A c 2c02;A gap;slot;A c 2c12;A gap;slot;slot;\
    A c 2c12;A gap;slot;slot;\n\
    rt-to-rt|7|A c 2861;A c 3c81;A gap;A c 3800;A d 0007;A gap;slot;\n\
    rt-to-rt-timeout|7|A c 2861;A c 3c81;A gap;A gap;A c 2c02;A gap;slot;\n\
    command-ends-waiting|6|A c 2861;A c 3c81;A gap;A c 2c02;A gap;slot;\n\
    earlier-word-in-run|6|A c 2862;B c 2c02;A c 2c02;A gap;B gap;slot;\n\
    word-after-mode|6|A c 2c02;A d 0000;A gap;A c 2c02;A gap;slot;\n\
    broadcast-transmitter|5|A c f861;A c 2c81;A gap;slot;slot;\n\
    busy-receive|5|flag busy 1;A c 2861;A d 0007;A gap;slot;\n\
    inhibit-flag|10|flag terminal 1;A c 2c06;A gap;slot;A c 2c02;A gap;slot;A c 2c07;A gap;slot;\n\
    vector-and-reset|12|vector 1234;A c 2c10;A gap;slot;slot;A c 2c08;A gap;slot;A c 2c10;A gap;slot;slot;\n\
    bus-control|3|A c 2c00;A gap;slot;\n\
    broadcast-sync|6|A c f811;A d 00ff;A gap;A c 2c02;A gap;slot;\n\
    written-word|6|write 03 02 00bb;A c 2c62;A gap;slot;slot;slot;\n\
    no slot|2|A c 2c02;A gap;\n\
    the status is formed at the gap|5|A c 2c05;A gap;flag busy 1;slot;slot;\n\
    a word written between slots|6|A c 2c62;A gap;slot;write 03 02 00bb;slot;slot;\n\
    a command during a reply|10|A c 2c62;A gap;slot;A c 2c02;A gap;slot;slot;A c 2c02;A gap;slot;\n\
    a reply dropped by the other bus|7|A c 2c62;A gap;slot;B c 2c02;slot;B gap;slot;\n\
    a reset acts in its slot|8|A c 2c08;A gap;vector 1234;slot;A c 2c10;A gap;slot;slot;\n\
    a reset that is dropped does not act|7|vector 1234;A c 2c08;A gap;B c 2c10;B gap;slot;slot;\n\
    a reset in silence acts at its gap|8|A c 2c04;A gap;slot;B c 2c08;B gap;B c 2c02;B gap;slot;\n\
    empty-script|0|\n\
    thirty-two words are sent on bus A|67|write 04 01 001f;write 04 02 0860;write 04 03 10a1;write 04 04 18e2;\
    write 04 05 2123;write 04 06 2964;write 04 07 31a5;write 04 08 39e6;write 04 09 4227;write 04 10 4a68;\
    write 04 11 52a9;write 04 12 5aea;write 04 13 632b;write 04 14 6b6c;write 04 15 73ad;write 04 16 7bee;\
    write 04 17 842f;write 04 18 8c70;write 04 19 94b1;write 04 20 9cf2;write 04 21 a533;write 04 22 ad74;\
    write 04 23 b5b5;write 04 24 bdf6;write 04 25 c637;write 04 26 ce78;write 04 27 d6b9;write 04 28 defa;\
    write 04 29 e73b;write 04 30 ef7c;write 04 31 f7bd;write 04 32 fffe;A c 2c80;A gap;slot;slot;slot;slot;slot;\
    slot;slot;slot;slot;slot;slot;slot;slot;slot;slot;slot;slot;slot;slot;slot;slot;slot;slot;slot;slot;slot;slot;\
    slot;slot;slot;slot;slot;slot;\n\
    thirty-two words are sent on bus B|67|write 04 01 001f;write 04 02 0860;write 04 03 10a1;write 04 04 18e2;\
    write 04 05 2123;write 04 06 2964;write 04 07 31a5;write 04 08 39e6;write 04 09 4227;write 04 10 4a68;\
    write 04 11 52a9;write 04 12 5aea;write 04 13 632b;write 04 14 6b6c;write 04 15 73ad;write 04 16 7bee;\
    write 04 17 842f;write 04 18 8c70;write 04 19 94b1;write 04 20 9cf2;write 04 21 a533;write 04 22 ad74;\
    write 04 23 b5b5;write 04 24 bdf6;write 04 25 c637;write 04 26 ce78;write 04 27 d6b9;write 04 28 defa;\
    write 04 29 e73b;write 04 30 ef7c;write 04 31 f7bd;write 04 32 fffe;B c 2c80;B gap;slot;slot;slot;slot;slot;\
    slot;slot;slot;slot;slot;slot;slot;slot;slot;slot;slot;slot;slot;slot;slot;slot;slot;slot;slot;slot;slot;slot;\
    slot;slot;slot;slot;slot;slot;\n\
    thirty-two words are handed over|35|A c 2860;A d 001f;A d 0860;A d 10a1;A d 18e2;A d 2123;A d 2964;A d 31a5;\
    A d 39e6;A d 4227;A d 4a68;A d 52a9;A d 5aea;A d 632b;A d 6b6c;A d 73ad;A d 7bee;A d 842f;A d 8c70;A d 94b1;\
    A d 9cf2;A d a533;A d ad74;A d b5b5;A d bdf6;A d c637;A d ce78;A d d6b9;A d defa;A d e73b;A d ef7c;A d f7bd;\
    A d fffe;A gap;slot;\n\
    thirty-two words of a broadcast are handed over|34|A c fbc0;A d 001f;A d 0860;A d 10a1;A d 18e2;A d 2123;\
    A d 2964;A d 31a5;A d 39e6;A d 4227;A d 4a68;A d 52a9;A d 5aea;A d 632b;A d 6b6c;A d 73ad;A d 7bee;A d 842f;\
    A d 8c70;A d 94b1;A d 9cf2;A d a533;A d ad74;A d b5b5;A d bdf6;A d c637;A d ce78;A d d6b9;A d defa;A d e73b;\
    A d ef7c;A d f7bd;A d fffe;A gap;\n\
    bus control|3|A c 2c00;A gap;slot;\n\
    synchronize|3|B c 2c01;B gap;slot;\n\
    synchronize by broadcast|3|A c fc01;A gap;slot;\n\
    self test|3|A c 2c03;A gap;slot;\n\
    synchronize with a data word|4|A c 2811;A d 00ff;A gap;slot;\n\
    synchronize with a data word by broadcast|3|B c f811;B d ABCD;B gap;\n\
    vector word and BIT word|8|A c 2c10;A gap;slot;slot;A c 2c13;A gap;slot;slot;\n\
    nothing|0|\n\
    a comment of 64 bytes|0|################################################################\n\
    comments and empty lines|0|;# a comment;;\n\
    no slot|2|A c 2c02;A gap;\n\
    a slot|3|A c 2c02;A gap;slot;\n\
    capital digits and no last line feed|3|A c 2C02;A gap;slot\n\
    wrong parity|3|A c 2c02 0;A gap;slot;\n\
    the vector word behind a busy reply|10|flag busy 1;B c 2c61;B gap;slot;vector 0f0f;flag busy 0;B c 2c10;B gap;\
    slot;slot;\n\
    a word written behind an illegal command|7|A c 2c81;A gap;slot;write 04 01 beef;;A gap;slot;slot;";

/// How many events a run of a script gives that is read and written in so many bytes at once, and what it writes.
fn play(script: &[u8], read: usize, written: usize) -> (Option<u64>, MemorySink<512>)
    requires read { 1 ≤ read }
    requires written { 1 ≤ written }
{
    let mut reader = MemorySource::new(script, read, None);
    let mut writer = MemorySink::new(written, None);
    let events = run_script(&mut terminal(), &mut reader, &mut writer).ok();
    (events, writer)
}

#[test]
fn events_are_counted(rt: HostRuntime) -> Result<(), Fail> {
    for row in COUNTED.split('\n') {
        let (name, rest) = row.split_once('|').ok_or("a row without a number")?;
        let (wanted, lines) = rest.split_once('|').ok_or("a row without a script")?;
        let mut script = Vec::new(rt.alloc());
        for byte in lines.as_bytes() {
            script.push(if *byte == b';' { b'\n' } else { *byte })?;
        }
        let (counted, in_pieces) = play(script.as_slice(), 7, 5);
        let (_, at_once) = play(script.as_slice(), 1024, 512);
        assert!(rt;
            counted.is_some()
                && counted == wanted.parse::<u64>().ok()
                && in_pieces.as_slice() == at_once.as_slice(),
            "{name}"
        );
    }
    Ok(())
}
