//! Slots one after another, which are played in one go while they send words of a subaddress.
use super::terminal;
use arrayvec::ArrayString;
use bus_script::{RunFault, run_script};
use byte_streams::{MemorySink, MemorySource};
use std::alloc::AllocError;
use std::process::Abort;

/// Six events: a reply of a status word and four data words begins.
const FOUR_WORDS: &str = "write 04 01 1111\nwrite 04 02 2222\nwrite 04 03 3333\nwrite 04 04 4444\n\
    A c 2c84\nA gap\n";

/// What its five slots send.
const SENT: &str = "A s 2800\nA d 1111\nA d 2222\nA d 3333\nA d 4444\n";

/// A reply of four words that goes on like this.
fn reply(rt: &impl Abort, after: &str) -> ArrayString<256> {
    let mut script = ArrayString::new();
    for part in [FOUR_WORDS, after] {
        assert!(rt; script.try_push_str(part).is_ok(), "no room for {part}");
    }
    script
}

/// A reply of four words that goes on like this gives that, however many bytes are read at once.
fn gives(rt: &impl Abort, after: &str, wanted: Result<u64, RunFault>, transcript: &str) {
    let script = reply(rt, after);
    for at_once in [1, 4, 5, 7, 64, 100, 1000] {
        let mut reader = MemorySource::new(script.as_str().as_bytes(), at_once, None);
        let mut writer: MemorySink<512> = MemorySink::new(512, None);
        let result = run_script(&mut terminal(), &mut reader, &mut writer);
        assert_eq!(rt; result, wanted, "{after}");
        assert_eq!(rt; writer.as_slice(), transcript.as_bytes(), "{after}");
    }
}

#[test]
fn as_many_slots_as_words_or_others(rt: HostRuntime) {
    gives(&rt, "slot\nslot\nslot\nslot\nslot\n", Ok(11), SENT);
    gives(&rt, "slot\nslot\nslot\nslot\nslot", Ok(11), SENT);
    gives(
        &rt,
        "slot\nslot\nslot\nslot\nslot\nslot\nslot\n",
        Ok(13),
        SENT,
    );
    gives(&rt, "slot\nslot\nslot\n", Ok(9), &SENT[..27]);
    gives(&rt, "slot\nslot\nslot", Ok(9), &SENT[..27]);
}

#[test]
fn what_stands_between_slots(rt: HostRuntime) {
    // a comment, an empty line, and words of the other bus that are for another terminal change nothing
    gives(
        &rt,
        "slot\nslot\n# here\nslot\n\nslot\nB c 3c84\nslot\n",
        Ok(12),
        SENT,
    );
    // a word that is written is sent where it was not sent yet
    gives(
        &rt,
        "slot\nslot\nwrite 04 01 5555\nwrite 04 03 6666\nslot\nslot\nslot\n",
        Ok(13),
        "A s 2800\nA d 1111\nA d 2222\nA d 6666\nA d 4444\n",
    );
    // a valid command for this terminal on the other bus ends the reply
    gives(
        &rt,
        "slot\nslot\nB c 2c02\nslot\nslot\nB gap\nslot\nslot\n",
        Ok(14),
        "A s 2800\nA d 1111\nB s 2800\n",
    );
    // a line that is no slot is told by its number
    gives(
        &rt,
        "slot\nslot\nslot \nslot\n",
        Err(RunFault::Line(9)),
        &SENT[..18],
    );
    gives(
        &rt,
        "slot\nslot\nslow\nslot\n",
        Err(RunFault::Line(9)),
        &SENT[..18],
    );
    gives(
        &rt,
        "slot\nslot\nslot\nslot\nslot\nslot\nslots\n",
        Err(RunFault::Line(13)),
        SENT,
    );
}

#[test]
fn writes_that_fail_between_slots(rt: HostRuntime) {
    let script = reply(&rt, "slot\nslot\nslot\nslot\nslot\nslot\n");
    for at_once in [1, 5, 9, 100] {
        for call in 0..46u64 {
            let mut reader = MemorySource::new(script.as_str().as_bytes(), 1000, None);
            let mut writer: MemorySink<512> = MemorySink::new(at_once, Some(call));
            let result = run_script(&mut terminal(), &mut reader, &mut writer);
            if result.is_ok() {
                assert_eq!(rt; result, Ok(12));
                assert_eq!(rt; writer.as_slice(), SENT.as_bytes());
            } else {
                assert_eq!(rt; result, Err(RunFault::Write));
                assert!(rt; SENT.as_bytes().starts_with(writer.as_slice()));
                assert!(rt; writer.as_slice().len() < SENT.len());
            }
        }
    }
    let mut reader = MemorySource::new(script.as_str().as_bytes(), 1000, None);
    let mut full: MemorySink<31> = MemorySink::new(100, None);
    let result = run_script(&mut terminal(), &mut reader, &mut full);
    assert_eq!(rt; result, Err(RunFault::Write));
    assert_eq!(rt; full.as_slice(), &SENT.as_bytes()[..31]);
}

#[test]
fn the_last_line_there_may_be_is_a_slot(rt: HostRuntime) -> Result<(), AllocError> {
    // six lines of the reply, then so many empty ones that room is left for three slots
    let mut script = vec![in rt.alloc(); 10u8; 1_048_576 - 9]?;
    script.extend_from_slice(reply(&rt, "slot\nslot\nslot\n").as_str().as_bytes())?;
    let mut reader = MemorySource::new(script.as_slice(), 4096, None);
    let mut writer: MemorySink<512> = MemorySink::new(512, None);
    let fits = run_script(&mut terminal(), &mut reader, &mut writer);
    assert_eq!(rt; fits, Ok(9));
    assert_eq!(rt; writer.as_slice(), &SENT.as_bytes()[..27]);

    script.extend_from_slice(b"slot\n")?;
    let mut reader = MemorySource::new(script.as_slice(), 4096, None);
    let mut writer: MemorySink<512> = MemorySink::new(512, None);
    let more = run_script(&mut terminal(), &mut reader, &mut writer);
    assert_eq!(rt; more, Err(RunFault::TooLong));
    assert_eq!(rt; writer.as_slice(), &SENT.as_bytes()[..27]);
    Ok(())
}
