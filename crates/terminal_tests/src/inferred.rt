//! Profiles that recordings show.
use inferred_profiles::{Unseen, infer};
use script_recordings::read_recording;
use std::test::Fail;

/// A message to transmit that is legal, one to receive that isn't, and one by broadcast that the next status word reports.
const SEEN: &[u8] =
    b"A c 2c61\nA gap\nslot\n#> A s 2800\nslot\n#> A d 1234\nA c 2822\nA d 0001\nA d 0002\nA gap\nslot\n#> A s 2c00\nA c f841\nA d 0007\nA gap\nA c 2c02\nA gap\nslot\n#> A s 2810\n";

/// The profile that they show.
const PROPOSED: &str = "# Terminal 5, as a recording shows it: this profile explains the recording.
# \"line 9\": the command of the first message that shows the entry is line 9 of the recording.
# \"tried\": no message shows it alone, and the recording is explained with it.
# What the recording does not show is illegal here.
# It never shows which words are held: vector, bit, initial and wraparound are left out.
address = 5
broadcast = true # tried

# transmit 3, 1 word: line 1
[[rule]]
direction = \"transmit\"
subaddresses = \"3\"
counts = \"1\"

# broadcast, receive 2, 1 word: line 13
[[rule]]
to = \"broadcast\"
direction = \"receive\"
subaddresses = \"2\"
counts = \"1\"

# Illegal:
# receive 1, 2 words: line 7
";

#[test]
fn profile_of_a_recording(rt: HostRuntime) -> Result<(), Fail> {
    let recording = read_recording(rt.alloc(), 5, SEEN)?;
    let Some(text) = infer(rt.alloc(), 5, Unseen::Illegal, recording.as_slice())? else {
        panic!(rt; "none is proposed");
    };
    assert_eq!(rt; text.as_str(), PROPOSED);
    Ok(())
}

/// A gap that may have come is left out where a profile is sought.
#[test]
fn profile_of_a_recording_with_gaps(rt: HostRuntime) -> Result<(), Fail> {
    let seen = b"#? B gap\nA c 2c61\nA gap\nslot\n#> A s 2800\nslot\n#> A d 1234\n".as_slice();
    let recording = read_recording(rt.alloc(), 5, seen)?;
    let Some(text) = infer(rt.alloc(), 5, Unseen::Illegal, recording.as_slice())? else {
        panic!(rt; "none is proposed");
    };
    assert!(rt;
        text.as_str().contains("# transmit 3, 1 word: line 2\n"),
        "{}",
        text.as_str()
    );
    Ok(())
}

/// What is not shown is legal by the other setting. Mode code 18 shows itself by its data word; by broadcast, transmitter shutdown is
/// legal, since bus B is silent afterwards.
#[test]
fn profile_with_what_is_not_shown(rt: HostRuntime) -> Result<(), Fail> {
    let seen =
        b"A c 2c12\nA gap\nslot\n#> A s 2800\nslot\n#> A d 0000\nA c fc04\nA gap\nB c 2c01\nB gap\nslot\n".as_slice();
    let recording = read_recording(rt.alloc(), 5, seen)?;
    let Some(text) = infer(rt.alloc(), 5, Unseen::Legal, recording.as_slice())? else {
        panic!(rt; "none is proposed");
    };
    for part in [
        "broadcast = true # tried\n",
        "# 18, transmit last command: line 1\n",
        "# 1, synchronize: not shown\n",
        "# 4, transmitter shutdown: tried\n",
        "direction = \"both\"\nsubaddresses = \"1-30\"\n",
    ] {
        assert!(rt; text.as_str().contains(part), "{part}");
    }
    Ok(())
}

/// A status word that nothing asked for, and one with a reserved bit.
#[test]
fn recordings_of_no_profile(rt: HostRuntime) -> Result<(), Fail> {
    for seen in [
        b"slot\n#> A s 2800\n".as_slice(),
        b"A c 2c02\nA gap\nslot\n#> A s 2820\n".as_slice(),
    ] {
        let recording = read_recording(rt.alloc(), 5, seen)?;
        for unseen in [Unseen::Legal, Unseen::Illegal] {
            let text = infer(rt.alloc(), 5, unseen, recording.as_slice())?;
            assert!(rt; text.is_none(), "none is proposed");
        }
    }
    Ok(())
}
