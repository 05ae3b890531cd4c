//! Recordings, followed by a terminal.
use crate::terminals::{Every, equipped};
use bus_terminal::{Answer, Event, Terminal};
use bus_word::{Bus, Kind, Raw};
use byte_streams::MemorySink;
use monitor_cells::{RecordingSetup, read_time};
use monitor_tables::{open_table, write_recording};
use recorded_terminal::{Sent, Sighting, behaviour};
use rt1553::load;
use script_recordings::{watch_recording, watch_since, witness, witness_since};
use std::alloc::{AllocError, Global};
use std::test::Fail;

/// The recording of events, each with the word that was sent in it.
fn recording_of(
    alloc: Global,
    seen: &[(Event, Option<Sent>)],
) -> Result<Vec<Sighting>, AllocError> {
    let mut recording = Vec::new(alloc);
    for (event, sent) in seen {
        if let Some(sighting) = Sighting::of(*event, *sent) {
            recording.push(sighting)?;
        }
    }
    Ok(recording)
}

fn sent(kind: Kind, bits: u16) -> (Event, Option<Sent>) {
    let sent = Sent {
        bus: Bus::A,
        kind,
        bits,
    };
    (Event::Slot, Some(sent))
}

fn command(bits: u16) -> (Event, Option<Sent>) {
    (Event::Word(Bus::A, Raw::of(Kind::Com, bits)), None)
}

#[test]
fn first_line_that_nothing_explains(rt: HostRuntime) -> Result<(), Fail> {
    let normal = load(rt.alloc(), b"address = 5")?;
    let script = b"A c 2c02\nA gap\nslot\n#> A s 2900\n".as_slice();
    let Some(first) = watch_recording(rt.alloc(), &normal, script)?.first else {
        panic!(rt; "it is explained");
    };
    assert_eq!(rt; first.answer.line, 3);
    assert_eq!(rt; first.answer.came.as_slice(), b"A s 2800\n".as_slice());
    assert_eq!(rt; first.command, Some(0x2c02));
    Ok(())
}

/// A data word of which only the place is stated.
#[test]
fn data_word_that_is_left_open(rt: HostRuntime) -> Result<(), Fail> {
    let profile =
        b"address = 5\n[[rule]]\ndirection = \"transmit\"\nsubaddresses = \"3\"\ncounts = \"1\"\n";
    let normal = load(rt.alloc(), profile.as_slice())?;
    let script = b"A c 2c61\nA gap\nslot\n#> A s 2800\nslot\n#~ A d ....\n".as_slice();
    let it = watch_recording(rt.alloc(), &normal, script)?;
    assert!(rt; it.first.is_none(), "it is explained");
    let script = b"A c 2c61\nA gap\nslot\n#> A s 2808\nslot\n#~ A d ....\n".as_slice();
    let Some(first) = watch_recording(rt.alloc(), &normal, script)?.first else {
        panic!(rt; "it is explained");
    };
    assert_eq!(rt; first.answer.line, 5);
    assert_eq!(rt; first.answer.expected.as_slice(), b"A d ....\n".as_slice());
    assert_eq!(rt; first.answer.came.as_slice(), b"".as_slice());
    Ok(())
}

/// A transfer whose transmitter is late: whether the terminal gave up waiting shows in the next status word.
#[test]
fn gap_that_may_have_come(rt: HostRuntime) -> Result<(), Fail> {
    let profile =
        b"address = 5\n[[rule]]\ndirection = \"receive\"\nsubaddresses = \"1\"\ncounts = \"1\"\n";
    let normal = load(rt.alloc(), profile.as_slice())?;
    let gave_up =
        b"A c 2821\nA c 3421\nA gap\n#? A gap\nA c 3000\nA d 0001\nA gap\nslot\nA c 2c02\nA gap\nslot\n#> A s 2c00\n".as_slice();
    let it = watch_recording(rt.alloc(), &normal, gave_up)?;
    assert!(rt; it.first.is_none(), "the gap came");
    let waited =
        b"A c 2821\nA c 3421\nA gap\n#? A gap\nA c 3000\nA d 0001\nA gap\nslot\n#> A s 2800\n".as_slice();
    let it = watch_recording(rt.alloc(), &normal, waited)?;
    assert!(rt; it.first.is_none(), "the gap did not come");
    let neither =
        b"A c 2821\nA c 3421\nA gap\n#? A gap\nA c 3000\nA d 0001\nA gap\nslot\n#> A s 2c00\n".as_slice();
    let Some(first) = watch_recording(rt.alloc(), &normal, neither)?.first else {
        panic!(rt; "it is explained");
    };
    assert_eq!(rt; first.answer.line, 8);
    Ok(())
}

/// A status that was kept before, a pause, and then a message.
#[test]
fn recording_of_a_unit_that_was_on(rt: HostRuntime) -> Result<(), Fail> {
    let normal = load(rt.alloc(), b"address = 5")?;
    let script =
        b"A c 2c02\nA gap\nslot\n#> A s 2d04\nA gap\nA gap\nB gap\nB gap\nslot\nA c 2c05\nA gap\nslot\n#> A s 2804\n".as_slice();
    let it = watch_since(rt.alloc(), &normal, script)?;
    assert_eq!(rt; it.after, Some(9));
    assert!(rt; it.first.is_none(), "it is explained");
    let script =
        b"A gap\nA gap\nB gap\nB gap\nslot\nA c 2c05\nA gap\nslot\n#> A s 2820\n".as_slice();
    let it = watch_since(rt.alloc(), &normal, script)?;
    assert_eq!(rt; it.after, Some(5));
    assert_eq!(rt; it.first.map(|first| first.answer.line), Some(8));
    Ok(())
}

/// A unit whose transmitter on bus B was shut down before: the events that shut it come first, and then the part that is judged.
#[test]
fn witness_of_a_unit_that_was_on(rt: HostRuntime) -> Result<(), Fail> {
    let normal = load(rt.alloc(), b"address = 5")?;
    let script =
        b"A gap\nA gap\nB gap\nB gap\nslot\nB c 2c05\nB gap\nslot\nA c 2c05\nA gap\nslot\n#> A s 2804\n".as_slice();
    let Some(told) = witness_since(rt.alloc(), &normal, script)? else {
        panic!(rt; "no part begins afresh");
    };
    let played =
        b"A c 2c04\nA gap\nslot\nflag subsystem 1\nB c 2c05\nB gap\nslot\nA c 2c05\nA gap\nslot\n".as_slice();
    assert_eq!(rt; told.as_slice(), played);
    let script = b"A c 2c05\nA gap\nslot\n#> A s 2800\n".as_slice();
    assert!(rt;
        witness_since(rt.alloc(), &normal, script)?.is_none(),
        "no pause"
    );
    Ok(())
}

#[test]
fn subsystem_of_a_script(rt: HostRuntime) -> Result<(), Fail> {
    let normal = load(rt.alloc(), b"address = 5")?;
    let script = b"A c 2c61\nA gap\nslot\n#> A s 2d00\n".as_slice();
    let told = witness(rt.alloc(), &normal, script)?;
    let played = b"flag service 1\nA c 2c61\nA gap\nslot\n".as_slice();
    assert_eq!(rt; told.as_slice(), played);
    Ok(())
}

/// What the subsystem did by a recording, played to a terminal: just what was seen.
#[test]
fn behaviour_of_a_subsystem(rt: HostRuntime) -> Result<(), Fail> {
    let seen = [
        (Event::Noise(Bus::B), None),
        command(0x2c61),
        (Event::Gap(Bus::A), None),
        sent(Kind::Com, 0x2904),
        sent(Kind::Dat, 0x1234),
        command(0x2c10),
        (Event::Gap(Bus::A), None),
        sent(Kind::Com, 0x2809),
    ];
    let recording = recording_of(rt.alloc(), &seen)?;
    let events = behaviour(rt.alloc(), equipped(), Every(true), recording.as_slice())?;
    let mut terminal = Terminal::power_up(equipped(), Every(true));
    let mut bits = Vec::new(rt.alloc());
    for event in &events {
        if let Answer::Sends(sent) = terminal.step(*event) {
            bits.push(sent.bits)?;
        }
    }
    assert_eq!(rt; bits.as_slice(), [0x2904u16, 0x1234, 0x2809].as_slice());
    // two flags before the first, four before the data word, and the word
    assert_eq!(rt; events.len(), 8 + 2 + 4 + 1);
    Ok(())
}

#[test]
fn time_in_a_cell(rt: HostRuntime) -> Result<(), Fail> {
    let time = read_time(b"1047.5").map(|time| time.nanos);
    assert_eq!(rt; time, Some(1_047_500));
    Ok(())
}

#[test]
fn table_of_a_monitor(rt: HostRuntime) -> Result<(), Fail> {
    let table: &[u8] = b"time,bus,sync,word\n0,A,c,2c02\n24,A,s,2800\n";
    let mut sink: MemorySink<100> = MemorySink::new(100, None);
    let mut opened = open_table(rt.alloc(), table)?;
    write_recording(&mut opened, &RecordingSetup::of(5), &mut sink)?;
    assert_eq!(rt;
        sink.as_slice(),
        b"# 0\nA c 2c02\nA gap\n# 24\nslot\n#> A s 2800\nA gap\nslot\n".as_slice()
    );
    Ok(())
}
