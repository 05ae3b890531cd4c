//! Events and the lines that mean them.
use bus_terminal::{Event, Flag, WordPlace};
use bus_word::{Bus, Kind, Raw};
use script_lines::{read_event, write_event};
use std::process::Abort;

/// The line means the event, and is written for it.
fn is_its_line(rt: &impl Abort, line: &str, event: Event) {
    assert_eq!(rt; read_event(line.as_bytes()), Ok(Some(event)), "{line}");
    assert_eq!(rt; write_event(&event).as_str(), line);
}

#[test]
fn words(rt: HostRuntime) {
    let right = Raw::of(Kind::Com, 0x2c02);
    is_its_line(&rt, "A c 2c02", Event::Word(Bus::A, right));
    is_its_line(&rt, "B c 2c02", Event::Word(Bus::B, right));
    let data = Raw::of(Kind::Dat, 0xbeef);
    is_its_line(&rt, "A d beef", Event::Word(Bus::A, data));
    is_its_line(&rt, "B d beef", Event::Word(Bus::B, data));
    // 2c02 has four ones, so that the right parity bit is 1
    let wrong = Raw {
        kind: Kind::Com,
        bits: 0x2c02,
        parity: false,
    };
    is_its_line(&rt, "A c 2c02 0", Event::Word(Bus::A, wrong));
    // beef has 13 ones
    let odd = Raw {
        kind: Kind::Dat,
        bits: 0xbeef,
        parity: true,
    };
    is_its_line(&rt, "B d beef 1", Event::Word(Bus::B, odd));
    for line in ["A c 2C02", "A c 2c02 1"] {
        let event = read_event(line.as_bytes());
        assert_eq!(rt; event, Ok(Some(Event::Word(Bus::A, right))), "{line}");
    }
}

#[test]
fn noise_gaps_and_slots(rt: HostRuntime) {
    is_its_line(&rt, "A noise", Event::Noise(Bus::A));
    is_its_line(&rt, "B noise", Event::Noise(Bus::B));
    is_its_line(&rt, "A gap", Event::Gap(Bus::A));
    is_its_line(&rt, "B gap", Event::Gap(Bus::B));
    is_its_line(&rt, "slot", Event::Slot);
}

#[test]
fn subsystem(rt: HostRuntime) {
    let places = [
        ("write 01 01 00bb", 1, 1, 0x00bb),
        ("write 30 32 ffff", 30, 32, 0xffff),
    ];
    for (line, subaddress, number, word) in places {
        if let Some(place) = WordPlace::of(subaddress, number) {
            is_its_line(&rt, line, Event::Write(place, word));
        }
    }
    is_its_line(&rt, "vector 12ab", Event::Vector(0x12ab));
    is_its_line(&rt, "bit 0000", Event::Bit(0));
    is_its_line(&rt, "flag service 1", Event::Flag(Flag::Service, true));
    is_its_line(&rt, "flag busy 0", Event::Flag(Flag::Busy, false));
    is_its_line(&rt, "flag subsystem 1", Event::Flag(Flag::Subsystem, true));
    is_its_line(&rt, "flag terminal 0", Event::Flag(Flag::Terminal, false));
}

#[test]
fn lines_without_an_event(rt: HostRuntime) {
    for line in [b"".as_slice(), b"#", b"# A gap", b"#\0\r\xff"] {
        assert_eq!(rt; read_event(line), Ok(None));
    }
}
