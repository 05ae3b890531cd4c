//! Slots at once: the words that they send are lent first, and taken at once they are as one by one.
use super::{Every, command, equipped};
use bus_terminal::{Answer, Event, Sent, Terminal};
use bus_word::{Bus, Kind};

/// The words that subaddress 3 holds.
fn held() -> [u16; 32] {
    let mut words = [0; 32];
    for (at, word) in words.iter_mut().enumerate() {
        *word = 0x0101 + at as u16;
    }
    words
}

/// A terminal of address 5 that has heard this command on bus B, and the gap behind it.
fn after(bits: u16) -> Terminal<Every> {
    let mut setup = equipped();
    setup.wrap = 0;
    setup.initial[2] = held();
    let mut terminal = Terminal::power_up(setup, Every(true));
    terminal.step(Event::Vector(0x1234));
    terminal.step(command(Bus::B, bits));
    terminal.step(Event::Gap(Bus::B));
    terminal
}

/// What is sent on bus B.
fn sends(kind: Kind, bits: u16) -> Answer<'static> {
    Answer::Sends(Sent {
        bus: Bus::B,
        kind,
        bits,
    })
}

#[test]
fn words_that_are_still_to_be_sent_are_lent(rt: HostRuntime) {
    let held = held();
    for count in 1..=32usize {
        for taken in 0..=count + 1 {
            let mut terminal = after(0x2c60 + (count as u16 & 31));
            assert!(rt;
                terminal.words_to_send().is_none(),
                "before the status word"
            );
            terminal.take_slots(taken);
            let left = if taken == 0 {
                None
            } else {
                held[..count].get(taken - 1..)
            };
            match terminal.words_to_send() {
                Some(next) => {
                    assert_eq!(rt; next.bus, Bus::B);
                    assert_eq!(rt; Some(next.words), left, "{count} words, {taken} slots");
                    assert!(rt; !next.words.is_empty());
                }
                None => assert!(rt; taken == 0 || taken > count, "{count} words, {taken} slots"),
            }
            let wanted = match taken {
                0 => sends(Kind::Com, 0x2800),
                _ if taken <= count => sends(Kind::Dat, held[taken - 1]),
                _ => Answer::Silent,
            };
            assert_eq!(rt;
                terminal.step(Event::Slot),
                wanted,
                "{count} words, {taken} slots"
            );
        }
    }
}

#[test]
fn other_words_are_not_lent(rt: HostRuntime) {
    // the vector word, the last command and the BIT word, and a status alone
    for bits in [0x2c10u16, 0x2c12, 0x2c13, 0x2c02] {
        let mut terminal = after(bits);
        for _ in 0..3 {
            assert!(rt; terminal.words_to_send().is_none(), "{bits:04x}");
            terminal.take_slots(1);
        }
        assert_eq!(rt; terminal.step(Event::Slot), Answer::Silent);
    }
}

#[test]
fn slots_at_once_are_as_one_by_one(rt: HostRuntime) {
    for count in 0..=3usize {
        for bits in [0x2c08u16, 0x2c10, 0x2c62, 0x2862] {
            let mut at_once = after(bits);
            let mut one_by_one = after(bits);
            at_once.take_slots(count);
            for _ in 0..count {
                one_by_one.step(Event::Slot);
            }
            // what is left of the reply, and then the vector word, which a reset sets back
            for event in &[
                Event::Slot,
                Event::Slot,
                Event::Slot,
                command(Bus::A, 0x2c10),
                Event::Gap(Bus::A),
                Event::Slot,
                Event::Slot,
            ] {
                let wanted = one_by_one.step(*event);
                assert_eq!(rt; at_once.step(*event), wanted, "{count} slots, {bits:04x}");
            }
        }
    }
}
