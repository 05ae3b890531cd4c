//! What events show of a terminal.
use bus_terminal::{Event, Flag};
use bus_word::{Bus, Kind, Raw};
use message_names::{MessageNames, NamedCells};
use recording_coverage::{coverage_json, coverage_of, coverage_text};
use rt1553::load;
use std::test::Fail;

fn word(kind: Kind, bits: u16) -> Event {
    Event::Word(Bus::A, Raw::of(kind, bits))
}

#[test]
fn what_events_show(rt: HostRuntime) -> Result<(), Fail> {
    let normal = load(rt.alloc(), b"address = 5")?;
    let events = [
        Event::Word(Bus::A, Raw::of(Kind::Com, 0x2c02)),
        Event::Gap(Bus::A),
    ];
    let table = coverage_of(rt.alloc(), &normal, &events)?;
    let text = coverage_text(rt.alloc(), &table, None)?;
    let lines = concat!(
        "mode code 2, transmit status word           1 done\n",
        "mode code 4, transmitter shutdown           never\n",
        "mode code 5, override transmitter shutdown  never\n",
        "mode code 8, reset remote terminal          never\n",
        "\n",
        "legal messages: 1 of 4 came, 1 done\n",
        "illegal messages: 0 came\n"
    );
    assert_eq!(rt; text.as_str(), lines);
    Ok(())
}

#[test]
fn what_events_show_as_json(rt: HostRuntime) -> Result<(), Fail> {
    let normal = load(rt.alloc(), b"address = 5")?;
    let events = [word(Kind::Com, 0x2c22), Event::Gap(Bus::A)];
    let table = coverage_of(rt.alloc(), &normal, &events)?;
    let Some(json) = coverage_json(rt.alloc(), &table, None) else {
        panic!(rt; "out of memory");
    };
    let text = concat!(
        "{\"came\":0,\"done\":0,\"legal\":[",
        "{\"message\":\"mode code\",\"code\":2,\"mode\":\"transmit status word\",\"done\":0,\"busy\":0,\"illegal\":0,\"in_error\":0,\"superseded\":0,\"open\":0},",
        "{\"message\":\"mode code\",\"code\":4,\"mode\":\"transmitter shutdown\",\"done\":0,\"busy\":0,\"illegal\":0,\"in_error\":0,\"superseded\":0,\"open\":0},",
        "{\"message\":\"mode code\",\"code\":5,\"mode\":\"override transmitter shutdown\",\"done\":0,\"busy\":0,\"illegal\":0,\"in_error\":0,\"superseded\":0,\"open\":0},",
        "{\"message\":\"mode code\",\"code\":8,\"mode\":\"reset remote terminal\",\"done\":0,\"busy\":0,\"illegal\":0,\"in_error\":0,\"superseded\":0,\"open\":0}],",
        "\"illegal\":[{\"command\":\"2c22\",\"message\":\"transmit\",\"subaddress\":1,\"count\":2,\"done\":0,\"busy\":0,\"illegal\":1,\"in_error\":0,\"superseded\":0,\"open\":0}]}"
    );
    assert_eq!(rt; json.as_str(), text);
    Ok(())
}

/// Events in which messages come to each of their ends.
fn every_outcome() -> [Event; 31] {
    [
        // one word, which is done
        word(Kind::Com, 0x2861),
        word(Kind::Dat, 0x1234),
        Event::Gap(Bus::A),
        Event::Slot,
        // two while the unit is busy
        Event::Flag(Flag::Busy, true),
        word(Kind::Com, 0x2862),
        word(Kind::Dat, 0x1234),
        word(Kind::Dat, 0x1234),
        Event::Gap(Bus::A),
        Event::Slot,
        // one in place of two
        word(Kind::Com, 0x2862),
        word(Kind::Dat, 0x1234),
        Event::Gap(Bus::A),
        // mode code 2 with both subaddresses of mode codes
        word(Kind::Com, 0x2c02),
        Event::Gap(Bus::A),
        Event::Slot,
        word(Kind::Com, 0x2fe2),
        Event::Gap(Bus::A),
        Event::Slot,
        // one word from subaddress 9, and mode code 20
        word(Kind::Com, 0x2d21),
        Event::Gap(Bus::A),
        Event::Slot,
        word(Kind::Com, 0x2ff4),
        Event::Gap(Bus::A),
        Event::Slot,
        // one word by broadcast
        word(Kind::Com, 0xf861),
        word(Kind::Dat, 0x1234),
        Event::Gap(Bus::A),
        // three words, which mode code 4 on the other bus supersedes, and that is left open
        word(Kind::Com, 0x2863),
        word(Kind::Dat, 0x1234),
        Event::Word(Bus::B, Raw::of(Kind::Com, 0x2c04)),
    ]
}

#[test]
fn every_outcome_of_messages(rt: HostRuntime) -> Result<(), Fail> {
    let profile =
        b"address = 5\nbroadcast = true\n[[rule]]\nto = \"both\"\nsubaddresses = 3\ncounts = \"1-3\"\ndirection = \"receive\"\n";
    let normal = load(rt.alloc(), profile)?;
    let table = coverage_of(rt.alloc(), &normal, &every_outcome())?;
    let mut names = MessageNames::new(rt.alloc());
    let cells = NamedCells {
        own: true,
        broadcast: false,
        receive: 0b100,
        transmit: 0,
        counts: 0b111,
        codes: 0,
    };
    names.add(String::from_str(rt.alloc(), "settings")?, cells)?;
    let text = coverage_text(rt.alloc(), &table, Some(&names))?;
    let lines = concat!(
        "receive 3                                   1-3: 1 done, 1 busy, 1 in error, 1 superseded  \"settings\"\n",
        "broadcast receive 3                         1: 1 busy; 2-3: never\n",
        "mode code 2, transmit status word           2 done\n",
        "mode code 4, transmitter shutdown           1 open\n",
        "mode code 5, override transmitter shutdown  never\n",
        "mode code 8, reset remote terminal          never\n",
        "\n",
        "illegal\n",
        "mode code 20 with T/R 1, selected shutdown  1 illegal\n",
        "transmit 9                                  1: 1 illegal\n",
        "\n",
        "legal messages: 6 of 10 came, 2 done\n",
        "illegal messages: 2 came\n"
    );
    assert_eq!(rt; text.as_str(), lines);
    Ok(())
}
