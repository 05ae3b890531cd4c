//! What is left behind at a terminal, and by messages on a bus.
use bus_terminal::{Event, Flag, Terminal};
use bus_word::{Bus, Kind, Raw};
use rt1553::load;
use std::test::Fail;
use terminal_bus::{BusEvent, TerminalBus};
use terminal_schedules::{LeftAt, LeftBehind, left_behind, play_to_clear};

#[test]
fn terminal_that_is_clear(rt: HostRuntime) -> Result<(), Fail> {
    let normal = load(rt.alloc(), b"address = 5")?;
    let mut terminal = Terminal::power_up(normal.setup(), normal);
    assert!(rt; left_behind(&terminal).is_none());
    terminal.take(Event::Word(Bus::A, Raw::of(Kind::Com, 0x2c02)));
    assert!(rt; left_behind(&terminal) == Some(LeftBehind::Message(Bus::A)));
    terminal.take(Event::Gap(Bus::A));
    assert!(rt; left_behind(&terminal) == Some(LeftBehind::Reply));
    terminal.take(Event::Slot);
    assert!(rt; left_behind(&terminal).is_none());
    terminal.take(Event::Flag(Flag::Busy, true));
    assert!(rt; left_behind(&terminal) == Some(LeftBehind::Busy));
    Ok(())
}

#[test]
fn message_that_shuts_a_transmitter_down(rt: HostRuntime) -> Result<(), Fail> {
    let mut bus = TerminalBus::new();
    for profile in ["address = 5", "address = 6"] {
        let normal = load(rt.alloc(), profile.as_bytes())?;
        assert!(rt; bus.add(normal.setup(), normal).is_ok());
    }
    let message = |command| {
        [
            BusEvent::OnBus(Event::Word(Bus::A, Raw::of(Kind::Com, command))),
            BusEvent::OnBus(Event::Gap(Bus::A)),
            BusEvent::SlotPasses,
        ]
    };
    assert!(rt; play_to_clear(&mut bus, &message(0x3402)).is_none());
    let left = LeftAt {
        address: 6,
        what: LeftBehind::ShutDown(Bus::B),
    };
    assert!(rt; play_to_clear(&mut bus, &message(0x3404)) == Some(left));
    Ok(())
}
