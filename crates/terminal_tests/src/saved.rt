//! Saved states: what is written of a terminal, and that it goes on from there.
ghost use Rattle.rt1553_live.specs.State.{IsMade};

use bus_legal::Normal;
use bus_terminal::{Answer, Event, Terminal};
use bus_word::{Bus, Kind, Raw};
use rt1553::load;
use rt1553_live::{StateFault, restore, save};
use std::test::Fail;

/// What stands in front of the words held ready, where two words of a message at subaddress 3 were received on bus B.
const COLLECTING: &[u8] =
    b"rt1553-state 1\nbits 01 0000 0001 0000 0000 0000 0000 0000 0000 0000 0000 0000 0000 0000 0000 0000 0000\nregisters 01 0000 0000 2864\nreply 01 0000 0000 0000 0000 0000\nmessage 01 0001 0001 2864 0000 0002\nwords 01 0011 abcd\nheld 01 ";

/// The terminal of a profile at power-up.
fn powered_up(normal: Normal) -> Terminal<Normal>
    ensures { IsMade result }
{
    let setup = normal.setup();
    Terminal::power_up(setup, normal)
}

/// Plays an event whose answer nobody wants.
fn play(terminal: &mut Terminal<Normal>, event: Event)
    requires { IsMade terminal.old }
    ensures { IsMade terminal.new }
{
    let _ = terminal.step(event);
}

#[test]
fn a_saved_state(rt: HostRuntime) -> Result<(), Fail> {
    let normal = load(rt.alloc(), b"address = 5")?;
    let mut terminal = powered_up(normal);
    play(
        &mut terminal,
        Event::Word(Bus::A, Raw::of(Kind::Com, 0x2c02)),
    );
    let state = save(rt.alloc(), &terminal)?;
    let mut again = restore(state.as_slice())?;
    again.take(Event::Gap(Bus::A));
    let status = match again.step(Event::Slot) {
        Answer::Sends(sent) => Some(sent.bits),
        _ => None,
    };
    assert_eq!(rt; status, Some(0x2800));
    Ok(())
}

#[test]
fn a_state_in_the_middle_of_a_message(rt: HostRuntime) -> Result<(), Fail> {
    let normal = load(rt.alloc(), b"address = 5")?;
    let mut terminal = powered_up(normal);
    play(
        &mut terminal,
        Event::Word(Bus::B, Raw::of(Kind::Com, 0x2864)),
    );
    play(
        &mut terminal,
        Event::Word(Bus::B, Raw::of(Kind::Dat, 0x0011)),
    );
    play(
        &mut terminal,
        Event::Word(Bus::B, Raw::of(Kind::Dat, 0xabcd)),
    );
    let state = save(rt.alloc(), &terminal)?;
    assert!(rt; state.as_slice().starts_with(COLLECTING));
    Ok(())
}

#[test]
fn what_is_no_saved_state(rt: HostRuntime) {
    assert!(rt; matches!(restore(b""), Err(StateFault::Line(1))));
    assert!(rt; matches!(restore(b"rt1553-state 2\n"), Err(StateFault::Line(1))));
    assert!(rt;
        matches!(
            restore(b"rt1553-state 1\nbits 01 0002\n"),
            Err(StateFault::Line(2))
        )
    );
}
