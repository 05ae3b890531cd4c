//! The terminal by its calls: where nothing is legal, which no profile says, and slots at once.
mod slots;

ghost use Rattle.std.specs.Prelude.{◌<◌};

use bus_legal::{Legality, RuleList, Setup, setup_of};
use bus_profile::read_profile;
use bus_terminal::{Answer, Event, Flag, Terminal};
use bus_word::{Bus, Cell, Kind, Raw};

/// Every cell is legal, or none, not even the mode codes that are legal by each profile.
#[derive(Clone, Copy)]
pub struct Every(pub bool);

impl Legality for Every {
    ghost is_legal = { λ s _. s.0 };

    fn legal(&self, _cell: Cell) -> bool {
        self.0
    }
}

/// Address 5, with both options and wraparound.
pub fn equipped() -> Setup {
    Setup {
        address: 5,
        broadcast: true,
        wrap: 30,
        accept: true,
        vector: 0x00aa,
        bit: 0x00bb,
        initial: [[0; 32]; 30],
    }
}

fn command(bus: Bus, bits: u16) -> Event {
    Event::Word(bus, Raw::of(Kind::Com, bits))
}

/// Whether a mode code where nothing is legal is answered by this status alone.
fn is_answered_by(code: u16, busy: bool, bits: u16) -> bool
    requires { code < 32 }
{
    let mut terminal = Terminal::power_up(equipped(), Every(false));
    terminal.take(Event::Flag(Flag::Busy, busy));
    terminal.take(command(Bus::A, 0x2c00 + code));
    let at_gap = matches!(terminal.step(Event::Gap(Bus::A)), Answer::Silent);
    let is_sent = match terminal.step(Event::Slot) {
        Answer::Sends(sent) => sent.bus == Bus::A && sent.kind == Kind::Com && sent.bits == bits,
        _ => false,
    };
    let after = matches!(terminal.step(Event::Slot), Answer::Silent);
    at_gap && is_sent && after
}

#[test]
fn required_mode_codes_where_they_are_illegal(rt: HostRuntime) {
    for code in [2u16, 4, 5, 8] {
        assert!(rt; is_answered_by(code, false, 0x2c00), "code {code}");
        assert!(rt;
            is_answered_by(code, true, 0x2c08),
            "code {code} while busy"
        );
    }
}

/// Transmit commands for two words of subaddress 1 are legal, and two words are held there at power-up.
const PROFILE: &[u8] = b"address = 5
[[rule]]
direction = \"transmit\"
subaddresses = \"1\"
counts = \"2\"
[[initial]]
subaddress = 1
words = [0x1234, 0xabcd]
";

/// The words that a terminal over the rules of `PROFILE` sends at its next slots.
#[test]
fn a_terminal_that_asks_the_rules_of_a_profile(rt: HostRuntime) {
    let Ok(profile) = read_profile(rt.alloc(), PROFILE) else {
        panic!(rt; "the profile is refused");
    };
    let mut terminal = Terminal::power_up(setup_of(&profile), RuleList::of(&profile));
    terminal.take(command(Bus::A, 0x2c22));
    terminal.take(Event::Gap(Bus::A));
    for bits in [0x2800u16, 0x1234, 0xabcd] {
        let is_sent = match terminal.step(Event::Slot) {
            Answer::Sends(sent) => sent.bits == bits,
            _ => false,
        };
        assert!(rt; is_sent, "{bits:04x}");
    }
}
