//! A terminal of a text, stepped by hand; addresses of canonical texts; the sets that texts of mode codes name; full
//! profiles.
use bus_profile::parse_ranges;
use rt1553::{Answer, Bus, Event, Kind, Raw, Terminal, canonical, load};
use rt1553_export::full_table_of;
use rt1553_import::import_table;
use rt1553_toml::full_toml_of;
use std::test::Fail;

#[test]
fn terminal_of_a_text(rt: HostRuntime) {
    let Ok(normal) = load(rt.alloc(), b"address = 5") else {
        assert!(rt; false, "loaded");
        return;
    };
    let setup = normal.setup();
    let mut terminal = Terminal::power_up(setup, normal);
    terminal.take(Event::Word(Bus::A, Raw::of(Kind::Com, 0x2c02)));
    terminal.take(Event::Gap(Bus::A));
    let is_sent = match terminal.step(Event::Slot) {
        Answer::Sends(sent) => {
            sent.bits == 0x2800 && sent.kind == Kind::Com && sent.bus == Bus::A
        }
        _ => false,
    };
    assert!(rt; is_sent, "sends its status word");
}

#[test]
fn addresses_of_canonical_texts(rt: HostRuntime) -> Result<(), Fail> {
    for address in 0..31u8 {
        let profile = format!(in rt.alloc(); "address = {address}")?;
        let text = canonical(rt.alloc(), profile.as_str().as_bytes())?;
        assert_eq!(rt; load(rt.alloc(), text.as_slice())?.address(), address);
    }
    Ok(())
}

/// No text shows which numbers that are no mode codes are in the set.
#[test]
fn sets_of_mode_codes(rt: HostRuntime) {
    for (text, set) in [
        ("0-31", 0xffff_ffffu32),
        ("000", 0x0000_0001),
        ("31", 0x8000_0000),
    ] {
        assert_eq!(rt; parse_ranges(text, 0, 31).ok(), Some(set), "{text}");
    }
}

/// Profiles with all that a full profile can say, and with as little as one can.
const PROFILES: [&[u8]; 3] = [
    b"address = 5\n",
    b"address = 30\nwraparound = false\nvector = 65535\nmode = [{codes = 16}]\nrule = [{direction = \"transmit\", subaddresses = 30}]\ninitial = [{subaddress = 30, at = 32, words = [65535]}]\n",
    b"address = 0\nbroadcast = true\naccept_bus_control = true\nbit = 1\nmode = [{codes = \"0,19\"}, {to = \"broadcast\", codes = \"1,3-8,17\"}]\nrule = [{to = \"both\", direction = \"both\", subaddresses = \"1-30\", counts = \"1,32\"}]\n",
];

#[test]
fn full_profiles_mean_the_same(rt: HostRuntime) -> Result<(), Fail> {
    for profile in &PROFILES {
        let normal = load(rt.alloc(), *profile)?;
        let full = full_toml_of(rt.alloc(), &normal)?;
        let back = load(rt.alloc(), full.as_str().as_bytes())?;
        assert!(rt; back.is_same(&normal), "{profile:?}");
    }
    Ok(())
}

#[test]
fn full_tables_mean_the_same(rt: HostRuntime) -> Result<(), Fail> {
    for profile in &PROFILES {
        let normal = load(rt.alloc(), *profile)?;
        let full = full_table_of(rt.alloc(), &normal)?;
        let Ok(imported) = import_table(rt.alloc(), full.as_str().as_bytes()) else {
            panic!(rt; "the table is refused");
        };
        let back = load(rt.alloc(), imported.profile.as_str().as_bytes())?;
        assert!(rt; back.is_same(&normal), "{profile:?}");
    }
    Ok(())
}
