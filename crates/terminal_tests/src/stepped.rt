//! A terminal that is stepped by plain numbers is made and stepped, and a text is refused; and a bus of terminals likewise.
use live_bus::{copy_bus, join_bus, new_bus, step_bus};
use rt1553_live::{PlainEvent, new_live, step_live};

/// A command word on bus A, transmit status word for address 5.
const TRANSMIT_STATUS: PlainEvent = PlainEvent {
    what: 0,
    bus: 0,
    sync: 0,
    parity: 2,
    subaddress: 0,
    number: 0,
    flag: 0,
    value: 0,
    bits: 0x2c02,
};

#[test]
fn a_status_word_is_sent_in_its_slot(rt: HostRuntime) {
    let made = new_live(rt.alloc(), b"address = 5\n");
    assert!(rt; made.is_ok());
    if let Ok(mut live) = made {
        for (what, wanted) in [(0, 0), (2, 0), (7, 1), (7, 0)] {
            live.event = PlainEvent {
                what,
                ..TRANSMIT_STATUS
            };
            assert_eq!(rt; step_live(&mut live), 0);
            assert_eq!(rt; live.answer.what, wanted);
        }
        assert_eq!(rt; live.answer.bits, 0x2800);
        live.event.what = 8;
        assert_eq!(rt; step_live(&mut live), 2);
    }
}

#[test]
fn a_text_is_refused(rt: HostRuntime) {
    assert!(rt; new_live(rt.alloc(), b"adress = 5\n").is_err());
}

#[test]
fn a_bus_by_numbers_tells_who_sends(rt: HostRuntime) {
    let (made, first) = (new_bus(rt.alloc()), new_live(rt.alloc(), b"address = 5\n"));
    assert!(rt; made.is_some() && first.is_ok());
    if let (Some(mut live), Ok(pump)) = (made, first) {
        assert!(rt; join_bus(&mut live, &pump).is_ok());
        live.event = TRANSMIT_STATUS;
        assert_eq!(rt; step_bus(&mut live), 0);
        live.event.what = 2;
        assert_eq!(rt; step_bus(&mut live), 0);
        assert!(rt; join_bus(&mut live, &pump).is_err());
        let copy = copy_bus(rt.alloc(), &live);
        assert!(rt; copy.is_some());
        if let Some(mut live) = copy {
            live.event.what = 7;
            assert_eq!(rt; step_bus(&mut live), 0);
            assert!(rt; live.count == 1 && !live.collided_a && !live.collided_b);
            assert!(rt; live.answers[0].address == 5 && live.answers[0].answer.bits == 0x2800);
            live.to = 6;
            assert_eq!(rt; step_bus(&mut live), 2);
        }
    }
}
