//! Lines as events, how many events a script has, and devices: that give and take few bytes, that hold back, that fail.

mod counted;
mod devices;
mod lines;
mod slots;

ghost use Rattle.std.specs.Prelude.{None, true, false};

use super::terminals::{Every, equipped};
use arrayvec::ArrayVec;
use bus_script::{RunFault, run_script};
use bus_terminal::Terminal;
use byte_streams::{IoFailed, MemorySink, MemorySource, Sink};

/// A script of six events with two answers.
const ANSWERED: &[u8] = b"A c 2c02\nA gap\nslot\nA c 2c02\nA gap\nslot\n";

/// All is legal; address 5, both options, no wraparound.
fn terminal() -> Terminal<Every> {
    let mut setup = equipped();
    setup.wrap = 0;
    setup.vector = 0x1234;
    setup.bit = 0xabcd;
    Terminal::power_up(setup, Every(true))
}

#[test]
fn reads_that_fail(rt: HostRuntime) {
    for call in 0..42u64 {
        let mut reader = MemorySource::new(ANSWERED, 1, Some(call));
        let mut writer: MemorySink<512> = MemorySink::new(100, None);
        let result = run_script(&mut terminal(), &mut reader, &mut writer);
        // the answers of the slots whose line feed was read
        let whole: &[u8] = match call {
            0..=19 => b"",
            20..=39 => b"A s 2800\n",
            _ => b"A s 2800\nA s 2800\n",
        };
        assert_eq!(rt; writer.as_slice(), whole, "call {call}");
        let read_whole = call > 40;
        assert_eq!(rt;
            result,
            if read_whole {
                Ok(6)
            } else {
                Err(RunFault::Read)
            }
        );
    }
}

#[test]
fn writes_that_fail(rt: HostRuntime) {
    let transcript = b"A s 2800\nA s 2800\n";
    for call in 0..19u64 {
        let mut reader = MemorySource::new(ANSWERED, 100, None);
        let mut writer: MemorySink<512> = MemorySink::new(1, Some(call));
        let result = run_script(&mut terminal(), &mut reader, &mut writer);
        if call < 18 {
            assert_eq!(rt; result, Err(RunFault::Write), "call {call}");
            assert_eq!(rt; writer.as_slice().len(), call as usize);
            assert!(rt; transcript.starts_with(writer.as_slice()));
        } else {
            assert_eq!(rt; result, Ok(6));
        }
    }
    let mut reader = MemorySource::new(ANSWERED, 100, None);
    let mut full: MemorySink<10> = MemorySink::new(100, None);
    let result = run_script(&mut terminal(), &mut reader, &mut full);
    assert_eq!(rt; result, Err(RunFault::Write));
    assert_eq!(rt; full.as_slice(), b"A s 2800\nA".as_slice());
}

/// A sink that holds back all until it is flushed, and counts.
#[derive(Drop)]
struct Holding {
    held: ArrayVec<u8, 64>,
    handed_on: usize,
    flushes: u64,
}

impl Sink for Holding {
    ghost written = { λ _. None };

    ghost has_failed = { λ _. false };

    fn write(&mut self, bytes: &[u8]) -> Result<usize, IoFailed> {
        for byte in bytes {
            let _ = self.held.try_push(*byte);
        }
        Ok(bytes.len())
    }

    fn flush(&mut self) -> Result<(), IoFailed> {
        self.handed_on = self.held.len();
        self.flushes = self.flushes.saturating_add(1);
        Ok(())
    }

    fn failed(&self) -> bool {
        false
    }
}

#[test]
fn what_is_held_back_is_handed_on(rt: HostRuntime) {
    for (script, flushes) in [
        // before the reads that follow events, and at the end
        (b"A c 2c02\nA gap\nslot\n".as_slice(), 4u64),
        // before the reads that follow events, and where a line is refused
        (b"A c 2c02\nA gap\nslot\nA x\n".as_slice(), 3),
        // a run of no events leaves the sink alone
        (b"# nothing\n".as_slice(), 0),
        (b"# nothing\nA x\n".as_slice(), 0),
    ] {
        let mut reader = MemorySource::new(script, 9, None);
        let mut writer = Holding {
            held: ArrayVec::new(),
            handed_on: 0,
            flushes: 0,
        };
        let _ = run_script(&mut terminal(), &mut reader, &mut writer);
        assert_eq!(rt; writer.handed_on, writer.held.len());
        assert_eq!(rt; writer.flushes, flushes);
    }
}

/// A sink that takes all and can't hand it on.
#[derive(Drop)]
struct Stuck {
    failed: bool,
}

impl Sink for Stuck {
    ghost written = { λ _. None };

    ghost has_failed = { λ s. s.failed };

    fn write(&mut self, bytes: &[u8]) -> Result<usize, IoFailed> {
        Ok(bytes.len())
    }

    fn flush(&mut self) -> Result<(), IoFailed> {
        self.failed = true;
        Err(IoFailed)
    }

    fn failed(&self) -> bool {
        self.failed
    }
}

#[test]
fn what_is_held_back_and_can_not_be_handed_on(rt: HostRuntime) {
    let rows: [(&[u8], Result<u64, RunFault>); 6] = [
        (b"A gap\n", Err(RunFault::Write)),
        (b"A gap\nA x\n", Err(RunFault::Write)),
        (b"A gap\nA x", Err(RunFault::Write)),
        (b"", Ok(0)),
        (b"# nothing", Ok(0)),
        (b"A x\n", Err(RunFault::Line(1))),
    ];
    for (script, wanted) in rows {
        let mut reader = MemorySource::new(script, 100, None);
        let mut writer = Stuck { failed: false };
        let result = run_script(&mut terminal(), &mut reader, &mut writer);
        assert_eq!(rt; result, wanted);
    }
}
