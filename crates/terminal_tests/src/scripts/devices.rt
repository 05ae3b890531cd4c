//! Readers and writers of std: bytes in memory, short calls, calls that are interrupted or fail.
ghost use Rattle.std.specs.Prelude.{None};

use super::{ANSWERED, terminal};
use bus_script::{RunFault, run_script};
use byte_streams::{FromRead, FromWrite, Sink, Source, write_all};
use std::alloc::{AllocError, Global};
use std::io::{self, ErrorKind, Read, Write};

/// Gives a script a few bytes a call, and answers `kind` at every other call.
#[derive(Drop)]
struct Halting<'a> {
    script: &'a [u8],
    most: usize,
    kind: ErrorKind,
    halts: bool,
}

impl<'a> Read for Halting<'a> {
    fn read(&mut self, buf: &mut [u8]) -> io::Result<usize> {
        self.halts = !self.halts;
        if self.halts {
            return Err(io::Error::from(self.kind));
        }
        let count = self.script.len().min(self.most).min(buf.len());
        buf[..count].copy_from_slice(&self.script[..count]);
        self.script = &self.script[count..];
        Ok(count)
    }
}

/// Takes a few bytes a call. Answers `kind` at the calls whose number from 1 is a multiple of `every`. Counts the
/// flushes.
#[derive(Drop)]
struct Taking {
    bytes: Vec<u8>,
    most: usize,
    kind: ErrorKind,
    every: u64,
    calls: u64,
    flushes: u64,
}

impl Write for Taking {
    fn write(&mut self, buf: &[u8]) -> io::Result<usize> {
        self.calls = self.calls.saturating_add(1);
        if self.calls.checked_rem(self.every) == Some(0) {
            return Err(io::Error::from(self.kind));
        }
        let count = buf.len().min(self.most);
        self.bytes.extend_from_slice(&buf[..count])?;
        Ok(count)
    }

    fn flush(&mut self) -> io::Result<()> {
        self.flushes = self.flushes.saturating_add(1);
        Ok(())
    }
}

#[test]
fn bytes_in_memory(rt: HostRuntime) {
    let mut transcript = Vec::new(rt.alloc());
    let result = run_script(
        &mut terminal(),
        &mut FromRead::new(ANSWERED),
        &mut FromWrite::new(&mut transcript),
    );
    assert_eq!(rt; result, Ok(6));
    assert_eq!(rt; transcript.as_slice(), b"A s 2800\nA s 2800\n".as_slice());
}

/// So many of a byte.
fn many(alloc: Global, byte: u8, count: usize) -> Result<Vec<u8>, AllocError> {
    let mut bytes = Vec::new(alloc);
    for _ in 0..count {
        bytes.push(byte)?;
    }
    Ok(bytes)
}

/// Whether three pieces are written as they are, one behind the other.
fn pieces_are_written(
    alloc: Global,
    first: usize,
    second: usize,
    third: usize,
) -> Result<bool, AllocError> {
    let pieces = [
        many(alloc, b'x', first)?,
        many(alloc, b'y', second)?,
        many(alloc, b'z', third)?,
    ];
    let mut written = Vec::new(alloc);
    let mut wanted = Vec::new(alloc);
    let mut writer = FromWrite::new(&mut written);
    let mut fine = true;
    for piece in &pieces {
        wanted.extend_from_slice(piece.as_slice())?;
        fine = fine && write_all(&mut writer, piece.as_slice()).is_ok();
    }
    fine = fine && writer.flush().is_ok();
    Ok(fine && written.as_slice() == wanted.as_slice())
}

#[test]
fn pieces_longer_than_what_is_held_back(rt: HostRuntime) -> Result<(), AllocError> {
    for (first, second, third) in [
        (1usize, 65_535usize, 1usize),
        (65_536, 0, 1),
        (65_536, 1, 65_536),
        (65_537, 65_537, 0),
        (3, 70_000, 2),
        (70_000, 70_000, 70_000),
    ] {
        let fine = pieces_are_written(rt.alloc(), first, second, third)?;
        assert!(rt; fine, "{first} {second} {third}");
    }
    Ok(())
}

#[test]
fn interrupted_calls_are_tried_again(rt: HostRuntime) {
    for most in [1usize, 3, 100] {
        let mut taking = Taking {
            bytes: Vec::new(rt.alloc()),
            most,
            kind: ErrorKind::Interrupted,
            every: 2,
            calls: 0,
            flushes: 0,
        };
        let halting = Halting {
            script: ANSWERED,
            most,
            kind: ErrorKind::Interrupted,
            halts: false,
        };
        let mut reader = FromRead::new(halting);
        let mut writer = FromWrite::new(&mut taking);
        let result = run_script(&mut terminal(), &mut reader, &mut writer);
        assert_eq!(rt; result, Ok(6), "{most}");
        assert!(rt; !reader.failed());
        assert!(rt; !writer.failed());
        assert_eq!(rt; taking.bytes.as_slice(), b"A s 2800\nA s 2800\n".as_slice());
        assert!(rt; taking.flushes > 0);
    }
}

#[test]
fn other_failures_are_told(rt: HostRuntime) {
    let halting = Halting {
        script: ANSWERED,
        most: 100,
        kind: ErrorKind::WouldBlock,
        halts: false,
    };
    let mut reader = FromRead::new(halting);
    let mut transcript = Vec::new(rt.alloc());
    let mut writer = FromWrite::new(&mut transcript);
    let result = run_script(&mut terminal(), &mut reader, &mut writer);
    assert_eq!(rt; result, Err(RunFault::Read));
    assert!(rt; reader.failed());
    assert!(rt; !writer.failed());
}

#[test]
fn nothing_is_written_after_a_failure(rt: HostRuntime) {
    let mut taking = Taking {
        bytes: Vec::new(rt.alloc()),
        most: 2,
        kind: ErrorKind::Other,
        every: 3,
        calls: 0,
        flushes: 0,
    };
    let mut writer = FromWrite::new(&mut taking);
    let mut reader = FromRead::new(ANSWERED);
    let result = run_script(&mut terminal(), &mut reader, &mut writer);
    assert_eq!(rt; result, Err(RunFault::Write));
    assert!(rt; writer.failed());
    assert!(rt; writer.flush().is_err());
    assert!(rt; writer.write(b"x").is_err());
    assert_eq!(rt; taking.bytes.as_slice(), b"A s ".as_slice());
    assert_eq!(rt; taking.calls, 3);
    assert_eq!(rt; taking.flushes, 0);
}
