//! Makes each public call that is given a text once, of `rt1553` and of `bus_profile`, and prints what it
//! answered, a line a call. The sweep of refused growths runs it: with one growth of memory refused, just one line may say
//! `Memory` in place of its answer.

use bus_profile::read_profile;
use rt1553::{LoadFault, MemorySink, MemorySource, Verdict, canonical, compare, load, run};
use std::alloc::Global;
use std::io;

const FIVE: &[u8] = b"address = 5\n";

const SIX: &[u8] = b"address = 6\n";

const SCRIPT: &[u8] = b"A c 2c02\nA gap\nslot\n";

/// A profile with entries of each array.
const WHOLE: &[u8] = b"address = 7
[[rule]]
direction = \"both\"
subaddresses = \"1-3, 30\"
[[rule]]
direction = \"receive\"
subaddresses = 3
legal = false
[[mode]]
codes = \"1, 16\"
[[initial]]
subaddress = 1
words = [1, 2, 3]
[[initial]]
subaddress = 2
at = 32
words = [4]
";

/// A profile whose first fault is in its last entry.
const REFUSED: &[u8] = b"address = 7
[[rule]]
direction = \"both\"
subaddresses = 1
[[initial]]
subaddress = 1
words = [1, 65536]
";

fn loads(rt: &impl Print, alloc: Global, text: &[u8]) -> io::Result<()> {
    match load(alloc, text) {
        Ok(normal) => {
            let address = normal.address();
            println!(rt; "load {address}")
        }
        Err(fault) => println!(rt; "load {fault:?}"),
    }
}

fn writes(rt: &impl Print, alloc: Global, text: &[u8]) -> io::Result<()> {
    match canonical(alloc, text) {
        Ok(bytes) => {
            let length = bytes.len();
            println!(rt; "canonical {length}")
        }
        Err(fault) => println!(rt; "canonical {fault:?}"),
    }
}

fn compares(rt: &impl Print, alloc: Global, first: &[u8], second: &[u8]) -> io::Result<()> {
    let answer: Result<Verdict, LoadFault> = compare(alloc, first, second);
    match answer {
        Ok(Verdict::Same) => println!(rt; "compare same"),
        Ok(Verdict::Differ(script)) => {
            let events = script.len();
            println!(rt; "compare differ {events}")
        }
        Err(fault) => println!(rt; "compare {fault:?}"),
    }
}

fn runs(rt: &impl Print, alloc: Global, text: &[u8]) -> io::Result<()> {
    let mut reader = MemorySource::new(SCRIPT, 100, None);
    let mut writer: MemorySink<64> = MemorySink::new(100, None);
    let answer = run(alloc, text, &mut reader, &mut writer);
    let written = writer.as_slice().len();
    println!(rt; "run {answer:?} {written}")
}

fn reads(rt: &impl Print, alloc: Global, text: &[u8]) -> io::Result<()> {
    match read_profile(alloc, text) {
        Ok(profile) => {
            let rules = profile.rules.as_slice().len();
            let modes = profile.modes.as_slice().len();
            let initials = profile.initials.as_slice().len();
            println!(rt; "read_profile {rules} {modes} {initials}")
        }
        Err(fault) => println!(rt; "read_profile {fault:?}"),
    }
}

/// Where the first line has its version.
const VERSION: usize = 7;

/// A canonical text of version 1 and one of version 2. The first has no line for wraparound, so it differs from its
/// text of version 2 in the first line alone.
fn canonical_texts(alloc: Global) -> Result<(Vec<u8>, Vec<u8>), LoadFault> {
    let mut first = canonical(alloc, FIVE)?;
    if let Some(digit) = first.get_mut(VERSION) {
        *digit = b'1';
    }
    Ok((first, canonical(alloc, WHOLE)?))
}

/// The calls on canonical texts of either version, which take no memory: none of these lines may say `Memory`.
fn on_canonical_text(rt: &impl Print, alloc: Global, text: &[u8]) -> io::Result<()> {
    print!(rt; "on canonical text: ")?;
    loads(rt, alloc, text)?;
    print!(rt; "on canonical text: ")?;
    compares(rt, alloc, text, text)?;
    print!(rt; "on canonical text: ")?;
    runs(rt, alloc, text)
}

/// Makes each call and prints what it answered.
pub fn call_each(rt: &impl Print, alloc: Global) -> io::Result<()> {
    loads(rt, alloc, FIVE)?;
    writes(rt, alloc, FIVE)?;
    compares(rt, alloc, FIVE, SIX)?;
    compares(rt, alloc, FIVE, b"address = 0x05")?;
    runs(rt, alloc, FIVE)?;
    reads(rt, alloc, WHOLE)?;
    reads(rt, alloc, REFUSED)?;
    loads(rt, alloc, WHOLE)?;
    writes(rt, alloc, WHOLE)?;
    compares(rt, alloc, WHOLE, FIVE)?;
    runs(rt, alloc, WHOLE)?;
    match canonical_texts(alloc) {
        Ok((first, second)) => {
            on_canonical_text(rt, alloc, second.as_slice())?;
            on_canonical_text(rt, alloc, first.as_slice())
        }
        Err(fault) => println!(rt; "canonical {fault:?}"),
    }
}
