//! Changes a byte of three canonical texts to each other value, and prints of each text how many changed texts are
//! accepted. One that is accepted has to be its own canonical text, or a text of version 1, whose canonical text differs
//! from it in the first line alone.

use rt1553::{LoadFault, canonical};
use std::alloc::Global;
use std::io;

/// The smallest canonical text: nothing of it but the address is chosen.
const SMALLEST: &[u8] = b"address = 5\n";

/// A text with initial words.
const INITIAL: &[u8] = b"address = 5
[[rule]]
direction = \"transmit\"
subaddresses = 7
counts = \"2,5\"
[[initial]]
subaddress = 7
words = [1, 2, 3, 4, 5, 6]
";

/// A text with broadcast lines, and a line for wraparound.
const BY_BROADCAST: &[u8] = b"address = 5
broadcast = true
[[rule]]
to = \"broadcast\"
direction = \"receive\"
subaddresses = 30
counts = 1
[[rule]]
direction = \"transmit\"
subaddresses = 30
counts = 1
";

/// What became of a text with a byte changed.
enum Outcome {
    Refused,
    /// Accepted, as its own canonical text, or as one of version 1.
    Accepted,
    /// Accepted, and its canonical text is another.
    Wrong,
}

/// Whether these are a text of version 1 and one of version 2 that differ in the first line alone.
fn is_second_version(first: &[u8], second: &[u8]) -> bool {
    first.starts_with(b"rt1553 1\n")
        && second.starts_with(b"rt1553 2\n")
        && first.get(9..) == second.get(9..)
}

fn outcome_of(alloc: Global, text: &[u8]) -> Outcome {
    match canonical(alloc, text) {
        Ok(bytes) if bytes.as_slice() == text => Outcome::Accepted,
        Ok(bytes) if is_second_version(text, bytes.as_slice()) => Outcome::Accepted,
        Ok(_) => Outcome::Wrong,
        Err(_) => Outcome::Refused,
    }
}

/// Changes the byte at this place to each other value, and gives how many changed texts are accepted, or
/// None where one is wrong.
fn changed_at(alloc: Global, text: &mut [u8], at: usize) -> Option<usize> {
    let right = *text.get(at)?;
    let mut accepted = 0usize;
    for other in 0..=255u8 {
        if other != right {
            *text.get_mut(at)? = other;
            match outcome_of(alloc, text) {
                Outcome::Refused => {}
                Outcome::Accepted => accepted = accepted.saturating_add(1),
                Outcome::Wrong => return None,
            }
        }
    }
    *text.get_mut(at)? = right;
    Some(accepted)
}

/// How many texts are accepted of those that differ from this one in a byte, or None where one is wrong.
fn changed(alloc: Global, text: &mut [u8], is_whole: bool) -> Option<usize> {
    let mut accepted = 0usize;
    for at in 0..text.len() {
        if is_whole || at % 97 == 0 {
            accepted = accepted.saturating_add(changed_at(alloc, text, at)?);
        }
    }
    Some(accepted)
}

fn report(rt: &impl Print, alloc: Global, profile: &[u8], is_whole: bool) -> io::Result<()> {
    let text: Result<Vec<u8>, LoadFault> = canonical(alloc, profile);
    match text {
        Ok(mut text) => {
            let length = text.len();
            match changed(alloc, text.as_mut_slice(), is_whole) {
                Some(accepted) => println!(rt;
                    "{length} bytes: {accepted} changed texts are accepted"
                ),
                None => println!(rt;
                    "{length} bytes: a changed text is not its own canonical text"
                ),
            }
        }
        Err(fault) => println!(rt; "{fault:?}"),
    }
}

/// Changes each byte of the texts in turn, or, where not all are asked for, each 97th.
pub fn change_texts(rt: &impl Print, alloc: Global, is_whole: bool) -> io::Result<()> {
    report(rt, alloc, SMALLEST, is_whole)?;
    report(rt, alloc, INITIAL, is_whole)?;
    report(rt, alloc, BY_BROADCAST, is_whole)
}
