//! The words that stand for truth values.
ghost use Rattle.std.specs.Prelude.{◌≡◌};
ghost use Rattle.rt1553_live.specs.Numbers.{bit_numbers, bits_from};

use crate::bits::Bits;
use crate::numbers::{bit, is_set};
use bus_word::StatusParts;
use terminal_state::{Flags, OnBuses};

/// The words that stand for truth values.
pub fn words_of(bits: &Bits) -> [u16; 16]
    ensures { result ≡ bit_numbers bits.now }
{
    let status = &bits.status;
    [
        bit(bits.heard.a),
        bit(bits.heard.b),
        bit(bits.flags.service),
        bit(bits.flags.busy),
        bit(bits.flags.subsystem),
        bit(bits.flags.terminal),
        bit(bits.inhibited),
        bit(bits.off.a),
        bit(bits.off.b),
        bit(status.error),
        bit(status.service),
        bit(status.broadcast),
        bit(status.busy),
        bit(status.subsystem),
        bit(status.accept),
        bit(status.terminal),
    ]
}

/// The kept status for which the words from the tenth on stand.
fn status_from(words: &[u16; 16]) -> StatusParts
    ensures { result ≡ (bits_from words.now).status }
{
    StatusParts {
        error: is_set(words[9]),
        service: is_set(words[10]),
        broadcast: is_set(words[11]),
        busy: is_set(words[12]),
        subsystem: is_set(words[13]),
        accept: is_set(words[14]),
        terminal: is_set(words[15]),
    }
}

/// The flags for which the words from the third on stand.
fn flags_from(words: &[u16; 16]) -> Flags
    ensures { result ≡ (bits_from words.now).flags }
{
    Flags {
        service: is_set(words[2]),
        busy: is_set(words[3]),
        subsystem: is_set(words[4]),
        terminal: is_set(words[5]),
    }
}

/// The truth values for which words stand.
pub fn bits_from(words: &[u16; 16]) -> Bits
    ensures { result ≡ bits_from words.now }
{
    Bits {
        heard: OnBuses {
            a: is_set(words[0]),
            b: is_set(words[1]),
        },
        flags: flags_from(words),
        inhibited: is_set(words[6]),
        off: OnBuses {
            a: is_set(words[7]),
            b: is_set(words[8]),
        },
        status: status_from(words),
    }
}
