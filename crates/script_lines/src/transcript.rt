//! Answers as lines of a transcript. They are written piece by piece, each of a length that the compiler knows.
ghost use Rattle.std.specs.Prelude.{◌≡◌, ◌≤◌, ◌+◌, ◌*◌, ◌++◌, ◌∷◌, length, codes, IsAscii};
ghost use Rattle.std.specs.List.{flat_map};
ghost use Rattle.arrayvec.specs.ArrayString.{array_string_len};
ghost use Rattle.bus_terminal.specs.Answer.{shown_answer, shown_handing};
ghost use Rattle.script_lines.specs.Transcript.{bus_letter, sent_kind, data_text, word_field, received_by, received_text, hand_text, answer_text};
ghost use Rattle.script_lines.specs.Digits.{digits_of, decimal_digits};
ghost use Rattle.terminal_rules.specs.Out.{HandsSynchronizeWith};

use crate::digits::{ascii, digits_of, push_number, push_word};
use crate::known_pairs::KnownPairs;
use arrayvec::ArrayString;
use bus_terminal::{Answer, Hand};
use bus_word::{Bus, Kind};

/// What the line of a word that was sent begins with: the bus, and what tells a status word, which has command sync, from
/// a data word.
#[inline(always)]
fn sent_lead(bus: Bus, kind: Kind) -> [u8; 4]
    ensures lead { result ≡ bus_letter bus ++ sent_kind kind }
    ensures ascii { IsAscii result }
{
    match (bus, kind) {
        (Bus::A, Kind::Com) => *b"A s ",
        (Bus::A, Kind::Dat) => *b"A d ",
        (Bus::B, Kind::Com) => *b"B s ",
        (Bus::B, Kind::Dat) => *b"B d ",
    }
}

/// Writes four digits as a field of a line.
#[inline(always)]
pub fn push_field(text: &mut ArrayString<320>, digits: [u8; 4])
    requires room { array_string_len text.old + 5 ≤ 320 }
    requires ascii { IsAscii digits }
    ensures bytes { text.new.bytes ≡ text.old.bytes ++ 32 ∷ digits }
    ensures len { array_string_len text.new ≡ array_string_len text.old + 5 }
{
    text.push_str(" ");
    text.push_str(ascii(&digits));
}

/// Writes words as fields of a line.
#[inline(always)]
fn push_fields(text: &mut ArrayString<320>, words: &[u16])
    requires { array_string_len text.old + 5 * length words.now ≤ 320 }
    ensures bytes { text.new.bytes ≡ text.old.bytes ++ flat_map word_field words.now }
    ensures len { array_string_len text.new ≡ array_string_len text.old + 5 * length words.now }
{
    for word in words {
        push_field(text, digits_of(*word));
    }
}

/// Writes the line of a word of these digits that was sent.
#[inline(always)]
fn push_sent(text: &mut ArrayString<320>, bus: Bus, kind: Kind, digits: [u8; 4])
    requires room { array_string_len text.old + 9 ≤ 320 }
    requires ascii { IsAscii digits }
    ensures bytes { text.new.bytes ≡ text.old.bytes ++ (bus_letter bus ++ (sent_kind kind ++ (digits ++ codes "\n"))) }
    ensures len { array_string_len text.new ≡ array_string_len text.old + 9 }
{
    // by value: what stands behind a reference might overlap the text, which would be asked at each line
    text.push_str(ascii(&sent_lead(bus, kind)));
    text.push_str(ascii(&digits));
    text.push_str("\n");
}

/// Writes the lines of data words that are sent on a bus.
#[inline(always)]
pub fn push_data_words(text: &mut ArrayString<320>, pairs: &KnownPairs, bus: Bus, words: &[u16])
    requires { array_string_len text.old + 9 * length words.now ≤ 320 }
    ensures { text.new.bytes ≡ text.old.bytes ++ flat_map (data_text bus) words.now }
{
    for word in words {
        push_sent(text, bus, Kind::Dat, pairs.digits(*word));
    }
}

/// What the line of data words that were received begins with.
#[inline(always)]
pub fn received_by(broadcast: bool) -> &'static str
    ensures { result.now ≡ received_by broadcast }
{
    if broadcast {
        "hand receive broadcast "
    } else {
        "hand receive own "
    }
}

/// Writes what stands before the data words in the line of those that were received.
#[inline(always)]
pub fn push_received_by(text: &mut ArrayString<320>, broadcast: bool, subaddress: u8)
    requires { array_string_len text.old + (length (received_by broadcast) + 2) ≤ 320 }
    ensures bytes { text.new.bytes ≡ text.old.bytes ++ (received_by broadcast ++ decimal_digits subaddress) }
    ensures len { array_string_len text.new ≡ array_string_len text.old + (length (received_by broadcast) + 2) }
{
    // apart, so that the compiler knows either length
    if broadcast {
        text.push_str(received_by(true));
    } else {
        text.push_str(received_by(false));
    }
    push_number(text, subaddress);
}

/// Writes the line of data words that were received.
fn push_received(text: &mut ArrayString<320>, broadcast: bool, subaddress: u8, words: &[u16])
    requires { array_string_len text.old + (length (received_by broadcast) + (3 + 5 * length words.now)) ≤ 320 }
    ensures { text.new.bytes ≡ text.old.bytes ++ received_text broadcast subaddress words.now }
{
    push_received_by(text, broadcast, subaddress);
    push_fields(text, words);
    text.push_str("\n");
}

/// Writes the line of synchronize with this data word.
fn push_synchronize_with(text: &mut ArrayString<320>, word: u16)
    requires { array_string_len text.old + 15 ≤ 320 }
    ensures { text.new.bytes ≡ text.old.bytes ++ hand_text (HandsSynchronizeWith word) }
{
    text.push_str("hand sync ");
    push_word(text, word);
    text.push_str("\n");
}

/// Writes the line of what was handed over. It stands apart, lest what takes events grow too large to be inlined.
#[inline(never)]
fn push_hand(text: &mut ArrayString<320>, hand: &Hand)
    requires { array_string_len text.old + length (hand_text (shown_handing hand.now)) ≤ 320 }
    ensures { text.new.bytes ≡ text.old.bytes ++ hand_text (shown_handing hand.now) }
{
    match hand {
        Hand::Received {
            broadcast,
            subaddress,
            words,
        } => push_received(text, *broadcast, *subaddress, words),
        Hand::Synchronize => text.push_str("hand sync\n"),
        Hand::SynchronizeWith(word) => push_synchronize_with(text, *word),
        Hand::SelfTest => text.push_str("hand self-test\n"),
        Hand::BusControl => text.push_str("hand bus-control\n"),
    }
}

/// The digits of a word.
#[inline(always)]
fn digits_by(pairs: Option<&KnownPairs>, word: u16) -> [u8; 4]
    ensures digits { result ≡ digits_of word }
    ensures ascii { IsAscii result }
{
    match pairs {
        Some(pairs) => pairs.digits(word),
        None => digits_of(word),
    }
}

/// Writes the line of an answer behind what the text holds, with the digits that are known, where some are. It is inlined: an
/// answer that is handed on stands in memory.
#[inline(always)]
pub fn push_answer(text: &mut ArrayString<320>, pairs: Option<&KnownPairs>, answer: &Answer)
    requires { array_string_len text.old + length (answer_text (shown_answer answer.now)) ≤ 320 }
    ensures { text.new.bytes ≡ text.old.bytes ++ answer_text (shown_answer answer.now) }
{
    match answer {
        Answer::Silent => {}
        Answer::Sends(sent) => push_sent(text, sent.bus, sent.kind, digits_by(pairs, sent.bits)),
        Answer::Hands(hand) => push_hand(text, hand),
    }
}

/// The line of an answer, with its line feed: the word that was sent, or what was handed over; nothing for a silent
/// answer. That of a terminal's answer has at most 186 bytes.
pub fn write_answer(answer: &Answer) -> ArrayString<320>
    requires { length (answer_text (shown_answer answer.now)) ≤ 320 }
    ensures { result.bytes ≡ answer_text (shown_answer answer.now) }
{
    let mut text = ArrayString::new();
    push_answer(&mut text, None, answer);
    text
}
