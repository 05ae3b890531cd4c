//! Events with what is stated of their answers.
ghost use Rattle.std.specs.Prelude.{◌≡◌, ◌≤◌, ◌<◌, ◌^◌, ◌+◌, ◌*◌, ◌++◌, ◌∷◌, ℕ, List, length, All};
ghost use Rattle.arrayvec.specs.ArrayString.{array_string_len};
ghost use Rattle.terminal_rules.specs.Out.{HandsReceived, HandsOver};
ghost use Rattle.bus_terminal.specs.Answer.{shown_answer, IsSmall};
ghost use Rattle.script_lines.specs.EventLine.{event_text};
ghost use Rattle.rt1553_acceptance.specs.Text.{fields_stated, answer_stated};
ghost use Rattle.rt1553_acceptance.specs.inner.Fits.{Fits};

use arrayvec::ArrayString;
use bus_terminal::{Answer, Event, Hand};
use script_lines::{push_number, push_word, received_by, write_answer, write_event};

/// The lines of an event and of what is stated of its answer.
pub type StatedLines = ArrayString<400>;

/// How many words have room on the first line of an answer.
const ROOM: usize = 7;

/// How many more have room on a line that goes on, behind its first word.
const MORE_ROOM: usize = 11;

/// Writes one of the last words of an answer, where so many have room on the line, and gives how many have room after it.
fn push_field(text: &mut StatedLines, room: usize, word: u16) -> usize
    requires { array_string_len text.old + 8 ≤ 400 }
    ensures bytes { (words : List ℕ) → text.new.bytes ++ fields_stated result words ≡ text.old.bytes ++ fields_stated room (word ∷ words) }
    ensures len { array_string_len text.new ≤ array_string_len text.old + 8 }
{
    if room == 0 {
        text.push_str("\n#+ ");
        push_word(text, word);
        return MORE_ROOM;
    }
    text.push_str(" ");
    push_word(text, word);
    room - 1
}

/// Writes the last words of an answer.
fn push_fields(text: &mut StatedLines, words: &[u16])
    requires { array_string_len text.old + (8 * length words.now + 1) ≤ 400 }
    ensures { text.new.bytes ≡ text.old.bytes ++ fields_stated 7 words.now }
{
    let mut room = ROOM;
    for word in words {
        room = push_field(text, room, *word);
    }
    text.push_str("\n");
}

/// Writes what is stated of data words that were received.
fn push_received(text: &mut StatedLines, broadcast: bool, subaddress: u8, words: &[u16])
    requires room { array_string_len text.old ≤ 65 }
    requires few { length words.now ≤ 32 }
    ensures { text.new.bytes ≡ text.old.bytes ++ answer_stated (HandsOver (HandsReceived broadcast subaddress words.now)) }
{
    text.push_str("#> ");
    text.push_str(received_by(broadcast));
    push_number(text, subaddress);
    push_fields(text, words);
}

/// Writes what is stated of an answer.
fn push_stated(text: &mut StatedLines, answer: &Answer)
    requires room { array_string_len text.old ≤ 65 }
    requires small { IsSmall (shown_answer answer.now) }
    ensures { text.new.bytes ≡ text.old.bytes ++ answer_stated (shown_answer answer.now) }
{
    match answer {
        Answer::Silent => {}
        Answer::Hands(
            Hand::Received {
                broadcast,
                subaddress,
                words,
            },
        ) => push_received(text, *broadcast, *subaddress, words),
        _ => {
            text.push_str("#> ");
            text.push_str(write_answer(answer).as_str());
        }
    }
}

/// The lines of what is stated of this answer.
pub fn answer_lines(answer: &Answer) -> StatedLines
    requires { IsSmall (shown_answer answer.now) }
    ensures { result.bytes ≡ answer_stated (shown_answer answer.now) }
{
    let mut text = StatedLines::new();
    push_stated(&mut text, answer);
    text
}

/// The lines of an event, and of what is stated of this answer to it.
pub fn stated_lines(event: &Event, answer: &Answer) -> StatedLines
    requires { IsSmall (shown_answer answer.now) }
    ensures { result.bytes ≡ event_text event.now ++ 10 ∷ answer_stated (shown_answer answer.now) }
{
    let mut text = StatedLines::new();
    text.push_str(write_event(event).as_str());
    text.push_str("\n");
    push_stated(&mut text, answer);
    text
}

/// A word has 16 bits.
fn has_16_bits(word: u16)
    ensures { word < 2 ^ 16 }
{}

/// Words have 16 bits.
fn have_16_bits(words: &[u16])
    ensures { All (λ word. word < 2 ^ 16) words.now }
{}

/// An answer is of a size that a line can state.
pub fn fits(answer: &Answer)
    requires { IsSmall (shown_answer answer.now) }
    ensures { Fits (shown_answer answer.now) }
{
    match answer {
        Answer::Sends(sent) => has_16_bits(sent.bits),
        Answer::Hands(Hand::Received { words, .. }) => have_16_bits(words),
        Answer::Hands(Hand::SynchronizeWith(word)) => have_16_bits(&[*word]),
        Answer::Hands(_) => have_16_bits(&[]),
        Answer::Silent => {}
    }
}
