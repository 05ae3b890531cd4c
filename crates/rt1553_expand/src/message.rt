//! Messages, read.
ghost use Rattle.std.specs.Prelude.{◌≡◌, ◌≤◌, Ok, Err, is_some, codes, length, map, option_map, replicate, IfOk, IfErr, IfSome};
ghost use Rattle.std.specs.Char.{to_ascii_lowercase};
ghost use Rattle.arrayvec.specs.ArrayVec.{array_vec_len};
ghost use Rattle.bus_word.specs.Command.{AreOfTheirWidth};
ghost use Rattle.rt1553_tool.specs.Fields.{AreOfWidth, in_word};
ghost use Rattle.rt1553_tool.specs.WordLines.{word_line};
ghost use Rattle.rt1553_expand.specs.Message.{cut, named_word, sender_line, another_terminal, sender_of, words_wanted, data_in, words_missing, data_behind, message_of, message_in};
ghost use Rattle.rt1553_expand.specs.Own.{may_lack_words};
ghost use Rattle.rt1553_expand.specs.inner.Said.{said_message};

use crate::fault::ExpandFault;
use crate::script_for::ScriptFor;
use crate::writing::is_own;
use arrayvec::{ArrayString, ArrayVec};
use bus_word::Command;
use line_format::{FieldKind, after, field};
use rt1553_tool::{CommandFields, WordFields, WordLineFault, command_bits, read_word_line};
use script_lines::push_number;

/// The address of all terminals.
pub const ALL_TERMINALS: u8 = 31;

/// How many bytes a line may have, its line feed not counted.
pub const MOST: usize = 256;

/// The data words of a message.
pub type Words = ArrayVec<u16, 32>;

/// What a message says.
#[derive(Drop)]
pub struct BusMessage {
    /// The word that it begins with.
    pub first: WordFields,
    /// In a transfer between terminals, the command to the terminal that sends.
    pub sender: Option<CommandFields>,
    /// The data words.
    pub words: Words,
}

/// Cuts a text where the mark stands first: what stands before it, and what stands behind it. Without the mark it is whole.
pub fn cut<'a>(text: &'a [u8], mark: &[u8]) -> (&'a [u8], Option<&'a [u8]>)
    ensures front { result.0.now ≡ (cut mark.now text.now).front }
    ensures behind { option_map (λ r. r.now) result.1 ≡ (cut mark.now text.now).behind }
    ensures within { length result.0.now ≤ length text.now }
    ensures shorter { IfSome result.1 (λ r. length r.now ≤ length text.now) }
{
    let mut at = 0;
    while at < text.len() {
        if let Some(rest) = after(&text[at..], mark) {
            return (&text[..at], Some(rest));
        }
        at += 1;
    }
    (text, None)
}

/// Reads the word that a message begins with; the rest of the message is this, if it has a colon.
fn read_first(text: &[u8], colon: Option<&[u8]>) -> Result<WordFields, ExpandFault>
    ensures value { result ≡ named_word text.now (option_map (λ t. t.now) colon.entry) (word_line text.now) }
    ensures width { IfOk result AreOfWidth }
{
    match (read_word_line(text), colon) {
        (Ok(line), _) if line.by_fields => Ok(line.fields),
        (Ok(_), _) => Err(ExpandFault::ByDigits),
        (Err(WordLineFault::Much), None) if after(text, b"rx ").is_some() => {
            Err(ExpandFault::Colon)
        }
        (Err(fault), _) => Err(ExpandFault::Word(fault)),
    }
}

/// The line of the command to the terminal that sends, which transmits as many words as the receiver takes.
fn sender_line(receiver: CommandFields, text: &[u8]) -> ArrayVec<u8, 320>
    requires short { length text.now ≤ 256 }
    requires width { AreOfTheirWidth (in_word receiver) }
    ensures { result.items ≡ sender_line receiver text.now }
{
    let mut count = ArrayString::<4>::new();
    push_number(&mut count, Command::of(command_bits(receiver)).count());
    let mut line = ArrayVec::new();
    let _ = line.try_extend_from_slice(b"tx ");
    let _ = line.try_extend_from_slice(text);
    line.push(b' ');
    let _ = line.try_extend_from_slice(count.as_str().as_bytes());
    line
}

/// Reads what stands behind `from`, where this terminal receives.
fn read_another(receiver: CommandFields, text: &[u8]) -> Result<Option<CommandFields>, ExpandFault>
    requires short { length text.now ≤ 256 }
    requires width { AreOfTheirWidth (in_word receiver) }
    ensures value { result ≡ another_terminal receiver (word_line (sender_line receiver text.now)) }
    ensures width { IfOk result (λ o. IfSome o (λ sender. AreOfTheirWidth (in_word sender))) }
{
    let line = sender_line(receiver, text);
    match read_word_line(line.as_slice()) {
        Ok(said) => match said.fields {
            WordFields::Command(sender)
                if sender.address != ALL_TERMINALS && sender.address != receiver.address => {
                Ok(Some(sender))
            }
            _ => Err(ExpandFault::Sender),
        },
        Err(_) => Err(ExpandFault::Sender),
    }
}

/// Reads what stands behind `from`, and behind this word.
fn read_sender(first: WordFields, text: Option<&[u8]>) -> Result<Option<CommandFields>, ExpandFault>
    requires short { IfSome text (λ t. length t.now ≤ 256) }
    requires width { AreOfWidth first }
    ensures value { result ≡ sender_of first (option_map (λ t. t.now) text.entry) }
    ensures width { IfOk result (λ o. IfSome o (λ sender. AreOfTheirWidth (in_word sender))) }
{
    let Some(text) = text else {
        return Ok(None);
    };
    match first {
        WordFields::Command(receiver) if Command::of(command_bits(receiver)).is_receive() => {
            read_another(receiver, text)
        }
        _ => Err(ExpandFault::NotReceive),
    }
}

/// How many data words a message has that begins with this word, 0 to 32.
pub fn words_wanted(first: WordFields) -> u8
    requires { AreOfWidth first }
    ensures value { result ≡ words_wanted first }
    ensures few { result ≤ 32 }
{
    match first {
        WordFields::Command(command) => Command::of(command_bits(command)).expected(),
        _ => 0,
    }
}

/// Reads this many data words, each behind a space, and nothing else.
fn read_data(count: u8, text: &[u8]) -> Result<Words, ExpandFault>
    requires { count ≤ 32 }
    ensures said { IfOk result (λ words. data_in count text.entry.now ≡ Ok words.items) }
    ensures refused { IfErr result (λ fault. data_in count text.entry.now ≡ Err fault) }
{
    let mut words = ArrayVec::new();
    let mut rest = text;
    for _ in 0..count {
        let Some((word, others)) = field(rest, FieldKind::Word) else {
            return Err(ExpandFault::DataWord);
        };
        words.push(word as u16);
        rest = others;
    }
    if !rest.is_empty() {
        return Err(ExpandFault::Much);
    }
    Ok(words)
}

/// A text with small letters.
pub(crate) fn small_letters(text: &[u8]) -> ArrayVec<u8, 256>
    requires { length text.now ≤ 256 }
    ensures { result.items ≡ map to_ascii_lowercase text.now }
{
    let mut small = ArrayVec::new();
    for byte in text {
        small.push(byte.to_ascii_lowercase());
    }
    small
}

/// Whether a transfer may lack its data words, by the terminal that sends.
fn may_lack_words(own: &ScriptFor, sender: Option<CommandFields>) -> bool
    ensures { result ≡ may_lack_words own.now sender }
{
    own.is_of_bus() && is_own(own, sender)
}

/// Why data words may not be missing.
fn words_missing(own: &ScriptFor, sender: Option<CommandFields>) -> ExpandFault
    ensures { result ≡ words_missing own.now sender }
{
    if own.is_of_bus() && sender.is_some() {
        ExpandFault::SenderWords
    } else {
        ExpandFault::Colon
    }
}

/// Reads this many data words behind a colon; without a colon there are none.
fn read_behind(
    own: &ScriptFor,
    sender: Option<CommandFields>,
    count: u8,
    colon: Option<&[u8]>,
) -> Result<Words, ExpandFault>
    requires few { count ≤ 32 }
    requires short { IfSome colon (λ t. length t.now ≤ 256) }
    ensures said { IfOk result (λ words. data_behind own.now sender count (option_map (λ t. t.now) colon.entry) ≡ Ok words.items) }
    ensures refused { IfErr result (λ fault. data_behind own.now sender count (option_map (λ t. t.now) colon.entry) ≡ Err fault) }
{
    match colon {
        Some(text) => read_data(count, small_letters(text).as_slice()),
        None if count == 0 || may_lack_words(own, sender) => Ok(Words::new()),
        None => Err(words_missing(own, sender)),
    }
}

/// Reads a message by its parts: up to `from` or the colon, behind `from`, and behind a colon.
fn read_parts(
    own: &ScriptFor,
    text: &[u8],
    from: Option<&[u8]>,
    colon: Option<&[u8]>,
) -> Result<BusMessage, ExpandFault>
    requires from { IfSome from (λ t. length t.now ≤ 256) }
    requires colon { IfSome colon (λ t. length t.now ≤ 256) }
    ensures said { IfOk result (λ message. message_of own.now text.now (option_map (λ t. t.now) from.entry) (option_map (λ t. t.now) colon.entry) ≡ Ok (said_message message)) }
    ensures refused { IfErr result (λ fault. message_of own.now text.now (option_map (λ t. t.now) from.entry) (option_map (λ t. t.now) colon.entry) ≡ Err fault) }
    ensures width { IfOk result (λ message. AreOfWidth message.first) }
    ensures sender { IfOk result (λ message. IfSome message.sender (λ sender. AreOfTheirWidth (in_word sender))) }
{
    let first = read_first(text, colon)?;
    let sender = read_sender(first, from)?;
    let words = read_behind(own, sender, words_wanted(first), colon)?;
    Ok(BusMessage {
        first,
        sender,
        words,
    })
}

/// Reads a message in a script for these terminals, of which this stands behind the bus and its space.
pub fn read_message(own: &ScriptFor, text: &[u8]) -> Result<BusMessage, ExpandFault>
    requires { length text.now ≤ 256 }
    ensures said { IfOk result (λ message. message_in own.now text.now ≡ Ok (said_message message)) }
    ensures refused { IfErr result (λ fault. message_in own.now text.now ≡ Err fault) }
    ensures width { IfOk result (λ message. AreOfWidth message.first) }
    ensures sender { IfOk result (λ message. IfSome message.sender (λ sender. AreOfTheirWidth (in_word sender))) }
{
    if cut(text, b"#").1.is_some() {
        return Err(ExpandFault::Comment);
    }
    let (head, data) = cut(text, b":");
    let (word, from) = cut(head, b" from ");
    read_parts(own, word, from, data)
}
