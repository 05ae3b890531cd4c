//! Words, replies and what is handed over as texts.
ghost use Rattle.std.specs.Prelude.{◌≡◌, ◌≤◌, ◌<◌, ◌++◌, length, option_map, IfOk, OnOk};
ghost use Rattle.std.specs.List.{flat_map};
ghost use Rattle.terminal_exchanges.specs.Values.{exchange_in};
ghost use Rattle.bus_terminal.specs.Answer.{shown_handing, words_handed};
ghost use Rattle.script_lines.specs.Transcript.{word_field};
ghost use Rattle.rt1553_results.specs.Handed.{handing_in};
ghost use Rattle.rt1553_results.specs.Table.{words_text, reply_text, handed_text};

use crate::playing::Handed;
use bus_complete_test::Exchange;
use bus_terminal::{Answer, Hand};
use script_lines::{digits_of, write_answer};
use std::alloc::{AllocError, Global};

/// Writes a word behind a space.
fn push_field(text: &mut Vec<u8>, word: u16) -> Result<(), AllocError>
    ensures { OnOk result (text.new.items ≡ text.old.items ++ word_field word) }
{
    text.push(b' ')?;
    text.extend_from_slice(&digits_of(word))?;
    Ok(())
}

/// Writes words, each behind a space.
fn push_fields(text: &mut Vec<u8>, words: &[u16]) -> Result<(), AllocError>
    ensures { OnOk result (text.new.items ≡ text.old.items ++ flat_map word_field words.now) }
{
    for word in words {
        push_field(text, *word)?;
    }
    Ok(())
}

/// Words as four hexadecimal digits each, with a space between two.
pub fn words_text(alloc: Global, words: &[u16]) -> Result<Vec<u8>, AllocError>
    ensures { IfOk result (λ text. text.items ≡ words_text words.now) }
{
    let mut text = Vec::new(alloc);
    if words.is_empty() {
        return Ok(text);
    }
    text.extend_from_slice(&digits_of(words[0]))?;
    push_fields(&mut text, &words[1..])?;
    Ok(text)
}

/// A reply: its words, or `none`.
pub fn reply_text(alloc: Global, words: &[u16]) -> Result<Vec<u8>, AllocError>
    ensures { IfOk result (λ text. text.items ≡ reply_text words.now) }
{
    if words.is_empty() {
        Vec::from_slice(alloc, b"none")
    } else {
        words_text(alloc, words)
    }
}

/// The data words of an exchange.
pub fn data_words(alloc: Global, exchange: &Exchange) -> Result<Vec<u16>, AllocError>
    ensures { IfOk result (λ words. words.items ≡ (exchange_in exchange.now).words) }
{
    let mut words = Vec::new(alloc);
    if let Some(first) = exchange.first {
        words.push(first)?;
        for _zero in 0..exchange.zeros {
            words.push(0)?;
        }
    }
    Ok(words)
}

/// What was handed over, as a terminal hands it over.
fn lent(handed: &Handed) -> Hand<'_>
    ensures hand { shown_handing result ≡ handing_in handed.now }
    ensures few { length (words_handed (shown_handing result)) ≤ 32 }
{
    match handed {
        Handed::Received {
            broadcast,
            subaddress,
            words,
        } => Hand::Received {
            broadcast: *broadcast,
            subaddress: *subaddress,
            words: words.as_slice(),
        },
        Handed::Synchronize => Hand::Synchronize,
        Handed::SynchronizeWith(word) => Hand::SynchronizeWith(*word),
        Handed::SelfTest => Hand::SelfTest,
        Handed::BusControl => Hand::BusControl,
    }
}

/// What is handed over as in a transcript, without `hand ` and the line feed; empty for nothing.
pub fn handed_text(alloc: Global, handed: &Option<Handed>) -> Result<Vec<u8>, AllocError>
    ensures { IfOk result (λ text. text.items ≡ handed_text (option_map handing_in handed.now)) }
{
    match handed {
        Some(handed) => {
            let line = write_answer(&Answer::Hands(lent(handed)));
            let line = line.as_str().as_bytes();
            Vec::from_slice(alloc, &line[5..line.len() - 1])
        }
        None => Ok(Vec::new(alloc)),
    }
}
