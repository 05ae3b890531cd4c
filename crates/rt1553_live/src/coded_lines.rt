//! The lines whose words stand for what a terminal keeps.
ghost use Rattle.std.specs.Prelude.{◌≡◌, IfOk, OnOk};
ghost use Rattle.line_format.specs.Reading.{read};
ghost use Rattle.line_format.specs.Views.{Gives, spot};
ghost use Rattle.line_format.specs.Writing.{Adds};
ghost use Rattle.terminal_state.specs.Replies.{shown_reply};
ghost use Rattle.rt1553_live.specs.Numbers.{IsCounted};
ghost use Rattle.rt1553_live.specs.Text.{bits_line, reply_line, message_line};

use crate::bits::Bits;
use crate::message::SavedMessage;
use crate::names::{BITS, MESSAGE, REPLY};
use crate::{bit_words, message_words, reply_words};
use line_format::{Lines, WrongLine, put_words_line, words_line};
use std::alloc::AllocError;
use terminal_state::Reply;

/// Reads the line of truth values.
pub fn bits_line(lines: Lines<'_>) -> Result<(Bits, Lines<'_>), WrongLine>
    ensures { Gives (λ r. r.0) (λ r. r.1) result (read bits_line (spot lines.entry)) }
{
    let mut words = [0; 16];
    let behind = match words_line(lines, BITS, 1, &mut words) {
        Ok(behind) => behind,
        Err(wrong) => return Err(wrong),
    };
    let bits = bit_words::bits_from(&words);
    if words == bit_words::words_of(&bits) {
        Ok((bits, behind))
    } else {
        Err(lines.wrong())
    }
}

/// Writes the line of truth values.
pub fn put_bits(out: &mut Vec<u8>, bits: &Bits) -> Result<(), AllocError>
    ensures { OnOk result (Adds bits_line bits.now out.old.items out.new.items) }
{
    put_words_line(out, BITS, 1, &bit_words::words_of(bits))
}

/// Reads the line of the reply in progress.
pub fn reply_line(lines: Lines<'_>) -> Result<(Option<Reply>, Lines<'_>), WrongLine>
    ensures { Gives (λ r. shown_reply r.0) (λ r. r.1) result (read reply_line (spot lines.entry)) }
{
    let mut words = [0; 5];
    let behind = match words_line(lines, REPLY, 1, &mut words) {
        Ok(behind) => behind,
        Err(wrong) => return Err(wrong),
    };
    let reply = reply_words::reply_from(&words);
    if words == reply_words::words_of(&reply) {
        Ok((reply, behind))
    } else {
        Err(lines.wrong())
    }
}

/// Writes the line of the reply in progress.
pub fn put_reply(out: &mut Vec<u8>, reply: &Option<Reply>) -> Result<(), AllocError>
    ensures { OnOk result (Adds reply_line (shown_reply reply.now) out.old.items out.new.items) }
{
    put_words_line(out, REPLY, 1, &reply_words::words_of(reply))
}

/// Reads the line of the message in progress.
pub fn message_line(lines: Lines<'_>) -> Result<(Option<SavedMessage>, Lines<'_>), WrongLine>
    ensures answer { Gives (λ r. r.0) (λ r. r.1) result (read message_line (spot lines.entry)) }
    ensures counted { IfOk result (λ r. IsCounted r.0) }
{
    let mut words = [0; 5];
    let behind = match words_line(lines, MESSAGE, 1, &mut words) {
        Ok(behind) => behind,
        Err(wrong) => return Err(wrong),
    };
    let message = message_words::message_from(&words);
    if words == message_words::words_of(&message) {
        Ok((message, behind))
    } else {
        Err(lines.wrong())
    }
}

/// Writes the line of the message in progress.
pub fn put_message(out: &mut Vec<u8>, message: &Option<SavedMessage>) -> Result<(), AllocError>
    requires { IsCounted message.now }
    ensures { OnOk result (Adds message_line message.now out.old.items out.new.items) }
{
    put_words_line(out, MESSAGE, 1, &message_words::words_of(message))
}
