//! Where a line stops being one that can be expanded.
ghost use Rattle.std.specs.Prelude.{◌≡◌, ◌≤◌, ◌<◌, ◌+◌, length, IfSome, option_map};

use crate::fault::ExpandFault;
use crate::message::{MOST, cut, small_letters, words_wanted};
use line_format::{FieldKind, field};
use refused_lines::misfit_of;
use rt1553_tool::{WordLineFault, is_blank, read_word_line};

/// How many bytes a comment may have.
const MAX_COMMENT: usize = 64;

/// How many bytes of the text are blank, up to the first that is not.
fn blanks(text: &[u8]) -> usize
    ensures { result ≤ length text.now }
{
    let mut len = 0;
    while len < text.len() && is_blank(text[len]) {
        len += 1;
    }
    len
}

/// How many bytes of the text are not blank, up to the first that is.
fn part_len(text: &[u8]) -> usize
    ensures { result ≤ length text.now }
{
    let mut len = 0;
    while len < text.len() && !is_blank(text[len]) {
        len += 1;
    }
    len
}

/// How many bytes stand before the part of this number, from 0; all where there is no such part.
fn part_place(text: &[u8], number: usize) -> usize
    ensures { result ≤ length text.now }
{
    let mut at = blanks(text);
    for _ in 0..number {
        at += part_len(&text[at..]);
        at += blanks(&text[at..]);
    }
    at
}

/// How many bytes stand before the first part of a status word that names no bit.
fn bit_place(text: &[u8]) -> usize
    ensures { result ≤ length text.now }
{
    let mut at = part_place(text, 2);
    for _ in 0..MOST {
        let end = at + part_len(&text[at..]);
        if read_word_line(&text[..end]).is_err() {
            return at;
        }
        at = end + blanks(&text[end..]);
    }
    at
}

/// How many bytes of what is to say a word stand before what does not fit.
fn fault_place(text: &[u8], fault: WordLineFault) -> usize
    ensures { result ≤ length text.now }
{
    let number = match fault {
        WordLineFault::Long | WordLineFault::Name => 0,
        WordLineFault::Address | WordLineFault::Digits => 1,
        WordLineFault::Subaddress | WordLineFault::Code | WordLineFault::Parity(_) => 2,
        WordLineFault::Count | WordLineFault::Direction => 3,
        WordLineFault::ModeSubaddress => 4,
        WordLineFault::Bit => return bit_place(text),
        WordLineFault::Much => part_behind(text),
    };
    part_place(text, number)
}

/// The number of the first part behind all that the word has, by its name.
fn part_behind(text: &[u8]) -> usize
    ensures { result ≤ 5 }
{
    let start = blanks(text);
    match &text[start..start + part_len(&text[start..])] {
        b"mode" => 5,
        b"rx" | b"tx" => 4,
        b"data" => 2,
        _ => 3,
    }
}

/// How many bytes stand before the first of so many data words that is missing or is none, or before what stands behind the last one.
fn word_place(wanted: u8, text: &[u8]) -> usize
    ensures { result ≤ length text.now }
{
    let mut rest = text;
    for _ in 0..wanted {
        let Some((_, others)) = field(rest, FieldKind::Word) else {
            return text.len() - rest.len();
        };
        rest = others;
    }
    text.len() - rest.len()
}

/// The same of the data words of a message that begins with this word, of which 256 bytes count.
fn data_place(word: &[u8], text: &[u8]) -> usize
    ensures { result ≤ length text.now }
{
    let wanted = match read_word_line(word) {
        Ok(line) => words_wanted(line.fields),
        Err(_) => 0,
    };
    let small = small_letters(&text[..text.len().min(256)]);
    word_place(wanted, small.as_slice())
}

/// How many bytes of a message stand before what does not fit.
fn misfit_place(text: &[u8], fault: ExpandFault) -> usize
    ensures { result ≤ length text.now }
{
    let (head, data) = cut(text, b":");
    let (word, from) = cut(head, b" from ");
    match (fault, from, data) {
        (ExpandFault::Comment, ..) => cut(text, b"#").0.len(),
        (ExpandFault::Word(fault), ..) => fault_place(word, fault),
        (ExpandFault::NotReceive, ..) => word.len(),
        (ExpandFault::Sender, Some(from), _) => head.len() - from.len(),
        (ExpandFault::Colon, None, _) => fault_place(word, WordLineFault::Much),
        (ExpandFault::Colon | ExpandFault::SenderWords, ..) => text.len(),
        (ExpandFault::DataWord | ExpandFault::Much, _, Some(data)) => {
            text.len() - data.len() + data_place(word, data)
        }
        _ => 0,
    }
}

/// The column of the first byte of a line that doesn't fit, from 1, where the line is refused for this; the one behind the line
/// where more is wanted. As well as can be said: only its bounds are proved.
pub fn column_of(line: &[u8], fault: ExpandFault) -> usize
    ensures low { 0 < result }
    ensures high { result ≤ length line.now + 257 }
{
    match fault {
        ExpandFault::Long => MOST + 1,
        ExpandFault::LongComment => MAX_COMMENT + 1,
        ExpandFault::Neither => match misfit_of(line) {
            Some(misfit) => misfit.column,
            None => 1,
        },
        ExpandFault::Mark => 1,
        ExpandFault::Return => line.len().max(1),
        _ if line.len() < 2 => 1,
        _ => misfit_place(&line[2..], fault) + 3,
    }
}
