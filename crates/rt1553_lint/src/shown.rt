//! Values and keys of a TOML text, in one line.
use std::fmt;
use toml::Value;

/// How many characters of a text are shown at most.
const MOST_LETTERS: usize = 40;

/// Writes a character, escaped where it does not print.
fn write_shown<W: fmt::Write>(f: &mut fmt::Formatter<W>, letter: char) -> fmt::Result {
    if letter == '\'' {
        return f.write_char(letter);
    }
    write!(f, "{}", letter.escape_debug())
}

/// A text between quotation marks, cut where it is long. What does not print is escaped, so that it stays in its line and no
/// terminal takes it for a command.
#[derive(Clone, Copy)]
pub struct Quoted<'a>(pub &'a str);

impl fmt::Display for Quoted<'_> {
    fn fmt<W: fmt::Write>(&self, f: &mut fmt::Formatter<W>) -> fmt::Result {
        f.write_str("\"")?;
        for (index, letter) in self.0.chars().enumerate() {
            if index == MOST_LETTERS {
                return f.write_str("\" ..");
            }
            write_shown(f, letter)?;
        }
        f.write_str("\"")
    }
}

/// A message of a library, with what does not print escaped.
#[derive(Clone, Copy)]
pub struct ShownMessage<'a>(pub &'a str);

impl fmt::Display for ShownMessage<'_> {
    fn fmt<W: fmt::Write>(&self, f: &mut fmt::Formatter<W>) -> fmt::Result {
        for letter in self.0.chars() {
            if letter == '"' {
                f.write_char(letter)?;
            } else {
                write_shown(f, letter)?;
            }
        }
        Ok(())
    }
}

/// A value, in few words.
#[derive(Clone, Copy)]
pub struct Shown<'a>(pub &'a Value);

impl fmt::Display for Shown<'_> {
    fn fmt<W: fmt::Write>(&self, f: &mut fmt::Formatter<W>) -> fmt::Result {
        match self.0 {
            Value::String(text) => write!(f, "{}", Quoted(text.as_str())),
            Value::Integer(number) => write!(f, "{number}"),
            Value::Float(number) => write!(f, "{number:?}"),
            Value::Boolean(truth) => write!(f, "{truth}"),
            Value::Datetime(_) => f.write_str("a date or time"),
            Value::Array(items) => write!(f, "an array of {} items", items.len()),
            Value::Table(_) => f.write_str("a table"),
        }
    }
}
