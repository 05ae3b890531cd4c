//! Which message a command begins, in the words of a test bench.
ghost use Rattle.std.specs.Prelude.{◌≡◌, ◌++◌, IfOk, OnOk, string_bytes};
ghost use Rattle.rt1553_report.specs.Message.{bench_data, bench_message, bench_order, bench_receiver};

use bus_word::Command;
use std::alloc::{AllocError, Global};

/// Writes whom a command is for.
fn push_receiver(text: &mut String, command: Command) -> Result<(), AllocError>
    ensures { OnOk result (string_bytes text.new ≡ string_bytes text.old ++ bench_receiver command) }
{
    if command.is_broadcast() {
        return text.push_str("all RT ");
    }
    write!(text, "RT {} ", command.address())
}

/// Writes the direction, the subaddress and the word count of a message of data.
fn push_data(text: &mut String, command: Command) -> Result<(), AllocError>
    ensures { OnOk result (string_bytes text.new ≡ string_bytes text.old ++ bench_data command) }
{
    let direction = if command.transmit() {
        "transmit"
    } else {
        "receive"
    };
    let count = command.count();
    let words = if count == 1 { "word" } else { "words" };
    write!(
        text,
        "{direction} {}, {count} {words}",
        command.subaddress()
    )
}

/// Writes what a command asks for.
fn push_order(text: &mut String, command: Command) -> Result<(), AllocError>
    ensures { OnOk result (string_bytes text.new ≡ string_bytes text.old ++ bench_order command) }
{
    if command.is_mode() {
        return write!(text, "mode code {}", command.code());
    }
    push_data(text, command)
}

/// Which message this command word begins, as `RT 5 receive 3, 2 words`.
pub fn bench_message(alloc: Global, command: u16) -> Result<String, AllocError>
    ensures { IfOk result (λ text. string_bytes text ≡ bench_message command) }
{
    let command = Command::of(command);
    let mut text = String::new(alloc);
    push_receiver(&mut text, command)?;
    push_order(&mut text, command)?;
    Ok(text)
}
