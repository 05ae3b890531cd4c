//! What is legal where a command is illegal.
ghost use Rattle.std.specs.Prelude.{◌≡◌, ℕ, ◌≤◌, ◌-◌, false};
ghost use Rattle.bus_word.specs.Command.{is_mode};
ghost use Rattle.bus_word.specs.Mask.{has_bit};
ghost use Rattle.tool_buses.specs.LegalCounts.{is_count_legal};

use bus_legal::Numbers;
use bus_word::Command;
use rt1553::Normal;
use std::alloc::{AllocError, Global};
use std::format;

/// The word counts that are legal where a command of data words is, to its address and in its direction: bit `n - 1` for `n`.
fn legal_counts(normal: &Normal, command: Command) -> u32
    requires { is_mode command ≡ false }
    ensures { (n : ℕ) → 1 ≤ n → n ≤ 32 → has_bit result (n - 1) ≡ is_count_legal normal.now.tables command n }
{
    let tables = normal.tables();
    let masks = match (command.transmit(), command.is_broadcast()) {
        (true, true) => return 0,
        (true, false) => &tables.own_transmit,
        (false, true) => &tables.broadcast_receive,
        (false, false) => &tables.own_receive,
    };
    masks[usize::from(command.subaddress()) - 1]
}

/// What a command of data words asks for, and where.
fn place_text(alloc: Global, command: Command) -> Result<String, AllocError> {
    let all = if command.is_broadcast() {
        "broadcast "
    } else {
        ""
    };
    let direction = if command.transmit() {
        "transmit"
    } else {
        "receive"
    };
    format!(in alloc; "{all}{direction} {}", command.subaddress())
}

/// What is legal for a terminal where a command is; None for a mode code.
pub fn legal_text(
    alloc: Global,
    normal: &Normal,
    command: Command,
) -> Result<Option<String>, AllocError> {
    if command.is_mode() {
        return Ok(None);
    }
    let place = place_text(alloc, command)?;
    let place = place.as_str();
    let bits = legal_counts(normal, command);
    if bits == 0 {
        return Ok(Some(format!(in alloc; "{place} is not legal")?));
    }
    let counts = Numbers { bits, first: 1 };
    let words = if bits == 1 { "word" } else { "words" };
    Ok(Some(format!(in alloc; "{place} is legal for {counts} {words}")?))
}
