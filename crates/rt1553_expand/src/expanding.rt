//! Texts of events and messages, expanded to scripts.
ghost use Rattle.std.specs.Prelude.{ℕ, ◌≡◌, ◌≢◌, ◌≤◌, ◌<◌, ◌+◌, ◌++◌, [], List, Option, None, drop, length, map, true, false, Ok, Err, IfOk, IfErr, IfSome, OnOk, MatchOption};
ghost use Rattle.std.specs.List.{flat_map};
ghost use Rattle.terminal_rules.specs.declared.event.Event.{Event};
ghost use Rattle.script_lines.specs.Line.{bus_first};
ghost use Rattle.script_lines.specs.Text.{lines_of, NoLineFeed};
ghost use Rattle.bus_script.specs.Reading.{reading, adds, nothing};
ghost use Rattle.rt1553_expand.specs.Own.{is_of_bus};
ghost use Rattle.rt1553_expand.specs.Expansion.{events_given, lines_given, expansion_of, expanded_lines, spelled, placing, script_in, all_events, line_count, refusal_at, refusals_in, refusal_of, ends_in_return, named_fault, by_bus_letter, IsExpansion, IfScript};
ghost use Rattle.rt1553_expand.specs.inner.StillLeft.{left_of, IsPending, own_line};
ghost use Rattle.rt1553_expand.specs.inner.Read.{expansion_by, IsWritable};
ghost use Rattle.rt1553_expand.specs.inner.Added.{Added};
ghost use Rattle.rt1553_expand.specs.inner.Wrote.{Wrote};

use crate::column::column_of;
use crate::fault::ExpandFault;
use crate::message::{BusMessage, MOST, read_message};
use crate::placing::{
    Pending, events_before_line, go_behind, how_many_left, next_events, nothing_pending,
};
use crate::script_for::ScriptFor;
use crate::writing::{message_lines, write_lines};
use bus_terminal::Event;
use bus_word::Bus;
use line_format::after;
use refused_lines::first_line;
use script_lines::{MAX_LINE, MAX_LINES, read_bus, read_event};
use script_terminals::address_first;
use std::alloc::{AllocError, Global};

/// A line that is not expanded.
#[derive(Clone, Copy, Debug, PartialEq, Eq)]
pub struct UnexpandedLine {
    /// Its number, from 1.
    pub line: u64,
    /// The first byte that doesn't fit, from 1; the one behind the line where more is wanted.
    pub column: usize,
    /// Why it is refused.
    pub fault: ExpandFault,
}

/// What a text is expanded to.
#[derive(Drop)]
pub enum Expanded {
    /// The script.
    Script(Vec<u8>),
    /// The lines that are refused, all of them, in their order.
    Refused(Vec<UnexpandedLine>),
    /// No line is refused, and the script would have over 1,048,576 lines.
    TooLong,
}

/// What was read of a line.
#[derive(Drop)]
pub enum ReadLine {
    /// A line of a script, with its event.
    Kept(Option<Event>),
    /// A message on this bus.
    Written(Bus, BusMessage),
}

/// A script so far.
#[derive(Drop)]
pub struct ScriptSoFar {
    /// Its text.
    pub text: Vec<u8>,
    /// How many lines that is, with those of the events that are left.
    pub lines: usize,
    /// What is left of the last message.
    pub pending: Pending,
}

/// Reads a line that is no line of a script.
fn read_message_line(own: &ScriptFor, line: &[u8]) -> Result<ReadLine, ExpandFault>
    requires { length line.now ≤ 256 }
    ensures said { IfOk result (λ read. by_bus_letter own.now line.now (bus_first line.now) ≡ Ok (expansion_by own.now line.now read)) }
    ensures refused { IfErr result (λ fault. by_bus_letter own.now line.now (bus_first line.now) ≡ Err fault) }
    ensures sound { IfOk result (IsWritable own.now line.now) }
{
    let Some(bus) = read_bus(line) else {
        return if own.is_of_bus() && address_first(line).is_some() {
            Ok(ReadLine::Kept(None))
        } else {
            Err(ExpandFault::Neither)
        };
    };
    let message = read_message(own, &line[2..])?;
    Ok(ReadLine::Written(bus, message))
}

/// Whether a carriage return ends a line.
fn ends_in_return(line: &[u8]) -> bool
    ensures { result ≡ ends_in_return line.now }
{
    !line.is_empty() && line[line.len() - 1] == b'\r'
}

/// Why a line is refused that is none of a script and no message: first for what editors add unseen.
fn named_fault(line: &[u8], fault: ExpandFault) -> ExpandFault
    ensures { result ≡ named_fault line.now fault }
{
    if ends_in_return(line) {
        ExpandFault::Return
    } else if after(line, b"\xef\xbb\xbf").is_some() {
        ExpandFault::Mark
    } else {
        fault
    }
}

/// Reads a line.
pub fn read_line(own: &ScriptFor, line: &[u8]) -> Result<ReadLine, ExpandFault>
    ensures said { IfOk result (λ read. expansion_of own.now line.now ≡ Ok (expansion_by own.now line.now read)) }
    ensures refused { IfErr result (λ fault. expansion_of own.now line.now ≡ Err fault) }
    ensures sound { IfOk result (IsWritable own.now line.now) }
{
    if line.len() > MOST {
        return Err(ExpandFault::Long);
    }
    match read_event(line) {
        Ok(_) if line.len() > MAX_LINE => Err(ExpandFault::LongComment),
        Ok(said) => Ok(ReadLine::Kept(said)),
        Err(_) => read_message_line(own, line).map_err(|fault| named_fault(line, fault)),
    }
}

/// How many lines of a script stand for a line that was read, 1 to 70.
pub fn lines_for(own: &ScriptFor, read: &ReadLine, line: &[u8]) -> usize
    requires { IsWritable own.now line.now read.now }
    ensures value { result ≡ lines_given (expansion_by own.now line.now read.now) }
    ensures few { result ≤ 70 }
{
    match read {
        ReadLine::Kept(_) => 1,
        ReadLine::Written(_, message) => message_lines(own, message),
    }
}

/// Writes a line that stays.
fn push_kept(out: &mut Vec<u8>, line: &[u8], read: &ReadLine) -> Result<(), AllocError>
    ensures { (own : ScriptFor) (n : ℕ) → OnOk result (out.new.items ≡ out.old.items ++ flat_map spelled (own_line n (expansion_by own line.now read.now))) }
{
    if let ReadLine::Kept(_) = read {
        out.extend_from_slice(line)?;
        out.push(b'\n')?;
    }
    Ok(())
}

/// Adds line `number` of a text, where the script has room for it. Tells whether it has.
fn add_line(
    script: &mut ScriptSoFar,
    own: &ScriptFor,
    line: &[u8],
    number: u64,
) -> Result<bool, AllocError>
    requires few { script.old.lines ≤ 1048576 }
    requires fits { IsPending script.old.pending }
    ensures added { IfOk result (λ has_room. has_room ≡ true → Added own.now number script.old script.new line.now) }
    ensures full { IfOk result (λ has_room. has_room ≡ false → 1048576 < script.old.lines + expanded_lines (expansion_of own.now line.now)) }
{
    let Ok(read) = read_line(own, line) else {
        return Ok(true);
    };
    let lines = script.lines + lines_for(own, &read, line);
    if lines > MAX_LINES as usize {
        return Ok(false);
    }
    let count = events_before_line(&script.pending, line, &read);
    write_lines(&mut script.text, next_events(&script.pending, count))?;
    push_kept(&mut script.text, line, &read)?;
    go_behind(&mut script.pending, count, own, number, line, &read)?;
    script.lines = lines;
    Ok(true)
}

/// Writes the events that are left.
fn push_left(out: &mut Vec<u8>, pending: &Pending) -> Result<(), AllocError>
    requires { IsPending pending.now }
    ensures { OnOk result (Wrote out.old.items out.new.items (left_of pending.now).events) }
{
    write_lines(out, next_events(pending, how_many_left(pending)))
}

/// The script of a text, without what is refused of it; None where it would have over 1,048,576 lines.
fn script_of(alloc: Global, text: &[u8], own: &ScriptFor) -> Result<Option<Vec<u8>>, AllocError>
    ensures text { IfOk result (λ o. IfSome o (λ script. script.items ≡ script_in own.now (lines_of text.now))) }
    ensures count { IfOk result (λ o. MatchOption o (1048576 < line_count own.now (lines_of text.now)) (λ _. line_count own.now (lines_of text.now) ≤ 1048576)) }
    ensures read { is_of_bus own.now ≡ false → IfOk result (λ o. IfSome o (λ script. reading 0 (lines_of script.items) ≡ adds (all_events own.now (lines_of text.now)) nothing)) }
{
    let mut script = ScriptSoFar {
        text: Vec::new(alloc),
        lines: 0,
        pending: nothing_pending(alloc),
    };
    let mut rest = text;
    let mut number = 1u64;
    while !rest.is_empty() {
        let (line, more) = first_line(rest);
        if !add_line(&mut script, own, line, number)? {
            return Ok(None);
        }
        number += 1;
        rest = more;
    }
    push_left(&mut script.text, &script.pending)?;
    Ok(Some(script.text))
}

/// Adds a line of this number where it is refused.
fn push_refused(
    found: &mut Vec<UnexpandedLine>,
    own: &ScriptFor,
    line: &[u8],
    number: u64,
) -> Result<(), AllocError>
    ensures { OnOk result (map refusal_of found.new.items ≡ map refusal_of found.old.items ++ refusal_at number (expansion_of own.now line.now)) }
{
    if let Err(fault) = read_line(own, line) {
        found.push(UnexpandedLine {
            line: number,
            column: column_of(line, fault),
            fault,
        })?;
    }
    Ok(())
}

/// Tells each line of a text that is refused, in their order.
fn unexpanded_lines(
    alloc: Global,
    text: &[u8],
    own: &ScriptFor,
) -> Result<Vec<UnexpandedLine>, AllocError>
    ensures { IfOk result (λ found. map refusal_of found.items ≡ refusals_in own.now text.now) }
{
    let mut found = Vec::new(alloc);
    let mut rest = text;
    let mut number = 1u64;
    while !rest.is_empty() {
        let (line, more) = first_line(rest);
        push_refused(&mut found, own, line, number)?;
        number += 1;
        rest = more;
    }
    Ok(found)
}

/// Expands a text, line by line. A line of a script, a comment and an empty line stay as they are. A message, which is the
/// letter of a bus and a space, a word by the names of its fields as `read_word_line` reads it, perhaps ` from ` with the address
/// and the subaddress of the terminal that sends, and perhaps a colon and data words, gives the lines of its events. Any other
/// line, one of over 256 bytes and a comment of over 64 are refused. The script is for the terminals `own`: where one of them sends
/// in a transfer, slots stand in place of its words, and the end of the message behind them where another of them receives. On a bus, a
/// line with an address in front stays, whatever is behind it. Lines right behind a message that state answers stand
/// in the script behind its events: a hand-over behind the gap at its end, others each behind a slot, those left over behind the last
/// event. The only error is out of memory.
pub fn expand(alloc: Global, text: &[u8], own: &ScriptFor) -> Result<Expanded, AllocError>
    ensures expansion { IfOk result (IsExpansion own.now text.now) }
    ensures read { is_of_bus own.now ≡ false → IfOk result (λ expanded. IfScript expanded (λ script. reading 0 (lines_of script) ≡ adds (all_events own.now (lines_of text.now)) nothing)) }
{
    let refused = unexpanded_lines(alloc, text, own)?;
    if !refused.is_empty() {
        return Ok(Expanded::Refused(refused));
    }
    match script_of(alloc, text, own)? {
        Some(script) => Ok(Expanded::Script(script)),
        None => Ok(Expanded::TooLong),
    }
}
