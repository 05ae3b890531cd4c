//! The answers that lines behind a message state, each behind the event that it is for.
ghost use Rattle.std.specs.Prelude.{ℕ, ◌≡◌, ◌≤◌, ◌<◌, ◌+◌, [], List, false, length, take, drop, get_or, option_map, Option, OnOk};
ghost use Rattle.terminal_rules.specs.declared.event.Event.{Event};
ghost use Rattle.rt1553_expand.specs.Placing.{stated_answer, is_more, is_stating, is_hand, word_first};
ghost use Rattle.rt1553_expand.specs.Expansion.{is_statement};
ghost use Rattle.rt1553_expand.specs.inner.StillLeft.{left_of, IsPending, first_can_have, count_up_to, events_before_statement, events_before_line, left_behind};
ghost use Rattle.rt1553_expand.specs.inner.Read.{expansion_by, IsWritable};

use crate::expanding::ReadLine;
use crate::gathering::rest_from;
use crate::script_for::ScriptFor;
use crate::writing::push_events;
use bus_terminal::Event;
use line_format::after;
use std::alloc::{AllocError, Global};

/// What is left of the last message.
#[derive(Drop)]
pub struct Pending {
    /// Its events.
    pub events: Vec<Event>,
    /// How many of them are done.
    pub at: usize,
    /// The number of its line.
    pub source: u64,
    /// No line came behind it.
    pub fresh: bool,
}

/// Nothing, before the first line.
pub fn nothing_pending(alloc: Global) -> Pending
    ensures nothing { (left_of result).events ≡ [] }
    ensures stale { (left_of result).fresh ≡ false }
    ensures fits { IsPending result }
{
    Pending {
        events: Vec::new(alloc),
        at: 0,
        source: 0,
        fresh: false,
    }
}

/// What stands behind `#> ` or `#~ `.
fn stated_answer(line: &[u8]) -> Option<&[u8]>
    ensures { option_map (λ r. r.now) result ≡ stated_answer line.now }
{
    match after(line, b"#> ") {
        Some(text) => Some(text),
        None => after(line, b"#~ "),
    }
}

/// Whether the line goes on with the one before it.
fn is_more(line: &[u8]) -> bool
    ensures { result ≡ is_more line.now }
{
    after(line, b"#+ ").is_some()
}

/// Whether the line states an answer, or goes on with one.
fn is_stating(line: &[u8]) -> bool
    ensures { result ≡ is_stating line.now }
{
    stated_answer(line).is_some() || is_more(line)
}

/// Whether the line states a hand-over.
fn is_hand(line: &[u8]) -> bool
    ensures { result ≡ is_hand line.now }
{
    let Some(text) = stated_answer(line) else {
        return false;
    };
    matches!(after(text, b"hand"), Some([] | [b' ', ..]))
}

/// Whether a word comes first.
fn word_first(events: &[Event]) -> bool
    ensures { result ≡ word_first events.now }
{
    !events.is_empty() && matches!(events[0], Event::Word(_, _))
}

/// Whether the first event can have the answer, a hand-over or another.
fn can_have(events: &[Event], hand: bool) -> bool
    requires { 0 < length events.now }
    ensures { result ≡ first_can_have hand events.now }
{
    match events[0] {
        Event::Gap(_) => hand && !word_first(rest_from(events, 1)),
        Event::Slot => !hand,
        _ => false,
    }
}

/// How many events come up to the first that can have the answer; all, if none can.
fn count_up_to(events: &[Event], hand: bool) -> usize
    ensures value { result ≡ count_up_to hand events.now }
    ensures within { result ≤ length events.now }
{
    for i in 0..events.len() {
        if can_have(rest_from(events, i), hand) {
            return i + 1;
        }
    }
    events.len()
}

/// The events that are left.
fn left_events(pending: &Pending) -> &[Event]
    requires { IsPending pending.now }
    ensures { result.now ≡ (left_of pending.now).events }
{
    rest_from(pending.events.as_slice(), pending.at)
}

/// The next events, so many.
pub fn next_events(pending: &Pending, count: usize) -> &[Event]
    requires fits { IsPending pending.now }
    requires within { count ≤ length (left_of pending.now).events }
    ensures { result.now ≡ take count (left_of pending.now).events }
{
    &left_events(pending)[..count]
}

/// How many events are left.
pub fn how_many_left(pending: &Pending) -> usize
    requires { IsPending pending.now }
    ensures { result ≡ length (left_of pending.now).events }
{
    left_events(pending).len()
}

/// How many events come before a line that states an answer.
fn events_before_statement(pending: &Pending, line: &[u8]) -> usize
    requires { IsPending pending.now }
    ensures value { result ≡ events_before_statement (left_of pending.now) line.now }
    ensures within { result ≤ length (left_of pending.now).events }
{
    if is_more(line) && !pending.fresh {
        0
    } else {
        count_up_to(left_events(pending), is_hand(line))
    }
}

/// Whether a line that stays states an answer.
fn is_statement(line: &[u8], said: Option<Event>) -> bool
    ensures { result ≡ is_statement line.now said }
{
    said.is_none() && is_stating(line)
}

/// How many events come before the lines of a line that was read.
pub fn events_before_line(pending: &Pending, line: &[u8], read: &ReadLine) -> usize
    requires { IsPending pending.now }
    ensures value { (own : ScriptFor) → result ≡ events_before_line (left_of pending.now) (expansion_by own line.now read.now) }
    ensures within { result ≤ length (left_of pending.now).events }
{
    match read {
        ReadLine::Kept(said) if is_statement(line, *said) => events_before_statement(pending, line),
        _ => how_many_left(pending),
    }
}

/// Goes on behind a line that was read, before which so many events came.
pub fn go_behind(
    pending: &mut Pending,
    count: usize,
    own: &ScriptFor,
    number: u64,
    line: &[u8],
    read: &ReadLine,
) -> Result<(), AllocError>
    requires fits { IsPending pending.old }
    requires sound { IsWritable own.now line.now read.now }
    requires due { count ≡ events_before_line (left_of pending.old) (expansion_by own.now line.now read.now) }
    requires within { count ≤ length (left_of pending.old).events }
    ensures left { OnOk result (left_of pending.new ≡ left_behind number (left_of pending.old) (expansion_by own.now line.now read.now)) }
    ensures fits { OnOk result (IsPending pending.new) }
{
    match read {
        ReadLine::Kept(said) if is_statement(line, *said) => {
            pending.at += count;
            pending.fresh = false;
        }
        ReadLine::Kept(_) => {
            pending.events.clear();
            pending.at = 0;
            pending.fresh = false;
        }
        ReadLine::Written(bus, message) => {
            pending.events.clear();
            push_events(&mut pending.events, own, *bus, message)?;
            pending.at = 0;
            pending.source = number;
            pending.fresh = true;
        }
    }
    Ok(())
}
