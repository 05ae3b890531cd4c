//! The results of a unit, given to a watch as a recording.
ghost use Rattle.std.specs.Prelude.{◌≡◌, ◌≤◌, ◌<◌, ◌+◌, None, Some, length, map, replicate, IfOk, OnOk};
ghost use Rattle.std.specs.List.{flat_map};
ghost use Rattle.bus_legal.specs.Parts.{description_in};
ghost use Rattle.bus_terminal.specs.Answer.{shown_word};
ghost use Rattle.terminal_exchanges.specs.Values.{IsShort, exchange_in};
ghost use Rattle.recorded_terminal.specs.SentWords.{word_shown};
ghost use Rattle.rt1553_results.specs.Results.{answer};
ghost use Rattle.rt1553_results.specs.Recorded.{replied, slots_of, words_replied};
ghost use Rattle.rt1553_results.specs.inner.Placed.{Sees, WatchesAll, line_of_slot, placed_event, placed_exchange, placed_from, placed_slots, word_in_slot};

use crate::results::Results;
use bus_complete_test::{Exchange, Exchanges};
use bus_legal::Normal;
use bus_terminal::{Event, Sent};
use bus_word::{Bus, Kind};
use recorded_terminal::{Marked, Sighting, Watch};
use std::alloc::{AllocError, Global};
use terminal_exchanges::events_of;

/// By how many the lines of two slots of an exchange differ, of which the line of the first is its number.
pub const SLOT_LINES: u64 = 4_294_967_296;

/// A slot of an exchange, or what comes before its slots, in slot 0.
#[derive(Clone, Copy)]
pub struct ReplyPlace {
    /// The number of the exchange.
    pub number: u32,
    /// Its command word.
    pub command: u16,
    /// The number of the slot, from 0.
    pub slot: u8,
}

/// Gives a watch what is seen of an event at a place, with the word that is sent in it.
fn see(
    watch: &mut Watch<Normal>,
    at: ReplyPlace,
    event: Event,
    sent: Option<Sent>,
) -> Result<(), AllocError>
    ensures { OnOk result (Sees (placed_event at event (word_shown sent)) watch.old watch.new) }
{
    let line = u64::from(at.slot) * SLOT_LINES + u64::from(at.number);
    match Sighting::of(event, sent) {
        Some(sighting) => {
            watch.see(Marked {
                sighting,
                line,
                command: Some(at.command),
                any_word: false,
                is_maybe: false,
            })?;
            Ok(())
        }
        None => Ok(()),
    }
}

/// Gives a watch what is seen of events at a place, in which nothing is sent.
fn see_events(watch: &mut Watch<Normal>, at: ReplyPlace, events: &[Event]) -> Result<(), AllocError>
    ensures { OnOk result (Sees (flat_map (λ e. placed_event at e None) events.now) watch.old watch.new) }
{
    for event in events {
        see(watch, at, *event, None)?;
    }
    Ok(())
}

/// A word of a reply in this slot: the status word in the first, and data words in the others.
fn word_in_slot(slot: u8, bits: u16) -> Sent
    ensures { shown_word result ≡ word_in_slot slot bits }
{
    Sent {
        bus: Bus::A,
        kind: if slot == 0 { Kind::Com } else { Kind::Dat },
        bits,
    }
}

/// Gives a watch the words of a reply, each in its slot.
fn see_words(
    watch: &mut Watch<Normal>,
    exchange: ReplyPlace,
    reply: &[u16],
) -> Result<(), AllocError>
    requires { length reply.now ≤ 33 }
    ensures { OnOk result (Sees (placed_slots exchange.number exchange.command 0 (map Some (words_replied reply.now))) watch.old watch.new) }
{
    for (number, word) in reply.iter().enumerate() {
        let slot = number as u8;
        let at = ReplyPlace { slot, ..exchange };
        see(watch, at, Event::Slot, Some(word_in_slot(slot, *word)))?;
    }
    Ok(())
}

/// Gives a watch so many slots from this place on, in which nothing is sent.
fn see_silence(watch: &mut Watch<Normal>, first: ReplyPlace, count: u8) -> Result<(), AllocError>
    requires { first.slot + count < 256 }
    ensures { OnOk result (Sees (placed_slots first.number first.command first.slot (replicate count None)) watch.old watch.new) }
{
    for more in 0..count {
        let slot = first.slot + more;
        let at = ReplyPlace { slot, ..first };
        see(watch, at, Event::Slot, None)?;
    }
    Ok(())
}

/// Gives a watch an exchange with its reply.
fn see_exchange(
    watch: &mut Watch<Normal>,
    number: u32,
    exchange: Exchange,
    reply: &[u16],
) -> Result<(), AllocError>
    requires short { IsShort exchange }
    requires few { length reply.now ≤ 33 }
    ensures { OnOk result (Sees (placed_exchange number (exchange_in exchange) (slots_of (record { exchange = exchange_in exchange; reply = reply.now }))) watch.old watch.new) }
{
    let command = exchange.command;
    let start = ReplyPlace {
        number,
        command,
        slot: 0,
    };
    let unanswered = Exchange {
        slots: 0,
        ..exchange
    };
    let words = reply.len() as u8;
    let silent = ReplyPlace {
        slot: words,
        ..start
    };
    see_events(watch, start, events_of(unanswered).as_slice())?;
    see_words(watch, start, reply)?;
    see_silence(watch, silent, exchange.slots.saturating_sub(words))
}

/// Watches the terminal of a unit by its results, from power-up up to the first exchange without one.
pub fn watch_results(
    alloc: Global,
    normal: &Normal,
    results: &Results,
) -> Result<Watch<Normal>, AllocError>
    ensures { IfOk result (WatchesAll (description_in normal.now) (placed_from 1 (replied (description_in normal.now) (answer results.now)))) }
{
    let mut exchanges = Exchanges::new(normal);
    let mut watch = Watch::power_up(alloc, normal.setup(), *normal)?;
    while let Some(exchange) = exchanges.next() {
        let number = exchanges.given();
        let Some(reply) = results.reply(number) else {
            return Ok(watch);
        };
        see_exchange(&mut watch, number, exchange, reply)?;
    }
    Ok(watch)
}
