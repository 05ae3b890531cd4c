//! Exchanges as events.
ghost use Rattle.std.specs.Prelude.{◌≡◌, ◌+◌, ◌≤◌, ◌<◌, ◌++◌, [], ◌∷◌};
ghost use Rattle.arrayvec.specs.ArrayVec.{array_vec_len};
ghost use Rattle.bus_word.specs.declared.word.Bus.TheVariants.{A};
ghost use Rattle.bus_word.specs.Word.{valid_word};
ghost use Rattle.terminal_rules.specs.declared.event.Event.TheVariants.{Word};
ghost use Rattle.terminal_exchanges.specs.Exchanges.{words_then, slots_then, exchange_then, script_of};
ghost use Rattle.terminal_exchanges.specs.Values.{words_in, exchange_in, IsShort};

use crate::exchange::Exchange;
use arrayvec::ArrayVec;
use bus_word::{Bus, Kind, Raw};
use terminal_rules::Event;

/// The events of a few exchanges, in order.
pub type Script = ArrayVec<Event, 80>;

/// Adds a valid word.
fn push_valid_word(script: &mut Script, kind: Kind, bits: u16)
    requires { array_vec_len script.old < 80 }
    ensures items { script.new.items ≡ script.old.items ++ Word A (valid_word kind bits) ∷ [] }
    ensures len { array_vec_len script.new ≡ array_vec_len script.old + 1 }
{
    script.push(Event::Word(Bus::A, Raw::of(kind, bits)));
}

/// Adds data words: the first, if there is one, and so many of 0.
fn push_data(script: &mut Script, first: Option<u16>, zeros: u8)
    requires { array_vec_len script.old + zeros < 80 }
    ensures items { script.new.items ≡ script.old.items ++ words_then (words_in first zeros) [] }
    ensures len { array_vec_len script.new ≤ array_vec_len script.old + 1 + zeros }
{
    if let Some(word) = first {
        push_valid_word(script, Kind::Dat, word);
        for _zero in 0..zeros {
            push_valid_word(script, Kind::Dat, 0);
        }
    }
}

/// Adds so many slots.
fn push_slots(script: &mut Script, count: u8)
    requires { array_vec_len script.old + count ≤ 80 }
    ensures items { script.new.items ≡ script.old.items ++ slots_then count [] }
    ensures len { array_vec_len script.new ≡ array_vec_len script.old + count }
{
    for _slot in 0..count {
        script.push(Event::Slot);
    }
}

/// Adds the events of an exchange, for which there has to be room.
pub fn push_exchange(script: &mut Script, exchange: Exchange)
    requires { array_vec_len script.old + exchange.zeros + exchange.slots ≤ 77 }
    ensures items { script.new.items ≡ script.old.items ++ exchange_then (exchange_in exchange) [] }
    ensures len { array_vec_len script.new ≤ array_vec_len script.old + exchange.zeros + exchange.slots + 3 }
{
    push_valid_word(script, Kind::Com, exchange.command);
    push_data(script, exchange.first, exchange.zeros);
    script.push(Event::Gap(Bus::A));
    push_slots(script, exchange.slots);
}

/// The events of an exchange.
pub fn events_of(exchange: Exchange) -> Script
    requires { IsShort exchange }
    ensures { result.items ≡ script_of (exchange_in exchange ∷ []) }
{
    let mut events = Script::new();
    push_exchange(&mut events, exchange);
    events
}
