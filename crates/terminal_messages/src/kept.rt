//! A message with its data words, as it is kept.
ghost use Rattle.std.specs.Prelude.{◌≡◌, List, ℕ};
ghost use Rattle.bus_terminal.specs.Answer.{shown_copy};
ghost use Rattle.terminal_messages.specs.Ends.{handed_in};
ghost use Rattle.std.specs.Option.{option_map};
ghost use Rattle.terminal_messages.specs.State.{facts_in, newer};
ghost use Rattle.terminal_messages.specs.View.{with_datum, left_after, added_view, begun_view_of, closed_view};
ghost use Rattle.terminal_messages.specs.Shown.{shown_message};

use crate::part::MessagePart;
use crate::seen::SeenEvent;
use crate::state::{MessageState, datum_told};
use arrayvec::ArrayVec;
use bus_terminal::{Answer, CopiedAnswer, Event};
use bus_word::Bus;

/// How many data words of a message are kept at most.
pub const MOST_WORDS: usize = 64;

/// A message with its data words, at most 64 of them.
#[derive(Drop)]
pub struct KeptMessage {
    pub state: MessageState,
    /// Its valid data words in order, those that came and those that the terminal sent.
    pub words: ArrayVec<u16, 64>,
    /// How many more there are. It stays at 2^64 - 1.
    pub left_out: u64,
    /// What the terminal handed over, else silence.
    pub handed: CopiedAnswer,
    /// From 1, by the order in which messages begin. It stays at 2^64 - 1.
    pub number: u64,
    /// What the caller calls the event with which it began, as its line.
    pub place: u64,
}

/// Adds a data word, if there is one and room for it, and gives how many there was no room for.
fn push_word(words: &mut ArrayVec<u16, 64>, left_out: u64, word: Option<u16>) -> u64
    ensures words { words.new.items ≡ with_datum words.old.items word }
    ensures left_out { result ≡ left_after words.old.items left_out word }
{
    match word {
        Some(word) => if words.len() < MOST_WORDS {
            words.push(word);
            left_out
        } else {
            left_out.saturating_add(1)
        },
        None => left_out,
    }
}

/// Keeps what is handed over by an answer, if something is.
fn keep_handed(handed: &mut CopiedAnswer, answer: &CopiedAnswer)
    ensures { handed_in (shown_copy handed.new) ≡ newer (handed_in (shown_copy answer.now)) (handed_in (shown_copy handed.old)) }
{
    let answer = answer.lent();
    if let Answer::Hands(_) = answer {
        *handed = CopiedAnswer::of(answer);
    }
}

impl KeptMessage {
    /// A message of which just the first command came; None of an event that is no word.
    pub fn begin(
        own: u8,
        broadcast: bool,
        bus: Bus,
        seen: &SeenEvent,
        is_unheard: bool,
        number: u64,
    ) -> Option<KeptMessage>
        ensures { option_map shown_message result ≡ begun_view_of own broadcast bus seen.now.event seen.now.starts is_unheard number seen.now.place }
    {
        match seen.event {
            Event::Word(_, word) => Some(KeptMessage {
                state: MessageState::begin(own, broadcast, bus, word, seen.starts, is_unheard),
                words: ArrayVec::new(),
                left_out: 0,
                handed: CopiedAnswer::Silent,
                number,
                place: seen.place,
            }),
            _ => None,
        }
    }

    /// Adds an event of this part that belongs to it.
    pub fn add(&mut self, own: u8, seen: &SeenEvent, part: MessagePart)
        ensures { (ds : List ℕ) → shown_message self.new ≡ added_view own (facts_in seen.now ds) part (shown_message self.old) }
    {
        let count = self.words.len();
        self.state = self.state.after(own, seen, part, count);
        self.left_out = push_word(&mut self.words, self.left_out, datum_told(seen));
        keep_handed(&mut self.handed, &seen.answer);
    }

    /// Closes it, where it is over with this event.
    pub fn close(&mut self, seen: &SeenEvent)
        ensures { (ds : List ℕ) → shown_message self.new ≡ closed_view (facts_in seen.now ds) (shown_message self.old) }
    {
        self.state = self.state.closed(seen);
    }
}
