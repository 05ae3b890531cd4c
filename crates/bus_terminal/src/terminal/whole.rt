//! Messages of which nothing but their own words comes before their gap: what their command means is found once, and none of them
//! is ever in progress.
ghost use Rattle.std.specs.Prelude.{◌≡◌, true, Some};
ghost use Rattle.terminal_state.specs.Places.{can_reply};

use super::Terminal;
use crate::answer::{Answer, Receiving};
use arrayvec::ArrayVec;
use bus_legal::Legality;
use bus_word::{Bus, Cell, Command, Kind};
use terminal_rules::Event;
use terminal_state::{Decoded, Ended, GapEnd};

/// Tells whether a cell is that of data words that are received.
#[inline(always)]
fn is_receive(cell: Cell) -> bool
    ensures { result ≡ true → can_reply (Some cell) ≡ true }
{
    matches!(cell, Cell::OwnReceive(_, _) | Cell::BroadReceive(_, _))
}

impl<L: Legality> Terminal<L> {
    ghost use Rattle.std.specs.Prelude.{◌≡◌, true, ℕ, Some, None, [], IfSome, List, ◌∷◌, length};
    ghost use Rattle.std.specs.Borrow.{sem};
    ghost use Rattle.std.specs.Io.BufRead.{Rests};
    ghost use Rattle.bus_word.specs.Word.{valid_word};
    ghost use Rattle.bus_word.specs.declared.word.Kind.TheVariants.{Com};
    ghost use Rattle.bus_legal.specs.Description.{Description};
    ghost use Rattle.terminal_rules.specs.declared.event.Event.{Event};
    ghost use Rattle.terminal_rules.specs.declared.event.Event.TheVariants.{Word as WordEvent, Gap};
    ghost use Rattle.terminal_rules.specs.Past.{history_after};
    ghost use Rattle.terminal_rules.specs.Out.{out};
    ghost use Rattle.bus_terminal.specs.declared.answer.Receiving.{Receiving};
    ghost use Rattle.bus_terminal.specs.Answer.{shown_answer, IsSmall};
    ghost use Rattle.bus_terminal.specs.Stands.{StandsAt};
    ghost use Rattle.bus_terminal.specs.Received.{data_words_on, receiving};
    ghost use Rattle.bus_terminal.specs.inner.Terminal.{collecting, StartsAlone, started_alone};
    ghost use Rattle.bus_terminal.specs.contracts.terminal.Terminal.{the_row};

    /// Tells whether nothing stands in the way of this command: then it starts a message.
    #[inline(always)]
    fn starts_alone(&self, bus: Bus, command: Command) -> bool
        ensures { result ≡ true → StartsAlone bus command self.now }
    {
        if self.in_progress.message.is_some() || self.replies_on(bus) || self.heard.on(bus) {
            return false;
        }
        command.is_addressed_to(self.settings.address, self.settings.broadcast)
    }

    /// Starts the message of such a command, but for keeping it.
    #[inline(always)]
    fn start_alone(&mut self, bus: Bus, decoded: &Decoded)
        ensures starts { (record self.new { in_progress = collecting bus decoded.now.command [] }) ≡ started_alone L.is_legal bus decoded.now.command self.old }
        ensures in_progress { self.new.in_progress ≡ self.old.in_progress }
    {
        let spares = self.spares(decoded.cell);
        self.registers.start(decoded, spares);
        self.heard.set(bus, true);
        self.reply = None;
    }

    /// Tells what a valid command word of these bits has the terminal receive, if nothing stands in its way.
    #[inline(always)]
    pub fn receives_by(&self, bus: Bus, bits: u16) -> Option<Receiving>
        ensures { IfSome result (λ it. (P : Description) (h : List Event) → StandsAt L.is_legal P h self.now → receiving P (WordEvent bus (valid_word Com bits) ∷ h) bus ≡ Some it) }
    {
        let decoded = Decoded::of(Command::of(bits));
        if !self.registers.flags.busy && self.starts_alone(bus, decoded.command) {
            return self.receiving_by(decoded);
        }
        None
    }

    /// Takes that command word, the data words that it is to receive, and the gap behind them.
    #[inline(always)]
    pub fn take_message(&mut self, bus: Bus, bits: u16)
        ensures { (P : Description) (h : List Event) (it : Receiving) (ds : List ℕ) → receiving P (WordEvent bus (valid_word Com bits) ∷ h) bus ≡ Some it → length ds ≡ it.count → StandsAt L.is_legal P h self.old → StandsAt L.is_legal P (Gap bus ∷ history_after (data_words_on bus ds) (WordEvent bus (valid_word Com bits) ∷ h)) self.new }
    {
        let decoded = Decoded::of(Command::of(bits));
        if let Some(cell) = decoded.cell {
            if is_receive(cell) && self.starts_alone(bus, decoded.command) {
                self.start_alone(bus, &decoded);
                self.settle(bus, &Ended::Done(decoded.command, cell));
                return;
            }
        }
        self.take_apart(bus, bits);
    }

    /// Takes the same, one after the other.
    #[inline(never)]
    fn take_apart(&mut self, bus: Bus, bits: u16)
        ensures { (P : Description) (h : List Event) (it : Receiving) (ds : List ℕ) → receiving P (WordEvent bus (valid_word Com bits) ∷ h) bus ≡ Some it → length ds ≡ it.count → StandsAt L.is_legal P h self.old → StandsAt L.is_legal P (Gap bus ∷ history_after (data_words_on bus ds) (WordEvent bus (valid_word Com bits) ∷ h)) self.new }
    {
        self.take_valid(bus, Kind::Com, bits);
        self.take_received(bus);
    }

    /// Takes a valid command word of these bits and the gap right behind it, and answers the gap.
    #[inline(always)]
    pub fn take_with_gap(&mut self, bus: Bus, bits: u16) -> Answer<'_>
        ensures answer { (P : Description) (h : List Event) → StandsAt L.is_legal P h self.old → shown_answer result ≡ out P (WordEvent bus (valid_word Com bits) ∷ h) (Gap bus) }
        ensures* stands { sem 𝓛 (Rests (the_row L.row) self.entry (λ new. (P : Description) (h : List Event) → StandsAt L.is_legal P h self.old → StandsAt L.is_legal P (Gap bus ∷ WordEvent bus (valid_word Com bits) ∷ h) new)) }
        ensures small { IsSmall (shown_answer result) }
    {
        let decoded = Decoded::of(Command::of(bits));
        if decoded.count == 0 && self.starts_alone(bus, decoded.command) {
            self.start_alone(bus, &decoded);
            self.in_progress.words = ArrayVec::new();
            let ended = self.judge(GapEnd::Complete(decoded));
            self.settle(bus, &ended);
            return self.handed(&ended);
        }
        self.take_valid(bus, Kind::Com, bits);
        self.step(Event::Gap(bus))
    }
}
