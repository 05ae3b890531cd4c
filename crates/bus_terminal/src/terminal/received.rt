//! Data words that a message receives, and the gap that ends it, all at once.
use super::Terminal;
use crate::answer::Receiving;
use bus_legal::Legality;
use bus_word::{Bus, Cell};
use terminal_state::{Decoded, Ended};

impl<L: Legality> Terminal<L> {
    ghost use Rattle.std.specs.Prelude.{◌≡◌, true, ℕ, Some, None, ◌||◌, if◌then◌else◌, List, ◌∷◌, length};
    ghost use Rattle.bus_word.specs.Cell.{cell_of, is_allowed};
    ghost use Rattle.bus_legal.specs.Description.{Description};
    ghost use Rattle.terminal_rules.specs.declared.event.Event.{Event};
    ghost use Rattle.terminal_rules.specs.declared.event.Event.TheVariants.{Gap};
    ghost use Rattle.terminal_rules.specs.Past.{history_after};
    ghost use Rattle.bus_terminal.specs.declared.answer.Receiving.{Receiving};
    ghost use Rattle.bus_terminal.specs.Stands.{StandsAt, own_description};
    ghost use Rattle.bus_terminal.specs.Received.{data_words_on, unless_wrapped, receiving_by, receiving};
    ghost use Rattle.bus_terminal.specs.inner.Terminal.{receives_in};

    /// Tells what the message on this bus is to receive, if it has just started, is legal and its words are to be handed over
    /// alone: not while busy, and not at the wraparound subaddress.
    #[inline(always)]
    pub fn receives(&self, bus: Bus) -> Option<Receiving>
        ensures { (P : Description) (h : List Event) → StandsAt L.is_legal P h self.now → result ≡ receiving P h bus }
    {
        self.to_receive(bus)
    }

    /// Takes the data words that the message on this bus is to receive, and the gap behind them.
    #[inline(always)]
    pub fn take_received(&mut self, bus: Bus)
        ensures { (P : Description) (h : List Event) (it : Receiving) (ds : List ℕ) → receiving P h bus ≡ Some it → length ds ≡ it.count → StandsAt L.is_legal P h self.old → StandsAt L.is_legal P (Gap bus ∷ history_after (data_words_on bus ds) h) self.new }
    {
        if let Some(decoded) = self.in_progress.fresh(bus) {
            if let Some(cell) = decoded.cell {
                match cell {
                    Cell::OwnReceive(_, _) | Cell::BroadReceive(_, _) => {
                        self.in_progress.message = None;
                        self.settle(bus, &Ended::Done(decoded.command, cell));
                    }
                    _ => {}
                }
            }
        }
    }

    /// Tells the same from what is kept.
    #[inline(always)]
    fn to_receive(&self, bus: Bus) -> Option<Receiving>
        ensures { result ≡ receives_in L.is_legal self.now bus }
    {
        if self.replies_on(bus) || self.registers.flags.busy {
            return None;
        }
        match self.in_progress.fresh(bus) {
            Some(decoded) => self.receiving_by(decoded),
            None => None,
        }
    }

    /// Tells what a command is to receive.
    #[inline(always)]
    pub(super) fn receiving_by(&self, decoded: Decoded) -> Option<Receiving>
        ensures { result ≡ receiving_by (own_description L.is_legal self.now) decoded.command (cell_of decoded.command) }
    {
        match decoded.cell {
            Some(Cell::OwnReceive(subaddress, n)) => self.unless_wrapped(
                Cell::OwnReceive(subaddress, n),
                Receiving {
                    broadcast: false,
                    subaddress,
                    count: decoded.count,
                },
            ),
            Some(Cell::BroadReceive(subaddress, n)) => self.unless_wrapped(
                Cell::BroadReceive(subaddress, n),
                Receiving {
                    broadcast: true,
                    subaddress,
                    count: decoded.count,
                },
            ),
            _ => None,
        }
    }

    /// Gives what is received, if its cell, which some command has, is legal and its subaddress not that of wraparound.
    #[inline(always)]
    fn unless_wrapped(&self, cell: Cell, it: Receiving) -> Option<Receiving>
        requires { is_allowed cell ≡ true }
        ensures { result ≡ unless_wrapped (own_description L.is_legal self.now) cell it }
    {
        if it.subaddress != self.settings.wrap && self.legality.legal(cell) {
            Some(it)
        } else {
            None
        }
    }
}
