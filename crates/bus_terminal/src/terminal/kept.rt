//! What a terminal keeps: lent, to be written down, and put into a terminal again.
ghost use Rattle.std.specs.Prelude.{◌≡◌, List};
ghost use Rattle.bus_legal.specs.Description.{Description, described};
ghost use Rattle.terminal_rules.specs.declared.event.Event.{Event};
ghost use Rattle.bus_terminal.specs.Stands.{StandsAt, own_description};

use super::Terminal;
use crate::settings::Settings;
use bus_legal::{Legality, Setup};
use terminal_state::{HeldWords, InProgress, OnBuses, PowerUpWords, Registers, Reply};

/// What a terminal keeps of its history, beside its set-up and its legality.
#[derive(Clone, Copy)]
pub struct Kept<'a> {
    /// On which buses the run holds a word for the terminal.
    pub heard: OnBuses,
    pub in_progress: &'a InProgress,
    pub registers: &'a Registers,
    pub reply: Option<Reply>,
    pub held: &'a HeldWords,
}

impl<L: Legality> Terminal<L> {
    /// Lends what answers whether a cell is legal.
    pub fn legality(&self) -> &L
        ensures { result.now ≡ self.now.legality }
    {
        &self.legality
    }

    /// Gives a terminal that stands wherever this one stands.
    pub fn copy(&self) -> Terminal<L>
    where
        L: Copy,
        ensures stands { (P : Description) (h : List Event) → StandsAt L.is_legal P h self.now → StandsAt L.is_legal P h result }
        ensures legality { result.legality ≡ self.now.legality }
        ensures description { own_description L.is_legal result ≡ own_description L.is_legal self.now }
    {
        Terminal {
            settings: self.settings,
            legality: self.legality,
            heard: self.heard,
            in_progress: self.in_progress.copy(),
            registers: self.registers,
            reply: self.reply,
            held: self.held.copy(),
        }
    }

    /// Lends what the terminal keeps.
    pub fn kept(&self) -> Kept<'_>
        ensures heard { result.heard ≡ self.now.heard }
        ensures in_progress { result.in_progress.now ≡ self.now.in_progress }
        ensures registers { result.registers.now ≡ self.now.registers }
        ensures reply { result.reply ≡ self.now.reply }
        ensures held { result.held.now ≡ self.now.held }
    {
        Kept {
            heard: self.heard,
            in_progress: &self.in_progress,
            registers: &self.registers,
            reply: self.reply,
            held: &self.held,
        }
    }

    /// Gives the terminal of this set-up and this legality that keeps this, whatever its history was.
    pub fn keeping(
        setup: Setup,
        legality: L,
        heard: OnBuses,
        in_progress: InProgress,
        registers: Registers,
        reply: Option<Reply>,
        held: HeldWords,
    ) -> Terminal<L>
        requires { held.initial ≡ setup.initial }
        ensures description { own_description L.is_legal result ≡ described setup (L.is_legal legality) }
        ensures legality { result.legality ≡ legality }
        ensures heard { result.heard ≡ heard }
        ensures in_progress { result.in_progress ≡ in_progress }
        ensures registers { result.registers ≡ record registers { power_up = record { vector = setup.vector; bit = setup.bit } } }
        ensures reply { result.reply ≡ reply }
        ensures held { result.held ≡ held }
    {
        Terminal {
            settings: Settings {
                address: setup.address,
                broadcast: setup.broadcast,
                wrap: setup.wrap,
                accept: setup.accept,
            },
            legality,
            heard,
            in_progress,
            registers: Registers {
                power_up: PowerUpWords {
                    vector: setup.vector,
                    bit: setup.bit,
                },
                ..registers
            },
            reply,
            held,
        }
    }
}
