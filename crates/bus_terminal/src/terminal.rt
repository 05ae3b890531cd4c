//! The remote terminal.
ghost use Rattle.std.specs.Borrow.{sem};
ghost use Rattle.std.specs.Io.BufRead.{Rests};

mod answers;
mod kept;
mod received;
mod slots;
mod waiting;
mod whole;

use crate::answer::{Answer, Sent};
use crate::settings::Settings;
use bus_legal::{Legality, Setup};
use bus_word::{Bus, Cell, Command, Kind, Raw, cell_of};
pub use kept::Kept;
use terminal_rules::{Event, WordPlace};
use terminal_state::{
    Decoded, Ended, GapEnd, HeldWords, InProgress, OnBuses, Registers, Reply, advance, begin,
    reports_kept, same_bus, verdict_of,
};

/// A remote terminal, with what answers whether a cell is legal. It stores no history: it keeps what of its
/// history still matters.
#[derive(Drop)]
pub struct Terminal<L> {
    settings: Settings,
    legality: L,
    /// On which buses the run holds a word for the terminal.
    heard: OnBuses,
    in_progress: InProgress,
    registers: Registers,
    reply: Option<Reply>,
    held: HeldWords,
}

impl<L: Legality> Terminal<L> {
    ghost use Rattle.std.specs.Prelude.{◌≡◌, true, false, if◌then◌else◌, Some, None, ℕ, List, [], ◌∷◌};
    ghost use Rattle.bus_legal.specs.Description.{Description, described};
    ghost use Rattle.terminal_rules.specs.declared.event.Event.{Event};
    ghost use Rattle.terminal_rules.specs.declared.event.Event.TheVariants.{Word as WordEvent};
    ghost use Rattle.bus_word.specs.Word.{valid_word};
    ghost use Rattle.bus_word.specs.declared.word.Kind.TheVariants.{Com, Dat};
    ghost use Rattle.terminal_rules.specs.Starts.{is_for_terminal};
    ghost use Rattle.terminal_rules.specs.Status.{spares_kept, adds_error};
    ghost use Rattle.terminal_rules.specs.Reply.{reply_bus};
    ghost use Rattle.terminal_rules.specs.Open.{is_on};
    ghost use Rattle.terminal_rules.specs.SinceReset.{wrapped};
    ghost use Rattle.terminal_rules.specs.Turn.{done_cell};
    ghost use Rattle.terminal_state.specs.Places.{can_reply};
    ghost use Rattle.terminal_rules.specs.Out.{out};
    ghost use Rattle.terminal_state.specs.declared.message.InProgress.{InProgress};
    ghost use Rattle.terminal_state.specs.Replies.{shown_reply, can_send};
    ghost use Rattle.terminal_state.specs.Standing.{ending_at, starts_by};
    ghost use Rattle.terminal_state.specs.Message.{standing_on, gap_end_with};
    ghost use Rattle.terminal_state.specs.Ended.{ending_of};
    ghost use Rattle.terminal_state.specs.Registers.{failed_by};
    ghost use Rattle.terminal_state.specs.Buses.{on_bus, with_bus};
    ghost use Rattle.bus_terminal.specs.Answer.{shown_answer, IsSmall};
    ghost use Rattle.bus_terminal.specs.inner.Answer.{shown_sent};
    ghost use Rattle.bus_terminal.specs.Stands.{StandsAt, TakesEvent, AnswersEvent, own_description, held_word};
    ghost use Rattle.bus_terminal.specs.contracts.terminal.Terminal.{the_row};
    ghost use Rattle.bus_terminal.specs.inner.Terminal.{sends_from, ends_at_gap, TakesStart, TakesWord, Settles, TakesGap, TakesSlot, TakesWrite};

    /// Gives the terminal at power-up.
    pub fn power_up(setup: Setup, legality: L) -> Terminal<L>
        ensures legality { result.legality ≡ legality }
        ensures stands { StandsAt L.is_legal (described setup (L.is_legal legality)) [] result }
    {
        Terminal {
            settings: Settings {
                address: setup.address,
                broadcast: setup.broadcast,
                wrap: setup.wrap,
                accept: setup.accept,
            },
            legality,
            heard: OnBuses::NONE,
            in_progress: InProgress::none(),
            registers: Registers::at_power_up(setup.vector, setup.bit),
            reply: None,
            held: HeldWords::at_power_up(setup.initial),
        }
    }

    /// Takes one event, and answers it. At a gap something may be handed over, with the terminal's own words; in a
    /// slot the next word of the reply in progress is sent. All else is not answered.
    #[inline(always)]
    pub fn step(&mut self, event: Event) -> Answer<'_>
        ensures answer { AnswersEvent L.is_legal event self.old (shown_answer result) }
        ensures* stands { sem 𝓛 (Rests (the_row L.row) self.entry (λ new. TakesEvent L.is_legal event self.old new × (new.legality ≡ self.old.legality) × (own_description L.is_legal new ≡ own_description L.is_legal self.old))) }
        ensures small { IsSmall (shown_answer result) }
    {
        match event {
            Event::Gap(bus) => if self.replies_on(bus) {
                Answer::Silent
            } else {
                let ended = self.take_gap(bus);
                self.handed(&ended)
            },
            Event::Slot => match self.take_slot() {
                Some(sent) => Answer::Sends(sent),
                None => Answer::Silent,
            },
            _ => {
                self.take_any(event);
                Answer::Silent
            }
        }
    }

    /// Takes one event and drops its answer. What comes on the bus of the reply in progress is ignored. Words, of which
    /// most scripts are made, are taken where this is called.
    #[inline(always)]
    pub fn take(&mut self, event: Event)
        ensures takes { TakesEvent L.is_legal event self.old self.new }
        ensures legality { self.new.legality ≡ self.old.legality }
        ensures description { own_description L.is_legal self.new ≡ own_description L.is_legal self.old }
    {
        match event {
            Event::Word(bus, word) => self.hear(bus, word),
            _ => self.take_any(event),
        }
    }

    /// Takes the word of this sync and these bits with the right parity, as nearly all words have it.
    #[inline(always)]
    pub fn take_valid(&mut self, bus: Bus, kind: Kind, bits: u16)
        ensures takes { TakesEvent L.is_legal (WordEvent bus (valid_word kind bits)) self.old self.new }
        ensures legality { self.new.legality ≡ self.old.legality }
        ensures description { own_description L.is_legal self.new ≡ own_description L.is_legal self.old }
    {
        if self.replies_on(bus) {
            return;
        }
        match kind {
            Kind::Com => self.take_command(bus, bits),
            Kind::Dat => self.take_data(bus, bits),
        }
    }

    /// Takes a word on this bus, if no reply is in progress there.
    #[inline(always)]
    fn hear(&mut self, bus: Bus, word: Raw)
        ensures takes { TakesEvent L.is_legal (WordEvent bus word) self.old self.new }
        ensures legality { self.new.legality ≡ self.old.legality }
        ensures description { own_description L.is_legal self.new ≡ own_description L.is_legal self.old }
    {
        if !self.replies_on(bus) {
            let ours = word.is_for(self.settings.address, self.settings.broadcast);
            self.take_word(bus, word, ours);
        }
    }

    /// Takes one event of any kind and drops its answer.
    #[inline(never)]
    fn take_any(&mut self, event: Event)
        ensures takes { TakesEvent L.is_legal event self.old self.new }
        ensures legality { self.new.legality ≡ self.old.legality }
        ensures description { own_description L.is_legal self.new ≡ own_description L.is_legal self.old }
    {
        match event {
            Event::Word(bus, word) => self.hear(bus, word),
            Event::Noise(bus) => if !self.replies_on(bus) {
                self.take_noise(bus);
            },
            Event::Gap(bus) => if !self.replies_on(bus) {
                self.take_gap(bus);
            },
            Event::Slot => {
                self.take_slot();
            }
            Event::Write(place, value) => self.write(place, value),
            Event::Vector(word) => self.registers.vector = word,
            Event::Bit(word) => self.registers.bit = word,
            Event::Flag(flag, value) => self.registers.flags.set(flag, value),
        }
    }

    /// Tells whether the reply in progress is on this bus.
    #[inline(always)]
    fn replies_on(&self, bus: Bus) -> bool
        ensures { result ≡ is_on bus (reply_bus (shown_reply self.now.reply)) }
    {
        match &self.reply {
            Some(reply) => same_bus(bus, reply.bus),
            None => false,
        }
    }

    /// Takes a word of the subsystem that is to be held ready.
    #[inline(never)]
    fn write(&mut self, place: WordPlace, value: u16)
        ensures { TakesWrite L.is_legal place value self.old self.new }
    {
        self.held.write(place.subaddress(), place.number(), value);
    }

    /// Tells whether a command of this cell is a legal own mode code 2 or 18, which spares the kept status.
    #[inline(always)]
    fn spares(&self, cell: Option<Cell>) -> bool
        ensures { result ≡ spares_kept (own_description L.is_legal self.now) cell }
    {
        match cell {
            Some(cell) => reports_kept(cell) && self.legality.legal(cell),
            None => false,
        }
    }

    /// Tells how a message ends that a gap ends so.
    #[inline(always)]
    fn judge(&self, end: GapEnd) -> Ended
        ensures ending { (ds : List ℕ) → ending_of result ds ≡ ending_at (own_description L.is_legal self.now) self.now.registers.flags.busy (gap_end_with end ds) }
        ensures cell { can_reply (done_cell (ending_of result [])) ≡ true }
    {
        match end {
            GapEnd::Complete(decoded) => match decoded.cell {
                Some(cell) => {
                    let is_legal = self.legality.legal(cell);
                    verdict_of(decoded.command, cell, is_legal, self.registers.flags.busy)
                }
                None => Ended::Illegal(decoded.command),
            },
            GapEnd::InError(command) => Ended::Badly(command),
            GapEnd::NoEnd => Ended::Nothing,
        }
    }

    /// Tells whether a word for the terminal starts a message.
    #[inline(always)]
    fn starts(&self, bus: Bus, word: Raw, ours: bool) -> bool
        requires { ours ≡ is_for_terminal (own_description L.is_legal self.now) word }
        ensures { result ≡ starts_by (own_description L.is_legal self.now) (Some word) (on_bus bus self.now.heard) (standing_on bus self.now.in_progress) }
    {
        let command = Command::of(word.bits);
        ours && ((!self.heard.on(bus) && self.in_progress.is_free(bus))
            || (self.in_progress.is_fresh_broadcast(bus)
                && command.transmit()
                && command.address() == self.settings.address))
    }

    /// Tells whether a message that ended in error spares the kept status.
    #[inline(always)]
    fn fails_sparing(&self, ended: &Ended) -> bool
        ensures { (ds : List ℕ) → result ≡ adds_error (own_description L.is_legal self.now) (ending_of ended.now ds) }
    {
        match ended {
            Ended::Badly(command) => self.spares(cell_of(*command)),
            Ended::Nothing => false,
            Ended::Illegal(_) => false,
            Ended::Blocked(_, _) => false,
            Ended::Done(_, _) => false,
        }
    }

    /// Takes the end of a message at a gap on this bus, or of none, and begins its reply. The words in the buffer are its words, or
    /// any where none are held.
    #[inline(always)]
    fn settle(&mut self, bus: Bus, ended: &Ended)
        requires { can_reply (done_cell (ending_of ended.now [])) ≡ true }
        ensures settles { (ds : List ℕ) (i : InProgress) → ((s n : ℕ) → wrapped self.old.settings.wrap s n (ending_of ended.now self.old.in_progress.words.items) ≡ wrapped self.old.settings.wrap s n (ending_of ended.now ds)) → Settles L.is_legal bus (ending_of ended.now ds) (record self.old { in_progress = i }) self.new }
        ensures in_progress { self.new.in_progress ≡ self.old.in_progress }
    {
        let begins = ended.is_answered(self.registers.off.on(bus));
        let resets = ended.resets_at_gap(begins);
        let spares = self.fails_sparing(ended);
        self.registers
            .settle(bus, ended, self.settings.accept, spares, resets);
        self.held.settle(
            self.settings.wrap,
            resets,
            ended,
            self.in_progress.words.as_slice(),
        );
        self.heard.set(bus, false);
        begin(&mut self.reply, begins, bus, ended.done_cell());
    }

    /// Takes a gap on this bus, which has no reply in progress, and says what it ended.
    #[inline(always)]
    fn take_gap(&mut self, bus: Bus) -> Ended
        ensures ending { ending_of result self.new.in_progress.words.items ≡ ends_at_gap L.is_legal self.old bus }
        ensures takes { TakesGap L.is_legal bus self.old self.new }
    {
        let end = self.in_progress.end_at_gap(bus);
        let ended = self.judge(end);
        self.settle(bus, &ended);
        ended
    }

    /// Takes a slot: the next word of the reply in progress, which is sent in it.
    #[inline(always)]
    fn take_slot(&mut self) -> Option<Sent>
        ensures sent { can_send (shown_reply self.old.reply) ≡ true → shown_sent result ≡ sends_from self.old.settings.address self.old.registers (held_word self.old) (shown_reply self.old.reply) }
        ensures takes { TakesSlot L.is_legal self.old self.new }
    {
        // read where it stands: of a copy the number that the last slot wrote would be read together with what stands beside it,
        // and a processor waits until such a mixture is in memory
        let (sent, resets) = match &self.reply {
            Some(reply) => (self.next_sent(reply), reply.resets()),
            None => return None,
        };
        advance(&mut self.reply);
        if resets {
            self.registers.reset();
            self.held.reset();
        }
        Some(sent)
    }

    /// Takes the end in error of a transfer that waits, where there is one.
    #[inline(always)]
    fn fail(&mut self, failed: Option<Command>)
        ensures { self.new ≡ record self.old { registers = failed_by (own_description L.is_legal self.old) failed self.old.registers } }
    {
        if let Some(command) = failed {
            let spares = self.spares(cell_of(command));
            self.registers.fail(command, spares);
        }
    }

    /// Takes noise on this bus, which has no reply in progress.
    #[inline(never)]
    fn take_noise(&mut self, bus: Bus)
        ensures { TakesWord L.is_legal bus None self.old self.new }
    {
        let failed = self.in_progress.failed_by(bus, None);
        self.fail(failed);
        self.in_progress.follow(bus, self.settings.address, None);
    }

    /// Takes a word on this bus, which has no reply in progress. `ours` says whether it is for the terminal.
    #[inline(always)]
    fn take_word(&mut self, bus: Bus, word: Raw, ours: bool)
        requires { ours ≡ is_for_terminal (own_description L.is_legal self.old) word }
        ensures { TakesWord L.is_legal bus (Some word) self.old self.new }
    {
        let starts = self.starts(bus, word, ours);
        let failed = self.in_progress.failed_by(bus, Some(word));
        self.fail(failed);
        self.note_word(bus, ours);
        if starts {
            self.start(bus, Command::of(word.bits));
        } else {
            self.in_progress
                .follow(bus, self.settings.address, Some(word));
        }
    }

    /// Notes that the run of this bus holds a word for the terminal, if this is one.
    #[inline(always)]
    fn note_word(&mut self, bus: Bus, ours: bool)
        ensures { self.new ≡ record self.old { heard = if ours then with_bus bus true self.old.heard else self.old.heard } }
    {
        if ours {
            self.heard.set(bus, true);
        }
    }

    /// Takes a valid word of command sync on this bus, which has no reply in progress.
    #[inline(always)]
    fn take_command(&mut self, bus: Bus, bits: u16)
        ensures { TakesWord L.is_legal bus (Some (valid_word Com bits)) self.old self.new }
    {
        let ours = Command::of(bits).is_addressed_to(
            self.settings.address,
            self.settings.broadcast,
        );
        self.take_word(bus, Raw::of(Kind::Com, bits), ours);
    }

    /// Takes a valid data word on this bus, which has no reply in progress. Most are those of a message that collects
    /// them, and change nothing else.
    #[inline(always)]
    fn take_data(&mut self, bus: Bus, bits: u16)
        ensures { TakesWord L.is_legal bus (Some (valid_word Dat bits)) self.old self.new }
    {
        if !self.in_progress.collect(bus, bits) {
            self.take_other_data(bus, bits);
        }
    }

    /// Takes a valid data word on this bus, which has no reply in progress.
    #[inline(never)]
    fn take_other_data(&mut self, bus: Bus, bits: u16)
        ensures { TakesWord L.is_legal bus (Some (valid_word Dat bits)) self.old self.new }
    {
        self.take_word(bus, Raw::of(Kind::Dat, bits), false);
    }

    /// Starts the message of a command, and drops the reply in progress.
    #[inline(always)]
    fn start(&mut self, bus: Bus, command: Command)
        ensures { TakesStart L.is_legal bus command self.old self.new }
    {
        self.reply = None;
        let decoded = Decoded::of(command);
        let spares = self.spares(decoded.cell);
        self.registers.start(&decoded, spares);
        self.in_progress.start(bus, decoded);
    }
}
