//! The message in progress.
ghost use Rattle.std.specs.Prelude.{◌≡◌, ◌<◌, if◌then◌else◌, [], Some, None, length, IfSome, ℕ, true, false};
ghost use Rattle.bus_word.specs.declared.word.Bus.{Bus};
ghost use Rattle.bus_word.specs.declared.word.Raw.{Raw};
ghost use Rattle.terminal_rules.specs.Buses.{same_bus};
ghost use Rattle.terminal_rules.specs.Open.{Idle, Collects, transmitter_at, status_at};
ghost use Rattle.terminal_rules.specs.Starts.{is_free};
ghost use Rattle.terminal_rules.specs.Ends.{data_of};
ghost use Rattle.terminal_state.specs.Standing.{Words, next, entry_leaves, entry_fails, gap_leaves, gap_end, fresh_in, stands_fresh};
ghost use Rattle.terminal_rules.specs.Out.{first_word};
ghost use Rattle.terminal_state.specs.Message.{collected_in, standing_on, command_in, gap_end_with, in_phase};

use crate::buses::same_bus;
use crate::decoded::Decoded;
use arrayvec::ArrayVec;
use bus_word::{Bus, Command, Raw};

/// What was collected behind a command, or behind the status word that it waited for.
#[derive(Clone, Copy)]
pub enum Collected {
    /// Nothing but data words: those of the buffer.
    Words,
    /// A command word alone that has the terminal of this address transmit.
    Transmitter(u8),
    /// Anything else: the message can only end in error.
    Spoilt,
}

#[derive(Clone, Copy)]
pub enum Phase {
    /// In the run of its command.
    Collects(Collected),
    /// For the status word of this address.
    Waits(u8),
    /// After that status word.
    Resumes(Collected),
}

#[derive(Clone, Copy)]
pub struct Message {
    pub bus: Bus,
    pub decoded: Decoded,
    pub phase: Phase,
}

/// How a gap ends the message on its bus.
#[derive(Clone, Copy)]
pub enum GapEnd {
    /// Not: there is none, or it comes to wait.
    NoEnd,
    /// In error.
    InError(Command),
    /// Well, with the words of the buffer.
    Complete(Decoded),
}

/// The message in progress, on whichever bus, and the buffer of its data words.
#[derive(Drop)]
pub struct InProgress {
    pub message: Option<Message>,
    pub words: ArrayVec<u16, 32>,
}

/// Gives the bits of a valid data word.
#[inline(always)]
fn data_of(word: Option<Raw>) -> Option<u16>
    ensures { result ≡ data_of word }
{
    match word {
        Some(word) if word.is_data() => Some(word.bits),
        _ => None,
    }
}

/// Gives the address of a valid command word that has a terminal other than the `own` one transmit.
fn transmitter_at(own: u8, word: Option<Raw>) -> Option<u8>
    ensures { result ≡ transmitter_at own word }
{
    match word {
        Some(word) => {
            let command = Command::of(word.bits);
            let address = command.address();
            if word.is_command()
                && command.transmit()
                && address != own
                && !command.is_broadcast()
            {
                Some(address)
            } else {
                None
            }
        }
        None => None,
    }
}

/// Tells whether a word is the status word of this address.
fn is_status_of(address: u8, word: Option<Raw>) -> bool
    ensures { result ≡ status_at address word }
{
    match word {
        Some(word) => word.is_command() && Command::of(word.bits).address() == address,
        None => false,
    }
}

impl InProgress {
    /// Gives no message.
    pub fn none() -> InProgress
        ensures { (b : Bus) → standing_on b result ≡ Idle }
    {
        InProgress {
            message: None,
            words: ArrayVec::new(),
        }
    }

    /// Gives the same once more.
    pub fn copy(&self) -> InProgress
        ensures message { result.message ≡ self.now.message }
        ensures words { result.words.items ≡ self.now.words.items }
    {
        let mut words = ArrayVec::new();
        let _ = words.try_extend_from_slice(self.words.as_slice());
        InProgress {
            message: self.message,
            words,
        }
    }

    /// Begins the message of this command, and drops what was in progress.
    pub fn start(&mut self, bus: Bus, decoded: Decoded)
        ensures { (b : Bus) → standing_on b self.new ≡ (if same_bus b bus then Collects decoded.command (Words []) else Idle) }
    {
        self.words = ArrayVec::new();
        self.message = Some(Message {
            bus,
            decoded,
            phase: Phase::Collects(Collected::Words),
        });
    }

    /// Tells whether a command on this bus may start a message.
    #[inline(always)]
    pub fn is_free(&self, bus: Bus) -> bool
        ensures { result ≡ is_free (standing_on bus self.now) }
    {
        match &self.message {
            Some(message) => !same_bus(bus, message.bus)
                || matches!(message.phase, Phase::Waits(_)),
            None => true,
        }
    }

    /// Gives the command of the message on this bus, if nothing has followed it.
    #[inline(always)]
    pub fn fresh(&self, bus: Bus) -> Option<Decoded>
        ensures { command_in result ≡ fresh_in (standing_on bus self.now) }
    {
        match &self.message {
            Some(message) => match message.phase {
                Phase::Collects(Collected::Words)
                    if same_bus(bus, message.bus) && self.words.is_empty() => Some(message.decoded),
                _ => None,
            },
            None => None,
        }
    }

    /// Tells whether the message on this bus is a broadcast receive command that nothing has followed.
    #[inline(always)]
    pub fn is_fresh_broadcast(&self, bus: Bus) -> bool
        ensures { result ≡ stands_fresh (standing_on bus self.now) }
    {
        match self.fresh(bus) {
            Some(decoded) => decoded.command.is_receive() && decoded.command.is_broadcast(),
            None => false,
        }
    }

    /// Gives what followed, with one word or noise more.
    #[inline(always)]
    fn add(&mut self, collected: Collected, own: u8, word: Option<Raw>) -> Collected
        ensures collected { collected_in result self.new.words.items ≡ next (collected_in collected self.old.words.items) (data_of word) (transmitter_at own word) }
        ensures message { self.new.message ≡ self.old.message }
    {
        match collected {
            Collected::Words => match data_of(word) {
                Some(bits) if self.words.len() < 32 => {
                    self.words.push(bits);
                    Collected::Words
                }
                Some(_) => Collected::Spoilt,
                None => match transmitter_at(own, word) {
                    Some(address) if self.words.is_empty() => Collected::Transmitter(address),
                    _ => Collected::Spoilt,
                },
            },
            _ => Collected::Spoilt,
        }
    }

    /// Gives what the command of a message on this bus means that has had nothing but data words and has room for one more.
    #[inline(always)]
    fn collects(&self, bus: Bus) -> Option<Decoded>
        ensures { IfSome result (λ d. (standing_on bus self.now ≡ Collects d.command (Words self.now.words.items)) × (length self.now.words.items < 32)) }
    {
        match &self.message {
            Some(message) => match message.phase {
                Phase::Collects(Collected::Words)
                    if same_bus(bus, message.bus) && self.words.len() < 32 => Some(message.decoded),
                _ => None,
            },
            None => None,
        }
    }

    /// Takes the bits of a data word, where a message on this bus collects such words and has room, and says whether
    /// it did. Such a word can start nothing and end nothing.
    #[inline(always)]
    pub fn collect(&mut self, bus: Bus, bits: u16) -> bool
        ensures collects { result ≡ true → (own : ℕ) (w : Raw) → data_of (Some w) ≡ Some bits → (b : Bus) → standing_on b self.new ≡ (if same_bus b bus then entry_leaves own (Some w) (standing_on b self.old) else standing_on b self.old) }
        ensures fails { result ≡ true → (w : Raw) → entry_fails (Some w) (standing_on bus self.old) ≡ None }
        ensures same { result ≡ false → self.new ≡ self.old }
    {
        if self.collects(bus).is_some() {
            self.words.push(bits);
            return true;
        }
        false
    }

    /// Takes a word or noise that starts nothing. What is common comes first: a data word of a message that
    /// collects them.
    #[inline(always)]
    pub fn follow(&mut self, bus: Bus, own: u8, word: Option<Raw>)
        ensures { (b : Bus) → standing_on b self.new ≡ (if same_bus b bus then entry_leaves own word (standing_on b self.old) else standing_on b self.old) }
    {
        if let Some(bits) = data_of(word) {
            if self.collects(bus).is_some() {
                self.words.push(bits);
                return;
            }
        }
        self.follow_any(bus, own, word);
    }

    /// Takes a word or noise that starts nothing.
    #[inline(never)]
    fn follow_any(&mut self, bus: Bus, own: u8, word: Option<Raw>)
        ensures { (b : Bus) → standing_on b self.new ≡ (if same_bus b bus then entry_leaves own word (standing_on b self.old) else standing_on b self.old) }
    {
        if let Some(message) = self.message {
            if same_bus(bus, message.bus) {
                let phase = match message.phase {
                    Phase::Collects(collected) => Some(Phase::Collects(self.add(
                        collected, own, word,
                    ))),
                    Phase::Resumes(collected) => Some(Phase::Resumes(self.add(
                        collected, own, word,
                    ))),
                    Phase::Waits(address) => {
                        self.words = ArrayVec::new();
                        if is_status_of(address, word) {
                            Some(Phase::Resumes(Collected::Words))
                        } else {
                            None
                        }
                    }
                };
                self.message = message.in_phase(phase);
            }
        }
    }

    /// Gives the command of the transfer that a word or noise on this bus ends in error: one that waits for
    /// another word.
    #[inline(always)]
    pub fn failed_by(&self, bus: Bus, word: Option<Raw>) -> Option<Command>
        ensures { result ≡ entry_fails word (standing_on bus self.now) }
    {
        match &self.message {
            Some(message) => match message.phase {
                Phase::Waits(address)
                    if same_bus(bus, message.bus) && !is_status_of(address, word) => Some(
                    message.decoded.command,
                ),
                _ => None,
            },
            None => None,
        }
    }

    /// Gives the first word of the buffer, or 0000.
    #[inline(always)]
    pub fn first_word(&self) -> u16
        ensures { result ≡ first_word self.now.words.items }
    {
        match self.words.as_slice() {
            [word, ..] => *word,
            [] => 0,
        }
    }

    /// Takes a gap on this bus and says how it ends the message, which is over then, or comes to wait. The buffer stays.
    #[inline(always)]
    pub fn end_at_gap(&mut self, bus: Bus) -> GapEnd
        ensures end { gap_end_with result self.old.words.items ≡ gap_end (standing_on bus self.old) }
        ensures standing { (b : Bus) → standing_on b self.new ≡ (if same_bus b bus then gap_leaves (standing_on b self.old) else standing_on b self.old) }
        ensures words { self.new.words ≡ self.old.words }
    {
        let message = match self.message {
            Some(message) if same_bus(bus, message.bus) => message,
            _ => return GapEnd::NoEnd,
        };
        let decoded = message.decoded;
        self.message = None;
        match message.phase {
            Phase::Collects(Collected::Words) | Phase::Resumes(Collected::Words)
                if self.words.len() == usize::from(decoded.count) => GapEnd::Complete(decoded),
            Phase::Collects(Collected::Transmitter(address)) if decoded.command.is_receive() => {
                self.message = message.in_phase(Some(Phase::Waits(address)));
                GapEnd::NoEnd
            }
            _ => GapEnd::InError(decoded.command),
        }
    }
}

impl Message {
    /// Gives the message in another phase, or none.
    fn in_phase(self, phase: Option<Phase>) -> Option<Message>
        ensures { result ≡ in_phase self phase }
    {
        match phase {
            Some(phase) => Some(Message {
                bus: self.bus,
                decoded: self.decoded,
                phase,
            }),
            None => None,
        }
    }
}
