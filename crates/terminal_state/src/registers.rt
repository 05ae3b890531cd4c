//! What a terminal remembers besides the message in progress and the words held ready.
ghost use Rattle.std.specs.Prelude.{◌≡◌, Bool, true, List, ℕ};
ghost use Rattle.terminal_rules.specs.declared.event.Event.TheVariants.{Flag as FlagIs};
ghost use Rattle.terminal_state.specs.Ended.{ending_of};
ghost use Rattle.terminal_state.specs.Registers.{power_up_registers, formed_from, error_from, done_from, status_from, flags_after, failed, started, keeping, carried, settled, reset_if};

use crate::buses::OnBuses;
use crate::decoded::Decoded;
use crate::ended::{Ended, code_in, reports_kept};
use bus_word::{Bus, Cell, Command, StatusParts, mode};
use terminal_rules::Flag;

/// A status word with no bit set but the address.
const NO_PARTS: StatusParts = StatusParts {
    error: false,
    service: false,
    broadcast: false,
    busy: false,
    subsystem: false,
    accept: false,
    terminal: false,
};

/// The flags of the subsystem, as they stand.
#[derive(Clone, Copy)]
pub struct Flags {
    pub service: bool,
    pub busy: bool,
    pub subsystem: bool,
    pub terminal: bool,
}

impl Flags {
    /// Sets one flag.
    pub fn set(&mut self, flag: Flag, value: bool)
        ensures { self.new ≡ flags_after (FlagIs flag value) self.old }
    {
        match flag {
            Flag::Service => self.service = value,
            Flag::Busy => self.busy = value,
            Flag::Subsystem => self.subsystem = value,
            Flag::Terminal => self.terminal = value,
        }
    }
}

/// The vector word and the BIT word that a reset goes back to: those of power-up.
#[derive(Clone, Copy)]
pub struct PowerUpWords {
    pub vector: u16,
    pub bit: u16,
}

/// What a terminal remembers besides the message in progress, the reply in progress and the words held ready.
#[derive(Clone, Copy)]
pub struct Registers {
    pub power_up: PowerUpWords,
    pub flags: Flags,
    /// Whether the terminal flag is inhibited.
    pub inhibited: bool,
    /// Whose transmitters are shut down.
    pub off: OnBuses,
    pub vector: u16,
    pub bit: u16,
    /// The last command.
    pub last: Command,
    /// The kept status.
    pub kept: StatusParts,
}

impl Registers {
    /// Gives those of power-up, with this vector word and this BIT word.
    pub fn at_power_up(vector: u16, bit: u16) -> Registers
        ensures { result ≡ power_up_registers vector bit }
    {
        Registers {
            power_up: PowerUpWords { vector, bit },
            flags: Flags {
                service: false,
                busy: false,
                subsystem: false,
                terminal: false,
            },
            inhibited: false,
            off: OnBuses::NONE,
            vector,
            bit,
            last: Command::of(0),
            kept: NO_PARTS,
        }
    }

    /// Forms the status for a command.
    #[inline(always)]
    fn formed(&self, command: Command, error: bool, accepts: bool, inhibited: bool) -> StatusParts
        ensures { result ≡ formed_from self.now command error accepts inhibited }
    {
        StatusParts {
            error,
            service: self.flags.service,
            broadcast: command.is_broadcast(),
            busy: self.flags.busy,
            subsystem: self.flags.subsystem,
            accept: accepts,
            terminal: self.flags.terminal && !inhibited,
        }
    }

    /// Forms the status for a command whose message ended in error or is illegal.
    #[inline(always)]
    fn formed_with_error(&self, command: Command) -> StatusParts
        ensures { result ≡ error_from self.now command }
    {
        self.formed(command, true, false, self.inhibited)
    }

    /// Forms the status for a message that is done. Mode codes 6 and 7 have acted already.
    #[inline(always)]
    fn formed_done(&self, command: Command, cell: Cell, accept: bool) -> StatusParts
        ensures { result ≡ done_from accept self.now command cell }
    {
        let inhibited = match code_in(cell) {
            Some(mode::INHIBIT_FLAG) => true,
            Some(mode::OVERRIDE_INHIBIT) => false,
            _ => self.inhibited,
        };
        let accepts = matches!(cell, Cell::OwnMode(mode::DYNAMIC_BUS_CONTROL)) && accept;
        self.formed(command, false, accepts, inhibited)
    }

    /// Takes the end of a message in error. `spares` says whether its command spares the kept status.
    #[inline(never)]
    pub fn fail(&mut self, command: Command, spares: bool)
        ensures registers { self.new ≡ failed spares command self.old }
        ensures power_up { self.new.power_up ≡ self.old.power_up }
    {
        if spares {
            self.kept.error = true;
        } else {
            self.kept = self.formed_with_error(command);
        }
    }

    /// Takes a command that starts a message. `spares` says whether it spares the kept status.
    #[inline(always)]
    pub fn start(&mut self, decoded: &Decoded, spares: bool)
        ensures registers { self.new ≡ started spares decoded.now.command self.old }
        ensures power_up { self.new.power_up ≡ self.old.power_up }
    {
        if !matches!(decoded.cell, Some(Cell::OwnMode(mode::LAST_COMMAND))) {
            self.last = decoded.command;
        }
        if !spares {
            self.kept = NO_PARTS;
            self.kept.broadcast = decoded.command.is_broadcast();
        }
    }

    /// Takes a gap on this bus that ended a message so, or ended none. `accept` says whether dynamic bus control is accepted,
    /// `spares` whether the command of one that ended in error spares the kept status, and `resets` whether a reset acts.
    #[inline(always)]
    pub fn settle(&mut self, bus: Bus, ended: &Ended, accept: bool, spares: bool, resets: bool)
        ensures registers { (ds : List ℕ) → self.new ≡ settled accept spares bus resets (ending_of ended.now ds) self.old }
        ensures power_up { self.new.power_up ≡ self.old.power_up }
    {
        match ended {
            Ended::Badly(command) => self.fail(*command, spares),
            _ => {
                self.keep(ended, accept);
                self.carry_out(bus, resets, ended.done_code());
            }
        }
    }

    /// Keeps the status that goes with a message that ended well. `accept` says whether dynamic bus control is accepted.
    #[inline(always)]
    fn keep(&mut self, ended: &Ended, accept: bool)
        ensures { (ds : List ℕ) → self.new ≡ keeping (status_from accept self.old (ending_of ended.now ds)) self.old }
    {
        match ended {
            Ended::Nothing | Ended::Badly(_) => {}
            Ended::Illegal(command) => self.kept = self.formed_with_error(*command),
            Ended::Blocked(command, _) => self.kept = self.formed(
                *command,
                false,
                false,
                self.inhibited,
            ),
            Ended::Done(command, cell) => if !reports_kept(*cell) {
                self.kept = self.formed_done(*command, *cell, accept);
            },
        }
    }

    /// Carries out a mode code that came on this bus, or resets all.
    #[inline(always)]
    fn carry_out(&mut self, bus: Bus, resets: bool, code: Option<u8>)
        ensures { self.new ≡ carried bus resets code self.old }
    {
        if resets {
            self.reset();
        } else {
            match code {
                Some(mode::SHUTDOWN) => self.off.set_other(bus, true),
                Some(mode::OVERRIDE_SHUTDOWN) => self.off.set_other(bus, false),
                Some(mode::INHIBIT_FLAG) => self.inhibited = true,
                Some(mode::OVERRIDE_INHIBIT) => self.inhibited = false,
                _ => {}
            }
        }
    }

    /// Goes back to those of power-up. The flags stay.
    #[inline(never)]
    pub fn reset(&mut self)
        ensures { self.new ≡ reset_if true self.old }
    {
        let flags = self.flags;
        *self = Registers::at_power_up(self.power_up.vector, self.power_up.bit);
        self.flags = flags;
    }
}
