//! The recording that a script states, read sighting by sighting.
ghost use Rattle.std.specs.Prelude.{◌≡◌, ◌<◌, ℕ, true, false, IfOk, IfErr, IfSome, Option, None};
ghost use Rattle.bus_word.specs.declared.word.Bus.{Bus};
ghost use Rattle.rt1553_verify.specs.Stated.{shown, stated_through};
ghost use Rattle.rt1553_verify.specs.Reader.{left_in, turns_left};
ghost use Rattle.recorded_terminal.specs.Marks.{IsSeen, maybe_in, masked};
ghost use Rattle.recorded_terminal.specs.SentWords.{word_shown};
ghost use Rattle.script_recordings.specs.Parts.{is_silence};
ghost use Rattle.script_recordings.specs.Seen.{bus_shows, open_line, stated_word, IsData, StatesSent, IsNoWord, IsSeenAs, StatesNoWord, IsUnseenAs, StatesRecording, StatesNoRecording};
ghost use Rattle.script_recordings.specs.Messages.{InMessage, AreInMessages};
ghost use Rattle.script_recordings.specs.inner.Reads.{EndsPart, IsMarkedAs, NextSeen, RefusesRest, watch_fault_of};
ghost use Rattle.script_recordings.specs.declared.reading.RecordingFault.TheVariants.{Masked, NoWord, Script};
ghost use Rattle.rt1553_verify.specs.declared.stated.StatedFault.TheVariants.{Memory};

use crate::words::{open_bus, read_sent};
use bus_terminal::{Event, Sent};
use bus_word::Kind;
use recorded_terminal::{Marked, Sighting, WatchFault};
use rt1553_verify::{Matching, Stated, StatedFault, StatedReader, command_after};
use std::alloc::{AllocError, AllocFailed, Global};
use std::io::BufRead;
use thiserror::Error;

/// Why a script states no recording. Lines are numbered from 1.
#[derive(Clone, Copy, Debug, PartialEq, Eq, Error)]
pub enum RecordingFault {
    /// The event of this line is one of the subsystem.
    #[error("what the subsystem does is not seen in a recording")]
    Unseen(u64),
    /// What is stated of the event of this line is a mask other than `A d ....`.
    #[error("a recording states each word whole, or leaves a data word open, as in \"#~ A d ....\"")]
    Masked(u64),
    /// What is stated of the event of this line is no line of a word that was sent.
    #[error("a recording states the word that was sent, as in \"A s 2800\"")]
    NoWord(u64),
    /// Gaps that may have come leave more ways open than are followed.
    #[error("gaps that may have come leave too many ways open")]
    TooManyWays,
    /// The script is refused, or it is not read on.
    #[error("{0}")]
    Script(StatedFault),
}

impl From<StatedFault> for RecordingFault {
    ghost from_gives = { λ stated fault. fault ≡ Script stated };

    fn from(fault: StatedFault) -> RecordingFault {
        RecordingFault::Script(fault)
    }
}

impl From<AllocError> for RecordingFault {
    ghost from_gives = { λ _ fault. fault ≡ Script Memory };

    fn from(_error: AllocError) -> RecordingFault {
        RecordingFault::Script(StatedFault::Memory)
    }
}

impl From<WatchFault> for RecordingFault {
    ghost from_gives = { λ watched fault. fault ≡ watch_fault_of watched };

    fn from(fault: WatchFault) -> RecordingFault {
        match fault {
            WatchFault::Memory => RecordingFault::Script(StatedFault::Memory),
            WatchFault::TooManyWays => RecordingFault::TooManyWays,
        }
    }
}

impl<T: Drop> From<AllocFailed<T>> for RecordingFault {
    ghost from_gives = { λ _ fault. fault ≡ Script Memory };

    fn from(_failed: AllocFailed<T>) -> RecordingFault {
        RecordingFault::Script(StatedFault::Memory)
    }
}

/// The word that is stated of an event, if one is, and whether it is left open.
struct StatedWord {
    sent: Option<Sent>,
    any_word: bool,
}

/// The word that is stated whole, or none.
fn whole_word(line: u64, answer: &[u8]) -> Result<StatedWord, RecordingFault>
    ensures sent { IfOk result (λ word. (word.any_word ≡ false) × (answer.now ≡ stated_word false (word_shown word.sent))) }
    ensures refused { IfErr result (λ fault. (fault ≡ NoWord line) × IsNoWord answer.now) }
{
    if answer.is_empty() {
        return Ok(StatedWord {
            sent: None,
            any_word: false,
        });
    }
    match read_sent(answer) {
        Some(sent) => Ok(StatedWord {
            sent: Some(sent),
            any_word: false,
        }),
        None => Err(RecordingFault::NoWord(line)),
    }
}

/// A data word that is left open.
fn open_word(line: u64, mask: &[u8]) -> Result<StatedWord, RecordingFault>
    ensures sent { IfOk result (λ word. (word.any_word ≡ true) × (mask.now ≡ stated_word true (word_shown word.sent)) × IsData (word_shown word.sent)) }
    ensures refused { IfErr result (λ fault. (fault ≡ Masked line) × ((bus : Bus) → mask.now ≡ open_line bus → ⊥)) }
{
    match open_bus(mask) {
        Some(bus) => Ok(StatedWord {
            sent: Some(Sent {
                bus,
                kind: Kind::Dat,
                bits: 0,
            }),
            any_word: true,
        }),
        None => Err(RecordingFault::Masked(line)),
    }
}

/// The word that is stated of an event. What is stated of a gap is left out: something is handed over there, and no word is sent.
fn word_of(stated: &Stated) -> Result<StatedWord, RecordingFault>
    ensures sent { IfOk result (λ word. StatesSent (bus_shows (shown stated.now)) word.any_word (word_shown word.sent)) }
    ensures refused { IfErr result (λ fault. StatesNoWord (bus_shows (shown stated.now)) fault) }
{
    if matches!(stated.event, Event::Gap(_)) && stated.matching != Matching::Maybe {
        return whole_word(stated.line, b"");
    }
    match stated.matching {
        Matching::Exact => whole_word(stated.line, stated.answer.as_slice()),
        Matching::Masked => open_word(stated.line, stated.answer.as_slice()),
        _ => Err(RecordingFault::Masked(stated.line)),
    }
}

/// What is told of an event, as a script states it, where this is the command word of its message, if there is one.
fn marked_as(stated: &Stated, command: Option<u16>) -> Result<Marked, RecordingFault>
    ensures told { IfOk result (IsMarkedAs (shown stated.now)) }
    ensures event { IfOk result (λ marked. marked.sighting.event ≡ stated.now.event) }
    ensures command { IfOk result (λ marked. marked.command ≡ command) }
    ensures refused { IfErr result (λ fault. IsUnseenAs (shown stated.now) fault) }
{
    match stated.event {
        Event::Gap(bus) if stated.matching == Matching::Maybe => Ok(Marked {
            sighting: Sighting {
                event: Event::Gap(bus),
                sent: None,
            },
            line: stated.line,
            command,
            any_word: false,
            is_maybe: true,
        }),
        _ => seen_as(stated, command),
    }
}

/// The same of an event that came.
fn seen_as(stated: &Stated, command: Option<u16>) -> Result<Marked, RecordingFault>
    ensures seen { IfOk result (λ marked. IsSeenAs (shown stated.now) (masked marked) × IsSeen marked) }
    ensures line { IfOk result (λ marked. (marked.line ≡ stated.now.line) × (marked.command ≡ command) × (marked.sighting.event ≡ stated.now.event)) }
    ensures refused { IfErr result (λ fault. IsUnseenAs (shown stated.now) fault) }
{
    let StatedWord { sent, any_word } = word_of(stated)?;
    match Sighting::of(stated.event, sent) {
        Some(sighting) => Ok(Marked {
            sighting,
            line: stated.line,
            command,
            any_word,
            is_maybe: false,
        }),
        None => Err(RecordingFault::Unseen(stated.line)),
    }
}

/// Reads what is left of a script that states no recording for this fault. A fault of the script comes before it.
fn refuse_rest<B: BufRead>(script: &mut StatedReader<B>, fault: RecordingFault) -> RecordingFault
    ensures { RefusesRest (left_in B.remaining script.old) fault result }
{
    'events: loop {
        match script.next() {
            Ok(Some(_)) => {}
            Ok(None) => return fault,
            Err(other) => return RecordingFault::Script(other),
        }
    }
}

/// Whether the unit may have been silent in the slot of an event.
fn is_silence(stated: &Stated) -> bool
    ensures { result ≡ is_silence (shown stated.now) }
{
    matches!(stated.event, Event::Slot) && stated.matching == Matching::Maybe
}

/// The recording that a script states, read sighting by sighting.
#[derive(Drop)]
pub struct RecordingReader<B> {
    script: StatedReader<B>,
    /// The address of the terminal.
    address: u8,
    /// The command word of the message in progress.
    command: Option<u16>,
    /// The line of the slot that ended the part which was read, since the unit may have been silent there. None at the end of the script.
    pub silence: Option<u64>,
}

impl<B: BufRead> RecordingReader<B> {
    /// Reads the recording of a terminal of this address, of a script of any number of lines.
    pub fn new(alloc: Global, address: u8, input: B) -> RecordingReader<B>
        ensures reads { IfSome (B.remaining input) (λ script. left_in B.remaining result.script ≡ Some (stated_through script)) }
        ensures message { (result.address ≡ address) × (result.command ≡ None) }
    {
        RecordingReader {
            script: StatedReader::new(alloc, input),
            address,
            command: None,
            silence: None,
        }
    }

    /// Gives the sighting that comes next in a part. None at its end.
    pub fn next(&mut self) -> Result<Option<Marked>, RecordingFault>
        ensures next { NextSeen (left_in B.remaining self.old.script) (left_in B.remaining self.new.script) result }
        ensures ended { IfOk result (λ next. next ≡ None → EndsPart (left_in B.remaining self.old.script) (left_in B.remaining self.new.script) self.new.silence) }
        ensures fewer { IfOk result (λ next. IfSome next (λ _. turns_left self.new.script < turns_left self.old.script)) }
        ensures fewer_parts { IfOk result (λ next. next ≡ None → IfSome self.new.silence (λ _. turns_left self.new.script < turns_left self.old.script)) }
        ensures message { IfOk result (λ next. IfSome next (λ m. InMessage self.old.address self.old.command m × (self.new.command ≡ m.command))) }
        ensures kept { IfOk result (λ next. next ≡ None → self.new.command ≡ self.old.command) }
        ensures address { self.new.address ≡ self.old.address }
    {
        let Some(stated) = self.script.next()? else {
            self.silence = None;
            return Ok(None);
        };
        if is_silence(&stated) {
            self.silence = Some(stated.line);
            return Ok(None);
        }
        self.command = command_after(self.address, self.command, stated.event);
        match marked_as(&stated, self.command) {
            Ok(marked) => Ok(Some(marked)),
            Err(fault) => Err(refuse_rest(&mut self.script, fault)),
        }
    }
}

/// Gives the recording that a script states, a sighting for each of its events, with its place and the command word of its message. Slots in which the
/// unit may have been silent are left out. The first fault of the script refuses it, or else the first event that is no sighting.
pub fn read_recording<B: BufRead + Drop>(
    alloc: Global,
    address: u8,
    input: B,
) -> Result<Vec<Marked>, RecordingFault>
    ensures read { IfOk result (λ recording. IfSome (B.remaining input) (λ script. StatesRecording script (maybe_in recording.items))) }
    ensures messages { IfOk result (λ recording. (last : Option ℕ) × AreInMessages address None recording.items last) }
    ensures refused { IfErr result (λ fault. IfSome (B.remaining input) (λ script. StatesNoRecording script fault)) }
{
    let mut reader = RecordingReader::new(alloc, address, input);
    let mut recording = Vec::new(alloc);
    'events: loop {
        match reader.next()? {
            Some(marked) => recording.push(marked)?,
            None => {
                if reader.silence.is_none() {
                    return Ok(recording);
                }
            }
        }
    }
}
