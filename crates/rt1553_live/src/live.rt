//! Terminals are made, stepped, copied, saved and restored.
ghost use Rattle.std.specs.Prelude.{◌≡◌, ◌≤◌, ◌⊎◌, [], Some, length, IfSome, IfOk, IfErr};
ghost use Rattle.bus_legal.specs.Description.{Description};
ghost use Rattle.bus_legal.specs.Parts.{description_in};
ghost use Rattle.bus_legal.specs.Reach.{reach};
ghost use Rattle.rt1553.specs.Load.{Of, IsNotLoaded};
ghost use Rattle.terminal_rules.specs.Out.{Silence};
ghost use Rattle.rt1553_live.specs.State.{state_of, IsMade};
ghost use Rattle.rt1553_live.specs.Text.{StateText};
ghost use Rattle.rt1553_live.specs.PlainAnswer.{answer_in};
ghost use Rattle.rt1553_live.specs.Live.{AnswersAs, IsNew, Steps, IsCopy, IsRestored};
ghost use Rattle.rt1553_live.specs.Restored.{IsNotRestored};

use crate::answer::{PlainAnswer, show};
use crate::event::{PlainEvent, plain_event};
use crate::terminal::Live;
use crate::{StateFault, restore, save};
use bus_legal::Normal;
use bus_terminal::Terminal;
use rt1553::{LoadFault, load};
use std::alloc::{AllocError, Global};

/// Why no terminal is made of a text.
#[derive(Clone, Copy, Debug, PartialEq, Eq)]
pub enum RestoreFault {
    /// It is no saved state.
    State(StateFault),
    /// Out of memory.
    Memory,
}

/// Plays the event that stands in front of the terminal, and leaves there what is answered. Gives 0; or 2 where the
/// numbers mean no event: then all stays as it was.
pub fn step_live(live: &mut Live) -> u8
    ensures { Steps live.old result live.new }
{
    match plain_event(live.event) {
        None => 2,
        Some(event) => {
            let answer = live.terminal.step(event);
            show(&mut live.answer, &answer);
            0
        }
    }
}

/// The terminal at power-up of which this can be reached.
fn at_power_up(normal: Normal) -> Terminal<Normal>
    ensures answers { (P : Description) → description_in normal ≡ reach P → AnswersAs P [] result }
    ensures made { IsMade result }
{
    let setup = normal.setup();
    Terminal::power_up(setup, normal)
}

/// A terminal of which nothing was asked yet.
fn unasked(terminal: Terminal<Normal>) -> Live
    requires { IsMade terminal }
    ensures silent { answer_in result.answer ≡ Some Silence }
    ensures terminal { result.terminal ≡ terminal }
{
    Live {
        event: PlainEvent::default(),
        answer: PlainAnswer::default(),
        terminal,
    }
}

/// The same with no event played.
fn fresh(normal: Normal) -> Live
    ensures { (P : Description) → description_in normal ≡ reach P → IsNew P result }
{
    unasked(at_power_up(normal))
}

/// The terminal of a profile text or a canonical text, at power-up. Nothing was answered yet, and the event in front is a
/// word.
pub fn new_live(alloc: Global, text: &[u8]) -> Result<Box<Live>, LoadFault>
    ensures ok { IfOk result (λ live. (P : Description) × Of text.now P × IsNew P live.value) }
    ensures refused { IfErr result (λ fault. (fault ≡ LoadFault.Memory) ⊎ IsNotLoaded text.now fault) }
{
    let normal = load(alloc, text)?;
    match Box::new(alloc, fresh(normal)) {
        Ok(live) => Ok(live),
        Err(_) => Err(LoadFault::Memory),
    }
}

/// The terminal once more, with the same event in front and the same answer. None where memory runs out.
pub fn copy_live(alloc: Global, live: &Live) -> Option<Box<Live>>
    ensures { IfSome result (λ it. IsCopy live.now it.value) }
{
    Box::new(alloc, once_more(live)).ok()
}

/// The same as a value.
fn once_more(live: &Live) -> Live
    ensures { IsCopy live.now result }
{
    Live {
        event: live.event,
        answer: live.answer,
        terminal: live.terminal.copy(),
    }
}

/// The state of the terminal as a text, of at most 13,028 bytes. The event in front and what was answered last are no part of it.
pub fn save_live(alloc: Global, live: &Live) -> Result<Vec<u8>, AllocError>
    ensures text { IfOk result (λ bytes. StateText (state_of live.now.terminal) bytes.items) }
    ensures size { IfOk result (λ bytes. length bytes.items ≤ 13028) }
{
    save(alloc, &live.terminal)
}

/// A terminal of a saved state. Nothing was answered yet, and the event in front is a word.
pub fn restore_live(alloc: Global, text: &[u8]) -> Result<Box<Live>, RestoreFault>
    ensures restored { IfOk result (λ live. IsRestored text.now live.value) }
    ensures refused { IfErr result (IsNotRestored text.now) }
{
    let terminal = match restore(text) {
        Ok(terminal) => terminal,
        Err(why) => return Err(RestoreFault::State(why)),
    };
    match Box::new(alloc, unasked(terminal)) {
        Ok(live) => Ok(live),
        Err(_) => Err(RestoreFault::Memory),
    }
}

fn is_sent<T: Send>() {}

/// A terminal may be handed from thread to thread.
pub fn live_is_sent() {
    is_sent::<Live>();
}
