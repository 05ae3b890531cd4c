//! What the terminals of a bus did in the latest step, as plain numbers.
ghost use Rattle.std.specs.Prelude.{◌≡◌, ◌≤◌, ◌<◌, ◌+◌, ◌++◌, List, Some, length, take, map, slice_get};
ghost use Rattle.std.specs.List.{flat_map};
ghost use Rattle.bus_terminal.specs.Answer.{shown_answer, IsSmall};
ghost use Rattle.terminal_bus.specs.declared.event.BusEvent.{BusEvent};
ghost use Rattle.terminal_bus.specs.Members.{Member, bus_after};
ghost use Rattle.terminal_bus.specs.AtMembers.{AnswersAt};
ghost use Rattle.live_bus.specs.BusNumbers.{told_in, told_one, member_told, brings_answers};
ghost use Rattle.live_bus.specs.LiveBus.{IsAtMembers};

use crate::front::BusAnswer;
use bus_legal::Normal;
use bus_terminal::Answer;
use rt1553_live::show;
use terminal_bus::{AddressedAnswer, BusEvent, TerminalBus};
use terminal_rules::Event;

/// Puts an answer behind so many others, if it is one. Gives how many there are.
fn put_answer(answers: &mut [BusAnswer], count: usize, it: &AddressedAnswer<'_>) -> usize
    requires small { IsSmall (shown_answer it.now.answer) }
    requires room { count < length answers.old }
    ensures told { told_in result answers.new ≡ told_in count answers.old ++ told_one it.now.address (shown_answer it.now.answer) }
    ensures count { result ≤ count + 1 }
{
    if matches!(it.answer, Answer::Silent) {
        return count;
    }
    answers[count].address = it.address;
    show(&mut answers[count].answer, &it.answer);
    count + 1
}

/// Puts there what the terminal at a place did in the latest step.
fn tell_place(
    answers: &mut [BusAnswer],
    count: usize,
    bus: &TerminalBus<Normal>,
    place: usize,
) -> usize
    requires { count < length answers.old }
    ensures told { (members : List Member) (x : BusEvent) (m : Member) → IsAtMembers (bus_after members x) bus.now → AnswersAt members x bus.now
        → slice_get members place ≡ Some m → told_in result answers.new ≡ told_in count answers.old ++ member_told members x m }
    ensures count { result ≤ count + 1 }
{
    match bus.answer(place) {
        Some(it) => put_answer(answers, count, &it),
        None => count,
    }
}

/// Puts there what each terminal did in the latest step. Gives how many sent or handed over something.
fn tell_each(answers: &mut [BusAnswer], bus: &TerminalBus<Normal>) -> u8
    requires { length answers.old ≡ 31 }
    ensures { (members : List Member) (x : BusEvent) → IsAtMembers (bus_after members x) bus.now → AnswersAt members x bus.now
        → told_in result answers.new ≡ flat_map (member_told members x) members }
{
    let mut count = 0;
    for place in 0..bus.len() {
        count = tell_place(answers, count, bus, place);
    }
    count as u8
}

/// Whether some terminal may answer what happens: most of it are words, and those are never answered.
fn brings_answers(event: &BusEvent) -> bool
    ensures { result ≡ brings_answers event.now }
{
    !matches!(event, BusEvent::OnBus(Event::Word(_, _) | Event::Noise(_)))
}

/// Puts there what each terminal did in the latest step, in which this happened. Gives how many sent or handed over something.
pub(crate) fn tell_answers(
    answers: &mut [BusAnswer],
    bus: &TerminalBus<Normal>,
    event: &BusEvent,
) -> u8
    requires { length answers.old ≡ 31 }
    ensures { (members : List Member) → IsAtMembers (bus_after members event.now) bus.now → AnswersAt members event.now bus.now
        → told_in result answers.new ≡ flat_map (member_told members event.now) members }
{
    if brings_answers(event) {
        tell_each(answers, bus)
    } else {
        0
    }
}
