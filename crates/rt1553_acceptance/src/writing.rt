//! The acceptance test, written.
ghost use Rattle.std.specs.Prelude.{◌≡◌, ◌||◌, ◌∷◌, [], List, not, is_ok, OnOk};
ghost use Rattle.std.specs.Io.KnownBytes.{Appends};
ghost use Rattle.bus_legal.specs.Description.{Description};
ghost use Rattle.bus_legal.specs.Parts.{description_in};
ghost use Rattle.terminal_rules.specs.declared.event.Event.{Event};
ghost use Rattle.terminal_rules.specs.Out.{out};
ghost use Rattle.terminal_exchanges.specs.Values.{exchange_in, IsShort};
ghost use Rattle.bus_complete_test.specs.CompleteTest.{tried};
ghost use Rattle.bus_terminal.specs.Stands.{StandsAt};
ghost use Rattle.bus_script.specs.Played.{Played};
ghost use Rattle.rt1553_acceptance.specs.Text.{event_stated, comment_of, acceptance_text};
ghost use Rattle.rt1553_acceptance.specs.Law.{IsAcceptanceTest};
ghost use Rattle.rt1553_acceptance.specs.inner.Fits.{Fits, AllFit};
ghost use Rattle.rt1553_acceptance.specs.inner.Puts.{Puts};

use crate::label::label_of;
use crate::remark::push_remark;
use crate::stating::{StatedLines, fits, stated_lines};
use bus_complete_test::{Exchange, Exchanges};
use bus_legal::{Legality, Normal};
use bus_terminal::{Event, Terminal};
use byte_streams::{IoFailed, Sink, write_all};
use message_names::MessageNames;
use terminal_exchanges::events_of;

/// What is told while the test is written.
pub trait Progress {
    /// One exchange more was written.
    fn exchange_written(&mut self);
}

/// Plays an event, and writes it with what is stated of its answer.
fn put_event<L: Legality, W: Sink>(
    sink: &mut W,
    terminal: &mut Terminal<L>,
    event: Event,
) -> Result<(), IoFailed>
    ensures wrote { OnOk result (Played L.is_legal event_stated W.written (terminal.old, sink.old) (terminal.new, sink.new) (event ∷ [])) }
    ensures fits { (P : Description) (h : List Event) → StandsAt L.is_legal P h terminal.old → Fits (out P h event) }
    ensures failed { W.has_failed sink.new ≡ (W.has_failed sink.old || not (is_ok result)) }
{
    let answer = terminal.step(event);
    fits(&answer);
    let lines = stated_lines(&event, &answer);
    write_all(sink, lines.as_str().as_bytes())
}

/// Plays events, and writes each with what is stated of its answer.
fn put_events<L: Legality, W: Sink>(
    sink: &mut W,
    terminal: &mut Terminal<L>,
    events: &[Event],
) -> Result<(), IoFailed>
    ensures wrote { OnOk result (Played L.is_legal event_stated W.written (terminal.old, sink.old) (terminal.new, sink.new) events.now) }
    ensures fits { OnOk result ((P : Description) (h : List Event) → StandsAt L.is_legal P h terminal.old → AllFit P h events.now) }
    ensures failed { W.has_failed sink.new ≡ (W.has_failed sink.old || not (is_ok result)) }
{
    for event in events {
        put_event(sink, terminal, *event)?;
    }
    Ok(())
}

/// Writes the comment that says what an exchange tries.
fn put_comment<W: Sink>(
    sink: &mut W,
    names: &MessageNames,
    p: &Normal,
    exchange: Exchange,
) -> Result<(), IoFailed>
    ensures wrote { OnOk result (Appends (W.written sink.old) (W.written sink.new) (comment_of names.now (description_in p.now) (exchange_in exchange))) }
    ensures failed { W.has_failed sink.new ≡ (W.has_failed sink.old || not (is_ok result)) }
{
    let mut line = StatedLines::new();
    let label = label_of(p, exchange.command);
    line.push_str("# ");
    line.push_str(label.as_str());
    push_remark(&mut line, label.as_str(), names, exchange.command);
    line.push_str("\n");
    write_all(sink, line.as_str().as_bytes())
}

/// Plays an exchange, and writes it behind its comment.
fn put_exchange<L: Legality, W: Sink>(
    sink: &mut W,
    terminal: &mut Terminal<L>,
    names: &MessageNames,
    p: &Normal,
    exchange: Exchange,
) -> Result<(), IoFailed>
    requires { IsShort exchange }
    ensures wrote { OnOk result (Puts L.is_legal W.written names.now (description_in p.now) terminal.old terminal.new sink.old sink.new (exchange_in exchange ∷ [])) }
    ensures failed { W.has_failed sink.new ≡ (W.has_failed sink.old || not (is_ok result)) }
{
    put_comment(sink, names, p, exchange)?;
    let events = events_of(exchange);
    put_events(sink, terminal, events.as_slice())
}

/// Plays all exchanges of the test, and writes each behind its comment.
fn put_exchanges<L: Legality, W: Sink, T: Progress>(
    sink: &mut W,
    terminal: &mut Terminal<L>,
    names: &MessageNames,
    p: &Normal,
    progress: &mut T,
) -> Result<(), IoFailed>
    ensures wrote { OnOk result (Puts L.is_legal W.written names.now (description_in p.now) terminal.old terminal.new sink.old sink.new (tried (description_in p.now))) }
    ensures failed { W.has_failed sink.new ≡ (W.has_failed sink.old || not (is_ok result)) }
{
    let mut exchanges = Exchanges::new(p);
    while let Some(exchange) = exchanges.next() {
        put_exchange(sink, terminal, names, p, exchange)?;
        progress.exchange_written();
    }
    Ok(())
}

/// Writes the acceptance test of a terminal: the script that tells it from every other terminal, each exchange behind a
/// comment that says what it tries, each event with the answer that this terminal gives. A terminal that answers as it
/// states, from power-up, is this one. The name of a message stands in the comments of its exchanges, where it has room and no control
/// character: give names as they are printed. The sink may hold bytes back: flush it.
pub fn write_acceptance<W: Sink, T: Progress>(
    normal: &Normal,
    names: &MessageNames,
    sink: &mut W,
    progress: &mut T,
) -> Result<(), IoFailed>
    ensures text { OnOk result (Appends (W.written sink.old) (W.written sink.new) (acceptance_text names.now (description_in normal.now))) }
    ensures test { OnOk result (IsAcceptanceTest (description_in normal.now) (acceptance_text names.now (description_in normal.now))) }
    ensures failed { W.has_failed sink.new ≡ (W.has_failed sink.old || not (is_ok result)) }
{
    let setup = normal.setup();
    let mut terminal = Terminal::power_up(setup, *normal);
    put_exchanges(sink, &mut terminal, names, normal, progress)
}
