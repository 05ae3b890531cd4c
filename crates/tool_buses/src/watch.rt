//! Terminals on a bus, beside each of which its messages are watched.
use crate::reading::SaidEvent;
use rt1553::Normal;
use script_terminals::BusWarning;
use std::alloc::{AllocError, Global};
use terminal_bus::{BusEvent, CameTo, TerminalBus};
use terminal_messages::{ClosedMessages, KeptMessage, MessageEnding, MessageWatch};
use tool_files::ToolFault;

/// What takes messages as they are over, each for the terminal of this address.
pub trait TakesMessages {
    /// Takes a message.
    fn take(&mut self, address: u8, message: &KeptMessage) -> Result<(), ToolFault>;
}

/// A terminal, and its messages.
#[derive(Drop)]
struct WatchedTerminal {
    address: u8,
    watch: MessageWatch<Normal>,
}

/// Terminals on a bus, and the messages of each.
#[derive(Drop)]
pub struct WatchedBus {
    bus: TerminalBus<Normal>,
    /// Those of the bus, at their places.
    terminals: Vec<WatchedTerminal>,
}

impl WatchedTerminal {
    /// Hands the messages on that are over, of those that are for the terminal.
    fn hand_closed<T: TakesMessages>(
        &self,
        closed: &ClosedMessages,
        taker: &mut T,
    ) -> Result<(), ToolFault> {
        for message in [&closed.first, &closed.second, &closed.unheard] {
            match message {
                Some(message) if message.state.end != MessageEnding::Other => {
                    taker.take(self.address, message)?
                }
                _ => {}
            }
        }
        Ok(())
    }

    /// Plays what came in a step of the bus, under this number.
    fn play_came<T: TakesMessages>(
        &mut self,
        came: &CameTo,
        number: u64,
        taker: &mut T,
    ) -> Result<(), ToolFault> {
        for event in [came.event, came.on_a, came.on_b] {
            if let Some(event) = event {
                let closed = self.watch.step(event, number);
                self.hand_closed(&closed, taker)?;
            }
        }
        Ok(())
    }
}

impl WatchedBus {
    /// The terminals of a bus that stands at power-up, which are those of these profiles in their order.
    pub fn power_up(
        alloc: Global,
        bus: &TerminalBus<Normal>,
        normals: &[Normal],
    ) -> Result<WatchedBus, AllocError> {
        let mut terminals = Vec::new(alloc);
        for normal in normals {
            terminals.push(WatchedTerminal {
                address: normal.address(),
                watch: MessageWatch::power_up(normal.setup(), *normal),
            })?;
        }
        Ok(WatchedBus {
            bus: bus.copy(),
            terminals,
        })
    }

    /// Adds the event of the line of this number to the warnings, if it breaks the discipline of a controller.
    fn warn_of(
        &self,
        event: &BusEvent,
        line: u64,
        warnings: &mut Vec<BusWarning>,
    ) -> Result<(), AllocError> {
        if let BusEvent::OnBus(event) = event {
            if let Err(breach) = self.bus.may_put(*event) {
                warnings.push(BusWarning { line, breach })?;
            }
        }
        Ok(())
    }

    /// Plays an event under this number, and hands the messages on that are over with it, in the order of the terminals.
    pub fn play_event<T: TakesMessages>(
        &mut self,
        event: &BusEvent,
        number: u64,
        taker: &mut T,
    ) -> Result<(), ToolFault> {
        let _ = self.bus.step(*event);
        for place in 0..self.terminals.len() {
            let came = self.bus.came_to(*event, place);
            if let Some(terminal) = self.terminals.as_mut_slice().get_mut(place) {
                terminal.play_came(&came, number, taker)?;
            }
        }
        Ok(())
    }

    /// Hands the messages on that are left, in the order of the terminals.
    pub fn end<T: TakesMessages>(&mut self, taker: &mut T) -> Result<(), ToolFault> {
        for terminal in self.terminals.iter_mut() {
            let closed = terminal.watch.end();
            terminal.hand_closed(&closed, taker)?;
        }
        Ok(())
    }

    /// Plays the events of a script, each under its number, and hands messages on as they are over. Gives the warnings.
    pub fn play<T: TakesMessages>(
        &mut self,
        alloc: Global,
        said: &[SaidEvent],
        numbers: &[u64],
        taker: &mut T,
    ) -> Result<Vec<BusWarning>, ToolFault> {
        let mut warnings = Vec::new(alloc);
        for (said, number) in said.iter().zip(numbers) {
            self.warn_of(&said.event, said.line, &mut warnings)?;
            self.play_event(&said.event, *number, taker)?;
        }
        Ok(warnings)
    }
}
