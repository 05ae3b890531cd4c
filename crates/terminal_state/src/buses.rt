//! What is kept for each of the two buses.
ghost use Rattle.std.specs.Prelude.{◌≡◌};
ghost use Rattle.terminal_rules.specs.Buses.{same_bus};
ghost use Rattle.terminal_state.specs.Buses.{on_bus, with_bus, with_other_bus};

use bus_word::Bus;

/// Tells whether two buses are the same.
pub fn same_bus(a: Bus, b: Bus) -> bool
    ensures { result ≡ same_bus a b }
{
    matches!((a, b), (Bus::A, Bus::A) | (Bus::B, Bus::B))
}

/// A truth value for each bus.
#[derive(Clone, Copy)]
pub struct OnBuses {
    pub a: bool,
    pub b: bool,
}

impl OnBuses {
    /// False on both.
    pub const NONE: OnBuses = OnBuses { a: false, b: false };

    /// Tells the value of a bus.
    pub fn on(&self, bus: Bus) -> bool
        ensures { result ≡ on_bus bus self.now }
    {
        match bus {
            Bus::A => self.a,
            Bus::B => self.b,
        }
    }

    /// Sets the value of a bus.
    pub fn set(&mut self, bus: Bus, value: bool)
        ensures { self.new ≡ with_bus bus value self.old }
    {
        match bus {
            Bus::A => self.a = value,
            Bus::B => self.b = value,
        }
    }

    /// Sets the value of the bus that is not this one.
    pub fn set_other(&mut self, bus: Bus, value: bool)
        ensures { self.new ≡ with_other_bus bus value self.old }
    {
        match bus {
            Bus::A => self.b = value,
            Bus::B => self.a = value,
        }
    }
}
