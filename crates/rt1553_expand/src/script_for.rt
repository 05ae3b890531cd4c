//! Whom a script is for.
ghost use Rattle.std.specs.Prelude.{◌≡◌, ◌==◌};
ghost use Rattle.terminal_rules.specs.LookBack.{some};
ghost use Rattle.rt1553_expand.specs.Own.{is_of_bus, plays};
ghost use Rattle.rt1553_expand.specs.Events.{hears_beside, other_hears};

use crate::message::ALL_TERMINALS;

/// Whom a script is for: these terminals play their own part, and what they send has slots in place of words.
#[derive(Drop)]
pub enum ScriptFor {
    /// The terminal of this address, 0 to 30, if there is one.
    Terminal(Option<u8>),
    /// The terminals of a bus, which have these addresses.
    Bus(Vec<u8>),
}

/// Whether one of these addresses is this.
fn has_address(addresses: &[u8], address: u8) -> bool
    ensures { result ≡ some (λ a. a == address) addresses.now }
{
    let mut found = false;
    for a in addresses {
        found = found || *a == address;
    }
    found
}

/// Whether the terminal of this address hears a command to the address `to`, and is not the sender.
fn hears_beside(to: u8, sender: u8, address: u8) -> bool
    ensures { result ≡ hears_beside to sender address }
{
    address != sender && (address == to || to == ALL_TERMINALS)
}

/// Whether the terminal of one of these addresses does.
fn any_hears(addresses: &[u8], to: u8, sender: u8) -> bool
    ensures { result ≡ some (hears_beside to sender) addresses.now }
{
    let mut found = false;
    for a in addresses {
        found = found || hears_beside(to, sender, *a);
    }
    found
}

impl ScriptFor {
    /// Whether the terminal of this address plays its own part.
    pub(crate) fn plays(&self, address: u8) -> bool
        ensures { result ≡ plays self.now address }
    {
        match self {
            ScriptFor::Terminal(Some(own)) => *own == address,
            ScriptFor::Terminal(None) => false,
            ScriptFor::Bus(addresses) => has_address(addresses.as_slice(), address),
        }
    }

    /// Whether another terminal than the sender plays its own part, and hears a command to the address `to`.
    pub(crate) fn other_hears(&self, to: u8, sender: u8) -> bool
        ensures { result ≡ other_hears self.now to sender }
    {
        match self {
            ScriptFor::Terminal(_) => false,
            ScriptFor::Bus(addresses) => any_hears(addresses.as_slice(), to, sender),
        }
    }

    /// Whether lines of subsystems have the address of their terminal in front.
    pub(crate) fn is_of_bus(&self) -> bool
        ensures { result ≡ is_of_bus self.now }
    {
        matches!(self, ScriptFor::Bus(_))
    }
}
