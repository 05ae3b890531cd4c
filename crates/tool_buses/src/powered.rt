//! A bus of the terminals of profiles at power-up.
ghost use Rattle.std.specs.Prelude.{◌≡◌, ◌≤◌, true, false, List, [], ◌∷◌, ◌++◌, length, IfOk, IfErr, OnOk, map};
ghost use Rattle.std.specs.String.{string_bytes};
ghost use Rattle.bus_legal.specs.Description.{Description};
ghost use Rattle.bus_legal.specs.Parts.{description_in};
ghost use Rattle.bus_reports.specs.Outcomes.{EndsWith};
ghost use Rattle.tool_buses.specs.Powered.{IsPowered, IsShared, TellsShared, described_at, described_below, shared_words};
ghost use Rattle.tool_buses.specs.inner.Crowded.{AreBelow, IsCrowded};

use rt1553::Normal;
use std::alloc::{AllocError, Global};
use terminal_bus::TerminalBus;
use tool_files::{ToolFault, shown};

/// Adds the terminal of a profile, if it has this address, 0 to 30. Tells whether no other has it.
fn add_one(bus: &mut TerminalBus<Normal>, normal: &Normal, address: u8) -> bool
    requires { address ≤ 30 }
    ensures added { result ≡ true → (Ps : List Description) → IsPowered Ps bus.old → IsPowered (Ps ++ described_at address (normal.now ∷ [])) bus.new }
    ensures other { result ≡ false → (Ps : List Description) → IsPowered Ps bus.old → IsCrowded Ps address normal.now }
{
    if normal.address() == address {
        bus.add(normal.setup(), *normal).is_ok()
    } else {
        true
    }
}

/// Adds the terminals of profiles with this address, 0 to 30. Tells whether there is one at most.
fn add_at(bus: &mut TerminalBus<Normal>, normals: &[Normal], address: u8) -> bool
    requires { address ≤ 30 }
    ensures added { result ≡ true → (Ps : List Description) → IsPowered Ps bus.old → IsPowered (Ps ++ described_at address normals.now) bus.new }
    ensures two { result ≡ false → (Ps : List Description) → IsPowered Ps bus.old → AreBelow address Ps → 2 ≤ length (described_at address normals.now) }
{
    for normal in normals {
        if !add_one(bus, normal, address) {
            return false;
        }
    }
    true
}

/// A bus of the terminals of profiles, in the order of their addresses.
///
/// # Errors
///
/// The lowest address that two of them have.
fn power_up(normals: &[Normal]) -> Result<TerminalBus<Normal>, u8>
    ensures bus { IfOk result (IsPowered (described_below 31 normals.now)) }
    ensures shared { IfErr result (IsShared normals.now) }
{
    let mut bus = TerminalBus::new();
    for address in 0..31u8 {
        if !add_at(&mut bus, normals, address) {
            return Err(address);
        }
    }
    Ok(bus)
}

/// Adds the profiles with this address.
fn push_at(ordered: &mut Vec<Normal>, normals: &[Normal], address: u8) -> Result<(), AllocError>
    ensures { OnOk result (map description_in ordered.new.items ≡ map description_in ordered.old.items ++ described_at address normals.now) }
{
    for normal in normals {
        if normal.address() == address {
            ordered.push(*normal)?;
        }
    }
    Ok(())
}

/// Profiles in the order of their addresses, as their terminals stand on the bus.
pub fn in_order(alloc: Global, normals: &[Normal]) -> Result<Vec<Normal>, AllocError>
    ensures { IfOk result (λ ordered. map description_in ordered.items ≡ described_below 31 normals.now) }
{
    let mut ordered = Vec::new(alloc);
    for address in 0..31u8 {
        push_at(&mut ordered, normals, address)?;
    }
    Ok(ordered)
}

/// Adds why profiles that have the same address, 0 to 30, are refused.
fn push_shared(told: &mut String, address: u8) -> Result<(), AllocError>
    ensures { OnOk result (string_bytes told.new ≡ string_bytes told.old ++ shared_words address) }
{
    write!(
        told,
        ": the same address, {}{}; on a bus each terminal has its own",
        address / 10,
        address % 10
    )
}

/// What is printed of profiles that have the same address, without a line feed. The only error is out of memory.
fn same_address_text<R: AllocGlobal>(
    rt: &R,
    names: &[&str],
    normals: &[Normal],
    address: u8,
) -> Result<String, ToolFault>
    ensures told { IfOk result (λ told. EndsWith (shared_words address) (string_bytes told)) }
    ensures memory { IfErr result (λ fault. fault ≡ ToolFault.Memory) }
{
    let mut told = String::new(rt.alloc());
    for (name, normal) in names.iter().zip(normals) {
        if normal.address() == address {
            if !told.is_empty() {
                told.push_str(" and ")?;
            }
            told.push_str(shown(rt, name)?.as_str())?;
        }
    }
    push_shared(&mut told, address)?;
    Ok(told)
}

/// A bus of the terminals of profiles, from files of these names, at power-up and in the order of their addresses.
///
/// # Errors
///
/// The lowest address that two of them have, or out of memory.
pub fn bus_of<R: AllocGlobal>(
    rt: &R,
    names: &[&str],
    normals: &[Normal],
) -> Result<TerminalBus<Normal>, ToolFault>
    ensures bus { IfOk result (IsPowered (described_below 31 normals.now)) }
    ensures shared { IfErr result (TellsShared normals.now) }
{
    match power_up(normals) {
        Ok(bus) => Ok(bus),
        Err(address) => { Err(ToolFault::Refused(same_address_text(rt, names, normals, address)?)) }
    }
}
