//! The scripts that show differences.
ghost use Rattle.std.specs.Prelude.{◌≡◌, ◌↔◌, ◌⊎◌, IfSome, IsNone, IsTrue};
ghost use Rattle.bus_legal.specs.Parts.{description_in};
ghost use Rattle.terminal_exchanges.specs.Distinguish.{TellsApart};
ghost use Rattle.bus_canon.specs.Difference.{AreAlike, IsInRange, NothingHides, script_for};

use crate::explained::is_place;
use bus_canon::{Difference, Script, script_showing};
use bus_legal::Normal;
use script_lines::write_event;
use std::alloc::{AllocError, Global};

/// Tells whether the numbers of a difference are in their ranges.
fn is_in_range(difference: Difference) -> bool
    ensures { IsTrue result ↔ IsInRange difference }
{
    match difference {
        Difference::ReceiveCell(s, n)
        | Difference::TransmitCell(s, n)
        | Difference::BroadcastReceiveCell(s, n)
        | Difference::InitialWord(s, n) => is_place(s, n),
        Difference::OwnCode(code) | Difference::BroadcastCode(code) => code < 32,
        _ => true,
    }
}

/// The script that shows a difference, whatever else differs: from power-up the two answer it otherwise. None exactly where
/// the two don't differ in this or something is in its way; with another address nothing else can be shown. None, too, where
/// a number of the difference is out of its range.
pub fn script_of(p: &Normal, q: &Normal, difference: Difference) -> Option<Script>
    ensures none { IsInRange difference → (IsNone result ↔ (AreAlike (description_in p.now) (description_in q.now) difference ⊎ (NothingHides (description_in p.now) (description_in q.now) difference → ⊥))) }
    ensures differ { IfSome result (λ _. AreAlike (description_in p.now) (description_in q.now) difference → ⊥) }
    ensures script { IfSome result (λ script. script.items ≡ script_for (description_in p.now) (description_in q.now) difference) }
    ensures apart { IfSome result (λ script. TellsApart (description_in p.now) (description_in q.now) script.items) }
{
    if is_in_range(difference) {
        script_showing(p, q, difference)
    } else {
        None
    }
}

/// The lines of a script.
pub fn script_lines(alloc: Global, script: &Script) -> Result<Vec<String>, AllocError> {
    let mut lines = Vec::new(alloc);
    for event in script.as_slice() {
        let line = write_event(event);
        lines.push(String::from_str(alloc, line.as_str())?)?;
    }
    Ok(lines)
}
