//! What is heard of a silence.
ghost use Rattle.std.specs.Prelude.{◌≡◌};
ghost use Rattle.monitor_cells.specs.Listening.{gap_if, maybe_silent_if, slot_if, maybe_gap_if, pause_if};

use crate::heard::HeardItem;
use bus_word::Bus;

/// What is heard of a silence on both buses, in this order, up to the word that ends it on one of them.
#[derive(Clone, Copy)]
pub struct Silence {
    /// The slot in which the terminal may be silent, since it may not have heard a message.
    pub maybe_silent: Option<HeardItem>,
    /// The gap on the other bus.
    pub other_gap: Option<HeardItem>,
    /// The gap on the bus of the word.
    pub own_gap: Option<HeardItem>,
    /// The slot in which the terminal sends nothing.
    pub slot: Option<HeardItem>,
    /// The second gap on the other bus.
    pub other_second: Option<HeardItem>,
    /// The second gap on the bus of the word.
    pub own_second: Option<HeardItem>,
    /// The end of a pause.
    pub pause: Option<HeardItem>,
    /// The second gap that may have come on the other bus.
    pub other_maybe: Option<HeardItem>,
    /// The second gap that may have come on the bus of the word.
    pub own_maybe: Option<HeardItem>,
}

/// A gap on a bus, if there is one.
pub fn gap_if(is_gap: bool, bus: Bus) -> Option<HeardItem>
    ensures { result ≡ gap_if is_gap bus }
{
    if is_gap {
        Some(HeardItem::Gap(bus))
    } else {
        None
    }
}

/// A slot in which the terminal may be silent, if there is one.
pub fn maybe_silent_if(is_slot: bool) -> Option<HeardItem>
    ensures { result ≡ maybe_silent_if is_slot }
{
    if is_slot {
        Some(HeardItem::MaybeSilent)
    } else {
        None
    }
}

/// A slot in which the terminal sends nothing, if there is one.
pub fn slot_if(is_slot: bool) -> Option<HeardItem>
    ensures { result ≡ slot_if is_slot }
{
    if is_slot { Some(HeardItem::Slot) } else { None }
}

/// A second gap on a bus that may have come, if there is one.
pub fn maybe_gap_if(is_gap: bool, bus: Bus) -> Option<HeardItem>
    ensures { result ≡ maybe_gap_if is_gap bus }
{
    if is_gap {
        Some(HeardItem::MaybeGap(bus))
    } else {
        None
    }
}

/// The end of a pause, if there is one.
pub fn pause_if(is_pause: bool) -> Option<HeardItem>
    ensures { result ≡ pause_if is_pause }
{
    if is_pause {
        Some(HeardItem::Pause)
    } else {
        None
    }
}
