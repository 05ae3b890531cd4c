//! Legality kept as masks.
ghost use Rattle.std.specs.Prelude.{◌≡◌, ◌<◌, ◌≤◌, ◌&&◌, ℕ, Bool, true, bit_and, get_or, if◌then◌else◌};
ghost use Rattle.bus_word.specs.declared.cell.Cell.{Cell};
ghost use Rattle.bus_word.specs.Cell.{is_data_place};
ghost use Rattle.bus_word.specs.Mask.{has_bit};
ghost use Rattle.bus_legal.specs.OwnCodes.{is_own_code_legal};
ghost use Rattle.bus_legal.specs.Legal.{is_legal};
ghost use Rattle.bus_legal.specs.inner.Masks.{is_broadcast_code_legal};
ghost use Rattle.bus_legal.specs.Tables.{has_count, tables_say, masks_wrap, is_own_mask, is_broadcast_mask, any_wraps};
ghost use Rattle.bus_legal.specs.inner.Masks.{MasksSay, has_both_bits, bit_said};

use crate::legality::Legality;
use crate::masks::with_bits;
use crate::{ModeRule, Profile, Rule};
use bus_word::{Cell, has_bit, is_allowed};

/// The mode codes that may be legal to the own address, bit `c` for code `c`.
pub const OWN_CODES: u32 = 0x000f_01ff;
/// The mode codes that may be legal by broadcast, bit `c` for code `c`.
pub const BROADCAST_CODES: u32 = 0x0002_01fa;
/// The mode codes that are legal to the own address in every profile, bit `c` for code `c`.
pub const REQUIRED_CODES: u32 = 0x0000_0134;

/// The legal cells as masks: one for each of the subaddresses 1 to 30, and two for the mode codes.
/// In the mask of a subaddress bit `n - 1` stands for a word count of `n`, 1 to 32; in the mask of
/// mode codes bit `c` stands for code `c`, 0 to 31.
#[derive(Clone, Copy, PartialEq, Eq, Debug)]
pub struct Tables {
    /// Receive commands to the own address: `own_receive[s - 1]` is the mask of subaddress `s`.
    pub own_receive: [u32; 30],
    /// Transmit commands to the own address, by subaddress.
    pub own_transmit: [u32; 30],
    /// Receive commands by broadcast, by subaddress.
    pub broadcast_receive: [u32; 30],
    /// Mode codes to the own address.
    pub own_mode: u32,
    /// Mode codes by broadcast.
    pub broadcast_mode: u32,
}

/// Sets or clears the counts of a rule at its subaddresses, if the rule speaks of commands that are
/// addressed so and of this direction.
fn put(masks: &mut [u32; 30], addressed: bool, direction: bool, rule: &Rule)
    ensures { MasksSay masks.new (λ s i. if addressed && direction && has_both_bits s i rule.now then rule.now.legal else has_bit (get_or masks.old s 0) i) }
{
    for (s, mask) in masks.iter_mut().enumerate() {
        if addressed && direction && has_bit(rule.subaddresses, s as u8) {
            *mask = with_bits(*mask, rule.counts, rule.legal);
        }
    }
}

/// Gives the tables of these rules, with no mode codes.
fn count_tables(rules: &[Rule]) -> Tables
    ensures own_receive { MasksSay result.own_receive (bit_said (λ r. r.own && r.receive) rules.now) }
    ensures own_transmit { MasksSay result.own_transmit (bit_said (λ r. r.own && r.transmit) rules.now) }
    ensures broadcast_receive { MasksSay result.broadcast_receive (bit_said (λ r. r.broadcast && r.receive) rules.now) }
{
    let mut own_receive = [0; 30];
    let mut own_transmit = [0; 30];
    let mut broadcast_receive = [0; 30];
    for rule in rules {
        put(&mut own_receive, rule.own, rule.receive, rule);
        put(&mut own_transmit, rule.own, rule.transmit, rule);
        put(&mut broadcast_receive, rule.broadcast, rule.receive, rule);
    }
    Tables {
        own_receive,
        own_transmit,
        broadcast_receive,
        own_mode: 0,
        broadcast_mode: 0,
    }
}

/// Sets or clears the codes of a mode entry, if it speaks of commands that are addressed so.
fn with_codes(mask: u32, addressed: bool, mode: &ModeRule) -> u32
    ensures { (c : ℕ) → c < 32 → has_bit result c ≡ (if addressed && has_bit mode.now.codes c then mode.now.legal else has_bit mask c) }
{
    if addressed {
        with_bits(mask, mode.codes, mode.legal)
    } else {
        mask
    }
}

/// Gives the mask of the legal mode codes to the own address.
fn own_mode_mask(modes: &[ModeRule]) -> u32
    ensures codes { (c : ℕ) → c < 32 → has_bit result c ≡ is_own_code_legal modes.now c }
    ensures no_other { bit_and result OWN_CODES ≡ result }
{
    let mut mask = REQUIRED_CODES;
    for mode in modes {
        mask = with_codes(mask, mode.own, mode);
    }
    mask & OWN_CODES
}

/// Gives the mask of the legal mode codes by broadcast.
fn broadcast_mode_mask(modes: &[ModeRule]) -> u32
    ensures codes { (c : ℕ) → c < 32 → has_bit result c ≡ is_broadcast_code_legal modes.now c }
    ensures no_other { bit_and result BROADCAST_CODES ≡ result }
{
    let mut mask = 0;
    for mode in modes {
        mask = with_codes(mask, mode.broadcast, mode);
    }
    mask & BROADCAST_CODES
}

/// Tells whether the mask of the subaddress has the bit of the word count.
fn has_count(masks: &[u32; 30], subaddress: u8, count: u8) -> bool
    requires { is_data_place subaddress count ≡ true }
    ensures { result ≡ has_count masks.now subaddress count }
{
    has_bit(masks[usize::from(subaddress) - 1], count - 1)
}

impl Tables {
    /// The masks of what this profile makes legal. In the masks of mode codes no bit is set of a
    /// code that can't be legal.
    pub fn of(profile: &Profile) -> Tables
        ensures legal { (cell : Cell) → tables_say result cell ≡ is_legal profile.now.rules profile.now.modes cell }
        ensures own_mode { is_own_mask result.own_mode ≡ true }
        ensures broadcast_mode { is_broadcast_mask result.broadcast_mode ≡ true }
    {
        let mut tables = count_tables(profile.rules.as_slice());
        tables.own_mode = own_mode_mask(profile.modes.as_slice());
        tables.broadcast_mode = broadcast_mode_mask(profile.modes.as_slice());
        tables
    }

    /// Whether words can be received at this subaddress, 1 to 30, and transmitted from it: by the own
    /// address or by broadcast some word count is legal there, and so is some to transmit.
    pub fn can_wrap(&self, subaddress: u8) -> bool
        requires low { 1 ≤ subaddress }
        requires high { subaddress ≤ 30 }
        ensures { result ≡ masks_wrap self.now subaddress }
    {
        let index = usize::from(subaddress) - 1;
        (self.own_receive[index] != 0 || self.broadcast_receive[index] != 0)
            && self.own_transmit[index] != 0
    }

    /// Whether some subaddress is such.
    pub fn can_wrap_somewhere(&self) -> bool
        ensures { result ≡ any_wraps self.now }
    {
        for subaddress in 1..31 {
            if self.can_wrap(subaddress) {
                return true;
            }
        }
        false
    }
}

impl Legality for Tables {
    ghost is_legal = { tables_say };

    #[inline(always)]
    fn legal(&self, cell: Cell) -> bool {
        is_allowed(cell)
            && match cell {
                Cell::OwnReceive(s, n) => has_count(&self.own_receive, s, n),
                Cell::OwnTransmit(s, n) => has_count(&self.own_transmit, s, n),
                Cell::BroadReceive(s, n) => has_count(&self.broadcast_receive, s, n),
                Cell::OwnMode(code) => has_bit(self.own_mode, code),
                Cell::BroadMode(code) => has_bit(self.broadcast_mode, code),
            }
    }
}
