//! Legality asked entry by entry.
ghost use Rattle.std.specs.Prelude.{◌≡◌, true, false, ◌<◌, option_map, find, reverse};
ghost use Rattle.bus_word.specs.Cell.{is_data_place, is_allowed};
ghost use Rattle.bus_word.specs.Mode.{is_required_code};
ghost use Rattle.bus_legal.specs.Last.{last_of};
ghost use Rattle.bus_legal.specs.OwnCodes.{contains_own, mode_says};
ghost use Rattle.bus_legal.specs.Legal.{is_among, contains, contains_broadcast, rule_says, last_says, is_legal};

use crate::legality::Legality;
use crate::{ModeRule, Profile, Rule};
use bus_word::{Cell, has_bit, is_allowed, is_required_code};

/// The rules and mode entries of a profile, asked one by one from the last.
#[derive(Clone, Copy)]
pub struct RuleList<'a> {
    pub rules: &'a [Rule],
    pub modes: &'a [ModeRule],
}

impl<'a> RuleList<'a> {
    /// The rules and mode entries of this profile.
    pub fn of(profile: &'a Profile) -> RuleList<'a>
        ensures rules { result.rules.now ≡ profile.entry.now.rules }
        ensures modes { result.modes.now ≡ profile.entry.now.modes }
    {
        RuleList {
            rules: profile.rules.as_slice(),
            modes: profile.modes.as_slice(),
        }
    }
}

/// Tells whether the rule's sets contain this subaddress and this word count.
fn is_among(rule: &Rule, subaddress: u8, count: u8) -> bool
    requires { is_data_place subaddress count ≡ true }
    ensures { result ≡ is_among subaddress count rule.now }
{
    has_bit(rule.subaddresses, subaddress - 1) && has_bit(rule.counts, count - 1)
}

/// Tells whether the rule speaks of the cell.
fn contains(rule: &Rule, cell: Cell) -> bool
    requires { is_allowed cell ≡ true }
    ensures { result ≡ contains cell rule.now }
{
    match cell {
        Cell::OwnReceive(s, n) => rule.own && rule.receive && is_among(rule, s, n),
        Cell::OwnTransmit(s, n) => rule.own && rule.transmit && is_among(rule, s, n),
        Cell::BroadReceive(s, n) => rule.broadcast && rule.receive && is_among(rule, s, n),
        Cell::OwnMode(_) | Cell::BroadMode(_) => false,
    }
}

/// Finds the last rule that speaks of the cell.
fn last_rule<'a>(rules: &'a [Rule], cell: Cell) -> Option<&'a Rule>
    requires { is_allowed cell ≡ true }
    ensures { option_map (λ r. r.now) result ≡ find (contains cell) (reverse rules.entry.now) }
{
    rules.iter().rev().find(|rule| contains(rule, cell))
}

/// Finds the last mode entry that speaks of the code to the own address.
fn last_own_code(modes: &[ModeRule], code: u8) -> Option<&ModeRule>
    requires { code < 32 }
    ensures { option_map (λ m. m.now) result ≡ find (contains_own code) (reverse modes.entry.now) }
{
    modes
        .iter()
        .rev()
        .find(|mode| mode.own && has_bit(mode.codes, code))
}

/// Finds the last mode entry that speaks of the code by broadcast.
fn last_broadcast_code(modes: &[ModeRule], code: u8) -> Option<&ModeRule>
    requires { code < 32 }
    ensures { option_map (λ m. m.now) result ≡ find (contains_broadcast code) (reverse modes.entry.now) }
{
    modes
        .iter()
        .rev()
        .find(|mode| mode.broadcast && has_bit(mode.codes, code))
}

impl<'a> Legality for RuleList<'a> {
    ghost is_legal = { λ list cell. is_legal list.rules.now list.modes.now cell };

    #[tactic(auto, using(crate::proofs::Last::find_reverse), unfolding(crate::specs::Legal::is_legal))]
    fn legal(&self, cell: Cell) -> bool {
        is_allowed(cell)
            && match cell {
                Cell::OwnMode(code) => last_own_code(self.modes, code).map_or(
                    is_required_code(code),
                    |mode| mode.legal,
                ),
                Cell::BroadMode(code) => last_broadcast_code(self.modes, code).map_or(
                    false,
                    |mode| mode.legal,
                ),
                _ => last_rule(self.rules, cell).map_or(false, |rule| rule.legal),
            }
    }
}
