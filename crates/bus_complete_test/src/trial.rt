//! What the complete test tries, in its order.
ghost use Rattle.std.specs.Prelude.{◌≡◌, ◌<◌, ◌++◌, ℕ, true, List, IfSome, Some};
ghost use Rattle.bus_word.specs.Cell.{is_data_place};
ghost use Rattle.bus_legal.specs.Description.{Description};
ghost use Rattle.bus_legal.specs.Parts.{description_in};
ghost use Rattle.terminal_exchanges.specs.Exchanges.{Exchange};
ghost use Rattle.bus_complete_test.specs.CompleteTest.{tried};
ghost use Rattle.bus_complete_test.specs.Trials.{IsTrialInRange, tried_at, tried_from, tried_after, trials_left};
ghost use Rattle.bus_complete_test.specs.Steps.{from_place, after_place, places_left, from_code, after_code, codes_left};

use bus_legal::Normal;

/// One thing that the complete test tries: commands of one kind, with one subaddress and word count, or one mode code.
/// Subaddresses are 1 to 30, word counts 1 to 32, mode codes 0 to 31.
#[derive(Clone, Copy, PartialEq, Eq, Debug)]
pub enum Trial {
    /// The broadcast option and the address: transmit status word by broadcast, which is illegal where it is heard; then the
    /// status that is kept.
    BroadcastOption,
    /// The transmit command of this subaddress and word count: whether it is legal, and the words that it asks for.
    Transmit(u8, u8),
    /// The receive command of this subaddress and word count: whether it is legal.
    Receive(u8, u8),
    /// This mode code to the own address: whether it is legal, and what is answered to it.
    OwnCode(u8),
    /// The broadcast receive command of this subaddress and word count: whether it is legal.
    BroadcastReceive(u8, u8),
    /// This mode code by broadcast: whether it is legal.
    BroadcastCode(u8),
    /// Data wraparound at this subaddress: whether what is received there is transmitted from it.
    Wraparound(u8),
}

/// The first trial: with all later ones it is the whole test, whatever the terminal.
pub fn first_trial() -> Trial
    ensures range { IsTrialInRange result }
    ensures whole { (P : Description) → tried_from P result ≡ tried P }
{
    Trial::BroadcastOption
}

/// Gives the subaddress and the word count after these, or None after the last, 30 and 32.
fn next_place(subaddress: u8, count: u8) -> Option<(u8, u8)>
    requires { is_data_place subaddress count ≡ true }
    ensures range { IfSome result (λ p. is_data_place p.0 p.1 ≡ true) }
    ensures rest { (f : ℕ → ℕ → List Exchange) → from_place f subaddress count ≡ f subaddress count ++ after_place f result }
    ensures fewer { places_left result < places_left (Some (subaddress, count)) }
{
    if count < 32 {
        Some((subaddress, count + 1))
    } else if subaddress < 30 {
        Some((subaddress + 1, 1))
    } else {
        None
    }
}

/// Gives the mode code after this one, or None after the last, 31.
fn next_code(code: u8) -> Option<u8>
    requires { code < 32 }
    ensures range { IfSome result (λ c. c < 32) }
    ensures rest { (f : ℕ → List Exchange) → from_code f code ≡ f code ++ after_code f result }
    ensures fewer { codes_left result < codes_left (Some code) }
{
    if code < 31 { Some(code + 1) } else { None }
}

/// The trial after this one, or None after the last. What it tries and all later ones try, behind what this one tries, is
/// what this one and all later ones try.
pub fn next_trial(p: &Normal, trial: Trial) -> Option<Trial>
    requires { IsTrialInRange trial }
    ensures range { IfSome result IsTrialInRange }
    ensures rest { tried_from (description_in p.now) trial ≡ tried_at (description_in p.now) trial ++ tried_after (description_in p.now) result }
    ensures fewer { trials_left result < trials_left (Some trial) }
{
    match trial {
        Trial::BroadcastOption => Some(Trial::Transmit(1, 1)),
        Trial::Transmit(s, n) => match next_place(s, n) {
            Some((s, n)) => Some(Trial::Transmit(s, n)),
            None => Some(Trial::Receive(1, 1)),
        },
        Trial::Receive(s, n) => match next_place(s, n) {
            Some((s, n)) => Some(Trial::Receive(s, n)),
            None => Some(Trial::OwnCode(0)),
        },
        Trial::OwnCode(code) => match next_code(code) {
            Some(code) => Some(Trial::OwnCode(code)),
            None if p.broadcast() => Some(Trial::BroadcastReceive(1, 1)),
            None => Some(Trial::Wraparound(1)),
        },
        Trial::BroadcastReceive(s, n) => match next_place(s, n) {
            Some((s, n)) => Some(Trial::BroadcastReceive(s, n)),
            None => Some(Trial::BroadcastCode(0)),
        },
        Trial::BroadcastCode(code) => match next_code(code) {
            Some(code) => Some(Trial::BroadcastCode(code)),
            None => Some(Trial::Wraparound(1)),
        },
        Trial::Wraparound(s) if s < 30 => Some(Trial::Wraparound(s + 1)),
        Trial::Wraparound(_) => None,
    }
}
