//! What can be reached of a terminal, as a table for people.
ghost use Rattle.std.specs.Prelude.{◌≡◌, ◌-◌, ◌≤◌, ◌<◌, ℕ, true, false, get_or, []};
ghost use Rattle.bus_word.specs.declared.cell.Cell.TheVariants.{OwnReceive, OwnTransmit, BroadReceive, OwnMode, BroadMode};
ghost use Rattle.bus_word.specs.Cell.{is_data_place};
ghost use Rattle.bus_word.specs.Mask.{has_bit};
ghost use Rattle.bus_legal.specs.Parts.{description_in};

use bus_legal::Normal;

/// What is so at one subaddress. In a mask bit `n - 1` stands for a word count of `n`.
#[derive(Clone, Copy)]
pub struct SubaddressRow {
    pub subaddress: u8,
    /// The word counts that the own address may receive.
    pub receive: u32,
    /// The word counts that the own address may transmit.
    pub transmit: u32,
    /// The word counts that may be received by broadcast.
    pub broadcast: u32,
    /// The words held at power-up: those that can't be transmitted are 0.
    pub words: [u16; 32],
}

/// The mode codes that are legal, bit `c` for code `c`.
#[derive(Clone, Copy)]
pub struct Codes {
    pub own: u32,
    pub broadcast: u32,
}

/// The row of a subaddress, 1 to 30, by what can be reached.
pub fn row_of(normal: &Normal, subaddress: u8) -> SubaddressRow
    requires low { 1 ≤ subaddress }
    requires high { subaddress ≤ 30 }
    ensures subaddress { result.subaddress ≡ subaddress }
    ensures receive { (n : ℕ) → is_data_place subaddress n ≡ true → has_bit result.receive (n - 1) ≡ (description_in normal.now).legal (OwnReceive subaddress n) }
    ensures transmit { (n : ℕ) → is_data_place subaddress n ≡ true → has_bit result.transmit (n - 1) ≡ (description_in normal.now).legal (OwnTransmit subaddress n) }
    ensures broadcast { (n : ℕ) → is_data_place subaddress n ≡ true → has_bit result.broadcast (n - 1) ≡ (description_in normal.now).legal (BroadReceive subaddress n) }
    ensures words { (i : ℕ) → is_data_place subaddress i ≡ true → get_or result.words (i - 1) 0 ≡ (description_in normal.now).initial subaddress i }
{
    let tables = normal.tables();
    let index = usize::from(subaddress) - 1;
    SubaddressRow {
        subaddress,
        receive: tables.own_receive[index],
        transmit: tables.own_transmit[index],
        broadcast: tables.broadcast_receive[index],
        words: normal.initial()[index],
    }
}

/// Whether a subaddress is 1 to 30, and a word count or the number of a word 1 to 32.
pub fn is_place(s: u8, n: u8) -> bool
    ensures { result ≡ is_data_place s n }
{
    1 <= s && s <= 30 && 1 <= n && n <= 32
}

/// The word of this number that is held for a subaddress; 0 if the subaddress has none.
pub fn word_at(normal: &Normal, s: u8, i: u8) -> u16
    ensures held { is_data_place s i ≡ true → result ≡ (description_in normal.now).initial s i }
    ensures none { is_data_place s i ≡ false → result ≡ 0 }
{
    if is_place(s, i) {
        row_of(normal, s).words[usize::from(i) - 1]
    } else {
        0
    }
}

/// The mode codes that are legal, by what can be reached.
pub fn codes_of(normal: &Normal) -> Codes
    ensures own { (c : ℕ) → c < 32 → has_bit result.own c ≡ (description_in normal.now).legal (OwnMode c) }
    ensures broadcast { (c : ℕ) → c < 32 → has_bit result.broadcast c ≡ (description_in normal.now).legal (BroadMode c) }
{
    // With a set-up comes the promise that no bit is set of a code that can't be legal.
    normal.setup();
    let tables = normal.tables();
    Codes {
        own: tables.own_mode,
        broadcast: tables.broadcast_mode,
    }
}
