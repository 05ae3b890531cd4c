//! The words held ready for the subaddresses.
ghost use Rattle.std.specs.Prelude.{◌≡◌, ℕ, ◌<◌, ◌≤◌, ◌-◌, ◌&&◌, ◌==◌, true, false, if◌then◌else◌, length, nat_le, nat_lt, take, drop, get_or, List, []};
ghost use Rattle.bus_word.specs.Cell.{is_data_place};
ghost use Rattle.terminal_rules.specs.LookBack.{or_else};
ghost use Rattle.terminal_rules.specs.SinceReset.{wrapped, wrapped_at};
ghost use Rattle.terminal_state.specs.Ended.{ending_of};
ghost use Rattle.terminal_state.specs.Held.{block_in, word_in, held_after};

use crate::ended::Ended;
use bus_word::Cell;
use terminal_rules::WordPlace;

/// A block of 32 words for each of the subaddresses 1 to 30.
pub type Blocks = [[u16; 32]; 30];

/// The words held ready: those of power-up, and over them the blocks that were changed since power-up or the latest
/// reset, so that a reset copies no blocks.
#[derive(Drop)]
pub struct HeldWords {
    /// The words of power-up, to which a reset goes back.
    pub initial: Blocks,
    pub blocks: Blocks,
    pub changed: [bool; 30],
}

impl HeldWords {
    /// Gives those of power-up.
    pub fn at_power_up(initial: Blocks) -> HeldWords
        ensures words { (s : ℕ) → block_in result s ≡ get_or initial (s - 1) [] }
        ensures initial { result.initial ≡ initial }
    {
        HeldWords {
            initial,
            blocks: [[0; 32]; 30],
            changed: [false; 30],
        }
    }

    /// Gives these words of power-up with these held over them.
    pub fn holding(initial: Blocks, blocks: Blocks) -> HeldWords
        ensures words { (s : ℕ) → 1 ≤ s → s ≤ 30 → block_in result s ≡ get_or blocks (s - 1) [] }
        ensures initial { result.initial ≡ initial }
    {
        HeldWords {
            initial,
            blocks,
            changed: [true; 30],
        }
    }

    /// Gives the same once more.
    pub fn copy(&self) -> HeldWords
        ensures { result ≡ self.now }
    {
        HeldWords {
            initial: self.initial,
            blocks: self.blocks,
            changed: self.changed,
        }
    }

    /// Lends the words of a subaddress, 1 to 30.
    #[inline(always)]
    pub fn block(&self, subaddress: u8) -> &[u16]
        requires low { 1 ≤ subaddress }
        requires high { subaddress ≤ 30 }
        ensures words { result.now ≡ block_in self.now subaddress }
        ensures len { length result.now ≡ 32 }
    {
        let at = subaddress as usize - 1;
        if self.changed[at] {
            &self.blocks[at]
        } else {
            &self.initial[at]
        }
    }

    /// Lends the words `first` to `last`, 1 to 32, of a subaddress, 1 to 30. Where they are not there, none.
    #[inline(always)]
    pub fn words(&self, subaddress: u8, first: u8, last: u8) -> &[u16]
        ensures words { is_data_place subaddress last ≡ true → 1 ≤ first → first ≤ last → result.now ≡ take (last - (first - 1)) (drop (first - 1) (block_in self.now subaddress)) }
        ensures len { is_data_place subaddress last ≡ true → 1 ≤ first → first ≤ last → length result.now ≡ last - (first - 1) }
        ensures none { last < first → result.now ≡ [] }
    {
        match WordPlace::of(subaddress, last) {
            Some(place) if 1 <= first && first <= last => {
                let words = self.block(place.subaddress());
                &words[first as usize - 1..place.number() as usize]
            }
            _ => &[],
        }
    }

    /// Makes the block of a subaddress one of its own, unless it is.
    fn own_block(&mut self, subaddress: u8)
        requires low { 1 ≤ subaddress }
        requires high { subaddress ≤ 30 }
        ensures same { (s : ℕ) → block_in self.new s ≡ block_in self.old s }
        ensures own { get_or self.new.changed (subaddress - 1) false ≡ true }
        ensures initial { self.new.initial ≡ self.old.initial }
    {
        let at = subaddress as usize - 1;
        if !self.changed[at] {
            self.blocks[at] = self.initial[at];
            self.changed[at] = true;
        }
    }

    /// Makes word `number`, 1 to 32, of a subaddress this one.
    pub fn write(&mut self, subaddress: u8, number: u8, value: u16)
        requires low { 1 ≤ subaddress }
        requires high { subaddress ≤ 30 }
        requires first { 1 ≤ number }
        requires last { number ≤ 32 }
        ensures words { (s i : ℕ) → 1 ≤ s → s ≤ 30 → 1 ≤ i → i ≤ 32 → word_in self.new s i ≡ (if (subaddress == s) && (number == i) then value else word_in self.old s i) }
        ensures initial { self.new.initial ≡ self.old.initial }
    {
        self.own_block(subaddress);
        put_one(
            &mut self.blocks[subaddress as usize - 1],
            number as usize - 1,
            value,
        );
    }

    /// Makes the first words of a subaddress these.
    #[inline(never)]
    fn replace(&mut self, subaddress: u8, words: &[u16])
        requires low { 1 ≤ subaddress }
        requires high { subaddress ≤ 30 }
        requires few { length words.now ≤ 32 }
        ensures words { (s i : ℕ) → 1 ≤ s → s ≤ 30 → 1 ≤ i → i ≤ 32 → word_in self.new s i ≡ (if (subaddress == s) && nat_le i (length words.now) then get_or words.now (i - 1) 0 else word_in self.old s i) }
        ensures initial { self.new.initial ≡ self.old.initial }
    {
        self.own_block(subaddress);
        put_first(&mut self.blocks[subaddress as usize - 1], words);
    }

    /// Gives word `number`, 1 to 32, of a subaddress, 1 to 30. Where there is none, 0000.
    #[inline(always)]
    pub fn word(&self, subaddress: u8, number: u8) -> u16
        ensures { is_data_place subaddress number ≡ true → result ≡ word_in self.now subaddress number }
    {
        match WordPlace::of(subaddress, number) {
            Some(place) => {
                let block = self.block(place.subaddress());
                block[place.number() as usize - 1]
            }
            None => 0,
        }
    }

    /// Takes the end of a message, with these words, or of none. Words that were received at the wraparound
    /// subaddress, 1 to 30 or 0 for none, are held there; a reset brings the words of power-up back.
    #[inline(always)]
    pub fn settle(&mut self, wrap: u8, resets: bool, ended: &Ended, words: &[u16])
        requires wrap { wrap ≤ 30 }
        requires few { length words.now ≤ 32 }
        ensures words { (s i : ℕ) → 1 ≤ s → s ≤ 30 → 1 ≤ i → i ≤ 32 → word_in self.new s i ≡ held_after self.old wrap s i resets (ending_of ended.now words.now) }
        ensures initial { self.new.initial ≡ self.old.initial }
    {
        if resets {
            self.reset();
        } else {
            self.receive(wrap, ended, words);
        }
    }

    /// Takes the end of a message, with these words, that resets nothing.
    #[inline(always)]
    fn receive(&mut self, wrap: u8, ended: &Ended, words: &[u16])
        requires wrap { wrap ≤ 30 }
        requires few { length words.now ≤ 32 }
        ensures words { (s i : ℕ) → 1 ≤ s → s ≤ 30 → 1 ≤ i → i ≤ 32 → word_in self.new s i ≡ or_else (wrapped wrap s i (ending_of ended.now words.now)) (word_in self.old s i) }
        ensures initial { self.new.initial ≡ self.old.initial }
    {
        match ended {
            Ended::Done(_, Cell::OwnReceive(subaddress, _) | Cell::BroadReceive(subaddress, _)) =>
                self.wrap_around(wrap, *subaddress, words),
            _ => {}
        }
    }

    /// Holds the words that were received at a subaddress there, if it is that of wraparound.
    #[inline(always)]
    fn wrap_around(&mut self, wrap: u8, subaddress: u8, words: &[u16])
        requires wrap { wrap ≤ 30 }
        requires few { length words.now ≤ 32 }
        ensures words { (s i : ℕ) → 1 ≤ s → s ≤ 30 → 1 ≤ i → i ≤ 32 → word_in self.new s i ≡ or_else (wrapped_at wrap s i subaddress words.now) (word_in self.old s i) }
        ensures initial { self.new.initial ≡ self.old.initial }
    {
        if wrap != 0 && subaddress == wrap {
            self.replace(subaddress, words);
        }
    }

    /// Goes back to those of power-up.
    #[inline(never)]
    pub fn reset(&mut self)
        ensures words { (s : ℕ) → block_in self.new s ≡ get_or self.old.initial (s - 1) [] }
        ensures initial { self.new.initial ≡ self.old.initial }
    {
        self.changed = [false; 30];
    }
}

/// Makes the first elements these.
fn put_first(block: &mut [u16], words: &[u16])
    requires { length words.now ≤ length block.old }
    ensures { (k : ℕ) → get_or block.new k 0 ≡ (if nat_lt k (length words.now) then get_or words.now k 0 else get_or block.old k 0) }
{
    block[..words.len()].copy_from_slice(words);
}

/// Makes one element this.
fn put_one(block: &mut [u16], at: usize, value: u16)
    requires { at < length block.old }
    ensures { (k : ℕ) → get_or block.new k 0 ≡ (if at == k then value else get_or block.old k 0) }
{
    block[at] = value;
}
