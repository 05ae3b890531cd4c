//! Where masks and tables first differ.
ghost use Rattle.std.specs.Prelude.{get_or};
ghost use Rattle.bus_legal.specs.Description.{word_at};
ghost use Rattle.bus_legal.specs.Tables.{has_count};
ghost use Rattle.bus_word.specs.Mask.{has_bit};
ghost use Rattle.bus_canon.specs.inner.Search.{FindsNumber, FindsPlace};

/// The lowest bit in which two masks differ, 0 to 31.
pub fn first_bit(ours: u32, theirs: u32) -> Option<u8>
    ensures { FindsNumber 32 (has_bit ours) (has_bit theirs) result }
{
    if ours == theirs {
        None
    } else {
        Some((ours ^ theirs).trailing_zeros() as u8)
    }
}

/// The subaddress, 1 to 30, and the word count, 1 to 32, in which the tables first differ.
pub fn first_count(ours: &[u32; 30], theirs: &[u32; 30]) -> Option<(u8, u8)>
    ensures { FindsPlace (has_count ours.now) (has_count theirs.now) result }
{
    for subaddress in 1..31u8 {
        let index = usize::from(subaddress) - 1;
        if let Some(bit) = first_bit(ours[index], theirs[index]) {
            return Some((subaddress, bit + 1));
        }
    }
    None
}

/// Gives the index, 0 to 31, at which the words first differ.
fn first_index(ours: &[u16; 32], theirs: &[u16; 32]) -> Option<u8>
    ensures { FindsNumber 32 (λ i. get_or ours.now i 0) (λ i. get_or theirs.now i 0) result }
{
    for index in 0..32u8 {
        let at = usize::from(index);
        if ours[at] != theirs[at] {
            return Some(index);
        }
    }
    None
}

/// The subaddress, 1 to 30, and the number, 1 to 32, of the first word that differs.
pub fn first_word(ours: &[[u16; 32]; 30], theirs: &[[u16; 32]; 30]) -> Option<(u8, u8)>
    ensures { FindsPlace (word_at ours.now) (word_at theirs.now) result }
{
    for subaddress in 1..31u8 {
        let index = usize::from(subaddress) - 1;
        if let Some(index) = first_index(&ours[index], &theirs[index]) {
            return Some((subaddress, index + 1));
        }
    }
    None
}
