//! The statements that give an array of the root its items.
ghost use Rattle.std.specs.Prelude.{◌≡◌, ◌<◌, ◌+◌, length, drop, map, IfSome, IfOk, None, Some, option_copied};
ghost use Rattle.toml_places.specs.Places.{is_there};
ghost use Rattle.toml_places.specs.Besides.{item_besides};
ghost use Rattle.toml_places.specs.Search.{whole_from, entries_from, index_of_item};
ghost use Rattle.toml_places.specs.Statements.{whole_names, name_behind, IsPlace};

use crate::Statement;
use crate::besides::name_besides;
use crate::names::{adds_entry, begins_both, gives_whole, header_after};
use std::alloc::{AllocError, Global};

/// The statements that give the items of an array at a key of the root, as `array_places` finds them.
#[derive(Drop)]
pub struct ArrayPlaces<'a> {
    /// The statements of the text.
    pub statements: &'a [Statement],
    /// The key of the array.
    pub key: &'a str,
    /// The pair that gives the whole array, where there is one.
    whole: Option<usize>,
    /// The headers that add an item each.
    entries: Vec<usize>,
    ghost whole_is: { whole ≡ whole_from 0 key.now (whole_names statements.now) },
    ghost entries_are: { entries.items ≡ entries_from 0 key.now (whole_names statements.now) },
}

/// The first statement that gives a name in the item of the header with this index.
fn name_place(statements: &[Statement], key: &str, entry: usize, name: &str) -> Option<usize>
    requires { entry < length statements.now }
    ensures index { result ≡ name_behind entry key.now name.now (drop entry statements.now) }
    ensures within { IfSome result (λ j. j < length statements.now) }
{
    let mut section = Some(&statements[entry].key);
    for i in entry + 1..statements.len() {
        let statement = &statements[i];
        if adds_entry(section, statement, key) {
            return None;
        }
        if begins_both(section, statement, key, name) {
            return Some(i);
        }
        section = header_after(section, statement);
    }
    None
}

/// The statements that give the items of the array at a key of the root, among the statements of a text, which are given in
/// their order and read once. There may be none, and the key may hold no array.
///
/// # Errors
/// Memory ran out.
pub fn array_places<'a>(
    alloc: Global,
    statements: &'a [Statement],
    key: &'a str,
) -> Result<ArrayPlaces<'a>, AllocError>
    ensures { IfOk result (λ places. (places.statements.now ≡ statements.now) × (places.key.now ≡ key.now)) }
{
    let mut whole = None;
    let mut entries = Vec::new(alloc);
    let mut section = None;
    for (i, statement) in statements.iter().enumerate() {
        if whole.is_none() && gives_whole(section, statement, key) {
            whole = Some(i);
        }
        if adds_entry(section, statement, key) {
            entries.push(i)?;
        }
        section = header_after(section, statement);
    }
    Ok(ArrayPlaces {
        statements,
        key,
        whole,
        entries,
    })
}

impl ArrayPlaces<'_> {
    /// The statement that gives the item of an index, or the item a key.
    fn find(&self, index: usize, name: Option<&str>) -> Option<usize>
        ensures index { result ≡ index_of_item self.now.key.now index (option_copied name.entry) (whole_names self.now.statements.now) }
        ensures within { IfSome result (λ j. j < length self.now.statements.now) }
    {
        if self.whole.is_some() {
            return self.whole;
        }
        match (self.entries.as_slice().get(index), name) {
            (Some(entry), Some(name)) => name_place(self.statements, self.key, *entry, name),
            (Some(entry), None) => Some(*entry),
            (None, _) => None,
        }
    }

    /// The statement that gives the item of an index, the first of which is 0: its index among the statements of the text.
    ///
    /// It is the header that adds the item, or the pair that gives the whole array, and None where there is neither.
    pub fn entry(&self, index: usize) -> Option<usize>
        ensures gives { IsPlace (is_there self.now.key.now (Some index) None) self.now.statements.now result }
        ensures index { result ≡ index_of_item self.now.key.now index None (whole_names self.now.statements.now) }
        ensures within { IfSome result (λ j. j < length self.now.statements.now) }
    {
        self.find(index, None)
    }

    /// The statement that gives the item of an index a key: its index among the statements of the text.
    ///
    /// It is the first between the item's header and the next one whose whole name begins with the array's key and this one,
    /// or the pair that gives the whole array, and None where there is neither. Only the statements of the item are read.
    pub fn name(&self, index: usize, name: &str) -> Option<usize>
        ensures gives { IsPlace (is_there self.now.key.now (Some index) (Some name.now)) self.now.statements.now result }
        ensures index { result ≡ index_of_item self.now.key.now index (Some name.now) (whole_names self.now.statements.now) }
        ensures within { IfSome result (λ j. j < length self.now.statements.now) }
    {
        self.find(index, Some(name))
    }

    /// The first name that the statements behind the header of the item of an index give it and that is none of these; None where there
    /// is none. Of an array that a pair gives whole it is None too: no value is read.
    pub fn name_besides(&self, index: usize, known: &[&str]) -> Option<&str>
        ensures { option_copied result ≡ item_besides self.entry.now.key.now index (map (λ k. k.now) known.now) self.entry.now.statements.now }
    {
        match self.entries.as_slice().get(index) {
            Some(entry) => name_besides(self.statements, self.key, *entry, known),
            None => None,
        }
    }
}
