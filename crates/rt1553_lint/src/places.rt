//! Where in a profile text its entries stand, and their keys.
ghost use Rattle.std.specs.Prelude.{◌≡◌, ◌≤◌, ◌<◌, All, IfOk, IfSome, codes, get_or, length, map, option_copied, option_map};
ghost use Rattle.toml_places.specs.Statements.{IsPlace};
ghost use Rattle.rt1553_lint.specs.Places.{AreStatementsOf, has_entry, has_key, has_spare, setting_key, first_besides};
ghost use Rattle.rt1553_lint.specs.Positions.{position_in};
ghost use Rattle.rt1553_lint.specs.Standing.{IsAt, IsAtPart, IsAtKey};

use crate::finding::Position;
use crate::lines::{position_at, positions_of};
use crate::tree::index_of;
use bus_profile::{Key, Part};
use spare_entries::{Setting, SparePlace};
use std::alloc::{AllocError, Global};
use toml_places::{ArrayPlaces, Statement, array_places, key_besides, key_place};

/// Where the statements of a profile text stand, and which of them give it its entries.
#[derive(Drop)]
pub struct Places<'a> {
    pub text: &'a [u8],
    statements: &'a [Statement],
    /// Those of the statements.
    positions: Vec<Position>,
    rules: ArrayPlaces<'a>,
    modes: ArrayPlaces<'a>,
    initials: ArrayPlaces<'a>,
    ghost read: { AreStatementsOf text.now statements.now },
    ghost placed: { positions.items ≡ map (λ s. position_in text.now s.at) statements.now },
    ghost of_rules: { (rules.statements.now ≡ statements.now) × (rules.key.now ≡ codes "rule") },
    ghost of_modes: { (modes.statements.now ≡ statements.now) × (modes.key.now ≡ codes "mode") },
    ghost of_initials: { (initials.statements.now ≡ statements.now) × (initials.key.now ≡ codes "initial") },
}

/// The places of a text with these statements. The only error is out of memory.
pub fn places_of<'a>(
    alloc: Global,
    text: &'a [u8],
    statements: &'a [Statement],
) -> Result<Places<'a>, AllocError>
    requires read { AreStatementsOf text.now statements.now }
    requires within { All (λ s. s.at ≤ length text.now) statements.now }
    ensures { IfOk result (λ places. places.text.now ≡ text.now) }
{
    Ok(Places {
        text,
        statements,
        positions: positions_of(alloc, text, statements)?,
        rules: array_places(alloc, statements, Key::Rule.name())?,
        modes: array_places(alloc, statements, Key::Mode.name())?,
        initials: array_places(alloc, statements, Key::Initial.name())?,
    })
}

/// The key that a setting is.
pub fn key_of(setting: Setting) -> Key
    ensures { result ≡ setting_key setting }
{
    match setting {
        Setting::Broadcast => Key::Broadcast,
        Setting::Wraparound => Key::Wraparound,
        Setting::AcceptBusControl => Key::AcceptBusControl,
        Setting::Vector => Key::Vector,
        Setting::Bit => Key::Bit,
    }
}

impl Places<'_> {
    /// The statement that gives the text an entry; None for the root.
    fn entry_statement(&self, part: Part) -> Option<usize>
        ensures gives { IsPlace (has_entry part) self.now.statements.now result }
        ensures within { IfSome result (λ j. j < length self.now.statements.now) }
    {
        match part {
            Part::Root => None,
            Part::Rule(number) => self.rules.entry(index_of(number)),
            Part::Mode(number) => self.modes.entry(index_of(number)),
            Part::Initial(number) => self.initials.entry(index_of(number)),
        }
    }

    /// The statement that gives the text a key of the root or of an entry.
    fn key_statement(&self, part: Part, name: &str) -> Option<usize>
        ensures gives { IsPlace (has_key part name.now) self.now.statements.now result }
        ensures within { IfSome result (λ j. j < length self.now.statements.now) }
    {
        match part {
            Part::Root => key_place(self.statements, name),
            Part::Rule(number) => self.rules.name(index_of(number), name),
            Part::Mode(number) => self.modes.name(index_of(number), name),
            Part::Initial(number) => self.initials.name(index_of(number), name),
        }
    }

    /// The statement that gives the text what may have no effect.
    fn spare_statement(&self, spare: SparePlace) -> Option<usize>
        ensures gives { IsPlace (has_spare spare) self.now.statements.now result }
        ensures within { IfSome result (λ j. j < length self.now.statements.now) }
    {
        match spare {
            SparePlace::Key(setting) => key_place(self.statements, key_of(setting).name()),
            SparePlace::Rule(index) => self.rules.entry(index),
            SparePlace::Mode(index) => self.modes.entry(index),
            SparePlace::Initial(index) => self.initials.entry(index),
            SparePlace::Word(index, _) => self.initials.name(index, Key::Words.name()),
        }
    }

    /// Where the statement of this index begins.
    fn statement_position(&self, statement: Option<usize>) -> Option<Position>
        requires { IfSome statement (λ j. j < length self.now.statements.now) }
        ensures { result ≡ option_map (λ j. position_in self.now.text.now (get_or (map (λ s. s.at) self.now.statements.now) j 0)) statement }
    {
        match statement {
            Some(index) => Some(self.positions[index]),
            None => None,
        }
    }

    /// Where an entry begins; the root begins with the text.
    pub fn part_position(&self, part: Part) -> Option<Position>
        ensures { IsAtPart part self.now.text.now result }
    {
        if part == Part::Root {
            return Some(position_at(self.text, 0));
        }
        self.statement_position(self.entry_statement(part))
    }

    /// Where a key of the root or of an entry stands: the statement that gives it.
    pub fn key_position(&self, part: Part, name: &str) -> Option<Position>
        ensures { IsAtKey part name.now self.now.text.now result }
    {
        self.statement_position(self.key_statement(part, name))
    }

    /// Where what may have no effect stands: a key of the root, an entry, or of a word the words of its entry.
    pub fn spare_position(&self, spare: SparePlace) -> Option<Position>
        ensures { IsAt (has_spare spare) self.now.text.now result }
    {
        self.statement_position(self.spare_statement(spare))
    }

    /// The first key of a part, in the order of the text, that is none of these; None where there is none, or where an array is
    /// written as one value.
    pub fn first_besides(&self, part: Part, known: &[&str]) -> Option<&str>
        ensures { option_copied result ≡ first_besides part (map (λ k. k.now) known.now) self.entry.now.statements.now }
    {
        match part {
            Part::Root => key_besides(self.statements, known),
            Part::Rule(number) => self.rules.name_besides(index_of(number), known),
            Part::Mode(number) => self.modes.name_besides(index_of(number), known),
            Part::Initial(number) => self.initials.name_besides(index_of(number), known),
        }
    }
}
