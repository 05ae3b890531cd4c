//! The reached part of a profile.
ghost use Rattle.std.specs.Prelude.{◌≡◌, ◌↔◌, IsTrue};
ghost use Rattle.bus_legal.specs.Tables.{tables_say};
ghost use Rattle.bus_legal.specs.Parts.{parts_of, IsNormal};

use crate::legality::Legality;
use crate::setup::Setup;
use crate::tables::Tables;
use bus_word::Cell;
pub use reached::normalise;

mod reached;

use std::marker::Model;

/// What of a profile any bus controller can reach: a set-up and the masks of the legal cells, with
/// nothing in them that can't be reached. A contract sees these parts.
#[derive(Clone, Copy, PartialEq, Eq, Debug)]
pub struct Normal {
    setup: Setup,
    tables: Tables,
}

impl Model for Normal {
    ghost use Rattle.bus_legal.specs.Parts.{Parts, parts_of, IsNormal};

    ghost Value = { Parts };

    ghost use Rattle.bus_legal.specs.inner.NormalView.{inside_of, inside_again};

    ghost view = { λ normal. parts_of normal.setup normal.tables };

    ghost invariant = { λ normal. IsNormal (parts_of normal.setup normal.tables) };

    ghost inverse = { inside_of };

    ghost inverse_ok = { inside_again };
}

impl Normal {
    /// The `Normal` of this set-up and these tables, in which nothing is that can't be reached.
    pub fn of(setup: Setup, tables: Tables) -> Normal
        requires { IsNormal (parts_of setup tables) }
        ensures { result ≡ parts_of setup tables }
    {
        Normal { setup, tables }
    }

    /// The set-up. With these parts of a `Normal` go the laws of `laws`.
    pub fn setup(&self) -> Setup
        ensures parts { parts_of result self.now.tables ≡ self.now }
        ensures normal { IsNormal self.now }
    {
        self.setup
    }

    /// The address, 0 to 30.
    pub fn address(&self) -> u8
        ensures { result ≡ self.now.address }
    {
        self.setup.address
    }

    /// The broadcast option.
    pub fn broadcast(&self) -> bool
        ensures { result ≡ self.now.broadcast }
    {
        self.setup.broadcast
    }

    /// The wraparound subaddress, 1 to 30, at which words that are received replace those held there; 0
    /// where there is none.
    pub fn wrap(&self) -> u8
        ensures { result ≡ self.now.wrap }
    {
        self.setup.wrap
    }

    /// Whether dynamic bus control is accepted.
    pub fn accept(&self) -> bool
        ensures { result ≡ self.now.accept }
    {
        self.setup.accept
    }

    /// The vector word.
    pub fn vector(&self) -> u16
        ensures { result ≡ self.now.vector }
    {
        self.setup.vector
    }

    /// The BIT word.
    pub fn bit(&self) -> u16
        ensures { result ≡ self.now.bit }
    {
        self.setup.bit
    }

    /// The words held: `initial()[s - 1][i - 1]` is number `i` of subaddress `s`.
    pub fn initial(&self) -> &[[u16; 32]; 30]
        ensures { result.now ≡ self.now.initial }
    {
        &self.setup.initial
    }

    /// The masks of the legal cells.
    pub fn tables(&self) -> &Tables
        ensures { result.now ≡ self.now.tables }
    {
        &self.tables
    }

    /// Whether the two are the same in every part.
    pub fn is_same(&self, other: &Normal) -> bool
        ensures { IsTrue result ↔ (self.now ≡ other.now) }
    {
        self.setup == other.setup && self.tables == other.tables
    }
}

impl Legality for Normal {
    ghost is_legal = { λ normal. tables_say normal.tables };

    #[inline(always)]
    fn legal(&self, cell: Cell) -> bool {
        self.tables.legal(cell)
    }
}
