//! Who can be asked whether a cell is legal.
ghost use Rattle.std.specs.Prelude.{◌≡◌};

use bus_word::Cell;

/// What answers whether a cell is legal, without error and without taking memory.
pub trait Legality {
    ghost use Rattle.bus_word.specs.declared.cell.Cell.{Cell};
    ghost use Rattle.std.specs.Prelude.{Bool};

    /// The cells that are legal.
    ghost is_legal: { Self → Cell → Bool };

    /// Whether the cell is legal.
    fn legal(&self, cell: Cell) -> bool
        ensures { result ≡ is_legal self.now cell };
}
