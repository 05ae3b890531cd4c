//! Laws of texts of lines. Each is a function that does nothing, and whose contract is the law.
ghost use Rattle.std.specs.Prelude.{◌≡◌, ◌↔◌, ℕ, List, ◌++◌, Some};
ghost use Rattle.line_format.specs.Format.{Format, Shape, Allows, spell, IsSound};
ghost use Rattle.line_format.specs.Reading.{start, line_at, read, answer_found};
ghost use Rattle.line_format.specs.Answers.{LineAnswers};

/// What is found where a format is read from the start of some bytes is the answer of these bytes, for each format
/// whose lines may hold something, whatever came before them.
pub fn reading_answers<A>()
    ensures { (F : Format A) (bytes : List ℕ) → IsSound F → LineAnswers F bytes (answer_found (read F (start bytes))) }
{}

/// What is found of a line at the front of some bytes is just what these bytes spell.
pub fn lines_are_read_as_spelled()
    ensures { (s : Shape) (xs rest bytes : List ℕ) → (line_at s bytes ≡ Some (xs, rest)) ↔ (Allows s xs × (bytes ≡ spell s xs ++ rest)) }
{}
