//! Laws of the canonical text, and of terminals that are the same. Each is a function that does nothing, and whose contract is the law.
ghost use Rattle.std.specs.Prelude.{◌≡◌, ◌≤◌, ◌++◌, ℕ, List, [], length};
ghost use Rattle.line_format.specs.Answers.{LineAnswer, LineAnswers};
ghost use Rattle.bus_legal.specs.Parts.{Parts, description_in, IsNormal};
ghost use Rattle.terminal_rules.specs.Same.{Same};
ghost use Rattle.bus_canon.specs.Canon.{is_read, canon, Text, AnyText};

/// Every `Normal` has a canonical text, of version 2.
pub fn normals_have_texts()
    ensures { (v : Parts) → IsNormal v → (bytes : List ℕ) × Text v bytes }
{}

/// A canonical text of either version is that of a `Normal`.
pub fn texts_are_of_normals()
    ensures { (v : Parts) (bytes : List ℕ) → AnyText v bytes → IsNormal v }
{}

/// A canonical text of either version means one value.
pub fn texts_mean_one_value()
    ensures { (v w : Parts) (bytes : List ℕ) → AnyText v bytes → AnyText w bytes → v ≡ w }
{}

/// The text that is written is one that is read.
pub fn written_texts_are_read()
    ensures { (v : Parts) (bytes : List ℕ) → Text v bytes → AnyText v bytes }
{}

/// A value has one canonical text that is written.
pub fn values_have_one_text()
    ensures { (v : Parts) (a b : List ℕ) → Text v a → Text v b → a ≡ b }
{}

/// No canonical text is a proper prefix of another, of the same version or the other.
pub fn no_text_begins_another()
    ensures { (v w : Parts) (bytes more : List ℕ) → AnyText v bytes → AnyText w (bytes ++ more) → more ≡ [] }
{}

/// Canonical texts have from 1,520 to 7,618 bytes.
pub fn texts_are_short()
    ensures least { (v : Parts) (bytes : List ℕ) → AnyText v bytes → 1520 ≤ length bytes }
    ensures most { (v : Parts) (bytes : List ℕ) → AnyText v bytes → length bytes ≤ 7618 }
{}

/// Some bytes have one answer.
pub fn bytes_have_one_answer()
    ensures { (bytes : List ℕ) (r s : LineAnswer Parts) → LineAnswers (canon is_read) bytes r → LineAnswers (canon is_read) bytes s → r ≡ s }
{}

/// Terminals that are the same have the same in reach.
pub fn same_terminals_are_equal()
    ensures { (v w : Parts) → IsNormal v → IsNormal w → Same (description_in v) (description_in w) → v ≡ w }
{}
