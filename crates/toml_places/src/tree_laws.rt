//! What the statements of a document are to its tree. The functions do nothing, and their contracts are the laws.

ghost use Rattle.toml_places.specs.StatementsLaw.{LinesLaw, DocumentLaw};

/// The lines of a text leave the document that its statements define.
pub fn lines_define()
    ensures { LinesLaw }
{}

/// The tree of a text is what its statements define, one after another, from nothing.
pub fn tree_is_defined()
    ensures { DocumentLaw }
{}
