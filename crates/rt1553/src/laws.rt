//! Laws over the definitions. Each is a function that does nothing, and whose contract is the law.
ghost use Rattle.rt1553.specs.Load.{OnlyMemoryRefuses};
ghost use Rattle.rt1553.specs.Canon.{CanonIsItsOwn, OneCanon, AcceptedHaveCanon, FaultlessHaveCanon, CanonTextsHaveCanon, OneDescription};
ghost use Rattle.rt1553.specs.Compare.{Headline};

/// Canonical bytes are accepted and are their own; a text has some exactly if it is accepted, and has no others.
pub fn canonical_bytes()
    ensures own { CanonIsItsOwn }
    ensures some { AcceptedHaveCanon }
    ensures one { OneCanon }
{}

/// Each accepted text has canonical bytes: a canonical text, and a profile text whose tree has no fault. A profile
/// text whose tree has a fault has none.
pub fn accepted_texts_have_canonical_bytes()
    ensures canonical { CanonTextsHaveCanon }
    ensures profile { FaultlessHaveCanon }
{}

/// An accepted text is refused only when memory runs out.
pub fn only_memory_refuses_accepted_texts()
    ensures { OnlyMemoryRefuses }
{}

/// An accepted text is of one description.
pub fn one_description()
    ensures { OneDescription }
{}

/// The canonical bytes of two accepted texts are equal exactly if their terminals answer alike for ever.
pub fn same_bytes_same_terminal()
    ensures { Headline }
{}
