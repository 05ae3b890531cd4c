//! Laws of what the searches answer. Each function does nothing, and its contract is the law.

ghost use Rattle.toml_places.specs.Law.{NoOtherKey, NoOtherName, OtherKey, OtherName};

/// What `key_besides` and `ArrayPlaces::name_besides` answer of other names is what the document has: the one that is answered, and none
/// where it is None.
pub fn other_names()
    ensures no_key { NoOtherKey }
    ensures no_name { NoOtherName }
    ensures key { OtherKey }
    ensures name { OtherName }
{}
