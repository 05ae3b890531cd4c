//! Laws over the definitions. Each is a function that does nothing and whose contract is the law.
ghost use Rattle.std.specs.Prelude.{ℕ, List, ◌↔◌};
ghost use Rattle.toml.specs.Data.{Members};
ghost use Rattle.bus_legal.specs.declared.profile.Profile.{Profile};
ghost use Rattle.bus_profile.specs.Checks.{HasNoFault};
ghost use Rattle.bus_profile.specs.Faults.{faults};
ghost use Rattle.bus_profile.specs.Read.{IsTree, Accepts};

/// The tree of a TOML document has no fault exactly if it gives a profile.
pub fn faultless_trees_give_profiles()
    ensures { (text : List ℕ) (tree : Members) → IsTree text tree → HasNoFault (faults tree) ↔ ((profile : Profile) × Accepts text profile) }
{}
