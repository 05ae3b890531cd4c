//! Laws over the definitions. Each is a function that does nothing, and whose contract is the law.
ghost use Rattle.std.specs.Prelude.{◌≡◌, ◌↔◌, ◌≤◌, ◌==◌, ℕ, List, Bool, true};
ghost use Rattle.bus_word.specs.declared.cell.Cell.{Cell};
ghost use Rattle.bus_word.specs.declared.cell.Cell.TheVariants.{OwnMode};
ghost use Rattle.bus_word.specs.Cell.{is_allowed};
ghost use Rattle.bus_word.specs.Mode.{is_required_code};
ghost use Rattle.bus_legal.specs.declared.entries.Rule.{Rule};
ghost use Rattle.bus_legal.specs.declared.entries.ModeRule.{ModeRule};
ghost use Rattle.bus_legal.specs.declared.profile.Profile.{Profile};
ghost use Rattle.bus_legal.specs.OwnCodes.{is_own_code_legal};
ghost use Rattle.bus_legal.specs.Plain.{plain};
ghost use Rattle.bus_legal.specs.declared.setup.Setup.{Setup};
ghost use Rattle.bus_legal.specs.Description.{Description, described};
ghost use Rattle.bus_legal.specs.Legal.{is_legal};
ghost use Rattle.bus_legal.specs.Meaning.{description_of, SetsUp};
ghost use Rattle.bus_legal.specs.Reach.{is_heard, transmits_at, receives_at, reach};
ghost use Rattle.bus_legal.specs.Tables.{tables_say};
ghost use Rattle.bus_legal.specs.Parts.{Parts, parts_of, description_in, AreInRange, AreReached, IsNormal};

/// Every legal cell is one that some command has.
pub fn legal_cells_are_allowed()
    ensures { (rules : List Rule) (modes : List ModeRule) (cell : Cell) → is_legal rules modes cell ≡ true → is_allowed cell ≡ true }
{}

/// Of the own mode codes just those are legal that the reader of profiles takes for legal.
pub fn own_codes_are_legal_alike()
    ensures { (rules : List Rule) (modes : List ModeRule) (code : ℕ) → is_legal rules modes (OwnMode code) ≡ is_own_code_legal modes code }
{}

/// In every profile the own mode codes that must be legal are.
pub fn required_codes_are_legal()
    ensures { (p : Profile) (code : ℕ) → is_required_code code ≡ true → is_legal p.rules p.modes (OwnMode code) ≡ true }
{}

/// A profile's description depends on its plain values alone.
pub fn plain_profiles_describe_alike()
    ensures { (p q : Profile) → plain p ≡ plain q → description_of p ≡ description_of q }
{}

/// What can be reached of what can be reached is all of it.
pub fn reach_twice()
    ensures { (P : Description) → reach (reach P) ≡ reach P }
{}

/// What is legal of the commands that are meant for the terminal stays so in what can be reached.
pub fn reach_keeps_heard_cells()
    ensures { (P : Description) (cell : Cell) → is_heard P.broadcast cell ≡ true → (reach P).legal cell ≡ P.legal cell }
{}

/// The words that a legal transmit command asks for stay in what can be reached.
pub fn reach_keeps_sent_words()
    ensures { (P : Description) (s n i : ℕ) → transmits_at P s n ≡ true → n ≤ 32 → 1 ≤ i → i ≤ n → (reach P).initial s i ≡ P.initial s i }
{}

/// Wraparound stays in what can be reached where a legal receive command and a legal transmit
/// command show it.
pub fn reach_keeps_shown_wraparound()
    ensures { (P : Description) (s m n : ℕ) → 1 ≤ s → receives_at P s m ≡ true → 1 ≤ m → m ≤ 32
        → transmits_at P s n ≡ true → 1 ≤ n → n ≤ 32 → (s == (reach P).wrap) ≡ (s == P.wrap) }
{}

/// A terminal that is set up by a profile, with a legality that is the profile's, is described as the
/// profile is.
pub fn set_up_by_profile()
    ensures { (p : Profile) (setup : Setup) (means : Cell → Bool) → SetsUp p setup
        → ((cell : Cell) → means cell ≡ is_legal p.rules p.modes cell)
        → described setup means ≡ description_of p }
{}

/// All of a `Normal` can be reached.
pub fn normal_is_reached()
    ensures { (v : Parts) → IsNormal v → reach (description_in v) ≡ description_in v }
{}

/// A `Normal` is what is its own reached part, with the own mode codes legal that must be, among the
/// parts within their ranges.
pub fn normals_are_reached()
    ensures in_range { (v : Parts) → IsNormal v → AreInRange v }
    ensures exactly { (v : Parts) → AreInRange v → IsNormal v ↔ AreReached v }
{}

/// In every `Normal` the own mode codes that must be legal are.
pub fn normal_has_required_codes()
    ensures { (v : Parts) → IsNormal v → (code : ℕ) → is_required_code code ≡ true → tables_say v.tables (OwnMode code) ≡ true }
{}

/// A terminal that is set up by a `Normal`, with its legality, is described as the `Normal` is.
pub fn set_up_by_normal()
    ensures { (v : Parts) (setup : Setup) → parts_of setup v.tables ≡ v → described setup (tables_say v.tables) ≡ description_in v }
{}

/// `Normal`s that describe the same are the same.
pub fn same_normals()
    ensures { (v w : Parts) → IsNormal v → IsNormal w → description_in v ≡ description_in w → v ≡ w }
{}
