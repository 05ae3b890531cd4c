//! Laws of saved states. Each is a function that does nothing, and whose contract is the law.
ghost use Rattle.std.specs.Prelude.{◌≡◌, ◌≤◌, List, ℕ, length};
ghost use Rattle.bus_legal.specs.Description.{Description};
ghost use Rattle.bus_legal.specs.Parts.{Parts};
ghost use Rattle.bus_legal.specs.Tables.{tables_say};
ghost use Rattle.terminal_rules.specs.declared.event.Event.{Event};
ghost use Rattle.bus_terminal.specs.declared.terminal.Terminal.{Terminal};
ghost use Rattle.bus_terminal.specs.Stands.{StandsAt};
ghost use Rattle.rt1553_live.specs.State.{State, state_of, IsMade};
ghost use Rattle.rt1553_live.specs.Text.{StateText};

/// A terminal of the same state stands wherever the other one stands.
pub fn states_answer_alike()
    ensures { (t u : Terminal Parts) → IsMade t → IsMade u → state_of t ≡ state_of u → (P : Description) (h : List Event)
        → StandsAt (λ (normal : Parts). tables_say normal.tables) P h t → StandsAt (λ (normal : Parts). tables_say normal.tables) P h u }
{}

/// A text is that of one state.
pub fn texts_mean_one_state()
    ensures { (s t : State) (bytes : List ℕ) → StateText s bytes → StateText t bytes → s ≡ t }
{}

/// A state has one text.
pub fn states_have_one_text()
    ensures { (s : State) (a b : List ℕ) → StateText s a → StateText s b → a ≡ b }
{}

/// The text of a state has at most 13,028 bytes.
pub fn state_texts_are_short()
    ensures { (s : State) (bytes : List ℕ) → StateText s bytes → length bytes ≤ 13028 }
{}
