//! Laws over the definitions. Each function does nothing, and its contract is the law.

ghost use Rattle.bus_word.specs.Laws.{OneValidWord};
ghost use Rattle.terminal_exchanges.specs.ExchangeLaws.{MeantExchangeLaw, UnmeantExchangeLaw};

/// What a terminal answers to a command with its data words, a gap and slots, after nothing but such exchanges: if the
/// command is for it, what its message hands over and its reply, else nothing.
pub fn one_exchange()
    ensures meant { MeantExchangeLaw }
    ensures unmeant { UnmeantExchangeLaw }
    ensures valid_words { OneValidWord }
{}
