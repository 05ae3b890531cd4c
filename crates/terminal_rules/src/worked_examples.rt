//! Worked examples. Each function does nothing, and its contract is a family of rows, under their names: a set-up, events from
//! power-up on, and the answer to each.

ghost use Rattle.terminal_rules.specs.WorkedExamples.Effects.{EffectRows};
ghost use Rattle.terminal_rules.specs.WorkedExamples.Messages.{MessageRows};
ghost use Rattle.terminal_rules.specs.WorkedExamples.Modes.{ModeCodeRows};
ghost use Rattle.terminal_rules.specs.WorkedExamples.Replies.{ReplyRows};
ghost use Rattle.terminal_rules.specs.WorkedExamples.Runs.{RunRows};
ghost use Rattle.terminal_rules.specs.WorkedExamples.Transfers.{TransferRows, TwoBusRows};
ghost use Rattle.terminal_rules.specs.WorkedExamples.Waiting.{WaitingRows};

/// Messages of a bus controller.
pub fn messages()
    ensures { MessageRows }
{}

/// Transfers between two terminals.
pub fn transfers()
    ensures { TransferRows }
{}

/// Commands on both buses.
pub fn two_buses()
    ensures { TwoBusRows }
{}

/// Mode codes, flags, and what is held ready.
pub fn mode_codes()
    ensures { ModeCodeRows }
{}

/// Replies that take time.
pub fn replies()
    ensures { ReplyRows }
{}

/// Which transfers wait, and for what.
pub fn waiting()
    ensures { WaitingRows }
{}

/// What follows a command in its run.
pub fn runs()
    ensures { RunRows }
{}

/// What a message leaves.
pub fn effects()
    ensures { EffectRows }
{}
