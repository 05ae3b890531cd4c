//! The laws of recordings. Each function does nothing, and its contract is a law, or worked examples.

ghost use Rattle.terminal_recordings.specs.Completion.{RecordingLaw};
ghost use Rattle.terminal_recordings.specs.Later.{LaterLaw};
ghost use Rattle.terminal_recordings.specs.LaterRows.{LaterRows};
ghost use Rattle.terminal_recordings.specs.Masks.{MaskLaw};
ghost use Rattle.terminal_recordings.specs.MaybeGaps.{MaybeLaw};
ghost use Rattle.terminal_recordings.specs.MaybeRows.{MaybeRows};
ghost use Rattle.terminal_recordings.specs.RecordingRows.{RecordingRows};

/// Some behaviour of the subsystem explains a recording, exactly if that which the recording itself tells does.
pub fn recordings()
    ensures { RecordingLaw }
{}

/// Recordings, each with whether a description explains it.
pub fn recording_rows()
    ensures { RecordingRows }
{}

/// A recording that begins later than power-up is explained exactly if it is shown after one of four beginnings.
pub fn later_recordings()
    ensures { LaterLaw }
{}

/// Recordings that begin later than power-up, each with whether a description explains it.
pub fn later_rows()
    ensures { LaterRows }
{}

/// A recording that leaves data words open is explained exactly if what is shown of it fits it.
pub fn masked_recordings()
    ensures { MaskLaw }
{}

/// A recording in which gaps may have come or not is explained somehow exactly if one of its ways is shown.
pub fn maybe_recordings()
    ensures { MaybeLaw }
{}

/// Recordings in which a gap may have come or not, each with whether a description explains it somehow.
pub fn maybe_rows()
    ensures { MaybeRows }
{}
