//! Lines of words, answered one after the other.
ghost use Rattle.std.specs.Prelude.{◌≡◌, ◌≤◌, ◌<◌, ◌+◌, ◌-◌, ◌^◌, true, length, IfOk, IfErr, IfSome, IsErrOf};
ghost use Rattle.std.specs.Io.KnownBytes.{Appends};
ghost use Rattle.bus_word.specs.Word.{bit_of};
ghost use Rattle.script_lines.specs.Text.{lines_of};
ghost use Rattle.rt1553_tool.specs.WordTexts.{word_answer, is_refused_line, word_answers, refused_count};
ghost use Rattle.rt1553_tool.specs.inner.Told.{TellsLine};

use crate::input::{ServeFault, hand_on, put, take_line};
use crate::word_texts::answer_word_line;
use arrayvec::ArrayVec;
use byte_streams::{Sink, Source};

/// The bytes of a line that are kept: one more than it may have tells that it is too long.
type Line = ArrayVec<u8, 129>;

/// Writes what answers a line, and gives whether the line is refused.
fn put_answer<W: Sink>(sink: &mut W, line: &[u8]) -> Result<bool, ServeFault>
    ensures ok { IfOk result (λ refused. (refused ≡ is_refused_line line.now) × Appends (W.written sink.old) (W.written sink.new) (word_answer line.now)) }
    ensures fault { IfErr result (λ fault. (fault ≡ ServeFault.Write) × (W.has_failed sink.new ≡ true)) }
{
    let (answer, refused) = answer_word_line(line);
    if let Err(fault) = put(sink, answer.as_str().as_bytes()) {
        return Err(fault);
    }
    match hand_on(sink) {
        Ok(()) => Ok(refused),
        Err(fault) => Err(fault),
    }
}

/// Answers the next line, and gives whether it is refused; None where there is no line.
fn answer_line<S: Source, W: Sink>(
    source: &mut S,
    sink: &mut W,
    line: &mut Line,
) -> Result<Option<bool>, ServeFault>
    ensures ok { IfOk result (λ found. IfSome (S.left source.old) (λ xs. TellsLine (W.written sink.old) (W.written sink.new) found xs (S.left source.new))) }
    ensures read { IsErrOf result ServeFault.Read → S.has_failed source.new ≡ true }
    ensures write { IsErrOf result ServeFault.Write → W.has_failed sink.new ≡ true }
    ensures long { IsErrOf result ServeFault.TooLong → IfSome (S.left source.old) (λ xs. 2 ^ 64 - 1 ≤ length xs) }
{
    match take_line(source, line) {
        Err(fault) => Err(fault),
        Ok(false) => Ok(None),
        Ok(true) => match put_answer(sink, line.as_slice()) {
            Ok(refused) => Ok(Some(refused)),
            Err(fault) => Err(fault),
        },
    }
}

/// Counts a line that is refused.
fn counted(refused: u64, is_refused_line: bool) -> u64
    requires { refused < 2 ^ 64 - 1 }
    ensures { result ≡ refused + bit_of is_refused_line }
{
    if is_refused_line {
        refused + 1
    } else {
        refused
    }
}

/// Answers lines of words till there are no more, each by one line, and gives how many were refused. An answer is handed on
/// before the next line is read. Of a line that is too long no more than 129 bytes are kept.
pub fn answer_words<S: Source, W: Sink>(source: &mut S, sink: &mut W) -> Result<u64, ServeFault>
    ensures ok { IfOk result (λ refused. IfSome (S.left source.old) (λ input. (refused ≡ refused_count (lines_of input))
        × Appends (W.written sink.old) (W.written sink.new) (word_answers (lines_of input)))) }
    ensures read { IsErrOf result ServeFault.Read → S.has_failed source.new ≡ true }
    ensures write { IsErrOf result ServeFault.Write → W.has_failed sink.new ≡ true }
    ensures long { IsErrOf result ServeFault.TooLong → IfSome (S.left source.old) (λ input. 2 ^ 64 - 1 ≤ length input) }
{
    let mut refused = 0u64;
    let mut line = Line::new();
    for _turn in 0..u64::MAX {
        match answer_line(source, sink, &mut line) {
            Ok(Some(is_refused_line)) => refused = counted(refused, is_refused_line),
            Ok(None) => return Ok(refused),
            Err(fault) => return Err(fault),
        }
    }
    Err(ServeFault::TooLong)
}
