//! A profile is run over a script.
ghost use Rattle.std.specs.Prelude.{◌≡◌, ◌≤◌, true, false, IfOk, IfErr, IfSome, IsErrOf};
ghost use Rattle.bus_legal.specs.Description.{Description};
ghost use Rattle.bus_legal.specs.Reach.{reach};
ghost use Rattle.bus_legal.specs.Parts.{description_in};
ghost use Rattle.rt1553.specs.Load.{is_canon_text, IsNotLoaded, IsNoCanonText};
ghost use Rattle.rt1553.specs.Engine.{Completes, StopsBy, RunCompletes, RunStops, OnLoad, OnScript};

use crate::{EngineFault, load, load_canonical};
use bus_legal::Normal;
use bus_script::{RunFault, run_script};
use bus_terminal::Terminal;
use byte_streams::{Sink, Source};
use std::alloc::Global;

/// Runs the terminal of which this can be reached over a script, from power-up.
fn run_normal<R: Source, W: Sink>(
    normal: Normal,
    reader: &mut R,
    writer: &mut W,
) -> Result<u64, RunFault>
    requires reader { R.has_failed reader.old ≡ false }
    requires writer { W.has_failed writer.old ≡ false }
    ensures ok { (P : Description) → description_in normal ≡ reach P → IfOk result (λ n. IfSome (R.left reader.old) (λ script.
        Completes P script (W.written writer.old) (W.written writer.new) n)) }
    ensures stopped { (P : Description) → description_in normal ≡ reach P → IfErr result (λ f. IfSome (R.left reader.old) (λ script.
        StopsBy P script (R.left reader.old) (R.left reader.new) (W.written writer.old) (W.written writer.new) f)) }
    ensures read_failed { IsErrOf result RunFault.Read → R.has_failed reader.new ≡ true }
    ensures write_failed { IsErrOf result RunFault.Write → W.has_failed writer.new ≡ true }
{
    let setup = normal.setup();
    let mut terminal = Terminal::power_up(setup, normal);
    run_script(&mut terminal, reader, writer)
}

/// Runs a profile over a script and writes the transcript: for each event what the terminal sends and hands
/// over. Gives the number of events. The sink is flushed before each read that follows an event, and on
/// every way out, which no clause sees.
///
/// Refuses the profile before anything is read or written. A refused script leaves the transcript of the
/// lines before the refused one, and a failed read that of the whole lines that were read. Where the profile
/// is a canonical text, no memory is taken.
pub fn run<R: Source, W: Sink>(
    alloc: Global,
    profile: &[u8],
    reader: &mut R,
    writer: &mut W,
) -> Result<u64, EngineFault>
    requires reader { R.has_failed reader.old ≡ false }
    requires writer { W.has_failed writer.old ≡ false }

    ensures ok { IfOk result (RunCompletes profile.now (R.left reader.old) (W.written writer.old) (W.written writer.new)) }
    ensures not_loaded { IfErr result (λ fault. OnLoad fault (λ f.
        IsNotLoaded profile.now f × (reader.new ≡ reader.old) × (writer.new ≡ writer.old))) }
    ensures stopped { IfErr result (λ fault. OnScript fault
        (RunStops profile.now (R.left reader.old) (R.left reader.new) (W.written writer.old) (W.written writer.new))) }
    ensures read_failed { IsErrOf result (EngineFault.Script RunFault.Read) → R.has_failed reader.new ≡ true }
    ensures write_failed { IsErrOf result (EngineFault.Script RunFault.Write) → W.has_failed writer.new ≡ true }
{
    let normal = load(alloc, profile).map_err(EngineFault::Load)?;
    run_normal(normal, reader, writer).map_err(EngineFault::Script)
}

/// Runs the terminal of a canonical text, and of no other text, as `run` does. Takes no memory.
pub fn run_canonical<R: Source, W: Sink>(
    text: &[u8],
    reader: &mut R,
    writer: &mut W,
) -> Result<u64, EngineFault>
    requires reader { R.has_failed reader.old ≡ false }
    requires writer { W.has_failed writer.old ≡ false }

    ensures ok { IfOk result (RunCompletes text.now (R.left reader.old) (W.written writer.old) (W.written writer.new)) }
    ensures canonical { IfOk result (λ _. is_canon_text text.now ≡ true) }
    ensures not_loaded { IfErr result (λ fault. OnLoad fault (λ f.
        IsNoCanonText text.now f × (reader.new ≡ reader.old) × (writer.new ≡ writer.old))) }
    ensures stopped { IfErr result (λ fault. OnScript fault
        (RunStops text.now (R.left reader.old) (R.left reader.new) (W.written writer.old) (W.written writer.new))) }
    ensures read_failed { IsErrOf result (EngineFault.Script RunFault.Read) → R.has_failed reader.new ≡ true }
    ensures write_failed { IsErrOf result (EngineFault.Script RunFault.Write) → W.has_failed writer.new ≡ true }
{
    let normal = load_canonical(text).map_err(EngineFault::Load)?;
    run_normal(normal, reader, writer).map_err(EngineFault::Script)
}
