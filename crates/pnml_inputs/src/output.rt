ghost use Rattle.std.specs.Prelude.{◌≡◌, ◌≤◌, OnOk, OnErr};
ghost use Rattle.std.specs.Io.KnownBytes.{Appends};
ghost use Rattle.host_io.specs.Causes.{HasCause};
ghost use Rattle.pnml_inputs.specs.Writing.{AppendsPrefix};

use host_io::{Failed, Sink};

/// Puts the whole text into the sink, piece by piece. It takes no memory.
///
/// [`Failed`] comes only where the count of faults rose in this call; the first bytes of the text
/// were taken then, but not all. Without it the count stands still.
pub fn put_all<K: Sink>(out: &mut K, text: &[u8]) -> Result<(), Failed>
    ensures written { OnOk result (Appends (K.written out.old) (K.written out.new) text.now) }
    ensures prefix { OnErr result (AppendsPrefix (K.written out.old) (K.written out.new) text.now) }
    ensures quiet { OnOk result (K.faults out.new ≡ K.faults out.old) }
    ensures cause { HasCause (K.faults out.old) (K.faults out.new) result }
{
    let mut at = 0;
    while at < text.len() {
        match out.put(&text[at..]) {
            Ok(count) => at += count,
            Err(Failed) => return Err(Failed),
        }
    }
    Ok(())
}
