//! The way of whole texts to a sink.
ghost use Rattle.std.specs.Prelude.{OnOk, OnErr};
ghost use Rattle.mpc_base.specs.Causes.{HasCause};
ghost use Rattle.mpc_base.specs.Told.{Took, TookPrefix};

use mpc_base::{Failed, Sink};

/// Writes the whole text, or as much of it as the sink takes before it fails.
pub fn write_all<K: Sink>(sink: &mut K, text: &[u8]) -> Result<(), Failed>
    ensures ok { OnOk result (Took (K.taken sink.old) text.now (K.taken sink.new)) }
    ensures err { OnErr result (TookPrefix (K.taken sink.old) text.now (K.taken sink.new)) }
    ensures cause { HasCause (K.faults sink.old) (K.faults sink.new) result }
{
    let mut rest = text;
    while !rest.is_empty() {
        let count = sink.write(rest)?;
        let (_, left) = rest.split_at(count);
        rest = left;
    }
    Ok(())
}
