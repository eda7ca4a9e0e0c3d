// Putting whole pieces into a sink.
ghost use Rattle.std.specs.Prelude.{◌≤◌, OnOk, OnErr, IsErrOf};
ghost use Rattle.suite_io.specs.Taken.{Takes, Rises};
ghost use Rattle.suite_io.specs.Parts.{TakesPart};

use crate::sink::{Sink, SinkFault};

/// Puts a piece until the sink has taken it whole. At an error the sink has taken a first part of it.
pub fn put_all<S: Sink>(sink: &mut S, piece: &[u8]) -> Result<(), SinkFault>
    ensures whole { OnOk result (Takes (S.taken sink.old) (S.taken sink.new) piece.now) }
    ensures part { OnErr result (TakesPart (S.taken sink.old) (S.taken sink.new) piece.now) }
    ensures never_falls { S.faults sink.old ≤ S.faults sink.new }
    ensures risen { IsErrOf result SinkFault.Failed → Rises (S.faults sink.old) (S.faults sink.new) }
{
    let mut rest = piece;
    while !rest.is_empty() {
        let taken = sink.put(rest)?;
        rest = &rest[taken..];
    }
    Ok(())
}
