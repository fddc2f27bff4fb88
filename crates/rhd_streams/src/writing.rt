//! Writing all of some bytes.

ghost use Rattle.std.specs.Prelude.{OnOk, OnErr, length};
ghost use Rattle.std.specs.Io.KnownBytes.{Appends};
ghost use Rattle.rhd_streams.specs.Streams.{WrotePart, WroteLess};
ghost use Rattle.rhd_streams.specs.Causes.{HasSinkCause};

use crate::sink::{Sink, SinkFault};

/// Writes all bytes. At an `Err` a front of them was written.
pub fn write_whole<K: Sink>(sink: &mut K, bytes: &[u8]) -> Result<(), SinkFault>
    ensures all { OnOk result (Appends (K.written sink.old) (K.written sink.new) bytes.now) }
    ensures part { WrotePart (K.written sink.old) (K.written sink.new) bytes.now }
    ensures short { OnErr result (WroteLess (K.written sink.old) (K.written sink.new) bytes.now) }
    ensures cause { HasSinkCause (K.faults sink.old) (K.faults sink.new) result }
{
    let mut done = 0;
    while done < bytes.len() {
        match sink.write(&bytes[done..]) {
            Ok(count) => done += count,
            Err(fault) => return Err(fault),
        }
    }
    Ok(())
}
