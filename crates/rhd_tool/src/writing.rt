//! Writing what is printed.

ghost use Rattle.std.specs.Prelude.{OnOk, IsErrOf};
ghost use Rattle.std.specs.Io.KnownBytes.{Appends};
ghost use Rattle.rhd_print.specs.PrintedReplies.{all_printed};
ghost use Rattle.rhd_streams.specs.Causes.{HasSinkCause};
ghost use Rattle.rhd_streams.specs.Streams.{WrotePart, WroteLess};
ghost use Rattle.rhd_streams.specs.declared.sink.SinkFault.TheVariants.{Failed};

use rhd_call::Reply;
use rhd_streams::{Sink, SinkFault, write_whole};
use rhd_text::print_replies;
use std::alloc::Global;

/// How many replies are printed before they are written.
const PIECE: usize = 1024;

/// Prints replies, and writes their lines.
fn write_piece<K: Sink>(
    alloc: Global,
    replies: &[Reply],
    lines: &mut Vec<u8>,
    sink: &mut K,
) -> Result<(), SinkFault>
    ensures all { OnOk result (Appends (K.written sink.old) (K.written sink.new) (all_printed replies.now)) }
    ensures part { WrotePart (K.written sink.old) (K.written sink.new) (all_printed replies.now) }
    ensures short { IsErrOf result Failed → WroteLess (K.written sink.old) (K.written sink.new) (all_printed replies.now) }
    ensures cause { HasSinkCause (K.faults sink.old) (K.faults sink.new) result }
{
    lines.clear();
    let Ok(()) = print_replies(alloc, replies, lines) else {
        return Err(SinkFault::OutOfMemory);
    };
    write_whole(sink, lines)
}

/// Prints replies, and writes their lines, some replies at a time, so that few lines are kept at once. At an
/// `Err` a front of the lines was written.
pub fn write_replies<K: Sink>(
    alloc: Global,
    replies: &[Reply],
    sink: &mut K,
) -> Result<(), SinkFault>
    ensures all { OnOk result (Appends (K.written sink.old) (K.written sink.new) (all_printed replies.now)) }
    ensures part { WrotePart (K.written sink.old) (K.written sink.new) (all_printed replies.now) }
    ensures short { IsErrOf result Failed → WroteLess (K.written sink.old) (K.written sink.new) (all_printed replies.now) }
    ensures cause { HasSinkCause (K.faults sink.old) (K.faults sink.new) result }
{
    let mut lines = Vec::new(alloc);
    let mut done = 0;
    while done < replies.len() {
        let end = replies.len().min(done.saturating_add(PIECE));
        write_piece(alloc, &replies[done..end], &mut lines, sink)?;
        done = end;
    }
    Ok(())
}
