//! Texts that are sent in pieces.
ghost use Rattle.std.specs.Prelude.{◌≡◌, ◌≤◌, ◌<◌, [], length, OnOk, OnErr};
ghost use Rattle.tablet_io.specs.Causes.{Rose};
ghost use Rattle.tablet_io.specs.Streams.{IsFrontTaken, IsSent, IsTaken, piece_size};

use crate::ports::Sink;
use crate::streams::{WriteFault, write_all};
use cell_key::ByteText;

/// How many bytes a text has at the least that is sent before the end.
const PIECE_SIZE: usize = 65_536;

/// Writes a text of 65,536 bytes or more, and empties it; a shorter one stays. So a text that is made bit by bit, with a call after
/// each, goes out in pieces. `WriteFault` comes only where the sink's count rose in this call, and then a prefix of the text was taken.
/// It takes no memory, and the text keeps its room.
pub fn send_full<O: Sink>(text: &mut ByteText, sink: &mut O) -> Result<(), WriteFault>
    ensures sent { OnOk result (IsSent text.old (O.taken sink.old) (O.taken sink.new) text.new) }
    ensures short { OnOk result (length text.new < piece_size) }
    ensures err { OnErr result (IsFrontTaken text.old (O.taken sink.old) (O.taken sink.new)) }
    ensures fault { OnErr result (Rose (O.faults sink.old) (O.faults sink.new)) }
    ensures count { O.faults sink.old ≤ O.faults sink.new }
{
    if text.len() < PIECE_SIZE {
        return Ok(());
    }
    send_all(text, sink)
}

/// Writes a text whole, and empties it. `WriteFault` comes only where the sink's count rose in this call, and then a prefix of the text
/// was taken. It takes no memory, and the text keeps its room.
pub fn send_all<O: Sink>(text: &mut ByteText, sink: &mut O) -> Result<(), WriteFault>
    ensures ok { OnOk result (IsTaken text.old (O.taken sink.old) (O.taken sink.new)) }
    ensures empty { OnOk result (text.new ≡ []) }
    ensures err { OnErr result (IsFrontTaken text.old (O.taken sink.old) (O.taken sink.new)) }
    ensures fault { OnErr result (Rose (O.faults sink.old) (O.faults sink.new)) }
    ensures count { O.faults sink.old ≤ O.faults sink.new }
{
    write_all(sink, text.bytes())?;
    text.clear();
    Ok(())
}
