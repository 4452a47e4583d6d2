//! The end of a reply that is sent in pieces.
ghost use Rattle.tablet_replay.specs.Replies.{HasCause, Replies};

use crate::outcome::ReplyError;
use cell_key::ByteText;
use tablet_io::{Sink, send_all};

/// Sends the last piece of a reply: what stands in the text still.
pub fn send_last<O: Sink>(text: &mut ByteText, output: &mut O) -> Result<(), ReplyError>
    ensures text { Replies text.old (O.taken output.old) (O.taken output.new) result }
    ensures cause { HasCause (O.faults output.old) (O.faults output.new) result }
{
    Ok(send_all(text, output)?)
}
