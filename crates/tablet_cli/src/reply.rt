//! What the commands write for an input, and how they end.
ghost use Rattle.std.specs.Prelude.{◌≡◌, IfOk};
ghost use Rattle.tablet_replay.specs.Replies.{HasCause, Replies, is_refusal};
ghost use Rattle.tablet_cli.specs.Outcome.{end_of, refuses, reply_text};

use crate::command_word::Reply;
use crate::status::Status;
use cell_key::ByteText;
use std::alloc::Global;
use tablet_io::Sink;
use tablet_replay::{Outcome, ReplyError, pack_to, replay_to, show_to, upgrade_to};

/// Writes the reply of a command to an input.
pub fn reply_to<O: Sink>(
    reply: Reply,
    alloc: Global,
    input: ByteText,
    output: &mut O,
) -> Result<Outcome, ReplyError>
    ensures text { Replies (reply_text reply input) (O.taken output.old) (O.taken output.new) result }
    ensures refused { IfOk result (λ outcome. is_refusal outcome ≡ refuses reply input) }
    ensures cause { HasCause (O.faults output.old) (O.faults output.new) result }
{
    match reply {
        Reply::Replay => replay_to(alloc, input.bytes(), output),
        Reply::Pack => pack_to(alloc, input.bytes(), output),
        Reply::Show => show_to(alloc, input, output),
        Reply::Upgrade => upgrade_to(alloc, input, output),
    }
}

/// How a command ends that answers its input, or refuses it.
pub fn end_of(reply: Reply, outcome: Outcome) -> Status
    ensures { result ≡ end_of reply (is_refusal outcome) }
{
    match (outcome, reply) {
        (Outcome::Answered, _) => Status::Done,
        (Outcome::Refused, Reply::Replay | Reply::Pack) => Status::BadConfig,
        (Outcome::Refused, Reply::Show | Reply::Upgrade) => Status::BadImage,
    }
}
