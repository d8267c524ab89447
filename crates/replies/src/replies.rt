// The third room: the records of a reply, and the answer.
ghost use Rattle.std.specs.Prelude.{◌≡◌, []};
ghost use Rattle.numbers.specs.Choose.{pick};
ghost use Rattle.answers.specs.Sending.{sent};
ghost use Rattle.record.specs.Records.{error_record};
ghost use Rattle.replies.specs.Finishing.{finishing};
ghost use Rattle.replies.specs.Replies.{fault_code, fault_record, fault_text, reply_records, short};

use crate::answer::{Answer, close};
use answers::{
    connect_accepted, error_record, ping_response, play_accepted, play_finished, publish_accepted,
    stream_created,
};
use record::time_of;
use session::{CommandFault, Decision, Reply, Session};
use text::{Name, StreamId};

// An answer without records always fits.
#[tactic(auto, using(crate::proofs::RepliesLaws::nothing_sent))]
fn write_nothing(out: &mut [u8]) -> Option<usize>
    ensures { (result, out.new) ≡ sent [] out.old }
{
    Some(0)
}

fn fault_code(fault: CommandFault) -> &'static [u8]
    ensures { result.now ≡ fault_code fault }
{
    match fault {
        CommandFault::PublishFew
        | CommandFault::PublishUnconnected
        | CommandFault::PublishUnknownMode => b"NetStream.Publish.Start",
        CommandFault::PlayFew | CommandFault::PlayUnconnected => b"NetStream.Play.Start",
    }
}

fn fault_text(fault: CommandFault) -> &'static [u8]
    ensures { result.now ≡ fault_text fault }
{
    match fault {
        CommandFault::PublishFew => b"Invalid publish arguments",
        CommandFault::PublishUnconnected => b"Can't publish before connecting",
        CommandFault::PublishUnknownMode => b"Invalid publish mode given",
        CommandFault::PlayFew => b"Invalid play arguments",
        CommandFault::PlayUnconnected => b"Can't play before connecting",
    }
}

// The error record of a command.
fn write_fault(
    out: &mut [u8],
    transaction: u64,
    fault: CommandFault,
    time: u32,
    stream: StreamId,
) -> Option<usize>
    ensures { (result, out.new) ≡ sent (fault_record transaction fault time stream.0) out.old }
{
    error_record(
        out,
        transaction,
        fault_code(fault),
        fault_text(fault),
        time,
        stream,
    )
}

// Whether neither is over 256 bytes.
#[tactic(auto, unfolding(crate::specs::Replies::short))]
pub fn are_short(code: &[u8], description: &[u8]) -> bool
    ensures { result ≡ short code.now description.now }
{
    code.len() <= 256 && description.len() <= 256
}

// The error record of a reject. Texts that are not short were refused before.
#[tactic(auto, unfolding(crate::specs::Replies::short))]
fn write_rejection(
    out: &mut [u8],
    transaction: u64,
    code: &[u8],
    description: &[u8],
    time: u32,
    stream: StreamId,
) -> Option<usize>
    ensures { (result, out.new) ≡ sent (pick (short code.now description.now) (error_record transaction code.now description.now time stream.0) []) out.old }
{
    if are_short(code, description) {
        return error_record(out, transaction, code, description, time, stream);
    }
    write_nothing(out)
}

pub fn write_reply(
    out: &mut [u8],
    reply: Reply,
    name: Name,
    version: Name,
    encoding: u64,
    code: &[u8],
    description: &[u8],
    time: u32,
) -> Option<usize>
    ensures { (result, out.new) ≡ sent (reply_records reply name version encoding code.now description.now time) out.old }
{
    match reply {
        Reply::Nothing => write_nothing(out),
        Reply::StreamCreated {
            transaction,
            stream,
        } => stream_created(out, transaction, stream, time),
        Reply::Failed {
            transaction,
            fault,
            stream,
        } => write_fault(out, transaction, fault, time, stream),
        Reply::PingResponse(x) => ping_response(out, x, time),
        Reply::ConnectAccepted { transaction } => connect_accepted(
            out,
            transaction,
            version,
            name,
            encoding,
            time,
        ),
        Reply::PublishAccepted(stream) => publish_accepted(out, name, time, stream),
        Reply::PlayAccepted(stream) => play_accepted(out, name, time, stream),
        Reply::PlayFinished(stream) => play_finished(out, name, time, stream),
        Reply::Rejected {
            transaction,
            stream,
        } => write_rejection(out, transaction, code, description, time, stream),
    }
}

// The records of a decision, and the answer; the texts are those of a reject.
#[tactic(auto, unfolding(crate::specs::Finishing::finishing, crate::specs::Answers::answered))]
pub fn finish_call(
    session: Session,
    decision: Decision,
    code: &[u8],
    description: &[u8],
    clock: u64,
    out: &mut [u8],
) -> Answer
    ensures { (result, out.new) ≡ finishing session decision code.now description.now clock out.old }
{
    let sent = write_reply(
        out,
        decision.reply,
        decision.name,
        session.version,
        session.encoding,
        code,
        description,
        time_of(session.start, clock),
    );
    close(session, decision, sent)
}
