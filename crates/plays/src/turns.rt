// The calls that hand a session back, each with its fields read from an entry.
ghost use Rattle.std.specs.Prelude.{◌≡◌};
ghost use Rattle.plays.specs.Plays.{accept_played, answer_turn, finish_played, message_played, reject_played, start_played};

use numbers::{byte_at, u16_at, u32_at, u64_at};
use replies::Answer;
use reports::put_answer;
use session::Session;
use text::{RequestId, StreamId, part_of};

// The session after an entry, and how many bytes of text were put into the line.
#[derive(Clone, Copy)]
pub struct Turn {
    pub session: Session,
    pub count: usize,
}

// The line of an answer, and the session that it hands back.
#[tactic(auto, unfolding(crate::specs::Plays::answer_turn, crate::specs::Plays::turn_of))]
fn answer_turn(line: &mut [u8], name: &[u8], answer: Answer, len: usize, out: &[u8]) -> Turn
    ensures { (result, line.new) ≡ answer_turn name.now len (answer, out.now) line.old }
{
    let count = put_answer(
        line,
        name,
        answer.outcome,
        answer.event,
        answer.app,
        answer.key,
        answer.metadata,
        len,
        answer.count,
        out,
    );
    Turn {
        session: answer.session,
        count,
    }
}

#[tactic(auto, unfolding(crate::specs::Plays::start_played))]
pub fn play_start(e: &[u8], out: &mut [u8], line: &mut [u8]) -> Turn
    ensures { (result, line.new) ≡ start_played e.now out.old line.old }
{
    let chunk_size = u32_at(e, 1);
    let window = u32_at(e, 5);
    let bandwidth = u32_at(e, 9);
    let done = byte_at(e, 13) == 1;
    let clock = u64_at(e, 14);
    let n = u16_at(e, 26) as usize;
    let version = part_of(e, 28, n);
    let answer = calls::start(chunk_size, window, bandwidth, done, version, clock, out);
    answer_turn(line, b"start", answer, 0, out)
}

#[tactic(auto, unfolding(crate::specs::Plays::message_played))]
pub fn play_message(s: Session, e: &[u8], out: &mut [u8], line: &mut [u8]) -> Turn
    ensures { (result, line.new) ≡ message_played s e.now out.old line.old }
{
    let kind = byte_at(e, 1);
    let stream = StreamId(u32_at(e, 2));
    let timestamp = u32_at(e, 6);
    let clock = u64_at(e, 10);
    let n = u32_at(e, 22) as usize;
    let body = part_of(e, 26, n);
    let answer = messages::handle_message(s, kind, stream, timestamp, clock, body, out);
    answer_turn(line, b"message", answer, n, out)
}

#[tactic(auto, unfolding(crate::specs::Plays::accept_played))]
pub fn play_accept(s: Session, e: &[u8], out: &mut [u8], line: &mut [u8]) -> Turn
    ensures { (result, line.new) ≡ accept_played s e.now out.old line.old }
{
    let request = RequestId(u32_at(e, 1));
    let clock = u64_at(e, 5);
    let answer = calls::accept_request(s, request, clock, out);
    answer_turn(line, b"accept", answer, 0, out)
}

#[tactic(auto, unfolding(crate::specs::Plays::reject_played))]
pub fn play_reject(s: Session, e: &[u8], out: &mut [u8], line: &mut [u8]) -> Turn
    ensures { (result, line.new) ≡ reject_played s e.now out.old line.old }
{
    let request = RequestId(u32_at(e, 1));
    let clock = u64_at(e, 5);
    let n = u16_at(e, 17) as usize;
    let m = u16_at(e, 19 + n) as usize;
    let code = part_of(e, 19, n);
    let description = part_of(e, 21 + n, m);
    let answer = calls::reject_request(s, request, code, description, clock, out);
    answer_turn(line, b"reject", answer, 0, out)
}

// As `play_accept` in shape alone: another number, another call.
#[tactic(auto, unfolding(crate::specs::Plays::finish_played))]
pub fn play_finish(s: Session, e: &[u8], out: &mut [u8], line: &mut [u8]) -> Turn
    ensures { (result, line.new) ≡ finish_played s e.now out.old line.old }
{
    let stream = StreamId(u32_at(e, 1));
    let clock = u64_at(e, 5);
    let answer = calls::finish_playing(s, stream, clock, out);
    answer_turn(line, b"finish", answer, 0, out)
}
