// "NAME CODE [ACTION STREAM] [EVENT FIELD=VALUE ..] [ping=N] [out=HEX] [spilt]"
ghost use Rattle.std.specs.Prelude.{◌≡◌, drop};
ghost use Rattle.spelling.specs.Text.{put_all};
ghost use Rattle.reports.specs.AnswerLine.{answer_text, end_text, head_text, ping_line, send_text, spilt_text, untouched as untouched_from, written_text};

use lines::{put_event, put_outcome};
use metadata::StreamMetadata;
use session::Event;
use spelling::{put_field, put_hex, put_word};
use text::{Name, text_of};
use wishes::{Outcome, Refusal};

// Whether every byte from n on is still A5.
fn untouched(out: &[u8], n: usize) -> bool
    ensures { result ≡ untouched_from (drop n out.now) }
{
    out.iter().skip(n).all(|b| *b == 0xA5)
}

// "out=HEX is what was written, .. and is left out where that is 0."
#[tactic(auto, using(spelling::proofs::TextLaws::put_none), unfolding(crate::specs::AnswerLine::written_text))]
fn put_written(line: &mut [u8], at: usize, count: usize, out: &[u8]) -> usize
    ensures { (result, line.new) ≡ put_all (written_text count out.now) (at, line.old) }
{
    if count == 0 {
        return at;
    }
    let to = put_word(line, at, b" out=");
    put_hex(line, to, text_of(out, count))
}

// "`spilt` stands where a byte of the buffer past the written count is no longer A5"
#[tactic(auto, unfolding(crate::specs::AnswerLine::spilt_text))]
fn put_spilt(line: &mut [u8], at: usize, count: usize, out: &[u8]) -> usize
    ensures { (result, line.new) ≡ put_all (spilt_text count out.now) (at, line.old) }
{
    if untouched(out, count) {
        put_word(line, at, b"\n")
    } else {
        put_word(line, at, b" spilt\n")
    }
}

// What was written, whether more was touched, and the line's end.
#[tactic(auto, using(spelling::proofs::TextLaws::put_more), unfolding(crate::specs::AnswerLine::end_text))]
fn put_end(line: &mut [u8], at: usize, count: usize, out: &[u8]) -> usize
    ensures { (result, line.new) ≡ put_all (end_text count out.now) (at, line.old) }
{
    let to = put_written(line, at, count, out);
    put_spilt(line, to, count, out)
}

#[tactic(auto, using(spelling::proofs::TextLaws::put_more), unfolding(crate::specs::AnswerLine::head_text))]
fn put_head(line: &mut [u8], name: &[u8], outcome: Outcome) -> usize
    ensures { (result, line.new) ≡ put_all (head_text name.now outcome) (0, line.old) }
{
    let to = put_word(line, 0, name);
    put_outcome(line, to, outcome)
}

// A call that may raise an event; `len` is the length of a message's body.
#[tactic(auto, using(spelling::proofs::TextLaws::put_more), unfolding(crate::specs::AnswerLine::answer_text))]
pub fn put_answer(
    line: &mut [u8],
    name: &[u8],
    outcome: Outcome,
    event: Option<Event>,
    app: Name,
    key: Name,
    m: StreamMetadata,
    len: usize,
    count: usize,
    out: &[u8],
) -> usize
    ensures { (result, line.new) ≡ put_all (answer_text name.now outcome event app key m len count out.now) (0, line.old) }
{
    let a = put_head(line, name, outcome);
    let b = put_event(line, a, event, app, key, m, len);
    put_end(line, b, count, out)
}

#[tactic(auto, using(spelling::proofs::TextLaws::put_more), unfolding(crate::specs::AnswerLine::send_text))]
pub fn put_sent(line: &mut [u8], name: &[u8], sent: Result<usize, Refusal>, out: &[u8]) -> usize
    ensures { (result, line.new) ≡ put_all (send_text name.now sent out.now) (0, line.old) }
{
    match sent {
        Ok(count) => {
            let to = put_head(line, name, Ok(()));
            put_end(line, to, count, out)
        }
        Err(refusal) => {
            let to = put_head(line, name, Err(refusal));
            put_end(line, to, 0, out)
        }
    }
}

// "ping=N is the number that a ping request hands back"
#[tactic(auto, using(spelling::proofs::TextLaws::put_more), unfolding(crate::specs::AnswerLine::ping_line))]
pub fn put_ping(line: &mut [u8], sent: Result<usize, Refusal>, timestamp: u32, out: &[u8]) -> usize
    ensures { (result, line.new) ≡ put_all (ping_line sent timestamp out.now) (0, line.old) }
{
    match sent {
        Ok(count) => {
            let a = put_head(line, b"ping", Ok(()));
            let b = put_field(line, a, b" ping=", timestamp as u64);
            put_end(line, b, count, out)
        }
        Err(refusal) => {
            let to = put_head(line, b"ping", Err(refusal));
            put_end(line, to, 0, out)
        }
    }
}
