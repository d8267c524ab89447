// An entry that is good, played.
ghost use Rattle.std.specs.Prelude.{◌≡◌, length, replicate};
ghost use Rattle.plays.specs.Plays.{stays};
ghost use Rattle.replay.specs.Replay.{damage_played, kind_played, played};

use damage::damage_session;
use entries::{Kind, kind_of, room_of};
use numbers::{byte_at, u32_at};
use plays::{
    Turn, play_accept, play_finish, play_media, play_message, play_metadata, play_ping,
    play_reject, play_start,
};
use session::Session;
use spelling::put_word;
use states::put_state;

#[tactic(auto, unfolding(crate::specs::Replay::damage_played, plays::specs::Plays::turn_of))]
fn play_damage(s: Session, e: &[u8], line: &mut [u8]) -> Turn
    ensures { (result, line.new) ≡ damage_played s e.now line.old }
{
    let session = damage_session(s, byte_at(e, 1), byte_at(e, 2), u32_at(e, 3));
    let count = put_word(line, 0, b"damage\n");
    Turn { session, count }
}

// The session stays.
fn stay(session: Session, count: usize) -> Turn
    ensures { result ≡ stays session count }
{
    Turn { session, count }
}

#[tactic(auto, unfolding(plays::specs::Plays::turn_of))]
fn play_kind(kind: Kind, s: Session, e: &[u8], out: &mut [u8], line: &mut [u8]) -> Turn
    ensures { (result, line.new) ≡ kind_played kind s e.now out.old line.old }
{
    match kind {
        Kind::Start => play_start(e, out, line),
        Kind::Message => play_message(s, e, out, line),
        Kind::Accept => play_accept(s, e, out, line),
        Kind::Reject => play_reject(s, e, out, line),
        Kind::Finish => play_finish(s, e, out, line),
        Kind::Metadata => stay(s, play_metadata(s, e, out, line)),
        Kind::Media => stay(s, play_media(s, e, out, line)),
        Kind::Ping => stay(s, play_ping(s, e, out, line)),
        Kind::State => stay(s, put_state(line, 0, s)),
        Kind::Damage => play_damage(s, e, line),
    }
}

// "The out buffer is filled with A5 before each call."
fn play_filled(kind: Kind, s: Session, e: &[u8], out: &mut [u8], line: &mut [u8]) -> Turn
    ensures { (result, line.new) ≡ kind_played kind s e.now (replicate (length out.old) 165) line.old }
{
    out.fill(0xA5);
    play_kind(kind, s, e, out, line)
}

// The out buffer is a part of `space`, as long as the entry's room. A space that is too short plays nothing.
#[tactic(auto, unfolding(crate::specs::Replay::played, plays::specs::Plays::turn_of))]
pub fn play_entry(s: Session, e: &[u8], space: &mut [u8], line: &mut [u8]) -> Turn
    ensures { (result, line.new) ≡ played s e.now (length space.old) line.old }
{
    let room = room_of(e) as usize;
    if space.len() < room {
        return stay(s, 0);
    }
    match kind_of(byte_at(e, 0)) {
        Some(kind) => play_filled(kind, s, e, &mut space[..room], line),
        None => stay(s, 0),
    }
}
