// The next entry of a trace: played, or the line that ends the run.
ghost use Rattle.std.specs.Prelude.{◌≡◌, length};
ghost use Rattle.plays.specs.Plays.{said};
ghost use Rattle.replay.specs.Next.{bad_text, may_stand, next_played};

use crate::play::play_entry;
use entries::{begins_trace, entry_length, good_entry};
use session::Session;
use spelling::{put_field, put_word};
use text::text_of;

// `taken` is how many bytes of the trace were played, `count` how many of the line are its text.
#[derive(Clone, Copy)]
pub struct Next {
    pub more: bool,
    pub session: Session,
    pub taken: usize,
    pub count: usize,
}

#[tactic(auto, unfolding(crate::specs::Next::may_stand))]
fn may_stand(e: &[u8], entry: u64) -> bool
    ensures { result ≡ may_stand entry e.now }
{
    (entry != 1 || begins_trace(e)) && good_entry(e)
}

#[tactic(auto, using(spelling::proofs::TextLaws::put_more), unfolding(crate::specs::Next::bad_text))]
fn bad_trace(line: &mut [u8], entry: u64) -> usize
    ensures { (result, line.new) ≡ said (bad_text entry) line.old }
{
    let to = put_field(line, 0, b"bad trace at ", entry);
    put_word(line, to, b"\n")
}

// `rest` is what is left of the trace, and `entry` the number of the next one, from 1.
#[tactic(auto, unfolding(crate::specs::Next::next_played))]
pub fn next_entry(
    session: Session,
    rest: &[u8],
    entry: u64,
    space: &mut [u8],
    line: &mut [u8],
) -> Next
    ensures { (result, line.new) ≡ next_played session rest.now entry (length space.old) line.old }
{
    if !may_stand(rest, entry) {
        let count = bad_trace(line, entry);
        return Next {
            more: false,
            session,
            taken: 0,
            count,
        };
    }
    let taken = entry_length(rest);
    let turn = play_entry(session, text_of(rest, taken), space, line);
    Next {
        more: true,
        session: turn.session,
        taken,
        count: turn.count,
    }
}
