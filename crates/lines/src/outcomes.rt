// "CODE [ACTION STREAM]": document 01's number, and what 11 names.
ghost use Rattle.std.specs.Prelude.{◌≡◌};
ghost use Rattle.spelling.specs.Text.{put_all};
ghost use Rattle.lines.specs.Lines.{outcome_text, wrong_text, named_text};

use spelling::{put_action, put_field, put_word};
use text::StreamId;
use wishes::{Action, Outcome, Refusal, number_of};

#[tactic(auto, using(spelling::proofs::TextLaws::put_more))]
fn put_wrong(out: &mut [u8], at: usize, action: Action, stream: StreamId) -> usize
    ensures { (result, out.new) ≡ put_all (wrong_text action stream) (at, out.old) }
{
    let to = put_word(out, at, b" ");
    let then = put_action(out, to, action);
    put_field(out, then, b" ", u64::from(stream.0))
}

// Only 11 names something.
#[tactic(auto, unfolding(spelling::specs::Text::put_all))]
fn put_named(out: &mut [u8], at: usize, outcome: Outcome) -> usize
    ensures { (result, out.new) ≡ put_all (named_text outcome) (at, out.old) }
{
    match outcome {
        Err(Refusal::WrongStream { action, stream }) => put_wrong(out, at, action, stream),
        _ => at,
    }
}

#[tactic(auto, using(spelling::proofs::TextLaws::put_more), unfolding(crate::specs::Lines::outcome_text))]
pub fn put_outcome(out: &mut [u8], at: usize, outcome: Outcome) -> usize
    ensures { (result, out.new) ≡ put_all (outcome_text outcome) (at, out.old) }
{
    let to = put_field(out, at, b" ", u64::from(number_of(outcome)));
    put_named(out, to, outcome)
}
