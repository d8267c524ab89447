// What refusal 11 names.
ghost use Rattle.std.specs.Prelude.{◌≡◌};
ghost use Rattle.parts.specs.Parts.{action_number, named_by};

use wishes::{Action, Outcome, Refusal};

fn action_number(action: Action) -> u64
    ensures { result ≡ action_number action }
{
    match action {
        Action::Publish => 1,
        Action::Play => 2,
        Action::Complete => 3,
    }
}

// The action and the stream of 11; zeros where the outcome is another.
pub fn named_by(outcome: Outcome) -> [u64; 2]
    ensures { result ≡ named_by outcome }
{
    match outcome {
        Err(Refusal::WrongStream { action, stream }) => [action_number(action), stream.0 as u64],
        _ => [0, 0],
    }
}
