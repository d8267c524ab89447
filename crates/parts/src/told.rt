// What a call tells.
// The arrays are written to, so they go one by one: where a struct of `&mut` comes apart again, the proof did not close.
ghost use Rattle.std.specs.Prelude.{◌≡◌, None};
ghost use Rattle.text.specs.Names.{empty_name};
ghost use Rattle.metadata.specs.Metadata.{no_metadata};
ghost use Rattle.parts.specs.Told.{is_set, told_of};

use crate::shown::{show_answer, show_plain};
use metadata::StreamMetadata;
use session::{Decision, Event};
use text::{Name, empty_name};
use wishes::{Outcome, number_of};

// A flag of a host: 0 is no, any other number yes.
pub fn is_set(n: u32) -> bool
    ensures { result ≡ is_set n }
{
    n != 0
}

// The parts, and the outcome's number.
#[tactic(auto, unfolding(crate::specs::Told::told_of))]
fn tell(
    numbers: &mut [u64; 16],
    described: &mut [[u64; 11]; 2],
    words: &mut [[u8; 128]; 3],
    outcome: Outcome,
    event: Option<Event>,
    app: Name,
    key: Name,
    metadata: StreamMetadata,
    count: usize,
) -> u32
    ensures { (result, (numbers.new, (described.new, words.new))) ≡ told_of outcome event app key metadata count }
{
    show_answer(
        numbers, described, words, outcome, event, app, key, metadata, count,
    );
    number_of(outcome)
}

// The same with no metadata.
#[tactic(auto, unfolding(crate::specs::Told::told_of))]
pub fn tell_plain(
    numbers: &mut [u64; 16],
    described: &mut [[u64; 11]; 2],
    words: &mut [[u8; 128]; 3],
    outcome: Outcome,
    event: Option<Event>,
    app: Name,
    key: Name,
    count: usize,
) -> u32
    ensures { (result, (numbers.new, (described.new, words.new))) ≡ told_of outcome event app key no_metadata count }
{
    show_plain(numbers, described, words, outcome, event, app, key, count);
    number_of(outcome)
}

// With no event: a refusal, or done.
pub fn tell_quiet(
    numbers: &mut [u64; 16],
    described: &mut [[u64; 11]; 2],
    words: &mut [[u8; 128]; 3],
    outcome: Outcome,
    count: usize,
) -> u32
    ensures { (result, (numbers.new, (described.new, words.new))) ≡ told_of outcome None empty_name empty_name no_metadata count }
{
    tell_plain(
        numbers,
        described,
        words,
        outcome,
        None,
        empty_name(),
        empty_name(),
        count,
    )
}

pub fn tell_decision(
    numbers: &mut [u64; 16],
    described: &mut [[u64; 11]; 2],
    words: &mut [[u8; 128]; 3],
    decision: Decision,
    count: usize,
) -> u32
    ensures { (result, (numbers.new, (described.new, words.new))) ≡ told_of decision.outcome decision.event decision.app decision.key decision.metadata count }
{
    tell(
        numbers,
        described,
        words,
        decision.outcome,
        decision.event,
        decision.app,
        decision.key,
        decision.metadata,
        count,
    )
}
