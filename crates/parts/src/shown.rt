// An answer's parts, written where the host reads them.
// The arrays are written to, so they go one by one: where a struct of `&mut` comes apart again, the proof did not close.
ghost use Rattle.std.specs.Prelude.{◌≡◌};
ghost use Rattle.metadata.specs.Metadata.{no_metadata};
ghost use Rattle.parts.specs.Parts.{answer_numbers, media_shown, shown_parts};

use crate::events::event_numbers;
use crate::metadatas::{encoder_bytes, metadata_rows};
use crate::outcomes::named_by;
use metadata::StreamMetadata;
use session::Event;
use text::Name;
use wishes::{Outcome, number_of};

#[tactic(auto, unfolding(crate::specs::Parts::answer_numbers))]
fn answer_numbers(
    outcome: Outcome,
    event: Option<Event>,
    app_len: usize,
    key_len: usize,
    count: usize,
) -> [u64; 16]
    ensures { result ≡ answer_numbers outcome event app_len key_len count }
{
    let o = named_by(outcome);
    let e = event_numbers(event);
    [
        number_of(outcome) as u64,
        o[0],
        o[1],
        count as u64,
        e[0],
        e[1],
        e[2],
        e[3],
        e[4],
        e[5],
        e[6],
        e[7],
        e[8],
        e[9],
        app_len as u64,
        key_len as u64,
    ]
}

#[tactic(auto, unfolding(crate::specs::Parts::shown_parts))]
pub fn show_answer(
    numbers: &mut [u64; 16],
    described: &mut [[u64; 11]; 2],
    words: &mut [[u8; 128]; 3],
    outcome: Outcome,
    event: Option<Event>,
    app: Name,
    key: Name,
    metadata: StreamMetadata,
    count: usize,
)
    ensures { (numbers.new, (described.new, words.new)) ≡ shown_parts outcome event app key metadata count }
{
    *numbers = answer_numbers(outcome, event, app.len, key.len, count);
    *described = metadata_rows(metadata);
    let (app, key) = (app.bytes, key.bytes);
    *words = [app, key, encoder_bytes(metadata)];
}

// The same with no metadata: nothing is turned into numbers.
#[tactic(auto, using(crate::proofs::PartsLaws::no_rows), unfolding(crate::specs::Parts::shown_parts))]
pub fn show_plain(
    numbers: &mut [u64; 16],
    described: &mut [[u64; 11]; 2],
    words: &mut [[u8; 128]; 3],
    outcome: Outcome,
    event: Option<Event>,
    app: Name,
    key: Name,
    count: usize,
)
    ensures { (numbers.new, (described.new, words.new)) ≡ shown_parts outcome event app key no_metadata count }
{
    *numbers = answer_numbers(outcome, event, app.len, key.len, count);
    *described = [[0; 11]; 2];
    let (app, key) = (app.bytes, key.bytes);
    *words = [app, key, [0; 128]];
}

// Of a frame: the event's number, its timestamp, and the two lengths.
#[tactic(auto, unfolding(crate::specs::Parts::media_shown))]
pub fn show_media(
    numbers: &mut [u64; 4],
    words: &mut [[u8; 128]; 2],
    what: u64,
    timestamp: u64,
    app: Name,
    key: Name,
)
    ensures { (numbers.new, words.new) ≡ media_shown what timestamp app key }
{
    *numbers = [what, timestamp, app.len as u64, key.len as u64];
    let (app, key) = (app.bytes, key.bytes);
    *words = [app, key];
}
