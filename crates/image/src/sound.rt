// Refusal 15 of the arrays, before a session is made of them.
ghost use Rattle.std.specs.Prelude.{◌≡◌, length, take};
ghost use Rattle.std.specs.List.{list_all};
ghost use Rattle.tables.specs.Tables.{rises_from};
ghost use Rattle.image.specs.Image.{facts_readable, readable_at, sound_at};
ghost use Rattle.image.specs.Quick.{quick_at};

use crate::reading::read_sound;
use crate::rows::Row;
use crate::shape::types_say;

#[tactic(auto, unfolding(crate::specs::Image::facts_readable))]
fn facts_readable(facts: &[u64; 10]) -> bool
    ensures { result ≡ facts_readable facts.now }
{
    facts[2] < 2 && facts[3] < 2 && facts[6] < 4294967296 && facts[7] < 4294967296
}

fn readable<R: Row>(rows: &[R], count: u64) -> bool
    ensures { result ≡ list_all R.readable (take count rows.now) }
{
    rows.iter().take(count as usize).all(|row| row.readable())
}

#[tactic(auto, unfolding(crate::specs::Image::readable_at))]
fn readable_among(facts: &[u64; 10], streams: &[[u64; 4]], requests: &[[u64; 6]]) -> bool
    ensures { result ≡ readable_at facts.now streams.now requests.now }
{
    facts_readable(facts) && readable(streams, facts[8]) && readable(requests, facts[9])
}

// Readable rows whose numbers rise from 0 on, below the next one, with names that fit.
#[tactic(auto, unfolding(tables::specs::Tables::rises_from))]
fn rise<R: Row>(rows: &[R], next: u64) -> bool
    ensures { result ≡ rises_from R.number R.weight next 0 rows.now }
{
    let mut low: u64 = 0;
    for row in rows {
        let number = row.number();
        if number < low || next <= number || 128 < row.weight() {
            return false;
        }
        low = number + 1;
    }
    true
}

// What a run leaves passes here, and no session has to be made of the arrays.
#[tactic(auto, unfolding(crate::specs::Quick::quick_at))]
fn quickly_sound(facts: &[u64; 10], streams: &[[u64; 4]], requests: &[[u64; 6]]) -> bool
    requires { (length streams.now ≡ 16) × (length requests.now ≡ 16) }
    ensures { result ≡ quick_at facts.now streams.now requests.now }
{
    facts[1] <= 128
        && facts[4] <= 128
        && facts[8] <= 16
        && facts[9] <= 16
        && rise(&streams[..facts[8] as usize], facts[6])
        && rise(&requests[..facts[9] as usize], facts[7])
}

#[tactic(auto, using(crate::proofs::QuickLaws::quick_sound), unfolding(crate::specs::Image::sound_at, crate::specs::Image::readable_at))]
pub fn image_sound(
    facts: &[u64; 10],
    streams: &[[u64; 4]; 16],
    requests: &[[u64; 6]; 16],
    names: &[[u8; 128]; 34],
) -> bool
    ensures { result ≡ sound_at facts.now streams.now requests.now names.now }
{
    types_say(facts, streams, requests, names);
    facts_readable(facts)
        && (quickly_sound(facts, streams, requests)
            || readable_among(facts, streams, requests)
                && read_sound(facts, streams, requests, names))
}
