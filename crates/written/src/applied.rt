// The arrays after a change.
// The arrays are written to, so they go one by one: where a struct of `&mut` comes apart again, the proof did not close.
ghost use Rattle.std.specs.Prelude.{◌≡◌, ◌-◌, ◌%◌, ◌≤◌, [], ◌++◌, get_or, length, set, take};
ghost use Rattle.session.specs.State.{following};
ghost use Rattle.image.specs.Image.{keys_of, titles_of};
ghost use Rattle.written.specs.Edits.{app_after, applied_at, edited, facts_after, names_after, one_request_less, one_request_more, one_stream_more, request_edit, stream_edit};
ghost use Rattle.written.specs.Kept.{blank_bytes, request_row, stream_row};

use crate::edits::{Edit, make_edit, place_of};
use image::{rows_in_use, short_number};
use session::{Change, Effect, number_after, one_more};
use tables::{Request, Stream};

fn stream_row(stream: Stream) -> [u64; 4]
    ensures { result ≡ stream_row stream }
{
    [
        stream.id.0 as u64,
        stream.state as u64,
        stream.mode as u64,
        stream.key.len as u64,
    ]
}

fn request_row(request: Request) -> [u64; 6]
    ensures { result ≡ request_row request }
{
    [
        request.id.0 as u64,
        request.kind as u64,
        request.stream.0 as u64,
        request.mode as u64,
        request.transaction,
        request.name.len as u64,
    ]
}

fn stream_edit(effect: Effect, p: usize) -> Edit
    ensures { result ≡ stream_edit effect p }
{
    match effect {
        Effect::StreamMade => Edit::Add,
        Effect::StreamSet | Effect::StreamAccepted => Edit::Put(p),
        Effect::StreamRemoved => Edit::Cut(p),
        _ => Edit::Same,
    }
}

fn request_edit(effect: Effect, p: usize) -> Edit
    ensures { result ≡ request_edit effect p }
{
    match effect {
        Effect::RequestFiled | Effect::ConnectFiled { .. } => Edit::Add,
        Effect::ConnectAccepted | Effect::StreamAccepted | Effect::RequestRemoved => Edit::Cut(p),
        _ => Edit::Same,
    }
}

// The number after the one that stands there.
fn next_number(n: u64) -> u64
    ensures { result ≡ following (n % 4294967296) }
{
    number_after(short_number(n)) as u64
}

fn one_stream_more(facts: &mut [u64; 10])
    ensures { facts.new ≡ one_stream_more facts.old }
{
    facts[6] = next_number(facts[6]);
    facts[8] = one_more(facts[8] as usize) as u64;
}

fn one_request_more(facts: &mut [u64; 10])
    ensures { facts.new ≡ one_request_more facts.old }
{
    facts[7] = next_number(facts[7]);
    facts[9] = one_more(facts[9] as usize) as u64;
}

fn one_request_less(facts: &mut [u64; 10])
    ensures { facts.new ≡ one_request_less facts.old }
{
    facts[9] = facts[9].saturating_sub(1);
}

// `len` is the length of the request's name.
fn set_facts(facts: &mut [u64; 10], effect: Effect, len: usize)
    ensures { facts.new ≡ facts_after effect len facts.old }
{
    match effect {
        Effect::Nothing | Effect::StreamSet => {}
        Effect::StreamMade => one_stream_more(facts),
        Effect::StreamRemoved => facts[8] = facts[8].saturating_sub(1),
        Effect::RequestFiled => one_request_more(facts),
        Effect::ConnectFiled { encoding } => {
            one_request_more(facts);
            facts[5] = encoding;
        }
        Effect::ConnectAccepted => {
            one_request_less(facts);
            facts[2] = 1;
            facts[3] = 1;
            facts[4] = len as u64;
        }
        Effect::StreamAccepted | Effect::RequestRemoved => one_request_less(facts),
    }
}

// `bytes` are those of the request's name.
fn set_app(names: &mut [[u8; 128]], effect: Effect, bytes: [u8; 128])
    requires { length names.old ≡ 34 }
    ensures { names.new ≡ set names.old 1 (app_after effect bytes (get_or names.old 1 [])) }
{
    if matches!(effect, Effect::ConnectAccepted) {
        names[1] = bytes;
    }
}

// The streams' names stand from place 2 on, the requests' from place 18 on.
fn edit_parts(
    names: &mut [[u8; 128]],
    n: usize,
    e: Edit,
    key: [u8; 128],
    m: usize,
    f: Edit,
    title: [u8; 128],
)
    requires { (length names.old ≡ 34) × ((n ≤ 16) × (m ≤ 16)) }
    ensures { names.new ≡ take 2 names.old ++ (edited blank_bytes e n key (keys_of names.old) ++ edited blank_bytes f m title (titles_of names.old)) }
{
    make_edit(&mut names[2..18], n, e, key, [0; 128]);
    make_edit(&mut names[18..34], m, f, title, [0; 128]);
}

fn edit_all_names(
    names: &mut [[u8; 128]],
    n: usize,
    e: Edit,
    m: usize,
    f: Edit,
    effect: Effect,
    key: [u8; 128],
    title: [u8; 128],
)
    requires { (length names.old ≡ 34) × ((n ≤ 16) × (m ≤ 16)) }
    ensures { names.new ≡ names_after names.old (app_after effect title (get_or names.old 1 [])) (edited blank_bytes e n key (keys_of names.old)) (edited blank_bytes f m title (titles_of names.old)) }
{
    edit_parts(names, n, e, key, m, f, title);
    set_app(names, effect, title);
}

// Only what the change is about is written, and a place that it frees is blank. Rows past the counts, and their names, stay as they are.
pub fn apply_in(
    facts: &mut [u64; 10],
    streams: &mut [[u64; 4]; 16],
    requests: &mut [[u64; 6]; 16],
    names: &mut [[u8; 128]; 34],
    change: Change,
)
    ensures { (facts.new, (streams.new, (requests.new, names.new))) ≡ applied_at (facts.old, (streams.old, (requests.old, names.old))) change }
{
    let n = rows_in_use(facts[8]);
    let m = rows_in_use(facts[9]);
    let e = stream_edit(change.effect, place_of(&streams[..], n, change.stream.id.0));
    let f = request_edit(
        change.effect,
        place_of(&requests[..], m, change.request.id.0),
    );
    make_edit(streams, n, e, stream_row(change.stream), [0; 4]);
    make_edit(requests, m, f, request_row(change.request), [0; 6]);
    edit_all_names(
        names,
        n,
        e,
        m,
        f,
        change.effect,
        change.stream.key.bytes,
        change.request.name.bytes,
    );
    set_facts(facts, change.effect, change.request.name.len);
}
