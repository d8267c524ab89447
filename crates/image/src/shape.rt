// What the types of the arrays say of them, for proofs: nothing is computed.
ghost use Rattle.std.specs.Prelude.{◌≡◌, length};
ghost use Rattle.image.specs.Image.{Shaped};

// The four arrays, lent to be read.
#[derive(Clone, Copy)]
pub struct Image<'a> {
    pub facts: &'a [u64; 10],
    pub streams: &'a [[u64; 4]; 16],
    pub requests: &'a [[u64; 6]; 16],
    pub names: &'a [[u8; 128]; 34],
}

// Of an array behind a reference only the length is known; of a slice also what its rows are.
fn slices_say(facts: &[u64], streams: &[[u64; 4]], requests: &[[u64; 6]], names: &[[u8; 128]])
    requires { (length facts.now ≡ 10) × ((length streams.now ≡ 16) × ((length requests.now ≡ 16) × (length names.now ≡ 34))) }
    ensures { Shaped facts.now streams.now requests.now names.now }
{}

pub fn types_say(
    facts: &[u64; 10],
    streams: &[[u64; 4]; 16],
    requests: &[[u64; 6]; 16],
    names: &[[u8; 128]; 34],
)
    ensures { Shaped facts.now streams.now requests.now names.now }
{
    slices_say(facts, streams, requests, names);
}
