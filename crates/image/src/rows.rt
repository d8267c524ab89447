// A row of either table.
ghost use Rattle.std.specs.Prelude.{◌≡◌, ℕ, ◌%◌, Bool, List, refl, eqb, position, take};
ghost use Rattle.text.specs.declared.names.Name.{Name};
ghost use Rattle.image.specs.Image.{request_of, request_readable, stream_of, stream_readable};
ghost use Rattle.image.specs.Quick.{request_weight, row_number, stream_weight};

use crate::cases::{kind_of, mode_of, state_of};
use tables::{Entry, Request, Stream};
use text::{Name, RequestId, StreamId};

// A number of 32 bits; `readable` sees to it that nothing is cut.
pub fn short_number(n: u64) -> u32
    ensures { result ≡ n % 4294967296 }
{
    (n % 4294967296) as u32
}

pub trait Row: Copy {
    // What stands in the row, with its name.
    type Entry: Entry;

    ghost readable: { Self → Bool };

    ghost number: { Self → ℕ };

    ghost weight: { Self → Name };

    ghost entry: { Self → List ℕ → Self.Entry };

    // Whether each number names a case or fits its 32 bits.
    fn readable(self) -> bool
        ensures { result ≡ readable self };

    fn number(self) -> u64
        ensures { result ≡ number self };

    // The length of the name, or one that is too long where the row is not readable.
    fn weight(self) -> u64
        ensures { result ≡ (weight self).len };

    fn entry(self, bytes: [u8; 128]) -> Self::Entry
        ensures { result ≡ entry self bytes };

    ghost numbered: { (row : Self) (bytes : List ℕ) → Self.Entry.number (entry row bytes) ≡ number row % 4294967296 };
}

// The place of the first row of a number among those in use.
pub fn place<R: Row>(rows: &[R], count: usize, id: u32) -> Option<usize>
    ensures { result ≡ position (λ row. eqb (R.number row % 4294967296) id) (take count rows.now) }
{
    rows.iter()
        .take(count)
        .position(|row| short_number(row.number()) == id)
}

impl Row for [u64; 4] {
    type Entry = Stream;

    ghost readable = { stream_readable };

    ghost number = { row_number };

    ghost weight = { stream_weight };

    ghost entry = { stream_of };

    ghost numbered = { λ row bytes. refl };

    #[tactic(auto, unfolding(crate::specs::Image::stream_readable))]
    fn readable(self) -> bool {
        self[0] < 4294967296 && self[1] < 4 && self[2] < 3
    }

    fn number(self) -> u64 {
        self[0]
    }

    fn weight(self) -> u64 {
        if self[1] < 4 && self[2] < 3 {
            self[3]
        } else {
            129
        }
    }

    fn entry(self, bytes: [u8; 128]) -> Stream {
        Stream {
            id: StreamId(short_number(self[0])),
            state: state_of(self[1]),
            mode: mode_of(self[2]),
            key: Name {
                bytes,
                len: self[3] as usize,
            },
        }
    }
}

impl Row for [u64; 6] {
    type Entry = Request;

    ghost readable = { request_readable };

    ghost number = { row_number };

    ghost weight = { request_weight };

    ghost entry = { request_of };

    ghost numbered = { λ row bytes. refl };

    #[tactic(auto, unfolding(crate::specs::Image::request_readable))]
    fn readable(self) -> bool {
        self[0] < 4294967296 && self[1] < 3 && self[2] < 4294967296 && self[3] < 3
    }

    fn number(self) -> u64 {
        self[0]
    }

    fn weight(self) -> u64 {
        if self[1] < 3 && self[2] < 4294967296 && self[3] < 3 {
            self[5]
        } else {
            129
        }
    }

    fn entry(self, bytes: [u8; 128]) -> Request {
        Request {
            id: RequestId(short_number(self[0])),
            kind: kind_of(self[1]),
            stream: StreamId(short_number(self[2])),
            mode: mode_of(self[3]),
            transaction: self[4],
            name: Name {
                bytes,
                len: self[5] as usize,
            },
        }
    }
}
