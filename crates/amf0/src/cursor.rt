// A cursor over a body's values, by value: what stands there, and the next one.
ghost use Rattle.std.specs.Prelude.{◌≡◌};
ghost use Rattle.amf0.specs.Bodies.{place_after};
ghost use Rattle.amf0.specs.Reading.{read_at};

use crate::skip::{NESTED, skip_value};
use crate::value::{Read, read_value};

#[derive(Clone, Copy, Debug, PartialEq, Eq)]
pub struct Cursor {
    pub at: usize,
}

impl Cursor {
    pub fn start() -> Cursor
        ensures { result.at ≡ 0 }
    {
        Cursor { at: 0 }
    }

    pub fn read(self, body: &[u8]) -> Option<Read>
        ensures { result ≡ read_at body.now self.at }
    {
        read_value(body, self.at)
    }

    // Past the value, or at the body's end where there is none.
    #[tactic(auto, unfolding(crate::specs::Bodies::place_after))]
    pub fn next(self, body: &[u8]) -> Cursor
        ensures { result.at ≡ place_after body.now self.at }
    {
        Cursor {
            at: skip_value(body, self.at, NESTED).unwrap_or(body.len()),
        }
    }
}
