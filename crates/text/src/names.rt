// A name of at most 128 bytes, by value.
ghost use Rattle.std.specs.Prelude.{◌≡◌, ◌≤◌, ◌==◌, drop, length, take};
ghost use Rattle.std.specs.Cmp.Lexicographic.{pointwise};
ghost use Rattle.std.specs.Cmp.Rules.{comparing};
ghost use Rattle.std.specs.Ordering.{on};
ghost use Rattle.std.proofs.Common.{rules};
ghost use Rattle.text.specs.Names.{empty_name, name_read, text_of};
ghost use Rattle.text.specs.Words.{same};

use crate::words::is_word;
use numbers::write_bytes;

// The text is the first `len` bytes. In every name made here the bytes past them are zeros. A name that
// is handed in may say any length: its text ends with its bytes. Fixed memory, so a length beside the bytes and no `Vec`.
#[derive(Clone, Copy)]
pub struct Name {
    pub bytes: [u8; 128],
    pub len: usize,
}

impl Name {
    // The text, lent.
    pub fn text(&self) -> &[u8]
        ensures value { result.now ≡ text_of self.now }
        ensures short { length result.now ≤ 128 }
    {
        text_of(&self.bytes, self.len)
    }
}

// Two names are the same where their texts are: bytes past them don't count.
impl PartialEq for Name {
    ghost eq = { on text_of (pointwise ◌==◌) };

    ghost laws = { Prim.search (comparing, rules) };

    fn eq(&self, other: &Name) -> bool {
        self.text() == other.text()
    }
}

pub fn empty_name() -> Name
    ensures { result ≡ empty_name }
{
    Name {
        bytes: [0u8; 128],
        len: 0,
    }
}

// The name that a text is, or none where it is over 128 bytes.
pub fn read_name(part: &[u8]) -> Option<Name>
    ensures { result ≡ name_read part.now }
{
    let len = part.len();
    if 128 < len {
        return None;
    }
    let mut bytes = [0u8; 128];
    write_bytes(&mut bytes, part);
    Some(Name { bytes, len })
}

// The first `len` bytes, lent back: a length past their end is their end.
pub fn text_of(bytes: &[u8], len: usize) -> &[u8]
    ensures { result.now ≡ take len bytes.now }
{
    &bytes[..len.min(bytes.len())]
}

// The `len` bytes from `start` on, lent back: those past the end are left out.
pub fn part_of(bytes: &[u8], start: usize, len: usize) -> &[u8]
    ensures { result.now ≡ take len (drop start bytes.now) }
{
    text_of(&bytes[start.min(bytes.len())..], len)
}

pub fn name_is(name: Name, part: &[u8]) -> bool
    ensures { result ≡ same (text_of name) part.now }
{
    is_word(name.text(), part)
}
