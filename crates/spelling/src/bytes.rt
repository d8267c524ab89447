// Text goes into the rest of a lent buffer, byte by byte. `at` is how many bytes stand there; past the end nothing is put.
ghost use Rattle.std.specs.Prelude.{◌≡◌, ◌%◌};
ghost use Rattle.numbers.specs.Fields.{bytes_of};
ghost use Rattle.spelling.specs.Text.{decimal_text, glyph as glyph_of, hex_of, hex_text, name_field, number_field, put_all, put_one};

use text::Name;

#[tactic(auto, unfolding(crate::specs::Text::put_one))]
pub fn put(out: &mut [u8], at: usize, x: u8) -> usize
    ensures { (result, out.new) ≡ put_one x (at, out.old) }
{
    if at < out.len() {
        out[at] = x;
        return at + 1;
    }
    at
}

#[tactic(auto, unfolding(crate::specs::Text::put_all))]
pub fn put_word(out: &mut [u8], at: usize, word: &[u8]) -> usize
    ensures { (result, out.new) ≡ put_all word.now (at, out.old) }
{
    let mut to = at;
    for b in word {
        to = put(out, to, *b);
    }
    to
}

// A digit below 16 in ASCII, in lower case.
fn glyph(d: u8) -> u8
    ensures { result ≡ glyph_of (d % 16) }
{
    let x = d % 16;
    if x < 10 { b'0' + x } else { b'a' + (x - 10) }
}

// Two digits for each byte.
#[tactic(auto, unfolding(crate::specs::Text::put_all, crate::specs::Text::hex_of))]
pub fn put_hex(out: &mut [u8], at: usize, part: &[u8]) -> usize
    ensures { (result, out.new) ≡ put_all (hex_of part.now) (at, out.old) }
{
    let mut to = at;
    for x in part {
        to = put(out, to, glyph(*x / 16));
        to = put(out, to, glyph(*x));
    }
    to
}

// The n lowest bytes of x, the highest first.
#[tactic(auto, using(crate::proofs::TextLaws::eight_bytes))]
pub fn put_bits(out: &mut [u8], at: usize, x: u64) -> usize
    ensures { (result, out.new) ≡ put_all (hex_of (bytes_of 8 x)) (at, out.old) }
{
    put_hex(out, at, &x.to_be_bytes())
}

#[tactic(auto, using(crate::proofs::TextLaws::four_bytes))]
pub fn put_single(out: &mut [u8], at: usize, x: u32) -> usize
    ensures { (result, out.new) ≡ put_all (hex_of (bytes_of 4 x)) (at, out.old) }
{
    put_hex(out, at, &x.to_be_bytes())
}

pub fn put_decimal(out: &mut [u8], at: usize, n: u64) -> usize
    ensures { (result, out.new) ≡ put_all (decimal_text n) (at, out.old) }
{
    let mut digits = [0u8; 20];
    let k = io::decimal(n, &mut digits);
    put_word(out, at, &digits[..k])
}

// Hexadecimal, and `-` where there is nothing.
#[tactic(auto, unfolding(crate::specs::Text::hex_text, crate::specs::Text::put_all))]
pub fn put_text(out: &mut [u8], at: usize, part: &[u8]) -> usize
    ensures { (result, out.new) ≡ put_all (hex_text part.now) (at, out.old) }
{
    if part.is_empty() {
        return put(out, at, b'-');
    }
    put_hex(out, at, part)
}

// `name` stands in front, with its blank and its `=`.
#[tactic(auto, using(crate::proofs::TextLaws::put_more), unfolding(crate::specs::Text::number_field))]
pub fn put_field(out: &mut [u8], at: usize, name: &[u8], n: u64) -> usize
    ensures { (result, out.new) ≡ put_all (number_field name.now n) (at, out.old) }
{
    let to = put_word(out, at, name);
    put_decimal(out, to, n)
}

#[tactic(auto, using(crate::proofs::TextLaws::put_more), unfolding(crate::specs::Text::name_field))]
pub fn put_name(out: &mut [u8], at: usize, field: &[u8], name: Name) -> usize
    ensures { (result, out.new) ≡ put_all (name_field field.now name) (at, out.old) }
{
    let to = put_word(out, at, field);
    put_text(out, to, name.text())
}
