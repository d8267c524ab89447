// What stands at a place of a body: a value's marker and what follows it.
ghost use Rattle.std.specs.Prelude.{◌≡◌, ◌≤◌, length};
ghost use Rattle.amf0.specs.declared.value.Amf0Value.TheVariants.{LongText, Number, Text};
ghost use Rattle.std.specs.Float.{binary64};
ghost use Rattle.std.specs.Float.Ieee.{of_bits};
ghost use Rattle.numbers.specs.Fields.{field_at};
ghost use Rattle.amf0.specs.Reading.{by_marker, extent, extent_at, held, name_at, past, read_at, text_at};

use crate::error::BodyError;
use numbers::{byte_at, f64_of, u16_at, u32_at, u64_at};

// A value with its places in the body. Echoed number bits are read again, as eight bytes past the marker.
#[derive(Clone, Copy, Debug, PartialEq)]
pub enum Amf0Value {
    Number(f64),
    Boolean(bool),
    Text { start: usize, len: usize },
    Object { start: usize },
    Null,
    Undefined,
    EcmaArray { start: usize },
    StrictArray { start: usize },
    Date,
    LongText { start: usize, len: usize },
}

// `next` is where the value ends, or of a container where what it holds begins, its count if it has one.
#[derive(Clone, Copy, Debug, PartialEq)]
pub struct Read {
    pub value: Amf0Value,
    pub next: usize,
}

// How far what was read goes: it ends at a place, or holds something from a place on.
#[derive(Clone, Copy, Debug, PartialEq, Eq)]
pub enum Extent {
    Ends(usize),
    Pairs(usize),
    CountedPairs(usize),
    Values(usize),
}

// What stands where a property's name is expected.
#[derive(Clone, Copy, Debug, PartialEq, Eq)]
pub enum NameAt {
    End(usize),
    Value(usize),
}

// The place behind the n bytes from p on, if they are in the body.
#[tactic(auto, using(crate::proofs::ReadingLaws::past_yes, crate::proofs::ReadingLaws::past_no))]
pub fn past(body: &[u8], p: usize, n: usize) -> Option<usize>
    ensures { result ≡ past body.now p n }
{
    if p <= body.len() && n <= body.len() - p {
        Some(p + n)
    } else {
        None
    }
}

// The value, if the n bytes from p on are in the body.
#[tactic(auto, using(crate::proofs::ReadingLaws::past_yes, crate::proofs::ReadingLaws::past_no))]
fn hold(body: &[u8], p: usize, n: usize, value: Amf0Value) -> Option<Read>
    requires { p ≤ length body.now }
    ensures { result ≡ held body.now p n value }
{
    if n <= body.len() - p {
        Some(Read { value, next: p + n })
    } else {
        None
    }
}

// Read only where all eight bytes are there, so as one word.
#[tactic(auto, using(crate::proofs::ReadingLaws::past_yes, crate::proofs::ReadingLaws::past_no))]
fn read_number(body: &[u8], p: usize) -> Option<Read>
    requires { p ≤ length body.now }
    ensures { result ≡ held body.now p 8 (Number (of_bits binary64 (field_at 8 body.now p))) }
{
    if body.len() - p < 8 {
        return None;
    }
    hold(body, p, 8, Amf0Value::Number(f64_of(u64_at(body, p))))
}

// A text after its length of two bytes. Every string is read here.
#[tactic(auto, using(crate::proofs::ReadingLaws::past_yes, crate::proofs::ReadingLaws::past_no))]
fn read_text(body: &[u8], p: usize) -> Option<Read>
    requires { p ≤ length body.now }
    ensures { result ≡ text_at 2 Text body.now p }
{
    if body.len() - p < 2 {
        return None;
    }
    let len = u16_at(body, p) as usize;
    let start = p + 2;
    hold(body, start, len, Amf0Value::Text { start, len })
}

// A long string after its length of four bytes. One function for both would take the width, its reader and the case.
#[tactic(auto, using(crate::proofs::ReadingLaws::past_yes, crate::proofs::ReadingLaws::past_no))]
fn read_long_text(body: &[u8], p: usize) -> Option<Read>
    requires { p ≤ length body.now }
    ensures { result ≡ text_at 4 LongText body.now p }
{
    if body.len() - p < 4 {
        return None;
    }
    let len = u32_at(body, p) as usize;
    let start = p + 4;
    hold(body, start, len, Amf0Value::LongText { start, len })
}

// What the marker m says of the bytes from p on, which follow it. Markers are the format's own numbers, told apart here alone.
#[tactic(auto, unfolding(crate::specs::Reading::by_marker))]
fn read_marked(body: &[u8], p: usize, m: u8) -> Option<Read>
    requires { p ≤ length body.now }
    ensures { result ≡ by_marker body.now p m }
{
    match m {
        0x00 => read_number(body, p),
        0x01 => hold(body, p, 1, Amf0Value::Boolean(byte_at(body, p) != 0)),
        0x02 => read_text(body, p),
        0x03 => hold(body, p, 0, Amf0Value::Object { start: p }),
        0x05 => hold(body, p, 0, Amf0Value::Null),
        0x06 => hold(body, p, 0, Amf0Value::Undefined),
        0x08 => hold(body, p, 0, Amf0Value::EcmaArray { start: p }),
        0x0A => hold(body, p, 0, Amf0Value::StrictArray { start: p }),
        0x0B => hold(body, p, 10, Amf0Value::Date),
        0x0C => read_long_text(body, p),
        _ => None,
    }
}

// What stands at a place: a value, or none where the body has ended, the marker is unknown or the value is cut.
// Inlined, so that a reader that asks where it ends alone makes no value.
#[tactic(auto, using(crate::proofs::ReadingLaws::past_yes, crate::proofs::ReadingLaws::past_no), unfolding(crate::specs::Reading::read_at))]
#[inline(always)]
pub fn read_value(body: &[u8], at: usize) -> Option<Read>
    ensures { result ≡ read_at body.now at }
{
    let marker = *body.get(at)?;
    read_marked(body, at + 1, marker)
}

// How far it goes. Whether a value holds pairs is asked here alone.
fn extent_of(value: Amf0Value, next: usize) -> Extent
    ensures { result ≡ extent value next }
{
    match value {
        Amf0Value::Object { .. } => Extent::Pairs(next),
        Amf0Value::EcmaArray { .. } => Extent::CountedPairs(next),
        Amf0Value::StrictArray { .. } => Extent::Values(next),
        _ => Extent::Ends(next),
    }
}

#[tactic(auto, unfolding(crate::specs::Reading::extent_at))]
pub fn extent_at(body: &[u8], at: usize) -> Result<Extent, BodyError>
    ensures { result ≡ extent_at body.now at }
{
    let read = read_value(body, at).ok_or(BodyError::NotAmf0)?;
    Ok(extent_of(read.value, read.next))
}

// A property's name at i, or the end mark. Every name is read here.
#[tactic(auto, using(crate::proofs::ReadingLaws::past_in), unfolding(crate::specs::Reading::name_at))]
pub fn read_name(body: &[u8], i: usize) -> Result<NameAt, BodyError>
    ensures { result ≡ name_at body.now i }
{
    let v = past(body, i, 2).ok_or(BodyError::NotAmf0)?;
    let n = u16_at(body, i) as usize;
    if n > 0 {
        let end = past(body, v, n).ok_or(BodyError::NotAmf0)?;
        return Ok(NameAt::Value(end));
    }
    let end = past(body, v, 1).ok_or(BodyError::NotAmf0)?;
    if body[v] != 9 {
        return Err(BodyError::NotAmf0);
    }
    Ok(NameAt::End(end))
}
