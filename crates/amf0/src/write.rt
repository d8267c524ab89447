// Values written at the front of a part of the out buffer that the caller lends, each with its twin that writes from
// `at` on and lends the rest of the buffer. Bytes past what is written stay. A string's length is two bytes, so
// every writer of one asks for less than 65,536 bytes; names are at most 128 and texts at most 256 and a name.
#![tactic(auto, using(numbers::proofs::FieldsLaws::lent_part), unfolding(crate::specs::Writing::encode, numbers::specs::Fields::bytes_of))]

ghost use Rattle.std.specs.Prelude.{◌≡◌, [], ◌∷◌, ◌+◌, ◌≤◌, ◌<◌, length};
ghost use Rattle.numbers.specs.Fields.{front, over};
ghost use Rattle.amf0.specs.Grammar.{boolean, counted, none, null, number, string};
ghost use Rattle.amf0.specs.Writing.{encode, encode_in};

use numbers::{write_bytes_at, write_field, write_field_at};

// A number, by its bits: nine bytes.
pub fn write_number(out: &mut [u8], bits: u64)
    requires { 9 ≤ length out.old }
    ensures { out.new ≡ front (encode (number bits)) out.old }
{
    write_field_at(out, 0, 1, 0x00);
    write_field_at(out, 1, 8, bits);
}

// A boolean: two bytes.
pub fn write_boolean(out: &mut [u8], b: bool)
    requires { 2 ≤ length out.old }
    ensures { out.new ≡ front (encode (boolean b)) out.old }
{
    write_field(out, 2, if b { 0x0101 } else { 0x0100 });
}

// A null: one byte.
pub fn write_null(out: &mut [u8])
    requires { 1 ≤ length out.old }
    ensures { out.new ≡ front (encode null) out.old }
{
    write_field(out, 1, 0x05);
}

// A property's name: its length in two bytes, and its bytes.
pub fn write_name(out: &mut [u8], name: &[u8])
    requires { (2 + length name.now ≤ length out.old) × (length name.now < 65536) }
    ensures { out.new ≡ front (counted 2 name.now) out.old }
{
    write_field_at(out, 0, 2, name.len() as u64);
    write_bytes_at(out, 2, name);
}

// A string: its marker, and its text as a name's.
pub fn write_string(out: &mut [u8], text: &[u8])
    requires { (3 + length text.now ≤ length out.old) × (length text.now < 65536) }
    ensures { out.new ≡ front (encode (string text.now)) out.old }
{
    write_field_at(out, 0, 1, 0x02);
    write_name_at(out, 1, text);
}

// The beginning of an object, before its first name: one byte.
pub fn write_object_begin(out: &mut [u8])
    requires { 1 ≤ length out.old }
    ensures { out.new ≡ front (0x03 ∷ []) out.old }
{
    write_field(out, 1, 0x03);
}

// The end of an object, after its last value: three bytes.
pub fn write_object_end(out: &mut [u8])
    requires { 3 ≤ length out.old }
    ensures { out.new ≡ front (encode_in none) out.old }
{
    write_field(out, 3, 0x09);
}

pub fn write_number_at(out: &mut [u8], at: usize, bits: u64)
    requires { at + 9 ≤ length out.old }
    ensures { out.new ≡ over at (encode (number bits)) out.old }
{
    write_number(&mut out[at..], bits);
}

pub fn write_boolean_at(out: &mut [u8], at: usize, b: bool)
    requires { at + 2 ≤ length out.old }
    ensures { out.new ≡ over at (encode (boolean b)) out.old }
{
    write_boolean(&mut out[at..], b);
}

pub fn write_null_at(out: &mut [u8], at: usize)
    requires { at + 1 ≤ length out.old }
    ensures { out.new ≡ over at (encode null) out.old }
{
    write_null(&mut out[at..]);
}

pub fn write_name_at(out: &mut [u8], at: usize, name: &[u8])
    requires { (at + (2 + length name.now) ≤ length out.old) × (length name.now < 65536) }
    ensures { out.new ≡ over at (counted 2 name.now) out.old }
{
    write_name(&mut out[at..], name);
}

pub fn write_string_at(out: &mut [u8], at: usize, text: &[u8])
    requires { (at + (3 + length text.now) ≤ length out.old) × (length text.now < 65536) }
    ensures { out.new ≡ over at (encode (string text.now)) out.old }
{
    write_string(&mut out[at..], text);
}

pub fn write_object_begin_at(out: &mut [u8], at: usize)
    requires { at + 1 ≤ length out.old }
    ensures { out.new ≡ over at (0x03 ∷ []) out.old }
{
    write_object_begin(&mut out[at..]);
}

pub fn write_object_end_at(out: &mut [u8], at: usize)
    requires { at + 3 ≤ length out.old }
    ensures { out.new ≡ over at (encode_in none) out.old }
{
    write_object_end(&mut out[at..]);
}
