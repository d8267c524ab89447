// Big-endian fields, read from and written to lent bytes.
ghost use Rattle.std.specs.Prelude.{◌≡◌, ◌+◌, ◌*◌, ◌≤◌, ◌<◌, ◌^◌, get_or, length};
ghost use Rattle.numbers.specs.Fields.{bytes_of, field_at, front, over};

// The byte i places past `at`; 0 past the end.
fn byte_past(s: &[u8], at: usize, i: usize) -> u8
    ensures { result ≡ get_or s.now (at + i) 0 }
{
    // Two tests that no sum can wrap: so the bytes of a field are read as one word.
    if at < s.len() && i < s.len() - at {
        s[at + i]
    } else {
        0
    }
}

// The n bytes from `at` on as one number, the highest first.
fn field_at(s: &[u8], at: usize, n: usize) -> u64
    requires { n ≤ 8 }
    ensures { (result ≡ field_at n s.now at) × (result < 2 ^ (8 * n)) }
{
    let mut x: u64 = 0;
    for i in 0..n {
        x = x * 256 + u64::from(byte_past(s, at, i));
    }
    x
}

pub fn byte_at(s: &[u8], at: usize) -> u8
    ensures { result ≡ field_at 1 s.now at }
{
    field_at(s, at, 1) as u8
}

pub fn u16_at(s: &[u8], at: usize) -> u16
    ensures { result ≡ field_at 2 s.now at }
{
    field_at(s, at, 2) as u16
}

pub fn u24_at(s: &[u8], at: usize) -> u32
    ensures { result ≡ field_at 3 s.now at }
{
    field_at(s, at, 3) as u32
}

pub fn u32_at(s: &[u8], at: usize) -> u32
    ensures { result ≡ field_at 4 s.now at }
{
    field_at(s, at, 4) as u32
}

pub fn u64_at(s: &[u8], at: usize) -> u64
    ensures { result ≡ field_at 8 s.now at }
{
    field_at(s, at, 8)
}

// Writes the n lowest bytes of x at the front of out, the highest first.
pub fn write_field(out: &mut [u8], n: usize, x: u64)
    requires { n ≤ length out.old }
    ensures { out.new ≡ front (bytes_of n x) out.old }
{
    let mut v = x;
    for i in (0..n).rev() {
        out[i] = (v % 256) as u8;
        v /= 256;
    }
}

// Writes src at the front of out.
#[tactic(auto, using(crate::proofs::FieldsLaws::front_nil, crate::proofs::FieldsLaws::bytes_all))]
pub fn write_bytes(out: &mut [u8], src: &[u8])
    requires { length src.now ≤ length out.old }
    ensures { out.new ≡ front src.now out.old }
{
    // By hand: `copy_from_slice` is C's memmove, which the archive for C would ask its host for.
    for (i, b) in src.iter().enumerate() {
        out[i] = *b;
    }
}

// The same two from `at` on: the rest of the buffer is lent on.
pub fn write_field_at(out: &mut [u8], at: usize, n: usize, x: u64)
    requires { at + n ≤ length out.old }
    ensures { out.new ≡ over at (bytes_of n x) out.old }
{
    write_field(&mut out[at..], n, x);
}

pub fn write_bytes_at(out: &mut [u8], at: usize, src: &[u8])
    requires { at + length src.now ≤ length out.old }
    ensures { out.new ≡ over at src.now out.old }
{
    write_bytes(&mut out[at..], src);
}
