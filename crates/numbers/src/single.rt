// A double as a single and back, by their bits and as floats.
ghost use Rattle.std.specs.Prelude.{◌≡◌, ◌-◌, ◌≤◌, ◌<◌, ◌^◌, min};
ghost use Rattle.std.specs.Float.{binary32, binary64};
ghost use Rattle.std.specs.Float.Ieee.{of_bits, to_bits};
ghost use Rattle.std.specs.Float.Ieee.Nearest.{closest};
ghost use Rattle.numbers.specs.Single.{convert, digits, recode};

// q / u to the nearest whole number, a tie to the even one.
fn nearest_whole(q: u64, u: u64) -> u64
    requires u_nonzero { 0 < u }
    requires q_bound { q < 2 ^ 53 }
    ensures { result ≡ closest q u }
{
    let n = q / u;
    let r = q % u;
    let d = u - r;
    if r < d {
        return n;
    }
    if d < r {
        return n + 1;
    }
    n + n % 2
}

// q / 2 ^ s to the nearest whole number: from 54 places on that is 0.
fn nearest_shifted(q: u64, s: u64) -> u64
    requires { q < 2 ^ 53 }
    ensures { (result ≡ closest q (2 ^ s)) × (result ≤ 2 ^ 53) }
{
    if 54 <= s {
        return 0;
    }
    nearest_whole(q, 1 << s)
}

// The digits of a double, with the leading one that its exponent's field stands for.
fn double_digits(bits: u64) -> u64
    ensures { (result ≡ digits binary64 bits) × (result < 2 ^ 53) }
{
    let x = bits % 0x8000000000000000 / 0x10000000000000;
    if x == 0 {
        return bits % 0x10000000000000;
    }
    0x10000000000000 + bits % 0x10000000000000
}

// The single nearest to a double. One formula serves subnormals, a carry into the exponent and overflow.
pub fn single_of(bits: u64) -> u32
    ensures { result ≡ recode binary64 binary32 bits }
{
    let m = bits % 0x8000000000000000;
    if 0x7FF0000000000000 < m {
        return 0x7FC00000;
    }
    let j = (m / 0x10000000000000).saturating_sub(1);
    let k = j.saturating_sub(896);
    let n = nearest_shifted(double_digits(bits), 925 + k - j);
    let v = (k * 0x800000 + n).min(0x7F800000);
    (bits / 0x8000000000000000 * 0x80000000 + v) as u32
}

// The double that a single is, exactly.
pub fn double_of_single(bits: u32) -> u64
    ensures { result ≡ recode binary32 binary64 bits }
{
    let m = bits % 0x80000000;
    if 0x7F800000 < m {
        return 0x7FF8000000000000;
    }
    f64::to_bits(f32::from_bits(bits) as f64)
}

// The value that a double's bits stand for: every NaN's pattern is the one NaN.
pub fn f64_of(bits: u64) -> f64
    ensures { result ≡ of_bits binary64 bits }
{
    let m = bits % 0x8000000000000000;
    if 0x7FF0000000000000 < m {
        return 0.0 / 0.0;
    }
    f64::from_bits(bits)
}

// The single nearest to a double, as a float to hold.
pub fn f32_of(bits: u64) -> f32
    ensures { result ≡ convert binary32 (of_bits binary64 bits) }
{
    let s = single_of(bits);
    if 0x7F800000 < s % 0x80000000 {
        return 0.0 / 0.0;
    }
    f32::from_bits(s)
}

// The double that a held single is, exactly: its bits.
pub fn bits_of_f32(x: f32) -> u64
    ensures { result ≡ to_bits binary64 x }
{
    if x != x {
        return 0x7FF8000000000000;
    }
    f64::to_bits(x as f64)
}
