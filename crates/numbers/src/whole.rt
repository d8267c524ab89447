// A double as a u32, and a u32 as a double.
ghost use Rattle.std.specs.Prelude.{◌≡◌, ◌/◌, ◌<◌, ◌^◌};
ghost use Rattle.numbers.specs.Whole.{double_of, u32_of};

// A double as a u32, as Rust's cast. The patterns of doubles that are no NaN and have no sign stand in
// the order of their values, and every other pattern lies above them.
pub fn u32_of(bits: u64) -> u32
    ensures { result ≡ u32_of bits }
{
    // below 1
    if bits < 0x3FF0000000000000 {
        return 0;
    }
    // below 2 ^ 32: 52 digits after the leading one, of which the exponent says how many are whole
    if bits < 0x41F0000000000000 {
        let q = 0x10000000000000 + bits % 0x10000000000000;
        return (q >> (1075 - bits / 0x10000000000000)) as u32;
    }
    // up to the infinity
    if bits <= 0x7FF0000000000000 {
        return 4294967295;
    }
    0
}

// The double that a whole number is, exactly.
pub fn double_of_u32(n: u32) -> u64
    ensures { result ≡ double_of n }
{
    f64::to_bits(n as f64)
}
