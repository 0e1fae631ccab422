// The remainder of a division, exactly, from two floats' bits: no call of the C library's.
#![tactic(auto)]

ghost use Rattle.std.specs.Prelude.{◌≡◌, ◌*◌, ◌%◌, ◌^◌, ◌≤◌, ◌<◌};
ghost use Rattle.std.specs.Float.{binary32};
ghost use Rattle.std.specs.Float.Ieee.{rem};
ghost use Rattle.float.specs.Pattern.{magnitude};
ghost use Rattle.float.specs.Small.{rem_euclid};
ghost use Rattle.remainder.specs.Parts.{Parts};

// A size in units of the smallest value: at most 24 digits, and zeros behind them.
#[derive(Clone, Copy)]
struct Size {
    digits: u32,
    zeros: u32,
}

// The size of a finite pattern whose sign is clear. That a pattern is finite, here and below, is a bound on one number: as a clause it is shorter than a type
// for it would be.
#[tactic(auto, using(crate::proofs::Sizes::low_parts, crate::proofs::Sizes::high_parts))]
fn size_of(b: u32) -> Size
    requires { b < 0x7f80_0000 }
    ensures { Parts b result.digits result.zeros }
{
    if b < 0x80_0000 {
        return Size {
            digits: b,
            zeros: 0,
        };
    }
    Size {
        digits: 0x80_0000 + b % 0x80_0000,
        zeros: b / 0x80_0000 - 1,
    }
}

// What a size leaves when it is divided by m.
fn rest_of(n: Size, m: u32) -> u32
    requires { (0 < m) × (m < 2 ^ 24) }
    ensures { (result ≡ n.digits * 2 ^ n.zeros % m) × (result < m) }
{
    let mut r = n.digits % m;
    for _zero in 0..n.zeros {
        r = r * 2 % m;
    }
    r
}

// The pattern of a size: its digits are moved up until there are 24, or no zero is left.
fn pattern_of(s: Size) -> u32
    requires { (s.digits < 2 ^ 24) × (s.zeros ≤ 253) }
    ensures { (magnitude result ≡ s.digits * 2 ^ s.zeros) × (result < 0x7f80_0000) }
{
    let mut r = s.digits;
    let mut k = s.zeros;
    // It goes turn by turn, since of 0, which must end with no zero left, no number of places could be read off.
    while 0 < k && r < 0x80_0000 {
        r *= 2;
        k -= 1;
    }
    k * 0x80_0000 + r
}

// The pattern of what a leaves when it is divided by m, both by their patterns.
fn rest_pattern(a: u32, m: u32) -> u32
    requires { (a < 0x7f80_0000) × (0 < m) × (m < 0x7f80_0000) }
    ensures { (magnitude result ≡ magnitude a % magnitude m) × (result < 0x7f80_0000) }
{
    let x = size_of(a);
    let y = size_of(m);
    if x.zeros < y.zeros {
        return a;
    }
    let zeros = x.zeros - y.zeros;
    let digits = rest_of(Size { zeros, ..x }, y.digits);
    pattern_of(Size { digits, ..y })
}

// a % m.
#[tactic(auto, using(std::proofs::lemmas::Float::not_nan_f32_bits))]
pub fn rem(a: f32, m: f32) -> f32
    ensures { result ≡ rem binary32 a m }
{
    if a.is_nan() {
        return a;
    }
    if m.is_nan() {
        return m;
    }
    let n = f32::to_bits(a);
    let x = n % 0x8000_0000;
    let y = f32::to_bits(m) % 0x8000_0000;
    if 0x7f80_0000 <= x {
        return f32::NAN;
    }
    if y == 0 {
        return f32::NAN;
    }
    if 0x7f80_0000 <= y {
        return a;
    }
    let r = f32::from_bits(rest_pattern(x, y));
    if n < 0x8000_0000 { r } else { -r }
}

// a % m, and |m| more where that is below zero.
#[tactic(auto, unfolding(float::specs::Small::rem_euclid))]
pub fn rem_euclid(a: f32, m: f32) -> f32
    ensures { result ≡ rem_euclid a m }
{
    let r = rem(a, m);
    if r < 0.0 { r + float::abs(m) } else { r }
}
