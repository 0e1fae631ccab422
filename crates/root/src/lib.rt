// IEEE 754's squareRoot, from a float's bits.
#![tactic(auto)]

ghost use Rattle.std.specs.Prelude.{◌≡◌, ◌^◌, ◌≤◌, ◌<◌, T, not};
ghost use Rattle.std.specs.Float.{binary32};
ghost use Rattle.std.specs.Float.Ieee.{of_bits, is_nan};
ghost use Rattle.float.specs.Root.{square_root};
ghost use Rattle.float.specs.Pattern.{Normal, WholeRoot, rounded};

#[derive(Clone, Copy)]
struct Root {
    root: u64,
    remainder: u64,
}

// Near the root of the value of a finite pattern b, in f64: a guess y of the reciprocal root straight from the bits, good to 3 parts in 100, and the
// reciprocal root's polynomial of degree 5 at x * y * y, as a product of factors. Nothing is promised of it: `whole_root` tests what it gives.
// Measured over the normal patterns: from 3 parts in 10^12 below the root to 6 in 10^10 above, so that its first 24 digits are the root's in 996 of 1,000
// cases, and in all where the root is whole.
#[tactic(auto, using(std::proofs::lemmas::Float::not_nan_f64_bits))]
fn near_root(x: f32, b: u32) -> f64
    requires { T (not (is_nan x)) × (b < 0x8000_0000) }
{
    let wide = x as f64;
    let y = f64::from_bits(0x43dc_0b50_0000_0000 - (b as u64) * 0x1000_0000);
    let p = wide * y;
    let z = p * y;
    let line = p * (36.17995829629946 - 38.237673896994394 * z);
    let first = (z - 1.2925041732479257) * z + 0.646966214702527;
    let second = (z - 0.2048741615911786) * z + 0.18304128867345645;
    line * first * second
}

// The largest number whose square is at most n, and what is left of n, from any guess: Newton's step gives a number that is no smaller than the root.
fn newton_root(n: u64, guess: u64) -> Root
    requires { (n < 2 ^ 48) × (2 ^ 23 ≤ guess) × (guess < 2 ^ 25) }
    ensures { WholeRoot n result.root result.remainder }
{
    let mut r = (guess + n / guess) / 2;
    while n < r * r {
        r = (r + n / r) / 2;
    }
    Root {
        root: r,
        remainder: n - r * r,
    }
}

// The same from a float whose first 24 digits may be the root's. Where the remainder is none, Newton's steps find the root.
fn whole_root(n: u64, near: f64) -> Root
    requires { n < 2 ^ 48 }
    ensures { WholeRoot n result.root result.remainder }
{
    if 0.0 < near {
        let root = f64::to_bits(near) / 0x2000_0000 % 0x80_0000 + 0x80_0000;
        let square = root * root;
        if square <= n {
            let remainder = n - square;
            if remainder <= 2 * root {
                return Root { root, remainder };
            }
        }
    }
    newton_root(n, 0x100_0000)
}

// The root to the nearest whole number. There is no tie: the square of a number half way between is no whole number.
fn rounded_root(r: Root) -> u64
    requires { r.root < 2 ^ 24 }
    ensures { result ≡ rounded r.root r.remainder }
{
    if r.remainder > r.root {
        r.root + 1
    } else {
        r.root
    }
}

// The pattern of the root of a normal pattern: times a power of four the operand is a whole number of 47 or 48 digits, whose root has 24. That a pattern is
// finite, here and below, is a bound on one number: as a clause it is shorter than a type for it would be.
#[tactic(auto, using(std::proofs::lemmas::Float::not_nan_f32_bits))]
fn normal_root(b: u32) -> u32
    requires { (0x80_0000 ≤ b) × (b < 0x7f80_0000) }
    ensures { (of_bits binary32 result ≡ square_root binary32 (of_bits binary32 b)) × (result < 0x7f80_0000) }
{
    let n = ((0x80_0000 + b % 0x80_0000) as u64) << (24 - b / 0x80_0000 % 2);
    let r = rounded_root(whole_root(n, near_root(f32::from_bits(b), b)));
    (b + 0x3e80_0000) / 0x100_0000 * 0x80_0000 + r as u32
}

// A significand of 24 digits, and the power of two that it is to be multiplied by, counted from 2^-173.
#[derive(Clone, Copy)]
struct Scaled {
    significand: u64,
    exponent: u32,
}

// The parts of a subnormal pattern above zero: its leading zeros are shifted out.
fn subnormal_parts(b: u32) -> Scaled
    requires { (0 < b) × (b < 0x80_0000) }
    ensures { Normal b result.significand result.exponent }
{
    let shift = u32::leading_zeros(b) - 8;
    Scaled {
        significand: (b as u64) << shift,
        exponent: 24 - shift,
    }
}

// The pattern of the root of a subnormal pattern above zero.
fn subnormal_root(b: u32) -> u32
    requires { (0 < b) × (b < 0x80_0000) }
    ensures { (of_bits binary32 result ≡ square_root binary32 (of_bits binary32 b)) × (result < 0x7f80_0000) }
{
    let p = subnormal_parts(b);
    let e = p.exponent;
    let n = p.significand << (23 + e % 2);
    let r = rounded_root(newton_root(n, 0x100_0000));
    (e + 102) / 2 * 0x80_0000 + r as u32
}

// The pattern of the root of a finite pattern above zero.
pub fn root_pattern(b: u32) -> u32
    requires { (0 < b) × (b < 0x7f80_0000) }
    ensures { (of_bits binary32 result ≡ square_root binary32 (of_bits binary32 b)) × (result < 0x7f80_0000) }
{
    if 0x80_0000 <= b {
        normal_root(b)
    } else {
        subnormal_root(b)
    }
}

// IEEE 754's squareRoot.
#[tactic(auto, using(std::proofs::lemmas::Float::not_nan_f32_bits))]
pub fn sqrt(x: f32) -> f32
    ensures { result ≡ square_root binary32 x }
{
    if x.is_nan() {
        return x;
    }
    let b = f32::to_bits(x);
    if 0x80_0000 <= b {
        if b < 0x7f80_0000 {
            return f32::from_bits(normal_root(b));
        }
    }
    if 0x8000_0000 < b {
        return f32::NAN;
    }
    if b == 0 {
        return x;
    }
    if 0x80_0000 <= b {
        return x; // −0, or +∞
    }
    f32::from_bits(subnormal_root(b))
}
