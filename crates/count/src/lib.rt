// The number of segments of a curve, from a root's bits, and whether it was held back.
#![tactic(auto)]

ghost use Rattle.std.specs.Prelude.{◌≡◌};
ghost use Rattle.float.specs.Pattern.{clamped_ceiling, CountRoot};
ghost use Rattle.float.specs.Count.{segment_answer};

use float::{MAX_SEGMENTS, SegmentCount};

// Bits from which N and whether it was held back are read: those of the rounded root where s is above zero, else 0. That is a root like any other, +0's, from
// which both are read right: a `None` would only have them written a second time.
fn count_root(squared: f32) -> u32
    ensures { CountRoot squared result }
{
    if 0.0 < squared {
        let b = f32::to_bits(squared);
        if 0x7f80_0000 <= b {
            return 0x7f80_0000; // +∞ is its own root
        }
        return root::root_pattern(b);
    }
    0
}

// The value of a root's bits, rounded up to a whole number and clamped to 1..1,000.
fn clamped_ceiling(b: u32) -> u32
    ensures { result ≡ clamped_ceiling b }
{
    if b < 0x3f80_0000 {
        return 1;
    }
    if 0x4480_0000 <= b {
        return MAX_SEGMENTS;
    }
    // from 1 up to 1024: of the 24 digits, 14 to 23 are below the point
    let shift = 150 - b / 0x80_0000;
    let digits = 0x80_0000 + b % 0x80_0000;
    let n = (digits + ((1 << shift) - 1)) >> shift;
    n.min(MAX_SEGMENTS)
}

// How many segments a curve takes, from the square of their number by Wang's bound, and whether that was held back: the root is over 1,000.
#[tactic(auto, using(std::proofs::lemmas::Float::not_nan_f32_bits))]
pub fn segment_count(squared: f32) -> SegmentCount
    ensures { result ≡ segment_answer squared }
{
    let root = count_root(squared);
    SegmentCount {
        count: clamped_ceiling(root),
        held: (MAX_SEGMENTS as f32) < f32::from_bits(root),
    }
}
