// How many lines a curve becomes, by Wang's formula: flatten.rs.
#![tactic(auto)]

ghost use Rattle.std.specs.Prelude.{◌≡◌};
ghost use Rattle.float.specs.Count.{segment_answer};
ghost use Rattle.curve.specs.Count.{bend, second, slack, quad_s, cubic_s};

use float::SegmentCount;
use vec2::Vec2;

fn second_difference(a: Vec2, b: Vec2, c: Vec2) -> Vec2
    ensures { result ≡ second a b c }
{
    a - b * 2.0 + c
}

// The larger component times √2: a square would overflow earlier. A NaN stays a NaN.
#[tactic(auto, unfolding(curve::specs::Count::bend))]
fn second_difference_magnitude(v: Vec2) -> f32
    ensures { result ≡ bend v }
{
    if v.is_nan() {
        return f32::NAN;
    }
    v.abs().max_element() * 1.41421356
}

// Four times the tolerance, which is 2^-126 at least.
fn slack_of(tolerance: f32) -> f32
    ensures { result ≡ slack tolerance }
{
    4.0 * float::max(tolerance, 1.17549435e-38)
}

// s of a quad: the square of the number of lines that Wang's bound asks for.
fn quad_s(p0: Vec2, p1: Vec2, p2: Vec2, tolerance: f32) -> f32
    ensures { result ≡ quad_s tolerance p0 p1 p2 }
{
    let m = second_difference_magnitude(second_difference(p0, p1, p2));
    m / slack_of(tolerance)
}

// The same for a cubic: another formula, of two second differences.
fn cubic_s(p0: Vec2, p1: Vec2, p2: Vec2, p3: Vec2, tolerance: f32) -> f32
    ensures { result ≡ cubic_s tolerance p0 p1 p2 p3 }
{
    let d0 = second_difference_magnitude(second_difference(p0, p1, p2));
    let d1 = second_difference_magnitude(second_difference(p1, p2, p3));
    let m = float::max(d0, d1);
    3.0 * m / slack_of(tolerance)
}

// How many lines a quad becomes, and whether it was held back (W2). The pair are the scope's two forms; what they share is one function below them. The points
// come one by one, as a segment names them, and the tolerance behind them, as in the source.
pub fn quad_segment_count(p0: Vec2, p1: Vec2, p2: Vec2, tolerance: f32) -> SegmentCount
    ensures { result ≡ segment_answer (quad_s tolerance p0 p1 p2) }
{
    count::segment_count(quad_s(p0, p1, p2, tolerance))
}

// The same for a cubic.
pub fn cubic_segment_count(p0: Vec2, p1: Vec2, p2: Vec2, p3: Vec2, tolerance: f32) -> SegmentCount
    ensures { result ≡ segment_answer (cubic_s tolerance p0 p1 p2 p3) }
{
    count::segment_count(cubic_s(p0, p1, p2, p3, tolerance))
}
