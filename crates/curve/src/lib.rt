// The points of a curve, and the tolerance: flatten.rs.
#![tactic(auto)]

ghost use Rattle.std.specs.Prelude.{◌≡◌};
ghost use Rattle.curve.specs.Count.{eval_quad, eval_cubic, scaled_tolerance};

pub use float::MAX_SEGMENTS;
use vec2::Vec2;

// In device pixels.
pub const DEFAULT_TOLERANCE: f32 = 0.25;

// The tolerance in curve space, from the transform's largest scale factor.
#[tactic(auto, unfolding(crate::specs::Count::scaled_tolerance))]
pub fn tolerance_for_scale(tolerance: f32, max_scale: f32) -> f32
    ensures { result ≡ scaled_tolerance tolerance max_scale }
{
    if max_scale <= 0.0 || !float::is_finite(max_scale) {
        return tolerance;
    }
    tolerance / max_scale
}

// Where the curve is at t. The points come one by one, as a segment names them and the source takes them: a struct would be made for each call, just to be taken
// apart.
pub fn eval_quad(p0: Vec2, p1: Vec2, p2: Vec2, t: f32) -> Vec2
    ensures { result ≡ eval_quad p0 p1 p2 t }
{
    let mt = 1.0 - t;
    let a = mt * mt;
    let b = 2.0 * mt * t;
    let c = t * t;
    p0 * a + p1 * b + p2 * c
}

// The same of a cubic, by its own sums.
pub fn eval_cubic(p0: Vec2, p1: Vec2, p2: Vec2, p3: Vec2, t: f32) -> Vec2
    ensures { result ≡ eval_cubic p0 p1 p2 p3 t }
{
    let mt = 1.0 - t;
    let mt2 = mt * mt;
    let t2 = t * t;
    let a = mt2 * mt;
    let b = 3.0 * mt2 * t;
    let c = 3.0 * mt * t2;
    let d = t2 * t;
    p0 * a + p1 * b + p2 * c + p3 * d
}
