// Whether a conic is a line; and one half of a conic, three points in an array, by value: its own halves, and whether it is near a quad.
#![tactic(auto)]

ghost use Rattle.std.specs.Prelude.{◌≡◌};
ghost use Rattle.std.specs.Float.{binary32};
ghost use Rattle.float.specs.Root.{square_root};
ghost use Rattle.halves.specs.Conic.{straight, square, gap, within, near_one, near_mid, left_of, right_of, middle, half_weight};
ghost use Rattle.halves.specs.Halves.{from_of, ctrl_of, to_of, half_of, left_half, right_half, moderate, single};

use vec2::Vec2;

// Whether a conic is no curve, and gives one line to its end.
#[tactic(auto, unfolding(halves::specs::Conic::straight))]
pub fn is_straight(ctrl: Vec2, to: Vec2, weight: f32) -> bool
    ensures { result ≡ straight ctrl to weight }
{
    !float::is_finite(weight) || weight <= 0.0 || !ctrl.is_finite() || !to.is_finite()
}

// A half of a conic: control point, start and end. An array and no struct, since the scope names this form; the control point first, so that no two points that
// were stored apart are loaded as one. Its three points have names by functions: a place in an array says nothing. The weight comes beside a half, since both
// halves of a level have the same, which is worked out once.
pub type Half = [[f32; 2]; 3];

pub fn half_of(from: Vec2, ctrl: Vec2, to: Vec2) -> Half
    ensures { result ≡ half_of from ctrl to }
{
    [[ctrl.x, ctrl.y], [from.x, from.y], [to.x, to.y]]
}

fn from_of(h: Half) -> Vec2
    ensures { result ≡ from_of h }
{
    let [_, [x, y], _] = h;
    Vec2 { x, y }
}

pub fn ctrl_of(h: Half) -> Vec2
    ensures { result ≡ ctrl_of h }
{
    let [[x, y], _, _] = h;
    Vec2 { x, y }
}

pub fn to_of(h: Half) -> Vec2
    ensures { result ≡ to_of h }
{
    let [_, _, [x, y]] = h;
    Vec2 { x, y }
}

// The control points of the two halves: the two sums have their terms in another order, so that one function for both would be longer.
#[tactic(auto, unfolding(halves::specs::Conic::left_of))]
fn left_ctrl(h: Half, weight: f32) -> Vec2
    ensures { result ≡ left_of (from_of h) (ctrl_of h) weight }
{
    (from_of(h) + ctrl_of(h) * weight) * (1.0 / (1.0 + weight))
}

#[tactic(auto, unfolding(halves::specs::Conic::right_of))]
fn right_ctrl(h: Half, weight: f32) -> Vec2
    ensures { result ≡ right_of (ctrl_of h) (to_of h) weight }
{
    (ctrl_of(h) * weight + to_of(h)) * (1.0 / (1.0 + weight))
}

#[tactic(auto, unfolding(halves::specs::Conic::middle))]
fn mid(h: Half, weight: f32) -> Vec2
    ensures { result ≡ middle (from_of h) (ctrl_of h) (to_of h) weight }
{
    (from_of(h) + ctrl_of(h) * (2.0 * weight) + to_of(h)) * (0.5 * (1.0 / (1.0 + weight)))
}

#[tactic(auto, unfolding(halves::specs::Conic::half_weight))]
pub fn split_weight(weight: f32) -> f32
    ensures { result ≡ half_weight weight }
{
    root::sqrt((1.0 + weight) * 0.5)
}

pub fn left_half(h: Half, weight: f32) -> Half
    ensures { result ≡ left_half h weight }
{
    half_of(from_of(h), left_ctrl(h, weight), mid(h, weight))
}

pub fn right_half(h: Half, weight: f32) -> Half
    ensures { result ≡ right_half h weight }
{
    half_of(mid(h, weight), right_ctrl(h, weight), to_of(h))
}

// ---- where splitting stops

fn square_of(p: Vec2) -> f32
    ensures { result ≡ square p }
{
    p.x * p.x + p.y * p.y
}

// The way from the quad's midpoint to the conic's.
fn mid_gap(h: Half, weight: f32) -> Vec2
    ensures { result ≡ gap (from_of h) (ctrl_of h) (to_of h) weight }
{
    let from = from_of(h);
    let ctrl = ctrl_of(h);
    let to = to_of(h);
    let conic_mid = (from + ctrl * (2.0 * weight) + to) / (2.0 * (1.0 + weight));
    let quad_mid = (from + ctrl * 2.0 + to) * 0.25;
    conic_mid - quad_mid
}

// Whether the root of gap is within 0.001 of the root of chord, and that is above 0.
fn is_within_by_roots(chord: f32, gap: f32) -> bool
    ensures { result ≡ within (square_root binary32 chord) (square_root binary32 gap) }
{
    let length = root::sqrt(chord);
    length > 0.0 && root::sqrt(gap) <= 0.001 * length
}

fn is_moderate(x: f32) -> bool
    ensures { result ≡ moderate x }
{
    1e-30 <= x && x <= 1e30
}

// The same, with no root taken where the squares are clearly apart: the roots would take most of the time. The gap is tested first: where a test stands behind
// the sums that it takes, the compiler works on both coordinates at once.
#[tactic(auto, using(halves::proofs::Clear::clear_near, halves::proofs::Clear::clear_far))]
fn is_within(chord: f32, gap: f32) -> bool
    ensures { result ≡ within (square_root binary32 chord) (square_root binary32 gap) }
{
    if 1e-30 <= gap && is_moderate(chord) {
        if 0.000001005 * chord <= gap {
            return false;
        }
        if gap <= 0.000000995 * chord {
            return true;
        }
    }
    is_within_by_roots(chord, gap)
}

// Whether a conic of this weight is a quad, wherever its points are. By two tests: an absolute value takes one more, for a NaN.
#[tactic(auto, using(halves::proofs::Sides::near_sides))]
fn is_near_one(weight: f32) -> bool
    ensures { result ≡ near_one weight }
{
    let d = weight - 1.0;
    d <= 0.001 && -0.001 <= d
}

// Whether the quad of the same points is near enough, by the midpoints.
#[tactic(auto, unfolding(halves::specs::Conic::near_mid))]
fn is_near(h: Half, weight: f32) -> bool
    ensures { result ≡ near_mid (from_of h) (ctrl_of h) (to_of h) weight }
{
    let chord = square_of(to_of(h) - from_of(h));
    let gap = square_of(mid_gap(h, weight));
    is_within(chord, gap)
}

// Whether a half that may be split k times more is one quad.
#[tactic(auto, using(halves::proofs::Pieces::single_by))]
pub fn is_quad(h: Half, weight: f32, k: usize) -> bool
    ensures { result ≡ single k h weight }
{
    k == 0 || is_near_one(weight) || is_near(h, weight)
}
