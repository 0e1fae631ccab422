// The box round a path's points, and whether the points are finite and in range: `Path` of the source.
#![tactic(auto)]

ghost use Rattle.std.specs.Prelude.{◌≡◌};
ghost use Rattle.vec2.specs.Vec2.{all_finite};
ghost use Rattle.bounds.specs.Range.{is_small, in_range};
ghost use Rattle.bounds.specs.Answer.{bounds, asked};

use path::{Points, Refusal};
use rect::Rect;
use vec2::Vec2;

// Two to the twenty-fourth: past it two neighbouring floats are more than one apart.
pub const MAX_COORDINATE: f32 = 16777216.0;

fn is_small(v: f32) -> bool
    ensures { result ≡ is_small v }
{
    float::abs(v) <= MAX_COORDINATE
}

fn is_in_range(p: Vec2) -> bool
    ensures { result ≡ in_range p }
{
    is_small(p.x) && is_small(p.y)
}

// The box round a path's points, control points included.
#[tactic(auto, unfolding(crate::specs::Bounds::bounds_of, crate::specs::Bounds::widened_by))]
pub fn bounds(verbs: &[u8], points: &[f32]) -> Result<Rect, Refusal>
    ensures { result ≡ bounds verbs.now points.now }
{
    path::check(verbs, points)?;
    Ok(Points::new(points).fold(Rect::empty(), Rect::union_point))
}

// Whether every point of a path is a place: no NaN, no infinity. This question and the next are two calls of the scope, each one line over the library's `all`.
pub fn is_finite(verbs: &[u8], points: &[f32]) -> Result<bool, Refusal>
    ensures { result ≡ asked all_finite verbs.now points.now }
{
    path::check(verbs, points)?;
    Ok(Points::new(points).all(Vec2::is_finite))
}

// Whether every coordinate of a path is small enough to tessellate.
pub fn is_within_tessellation_range(verbs: &[u8], points: &[f32]) -> Result<bool, Refusal>
    ensures { result ≡ asked in_range verbs.now points.now }
{
    path::check(verbs, points)?;
    Ok(Points::new(points).all(is_in_range))
}
