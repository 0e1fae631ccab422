// Whether an outline is convex: `polygon_convexity` and `Path::convexity` of the source.
#![tactic(auto)]

ghost use Rattle.std.specs.Prelude.{◌≡◌, nat_lt};
ghost use Rattle.turns.specs.Answer.{polygon_convexity, has_curve, moves, path_reason, convexity};

use path::Refusal;
use polygon::Polygon;
use turns::{Convexity, Reason};

// Whether the polygon of a list of points is convex.
#[tactic(auto, unfolding(turns::specs::Answer::polygon_convexity))]
pub fn polygon_convexity(points: &[f32]) -> Result<Convexity, Refusal>
    ensures { result ≡ polygon_convexity points.now }
{
    path::check_points(points)?;
    Ok(Polygon { points }.reason().into())
}

#[tactic(auto, unfolding(turns::specs::Answer::has_curve))]
fn has_curve(verbs: &[u8]) -> bool
    ensures { result ≡ has_curve verbs.now }
{
    verbs.iter().any(|v| *v == path::QUAD || *v == path::CUBIC)
}

// Whether a move is the second one or a later one.
#[tactic(auto, unfolding(turns::specs::Answer::moves))]
fn has_second_move(verbs: &[u8]) -> bool
    ensures { result ≡ nat_lt 1 (moves verbs.now) }
{
    verbs.iter().filter(|v| **v == path::MOVE).nth(1).is_some()
}

#[tactic(auto, unfolding(turns::specs::Answer::path_reason))]
fn path_reason(verbs: &[u8], polygon: Polygon<'_>) -> Reason
    ensures { result ≡ path_reason verbs.now polygon.entry.points.now }
{
    if has_curve(verbs) {
        Reason::Curve
    } else if has_second_move(verbs) {
        Reason::SecondMove
    } else {
        polygon.reason()
    }
}

// Whether a path is convex: Concave for any curve or a second move.
#[tactic(auto, unfolding(turns::specs::Answer::convexity))]
pub fn convexity(verbs: &[u8], points: &[f32]) -> Result<Convexity, Refusal>
    ensures { result ≡ convexity verbs.now points.now }
{
    path::check(verbs, points)?;
    Ok(path_reason(verbs, Polygon { points }).into())
}
