// Where a flattening stands, and where each segment leads it.
#![tactic(auto)]

ghost use Rattle.std.specs.Prelude.{◌≡◌};
ghost use Rattle.polyline.specs.Flatten.{nowhere, close_adds, moved_to, drawn_to, after_close, after, stops};

use path::Segment;
use polyline::Spot;
use vec2::Vec2;

pub fn start_of_path() -> Spot
    ensures { result ≡ nowhere }
{
    move_to(Vec2::zero())
}

// Whether a close writes the move's point. A start that is a NaN equals nothing, itself included.
#[tactic(auto, unfolding(polyline::specs::Flatten::close_adds, vec2::specs::Vec2::same_as))]
pub fn close_adds(w: Spot) -> bool
    ensures { result ≡ close_adds w }
{
    let start = w.start;
    w.drawn && start == start && w.last != start
}

pub fn move_to(p: Vec2) -> Spot
    ensures { result ≡ moved_to p }
{
    Spot {
        start: p,
        pen: p,
        last: p,
        drawn: false,
    }
}

pub fn drawn_to(w: Spot, p: Vec2) -> Spot
    ensures { result ≡ drawn_to w p }
{
    Spot {
        pen: p,
        last: p,
        drawn: true,
        ..w
    }
}

pub fn close(w: Spot) -> Spot
    ensures { result ≡ after_close w }
{
    let start = w.start;
    let last = if close_adds(w) { start } else { w.last };
    Spot {
        pen: start,
        last,
        ..w
    }
}

// Where a flattening stands after a segment.
#[tactic(auto, unfolding(polyline::specs::Flatten::after))]
pub fn advance(w: Spot, s: Segment) -> Spot
    ensures { result ≡ after w s }
{
    match s {
        Segment::Move(p) => move_to(p),
        Segment::Line(p) | Segment::Quad(_, p) | Segment::Cubic(_, _, p) => drawn_to(w, p),
        Segment::Close => close(w),
    }
}

// Whether a segment ends the polyline before it.
pub fn ends_polyline(w: Spot, s: Segment) -> bool
    ensures { result ≡ stops w s }
{
    w.drawn && matches!(s, Segment::Move(_))
}
