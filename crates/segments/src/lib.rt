// The segments of a path, one at a time, and the path that was checked.
#![tactic(auto)]

ghost use Rattle.std.specs.Prelude.{◌≡◌, ◌*◌, ◌≤◌, length};
ghost use Rattle.path.specs.Segment.{used, seg_at};
ghost use Rattle.segments.specs.Read.{left, read};

pub use self::checked::Path;
use path::{Segment, point_at, point_count};

mod checked;

// The segments of verbs and points, the source's `segments`. They end where the verbs end, or where a verb lacks points.
#[derive(Clone, Copy)]
pub struct Segments<'a> {
    verbs: &'a [u8],
    points: &'a [f32],
}

impl<'a> Segments<'a> {
    pub fn new(verbs: &'a [u8], points: &'a [f32]) -> Segments<'a>
        ensures { left result ≡ read verbs.now points.now }
    {
        Segments { verbs, points }
    }
}

impl Iterator for Segments<'_> {
    ghost use Rattle.std.specs.Iterator.{YieldsFirst, item_count};
    ghost use Rattle.segments.specs.Read.{left};

    type Item = Segment;

    ghost next_gives = { YieldsFirst left };

    ghost remaining = { item_count left };

    fn next(&mut self) -> Option<Segment> {
        let (&verb, verbs) = self.verbs.split_first()?;
        let used = 2 * point_count(verb);
        if self.points.len() < used {
            return None;
        }
        let segment = first_segment(verb, self.points);
        self.verbs = verbs;
        self.points = &self.points[used..];
        Some(segment)
    }
}

// The segment of a verb whose points stand first.
fn first_segment(verb: u8, points: &[f32]) -> Segment
    requires { 2 * used verb ≤ length points.now }
    ensures { result ≡ seg_at verb points.now 0 }
{
    match verb {
        path::MOVE => Segment::Move(point_at(points, 0)),
        path::LINE => Segment::Line(point_at(points, 0)),
        path::QUAD => Segment::Quad(point_at(points, 0), point_at(points, 1)),
        path::CUBIC => Segment::Cubic(
            point_at(points, 0),
            point_at(points, 1),
            point_at(points, 2),
        ),
        _ => Segment::Close,
    }
}
