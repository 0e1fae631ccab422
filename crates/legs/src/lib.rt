// A leg of a polyline: its length, and what a turn of the walk tells inside it and at its end.
#![tactic(auto)]

ghost use Rattle.std.specs.Prelude.{◌≡◌, ◌+◌, ◌-◌, ◌*◌, ◌<◌, not, ◌&&◌, length};
ghost use Rattle.std.specs.Float.Ieee.{le};
ghost use Rattle.float.specs.Arith.{f0};
ghost use Rattle.float.specs.Small.{is_finite};
ghost use Rattle.vec2.specs.Points.{point_at};
ghost use Rattle.events.specs.Walk.{point_on, inside as insideOf, resting as restingOf, rested, leg_of};
ghost use Rattle.strokes.specs.Lengths.{KeptLengths};

use events::{Event, Leg, Place, Pos};
use vec2::Vec2;

// The point at the distance t from the leg's start.
fn point_on(g: Leg, t: f32) -> Vec2
    ensures { result ≡ point_on g t }
{
    let from = g.from;
    let way = g.way;
    from + way * (t / g.length)
}

// An interval ends inside the leg, at t. The walk itself is where the interval began, so p and t are no `Place`.
pub fn inside(g: Leg, p: Pos, t: f32) -> Event
    ensures { result ≡ insideOf g p t }
{
    if p.drawing {
        let a = point_on(g, t - p.left);
        let z = point_on(g, t);
        return Event::Cut(a, z);
    }
    Event::Nothing
}

// The rest of the leg lies inside the interval.
pub fn resting(g: Leg, at: Place) -> Event
    ensures { result ≡ restingOf g at.pos at.t }
{
    let to = g.to;
    if at.pos.drawing {
        let a = point_on(g, at.t);
        return Event::Reach(a, to);
    }
    Event::Pass(to)
}

pub fn rested_at(g: Leg, at: Place) -> Pos
    ensures { result ≡ rested g at.pos at.t }
{
    Pos {
        left: at.pos.left - (g.length - at.t),
        ..at.pos
    }
}

// The legs of a polyline, from each point to the next, and the lengths that are kept of the first of them.
#[derive(Clone, Copy)]
pub struct Legs<'a> {
    pub points: &'a [f32],
    pub lengths: &'a [f32],
    pub ghost kept: { KeptLengths lengths.now points.now },
}

impl Iterator for Legs<'_> {
    ghost use Rattle.std.specs.Iterator.{YieldsFirst, item_count};
    ghost use Rattle.legs.specs.Legs.{left};

    type Item = Leg;

    ghost next_gives = { YieldsFirst left };

    ghost remaining = { item_count left };

    // The length of a leg is the one that is kept, or worked out where none is.
    fn next(&mut self) -> Option<Leg> {
        if self.points.len() < 4 {
            return None;
        }
        let from = path::point_at(self.points, 0);
        let to = path::point_at(self.points, 1);
        let way = to - from;
        let (length, lengths) = match self.lengths {
            [kept, rest @ ..] => (*kept, rest),
            none => (way.length(), none),
        };
        self.points = &self.points[2..];
        self.lengths = lengths;
        Some(Leg {
            from,
            way,
            to,
            length,
        })
    }
}

// Works out the lengths of the legs from each point to the next, as many as `kept` takes. Tried: `kept.iter_mut().zip(legs)`, behind which nothing is known of
// what `kept` holds.
pub fn keep_lengths(points: &[f32], kept: &mut [f32])
    ensures { KeptLengths kept.new points.now }
{
    let mut legs = Legs {
        points,
        lengths: &[],
    };
    for length in kept.iter_mut() {
        let Some(leg) = legs.next() else {
            return;
        };
        *length = leg.length;
    }
}

// A leg is walked where its length is finite and above 0. The bits are compared, since the compiler makes more of two comparisons with infinities.
pub fn is_walked(length: f32) -> bool
    ensures { result ≡ (is_finite length && not (le length f0)) }
{
    0.0 < length && f32::to_bits(length) < 0x7f80_0000
}
