// The walk of a polyline by a dash cycle, as events: what a walk is made of. The room has definitions and laws, and no functions.
#![tactic(auto)]

use vec2::Vec2;

// Where the walk is in the cycle. Whether it draws stands beside the index that tells it: the definition, which follows the source, has these three. `left` is what
// is left of the interval at `index`.
#[derive(Clone, Copy)]
pub struct Pos {
    pub index: usize,
    pub left: f32,
    pub drawing: bool,
}

// Where the walk of a leg is: in the cycle, and how far from the leg's start.
#[derive(Clone, Copy)]
pub struct Place {
    pub pos: Pos,
    pub t: f32,
}

// A segment of a polyline: its start, the way to its end, its end and its length.
#[derive(Clone, Copy)]
pub struct Leg {
    pub from: Vec2,
    pub way: Vec2,
    pub to: Vec2,
    pub length: f32,
}

// What a turn of the walk tells. Cut: a dash ends inside a leg, at the second point. Reach: a corner, the second point, is reached while drawing.
// Both give the point where the dash began, as the source works it out, if the pen was up. Pass: a corner is reached in a gap. Nothing: a gap ends inside a leg, or an interval ended
// where the leg begins; the pen is up.
#[derive(Clone, Copy)]
pub enum Event {
    Nothing,
    Cut(Vec2, Vec2),
    Reach(Vec2, Vec2),
    Pass(Vec2),
}
