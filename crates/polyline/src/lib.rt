// What a flattening is: a path's polylines as points, end to end, the number where each ends, and its mark, which says whether it is closed (W4). The room has
// definitions and laws, and no functions.
#![tactic(auto)]

use vec2::Vec2;

// The answer: the totals, and how many curves were held back (W2).
#[derive(Clone, Copy, Default, PartialEq, Eq)]
pub struct Flattened {
    pub points: usize,
    pub polylines: usize,
    pub starts: usize,
    pub lines: usize,
    pub counts: usize,
    pub closings: usize,
    pub held: usize,
}

// Where a flattening stands: the latest move's point, with which its polyline begins; the point that the next verb is drawn from; the point written
// last, or the move's point before the first drawn verb; and whether the polyline has a drawn verb, so that its start is written. The points
// stand either way: no Option would say the flag plainer.
#[derive(Clone, Copy)]
pub struct Spot {
    pub start: Vec2,
    pub pen: Vec2,
    pub last: Vec2,
    pub drawn: bool,
}

// The totals that a segment adds to: five of the seven, since the sum of four of them and the polylines, which are as many as the starts, are read from them
// at the end. `Flattened` lists all seven side by side, as the scope and C's struct name them.
#[derive(Clone, Copy, Default, PartialEq, Eq)]
pub struct Tally {
    pub starts: usize,
    pub lines: usize,
    pub counts: usize,
    pub closings: usize,
    pub held: usize,
}

// How far the measuring is: the totals so far, and where the flattening stands.
#[derive(Clone, Copy)]
pub struct Gauge {
    pub sum: Tally,
    pub spot: Spot,
}

// How far the writing is: the points that are written, and where the flattening stands.
#[derive(Clone, Copy)]
pub struct Trace {
    pub at: usize,
    pub spot: Spot,
}
