// One turn: its side and its quadrants, and what is kept of the turns so far.
#![tactic(auto)]

ghost use Rattle.std.specs.Prelude.{◌≡◌, ◌≤◌};
ghost use Rattle.turns.specs.Turn.{opposed, counted, ended, full_turn};
ghost use Rattle.turns.specs.Plane.{side_of, quadrant_of, turn_of};

use turns::{Reason, Side, Tally, Turn};
use vec2::Vec2;

// The source's EPSILON, 2^-23.
const EPSILON: f32 = 0.00000011920929;

// The side by the cross product. A NaN is not small and not above zero.
#[tactic(auto, unfolding(turns::specs::Plane::side_of))]
fn side_of(cross: f32) -> Side
    ensures { result ≡ side_of cross }
{
    if float::abs(cross) <= EPSILON {
        Side::Straight
    } else if cross > 0.0 {
        Side::Left
    } else {
        Side::Right
    }
}

// The quadrant that a direction points into, counted to the left. A number, since quadrants are taken from one another, modulo 4: an enum would be cast back.
#[tactic(auto, unfolding(turns::specs::Plane::quadrant_of))]
fn quadrant(v: Vec2) -> u32
    ensures { (result ≡ quadrant_of v) × (result ≤ 3) }
{
    match (v.x >= 0.0, v.y >= 0.0) {
        (true, true) => 0,
        (false, true) => 1,
        (false, false) => 2,
        (true, false) => 3,
    }
}

// The turn at b on the way from a to c.
#[tactic(auto, unfolding(turns::specs::Plane::turn_of))]
pub fn turn_at(a: Vec2, b: Vec2, c: Vec2) -> Turn
    ensures { (result ≡ turn_of a b c) × (result.advance ≤ 3) }
{
    let incoming = b - a;
    let outgoing = c - b;
    Turn {
        side: side_of(incoming.perp_dot(outgoing)),
        advance: (quadrant(outgoing) + 4 - quadrant(incoming)) % 4,
    }
}

// Whether a turn counts and goes the other way than the turns so far.
pub fn opposes(past: Side, side: Side) -> bool
    ensures { result ≡ opposed past side }
{
    matches!(
        (past, side),
        (Side::Left, Side::Right) | (Side::Right, Side::Left)
    )
}

// One turn more. Where it is too small to count for the side, its quadrants still count.
pub fn count(t: Tally, turned: Turn) -> Tally
    requires { (t.left ≤ 1000000) × (t.right ≤ 1000000) × (turned.advance ≤ 3) }
    ensures { result ≡ counted t turned }
{
    let side = match turned.side {
        Side::Straight => t.side,
        side => side,
    };
    Tally {
        side,
        left: t.left + turned.advance,
        right: t.right + (4 - turned.advance) % 4,
    }
}

fn full(turned: u32) -> Reason
    ensures { result ≡ full_turn turned }
{
    if turned > 4 {
        Reason::FullTurn(turned)
    } else {
        Reason::Agree
    }
}

// The reason where no turn opposes.
pub fn end(t: Tally) -> Reason
    ensures { result ≡ ended t }
{
    match t.side {
        Side::Straight => Reason::NoTurn,
        Side::Left => full(t.left),
        Side::Right => full(t.right),
    }
}
