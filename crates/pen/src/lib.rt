// The walk of a polyline by a dash cycle, for any pen.
#![tactic(auto)]

ghost use Rattle.std.specs.Prelude.{◌≡◌, ℕ, Bool, true, false, cond, ◌<◌, List, ◌∷◌, length, Float};
ghost use Rattle.float.specs.Arith.{f0};
ghost use Rattle.vec2.specs.declared.Vec2.{Vec2};
ghost use Rattle.vec2.specs.Points.{points_in};
ghost use Rattle.events.specs.declared.Event.{Event};
ghost use Rattle.events.specs.declared.Event.TheVariants.{Nothing};
ghost use Rattle.events.specs.Walk.{nothing_left, turned, place, cut_from, passed, is_walked, walk_polyline};
ghost use Rattle.strokes.specs.Pen.{told_all, TakesAll, Unless, Led, begun_by, BeginsBy, Laws};

use cycle::Start;
use events::{Event, Leg, Place, Pos};
use legs::Legs;
use vec2::Vec2;

// What a walk goes by: it counts what the walk's events draw, or lays it into the two dash buffers; one that counts is lent empty ones. It is handed on by
// value, so that it stays in registers.
pub trait Pen: Copy {
    // what definitions see of a pen and its buffers
    ghost State: { Type 0 };

    ghost on: { Self → List ℕ → List Float → State };

    // what an event does to it, and what beginning a drawn interval does, at a point, behind an interval that ended there
    ghost told: { State → Event → State };

    ghost begun: { State → Vec2 → State };

    // more is told than there is room for: the walk stops
    ghost full: { State → Bool };

    // the room that it asks for
    ghost takes: { State → Event → Type 0 };

    ghost begins: { State → Vec2 → Type 0 };

    // The two buffers stay two arguments: a struct with two lent `&mut` slices would have to promise in each contract that it still holds these very two.
    fn tell(self, e: Event, verbs: &mut [u8], floats: &mut [f32]) -> Self
        requires { takes (on self verbs.old floats.old) e }
        ensures { on result verbs.new floats.new ≡ told (on self verbs.old floats.old) e };

    // An interval ended where a leg begins, at a, and the next one, which is drawn, begins.
    fn begin(self, a: Vec2, verbs: &mut [u8], floats: &mut [f32]) -> Self
        requires { begins (on self verbs.old floats.old) a }
        ensures { on result verbs.new floats.new ≡ begun (on self verbs.old floats.old) a };

    fn is_full(self) -> bool
        ensures { (vs : List ℕ) (fs : List Float) → result ≡ full (on self vs fs) };

    ghost laws: { Laws told begun full takes begins };
}

// Where a walk is: in the cycle, and what its pen has done. The cycle goes beside it: a struct of both would have to promise at each step that its cycle is the same.
#[derive(Clone, Copy)]
pub struct Walked<P> {
    pub pos: Pos,
    pub pen: P,
}

// The walk of a leg. It stops where the pen is full. Here and below `TakesAll` is asked each time of another list of events, and that the pen is not full of another state of the buffers: no type could say it once.
fn walk_leg<P: Pen>(
    cycle: &[f32],
    g: Leg,
    w: Walked<P>,
    verbs: &mut [u8],
    floats: &mut [f32],
) -> Walked<P>
    requires { (w.pos.index < length cycle.now)
        × TakesAll P.told P.full P.takes (P.on w.pen verbs.old floats.old) (cut_from cycle.now g (place w.pos f0)).events }
    ensures { Led P.told P.full (length cycle.now) (P.on w.pen verbs.old floats.old) (cut_from cycle.now g (place w.pos f0))
        (P.on result.pen verbs.new floats.new) result.pos }
{
    let mut at = Place { pos: w.pos, t: 0.0 };
    let mut pen = w.pen;
    while g.length - at.t > at.pos.left {
        let next = at.t + at.pos.left;
        if next <= at.t {
            break;
        }
        pen = pen.tell(legs::inside(g, at.pos, next), verbs, floats);
        if pen.is_full() {
            return Walked { pos: at.pos, pen };
        }
        at = Place {
            pos: cycle::next_interval(cycle, at.pos),
            t: next,
        };
    }
    let pen = pen.tell(legs::resting(g, at), verbs, floats);
    let pos = legs::rested_at(g, at);
    Walked { pos, pen }
}

// Where exactly nothing is left of the interval it ended where the leg begins, at a: the pen is up, and the next one begins.
fn turn<P: Pen>(
    cycle: &[f32],
    a: Vec2,
    w: Walked<P>,
    verbs: &mut [u8],
    floats: &mut [f32],
) -> Walked<P>
    requires { (w.pos.index < length cycle.now)
        × (nothing_left w.pos ≡ true → BeginsBy P.takes P.begins (P.on w.pen verbs.old floats.old) a (turned cycle.now w.pos).drawing) }
    ensures turned { (result.pos ≡ cond (nothing_left w.pos) (turned cycle.now w.pos) w.pos) × (result.pos.index < length cycle.now) }
    ensures begun { P.on result.pen verbs.new floats.new
        ≡ cond (nothing_left w.pos) (begun_by P.told P.begun (P.on w.pen verbs.old floats.old) a (turned cycle.now w.pos).drawing)
        (P.on w.pen verbs.old floats.old) }
{
    if cycle::nothing_left(w.pos) {
        let pos = cycle::next_interval(cycle, w.pos);
        let pen = if pos.drawing {
            w.pen.begin(a, verbs, floats)
        } else {
            w.pen.tell(Event::Nothing, verbs, floats)
        };
        return Walked { pos, pen };
    }
    w
}

// Walks a leg, or passes over one that is not walked: the pen stays as it is.
fn pass_leg<P: Pen>(
    cycle: &[f32],
    g: Leg,
    w: Walked<P>,
    verbs: &mut [u8],
    floats: &mut [f32],
) -> Walked<P>
    requires { (w.pos.index < length cycle.now) × (P.full (P.on w.pen verbs.old floats.old) ≡ false)
        × TakesAll P.told P.full P.takes (P.on w.pen verbs.old floats.old) (passed (is_walked g) cycle.now g w.pos).events }
    ensures { Led P.told P.full (length cycle.now) (P.on w.pen verbs.old floats.old) (passed (is_walked g) cycle.now g w.pos)
        (P.on result.pen verbs.new floats.new) result.pos }
{
    if legs::is_walked(g.length) {
        let v = turn(cycle, g.from, w, verbs, floats);
        return walk_leg(cycle, g, v, verbs, floats);
    }
    w
}

// Walks a polyline, with the pen up at first. It stops where the pen is full. It is a call of its own, so that the loop inside a segment has the registers.
#[inline(never)]
pub fn walk_polyline<P: Pen>(
    legs: Legs<'_>,
    start: Start<'_>,
    pen: P,
    verbs: &mut [u8],
    floats: &mut [f32],
) -> P
    requires { (P.full (P.on pen verbs.old floats.old) ≡ false)
        × TakesAll P.told P.full P.takes (P.on pen verbs.old floats.old) (Nothing ∷ walk_polyline start.cycle.now start.pos (points_in legs.points.now)) }
    ensures { Unless P.full (told_all P.told (P.on pen verbs.old floats.old)
        (Nothing ∷ walk_polyline start.entry.cycle.now start.entry.pos (points_in legs.entry.points.now))) (P.on result verbs.new floats.new) }
{
    let mut w = Walked {
        pos: start.pos,
        pen: pen.tell(Event::Nothing, verbs, floats),
    };
    for g in legs {
        w = pass_leg(start.cycle, g, w, verbs, floats);
        if w.pen.is_full() {
            return w.pen;
        }
    }
    w.pen
}
