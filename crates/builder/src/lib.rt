// The path builder: a state by value, verbs and points in two lent buffers.
// Verbs and points stay two arguments: a struct of two lent buffers would have to promise in each contract that it keeps those very references, and C lends them apart.
#![tactic(auto)]

ghost use Rattle.std.specs.Prelude.{◌≡◌, [], ◌∷◌, ◌++◌, true};
ghost use Rattle.path.specs.Segment.{is_drawn, end_of};
ghost use Rattle.drawing.specs.Lay.{opening};
ghost use Rattle.builder.specs.declared.Call.TheVariants.{MoveTo, LineTo, QuadTo, ConicTo, CubicTo, Close, WithFillRule, AsRoundedRect};
ghost use Rattle.builder.specs.Call.{from};
ghost use Rattle.builder.specs.Build.{fresh, start_of, pen_of, standing, finite_box, set_by, current_of, note_of, outcome, pushed, settled, called};
ghost use Rattle.builder.specs.Replied.{moved_to, noted_by, replied_by};

use bending::lay_conic;
use conic::Conic;
use drawing::lead_of;
use path::{FillRule, Refusal, Segment};
use rect::Rect;
use store::Standing;
use vec2::Vec2;

// Flat f32 fields, flags and counts, in an order and form that the scope and the C interface name. Counts first, floats next, small fields last: no padding
// inside. The note's box, which the drawing calls leave alone, is 16 bytes together, and what they change is not beside the last byte, which is free: a loop
// of calls keeps each field apart then.
#[derive(Clone, Copy)]
pub struct PathBuilder {
    pub verbs: usize,
    pub points: usize,
    pub min_x: f32,
    pub min_y: f32,
    pub max_x: f32,
    pub max_y: f32,
    pub radius: f32,
    pub pen_x: f32,
    pub pen_y: f32,
    pub start_x: f32,
    pub start_y: f32,
    pub noted: bool,
    pub started: bool,
    pub fill_rule: FillRule,
}

// The answer of every call that takes the buffers: the state, as it was where the call is refused; and how many quads a conic gave, or why it is refused.
#[derive(Clone, Copy)]
pub struct Reply {
    pub state: PathBuilder,
    pub quads: Result<usize, Refusal>,
}

// The answer of a call that refused nothing and laid no quads of a conic.
impl From<PathBuilder> for Reply {
    ghost from_gives = { λ state r. r ≡ settled state };

    fn from(state: PathBuilder) -> Reply {
        Reply {
            state,
            quads: Ok(0),
        }
    }
}

#[derive(Clone, Copy)]
pub enum Call {
    MoveTo(Vec2),
    LineTo(Vec2),
    QuadTo(Vec2, Vec2),
    ConicTo(Vec2, Vec2, f32),
    CubicTo(Vec2, Vec2, Vec2),
    Close,
    WithFillRule(FillRule),
    AsRoundedRect(Rect, f32),
}

// A rounded rectangle that a path was built from.
#[derive(Clone, Copy, PartialEq)]
pub struct RoundedRect {
    pub rect: Rect,
    pub radius: f32,
}

#[tactic(auto, unfolding(crate::specs::Build::finite_box))]
fn is_finite_box(min: Vec2, max: Vec2, radius: f32) -> bool
    ensures { result ≡ finite_box min max radius }
{
    min.is_finite() && max.is_finite() && float::is_finite(radius)
}

// Where a segment ends.
fn end_of(s: Segment) -> Vec2
    ensures { result ≡ end_of s }
{
    match s {
        Segment::Move(p) | Segment::Line(p) | Segment::Quad(_, p) | Segment::Cubic(_, _, p) => p,
        Segment::Close => Vec2::zero(),
    }
}

impl PathBuilder {
    pub fn new() -> PathBuilder
        ensures { result ≡ fresh }
    {
        PathBuilder {
            verbs: 0,
            points: 0,
            start_x: 0.0,
            start_y: 0.0,
            pen_x: 0.0,
            pen_y: 0.0,
            min_x: 0.0,
            min_y: 0.0,
            max_x: 0.0,
            max_y: 0.0,
            radius: 0.0,
            fill_rule: FillRule::NonZero,
            noted: false,
            started: false,
        }
    }

    // ---- questions, the fill rule and the note

    pub fn current_point(self) -> Option<Vec2>
        ensures { result ≡ current_of self }
    {
        self.started.then_some(Vec2::new(self.pen_x, self.pen_y))
    }

    pub fn rounded_rect(self) -> Option<RoundedRect>
        ensures { result ≡ note_of self }
    {
        self.noted.then_some(RoundedRect {
            rect: Rect {
                min: Vec2::new(self.min_x, self.min_y),
                max: Vec2::new(self.max_x, self.max_y),
            },
            radius: self.radius,
        })
    }

    #[tactic(auto, unfolding(crate::specs::Build::set_by))]
    pub fn with_fill_rule(self, rule: FillRule) -> PathBuilder
        ensures { result ≡ set_by self (WithFillRule rule) }
    {
        PathBuilder {
            fill_rule: rule,
            ..self
        }
    }

    fn with_note(self, note: Option<RoundedRect>) -> PathBuilder
        ensures { result ≡ noted_by self note }
    {
        let noted = note.is_some();
        let RoundedRect { rect, radius } = note.unwrap_or(RoundedRect {
            rect: Rect::new(Vec2::zero(), Vec2::zero()),
            radius: 0.0,
        });
        PathBuilder {
            min_x: rect.min.x,
            min_y: rect.min.y,
            max_x: rect.max.x,
            max_y: rect.max.y,
            radius,
            noted,
            ..self
        }
    }

    // Records that what was laid is this rounded rectangle; of what isn't finite, nothing.
    #[tactic(auto, unfolding(crate::specs::Build::set_by))]
    pub fn as_rounded_rect(self, rect: Rect, radius: f32) -> PathBuilder
        ensures { result ≡ set_by self (AsRoundedRect rect radius) }
    {
        let is_finite = is_finite_box(rect.min, rect.max, radius);
        let radius = float::max(radius, 0.0);
        self.with_note(is_finite.then_some(RoundedRect { rect, radius }))
    }

    // ---- where it stands, and where a drawn verb begins

    fn standing(self) -> Standing
        ensures { result ≡ standing self }
    {
        Standing {
            verbs: self.verbs,
            points: self.points,
            started: self.started,
        }
    }

    // Where a drawn verb begins.
    fn pen(self) -> Vec2
        ensures { result ≡ from self.started (pen_of self) }
    {
        self.current_point().unwrap_or(Vec2::zero())
    }

    // The latest move's point behind a drawn verb. Tried as an Option, like `pen`: each line took six instructions more, and each close eight.
    fn start(self) -> Vec2
        ensures { result ≡ from self.started (start_of self) }
    {
        if self.started {
            Vec2::new(self.start_x, self.start_y)
        } else {
            Vec2::zero()
        }
    }

    // ---- the state behind what was laid, and the answer

    fn moved(self, at: Standing, start: Vec2, pen: Vec2) -> PathBuilder
        ensures { result ≡ moved_to self at start pen }
    {
        PathBuilder {
            verbs: at.verbs,
            points: at.points,
            start_x: start.x,
            start_y: start.y,
            pen_x: pen.x,
            pen_y: pen.y,
            started: at.started,
            ..self
        }
    }

    // The answer that leaves this state.
    fn answer(self, quads: Result<usize, Refusal>) -> Reply
        ensures { result ≡ record { state = self; quads = quads } }
    {
        Reply { state: self, quads }
    }

    // The answer of a call that laid one segment, or was refused; apart from the stores, so that the state is copied once.
    fn settle(self, laid: Result<Standing, Refusal>, start: Vec2, pen: Vec2) -> Reply
        ensures { result ≡ replied_by laid self start pen }
    {
        match laid {
            Ok(at) => self.moved(at, start, pen).into(),
            Err(refusal) => self.answer(Err(refusal)),
        }
    }

    // A drawn segment; before any move it starts at the origin. Inlined with all that it calls, so that no segment goes through memory: its kind is known there.
    #[inline(always)]
    fn draw(self, s: Segment, verbs: &mut [u8], points: &mut [f32]) -> Reply
        requires { is_drawn s ≡ true }
        ensures { outcome result verbs.new points.new ≡ pushed 0 self verbs.old points.old (opening self.started ++ s ∷ []) }
    {
        let laid = drawing::lay(self.standing(), s, verbs, points);
        self.settle(laid, self.start(), end_of(s))
    }

    // ---- the calls

    pub fn move_to(self, verbs: &mut [u8], points: &mut [f32], p: Vec2) -> Reply
        ensures { outcome result verbs.new points.new ≡ called self verbs.old points.old (MoveTo p) }
    {
        let laid = self.standing().lay(Segment::Move(p), verbs, points);
        self.settle(laid, p, p)
    }

    #[tactic(auto, unfolding(crate::specs::Build::called, crate::specs::Build::quads_laid, crate::specs::Call::lays))]
    pub fn line_to(self, verbs: &mut [u8], points: &mut [f32], p: Vec2) -> Reply
        ensures { outcome result verbs.new points.new ≡ called self verbs.old points.old (LineTo p) }
    {
        self.draw(Segment::Line(p), verbs, points)
    }

    #[tactic(auto, unfolding(crate::specs::Build::called, crate::specs::Build::quads_laid, crate::specs::Call::lays))]
    pub fn quad_to(self, verbs: &mut [u8], points: &mut [f32], ctrl: Vec2, to: Vec2) -> Reply
        ensures { outcome result verbs.new points.new ≡ called self verbs.old points.old (QuadTo ctrl to) }
    {
        self.draw(Segment::Quad(ctrl, to), verbs, points)
    }

    #[tactic(auto, unfolding(crate::specs::Build::called, crate::specs::Build::quads_laid, crate::specs::Call::lays))]
    pub fn cubic_to(
        self,
        verbs: &mut [u8],
        points: &mut [f32],
        c0: Vec2,
        c1: Vec2,
        to: Vec2,
    ) -> Reply
        ensures { outcome result verbs.new points.new ≡ called self verbs.old points.old (CubicTo c0 c1 to) }
    {
        self.draw(Segment::Cubic(c0, c1, to), verbs, points)
    }

    // Closes the subpath: the pen returns to the latest move's point. An `if`, as in `start`.
    pub fn close(self, verbs: &mut [u8], points: &mut [f32]) -> Reply
        ensures { outcome result verbs.new points.new ≡ called self verbs.old points.old Close }
    {
        let at = self.standing();
        if self.started {
            let laid = at.lay(Segment::Close, verbs, points);
            let start = Vec2::new(self.start_x, self.start_y);
            return self.settle(laid, start, start);
        }
        // nothing is laid, and the buffers are looked at all the same
        let room = at.check_room(verbs.len(), points.len(), 0, 0);
        self.answer(room.and(Ok(0)))
    }

    #[tactic(auto, using(crate::proofs::Lays::conic_line))]
    pub fn conic_to(
        self,
        verbs: &mut [u8],
        points: &mut [f32],
        ctrl: Vec2,
        to: Vec2,
        weight: f32,
    ) -> Reply
        ensures { outcome result verbs.new points.new ≡ called self verbs.old points.old (ConicTo ctrl to weight) }
    {
        if splitting::is_straight(ctrl, to, weight) {
            return self.line_to(verbs, points, to);
        }
        let at = self.standing();
        let c = Conic {
            from: self.pen(),
            ctrl,
            to,
            weight,
        };
        match lay_conic(at, c, verbs, points) {
            Ok(quads) => {
                let lead = lead_of(at.started);
                let next = at.past(lead + quads, lead + 2 * quads);
                self.moved(next, self.start(), to).answer(Ok(quads))
            }
            Err(r) => self.answer(Err(r)),
        }
    }
}
