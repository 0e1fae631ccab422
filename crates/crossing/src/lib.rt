// What crosses to C and back: the types as C has them, and their making from the library's own and back. C has no Option and no Result: a flag or a number stands beside the
// value there, and where the number refuses the value is 0, false, the empty rect, Concave, or the state as it came.
#![tactic(auto)]

ghost use Rattle.std.specs.Prelude.{◌≡◌, ◌≤◌, length, IfOk};
ghost use Rattle.std.specs.Result.{result_map_both};
ghost use Rattle.pattern.specs.Cycle.{max_intervals};
ghost use Rattle.outline.specs.Answer.{answer_of};
ghost use Rattle.crossing.specs.Answers.{bounds_out, answer_out, verdict_out, flattened_out, carried_out, style_out};
ghost use Rattle.crossing.specs.Builder.{state_in, state_out, reply_out, point_out, note_out};
ghost use Rattle.crossing.specs.Replay.{replayed_out};
ghost use Rattle.crossing.specs.Dash.{dashed_out, dashed_in};

use builder::{PathBuilder, Reply, RoundedRect};
use float::SegmentCount;
use outline::{Dashed, Outline};
use path::{FillRule, Refusal, number_of};
use polyline::Flattened;
use rect::Rect;
use replay::Replayed;
use turns::Convexity;
use vec2::Vec2;

// ---- building

// A builder's state. The fill rule is 0 for the non-zero rule, else even-odd; a flag is 0 for false, else true.
#[repr(C)]
#[derive(Clone, Copy)]
pub struct HzBuilder {
    pub verbs: usize,
    pub points: usize,
    pub start_x: f32,
    pub start_y: f32,
    pub pen_x: f32,
    pub pen_y: f32,
    pub min_x: f32,
    pub min_y: f32,
    pub max_x: f32,
    pub max_y: f32,
    pub radius: f32,
    pub fill_rule: u8,
    pub noted: u8,
    pub started: u8,
}

impl From<HzBuilder> for PathBuilder {
    ghost from_gives = { λ s b. b ≡ state_in s };

    #[tactic(auto, unfolding(crate::specs::Builder::state_in))]
    fn from(s: HzBuilder) -> PathBuilder {
        PathBuilder {
            verbs: s.verbs,
            points: s.points,
            start_x: s.start_x,
            start_y: s.start_y,
            pen_x: s.pen_x,
            pen_y: s.pen_y,
            min_x: s.min_x,
            min_y: s.min_y,
            max_x: s.max_x,
            max_y: s.max_y,
            radius: s.radius,
            fill_rule: FillRule::from(s.fill_rule),
            noted: s.noted != 0,
            started: s.started != 0,
        }
    }
}

impl From<PathBuilder> for HzBuilder {
    ghost from_gives = { λ b s. s ≡ state_out b };

    #[tactic(auto, unfolding(crate::specs::Builder::state_out))]
    fn from(b: PathBuilder) -> HzBuilder {
        HzBuilder {
            verbs: b.verbs,
            points: b.points,
            start_x: b.start_x,
            start_y: b.start_y,
            pen_x: b.pen_x,
            pen_y: b.pen_y,
            min_x: b.min_x,
            min_y: b.min_y,
            max_x: b.max_x,
            max_y: b.max_y,
            radius: b.radius,
            fill_rule: u8::from(b.fill_rule),
            noted: u8::from(b.noted),
            started: u8::from(b.started),
        }
    }
}

#[repr(C)]
#[derive(Clone, Copy)]
pub struct HzReply {
    pub state: HzBuilder,
    pub quads: usize,
    pub refused: u8,
}

impl HzReply {
    // The reply to a call that was handed the state s. A refused call gives the state back as it came.
    #[tactic(auto, unfolding(crate::specs::Builder::reply_out))]
    pub fn new(s: HzBuilder, reply: Reply) -> HzReply
        ensures { result ≡ reply_out s reply }
    {
        match reply.quads {
            Ok(quads) => HzReply {
                state: reply.state.into(),
                quads,
                refused: 0,
            },
            Err(refusal) => HzReply {
                state: s,
                quads: 0,
                refused: refusal.into(),
            },
        }
    }
}

// The pen, where known is 1.
#[repr(C)]
#[derive(Clone, Copy)]
pub struct HzPoint {
    pub x: f32,
    pub y: f32,
    pub known: u8,
}

impl From<Option<Vec2>> for HzPoint {
    ghost from_gives = { λ p h. h ≡ point_out p };

    fn from(p: Option<Vec2>) -> HzPoint {
        match p {
            Some(Vec2 { x, y }) => HzPoint { x, y, known: 1 },
            None => HzPoint {
                x: 0.0,
                y: 0.0,
                known: 0,
            },
        }
    }
}

// The rounded rectangle that a path was built from, where known is 1.
#[repr(C)]
#[derive(Clone, Copy)]
pub struct HzNote {
    pub rect: Rect,
    pub radius: f32,
    pub known: u8,
}

impl From<Option<RoundedRect>> for HzNote {
    ghost from_gives = { λ n h. h ≡ note_out n };

    fn from(note: Option<RoundedRect>) -> HzNote {
        match note {
            Some(RoundedRect { rect, radius }) => HzNote {
                rect,
                radius,
                known: 1,
            },
            None => HzNote {
                rect: Rect {
                    min: Vec2::zero(),
                    max: Vec2::zero(),
                },
                radius: 0.0,
                known: 0,
            },
        }
    }
}

// What a played list of calls left: the state, the calls played, and how many of them were refused.
#[repr(C)]
#[derive(Clone, Copy)]
pub struct HzReplayed {
    pub state: HzBuilder,
    pub calls: usize,
    pub refused: usize,
}

impl From<Replayed> for HzReplayed {
    ghost from_gives = { λ r h. h ≡ replayed_out r };

    fn from(r: Replayed) -> HzReplayed {
        HzReplayed {
            state: r.state.into(),
            calls: r.calls,
            refused: r.refused,
        }
    }
}

// ---- questions about a path

#[repr(C)]
#[derive(Clone, Copy)]
pub struct HzBounds {
    pub rect: Rect,
    pub refused: u8,
}

impl From<Result<Rect, Refusal>> for HzBounds {
    ghost from_gives = { λ r h. h ≡ bounds_out r };

    fn from(answer: Result<Rect, Refusal>) -> HzBounds {
        HzBounds {
            refused: number_of(&answer),
            rect: answer.unwrap_or(Rect::empty()),
        }
    }
}

#[repr(C)]
#[derive(Clone, Copy)]
pub struct HzAnswer {
    pub holds: bool,
    pub refused: u8,
}

impl From<Result<bool, Refusal>> for HzAnswer {
    ghost from_gives = { λ r h. h ≡ answer_out r };

    fn from(answer: Result<bool, Refusal>) -> HzAnswer {
        HzAnswer {
            refused: number_of(&answer),
            holds: answer.unwrap_or(false),
        }
    }
}

// 0 for Convex, 1 for Concave.
#[repr(C)]
#[derive(Clone, Copy)]
pub struct HzVerdict {
    pub convexity: u8,
    pub refused: u8,
}

impl From<Result<Convexity, Refusal>> for HzVerdict {
    ghost from_gives = { λ r h. h ≡ verdict_out r };

    fn from(answer: Result<Convexity, Refusal>) -> HzVerdict {
        HzVerdict {
            refused: number_of(&answer),
            convexity: answer.unwrap_or(Convexity::Concave) as u8,
        }
    }
}

// ---- flattening

#[repr(C)]
#[derive(Clone, Copy)]
pub struct HzFlattened {
    pub points: usize,
    pub polylines: usize,
    pub starts: usize,
    pub lines: usize,
    pub counts: usize,
    pub closings: usize,
    pub held: usize,
    pub refused: u8,
}

impl From<Result<Flattened, Refusal>> for HzFlattened {
    ghost from_gives = { λ r h. h ≡ flattened_out r };

    fn from(answer: Result<Flattened, Refusal>) -> HzFlattened {
        let refused = number_of(&answer);
        let t = answer.unwrap_or_default();
        HzFlattened {
            points: t.points,
            polylines: t.polylines,
            starts: t.starts,
            lines: t.lines,
            counts: t.counts,
            closings: t.closings,
            held: t.held,
            refused,
        }
    }
}

// A carried count and whether it was held back.
#[repr(C)]
#[derive(Clone, Copy)]
pub struct HzCarried {
    pub count: usize,
    pub held: bool,
    pub refused: u8,
}

impl From<Result<SegmentCount, Refusal>> for HzCarried {
    ghost from_gives = { λ r h. h ≡ carried_out r };

    fn from(answer: Result<SegmentCount, Refusal>) -> HzCarried {
        let refused = number_of(&answer);
        let n = answer.unwrap_or_default();
        HzCarried {
            count: n.count as usize,
            held: n.held,
            refused,
        }
    }
}

// ---- dashing

// A line style: its intervals are the first `len` of `values`, the others 0. C gets no slice, and the array goes by value.
#[repr(C)]
#[derive(Clone, Copy)]
pub struct HzLineStyle {
    pub values: [f32; pattern::MAX_INTERVALS],
    pub len: usize,
    pub refused: u8,
}

impl HzLineStyle {
    // No `From`: it asks that the intervals fit.
    pub fn new(style: Result<&[f32], Refusal>) -> HzLineStyle
        requires { IfOk style (λ s. length s.now ≤ max_intervals) }
        ensures { result ≡ style_out (result_map_both (λ s. s.now) (λ r. r) style.entry) }
    {
        let mut values = [0.0; pattern::MAX_INTERVALS];
        match style {
            Ok(intervals) => {
                let len = intervals.len();
                values[..len].copy_from_slice(intervals);
                HzLineStyle {
                    values,
                    len,
                    refused: 0,
                }
            }
            Err(refusal) => HzLineStyle {
                values,
                len: 0,
                refused: refusal.into(),
            },
        }
    }
}

// What a dashing answers: kind is 0 for Whole, 1 for Cut, 2 for a refusal. Counts, the curves held back (W2) included, are 0 unless cut.
#[repr(C)]
#[derive(Clone, Copy)]
pub struct HzDashed {
    pub verbs: usize,
    pub points: usize,
    pub scratch: usize,
    pub polylines: usize,
    pub held: usize,
    pub kind: u8,
    pub fill_rule: u8,
    pub refused: u8,
}

// Nothing is cut.
const UNCUT: HzDashed = HzDashed {
    verbs: 0,
    points: 0,
    scratch: 0,
    polylines: 0,
    held: 0,
    kind: 0,
    fill_rule: 0,
    refused: 0,
};

impl From<Result<Dashed, Refusal>> for HzDashed {
    ghost from_gives = { λ d h. h ≡ dashed_out (answer_of d) };

    fn from(answer: Result<Dashed, Refusal>) -> HzDashed {
        match answer {
            Ok(Dashed::Whole) => UNCUT,
            Ok(Dashed::Cut(o)) => HzDashed {
                verbs: o.verbs,
                points: o.points,
                scratch: o.scratch,
                polylines: o.polylines,
                held: o.held,
                kind: 1,
                fill_rule: o.rule.into(),
                refused: 0,
            },
            Err(refusal) => HzDashed {
                kind: 2,
                refused: refusal.into(),
                ..UNCUT
            },
        }
    }
}

// What was drawn, as `drawn_outline` takes it; none where the dashing was refused.
impl From<HzDashed> for Option<Dashed> {
    ghost from_gives = { λ h d. d ≡ dashed_in h };

    #[tactic(auto, unfolding(crate::specs::Dash::dashed_in))]
    fn from(a: HzDashed) -> Option<Dashed> {
        match a.kind {
            0 => Some(Dashed::Whole),
            1 => Some(Dashed::Cut(Outline {
                verbs: a.verbs,
                points: a.points,
                scratch: a.scratch,
                polylines: a.polylines,
                held: a.held,
                rule: FillRule::from(a.fill_rule),
            })),
            _ => None,
        }
    }
}

// The first so many floats, of the dash buffer where from_dash is 1, else of the path's.
#[repr(C)]
#[derive(Clone, Copy)]
pub struct HzOutline {
    pub floats: usize,
    pub from_dash: u8,
}
