// The calls for C, and for what links like C: thin exports, each with its call's own promise. Slices go as pointer and length.
#![tactic(auto)]

ghost use Rattle.std.specs.Prelude.{◌≡◌};
ghost use Rattle.std.specs.Float.{binary32};
ghost use Rattle.float.specs.Root.{square_root};
ghost use Rattle.float.specs.Count.{segment_answer};
ghost use Rattle.vec2.specs.Vec2.{all_finite};
ghost use Rattle.path.specs.Check.{check};
ghost use Rattle.path.specs.Refusal.{number_of};
ghost use Rattle.path.specs.Rule.{rule_in};
ghost use Rattle.rect.specs.Rect.{is_empty_rect, holds, width_of, height_of};
ghost use Rattle.curve.specs.Count.{quad_s, cubic_s, eval_quad, eval_cubic, scaled_tolerance};
ghost use Rattle.polyline.specs.Flatten.{carried_count};
ghost use Rattle.builder.specs.Build.{fresh, set_by, current_of, note_of, called};
ghost use Rattle.builder.specs.declared.Call.TheVariants.{MoveTo, LineTo, QuadTo, ConicTo, CubicTo, Close, WithFillRule, AsRoundedRect};
ghost use Rattle.bounds.specs.Answer.{bounds, asked};
ghost use Rattle.bounds.specs.Range.{in_range};
ghost use Rattle.turns.specs.Answer.{polygon_convexity, convexity};
ghost use Rattle.pattern.specs.Cycle.{usable};
ghost use Rattle.pattern.specs.Style.{line_style};
ghost use Rattle.crossing.specs.Answers.{bounds_out, answer_out, verdict_out, carried_out, style_out, flatten_outcome, hz_flatten};
ghost use Rattle.crossing.specs.Builder.{state_in, state_out, outcome, outcome_out, point_out, note_out};
ghost use Rattle.crossing.specs.Replay.{replay_outcome, hz_replayed};
ghost use Rattle.crossing.specs.Dash.{dash_outcome, hz_dashing, hz_outline};

use builder::PathBuilder;
use crossing::{
    HzAnswer, HzBounds, HzBuilder, HzCarried, HzDashed, HzFlattened, HzLineStyle, HzNote,
    HzOutline, HzPoint, HzReplayed, HzReply, HzVerdict,
};
use float::SegmentCount;
use rect::Rect;
use vec2::Vec2;

// ---- floats

#[unsafe(no_mangle)]
pub extern "C" fn hz_sqrt(x: f32) -> f32
    ensures { result ≡ square_root binary32 x }
{
    root::sqrt(x)
}

#[unsafe(no_mangle)]
pub extern "C" fn hz_segment_count(squared: f32) -> SegmentCount
    ensures { result ≡ segment_answer squared }
{
    count::segment_count(squared)
}

// ---- curves

#[unsafe(no_mangle)]
pub extern "C" fn hz_quad_segment_count(
    p0: Vec2,
    p1: Vec2,
    p2: Vec2,
    tolerance: f32,
) -> SegmentCount
    ensures { result ≡ segment_answer (quad_s tolerance p0 p1 p2) }
{
    wang::quad_segment_count(p0, p1, p2, tolerance)
}

#[unsafe(no_mangle)]
pub extern "C" fn hz_cubic_segment_count(
    p0: Vec2,
    p1: Vec2,
    p2: Vec2,
    p3: Vec2,
    tolerance: f32,
) -> SegmentCount
    ensures { result ≡ segment_answer (cubic_s tolerance p0 p1 p2 p3) }
{
    wang::cubic_segment_count(p0, p1, p2, p3, tolerance)
}

#[unsafe(no_mangle)]
pub extern "C" fn hz_eval_quad(p0: Vec2, p1: Vec2, p2: Vec2, t: f32) -> Vec2
    ensures { result ≡ eval_quad p0 p1 p2 t }
{
    curve::eval_quad(p0, p1, p2, t)
}

#[unsafe(no_mangle)]
pub extern "C" fn hz_eval_cubic(p0: Vec2, p1: Vec2, p2: Vec2, p3: Vec2, t: f32) -> Vec2
    ensures { result ≡ eval_cubic p0 p1 p2 p3 t }
{
    curve::eval_cubic(p0, p1, p2, p3, t)
}

#[unsafe(no_mangle)]
pub extern "C" fn hz_tolerance_for_scale(tolerance: f32, max_scale: f32) -> f32
    ensures { result ≡ scaled_tolerance tolerance max_scale }
{
    curve::tolerance_for_scale(tolerance, max_scale)
}

// ---- building

#[unsafe(no_mangle)]
pub extern "C" fn hz_new() -> HzBuilder
    ensures { result ≡ state_out fresh }
{
    PathBuilder::new().into()
}

#[unsafe(no_mangle)]
pub extern "C" fn hz_with_fill_rule(state: HzBuilder, rule: u8) -> HzBuilder
    ensures { result ≡ state_out (set_by (state_in state) (WithFillRule (rule_in rule))) }
{
    PathBuilder::from(state).with_fill_rule(rule.into()).into()
}

#[unsafe(no_mangle)]
pub extern "C" fn hz_as_rounded_rect(state: HzBuilder, rect: Rect, radius: f32) -> HzBuilder
    ensures { result ≡ state_out (set_by (state_in state) (AsRoundedRect rect radius)) }
{
    PathBuilder::from(state)
        .as_rounded_rect(rect, radius)
        .into()
}

#[unsafe(no_mangle)]
pub extern "C" fn hz_current_point(state: HzBuilder) -> HzPoint
    ensures { result ≡ point_out (current_of (state_in state)) }
{
    PathBuilder::from(state).current_point().into()
}

#[unsafe(no_mangle)]
pub extern "C" fn hz_rounded_rect(state: HzBuilder) -> HzNote
    ensures { result ≡ note_out (note_of (state_in state)) }
{
    PathBuilder::from(state).rounded_rect().into()
}

#[unsafe(no_mangle)]
pub extern "C" fn hz_move_to(
    state: HzBuilder,
    verbs: &mut [u8],
    points: &mut [f32],
    p: Vec2,
) -> HzReply
    ensures { outcome result verbs.new points.new ≡ outcome_out state (called (state_in state) verbs.old points.old (MoveTo p)) }
{
    HzReply::new(state, PathBuilder::from(state).move_to(verbs, points, p))
}

#[unsafe(no_mangle)]
pub extern "C" fn hz_line_to(
    state: HzBuilder,
    verbs: &mut [u8],
    points: &mut [f32],
    p: Vec2,
) -> HzReply
    ensures { outcome result verbs.new points.new ≡ outcome_out state (called (state_in state) verbs.old points.old (LineTo p)) }
{
    HzReply::new(state, PathBuilder::from(state).line_to(verbs, points, p))
}

#[unsafe(no_mangle)]
pub extern "C" fn hz_quad_to(
    state: HzBuilder,
    verbs: &mut [u8],
    points: &mut [f32],
    ctrl: Vec2,
    to: Vec2,
) -> HzReply
    ensures { outcome result verbs.new points.new ≡ outcome_out state (called (state_in state) verbs.old points.old (QuadTo ctrl to)) }
{
    HzReply::new(
        state,
        PathBuilder::from(state).quad_to(verbs, points, ctrl, to),
    )
}

#[unsafe(no_mangle)]
pub extern "C" fn hz_conic_to(
    state: HzBuilder,
    verbs: &mut [u8],
    points: &mut [f32],
    ctrl: Vec2,
    to: Vec2,
    weight: f32,
) -> HzReply
    ensures { outcome result verbs.new points.new ≡ outcome_out state (called (state_in state) verbs.old points.old (ConicTo ctrl to weight)) }
{
    HzReply::new(
        state,
        PathBuilder::from(state).conic_to(verbs, points, ctrl, to, weight),
    )
}

#[unsafe(no_mangle)]
pub extern "C" fn hz_cubic_to(
    state: HzBuilder,
    verbs: &mut [u8],
    points: &mut [f32],
    c0: Vec2,
    c1: Vec2,
    to: Vec2,
) -> HzReply
    ensures { outcome result verbs.new points.new ≡ outcome_out state (called (state_in state) verbs.old points.old (CubicTo c0 c1 to)) }
{
    HzReply::new(
        state,
        PathBuilder::from(state).cubic_to(verbs, points, c0, c1, to),
    )
}

#[unsafe(no_mangle)]
pub extern "C" fn hz_close(state: HzBuilder, verbs: &mut [u8], points: &mut [f32]) -> HzReply
    ensures { outcome result verbs.new points.new ≡ outcome_out state (called (state_in state) verbs.old points.old Close) }
{
    HzReply::new(state, PathBuilder::from(state).close(verbs, points))
}

// A whole encoded list of calls on a fresh builder: one crossing from C for all of them.
#[unsafe(no_mangle)]
pub extern "C" fn hz_replay(
    kinds: &[u8],
    numbers: &[f32],
    verbs: &mut [u8],
    points: &mut [f32],
) -> HzReplayed
    ensures { replay_outcome result verbs.new points.new ≡ hz_replayed kinds.now numbers.now verbs.old points.old }
{
    replay::replay(kinds, numbers, verbs, points).into()
}

// ---- a path that is handed in

#[unsafe(no_mangle)]
pub extern "C" fn hz_check(verbs: &[u8], points: &[f32]) -> u8
    ensures { result ≡ number_of (check verbs.now points.now) }
{
    path::number_of(&path::check(verbs, points))
}

#[unsafe(no_mangle)]
#[tactic(auto, unfolding(crossing::specs::Answers::hz_flatten))]
pub extern "C" fn hz_flatten(
    verbs: &[u8],
    points: &[f32],
    tolerance: f32,
    out: &mut [f32],
    ends: &mut [usize],
    marks: &mut [u8],
) -> HzFlattened
    ensures { flatten_outcome result out.new ends.new marks.new
        ≡ hz_flatten verbs.now points.now tolerance out.old ends.old marks.old }
{
    flatten::flatten(verbs, points, tolerance, out, ends, marks).into()
}

#[unsafe(no_mangle)]
pub extern "C" fn hz_carried_count(
    verbs: &[u8],
    points: &[f32],
    tolerance: f32,
    index: usize,
) -> HzCarried
    ensures { result ≡ carried_out (carried_count verbs.now points.now tolerance index) }
{
    flatten::carried_count(verbs, points, tolerance, index).into()
}

#[unsafe(no_mangle)]
pub extern "C" fn hz_bounds(verbs: &[u8], points: &[f32]) -> HzBounds
    ensures { result ≡ bounds_out (bounds verbs.now points.now) }
{
    bounds::bounds(verbs, points).into()
}

#[unsafe(no_mangle)]
pub extern "C" fn hz_is_finite(verbs: &[u8], points: &[f32]) -> HzAnswer
    ensures { result ≡ answer_out (asked all_finite verbs.now points.now) }
{
    bounds::is_finite(verbs, points).into()
}

#[unsafe(no_mangle)]
pub extern "C" fn hz_is_within_tessellation_range(verbs: &[u8], points: &[f32]) -> HzAnswer
    ensures { result ≡ answer_out (asked in_range verbs.now points.now) }
{
    bounds::is_within_tessellation_range(verbs, points).into()
}

// ---- boxes

#[unsafe(no_mangle)]
pub extern "C" fn hz_is_empty(rect: Rect) -> bool
    ensures { result ≡ is_empty_rect rect }
{
    rect.is_empty()
}

#[unsafe(no_mangle)]
pub extern "C" fn hz_contains(rect: Rect, p: Vec2) -> bool
    ensures { result ≡ holds rect p }
{
    rect.contains(p)
}

#[unsafe(no_mangle)]
pub extern "C" fn hz_width(rect: Rect) -> f32
    ensures { result ≡ width_of rect }
{
    rect.width()
}

#[unsafe(no_mangle)]
pub extern "C" fn hz_height(rect: Rect) -> f32
    ensures { result ≡ height_of rect }
{
    rect.height()
}

// ---- convexity

#[unsafe(no_mangle)]
pub extern "C" fn hz_convexity(verbs: &[u8], points: &[f32]) -> HzVerdict
    ensures { result ≡ verdict_out (convexity verbs.now points.now) }
{
    convexity::convexity(verbs, points).into()
}

#[unsafe(no_mangle)]
pub extern "C" fn hz_polygon_convexity(points: &[f32]) -> HzVerdict
    ensures { result ≡ verdict_out (polygon_convexity points.now) }
{
    convexity::polygon_convexity(points).into()
}

// ---- patterns

#[unsafe(no_mangle)]
pub extern "C" fn hz_is_usable(intervals: &[f32], phase: f32) -> bool
    ensures { result ≡ usable intervals.now phase }
{
    pattern::is_usable(intervals, phase)
}

#[unsafe(no_mangle)]
pub extern "C" fn hz_line_style(number: usize) -> HzLineStyle
    ensures { result ≡ style_out (line_style number) }
{
    HzLineStyle::new(pattern::line_style(number))
}

// ---- dashing

#[unsafe(no_mangle)]
pub extern "C" fn hz_dash_path(
    verbs: &[u8],
    points: &[f32],
    rule: u8,
    intervals: &[f32],
    phase: f32,
    tolerance: f32,
    scratch: &mut [f32],
    ends: &mut [usize],
    marks: &mut [u8],
    dash_verbs: &mut [u8],
    dash_points: &mut [f32],
) -> HzDashed
    ensures { dash_outcome result scratch.new ends.new marks.new dash_verbs.new dash_points.new
        ≡ hz_dashing verbs.now points.now (rule_in rule) intervals.now phase tolerance scratch.old ends.old marks.old dash_verbs.old dash_points.old }
{
    dash::dash_path(
        verbs,
        points,
        rule.into(),
        intervals,
        phase,
        tolerance,
        scratch,
        ends,
        marks,
        dash_verbs,
        dash_points,
    )
    .into()
}

#[unsafe(no_mangle)]
#[tactic(auto, unfolding(crossing::specs::Dash::hz_outline))]
pub extern "C" fn hz_drawn_outline<'a>(
    path: &'a [f32],
    points: usize,
    dash: &'a [f32],
    answer: HzDashed,
) -> HzOutline
    ensures { result ≡ hz_outline path.now points dash.now answer }
{
    let part = dash::drawn_outline(path, points, dash, answer.into());
    HzOutline {
        floats: part.len(),
        from_dash: u8::from(answer.kind != 0),
    }
}
