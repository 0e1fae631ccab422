// `dash_path`: a path cut into the drawn pieces of a dash pattern, and `drawn_outline`.
#![tactic(auto)]

ghost use Rattle.std.specs.Prelude.{◌≡◌, ◌%◌, ◌<◌, List, [], length, Float, Ok};
ghost use Rattle.std.specs.Option.{option_map, unwrap_or};
ghost use Rattle.path.specs.Check as path;
ghost use Rattle.pattern.specs.Cycle.{cycle_of};
ghost use Rattle.outline.specs.Answer.{answer_of};
ghost use Rattle.outline.specs.Dash.{check, outcome, cutting, dashing};
ghost use Rattle.outline.specs.Outline.{part, outline_of};

use outline::Dashed;
use path::{FillRule, Refusal};
use walk::Scratch;

// 1, then the path's 4, 5, 6, then 8.
fn check(
    verbs: &[u8],
    points: &[f32],
    intervals: &[f32],
    scratch: usize,
    dash: usize,
) -> Result<(), Refusal>
    ensures { result ≡ check verbs.now points.now intervals.now scratch dash }
{
    if points.len() % 2 != 0 || scratch % 2 != 0 || dash % 2 != 0 {
        return Err(Refusal::OddFloats);
    }
    path::check(verbs, points)?;
    if pattern::MAX_INTERVALS < intervals.len() {
        return Err(Refusal::LongPattern);
    }
    Ok(())
}

// Cuts a path into the drawn pieces of a dash pattern. Path, pattern, scratch and dash buffers come apart, as C lends them: a struct of lent slices would have
// to promise of each what it holds afterwards, field by field, as the clause does now in one line.
pub fn dash_path(
    verbs: &[u8],
    points: &[f32],
    rule: FillRule,
    intervals: &[f32],
    phase: f32,
    tolerance: f32,
    scratch: &mut [f32],
    ends: &mut [usize],
    marks: &mut [u8],
    dash_verbs: &mut [u8],
    dash_points: &mut [f32],
) -> Result<Dashed, Refusal>
    ensures { outcome (answer_of result) scratch.new ends.new marks.new dash_verbs.new dash_points.new
        ≡ dashing verbs.now points.now rule intervals.now phase tolerance scratch.old ends.old marks.old dash_verbs.old dash_points.old }
{
    check(verbs, points, intervals, scratch.len(), dash_points.len())?;
    let cycle = pattern::cycle_of(intervals);
    if !pattern::is_cut(intervals, cycle.intervals(), phase, tolerance) {
        return Ok(Dashed::Whole);
    }
    let f = flatten::flatten(verbs, points, tolerance, scratch, ends, marks)?;
    let kept = Scratch {
        points: &scratch[..2 * f.points],
        ends: &ends[..f.polylines],
    };
    walk::cut_scratch(
        kept,
        cycle.intervals(),
        phase,
        f.held,
        rule,
        dash_verbs,
        dash_points,
    )
}

// The floats of the first n points, where there are so many.
fn part(floats: &[f32], n: usize) -> Option<&[f32]>
    ensures { unwrap_or (option_map (λ s. s.now) result) [] ≡ part floats.now n }
{
    floats.get(..n.checked_mul(2)?)
}

// The drawn outline: the path's own part, or the filled part of the dash buffer; nothing where the dashing was refused, or where the numbers do not fit. The path's buffer
// comes with the number of its points, as C lends it.
pub fn drawn_outline<'a>(
    path: &'a [f32],
    points: usize,
    dash: &'a [f32],
    answer: Option<Dashed>,
) -> &'a [f32]
    ensures { result.now ≡ outline_of path.now points dash.now answer }
{
    let drawn = match answer {
        Some(Dashed::Whole) => part(path, points),
        Some(Dashed::Cut(o)) => part(dash, o.points),
        None => None,
    };
    drawn.unwrap_or_default()
}
