// Outlines and the answers to the questions about them: convexity, bounds, finiteness and range. The expected lines stand in `stdout`.
#![tactic(auto)]

use common::{Shape, Told, YesNo};
use path::Refusal;
use rect::Rect;
use std::io;
use vec2::Vec2;

// ---- convexity

fn polygons(rt: &impl Print, list: &[(&str, &[f32])]) -> io::Result<()> {
    for (name, points) in list {
        let shape = common::polygon(points);
        println!(rt; "{name}: {shape}")?;
    }
    Ok(())
}

// The examples of the scope.
fn examples(rt: &impl Print) -> io::Result<()> {
    let s = 0.000030517578125;
    polygons(
        rt,
        &[
            (
                "doubled back",
                &[50.0, 70.0, 0.0, 70.0, 0.0, 0.0, 40.0, 70.0, 40.0, 70.0],
            ),
            ("dart", &[0.0, 0.0, 4.0, 0.0, 1.0, 1.0, 0.0, 4.0]),
            (
                "dart times 2^-15",
                &[0.0, 0.0, 4.0 * s, 0.0, s, s, 0.0, 4.0 * s],
            ),
        ],
    )
}

fn few_points(rt: &impl Print) -> io::Result<()> {
    polygons(
        rt,
        &[
            ("no point", &[]),
            ("two points", &[0.0, 0.0, 4.0, 0.0]),
            ("three floats", &[0.0, 0.0, 4.0]),
        ],
    )
}

fn repeats_at_the_ends(rt: &impl Print) -> io::Result<()> {
    polygons(
        rt,
        &[
            (
                "square, repeats at the start",
                &[0.0, 0.0, 0.0, 0.0, 0.0, 0.0, 4.0, 0.0, 4.0, 4.0, 0.0, 4.0],
            ),
            (
                "square, repeats at the end",
                &[0.0, 0.0, 4.0, 0.0, 4.0, 4.0, 0.0, 4.0, 0.0, 4.0, 0.0, 4.0],
            ),
        ],
    )
}

fn repeats_elsewhere(rt: &impl Print) -> io::Result<()> {
    polygons(
        rt,
        &[
            (
                "square, closed twice, by 0 and by -0",
                &[0.0, 0.0, 4.0, 0.0, 4.0, 4.0, 0.0, 4.0, 0.0, 0.0, -0.0, 0.0],
            ),
            (
                "dart, repeats at the dent",
                &[
                    0.0, 0.0, 4.0, 0.0, 1.0, 1.0, 1.0, 1.0, 1.0, 1.0, 0.0, 4.0, 0.0, 4.0,
                ],
            ),
        ],
    )
}

// At most two different points, and no turn.
fn nothing_but_repeats(rt: &impl Print) -> io::Result<()> {
    polygons(
        rt,
        &[
            (
                "four times one point",
                &[3.0, 5.0, 3.0, 5.0, 3.0, 5.0, 3.0, 5.0],
            ),
            (
                "four zeros of different signs",
                &[0.0, -0.0, -0.0, 0.0, 0.0, 0.0, -0.0, -0.0],
            ),
            ("there and back", &[0.0, 0.0, 4.0, 4.0, 4.0, 4.0, 0.0, 0.0]),
        ],
    )
}

// All turns agree: five to the left or to the right, through one full circle or through two.
fn stars(rt: &impl Print) -> io::Result<()> {
    polygons(
        rt,
        &[
            (
                "pentagon",
                &[50.0, 0.0, 98.0, 35.0, 79.0, 90.0, 21.0, 90.0, 2.0, 35.0],
            ),
            (
                "pentagram",
                &[50.0, 0.0, 79.0, 90.0, 2.0, 35.0, 98.0, 35.0, 21.0, 90.0],
            ),
            (
                "pentagram, the other way",
                &[50.0, 0.0, 21.0, 90.0, 98.0, 35.0, 2.0, 35.0, 79.0, 90.0],
            ),
            (
                "pentagram with repeats",
                &[
                    50.0, 0.0, 79.0, 90.0, 79.0, 90.0, 2.0, 35.0, 98.0, 35.0, 98.0, 35.0, 21.0,
                    90.0,
                ],
            ),
        ],
    )
}

fn squares(rt: &impl Print) -> io::Result<()> {
    polygons(
        rt,
        &[
            (
                "square, the other way",
                &[0.0, 0.0, 0.0, 4.0, 4.0, 4.0, 4.0, 0.0],
            ),
            (
                "square, twice around",
                &[
                    0.0, 0.0, 4.0, 0.0, 4.0, 4.0, 0.0, 4.0, 0.0, 0.0, 4.0, 0.0, 4.0, 4.0, 0.0, 4.0,
                ],
            ),
        ],
    )
}

// A NaN equals nothing, itself included, and a NaN cross counts as negative.
fn not_numbers(rt: &impl Print) -> io::Result<()> {
    let nan = f32::NAN;
    polygons(
        rt,
        &[
            (
                "square with a NaN",
                &[0.0, 0.0, 4.0, 0.0, nan, 4.0, 0.0, 4.0],
            ),
            (
                "the other way with a NaN",
                &[0.0, 0.0, 0.0, 4.0, nan, 4.0, 4.0, 0.0],
            ),
            ("three times NaN", &[nan; 6]),
        ],
    )
}

fn infinities(rt: &impl Print) -> io::Result<()> {
    let far = f32::INFINITY;
    polygons(
        rt,
        &[
            (
                "square to infinity",
                &[0.0, 0.0, far, 0.0, far, far, 0.0, far],
            ),
            (
                "line from infinity to infinity",
                &[-far, 0.0, 0.0, 0.0, far, 0.0],
            ),
            ("three times infinity", &[far; 6]),
        ],
    )
}

// Points in a line, from one on, each a step further.
fn lay_side(side: &mut [[f32; 2]], from: Vec2, step: Vec2) {
    let mut at = from;
    for point in side {
        *point = [at.x, at.y];
        at = at + step;
    }
}

// A square whose sides have 32,768 points each.
fn lay_square(points: &mut [[f32; 2]]) {
    let sides = [
        (Vec2::new(0.0, 0.0), Vec2::new(1.0, 0.0)),
        (Vec2::new(32768.0, 0.0), Vec2::new(0.0, 1.0)),
        (Vec2::new(32768.0, 32768.0), Vec2::new(-1.0, 0.0)),
        (Vec2::new(0.0, 32768.0), Vec2::new(0.0, -1.0)),
    ];
    for (side, (from, step)) in points.chunks_mut(32768).zip(sides) {
        lay_side(side, from, step);
    }
}

fn up_to_the_limit(rt: &impl Print) -> io::Result<()> {
    let mut long = [0.0; 262144];
    println!(rt; "131,072 times one point: {}", common::polygon(&long))?;
    long[262142] = 1.0;
    println!(rt;
        "131,071 times one point, then another: {}",
        common::polygon(&long)
    )?;
    lay_square(long.as_chunks_mut().0);
    println!(rt; "square of 131,072 points: {}", common::polygon(&long))?;
    long[200001] = 32767.0;
    println!(rt; "the same with a dent: {}", common::polygon(&long))
}

fn past_the_limit(rt: &impl Print) -> io::Result<()> {
    polygons(
        rt,
        &[
            ("131,073 points", &[0.0; 262146]),
            ("131,073 points and a float", &[0.0; 262147]),
        ],
    )
}

// ---- finiteness and range

fn outline(rt: &impl Print, name: &str, verbs: &[u8], points: &[f32]) -> io::Result<()> {
    let shape = Told(convexity::convexity(verbs, points).map(Shape));
    let finite = Told(bounds::is_finite(verbs, points).map(YesNo));
    let in_range = Told(bounds::is_within_tessellation_range(verbs, points).map(YesNo));
    println!(rt; "{name}: {shape}")?;
    println!(rt; "  finite: {finite}")?;
    println!(rt; "  in range: {in_range}")
}

fn outlines(rt: &impl Print, list: &[(&str, &[u8], &[f32])]) -> io::Result<()> {
    for (name, verbs, points) in list {
        outline(rt, name, verbs, points)?;
    }
    Ok(())
}

const SQUARE: [f32; 8] = [0.0, 0.0, 4.0, 0.0, 4.0, 4.0, 0.0, 4.0];

fn points_of_paths(rt: &impl Print) -> io::Result<()> {
    let verbs = &[0, 1, 1, 1, 4];
    outlines(
        rt,
        &[
            ("empty path", &[], &[]),
            ("closed square", verbs, &SQUARE),
            (
                "as far as 16,777,216",
                verbs,
                &[-16777216.0, 0.0, 16777216.0, 0.0, 0.0, 16777216.0, 0.0, 0.0],
            ),
            (
                "as far as 16,777,218",
                verbs,
                &[0.0, 0.0, 4.0, -16777218.0, 4.0, 4.0, 0.0, 4.0],
            ),
            (
                "with a NaN",
                verbs,
                &[0.0, 0.0, 4.0, 0.0, 4.0, f32::NAN, 0.0, 4.0],
            ),
            (
                "with an infinity",
                verbs,
                &[0.0, 0.0, f32::INFINITY, 0.0, 4.0, 4.0, 0.0, 4.0],
            ),
        ],
    )
}

fn verbs_of_paths(rt: &impl Print) -> io::Result<()> {
    outlines(
        rt,
        &[
            ("with a quad", &[0, 1, 2, 4], &SQUARE),
            ("with a cubic", &[0, 3, 4], &SQUARE),
            ("with a second move", &[0, 1, 1, 4, 0, 4], &SQUARE),
        ],
    )
}

fn refused_paths(rt: &impl Print) -> io::Result<()> {
    outlines(
        rt,
        &[
            ("three floats", &[0, 1, 9, 1, 4], &[0.0, 0.0, 4.0]),
            ("65,537 verbs", &[9; 65537], &SQUARE),
            ("verb 9", &[0, 1, 9, 1, 4], &SQUARE),
            ("no move at first", &[1, 1, 1, 1], &SQUARE),
            ("a point too many", &[0, 1, 1, 4], &SQUARE),
        ],
    )
}

// ---- boxes

fn reports(rt: &impl Print, list: &[(&str, bool)]) -> io::Result<()> {
    for (name, holds) in list {
        let answer = YesNo(*holds);
        println!(rt; "{name}: {answer}")?;
    }
    Ok(())
}

fn empty_rect(rt: &impl Print) -> io::Result<()> {
    let low = Vec2::new(f32::NEG_INFINITY, f32::NEG_INFINITY);
    let high = Vec2::new(f32::INFINITY, f32::INFINITY);
    let r = bounds::bounds(&[], &[]).unwrap_or(Rect::new(low, high));
    let refused = bounds::bounds(&[], &[1.0]);
    reports(
        rt,
        &[
            (
                "no point: from +oo to -oo",
                r == Rect {
                    min: high,
                    max: low,
                },
            ),
            ("  empty", r.is_empty()),
            ("  width 0", r.width() == 0.0),
            ("  height 0", r.height() == 0.0),
            ("  holds (0, 0)", r.contains(Vec2::zero())),
            ("refused by 1", refused == Err(Refusal::OddFloats)),
            ("  empty", refused.unwrap_or(Rect::empty()).is_empty()),
        ],
    )
}

fn rects(rt: &impl Print) -> io::Result<()> {
    let nan = f32::NAN;
    let points = [1.0, 2.0, 30.0, -5.0, nan, 9.0, -3.0, nan];
    let r = bounds::bounds(&[0, 2, 1, 4], &points).unwrap_or(Rect::empty());
    let turned = Rect::new(Vec2::new(5.0, 0.0), Vec2::new(1.0, 2.0));
    let min = Vec2::new(-3.0, -5.0);
    let max = Vec2::new(30.0, 9.0);
    reports(
        rt,
        &[
            ("control points count, NaNs do not", r == Rect { min, max }),
            ("  empty", r.is_empty()),
            ("  width 33", r.width() == 33.0),
            ("  height 14", r.height() == 14.0),
            ("  holds a corner", r.contains(Vec2::new(30.0, -5.0))),
            ("  holds a point outside", r.contains(Vec2::new(30.0, 9.5))),
            ("  holds a NaN", r.contains(Vec2::new(nan, 0.0))),
            ("turned about: empty", turned.is_empty()),
            ("  width 0", turned.width() == 0.0),
            ("  height 2", turned.height() == 2.0),
        ],
    )
}

// Of two zeros the first is kept: 1 over it tells its sign.
fn zeros(rt: &impl Print) -> io::Result<()> {
    let r = bounds::bounds(&[0, 1], &[-0.0, 0.0, 0.0, -0.0]).unwrap_or(Rect::empty());
    reports(
        rt,
        &[
            ("-0 then 0: -0", 1.0 / r.min.x < 0.0),
            ("0 then -0: -0", 1.0 / r.min.y < 0.0),
        ],
    )
}

fn main(rt: HostRuntime) -> io::Result<()> {
    examples(&rt)?;
    few_points(&rt)?;
    repeats_at_the_ends(&rt)?;
    repeats_elsewhere(&rt)?;
    nothing_but_repeats(&rt)?;
    stars(&rt)?;
    squares(&rt)?;
    not_numbers(&rt)?;
    infinities(&rt)?;
    up_to_the_limit(&rt)?;
    past_the_limit(&rt)?;
    points_of_paths(&rt)?;
    verbs_of_paths(&rt)?;
    refused_paths(&rt)?;
    empty_rect(&rt)?;
    rects(&rt)?;
    zeros(&rt)
}
