// The scope's flattening examples, corner paths and each refusal, run; the points are those of the Rust source. A line for each: `ok` or `NO`, and what it is.
#![tactic(auto)]

ghost use Rattle.std.specs.Prelude.{◌≤◌};

use float::SegmentCount;
use path::Refusal;
use polyline::Flattened;
use std::io;
use vec2::Vec2;
use wang::{cubic_segment_count as cubic, quad_segment_count as quad};

// ---- the library's answers

// Verbs and points as they are handed in: some are refused, which a `segments::Path` never is.
#[derive(Clone, Copy)]
struct Raw<'a>(&'a [u8], &'a [f32]);

// How many floats, ends and marks a flattening is lent.
#[derive(Clone, Copy)]
struct Room {
    floats: usize,
    ends: usize,
    marks: usize,
}

const MOST: Room = Room {
    floats: 4006,
    ends: 3,
    marks: 3,
};

// The answer of a flattening, and what is left in the floats, ends and marks, which are lent as 7, 99 and 9.
#[derive(Clone, Copy)]
struct Flattening {
    answer: Result<Flattened, Refusal>,
    floats: [f32; 4006],
    ends: [usize; 3],
    marks: [u8; 3],
}

fn flatten(path: Raw, tolerance: f32, room: Room) -> Flattening
    requires floats { room.floats ≤ 4006 }
    requires ends { room.ends ≤ 3 }
    requires marks { room.marks ≤ 3 }
{
    let Raw(verbs, points) = path;
    let mut floats = [7.0; 4006];
    let mut ends = [99; 3];
    let mut marks = [9; 3];
    let answer = flatten::flatten(
        verbs,
        points,
        tolerance,
        &mut floats[..room.floats],
        &mut ends[..room.ends],
        &mut marks[..room.marks],
    );
    Flattening {
        answer,
        floats,
        ends,
        marks,
    }
}

// The count of the verb at `index`, or why it is refused.
fn carried(path: Raw, tolerance: f32, index: usize) -> Result<SegmentCount, Refusal> {
    let Raw(verbs, points) = path;
    flatten::carried_count(verbs, points, tolerance, index)
}

// ---- what is wanted

// So many lines, and no curve held back.
fn lines(count: u32) -> SegmentCount {
    SegmentCount { count, held: false }
}

const HELD_BACK: SegmentCount = SegmentCount {
    count: 1000,
    held: true,
};

// Equal as numbers; a NaN stands for any NaN.
fn is_same(x: f32, y: f32) -> bool {
    x == y || x.is_nan() && y.is_nan()
}

impl Flattening {
    // Whether these points are written, and nothing behind them.
    fn has(&self, points: &[f32]) -> bool {
        let Some((written, left)) = self.floats.split_at_checked(points.len()) else {
            return false;
        };
        written.iter().zip(points).all(|(x, y)| is_same(*x, *y)) && left.iter().all(|x| *x == 7.0)
    }

    // Whether this is the answer, and this is left in the ends and marks.
    fn is(&self, answer: Result<Flattened, Refusal>, ends: [usize; 3], marks: [u8; 3]) -> bool {
        self.answer == answer && self.ends == ends && self.marks == marks
    }
}

// Whether a path flattens to these points, and no others, with these totals, ends and marks.
fn gives(path: Raw, written: &[f32], totals: Flattened, ends: [usize; 3], marks: [u8; 3]) -> bool {
    let f = flatten(path, curve::DEFAULT_TOLERANCE, MOST);
    f.has(written) && f.is(Ok(totals), ends, marks) && totals.points == written.len() / 2
}

// Whether a path flattens with so many added closings and these marks.
fn is_marked(path: Raw, closings: usize, marks: [u8; 3]) -> bool {
    let f = flatten(path, 0.25, MOST);
    f.marks == marks && f.answer.is_ok_and(|r| r.closings == closings)
}

// Whether a flattening is refused for this, and leaves all that it is lent as it was.
fn is_refused(path: Raw, tolerance: f32, room: Room, refusal: Refusal) -> bool
    requires floats { room.floats ≤ 4006 }
    requires ends { room.ends ≤ 3 }
    requires marks { room.marks ≤ 3 }
{
    let f = flatten(path, tolerance, room);
    f.is(Err(refusal), [99; 3], [9; 3]) && f.has(&[])
}

// ---- what is written

fn quad_of_five() -> bool {
    gives(
        Raw(&[0, 2, 4], &[0.0, 0.0, 8.0, 8.0, 16.0, 0.0]),
        &[
            0.0, 0.0, 3.2000003, 2.5600002, 6.4000006, 3.8400002, 9.6, 3.84, 12.800001, 2.56, 16.0,
            0.0, 0.0, 0.0,
        ],
        Flattened {
            points: 7,
            polylines: 1,
            starts: 1,
            counts: 5,
            closings: 1,
            ..Flattened::default()
        },
        [7, 99, 99],
        [1, 9, 9],
    )
}

fn cubic_of_nine() -> bool {
    gives(
        Raw(&[0, 3], &[0.0, 0.0, 0.0, 8.0, 16.0, 8.0, 16.0, 0.0]),
        &[
            0.0, 0.0, 0.5486969, 2.3703704, 2.0192044, 4.148148, 4.148148, 5.333333, 6.672154,
            5.925926, 9.327847, 5.9259257, 11.851852, 5.333333, 13.980795, 4.1481476, 15.4513035,
            2.3703704, 16.0, 0.0,
        ],
        Flattened {
            points: 10,
            polylines: 1,
            starts: 1,
            counts: 9,
            ..Flattened::default()
        },
        [10, 99, 99],
        [0, 9, 9],
    )
}

fn counts() -> bool {
    let bent = [0.0, 0.0, 8.0, 8.0, 16.0, 0.0];
    let flat = [0.0, 0.0, 8.0, 0.0, 16.0, 0.0];
    let bow = [0.0, 0.0, 0.0, 8.0, 16.0, 8.0, 16.0, 0.0];
    carried(Raw(&[0, 2], &bent), 0.25, 1) == Ok(lines(5))
        && carried(Raw(&[0, 2], &flat), 0.25, 1) == Ok(lines(1))
        && carried(Raw(&[0, 3], &bow), 0.25, 1) == Ok(lines(9))
        && carried(Raw(&[0, 2], &flat), 0.25, 0) == Ok(lines(0))
        && carried(Raw(&[0, 2], &flat), 0.25, 2) == Ok(lines(0))
        && carried(Raw(&[0, 2], &flat[..4]), 0.25, 1) == Err(Refusal::BadPath)
}

// A NaN, no tolerance, and a difference too large for a float.
fn odd_counts() -> bool {
    let o = Vec2::zero();
    let up = Vec2::new(8.0, 8.0);
    let across = Vec2::new(16.0, 0.0);
    let nowhere = Vec2::new(f32::NAN, 0.0);
    let right = Vec2::new(3.0e38, 0.0);
    let above = Vec2::new(0.0, 3.0e38);
    quad(o, up, across, f32::NAN) == HELD_BACK
        && quad(o, up, across, -1.0) == HELD_BACK
        && quad(nowhere, up, across, 0.25) == lines(1)
        && cubic(
            nowhere,
            Vec2::new(0.0, 8.0),
            Vec2::new(16.0, 8.0),
            across,
            0.25,
        ) == lines(9)
        && quad(o, right, above, 0.25) == HELD_BACK
        && HELD_BACK.count == curve::MAX_SEGMENTS
}

fn scales() -> bool {
    curve::tolerance_for_scale(0.25, 4.0) == 0.0625
        && curve::tolerance_for_scale(0.25, 0.0) == 0.25
        && curve::tolerance_for_scale(0.25, f32::INFINITY) == 0.25
        && curve::tolerance_for_scale(0.25, f32::NAN) == 0.25
}

fn middles() -> bool {
    let o = Vec2::zero();
    let across = Vec2::new(16.0, 0.0);
    let q = curve::eval_quad(o, Vec2::new(8.0, 8.0), across, 0.5);
    let c = curve::eval_cubic(o, Vec2::new(0.0, 8.0), Vec2::new(16.0, 8.0), across, 0.5);
    q == Vec2::new(8.0, 4.0) && c == Vec2::new(8.0, 6.0)
}

// ---- held back

// At this tolerance a quad whose second difference is 1 wants 1,000 lines, and one whose is 2 wants more.
const TIGHT: f32 = 3.539e-7;

const TWO_QUADS: Raw = Raw(
    &[0, 2, 2],
    &[0.0, 0.0, 0.0, 0.0, 1.0, 0.0, 1.0, 0.0, 3.0, 0.0],
);

// Two quads of 1,000 lines each: of the first no more are wanted, the second is held back.
fn held_back() -> bool {
    let totals = Flattened {
        points: 2001,
        polylines: 1,
        starts: 1,
        counts: 2000,
        held: 1,
        ..Flattened::default()
    };
    let room = Room {
        floats: 4002,
        ..MOST
    };
    flatten(TWO_QUADS, TIGHT, room).is(Ok(totals), [2001, 99, 99], [0, 9, 9])
}

// A quad held back in each of two polylines, with a line behind the second.
fn two_held_back() -> bool {
    let points = [
        0.0, 0.0, 0.0, 0.0, 2.0, 0.0, 5.0, 0.0, 5.0, 0.0, 7.0, 0.0, 8.0, 0.0,
    ];
    let totals = Flattened {
        points: 2003,
        polylines: 2,
        starts: 2,
        lines: 1,
        counts: 2000,
        held: 2,
        ..Flattened::default()
    };
    flatten(Raw(&[0, 2, 0, 2, 1], &points), TIGHT, MOST).is(Ok(totals), [1001, 2003, 99], [0, 0, 9])
}

// One point short.
fn held_and_refused() -> bool {
    let room = Room {
        floats: 4000,
        ..MOST
    };
    is_refused(TWO_QUADS, TIGHT, room, Refusal::OutputFull)
}

// Which curve is held back, asked verb by verb: the second, and nothing else.
fn held_at() -> bool {
    let Raw(_, points) = TWO_QUADS;
    carried(TWO_QUADS, TIGHT, 0) == Ok(lines(0))
        && carried(TWO_QUADS, TIGHT, 1) == Ok(lines(1000))
        && carried(TWO_QUADS, TIGHT, 2) == Ok(HELD_BACK)
        && carried(TWO_QUADS, TIGHT, 3) == Ok(lines(0))
        && carried(Raw(&[0, 2, 5], points), TIGHT, 2) == Err(Refusal::NoVerb)
}

// Held back: an infinite s, and a cubic of which either difference alone asks for more, even beside one that is a NaN. Not held back: −∞, a NaN, and a
// cubic whose large difference is the one that is a NaN.
fn held_curves() -> bool {
    let o = Vec2::zero();
    let one = Vec2::new(1.0, 0.0);
    let two = Vec2::new(2.0, 0.0);
    let far = Vec2::new(1.0e6, 0.0);
    quad(o, one, Vec2::new(f32::INFINITY, 0.0), 0.25) == HELD_BACK
        && cubic(o, one, two, far, 0.25) == HELD_BACK
        && cubic(far, two, one, o, 0.25) == HELD_BACK
        && cubic(o, one, two, Vec2::new(1.0e6, f32::NAN), 0.25) == lines(1)
        && cubic(Vec2::new(f32::NAN, 0.0), o, o, far, 0.25) == HELD_BACK
}

fn held_numbers() -> bool {
    count::segment_count(f32::NEG_INFINITY) == lines(1)
        && count::segment_count(f32::NAN) == lines(1)
        && count::segment_count(1000000.0) == lines(1000)
        && count::segment_count(1000000.06) == HELD_BACK
}

// ---- closing

// -0 is back at 0, so no closing is added; a line after it is closed again.
fn closed_by_value() -> bool {
    gives(
        Raw(
            &[0, 1, 1, 4, 1, 4],
            &[0.0, 0.0, 4.0, 0.0, -0.0, 0.0, 1.0, 1.0],
        ),
        &[0.0, 0.0, 4.0, 0.0, -0.0, 0.0, 1.0, 1.0, 0.0, 0.0],
        Flattened {
            points: 5,
            polylines: 1,
            starts: 1,
            lines: 3,
            closings: 1,
            ..Flattened::default()
        },
        [5, 99, 99],
        [1, 9, 9],
    )
}

// The -0 is written as it is.
fn sign_kept() -> bool {
    let path = Raw(&[0, 1, 1, 4], &[0.0, 0.0, 4.0, 0.0, -0.0, 0.0]);
    1.0 / flatten(path, 0.25, MOST).floats[4] < 0.0
}

fn closed_twice() -> bool {
    gives(
        Raw(&[0, 1, 4, 4, 1, 4], &[1.0, 1.0, 4.0, 1.0, 2.0, 5.0]),
        &[1.0, 1.0, 4.0, 1.0, 1.0, 1.0, 2.0, 5.0, 1.0, 1.0],
        Flattened {
            points: 5,
            polylines: 1,
            starts: 1,
            lines: 2,
            closings: 2,
            ..Flattened::default()
        },
        [5, 99, 99],
        [1, 9, 9],
    )
}

// A NaN start equals nothing, so nothing closes it; a curve drawn from it is one line.
fn nan_start() -> bool {
    gives(
        Raw(
            &[0, 1, 4, 2, 4],
            &[f32::NAN, 1.0, 4.0, 1.0, 1.0, 1.0, 2.0, 2.0],
        ),
        &[f32::NAN, 1.0, 4.0, 1.0, 2.0, 2.0],
        Flattened {
            points: 3,
            polylines: 1,
            starts: 1,
            lines: 1,
            counts: 1,
            ..Flattened::default()
        },
        [3, 99, 99],
        [1, 9, 9],
    )
}

// A curve after a close starts at the move's point and goes on in the same polyline.
fn curve_after_close() -> bool {
    gives(
        Raw(
            &[0, 1, 4, 2, 4],
            &[0.0, 0.0, 16.0, 0.0, 8.0, 8.0, 16.0, 0.0],
        ),
        &[
            0.0, 0.0, 16.0, 0.0, 0.0, 0.0, 3.2000003, 2.5600002, 6.4000006, 3.8400002, 9.6, 3.84,
            12.800001, 2.56, 16.0, 0.0, 0.0, 0.0,
        ],
        Flattened {
            points: 9,
            polylines: 1,
            starts: 1,
            lines: 1,
            counts: 5,
            closings: 2,
            ..Flattened::default()
        },
        [9, 99, 99],
        [1, 9, 9],
    )
}

// ---- subpaths

// A subpath with no drawn verb writes nothing, wherever it stands.
fn empty_subpaths() -> bool {
    gives(
        Raw(
            &[0, 4, 0, 0, 1, 0],
            &[1.0, 1.0, 2.0, 2.0, 3.0, 3.0, 4.0, 4.0, 5.0, 5.0],
        ),
        &[3.0, 3.0, 4.0, 4.0],
        Flattened {
            points: 2,
            polylines: 1,
            starts: 1,
            lines: 1,
            ..Flattened::default()
        },
        [2, 99, 99],
        [0, 9, 9],
    )
}

fn two_polylines() -> bool {
    gives(
        Raw(
            &[0, 1, 1, 4, 0, 1],
            &[0.0, 0.0, 4.0, 0.0, 4.0, 4.0, 9.0, 9.0, 8.0, 8.0],
        ),
        &[0.0, 0.0, 4.0, 0.0, 4.0, 4.0, 0.0, 0.0, 9.0, 9.0, 8.0, 8.0],
        Flattened {
            points: 6,
            polylines: 2,
            starts: 2,
            lines: 3,
            closings: 1,
            ..Flattened::default()
        },
        [4, 6, 99],
        [1, 0, 9],
    )
}

fn nothing() -> bool {
    gives(Raw(&[], &[]), &[], Flattened::default(), [99; 3], [9; 3])
}

// ---- marks; 9 stands where no mark is written

const CORNER: [f32; 6] = [0.0, 0.0, 4.0, 0.0, 4.0, 4.0];

// By the subpath's last verb, whatever closings were added before it.
fn marks_by_last_verb() -> bool {
    is_marked(Raw(&[0, 1, 1], &CORNER), 0, [0, 9, 9])
        && is_marked(Raw(&[0, 1, 1, 4], &CORNER), 1, [1, 9, 9])
        && is_marked(Raw(&[0, 1, 4, 1], &CORNER), 1, [0, 9, 9])
        && is_marked(Raw(&[0, 1, 4, 4], &CORNER[..4]), 1, [1, 9, 9])
        && is_marked(Raw(&[0, 4, 1], &CORNER[..4]), 0, [0, 9, 9])
}

// A close that adds no point is a close: back at the start already, or from a NaN start.
fn marks_without_a_point() -> bool {
    let back = [0.0, 0.0, 4.0, 0.0, 0.0, 0.0];
    let nan = [f32::NAN, 0.0, 4.0, 0.0];
    is_marked(Raw(&[0, 1, 1, 4], &back), 0, [1, 9, 9])
        && is_marked(Raw(&[0, 1, 4], &nan), 0, [1, 9, 9])
}

// One for each polyline, none for a subpath that has none: M Z; M L Z, M, M Z L, M L Z.
fn marks_for_polylines() -> bool {
    let points = [
        0.0, 0.0, 4.0, 0.0, 1.0, 1.0, 2.0, 2.0, 3.0, 3.0, 5.0, 5.0, 6.0, 6.0,
    ];
    is_marked(Raw(&[0, 4], &points[..2]), 0, [9, 9, 9])
        && is_marked(Raw(&[0, 1, 4, 0, 0, 4, 1, 0, 1, 4], &points), 2, [1, 0, 1])
}

// ---- refusals

const BENT: [f32; 6] = [0.0, 0.0, 8.0, 8.0, 16.0, 0.0];

const AMPLE: Room = Room {
    floats: 16,
    ends: 2,
    marks: 2,
};

const SMALL: Room = Room { floats: 2, ..AMPLE };

fn path_refusals() -> bool {
    let odd = Room { floats: 5, ..AMPLE };
    is_refused(Raw(&[0, 5, 4], &BENT[..5]), 0.25, AMPLE, Refusal::OddFloats)
        && is_refused(Raw(&[0, 5, 4], &BENT), 0.25, odd, Refusal::OddFloats)
        && is_refused(Raw(&[1, 5, 4], &BENT), 0.25, SMALL, Refusal::NoVerb)
        && is_refused(Raw(&[1, 2, 4], &BENT), 0.25, SMALL, Refusal::BadPath)
        && is_refused(Raw(&[0, 2, 4], &BENT[..4]), 0.25, SMALL, Refusal::BadPath)
}

// Over a limit: 4, before a bad verb.
fn limits() -> bool {
    let verbs = [5; 65537];
    let points = [0.0, 0.0];
    is_refused(Raw(&verbs, &points), 0.25, SMALL, Refusal::OverLimit)
        && is_refused(Raw(&verbs[..65536], &points), 0.25, SMALL, Refusal::NoVerb)
}

// Buffers exactly full, and each one short.
fn rooms() -> bool {
    let path = Raw(&[0, 2, 4], &BENT);
    let full = Room {
        floats: 14,
        ends: 1,
        marks: 1,
    };
    let none = Room {
        floats: 0,
        ends: 0,
        marks: 0,
    };
    is_refused(path, 0.25, Room { floats: 12, ..full }, Refusal::OutputFull)
        && is_refused(path, 0.25, Room { ends: 0, ..full }, Refusal::OutputFull)
        && is_refused(path, 0.25, Room { marks: 0, ..full }, Refusal::OutputFull)
        && flatten(path, 0.25, full).answer.is_ok()
        && flatten(Raw(&[0], &[0.0, 0.0]), 0.25, none).answer.is_ok()
}

// ---- a line for each

fn say(rt: &impl Print, lines: &[(&str, bool)]) -> io::Result<()> {
    for (name, holds) in lines {
        let verdict = if *holds { "ok" } else { "NO" };
        println!(rt; "{verdict} {name}")?;
    }
    Ok(())
}

fn say_written(rt: &impl Print) -> io::Result<()> {
    say(
        rt,
        &[
            ("quad of five lines, closed", quad_of_five()),
            ("cubic of nine lines", cubic_of_nine()),
            ("carried counts 5, 1, 9, none", counts()),
            ("counts of NaN, no tolerance and too far", odd_counts()),
        ],
    )
}

fn say_held(rt: &impl Print) -> io::Result<()> {
    say(
        rt,
        &[
            ("one of two curves held back", held_back()),
            ("two curves held back", two_held_back()),
            ("none held back in a refusal", held_and_refused()),
            ("the verb of a curve that is held back", held_at()),
            (
                "held back: infinite, by either difference, past 1,000,000",
                held_curves() && held_numbers(),
            ),
        ],
    )
}

fn say_closed(rt: &impl Print) -> io::Result<()> {
    say(
        rt,
        &[
            ("tolerance for a scale", scales()),
            ("middles of curves", middles()),
            ("closing by value", closed_by_value() && sign_kept()),
            ("closed twice", closed_twice()),
            ("NaN start", nan_start()),
            ("curve after a close", curve_after_close()),
        ],
    )
}

fn say_marked(rt: &impl Print) -> io::Result<()> {
    say(
        rt,
        &[
            ("empty subpaths", empty_subpaths()),
            ("two polylines", two_polylines()),
            ("no verbs", nothing()),
            ("marks by the last verb", marks_by_last_verb()),
            (
                "marks where no closing point is added",
                marks_without_a_point(),
            ),
            ("a mark for each polyline", marks_for_polylines()),
        ],
    )
}

fn say_refused(rt: &impl Print) -> io::Result<()> {
    say(
        rt,
        &[
            ("refusals of a path", path_refusals()),
            ("limits", limits()),
            ("room", rooms()),
        ],
    )
}

fn main(rt: HostRuntime) -> io::Result<()> {
    say_written(&rt)?;
    say_held(&rt)?;
    say_closed(&rt)?;
    say_marked(&rt)?;
    say_refused(&rt)
}
