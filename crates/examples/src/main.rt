// The unstarred checked examples of the scope, run end to end: calls on a builder, flattening, dashing, and the questions.
#![tactic(auto)]

use builder::PathBuilder;
use common::{Refused, Told};
use outline::{Dashed, Outline};
use path::{FillRule, Segment};
use segments::Path;
use std::{fmt, io};
use vec2::Vec2;

// ---- what is printed

// A number of whole or of eighths; a question mark for any other.
#[derive(Clone, Copy)]
struct Number(f32);

impl fmt::Display for Number {
    fn fmt<W: fmt::Write>(&self, f: &mut fmt::Formatter<W>) -> fmt::Result {
        if let Some(n) = common::whole(self.0, 200) {
            write!(f, "{n}")
        } else if let Some(n) = common::whole(self.0 * 8.0, 200) {
            write!(f, "{n}/8")
        } else {
            write!(f, "?")
        }
    }
}

// A segment by its verb and the point that it ends at.
#[derive(Clone, Copy)]
struct Piece(Segment);

impl fmt::Display for Piece {
    fn fmt<W: fmt::Write>(&self, f: &mut fmt::Formatter<W>) -> fmt::Result {
        let (verb, p) = match self.0 {
            Segment::Move(p) => ("move", p),
            Segment::Line(p) => ("line", p),
            Segment::Quad(_, p) => ("quad", p),
            Segment::Cubic(_, _, p) => ("cubic", p),
            Segment::Close => return write!(f, "close"),
        };
        write!(f, "{verb} ({},{})", Number(p.x), Number(p.y))
    }
}

// So many quads.
#[derive(Clone, Copy)]
struct Quads(usize);

impl fmt::Display for Quads {
    fn fmt<W: fmt::Write>(&self, f: &mut fmt::Formatter<W>) -> fmt::Result {
        write!(f, "{} quads", self.0)
    }
}

// All segments of a path.
#[derive(Drop)]
struct Drawn<'a>(Path<'a>);

impl fmt::Display for Drawn<'_> {
    fn fmt<W: fmt::Write>(&self, f: &mut fmt::Formatter<W>) -> fmt::Result {
        for segment in self.0.segments() {
            write!(f, " {}", Piece(segment))?;
        }
        Ok(())
    }
}

// The path in the filled part of two buffers: so many verbs and points. None where these are no path, or more than the buffers hold.
fn filled<'a>(verbs: &'a [u8], points: &'a [f32], v: usize, p: usize) -> Option<Path<'a>> {
    Path::new(verbs.get(..v)?, points.get(..p.checked_mul(2)?)?).ok()
}

// ---- dashing

// The filled part of the dash buffers.
fn print_cut(rt: &impl Print, verbs: &[u8], points: &[f32], cut: Outline) -> io::Result<()> {
    match filled(verbs, points, cut.verbs, cut.points).map(Drawn) {
        Some(drawn) => println!(rt; " Cut:{drawn}"),
        None => println!(rt; " Cut: NO"),
    }
}

// Cuts a path at tolerance 0.25 and phase 0, and prints what is drawn.
fn print_dashed(rt: &impl Print, path: &Path, intervals: &[f32]) -> io::Result<()> {
    let mut scratch = [0.0f32; 64];
    let mut ends = [0usize; 8];
    let mut marks = [0u8; 8];
    let mut dash_verbs = [9u8; 64];
    let mut dash_points = [9.0f32; 128];
    let answer = dash::dash_path(
        path.verbs,
        path.points,
        FillRule::NonZero,
        intervals,
        0.0,
        0.25,
        &mut scratch,
        &mut ends,
        &mut marks,
        &mut dash_verbs,
        &mut dash_points,
    );
    match answer {
        Ok(Dashed::Whole) => println!(rt; " Whole"),
        Ok(Dashed::Cut(cut)) => print_cut(rt, &dash_verbs, &dash_points, cut),
        Err(refusal) => println!(rt; " {}", Refused(refusal)),
    }
}

// Plays an encoded list of calls on a fresh builder, and cuts the path that it leaves.
fn print_played(
    rt: &impl Print,
    name: &str,
    kinds: &[u8],
    numbers: &[f32],
    intervals: &[f32],
) -> io::Result<()> {
    print!(rt; "{name}:")?;
    let mut verbs = [0u8; 16];
    let mut points = [0.0f32; 32];
    let state = replay::replay(kinds, numbers, &mut verbs, &mut points).state;
    match filled(&verbs, &points, state.verbs, state.points) {
        Some(path) => print_dashed(rt, &path, intervals),
        None => println!(rt; " NO"),
    }
}

// Move to NaN, conic weight 100.
fn print_conic(rt: &impl Print) -> io::Result<()> {
    let mut verbs = [0u8; 70];
    let mut points = [0.0f32; 300];
    let b = PathBuilder::new();
    let moved = b.move_to(&mut verbs, &mut points, Vec2::new(f32::NAN, f32::NAN));
    let control = Vec2::new(1.0, 1.0);
    let to = Vec2::new(2.0, 0.0);
    let state = moved.state;
    let r = state.conic_to(&mut verbs, &mut points, control, to, 100.0);
    let quads = Told(r.quads.map(Quads));
    println!(rt; "move to NaN, conic weight 100: {quads}")
}

// ---- convexity

fn print_polygons(rt: &impl Print) -> io::Result<()> {
    let s = 0.000030517578125;
    let back = common::polygon(&[50.0, 70.0, 0.0, 70.0, 0.0, 0.0, 40.0, 70.0, 40.0, 70.0]);
    println!(rt; "(50,70) (0,70) (0,0) (40,70) (40,70): {back}")?;
    let dart = common::polygon(&[0.0, 0.0, 4.0, 0.0, 1.0, 1.0, 0.0, 4.0]);
    println!(rt; "(0,0) (4,0) (1,1) (0,4): {dart}")?;
    let small = common::polygon(&[0.0, 0.0, 4.0 * s, 0.0, s, s, 0.0, 4.0 * s]);
    println!(rt; "the same times 2^-15: {small}")
}

fn main(rt: HostRuntime) -> io::Result<()> {
    let line = &[0.0, 0.0, 8.0, 0.0];
    print_played(
        &rt,
        "line (0,0)-(8,0), pattern 0 5",
        &[0, 1],
        line,
        &[0.0, 5.0],
    )?;
    print_played(
        &rt,
        "the same without its move, pattern 0 5",
        &[1],
        &line[2..],
        &[0.0, 5.0],
    )?;
    print_played(
        &rt,
        "line (0,0)-(8,0), intervals 0.125 0.125",
        &[0, 1],
        line,
        &[0.125, 0.125],
    )?;
    print_played(
        &rt,
        "line (0,0)-(1,0), intervals 0.125 0.25",
        &[0, 1],
        &[0.0, 0.0, 1.0, 0.0],
        &[0.125, 0.25],
    )?;
    print_conic(&rt)?;
    print_polygons(&rt)
}
