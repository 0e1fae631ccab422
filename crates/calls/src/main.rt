// Builder calls played: the paper's conic of 64 quads, full buffers, one short of each size, the limits, an odd float buffer, states that 7 meets.
// Standard input has the calls, in lines of 83 bytes: a name that a colon ends, at place 39 a letter, and from place 40 on six fields of 7 bytes, each a
// sign and a number. A line `B` lends buffers, from a byte to a byte and from a float to a float of those that all calls share, to a fresh builder and
// the lines behind it, and says how many these are. Small letters are calls: `m` move, `l` line, `q` quad, `k` conic, `c` cubic, and every other close.
// `H` hands in a state: its counts, whether it is started, and the pen; `N` is a fresh one. `R` sets the fill rule and `A` the rounded rectangle; `P` and
// `T` ask for the point and the rectangle; `S` shows the buffers from a byte and a float on, and `Y` one byte and one float.
// A line is written for each call with a name: its number, a conic's quads, both counts, whether it is started, the latest move's point and the pen.
#![tactic(auto)]

ghost use Rattle.std.specs.Prelude.{◌≤◌};

use builder::{Call, PathBuilder, Reply, RoundedRect};
use common::{YesNo, read_record};
use path::{FillRule, Refusal, number_of};
use rect::Rect;
use std::io::{BufReader, Read};
use std::{fmt, io};
use vec2::Vec2;

// ---- the list

// The bytes of a line, the one that ends it too.
const LINE: usize = 83;

// The most lines `B`.
const MOST_LENT: usize = 100;

// What a byte says; one that is no digit says 0.
fn digit(byte: u8) -> u16
    ensures { result ≤ 9 }
{
    match byte {
        b'0'..=b'9' => u16::from(byte - b'0'),
        _ => 0,
    }
}

fn pair(tens: u8, ones: u8) -> u16
    ensures { result ≤ 99 }
{
    10 * digit(tens) + digit(ones)
}

// A sign, and six digits.
#[derive(Clone, Copy)]
struct Field([u8; 7]);

impl Field {
    fn count(self) -> usize
        ensures { result ≤ 999999 }
    {
        let [_, a, b, c, d, e, f] = self.0;
        10_000 * usize::from(pair(a, b)) + 100 * usize::from(pair(c, d)) + usize::from(pair(e, f))
    }

    // `nan`, or the whole number of the last four digits with its sign.
    fn float(self) -> f32 {
        let [sign, _, _, c, d, e, f] = self.0;
        if f == b'n' {
            return f32::NAN;
        }
        let x = f32::from(100 * pair(c, d) + pair(e, f));
        if sign == b'-' { -x } else { x }
    }
}

// The fields of a line that are still to be read. One that is not there is blank.
#[derive(Clone, Copy)]
struct Fields<'a>(&'a [u8]);

impl Fields<'_> {
    fn next(&mut self) -> Field {
        let Some((field, rest)) = self.0.split_first_chunk() else {
            return Field([b' '; 7]);
        };
        self.0 = rest;
        Field(*field)
    }

    fn count(&mut self) -> usize
        ensures { result ≤ 999999 }
    {
        self.next().count()
    }

    fn part(&mut self) -> Part {
        Part {
            start: self.count(),
            end: self.count(),
        }
    }

    fn float(&mut self) -> f32 {
        self.next().float()
    }

    fn point(&mut self) -> Vec2 {
        Vec2::new(self.float(), self.float())
    }

    fn rect(&mut self) -> Rect {
        Rect::new(self.point(), self.point())
    }
}

#[derive(Clone, Copy)]
struct Line<'a> {
    name: Option<&'a [u8]>,
    letter: u8,
    fields: Fields<'a>,
}

impl<'a> Line<'a> {
    // A line that begins with a space has no name, and where no colon ends it, the name is the whole line.
    fn parse(text: &'a [u8; LINE]) -> Line<'a> {
        let colon = text.iter().position(|byte| *byte == b':').unwrap_or(LINE);
        let name = text.get(..colon).unwrap_or(text);
        Line {
            name: (text[0] != b' ').then_some(name),
            letter: text[39],
            fields: Fields(&text[40..]),
        }
    }

    // The call of a small letter.
    fn call(self) -> Option<Call> {
        let mut fields = self.fields;
        match self.letter {
            b'm' => Some(Call::MoveTo(fields.point())),
            b'l' => Some(Call::LineTo(fields.point())),
            b'q' => Some(Call::QuadTo(fields.point(), fields.point())),
            b'k' => Some(Call::ConicTo(fields.point(), fields.point(), fields.float())),
            b'c' => Some(Call::CubicTo(fields.point(), fields.point(), fields.point())),
            b'a'.. => Some(Call::Close),
            _ => None,
        }
    }
}

// A state as it is handed in.
fn handed_in(line: Line) -> PathBuilder {
    let mut fields = line.fields;
    PathBuilder {
        verbs: fields.count(),
        points: fields.count(),
        started: fields.count() == 1,
        pen_x: fields.float(),
        pen_y: fields.float(),
        ..PathBuilder::new()
    }
}

// ---- what is printed

// A whole number under 100, `nan`, or a dash.
#[derive(Clone, Copy)]
struct Number(f32);

impl fmt::Display for Number {
    fn fmt<W: fmt::Write>(&self, f: &mut fmt::Formatter<W>) -> fmt::Result {
        if self.0.is_nan() {
            return write!(f, "nan");
        }
        match common::whole(self.0, 100) {
            Some(n) => write!(f, "{n}"),
            None => write!(f, "-"),
        }
    }
}

#[derive(Clone, Copy)]
struct Point(Vec2);

impl fmt::Display for Point {
    fn fmt<W: fmt::Write>(&self, f: &mut fmt::Formatter<W>) -> fmt::Result {
        write!(f, "{} {}", Number(self.0.x), Number(self.0.y))
    }
}

// What refuses a call, and how many quads it gave; 0 where there is none.
#[derive(Clone, Copy)]
struct Quads(Result<usize, Refusal>);

impl fmt::Display for Quads {
    fn fmt<W: fmt::Write>(&self, f: &mut fmt::Formatter<W>) -> fmt::Result {
        write!(
            f,
            "refused {} quads {}",
            number_of(&self.0),
            self.0.unwrap_or(0)
        )
    }
}

fn print_reply(rt: &impl Print, name: &[u8], r: Reply) -> io::Result<()> {
    let b = r.state;
    let start = Point(Vec2::new(b.start_x, b.start_y));
    let pen = Point(Vec2::new(b.pen_x, b.pen_y));
    rt.write_all(name)?;
    print!(rt; ": {}", Quads(r.quads))?;
    print!(rt;
        " verbs {} points {} started {}",
        b.verbs,
        b.points,
        YesNo(b.started)
    )?;
    println!(rt; " start {start} pen {pen}")
}

fn print_pen(rt: &impl Print, b: PathBuilder) -> io::Result<()> {
    match b.current_point() {
        Some(pen) => println!(rt; "current point {}", Point(pen)),
        None => println!(rt; "no current point"),
    }
}

fn print_note(rt: &impl Print, b: PathBuilder) -> io::Result<()> {
    let Some(RoundedRect { rect: r, radius }) = b.rounded_rect() else {
        return println!(rt; "no rounded rectangle");
    };
    print!(rt;
        "rounded rectangle {} {} radius {}",
        Point(r.min),
        Point(r.max),
        Number(radius)
    )?;
    // 1 over a zero tells its sign
    println!(rt; "{}", if 1.0 / radius < 0.0 { " below 0" } else { "" })
}

// The buffers from a byte and a float on.
fn print_buffers(rt: &impl Print, line: Line, verbs: &[u8], points: &[f32]) -> io::Result<()> {
    let mut fields = line.fields;
    print!(rt; "  verbs")?;
    for v in verbs.get(fields.count()..).unwrap_or(&[]) {
        print!(rt; " {v}")?;
    }
    print!(rt; "\n  floats")?;
    for x in points.get(fields.count()..).unwrap_or(&[]) {
        let x = Number(*x);
        print!(rt; " {x}")?;
    }
    println!(rt;)
}

// Byte 1, a space where it is not lent, and float 5.
fn print_sample(rt: &impl Print, verbs: &[u8], points: &[f32]) -> io::Result<()> {
    let v = verbs.get(1).unwrap_or(&b' ');
    print!(rt; "  byte 1 {v} float 5")?;
    if let Some(x) = points.get(5) {
        print!(rt; " {}", Number(*x))?;
    }
    println!(rt;)
}

// ---- the calls

// Plays a line, and returns the state behind it. Verbs and points are two arguments, as every call of a builder takes them: a struct
// of both would be made for this call and taken apart in it.
fn step(
    rt: &impl Print,
    line: Line,
    b: PathBuilder,
    verbs: &mut [u8],
    points: &mut [f32],
) -> io::Result<PathBuilder> {
    if let Some(call) = line.call() {
        let reply = common::play(b, call, verbs, points);
        if let Some(name) = line.name {
            print_reply(rt, name, reply)?;
        }
        return Ok(reply.state);
    }
    let mut fields = line.fields;
    match line.letter {
        b'N' => return Ok(PathBuilder::new()),
        b'H' => return Ok(handed_in(line)),
        b'R' => return Ok(b.with_fill_rule(FillRule::EvenOdd)),
        b'A' => return Ok(b.as_rounded_rect(fields.rect(), fields.float())),
        b'P' => print_pen(rt, b)?,
        b'T' => print_note(rt, b)?,
        b'S' => print_buffers(rt, line, verbs, points)?,
        b'Y' => print_sample(rt, verbs, points)?,
        _ => {}
    }
    Ok(b)
}

// Plays the next n lines, on a fresh builder. Where the input ends before, the line that stands is played again.
fn scene(
    rt: &impl Print,
    input: &mut impl Read,
    n: usize,
    verbs: &mut [u8],
    points: &mut [f32],
) -> io::Result<()> {
    let mut text = [0; LINE];
    let mut b = PathBuilder::new();
    for _ in 0..n {
        let _whole = read_record(input, &mut text)?;
        b = step(rt, Line::parse(&text), b, verbs, points)?;
    }
    Ok(())
}

// The part of a buffer that is lent. A `Range` is no `Copy`.
#[derive(Clone, Copy)]
struct Part {
    start: usize,
    end: usize,
}

impl Part {
    fn of<T>(self, buffer: &mut [T]) -> Option<&mut [T]> {
        buffer.get_mut(self.start..self.end)
    }
}

fn main(rt: HostRuntime) -> io::Result<()> {
    let mut input = BufReader::new(rt.alloc(), rt.reader())?;
    let mut text = [0; LINE];
    let mut verbs = [9; 65538];
    let mut points = [7.0; 262148];
    for _ in 0..MOST_LENT {
        if !read_record(&mut input, &mut text)? {
            break;
        }
        let mut fields = Line::parse(&text).fields;
        let (lent_verbs, lent_points) = (fields.part(), fields.part());
        let lines = fields.count();
        // a part that the buffers do not have is lent to no line
        if let Some(verbs) = lent_verbs.of(&mut verbs) {
            if let Some(points) = lent_points.of(&mut points) {
                scene(&rt, &mut input, lines, verbs, points)?;
            }
        }
    }
    Ok(())
}
