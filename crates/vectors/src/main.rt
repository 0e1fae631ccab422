// Replays answers of the Rust source, and of the list's maker, from the requests, where the source does not say which curves are held back and which
// polylines are closed, and where a dash pattern has a zero or nothing is left of an interval at a corner or at the start. Standard input has a list
// of cases, made by `compare/vectors` (see there), in words of four bytes, low byte first. A case: how many words follow; tolerance, phase and scale;
// the number of intervals, the intervals; the number of calls, the calls, seven words each; and then every answer in the order in which `run` asks.
// A float is its pattern; every NaN is one here. Floats, ends and marks are lent as 77.5, 7777 and 165 where the list says what is left alone. The
// number of each case that differs is written out, before the next case is read.
#![tactic(auto)]

ghost use Rattle.std.specs.Prelude.{◌≤◌};

use builder::{Call, PathBuilder, RoundedRect};
use common::read_record;
use float::SegmentCount;
use outline::Dashed;
use path::{FillRule, Refusal, number_of};
use polyline::Flattened;
use rect::Rect;
use std::io;
use std::io::{BufReader, Read};
use std::num::{f32_from_bits_with_nan, f32_to_bits_with_nan};
use turns::Convexity;
use vec2::Vec2;

// ---- the list

// The most cases, and the most words of a case.
const MOST_CASES: u64 = 100_000;

const MOST_WORDS: usize = 4352;

// A number that says how many words there are; one over the most words of a case says 0.
fn count_of(word: u32) -> usize
    ensures { result ≤ 4352 }
{
    let n = word as usize;
    if n <= MOST_WORDS { n } else { 0 }
}

// Fills the words from the input, and answers whether it had so many.
fn read_words(input: &mut impl Read, words: &mut [u32]) -> io::Result<bool> {
    let mut bytes = [0; 4];
    for word in words {
        if !read_record(input, &mut bytes)? {
            return Ok(false);
        }
        *word = u32::from_le_bytes(bytes);
    }
    Ok(true)
}

#[derive(Clone, Copy)]
struct Case<'a> {
    tolerance: f32,
    phase: f32,
    scale: f32,
    intervals: &'a [u32],
    calls: &'a [[u32; 7]],
    answers: &'a [u32],
}

impl<'a> Case<'a> {
    // None where the words are too few, or the intervals more than a pattern has.
    fn parse(words: &'a [u32]) -> Option<Case<'a>> {
        let ([tolerance, phase, scale, count], rest) = words.split_first_chunk::<4>()?;
        let (intervals, rest) = rest.split_at_checked(count_of(*count))?;
        if pattern::MAX_INTERVALS < intervals.len() {
            return None;
        }
        let (count, rest) = rest.split_first()?;
        let (calls, answers) = rest.split_at_checked(7 * count_of(*count))?;
        Some(Case {
            tolerance: f32_from_bits_with_nan(*tolerance),
            phase: f32_from_bits_with_nan(*phase),
            scale: f32_from_bits_with_nan(*scale),
            intervals,
            calls: calls.as_chunks().0,
            answers,
        })
    }
}

fn point_of(x: u32, y: u32) -> Vec2 {
    Vec2::new(f32_from_bits_with_nan(x), f32_from_bits_with_nan(y))
}

// A call: its kind, which the list has as a number, as all that it has is words, then its points and floats. From 7 on it is the note.
fn call_of(words: [u32; 7]) -> Call {
    let [kind, x0, y0, x1, y1, x2, y2] = words;
    let p = point_of(x0, y0);
    let q = point_of(x1, y1);
    let r = point_of(x2, y2);
    match kind {
        0 => Call::MoveTo(p),
        1 => Call::LineTo(p),
        2 => Call::QuadTo(p, q),
        3 => Call::CubicTo(p, q, r),
        4 => Call::Close,
        5 => Call::ConicTo(p, q, r.x),
        6 => Call::WithFillRule(FillRule::from(u8::from(x0 != 0))),
        _ => Call::AsRoundedRect(Rect::new(p, q), r.x),
    }
}

// ---- comparing

// The answers that are still to be met.
#[derive(Drop)]
struct Tape<'a>(&'a [u32]);

// What the list has words for.
trait Listed {
    // None where the list has another answer next, or no more.
    fn meet(self, tape: &mut Tape) -> Option<()>;
}

impl Tape<'_> {
    fn next(&mut self) -> Option<u32> {
        let (word, rest) = self.0.split_first()?;
        self.0 = rest;
        Some(*word)
    }

    fn expect<T: Listed>(&mut self, answer: T) -> Option<()> {
        answer.meet(self)
    }
}

impl Listed for u32 {
    fn meet(self, tape: &mut Tape) -> Option<()> {
        (tape.next()? == self).then_some(())
    }
}

impl Listed for u8 {
    fn meet(self, tape: &mut Tape) -> Option<()> {
        tape.expect(u32::from(self))
    }
}

impl Listed for bool {
    fn meet(self, tape: &mut Tape) -> Option<()> {
        tape.expect(u32::from(self))
    }
}

impl Listed for usize {
    fn meet(self, tape: &mut Tape) -> Option<()> {
        tape.expect(u32::try_from(self).ok()?)
    }
}

// The pattern of a listed float.
fn pattern(word: u32) -> u32 {
    f32_to_bits_with_nan(f32_from_bits_with_nan(word))
}

impl Listed for f32 {
    fn meet(self, tape: &mut Tape) -> Option<()> {
        (pattern(tape.next()?) == f32_to_bits_with_nan(self)).then_some(())
    }
}

impl Listed for Vec2 {
    fn meet(self, tape: &mut Tape) -> Option<()> {
        tape.expect(self.x)?;
        tape.expect(self.y)
    }
}

impl Listed for Rect {
    fn meet(self, tape: &mut Tape) -> Option<()> {
        tape.expect(self.min)?;
        tape.expect(self.max)
    }
}

impl Listed for RoundedRect {
    fn meet(self, tape: &mut Tape) -> Option<()> {
        tape.expect(self.rect)?;
        tape.expect(self.radius)
    }
}

impl Listed for FillRule {
    fn meet(self, tape: &mut Tape) -> Option<()> {
        tape.expect(u8::from(self))
    }
}

impl<T: Listed + Copy> Listed for &[T] {
    fn meet(self, tape: &mut Tape) -> Option<()> {
        tape.expect(self.len())?;
        for x in self {
            tape.expect(*x)?;
        }
        Some(())
    }
}

impl Listed for Convexity {
    fn meet(self, tape: &mut Tape) -> Option<()> {
        tape.expect(self as u8)
    }
}

impl Listed for SegmentCount {
    fn meet(self, tape: &mut Tape) -> Option<()> {
        tape.expect(self.count)?;
        tape.expect(self.held)
    }
}

impl Listed for Flattened {
    fn meet(self, tape: &mut Tape) -> Option<()> {
        tape.expect(self.starts)?;
        tape.expect(self.lines)?;
        tape.expect(self.counts)?;
        tape.expect(self.closings)?;
        tape.expect(self.held)
    }
}

impl<T: Listed + Drop> Listed for Option<T> {
    fn meet(self, tape: &mut Tape) -> Option<()> {
        match self {
            Some(x) => {
                tape.expect(true)?;
                tape.expect(x)
            }
            None => tape.expect(false),
        }
    }
}

// The first n of a buffer; nothing where it has fewer.
fn first<T>(buffer: &[T], n: usize) -> &[T] {
    buffer.get(..n).unwrap_or(&[])
}

// The floats of the first n points.
fn points(floats: &[f32], n: usize) -> &[f32] {
    first(floats, n.saturating_mul(2))
}

// As many of the first marks as the list has: the polylines', and of the bytes behind them two, or as many as are lent.
fn expect_marks(tape: &mut Tape, marks: &[u8]) -> Option<()> {
    let n = *tape.0.first()? as usize;
    tape.expect(first(marks, n))
}

// ---- asking

// A path, and how it is flattened and dashed.
#[derive(Clone, Copy)]
struct Asked<'a> {
    verbs: &'a [u8],
    points: &'a [f32],
    rule: FillRule,
    tolerance: f32,
    phase: f32,
    intervals: &'a [f32],
}

// Each call that can refuse has its number in the list, and where it refuses, zeros for the answer.
impl Asked<'_> {
    fn ask_bounds(self, tape: &mut Tape) -> Option<()> {
        let answer = bounds::bounds(self.verbs, self.points);
        tape.expect(number_of(&answer))?;
        let rect = answer.unwrap_or(Rect::empty());
        tape.expect(rect)?;
        tape.expect(rect.width())?;
        tape.expect(rect.height())?;
        tape.expect(rect.is_empty())?;
        tape.expect(bounds::is_finite(self.verbs, self.points).unwrap_or(false))?;
        tape.expect(bounds::is_within_tessellation_range(self.verbs, self.points).unwrap_or(false))
    }

    fn ask_convexity(self, tape: &mut Tape) -> Option<()> {
        let convexity = convexity::convexity(self.verbs, self.points);
        tape.expect(convexity.unwrap_or(Convexity::Concave))?;
        let convexity = convexity::polygon_convexity(self.points);
        tape.expect(convexity.unwrap_or(Convexity::Concave))
    }

    // Flattens with room for every mark.
    fn ask_flatten(self, tape: &mut Tape) -> Option<()> {
        let mut out = [0.0; 4096];
        let mut ends = [0; 256];
        let mut marks = [165; 256];
        let r = flatten::flatten(
            self.verbs,
            self.points,
            self.tolerance,
            &mut out,
            &mut ends,
            &mut marks,
        );
        tape.expect(number_of(&r))?;
        let r = r.unwrap_or_default();
        tape.expect(r)?;
        tape.expect(points(&out, r.points))?;
        tape.expect(first(&ends, r.polylines))?;
        expect_marks(tape, &marks)
    }

    // Flattens with room for as many marks as `marks` takes. Where there are more polylines, 3, and every buffer is as it was.
    fn ask_room(self, tape: &mut Tape, marks: &mut [u8]) -> Option<()> {
        let mut out = [77.5; 4096];
        let mut ends = [7777; 256];
        let r = flatten::flatten(
            self.verbs,
            self.points,
            self.tolerance,
            &mut out,
            &mut ends,
            marks,
        );
        tape.expect(number_of(&r))?;
        tape.expect(r.unwrap_or_default().polylines)?;
        expect_front(tape, &out, &ends, marks)
    }

    // The N of every verb, and whether it was held back.
    fn ask_counts(self, tape: &mut Tape) -> Option<()> {
        for i in 0..self.verbs.len() {
            let n = flatten::carried_count(self.verbs, self.points, self.tolerance, i);
            tape.expect(n.unwrap_or_default())?;
        }
        Some(())
    }

    // Dashes with room for as many verbs as `laid` takes and for as many of the scratch's marks as `marks` takes. The scratch is left alone where the
    // path is drawn whole or the scratch is too small, and holds the flattened path where it is cut or the dash buffers are too small.
    fn ask_dash(self, tape: &mut Tape, laid: &mut [u8], marks: &mut [u8]) -> Option<()> {
        let mut scratch = [77.5; 4096];
        let mut ends = [7777; 256];
        let mut drawn = [0.0; 4096];
        let d = dash::dash_path(
            self.verbs,
            self.points,
            self.rule,
            self.intervals,
            self.phase,
            self.tolerance,
            &mut scratch,
            &mut ends,
            marks,
            laid,
            &mut drawn,
        );
        expect_dashed(tape, d, laid, &drawn)?;
        expect_front(tape, &scratch, &ends, marks)
    }

    // Whether the pattern is usable; dashes with room for every verb and mark, again with room for one verb, which mostly meets the second 3, again with
    // room for four, which are often just as many or one too few, and again with room for one mark, where two polylines meet the first.
    fn ask_dashes(self, tape: &mut Tape) -> Option<()> {
        tape.expect(pattern::is_usable(self.intervals, self.phase))?;
        self.ask_dash(tape, &mut [0; 2048], &mut [165; 256])?;
        self.ask_dash(tape, &mut [0; 1], &mut [165; 256])?;
        self.ask_dash(tape, &mut [0; 4], &mut [165; 256])?;
        self.ask_dash(tape, &mut [0; 2048], &mut [165; 1])
    }
}

// The front of the buffers that a flattening writes: a point, an end and the marks.
fn expect_front(tape: &mut Tape, out: &[f32], ends: &[usize], marks: &[u8]) -> Option<()> {
    tape.expect(first(out, 2))?;
    tape.expect(first(ends, 1))?;
    expect_marks(tape, marks)
}

// An answer of dashing, which the list has as a number too, and what it left in the dash buffers. Only what is cut has a number of curves held back.
fn expect_dashed(
    tape: &mut Tape,
    d: Result<Dashed, Refusal>,
    laid: &[u8],
    drawn: &[f32],
) -> Option<()> {
    match d {
        Ok(Dashed::Whole) => tape.expect(0u8),
        Ok(Dashed::Cut(o)) => {
            tape.expect(1u8)?;
            tape.expect(o.rule)?;
            tape.expect(o.held)?;
            tape.expect(first(laid, o.verbs))?;
            tape.expect(points(drawn, o.points))
        }
        Err(refusal) => {
            tape.expect(2u8)?;
            tape.expect(u8::from(refusal))
        }
    }
}

// Plays the calls; of each, how many quads it laid, and that it wasn't refused.
fn build(
    tape: &mut Tape,
    calls: &[[u32; 7]],
    verbs: &mut [u8],
    points: &mut [f32],
) -> Option<PathBuilder> {
    let mut b = PathBuilder::new();
    for words in calls {
        let r = common::play(b, call_of(*words), verbs, points);
        b = r.state;
        tape.expect(r.quads.unwrap_or(0))?;
        tape.expect(number_of(&r.quads))?;
    }
    Some(b)
}

// None where an answer of a case is not the listed one, or more are listed.
fn run(case: Case, intervals: &[f32]) -> Option<()> {
    let mut verbs = [0; 512];
    let mut floats = [0.0; 2048];
    let mut tape = Tape(case.answers);
    let b = build(&mut tape, case.calls, &mut verbs, &mut floats)?;
    let asked = Asked {
        verbs: first(&verbs, b.verbs),
        points: points(&floats, b.points),
        rule: b.fill_rule,
        tolerance: case.tolerance,
        phase: case.phase,
        intervals,
    };
    tape.expect(asked.verbs)?;
    tape.expect(asked.points)?;
    tape.expect(b.current_point())?;
    tape.expect(b.fill_rule)?;
    tape.expect(b.rounded_rect())?;
    asked.ask_bounds(&mut tape)?;
    asked.ask_convexity(&mut tape)?;
    asked.ask_flatten(&mut tape)?;
    asked.ask_room(&mut tape, &mut [165; 1])?;
    asked.ask_room(&mut tape, &mut [165; 2])?;
    asked.ask_counts(&mut tape)?;
    asked.ask_dashes(&mut tape)?;
    tape.expect(curve::tolerance_for_scale(case.tolerance, case.scale))?;
    tape.0.is_empty().then_some(())
}

// Whether every answer of a case is the listed one, and no more are listed.
fn replay(words: &[u32]) -> bool {
    let Some(case) = Case::parse(words) else {
        return false;
    };
    let mut intervals = [0.0; pattern::MAX_INTERVALS];
    for (interval, word) in intervals.iter_mut().zip(case.intervals) {
        *interval = f32_from_bits_with_nan(*word);
    }
    run(case, first(&intervals, case.intervals.len())).is_some()
}

fn main(rt: HostRuntime) -> io::Result<()> {
    let mut input = BufReader::new(rt.alloc(), rt.reader())?;
    let mut head = [0; 1];
    let mut words = [0; MOST_WORDS];
    let mut cases: u64 = 0;
    let mut right: u64 = 0;
    for number in 1..=MOST_CASES {
        if !read_words(&mut input, &mut head)? {
            break;
        }
        let case = &mut words[..count_of(head[0])];
        if !read_words(&mut input, case)? {
            break;
        }
        cases = number;
        if replay(case) {
            right = right.saturating_add(1);
        } else {
            println!(rt; "{number} differs")?;
        }
    }
    println!(rt; "{cases} cases")?;
    println!(rt; "{right} as the source and the requests have it")
}
