// What the programs share: a record read, a builder call played, whichever it is, and how answers are told.
#![tactic(auto)]

ghost use Rattle.std.specs.Prelude.{◌≡◌, pos, true, Some, IfOk};
ghost use Rattle.std.specs.Io.KnownBytes.{Consumes};
ghost use Rattle.std.specs.List.{find, range_with_len};
ghost use Rattle.std.specs.Float.{binary32};
ghost use Rattle.std.specs.Float.Ieee.{eq, of_int};
ghost use Rattle.std.specs.Result.{result_map_both};
ghost use Rattle.builder.specs.Build.{outcome, called};
ghost use Rattle.turns.specs.Answer.{polygon_convexity};
ghost use Rattle.common.specs.Told.{refused_text, told_text, shape_text, yes_no_text};

use builder::{Call, PathBuilder, Reply};
use path::Refusal;
use std::io::{ErrorKind, Read};
use std::{fmt, io};
use turns::Convexity;

// Fills a record from the input, and answers whether the input had as much. Where it had not, its last bytes are in front of the record all the same.
pub fn read_record<R: Read>(input: &mut R, bytes: &mut [u8]) -> io::Result<bool>
    ensures { IfOk result (λ whole. whole ≡ true → Consumes (R.remaining input.old) (R.remaining input.new) bytes.new) }
{
    match input.read_exact(bytes) {
        Ok(()) => Ok(true),
        Err(e) if e.kind() == ErrorKind::UnexpectedEof => Ok(false),
        Err(e) => Err(e),
    }
}

// Plays one call. The buffers stay two arguments, as the builder's calls have them.
#[tactic(auto, unfolding(builder::specs::Build::called))]
pub fn play(b: PathBuilder, call: Call, verbs: &mut [u8], points: &mut [f32]) -> Reply
    ensures { outcome result verbs.new points.new ≡ called b verbs.old points.old call }
{
    match call {
        Call::MoveTo(p) => b.move_to(verbs, points, p),
        Call::LineTo(p) => b.line_to(verbs, points, p),
        Call::QuadTo(ctrl, to) => b.quad_to(verbs, points, ctrl, to),
        Call::ConicTo(ctrl, to, weight) => b.conic_to(verbs, points, ctrl, to, weight),
        Call::CubicTo(c0, c1, to) => b.cubic_to(verbs, points, c0, c1, to),
        Call::Close => b.close(verbs, points),
        Call::WithFillRule(rule) => b.with_fill_rule(rule).into(),
        Call::AsRoundedRect(rect, radius) => b.as_rounded_rect(rect, radius).into(),
    }
}

// The whole number below `limit` that a float is.
pub fn whole(x: f32, limit: u16) -> Option<u16>
    ensures { result ≡ find (λ n. eq (of_int binary32 (pos n)) x) (range_with_len 0 limit) }
{
    (0..limit).find(|n| f32::from(*n) == x)
}

// ---- how answers are told

// `refused`, and by which number.
#[derive(Clone, Copy)]
pub struct Refused(pub Refusal);

impl fmt::Display for Refused {
    ghost output = { λ r. Some (refused_text r.0) };

    fn fmt<W: fmt::Write>(&self, f: &mut fmt::Formatter<W>) -> fmt::Result {
        write!(f, "refused {}", u8::from(self.0))
    }
}

// An answer, or what refuses it.
#[derive(Clone, Copy)]
pub struct Told<T>(pub Result<T, Refusal>);

impl<T: fmt::Display> fmt::Display for Told<T> {
    ghost output = { λ t. told_text T.output t.0 };

    fn fmt<W: fmt::Write>(&self, f: &mut fmt::Formatter<W>) -> fmt::Result {
        match &self.0 {
            Ok(answer) => write!(f, "{answer}"),
            Err(refusal) => write!(f, "{}", Refused(*refusal)),
        }
    }
}

// `Convex` or `Concave`.
#[derive(Clone, Copy)]
pub struct Shape(pub Convexity);

impl fmt::Display for Shape {
    ghost output = { λ s. Some (shape_text s.0) };

    fn fmt<W: fmt::Write>(&self, f: &mut fmt::Formatter<W>) -> fmt::Result {
        f.write_str(match self.0 {
            Convexity::Convex => "Convex",
            Convexity::Concave => "Concave",
        })
    }
}

// What is told of a polygon.
pub fn polygon(points: &[f32]) -> Told<Shape>
    ensures { result_map_both (λ s. s.0) (λ r. r) result.0 ≡ polygon_convexity points.now }
{
    Told(convexity::polygon_convexity(points).map(Shape))
}

// `yes` or `no`.
#[derive(Clone, Copy)]
pub struct YesNo(pub bool);

impl fmt::Display for YesNo {
    ghost output = { λ b. Some (yes_no_text b.0) };

    fn fmt<W: fmt::Write>(&self, f: &mut fmt::Formatter<W>) -> fmt::Result {
        f.write_str(if self.0 { "yes" } else { "no" })
    }
}
