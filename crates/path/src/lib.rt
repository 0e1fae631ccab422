// A path: verbs as bytes, each with its points in a buffer of floats; and the check of a path that is handed in.
#![tactic(auto)]

ghost use Rattle.std.specs.Prelude.{◌≡◌, false, ◌+◌, ◌*◌, ◌≤◌, ◌<◌, length};
ghost use Rattle.vec2.specs.Points.{point_at};
ghost use Rattle.path.specs.Segment.{used, byte_of};
ghost use Rattle.path.specs.Rule.{rule_in, rule_out};
ghost use Rattle.path.specs.Style.{style_of};
ghost use Rattle.path.specs.Check.{max_verbs, used_by, any_over4, bad_first, check, check_points};
ghost use Rattle.path.specs.Refusal.{number, number_of};

pub use self::points::Points;
use vec2::Vec2;

mod points;

// How overlapping subpaths combine when filling.
#[derive(Clone, Copy, PartialEq, Eq)]
pub enum FillRule {
    NonZero,
    EvenOdd,
}

// By a byte: 0 is the non-zero rule, any other even-odd.
impl From<u8> for FillRule {
    ghost from_gives = { λ n r. r ≡ rule_in n };

    #[tactic(auto, unfolding(crate::specs::Rule::rule_in))]
    fn from(n: u8) -> FillRule {
        if n == 0 {
            FillRule::NonZero
        } else {
            FillRule::EvenOdd
        }
    }
}

impl From<FillRule> for u8 {
    ghost from_gives = { λ r n. n ≡ rule_out r };

    fn from(rule: FillRule) -> u8 {
        rule as u8
    }
}

// ---- verbs

// The verbs as bytes: the form in which buffers hold them, and C shares them.
pub const MOVE: u8 = 0;

pub const LINE: u8 = 1;

pub const QUAD: u8 = 2;

pub const CUBIC: u8 = 3;

pub const CLOSE: u8 = 4;

// A verb with the points that it uses: what a byte is read as.
#[derive(Clone, Copy, PartialEq)]
pub enum Segment {
    Move(Vec2),
    Line(Vec2),
    Quad(Vec2, Vec2),
    Cubic(Vec2, Vec2, Vec2),
    Close,
}

impl Segment {
    // The byte of its verb. A variant with points has no number of its own that `as` could take.
    pub fn verb(self) -> u8
        ensures { result ≡ byte_of self }
    {
        match self {
            Segment::Move(_) => MOVE,
            Segment::Line(_) => LINE,
            Segment::Quad(_, _) => QUAD,
            Segment::Cubic(_, _, _) => CUBIC,
            Segment::Close => CLOSE,
        }
    }
}

// ---- refusals

// Why a call is refused: who lends memory, who hands in a path, who hands in a builder's state, who orders a line. The numbers are the C interface's.
#[derive(Clone, Copy, PartialEq, Eq)]
pub enum Refusal {
    // a coordinate buffer has an odd number of floats
    OddFloats = 1,
    // a builder call needs more verbs or points than its buffers or the limits have left
    BuilderFull = 2,
    // flattening or dashing yields more than an output can take
    OutputFull = 3,
    // over a limit
    OverLimit = 4,
    // a verb byte over 4
    NoVerb = 5,
    // not empty and first verb no move, or the verbs use another number of points than given
    BadPath = 6,
    // a builder's state with counts over the buffers or limits, or whose flag and counts are at odds
    BadState = 7,
    // over 64 intervals
    LongPattern = 8,
    // a line style over 8
    NoStyle = 9,
}

impl From<Refusal> for u8 {
    ghost from_gives = { λ r n. n ≡ number r };

    fn from(r: Refusal) -> u8 {
        r as u8
    }
}

// The number that an answer carries for C: the refusal's, 0 for none.
pub fn number_of<T>(answer: &Result<T, Refusal>) -> u8
    ensures { result ≡ number_of answer.now }
{
    match answer {
        Ok(_) => 0,
        Err(refusal) => (*refusal).into(),
    }
}

// ---- limits

pub const MAX_VERBS: usize = 65536;

pub const MAX_POINTS: usize = 131072;

// ---- the two constant tables

// The points that each verb uses: move, line, quad, cubic, close.
const POINT_COUNTS: [u8; 5] = [1, 1, 2, 3, 0];

// The intervals of each line style.
const STYLES: [&[f32]; 9] = [
    &[],
    &[12.0, 6.0],
    &[6.0, 6.0],
    &[2.0, 4.0],
    &[12.0, 4.0, 2.0, 4.0],
    &[12.0, 4.0, 2.0, 4.0, 2.0, 4.0],
    &[8.0],
    &[4.0, 2.0, 1.0],
    &[24.0, 8.0],
];

// The points that a verb uses; none for a byte that is no verb.
pub fn point_count(verb: u8) -> usize
    ensures { (result ≡ used verb) × (result ≤ 3) }
{
    POINT_COUNTS
        .get(verb as usize)
        .map_or(0, |n| usize::from(*n))
}

// The intervals of a line style; none for a number that is no style.
pub fn style(number: usize) -> &'static [f32]
    ensures { result.now ≡ style_of number }
{
    STYLES.get(number).copied().unwrap_or_default()
}

// ---- the path that is handed in

// Every byte is looked at, so that many go at once.
fn any_over_4(verbs: &[u8]) -> bool
    ensures { result ≡ any_over4 verbs.now }
{
    let mut found = false;
    for v in verbs {
        found |= CLOSE < *v;
    }
    found
}

// The points that the verbs use. The table is copied once: the compiler lays a constant out anew wherever it is read.
fn points_of(verbs: &[u8]) -> usize
    requires { (length verbs.now ≤ max_verbs) × (any_over4 verbs.now ≡ false) }
    ensures { result ≡ used_by verbs.now }
{
    let counts = POINT_COUNTS;
    let mut n: usize = 0;
    for v in verbs {
        n += usize::from(counts[*v as usize]);
    }
    n
}

// Whether there is a first verb, and it is no move.
fn begins_badly(verbs: &[u8]) -> bool
    ensures { result ≡ bad_first verbs.now }
{
    verbs.first().is_some_and(|v| *v != MOVE)
}

// Whether a bare list of points is taken.
#[tactic(auto, unfolding(crate::specs::Check::check_points))]
pub fn check_points(points: &[f32]) -> Result<(), Refusal>
    ensures { result ≡ check_points points.now }
{
    if points.len() % 2 == 1 {
        return Err(Refusal::OddFloats);
    }
    if MAX_POINTS < points.len() / 2 {
        return Err(Refusal::OverLimit);
    }
    Ok(())
}

// Whether a path is taken: what is wrong with it first, in this order. The calls take any two slices, as C hands them in, and refuse; `segments::Path` is what
// this check lets pass.
#[tactic(auto, unfolding(crate::specs::Check::check))]
pub fn check(verbs: &[u8], points: &[f32]) -> Result<(), Refusal>
    ensures { result ≡ check verbs.now points.now }
{
    check_points(points)?;
    if MAX_VERBS < verbs.len() {
        return Err(Refusal::OverLimit);
    }
    if any_over_4(verbs) {
        return Err(Refusal::NoVerb);
    }
    if begins_badly(verbs) {
        return Err(Refusal::BadPath);
    }
    if points_of(verbs) != points.len() / 2 {
        return Err(Refusal::BadPath);
    }
    Ok(())
}

// ---- points

// Point k of a float buffer.
pub fn point_at(points: &[f32], k: usize) -> Vec2
    requires { 2 * k + 1 < length points.now }
    ensures { result ≡ point_at points.now k }
{
    let x = points[2 * k];
    let y = points[2 * k + 1];
    Vec2 { x, y }
}
