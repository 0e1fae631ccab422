// The walk of every polyline that the scratch keeps: counted, and laid where the dash buffers take it. Those are lent as two slices, verbs and floats: a struct of
// two `&mut` would have to promise in each contract that it still holds those very references.
#![tactic(auto)]

ghost use Rattle.std.specs.Prelude.{◌≡◌, false, ◌^◌, ◌<◌, leb, length};
ghost use Rattle.vec2.specs.Points.{points_in};
ghost use Rattle.float.specs.Arith.{f0};
ghost use Rattle.pattern.specs.Cycle.{sum_from};
ghost use Rattle.events.specs.Phase.{start_of};
ghost use Rattle.strokes.specs.Lay.{out, laid, Room};
ghost use Rattle.strokes.specs.Pen.{told_all, TakesAll, Unless, all_events};
ghost use Rattle.polyline.specs.Polylines.{polylines};
ghost use Rattle.strokes.specs.Lengths.{KeptLengths};
ghost use Rattle.outline.specs.Ends.{Ordered};
ghost use Rattle.outline.proofs.Ends.{Ordered-prop};
ghost use Rattle.outline.specs.Answer.{answer_of};
ghost use Rattle.outline.specs.Dash.{walked, Cap, cut_outcome, scratch_outcome};
ghost use Rattle.walk.specs.Laid.{LaidOrRefused};

use counting::Counting;
use cycle::Start;
use laying::Laying;
use legs::Legs;
use outline::{Dashed, Outline};
use path::{FillRule, Refusal};
use pen::Pen;
use strokes::Tip;

// How many verbs of one point each the dash buffers take, up to the path limits.
fn room(verbs: usize, floats: usize) -> usize
    ensures { Cap verbs floats result }
{
    verbs.min(floats / 2).min(path::MAX_VERBS)
}

// The polylines that the scratch keeps: their points, each polyline's from the end of the one before it to its own.
#[derive(Clone, Copy)]
pub struct Scratch<'a> {
    pub points: &'a [f32],
    pub ends: &'a [usize],
    pub ghost ordered: { Ordered (length points.now) 0 ends.now } by { Ordered-prop (length points.now) 0 ends.now },
}

// What is walked, and the lengths of the first legs. Where each walk begins is handed on beside it: that of one polyline takes it alone.
#[derive(Clone, Copy)]
struct Lines<'a> {
    scratch: Scratch<'a>,
    lengths: &'a [f32],
    ghost kept: { KeptLengths lengths.now scratch.points.now },
}

// Walks each polyline in turn, the phase starting anew. It stops where the pen is full.
fn walk_all<P: Pen>(
    lines: Lines<'_>,
    start: Start<'_>,
    pen: P,
    verbs: &mut [u8],
    floats: &mut [f32],
) -> P
    requires { (P.full (P.on pen verbs.old floats.old) ≡ false) × TakesAll P.told P.full P.takes (P.on pen verbs.old floats.old)
        (all_events start.cycle.now start.pos (polylines 0 (points_in lines.scratch.points.now) lines.scratch.ends.now)) }
    ensures { Unless P.full (told_all P.told (P.on pen verbs.old floats.old)
        (all_events start.entry.cycle.now start.entry.pos (polylines 0 (points_in lines.entry.scratch.points.now) lines.entry.scratch.ends.now))) (P.on result verbs.new floats.new) }
{
    let mut pen = pen;
    let mut from = 0usize;
    for end in lines.scratch.ends {
        let end = *end;
        let legs = Legs {
            points: &lines.scratch.points[2 * from..2 * end],
            lengths: lines.lengths.get(from..).unwrap_or_default(),
        };
        pen = pen::walk_polyline(legs, start, pen, verbs, floats);
        if pen.is_full() {
            return pen;
        }
        from = end;
    }
    pen
}

// Whether the walks of all polylines lay no more verbs than the cap. Counting stops over it, so that a fine pattern on a long path is refused at once.
#[tactic(auto, using(strokes::proofs::Counts::counts_all))]
fn is_within(lines: Lines<'_>, start: Start<'_>, cap: usize) -> bool
    requires { cap < 2 ^ 61 }
    ensures { result ≡ leb (length (walked start.entry.cycle.now start.entry.pos (points_in lines.entry.scratch.points.now) lines.entry.scratch.ends.now)) cap }
{
    let none = Counting {
        tip: Tip::default(),
        cap,
    };
    let all = walk_all(lines, start, none, &mut [], &mut []);
    !all.is_full()
}

// Lays what the walks of all polylines draw. Answers how many verbs are laid.
#[tactic(auto, using(strokes::proofs::Lays::all_drawn, strokes::proofs::Lays::lay_drawn, strokes::proofs::Lays::lays_all))]
fn lay_all(lines: Lines<'_>, start: Start<'_>, verbs: &mut [u8], floats: &mut [f32]) -> usize
    requires { Room (length verbs.old) (length floats.old)
        (laid (out verbs.old floats.old 0) (walked start.cycle.now start.pos (points_in lines.scratch.points.now) lines.scratch.ends.now)) }
    ensures { out verbs.new floats.new result
        ≡ laid (out verbs.old floats.old 0) (walked start.entry.cycle.now start.entry.pos (points_in lines.entry.scratch.points.now) lines.entry.scratch.ends.now) }
{
    let none = Laying {
        tip: Tip::default(),
    };
    let all = walk_all(lines, start, none, verbs, floats);
    all.tip.at
}

// Counts what the polylines give, and lays it where it fits. Answers how many verbs are laid.
#[tactic(auto, using(outline::proofs::Caps::cap_small, outline::proofs::Caps::too_many, outline::proofs::Caps::has_room, outline::proofs::Caps::laid_out))]
fn cut_by(
    lines: Lines<'_>,
    start: Start<'_>,
    verbs: &mut [u8],
    floats: &mut [f32],
) -> Result<usize, Refusal>
    ensures { LaidOrRefused (walked start.entry.cycle.now start.entry.pos (points_in lines.entry.scratch.points.now) lines.entry.scratch.ends.now)
        verbs.old floats.old result verbs.new floats.new }
{
    let cap = room(verbs.len(), floats.len());
    if !is_within(lines, start, cap) {
        return Err(Refusal::OutputFull);
    }
    Ok(lay_all(lines, start, verbs, floats))
}

// So many lengths are kept on a short path, and on a long one.
const FEW_LENGTHS: usize = 256;

const MANY_LENGTHS: usize = 8192;

// Counts and lays, by so many kept lengths.
fn cut_keeping<const KEPT: usize>(
    scratch: Scratch<'_>,
    start: Start<'_>,
    verbs: &mut [u8],
    floats: &mut [f32],
) -> Result<usize, Refusal>
    requires { KEPT < 2 ^ 61 }
    ensures { LaidOrRefused (walked start.entry.cycle.now start.entry.pos (points_in scratch.entry.points.now) scratch.entry.ends.now)
        verbs.old floats.old result verbs.new floats.new }
{
    let mut kept = [0.0f32; KEPT];
    legs::keep_lengths(scratch.points, &mut kept);
    let lines = Lines {
        scratch,
        lengths: &kept,
    };
    cut_by(lines, start, verbs, floats)
}

// Counts and lays. The length of a leg takes a root, so lengths are kept from the counting to the laying: few on a short path, which then does not pay
// for clearing many, and many on a long one. The legs behind those that are kept are measured twice. Where no drawn interval is above 0 nothing is drawn, and
// nothing is walked: a fine gap on a long path would take very many turns that lay nothing.
#[tactic(auto, using(events::proofs::Gaps::nothing_drawn, outline::proofs::Answers::cut_none))]
fn cut_all(
    scratch: Scratch<'_>,
    cycle: &[f32],
    phase: f32,
    verbs: &mut [u8],
    floats: &mut [f32],
) -> Result<usize, Refusal>
    requires { 0 < length cycle.now }
    ensures { LaidOrRefused (walked cycle.now (start_of cycle.now phase (sum_from f0 cycle.now)) (points_in scratch.entry.points.now) scratch.entry.ends.now)
        verbs.old floats.old result verbs.new floats.new }
{
    if cycle::gaps_only(cycle) {
        return Ok(0);
    }
    let start = cycle::start_of(cycle, phase, pattern::sum_of(cycle));
    if scratch.points.len() <= 2 * FEW_LENGTHS {
        return cut_keeping::<FEW_LENGTHS>(scratch, start, verbs, floats);
    }
    cut_keeping::<MANY_LENGTHS>(scratch, start, verbs, floats)
}

// Cuts what the scratch keeps. That the cycle is not empty stays a clause: a `pattern::Cycle` may be, until its pattern is found usable.
pub fn cut_scratch(
    scratch: Scratch<'_>,
    cycle: &[f32],
    phase: f32,
    held: usize,
    rule: FillRule,
    verbs: &mut [u8],
    floats: &mut [f32],
) -> Result<Dashed, Refusal>
    requires { 0 < length cycle.now }
    ensures { cut_outcome (answer_of result) verbs.new floats.new
        ≡ scratch_outcome cycle.now (start_of cycle.now phase (sum_from f0 cycle.now)) scratch.entry.points.now scratch.entry.ends.now held rule verbs.old floats.old }
{
    let laid = cut_all(scratch, cycle, phase, verbs, floats)?;
    Ok(Dashed::Cut(Outline {
        verbs: laid,
        points: laid,
        scratch: scratch.points.len() / 2,
        polylines: scratch.ends.len(),
        held,
        rule,
    }))
}
