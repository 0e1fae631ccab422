// The totals of a flattening, measured before anything is written.
#![tactic(auto)]

ghost use Rattle.std.specs.Prelude.{◌≡◌, ◌≤◌, length, IfSome};
ghost use Rattle.path.specs.Segment.{segments};
ghost use Rattle.path.specs.Check.{max_verbs};
ghost use Rattle.polyline.specs.Flatten.{nowhere, curve_answer};
ghost use Rattle.measure.specs.Measure.{none, drawn_more, closed_more, gauged, measured, Small};

use float::SegmentCount;
use path::Segment;
use polyline::{Gauge, Spot, Tally};
use segments::Path;
use vec2::Vec2;

// A curve's N and whether it was held back; 0 and false for what is no curve.
#[tactic(auto, unfolding(polyline::specs::Flatten::places, polyline::specs::Flatten::is_held))]
pub fn curve_answer(tolerance: f32, w: Spot, s: Segment) -> SegmentCount
    ensures { result ≡ curve_answer tolerance w s }
{
    match s {
        Segment::Quad(c, p) => wang::quad_segment_count(w.pen, c, p, tolerance),
        Segment::Cubic(c, d, p) => wang::cubic_segment_count(w.pen, c, d, p, tolerance),
        _ => SegmentCount::default(),
    }
}

// A drawn segment to p more: a curve of so many lines, or a line. `Small` stays a clause, here and below: the totals grow with each segment, so that no bound of
// theirs is an invariant of the struct.
fn add_drawn(g: Gauge, p: Vec2, curve: Option<SegmentCount>) -> Gauge
    requires small { Small max_verbs g.sum }
    requires few { IfSome curve (λ n. n.count ≤ 1000) }
    ensures { result ≡ drawn_more g p curve }
{
    let t = g.sum;
    let w = g.spot;
    let n = curve.unwrap_or_default();
    Gauge {
        sum: Tally {
            starts: t.starts + usize::from(!w.drawn),
            lines: t.lines + usize::from(curve.is_none()),
            counts: t.counts + n.count as usize,
            held: t.held + usize::from(n.held),
            ..t
        },
        spot: spot::drawn_to(w, p),
    }
}

// A close more.
fn add_close(g: Gauge) -> Gauge
    requires { Small max_verbs g.sum }
    ensures { result ≡ closed_more g }
{
    let t = g.sum;
    let w = g.spot;
    Gauge {
        sum: Tally {
            closings: t.closings + usize::from(spot::close_adds(w)),
            ..t
        },
        spot: spot::close(w),
    }
}

// One segment more. Totals and place go by one `match`: with one for each of them the loop takes twice the time.
#[tactic(auto, unfolding(crate::specs::Measure::tally, polyline::specs::Flatten::after, polyline::specs::Flatten::places, polyline::specs::Flatten::is_held), using(curve::proofs::Numbers::counted))]
fn add_segment(g: Gauge, tolerance: f32, s: Segment) -> Gauge
    requires { Small max_verbs g.sum }
    ensures { result ≡ gauged tolerance s g }
{
    let pen = g.spot.pen;
    match s {
        Segment::Move(p) => Gauge {
            spot: spot::move_to(p),
            ..g
        },
        Segment::Line(p) => add_drawn(g, p, None),
        Segment::Quad(c, p) => {
            let n = wang::quad_segment_count(pen, c, p, tolerance);
            add_drawn(g, p, Some(n))
        }
        Segment::Cubic(c, d, p) => {
            let n = wang::cubic_segment_count(pen, c, d, p, tolerance);
            add_drawn(g, p, Some(n))
        }
        Segment::Close => add_close(g),
    }
}

// The totals of a whole path.
#[tactic(auto, unfolding(crate::specs::Measure::measured))]
pub fn measure(path: &Path<'_>, tolerance: f32) -> Tally
    requires few { length path.now.verbs ≤ max_verbs }
    ensures same { result ≡ measured tolerance none nowhere (segments path.now.verbs path.now.points) }
    ensures small { Small max_verbs result }
{
    let mut g = Gauge {
        sum: Tally::default(),
        spot: spot::start_of_path(),
    };
    for s in path.segments() {
        g = add_segment(g, tolerance, s);
    }
    g.sum
}
