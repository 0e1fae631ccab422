// Flattening: a path's polylines as points, end to end, the number where each ends, and its mark, which says whether it is closed (W4). Measured first, written
// after.
#![tactic(auto)]

ghost use Rattle.std.specs.Prelude.{◌≡◌};
ghost use Rattle.path.specs.Segment.{segments};
ghost use Rattle.polyline.specs.Flatten.{nowhere, outcome, flatten, count_at, carried_count};

use float::SegmentCount;
use path::Refusal;
use polyline::Flattened;
use segments::Path;

// Flattens a path into points, end to end, the number of points at which each polyline ends, and its mark: 1 if the last verb of its subpath is a close,
// even where no closing point was added, else 0. The outputs are lent apart, as C lends them.
#[tactic(auto, using(crate::proofs::Call::odd_out, crate::proofs::Call::bad_path, segments::proofs::Answer::few))]
pub fn flatten(
    verbs: &[u8],
    points: &[f32],
    tolerance: f32,
    out: &mut [f32],
    ends: &mut [usize],
    marks: &mut [u8],
) -> Result<Flattened, Refusal>
    ensures { outcome result out.new ends.new marks.new
        ≡ flatten verbs.now points.now tolerance out.old ends.old marks.old }
{
    if out.len() % 2 == 1 {
        return Err(Refusal::OddFloats);
    }
    let path = Path::new(verbs, points)?;
    let t = measure::measure(&path, tolerance);
    let n = t.starts + t.lines + t.counts + t.closings;
    if out.len() / 2 < n || ends.len() < t.starts || marks.len() < t.starts {
        return Err(Refusal::OutputFull);
    }
    write::write_path(&path, tolerance, out, ends, marks);
    Ok(Flattened {
        points: n,
        polylines: t.starts,
        starts: t.starts,
        lines: t.lines,
        counts: t.counts,
        closings: t.closings,
        held: t.held,
    })
}

// ---- a carried count

// The N of the verb at `index` and whether it was held back: 0 and false where that is no curve, or past the end.
fn count_at(path: &Path<'_>, tolerance: f32, index: usize) -> SegmentCount
    ensures { result ≡ count_at tolerance nowhere (segments path.now.verbs path.now.points) index }
{
    let w = path
        .segments()
        .take(index)
        .fold(spot::start_of_path(), spot::advance);
    path.segments().nth(index).map_or(
        SegmentCount::default(),
        |s| measure::curve_answer(tolerance, w, s),
    )
}

// The N that the curve at verb `index` is written with, and whether it was held back.
#[tactic(auto, unfolding(polyline::specs::Flatten::carried_count))]
pub fn carried_count(
    verbs: &[u8],
    points: &[f32],
    tolerance: f32,
    index: usize,
) -> Result<SegmentCount, Refusal>
    ensures { result ≡ carried_count verbs.now points.now tolerance index }
{
    let path = Path::new(verbs, points)?;
    Ok(count_at(&path, tolerance, index))
}
