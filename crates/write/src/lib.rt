// The points, ends and marks of a flattening, written into buffers that are known to hold them. Buffers and the places in them stay arguments: with a struct that
// holds a `&mut`, each function would have to promise that the struct keeps that very reference.
#![tactic(auto)]

ghost use Rattle.std.specs.Prelude.{◌≡◌, ◌+◌, ◌*◌, ◌≤◌, not, length, Float};
ghost use Rattle.std.specs.Option.{option_len};
ghost use Rattle.std.proofs.lemmas.List.Edits.{sets};
ghost use Rattle.vec2.specs.declared.Vec2.{Vec2};
ghost use Rattle.vec2.specs.Points.{flat};
ghost use Rattle.path.specs.Segment.{segments};
ghost use Rattle.polyline.specs.Subpaths.{marks_out};
ghost use Rattle.polyline.specs.Flatten.{drawn_to, after, only_if, curved, writes, points_out, ends_out};
ghost use Rattle.write.specs.Write.{begun, inner_points, Evaluates, last_mark, Wrote, Ended};

use path::Segment;
use polyline::{Spot, Trace};
use segments::Path;
use vec2::Vec2;

// Writes a point if it is wanted, and says where the next one goes. By an Option of the point a path of lines takes a quarter more instructions, an eighth more
// time: its loop then asks twice which verb it has.
fn put_if(out: &mut [f32], at: usize, wanted: bool, p: Vec2) -> usize
    requires { 2 * (at + length (only_if wanted p)) ≤ length out.old }
    ensures { Wrote out.old out.new at result (only_if wanted p) }
{
    if wanted {
        vec2::put(out, at, p);
        return at + 1;
    }
    at
}

// Writes the inner points of a curve of n lines, from point `at` on. That n is from 1 to 1,000 is a clause, here and below: a `SegmentCount` may be made with any number. A function of its own in the machine too: the compiler then works out x and y side by side.
// The place goes by i: of what the chunks of two floats are given (tried: `zip` with `chunks_exact_mut`) nothing is known behind the loop.
#[inline(never)]
fn write_inner<F: Fn(f32) -> Vec2>(out: &mut [f32], at: usize, curve: F, n: u16)
    requires callable { F.IsAlwaysCallable curve }
    requires room { (1 ≤ n) × (n ≤ 1000) × (2 * (at + n) ≤ length out.old) }
    ensures { (eval : Float → Vec2) → Evaluates (F.post curve) eval → out.new ≡ sets out.old (2 * at) (flat (inner_points eval n)) }
{
    let whole = n as f32;
    for i in 1..n {
        vec2::put(out, at + i as usize - 1, curve(i as f32 / whole));
    }
}

// Writes a drawn segment of n lines, behind its polyline's start where that is not written yet: the inner points, and the end, copied. A line is a curve of one.
fn draw<F: Fn(f32) -> Vec2>(out: &mut [f32], at: usize, w: Spot, curve: F, n: u32, p: Vec2) -> Trace
    requires callable { F.IsAlwaysCallable curve }
    requires count { (1 ≤ n) × (n ≤ 1000) }
    requires room { 2 * (at + length (only_if (not w.drawn) w.start) + n) ≤ length out.old }
    ensures written { (eval : Float → Vec2) → Evaluates (F.post curve) eval → Wrote out.old out.new at result.at (begun w (curved eval n p)) }
    ensures spot { result.spot ≡ drawn_to w p }
{
    let first = put_if(out, at, !w.drawn, w.start);
    write_inner(out, first, curve, n as u16);
    let next = first + n as usize;
    vec2::put(out, next - 1, p);
    Trace {
        at: next,
        spot: spot::drawn_to(w, p),
    }
}

// Writes what a segment writes from point `at` on. Points and place go by one `match`, as in measuring. Tolerance, place and segment come apart, as the
// definitions take them: the first is the same for all, the others change with each segment, so a struct would be made anew just to be taken apart.
#[tactic(auto, unfolding(polyline::specs::Flatten::writes, polyline::specs::Flatten::body, polyline::specs::Flatten::after))]
fn write_segment(out: &mut [f32], at: usize, tolerance: f32, w: Spot, s: Segment) -> Trace
    requires { 2 * (at + length (writes tolerance w s)) ≤ length out.old }
    ensures written { Wrote out.old out.new at result.at (writes tolerance w s) }
    ensures spot { result.spot ≡ after w s }
{
    let pen = w.pen;
    match s {
        Segment::Move(p) => Trace {
            at,
            spot: spot::move_to(p),
        },
        Segment::Line(p) => draw(out, at, w, move |_| p, 1, p),
        Segment::Quad(c, p) => {
            let n = wang::quad_segment_count(pen, c, p, tolerance).count;
            draw(out, at, w, move |t| curve::eval_quad(pen, c, p, t), n, p)
        }
        Segment::Cubic(c, d, p) => {
            let n = wang::cubic_segment_count(pen, c, d, p, tolerance).count;
            draw(
                out,
                at,
                w,
                move |t| curve::eval_cubic(pen, c, d, p, t),
                n,
                p,
            )
        }
        Segment::Close => Trace {
            at: put_if(out, at, spot::close_adds(w), w.start),
            spot: spot::close(w),
        },
    }
}

// The mark of a subpath, by the verbs up to its end: a byte, as the buffer of marks holds it.
fn mark(verbs: &[u8]) -> u8
    ensures { result ≡ last_mark verbs.now }
{
    u8::from(matches!(verbs.last(), Some(path::CLOSE..)))
}

// Notes where a polyline ends, if one does, with its mark, and says where the next note goes. The last verb of its subpath is read just for this: by a flag that
// is kept from verb to verb a path of lines takes a fifth more instructions, a sixth more time.
fn end_if(verbs: &[u8], ends: &mut [usize], marks: &mut [u8], k: usize, end: Option<usize>) -> usize
    requires ends { k + option_len end ≤ length ends.old }
    requires marks { k + option_len end ≤ length marks.old }
    ensures { Ended ends.old ends.new marks.old marks.new k result end (last_mark verbs.now) }
{
    if let Some(n) = end {
        ends[k] = n;
        marks[k] = mark(verbs);
        return k + 1;
    }
    k
}

// Writes a whole path.
pub fn write_path(
    path: &Path<'_>,
    tolerance: f32,
    out: &mut [f32],
    ends: &mut [usize],
    marks: &mut [u8],
)
    requires out { 2 * length (points_out tolerance (segments path.now.verbs path.now.points)) ≤ length out.old }
    requires ends { length (ends_out tolerance (segments path.now.verbs path.now.points)) ≤ length ends.old }
    requires marks { length (marks_out (segments path.now.verbs path.now.points)) ≤ length marks.old }
    ensures out { out.new ≡ sets out.old 0 (flat (points_out tolerance (segments path.now.verbs path.now.points))) }
    ensures ends { ends.new ≡ sets ends.old 0 (ends_out tolerance (segments path.now.verbs path.now.points)) }
    ensures marks { marks.new ≡ sets marks.old 0 (marks_out (segments path.now.verbs path.now.points)) }
{
    let verbs = path.verbs();
    let mut w = spot::start_of_path();
    let mut at = 0;
    let mut k = 0;
    for (i, s) in path.segments().enumerate() {
        let end = spot::ends_polyline(w, s).then_some(at);
        k = end_if(&verbs[..i], ends, marks, k, end);
        let r = write_segment(out, at, tolerance, w, s);
        at = r.at;
        w = r.spot;
    }
    end_if(verbs, ends, marks, k, w.drawn.then_some(at));
}
