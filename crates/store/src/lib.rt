// The builder's two lent buffers: where it stands in them, what refuses a call, and how a segment is laid, which a refused call leaves undone.
// Here and in the rooms above, verbs and points stay two arguments: a struct of two lent buffers would have to promise in each contract that it keeps those very references, and C lends them apart.
// Counts of verbs and of points, too, go side by side: with a struct of both, each call would write the struct out.
#![tactic(auto)]

ghost use Rattle.std.specs.Prelude.{◌≡◌, true, [], ◌∷◌, ◌+◌, ◌*◌, ◌≤◌, length};
ghost use Rattle.path.specs.Check.{max_points};
ghost use Rattle.path.specs.Segment.{points_of};
ghost use Rattle.store.specs.Refusal.{verb_cap, point_cap, bad_state, no_room, refusal_of};
ghost use Rattle.store.specs.Store.{next, behind, Stored, Laid};

use path::{Refusal, Segment};

// How many verbs a buffer of n bytes takes.
#[tactic(auto, unfolding(crate::specs::Refusal::verb_cap))]
fn verb_cap(n: usize) -> usize
    ensures { result ≡ verb_cap n }
{
    n.min(path::MAX_VERBS)
}

// How many points a buffer of n floats takes.
#[tactic(auto, unfolding(crate::specs::Refusal::point_cap))]
fn point_cap(n: usize) -> usize
    ensures { result ≡ point_cap n }
{
    (n / 2).min(path::MAX_POINTS)
}

// How many points a segment uses.
pub fn point_count(s: Segment) -> usize
    ensures { result ≡ length (points_of s) }
{
    path::point_count(s.verb())
}

// Where the builder stands: so many verbs and points are laid, and whether a segment is. A state that is handed in may have the flag at odds with the counts,
// and is refused for it: no Option could say that.
#[derive(Clone, Copy)]
pub struct Standing {
    pub verbs: usize,
    pub points: usize,
    pub started: bool,
}

impl Standing {
    // Whether buffers for so many verbs and points cannot hold the counts, or "started" is at odds with having a verb, or there is no point where it is started.
    #[tactic(auto, unfolding(crate::specs::Refusal::bad_state))]
    fn is_broken(self, verbs: usize, points: usize) -> bool
        ensures { result ≡ bad_state self verbs points }
    {
        // by the flag first: what a call asks of it afterwards is known in both branches
        if self.started {
            return verbs < self.verbs
                || points < self.points
                || self.verbs == 0
                || self.points == 0;
        }
        0 < self.verbs || points < self.points
    }

    // Whether dv more verbs or dk more points are too many.
    #[tactic(auto, unfolding(crate::specs::Refusal::no_room))]
    fn is_full(self, verbs: usize, points: usize, dv: usize, dk: usize) -> bool
        requires { (self.verbs ≤ verbs) × (self.points ≤ points) }
        ensures { result ≡ no_room self verbs points dv dk }
    {
        verbs - self.verbs < dv || points - self.points < dk
    }

    // Whether a call of dv verbs and dk points is taken, in buffers of so many bytes and floats.
    #[tactic(auto, using(crate::proofs::Refusals::sound), unfolding(crate::specs::Refusal::refusal_of))]
    pub fn check_room(
        self,
        bytes: usize,
        floats: usize,
        dv: usize,
        dk: usize,
    ) -> Result<(), Refusal>
        ensures { result ≡ refusal_of self bytes floats dv dk }
    {
        let verbs = verb_cap(bytes);
        let points = point_cap(floats);
        if floats % 2 == 1 {
            return Err(Refusal::OddFloats);
        }
        if self.is_broken(verbs, points) {
            return Err(Refusal::BadState);
        }
        if self.is_full(verbs, points, dv, dk) {
            return Err(Refusal::BuilderFull);
        }
        Ok(())
    }

    // Where it stands behind dv more verbs and dk more points.
    pub fn past(self, dv: usize, dk: usize) -> Standing
        requires { (self.verbs + dv ≤ max_points) × (self.points + dk ≤ max_points) }
        ensures { result ≡ record { verbs = self.verbs + dv; points = self.points + dk; started = true } }
    {
        Standing {
            verbs: self.verbs + dv,
            points: self.points + dk,
            started: true,
        }
    }

    // Stores a segment that has room behind what stands, and says where it stands now. Inlined, since where it is called the segment's kind is known.
    #[inline(always)]
    pub fn put(self, s: Segment, verbs: &mut [u8], points: &mut [f32]) -> Standing
        requires { (self.verbs + 1 ≤ length verbs.old) × (2 * (self.points + length (points_of s)) ≤ length points.old) }
        ensures { (result ≡ next self s) × Stored self verbs.old points.old (s ∷ []) verbs.new points.new }
    {
        let k = self.points;
        verbs[self.verbs] = s.verb();
        match s {
            Segment::Move(p) | Segment::Line(p) => vec2::put(points, k, p),
            Segment::Quad(c, p) => {
                vec2::put(points, k, c);
                vec2::put(points, k + 1, p);
            }
            Segment::Cubic(c, d, p) => {
                vec2::put(points, k, c);
                vec2::put(points, k + 1, d);
                vec2::put(points, k + 2, p);
            }
            Segment::Close => {}
        }
        Standing {
            verbs: self.verbs + 1,
            points: self.points + point_count(s),
            started: true,
        }
    }

    // Lays a segment, or refuses it. Inlined like `put`.
    #[inline(always)]
    #[tactic(auto, using(crate::proofs::Refusals::refusal_fits))]
    pub fn lay(self, s: Segment, verbs: &mut [u8], points: &mut [f32]) -> Result<Standing, Refusal>
        ensures { Laid result (next self s) self verbs.old points.old (s ∷ []) verbs.new points.new }
    {
        self.check_room(verbs.len(), points.len(), 1, point_count(s))?;
        Ok(self.put(s, verbs, points))
    }
}
