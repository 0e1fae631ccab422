// The way round a polygon: the turn at each junction, and the reason that they give.
#![tactic(auto)]

ghost use Rattle.std.specs.Prelude.{◌≡◌, ◌+◌, ◌/◌, ◌%◌, ◌<◌, ◌≤◌, length};
ghost use Rattle.vec2.specs.Points.{points_in};
ghost use Rattle.path.specs.Check.{max_points};
ghost use Rattle.turns.specs.Walk.{next, walked, reason_of};
ghost use Rattle.turns.specs.Plane.{floats as plane};

use turns::{Reason, Tally};
use vec2::Vec2;

// k % n, without a division.
fn around(k: usize, n: usize) -> usize
    requires { k < n + n }
    ensures { (result ≡ k % n) × (result < n) }
{
    if k < n { k } else { k - n }
}

// A list of points within the limits, so that the sums of a walk round it fit. The field is open: whoever has shown the fact may write the struct.
#[derive(Clone, Copy)]
pub struct Polygon<'a> {
    pub points: &'a [f32],
    pub ghost few: { length points.now / 2 ≤ max_points },
}

impl Polygon<'_> {
    // The first point, round the list, that differs from b. Only repeats of b are passed over, and they belong to b's edge
    // alone, so that all searches of a walk together are linear.
    // Tried: the points from there on, chained with those before, and `find`, take 18 % more instructions and 8 % more time for a circle.
    fn next_other(self, b: Vec2, from: usize) -> usize
        requires { from < length self.points.now / 2 }
        ensures { (result ≡ next plane (points_in self.entry.points.now) b from) × (result < length self.entry.points.now / 2) }
    {
        let n = self.points.len() / 2;
        let mut k = from;
        for _passed in 0..n {
            if path::point_at(self.points, k) != b {
                return k;
            }
            k = around(k + 1, n);
        }
        k
    }

    // Walks the edges that have length, and judges the turn at the end of each. The source also asks whether the next point is b
    // again, which never holds. It goes by index, since each turn reads three of the points, and two of their places go on round the list's end.
    fn walk(self) -> Reason
        requires { 3 ≤ length self.points.now / 2 }
        ensures { result ≡ walked plane (points_in self.entry.points.now) }
    {
        let n = self.points.len() / 2;
        let mut t = Tally::default();
        for i in 0..n {
            let j = around(i + 1, n);
            let a = path::point_at(self.points, i);
            let b = path::point_at(self.points, j);
            if a != b {
                let k = self.next_other(b, around(i + 2, n));
                let c = path::point_at(self.points, k);
                let turned = turning::turn_at(a, b, c);
                if turning::opposes(t.side, turned.side) {
                    return Reason::Opposing(j);
                }
                t = turning::count(t, turned);
            }
        }
        turning::end(t)
    }

    // Why the polygon is convex or concave.
    #[tactic(auto, unfolding(turns::specs::Walk::reason_of))]
    pub fn reason(self) -> Reason
        ensures { result ≡ reason_of plane (points_in self.entry.points.now) }
    {
        if self.points.len() / 2 < 3 {
            return Reason::FewPoints;
        }
        self.walk()
    }
}
