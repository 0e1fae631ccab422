// What a drawn call lays: a move where nothing stands, and its own verb; whole, or where it is refused not at all.
// Its verbs and points stay two arguments: a struct of two lent buffers would have to promise in each contract that it keeps those very references, and C lends them apart.
#![tactic(auto)]

ghost use Rattle.std.specs.Prelude.{◌≡◌, [], ◌∷◌, length};
ghost use Rattle.store.specs.Refusal.{Fits};
ghost use Rattle.store.specs.Store.{behind, Stored};
ghost use Rattle.drawing.specs.Lay.{opening, lead, Drawn};

use path::{Refusal, Segment};
use store::{Standing, point_count};
use vec2::Vec2;

// The verbs, and points, that are laid before a drawn verb.
pub fn lead_of(started: bool) -> usize
    ensures { result ≡ lead started }
{
    usize::from(!started)
}

// Lays the move to (0, 0) where nothing stands, and says where the drawn verb goes.
pub fn open(at: Standing, verbs: &mut [u8], points: &mut [f32]) -> Standing
    requires { Fits at (length verbs.old) (length points.old) (lead at.started) (lead at.started) }
    ensures { (result ≡ behind at (opening at.started)) × Stored at verbs.old points.old (opening at.started) verbs.new points.new }
{
    if at.started {
        return at;
    }
    at.put(Segment::Move(Vec2::zero()), verbs, points)
}

// Lays a drawn segment behind its opening, or refuses both. Inlined, since where it is called the segment's kind is known.
#[inline(always)]
#[tactic(auto, using(store::proofs::Refusals::refusal_fits))]
pub fn lay(
    at: Standing,
    s: Segment,
    verbs: &mut [u8],
    points: &mut [f32],
) -> Result<Standing, Refusal>
    ensures { Drawn result at verbs.old points.old (s ∷ []) verbs.new points.new }
{
    let l = lead_of(at.started);
    at.check_room(verbs.len(), points.len(), l + 1, l + point_count(s))?;
    let next = open(at, verbs, points);
    Ok(next.put(s, verbs, points))
}
