// What a conic that is a curve lays: a move where nothing stands, and its quads; all of them, or where they are refused none.
// The verbs and the points stay two arguments: of a struct with both `&mut` slices, each contract would have to promise that it keeps those very references.
#![tactic(auto)]

ghost use Rattle.std.specs.Prelude.{◌≡◌, true, ◌+◌, ◌*◌, length, Ok};
ghost use Rattle.halves.specs.Conic.{most_quads};
ghost use Rattle.store.specs.Refusal.{refusal_of};
ghost use Rattle.drawing.specs.Lay.{lead};
ghost use Rattle.bending.specs.Bend.{Curved};

use conic::Conic;
use drawing::{lead_of, open};
use path::Refusal;
use store::Standing;

// Whether any conic has room: all 64 quads, behind what goes before them.
fn takes_any(at: Standing, verbs: usize, floats: usize) -> bool
    ensures { result ≡ true → refusal_of at verbs floats (lead at.started + most_quads) (lead at.started + 2 * most_quads) ≡ Ok tt }
{
    let l = lead_of(at.started);
    at.check_room(verbs, floats, l + conic::MAX_QUADS, l + conic::MAX_POINTS)
        .is_ok()
}

// Where any conic has room, its quads are laid straight into the lent buffers, however many they are.
#[tactic(auto, using(store::proofs::Refusals::refusal_fits))]
fn bend_into(at: Standing, c: Conic, verbs: &mut [u8], points: &mut [f32]) -> usize
    requires { refusal_of at (length verbs.old) (length points.old) (lead at.started + most_quads) (lead at.started + 2 * most_quads) ≡ Ok tt }
    ensures { Curved (Ok result) at c verbs.old points.old verbs.new points.new }
{
    let next = open(at, verbs, points);
    conic::push_conic(c, &mut verbs[next.verbs..], &mut points[2 * next.points..])
}

// Where it may have none, its quads are laid apart, and refused by their number or copied, all of them.
#[tactic(auto, using(store::proofs::Refusals::refusal_fits, crate::proofs::Laws::all_verbs, crate::proofs::Laws::all_twice))]
fn bend_apart(
    at: Standing,
    c: Conic,
    verbs: &mut [u8],
    points: &mut [f32],
) -> Result<usize, Refusal>
    ensures { Curved result at c verbs.old points.old verbs.new points.new }
{
    let mut apart = [0.0; conic::MAX_FLOATS];
    let q = conic::push_points(c, &mut apart);
    let l = lead_of(at.started);
    at.check_room(verbs.len(), points.len(), l + q, l + 2 * q)?;
    let next = open(at, verbs, points);
    conic::put_quads(
        &apart[..4 * q],
        &mut verbs[next.verbs..],
        &mut points[2 * next.points..],
    );
    Ok(q)
}

// Lays a conic's quads behind their opening, and says how many they are, or refuses them all.
pub fn lay_conic(
    at: Standing,
    c: Conic,
    verbs: &mut [u8],
    points: &mut [f32],
) -> Result<usize, Refusal>
    ensures { Curved result at c verbs.old points.old verbs.new points.new }
{
    if takes_any(at, verbs.len(), points.len()) {
        return Ok(bend_into(at, c, verbs, points));
    }
    bend_apart(at, c, verbs, points)
}
