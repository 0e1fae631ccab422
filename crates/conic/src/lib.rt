// A conic as quads: split in half until it is near a quad, at most 6 deep.
// The verbs and the points stay two arguments: of a struct with both `&mut` slices, each contract would have to promise that it keeps those very references.
#![tactic(auto)]

ghost use Rattle.std.specs.Prelude.{◌≡◌, [], ◌∷◌, ◌+◌, ◌*◌, ◌^◌, ◌≤◌, ◌/◌, length, replicate};
ghost use Rattle.std.proofs.lemmas.List.Edits.{sets};
ghost use Rattle.halves.specs.Conic.{most_quads, half_weight};
ghost use Rattle.halves.specs.Halves.{ctrl_of, to_of, pieces};
ghost use Rattle.conic.specs.Lay.{Levels, KeptLevels, quads_of, Put, Bent};
ghost use Rattle.path.specs.declared.Segment.TheVariants.{Quad};

use splitting::{Half, ctrl_of, half_of, is_quad, left_half, right_half, split_weight, to_of};
use vec2::Vec2;

// A conic: from a point, by a control point of some weight, to a point.
#[derive(Clone, Copy)]
pub struct Conic {
    pub from: Vec2,
    pub ctrl: Vec2,
    pub to: Vec2,
    pub weight: f32,
}

// How often a conic is split at most.
const DEPTH: usize = 6;

// So many quads it gives at most, with so many points and floats.
pub const MAX_QUADS: usize = 1 << DEPTH;

pub const MAX_POINTS: usize = 2 * MAX_QUADS;

pub const MAX_FLOATS: usize = 2 * MAX_POINTS;

// ---- the weights of the levels, each worked out once: a root takes as long as a half of one

// The weight of a quarter of a circle, the root of a half, by its bits; and those of its levels that are not near 1, from the last to the first.
const QUARTER: u32 = 0x3f35_04f3;

const QUARTER_LEVELS: [Option<f32>; DEPTH] = [
    None,
    None,
    Some(0.99879545),
    Some(0.9951847),
    Some(0.9807853),
    Some(0.92387956),
];

// The weights of the levels that are known beforehand, from the last to the first: those of a quarter of a circle, the arc of circles and rounded corners.
#[tactic(auto, using(crate::proofs::Levels::levels_of))]
fn known_levels(weight: f32) -> [Option<f32>; DEPTH]
    ensures { Levels 6 weight result }
{
    if weight > 0.0 && f32::to_bits(weight) == QUARTER {
        return QUARTER_LEVELS;
    }
    [None; DEPTH]
}

// The weight of the halves of a half that may be split k times more. It is kept for the other halves of its level.
#[tactic(auto, using(crate::proofs::Levels::levels_first, crate::proofs::Levels::kept_none, crate::proofs::Levels::kept_one))]
fn level_weight(weight: f32, levels: &mut [Option<f32>; DEPTH], k: usize) -> f32
    requires { (1 ≤ k) × (k ≤ 6) × Levels k weight levels.old }
    ensures { (result ≡ half_weight weight) × KeptLevels k weight levels.old levels.new }
{
    *levels[k - 1].get_or_insert_with(|| split_weight(weight))
}

// ---- quads in the buffers: n of them are n verbs, 2 · n points and 4 · n floats

// Lays the points of a half's quad at the front.
#[tactic(auto, using(crate::proofs::Stores::front_set))]
fn put_quad(h: Half, points: &mut [f32]) -> usize
    requires { 4 ≤ length points.old }
    ensures { Put (Quad (ctrl_of h) (to_of h) ∷ []) result points.old points.new }
{
    let ctrl = ctrl_of(h);
    let to = to_of(h);
    points[..4].copy_from_slice(&[ctrl.x, ctrl.y, to.x, to.y]);
    1
}

// Lays the points of a half that may be split k times more, and says how many quads they are. The recursion goes over k, 6 minus the depth, as the scope names it.
// Room is asked for by the depth alone: no rounding changes it.
#[tactic(auto, using(halves::proofs::Pieces::split_more, halves::proofs::Pieces::pieces_most, halves::proofs::Pieces::most_twice, halves::proofs::Pieces::most_few, crate::proofs::Levels::levels_next))]
fn push_half(
    h: Half,
    weight: f32,
    levels: &mut [Option<f32>; DEPTH],
    k: usize,
    points: &mut [f32],
) -> usize
    requires { (k ≤ 6) × (4 * 2 ^ k ≤ length points.old) × Levels k weight levels.old }
    ensures { Put (pieces k h weight) result points.old points.new × KeptLevels k weight levels.old levels.new }
{
    if is_quad(h, weight, k) {
        return put_quad(h, points);
    }
    let left = left_half(h, weight);
    let right = right_half(h, weight);
    let u = level_weight(weight, levels, k);
    let l = push_half(left, u, levels, k - 1, points);
    let r = push_half(right, u, levels, k - 1, &mut points[4 * l..]);
    l + r
}

// Lays the points of a conic's quads at the front, and says how many quads they are.
#[tactic(auto, using(halves::proofs::Pieces::pieces_quads, halves::proofs::Pieces::pieces_most))]
pub fn push_points(c: Conic, points: &mut [f32]) -> usize
    requires { 4 * most_quads ≤ length points.old }
    ensures laid { Put (quads_of c) result points.old points.new }
    ensures few { result ≤ most_quads }
{
    let mut levels = known_levels(c.weight);
    let h = half_of(c.from, c.ctrl, c.to);
    push_half(h, c.weight, &mut levels, DEPTH, points)
}

// Lays n verbs of quads at the front.
#[tactic(auto, using(crate::proofs::Stores::front_filled))]
fn put_verbs(verbs: &mut [u8], n: usize)
    requires { n ≤ length verbs.old }
    ensures { verbs.new ≡ sets verbs.old 0 (replicate n 2) }
{
    verbs[..n].fill(path::QUAD);
}

// Lays the quads of a conic at the front of both buffers, where 64 have room, and says how many they are.
#[tactic(auto, using(halves::proofs::Laws::quads_bytes))]
pub fn push_conic(c: Conic, verbs: &mut [u8], points: &mut [f32]) -> usize
    requires { (most_quads ≤ length verbs.old) × (4 * most_quads ≤ length points.old) }
    ensures { Bent (quads_of c) result verbs.old verbs.new points.old points.new }
{
    let n = push_points(c, points);
    put_verbs(verbs, n);
    n
}

// Lays quads whose points stand apart at the front of both buffers.
#[tactic(auto, using(crate::proofs::Stores::front_set))]
pub fn put_quads(apart: &[f32], verbs: &mut [u8], points: &mut [f32])
    requires { (length apart.now / 4 ≤ length verbs.old) × (length apart.now ≤ length points.old) }
    ensures { (verbs.new ≡ sets verbs.old 0 (replicate (length apart.now / 4) 2)) × (points.new ≡ sets points.old 0 apart.now) }
{
    put_verbs(verbs, apart.len() / 4);
    points[..apart.len()].copy_from_slice(apart);
}
