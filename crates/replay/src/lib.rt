// A list of builder calls, encoded, and played on a fresh builder: code for every list of demand 3 that two slices can hold. Calls of one kind that stand in a row are played by a
// loop of their own, which the compiler makes of one that is generic in the kind, so that a turn need not ask for the kind among all.
// Verbs and points stay two arguments: a struct of two lent buffers would have to promise in each contract that it keeps those very references, and C lends them apart.
#![tactic(auto)]

ghost use Rattle.std.specs.Prelude.{◌≡◌, ℕ, ◌+◌, ◌≤◌, ◌<◌, [], length, MatchOption, refl};
ghost use Rattle.std.proofs.Common.{rules};
ghost use Rattle.builder.specs.Build as build;
ghost use Rattle.builder.specs.Build.{called};
ghost use Rattle.replay.specs.Calls.{taken, call_of};
ghost use Rattle.replay.specs.Replay.{outcome, replayed};
ghost use Rattle.replay.specs.RuleKinds.{rule_kind, rule_is_kind, rule_takes};

use builder::{PathBuilder, Reply};
use path::FillRule;
use rect::Rect;
use vec2::Vec2;

// ---- the kinds of calls

// A kind of call: its byte, for C makes the list, and what the builder does for one whose numbers are these N. Each kind is a type, since it is its call of the builder
// that tells it from the others: the two fill rules alone share theirs.
trait Kind<const N: usize> {
    const BYTE: u8;

    ghost BYTE: { ℕ };

    fn play(state: PathBuilder, numbers: &[f32; N], verbs: &mut [u8], points: &mut [f32]) -> Reply
        ensures { build.outcome result verbs.new points.new ≡ called state verbs.old points.old (call_of BYTE numbers.now) };

    ghost is_kind: { BYTE ≤ 8 };

    ghost takes: { taken BYTE ≡ N };
}

struct Moves;

impl Kind<2> for Moves {
    const BYTE: u8 = 0;

    ghost BYTE = { 0 };

    ghost is_kind = { Prim.search rules };

    ghost takes = { refl };

    fn play(state: PathBuilder, numbers: &[f32; 2], verbs: &mut [u8], points: &mut [f32]) -> Reply {
        let [x, y] = *numbers;
        state.move_to(verbs, points, Vec2 { x, y })
    }
}

struct Lines;

impl Kind<2> for Lines {
    const BYTE: u8 = 1;

    ghost BYTE = { 1 };

    ghost is_kind = { Prim.search rules };

    ghost takes = { refl };

    fn play(state: PathBuilder, numbers: &[f32; 2], verbs: &mut [u8], points: &mut [f32]) -> Reply {
        let [x, y] = *numbers;
        state.line_to(verbs, points, Vec2 { x, y })
    }
}

struct Quads;

impl Kind<4> for Quads {
    const BYTE: u8 = 2;

    ghost BYTE = { 2 };

    ghost is_kind = { Prim.search rules };

    ghost takes = { refl };

    fn play(state: PathBuilder, numbers: &[f32; 4], verbs: &mut [u8], points: &mut [f32]) -> Reply {
        let [cx, cy, x, y] = *numbers;
        state.quad_to(verbs, points, Vec2 { x: cx, y: cy }, Vec2 { x, y })
    }
}

struct Cubics;

impl Kind<6> for Cubics {
    const BYTE: u8 = 3;

    ghost BYTE = { 3 };

    ghost is_kind = { Prim.search rules };

    ghost takes = { refl };

    fn play(state: PathBuilder, numbers: &[f32; 6], verbs: &mut [u8], points: &mut [f32]) -> Reply {
        let [cx, cy, dx, dy, x, y] = *numbers;
        state.cubic_to(
            verbs,
            points,
            Vec2 { x: cx, y: cy },
            Vec2 { x: dx, y: dy },
            Vec2 { x, y },
        )
    }
}

struct Closes;

impl Kind<0> for Closes {
    const BYTE: u8 = 4;

    ghost BYTE = { 4 };

    ghost is_kind = { Prim.search rules };

    ghost takes = { refl };

    fn play(
        state: PathBuilder,
        _numbers: &[f32; 0],
        verbs: &mut [u8],
        points: &mut [f32],
    ) -> Reply {
        state.close(verbs, points)
    }
}

struct Conics;

impl Kind<5> for Conics {
    const BYTE: u8 = 5;

    ghost BYTE = { 5 };

    ghost is_kind = { Prim.search rules };

    ghost takes = { refl };

    fn play(state: PathBuilder, numbers: &[f32; 5], verbs: &mut [u8], points: &mut [f32]) -> Reply {
        let [cx, cy, x, y, w] = *numbers;
        state.conic_to(verbs, points, Vec2 { x: cx, y: cy }, Vec2 { x, y }, w)
    }
}

struct Rules<const EVEN_ODD: bool>;

impl<const EVEN_ODD: bool> Kind<0> for Rules<EVEN_ODD> {
    const BYTE: u8 = if EVEN_ODD { 7 } else { 6 };

    ghost BYTE = { rule_kind EVEN_ODD };

    ghost is_kind = { rule_is_kind EVEN_ODD };

    ghost takes = { rule_takes EVEN_ODD };

    #[tactic(auto, using(crate::proofs::Tables::told_called))]
    fn play(
        state: PathBuilder,
        _numbers: &[f32; 0],
        verbs: &mut [u8],
        points: &mut [f32],
    ) -> Reply {
        let rule = if EVEN_ODD {
            FillRule::EvenOdd
        } else {
            FillRule::NonZero
        };
        state.with_fill_rule(rule).into()
    }
}

struct Notes;

impl Kind<5> for Notes {
    const BYTE: u8 = 8;

    ghost BYTE = { 8 };

    ghost is_kind = { Prim.search rules };

    ghost takes = { refl };

    #[tactic(auto, using(crate::proofs::Tables::told_called))]
    fn play(state: PathBuilder, numbers: &[f32; 5], verbs: &mut [u8], points: &mut [f32]) -> Reply {
        let [x0, y0, x1, y1, radius] = *numbers;
        let rect = Rect {
            min: Vec2 { x: x0, y: y0 },
            max: Vec2 { x: x1, y: y1 },
        };
        state.as_rounded_rect(rect, radius).into()
    }
}

// ---- the calls that stand next, as long as they are of one kind

// What a list of calls left: how many calls were played, how many of them were refused, and the state. With the state first, a line took five instructions more.
#[derive(Clone, Copy)]
pub struct Replayed {
    pub calls: usize,
    pub refused: usize,
    pub state: PathBuilder,
}

// Where the playing stands: the list's kinds, the numbers that are left, and what was played. The kinds are asked for by the count of calls, which is an
// answer too: tried as a slice of those that are left, beside that of the numbers, a line took two or three instructions more.
#[derive(Clone, Copy)]
struct Run<'a> {
    kinds: &'a [u8],
    numbers: &'a [f32],
    done: Replayed,
    ghost few: { (done.refused ≤ done.calls) × (done.calls ≤ length kinds.now) },
}

impl<'a> Run<'a> {
    ghost use Rattle.replay.specs.Run.{next_kind, calls_of, First, Begun, Behind, Ran};

    // Before the first call, on a fresh builder.
    fn new(kinds: &'a [u8], numbers: &'a [f32]) -> Run<'a>
        ensures { Begun kinds.now numbers.now result }
    {
        Run {
            kinds,
            numbers,
            done: Replayed {
                state: PathBuilder::new(),
                calls: 0,
                refused: 0,
            },
        }
    }

    // The next call's numbers and those behind them, if it is of kind K and its numbers are there.
    fn next<const N: usize, K: Kind<N>>(self) -> Option<(&'a [f32; N], &'a [f32])>
        ensures { MatchOption result (next_kind self.entry ≡ K.BYTE → calls_of self.entry ≡ []) (λ p. First K.BYTE self.entry p.0.now p.1.now) }
    {
        let &kind = self.kinds.get(self.done.calls)?;
        if kind != K::BYTE {
            return None;
        }
        let (own, numbers) = self.numbers.split_first_chunk()?;
        Some((own, numbers))
    }

    // Goes on behind a call that got this reply, with the numbers that are left then.
    fn go_on(self, reply: Reply, numbers: &'a [f32]) -> Run<'a>
        requires { self.done.calls < length self.kinds.now }
        ensures { Behind self.entry reply numbers.now result }
    {
        let done = Replayed {
            state: reply.state,
            calls: self.done.calls + 1,
            refused: self.done.refused + usize::from(reply.quads.is_err()),
        };
        Run {
            kinds: self.kinds,
            numbers,
            done,
        }
    }

    // Plays the calls that stand next, as long as they are of kind K.
    fn play_run<const N: usize, K: Kind<N>>(self, verbs: &mut [u8], points: &mut [f32]) -> Run<'a>
        requires { next_kind self ≡ K.BYTE }
        ensures { Ran self.entry verbs.old points.old result verbs.new points.new }
    {
        let mut q = self;
        while let Some((own, numbers)) = q.next::<N, K>() {
            let reply = K::play(q.done.state, own, verbs, points);
            q = q.go_on(reply, numbers);
        }
        q
    }

    // Plays the next call alone, if it is of kind K: with a loop for fill rules and notes too, lines took more instructions.
    fn play_one<const N: usize, K: Kind<N>>(self, verbs: &mut [u8], points: &mut [f32]) -> Run<'a>
        requires { next_kind self ≡ K.BYTE }
        ensures { Ran self.entry verbs.old points.old result verbs.new points.new }
    {
        let Some((own, numbers)) = self.next::<N, K>() else {
            return self;
        };
        let reply = K::play(self.done.state, own, verbs, points);
        self.go_on(reply, numbers)
    }

    // Plays the calls that stand next, of this kind; of a byte that is no kind, nothing. A list comes as bytes, since C makes it.
    fn play_kind(self, kind: u8, verbs: &mut [u8], points: &mut [f32]) -> Run<'a>
        requires { next_kind self ≡ kind }
        ensures { Ran self.entry verbs.old points.old result verbs.new points.new }
    {
        match kind {
            0 => self.play_run::<2, Moves>(verbs, points),
            1 => self.play_run::<2, Lines>(verbs, points),
            2 => self.play_run::<4, Quads>(verbs, points),
            3 => self.play_run::<6, Cubics>(verbs, points),
            4 => self.play_run::<0, Closes>(verbs, points),
            5 => self.play_run::<5, Conics>(verbs, points),
            6 => self.play_one::<0, Rules<false>>(verbs, points),
            7 => self.play_one::<0, Rules<true>>(verbs, points),
            8 => self.play_one::<5, Notes>(verbs, points),
            _ => self,
        }
    }
}

// ---- the whole list

// Plays an encoded list of calls on a fresh builder over the lent buffers.
pub fn replay(kinds: &[u8], numbers: &[f32], verbs: &mut [u8], points: &mut [f32]) -> Replayed
    ensures { outcome result verbs.new points.new
        ≡ replayed kinds.now numbers.now verbs.old points.old }
{
    let mut r = Run::new(kinds, numbers);
    // no `for`: a turn plays as many calls as are of one kind
    while let Some(&kind) = r.kinds.get(r.done.calls) {
        let before = r.done.calls;
        r = r.play_kind(kind, verbs, points);
        if r.done.calls == before {
            break;
        }
    }
    r.done
}
