// The numbers of a dash cycle: where a walk begins, and which interval is next.
#![tactic(auto)]

ghost use Rattle.std.specs.Prelude.{◌≡◌, ◌<◌, length};
ghost use Rattle.events.specs.Zeros.{is_zero, after, first_above, next, one_above, gaps_only};
ghost use Rattle.events.specs.Phase.{start_of};
ghost use Rattle.events.specs.Walk.{nothing_left, turned};

use events::Pos;

// ---- the cycle

// An interval of 0 is passed over.
fn is_zero(x: f32) -> bool
    ensures { result ≡ is_zero x }
{
    x <= 0.0
}

// The next interval's number. That the index is below the cycle's length stands in each contract: a struct of the two would have to promise at each turn of the
// walk that the cycle is still the same, and would be no plainer.
fn index_after(cycle: &[f32], index: usize) -> usize
    requires { index < length cycle.now }
    ensures { (result ≡ after cycle.now index) × (result < length cycle.now) }
{
    if index + 1 < cycle.len() {
        return index + 1;
    }
    0
}

// The first interval from `index` on that is not 0; once round where all are. A walk asks for it where two zeros stand in a row, so it stays out of the walk's loop.
#[cold]
#[inline(never)]
fn first_above(cycle: &[f32], index: usize) -> usize
    requires { index < length cycle.now }
    ensures { (result ≡ first_above cycle.now index) × (result < length cycle.now) }
{
    let is_above = |i: &usize| !is_zero(cycle[*i]);
    if let Some(i) = (index..cycle.len()).find(is_above) {
        return i;
    }
    (0..index).find(is_above).unwrap_or(index)
}

// The next one that is not 0. Mostly it is the next, or the one behind a single 0: then nothing is searched.
fn next_above(cycle: &[f32], index: usize) -> usize
    requires { index < length cycle.now }
    ensures { (result ≡ next cycle.now index) × (result < length cycle.now) }
{
    let i = index_after(cycle, index);
    if !is_zero(cycle[i]) {
        return i;
    }
    let second = index_after(cycle, i);
    if !is_zero(cycle[second]) {
        return second;
    }
    first_above(cycle, i)
}

// Whether one of the intervals of number 0, 2, 4, .. is not 0.
fn one_above(intervals: &[f32]) -> bool
    ensures { result ≡ one_above intervals.now }
{
    intervals.iter().step_by(2).any(|x| !is_zero(*x))
}

// Every drawn interval is 0, and some gap is not: whatever is walked, nothing is drawn.
pub fn gaps_only(cycle: &[f32]) -> bool
    ensures { result ≡ gaps_only cycle.now }
{
    match cycle {
        [] => false,
        [_, from_first_gap @ ..] => !one_above(cycle) && one_above(from_first_gap),
    }
}

// ---- the phase

// A cycle, and where in it the walk of each polyline begins.
#[derive(Clone, Copy)]
pub struct Start<'a> {
    pub cycle: &'a [f32],
    pub pos: Pos,
    pub ghost indexed: { pos.index < length cycle.now },
}

// Where in the cycle a walk begins. What remains of the phase falls at each turn, or the loop is left.
pub fn start_of<'a>(cycle: &'a [f32], phase: f32, period: f32) -> Start<'a>
    requires { 0 < length cycle.now }
    ensures { (result.pos ≡ start_of cycle.now phase period) × (result.cycle.now ≡ cycle.now) }
{
    let mut remaining = remainder::rem_euclid(phase, period);
    let mut index = first_above(cycle, 0);
    while remaining >= cycle[index] {
        let next = remaining - cycle[index];
        if next >= remaining {
            break;
        }
        remaining = next;
        index = next_above(cycle, index);
    }
    let left = float::max(cycle[index] - remaining, 0.0);
    let drawing = index % 2 == 0;
    let pos = Pos {
        index,
        left,
        drawing,
    };
    Start { cycle, pos }
}

// Exactly nothing is left of the interval: less than nothing is not exactly.
pub fn nothing_left(p: Pos) -> bool
    ensures { result ≡ nothing_left p }
{
    p.left == 0.0
}

// The next interval that is not 0. Those of even number are drawn.
pub fn next_interval(cycle: &[f32], p: Pos) -> Pos
    requires { p.index < length cycle.now }
    ensures { (result ≡ turned cycle.now p) × (result.index < length cycle.now) }
{
    let i = next_above(cycle, p.index);
    Pos {
        index: i,
        left: cycle[i],
        drawing: i % 2 == 0,
    }
}
