// A dash pattern: whether it can be walked, its working cycle, and the line styles.
#![tactic(auto)]

ghost use Rattle.std.specs.Prelude.{◌≡◌, ◌+◌, ◌≤◌, length, take};
ghost use Rattle.std.specs.Result.{result_map_both};
ghost use Rattle.std.proofs.lemmas.List.Edits.{sets};
ghost use Rattle.float.specs.Arith.{f0};
ghost use Rattle.pattern.specs.Cycle.{max_intervals, max_cycle, cycle_of, working_cycle, sum_from, good_interval, all_good, usable, cuts};
ghost use Rattle.pattern.specs.Style.{line_style};

use path::Refusal;

// The most intervals of a pattern, and of its working cycle.
pub const MAX_INTERVALS: usize = 64;

const MAX_CYCLE: usize = 128;

// The intervals of a line style. `path::style` has an answer for every number: the refusal asks for the number itself.
pub fn line_style(number: usize) -> Result<&'static [f32], Refusal>
    ensures { result_map_both (λ s. s.now) (λ r. r) result ≡ line_style number }
{
    if 8 < number {
        return Err(Refusal::NoStyle);
    }
    Ok(path::style(number))
}

// ---- the pattern

// The sum of the floats, added first to last.
pub fn sum_of(xs: &[f32]) -> f32
    ensures { result ≡ sum_from f0 xs.now }
{
    xs.iter().fold(0.0, |s, x| s + *x)
}

fn is_good(x: f32) -> bool
    ensures { result ≡ good_interval x }
{
    float::is_finite(x) && 0.0 <= x
}

// Whether each interval is finite and 0 or more.
fn all_good(xs: &[f32]) -> bool
    ensures { result ≡ all_good xs.now }
{
    xs.iter().all(|x| is_good(*x))
}

// Whether this pattern describes something that can be walked. The phase comes beside the intervals, here and in the walk, as the scope's calls name them.
pub fn is_usable(intervals: &[f32], phase: f32) -> bool
    ensures { result ≡ usable intervals.now phase }
{
    !intervals.is_empty()
        && all_good(intervals)
        && 0.0 < sum_of(intervals)
        && float::is_finite(phase)
}

// The working cycle: the first `len` of `values`, an even number, and zeros behind them; room for as many as a pattern laid twice has. The array is the scope's
// form, and there is no heap.
#[derive(Clone, Copy)]
pub struct Cycle {
    pub values: [f32; MAX_CYCLE],
    pub len: usize,
    pub ghost few: { len ≤ max_cycle },
}

impl Cycle {
    pub fn intervals(&self) -> &[f32]
        ensures { result.now ≡ take self.now.len self.now.values }
    {
        &self.values[..self.len]
    }
}

// Stores the floats from place i on.
#[tactic(auto, using(crate::proofs::Cycles::part_set))]
fn copy_in(values: &mut [f32], i: usize, xs: &[f32])
    requires { i + length xs.now ≤ length values.old }
    ensures { values.new ≡ sets values.old i xs.now }
{
    values[i..i + xs.len()].copy_from_slice(xs);
}

// The intervals as an even-length cycle: an odd pattern is laid twice.
pub fn cycle_of(intervals: &[f32]) -> Cycle
    requires { length intervals.now ≤ max_intervals }
    ensures whole { result.values ≡ working_cycle intervals.now }
    ensures count { result.len ≡ length (cycle_of intervals.now) }
{
    let mut values = [0.0f32; MAX_CYCLE];
    let n = intervals.len();
    copy_in(&mut values, 0, intervals);
    if n % 2 == 0 {
        return Cycle { values, len: n };
    }
    copy_in(&mut values, n, intervals);
    Cycle { values, len: n + n }
}

// Whether the path is cut, and not drawn whole; `cycle` is the pattern's working cycle. A tolerance that is a NaN draws it whole.
pub fn is_cut(intervals: &[f32], cycle: &[f32], phase: f32, tolerance: f32) -> bool
    requires { cycle.now ≡ cycle_of intervals.now }
    ensures { result ≡ cuts intervals.now phase tolerance }
{
    if !is_usable(intervals, phase) {
        return false;
    }
    let period = sum_of(cycle);
    float::is_finite(period) && tolerance < period
}
