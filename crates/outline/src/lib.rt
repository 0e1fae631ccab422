// What a dashing answers and leaves: the types, the definitions and their laws. The room has no functions.
#![tactic(auto)]

use path::FillRule;

// What is cut: the verbs and points in the dash buffers, the points and polylines in the scratch, how many of the path's curves were held back, and the
// path's fill rule.
#[derive(Clone, Copy, PartialEq, Eq)]
pub struct Outline {
    pub verbs: usize,
    pub points: usize,
    pub scratch: usize,
    pub polylines: usize,
    pub held: usize,
    pub rule: FillRule,
}

// The drawn outline is the path's own part, or what is cut.
#[derive(Clone, Copy, PartialEq, Eq)]
pub enum Dashed {
    Whole,
    Cut(Outline),
}
