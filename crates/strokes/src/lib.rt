// What a walk's events do to a pen: counted and laid, stroke by stroke. The room has definitions and laws, and no functions.
#![tactic(auto)]

// How many verbs are laid, and whether the pen is down. The number stands with the pen up, too, so it is no Option.
#[derive(Clone, Copy, Default)]
pub struct Tip {
    pub at: usize,
    pub down: bool,
}
