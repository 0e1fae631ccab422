// The turns of an outline, and what they say of it: the types, the definitions and their laws. The room has no functions but a conversion.
#![tactic(auto)]

ghost use Rattle.std.specs.Prelude.{◌≡◌};
ghost use Rattle.turns.specs.Reason.{convexity_of};

// ---- what the calls answer

// Whether a path is convex, which selects the fill strategy.
#[derive(Clone, Copy, PartialEq, Eq)]
pub enum Convexity {
    Convex,
    Concave,
}

// Why an outline is Convex, the first three, or Concave.
#[derive(Clone, Copy, PartialEq, Eq)]
pub enum Reason {
    FewPoints,
    NoTurn,
    Agree,
    // the index of the vertex
    Opposing(usize),
    // the quadrants in all
    FullTurn(u32),
    Curve,
    SecondMove,
}

// What a reason says.
impl From<Reason> for Convexity {
    ghost from_gives = { λ r c. c ≡ convexity_of r };

    fn from(reason: Reason) -> Convexity {
        match reason {
            Reason::FewPoints | Reason::NoTurn | Reason::Agree => Convexity::Convex,
            Reason::Opposing(_) | Reason::FullTurn(_) | Reason::Curve | Reason::SecondMove => {
                Convexity::Concave
            }
        }
    }
}

// ---- turns

// The side that a turn goes to. Straight: the turn is too small to count for the side.
#[derive(Clone, Copy, PartialEq, Eq, Default)]
pub enum Side {
    #[default]
    Straight,
    Left,
    Right,
}

// A turn: its side, and how many quadrants it goes through to the left.
#[derive(Clone, Copy, PartialEq, Eq)]
pub struct Turn {
    pub side: Side,
    pub advance: u32,
}

// The turns so far: their side, and the quadrants in all, read as turns to the left and to the right.
#[derive(Clone, Copy, PartialEq, Eq, Default)]
pub struct Tally {
    pub side: Side,
    pub left: u32,
    pub right: u32,
}
