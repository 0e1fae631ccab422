// A point, or the way from one point to another: glam's Vec2 as the scope reads it, by value.
#![tactic(auto)]

ghost use Rattle.std.specs.Prelude.{◌≡◌, ◌∷◌, [], ◌+◌, ◌*◌, ◌≤◌, length};
ghost use Rattle.std.proofs.lemmas.List.Edits.{sets};
ghost use Rattle.vec2.specs.Points.{flat};
ghost use Rattle.vec2.specs.Vec2.{vec, origin, ◌⊕◌, ◌⊖◌, ◌⊙◌, ◌⊘◌, len, perp_dot, minimum, maximum, abs_of, max_element, any_nan, all_finite};

use std::ops::{Add, Div, Mul, Sub};

// Two are equal as numbers: −0 equals 0, and a NaN equals nothing.
#[repr(C)]
#[derive(Clone, Copy, PartialEq)]
pub struct Vec2 {
    pub x: f32,
    pub y: f32,
}

// The four operators differ in the operation alone, which is all that each of them says: by a function that takes it they would be longer.
impl Add for Vec2 {
    type Output = Vec2;

    ghost add_gives = { λ a b r. r ≡ a ⊕ b };

    fn add(self, b: Vec2) -> Vec2 {
        Vec2 {
            x: self.x + b.x,
            y: self.y + b.y,
        }
    }
}

impl Sub for Vec2 {
    type Output = Vec2;

    ghost sub_gives = { λ a b r. r ≡ a ⊖ b };

    fn sub(self, b: Vec2) -> Vec2 {
        Vec2 {
            x: self.x - b.x,
            y: self.y - b.y,
        }
    }
}

impl Mul<f32> for Vec2 {
    type Output = Vec2;

    ghost mul_gives = { λ a k r. r ≡ a ⊙ k };

    fn mul(self, k: f32) -> Vec2 {
        Vec2 {
            x: self.x * k,
            y: self.y * k,
        }
    }
}

impl Div<f32> for Vec2 {
    type Output = Vec2;

    ghost div_gives = { λ a k r. r ≡ a ⊘ k };

    fn div(self, k: f32) -> Vec2 {
        Vec2 {
            x: self.x / k,
            y: self.y / k,
        }
    }
}

impl Vec2 {
    pub fn new(x: f32, y: f32) -> Vec2
        ensures { result ≡ vec x y }
    {
        Vec2 { x, y }
    }

    // (0, 0), the source's Vec2::ZERO.
    pub fn zero() -> Vec2
        ensures { result ≡ origin }
    {
        Vec2 { x: 0.0, y: 0.0 }
    }

    pub fn length(self) -> f32
        ensures { result ≡ len self }
    {
        root::sqrt(self.x * self.x + self.y * self.y)
    }

    // Above zero where b turns from self toward positive angles.
    pub fn perp_dot(self, b: Vec2) -> f32
        ensures { result ≡ perp_dot self b }
    {
        self.x * b.y - self.y * b.x
    }

    // By component, and `max` like it: they differ in the function that they name.
    pub fn min(self, b: Vec2) -> Vec2
        ensures { result ≡ minimum self b }
    {
        Vec2 {
            x: float::min(self.x, b.x),
            y: float::min(self.y, b.y),
        }
    }

    pub fn max(self, b: Vec2) -> Vec2
        ensures { result ≡ maximum self b }
    {
        Vec2 {
            x: float::max(self.x, b.x),
            y: float::max(self.y, b.y),
        }
    }

    pub fn abs(self) -> Vec2
        ensures { result ≡ abs_of self }
    {
        Vec2 {
            x: float::abs(self.x),
            y: float::abs(self.y),
        }
    }

    pub fn max_element(self) -> f32
        ensures { result ≡ max_element self }
    {
        float::max(self.x, self.y)
    }

    // Whether a component is a NaN.
    #[tactic(auto, unfolding(crate::specs::Vec2::any_nan))]
    pub fn is_nan(self) -> bool
        ensures { result ≡ any_nan self }
    {
        self.x.is_nan() || self.y.is_nan()
    }

    // Whether both components are finite.
    #[tactic(auto, unfolding(crate::specs::Vec2::all_finite))]
    pub fn is_finite(self) -> bool
        ensures { result ≡ all_finite self }
    {
        float::is_finite(self.x) && float::is_finite(self.y)
    }
}

// Stores a point in a buffer of points.
pub fn put(out: &mut [f32], at: usize, p: Vec2)
    requires { 2 * (at + 1) ≤ length out.old }
    ensures { out.new ≡ sets out.old (2 * at) (flat (p ∷ [])) }
{
    let j = 2 * at;
    out[j] = p.x;
    out[j + 1] = p.y;
}
