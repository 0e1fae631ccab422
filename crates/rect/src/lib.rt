// An axis-aligned bounding box: `Rect` of path.rs.
#![tactic(auto)]

ghost use Rattle.std.specs.Prelude.{◌≡◌};
ghost use Rattle.float.specs.Small.{maximum};
ghost use Rattle.float.specs.Arith.{minus, f0};
ghost use Rattle.rect.specs.Rect.{rect, empty_rect, widened, is_empty_rect, between, holds, width_of, height_of};

use vec2::Vec2;

// A box from one corner to the other.
#[repr(C)]
#[derive(Clone, Copy, PartialEq)]
pub struct Rect {
    pub min: Vec2,
    pub max: Vec2,
}

fn within(v: f32, low: f32, high: f32) -> bool
    ensures { result ≡ between low v high }
{
    v >= low && v <= high
}

// How far it is from one side to the other, and 0 where they are turned about.
fn extent(low: f32, high: f32) -> f32
    ensures { result ≡ maximum (minus high low) f0 }
{
    float::max(high - low, 0.0)
}

impl Rect {
    pub fn new(min: Vec2, max: Vec2) -> Rect
        ensures { result ≡ rect min max }
    {
        Rect { min, max }
    }

    // The rect that holds nothing, from +∞ to −∞: it takes in any point.
    pub fn empty() -> Rect
        ensures { result ≡ empty_rect }
    {
        let high = f32::INFINITY;
        let low = f32::NEG_INFINITY;
        Rect {
            min: Vec2 { x: high, y: high },
            max: Vec2 { x: low, y: low },
        }
    }

    pub fn is_empty(self) -> bool
        ensures { result ≡ is_empty_rect self }
    {
        self.min.x > self.max.x || self.min.y > self.max.y
    }

    // The rect with one point more.
    pub fn union_point(self, p: Vec2) -> Rect
        ensures { result ≡ widened self p }
    {
        Rect {
            min: self.min.min(p),
            max: self.max.max(p),
        }
    }

    pub fn contains(self, p: Vec2) -> bool
        ensures { result ≡ holds self p }
    {
        within(p.x, self.min.x, self.max.x) && within(p.y, self.min.y, self.max.y)
    }

    pub fn width(self) -> f32
        ensures { result ≡ width_of self }
    {
        extent(self.min.x, self.max.x)
    }

    pub fn height(self) -> f32
        ensures { result ≡ height_of self }
    {
        extent(self.min.y, self.max.y)
    }
}
