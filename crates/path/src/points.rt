// The points of a float buffer, one at a time.
#![tactic(auto)]

use vec2::Vec2;

// The points that have not been given yet. Each is two successive floats; an odd last float is passed over.
#[derive(Clone, Copy)]
pub struct Points<'a> {
    pairs: &'a [[f32; 2]],
}

impl<'a> Points<'a> {
    ghost use Rattle.std.specs.Prelude.{◌≡◌};
    ghost use Rattle.vec2.specs.Points.{points_in};
    ghost use Rattle.path.specs.Points.{left};

    pub fn new(floats: &'a [f32]) -> Points<'a>
        ensures { left result ≡ points_in floats.now }
    {
        Points {
            pairs: floats.as_chunks().0,
        }
    }
}

impl Iterator for Points<'_> {
    ghost use Rattle.std.specs.Iterator.{YieldsFirst, item_count};
    ghost use Rattle.path.specs.Points.{left};

    type Item = Vec2;

    ghost next_gives = { YieldsFirst left };

    ghost remaining = { item_count left };

    fn next(&mut self) -> Option<Vec2> {
        let (&[x, y], pairs) = self.pairs.split_first()?;
        self.pairs = pairs;
        Some(Vec2 { x, y })
    }
}
