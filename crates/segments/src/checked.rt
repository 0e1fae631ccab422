// A path whose points are enough for its verbs.
ghost use Rattle.std.specs.Prelude.{◌≡◌};

use crate::Segments;
use path::Refusal;
use std::marker::Model;

// Verbs, and points enough for all of them. The fields are open: whoever has shown the fact may write the struct, without the check.
#[derive(Drop)]
pub struct Path<'a> {
    pub verbs: &'a [u8],
    pub points: &'a [f32],
}

impl<'a> Model for Path<'a> {
    ghost use Rattle.std.specs.Prelude.{◌*◌, ◌≤◌, length};
    ghost use Rattle.path.specs.Check.{used_by};
    ghost use Rattle.segments.specs.Path.{Parts};

    ghost Value = { Parts };

    ghost view = { λ p. record { verbs = p.verbs.now; points = p.points.now } };

    ghost invariant = { λ p. 2 * used_by p.verbs.now ≤ length p.points.now };
}

impl<'a> Path<'a> {
    ghost use Rattle.std.specs.Prelude.{◌≤◌, length};
    ghost use Rattle.path.specs.Segment.{segments};
    ghost use Rattle.segments.specs.Path.{checked};
    ghost use Rattle.segments.specs.Read.{left};

    // The path, where the check lets it pass, or what refuses it.
    pub fn new(verbs: &'a [u8], points: &'a [f32]) -> Result<Path<'a>, Refusal>
        ensures { result ≡ checked verbs.now points.now }
    {
        path::check(verbs, points)?;
        Ok(Path { verbs, points })
    }

    pub fn verbs(&self) -> &'a [u8]
        ensures { result.now ≡ self.now.verbs }
    {
        self.verbs
    }

    // All of its segments: no verb lacks points.
    pub fn segments(&self) -> Segments<'a>
        ensures all { left result ≡ segments self.now.verbs self.now.points }
        ensures few { length (left result) ≤ length self.now.verbs }
    {
        Segments::new(self.verbs, self.points)
    }
}
