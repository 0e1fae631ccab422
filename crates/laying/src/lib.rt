// A pen that lays what a walk draws into the two dash buffers, which stay two arguments, as every pen has them.
#![tactic(auto)]

ghost use Rattle.std.specs.Prelude.{◌≡◌, ℕ, Bool, false, ◌+◌, ◌*◌, ◌<◌, List, length, Float};
ghost use Rattle.vec2.specs.declared.Vec2.{Vec2};
ghost use Rattle.events.specs.declared.Event.{Event};
ghost use Rattle.strokes.specs.Pen.{Laws};
ghost use Rattle.strokes.specs.Lay.{Sheet, sheet, out, lay_verb, stroke, lay_event, lay_begin, Lays, LaysBegin, never, Room};
ghost use Rattle.strokes.proofs.Lays.{lay_laws};

use events::Event;
use pen::Pen;
use strokes::Tip;
use vec2::Vec2;

// What is laid. The verbs behind those are not touched.
#[derive(Clone, Copy)]
pub struct Laying {
    pub tip: Tip,
}

// Lays one verb with its point.
fn lay(verbs: &mut [u8], floats: &mut [f32], at: usize, verb: u8, p: Vec2) -> usize
    requires { (at < length verbs.old) × (2 * at + 1 < length floats.old) }
    ensures { out verbs.new floats.new result ≡ lay_verb (out verbs.old floats.old at) verb p }
{
    verbs[at] = verb;
    vec2::put(floats, at, p);
    at + 1
}

impl Laying {
    // Lays a line to z, behind a move to a where the pen is up, and leaves the pen up or down.
    fn stroke(self, a: Vec2, z: Vec2, down: bool, verbs: &mut [u8], floats: &mut [f32]) -> Self
        requires { Room (length verbs.old) (length floats.old) (stroke self.tip.down (out verbs.old floats.old self.tip.at) a z) }
        ensures { sheet verbs.new floats.new result.tip ≡ record { page = stroke self.tip.down (out verbs.old floats.old self.tip.at) a z; down = down } }
    {
        let at = if self.tip.down {
            self.tip.at
        } else {
            lay(verbs, floats, self.tip.at, path::MOVE, a)
        };
        let tip = Tip {
            at: lay(verbs, floats, at, path::LINE, z),
            down,
        };
        Laying { tip }
    }
}

impl Pen for Laying {
    ghost State = { Sheet };

    ghost on = { λ l vs fs. sheet vs fs l.tip };

    ghost told = { lay_event };

    ghost begun = { lay_begin };

    ghost full = { never };

    ghost takes = { Lays };

    ghost begins = { LaysBegin };

    fn tell(self, e: Event, verbs: &mut [u8], floats: &mut [f32]) -> Self {
        match e {
            Event::Nothing | Event::Pass(_) => {
                let tip = Tip {
                    down: false,
                    ..self.tip
                };
                Laying { tip }
            }
            Event::Cut(a, z) => self.stroke(a, z, false, verbs, floats),
            Event::Reach(a, c) => self.stroke(a, c, true, verbs, floats),
        }
    }

    // A dash begins by a move.
    fn begin(self, a: Vec2, verbs: &mut [u8], floats: &mut [f32]) -> Self {
        let tip = Tip {
            at: lay(verbs, floats, self.tip.at, path::MOVE, a),
            down: true,
        };
        Laying { tip }
    }

    fn is_full(self) -> bool {
        false
    }

    ghost laws = { lay_laws };
}
