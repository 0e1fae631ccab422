// A pen that counts what a walk draws, and works out no point. The two buffers stay two arguments, as every pen has them.
#![tactic(auto)]

ghost use Rattle.std.specs.Prelude.{◌≡◌, ℕ, Bool, false, ◌^◌, ◌<◌, List, Float};
ghost use Rattle.vec2.specs.declared.Vec2.{Vec2};
ghost use Rattle.events.specs.declared.Event.{Event};
ghost use Rattle.strokes.specs.Pen.{Laws};
ghost use Rattle.strokes.specs.Count.{tally_stroke, tally_lift, Count, count_event, count_begin, is_over, Counts, CountsBegin};
ghost use Rattle.strokes.proofs.Counts.{count_laws};

use events::Event;
use pen::Pen;
use strokes::Tip;
use vec2::Vec2;

// What is counted, and the number over which counting stops, so that a fine pattern on a long path is refused at once.
#[derive(Clone, Copy)]
pub struct Counting {
    pub tip: Tip,
    pub cap: usize,
}

impl Counting {
    // A stroke more, which leaves the pen up or down.
    fn stroke(self, down: bool) -> Self
        requires { self.tip.at < 2 ^ 62 }
        ensures { (result.tip ≡ tally_stroke self.tip down) × (result.cap ≡ self.cap) }
    {
        let at = if self.tip.down {
            self.tip.at + 1
        } else {
            self.tip.at + 2
        };
        Counting {
            tip: Tip { at, down },
            ..self
        }
    }

    // Nothing more, and the pen is up.
    fn lift(self) -> Self
        ensures { (result.tip ≡ tally_lift self.tip) × (result.cap ≡ self.cap) }
    {
        let tip = Tip {
            down: false,
            ..self.tip
        };
        Counting { tip, ..self }
    }
}

impl Pen for Counting {
    ghost State = { Count };

    ghost on = { λ k vs fs. record { tip = k.tip; cap = k.cap } };

    ghost told = { count_event };

    ghost begun = { count_begin };

    ghost full = { is_over };

    ghost takes = { Counts };

    ghost begins = { CountsBegin };

    fn tell(self, e: Event, _verbs: &mut [u8], _floats: &mut [f32]) -> Self {
        match e {
            Event::Nothing | Event::Pass(_) => self.lift(),
            Event::Cut(..) => self.stroke(false),
            Event::Reach(..) => self.stroke(true),
        }
    }

    // Where it begins does not count.
    fn begin(self, _a: Vec2, _verbs: &mut [u8], _floats: &mut [f32]) -> Self {
        self.lift()
    }

    fn is_full(self) -> bool {
        self.cap < self.tip.at
    }

    ghost laws = { count_laws };
}
