// What the parts answer. Enums do not cross over to C, so an answer is a struct of numbers.
ghost use Rattle.std.specs.Prelude.{◌≡◌};
ghost use Rattle.score.specs.Scored.{score_is};
ghost use Rattle.parts.specs.Answers.{score_out};

use score::Threshold;

// The best threshold of a property, its cost, and how many rows are at or under it; found is 0 where there is none.
// Stays: a number beside the threshold, since an Option does not cross over to C.
#[repr(C)]
#[derive(Clone, Copy)]
pub struct Scored {
    pub found: u32,
    pub threshold: i32,
    pub cost: f32,
    pub below: u32,
}

// What scoring found, as numbers.
impl From<Option<Threshold>> for Scored {
    ghost from_gives = { λ r it. score_out it ≡ score_is r };

    fn from(r: Option<Threshold>) -> Scored {
        match r {
            None => Scored {
                found: 0,
                threshold: 0,
                cost: 0.0,
                below: 0,
            },
            Some(Threshold { val, bits, below }) => Scored {
                found: 1,
                threshold: val,
                cost: bits,
                below,
            },
        }
    }
}
