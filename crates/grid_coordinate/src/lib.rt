// One coordinate of a point: the answer for it, and the whole number nearest to it.
#![tactic(auto)]

ghost use Rattle.std.specs.Prelude.{◌≡◌, ◌/◌, ◌%◌, ◌^◌, ◌<◌};
ghost use Rattle.std.specs.Float.{binary32};
ghost use Rattle.std.specs.Float.Ieee.{of_bits};
ghost use Rattle.base_answers.specs.Answers.{said};
ghost use Rattle.grid_coordinate.specs.Units.{units};
ghost use Rattle.grid_coordinate.specs.Places.{whole, answer_of};

use base_answers::Refusal;

// The answer for one coordinate. The float beside a whole number is what is left of the value.
#[derive(Clone, Copy)]
pub enum Coordinate {
    Exact(i32),
    Shifted(i32, f32),
    NotFinite,
    TooFar(f32),
}

impl Coordinate {
    // What it means for the sheet, the coordinate's word having this index: refusal 7 or 8 there, or no refusal.
    pub fn answer(self, word: usize) -> Result<(), Refusal>
        ensures { said result ≡ answer_of word self }
    {
        match self {
            Coordinate::Exact(_) | Coordinate::Shifted(_, _) => Ok(()),
            Coordinate::NotFinite => Err(Refusal::NotFinite(word)),
            Coordinate::TooFar(_) => Err(Refusal::TooFar(word)),
        }
    }
}

// Three quarters of 2^24: a float of this size has no binary places, and an even last one.
const LIFT: u32 = 0xc0_0000;

// The whole number nearest to a number below 2^22, a tie to the even one. The sum has no room for binary places, so the
// addition itself rounds to a whole number, and by the rule of floats a tie goes to the even one.
pub fn nearest(word: u32) -> i32
    requires { word % 2 ^ 31 / 2 ^ 23 < 149 }
    ensures { result ≡ whole 1 (units (of_bits binary32 word)) }
{
    (f32::from_bits(word) + LIFT as f32) as i32 - LIFT as i32
}
